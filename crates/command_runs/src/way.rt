//! The way of a tagged text.

use crate::page::TagPage;

/// The way of a text: the sink that it goes to, the page that it goes through, and the tag of its lines.
#[derive(Drop)]
pub struct Way<'o, 'p, 't, K> {
    pub out: &'o mut K,
    pub page: &'p mut TagPage,
    pub tag: &'t [u8],
}
