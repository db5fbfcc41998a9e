//! Search of games by their heads: no record is read, and no memory is taken.
#![tactic(auto)]

mod matching;
mod searching;

pub use matching::matches;
pub use searching::search;
pub use sig_index::HeadQuery;
