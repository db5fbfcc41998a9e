//! Tokens over bytes that stand elsewhere.

use game_tree::Outcome;

/// A token of a text.
#[derive(Clone, Copy, Debug)]
pub(crate) enum Token<'a> {
    /// A tag's name, and its value as it stands, escapes and all.
    Tag(&'a [u8], &'a [u8]),
    /// What begins like a tag and is none.
    BadTag,
    Comment(&'a [u8]),
    /// A comment in braces that is not closed.
    OpenComment,
    Nag(u8),
    Opens,
    Closes,
    Ending(Outcome),
    Number,
    Move(&'a [u8]),
    /// What is no token.
    Bad,
    TheEnd,
}

/// A token, and the bytes behind it.
#[derive(Clone, Copy, Debug)]
pub(crate) struct Lexed<'a> {
    pub(crate) token: Token<'a>,
    pub(crate) rest: &'a [u8],
}
