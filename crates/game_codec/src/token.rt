//! The items of a record's moves.
use cell_core::Move;

/// One item of a record's moves. A comment has its text behind the moves.
#[derive(Clone, Copy, Debug, PartialEq, Eq)]
pub(crate) enum Token {
    Play(Move),
    Nag(u8),
    Comment,
    Open,
    Close,
    End,
}
