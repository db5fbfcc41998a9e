//! Hits.
use cell_core::Move;

/// A game stands on a board: after `ply` half-moves of its main line, and `next` is the move after it, if there is one.
#[derive(Clone, Copy, Debug, Default, PartialEq, Eq)]
pub struct Hit {
    pub game: u32,
    pub ply: u8,
    pub next: Option<Move>,
}
