//! Where a game stands, by the number of the board.
use cell_core::Move;

/// A game stands on the board with this number after `ply` half-moves, and `next` is the move after it.
#[derive(Clone, Copy, Debug)]
pub(crate) struct Spot {
    pub board: u32,
    pub ply: u8,
    pub next: Option<Move>,
}
