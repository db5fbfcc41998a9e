//! The kinds of half-moves.
use super::setup::Wing;

/// What kind of half-move a move is.
#[derive(Clone, Copy, Debug, PartialEq, Eq)]
pub enum Effect {
    /// A plain move or capture.
    Plain,
    /// A pawn's first move of two squares.
    Double,
    /// A pawn's capture en passant.
    Passing,
    /// Castling on this wing.
    Castle(Wing),
    /// The null move: the mover passes.
    Null,
}
