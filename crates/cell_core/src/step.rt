//! A half-move as a value.
use super::man::Kind;
use super::square::Square;

/// A half-move. Castling is the king's step of two squares, and the null move has `from` and `to` on the mover's king.
/// Moves are ordered by `from`, then `to`, then the promotion: none, queen, rook, bishop, knight.
#[derive(Clone, Copy, Debug, Default, PartialEq, Eq, PartialOrd, Ord, Hash)]
pub struct Move {
    pub from: Square,
    pub to: Square,
    pub promo: Option<Kind>,
}
