//! Why a setup is no position.

use thiserror::Error;

/// Why a setup is no position: the first rule that it breaks, in this order.
#[derive(Clone, Copy, Debug, PartialEq, Eq, Error)]
pub enum PlaceFault {
    /// A side has no king, or several.
    #[error("a side has not exactly one king")]
    Kings,
    /// A pawn stands on the first or the last rank.
    #[error("a pawn stands on the first or the last rank")]
    Pawns,
    /// A side has more than 16 men.
    #[error("a side has more than 16 men")]
    TooMany,
    /// The side that is not to move is in check.
    #[error("the side that is not to move is in check")]
    InCheck,
    /// The en passant square is not on the sixth rank with White to move, or on the third with Black to move.
    #[error("the en passant square stands on the wrong rank")]
    EnPassant,
}
