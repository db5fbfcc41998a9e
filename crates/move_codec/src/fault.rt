//! Why bytes are no packed move.

use thiserror::Error;

/// Why bytes are no packed move of a position. The first that applies comes, in this order.
#[derive(Clone, Copy, Debug, PartialEq, Eq, Error)]
pub enum MoveFault {
    /// There is no byte, or no second byte of a queen's diagonal move.
    #[error("a byte is missing")]
    Short,
    /// The side to move has no man with this number.
    #[error("no man has this number")]
    NoMan,
    /// The value names no square.
    #[error("no such square")]
    Value,
    /// The move is not legal.
    #[error("not legal")]
    Illegal,
}
