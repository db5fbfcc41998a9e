//! Why there is no crosstable.
ghost use Rattle.std.specs.Prelude.{◌≡◌};
ghost use Rattle.cross_table.specs.declared.fault.CrossError.TheVariants as error;

use std::alloc::AllocError;
use thiserror::Error;

/// Why there is no crosstable.
#[derive(Clone, Copy, Debug, PartialEq, Eq, Error)]
pub enum CrossError {
    /// So many names play in the event, which is more than 200.
    #[error("too many players: {0}")]
    TooMany(u32),
    /// Memory was refused.
    #[error("out of memory")]
    Memory,
}

impl From<AllocError> for CrossError {
    ghost from_gives = { λ _ why. why ≡ error.Memory };

    fn from(_refused: AllocError) -> CrossError {
        CrossError::Memory
    }
}
