//! Why no item was read.
ghost use Rattle.std.specs.Prelude.{◌≡◌};
ghost use Rattle.pgn_read.specs.declared.error.PgnError.TheVariants as pgn;

use base_files::Failed;
use std::alloc::{AllocError, AllocFailed};
use thiserror::Error;

/// Why no item was read. The reader answers the same from then on.
#[derive(Clone, Copy, Debug, PartialEq, Eq, Error)]
pub enum PgnError {
    /// The source failed.
    #[error("cannot read the input")]
    Failed,
    /// Memory ran out.
    #[error("out of memory")]
    Memory,
}

impl From<Failed> for PgnError {
    ghost from_gives = { λ _ e. e ≡ pgn.Failed };

    fn from(_fault: Failed) -> PgnError {
        PgnError::Failed
    }
}

impl From<AllocError> for PgnError {
    ghost from_gives = { λ _ e. e ≡ pgn.Memory };

    fn from(_refused: AllocError) -> PgnError {
        PgnError::Memory
    }
}

impl<T: Drop> From<AllocFailed<T>> for PgnError {
    ghost from_gives = { λ _ e. e ≡ pgn.Memory };

    fn from(_refused: AllocFailed<T>) -> PgnError {
        PgnError::Memory
    }
}
