//! Why an index was not built.
ghost use Rattle.std.specs.Prelude.{◌≡◌};
ghost use Rattle.pos_index.specs.declared.fault.BuildError.TheVariants as error;

use sig_index::FetchError;
use std::alloc::{AllocError, AllocFailed};
use thiserror::Error;

/// Why an index was not built.
#[derive(Clone, Copy, Debug, PartialEq, Eq, Error)]
pub enum BuildError {
    /// A record was not read.
    #[error("{0}")]
    Fetch(FetchError),
    /// Memory ran out.
    #[error("out of memory")]
    Memory,
}

impl From<FetchError> for BuildError {
    ghost from_gives = { λ unread e. e ≡ error.Fetch unread };

    fn from(unread: FetchError) -> BuildError {
        BuildError::Fetch(unread)
    }
}

impl From<AllocError> for BuildError {
    ghost from_gives = { λ _ e. e ≡ error.Memory };

    fn from(_refused: AllocError) -> BuildError {
        BuildError::Memory
    }
}

impl<T: Drop> From<AllocFailed<T>> for BuildError {
    ghost from_gives = { λ _ e. e ≡ error.Memory };

    fn from(_refused: AllocFailed<T>) -> BuildError {
        BuildError::Memory
    }
}
