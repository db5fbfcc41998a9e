//! Why the twins of a base are not known.
ghost use Rattle.std.specs.Prelude.{◌≡◌};
ghost use Rattle.twin_games.specs.declared.fault.TwinError.TheVariants as error;

use sig_index::FetchError;
use std::alloc::{AllocError, AllocFailed};
use thiserror::Error;

/// Why the twins of a base are not known.
#[derive(Clone, Copy, Debug, PartialEq, Eq, Error)]
pub enum TwinError {
    /// A record was not read.
    #[error("{0}")]
    Fetch(FetchError),
    /// Memory ran out.
    #[error("out of memory")]
    Memory,
}

impl From<FetchError> for TwinError {
    ghost from_gives = { λ unread e. e ≡ error.Fetch unread };

    fn from(unread: FetchError) -> TwinError {
        TwinError::Fetch(unread)
    }
}

impl From<AllocError> for TwinError {
    ghost from_gives = { λ _ e. e ≡ error.Memory };

    fn from(_refused: AllocError) -> TwinError {
        TwinError::Memory
    }
}

impl<T: Drop> From<AllocFailed<T>> for TwinError {
    ghost from_gives = { λ _ e. e ≡ error.Memory };

    fn from(_refused: AllocFailed<T>) -> TwinError {
        TwinError::Memory
    }
}
