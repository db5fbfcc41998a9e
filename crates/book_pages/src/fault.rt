//! Why a book is not made.
ghost use Rattle.std.specs.Prelude.{◌≡◌};
ghost use Rattle.book_pages.specs.declared.fault.BookError.TheVariants as error;

use sig_index::FetchError;
use std::alloc::{AllocError, AllocFailed};
use thiserror::Error;

/// Why a book is not made.
#[derive(Clone, Copy, Debug, PartialEq, Eq, Error)]
pub enum BookError {
    /// A record was not read.
    #[error("{0}")]
    Fetch(FetchError),
    /// Memory ran out.
    #[error("out of memory")]
    Memory,
}

impl From<FetchError> for BookError {
    ghost from_gives = { λ unread e. e ≡ error.Fetch unread };

    fn from(unread: FetchError) -> BookError {
        BookError::Fetch(unread)
    }
}

impl From<AllocError> for BookError {
    ghost from_gives = { λ _ e. e ≡ error.Memory };

    fn from(_refused: AllocError) -> BookError {
        BookError::Memory
    }
}

impl<T: Drop> From<AllocFailed<T>> for BookError {
    ghost from_gives = { λ _ e. e ≡ error.Memory };

    fn from(_refused: AllocFailed<T>) -> BookError {
        BookError::Memory
    }
}
