//! Why a base is not compacted.
ghost use Rattle.std.specs.Prelude.{◌≡◌};
ghost use Rattle.compact_base.specs.Errors.{draft_error, files_error, record_error};
ghost use Rattle.compact_base.specs.declared.fault.CompactError.TheVariants as error;

use base_core::{DraftError, EditError};
use base_files::DeviceError;
use sig_index::Sig;
use std::alloc::AllocError;
use thiserror::Error;

/// Why a base is not compacted.
#[derive(Clone, Copy, Debug, Drop, PartialEq, Eq, Error)]
pub enum CompactError {
    /// The new games file would pass 4,294,967,295 bytes.
    #[error("full file")]
    Full,
    /// The files failed.
    #[error("the files of the base failed")]
    Failed,
    /// The bytes of a game's record are no longer those of a game with the signature that is kept. They are no record,
    /// or one of a game whose signature is `found`.
    #[error("game {game} has changed")]
    Changed {
        game: u32,
        kept: Sig,
        found: Option<Sig>,
    },
    /// Memory ran out.
    #[error("out of memory")]
    Memory,
}

impl From<AllocError> for CompactError {
    ghost from_gives = { λ _ e. e ≡ error.Memory };

    fn from(_refused: AllocError) -> CompactError {
        CompactError::Memory
    }
}

impl From<DraftError> for CompactError {
    ghost from_gives = { λ refused e. e ≡ draft_error refused };

    fn from(refused: DraftError) -> CompactError {
        match refused {
            DraftError::Full => CompactError::Full,
            DraftError::Memory => CompactError::Memory,
        }
    }
}

impl From<DeviceError> for CompactError {
    ghost from_gives = { λ failed e. e ≡ files_error failed };

    fn from(failed: DeviceError) -> CompactError {
        match failed {
            DeviceError::Failed => CompactError::Failed,
            DeviceError::Memory => CompactError::Memory,
        }
    }
}

// Why a record is not copied that can't be read.
pub(crate) fn record_error(unread: EditError) -> CompactError
    ensures error { result ≡ record_error unread }
{
    match unread {
        EditError::Changed { game, kept, found } => CompactError::Changed { game, kept, found },
        EditError::Failed => CompactError::Failed,
        EditError::Memory => CompactError::Memory,
        // None of these comes of reading the record of a game that is there.
        EditError::NoGame(_) | EditError::TooLong(_) | EditError::Full(_) => CompactError::Memory,
    }
}
