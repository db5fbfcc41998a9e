//! Why a base is not mended.
ghost use Rattle.std.specs.Prelude.{◌≡◌};
ghost use Rattle.mend_base.specs.Errors.{new_error, not_taken_error, old_error, report_error};
ghost use Rattle.mend_base.specs.declared.fault.MendError.TheVariants as error;

use base_core::{EditError, What};
use base_files::DeviceError;
use index_entry::IndexFault;
use std::alloc::AllocError;
use thiserror::Error;

/// Why no new base was made.
#[derive(Clone, Copy, Debug, Drop, PartialEq, Eq, Error)]
pub enum MendError {
    /// The header of the old index has this first fault, so that nothing tells how many entries there are.
    #[error("index file: {0}")]
    Bad(IndexFault),
    /// The new base would pass this limit.
    #[error("full {0}")]
    Full(What),
    /// The files of the old base failed.
    #[error("the files of the old base failed")]
    OldFailed,
    /// The files of the new base failed.
    #[error("the files of the new base failed")]
    NewFailed,
    /// The report failed.
    #[error("the report failed")]
    ReportFailed,
    /// Memory ran out.
    #[error("out of memory")]
    Memory,
}

impl From<AllocError> for MendError {
    ghost from_gives = { λ _ e. e ≡ error.Memory };

    fn from(_refused: AllocError) -> MendError {
        MendError::Memory
    }
}

// The error for one of the old files.
pub(crate) fn old_error(failed: DeviceError) -> MendError
    ensures error { result ≡ old_error failed }
{
    match failed {
        DeviceError::Failed => MendError::OldFailed,
        DeviceError::Memory => MendError::Memory,
    }
}

// The error for one of the new files.
pub(crate) fn new_error(failed: DeviceError) -> MendError
    ensures error { result ≡ new_error failed }
{
    match failed {
        DeviceError::Failed => MendError::NewFailed,
        DeviceError::Memory => MendError::Memory,
    }
}

// The error for one of the report.
pub(crate) fn report_error(failed: DeviceError) -> MendError
    ensures error { result ≡ report_error failed }
{
    match failed {
        DeviceError::Failed => MendError::ReportFailed,
        DeviceError::Memory => MendError::Memory,
    }
}

// The error if the draft does not take a game.
pub(crate) fn not_taken_error(refused: EditError) -> MendError
    ensures error { result ≡ not_taken_error refused }
{
    match refused {
        EditError::Full(what) => MendError::Full(what),
        _ => MendError::Memory,
    }
}
