//! How a run of the program ends.
ghost use Rattle.std.specs.Prelude.{◌≡◌, MatchResult};
ghost use Rattle.scid_mend.specs.Statuses.{changed_status, exit_code_of, files_status, mended_status, mending_status};
ghost use Rattle.scid_mend.specs.declared.status.Status.TheVariants as done;

use base_core::What;
use base_files::DeviceError;
use index_entry::IndexFault;
use mend_base::{MendError, Mended};
use std::io;

/// How a run ended.
#[derive(Clone, Copy, Debug, Drop, PartialEq, Eq)]
pub enum Status {
    /// All games came over as they were, or a text was printed.
    All,
    /// Some were changed or left out.
    NotAll,
    /// The header of the old index is faulty.
    BadIndex(IndexFault),
    /// The output failed.
    WriteFault,
    /// The files of a base failed, or one of the new base is there already.
    FilesFault,
    /// Memory ran out.
    Memory,
    /// The words are not the names of two bases.
    Usage,
    /// The new base would pass a limit.
    Full(What),
}

impl Status {
    /// The status after the files of a base failed.
    pub fn of_files(error: DeviceError) -> Status
        ensures status { result ≡ files_status error }
    {
        match error {
            DeviceError::Failed => Status::FilesFault,
            DeviceError::Memory => Status::Memory,
        }
    }

    /// The status after a base was mended and its last line written.
    pub fn of_mended(mended: Mended, outcome: io::Result<()>) -> Status
        ensures status { MatchResult outcome (λ _. result ≡ mended_status mended) (λ _. result ≡ done.WriteFault) }
    {
        match outcome {
            Ok(()) if mended.came == mended.of => Status::of_changed(mended.changed),
            Ok(()) => Status::NotAll,
            Err(_) => Status::WriteFault,
        }
    }

    // The status after all games came over, so many of them changed.
    fn of_changed(changed: u32) -> Status
        ensures status { result ≡ changed_status changed }
    {
        if changed == 0 {
            Status::All
        } else {
            Status::NotAll
        }
    }

    /// The exit code of the process.
    pub fn exit_code(&self) -> u8
        ensures code { result ≡ exit_code_of self.now }
    {
        match self {
            Status::All => 0,
            Status::BadIndex(_) => 2,
            Status::WriteFault => 4,
            Status::FilesFault => 5,
            Status::Memory => 8,
            Status::Usage => 9,
            Status::Full(_) => 10,
            Status::NotAll => 11,
        }
    }
}

impl From<MendError> for Status {
    ghost from_gives = { λ error s. s ≡ mending_status error };

    fn from(error: MendError) -> Status
        ensures status { result ≡ mending_status error }
    {
        match error {
            MendError::Bad(fault) => Status::BadIndex(fault),
            MendError::Full(what) => Status::Full(what),
            MendError::OldFailed | MendError::NewFailed => Status::FilesFault,
            MendError::ReportFailed => Status::WriteFault,
            MendError::Memory => Status::Memory,
        }
    }
}
