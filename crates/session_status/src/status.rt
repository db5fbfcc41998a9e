//! How a session ends.
ghost use Rattle.std.specs.Prelude.{◌≡◌};
ghost use Rattle.session_status.specs.ExitCodes.{exit_code_of};
ghost use Rattle.session_status.specs.Stops.{status_of, status_of_halt, status_of_opening, status_of_reading};
ghost use Rattle.session_status.specs.declared.status.Status.TheVariants as status;

use base_core::{BaseFault, OpenError};
use base_files::Stop;
use script_lines::ReadError;
use shell_state::Halt;
use sig_index::Sig;
use std::alloc::AllocError;

/// How a session ended.
#[derive(Clone, Copy, Debug, PartialEq, Eq)]
pub enum Status {
    /// The script was run to its end, and its text is written.
    Done,
    /// The words are not one base name and the options `--create`, `--strict` and `--desk`, each at most once.
    Usage,
    /// The files of the base have this first fault.
    BadBase(BaseFault),
    /// The input failed.
    ReadFault,
    /// The output failed.
    WriteFault,
    /// The files of the base failed.
    FilesFault,
    /// The record of this game is no longer one of a game with the signature that it had at opening: it has another one, or is none.
    Changed {
        game: u32,
        kept: Sig,
        found: Option<Sig>,
    },
    /// The script has more than 1,073,741,824 bytes, up to and with the line of the `quit` by which its last client ends.
    InputTooLong,
    /// Memory ran out.
    Memory,
}

impl Status {
    /// The exit code of the process: 0 after `Done`, and another for each other status.
    pub fn exit_code(&self) -> u8
        ensures { result ≡ exit_code_of self.now }
    {
        match self {
            Status::Done => 0,
            Status::Usage => 1,
            Status::BadBase(_) => 2,
            Status::ReadFault => 3,
            Status::WriteFault => 4,
            Status::FilesFault => 5,
            Status::Changed { .. } => 6,
            Status::InputTooLong => 7,
            Status::Memory => 8,
        }
    }
}

impl From<AllocError> for Status {
    ghost from_gives = { λ _ s. s ≡ status.Memory };

    fn from(_refused: AllocError) -> Status {
        Status::Memory
    }
}

impl From<Stop> for Status {
    ghost from_gives = { λ stop s. s ≡ status_of stop };

    fn from(stop: Stop) -> Status
        ensures { result ≡ status_of stop }
    {
        match stop {
            Stop::Read => Status::ReadFault,
            Stop::Write => Status::WriteFault,
            Stop::Files => Status::FilesFault,
            Stop::Memory => Status::Memory,
        }
    }
}

impl From<Halt> for Status {
    ghost from_gives = { λ halt s. s ≡ status_of_halt halt };

    fn from(halt: Halt) -> Status
        ensures { result ≡ status_of_halt halt }
    {
        match halt {
            Halt::Device(stop) => Status::from(stop),
            Halt::Changed { game, kept, found } => Status::Changed { game, kept, found },
        }
    }
}

impl From<OpenError> for Status {
    ghost from_gives = { λ error s. s ≡ status_of_opening error };

    fn from(error: OpenError) -> Status
        ensures { result ≡ status_of_opening error }
    {
        match error {
            OpenError::Bad(fault) => Status::BadBase(fault),
            OpenError::Failed => Status::FilesFault,
            OpenError::Memory => Status::Memory,
        }
    }
}

impl From<ReadError> for Status {
    ghost from_gives = { λ error s. s ≡ status_of_reading error };

    fn from(error: ReadError) -> Status
        ensures { result ≡ status_of_reading error }
    {
        match error {
            ReadError::Failed => Status::ReadFault,
            ReadError::TooLong => Status::InputTooLong,
            ReadError::Memory => Status::Memory,
        }
    }
}
