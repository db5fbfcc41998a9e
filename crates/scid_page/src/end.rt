//! How a run ends.
use base_core::{BaseFault, EditError, OpenError};
use base_files::{DeviceError, Stop};
use book_pages::BookError;
use sig_index::FetchError;
use std::alloc::{AllocError, AllocFailed};
use std::io;
use std::io::ErrorKind;

/// How a run ends that is not done.
#[derive(Clone, Copy)]
pub enum End {
    /// The words are not those of the program.
    Usage,
    /// The files of the base have this first fault.
    BadBase(BaseFault),
    /// The file of names was not read.
    ReadFault,
    /// This line of the file of names has no code in front, or a move that is not legal.
    BadName(u32),
    /// The output, or a page, was not written.
    WriteFault,
    /// The files of the base failed.
    FilesFault,
    /// The record of this game is no longer that of the game.
    Changed(u32),
    /// Memory ran out.
    Memory,
}

impl End {
    /// The exit code of the process, those of `scid_shell`. It is 0 if the run is done.
    pub fn exit_code(&self) -> u8 {
        match self {
            End::Usage => 1,
            End::BadBase(_) => 2,
            End::ReadFault | End::BadName(_) => 3,
            End::WriteFault => 4,
            End::FilesFault => 5,
            End::Changed(_) => 6,
            End::Memory => 8,
        }
    }
}

impl From<AllocError> for End {
    fn from(_refused: AllocError) -> End {
        End::Memory
    }
}

impl<T: Drop> From<AllocFailed<T>> for End {
    fn from(_refused: AllocFailed<T>) -> End {
        End::Memory
    }
}

impl From<OpenError> for End {
    fn from(error: OpenError) -> End {
        match error {
            OpenError::Bad(fault) => End::BadBase(fault),
            OpenError::Failed => End::FilesFault,
            OpenError::Memory => End::Memory,
        }
    }
}

impl From<BookError> for End {
    fn from(error: BookError) -> End {
        match error {
            BookError::Fetch(FetchError::Failed) => End::FilesFault,
            BookError::Fetch(FetchError::Changed { game, .. }) => End::Changed(game),
            BookError::Memory => End::Memory,
        }
    }
}

impl From<EditError> for End {
    fn from(error: EditError) -> End {
        match error {
            EditError::Changed { game, .. } | EditError::NoGame(game) => End::Changed(game),
            EditError::Failed | EditError::TooLong(_) | EditError::Full(_) => End::FilesFault,
            EditError::Memory => End::Memory,
        }
    }
}

impl From<Stop> for End {
    fn from(stop: Stop) -> End {
        match stop {
            Stop::Read | Stop::Write => End::WriteFault,
            Stop::Files => End::FilesFault,
            Stop::Memory => End::Memory,
        }
    }
}

impl From<io::Error> for End {
    fn from(error: io::Error) -> End {
        if error.kind() == ErrorKind::OutOfMemory {
            End::Memory
        } else {
            End::WriteFault
        }
    }
}
