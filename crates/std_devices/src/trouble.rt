//! What is wrong with the files of a base: which of them, and why.
use crate::places::{Form, Kind, Places, Spot};
use crate::shown::Shown;
use base_files::DeviceError;
use std::alloc::AllocError;
use std::fmt::{Display, Formatter};
use std::io::{ErrorKind, IsTerminal};
use std::{fmt, io};

/// Why a file can't be used.
#[derive(Drop)]
pub enum Why {
    /// An error of the system.
    System(io::Error),
    /// It is not the file that was loaded, or was written since.
    Changed,
    /// It is a new file, and another program wrote to it too.
    Disturbed,
    /// It stands where a new file or one that is set aside would have to, and this run did not make it.
    InTheWay,
    /// Another run is at work on the base.
    Busy,
    /// The file system answers a lock with this error, so that nothing keeps other runs away.
    NoLock(io::Error),
    /// A compaction was broken off.
    SetAside,
    /// What stands there is nothing that a run leaves.
    Unknown,
    /// It is a folder, a device, a pipe or a socket.
    NoFile,
    /// It is a link whose target is no text.
    NoText,
    /// It is a link that leads to no file.
    Dangling,
}

/// Which file can't be used, and why.
#[derive(Drop)]
pub struct Trouble {
    pub spot: Spot,
    pub why: Why,
}

impl Why {
    /// Why a link can't be followed that has this error.
    pub fn of_link(error: io::Error) -> Why {
        if error.kind() == ErrorKind::InvalidFilename && error.raw_os_error().is_none() {
            Why::NoText
        } else {
            Why::System(error)
        }
    }
}

impl Trouble {
    /// This file can't be used, for this reason.
    pub fn new(spot: Spot, why: Why) -> Trouble {
        Trouble { spot, why }
    }

    /// Memory was refused, and nothing is wrong with a file.
    pub fn is_memory(&self) -> bool {
        self.kind() == ErrorKind::OutOfMemory
    }

    /// The error of a device that this is.
    pub fn device_error(&self) -> DeviceError {
        if self.is_memory() {
            DeviceError::Memory
        } else {
            DeviceError::Failed
        }
    }

    /// The kind of error that this is.
    pub fn kind(&self) -> ErrorKind {
        match &self.why {
            Why::System(error) => error.kind(),
            Why::InTheWay => ErrorKind::AlreadyExists,
            _ => ErrorKind::InvalidData,
        }
    }
}

impl From<AllocError> for Trouble {
    fn from(_refused: AllocError) -> Trouble {
        Trouble::new(
            Kind::Index.current(),
            Why::System(io::Error::from(ErrorKind::OutOfMemory)),
        )
    }
}

impl Display for Why {
    fn fmt<W: fmt::Write>(&self, f: &mut Formatter<W>) -> fmt::Result {
        match self {
            Why::System(error) => Display::fmt(error, f),
            Why::NoLock(error) => write!(
                f,
                "no lock on its file system ({error}), so nothing is changed; copy the base to another disk"
            ),
            Why::Changed => f.write_str(
                "another program changed it since it was loaded; it stays as it is",
            ),
            Why::Disturbed => f.write_str(
                "another program changed it while it was made; it is taken away",
            ),
            Why::InTheWay => f.write_str(
                "it is in the way, and this run did not make it; it stays as it is",
            ),
            Why::Busy => f.write_str(
                "another run saves or compacts this base; nothing was changed",
            ),
            Why::SetAside => f.write_str("a compact was broken off; nothing was changed"),
            Why::Unknown => f.write_str(
                "no run leaves such files beside a base; nothing was changed (docs/OUTSIDE.md)",
            ),
            Why::NoFile => f.write_str("it is a folder, a device, a pipe or a socket, and no file"),
            Why::NoText => f.write_str("it is a link whose target is no UTF-8 text"),
            Why::Dangling => f.write_str("it is a link that leads to no file; none is made there"),
        }
    }
}

/// An answer of the system on one file.
pub trait OnFile<T> {
    /// The same, with the file that it is on.
    fn on(self, spot: Spot) -> Result<T, Trouble>;
}

impl<T> OnFile<T> for io::Result<T> {
    fn on(self, spot: Spot) -> Result<T, Trouble> {
        match self {
            Ok(value) => Ok(value),
            Err(error) => Err(Trouble::new(spot, Why::System(error))),
        }
    }
}

/// Says on standard error what is wrong with a file of a base, unless memory was refused.
pub fn say(system: &HostRuntime, places: &Places, trouble: &Trouble) {
    if trouble.is_memory() {
        return;
    }
    let shown = system.stderr().is_terminal();
    let path = Shown::new(places.path(trouble.spot), shown);
    let _ = match trouble.why {
        Why::SetAside => {
            let name = Shown::new(places.name(), shown);
            eprintln!(system;
                "{path}: {}; scid_mend --back {name} puts it right",
                trouble.why
            )
        }
        _ => eprintln!(system; "{path}: {}", trouble.why),
    };
}

/// Says on standard error what a file is that was found beside a base as it was opened.
pub fn note(system: &HostRuntime, places: &Places, spot: Spot) {
    let shown = system.stderr().is_terminal();
    let path = Shown::new(places.path(spot), shown);
    let name = Shown::new(places.name(), shown);
    let refused = refused_beside(spot);
    let _ = eprintln!(system;
        "{path}: of a run that was broken off or is at work, or your own; {refused} refused until it is moved away, or taken away by scid_mend --back {name}"
    );
}

/// Says on standard error that another run's lock is waited for.
pub fn say_waiting(system: &HostRuntime, places: &Places, spot: Spot) {
    let path = Shown::new(places.path(spot), system.stderr().is_terminal());
    let _ = eprintln!(system; "{path}: another run is at work on this base; waiting for it");
}

/// Says on standard error that a new file has narrower rights than the one whose place it takes.
pub fn say_narrower(system: &HostRuntime, places: &Places, spot: Spot) {
    let path = Shown::new(places.path(spot), system.stderr().is_terminal());
    let _ = eprintln!(system;
        "{path}: its group could not be kept, so the group that it has may no more than all others"
    );
}

// What is refused while this file stands beside a base.
fn refused_beside(spot: Spot) -> &'static str {
    match (spot.form, spot.kind) {
        (Form::New, Kind::Index | Kind::Names) => "save and compact are",
        _ => "compact is",
    }
}
