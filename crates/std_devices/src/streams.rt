//! The standard streams that a run was begun without.
use std::fs::{File, OpenOptions};
use std::os::fd::{AsRawFd, IntoRawFd};
use std::{fs, io};

/// How many standard streams there are; their descriptors are those below.
const STREAMS: i32 = 3;

/// Opens each of the three standard streams that is closed on `/dev/null`, or else on the root folder. So no file of a
/// base gets its descriptor, and with it what is written on standard output or error.
pub fn hold_standard_streams(system: &HostRuntime) {
    for _ in 0..STREAMS {
        match open_nothing(system) {
            Ok(file) if file.as_raw_fd() < STREAMS => {
                // It stays open to the end of the run.
                let _descriptor = file.into_raw_fd();
            }
            _ => return,
        }
    }
}

// Opens something that holds nothing.
fn open_nothing(system: &HostRuntime) -> io::Result<File> {
    let nothing = OpenOptions::new()
        .read(true)
        .write(true)
        .open(system, "/dev/null");
    match nothing {
        Ok(file) => Ok(file),
        Err(_) => fs::open(system, "/"),
    }
}
