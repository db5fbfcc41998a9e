//! The names of openings.
use crate::end::End;
use page_html::{Openings, OpeningsFault};
use std::alloc::Global;
use std::fs;
use std::io::{ErrorKind, IsTerminal};
use std_devices::Shown;

/// The text of a file of names, or nothing if no file is named.
pub fn names_read(rt: &HostRuntime, file: Option<&str>) -> Result<Vec<u8>, End> {
    let Some(file) = file else {
        return Ok(Vec::new(rt.alloc()));
    };
    match fs::read(rt, file) {
        Ok(text) => Ok(text),
        Err(error) if error.kind() == ErrorKind::OutOfMemory => Err(End::Memory),
        Err(error) => {
            let file = Shown::new(file, rt.stderr().is_terminal());
            let _ = eprintln!(rt; "{file}: {error}");
            Err(End::ReadFault)
        }
    }
}

/// The openings of such a text.
pub fn openings_read(alloc: Global, text: &[u8]) -> Result<Openings<'_>, End> {
    match Openings::read(alloc, text) {
        Ok(openings) => Ok(openings),
        Err(OpeningsFault::Line(number)) => Err(End::BadName(number)),
        Err(OpeningsFault::Memory) => Err(End::Memory),
    }
}
