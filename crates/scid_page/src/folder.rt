//! The folder of the pages.
use crate::end::End;
use crate::own::is_own;
use std::alloc::{AllocError, Global};
use std::fs::File;
use std::io::{ErrorKind, IsTerminal, Write};
use std::rt::Files as FileSystem;
use std::{fs, io, str};
use std_devices::Shown;

/// The file by which a folder is known that the program made, and what it says.
const MARK: &str = "scid_page.txt";

const MARK_WORDS: &[u8] =
    b"scid_page made this folder. It puts another in its place where it is run with --replace.\n";

/// The file that is there as long as the folder is not whole, and what it says.
const INCOMPLETE: &str = "INCOMPLETE";

const WORDS: &[u8] =
    b"This folder is not whole: scid_page was ended before it had written all pages.\n";

/// What is done if a folder is there and not empty.
#[derive(Clone, Copy, Debug, PartialEq, Eq)]
pub enum Existing {
    Refuse,
    /// Another takes its place, if the program made it.
    Replace,
}

// What stands at a name.
#[derive(Clone, Copy, PartialEq, Eq)]
enum There {
    Nothing,
    Empty,
    // A folder that the program made.
    Own,
    Other,
}

/// A folder that is being filled.
#[derive(Drop)]
pub struct Folder<'a> {
    system: &'a HostRuntime,
    alloc: Global,
    name: &'a str,
    // What stood there before.
    there: There,
    // Where the pages are written: in the folder itself, or beside the one whose place it takes.
    at: String,
    // Where that one is put until it is taken away.
    old: String,
}

impl<'a> Folder<'a> {
    /// Looks whether the folder can be made, or its place taken, and changes nothing.
    pub fn look(
        system: &'a HostRuntime,
        alloc: Global,
        name: &'a str,
        existing: Existing,
    ) -> Result<Folder<'a>, End> {
        let name = name.trim_end_matches("/");
        let there = match standing_at(system, alloc, name) {
            Ok(there) => there,
            Err(error) => return Err(fault(system, name, error)),
        };
        let replaces = there == There::Own && existing == Existing::Replace;
        let folder = Folder {
            system,
            alloc,
            name,
            there,
            at: place(alloc, name, replaces)?,
            old: format!(in alloc; "{name}.old")?,
        };
        if !replaces {
            return folder.of_its_own();
        }
        folder.beside()
    }

    // The folder, if nothing stands in its place, or an empty folder.
    fn of_its_own(self) -> Result<Folder<'a>, End> {
        match self.there {
            There::Nothing | There::Empty => Ok(self),
            There::Own => Err(refused(
                self.system,
                self.name,
                "not empty; --replace puts the new pages in its place",
            )),
            There::Other => Err(refused(
                self.system,
                self.name,
                "not empty, and not made by scid_page alone",
            )),
        }
    }

    // The folder, if what stands beside the one whose place it takes is left of such runs.
    fn beside(self) -> Result<Folder<'a>, End> {
        for name in [self.at.as_str(), self.old.as_str()] {
            match standing_at(self.system, self.alloc, name) {
                Ok(There::Other) => {
                    return Err(refused(self.system, name, "it is in the way"));
                }
                Ok(_) => {}
                Err(error) => return Err(fault(self.system, name, error)),
            }
        }
        Ok(self)
    }

    /// Makes the folder, or takes one that is there and empty, and says in it that it is not whole.
    pub fn begin(&self) -> Result<(), End> {
        if self.replaces() {
            self.clear(self.at.as_str())?;
            self.clear(self.old.as_str())?;
        }
        if self.there != There::Empty {
            if let Err(error) = fs::create_dir(self.system, self.at.as_str()) {
                return Err(fault(self.system, self.at.as_str(), error));
            }
        }
        self.write(INCOMPLETE, WORDS)?;
        self.write(MARK, MARK_WORDS)
    }

    // Writes a file of the folder, which is not there yet.
    fn write(&self, file: &str, bytes: &[u8]) -> Result<(), End> {
        let path = self.path(self.at.as_str(), file)?;
        match self.put(path.as_str(), bytes) {
            Ok(()) => Ok(()),
            Err(error) => Err(fault(self.system, path.as_str(), error)),
        }
    }

    /// Writes a file whose name is a text.
    pub fn write_at(&self, file: &[u8], bytes: &[u8]) -> Result<(), End> {
        match str::from_utf8(file) {
            Ok(file) => self.write(file, bytes),
            Err(_) => Err(End::WriteFault),
        }
    }

    /// Says no longer that the folder is not whole, and puts it in the place of the one that was there.
    pub fn finish(&self) -> Result<(), End> {
        let path = self.path(self.at.as_str(), INCOMPLETE)?;
        if let Err(error) = fs::remove_file(self.system, path.as_str()) {
            return Err(fault(self.system, path.as_str(), error));
        }
        if !self.replaces() {
            return Ok(());
        }
        if let Err(error) = self.take_place() {
            return Err(fault(self.system, self.name, error));
        }
        self.clear(self.old.as_str())
    }

    // Whether the folder takes the place of another.
    fn replaces(&self) -> bool {
        self.at.as_str() != self.name
    }

    // Takes the place of the folder that is there; if that fails, it stays.
    fn take_place(&self) -> io::Result<()> {
        fs::rename(self.system, self.name, self.old.as_str())?;
        match fs::rename(self.system, self.at.as_str(), self.name) {
            Ok(()) => Ok(()),
            Err(error) => {
                let _ = fs::rename(self.system, self.old.as_str(), self.name);
                Err(error)
            }
        }
    }

    // Takes away a folder that the program made, if it is there.
    fn clear(&self, name: &str) -> Result<(), End> {
        match self.remove(name) {
            Ok(()) => Ok(()),
            Err(error) => Err(fault(self.system, name, error)),
        }
    }

    // Takes away a folder with its files, that by which it is known last.
    fn remove(&self, name: &str) -> io::Result<()> {
        if standing_at(self.system, self.alloc, name)? == There::Nothing {
            return Ok(());
        }
        for entry in fs::read_dir(self.system, name)? {
            let entry = entry?;
            if entry.file_name() != MARK && is_own(entry.file_name()) {
                fs::remove_file(self.system, entry.path())?;
            }
        }
        let mark = self.path(name, MARK)?;
        match fs::remove_file(self.system, mark.as_str()) {
            Err(error) if error.kind() != ErrorKind::NotFound => return Err(error),
            _ => {}
        }
        fs::remove_dir(self.system, name)
    }

    // Writes a new file.
    fn put(&self, path: &str, bytes: &[u8]) -> io::Result<()> {
        let mut file = File::options()
            .write(true)
            .create_new(true)
            .open(self.system, path)?;
        file.write_all(bytes)
    }

    // The path of a file of a folder.
    fn path(&self, folder: &str, file: &str) -> Result<String, AllocError> {
        format!(in self.alloc; "{folder}/{file}")
    }
}

// Where the pages are written.
fn place(alloc: Global, name: &str, replaces: bool) -> Result<String, AllocError> {
    if replaces {
        format!(in alloc; "{name}.new")
    } else {
        format!(in alloc; "{name}")
    }
}

// What stands at a name. A folder is one that the program made if it has its mark and no file that the program does not make.
fn standing_at(system: &HostRuntime, alloc: Global, name: &str) -> io::Result<There> {
    if fs::read_link(system, name).is_ok() {
        return Ok(There::Other);
    }
    let entries = match fs::read_dir(system, name) {
        Ok(entries) => entries,
        Err(error) if error.kind() == ErrorKind::NotFound => return Ok(There::Nothing),
        Err(error) => return Err(error),
    };
    let mut there = There::Empty;
    for entry in entries {
        let entry = entry?;
        if !is_own(entry.file_name()) {
            return Ok(There::Other);
        }
        there = There::Own;
    }
    if there == There::Own && !has_mark(system, alloc, name)? {
        return Ok(There::Other);
    }
    Ok(there)
}

// Whether a folder has the mark of the program.
fn has_mark(system: &HostRuntime, alloc: Global, name: &str) -> io::Result<bool> {
    let path = format!(in alloc; "{name}/{MARK}")?;
    match fs::read(system, path.as_str()) {
        Ok(bytes) => Ok(bytes.as_slice() == MARK_WORDS),
        Err(error) if error.kind() == ErrorKind::NotFound => Ok(false),
        Err(error) => Err(error),
    }
}

// Says what is wrong with a file.
fn fault(system: &HostRuntime, path: &str, error: io::Error) -> End {
    let path = Shown::new(path, system.stderr().is_terminal());
    let _ = eprintln!(system; "{path}: {error}");
    End::from(error)
}

// Says why a folder is not taken.
fn refused(system: &HostRuntime, path: &str, why: &str) -> End {
    let path = Shown::new(path, system.stderr().is_terminal());
    let _ = eprintln!(system; "{path}: {why}");
    End::WriteFault
}
