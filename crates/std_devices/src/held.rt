//! Files that are held open, and what tells whether they are still what was loaded.
use crate::places::Spot;
use crate::trouble::{OnFile, Trouble, Why};
use std::fs::{File, Metadata};
use std::io::ErrorKind;
use std::os::unix::fs::MetadataExt;
use std::rt::Files as FileSystem;
use std::{fs, io};

/// A state of a file: which file it is, its length, when it was last written, and when that or anything else of it last changed.
#[derive(Clone, Copy, PartialEq, Eq)]
pub struct Stamp {
    device: u64,
    node: u64,
    len: u64,
    written: (i64, i64),
    changed: (i64, i64),
}

/// A file that is held open, so that no other gets its number, and its state when it was loaded.
#[derive(Drop)]
pub struct Held {
    pub file: File,
    stamp: Stamp,
}

impl Stamp {
    /// The state that the system tells.
    pub fn of(metadata: &Metadata) -> Stamp {
        Stamp {
            device: metadata.dev(),
            node: metadata.ino(),
            len: metadata.len(),
            written: (metadata.mtime(), metadata.mtime_nsec()),
            changed: (metadata.ctime(), metadata.ctime_nsec()),
        }
    }

    /// Whether both are of one file.
    pub fn is_of_the_file_of(&self, other: &Stamp) -> bool {
        self.device == other.device && self.node == other.node
    }
}

impl Held {
    /// Holds a file, and notes its state.
    pub fn new(file: File) -> io::Result<Held> {
        let stamp = Stamp::of(&file.metadata()?);
        Ok(Held { file, stamp })
    }

    /// Opens a file to read it. What is no file is an error, before it is opened and after.
    pub fn open<R: FileSystem<File = File>>(
        system: &R,
        path: &str,
        spot: Spot,
    ) -> Result<Held, Trouble> {
        refuse_special(&fs::metadata(system, path).on(spot)?, spot)?;
        let file = fs::open(system, path).on(spot)?;
        refuse_special(&file.metadata().on(spot)?, spot)?;
        Held::new(file).on(spot)
    }

    /// Notes its state anew.
    pub fn note(&mut self) -> io::Result<()> {
        self.stamp = Stamp::of(&self.file.metadata()?);
        Ok(())
    }

    /// Notes when it changed, if nothing else did: it got another name.
    pub fn note_renamed(&mut self) {
        if let Ok(metadata) = self.file.metadata() {
            let changed = Stamp::of(&metadata).changed;
            let renamed = Stamp {
                changed,
                ..self.stamp
            };
            if renamed == Stamp::of(&metadata) {
                self.stamp = renamed;
            }
        }
    }

    /// The state that was noted.
    pub fn stamp(&self) -> &Stamp {
        &self.stamp
    }

    /// The length that was noted.
    pub fn len(&self) -> u64 {
        self.stamp.len
    }

    /// Whether this is the state that was noted.
    pub fn has(&self, metadata: &Metadata) -> bool {
        Stamp::of(metadata) == self.stamp
    }

    /// Whether the file at this path is the one that is held, in the state that was noted. So the path is enough: it leads to the open
    /// file, or to another one.
    pub fn stands_at<R: FileSystem>(&self, system: &R, path: &str) -> io::Result<bool> {
        match fs::metadata(system, path) {
            Ok(metadata) => Ok(self.has(&metadata)),
            Err(error) if error.kind() == ErrorKind::NotFound => Ok(false),
            Err(error) => Err(error),
        }
    }
}

/// Whether the file at this path, which no link leads to, is the one that is held, in the state that was noted.
pub fn has_name<R: FileSystem>(system: &R, path: &str, held: &Held) -> io::Result<bool> {
    match fs::symlink_metadata(system, path) {
        Ok(metadata) => Ok(held.has(&metadata)),
        Err(error) if error.kind() == ErrorKind::NotFound => Ok(false),
        Err(error) => Err(error),
    }
}

/// Removes the file at this path, if it is still this one.
pub fn remove_if_same<R: FileSystem>(system: &R, path: &str, file: &Stamp) {
    if let Ok(metadata) = fs::symlink_metadata(system, path) {
        if Stamp::of(&metadata).is_of_the_file_of(file) {
            let _ = fs::remove_file(system, path);
        }
    }
}

// What is no file is an error.
fn refuse_special(metadata: &Metadata, spot: Spot) -> Result<(), Trouble> {
    if metadata.is_file() {
        Ok(())
    } else {
        Err(Trouble::new(spot, Why::NoFile))
    }
}
