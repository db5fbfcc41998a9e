//! The files of an old base of which the index, the names or the games are not there.
ghost use Rattle.std.specs.Prelude.{◌≡◌};
ghost use Rattle.std_devices.specs.Meters.{seen_of};

use crate::left_over::path_of;
use crate::status::Status;
use base_files::{Choices, DeviceError, Failed, FaultCount, Files, Part};
use mend_base::Sought;
use std::alloc::Global;
use std::fs::File;
use std::io::{ErrorKind, Read, Seek, SeekFrom};
use std::marker::Model;
use std::{fs, io};

/// The bytes of the longest index.
const LONGEST_INDEX: u64 = 182 + 47 * 16_777_214;

/// The bytes of the longest names file: its header, and the names of all ids, each of 263 bytes at most.
const LONGEST_NAMES: u64 = 36 + 263 * (1_048_576 + 2 * 524_288 + 262_144);

/// Which files of a base are not there.
#[derive(Clone, Copy)]
pub struct Absent {
    pub index: bool,
    pub names: bool,
    pub games: bool,
}

impl Absent {
    /// Which files of a base are absent. None counts as absent if its index is, unless records without an entry are sought and its
    /// games file is there. None does either if a file of it is set aside: a run was broken off.
    pub fn of_base(rt: &HostRuntime, name: &str, search: Sought) -> Result<Absent, Status> {
        let none = Absent {
            index: false,
            names: false,
            games: false,
        };
        let index = is_absent(rt, name, "si4")?;
        let games = is_absent(rt, name, "sg4")?;
        if index && (search == Sought::Entries || games) {
            return Ok(none);
        }
        for ending in ["si4.old", "sn4.old", "sg4.old"] {
            if !is_absent(rt, name, ending)? {
                return Ok(none);
            }
        }
        Ok(Absent {
            index,
            names: is_absent(rt, name, "sn4")?,
            games,
        })
    }

    /// Whether any is.
    pub fn is_any(&self) -> bool {
        self.index || self.names || self.games
    }
}

// Whether there is no file of this name.
fn is_absent(rt: &HostRuntime, name: &str, ending: &str) -> Result<bool, Status> {
    match fs::symlink_metadata(rt, path_of(rt, name, ending)?.as_str()) {
        Ok(_) => Ok(false),
        Err(error) => Ok(error.kind() == ErrorKind::NotFound),
    }
}

/// The files of an old base, to be read, in which each that is not there is as one of no bytes. They tell nothing of their contents.
#[derive(Drop)]
pub struct PartFiles<'r> {
    rt: &'r HostRuntime,
    absent: Absent,
    index: Option<File>,
    names: Option<File>,
    games: Option<File>,
    choices: Choices,
    known: u64,
    asked: u64,
    faults: FaultCount,
}

impl<'r> Model for PartFiles<'r> {
    ghost use Rattle.std_devices.specs.Meters.{DiskMeter};

    ghost Value = { DiskMeter };

    ghost view = { λ files. record { choices = files.choices; known = files.known; added = 0; asked = files.asked; faults = files.faults } };
}

impl<'r> PartFiles<'r> {
    /// Files of which no base was chosen yet.
    pub fn new(rt: &'r HostRuntime, absent: Absent) -> PartFiles<'r> {
        PartFiles {
            rt,
            absent,
            index: None,
            names: None,
            games: None,
            choices: Choices::new(rt.alloc()),
            known: 0,
            asked: 0,
            faults: FaultCount::new(),
        }
    }
}

impl<'r> Files for PartFiles<'r> {
    ghost seen = { λ files. seen_of files };

    ghost asked = { λ files. files.asked };

    ghost faults = { λ files. files.faults };

    fn choose(&mut self, name: &str, create: bool) -> Result<(), DeviceError> {
        if self.choices.add(name, create).is_err() {
            return Err(DeviceError::Memory);
        }
        match opened(self.rt, name, self.absent) {
            Ok(files) => {
                (self.index, self.names, self.games) = files;
                Ok(())
            }
            Err(_) => Err(DeviceError::from(self.faults.fault())),
        }
    }

    fn load(&mut self, alloc: Global, part: Part) -> Result<Vec<u8>, DeviceError> {
        let loaded = match part {
            Part::Index => read_whole(alloc, &mut self.index, LONGEST_INDEX),
            Part::Names => read_whole(alloc, &mut self.names, LONGEST_NAMES),
        };
        match loaded {
            Ok(bytes) => Ok(bytes),
            Err(error) => Err(self.faults.error(error.kind())),
        }
    }

    fn games_len(&mut self) -> Result<u64, Failed> {
        match length_of(&self.games) {
            Ok(len) => {
                self.known = len;
                Ok(len)
            }
            Err(_) => Err(self.faults.fault()),
        }
    }

    fn read_games(&mut self, offset: u64, len: u32, into: &mut [u8]) -> Result<(), Failed> {
        self.asked = self.asked.saturating_add(u64::from(len));
        match read_at(&mut self.games, offset, &mut into[..len as usize]) {
            Ok(()) => Ok(()),
            Err(_) => Err(self.faults.fault()),
        }
    }

    fn append_games(&mut self, _pad: u32, _bytes: &[u8]) -> Result<(), DeviceError> {
        Err(DeviceError::from(self.faults.fault()))
    }

    fn replace(&mut self, _part: Part, _bytes: &[u8]) -> Result<(), DeviceError> {
        Err(DeviceError::from(self.faults.fault()))
    }

    fn begin_new(&mut self) -> Result<(), DeviceError> {
        Err(DeviceError::from(self.faults.fault()))
    }

    fn append_new(&mut self, _pad: u32, _bytes: &[u8]) -> Result<(), DeviceError> {
        Err(DeviceError::from(self.faults.fault()))
    }

    fn commit_new(&mut self, _names: &[u8], _index: &[u8]) -> Result<(), DeviceError> {
        Err(DeviceError::from(self.faults.fault()))
    }
}

// Opens the files of a base that are there.
fn opened(
    rt: &HostRuntime,
    name: &str,
    absent: Absent,
) -> Result<(Option<File>, Option<File>, Option<File>), Status> {
    let index = if absent.index {
        None
    } else {
        open_file(rt, name, "si4")?
    };
    let names = if absent.names {
        None
    } else {
        open_file(rt, name, "sn4")?
    };
    let games = if absent.games {
        None
    } else {
        open_file(rt, name, "sg4")?
    };
    Ok((index, names, games))
}

// Opens a file, and nothing else. Why that fails is said on standard error.
fn open_file(rt: &HostRuntime, name: &str, ending: &str) -> Result<Option<File>, Status> {
    let path = path_of(rt, name, ending)?;
    match fs::metadata(rt, path.as_str()) {
        Ok(metadata) if !metadata.is_file() => {
            let _ = eprintln!(rt; "{path}: it is a folder, a device, a pipe or a socket");
            Err(Status::FilesFault)
        }
        _ => match fs::open(rt, path.as_str()) {
            Ok(file) => Ok(Some(file)),
            Err(error) => {
                let _ = eprintln!(rt; "{path}: {error}");
                Err(Status::FilesFault)
            }
        },
    }
}

// The bytes of a file, so many at most, and none of an absent one.
fn read_whole(alloc: Global, file: &mut Option<File>, most: u64) -> io::Result<Vec<u8>> {
    let mut bytes = Vec::new(alloc);
    if let Some(file) = file {
        file.seek(SeekFrom::Start(0))?;
        (&*file).take(most).read_to_end(&mut bytes)?;
    }
    Ok(bytes)
}

// The length of a file, and 0 of an absent one.
fn length_of(file: &Option<File>) -> io::Result<u64> {
    match file {
        Some(file) => Ok(file.metadata()?.len()),
        None => Ok(0),
    }
}

// Fills `into` from this place of a file on.
fn read_at(file: &mut Option<File>, offset: u64, into: &mut [u8]) -> io::Result<()> {
    let Some(file) = file else {
        return Err(io::Error::from(ErrorKind::NotFound));
    };
    file.seek(SeekFrom::Start(offset))?;
    file.read_exact(into)
}
