//! The paths of the three files of a base, of the new files beside them, and of the old ones that are set aside.
use crate::trouble::{Trouble, Why};
use base_files::Part;
use std::alloc::{AllocError, Global};
use std::io;
use std::io::ErrorKind;
use std::path::Path;
use std::rt::Files as FileSystem;

/// How many symbolic links are followed at most, as the system does.
const MOST_LINKS: u32 = 40;

/// One of the three files of a base.
#[derive(Clone, Copy, PartialEq, Eq)]
pub enum Kind {
    Index,
    Names,
    Games,
}

/// The current file of a kind, a new one beside it, or an old one that was set aside.
#[derive(Clone, Copy, PartialEq, Eq)]
pub enum Form {
    Current,
    New,
    Old,
}

/// Which file of a base.
#[derive(Clone, Copy, PartialEq, Eq)]
pub struct Spot {
    pub kind: Kind,
    pub form: Form,
}

/// One thing for each kind of file.
#[derive(PartialEq, Eq, Drop)]
pub struct Trio<T> {
    pub index: T,
    pub names: T,
    pub games: T,
}

/// The paths of a base.
#[derive(Drop)]
pub struct Places {
    name: String,
    current: Trio<String>,
    new: Trio<String>,
    old: Trio<String>,
    // Which of the names that were given are symbolic links, and the first that can't be followed.
    links: Trio<bool>,
    lost: Option<Trouble>,
}

impl Kind {
    /// All three.
    pub const ALL: [Kind; 3] = [Kind::Index, Kind::Names, Kind::Games];

    /// The kind of file that a part is.
    pub fn of_part(part: Part) -> Kind {
        match part {
            Part::Index => Kind::Index,
            Part::Names => Kind::Names,
        }
    }

    /// The current file of this kind.
    pub fn current(self) -> Spot {
        self.spot(Form::Current)
    }

    /// The new file of this kind.
    pub fn new(self) -> Spot {
        self.spot(Form::New)
    }

    /// The old file of this kind.
    pub fn old(self) -> Spot {
        self.spot(Form::Old)
    }

    /// The file of this kind in this form.
    pub fn spot(self, form: Form) -> Spot {
        Spot { kind: self, form }
    }
}

impl<T> Trio<T> {
    /// The one of this kind.
    pub fn of(&self, kind: Kind) -> &T {
        match kind {
            Kind::Index => &self.index,
            Kind::Names => &self.names,
            Kind::Games => &self.games,
        }
    }

    /// The one of this kind.
    pub fn of_mut(&mut self, kind: Kind) -> &mut T {
        match kind {
            Kind::Index => &mut self.index,
            Kind::Names => &mut self.names,
            Kind::Games => &mut self.games,
        }
    }
}

impl Places {
    /// The paths of the base of this name. If a file of it is a symbolic link, all paths are those beside the file that the link names,
    /// so that the link stays one.
    pub fn new<R: FileSystem>(alloc: Global, system: &R, name: &str) -> Result<Places, AllocError> {
        let mut places = Places::unfollowed(alloc, name)?;
        for kind in Kind::ALL {
            places.follow(alloc, system, kind)?;
        }
        places.new = beside(alloc, &places.current, "new")?;
        places.old = beside(alloc, &places.current, "old")?;
        Ok(places)
    }

    /// The paths of a new base of this name. No link is followed.
    pub fn unfollowed(alloc: Global, name: &str) -> Result<Places, AllocError> {
        let current = Trio {
            index: format!(in alloc; "{name}.si4")?,
            names: format!(in alloc; "{name}.sn4")?,
            games: format!(in alloc; "{name}.sg4")?,
        };
        Ok(Places {
            name: format!(in alloc; "{name}")?,
            new: beside(alloc, &current, "new")?,
            old: beside(alloc, &current, "old")?,
            current,
            links: Trio {
                index: false,
                names: false,
                games: false,
            },
            lost: None,
        })
    }

    /// The name that was given.
    pub fn name(&self) -> &str {
        self.name.as_str()
    }

    /// The path of this file.
    pub fn path(&self, spot: Spot) -> &str {
        let trio = match spot.form {
            Form::Current => &self.current,
            Form::New => &self.new,
            Form::Old => &self.old,
        };
        trio.of(spot.kind)
    }

    /// The path of the folder of the files of this kind.
    pub fn folder(&self, kind: Kind) -> &str {
        match Path::new(self.current.of(kind).as_str()).parent() {
            Some(folder) if !folder.as_str().is_empty() => folder.as_str(),
            _ => ".",
        }
    }

    /// Whether the name that was given for this kind is a symbolic link.
    pub fn is_link(&self, kind: Kind) -> bool {
        *self.links.of(kind)
    }

    /// The first link that can't be followed, once.
    pub fn take_lost(&mut self) -> Option<Trouble> {
        self.lost.take()
    }

    // Follows the links at the path of this kind.
    fn follow<R: FileSystem>(
        &mut self,
        alloc: Global,
        system: &R,
        kind: Kind,
    ) -> Result<(), AllocError> {
        for _ in 0..MOST_LINKS {
            match followed(alloc, system, self.current.of(kind).as_str()) {
                Ok(target) => *self.current.of_mut(kind) = target,
                // A file that is no link, or none.
                Err(error) if is_end(error.kind()) => return Ok(()),
                Err(error) if error.kind() == ErrorKind::OutOfMemory => return Err(AllocError),
                Err(error) => {
                    self.lose(kind, Why::of_link(error));
                    return Ok(());
                }
            }
            *self.links.of_mut(kind) = true;
        }
        self.lose(
            kind,
            Why::System(io::Error::from(ErrorKind::FilesystemLoop)),
        );
        Ok(())
    }

    // Notes why a link can't be followed.
    fn lose(&mut self, kind: Kind, why: Why) {
        if self.lost.is_none() {
            self.lost = Some(Trouble::new(kind.current(), why));
        }
    }
}

// Whether a path with this error is that of no link.
fn is_end(kind: ErrorKind) -> bool {
    kind == ErrorKind::InvalidInput || kind == ErrorKind::NotFound
}

// The three paths with this ending.
fn beside(alloc: Global, current: &Trio<String>, ending: &str) -> Result<Trio<String>, AllocError> {
    Ok(Trio {
        index: format!(in alloc; "{}.{ending}", current.index)?,
        names: format!(in alloc; "{}.{ending}", current.names)?,
        games: format!(in alloc; "{}.{ending}", current.games)?,
    })
}

// The path that the link at this path has. What is no link is an error.
fn followed<R: FileSystem>(alloc: Global, system: &R, path: &str) -> io::Result<String> {
    let target = system.read_link(alloc, path)?;
    match Path::new(path).parent() {
        Some(folder) => Ok(folder.join(alloc, target.as_path())?.into_string()),
        None => Ok(target.into_string()),
    }
}
