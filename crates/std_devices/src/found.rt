//! Which files of a base are there, and what they tell of a compaction.
use crate::held::Stamp;
use crate::places::{Form, Kind, Places, Spot, Trio};
use crate::trouble::{OnFile, Trouble};
use std::fs;
use std::io::ErrorKind;
use std::rt::Files as FileSystem;

/// Which files of a base are there, each with its state. A name that is taken by something else than a file counts as well, and one that
/// is too long for the file system is free.
#[derive(PartialEq, Eq, Drop)]
pub struct Found {
    current: Trio<Option<Stamp>>,
    new: Trio<Option<Stamp>>,
    old: Trio<Option<Stamp>>,
}

/// What the files of a base tell of a run that was broken off.
#[derive(Clone, Copy, PartialEq, Eq)]
pub enum Standing {
    /// None was.
    Whole,
    /// The current files are as they were, and new ones took no place.
    Unused,
    /// All new files are in their places, and some old ones are not removed.
    Replaced,
    /// Some new files are in their places, or some old ones are set aside.
    Halfway,
    /// No run leaves these files.
    Unknown,
}

/// What the files of one kind tell.
#[derive(Clone, Copy, PartialEq, Eq)]
enum Each {
    // The current file alone.
    Plain,
    // A new file beside it.
    Fresh,
    // It is set aside, and the new one has not its place yet.
    Aside,
    // The new one has its place.
    Replaced,
    Other,
}

impl Found {
    /// The files that are there.
    pub fn look<R: FileSystem>(system: &R, places: &Places) -> Result<Found, Trouble> {
        Ok(Found {
            current: look_for(system, places, Form::Current)?,
            new: look_for(system, places, Form::New)?,
            old: look_for(system, places, Form::Old)?,
        })
    }

    /// Whether this file is there.
    pub fn has(&self, spot: Spot) -> bool {
        let trio = match spot.form {
            Form::Current => &self.current,
            Form::New => &self.new,
            Form::Old => &self.old,
        };
        trio.of(spot.kind).is_some()
    }

    /// The first file of this form that is there.
    pub fn first(&self, form: Form) -> Option<Spot> {
        for kind in Kind::ALL {
            if self.has(kind.spot(form)) {
                return Some(kind.spot(form));
            }
        }
        None
    }

    /// An old file that was set aside and whose base is not whole: there is no current one, or a new file waits for its place.
    pub fn set_aside(&self) -> Option<Spot> {
        for kind in Kind::ALL {
            if self.has(kind.old()) && !self.has(kind.current()) {
                return Some(kind.old());
            }
        }
        match self.first(Form::New) {
            Some(_) => self.first(Form::Old),
            None => None,
        }
    }

    /// What they tell.
    pub fn standing(&self) -> Standing {
        let all = [
            self.each(Kind::Index),
            self.each(Kind::Names),
            self.each(Kind::Games),
        ];
        if are_among(&all, &[Each::Plain]) {
            Standing::Whole
        } else if are_among(&all, &[Each::Plain, Each::Fresh]) {
            Standing::Unused
        } else if are_among(&all, &[Each::Plain, Each::Replaced]) {
            Standing::Replaced
        } else if are_among(&all, &[Each::Fresh, Each::Aside, Each::Replaced]) {
            Standing::Halfway
        } else {
            Standing::Unknown
        }
    }

    // What those of this kind tell.
    fn each(&self, kind: Kind) -> Each {
        let there = (
            self.has(kind.current()),
            self.has(kind.new()),
            self.has(kind.old()),
        );
        match there {
            (true, false, false) => Each::Plain,
            (true, true, false) => Each::Fresh,
            (false, true, true) => Each::Aside,
            (true, false, true) => Each::Replaced,
            _ => Each::Other,
        }
    }
}

// Whether each is one of these.
fn are_among(all: &[Each], these: &[Each]) -> bool {
    all.iter().all(|each| these.contains(each))
}

// The files of this form that are there.
fn look_for<R: FileSystem>(
    system: &R,
    places: &Places,
    form: Form,
) -> Result<Trio<Option<Stamp>>, Trouble> {
    Ok(Trio {
        index: look_at(system, places, Kind::Index.spot(form))?,
        names: look_at(system, places, Kind::Names.spot(form))?,
        games: look_at(system, places, Kind::Games.spot(form))?,
    })
}

// The state of this file, if it is there.
fn look_at<R: FileSystem>(
    system: &R,
    places: &Places,
    spot: Spot,
) -> Result<Option<Stamp>, Trouble> {
    match fs::symlink_metadata(system, places.path(spot)) {
        Ok(metadata) => Ok(Some(Stamp::of(&metadata))),
        Err(error) if is_free(error.kind()) => Ok(None),
        Err(error) => Err(error).on(spot),
    }
}

// Whether a name with this error is that of no file.
fn is_free(kind: ErrorKind) -> bool {
    kind == ErrorKind::NotFound || kind == ErrorKind::InvalidFilename
}

/// Whether the name of this file is taken. One that is too long for the file system is an error.
pub fn is_there<R: FileSystem>(system: &R, places: &Places, spot: Spot) -> Result<bool, Trouble> {
    match fs::symlink_metadata(system, places.path(spot)) {
        Ok(_) => Ok(true),
        Err(error) if error.kind() == ErrorKind::NotFound => Ok(false),
        Err(error) => Err(error).on(spot),
    }
}
