//! Opening the three files of a base, which changes nothing of them, and making those of a new one.
use crate::claim::{TRIES, is_claimed, pause};
use crate::found::{Found, Standing};
use crate::held::{Held, remove_if_same};
use crate::places::{Form, Kind, Places, Trio};
use crate::trouble::{OnFile, Trouble, Why, note, say_waiting};
use std::fs::{File, OpenOptions};
use std::io::ErrorKind;
use std::rt::Files as FileSystem;

/// Opens the three files of a base. With `create` each that is absent becomes an empty file.
///
/// Nothing is renamed or removed, and a base of which a compaction was broken off is refused. If another run's work comes between, it
/// begins again, for some two seconds. What stands beside the base is said on standard error.
pub fn open_base(
    system: &HostRuntime,
    places: &Places,
    create: bool,
) -> Result<Trio<Held>, Trouble> {
    for tried in 0..TRIES {
        let found = Found::look(system, places)?;
        let trouble = match open_found(system, places, &found, create) {
            Ok(files) => {
                note_beside(system, places, &found);
                return Ok(files);
            }
            Err(trouble) => trouble,
        };
        let at_work = is_at_work(system, places, &trouble);
        // A file system that keeps what it told for a moment may tell two states of one file.
        let passes = at_work || matches!(trouble.why, Why::Changed);
        if !passes && Found::look(system, places)? == found {
            return Err(trouble);
        }
        if at_work && tried == 0 {
            say_waiting(system, places, Kind::Games.current());
        }
        pause(system);
    }
    Err(Trouble::new(Kind::Games.current(), Why::Busy))
}

// Opens the files that were found, and sees that all stand in their places then: so nothing of another run comes between.
fn open_found(
    system: &HostRuntime,
    places: &Places,
    found: &Found,
    create: bool,
) -> Result<Trio<Held>, Trouble> {
    refuse_set_aside(found)?;
    let files = Trio {
        index: open_or_make(system, places, found, Kind::Index, create)?,
        names: open_or_make(system, places, found, Kind::Names, create)?,
        games: open_or_make(system, places, found, Kind::Games, create)?,
    };
    for kind in Kind::ALL {
        look_at(system, places, &files, kind)?;
    }
    refuse_set_aside(&Found::look(system, places)?)?;
    Ok(files)
}

// A base of which a file is set aside is an error.
fn refuse_set_aside(found: &Found) -> Result<(), Trouble> {
    match found.set_aside() {
        Some(spot) if found.standing() == Standing::Halfway => {
            Err(Trouble::new(spot, Why::SetAside))
        }
        Some(spot) => Err(Trouble::new(spot, Why::Unknown)),
        None => Ok(()),
    }
}

// Opens a file, or makes one that was not found and is asked for.
fn open_or_make(
    system: &HostRuntime,
    places: &Places,
    found: &Found,
    kind: Kind,
    create: bool,
) -> Result<Held, Trouble> {
    let spot = kind.current();
    if found.has(spot) || !create {
        return Held::open(system, places.path(spot), spot);
    }
    if places.is_link(kind) {
        return Err(Trouble::new(spot, Why::Dangling));
    }
    Held::new(make_file(system, places, kind).on(spot)?).on(spot)
}

// Whether a compaction that seems broken off is another run's work.
fn is_at_work(system: &HostRuntime, places: &Places, trouble: &Trouble) -> bool {
    if !matches!(trouble.why, Why::SetAside | Why::Unknown) {
        return false;
    }
    for spot in [Kind::Games.old(), Kind::Games.current()] {
        if let Ok(held) = Held::open(system, places.path(spot), spot) {
            if is_claimed(&held.file) {
                return true;
            }
        }
    }
    false
}

// Says what was found beside a base.
fn note_beside(system: &HostRuntime, places: &Places, found: &Found) {
    for form in [Form::New, Form::Old] {
        for kind in Kind::ALL {
            let spot = kind.spot(form);
            if found.has(spot) {
                note(system, places, spot);
            }
        }
    }
}

/// Makes the three files of a new base, empty, if none of them is there. If that fails, those that it made are gone again.
pub fn make_base(system: &HostRuntime, places: &Places) -> Result<Trio<Held>, Trouble> {
    let index = make_held(system, places, Kind::Index)?;
    let names = match make_held(system, places, Kind::Names) {
        Ok(names) => names,
        Err(trouble) => {
            remove_made(system, places, Kind::Index, &index);
            return Err(trouble);
        }
    };
    match make_held(system, places, Kind::Games) {
        Ok(games) => Ok(Trio {
            index,
            names,
            games,
        }),
        Err(trouble) => {
            remove_made(system, places, Kind::Index, &index);
            remove_made(system, places, Kind::Names, &names);
            Err(trouble)
        }
    }
}

// Makes an empty file, and holds it.
fn make_held(system: &HostRuntime, places: &Places, kind: Kind) -> Result<Held, Trouble> {
    let spot = kind.current();
    match make_file(system, places, kind) {
        Ok(file) => Held::new(file).on(spot),
        Err(error) if error.kind() == ErrorKind::AlreadyExists => {
            Err(Trouble::new(spot, Why::InTheWay))
        }
        Err(error) => Err(error).on(spot),
    }
}

// Makes an empty file. What has its name already stays as it is, a link too.
fn make_file(system: &HostRuntime, places: &Places, kind: Kind) -> std::io::Result<File> {
    OpenOptions::new()
        .read(true)
        .write(true)
        .create_new(true)
        .open(system, places.path(kind.current()))
}

/// Removes a file that was made, if it still has its name.
pub fn remove_made(system: &HostRuntime, places: &Places, kind: Kind, held: &Held) {
    remove_if_same(system, places.path(kind.current()), held.stamp());
}

/// Looks whether this file is the one that was loaded.
pub fn look_at<R: FileSystem>(
    system: &R,
    places: &Places,
    files: &Trio<Held>,
    kind: Kind,
) -> Result<(), Trouble> {
    let spot = kind.current();
    if files
        .of(kind)
        .stands_at(system, places.path(spot))
        .on(spot)?
    {
        return Ok(());
    }
    Err(Trouble::new(spot, Why::Changed))
}
