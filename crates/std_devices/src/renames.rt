//! How three new files take the place of the current ones: by renames, one after the other, which can be undone.
use crate::found::Found;
use crate::places::{Form, Kind, Places, Spot};
use crate::trouble::{OnFile, Trouble, Why};
use std::fs::OpenFile;
use std::rt::Files as FileSystem;
use std::{fs, io};

/// A file, and what it becomes.
#[derive(Clone, Copy)]
struct Step {
    from: Spot,
    to: Spot,
}

impl Step {
    fn new(kind: Kind, from: Form, to: Form) -> Step {
        Step {
            from: kind.spot(from),
            to: kind.spot(to),
        }
    }
}

/// The renames, in their order. The index is set aside first and put in place last, so that between the first rename and the last
/// there is no index, and no opening takes old entries for new games. No rename finds a file where it leads.
fn renames() -> [Step; 6] {
    [
        Step::new(Kind::Index, Form::Current, Form::Old),
        Step::new(Kind::Names, Form::Current, Form::Old),
        Step::new(Kind::Names, Form::New, Form::Current),
        Step::new(Kind::Games, Form::Current, Form::Old),
        Step::new(Kind::Games, Form::New, Form::Current),
        Step::new(Kind::Index, Form::New, Form::Current),
    ]
}

/// Puts the three new files in the place of the current ones. After an error those that were renamed have their old names again, and
/// the answer is whether they have.
pub fn put_all<R: FileSystem>(system: &R, places: &Places) -> Result<(), (Trouble, Undone)> {
    for (done, step) in renames().iter().enumerate() {
        if let Err(error) = rename(system, places, step.from, step.to) {
            let trouble = Trouble::new(step.from, Why::System(error));
            return Err((trouble, undo(system, places, done)));
        }
    }
    Ok(())
}

/// Whether all files have their old names again.
#[derive(Clone, Copy, PartialEq, Eq)]
pub enum Undone {
    All,
    NotAll,
}

// Gives the files of so many renames their old names again, the last one first. It ends at the first that fails, so
// that the index, which was renamed first, stands in its place only if all others do.
fn undo<R: FileSystem>(system: &R, places: &Places, done: usize) -> Undone {
    for step in renames().iter().take(done).rev() {
        if rename(system, places, step.to, step.from).is_err() {
            return Undone::NotAll;
        }
    }
    Undone::All
}

/// Puts the old files of a compaction that was broken off in their places, and the new ones beside them, whichever renames were made.
/// The index has its place last, so that no opening meets it beside others.
pub fn put_back<R: FileSystem>(system: &R, places: &Places, found: &Found) -> Result<(), Trouble> {
    take_out(system, places, found, Kind::Index)?;
    for kind in [Kind::Names, Kind::Games] {
        take_out(system, places, found, kind)?;
        put_in(system, places, found, kind)?;
    }
    put_in(system, places, found, Kind::Index)
}

// Takes a new file out of its place.
fn take_out<R: FileSystem>(
    system: &R,
    places: &Places,
    found: &Found,
    kind: Kind,
) -> Result<(), Trouble> {
    if found.has(kind.old()) && found.has(kind.current()) {
        rename(system, places, kind.current(), kind.new()).on(kind.current())?;
    }
    Ok(())
}

// Puts an old file in its place.
fn put_in<R: FileSystem>(
    system: &R,
    places: &Places,
    found: &Found,
    kind: Kind,
) -> Result<(), Trouble> {
    if found.has(kind.old()) {
        rename(system, places, kind.old(), kind.current()).on(kind.old())?;
    }
    Ok(())
}

/// Renames a file, and hands its folder on to the disk.
pub fn rename<R: FileSystem>(system: &R, places: &Places, from: Spot, to: Spot) -> io::Result<()> {
    fs::rename(system, places.path(from), places.path(to))?;
    hand_on_folder(system, places, to.kind);
    Ok(())
}

/// Hands the folder of the files of a kind on to the disk. One that can't be opened or handed on is left to the system.
pub fn hand_on_folder<R: FileSystem>(system: &R, places: &Places, kind: Kind) {
    if let Ok(folder) = fs::open(system, places.folder(kind)) {
        let _ = folder.sync_all();
    }
}
