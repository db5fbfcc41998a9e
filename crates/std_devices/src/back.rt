//! Putting right what a run left beside a base that was broken off.
use crate::claim::{TRIES, claim};
use crate::found::{Found, Standing, is_there};
use crate::held::Held;
use crate::places::{Form, Kind, Places, Spot};
use crate::renames::put_back;
use crate::trouble::{OnFile, Trouble, Why, say};
use base_files::DeviceError;
use std::alloc::Global;
use std::time::Duration;
use std::{fs, thread};

/// For how many milliseconds nothing may change beside a base before anything is put right.
const STILL: u64 = 1000;

/// What became of a base.
#[derive(Clone, Copy, PartialEq, Eq)]
pub enum Righted {
    /// Nothing stood beside it.
    Whole,
    /// The files that a compaction had set aside are in their places again, and its new ones are gone.
    PutBack,
    /// A compaction had put all new files in their places, and the old ones are gone.
    Finished,
    /// New files that had taken no place are gone.
    TakenAway,
}

/// Puts back what a compaction that was broken off had set aside, or finishes it if all three new files have their places, and takes
/// away what a run left. Nothing is done while another run is at work on the base, nor if files stand there that no run leaves. Why it
/// fails is said on standard error.
pub fn put_right(alloc: Global, system: &HostRuntime, name: &str) -> Result<Righted, DeviceError> {
    let Ok(mut places) = Places::new(alloc, system, name) else {
        return Err(DeviceError::Memory);
    };
    let outcome = match places.take_lost() {
        Some(trouble) => Err(trouble),
        None => right_files(system, &places),
    };
    match outcome {
        Ok(righted) => Ok(righted),
        Err(trouble) => {
            say(system, &places, &trouble);
            Err(trouble.device_error())
        }
    }
}

// Puts the files right behind the lock on the games file that the base had before.
fn right_files(system: &HostRuntime, places: &Places) -> Result<Righted, Trouble> {
    for _ in 0..TRIES {
        let spot = old_games(system, places)?;
        let held = Held::open(system, places.path(spot), spot)?;
        claim(system, places, spot, &held.file)?;
        // What was looked at before the lock counts no more.
        if old_games(system, places)? == spot
            && held.stands_at(system, places.path(spot)).on(spot)?
        {
            return right_claimed(system, places);
        }
    }
    Err(Trouble::new(Kind::Games.current(), Why::Busy))
}

// The games file that the base had before a compaction.
fn old_games(system: &HostRuntime, places: &Places) -> Result<Spot, Trouble> {
    if is_there(system, places, Kind::Games.old())? {
        Ok(Kind::Games.old())
    } else {
        Ok(Kind::Games.current())
    }
}

// Puts the files right if nothing changes among them: who works on another machine may have another lock.
fn right_claimed(system: &HostRuntime, places: &Places) -> Result<Righted, Trouble> {
    let found = Found::look(system, places)?;
    let standing = found.standing();
    if standing == Standing::Whole {
        return Ok(Righted::Whole);
    }
    thread::sleep(system, Duration::from_millis(STILL));
    if Found::look(system, places)? != found {
        return Err(Trouble::new(Kind::Games.current(), Why::Busy));
    }
    match standing {
        Standing::Whole => Ok(Righted::Whole),
        Standing::Unused => {
            take_away(system, places, Form::New)?;
            Ok(Righted::TakenAway)
        }
        Standing::Replaced => {
            take_away(system, places, Form::Old)?;
            Ok(Righted::Finished)
        }
        Standing::Halfway => {
            put_back(system, places, &found)?;
            take_away(system, places, Form::New)?;
            Ok(Righted::PutBack)
        }
        Standing::Unknown => Err(Trouble::new(strange(&found), Why::Unknown)),
    }
}

// Removes the files of this form that are there.
fn take_away(system: &HostRuntime, places: &Places, form: Form) -> Result<(), Trouble> {
    for kind in Kind::ALL {
        let spot = kind.spot(form);
        if is_there(system, places, spot)? {
            fs::remove_file(system, places.path(spot)).on(spot)?;
        }
    }
    Ok(())
}

// The file to name if no run leaves such files.
fn strange(found: &Found) -> Spot {
    let old = found.first(Form::Old);
    let new = found.first(Form::New);
    old.or(new).unwrap_or(Kind::Index.current())
}
