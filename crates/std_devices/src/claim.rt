//! The lock on the games file, which keeps other runs from changing a base meanwhile.
use crate::places::{Places, Spot};
use crate::trouble::{Trouble, Why, say_waiting};
use std::fs::{File, TryLockError};
use std::thread;
use std::time::Duration;

/// How often a run looks for something that another one is about to end, and for how many milliseconds it waits between.
pub const TRIES: u32 = 41;

const PAUSE: u64 = 50;

/// Locks a games file. If another run holds it, that is told, and it is waited for some two seconds.
///
/// A lock that fails for another reason is none, and an error: nothing then keeps other runs away.
pub fn claim(
    system: &HostRuntime,
    places: &Places,
    spot: Spot,
    games: &File,
) -> Result<(), Trouble> {
    for tried in 0..TRIES {
        match games.try_lock() {
            Ok(()) => return Ok(()),
            Err(TryLockError::Error(error)) => return Err(Trouble::new(spot, Why::NoLock(error))),
            Err(TryLockError::WouldBlock) => {}
        }
        if tried == 0 {
            say_waiting(system, places, spot);
        }
        pause(system);
    }
    Err(Trouble::new(spot, Why::Busy))
}

/// Whether another run holds the lock of a games file.
pub fn is_claimed(games: &File) -> bool {
    match games.try_lock() {
        Err(TryLockError::WouldBlock) => true,
        Err(TryLockError::Error(_)) => false,
        Ok(()) => {
            let _ = games.unlock();
            false
        }
    }
}

/// Waits a moment.
pub fn pause(system: &HostRuntime) {
    thread::sleep(system, Duration::from_millis(PAUSE));
}
