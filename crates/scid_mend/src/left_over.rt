//! What a run left of a new base that was broken off.
use crate::status::Status;
use std::fs;
use std_devices::put_right;

/// The endings of the names of the files of a base.
const ENDINGS: [&str; 3] = ["si4", "sn4", "sg4"];

/// Takes away what a run left of a new base of this name that was broken off: its three files, which are empty, and what stands beside
/// them. A run that is at work on the base holds a lock on its games file; then nothing is taken away, and that is an error.
///
/// Other files stay as they are, and so do those of the old base under another path: its index is not empty, or nothing is done.
pub fn take_away_left_over(rt: &HostRuntime, old: &str, name: &str) -> Result<(), Status> {
    if is_empty(rt, old, "si4")? || !is_left_over(rt, name)? {
        return Ok(());
    }
    if let Err(error) = put_right(rt.alloc(), rt, name) {
        return Err(Status::of_files(error));
    }
    // What it put right may be a whole base.
    if is_left_over(rt, name)? {
        for ending in ENDINGS {
            // If this fails, making the file fails too, and says why.
            let _ = fs::remove_file(rt, path_of(rt, name, ending)?.as_str());
        }
    }
    Ok(())
}

// Whether the three files of a base are there and empty, and no link among them.
fn is_left_over(rt: &HostRuntime, name: &str) -> Result<bool, Status> {
    for ending in ENDINGS {
        if !is_empty(rt, name, ending)? {
            return Ok(false);
        }
    }
    Ok(true)
}

// Whether a file of a base is there, is no link and is empty.
fn is_empty(rt: &HostRuntime, name: &str, ending: &str) -> Result<bool, Status> {
    match fs::symlink_metadata(rt, path_of(rt, name, ending)?.as_str()) {
        Ok(metadata) => Ok(metadata.is_file() && metadata.len() == 0),
        Err(_) => Ok(false),
    }
}

/// The path of a file of a base.
pub fn path_of(rt: &HostRuntime, name: &str, ending: &str) -> Result<String, Status> {
    format!(in rt.alloc(); "{name}.{ending}").map_err(|_| Status::Memory)
}
