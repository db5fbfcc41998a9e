//! The owner, the group and the mode of a new file that takes the place of another.
use std::fs::{File, Permissions};
use std::io;
use std::os::unix::fs::{MetadataExt, PermissionsExt, fchown};

/// Whether a new file has all that the other one had.
#[derive(Clone, Copy, PartialEq, Eq)]
pub enum Rights {
    Same,
    Narrower,
}

/// Gives an open new file the owner, the group and the mode of another one. An owner that may not be given away stays. So does a group, and
/// the group of the new file may no more then than all others may.
pub fn give_rights(made: &File, current: &File) -> io::Result<Rights> {
    let wanted = current.metadata()?;
    let has = made.metadata()?;
    if wanted.uid() != has.uid() {
        let _ = fchown(made, Some(wanted.uid()), None);
    }
    let group = wanted.gid() == has.gid() || fchown(made, None, Some(wanted.gid())).is_ok();
    let mode = wanted.mode() & 0o777;
    let given = if group { mode } else { narrowed(mode) };
    made.set_permissions(Permissions::from_mode(given))?;
    Ok(if given == mode {
        Rights::Same
    } else {
        Rights::Narrower
    })
}

// The mode whose group may no more than all others.
fn narrowed(mode: u32) -> u32 {
    mode & 0o707 | mode & (mode & 0o007) << 3
}
