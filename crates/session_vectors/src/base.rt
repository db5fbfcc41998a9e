//! A base in memory, and runs over it.
ghost use Rattle.std.specs.Prelude.{◌≤◌, length};

use base_files::{MemFiles, MemSink, MemSource, Swap};
use shell_session::{Status, session};
use std::alloc::{AllocError, Global};
use tree_live::TreeView;

/// The beginning of an index of version 400 up to the number of games: the magic, the version and the type.
const HEAD: &[u8; 16] = b"Scid.si\0\x01\x90\0\0\0\0\0\0";

/// The entry of a game of 21 half-moves with the names of id 0.
const ENTRY: &[u8; 47] =
    b"\0\0\0\0\0\x19\0\0\0\0\0\0\0\0\0\0\0\0\0\0\0\x10\0\x3a\xda\0\x0e\xec\0\0\0\0\0\0\x29\x66\xa6\x15\x05\xb5\xc4\x30\0\0\0\0\0";

/// One name of each kind.
const NAMES: &[u8; 56] =
    b"Scid.sn\0\0\0\0\0\0\0\x01\0\0\x01\0\0\x01\0\0\x01\0\0\x01\0\0\x01\0\0\x01\0\0\x01\0\0\x01\x01?\0\0\x01\x01?\0\0\x01\x01?\0\0\x01\x01?";

/// 1. e4 c6 2. d4 d5 3. Nc3 dxe4 4. Nxe4 Nf6 5. Qd3 e5 6. dxe5 Qa5+ 7. Bd2 Qxe5 8. O-O-O Nxe4 9. Qd8+ Kxd8 10. Bg5+ Kc7 11. Bd8#
const RECORD: &[u8; 25] =
    b"\0\0\xcf\xa1\xbf\xbf\x28\xb0\x26\x61\x4a\xcf\xb2\x43\x60\x33\x44\x09\x61\x4f\x04\x36\x01\x3b\x0f";

// The index of that game so many times.
fn index(alloc: Global, games: u8) -> Result<Vec<u8>, AllocError> {
    let mut index = Vec::from_slice(alloc, HEAD)?;
    index.push(games)?;
    index.extend_from_slice(&[0u8; 165])?;
    for _game in 0..games {
        index.extend_from_slice(ENTRY)?;
    }
    Ok(index)
}

/// The files of a base that has that game so many times. These calls of them fail.
pub(crate) fn files_of(alloc: Global, games: u8, fails: &[u64]) -> Result<MemFiles, AllocError> {
    Ok(MemFiles::new(
        index(alloc, games)?,
        Vec::from_slice(alloc, NAMES)?,
        Vec::from_slice(alloc, RECORD)?,
        Vec::from_slice(alloc, fails)?,
    ))
}

/// The files of a base that has that game once. A byte of the record changes before a call.
pub(crate) fn changing(alloc: Global, swap: Swap) -> Result<MemFiles, AllocError> {
    Ok(MemFiles::changing(
        index(alloc, 1)?,
        Vec::from_slice(alloc, NAMES)?,
        Vec::from_slice(alloc, RECORD)?,
        Vec::from_slice(alloc, &[swap])?,
    ))
}

/// Runs a script over files and no views, a byte a call of the source and the sink, and gives the status and what was written.
pub(crate) fn run_over(
    alloc: Global,
    files: &mut MemFiles,
    script: &[u8],
) -> Result<(Status, Vec<u8>), AllocError> {
    let mut views = Vec::new(alloc);
    run_over_views(alloc, files, script, &mut views)
}

/// The same over these views.
pub(crate) fn run_over_views(
    alloc: Global,
    files: &mut MemFiles,
    script: &[u8],
    views: &mut Vec<Option<Box<dyn TreeView>>>,
) -> Result<(Status, Vec<u8>), AllocError>
    requires few { length views.old.items ≤ 8 }
{
    let mut words = Vec::new(alloc);
    words.push(String::from_str(alloc, "base")?)?;
    let mut input = MemSource::new(Vec::from_slice(alloc, script)?, 1, Vec::new(alloc));
    let mut out = MemSink::new(Vec::new(alloc), 1, Vec::new(alloc));
    let status = session(alloc, words.as_slice(), files, &mut input, &mut out, views);
    Ok((status, Vec::from_slice(alloc, out.taken())?))
}
