//! The lines of a piece of text.
ghost use Rattle.std.specs.Prelude.{◌≡◌, ◌<◌, ◌≤◌, ◌++◌, if◌then◌else◌, [], length, OnOk, OnErr};
ghost use Rattle.command_runs.specs.Lines.{line_size};

use std::alloc::AllocError;

// How many bytes the first line of a piece has, with its line feed.
pub(crate) fn line_size(piece: &[u8]) -> usize
    ensures size { result ≡ line_size piece.now }
    ensures fits { result ≤ length piece.now }
    ensures some { 0 < length piece.now → 0 < result }
{
    let mut size = 0;
    while size < piece.len() {
        if piece[size] == b'\n' {
            return size + 1;
        }
        size += 1;
    }
    size
}

// What stands before a part of a line: the tag where a line begins.
pub(crate) fn lead(begins: bool, tag: &[u8]) -> &[u8]
    ensures lead { result.now ≡ (if begins then tag.now else []) }
{
    if begins { tag } else { &[] }
}

// Puts both behind the bytes, or neither.
pub(crate) fn put_both(bytes: &mut Vec<u8>, lead: &[u8], front: &[u8]) -> Result<(), AllocError>
    ensures both { OnOk result (bytes.new.items ≡ bytes.old.items ++ lead.now ++ front.now) }
    ensures neither { OnErr result (bytes.new.items ≡ bytes.old.items) }
{
    let before = bytes.len();
    bytes.extend_from_slice(lead)?;
    if let Err(refused) = bytes.extend_from_slice(front) {
        bytes.truncate(before);
        return Err(refused);
    }
    Ok(())
}
