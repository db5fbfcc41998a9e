//! The index file: its header, and where the entries stand.
ghost use Rattle.std.specs.Prelude.{◌≡◌, ◌≤◌, ◌<◌, ◌+◌, ◌*◌, ◌++◌, ◌^◌, IfOk, OnOk, Ok, length, take, drop};
ghost use Rattle.byteorder.specs.Endian.{big_bytes};
ghost use Rattle.index_entry.specs.Index.{number_in, head_in, header_read, index_read, entry_bytes, IsIndexHead, index_bytes};

use crate::IndexFault;
use byteorder::{BigEndian, ByteOrder};
use std::alloc::{AllocError, Global};

/// The bytes of the header.
pub const HEADER_LEN: usize = 182;

/// The bytes of one game's entry.
pub const ENTRY_LEN: usize = 47;

/// The greatest number of games of a base.
const MAX_GAMES: u32 = 16_777_214;

/// The first eight bytes of an index.
const MAGIC: &[u8; 8] = b"Scid.si\0";

/// The version of the format.
const VERSION: u16 = 400;

/// What the header of an index says of the base.
#[derive(Clone, Copy, Debug, PartialEq, Eq)]
pub struct IndexHead {
    /// The type of the base, a number that is kept and not used.
    pub kind: u32,
    /// The number of games, at most 16,777,214.
    pub games: u32,
    /// The game that is shown first, below 2^24.
    pub autoload: u32,
    /// What the base is, in words.
    pub description: [u8; 108],
    /// The names of the six custom marks, nine bytes each.
    pub custom: [u8; 54],
}

/// The header of an index that holds an entry for each of its games.
///
/// # Errors
///
/// The first of `Short`, `Magic`, `Version`, `Games` and `Length` that the bytes give rise to.
#[tactic(auto, unfolding(crate::specs::Index::header_read, crate::specs::Index::index_read, crate::specs::Index::head_in))]
pub fn read_index(bytes: &[u8]) -> Result<IndexHead, IndexFault>
    ensures exact { result ≡ index_read bytes.now }
    ensures head { IfOk result (λ head. head ≡ head_in bytes.now) }
    // The entries of all games are there.
    ensures whole { IfOk result (λ head. 182 + 47 * head.games ≤ length bytes.now) }
    ensures sound { IfOk result IsIndexHead }
{
    let head = match read_header(bytes) {
        Ok(head) => head,
        Err(fault) => return Err(fault),
    };
    if bytes.len() < HEADER_LEN + ENTRY_LEN * head.games as usize {
        return Err(IndexFault::Length(bytes.len() as u64));
    }
    Ok(head)
}

/// The header of an index, of which entries may be cut off.
///
/// # Errors
///
/// The first of `Short`, `Magic`, `Version` and `Games` that the bytes give rise to.
#[tactic(auto, unfolding(crate::specs::Index::header_read, crate::specs::Index::head_in))]
pub fn read_header(bytes: &[u8]) -> Result<IndexHead, IndexFault>
    ensures exact { result ≡ header_read bytes.now }
    ensures head { IfOk result (λ head. head ≡ head_in bytes.now) }
    ensures sound { IfOk result IsIndexHead }
{
    if bytes.len() < HEADER_LEN {
        return Err(IndexFault::Short(bytes.len() as u64));
    }
    if !bytes.starts_with(MAGIC) {
        return Err(IndexFault::Magic);
    }
    let version = BigEndian::read_u16(&bytes[8..]);
    if version != VERSION {
        return Err(IndexFault::Version(version));
    }
    let games = three(bytes, 14);
    if MAX_GAMES < games {
        return Err(IndexFault::Games(games));
    }
    Ok(IndexHead {
        kind: BigEndian::read_u32(&bytes[10..]),
        games,
        autoload: three(bytes, 17),
        description: part(&bytes[20..128]),
        custom: part(&bytes[128..182]),
    })
}

// The number of three bytes at a place.
fn three(bytes: &[u8], at: usize) -> u32
    requires { at + 3 ≤ length bytes.now }
    ensures { result ≡ number_in at 3 bytes.now }
{
    BigEndian::read_u24(&bytes[at..])
}

// A part of the header.
fn part<const N: usize>(bytes: &[u8]) -> [u8; N]
    requires { length bytes.now ≡ N }
    ensures { result ≡ bytes.now }
{
    let mut copy = [0; N];
    copy.copy_from_slice(bytes);
    copy
}

/// The bytes of the entry of a game.
pub fn entry_of(index: &[u8], game: u32) -> [u8; 47]
    requires { 229 + 47 * game ≤ length index.now }
    ensures { result ≡ entry_bytes index.now game }
{
    let at = HEADER_LEN + ENTRY_LEN * game as usize;
    part(&index[at..at + ENTRY_LEN])
}

/// The bytes of an index of this header and these entries, one after the other. It fails only for want of memory.
pub fn write_index(alloc: Global, head: &IndexHead, entries: &[u8]) -> Result<Vec<u8>, AllocError>
    requires head { IsIndexHead head.now }
    requires entries { length entries.now ≡ 47 * head.now.games }
    ensures bytes { IfOk result (λ bytes. bytes.items ≡ index_bytes head.now entries.now) }
    // What is written is read again.
    ensures read_again { IfOk result (λ bytes. index_read bytes.items ≡ Ok head.now) }
{
    index_of(alloc, head, entries)
}

#[tactic(auto, unfolding(crate::specs::Index::index_bytes))]
fn index_of(alloc: Global, head: &IndexHead, entries: &[u8]) -> Result<Vec<u8>, AllocError>
    requires head { IsIndexHead head.now }
    requires entries { length entries.now ≡ 47 * head.now.games }
    ensures bytes { IfOk result (λ bytes. bytes.items ≡ index_bytes head.now entries.now) }
    ensures kind { OnOk result (head.now.kind < 2 ^ 32) }
    ensures description { length head.now.description ≡ 108 }
    ensures custom { length head.now.custom ≡ 54 }
{
    let mut bytes = Vec::with_capacity(alloc, HEADER_LEN + entries.len())?;
    bytes.extend_from_slice(MAGIC)?;
    bytes.extend_from_slice(&VERSION.to_be_bytes())?;
    bytes.extend_from_slice(&head.kind.to_be_bytes())?;
    bytes.extend_from_slice(&head.games.to_be_bytes()[1..])?;
    bytes.extend_from_slice(&head.autoload.to_be_bytes()[1..])?;
    bytes.extend_from_slice(&head.description)?;
    bytes.extend_from_slice(&head.custom)?;
    bytes.extend_from_slice(entries)?;
    Ok(bytes)
}
