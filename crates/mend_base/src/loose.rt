//! Records of the games file that have no entry.
ghost use Rattle.std.specs.Prelude.{◌≡◌, ◌≤◌, ◌<◌, ◌+◌, ◌-◌, ◌*◌, min, ◌++◌, length, take, drop, replicate, true, false, IfOk, IfErr, IfSome, OnOk};
ghost use Rattle.base_files.specs.Told.{TellsLength};
ghost use Rattle.game_codec.specs.RecordAnswer.{record_answer};
ghost use Rattle.index_entry.specs.Entry.{IsEntry};
ghost use Rattle.mend_base.specs.Devices.{IsOld};
ghost use Rattle.mend_base.specs.Entries.{head_found};
ghost use Rattle.mend_base.specs.Loose.{answered_len, block_count, block_of, entry_of_loose, free_front, front_by, len_before, lengthened, loose_from, loose_in, loose_len, marks_of, with_record};
ghost use Rattle.mend_base.specs.Ways.{known_entries};

use crate::devices::Loaded;
use crate::fault::MendError;
use crate::fields::said_by;
use crate::heading::{entries_found, find_header, renewed};
use crate::ways::known_entries;
use base_core::{mended_entry, misplaced};
use base_files::Files;
use game_codec::{RecordFault, RecordWhat};
use index_entry::{ENTRY_LEN, Entry, HEADER_LEN, entry_of};
use std::alloc::{AllocError, Global};

/// The bytes of a block of the games file.
const BLOCK_LEN: u64 = 131_072;

/// The places that an entry can say.
const PLACES: u64 = 4_294_967_296;

/// What the entry of a record without one says behind the record's place: the greatest ids, and nothing else.
const NOTHING: &[u8; 40] = b"\
    \0\0\xff\xff\xff\xff\xff\xff\xff\xff\xff\xff\xff\xff\0\0\0\0\0\0\0\0\0\0\0\0\0\0\0\0\0\0\0\0\0\0\0\0\0\0";

/// The index with an entry for each record that is found in the games file and has none.
pub(crate) fn lengthened<F: Files>(
    alloc: Global,
    loaded: &Loaded,
    old: &mut F,
    buf: &mut [u8],
) -> Result<Vec<u8>, MendError>
    requires room { 131072 ≤ length buf.old }
    requires known { loaded.now.end ≡ (F.seen old.old).known }
    requires told { TellsLength (F.seen old.old).games loaded.now.end }
    ensures index { IfOk result (λ index. IfSome (F.seen old.old).games (λ games. index.items ≡ lengthened loaded.now.index.items games)) }
    ensures unchanged { F.seen old.new ≡ F.seen old.old }
    ensures asks { F.asked old.new ≤ F.asked old.old + loaded.now.end }
    ensures counts { F.faults old.old ≤ F.faults old.new }
    ensures cause { IfErr result (IsOld (F.faults old.old) (F.faults old.new)) }
{
    let marks = marks_of(alloc, loaded.index.as_slice(), loaded.end)?;
    let mut index = front_of(alloc, loaded.index.as_slice())?;
    match add_blocks(loaded.end, marks.as_slice(), old, buf, &mut index) {
        Ok(()) => Ok(index),
        Err(error) => Err(error),
    }
}

// Which bytes of a games file that ends there belong to the records of entries.
fn marks_of(alloc: Global, index: &[u8], end: u64) -> Result<Vec<bool>, AllocError>
    ensures marks { IfOk result (λ marks. marks.items ≡ marks_of index.now end (known_entries index.now)) }
    ensures long { IfOk result (λ marks. length marks.items ≡ end) }
{
    let mut marks = vec![in alloc; false; end as usize]?;
    mark_records(index, end, marks.as_mut_slice());
    Ok(marks)
}

// Marks the bytes of the records of all entries.
fn mark_records(index: &[u8], end: u64, marks: &mut [bool])
    requires none { marks.old ≡ replicate end false }
    ensures marks { marks.new ≡ marks_of index.now end (known_entries index.now) }
{
    for game in 0..known_entries(index) {
        mark_record(&said_by(&entry_of(index, game)).entry, end, marks);
    }
}

// Marks the bytes of the record of an entry, if it can stand where the entry says.
fn mark_record(entry: &Entry, end: u64, marks: &mut [bool])
    requires long { length marks.old ≡ end }
    ensures marks { marks.new ≡ with_record end entry.now marks.old }
{
    match misplaced(entry, end) {
        None => cover(entry.offset as usize, entry.len as usize, marks),
        Some(_) => {}
    }
}

// Marks so many bytes from this one on.
fn cover(from: usize, len: usize, marks: &mut [bool])
    requires within { from + len ≤ length marks.old }
    ensures marks { marks.new ≡ take from marks.old ++ (replicate len true ++ drop (from + len) marks.old) }
{
    marks[from..from + len].fill(true);
}

// The header and the entries of an index file, or the header of an index of no games.
fn front_of(alloc: Global, index: &[u8]) -> Result<Vec<u8>, AllocError>
    ensures front { IfOk result (λ front. front.items ≡ front_by index.now (head_found index.now)) }
{
    if find_header(index).is_err() {
        return Vec::from_slice(alloc, &renewed(&[0; HEADER_LEN]));
    }
    let len = ENTRY_LEN * entries_found(index) as usize;
    let mut front = Vec::from_slice(alloc, &renewed(index))?;
    front.extend_from_slice(&index[HEADER_LEN..HEADER_LEN + len])?;
    Ok(front)
}

// How many blocks a games file that ends there has, of those whose places an entry can say.
fn block_count(end: u64) -> u64
    ensures count { result ≡ block_count end }
{
    (end.min(PLACES) + (BLOCK_LEN - 1)) / BLOCK_LEN
}

// Adds an entry for each record that is found in a games file that ends there and has none.
fn add_blocks<F: Files>(
    end: u64,
    marks: &[bool],
    old: &mut F,
    buf: &mut [u8],
    index: &mut Vec<u8>,
) -> Result<(), MendError>
    requires room { 131072 ≤ length buf.old }
    requires long { length marks.now ≡ end }
    requires known { end ≡ (F.seen old.old).known }
    requires told { TellsLength (F.seen old.old).games end }
    ensures added { OnOk result (IfSome (F.seen old.old).games (λ games. index.new.items ≡ index.old.items ++ loose_in marks.now games (block_count end))) }
    ensures unchanged { F.seen old.new ≡ F.seen old.old }
    ensures asks { F.asked old.new ≤ F.asked old.old + end }
    ensures counts { F.faults old.old ≤ F.faults old.new }
    ensures cause { IfErr result (IsOld (F.faults old.old) (F.faults old.new)) }
{
    for block in 0..block_count(end) {
        if let Err(error) = add_block(block, end, marks, old, buf, index) {
            return Err(error);
        }
    }
    Ok(())
}

// Adds an entry for each record that is found in a block and has none.
fn add_block<F: Files>(
    block: u64,
    end: u64,
    marks: &[bool],
    old: &mut F,
    buf: &mut [u8],
    index: &mut Vec<u8>,
) -> Result<(), MendError>
    requires within { block < block_count end }
    requires room { 131072 ≤ length buf.old }
    requires long { length marks.now ≡ end }
    requires known { end ≡ (F.seen old.old).known }
    requires told { TellsLength (F.seen old.old).games end }
    ensures added { OnOk result (IfSome (F.seen old.old).games (λ games.
        index.new.items ≡ index.old.items ++ loose_from (131072 * block) 0 (block_of end block marks.now) (block_of end block games))) }
    ensures unchanged { F.seen old.new ≡ F.seen old.old }
    ensures asks { F.asked old.new ≤ F.asked old.old + min 131072 (end - 131072 * block) }
    ensures counts { F.faults old.old ≤ F.faults old.new }
    ensures cause { IfErr result (IsOld (F.faults old.old) (F.faults old.new)) }
{
    let start = block * BLOCK_LEN;
    let len = BLOCK_LEN.min(end - start);
    if old.read_games(start, len as u32, buf).is_err() {
        return Err(MendError::OldFailed);
    }
    let marks = &marks[start as usize..(start + len) as usize];
    match add_loose(start as u32, marks, &buf[..len as usize], index) {
        Ok(()) => Ok(()),
        Err(_) => Err(MendError::Memory),
    }
}

// Adds an entry for each record that is found in these bytes, the first of which stands at this place of the games file.
fn add_loose(
    place: u32,
    marks: &[bool],
    bytes: &[u8],
    index: &mut Vec<u8>,
) -> Result<(), AllocError>
    requires long { length marks.now ≡ length bytes.now }
    requires short { length bytes.now ≤ 131072 }
    requires room { place + length bytes.now ≤ 4294967296 }
    ensures added { OnOk result (index.new.items ≡ index.old.items ++ loose_from place 0 marks.now bytes.now) }
{
    let blank = said_by(&[0; ENTRY_LEN]).entry;
    let mut at = 0;
    let mut end = 0;
    while at < bytes.len() {
        end = free_end(marks, at, end);
        let len = loose_len(&blank, &bytes[at..end]);
        add_entry(place + at as u32, len, index)?;
        at += len.max(1) as usize;
    }
    Ok(())
}

// Where the free bytes end from `at` on: at `end`, if that is not passed.
fn free_end(marks: &[bool], at: usize, end: usize) -> usize
    requires there { at ≤ length marks.now }
    requires known { at < end → end - at ≡ free_front (drop at marks.now) }
    requires within { end ≤ length marks.now }
    ensures end { result ≡ at + free_front (drop at marks.now) }
    ensures within { result ≤ length marks.now }
{
    if at < end {
        return end;
    }
    at + free_front(&marks[at..])
}

// How many bytes are free before the next record.
fn free_front(marks: &[bool]) -> usize
    ensures free { result ≡ free_front marks.now }
    ensures within { result ≤ length marks.now }
{
    let mut free = 0;
    for taken in marks {
        if *taken {
            return free;
        }
        free += 1;
    }
    free
}

// The length of the record that is taken in front of free bytes, or 0. The entry may be any.
#[tactic(auto, unfolding(crate::specs::Loose::loose_len))]
fn loose_len(entry: &Entry, bytes: &[u8]) -> u32
    requires fields { IsEntry entry.now }
    requires short { length bytes.now ≤ 131072 }
    ensures len { result ≡ loose_len bytes.now }
    ensures few { result < 131072 }
{
    if bytes.len() < 4 || (bytes[0] == bytes[1] && bytes[1] == bytes[2]) {
        return 0;
    }
    let len = answered_len(entry, bytes);
    if 3 < len && len < 131_072 { len } else { 0 }
}

// The length of the record with which bytes begin, or 0.
fn answered_len(entry: &Entry, bytes: &[u8]) -> u32
    requires fields { IsEntry entry.now }
    requires short { length bytes.now ≤ 131072 }
    ensures len { result ≡ answered_len (length bytes.now) (record_answer bytes.now) }
{
    match mended_entry(entry, bytes) {
        Ok(_) => bytes.len() as u32,
        Err(fault) => len_before(fault),
    }
}

// The length of the record that bytes with this fault begin with, or 0.
fn len_before(fault: RecordFault) -> u32
    ensures len { result ≡ len_before fault.what fault.place }
{
    match fault.what {
        RecordWhat::Extra => fault.place,
        _ => 0,
    }
}

// Adds an entry for a record of this length at this place, unless the length is 0.
fn add_entry(place: u32, len: u32, index: &mut Vec<u8>) -> Result<(), AllocError>
    requires few { len < 131072 }
    ensures added { OnOk result (index.new.items ≡ index.old.items ++ entry_of_loose place len) }
{
    if len == 0 {
        return Ok(());
    }
    index.extend_from_slice(&place.to_be_bytes())?;
    index.extend_from_slice(&((len % 65_536) as u16).to_be_bytes())?;
    index.push((len / 65_536 * 128) as u8)?;
    index.extend_from_slice(NOTHING)
}
