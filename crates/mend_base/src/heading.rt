//! The header of an index that may be faulty, and how many entries the index has.
ghost use Rattle.std.specs.Prelude.{◌≡◌, ◌≤◌, ◌<◌, ◌+◌, ◌-◌, ◌*◌, length, take, drop, Ok, IfOk, IfErr, OnOk, OnErr};
ghost use Rattle.index_entry.specs.Index.{IsIndexHead, header_read};
ghost use Rattle.mend_base.specs.Devices.{IsReport};
ghost use Rattle.mend_base.specs.Entries.{entries_found, head_found, if_it_fits, renewed};
ghost use Rattle.mend_base.specs.Loose.{front_notes_by};
ghost use Rattle.mend_base.specs.Notes.{Began, notes_of_count, notes_of_fault, notes_of_head, notes_of_rest, with_notes};

use crate::devices::tell;
use crate::fault::MendError;
use crate::report::{Note, Report};
use crate::ways::Way;
use base_core::BaseFault;
use index_entry::{ENTRY_LEN, HEADER_LEN, IndexFault, IndexHead, read_header};

/// The greatest number of games of a base.
const MAX_GAMES: usize = 16_777_214;

/// The first ten bytes of an index: the magic and the version.
const BEGINNING: &[u8; 10] = b"Scid.si\0\x01\x90";

/// The header of an index whose entries are mended: one that is read, or one of which only the magic or the version is none and that counts
/// just the entries that the index has.
///
/// # Errors
///
/// The first fault of every other header.
#[tactic(auto, unfolding(crate::specs::Entries::head_found))]
pub(crate) fn find_header(index: &[u8]) -> Result<IndexHead, IndexFault>
    ensures exact { result ≡ head_found index.now }
    ensures sound { IfOk result IsIndexHead }
    ensures long { IfOk result (λ _. 182 ≤ length index.now) }
{
    match read_header(index) {
        Ok(header) => Ok(header),
        Err(IndexFault::Magic) => header_that_fits(index, IndexFault::Magic),
        Err(IndexFault::Version(version)) => header_that_fits(index, IndexFault::Version(version)),
        Err(fault) => Err(fault),
    }
}

// The header behind the first ten bytes of an index, if it counts just the entries that the index has.
fn header_that_fits(index: &[u8], fault: IndexFault) -> Result<IndexHead, IndexFault>
    requires long { 182 ≤ length index.now }
    ensures exact { result ≡ if_it_fits index.now fault (header_read (renewed index.now)) }
    ensures sound { IfOk result IsIndexHead }
{
    match read_header(&renewed(index)) {
        Ok(header) if index.len() == HEADER_LEN + ENTRY_LEN * header.games as usize => Ok(header),
        _ => Err(fault),
    }
}

/// The header of an index with the first ten bytes that an index has.
pub(crate) fn renewed(index: &[u8]) -> [u8; HEADER_LEN]
    requires long { 182 ≤ length index.now }
    ensures renewed { result ≡ renewed index.now }
{
    let mut bytes = [0; HEADER_LEN];
    bytes[..10].copy_from_slice(BEGINNING);
    bytes[10..].copy_from_slice(&index[10..HEADER_LEN]);
    bytes
}

/// How many whole entries an index has, and no more than a base can hold.
pub(crate) fn entries_found(index: &[u8]) -> u32
    ensures found { result ≡ entries_found index.now }
{
    (index.len().saturating_sub(HEADER_LEN) / ENTRY_LEN).min(MAX_GAMES) as u32
}

/// Tells of the index: the fault of its header if its entries are mended all the same, and that its header counts other games than it has.
pub(crate) fn tell_header<R: Report>(
    report: &mut R,
    way: Way,
    index: &[u8],
    header: &IndexHead,
) -> Result<(), MendError>
    ensures told { OnOk result (R.told report.new ≡ with_notes (R.told report.old) (notes_of_head way index.now header.now)) }
    ensures began { OnErr result (Began (notes_of_head way index.now header.now) (R.told report.old) (R.told report.new)) }
    ensures counts { R.faults report.old ≤ R.faults report.new }
    ensures cause { IfErr result (IsReport (R.faults report.old) (R.faults report.new)) }
{
    if let Err(error) = tell_fault(report, index) {
        return Err(error);
    }
    tell_count(report, header.games, way.known)
}

/// Tells the fault of the header of an index file that is lengthened, or why it has no entry.
pub(crate) fn tell_front<R: Report>(report: &mut R, index: &[u8]) -> Result<(), MendError>
    ensures told { OnOk result (R.told report.new ≡ with_notes (R.told report.old) (front_notes_by index.now (head_found index.now))) }
    ensures not_told { OnErr result (R.told report.new ≡ R.told report.old) }
    ensures counts { R.faults report.old ≤ R.faults report.new }
    ensures cause { IfErr result (IsReport (R.faults report.old) (R.faults report.new)) }
{
    match find_header(index) {
        Ok(_) => tell_fault(report, index),
        Err(fault) => tell(report, &Note::Lost(fault)),
    }
}

// Tells the fault of the header of an index whose entries are mended.
fn tell_fault<R: Report>(report: &mut R, index: &[u8]) -> Result<(), MendError>
    ensures told { OnOk result (R.told report.new ≡ with_notes (R.told report.old) (notes_of_fault (header_read index.now))) }
    ensures not_told { OnErr result (R.told report.new ≡ R.told report.old) }
    ensures counts { R.faults report.old ≤ R.faults report.new }
    ensures cause { IfErr result (IsReport (R.faults report.old) (R.faults report.new)) }
{
    match read_header(index) {
        Ok(_) => Ok(()),
        Err(fault) => tell(report, &Note::Tried(fault)),
    }
}

// Tells where so many games are counted and so many entries found.
fn tell_count<R: Report>(report: &mut R, counted: u32, found: u32) -> Result<(), MendError>
    ensures told { OnOk result (R.told report.new ≡ with_notes (R.told report.old) (notes_of_count counted found)) }
    ensures not_told { OnErr result (R.told report.new ≡ R.told report.old) }
    ensures counts { R.faults report.old ≤ R.faults report.new }
    ensures cause { IfErr result (IsReport (R.faults report.old) (R.faults report.new)) }
{
    if counted == found {
        return Ok(());
    }
    tell(report, &Note::Counted { counted, found })
}

/// Tells of the games that the header of an index counts and that have no entry.
pub(crate) fn tell_rest<R: Report>(
    report: &mut R,
    way: Way,
    index: &[u8],
    header: &IndexHead,
) -> Result<(), MendError>
    ensures told { OnOk result (R.told report.new ≡ with_notes (R.told report.old) (notes_of_rest way index.now header.now)) }
    ensures not_told { OnErr result (R.told report.new ≡ R.told report.old) }
    ensures counts { R.faults report.old ≤ R.faults report.new }
    ensures cause { IfErr result (IsReport (R.faults report.old) (R.faults report.new)) }
{
    let found = entries_found(index);
    if header.games <= found {
        return Ok(());
    }
    let note = Note::NotThere {
        first: found,
        last: header.games - 1,
        fault: BaseFault::Index(IndexFault::Length(way.len)),
    };
    tell(report, &note)
}
