//! How much of a part is read: no more than its header says.
use crate::held::Held;
use crate::places::Kind;
use std::io;
use std::io::{Read, Seek, SeekFrom};

/// The bytes of the header of an index, and of each entry behind it.
const INDEX_HEADER: u64 = 182;

const ENTRY: u64 = 47;

/// The most entries of an index.
const MOST_ENTRIES: u64 = 16_777_214;

/// The bytes of the header of a names file, and the most that a name behind it has with its fields.
const NAMES_HEADER: u64 = 36;

const NAME: u64 = 263;

/// How many entries of an index are read.
#[derive(Clone, Copy, PartialEq, Eq, Drop)]
pub enum Reach {
    /// Those that its header counts.
    Counted,
    /// All that there are, and no more than an index has.
    All,
}

/// Reads a part into an empty list, as far as its header says or an index goes, and notes its state before that.
pub fn read_part(held: &mut Held, kind: Kind, reach: Reach, bytes: &mut Vec<u8>) -> io::Result<()> {
    held.note()?;
    held.file.seek(SeekFrom::Start(0))?;
    read_up_to(held, header_len(kind), bytes)?;
    let whole = whole_len(kind, reach, bytes.as_slice());
    read_up_to(held, whole, bytes)
}

// Reads on until so many bytes are read in all, or the file ends.
fn read_up_to(held: &mut Held, all: u64, bytes: &mut Vec<u8>) -> io::Result<()> {
    let read = bytes.len() as u64;
    let more = all.min(held.len()).saturating_sub(read);
    // One byte more, so that the end is met in that room.
    bytes.reserve_exact((more as usize).saturating_add(1))?;
    (&held.file).take(more).read_to_end(bytes)?;
    Ok(())
}

// The length of the header.
fn header_len(kind: Kind) -> u64 {
    match kind {
        Kind::Index => INDEX_HEADER,
        Kind::Names | Kind::Games => NAMES_HEADER,
    }
}

// The most bytes that a part of this header has.
fn whole_len(kind: Kind, reach: Reach, header: &[u8]) -> u64 {
    match kind {
        Kind::Index => {
            let entries = match reach {
                Reach::Counted => number(header.get(14..17)),
                Reach::All => MOST_ENTRIES,
            };
            ENTRY.saturating_mul(entries).saturating_add(INDEX_HEADER)
        }
        Kind::Names | Kind::Games => {
            let players = number(header.get(12..15));
            let events = number(header.get(15..18));
            let sites = number(header.get(18..21));
            let rounds = number(header.get(21..24));
            let names = players
                .saturating_add(events)
                .saturating_add(sites)
                .saturating_add(rounds);
            NAME.saturating_mul(names).saturating_add(NAMES_HEADER)
        }
    }
}

// The number in three bytes, the highest first; none if the header is cut.
fn number(bytes: Option<&[u8]>) -> u64 {
    match bytes {
        Some([high, middle, low]) => u64::from(u32::from_be_bytes([0, *high, *middle, *low])),
        _ => 0,
    }
}
