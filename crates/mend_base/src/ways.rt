//! How the games of a base are taken.
ghost use Rattle.std.specs.Prelude.{◌≡◌};
ghost use Rattle.mend_base.specs.Ways.{known_entries, way_of};

use crate::fronts::Faulty;
use crate::heading::{entries_found, find_header};

/// Which games are mended.
#[derive(Clone, Copy, Debug, Drop, PartialEq, Eq)]
pub enum Sought {
    /// Those that have an entry.
    Entries,
    /// These, and one for each whole record in the games file that has no entry.
    Records,
}

/// What becomes of a game whose record has a fault, the number of entries of the index file, and its length. The games behind these entries
/// are records that have none.
#[derive(Clone, Copy, Debug)]
pub(crate) struct Way {
    pub(crate) faulty: Faulty,
    pub(crate) known: u32,
    pub(crate) len: u64,
}

impl Way {
    /// The way for an index file.
    pub(crate) fn of(faulty: Faulty, index: &[u8]) -> Way
        ensures way { result ≡ way_of faulty index.now }
    {
        Way {
            faulty,
            known: known_entries(index),
            len: index.len() as u64,
        }
    }
}

/// The number of the entries of an index file: none if it has no header.
pub(crate) fn known_entries(index: &[u8]) -> u32
    ensures known { result ≡ known_entries index.now }
{
    match find_header(index) {
        Ok(_) => entries_found(index),
        Err(_) => 0,
    }
}
