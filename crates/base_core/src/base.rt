//! An open base.
ghost use Rattle.std.specs.Prelude.{◌≡◌, ◌<◌, [], Some, false, length, slice_get};
ghost use Rattle.base_core.specs.Base.{empty_header};
ghost use Rattle.base_core.specs.Represents.{IsKept, IsSound};
ghost use Rattle.name_base.specs.NameLists.{no_names};

use crate::entries::Entries;
use block_store::Store;
use index_entry::{Entry, IndexHead};
use name_base::Names;
use std::alloc::Global;
use std::marker::Model;

/// An open base: the header of its index, its names, the entries of its games and the end of its games file. The records stay in the
/// games file. Each entry has the derived fields of its game's record, and the event date of its settled head.
#[derive(Drop)]
pub struct Base {
    pub(crate) header: IndexHead,
    pub(crate) names: Names,
    pub(crate) entries: Entries,
    pub(crate) store: Store,
    pub(crate) unsaved: bool,
}

impl Model for Base {
    ghost use Rattle.base_core.specs.Represents.{Kept, IsSound};

    ghost Value = { Kept };

    ghost view = { λ base. record { header = base.header; names = base.names; entries = base.entries; end = base.store; unsaved = base.unsaved } };

    ghost invariant = { λ base. IsSound (record { header = base.header; names = base.names; entries = base.entries; end = base.store; unsaved = base.unsaved }) };
}

impl Base {
    /// The base that is created: no games, no names.
    pub(crate) fn empty(alloc: Global) -> Base
        ensures empty { result ≡ record { header = empty_header; names = no_names; entries = []; end = 0; unsaved = false } }
    {
        Base {
            header: IndexHead {
                kind: 0,
                games: 0,
                autoload: 0,
                description: [0; 108],
                custom: [0; 54],
            },
            names: Names::new(alloc),
            entries: Entries::new(alloc),
            store: Store::new(0),
            unsaved: false,
        }
    }

    /// The base of these parts, without changes.
    pub(crate) fn of(header: IndexHead, names: Names, entries: Entries, end: u64) -> Base
        requires sound { IsSound (record { header = header; names = names; entries = entries; end = end; unsaved = false }) }
        ensures parts { result ≡ record { header = header; names = names; entries = entries; end = end; unsaved = false } }
    {
        Base {
            header,
            names,
            entries,
            store: Store::new(end),
            unsaved: false,
        }
    }

    /// The header of the index.
    pub fn header(&self) -> &IndexHead
        ensures header { result.now ≡ self.now.header }
        // What every open base keeps.
        ensures sound { IsSound self.now }
    {
        &self.header
    }

    // What is kept of game `i`.
    pub(crate) fn entry(&self, i: u32) -> Entry
        requires there { i < length self.now.entries }
        ensures at { slice_get self.now.entries i ≡ Some result }
        ensures kept { IsKept self.now.names self.now.end result }
    {
        self.entries.get(i)
    }

    /// The names.
    pub fn names(&self) -> &Names
        ensures names { result.now ≡ self.now.names }
    {
        &self.names
    }

    /// Whether there are changes that were not saved.
    pub fn unsaved(&self) -> bool
        ensures unsaved { result ≡ self.now.unsaved }
    {
        self.unsaved
    }

    /// Where the records of its games end, and so its games file.
    pub fn end(&self) -> u64
        ensures end { result ≡ self.now.end }
    {
        self.store.end()
    }
}
