//! The entries of an index while it is opened, in the bytes that were loaded.
ghost use Rattle.std.specs.Prelude.{◌≡◌, ◌≤◌, ◌<◌, ◌-◌, ◌^◌, ◌++◌, [], ◌∷◌, length, take, drop};
ghost use Rattle.index_entry.specs.Entry.{IsEntry};

use crate::entries::{Entries, packed_at, put_packed};
use index_entry::{ENTRY_LEN, Entry, HEADER_LEN, pack};
use std::marker::Model;

/// The entries of an index of which the first were read. Those are in the form in which they are written, in the bytes of the index
/// itself, and the bytes of the others stand behind them as they were loaded.
#[derive(Drop)]
pub(crate) struct PartRead {
    bytes: Vec<u8>,
    count: u32,
}

impl Model for PartRead {
    ghost use Rattle.std.specs.Prelude.{◌*◌, drop};
    ghost use Rattle.base_core.specs.Packing.{AreFirst, PartRead, entries_in};

    ghost Value = { PartRead };

    ghost view = { λ part. record { read = entries_in part.bytes.items part.count; ahead = drop (47 * part.count) part.bytes.items } };

    ghost invariant = { λ part. AreFirst part.bytes.items part.count };
}

impl PartRead {
    /// The entries of an index, none of which was read. Its header makes room for them.
    pub(crate) fn of(index: Vec<u8>) -> PartRead
        requires header { 182 ≤ length index.items }
        ensures none { result.read ≡ [] }
        ensures ahead { result.ahead ≡ drop 182 index.items }
    {
        let mut bytes = index;
        let len = bytes.len() - HEADER_LEN;
        bytes.copy_within(HEADER_LEN.., 0);
        bytes.truncate(len);
        PartRead { bytes, count: 0 }
    }

    /// The 47 bytes of the first entry that was not read.
    pub(crate) fn next(&self) -> [u8; ENTRY_LEN]
        requires there { 47 ≤ length self.now.ahead }
        ensures next { result ≡ take 47 self.now.ahead }
    {
        *packed_at(self.bytes.as_slice(), self.count)
    }

    /// Puts an entry in the place of the first that was not read.
    pub(crate) fn put(&mut self, entry: &Entry)
        requires there { 47 ≤ length self.old.ahead }
        requires room { length self.old.read < 2 ^ 32 - 1 }
        requires fields { IsEntry entry.now }
        ensures read { self.new.read ≡ self.old.read ++ entry.now ∷ [] }
        ensures ahead { self.new.ahead ≡ drop 47 self.old.ahead }
    {
        put_packed(self.bytes.as_mut_slice(), self.count, &pack(entry));
        self.count += 1;
    }

    /// The entries that were read, without what stands behind them.
    pub(crate) fn into_entries(self) -> Entries
        ensures entries { result ≡ self.read }
    {
        let PartRead { mut bytes, count } = self;
        bytes.truncate(ENTRY_LEN * count as usize);
        Entries::of(bytes, count)
    }
}
