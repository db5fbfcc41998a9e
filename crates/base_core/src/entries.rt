//! The entries of the games of an open base.
ghost use Rattle.std.specs.Prelude.{◌≡◌, ◌≤◌, ◌<◌, ◌+◌, ◌-◌, ◌*◌, ◌^◌, ◌++◌, [], ◌∷◌, Some, length, slice_get, OnOk, OnErr, slice_set, take, drop};
ghost use Rattle.index_entry.specs.Entry.{IsEntry, IsWritten, entry_in};
ghost use Rattle.base_core.specs.Packing.{ArePacked, AreWritten, entries_in, packed_at};

use index_entry::{ENTRY_LEN, Entry, pack, unpack};
use std::alloc::{AllocError, Global};
use std::marker::Model;

/// A list of entries. Each is kept in its 47 bytes.
#[derive(Drop)]
pub(crate) struct Entries {
    bytes: Vec<u8>,
    count: u32,
}

impl Model for Entries {
    ghost use Rattle.std.specs.Prelude.{List};
    ghost use Rattle.index_entry.specs.declared.entry.Entry.{Entry};
    ghost use Rattle.base_core.specs.Packing.{ArePacked, entries_in};

    ghost Value = { List Entry };

    ghost view = { λ entries. entries_in entries.bytes.items entries.count };

    ghost invariant = { λ entries. ArePacked entries.bytes.items entries.count };
}

impl Entries {
    /// No entries.
    pub(crate) fn new(alloc: Global) -> Entries
        ensures none { result ≡ [] }
    {
        Entries {
            bytes: Vec::new(alloc),
            count: 0,
        }
    }

    /// The entries of these bytes, so many.
    pub(crate) fn of(bytes: Vec<u8>, count: u32) -> Entries
        requires packed { ArePacked bytes.items count }
        ensures entries { result ≡ entries_in bytes.items count }
    {
        Entries { bytes, count }
    }

    /// The number of entries.
    pub(crate) fn len(&self) -> u32
        ensures len { result ≡ length self.now }
    {
        self.count
    }

    /// The entry at a place.
    pub(crate) fn get(&self, i: u32) -> Entry
        requires there { i < length self.now }
        ensures at { slice_get self.now i ≡ Some result }
    {
        match unpack(self.packed(i)) {
            Ok(entry) => entry,
            Err(_) => unreachable!(),
        }
    }

    /// The 47 bytes of the entry at a place.
    pub(crate) fn packed(&self, i: u32) -> &[u8; ENTRY_LEN]
        requires there { i < length self.now }
        ensures at { slice_get self.now i ≡ Some (entry_in result.now) }
        ensures written { IsWritten result.now (entry_in result.now) }
    {
        packed_at(self.bytes.as_slice(), i)
    }

    /// The written forms of the entries, one after the other.
    pub(crate) fn as_bytes(&self) -> &[u8]
        ensures written { AreWritten result.now self.now }
    {
        self.bytes.as_slice()
    }

    /// Puts another entry into a place.
    pub(crate) fn set(&mut self, i: u32, entry: &Entry)
        requires there { i < length self.old }
        requires fields { IsEntry entry.now }
        ensures set { self.new ≡ slice_set self.old i entry.now }
    {
        put_packed(self.bytes.as_mut_slice(), i, &pack(entry));
    }

    /// Adds an entry at the end. After want of memory the list is as it was.
    pub(crate) fn push(&mut self, entry: &Entry) -> Result<(), AllocError>
        requires room { length self.old < 2 ^ 32 - 1 }
        requires fields { IsEntry entry.now }
        ensures pushed { OnOk result (self.new ≡ self.old ++ entry.now ∷ []) }
        ensures unchanged { OnErr result (self.new ≡ self.old) }
    {
        self.bytes.extend_from_slice(&pack(entry))?;
        self.count += 1;
        Ok(())
    }

    /// Keeps so many entries.
    pub(crate) fn truncate(&mut self, count: u32)
        requires within { count ≤ length self.old }
        ensures kept { self.new ≡ take count self.old }
    {
        self.bytes.truncate(ENTRY_LEN * count as usize);
        self.count = count;
    }
}

/// Puts the 47 bytes of an entry into its place.
pub(crate) fn put_packed(bytes: &mut [u8], i: u32, packed: &[u8; ENTRY_LEN])
    requires there { 47 * i + 47 ≤ length bytes.old }
    ensures put { bytes.new ≡ take (47 * i) bytes.old ++ (packed.now ++ drop (47 * i + 47) bytes.old) }
{
    let at = ENTRY_LEN * i as usize;
    bytes[at..at + ENTRY_LEN].copy_from_slice(packed);
}

/// The 47 bytes of an entry.
pub(crate) fn packed_at(bytes: &[u8], i: u32) -> &[u8; ENTRY_LEN]
    requires there { 47 * i + 47 ≤ length bytes.now }
    ensures packed { result.now ≡ packed_at bytes.now i }
{
    let at = ENTRY_LEN * i as usize;
    match <&[u8; ENTRY_LEN]>::try_from(&bytes[at..at + ENTRY_LEN]) {
        Ok(packed) => packed,
        Err(_) => unreachable!(),
    }
}
