//! The end of the games file, and the records behind it.
ghost use Rattle.std.specs.Prelude.{◌≡◌, ◌≢◌, ◌↔◌, ℕ, ◌+◌, ◌<◌, ◌≤◌, length, take, IfOk, IfErr, OnOk, OnErr, IsErrOf};
ghost use Rattle.base_files.specs.Counters.{Rose, raised};
ghost use Rattle.base_files.specs.Extents.{IsPlaced};
ghost use Rattle.base_files.specs.Seen.{appended, AppendedInPart};
ghost use Rattle.base_files.specs.Told.{Tells, part_told};
ghost use Rattle.block_store.specs.Placing.{IsEnd, end_after, longest_file, padded, padding, placed_at};

use crate::fault::StoreError;
use base_files::{Extent, Failed, Files};
use std::marker::Model;

/// The bytes of a block of the games file.
pub const BLOCK_LEN: u64 = 131_072;

/// The greatest length of a games file.
pub const LONGEST_FILE: u64 = 4_294_967_295;

/// Where the games file ends, which is where the next record goes.
#[derive(Drop)]
pub struct Store {
    end: u64,
}

impl Model for Store {
    ghost use Rattle.std.specs.Prelude.{ℕ};

    ghost Value = { ℕ };

    ghost view = { λ store. store.end };
}

impl Store {
    /// The store of a games file of so many bytes.
    pub fn new(end: u64) -> Store
        ensures end { result ≡ end }
    {
        Store { end }
    }

    /// Where the games file ends.
    pub fn end(&self) -> u64
        ensures end { result ≡ self.now }
    {
        self.end
    }

    /// Reads the record at `extent` into the front of `buf`.
    pub fn fetch<F: Files>(
        &self,
        extent: Extent,
        files: &mut F,
        buf: &mut [u8],
    ) -> Result<(), Failed>
        requires short { extent.len ≤ 131071 }
        requires room { 131072 ≤ length buf.old }
        requires within { extent.offset + extent.len ≤ (F.seen files.old).known }
        ensures bytes { OnOk result (Tells (part_told (F.seen files.old).games extent.offset extent.len) (take extent.len buf.new)) }
        ensures unchanged { F.seen files.new ≡ F.seen files.old }
        ensures asks { F.asked files.new ≡ raised (F.asked files.old) extent.len }
        ensures counts { F.faults files.old ≤ F.faults files.new }
        ensures cause { OnErr result (Rose (F.faults files.old) (F.faults files.new)) }
    {
        files.read_games(extent.offset, extent.len, buf)
    }

    /// Adds a record of 1 to 131,071 bytes to the games file: at its end, if it fits into the block there, and else at
    /// the beginning of the next block, behind zero bytes.
    ///
    /// `Full` comes if and only if the games file would then pass 4,294,967,295 bytes, and `Memory` if the files want
    /// memory; with both nothing was done. After `Failed` the store is not to be used again.
    pub fn place<F: Files>(&mut self, bytes: &[u8], files: &mut F) -> Result<Extent, StoreError>
        requires some { 0 < length bytes.now }
        requires short { length bytes.now ≤ 131071 }
        requires at_end { IsEnd self.old (F.seen files.old) }
        ensures placed { IfOk result (λ extent. extent ≡ placed_at self.old (length bytes.now)) }
        ensures in_block { IfOk result (λ extent. IsPlaced self.new extent) }
        ensures ended { OnOk result (self.new ≡ end_after self.old (length bytes.now)) }
        ensures as_ended { OnErr result (self.new ≡ self.old) }
        ensures added { OnOk result (F.seen files.new ≡ appended (padded self.old bytes.now) (F.seen files.old)) }
        ensures in_part { IsErrOf result StoreError.Failed → AppendedInPart (F.seen files.old) (F.seen files.new) }
        ensures none_added { OnErr result (result ≢ Err StoreError.Failed → F.seen files.new ≡ F.seen files.old) }
        ensures full { IsErrOf result StoreError.Full ↔ (longest_file < end_after self.old (length bytes.now)) }

        // The end is that of the files again, the record stands in its place, and every earlier one is as it was.
        ensures at_end { result ≢ Err StoreError.Failed → IsEnd self.new (F.seen files.new) }
        ensures there { IfOk result (λ extent. Tells (part_told (F.seen files.new).games extent.offset extent.len) bytes.now) }
        ensures kept { (offset len : ℕ) → offset + len ≤ self.old → part_told (F.seen files.new).games offset len ≡ part_told (F.seen files.old).games offset len }
        ensures none_asked { F.asked files.new ≡ F.asked files.old }
        ensures counts { F.faults files.old ≤ F.faults files.new }
        ensures cause { IsErrOf result StoreError.Failed → Rose (F.faults files.old) (F.faults files.new) }
        ensures uncounted { IsErrOf result StoreError.Full → F.faults files.new ≡ F.faults files.old }
        ensures memory { IsErrOf result StoreError.Memory → F.faults files.new ≡ F.faults files.old }
    {
        let len = bytes.len() as u64;
        let pad = padding(self.end, len);
        let end = self.end.saturating_add(u64::from(pad) + len);
        if end > LONGEST_FILE {
            return Err(StoreError::Full);
        }
        files.append_games(pad, bytes)?;
        let offset = self.end + u64::from(pad);
        self.end = end;
        Ok(Extent {
            offset,
            len: len as u32,
        })
    }
}

/// How many zero bytes come before a record of so many bytes, at most 131,071.
#[tactic(auto, unfolding(crate::specs::Placing::padding))]
pub fn padding(end: u64, len: u64) -> u32
    requires { len ≤ 131071 }
    ensures padding { result ≡ padding end len }
    ensures short { result ≤ 131072 }
{
    let filled = end % BLOCK_LEN;
    if filled + len <= BLOCK_LEN {
        0
    } else {
        (BLOCK_LEN - filled) as u32
    }
}
