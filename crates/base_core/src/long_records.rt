//! The long records that were looked at last, with their signatures: entries that share a long record cost one look at it.
ghost use Rattle.std.specs.Prelude.{◌<◌, ◌^◌, length, IfOk, IfErr, IfSome};
ghost use Rattle.game_codec.specs.Fault.{IsRecordFault};
ghost use Rattle.sig_index.specs.Signature.{IsSigBounded};
ghost use Rattle.base_core.specs.Reading.{HasSig};

use game_codec::{MainPlace, RecordFault};
use sig_index::{Sig, signed};
use std::alloc::Global;
use std::marker::Model;

// From so many bytes on a record is kept. A shorter one is looked at anew in little more time than a comparison takes.
const LONG: usize = 4096;

// How many records are kept at most.
const MOST: usize = 4;

// The bytes of a record, and its signature.
#[derive(Drop)]
struct LookedAt {
    bytes: Vec<u8>,
    sig: Sig,
}

impl Model for LookedAt {
    ghost use Rattle.std.specs.Prelude.{ℕ, List};
    ghost use Rattle.sig_index.specs.Signature.{IsSigBounded};
    ghost use Rattle.sig_index.specs.declared.signature.Sig.{Sig as SigValue};
    ghost use Rattle.base_core.specs.Reading.{HasSig};

    ghost Value = { List ℕ × SigValue };

    ghost view = { λ l. (l.bytes.items, l.sig) };

    ghost invariant = { λ l. HasSig l.bytes.items l.sig × IsSigBounded l.sig };
}

impl LookedAt {
    // A record that has this signature.
    fn of(bytes: Vec<u8>, sig: Sig) -> Self
        requires has { HasSig bytes.items sig }
        requires bounded { IsSigBounded sig }
    {
        LookedAt { bytes, sig }
    }

    // The signature of the record, if these are its bytes.
    fn sig_of(&self, bytes: &[u8]) -> Option<Sig>
        ensures has { IfSome result (HasSig bytes.now) }
        ensures bounded { IfSome result IsSigBounded }
    {
        if self.bytes.as_slice() == bytes {
            return Some(self.sig);
        }
        None
    }
}

/// The last few records of at least 4,096 bytes that were looked at. A record is not kept for want of memory. All records are read at
/// one place.
#[derive(Drop)]
pub(crate) struct LongRecords {
    alloc: Global,
    kept: Vec<LookedAt>,
    main: MainPlace,
}

impl LongRecords {
    /// No record was looked at yet.
    pub(crate) fn new(alloc: Global) -> Self {
        LongRecords {
            alloc,
            kept: Vec::new(alloc),
            main: MainPlace::new(),
        }
    }

    /// The signature of the game of these bytes, or their first fault.
    pub(crate) fn signature(&mut self, bytes: &[u8]) -> Result<Sig, RecordFault>
        requires few { length bytes.now < 2 ^ 32 }
        ensures signed { IfOk result (HasSig bytes.now) }
        ensures bounded { IfOk result IsSigBounded }
        ensures fault { IfErr result (IsRecordFault bytes.now) }
    {
        if bytes.len() < LONG {
            return signed(bytes, &mut self.main);
        }
        if let Some(sig) = self.known(bytes) {
            return Ok(sig);
        }
        let sig = signed(bytes, &mut self.main)?;
        self.keep(bytes, sig);
        Ok(sig)
    }

    // The signature of the record that has these bytes, if it is kept.
    fn known(&self, bytes: &[u8]) -> Option<Sig>
        ensures has { IfSome result (HasSig bytes.now) }
        ensures bounded { IfSome result IsSigBounded }
    {
        for looked in self.kept.iter() {
            if let Some(sig) = looked.sig_of(bytes) {
                return Some(sig);
            }
        }
        None
    }

    // Keeps a record. If as many as may be are kept already, it takes the place of the oldest one.
    fn keep(&mut self, bytes: &[u8], sig: Sig)
        requires has { HasSig bytes.now sig }
        requires bounded { IsSigBounded sig }
    {
        if self.kept.len() == MOST {
            self.kept.remove(0);
        }
        if let Ok(copy) = Vec::from_slice(self.alloc, bytes) {
            let _ = self.kept.push(LookedAt::of(copy, sig));
        }
    }
}
