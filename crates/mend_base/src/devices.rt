//! The calls of the devices, with the errors of mending.
ghost use Rattle.std.specs.Prelude.{◌≡◌, ◌≤◌, ◌++◌, replicate, IfErr, IfOk, OnOk, OnErr};
ghost use Rattle.base_files.specs.Seen.{FreshAlone, begun, committed, lengthened, measured};
ghost use Rattle.base_files.specs.Told.{Tells, TellsLength};
ghost use Rattle.base_files.specs.Parts.{of_part};
ghost use Rattle.mend_base.specs.Devices.{IsNew, IsOld, IsReport};
ghost use Rattle.mend_base.specs.Notes.{with_note};

use crate::fault::{MendError, new_error, old_error, report_error};
use crate::report::{Note, Report};
use base_files::{Files, Part};
use std::alloc::Global;

/// What is read of the old base before its records.
#[derive(Drop)]
pub(crate) struct Loaded {
    pub(crate) index: Vec<u8>,
    pub(crate) names: Vec<u8>,
    pub(crate) end: u64,
}

/// Reads the index, the names file and the length of the games file.
pub(crate) fn load<F: Files>(alloc: Global, old: &mut F) -> Result<Loaded, MendError>
    ensures index { IfOk result (λ loaded. Tells (F.seen old.old).index loaded.index.items) }
    ensures names { IfOk result (λ loaded. Tells (F.seen old.old).names loaded.names.items) }
    ensures end { IfOk result (λ loaded. TellsLength (F.seen old.old).games loaded.end) }
    ensures known { IfOk result (λ loaded. F.seen old.new ≡ measured loaded.end (F.seen old.old)) }
    ensures unchanged { OnErr result (F.seen old.new ≡ F.seen old.old) }
    ensures none_asked { F.asked old.new ≡ F.asked old.old }
    ensures counts { F.faults old.old ≤ F.faults old.new }
    ensures cause { IfErr result (IsOld (F.faults old.old) (F.faults old.new)) }
{
    let index = load_part(alloc, old, Part::Index)?;
    let names = load_part(alloc, old, Part::Names)?;
    match old.games_len() {
        Ok(end) => Ok(Loaded { index, names, end }),
        Err(_) => Err(MendError::OldFailed),
    }
}

// Reads a part of the old base.
fn load_part<F: Files>(alloc: Global, old: &mut F, part: Part) -> Result<Vec<u8>, MendError>
    ensures loaded { IfOk result (λ bytes. Tells (of_part part (F.seen old.old).index (F.seen old.old).names) bytes.items) }
    ensures unchanged { F.seen old.new ≡ F.seen old.old }
    ensures none_asked { F.asked old.new ≡ F.asked old.old }
    ensures counts { F.faults old.old ≤ F.faults old.new }
    ensures cause { IfErr result (IsOld (F.faults old.old) (F.faults old.new)) }
{
    match old.load(alloc, part) {
        Ok(bytes) => Ok(bytes),
        Err(failed) => Err(old_error(failed)),
    }
}

/// Begins the new games file.
pub(crate) fn begin<N: Files>(new: &mut N) -> Result<(), MendError>
    ensures begun { OnOk result (N.seen new.new ≡ begun (N.seen new.old)) }
    ensures left { OnErr result (FreshAlone (N.seen new.old) (N.seen new.new)) }
    ensures none_asked { N.asked new.new ≡ N.asked new.old }
    ensures counts { N.faults new.old ≤ N.faults new.new }
    ensures cause { IfErr result (IsNew (N.faults new.old) (N.faults new.new)) }
{
    match new.begin_new() {
        Ok(()) => Ok(()),
        Err(failed) => Err(new_error(failed)),
    }
}

/// Adds zero bytes and then a record to the new games file.
pub(crate) fn append<N: Files>(new: &mut N, pad: u32, bytes: &[u8]) -> Result<(), MendError>
    ensures added { OnOk result (N.seen new.new ≡ lengthened (replicate pad 0 ++ bytes.now) (N.seen new.old)) }
    ensures left { OnErr result (FreshAlone (N.seen new.old) (N.seen new.new)) }
    ensures none_asked { N.asked new.new ≡ N.asked new.old }
    ensures counts { N.faults new.old ≤ N.faults new.new }
    ensures cause { IfErr result (IsNew (N.faults new.old) (N.faults new.new)) }
{
    match new.append_new(pad, bytes) {
        Ok(()) => Ok(()),
        Err(failed) => Err(new_error(failed)),
    }
}

/// Makes the new games file, these names and this index the files of the new base.
pub(crate) fn commit<N: Files>(new: &mut N, names: &[u8], index: &[u8]) -> Result<(), MendError>
    ensures committed { OnOk result (N.seen new.new ≡ committed names.now index.now (N.seen new.old)) }
    ensures left { OnErr result (FreshAlone (N.seen new.old) (N.seen new.new)) }
    ensures none_asked { N.asked new.new ≡ N.asked new.old }
    ensures counts { N.faults new.old ≤ N.faults new.new }
    ensures cause { IfErr result (IsNew (N.faults new.old) (N.faults new.new)) }
{
    match new.commit_new(names, index) {
        Ok(()) => Ok(()),
        Err(failed) => Err(new_error(failed)),
    }
}

/// Tells a note.
pub(crate) fn tell<R: Report>(report: &mut R, note: &Note) -> Result<(), MendError>
    ensures told { OnOk result (R.told report.new ≡ with_note (R.told report.old) note.now) }
    ensures not_told { OnErr result (R.told report.new ≡ R.told report.old) }
    ensures counts { R.faults report.old ≤ R.faults report.new }
    ensures cause { IfErr result (IsReport (R.faults report.old) (R.faults report.new)) }
{
    match report.tell(note) {
        Ok(()) => Ok(()),
        Err(failed) => Err(report_error(failed)),
    }
}
