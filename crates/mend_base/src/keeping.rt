//! One game of the old base in the draft and the files of the new one.
ghost use Rattle.std.specs.Prelude.{◌≡◌, ◌≤◌, ◌<◌, ◌+◌, [], Some, length, is_some, if◌then◌else◌, IfErr, IfOk, IfSome, OnOk, OnErr};
ghost use Rattle.base_files.specs.Seen.{FreshAlone, lengthened};
ghost use Rattle.base_files.specs.Told.{TellsLength};
ghost use Rattle.block_store.specs.Placing.{end_after, padded};
ghost use Rattle.name_base.specs.PartNames.{filled_names};
ghost use Rattle.base_core.specs.Drafts.{Grows, Takes};
ghost use Rattle.base_core.specs.Edited.{full_names, or_file};
ghost use Rattle.base_core.specs.Edits.{names_with};
ghost use Rattle.base_core.specs.Entries.{head_of};
ghost use Rattle.mend_base.specs.Devices.{IsReport};
ghost use Rattle.mend_base.specs.Entries.{entries_found};
ghost use Rattle.mend_base.specs.Finding.{IsTakeable, entry_cost};
ghost use Rattle.mend_base.specs.Keeping.{FillsNext, IsKeeping, MendsNext, WhyStopped};
ghost use Rattle.mend_base.specs.Mending.{HasRisen};
ghost use Rattle.mend_base.specs.Notes.{notes_of_change, with_notes};

use crate::devices::{append, tell};
use crate::fault::{MendError, not_taken_error};
use crate::finding::{Change, Find, Source, find_game};
use crate::report::{Note, Report};
use base_core::Draft;
use base_files::Files;
use index_entry::Entry;
use name_base::PartNames;
use std::alloc::Global;

/// Looks for a game, takes it into the draft and adds its record to the new games file if it comes over, and tells what becomes of it if it
/// does not come over as it is. Gives how many games are changed: this one or none.
pub(crate) fn mend_game<F: Files, N: Files, R: Report>(
    alloc: Global,
    source: &Source<'_>,
    game: u32,
    old: &mut F,
    draft: &mut Draft,
    new: &mut N,
    report: &mut R,
    buf: &mut [u8],
) -> Result<u32, MendError>
    requires there { game < entries_found source.now.index.now }
    requires room { 131072 ≤ length buf.old }
    requires known { source.now.end ≤ (F.seen old.old).known }
    requires told { TellsLength (F.seen old.old).games source.now.end }
    requires few { length draft.old.entries < 16777214 }
    ensures mended { IfOk result (λ changed. IfSome (F.seen old.old).games (λ games.
        MendsNext game source.now.way source.now.index.now source.now.names.now games (R.told report.old) (R.told report.new) changed draft.old draft.new (N.seen new.old).fresh (N.seen new.new).fresh)) }
    ensures one { IfOk result (λ changed. changed ≤ 1) }
    ensures few { OnOk result (length draft.new.entries ≤ length draft.old.entries + 1) }
    ensures none_told { OnErr result (R.told report.new ≡ R.told report.old) }
    ensures why { IfErr result (WhyStopped (λ what. IfSome (F.seen old.old).games (λ games.
        FillsNext game source.now.way source.now.index.now source.now.names.now games (R.told report.old) draft.old (N.seen new.old).fresh what))) }
    ensures alone { FreshAlone (N.seen new.old) (N.seen new.new) }
    ensures unchanged { F.seen old.new ≡ F.seen old.old }
    ensures asks { F.asked old.new ≤ F.asked old.old + entry_cost source.now.index.now game }
    ensures none_asked { N.asked new.new ≡ N.asked new.old }
    ensures old_counts { F.faults old.old ≤ F.faults old.new }
    ensures new_counts { N.faults new.old ≤ N.faults new.new }
    ensures report_counts { R.faults report.old ≤ R.faults report.new }
    ensures cause { IfErr result (HasRisen (record { old = F.faults old.old; new = N.faults new.old; report = R.faults report.old })
        (record { old = F.faults old.new; new = N.faults new.new; report = R.faults report.new })) }
{
    match find_game(alloc, source, game, old, buf) {
        Ok(Find::Whole(kept, change)) => {
            let bytes = &buf[..kept.len as usize];
            if let Err(error) = keep_game(alloc, source.names, &kept, bytes, draft, new) {
                return Err(error);
            }
            tell_change(report, game, change)
        }
        Ok(Find::Broken(fault)) => {
            if let Err(error) = tell(report, &Note::LeftOut { game, fault }) {
                return Err(error);
            }
            Ok(0)
        }
        Err(error) => Err(error),
    }
}

// Takes a game into the draft, and adds its record to the new games file.
fn keep_game<N: Files>(
    alloc: Global,
    names: &PartNames,
    kept: &Entry,
    bytes: &[u8],
    draft: &mut Draft,
    new: &mut N,
) -> Result<(), MendError>
    requires takeable { IsTakeable kept.now }
    requires long { length bytes.now ≡ kept.now.len }
    requires few { length draft.old.entries < 16777214 }
    ensures taken { OnOk result (Takes (filled_names names.now) kept.now draft.old draft.new) }
    ensures grown { OnOk result (Grows kept.now.len draft.old draft.new) }
    ensures names { OnOk result (draft.new.names ≡ names_with (head_of (filled_names names.now) kept.now []) draft.old.names) }
    ensures added { OnOk result (N.seen new.new ≡ lengthened (padded draft.old.end bytes.now) (N.seen new.old)) }
    ensures why { IfErr result (WhyStopped (λ what. or_file (full_names (names_with (head_of (filled_names names.now) kept.now []) draft.old.names)) (end_after draft.old.end kept.now.len) ≡ Some what)) }
    ensures left { OnErr result (FreshAlone (N.seen new.old) (N.seen new.new)) }
    ensures none_asked { N.asked new.new ≡ N.asked new.old }
    ensures counts { N.faults new.old ≤ N.faults new.new }
    ensures cause { IfErr result (IsKeeping (N.faults new.old) (N.faults new.new)) }
{
    let pad = match draft.take(alloc, names, kept) {
        Ok(pad) => pad,
        Err(refused) => return Err(not_taken_error(refused)),
    };
    append(new, pad, bytes)
}

// Tells why a game is changed, if it is, and gives how many games that changes.
fn tell_change<R: Report>(
    report: &mut R,
    game: u32,
    change: Option<Change>,
) -> Result<u32, MendError>
    ensures told { OnOk result (R.told report.new ≡ with_notes (R.told report.old) (notes_of_change game change)) }
    ensures changed { IfOk result (λ changed. changed ≡ (if is_some change then 1 else 0)) }
    ensures not_told { OnErr result (R.told report.new ≡ R.told report.old) }
    ensures counts { R.faults report.old ≤ R.faults report.new }
    ensures cause { IfErr result (IsReport (R.faults report.old) (R.faults report.new)) }
{
    let note = match change {
        None => return Ok(0),
        Some(Change::Fault(fault)) => Note::Changed { game, fault },
        Some(Change::Loose(place)) => Note::Took { game, place },
    };
    if let Err(error) = tell(report, &note) {
        return Err(error);
    }
    Ok(1)
}
