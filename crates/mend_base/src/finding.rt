//! Looking for a game in files that may be faulty.
ghost use Rattle.std.specs.Prelude.{◌≡◌, ◌≤◌, ◌+◌, length, take, IfErr, IfOk};
ghost use Rattle.base_files.specs.Told.{TellsLength};
ghost use Rattle.index_entry.specs.Entry.{IsEntry};
ghost use Rattle.index_entry.specs.Index.{entry_bytes};
ghost use Rattle.mend_base.specs.Fields.{known_in};
ghost use Rattle.mend_base.specs.Devices.{IsOld};
ghost use Rattle.mend_base.specs.Finding.{Finds, FindsLeft, HasEntry, IsKeepable, entry_cost};
ghost use Rattle.mend_base.specs.Places.{change_by, change_from, change_in, missing_in};
ghost use Rattle.mend_base.specs.declared.fault.MendError.TheVariants as error;

use crate::fault::MendError;
use crate::fields::{Said, said_by};
use crate::fronts::{Faulty, save};
use crate::ways::Way;
use base_core::{BaseFault, IdField, mended_entry, misplaced};
use base_files::Files;
use game_codec::RecordFault;
use index_entry::{Entry, EntryFault, entry_of};
use name_base::{NameKind, PartNames};
use std::alloc::Global;

/// What was read of the old base before its records: the bytes of its index, its names as far as they go, the end of its games file,
/// and how its games are taken.
#[derive(Clone, Copy)]
pub(crate) struct Source<'a> {
    pub(crate) index: &'a [u8],
    pub(crate) names: &'a PartNames,
    pub(crate) end: u64,
    pub(crate) way: Way,
}

/// Why a game does not come over as it is.
#[derive(Clone, Copy, Debug, Drop, PartialEq, Eq)]
pub(crate) enum Change {
    /// This is the first fault for which it is changed.
    Fault(BaseFault),
    /// The index file has no entry of it. Its record begins at this byte of the games file.
    Loose(u32),
}

/// What was found of a game.
#[derive(Clone, Copy, Drop)]
pub(crate) enum Find {
    /// It comes over. Its entry has the derived fields of its record, which stands in the front of the buffer; and why the game is
    /// changed, if it is.
    Whole(Entry, Option<Change>),
    /// It is left out, for this first fault.
    Broken(BaseFault),
}

/// Looks for a game that has an entry. Its record is read into `buf`.
pub(crate) fn find_game<F: Files>(
    alloc: Global,
    source: &Source<'_>,
    game: u32,
    old: &mut F,
    buf: &mut [u8],
) -> Result<Find, MendError>
    requires there { HasEntry source.now.index.now game }
    requires room { 131072 ≤ length buf.old }
    requires known { source.now.end ≤ (F.seen old.old).known }
    requires told { TellsLength (F.seen old.old).games source.now.end }
    ensures found { IfOk result (λ find. Finds source.now.way source.now.index.now source.now.names.now (F.seen old.old).games game buf.new find) }
    ensures keepable { IfOk result IsKeepable }
    ensures asks { F.asked old.new ≤ F.asked old.old + entry_cost source.now.index.now game }
    ensures unchanged { F.seen old.new ≡ F.seen old.old }
    ensures counts { F.faults old.old ≤ F.faults old.new }
    ensures cause { IfErr result (IsOld (F.faults old.old) (F.faults old.new)) }
{
    let (entry, change) = entry_of_game(source, game);
    if let Some(what) = misplaced(&entry, source.end) {
        return Ok(Find::Broken(BaseFault::Place { game, what }));
    }
    if old
        .read_games(u64::from(entry.offset), entry.len, buf)
        .is_err()
    {
        return Err(MendError::OldFailed);
    }
    match mended_entry(&entry, &buf[..entry.len as usize]) {
        Ok(kept) => Ok(Find::Whole(kept, change)),
        Err(fault) => find_left(alloc, source.way.faulty, game, &entry, fault, buf),
    }
}

// What is found of a game whose record, in the front of the buffer, has this first fault.
fn find_left(
    alloc: Global,
    faulty: Faulty,
    game: u32,
    entry: &Entry,
    fault: RecordFault,
    buf: &mut [u8],
) -> Result<Find, MendError>
    requires fields { IsEntry entry.now }
    requires room { 131072 ≤ length buf.old }
    ensures found { IfOk result (FindsLeft faulty game entry.now (take entry.now.len buf.old) fault buf.new) }
    ensures keepable { IfOk result IsKeepable }
    ensures memory { IfErr result (λ e. e ≡ error.Memory) }
{
    let what = BaseFault::Packed { game, fault };
    let Some(saved) = save(alloc, faulty, entry, &buf[..entry.len as usize], fault)? else {
        return Ok(Find::Broken(what));
    };
    buf[..saved.bytes.len()].copy_from_slice(saved.bytes.as_slice());
    Ok(Find::Whole(saved.kept, Some(Change::Fault(what))))
}

// What the entry of a game says without what stands for nothing, and why the game is changed, if it is.
fn entry_of_game(source: &Source<'_>, game: u32) -> (Entry, Option<Change>)
    requires there { HasEntry source.now.index.now game }
    ensures known { result.0 ≡ known_in (entry_bytes source.now.index.now game) }
    ensures change { result.1 ≡ change_in source.now.way source.now.names.now game (entry_bytes source.now.index.now game) }
    ensures fields { IsEntry result.0 }
{
    let said = said_by(&entry_of(source.index, game));
    (said.entry, change_from(source, game, &said))
}

// Why a game of which this is said is changed, if it is.
fn change_from(source: &Source<'_>, game: u32, said: &Said) -> Option<Change>
    ensures change { result ≡ change_from source.now.way source.now.names.now game said.now.fault said.now.entry }
{
    if source.way.known <= game {
        return Some(Change::Loose(said.entry.offset));
    }
    change_by(game, said.fault, missing_in(source.names, &said.entry))
}

// The first fault for which a game is changed.
fn change_by(game: u32, fault: Option<EntryFault>, missing: Option<IdField>) -> Option<Change>
    ensures change { result ≡ change_by game fault missing }
{
    if let Some(what) = fault {
        return Some(Change::Fault(BaseFault::EntryField { game, what }));
    }
    let field = missing?;
    Some(Change::Fault(BaseFault::Id { game, field }))
}

// The first of the ids of an entry that no name has.
#[tactic(auto, unfolding(crate::specs::Places::missing_in))]
fn missing_in(names: &PartNames, e: &Entry) -> Option<IdField>
    ensures first { result ≡ missing_in names.now e.now }
{
    if !names.has(NameKind::Player, e.white) {
        return Some(IdField::White);
    }
    if !names.has(NameKind::Player, e.black) {
        return Some(IdField::Black);
    }
    if !names.has(NameKind::Event, e.event) {
        return Some(IdField::Event);
    }
    if !names.has(NameKind::Site, e.site) {
        return Some(IdField::Site);
    }
    if !names.has(NameKind::Round, e.round) {
        return Some(IdField::Round);
    }
    None
}
