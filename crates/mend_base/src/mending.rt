//! Mending a base.
ghost use Rattle.std.specs.Prelude.{◌≡◌, ◌≤◌, ◌+◌, ◌++◌, Ok, length, IfOk, IfErr, IfSome, OnOk, OnErr};
ghost use Rattle.base_files.specs.Seen.{FreshAlone, measured};
ghost use Rattle.base_files.specs.Told.{TellsLength};
ghost use Rattle.index_entry.specs.Index.{IsIndexHead};
ghost use Rattle.name_base.specs.PartNames.{names_in_part};
ghost use Rattle.base_core.specs.Opening.{IfTold};
ghost use Rattle.mend_base.specs.Devices.{IsNew};
ghost use Rattle.mend_base.specs.Entries.{entries_found, head_found};
ghost use Rattle.mend_base.specs.Finding.{entries_cost, mend_cost};
ghost use Rattle.mend_base.specs.Keeping.{PutsIt, WhyStopped};
ghost use Rattle.mend_base.specs.Mending.{HasMended, HasRisen, IsMade, IsTooMuch, Mends, WhyNotMended};
ghost use Rattle.mend_base.specs.Loose.{front_notes, lengthened, search_cost, sought_index, told_of};
ghost use Rattle.mend_base.specs.Notes.{Began, all_notes, notes_from, with_notes};
ghost use Rattle.mend_base.specs.declared.ways.Sought.TheVariants as sought;
ghost use Rattle.mend_base.specs.Places.{places_of};
ghost use Rattle.mend_base.specs.Ways.{way_of};

use crate::devices::{Loaded, begin, commit, load};
use crate::fault::MendError;
use crate::finding::Source;
use crate::fronts::Faulty;
use crate::heading::{entries_found, find_header, tell_front, tell_header, tell_rest};
use crate::keeping::mend_game;
use crate::loose::lengthened;
use crate::report::Report;
use crate::ways::{Sought, Way};
use base_core::Draft;
use base_files::Files;
use index_entry::IndexHead;
use name_base::read_part_names;
use std::alloc::Global;

/// How many games came over, how many of these are changed, and of how many: those that the index counts, or has where these are more.
#[derive(Clone, Copy, Debug, Drop, PartialEq, Eq)]
pub struct Mended {
    pub came: u32,
    pub changed: u32,
    pub of: u32,
}

/// Makes new files of every game of the old ones whose record is whole, in order, and tells of each game that is left
/// out or changed. A game loses those fields of its entry that stand for nothing. It has its names as far as the names
/// file goes, and `?` for each that is missing. The games are those that have an entry, whatever the index counts, and
/// if records are sought those of the records that have none, behind the others. The record of each game is read once,
/// into `buf`; where records are sought the whole games file is read before.
///
/// # Errors
///
/// - `Bad` if no header of the old index is found, and no records are sought.
/// - `Full` if the new base would pass a limit.
/// - `OldFailed`, `NewFailed` and `ReportFailed` if a device fails.
/// - `Memory` for want of memory.
///
/// The current files of the new base are then as they were.
pub fn mend<F: Files, N: Files, R: Report>(
    alloc: Global,
    faulty: Faulty,
    search: Sought,
    old: &mut F,
    new: &mut N,
    report: &mut R,
    buf: &mut [u8],
) -> Result<Mended, MendError>
    requires room { 131072 ≤ length buf.old }
    // The new files mean the base of the games that come over, in order, and all else is told of, each with its first fault.
    ensures mended { IfOk result (λ mended. IfTold (F.seen old.old) (λ index names games.
        Mends (way_of faulty index) (sought_index search index games) (names_in_part names) games (with_notes (R.told report.old) (front_notes search index)) (R.told report.new) (N.seen new.new) mended)) }
    ensures why { IfErr result (λ error. IfTold (F.seen old.old) (λ index names games.
        WhyNotMended (way_of faulty index) (sought_index search index games) (names_in_part names) games error)) }
    // Whatever happens, the old files are as they were.
    ensures untouched { F.seen old.new ≡ measured (F.seen old.new).known (F.seen old.old) }
    // All three new files are made at once, or none.
    ensures made { OnOk result (IsMade (N.seen new.old) (N.seen new.new)) }
    ensures left { OnErr result (FreshAlone (N.seen new.old) (N.seen new.new)) }
    ensures began { OnErr result (IfTold (F.seen old.old) (λ index names games.
        Began (told_of search faulty index (names_in_part names) games) (R.told report.old) (R.told report.new))) }
    // Each record is asked for once at most, and if records are sought the games file once more.
    ensures asks { search ≡ sought.Entries → IfSome (F.seen old.old).index (λ index. F.asked old.new ≤ F.asked old.old + mend_cost index) }
    ensures asks_in_all { IfTold (F.seen old.old) (λ index names games.
        F.asked old.new ≤ F.asked old.old + (search_cost search games + mend_cost (sought_index search index games))) }
    ensures none_asked { N.asked new.new ≡ N.asked new.old }
    ensures old_counts { F.faults old.old ≤ F.faults old.new }
    ensures new_counts { N.faults new.old ≤ N.faults new.new }
    ensures report_counts { R.faults report.old ≤ R.faults report.new }
    ensures cause { IfErr result (HasRisen (record { old = F.faults old.old; new = N.faults new.old; report = R.faults report.old })
        (record { old = F.faults old.new; new = N.faults new.new; report = R.faults report.new })) }
{
    let loaded = match load(alloc, old) {
        Ok(loaded) => loaded,
        Err(error) => return Err(error),
    };
    let way = Way::of(faulty, loaded.index.as_slice());
    match search {
        Sought::Entries => mend_loaded(alloc, way, &loaded, old, new, report, buf),
        Sought::Records => mend_records(alloc, way, loaded, old, new, report, buf),
    }
}

// Mends the base of which this is loaded, with the records of its games file that have no entry.
fn mend_records<F: Files, N: Files, R: Report>(
    alloc: Global,
    way: Way,
    loaded: Loaded,
    old: &mut F,
    new: &mut N,
    report: &mut R,
    buf: &mut [u8],
) -> Result<Mended, MendError>
    requires room { 131072 ≤ length buf.old }
    requires known { loaded.end ≡ (F.seen old.old).known }
    requires told { TellsLength (F.seen old.old).games loaded.end }
    ensures mended { IfOk result (λ mended. IfSome (F.seen old.old).games (λ games.
        Mends way (lengthened loaded.index.items games) (names_in_part loaded.names.items) games (with_notes (R.told report.old) (front_notes sought.Records loaded.index.items)) (R.told report.new) (N.seen new.new) mended)) }
    ensures why { IfErr result (λ error. IfSome (F.seen old.old).games (λ games.
        WhyNotMended way (lengthened loaded.index.items games) (names_in_part loaded.names.items) games error)) }
    ensures made { OnOk result (IsMade (N.seen new.old) (N.seen new.new)) }
    ensures left { OnErr result (FreshAlone (N.seen new.old) (N.seen new.new)) }
    ensures began { OnErr result (IfSome (F.seen old.old).games (λ games.
        Began (front_notes sought.Records loaded.index.items ++ all_notes way (lengthened loaded.index.items games) (names_in_part loaded.names.items) games) (R.told report.old) (R.told report.new))) }
    ensures unchanged { F.seen old.new ≡ F.seen old.old }
    ensures asks { IfSome (F.seen old.old).games (λ games. F.asked old.new ≤ F.asked old.old + (length games + mend_cost (lengthened loaded.index.items games))) }
    ensures none_asked { N.asked new.new ≡ N.asked new.old }
    ensures old_counts { F.faults old.old ≤ F.faults old.new }
    ensures new_counts { N.faults new.old ≤ N.faults new.new }
    ensures report_counts { R.faults report.old ≤ R.faults report.new }
    ensures cause { IfErr result (HasRisen (record { old = F.faults old.old; new = N.faults new.old; report = R.faults report.old })
        (record { old = F.faults old.new; new = N.faults new.new; report = R.faults report.new })) }
{
    if let Err(error) = tell_front(report, loaded.index.as_slice()) {
        return Err(error);
    }
    let index = match lengthened(alloc, &loaded, old, buf) {
        Ok(index) => index,
        Err(error) => return Err(error),
    };
    let longer = Loaded {
        index,
        names: loaded.names,
        end: loaded.end,
    };
    mend_loaded(alloc, way, &longer, old, new, report, buf)
}

// Mends the base of which this is loaded.
fn mend_loaded<F: Files, N: Files, R: Report>(
    alloc: Global,
    way: Way,
    loaded: &Loaded,
    old: &mut F,
    new: &mut N,
    report: &mut R,
    buf: &mut [u8],
) -> Result<Mended, MendError>
    requires room { 131072 ≤ length buf.old }
    requires known { loaded.now.end ≡ (F.seen old.old).known }
    requires told { TellsLength (F.seen old.old).games loaded.now.end }
    ensures mended { IfOk result (λ mended. IfSome (F.seen old.old).games (λ games.
        Mends way loaded.now.index.items (names_in_part loaded.now.names.items) games (R.told report.old) (R.told report.new) (N.seen new.new) mended)) }
    ensures why { IfErr result (λ error. IfSome (F.seen old.old).games (λ games.
        WhyNotMended way loaded.now.index.items (names_in_part loaded.now.names.items) games error)) }
    ensures made { OnOk result (IsMade (N.seen new.old) (N.seen new.new)) }
    ensures left { OnErr result (FreshAlone (N.seen new.old) (N.seen new.new)) }
    ensures began { OnErr result (IfSome (F.seen old.old).games (λ games.
        Began (all_notes way loaded.now.index.items (names_in_part loaded.now.names.items) games) (R.told report.old) (R.told report.new))) }
    ensures unchanged { F.seen old.new ≡ F.seen old.old }
    ensures asks { F.asked old.new ≤ F.asked old.old + mend_cost loaded.now.index.items }
    ensures none_asked { N.asked new.new ≡ N.asked new.old }
    ensures old_counts { F.faults old.old ≤ F.faults old.new }
    ensures new_counts { N.faults new.old ≤ N.faults new.new }
    ensures report_counts { R.faults report.old ≤ R.faults report.new }
    ensures cause { IfErr result (HasRisen (record { old = F.faults old.old; new = N.faults new.old; report = R.faults report.old })
        (record { old = F.faults old.new; new = N.faults new.new; report = R.faults report.new })) }
{
    let header = match find_header(loaded.index.as_slice()) {
        Ok(header) => header,
        Err(fault) => return Err(MendError::Bad(fault)),
    };
    let names = read_part_names(alloc, loaded.names.as_slice())?;
    let source = Source {
        index: loaded.index.as_slice(),
        names: &names,
        end: loaded.end,
        way,
    };
    mend_source(alloc, &source, &header, old, new, report, buf)
}

// Mends the base of this index with this header, and tells what is told of it.
fn mend_source<F: Files, N: Files, R: Report>(
    alloc: Global,
    source: &Source<'_>,
    header: &IndexHead,
    old: &mut F,
    new: &mut N,
    report: &mut R,
    buf: &mut [u8],
) -> Result<Mended, MendError>
    requires read { head_found source.now.index.now ≡ Ok header.now }
    requires long { 182 ≤ length source.now.index.now }
    requires header { IsIndexHead header.now }
    requires room { 131072 ≤ length buf.old }
    requires known { source.now.end ≤ (F.seen old.old).known }
    requires told { TellsLength (F.seen old.old).games source.now.end }
    ensures mended { IfOk result (λ mended. IfSome (F.seen old.old).games (λ games.
        Mends source.now.way source.now.index.now source.now.names.now games (R.told report.old) (R.told report.new) (N.seen new.new) mended)) }
    ensures why { IfErr result (λ error. IfSome (F.seen old.old).games (λ games. WhyNotMended source.now.way source.now.index.now source.now.names.now games error)) }
    ensures made { OnOk result (IsMade (N.seen new.old) (N.seen new.new)) }
    ensures left { OnErr result (FreshAlone (N.seen new.old) (N.seen new.new)) }
    ensures began { OnErr result (IfSome (F.seen old.old).games (λ games.
        Began (all_notes source.now.way source.now.index.now source.now.names.now games) (R.told report.old) (R.told report.new))) }
    ensures unchanged { F.seen old.new ≡ F.seen old.old }
    ensures asks { F.asked old.new ≤ F.asked old.old + mend_cost source.now.index.now }
    ensures none_asked { N.asked new.new ≡ N.asked new.old }
    ensures old_counts { F.faults old.old ≤ F.faults old.new }
    ensures new_counts { N.faults new.old ≤ N.faults new.new }
    ensures report_counts { R.faults report.old ≤ R.faults report.new }
    ensures cause { IfErr result (HasRisen (record { old = F.faults old.old; new = N.faults new.old; report = R.faults report.old })
        (record { old = F.faults old.new; new = N.faults new.new; report = R.faults report.new })) }
{
    if let Err(error) = tell_header(report, source.way, source.index, header) {
        return Err(error);
    }
    let (draft, changed) = match mend_games(alloc, source, header, old, new, report, buf) {
        Ok(mended) => mended,
        Err(error) => return Err(error),
    };
    if let Err(error) = tell_rest(report, source.way, source.index, header) {
        return Err(error);
    }
    let came = draft.len();
    if let Err(error) = put(alloc, &draft, new) {
        return Err(error);
    }
    Ok(Mended {
        came,
        changed,
        of: header.games.max(entries_found(source.index)),
    })
}

// The draft of all games that are whole, whose records are added to the new games file, and how many of them are changed.
fn mend_games<F: Files, N: Files, R: Report>(
    alloc: Global,
    source: &Source<'_>,
    header: &IndexHead,
    old: &mut F,
    new: &mut N,
    report: &mut R,
    buf: &mut [u8],
) -> Result<(Draft, u32), MendError>
    requires long { 182 ≤ length source.now.index.now }
    requires header { IsIndexHead header.now }
    requires room { 131072 ≤ length buf.old }
    requires known { source.now.end ≤ (F.seen old.old).known }
    requires told { TellsLength (F.seen old.old).games source.now.end }
    ensures mended { IfOk result (λ mended. IfSome (F.seen old.old).games (λ games.
        HasMended (entries_found source.now.index.now) header.now source.now.way source.now.index.now source.now.names.now games (R.told report.old) (R.told report.new) mended.1 mended.0 (N.seen new.new).fresh)) }
    ensures began { OnErr result (IfSome (F.seen old.old).games (λ games.
        Began (notes_from 0 (places_of source.now.way source.now.index.now source.now.names.now games (entries_found source.now.index.now))) (R.told report.old) (R.told report.new))) }
    ensures why { IfErr result (WhyStopped (λ what. IfSome (F.seen old.old).games (λ games. IsTooMuch source.now.way source.now.index.now source.now.names.now games what))) }
    ensures alone { FreshAlone (N.seen new.old) (N.seen new.new) }
    ensures unchanged { F.seen old.new ≡ F.seen old.old }
    ensures asks { F.asked old.new ≤ F.asked old.old + mend_cost source.now.index.now }
    ensures none_asked { N.asked new.new ≡ N.asked new.old }
    ensures old_counts { F.faults old.old ≤ F.faults old.new }
    ensures new_counts { N.faults new.old ≤ N.faults new.new }
    ensures report_counts { R.faults report.old ≤ R.faults report.new }
    ensures cause { IfErr result (HasRisen (record { old = F.faults old.old; new = N.faults new.old; report = R.faults report.old })
        (record { old = F.faults old.new; new = N.faults new.new; report = R.faults report.new })) }
{
    if let Err(error) = begin(new) {
        return Err(error);
    }
    let mut draft = Draft::begin(alloc, header);
    let mut changed = 0;
    for game in 0..entries_found(source.index) {
        match mend_game(alloc, source, game, old, &mut draft, new, report, buf) {
            Ok(more) => changed += more,
            Err(error) => return Err(error),
        }
    }
    Ok((draft, changed))
}

// Makes the new games file and the names and the index of the draft the files of the new base.
fn put<N: Files>(alloc: Global, draft: &Draft, new: &mut N) -> Result<(), MendError>
    ensures made { OnOk result (IsMade (N.seen new.old) (N.seen new.new)) }
    ensures means { OnOk result (PutsIt draft.now (N.seen new.old) (N.seen new.new)) }
    ensures left { OnErr result (FreshAlone (N.seen new.old) (N.seen new.new)) }
    ensures none_asked { N.asked new.new ≡ N.asked new.old }
    ensures counts { N.faults new.old ≤ N.faults new.new }
    ensures cause { IfErr result (IsNew (N.faults new.old) (N.faults new.new)) }
{
    let (names, index) = draft.write(alloc)?;
    commit(new, names.as_slice(), index.as_slice())
}
