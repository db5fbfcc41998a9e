//! The checks of an entry: its fields, its ids, the place of its record, and its derived fields beside a signature.
ghost use Rattle.std.specs.Prelude.{◌≡◌, IfOk};
ghost use Rattle.index_entry.specs.Entry.{IsEntry};
ghost use Rattle.base_core.specs.FirstFault.{derived_fault, entry_checked, id_fault, place_fault};
ghost use Rattle.base_core.specs.Reading.{kept_entry};

use crate::fault::{BaseFault, DerivedField, IdField, PlaceWhat};
use block_store::BLOCK_LEN;
use game_tree::Date;
use index_entry::{ENTRY_LEN, Entry, unpack};
use name_base::{NameKind, Names};
use sig_index::Sig;

/// What the entries of a base that is opened are held against: its names, the end of its games file, and whether derived fields are to
/// be those of the records.
#[derive(Clone, Copy)]
pub(crate) struct Opening<'a> {
    pub(crate) names: &'a Names,
    pub(crate) end: u64,
    pub(crate) strict: bool,
}

/// What the 47 bytes of a game's entry say, or their first fault before its record is read.
#[tactic(auto, unfolding(crate::specs::FirstFault::entry_checked))]
pub(crate) fn checked_entry(
    o: &Opening<'_>,
    game: u32,
    packed: &[u8; ENTRY_LEN],
) -> Result<Entry, BaseFault>
    ensures exact { result ≡ entry_checked o.now.names.now o.now.end game packed.now }
    ensures fields { IfOk result IsEntry }
{
    let entry = match unpack(packed) {
        Ok(entry) => entry,
        Err(what) => return Err(BaseFault::EntryField { game, what }),
    };
    if let Some(field) = missing_name(o.names, &entry) {
        return Err(BaseFault::Id { game, field });
    }
    if let Some(what) = misplaced(&entry, o.end) {
        return Err(BaseFault::Place { game, what });
    }
    Ok(entry)
}

// The first id of the entry that no name has.
#[tactic(auto, unfolding(crate::specs::FirstFault::id_fault))]
fn missing_name(names: &Names, e: &Entry) -> Option<IdField>
    ensures first { result ≡ id_fault names.now e.now }
{
    let players = names.count(NameKind::Player);
    if players <= e.white {
        return Some(IdField::White);
    }
    if players <= e.black {
        return Some(IdField::Black);
    }
    if names.count(NameKind::Event) <= e.event {
        return Some(IdField::Event);
    }
    if names.count(NameKind::Site) <= e.site {
        return Some(IdField::Site);
    }
    if names.count(NameKind::Round) <= e.round {
        return Some(IdField::Round);
    }
    None
}

/// What is wrong with the place of the entry's record in a games file that ends there.
#[tactic(auto, unfolding(crate::specs::FirstFault::place_fault))]
pub fn misplaced(e: &Entry, end: u64) -> Option<PlaceWhat>
    ensures first { result ≡ place_fault end e.now }
{
    let offset = u64::from(e.offset);
    let len = u64::from(e.len);
    if BLOCK_LEN < offset % BLOCK_LEN + len {
        return Some(PlaceWhat::Crosses);
    }
    if end < offset + len {
        return Some(PlaceWhat::Past);
    }
    None
}

/// The first derived field of the entry that differs from the signature.
#[tactic(auto, unfolding(crate::specs::FirstFault::derived_fault))]
pub(crate) fn differing(e: &Entry, s: &Sig) -> Option<DerivedField>
    ensures first { result ≡ derived_fault e.now s.now }
{
    if e.own_start != s.own_start {
        return Some(DerivedField::OwnStart);
    }
    if e.promo != s.promo {
        return Some(DerivedField::Promotion);
    }
    if e.under != s.under {
        return Some(DerivedField::Underpromotion);
    }
    if e.vars != s.vars {
        return Some(DerivedField::Variations);
    }
    if e.comments != s.comments {
        return Some(DerivedField::Comments);
    }
    if e.nags != s.nags {
        return Some(DerivedField::Nags);
    }
    if e.material != s.material {
        return Some(DerivedField::Material);
    }
    if e.plies != s.plies {
        return Some(DerivedField::Plies);
    }
    if e.home_count != s.home.count {
        return Some(DerivedField::Home);
    }
    if e.home != s.home.values {
        return Some(DerivedField::Home);
    }
    None
}

/// The entry with the derived fields of a signature and this event date.
#[tactic(auto, unfolding(crate::specs::Reading::kept_entry))]
pub(crate) fn kept_entry(e: &Entry, s: &Sig, event_date: Date) -> Entry
    ensures kept { result ≡ kept_entry e.now s.now event_date }
{
    Entry {
        own_start: s.own_start,
        promo: s.promo,
        under: s.under,
        vars: s.vars,
        comments: s.comments,
        nags: s.nags,
        event_date,
        material: s.material,
        plies: s.plies,
        home_count: s.home.count,
        home: s.home.values,
        ..*e
    }
}
