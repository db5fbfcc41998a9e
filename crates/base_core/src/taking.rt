//! The names of games that come from elsewhere among those of a base.
ghost use Rattle.std.specs.Prelude.{◌≡◌, ◌<◌, [], Some, length, slice_get, IfOk, IfErr, OnOk, OnErr};
ghost use Rattle.index_entry.specs.Entry.{IsEntry};
ghost use Rattle.name_base.specs.NameLists.{AreSound, limit_of, of_kind, with_kind, with_name};
ghost use Rattle.name_base.specs.PartNames.{filled_names};
ghost use Rattle.base_core.specs.Drafts.{AreNamesOf};
ghost use Rattle.base_core.specs.Edited.{full_names};
ghost use Rattle.base_core.specs.Edits.{names_with};
ghost use Rattle.base_core.specs.Entries.{HasNames, head_of, name_at};
ghost use Rattle.base_core.specs.Means.{HoldsNames};
ghost use Rattle.base_core.specs.Placing.{AreIds, IfFull, names_of};

use crate::fault::EditError;
use crate::game::name_of;
use crate::naming::{NameIds, add_bytes, counts_of, cut_names};
use index_entry::Entry;
use name_base::{AddError, NameKind, Names, PartNames};
use std::alloc::{AllocError, Global};

/// Adds the names of an entry of another base, whose names those that are there are too. After an error the names are as they were.
pub(crate) fn take_names(
    alloc: Global,
    names: &mut Names,
    of: &Names,
    e: &Entry,
) -> Result<NameIds, AllocError>
    requires named { HasNames of.now e.now }
    requires among { AreNamesOf names.old of.now }
    ensures names { OnOk result (names.new ≡ names_with (head_of of.now e.now []) names.old) }
    ensures ids { IfOk result (AreIds names.new (head_of of.now e.now [])) }
    ensures sound { AreSound names.new }
    ensures holds { HoldsNames names.new names.old }
    ensures among { AreNamesOf names.new of.now }
    ensures unchanged { OnErr result (names.new ≡ names.old) }
{
    let counts = counts_of(names);
    let taken = take_each(alloc, names, of, e);
    if taken.is_err() {
        cut_names(names, &counts);
    }
    taken
}

// Adds the names of an entry of another base, as far as memory lasts.
#[tactic(auto, unfolding(crate::specs::Entries::head_of))]
fn take_each(alloc: Global, names: &mut Names, of: &Names, e: &Entry) -> Result<NameIds, AllocError>
    requires named { HasNames of.now e.now }
    requires sound { AreSound names.old }
    requires among { AreNamesOf names.old of.now }
    ensures names { OnOk result (names.new ≡ names_with (head_of of.now e.now []) names.old) }
    ensures ids { IfOk result (AreIds names.new (head_of of.now e.now [])) }
    ensures sound { AreSound names.new }
    ensures holds { HoldsNames names.new names.old }
    ensures among { AreNamesOf names.new of.now }
{
    let white = take_name(alloc, names, of, NameKind::Player, e.white)?;
    let black = take_name(alloc, names, of, NameKind::Player, e.black)?;
    let event = take_name(alloc, names, of, NameKind::Event, e.event)?;
    let site = take_name(alloc, names, of, NameKind::Site, e.site)?;
    let round = take_name(alloc, names, of, NameKind::Round, e.round)?;
    Ok(NameIds {
        white,
        black,
        event,
        site,
        round,
    })
}

// Adds the name that has an id in another base. There is room for it, since each name that is there is one of that base.
fn take_name(
    alloc: Global,
    names: &mut Names,
    of: &Names,
    kind: NameKind,
    id: u32,
) -> Result<u32, AllocError>
    requires below { id < length (of_kind kind of.now) }
    requires sound { AreSound names.old }
    requires among { AreNamesOf names.old of.now }
    ensures names { OnOk result (names.new ≡ with_kind kind names.old (with_name (of_kind kind names.old) (name_at (of_kind kind of.now) id))) }
    ensures id { IfOk result (λ own. slice_get (of_kind kind names.new) own ≡ Some (name_at (of_kind kind of.now) id)) }
    ensures sound { AreSound names.new }
    ensures holds { HoldsNames names.new names.old }
    ensures among { AreNamesOf names.new of.now }
    ensures unchanged { OnErr result (names.new ≡ names.old) }
{
    // Counting makes the bounds of the names known.
    let _count = of.count(kind);
    let added = names.add(alloc, kind, name_of(of, kind, id));
    let _own = names.count(kind);
    match added {
        Ok(own) => Ok(own),
        Err(AddError::Memory) => Err(AllocError),
        Err(AddError::Full) => unreachable!(),
    }
}

/// Adds the names of an entry, `?` for each that is not there. After an error the names are as they were.
pub(crate) fn take_part(
    alloc: Global,
    names: &mut Names,
    of: &PartNames,
    e: &Entry,
) -> Result<NameIds, EditError>
    requires fields { IsEntry e.now }
    ensures names { OnOk result (names.new ≡ names_with (head_of (filled_names of.now) e.now []) names.old) }
    ensures ids { IfOk result (AreIds names.new (head_of (filled_names of.now) e.now [])) }
    ensures sound { AreSound names.new }
    ensures holds { HoldsNames names.new names.old }
    ensures unchanged { OnErr result (names.new ≡ names.old) }
    ensures why { IfErr result (IfFull (λ what. full_names (names_with (head_of (filled_names of.now) e.now []) names.old) ≡ Some what)) }
{
    let counts = counts_of(names);
    let taken = take_each_part(alloc, names, of, e);
    if taken.is_err() {
        cut_names(names, &counts);
    }
    taken
}

// Adds the names of an entry, as far as they can be added.
#[tactic(auto, unfolding(crate::specs::Entries::head_of))]
fn take_each_part(
    alloc: Global,
    names: &mut Names,
    of: &PartNames,
    e: &Entry,
) -> Result<NameIds, EditError>
    requires fields { IsEntry e.now }
    requires sound { AreSound names.old }
    ensures names { OnOk result (names.new ≡ names_with (head_of (filled_names of.now) e.now []) names.old) }
    ensures ids { IfOk result (AreIds names.new (head_of (filled_names of.now) e.now [])) }
    ensures sound { AreSound names.new }
    ensures holds { HoldsNames names.new names.old }
    ensures why { IfErr result (IfFull (λ what. full_names (names_with (head_of (filled_names of.now) e.now []) names.old) ≡ Some what)) }
{
    let white = take_one(alloc, names, of, NameKind::Player, e.white)?;
    let black = take_one(alloc, names, of, NameKind::Player, e.black)?;
    let event = take_one(alloc, names, of, NameKind::Event, e.event)?;
    let site = take_one(alloc, names, of, NameKind::Site, e.site)?;
    let round = take_one(alloc, names, of, NameKind::Round, e.round)?;
    Ok(NameIds {
        white,
        black,
        event,
        site,
        round,
    })
}

// Adds the name with an id, or `?`.
fn take_one(
    alloc: Global,
    names: &mut Names,
    of: &PartNames,
    kind: NameKind,
    id: u32,
) -> Result<u32, EditError>
    requires below { id < limit_of kind }
    requires sound { AreSound names.old }
    ensures names { OnOk result (names.new ≡ with_kind kind names.old (with_name (of_kind kind names.old) (name_at (of_kind kind (filled_names of.now)) id))) }
    ensures id { IfOk result (λ own. slice_get (of_kind kind names.new) own ≡ Some (name_at (of_kind kind (filled_names of.now)) id)) }
    ensures sound { AreSound names.new }
    ensures holds { HoldsNames names.new names.old }
    ensures unchanged { OnErr result (names.new ≡ names.old) }
    ensures why { IfErr result (IfFull (λ what. (what ≡ names_of kind) × (limit_of kind < length (with_name (of_kind kind names.old) (name_at (of_kind kind (filled_names of.now)) id))))) }
{
    add_bytes(alloc, names, kind, of.name_of(kind, id))
}
