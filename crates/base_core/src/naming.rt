//! The names of heads among those of a base.
ghost use Rattle.std.specs.Prelude.{◌≡◌, ◌≤◌, ◌<◌, Some, length, slice_get, IfOk, IfErr, OnOk, OnErr};
ghost use Rattle.game_tree.specs.Head.{IsBounded, IsName};
ghost use Rattle.name_base.specs.NameLists.{AreSound, IsName as IsBaseName, limit_of, of_kind, with_kind, with_name};
ghost use Rattle.base_core.specs.Edits.{names_with};
ghost use Rattle.base_core.specs.Edited.{full_names};
ghost use Rattle.base_core.specs.Means.{HoldsNames};
ghost use Rattle.base_core.specs.Placing.{AreIds, AreCountsOf, AreWithin, IfFull, cut_to, names_of};

use crate::fault::{EditError, What};
use cell_core::Text;
use game_tree::Head;
use name_base::{AddError, NameKind, Names};
use std::alloc::Global;

/// The ids of the names of a head.
#[derive(Clone, Copy, Drop)]
pub(crate) struct NameIds {
    pub(crate) white: u32,
    pub(crate) black: u32,
    pub(crate) event: u32,
    pub(crate) site: u32,
    pub(crate) round: u32,
}

/// How many names there are of each kind.
#[derive(Clone, Copy, Drop)]
pub(crate) struct NameCounts {
    players: u32,
    events: u32,
    sites: u32,
    rounds: u32,
}

/// How many names there are.
pub(crate) fn counts_of(names: &Names) -> NameCounts
    ensures counts { AreCountsOf names.now result }
    ensures sound { AreSound names.now }
{
    NameCounts {
        players: names.count(NameKind::Player),
        events: names.count(NameKind::Event),
        sites: names.count(NameKind::Site),
        rounds: names.count(NameKind::Round),
    }
}

/// Takes away the names that came after there were so many.
pub(crate) fn cut_names(names: &mut Names, counts: &NameCounts)
    requires within { AreWithin counts.now names.old }
    ensures cut { names.new ≡ cut_to counts.now names.old }
{
    names.cut(NameKind::Player, counts.players);
    names.cut(NameKind::Event, counts.events);
    names.cut(NameKind::Site, counts.sites);
    names.cut(NameKind::Round, counts.rounds);
}

/// Adds the names of a head. After an error the names are as they were.
pub(crate) fn add_names(alloc: Global, names: &mut Names, head: &Head) -> Result<NameIds, EditError>
    requires bounded { IsBounded head.now }
    ensures names { OnOk result (names.new ≡ names_with head.now names.old) }
    ensures ids { IfOk result (AreIds names.new head.now) }
    ensures sound { AreSound names.new }
    ensures holds { HoldsNames names.new names.old }
    ensures unchanged { OnErr result (names.new ≡ names.old) }
    ensures why { IfErr result (IfFull (λ what. full_names (names_with head.now names.old) ≡ Some what)) }
{
    let counts = counts_of(names);
    let added = add_each(alloc, names, head);
    if added.is_err() {
        cut_names(names, &counts);
    }
    added
}

// Adds the names of a head, as far as they can be added.
fn add_each(alloc: Global, names: &mut Names, head: &Head) -> Result<NameIds, EditError>
    requires bounded { IsBounded head.now }
    requires sound { AreSound names.old }
    ensures names { OnOk result (names.new ≡ names_with head.now names.old) }
    ensures ids { IfOk result (AreIds names.new head.now) }
    ensures sound { AreSound names.new }
    ensures holds { HoldsNames names.new names.old }
    ensures why { IfErr result (IfFull (λ what. full_names (names_with head.now names.old) ≡ Some what)) }
{
    let white = add_name(alloc, names, NameKind::Player, &head.white)?;
    let black = add_name(alloc, names, NameKind::Player, &head.black)?;
    let event = add_name(alloc, names, NameKind::Event, &head.event)?;
    let site = add_name(alloc, names, NameKind::Site, &head.site)?;
    let round = add_name(alloc, names, NameKind::Round, &head.round)?;
    Ok(NameIds {
        white,
        black,
        event,
        site,
        round,
    })
}

// Adds a name, and gives its id.
fn add_name(alloc: Global, names: &mut Names, kind: NameKind, name: &Text) -> Result<u32, EditError>
    requires name { IsName name.now }
    requires sound { AreSound names.old }
    ensures names { OnOk result (names.new ≡ with_kind kind names.old (with_name (of_kind kind names.old) name.now)) }
    ensures id { IfOk result (λ id. slice_get (of_kind kind names.new) id ≡ Some name.now) }
    ensures sound { AreSound names.new }
    ensures holds { HoldsNames names.new names.old }
    ensures unchanged { OnErr result (names.new ≡ names.old) }
    ensures why { IfErr result (IfFull (λ what. (what ≡ names_of kind) × (limit_of kind < length (with_name (of_kind kind names.old) name.now)))) }
{
    add_bytes(alloc, names, kind, name.as_bytes())
}

/// Adds a name, and gives its id.
pub(crate) fn add_bytes(
    alloc: Global,
    names: &mut Names,
    kind: NameKind,
    name: &[u8],
) -> Result<u32, EditError>
    requires name { IsBaseName name.now }
    requires sound { AreSound names.old }
    ensures names { OnOk result (names.new ≡ with_kind kind names.old (with_name (of_kind kind names.old) name.now)) }
    ensures id { IfOk result (λ id. slice_get (of_kind kind names.new) id ≡ Some name.now) }
    ensures sound { AreSound names.new }
    ensures holds { HoldsNames names.new names.old }
    ensures unchanged { OnErr result (names.new ≡ names.old) }
    ensures why { IfErr result (IfFull (λ what. (what ≡ names_of kind) × (limit_of kind < length (with_name (of_kind kind names.old) name.now)))) }
{
    let added = names.add(alloc, kind, name);
    // Counting makes the bounds of the names known.
    let _count = names.count(kind);
    match added {
        Ok(id) => Ok(id),
        Err(AddError::Full) => Err(EditError::Full(names_of(kind))),
        Err(AddError::Memory) => Err(EditError::Memory),
    }
}

// The names of a kind, as what may be full.
fn names_of(kind: NameKind) -> What
    ensures what { result ≡ names_of kind }
{
    match kind {
        NameKind::Player => What::Players,
        NameKind::Event => What::Events,
        NameKind::Site => What::Sites,
        NameKind::Round => What::Rounds,
    }
}
