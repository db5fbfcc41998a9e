//! Filters that are kept by name.
ghost use Rattle.std.specs.Prelude.{◌≡◌, ◌<◌, ℕ, All, length, map, IfSome, IfOk, OnOk, OnErr, option_copied};
ghost use Rattle.game_filter.specs.Filter.{intersection, union};
ghost use Rattle.game_filter.specs.Renumbering.{Rises, renumbered};
ghost use Rattle.filter_seat.specs.SavedFilters.{kept_renumbered, kept_to_start, to_start, without_last, place_of, is_kept, kept_in, can_keep, dropped_in, joined_with, saved_named};

use cell_core::Text;
use game_filter::{Filter, Renumbering};
use std::alloc::{AllocError, Global};

/// How many filters are kept at most.
const MOST_SAVED: usize = 8;

/// A filter that is kept under a name.
#[derive(Debug, Drop)]
pub struct SavedFilter {
    pub name: Text,
    pub plies: Filter,
}

// The place of the filter of a name.
pub(crate) fn place_of(saved: &[SavedFilter], name: &[u8]) -> Option<usize>
    ensures place { result ≡ place_of saved.now name.now }
    ensures within { IfSome result (λ place. place < length saved.now) }
{
    saved.iter().position(|kept| kept.name.as_bytes() == name)
}

/// The filter of a name.
pub fn named<'a>(saved: &'a [SavedFilter], name: &[u8]) -> Option<&'a Filter>
    ensures named { option_copied result ≡ saved_named saved.now name.now }
{
    let place = place_of(saved, name)?;
    Some(&saved[place].plies)
}

/// Keeps a copy of the filter under a name, in the place of one of that name or as one more. It answers `false` if
/// there is no room.
pub fn keep(
    alloc: Global,
    saved: &mut Vec<SavedFilter>,
    name: &Text,
    filter: &Filter,
) -> Result<bool, AllocError>
    ensures kept { IfOk result (λ kept. kept ≡ can_keep saved.old.items name.now) }
    ensures saved { OnOk result (saved.new.items ≡ kept_in saved.old.items name.now filter.now) }
    ensures unchanged { OnErr result (saved.new.items ≡ saved.old.items) }
    ensures same_games { OnOk result (All (λ kept. length kept.plies ≡ length filter.now) saved.old.items → All (λ kept. length kept.plies ≡ length filter.now) saved.new.items) }
{
    let place = place_of(saved.as_slice(), name.as_bytes());
    if place.is_none() && saved.len() >= MOST_SAVED {
        return Ok(false);
    }
    let new = SavedFilter {
        name: name.copied(alloc)?,
        plies: filter.copy(alloc)?,
    };
    match place {
        Some(place) => saved[place] = new,
        None => saved.push(new)?,
    }
    Ok(true)
}

/// Leaves a game that was added out of every filter that is kept.
pub fn leave_out(alloc: Global, saved: &mut [SavedFilter]) -> Result<(), AllocError>
    requires room { All (λ kept. length kept.plies < u32.MAX) saved.old }
    ensures left_out { OnOk result (saved.new ≡ map without_last saved.old) }
{
    for kept in saved.iter_mut() {
        leave_one_out(alloc, kept)?;
    }
    Ok(())
}

// Leaves it out of one of them.
fn leave_one_out(alloc: Global, kept: &mut SavedFilter) -> Result<(), AllocError>
    requires room { length kept.old.plies < u32.MAX }
    ensures left_out { OnOk result (kept.new ≡ without_last kept.old) }
{
    kept.plies.push(alloc, None)?;
    Ok(())
}

/// Puts a game that was replaced at its start in each filter that has it.
pub fn put_at_start(filter: &mut Filter, saved: &mut [SavedFilter], i: u32)
    requires there { i < length filter.old }
    requires same_games { All (λ kept. length kept.plies ≡ length filter.old) saved.old }
    ensures filter { filter.new ≡ to_start i filter.old }
    ensures saved { saved.new ≡ map (kept_to_start i) saved.old }
{
    to_start(filter, i);
    for kept in saved.iter_mut() {
        put_one_at_start(kept, i);
    }
}

// Puts it at its start in one of them.
fn put_one_at_start(kept: &mut SavedFilter, i: u32)
    requires there { i < length kept.old.plies }
    ensures put { kept.new ≡ kept_to_start i kept.old }
{
    to_start(&mut kept.plies, i);
}

// Puts a game at its start if the filter has it.
fn to_start(filter: &mut Filter, i: u32)
    requires there { i < length filter.old }
    ensures put { filter.new ≡ to_start i filter.old }
{
    let ply = filter.get(i);
    if ply.is_some() {
        filter.set(i, Some(0));
    }
}

/// Moves the entries of a filter, and of each filter that is kept, with their games.
pub fn renumber_all(filter: &mut Filter, saved: &mut [SavedFilter], renumbering: &Renumbering)
    requires same_games { length renumbering.now.to ≡ length filter.old }
    requires saved_games { All (λ kept. length kept.plies ≡ length filter.old) saved.old }
    ensures filter { filter.new ≡ renumbered renumbering.now.to filter.old }
    ensures saved { saved.new ≡ map (kept_renumbered renumbering.now.to) saved.old }
    ensures long { length filter.new ≡ renumbering.now.kept }
    ensures rises { Rises 0 renumbering.now.to renumbering.now.kept }
{
    // Reading the numbers makes their order known.
    let _to = renumbering.to();
    filter.renumber(renumbering);
    for kept in saved.iter_mut() {
        renumber_one(kept, renumbering);
    }
}

// Moves the entries of one of them.
fn renumber_one(kept: &mut SavedFilter, renumbering: &Renumbering)
    requires same_games { length renumbering.now.to ≡ length kept.old.plies }
    ensures moved { kept.new ≡ kept_renumbered renumbering.now.to kept.old }
    ensures long { length kept.new.plies ≡ renumbering.now.kept }
{
    kept.plies.renumber(renumbering);
}

/// Forgets the filter of a name. It answers `false` if there is none.
#[tactic(auto, unfolding(crate::specs::SavedFilters::dropped_in))]
pub fn forget(saved: &mut Vec<SavedFilter>, name: &[u8]) -> bool
    ensures forgotten { result ≡ is_kept saved.old.items name.now }
    ensures saved { saved.new.items ≡ dropped_in saved.old.items name.now }
    ensures same_games { (games : ℕ) → All (λ kept. length kept.plies ≡ games) saved.old.items → All (λ kept. length kept.plies ≡ games) saved.new.items }
{
    match place_of(saved.as_slice(), name) {
        Some(place) => {
            saved.remove(place);
            true
        }
        None => false,
    }
}

/// Puts the filter of a name in the place of this one. It answers `false` if there is none.
#[tactic(auto, using(crate::proofs::SavedLaws::length_joined))]
pub fn take_from(filter: &mut Filter, saved: &[SavedFilter], name: &[u8]) -> bool
    requires same_games { All (λ kept. length kept.plies ≡ length filter.old) saved.now }
    ensures joined { filter.new ≡ joined_with (λ own other. other) filter.old (saved_named saved.now name.now) }
    ensures games { length filter.new ≡ length filter.old }
    ensures kept { result ≡ is_kept saved.now name.now }
{
    let Some(place) = place_of(saved, name) else {
        return false;
    };
    filter.take_over(&saved[place].plies);
    true
}

/// Keeps the games that are in this filter and in the one of a name. It answers `false` if there is none.
#[tactic(auto, using(crate::proofs::SavedLaws::length_joined))]
pub fn meet(filter: &mut Filter, saved: &[SavedFilter], name: &[u8]) -> bool
    requires same_games { All (λ kept. length kept.plies ≡ length filter.old) saved.now }
    ensures joined { filter.new ≡ joined_with intersection filter.old (saved_named saved.now name.now) }
    ensures games { length filter.new ≡ length filter.old }
    ensures kept { result ≡ is_kept saved.now name.now }
{
    let Some(place) = place_of(saved, name) else {
        return false;
    };
    filter.and(&saved[place].plies);
    true
}

/// Adds the games of the filter of a name. It answers `false` if there is none.
#[tactic(auto, using(crate::proofs::SavedLaws::length_joined))]
pub fn unite(filter: &mut Filter, saved: &[SavedFilter], name: &[u8]) -> bool
    requires same_games { All (λ kept. length kept.plies ≡ length filter.old) saved.now }
    ensures joined { filter.new ≡ joined_with union filter.old (saved_named saved.now name.now) }
    ensures games { length filter.new ≡ length filter.old }
    ensures kept { result ≡ is_kept saved.now name.now }
{
    let Some(place) = place_of(saved, name) else {
        return false;
    };
    filter.or(&saved[place].plies);
    true
}
