//! What a change of the games of a base makes of the filters over them.
ghost use Rattle.std.specs.Prelude.{◌≡◌, ◌≤◌, ◌-◌, ◌++◌, ◌↔◌, ℕ, None, All, IfErr, IsTrue, OnOk, length, map, replicate};
ghost use Rattle.filter_seat.specs.Following.{CanFollow, Moving, Rising, filter_after, games_after, told_by};
ghost use Rattle.filter_seat.specs.SavedFilters.{kept_with};
ghost use Rattle.filter_seat.specs.Seats.{FitsGames};

use crate::saved::{SavedFilter, put_at_start, renumber_all};
use game_filter::{Filter, Renumbering};
use std::alloc::{AllocError, Global};

/// What moved in a base, as the filters over its games see it.
#[derive(Clone, Copy, Debug)]
pub enum Moved<'a> {
    /// Nothing.
    Nothing,
    /// Games came behind the others: there are so many now.
    Added(u32),
    /// A game was replaced, and starts anew.
    Started(u64),
    /// The games that stay have new numbers.
    Renumbered(&'a Renumbering),
}

impl Moved<'_> {
    /// Whether filters over `before` games can follow it, and there are `after` games then.
    pub fn leads(&self, before: u32, after: u32) -> bool
        ensures leads { IsTrue result ↔ (CanFollow (told_by self.now) before × (after ≡ games_after (told_by self.now) before)) }
        ensures rises { Rising (told_by self.now) }
    {
        match self {
            Moved::Nothing => after == before,
            Moved::Added(games) => before <= *games && after == *games,
            Moved::Started(game) => *game < u64::from(before) && after == before,
            Moved::Renumbered(numbering) => {
                numbering.to().len() == before as usize && after == numbering.kept()
            }
        }
    }
}

/// Brings what moved to a filter and to filters that are kept. Games that came have this entry in the filter, and are out of those that are kept.
pub fn follow(
    alloc: Global,
    filter: &mut Filter,
    saved: &mut [SavedFilter],
    moved: &Moved<'_>,
    entry: Option<u32>,
) -> Result<(), AllocError>
    requires follows { CanFollow (told_by moved.now) (length filter.old) }
    requires same_games { All (λ kept. length kept.plies ≡ length filter.old) saved.old }
    ensures filter { OnOk result (filter.new ≡ filter_after entry (told_by moved.now) filter.old) }
    ensures saved { OnOk result (saved.new ≡ map (kept_with (filter_after None (told_by moved.now))) saved.old) }
    ensures fits { OnOk result (FitsGames (record { filter = filter.new; saved = saved.new }) (games_after (told_by moved.now) (length filter.old))) }
    // Only games that came need memory, and the filter then has no more than there are.
    ensures part { IfErr result (λ _. (games : ℕ) × ((told_by moved.now ≡ Moving.added games) × (length filter.new ≤ games))) }
{
    match moved {
        Moved::Nothing => Ok(()),
        Moved::Added(games) => add_games(alloc, filter, saved, *games, entry),
        Moved::Started(game) => {
            // There are fewer games than 2^32.
            let _games = filter.len();
            put_at_start(filter, saved, *game as u32);
            Ok(())
        }
        Moved::Renumbered(numbering) => {
            renumber_all(filter, saved, numbering);
            Ok(())
        }
    }
}

// Adds games to all of them until each has so many.
fn add_games(
    alloc: Global,
    filter: &mut Filter,
    saved: &mut [SavedFilter],
    games: u32,
    entry: Option<u32>,
) -> Result<(), AllocError>
    requires few { length filter.old ≤ games }
    requires few_kept { All (λ kept. length kept.plies ≤ games) saved.old }
    ensures filter { OnOk result (filter.new ≡ filter.old ++ replicate (games - length filter.old) entry) }
    ensures saved { OnOk result (saved.new ≡ map (kept_with (λ plies. plies ++ replicate (games - length plies) None)) saved.old) }
    ensures few { length filter.new ≤ games }
{
    add_to(alloc, filter, games, entry)?;
    for kept in saved.iter_mut() {
        add_to_kept(alloc, kept, games)?;
    }
    Ok(())
}

// Adds them to one that is kept, and out of it.
fn add_to_kept(alloc: Global, kept: &mut SavedFilter, games: u32) -> Result<(), AllocError>
    requires few { length kept.old.plies ≤ games }
    ensures added { OnOk result (kept.new ≡ kept_with (λ plies. plies ++ replicate (games - length plies) None) kept.old) }
{
    add_to(alloc, &mut kept.plies, games, None)
}

// Adds them to one, with this entry.
fn add_to(
    alloc: Global,
    filter: &mut Filter,
    games: u32,
    entry: Option<u32>,
) -> Result<(), AllocError>
    requires few { length filter.old ≤ games }
    ensures added { OnOk result (filter.new ≡ filter.old ++ replicate (games - length filter.old) entry) }
    ensures few { length filter.new ≤ games }
{
    while filter.len() < games {
        filter.push(alloc, entry)?;
    }
    Ok(())
}
