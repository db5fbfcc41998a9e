//! The passes over the entries of a filter. Each tells how many games are in afterwards.
ghost use Rattle.std.specs.Prelude.{◌≡◌, ◌^◌, ◌<◌, ℕ, Some, length, slice_get, take};
ghost use Rattle.std.specs.Option.{option_or};
ghost use Rattle.game_filter.specs.Filter.{intersection, union, count_in, entry_within, restricted};
ghost use Rattle.game_filter.specs.Renumbering.{Rises, renumbered};

use crate::entries::Entries;
use crate::renumbering::Renumbering;

fn either(own: Option<u32>, other: Option<u32>) -> Option<u32>
    ensures either { result ≡ option_or own other }
{
    if own.is_some() { own } else { other }
}

fn within(first: u32, last: u32, i: u32, ply: Option<u32>) -> Option<u32>
    ensures within { result ≡ entry_within first last i ply }
{
    if first <= i && i <= last { ply } else { None }
}

/// Keeps the games that are in both, at their own plies.
pub fn intersect(entries: &mut Entries, others: &Entries) -> u32
    requires same_games { length entries.old ≡ length others.now }
    requires few_games { length entries.old < 2 ^ 32 }
    ensures joined { entries.new ≡ intersection entries.old others.now }
    ensures len { length entries.new ≡ length entries.old }
    ensures count { result ≡ count_in entries.new }
{
    entries.intersect(others);
    count(entries)
}

/// Adds the games that are in `others` alone, at the plies that they have there.
pub fn unite(entries: &mut Entries, others: &Entries) -> u32
    requires same_games { length entries.old ≡ length others.now }
    requires few_games { length entries.old < 2 ^ 32 }
    ensures joined { entries.new ≡ union entries.old others.now }
    ensures len { length entries.new ≡ length entries.old }
    ensures count { result ≡ count_in entries.new }
{
    let mut count = 0;
    for i in 0..entries.len() {
        let ply = either(entries.get(i), others.get(i));
        entries.set(i, ply);
        count += u32::from(ply.is_some());
    }
    count
}

/// Puts out every game below `first` or above `last`.
pub fn restrict(entries: &mut Entries, first: u32, last: u32) -> u32
    requires few_games { length entries.old < 2 ^ 32 }
    ensures restricted { entries.new ≡ restricted first last entries.old }
    ensures len { length entries.new ≡ length entries.old }
    ensures count { result ≡ count_in entries.new }
{
    let mut count = 0;
    for i in 0..entries.len() {
        let ply = within(first, last, i, entries.get(i));
        entries.set(i, ply);
        count += u32::from(ply.is_some());
    }
    count
}

/// Leaves the entries of the games that stay, in their order.
pub fn renumber(entries: &mut Entries, renumbering: &Renumbering) -> u32
    requires same_games { length renumbering.now.to ≡ length entries.old }
    requires few_games { length entries.old < 2 ^ 32 }
    ensures moved { entries.new ≡ renumbered renumbering.now.to entries.old }
    ensures kept { length entries.new ≡ renumbering.now.kept }
    ensures entries { (i number : ℕ) → slice_get renumbering.now.to i ≡ Some (Some number) → slice_get entries.new number ≡ slice_get entries.old i }
    ensures count { result ≡ count_in entries.new }
{
    move_to_front(entries, renumbering.to());
    entries.truncate(renumbering.kept());
    count(entries)
}

// Moves the entries of the games that stay, those with a new number in `to`, to the front, in their order. What stands behind them is of no
// use.
fn move_to_front(entries: &mut Entries, to: &[Option<u32>])
    requires same_games { length to.now ≡ length entries.old }
    requires few_games { length entries.old < 2 ^ 32 }
    ensures moved { take (length (renumbered to.now entries.old)) entries.new ≡ renumbered to.now entries.old }
    ensures len { length entries.new ≡ length entries.old }
{
    let mut kept = 0;
    for i in 0..entries.len() {
        if to[i as usize].is_some() {
            let ply = entries.get(i);
            entries.set(kept, ply);
            kept += 1;
        }
    }
}

// Counts the games that are in.
fn count(entries: &Entries) -> u32
    requires few_games { length entries.now < 2 ^ 32 }
    ensures count { result ≡ count_in entries.now }
{
    let mut count = 0;
    for i in 0..entries.len() {
        count += u32::from(entries.is_in(i));
    }
    count
}
