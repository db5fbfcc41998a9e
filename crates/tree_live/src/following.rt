//! Watches that follow the games while no view is told.
ghost use Rattle.std.specs.Prelude.{◌≡◌, ℕ, ◌<◌, ◌≤◌, None, length, option_map, IfSome, OnOk};
ghost use Rattle.tree_live.specs.Slots.{Fits, changed, in_slot};
ghost use Rattle.tree_live.specs.Following.{Followed};

use crate::change::{Change, hit_in};
use crate::entry::Entry;
use crate::watch::Watch;
use std::alloc::AllocError;

/// Brings a change to each watch.
pub(crate) fn follow_all(
    watches: &mut [Option<Watch>],
    change: &Change<'_>,
) -> Result<(), AllocError>
    requires fits { (k : ℕ) → IfSome (in_slot watches.old k) (Fits change.now) }
    ensures followed { OnOk result (Followed change.now (length watches.old) watches.old watches.new) }
    ensures none { (k : ℕ) → in_slot watches.old k ≡ None → in_slot watches.new k ≡ None }
    ensures number { length watches.new ≡ length watches.old }
{
    for k in 0..watches.len() {
        follow(k, &mut watches[k], change)?;
    }
    Ok(())
}

// Brings a change to the watch of slot `k`, if there is one.
fn follow(k: usize, watch: &mut Option<Watch>, change: &Change<'_>) -> Result<(), AllocError>
    requires fits { IfSome watch.old (Fits change.now) }
    ensures watched { OnOk result (watch.new ≡ option_map (changed change.now k) watch.old) }
    ensures none { watch.old ≡ None → watch.new ≡ None }
{
    match watch {
        None => Ok(()),
        Some(watch) => follow_with(k, watch, change),
    }
}

// Brings a change to a watch.
fn follow_with(k: usize, watch: &mut Watch, change: &Change<'_>) -> Result<(), AllocError>
    requires fits { Fits change.now watch.old }
    ensures watched { OnOk result (watch.new ≡ changed change.now k watch.old) }
{
    match change {
        Change::Filter(filter) => watch.set_filter(filter),
        Change::Game { i, hits, is_in } => {
            let game = Entry {
                hit: hit_in(hits, k),
                is_in: *is_in,
            };
            watch.set_game(*i, game)
        }
        Change::Numbers(numbers) => watch.renumber(numbers),
    }
}
