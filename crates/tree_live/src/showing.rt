//! Views that are told how their rows differ from those of their watches.
ghost use Rattle.std.specs.Prelude.{◌≡◌, ℕ, ◌+◌, ◌<◌, ◌≤◌, length, option_map, OnOk, IfSome};
ghost use Rattle.tree_live.specs.Slots.{in_slot, rows_in, IsTold};
ghost use Rattle.tree_live.specs.Views.{Shows, ToldRows};
ghost use Rattle.tree_live.specs.Watching.{hits_in};
ghost use Rattle.tree_live.specs.Showing.{ShownBelow, ToldEach, ToldIn};

use crate::view::TreeView;
use crate::watch::Watch;
use std::alloc::{AllocError, Global};

/// Tells the view of each slot that is watched and holds one the rows that differ; slot k is the view with the number `first` + k.
pub(crate) fn show_all(
    alloc: Global,
    first: usize,
    watches: &[Option<Watch>],
    views: &mut [Option<Box<dyn TreeView>>],
) -> Result<(), AllocError>
    requires few { length watches.now ≤ 8 }
    requires first { first ≤ 16 }
    ensures shown { OnOk result (ShownBelow (λ b. rows b) (λ b. told b) first (length watches.now) watches.now views.old views.new) }
    ensures told { ToldEach (λ b. rows b) (λ b. told b) first watches.now views.old views.new }
{
    for k in 0..watches.len() {
        show_at(alloc, first, k, watches, views)?;
    }
    Ok(())
}

// Tells the view of one slot, if it is watched.
fn show_at(
    alloc: Global,
    first: usize,
    k: usize,
    watches: &[Option<Watch>],
    views: &mut [Option<Box<dyn TreeView>>],
) -> Result<(), AllocError>
    requires place { k < length watches.now }
    requires few { length watches.now ≤ 8 }
    requires first { first ≤ 16 }
    ensures shown { OnOk result (IfSome (in_slot watches.now k) (λ watch. IfSome (in_slot views.new (first + k)) (λ view. Shows (hits_in watch.games) (rows view)))) }
    ensures told { ToldIn (λ b. rows b) (λ b. told b) first k watches.now views.old views.new }
{
    let place = first + k;
    if place >= views.len() {
        return Ok(());
    }
    show_slot(alloc, &watches[k], &mut views[place])
}

// Tells the view of a slot, if it is watched.
fn show_slot(
    alloc: Global,
    watch: &Option<Watch>,
    slot: &mut Option<Box<dyn TreeView>>,
) -> Result<(), AllocError>
    ensures shown { OnOk result (IfSome watch.now (λ watch. IfSome slot.new (λ view. Shows (hits_in watch.games) (rows view)))) }
    ensures told { IsTold (ToldRows (λ b. rows b) (λ b. told b)) (option_map rows_in watch.now) slot.old slot.new }
{
    match watch {
        None => Ok(()),
        Some(watch) => match slot {
            None => Ok(()),
            Some(view) => watch.show(alloc, &mut **view),
        },
    }
}
