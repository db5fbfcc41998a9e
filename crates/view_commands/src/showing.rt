//! Bringing the views of slots up to date.
ghost use Rattle.std.specs.Prelude.{◌≡◌, ◌+◌, ◌≤◌, ◌&&◌, if◌then◌else◌, OnOk, length};
ghost use Rattle.base_files.specs.Seen.{Seen};
ghost use Rattle.shell_state.specs.Slots.{slot_at};
ghost use Rattle.shell_state.specs.Stands.{Fits, Stands, TablesFit};
ghost use Rattle.shell_state.specs.State.{State};
ghost use Rattle.view_commands.specs.Views.{AreLeft, AreRight, AreToldAtMost, changes_of, is_own, is_shown};

use crate::window::Window;
use shell_state::Machine;
use std::alloc::{AllocError, Global};
use tree_live::TreeView;

/// Tells the view of each slot of a user that shows a tree the rows that differ from those of the games that are in now.
pub fn show(
    alloc: Global,
    machine: &mut Machine,
    views: &mut [Option<Box<dyn TreeView>>],
    window: Window,
) -> Result<(), AllocError>
    requires fits { Fits machine.old }
    requires tables { TablesFit machine.old }
    requires room { window.first + window.count ≤ 8 }
    ensures same { OnOk result (machine.new ≡ machine.old) }

    // The user's views, if they were right beside an earlier state with the same slots, are right beside this one, and
    // were told no more changes than rows differ. Views of slots that show no tree, or that are not the user's own, are
    // as before.
    ensures right { (seen : Seen) (earlier s : State) → Stands machine.old seen s → s.slots ≡ earlier.slots → AreRight (λ b. rows b) window earlier views.old → OnOk result (AreRight (λ b. rows b) window s views.new) }
    ensures told { (seen : Seen) (earlier s : State) → Stands machine.old seen s → s.slots ≡ earlier.slots → AreRight (λ b. rows b) window earlier views.old → OnOk result (AreToldAtMost (λ b. told b) (λ i. if is_own window i then changes_of earlier s (slot_at s.slots i) else 0) views.old views.new) }
    ensures left { (seen : Seen) (s : State) → Stands machine.old seen s → AreLeft (λ i. is_own window i && is_shown (slot_at s.slots i)) views.old views.new }
    ensures others { AreLeft (is_own window) views.old views.new }
    ensures number { length views.new ≡ length views.old }
{
    let filter = &machine.seat.filter;
    machine
        .slots
        .show(alloc, views, filter, window.first, window.count)
}
