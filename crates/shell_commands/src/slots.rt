//! The commands on the slots that show trees.
ghost use Rattle.std.specs.Prelude.{◌≡◌, ◌+◌, ◌≤◌, ℕ, List, Ok};
ghost use Rattle.command_runs.specs.Counts.{counts};
ghost use Rattle.script_text.specs.Tasks.{task};
ghost use Rattle.shell_commands.specs.Parts.{part_of};
ghost use Rattle.shell_commands.specs.Turn.{Kept, Turn, outside};
ghost use Rattle.shell_commands.specs.declared.parts.Part.TheVariants.{Slots};
ghost use Rattle.shell_state.specs.Stands.{Sound, Stands};
ghost use Rattle.shell_state.specs.State.{State};
ghost use Rattle.view_commands.specs.Views.{AreRight};

use crate::saying::say;
use base_files::{Files, Sink};
use script_text::Command;
use shell_state::{Halt, Machine, write_line};
use std::alloc::Global;
use tree_live::TreeView;
use view_commands::{Window, unwatch, view, watch};

// Does what such a command of a user says, and writes its line or its text.
pub(crate) fn serve_slot<F: Files, K: Sink>(
    alloc: Global,
    machine: &mut Machine,
    views: &mut [Option<Box<dyn TreeView>>],
    files: &mut F,
    out: &mut K,
    command: &Command,
    window: Window,
) -> Result<(), Halt>
    requires room { window.first + window.count ≤ 8 }
    requires sound { Sound machine.old (F.seen files.old) }
    requires part { part_of command.now ≡ Slots }
    ensures turn { (s : State) (text : List ℕ) → Stands machine.old (F.seen files.old) s → AreRight (λ b. rows b) window s views.old → Turn (λ b. rows b) (λ b. told b) window s (task (Ok command.now) text) machine.new (F.seen files.new) (K.taken out.old) (K.taken out.new) views.old views.new result }
    ensures kept { Kept window (Ok command.now) machine.old machine.new (outside (F.seen files.old) (F.asked files.old) (K.taken out.old) (counts (F.faults files.old) 0 (K.faults out.old))) (outside (F.seen files.new) (F.asked files.new) (K.taken out.new) (counts (F.faults files.new) 0 (K.faults out.new))) views.old views.new result }
{
    match command {
        Command::Watch(number, board, side) => {
            match watch(alloc, machine, views, files, *number, board, *side, window) {
                Ok(line) => write_line(out, line.as_slice()),
                Err(halt) => Err(halt),
            }
        }
        Command::View(number) => say(out, view(alloc, machine, views, *number, window)),
        Command::Unwatch(number) => say(out, unwatch(alloc, machine, views, *number, window)),
        _ => unreachable!(),
    }
}
