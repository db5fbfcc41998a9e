//! The commands that search games which they read, and show in the views of slots what has changed before the text is written.
ghost use Rattle.std.specs.Prelude.{◌≡◌, ◌+◌, ◌≤◌, ℕ, List, Ok, Option, IfErr, OnOk};
ghost use Rattle.base_files.specs.Seen.{Seen};
ghost use Rattle.command_runs.specs.Counts.{Causes, counts};
ghost use Rattle.command_runs.specs.Endings.{NoneLost, Serves};
ghost use Rattle.script_text.specs.Tasks.{task};
ghost use Rattle.shell_commands.specs.Parts.{IsOf, part_of};
ghost use Rattle.shell_commands.specs.Tasks.{command_work};
ghost use Rattle.shell_commands.specs.Turn.{Kept, Turn, no_views, outside};
ghost use Rattle.shell_commands.specs.declared.parts.Part.TheVariants.{Searches};
ghost use Rattle.shell_state.specs.Ends.{IsDevice};
ghost use Rattle.shell_state.specs.Stands.{Broken, Sound, Stands, WhyHalt};
ghost use Rattle.shell_state.specs.State.{State};
ghost use Rattle.shell_state.specs.Work.{works};
ghost use Rattle.view_commands.specs.Views.{AreRight};
ghost use Rattle.view_commands.specs.declared.window.Window.{Window as WindowValue};

use crate::showing::show_rows;
use base_files::{Files, Sink};
use script_text::Command;
use search_commands::{find_games, hits, material_games, position_games};
use shell_state::{Halt, Machine, write_filter};
use std::alloc::Global;
use tree_live::TreeView;
use view_commands::Window;

// Does what such a command says, and shows it before its text is written.
pub(crate) fn serve_search<F: Files, K: Sink>(
    alloc: Global,
    machine: &mut Machine,
    views: &mut [Option<Box<dyn TreeView>>],
    files: &mut F,
    out: &mut K,
    command: &Command,
    window: Window,
) -> Result<(), Halt>
    requires room { window.first + window.count ≤ 8 }
    requires sound { Sound machine.old (F.seen files.old) }
    requires command { IsOf Searches command.now }
    ensures turn { (s : State) (text : List ℕ) → Stands machine.old (F.seen files.old) s → AreRight (λ b. rows b) window s views.old → Turn (λ b. rows b) (λ b. told b) window s (task (Ok command.now) text) machine.new (F.seen files.new) (K.taken out.old) (K.taken out.new) views.old views.new result }
    ensures kept { Kept window (Ok command.now) machine.old machine.new (outside (F.seen files.old) (F.asked files.old) (K.taken out.old) (counts (F.faults files.old) 0 (K.faults out.old))) (outside (F.seen files.new) (F.asked files.new) (K.taken out.new) (counts (F.faults files.new) 0 (K.faults out.new))) views.old views.new result }
{
    match search_games(machine, files, command) {
        Ok(()) => {}
        Err(halt) => return Err(halt),
    }
    match show_rows(alloc, machine, views, window) {
        Ok(()) => write_found(machine, out, command),
        Err(halt) => Err(halt),
    }
}

// Its search.
fn search_games<F: Files>(
    machine: &mut Machine,
    files: &mut F,
    command: &Command,
) -> Result<(), Halt>
    requires sound { Sound machine.old (F.seen files.old) }
    requires command { IsOf Searches command.now }
    ensures stands { (w : WindowValue) (s : State) (text : List ℕ) → Stands machine.old (F.seen files.old) s → OnOk result (Stands machine.new (F.seen files.new) ((command_work w command.now text).after s)) }
    ensures devices { (s : State) → Stands machine.old (F.seen files.old) s → IfErr result IsDevice }
    ensures kept { (w : WindowValue) (taken : Option (List ℕ)) (output : ℕ) → Kept w (Ok command.now) machine.old machine.new (outside (F.seen files.old) (F.asked files.old) taken (counts (F.faults files.old) 0 output)) (outside (F.seen files.new) (F.asked files.new) taken (counts (F.faults files.new) 0 output)) no_views no_views result }
{
    match command {
        Command::Find(board, side) => find_games(machine, files, board, *side),
        Command::SearchPosition(op, query) => position_games(machine, files, *op, query),
        Command::SearchMaterial(op, query) => material_games(machine, files, *op, query),
        _ => unreachable!(),
    }
}

// Its text, behind the search.
fn write_found<K: Sink>(machine: &mut Machine, out: &mut K, command: &Command) -> Result<(), Halt>
    requires part { part_of command.now ≡ Searches }
    ensures same { machine.new ≡ machine.old }
    ensures serves { (w : WindowValue) (seen : Seen) (s : State) (text : List ℕ) → Stands machine.old seen ((command_work w command.now text).after s) → Serves works (Stands machine.new seen) Broken s (command_work w command.now text) (K.taken out.old) (K.taken out.new) result }
    ensures none_lost { NoneLost (K.taken out.old) (K.taken out.new) }
    ensures causes { Causes WhyHalt result (counts 0 0 (K.faults out.old)) (counts 0 0 (K.faults out.new)) }
{
    match command {
        Command::Find(..) => hits(machine, out),
        _ => write_filter(&machine.seat.filter, out),
    }
}
