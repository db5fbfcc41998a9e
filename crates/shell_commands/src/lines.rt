//! The commands that do their work without the files, and answer a line.
ghost use Rattle.std.specs.Prelude.{◌≡◌, ◌+◌, ◌≤◌, ℕ, List, Ok, true};
ghost use Rattle.base_files.specs.Seen.{Seen};
ghost use Rattle.command_runs.specs.Counts.{counts};
ghost use Rattle.command_runs.specs.Endings.{Serves};
ghost use Rattle.script_text.specs.Sound.{IsSound};
ghost use Rattle.script_text.specs.Tasks.{task};
ghost use Rattle.shell_commands.specs.Parts.{IsOf, has_line, part_of};
ghost use Rattle.shell_commands.specs.Showing.{AllFit};
ghost use Rattle.shell_commands.specs.Tasks.{command_work};
ghost use Rattle.shell_commands.specs.Turn.{Kept, Turn, no_views, outside};
ghost use Rattle.shell_commands.specs.declared.parts.Part.TheVariants.{Lines, Marks};
ghost use Rattle.shell_state.specs.Stands.{Broken, Fits, Quiet, Sound, Stands};
ghost use Rattle.shell_state.specs.State.{State};
ghost use Rattle.shell_state.specs.Work.{works};
ghost use Rattle.view_commands.specs.Views.{AreRight};
ghost use Rattle.view_commands.specs.declared.window.Window.{Window as WindowValue};

use crate::showing::show_line;
use base_files::Sink;
use edit_commands::{delete, mark, undelete};
use filter_commands::{and, clear, drop_filter, negate, or, reset, restrict, take};
use script_text::Command;
use search_commands::search_header;
use shell_state::{Halt, Line, Machine, write_line};
use std::alloc::Global;
use tree_live::TreeView;
use view_commands::Window;

// Does what such a command says, and shows it before its line is written.
pub(crate) fn serve_line<K: Sink>(
    alloc: Global,
    machine: &mut Machine,
    views: &mut [Option<Box<dyn TreeView>>],
    out: &mut K,
    command: &Command,
    window: Window,
) -> Result<(), Halt>
    requires room { window.first + window.count ≤ 8 }
    requires fits { AllFit machine.old }
    requires command { IsOf Lines command.now }
    ensures turn { (seen : Seen) (s : State) (text : List ℕ) → Stands machine.old seen s → AreRight (λ b. rows b) window s views.old → Turn (λ b. rows b) (λ b. told b) window s (task (Ok command.now) text) machine.new seen (K.taken out.old) (K.taken out.new) views.old views.new result }
    ensures kept { (seen : Seen) (asked files input : ℕ) → Sound machine.old seen → Kept window (Ok command.now) machine.old machine.new (outside seen asked (K.taken out.old) (counts files input (K.faults out.old))) (outside seen asked (K.taken out.new) (counts files input (K.faults out.new))) views.old views.new result }
{
    let line = change_line(machine, command);
    show_line(alloc, machine, views, out, line.as_slice(), window)
}

// Does what a command says that changes nothing which a view shows, and writes its line.
pub(crate) fn write_mark<K: Sink>(
    machine: &mut Machine,
    out: &mut K,
    command: &Command,
) -> Result<(), Halt>
    requires fits { Fits machine.old }
    requires command { IsOf Marks command.now }
    ensures serves { (w : WindowValue) (seen : Seen) (s : State) (text : List ℕ) → Stands machine.old seen s → Serves works (Stands machine.new seen) Broken s (command_work w command.now text) (K.taken out.old) (K.taken out.new) result }
    ensures kept { (w : WindowValue) (seen : Seen) (asked files input : ℕ) → Sound machine.old seen → Kept w (Ok command.now) machine.old machine.new (outside seen asked (K.taken out.old) (counts files input (K.faults out.old))) (outside seen asked (K.taken out.new) (counts files input (K.faults out.new))) no_views no_views result }
{
    let line = change_line(machine, command);
    write_line(out, line.as_slice())
}

// Does what it says, and gives its line.
fn change_line(machine: &mut Machine, command: &Command) -> Line
    requires fits { Fits machine.old }
    requires command { IsSound command.now }
    requires part { has_line (part_of command.now) ≡ true }
    ensures quiet { (w : WindowValue) (text : List ℕ) → Quiet machine.old (command_work w command.now text) machine.new result.items }
{
    match command {
        Command::SearchHeader(op, query) => search_header(machine, *op, query),
        Command::Reset => reset(machine),
        Command::Clear => clear(machine),
        Command::Negate => negate(machine),
        Command::Restrict(first, last) => restrict(machine, *first, *last),
        Command::Take(name) => take(machine, name),
        Command::And(name) => and(machine, name),
        Command::Or(name) => or(machine, name),
        Command::Drop(name) => drop_filter(machine, name),
        Command::Delete(number) => delete(machine, *number),
        Command::Undelete(number) => undelete(machine, *number),
        Command::Mark(number, bit, on) => mark(machine, *number, *bit, *on),
        _ => unreachable!(),
    }
}
