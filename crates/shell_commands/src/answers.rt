//! The commands that make their text without the files, and change nothing that a view shows.
ghost use Rattle.std.specs.Prelude.{ℕ, List, Ok, IfOk};
ghost use Rattle.base_files.specs.Seen.{Seen};
ghost use Rattle.command_runs.specs.Counts.{counts};
ghost use Rattle.command_runs.specs.Endings.{Serves};
ghost use Rattle.shell_commands.specs.Parts.{IsOf};
ghost use Rattle.shell_commands.specs.Tasks.{command_work};
ghost use Rattle.shell_commands.specs.Turn.{Kept, no_views, outside};
ghost use Rattle.shell_commands.specs.declared.parts.Part.TheVariants.{Answers};
ghost use Rattle.shell_state.specs.Stands.{Broken, Fits, Quiet, Sound, Stands};
ghost use Rattle.shell_state.specs.State.{State};
ghost use Rattle.shell_state.specs.Work.{works};
ghost use Rattle.view_commands.specs.declared.window.Window.{Window};

use crate::saying::say;
use base_files::Sink;
use filter_commands::keep_filter;
use report_commands::cross;
use script_text::Command;
use shell_state::{Halt, Machine};
use std::alloc::{AllocError, Global};
use text_commands::{info, quit};

// Does what such a command says, and writes its text.
pub(crate) fn write_answer<K: Sink>(
    alloc: Global,
    machine: &mut Machine,
    out: &mut K,
    command: &Command,
) -> Result<(), Halt>
    requires fits { Fits machine.old }
    requires command { IsOf Answers command.now }
    ensures serves { (w : Window) (seen : Seen) (s : State) (text : List ℕ) → Stands machine.old seen s → Serves works (Stands machine.new seen) Broken s (command_work w command.now text) (K.taken out.old) (K.taken out.new) result }
    ensures kept { (w : Window) (seen : Seen) (asked files input : ℕ) → Sound machine.old seen → Kept w (Ok command.now) machine.old machine.new (outside seen asked (K.taken out.old) (counts files input (K.faults out.old))) (outside seen asked (K.taken out.new) (counts files input (K.faults out.new))) no_views no_views result }
{
    let answer = answer_of(alloc, machine, command);
    say(out, answer)
}

// Does it, and gives its text.
fn answer_of(alloc: Global, machine: &mut Machine, command: &Command) -> Result<Vec<u8>, AllocError>
    requires fits { Fits machine.old }
    requires command { IsOf Answers command.now }
    ensures quiet { (w : Window) (text : List ℕ) → IfOk result (λ answer. Quiet machine.old (command_work w command.now text) machine.new answer.items) }
{
    match command {
        Command::Nothing => Ok(Vec::new(alloc)),
        Command::Keep(name) => keep_filter(alloc, machine, name),
        Command::Cross(event) => cross(alloc, machine, event),
        Command::Info => info(alloc, machine),
        Command::Quit => quit(alloc, machine),
        _ => unreachable!(),
    }
}
