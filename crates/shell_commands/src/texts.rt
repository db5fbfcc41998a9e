//! The commands that write while they read or save, and change nothing that a view shows.
ghost use Rattle.std.specs.Prelude.{◌≡◌, ℕ, List, Some, Ok};
ghost use Rattle.command_runs.specs.Counts.{counts};
ghost use Rattle.command_runs.specs.Endings.{Serves};
ghost use Rattle.shell_commands.specs.Parts.{IsOf};
ghost use Rattle.shell_commands.specs.Tasks.{command_work};
ghost use Rattle.shell_commands.specs.Turn.{Kept, no_views, outside};
ghost use Rattle.shell_commands.specs.declared.parts.Part.TheVariants.{Texts};
ghost use Rattle.shell_state.specs.Stands.{Broken, Sound, Stands};
ghost use Rattle.shell_state.specs.State.{State};
ghost use Rattle.shell_state.specs.Work.{works};
ghost use Rattle.view_commands.specs.declared.window.Window.{Window};

use base_files::{Files, Sink, Source};
use edit_commands::save;
use index_commands::index;
use report_commands::{eco, twins};
use script_text::Command;
use search_commands::{hits, tree};
use shell_state::{Halt, Machine};
use std::alloc::Global;
use text_commands::{export, list, show};

// Does what such a command says, and writes its text.
pub(crate) fn write_text<F: Files, B: Source, K: Sink>(
    alloc: Global,
    machine: &mut Machine,
    files: &mut F,
    body: &mut B,
    out: &mut K,
    command: &Command,
) -> Result<(), Halt>
    requires sound { Sound machine.old (F.seen files.old) }
    requires command { IsOf Texts command.now }
    ensures serves { (w : Window) (s : State) (text : List ℕ) → Stands machine.old (F.seen files.old) s → B.left body.old ≡ Some text → Serves works (Stands machine.new (F.seen files.new)) Broken s (command_work w command.now text) (K.taken out.old) (K.taken out.new) result }
    ensures kept { (w : Window) → Kept w (Ok command.now) machine.old machine.new (outside (F.seen files.old) (F.asked files.old) (K.taken out.old) (counts (F.faults files.old) (B.faults body.old) (K.faults out.old))) (outside (F.seen files.new) (F.asked files.new) (K.taken out.new) (counts (F.faults files.new) (B.faults body.new) (K.faults out.new))) no_views no_views result }
    ensures same { B.origin body.new ≡ B.origin body.old }
{
    match command {
        Command::Hits => hits(machine, out),
        Command::List => list(machine, out),
        Command::Show(number) => show(alloc, machine, files, out, *number),
        Command::Export => export(alloc, machine, files, out),
        Command::Tree(board, side) => tree(alloc, machine, files, out, board, *side),
        Command::Eco(_) => eco(alloc, machine, files, body, out),
        Command::Twins(depth) => twins(alloc, machine, files, out, *depth),
        Command::Index(depth) => index(alloc, machine, files, out, *depth),
        Command::Save => save(alloc, machine, files, out),
        _ => unreachable!(),
    }
}
