//! The commands that change games, and show in the views of slots what has changed.
ghost use Rattle.std.specs.Prelude.{◌≡◌, ◌≤◌, ◌+◌, ℕ, List, Some, Ok, IfSome, OnOk};
ghost use Rattle.command_runs.specs.Counts.{counts};
ghost use Rattle.intake_commands.specs.LastLine.{ServesBut};
ghost use Rattle.script_text.specs.Tasks.{task};
ghost use Rattle.shell_commands.specs.Parts.{IsOf, part_of};
ghost use Rattle.shell_commands.specs.Tasks.{command_work, order_left};
ghost use Rattle.shell_commands.specs.Turn.{Kept, Turn, no_views, outside};
ghost use Rattle.shell_commands.specs.declared.parts.Part.TheVariants.{Edits, Games};
ghost use Rattle.shell_state.specs.Stands.{Broken, Sound, Stands};
ghost use Rattle.shell_state.specs.State.{State};
ghost use Rattle.shell_state.specs.Work.{works};
ghost use Rattle.view_commands.specs.Views.{AreRight};
ghost use Rattle.view_commands.specs.declared.window.Window.{Window as WindowValue};

use crate::showing::{show_line, show_rows};
use base_files::{Files, Sink, Source};
use edit_commands::{compact_line, tag_line};
use intake_commands::{import, replace_line};
use script_text::Command;
use search_commands::demo;
use shell_state::{Halt, Machine};
use std::alloc::Global;
use tree_live::TreeView;
use view_commands::Window;

// Takes games in or edits them, and shows them before the last line is written.
pub(crate) fn serve_edit<F: Files, B: Source, K: Sink>(
    alloc: Global,
    machine: &mut Machine,
    views: &mut [Option<Box<dyn TreeView>>],
    files: &mut F,
    body: &mut B,
    out: &mut K,
    command: &Command,
    window: Window,
) -> Result<(), Halt>
    requires room { window.first + window.count ≤ 8 }
    requires sound { Sound machine.old (F.seen files.old) }
    requires command { IsOf Edits command.now }
    ensures turn { (s : State) (text : List ℕ) → Stands machine.old (F.seen files.old) s → B.left body.old ≡ Some text → AreRight (λ b. rows b) window s views.old → Turn (λ b. rows b) (λ b. told b) window s (task (Ok command.now) text) machine.new (F.seen files.new) (K.taken out.old) (K.taken out.new) views.old views.new result }
    ensures kept { Kept window (Ok command.now) machine.old machine.new (outside (F.seen files.old) (F.asked files.old) (K.taken out.old) (counts (F.faults files.old) (B.faults body.old) (K.faults out.old))) (outside (F.seen files.new) (F.asked files.new) (K.taken out.new) (counts (F.faults files.new) (B.faults body.new) (K.faults out.new))) views.old views.new result }
    ensures same { B.origin body.new ≡ B.origin body.old }
{
    match edit_line(alloc, machine, files, body, out, command) {
        Ok(line) => show_line(alloc, machine, views, out, line.as_slice(), window),
        Err(halt) => Err(halt),
    }
}

// Takes them in or edits them, and gives the last line for it.
fn edit_line<F: Files, B: Source, K: Sink>(
    alloc: Global,
    machine: &mut Machine,
    files: &mut F,
    body: &mut B,
    out: &mut K,
    command: &Command,
) -> Result<Vec<u8>, Halt>
    requires sound { Sound machine.old (F.seen files.old) }
    requires command { IsOf Edits command.now }
    ensures line { (w : WindowValue) (s : State) (text : List ℕ) → Stands machine.old (F.seen files.old) s → B.left body.old ≡ Some text → ServesBut works (Stands machine.new (F.seen files.new)) Broken s (command_work w command.now text) (K.taken out.old) (K.taken out.new) result }
    ensures behind { (w : WindowValue) (s : State) (text : List ℕ) → Stands machine.old (F.seen files.old) s → OnOk result (IfSome (order_left (Ok command.now)) (λ left. Stands machine.new (F.seen files.new) ((command_work w command.now text).after s))) }
    ensures kept { (w : WindowValue) → Kept w (Ok command.now) machine.old machine.new (outside (F.seen files.old) (F.asked files.old) (K.taken out.old) (counts (F.faults files.old) (B.faults body.old) (K.faults out.old))) (outside (F.seen files.new) (F.asked files.new) (K.taken out.new) (counts (F.faults files.new) (B.faults body.new) (K.faults out.new))) no_views no_views result }
    ensures same { B.origin body.new ≡ B.origin body.old }
{
    match command {
        Command::Import(_) => import(alloc, machine, files, body, out),
        Command::Replace(number, _) => replace_line(alloc, machine, files, body, *number),
        Command::Tag(number, edit) => tag_line(alloc, machine, files, *number, edit),
        Command::Compact => compact_line(alloc, machine, files),
        _ => unreachable!(),
    }
}

// Adds the games that `demo` makes, and then shows what has changed.
pub(crate) fn serve_demo<F: Files, K: Sink>(
    alloc: Global,
    machine: &mut Machine,
    views: &mut [Option<Box<dyn TreeView>>],
    files: &mut F,
    out: &mut K,
    command: &Command,
    window: Window,
) -> Result<(), Halt>
    requires room { window.first + window.count ≤ 8 }
    requires sound { Sound machine.old (F.seen files.old) }
    requires part { part_of command.now ≡ Games }
    ensures turn { (s : State) (text : List ℕ) → Stands machine.old (F.seen files.old) s → AreRight (λ b. rows b) window s views.old → Turn (λ b. rows b) (λ b. told b) window s (task (Ok command.now) text) machine.new (F.seen files.new) (K.taken out.old) (K.taken out.new) views.old views.new result }
    ensures kept { Kept window (Ok command.now) machine.old machine.new (outside (F.seen files.old) (F.asked files.old) (K.taken out.old) (counts (F.faults files.old) 0 (K.faults out.old))) (outside (F.seen files.new) (F.asked files.new) (K.taken out.new) (counts (F.faults files.new) 0 (K.faults out.new))) views.old views.new result }
{
    match command {
        Command::Demo(seed, games) => match demo(alloc, machine, files, out, *seed, *games) {
            Ok(()) => show_rows(alloc, machine, views, window),
            Err(halt) => Err(halt),
        },
        _ => unreachable!(),
    }
}
