//! What one line of a script does.
ghost use Rattle.std.specs.Prelude.{◌≡◌, ◌≤◌, ◌+◌, ℕ, List, [], false, Some, Ok, OnOk, IfErr, length};
ghost use Rattle.command_runs.specs.Counts.{Causes, counts};
ghost use Rattle.command_runs.specs.Endings.{NoneLost, Serves};
ghost use Rattle.script_text.specs.Sound.{IsSoundLine};
ghost use Rattle.script_text.specs.Tasks.{task};
ghost use Rattle.script_text.specs.declared.command.Command.TheVariants.{Export};
ghost use Rattle.shell_commands.specs.Tasks.{BrokenTask, order_left, order_price, order_work, order_writes, SettledTask, tasks, writes_early};
ghost use Rattle.shell_commands.specs.Turn.{Kept, Turn, outside};
ghost use Rattle.shell_commands.specs.Watching.{ViewsDone, touches};
ghost use Rattle.shell_state.specs.Carrying.{StillCarry};
ghost use Rattle.shell_state.specs.Ends.{Unsaid};
ghost use Rattle.shell_state.specs.Stands.{Asks, Sound, Stands, WhyHalt};
ghost use Rattle.shell_state.specs.State.{State};
ghost use Rattle.text_commands.specs.GameTexts.{ExportCut};
ghost use Rattle.view_commands.specs.Views.{AreLeft, AreRight, all_slots, is_own};

use crate::answers::write_answer;
use crate::changes::{serve_demo, serve_edit};
use crate::lines::{serve_line, write_mark};
use crate::parts::{Part, part_of};
use crate::saying::say;
use crate::searches::serve_search;
use crate::slots::serve_slot;
use crate::texts::write_text;
use base_files::{Files, Sink, Source};
use script_text::{Command, ScriptFault};
use shell_state::{Halt, Machine, fault_line};
use std::alloc::Global;
use tree_live::TreeView;
use view_commands::Window;

/// A line of a script: the command that it says, or its first fault.
pub type Order = Result<Command, ScriptFault>;

/// Does what a line of a user's script says, and writes its text. The views of the user's own slots stay right. Nothing
/// of `body` is read for a line without a body.
pub fn serve<F: Files, B: Source, K: Sink>(
    alloc: Global,
    machine: &mut Machine,
    views: &mut [Option<Box<dyn TreeView>>],
    files: &mut F,
    body: &mut B,
    out: &mut K,
    order: &Order,
    window: Window,
) -> Result<(), Halt>
    requires room { window.first + window.count ≤ 8 }
    requires sound { Sound machine.old (F.seen files.old) }

    // Its edit, its mark or its streak is within its bounds, as that of a line that was read.
    requires order { IsSoundLine order.now }

    // If the files and the body are told, and the user's views are right, the machine stands for the state after the
    // task and its text is written, or a front part of it.
    ensures serves { (s : State) (text : List ℕ) → Stands machine.old (F.seen files.old) s → B.left body.old ≡ Some text → AreRight (λ b. rows b) window s views.old → Serves (tasks window) (Stands machine.new (F.seen files.new)) (BrokenTask window) s (task order.now text) (K.taken out.old) (K.taken out.new) result }

    // Then they are right beside it, and were told no more changes than rows differ. Views of slots that show nothing
    // are as before, and whatever is told, so are those of slots that are not the user's own.
    ensures views { (s : State) (text : List ℕ) → Stands machine.old (F.seen files.old) s → B.left body.old ≡ Some text → AreRight (λ b. rows b) window s views.old → OnOk result (ViewsDone (λ b. rows b) (λ b. told b) window s (task order.now text) views.old views.new) }
    ensures left { (s : State) (text : List ℕ) → Stands machine.old (F.seen files.old) s → B.left body.old ≡ Some text → AreRight (λ b. rows b) window s views.old → AreLeft (touches window s order.now) views.old views.new }
    ensures others { AreLeft (is_own window) views.old views.new }
    ensures number { length views.new ≡ length views.old }
    ensures sound { OnOk result (Sound machine.new (F.seen files.new)) }

    // Of an export that is broken off, the games before that one are written whole.
    ensures whole { (s : State) → Stands machine.old (F.seen files.old) s → order.now ≡ Ok Export → IfErr result (λ e. ExportCut s.seat.filter s.shared.base.games e (K.taken out.old) (K.taken out.new)) }

    // If it is broken off, the files carry what they carried, or perhaps what `save` saves or `compact` leaves.
    ensures carries { (s : State) → Stands machine.old (F.seen files.old) s → IfErr result (λ _. StillCarry (F.seen files.new) s (order_left order.now)) }

    // If the files fail, nothing of its text was written, unless it writes while it works.
    ensures unsaid { writes_early order.now ≡ false → IfErr result (λ e. Unsaid e (K.taken out.old) (K.taken out.new)) }

    // If it is one that leaves a base in their place, nothing of its text was written before they carry that.
    ensures settled { (s : State) (text : List ℕ) → Stands machine.old (F.seen files.old) s → B.left body.old ≡ Some text → IfErr result (λ _. SettledTask (F.seen files.new) window s (task order.now text) (K.taken out.old) (K.taken out.new)) }

    // Whatever the files tell, they change by a line alone that may change them, and no base is chosen.
    ensures unchanged { order_writes order.now ≡ false → F.seen files.new ≡ F.seen files.old }
    ensures choices { (F.seen files.new).choices ≡ (F.seen files.old).choices }

    // It asks no more than its price, which is known of any files but for `demo`, whose price is that of the state behind its games.
    ensures asks { Asks machine.old (order_work all_slots order.now []) (F.asked files.old) (F.asked files.new) }
    ensures asks_told { (s : State) → Stands machine.old (F.seen files.old) s → F.asked files.new ≤ F.asked files.old + order_price s order.now }

    // The body goes on reading from where it read, and nothing is lost of what was written before.
    ensures same { B.origin body.new ≡ B.origin body.old }
    ensures none_lost { NoneLost (K.taken out.old) (K.taken out.new) }
    ensures causes { Causes WhyHalt result (counts (F.faults files.old) (B.faults body.old) (K.faults out.old)) (counts (F.faults files.new) (B.faults body.new) (K.faults out.new)) }
{
    hand_on(alloc, machine, views, files, body, out, order, window)
}

// Hands the line to the part of its command, or writes the line of its fault.
fn hand_on<F: Files, B: Source, K: Sink>(
    alloc: Global,
    machine: &mut Machine,
    views: &mut [Option<Box<dyn TreeView>>],
    files: &mut F,
    body: &mut B,
    out: &mut K,
    order: &Order,
    window: Window,
) -> Result<(), Halt>
    requires room { window.first + window.count ≤ 8 }
    requires sound { Sound machine.old (F.seen files.old) }
    requires order { IsSoundLine order.now }
    ensures turn { (s : State) (text : List ℕ) → Stands machine.old (F.seen files.old) s → B.left body.old ≡ Some text → AreRight (λ b. rows b) window s views.old → Turn (λ b. rows b) (λ b. told b) window s (task order.now text) machine.new (F.seen files.new) (K.taken out.old) (K.taken out.new) views.old views.new result }
    ensures kept { Kept window order.now machine.old machine.new (outside (F.seen files.old) (F.asked files.old) (K.taken out.old) (counts (F.faults files.old) (B.faults body.old) (K.faults out.old))) (outside (F.seen files.new) (F.asked files.new) (K.taken out.new) (counts (F.faults files.new) (B.faults body.new) (K.faults out.new))) views.old views.new result }
    ensures same { B.origin body.new ≡ B.origin body.old }
{
    match order {
        Ok(command) => match part_of(command) {
            Part::Slots => serve_slot(alloc, machine, views, files, out, command, window),
            Part::Lines => serve_line(alloc, machine, views, out, command, window),
            Part::Searches => serve_search(alloc, machine, views, files, out, command, window),
            Part::Edits => serve_edit(alloc, machine, views, files, body, out, command, window),
            Part::Games => serve_demo(alloc, machine, views, files, out, command, window),
            Part::Marks => write_mark(machine, out, command),
            Part::Answers => write_answer(alloc, machine, out, command),
            Part::Texts => write_text(alloc, machine, files, body, out, command),
        },
        Err(fault) => say(out, fault_line(alloc, *fault)),
    }
}
