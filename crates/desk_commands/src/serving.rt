//! What a line of a script does at a desk.
ghost use Rattle.std.specs.Prelude.{◌≡◌, ◌≤◌, ◌<◌, ◌+◌, ◌||◌, if◌then◌else◌, [], ℕ, List, All, true, false, Some, length, OnOk, IfErr, IfSome};
ghost use Rattle.base_files.specs.Told.{adds};
ghost use Rattle.base_files.specs.Seen.{Seen};
ghost use Rattle.base_files.specs.declared.faults.Stop.TheVariants as stop;
ghost use Rattle.command_runs.specs.Counts.{Causes, counts};
ghost use Rattle.command_runs.specs.Endings.{Halted, NoneLost, Serves};
ghost use Rattle.filter_seat.specs.Seats.{FitsGames};
ghost use Rattle.script_lines.specs.Clients.{has_ended, heard, tagged_task};
ghost use Rattle.script_text.specs.Sound.{IsSoundLine};
ghost use Rattle.script_text.specs.Tasks.{task};
ghost use Rattle.shell_commands.specs.Tasks.{BrokenTask, SettledTask, order_left, order_price, order_writes, writes_early};
ghost use Rattle.shell_commands.specs.Watching.{watches};
ghost use Rattle.shell_state.specs.Carrying.{StillCarry};
ghost use Rattle.shell_state.specs.Ends.{Unsaid};
ghost use Rattle.shell_state.specs.Slots.{slot_at};
ghost use Rattle.shell_state.specs.Stands.{TablesFit, WhyHalt};
ghost use Rattle.shell_state.specs.declared.halt.Halt.TheVariants as halt;
ghost use Rattle.view_commands.specs.Views.{AreLeft, AreToldAtMost, is_shown};
ghost use Rattle.desk_commands.specs.Desk.{Desk as PlainDesk, desk_by, desks, lines_to, own_tasks, seen_by, window_of};
ghost use Rattle.desk_commands.specs.Doing.{doings, most_told_by};
ghost use Rattle.desk_commands.specs.Kinds.{is_seen};
ghost use Rattle.desk_commands.specs.Showing.{AreRightTo, AreShownTo, IsLater, but_one};
ghost use Rattle.desk_commands.specs.Standing.{BrokenLine, DeskSound, DeskStands, SettledLine, line_left, line_price};
ghost use Rattle.desk_commands.specs.Views.{AllRight, LineShown, line_touches};

use crate::desk::Desk;
use crate::kinds::is_seen;
use crate::saying::{say_late, say_nobody};
use crate::showing::{keeps_eight, show_others};
use crate::sitting::serve_seated;
use base_files::{Files, Sink, Source};
use script_lines::{Line, Order};
use shell_state::Halt;
use std::alloc::Global;
use tree_live::TreeView;

/// Does what a line says for the client that says it, brings it to the others, and writes its text. If clients have
/// tags, each line of the text stands behind the client's tag. The views of all slots stay right. Nothing of `body` is
/// read for a line without a body, for a line of no client, or for one of a client that has ended.
pub fn serve<F: Files, B: Source, K: Sink>(
    alloc: Global,
    desk: &mut Desk,
    views: &mut [Option<Box<dyn TreeView>>],
    files: &mut F,
    body: &mut B,
    out: &mut K,
    line: &Line,
) -> Result<(), Halt>
    requires sound { DeskSound desk.old (F.seen files.old) }

    // Its edit, its mark or its streak is within its bounds, and its client is one of four, as of a line that was read.
    requires order { IsSoundLine line.now.order }
    requires client { IfSome line.now.client (λ client. client < 4) }

    // If the files and the body are told, and the views are right, the machine stands for the desk after the line and its text is written, or a
    // front part of it.
    ensures serves { (d : PlainDesk) (text : List ℕ) → DeskStands desk.old (F.seen files.old) d → B.left body.old ≡ Some text → AllRight (λ b. rows b) d views.old → Serves desks (DeskStands desk.new (F.seen files.new)) BrokenLine d (tagged_task line.now text) (K.taken out.old) (K.taken out.new) result }

    // Then the views are right beside it, and were told no more changes than rows differ. Views of slots that show nothing are as before.
    ensures views { (d : PlainDesk) (text : List ℕ) → DeskStands desk.old (F.seen files.old) d → B.left body.old ≡ Some text → AllRight (λ b. rows b) d views.old → OnOk result (LineShown (λ b. rows b) (λ b. told b) d (tagged_task line.now text) views.old views.new) }
    ensures left { (d : PlainDesk) (text : List ℕ) → DeskStands desk.old (F.seen files.old) d → B.left body.old ≡ Some text → AllRight (λ b. rows b) d views.old → AreLeft (line_touches d line.now) views.old views.new }
    ensures number { length views.new ≡ length views.old }
    ensures sound { OnOk result (DeskSound desk.new (F.seen files.new)) }

    // If it is broken off, the files carry what they carried, or perhaps what `save` saves or `compact` leaves.
    ensures carries { (d : PlainDesk) (text : List ℕ) → DeskStands desk.old (F.seen files.old) d → B.left body.old ≡ Some text → AllRight (λ b. rows b) d views.old → IfErr result (λ _. StillCarry (F.seen files.new) (seen_by d 0) (line_left d line.now)) }

    // If the files fail, nothing of its text was written, unless it writes while it works.
    ensures unsaid { writes_early line.now.order ≡ false → IfErr result (λ e. Unsaid e (K.taken out.old) (K.taken out.new)) }

    // If it is one that leaves a base in their place, nothing of its text was written before they carry that.
    ensures settled { (d : PlainDesk) (text : List ℕ) → DeskStands desk.old (F.seen files.old) d → B.left body.old ≡ Some text → AllRight (λ b. rows b) d views.old → IfErr result (λ _. SettledLine (F.seen files.new) d (tagged_task line.now text) (K.taken out.old) (K.taken out.new)) }

    // Whatever the files tell, they change by a line alone that may change them, and no base is chosen.
    ensures unchanged { order_writes line.now.order ≡ false → F.seen files.new ≡ F.seen files.old }
    ensures choices { (F.seen files.new).choices ≡ (F.seen files.old).choices }

    // It asks no more than its price.
    ensures asks { (d : PlainDesk) → DeskStands desk.old (F.seen files.old) d → F.asked files.new ≤ F.asked files.old + line_price d line.now }

    // The body goes on reading from where it read, and nothing is lost of what was written before.
    ensures same { B.origin body.new ≡ B.origin body.old }
    ensures none_lost { NoneLost (K.taken out.old) (K.taken out.new) }
    ensures causes { Causes WhyHalt result (counts (F.faults files.old) (B.faults body.old) (K.faults out.old)) (counts (F.faults files.new) (B.faults body.new) (K.faults out.new)) }

    // Who may speak then.
    ensures clients { OnOk result (desk.new.clients ≡ heard desk.old.clients line.now) }
{
    match done(alloc, desk, views, files, body, out, line) {
        Ok(()) => {
            desk.clients.hear(line);
            Ok(())
        }
        Err(halt) => Err(halt),
    }
}

// The same, before the clients hear the line.
#[tactic(auto, using(shell_state::proofs::Causing::unsaid_without))]
fn done<F: Files, B: Source, K: Sink>(
    alloc: Global,
    desk: &mut Desk,
    views: &mut [Option<Box<dyn TreeView>>],
    files: &mut F,
    body: &mut B,
    out: &mut K,
    line: &Line,
) -> Result<(), Halt>
    requires sound { DeskSound desk.old (F.seen files.old) }
    requires order { IsSoundLine line.now.order }
    requires client { IfSome line.now.client (λ client. client < 4) }
    ensures serves { (d : PlainDesk) (text : List ℕ) → DeskStands desk.old (F.seen files.old) d → B.left body.old ≡ Some text → AllRight (λ b. rows b) d views.old → Serves doings (DeskStands desk.new (F.seen files.new)) BrokenLine d (tagged_task line.now text) (K.taken out.old) (K.taken out.new) result }
    ensures views { (d : PlainDesk) (text : List ℕ) → DeskStands desk.old (F.seen files.old) d → B.left body.old ≡ Some text → AllRight (λ b. rows b) d views.old → OnOk result (LineShown (λ b. rows b) (λ b. told b) d (tagged_task line.now text) views.old views.new) }
    ensures left { (d : PlainDesk) (text : List ℕ) → DeskStands desk.old (F.seen files.old) d → B.left body.old ≡ Some text → AllRight (λ b. rows b) d views.old → AreLeft (line_touches d line.now) views.old views.new }
    ensures number { length views.new ≡ length views.old }
    ensures sound { OnOk result (DeskSound desk.new (F.seen files.new)) }
    ensures carries { (d : PlainDesk) (text : List ℕ) → DeskStands desk.old (F.seen files.old) d → B.left body.old ≡ Some text → AllRight (λ b. rows b) d views.old → IfErr result (λ _. StillCarry (F.seen files.new) (seen_by d 0) (line_left d line.now)) }
    ensures settled { (d : PlainDesk) (text : List ℕ) → DeskStands desk.old (F.seen files.old) d → B.left body.old ≡ Some text → AllRight (λ b. rows b) d views.old → IfErr result (λ _. SettledLine (F.seen files.new) d (tagged_task line.now text) (K.taken out.old) (K.taken out.new)) }
    ensures unchanged { order_writes line.now.order ≡ false → F.seen files.new ≡ F.seen files.old }
    ensures choices { (F.seen files.new).choices ≡ (F.seen files.old).choices }
    ensures asks { (d : PlainDesk) → DeskStands desk.old (F.seen files.old) d → F.asked files.new ≤ F.asked files.old + line_price d line.now }
    ensures same { B.origin body.new ≡ B.origin body.old }
    ensures unsaid { writes_early line.now.order ≡ false → IfErr result (λ e. Unsaid e (K.taken out.old) (K.taken out.new)) }
    ensures none_lost { NoneLost (K.taken out.old) (K.taken out.new) }
    ensures causes { Causes WhyHalt result (counts (F.faults files.old) (B.faults body.old) (K.faults out.old)) (counts (F.faults files.new) (B.faults body.new) (K.faults out.new)) }
    ensures clients { OnOk result (desk.new.clients ≡ desk.old.clients) }
{
    match line.client {
        Some(client) => done_by(alloc, desk, views, files, body, out, line, client),
        None => say_nobody(alloc, out, &line.order),
    }
}

// The same for the client who says it.
#[tactic(auto, using(shell_state::proofs::Causing::unsaid_without))]
fn done_by<F: Files, B: Source, K: Sink>(
    alloc: Global,
    desk: &mut Desk,
    views: &mut [Option<Box<dyn TreeView>>],
    files: &mut F,
    body: &mut B,
    out: &mut K,
    line: &Line,
    client: u8,
) -> Result<(), Halt>
    requires sound { DeskSound desk.old (F.seen files.old) }
    requires order { IsSoundLine line.now.order }
    requires client { client < 4 }
    requires says { line.now.client ≡ Some client }
    ensures serves { (d : PlainDesk) (text : List ℕ) → DeskStands desk.old (F.seen files.old) d → B.left body.old ≡ Some text → AllRight (λ b. rows b) d views.old → Serves doings (DeskStands desk.new (F.seen files.new)) BrokenLine d (tagged_task line.now text) (K.taken out.old) (K.taken out.new) result }
    ensures views { (d : PlainDesk) (text : List ℕ) → DeskStands desk.old (F.seen files.old) d → B.left body.old ≡ Some text → AllRight (λ b. rows b) d views.old → OnOk result (LineShown (λ b. rows b) (λ b. told b) d (tagged_task line.now text) views.old views.new) }
    ensures left { (d : PlainDesk) (text : List ℕ) → DeskStands desk.old (F.seen files.old) d → B.left body.old ≡ Some text → AllRight (λ b. rows b) d views.old → AreLeft (line_touches d line.now) views.old views.new }
    ensures number { length views.new ≡ length views.old }
    ensures sound { OnOk result (DeskSound desk.new (F.seen files.new)) }
    ensures carries { (d : PlainDesk) (text : List ℕ) → DeskStands desk.old (F.seen files.old) d → B.left body.old ≡ Some text → AllRight (λ b. rows b) d views.old → IfErr result (λ _. StillCarry (F.seen files.new) (seen_by d 0) (line_left d line.now)) }
    ensures settled { (d : PlainDesk) (text : List ℕ) → DeskStands desk.old (F.seen files.old) d → B.left body.old ≡ Some text → AllRight (λ b. rows b) d views.old → IfErr result (λ _. SettledLine (F.seen files.new) d (tagged_task line.now text) (K.taken out.old) (K.taken out.new)) }
    ensures unchanged { order_writes line.now.order ≡ false → F.seen files.new ≡ F.seen files.old }
    ensures choices { (F.seen files.new).choices ≡ (F.seen files.old).choices }
    ensures asks { (d : PlainDesk) → DeskStands desk.old (F.seen files.old) d → F.asked files.new ≤ F.asked files.old + line_price d line.now }
    ensures same { B.origin body.new ≡ B.origin body.old }
    ensures unsaid { writes_early line.now.order ≡ false → IfErr result (λ e. Unsaid e (K.taken out.old) (K.taken out.new)) }
    ensures none_lost { NoneLost (K.taken out.old) (K.taken out.new) }
    ensures causes { Causes WhyHalt result (counts (F.faults files.old) (B.faults body.old) (K.faults out.old)) (counts (F.faults files.new) (B.faults body.new) (K.faults out.new)) }
    ensures clients { OnOk result (desk.new.clients ≡ desk.old.clients) }
{
    let order = &line.order;
    if desk.clients.has_ended(client) {
        say_late(alloc, out, &mut desk.page, &desk.clients, client, order)
    } else {
        serve_by(alloc, desk, views, files, body, out, client, order)
    }
}

// Does what a line says for a client who has not ended, brings it to the others, and shows it to them.
#[tactic(auto, using(shell_state::proofs::Causing::unsaid_memory))]
fn serve_by<F: Files, B: Source, K: Sink>(
    alloc: Global,
    desk: &mut Desk,
    views: &mut [Option<Box<dyn TreeView>>],
    files: &mut F,
    body: &mut B,
    out: &mut K,
    client: u8,
    order: &Order,
) -> Result<(), Halt>
    requires sound { DeskSound desk.old (F.seen files.old) }
    requires order { IsSoundLine order.now }
    requires client { client < 4 }
    requires speaks { has_ended desk.old.clients client ≡ false }
    ensures stands { (d : PlainDesk) (text : List ℕ) → DeskStands desk.old (F.seen files.old) d → B.left body.old ≡ Some text → AllRight (λ b. rows b) d views.old → OnOk result (DeskStands desk.new (F.seen files.new) (desk_by d client (task order.now text))) }
    ensures written { (d : PlainDesk) (text : List ℕ) → DeskStands desk.old (F.seen files.old) d → B.left body.old ≡ Some text → AllRight (λ b. rows b) d views.old → OnOk result (K.taken out.new ≡ adds (K.taken out.old) (lines_to d.clients client ((own_tasks d client).text (seen_by d client) (task order.now text)))) }
    ensures halted { (d : PlainDesk) (text : List ℕ) → DeskStands desk.old (F.seen files.old) d → B.left body.old ≡ Some text → AllRight (λ b. rows b) d views.old → Halted [] (lines_to d.clients client ((own_tasks d client).text (seen_by d client) (task order.now text))) (K.taken out.old) (K.taken out.new) }
    ensures broken { (d : PlainDesk) (text : List ℕ) → DeskStands desk.old (F.seen files.old) d → B.left body.old ≡ Some text → AllRight (λ b. rows b) d views.old → IfErr result (λ e. BrokenTask (window_of d.clients client) (seen_by d client) (task order.now text) e (lines_to d.clients client ((own_tasks d client).text (seen_by d client) (task order.now text))) (K.taken out.old) (K.taken out.new)) }
    ensures right { (d : PlainDesk) (text : List ℕ) → DeskStands desk.old (F.seen files.old) d → B.left body.old ≡ Some text → AllRight (λ b. rows b) d views.old → OnOk result (AllRight (λ b. rows b) (desk_by d client (task order.now text)) views.new) }
    ensures counted { (d : PlainDesk) (text : List ℕ) → DeskStands desk.old (F.seen files.old) d → B.left body.old ≡ Some text → AllRight (λ b. rows b) d views.old → OnOk result (AreToldAtMost (λ b. told b) (most_told_by d client (task order.now text)) views.old views.new) }
    ensures left { (d : PlainDesk) (text : List ℕ) → DeskStands desk.old (F.seen files.old) d → B.left body.old ≡ Some text → AllRight (λ b. rows b) d views.old → AreLeft (λ i. is_shown (slot_at d.slots i) || watches (window_of d.clients client) order.now i) views.old views.new }
    ensures number { length views.new ≡ length views.old }
    ensures sound { OnOk result (DeskSound desk.new (F.seen files.new)) }
    ensures carries { (d : PlainDesk) (text : List ℕ) → DeskStands desk.old (F.seen files.old) d → B.left body.old ≡ Some text → AllRight (λ b. rows b) d views.old → StillCarry (F.seen files.new) (seen_by d client) (order_left order.now) }
    ensures settled { (d : PlainDesk) (text : List ℕ) → DeskStands desk.old (F.seen files.old) d → B.left body.old ≡ Some text → AllRight (λ b. rows b) d views.old → SettledTask (F.seen files.new) (window_of d.clients client) (seen_by d client) (task order.now text) (K.taken out.old) (K.taken out.new) }
    ensures unchanged { order_writes order.now ≡ false → F.seen files.new ≡ F.seen files.old }
    ensures choices { (F.seen files.new).choices ≡ (F.seen files.old).choices }
    ensures asks { (d : PlainDesk) → DeskStands desk.old (F.seen files.old) d → F.asked files.new ≤ F.asked files.old + order_price (seen_by d client) order.now }
    ensures same { B.origin body.new ≡ B.origin body.old }
    ensures unsaid { writes_early order.now ≡ false → IfErr result (λ e. Unsaid e (K.taken out.old) (K.taken out.new)) }
    ensures none_lost { NoneLost (K.taken out.old) (K.taken out.new) }
    ensures causes { Causes WhyHalt result (counts (F.faults files.old) (B.faults body.old) (K.faults out.old)) (counts (F.faults files.new) (B.faults body.new) (K.faults out.new)) }
    ensures clients { desk.new.clients ≡ desk.old.clients }
{
    keeps_eight(&desk.machine);
    match serve_seated(alloc, desk, views, files, body, out, client, order) {
        Ok(()) => show_after(alloc, desk, views, client, order),
        Err(halt) => Err(halt),
    }
}

// Shows the others what a client has done, if they may see it in their trees.
fn show_after(
    alloc: Global,
    desk: &mut Desk,
    views: &mut [Option<Box<dyn TreeView>>],
    client: u8,
    order: &Order,
) -> Result<(), Halt>
    requires fits { All (λ seat. FitsGames seat (length desk.old.holding.kept.entries)) desk.old.seats }
    requires tables { TablesFit desk.old.holding }
    ensures same { OnOk result (desk.new ≡ desk.old) }
    ensures clients { desk.new.clients ≡ desk.old.clients }
    ensures unseen { is_seen order.now ≡ false → views.new ≡ views.old }
    ensures shown { (seen : Seen) (d later : PlainDesk) → is_seen order.now ≡ true → DeskStands desk.old seen later → IsLater d later → AreRightTo (λ b. rows b) (but_one client (if d.clients.tagged then 4 else 1)) d views.old → OnOk result (AreShownTo (λ b. rows b) (λ b. told b) (but_one client (if d.clients.tagged then 4 else 1)) d later views.old views.new) }
    ensures left { (seen : Seen) (d later : PlainDesk) → is_seen order.now ≡ true → DeskStands desk.old seen later → IsLater d later → AreLeft (λ i. is_shown (slot_at d.slots i)) views.old views.new }
    ensures number { length views.new ≡ length views.old }
    ensures memory { IfErr result (λ e. e ≡ halt.Device stop.Memory) }
{
    if is_seen(order) {
        show_all(alloc, desk, views, client)
    } else {
        Ok(())
    }
}

// Shows it to all of them.
fn show_all(
    alloc: Global,
    desk: &mut Desk,
    views: &mut [Option<Box<dyn TreeView>>],
    client: u8,
) -> Result<(), Halt>
    requires fits { All (λ seat. FitsGames seat (length desk.old.holding.kept.entries)) desk.old.seats }
    requires tables { TablesFit desk.old.holding }
    ensures same { OnOk result (desk.new ≡ desk.old) }
    ensures clients { desk.new.clients ≡ desk.old.clients }
    ensures shown { (seen : Seen) (d later : PlainDesk) → DeskStands desk.old seen later → IsLater d later → AreRightTo (λ b. rows b) (but_one client (if d.clients.tagged then 4 else 1)) d views.old → OnOk result (AreShownTo (λ b. rows b) (λ b. told b) (but_one client (if d.clients.tagged then 4 else 1)) d later views.old views.new) }
    ensures left { (seen : Seen) (d later : PlainDesk) → DeskStands desk.old seen later → IsLater d later → AreLeft (λ i. is_shown (slot_at d.slots i)) views.old views.new }
    ensures number { length views.new ≡ length views.old }
    ensures memory { IfErr result (λ e. e ≡ halt.Device stop.Memory) }
{
    let seats = desk.seats.as_mut_slice();
    show_others(
        alloc,
        &mut desk.machine,
        seats,
        &desk.clients,
        views,
        client,
    )?;
    Ok(())
}
