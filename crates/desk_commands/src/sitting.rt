//! What a line does for the client that says it, while the client sits in the machine.
ghost use Rattle.std.specs.Prelude.{◌≡◌, ◌≤◌, ◌<◌, ◌+◌, if◌then◌else◌, [], ℕ, List, Some, false, length, OnOk, IfErr};
ghost use Rattle.base_files.specs.Told.{adds};
ghost use Rattle.command_runs.specs.Counts.{Causes, counts};
ghost use Rattle.command_runs.specs.Endings.{Halted, NoneLost, Serves};
ghost use Rattle.script_lines.specs.Clients.{has_ended};
ghost use Rattle.script_text.specs.Sound.{IsSoundLine};
ghost use Rattle.script_text.specs.Tasks.{task};
ghost use Rattle.shell_commands.specs.Tasks.{BrokenTask, SettledTask, order_left, order_price, order_writes, tasks, writes_early};
ghost use Rattle.shell_commands.specs.Watching.{ViewsDone, touches};
ghost use Rattle.shell_state.specs.Carrying.{StillCarry};
ghost use Rattle.shell_state.specs.Ends.{Unsaid};
ghost use Rattle.shell_state.specs.Stands.{Sound, Stands, WhyHalt};
ghost use Rattle.shell_state.specs.State.{State};
ghost use Rattle.command_runs.specs.Rendered.{Rendered, no_text, opening, said};
ghost use Rattle.command_runs.specs.Tagged.{tagged};
ghost use Rattle.view_commands.specs.Views.{AreLeft, AreRight, is_own};
ghost use Rattle.desk_commands.specs.Desk.{Desk as PlainDesk, desk_by, lines_to, own_tasks, seen_by, window_of};
ghost use Rattle.desk_commands.specs.Doing.{ended};
ghost use Rattle.desk_commands.specs.Standing.{DeskSound, DeskStands};
ghost use Rattle.desk_commands.specs.Views.{AllRight};

use crate::desk::Desk;
use crate::moving::Before;
use crate::saying::client_tag;
use crate::seats::{bring, change_seats};
use base_files::{Files, Sink, Source, Stop};
use command_runs::{Opens, TagPage, TaggedSink, Way};
use script_lines::{Clients, Order};
use shell_commands::serve;
use shell_state::{Halt, Machine};
use std::alloc::Global;
use std::marker::Brand;
use tree_live::TreeView;
use view_commands::Window;

// The slots that are a client's own.
pub(crate) fn window_of(clients: &Clients, client: u8) -> Window
    requires client { client < 4 }
    ensures window { result ≡ window_of clients.now client }
    ensures room { result.first + result.count ≤ 8 }
{
    if clients.is_tagged() {
        Window {
            first: client + client,
            count: 2,
        }
    } else {
        Window::all()
    }
}

// Does what a line says for its client, which it finds in its seat, and brings it to the others. Nothing is shown to
// them.
pub(crate) fn serve_seated<F: Files, B: Source, K: Sink>(
    alloc: Global,
    desk: &mut Desk,
    views: &mut [Option<Box<dyn TreeView>>],
    files: &mut F,
    body: &mut B,
    out: &mut K,
    client: u8,
    order: &Order,
) -> Result<(), Halt>
    requires sound { DeskSound desk.old (F.seen files.old) }
    requires order { IsSoundLine order.now }
    requires client { client < 4 }
    requires speaks { has_ended desk.old.clients client ≡ false }
    ensures there { client < length desk.old.seats }
    ensures seated { client < length desk.new.seats }
    ensures room { client < (if desk.old.clients.tagged then 4 else 1) }
    ensures stands { (d : PlainDesk) (text : List ℕ) → DeskStands desk.old (F.seen files.old) d → B.left body.old ≡ Some text → AllRight (λ b. rows b) d views.old → OnOk result (DeskStands desk.new (F.seen files.new) (desk_by d client (task order.now text))) }
    ensures written { (d : PlainDesk) (text : List ℕ) → DeskStands desk.old (F.seen files.old) d → B.left body.old ≡ Some text → AllRight (λ b. rows b) d views.old → OnOk result (K.taken out.new ≡ adds (K.taken out.old) (lines_to d.clients client ((own_tasks d client).text (seen_by d client) (task order.now text)))) }
    ensures halted { (d : PlainDesk) (text : List ℕ) → DeskStands desk.old (F.seen files.old) d → B.left body.old ≡ Some text → AllRight (λ b. rows b) d views.old → Halted [] (lines_to d.clients client ((own_tasks d client).text (seen_by d client) (task order.now text))) (K.taken out.old) (K.taken out.new) }
    ensures broken { (d : PlainDesk) (text : List ℕ) → DeskStands desk.old (F.seen files.old) d → B.left body.old ≡ Some text → AllRight (λ b. rows b) d views.old → IfErr result (λ e. BrokenTask (window_of d.clients client) (seen_by d client) (task order.now text) e (lines_to d.clients client ((own_tasks d client).text (seen_by d client) (task order.now text))) (K.taken out.old) (K.taken out.new)) }
    ensures views { (d : PlainDesk) (text : List ℕ) → DeskStands desk.old (F.seen files.old) d → B.left body.old ≡ Some text → AllRight (λ b. rows b) d views.old → OnOk result (ViewsDone (λ b. rows b) (λ b. told b) (window_of d.clients client) (seen_by d client) (task order.now text) views.old views.new) }
    ensures left { (d : PlainDesk) (text : List ℕ) → DeskStands desk.old (F.seen files.old) d → B.left body.old ≡ Some text → AllRight (λ b. rows b) d views.old → AreLeft (touches (window_of d.clients client) (seen_by d client) order.now) views.old views.new }
    ensures number { length views.new ≡ length views.old }
    ensures sound { OnOk result (DeskSound desk.new (F.seen files.new)) }
    ensures carries { (d : PlainDesk) (text : List ℕ) → DeskStands desk.old (F.seen files.old) d → B.left body.old ≡ Some text → AllRight (λ b. rows b) d views.old → StillCarry (F.seen files.new) (seen_by d client) (order_left order.now) }
    ensures settled { (d : PlainDesk) (text : List ℕ) → DeskStands desk.old (F.seen files.old) d → B.left body.old ≡ Some text → AllRight (λ b. rows b) d views.old → SettledTask (F.seen files.new) (window_of d.clients client) (seen_by d client) (task order.now text) (K.taken out.old) (K.taken out.new) }
    ensures unchanged { order_writes order.now ≡ false → F.seen files.new ≡ F.seen files.old }
    ensures choices { (F.seen files.new).choices ≡ (F.seen files.old).choices }
    ensures asks { (d : PlainDesk) → DeskStands desk.old (F.seen files.old) d → F.asked files.new ≤ F.asked files.old + order_price (seen_by d client) order.now }
    ensures same { B.origin body.new ≡ B.origin body.old }
    ensures unsaid { writes_early order.now ≡ false → IfErr result (λ e. Unsaid e (K.taken out.old) (K.taken out.new)) }
    ensures none_lost { NoneLost (K.taken out.old) (K.taken out.new) }
    ensures causes { Causes WhyHalt result (counts (F.faults files.old) (B.faults body.old) (K.faults out.old)) (counts (F.faults files.new) (B.faults body.new) (K.faults out.new)) }
    ensures clients { desk.new.clients ≡ desk.old.clients }
{
    let place = client as usize;
    let before = Before::of(alloc, &desk.machine, order)?;
    let seats = desk.seats.as_mut_slice();
    let machine = &mut desk.machine;
    change_seats(machine, &mut seats[place]);
    serve_client(
        alloc,
        machine,
        &mut desk.page,
        views,
        files,
        body,
        out,
        &desk.clients,
        client,
        order,
    )?;
    bring(alloc, machine, seats, place, &before, order)?;
    change_seats(machine, &mut seats[place]);
    Ok(())
}

// Does what a line says for the client that sits in the machine, and writes its text. If clients have tags, each line
// of the text stands behind the client's tag.
fn serve_client<F: Files, B: Source, K: Sink>(
    alloc: Global,
    machine: &mut Machine,
    page: &mut TagPage,
    views: &mut [Option<Box<dyn TreeView>>],
    files: &mut F,
    body: &mut B,
    out: &mut K,
    clients: &Clients,
    client: u8,
    order: &Order,
) -> Result<(), Halt>
    requires sound { Sound machine.old (F.seen files.old) }
    requires order { IsSoundLine order.now }
    requires client { client < 4 }
    ensures stands { (s : State) (text : List ℕ) → Stands machine.old (F.seen files.old) s → B.left body.old ≡ Some text → AreRight (λ b. rows b) (window_of clients.now client) s views.old → OnOk result (Stands machine.new (F.seen files.new) ((tasks (window_of clients.now client)).after s (task order.now text))) }
    ensures written { (s : State) (text : List ℕ) → Stands machine.old (F.seen files.old) s → B.left body.old ≡ Some text → AreRight (λ b. rows b) (window_of clients.now client) s views.old → OnOk result (K.taken out.new ≡ adds (K.taken out.old) (lines_to clients.now client ((tasks (window_of clients.now client)).text s (task order.now text)))) }
    ensures halted { (s : State) (text : List ℕ) → Stands machine.old (F.seen files.old) s → B.left body.old ≡ Some text → AreRight (λ b. rows b) (window_of clients.now client) s views.old → Halted [] (lines_to clients.now client ((tasks (window_of clients.now client)).text s (task order.now text))) (K.taken out.old) (K.taken out.new) }
    ensures broken { (s : State) (text : List ℕ) → Stands machine.old (F.seen files.old) s → B.left body.old ≡ Some text → AreRight (λ b. rows b) (window_of clients.now client) s views.old → IfErr result (λ e. BrokenTask (window_of clients.now client) s (task order.now text) e (lines_to clients.now client ((tasks (window_of clients.now client)).text s (task order.now text))) (K.taken out.old) (K.taken out.new)) }
    ensures views { (s : State) (text : List ℕ) → Stands machine.old (F.seen files.old) s → B.left body.old ≡ Some text → AreRight (λ b. rows b) (window_of clients.now client) s views.old → OnOk result (ViewsDone (λ b. rows b) (λ b. told b) (window_of clients.now client) s (task order.now text) views.old views.new) }
    ensures left { (s : State) (text : List ℕ) → Stands machine.old (F.seen files.old) s → B.left body.old ≡ Some text → AreRight (λ b. rows b) (window_of clients.now client) s views.old → AreLeft (touches (window_of clients.now client) s order.now) views.old views.new }
    ensures number { length views.new ≡ length views.old }
    ensures sound { OnOk result (Sound machine.new (F.seen files.new)) }
    ensures carries { (s : State) (text : List ℕ) → Stands machine.old (F.seen files.old) s → B.left body.old ≡ Some text → AreRight (λ b. rows b) (window_of clients.now client) s views.old → StillCarry (F.seen files.new) s (order_left order.now) }
    ensures settled { (s : State) (text : List ℕ) → Stands machine.old (F.seen files.old) s → B.left body.old ≡ Some text → AreRight (λ b. rows b) (window_of clients.now client) s views.old → SettledTask (F.seen files.new) (window_of clients.now client) s (task order.now text) (K.taken out.old) (K.taken out.new) }
    ensures unchanged { order_writes order.now ≡ false → F.seen files.new ≡ F.seen files.old }
    ensures choices { (F.seen files.new).choices ≡ (F.seen files.old).choices }
    ensures asks { (s : State) → Stands machine.old (F.seen files.old) s → F.asked files.new ≤ F.asked files.old + order_price s order.now }
    ensures same { B.origin body.new ≡ B.origin body.old }
    ensures unsaid { writes_early order.now ≡ false → IfErr result (λ e. Unsaid e (K.taken out.old) (K.taken out.new)) }
    ensures none_lost { NoneLost (K.taken out.old) (K.taken out.new) }
    ensures causes { Causes WhyHalt result (counts (F.faults files.old) (B.faults body.old) (K.faults out.old)) (counts (F.faults files.new) (B.faults body.new) (K.faults out.new)) }
{
    let window = window_of(clients, client);
    if clients.is_tagged() {
        let tag = client_tag(client);
        serve_tagged(
            alloc, machine, page, views, files, body, out, &tag, window, order,
        )
    } else {
        serve(alloc, machine, views, files, body, out, order, window)
    }
}

// The same for a client with this tag.
fn serve_tagged<F: Files, B: Source, K: Sink>(
    alloc: Global,
    machine: &mut Machine,
    page: &mut TagPage,
    views: &mut [Option<Box<dyn TreeView>>],
    files: &mut F,
    body: &mut B,
    out: &mut K,
    tag: &[u8],
    window: Window,
    order: &Order,
) -> Result<(), Halt>
    requires sound { Sound machine.old (F.seen files.old) }
    requires order { IsSoundLine order.now }
    requires room { window.first + window.count ≤ 8 }
    ensures stands { (s : State) (text : List ℕ) → Stands machine.old (F.seen files.old) s → B.left body.old ≡ Some text → AreRight (λ b. rows b) window s views.old → OnOk result (Stands machine.new (F.seen files.new) ((tasks window).after s (task order.now text))) }
    ensures written { (s : State) (text : List ℕ) → Stands machine.old (F.seen files.old) s → B.left body.old ≡ Some text → AreRight (λ b. rows b) window s views.old → OnOk result (K.taken out.new ≡ adds (K.taken out.old) (tagged tag.now ((tasks window).text s (task order.now text)))) }
    ensures halted { (s : State) (text : List ℕ) → Stands machine.old (F.seen files.old) s → B.left body.old ≡ Some text → AreRight (λ b. rows b) window s views.old → Halted [] (tagged tag.now ((tasks window).text s (task order.now text))) (K.taken out.old) (K.taken out.new) }
    ensures broken { (s : State) (text : List ℕ) → Stands machine.old (F.seen files.old) s → B.left body.old ≡ Some text → AreRight (λ b. rows b) window s views.old → IfErr result (λ e. BrokenTask window s (task order.now text) e (tagged tag.now ((tasks window).text s (task order.now text))) (K.taken out.old) (K.taken out.new)) }
    ensures views { (s : State) (text : List ℕ) → Stands machine.old (F.seen files.old) s → B.left body.old ≡ Some text → AreRight (λ b. rows b) window s views.old → OnOk result (ViewsDone (λ b. rows b) (λ b. told b) window s (task order.now text) views.old views.new) }
    ensures left { (s : State) (text : List ℕ) → Stands machine.old (F.seen files.old) s → B.left body.old ≡ Some text → AreRight (λ b. rows b) window s views.old → AreLeft (touches window s order.now) views.old views.new }
    ensures number { length views.new ≡ length views.old }
    ensures sound { OnOk result (Sound machine.new (F.seen files.new)) }
    ensures carries { (s : State) (text : List ℕ) → Stands machine.old (F.seen files.old) s → B.left body.old ≡ Some text → AreRight (λ b. rows b) window s views.old → StillCarry (F.seen files.new) s (order_left order.now) }
    ensures settled { (s : State) (text : List ℕ) → Stands machine.old (F.seen files.old) s → B.left body.old ≡ Some text → AreRight (λ b. rows b) window s views.old → SettledTask (F.seen files.new) window s (task order.now text) (K.taken out.old) (K.taken out.new) }
    ensures unchanged { order_writes order.now ≡ false → F.seen files.new ≡ F.seen files.old }
    ensures choices { (F.seen files.new).choices ≡ (F.seen files.old).choices }
    ensures asks { (s : State) → Stands machine.old (F.seen files.old) s → F.asked files.new ≤ F.asked files.old + order_price s order.now }
    ensures same { B.origin body.new ≡ B.origin body.old }
    ensures unsaid { writes_early order.now ≡ false → IfErr result (λ e. Unsaid e (K.taken out.old) (K.taken out.new)) }
    ensures none_lost { NoneLost (K.taken out.old) (K.taken out.new) }
    ensures causes { Causes WhyHalt result (counts (F.faults files.old) (B.faults body.old) (K.faults out.old)) (counts (F.faults files.new) (B.faults body.new) (K.faults out.new)) }
{
    let way = Way { out, page, tag };
    let (way, served) = serve_behind::<Brand, F, B, K>(
        alloc, machine, views, files, body, way, order, window,
    );
    let Way { out, page, .. } = way;
    // What it wrote before it was broken off goes out too, if it can.
    let flushed = page.flush(out);
    ended(served, flushed)
}

// How a line ends: as its command, or as the write of the end of its text.
fn ended(served: Result<(), Halt>, flushed: Result<(), Stop>) -> Result<(), Halt>
    ensures ended { result ≡ ended served flushed }
{
    match served {
        Ok(()) => match flushed {
            Ok(()) => Ok(()),
            Err(stop) => Err(Halt::Device(stop)),
        },
        Err(halt) => Err(halt),
    }
}

// The same over the way of its text, which it gives back with the end of the text on the page.
fn serve_behind<'o, 'p, 't, O: Opens, F: Files, B: Source, K: Sink>(
    alloc: Global,
    machine: &mut Machine,
    views: &mut [Option<Box<dyn TreeView>>],
    files: &mut F,
    body: &mut B,
    way: Way<'o, 'p, 't, K>,
    order: &Order,
    window: Window,
) -> (Way<'o, 'p, 't, K>, Result<(), Halt>)
    requires begins { O.opening ≡ opening way.tag.now (K.taken way.out.now) (K.faults way.out.now) way.out.ghost_name way.page.ghost_name }
    requires sound { Sound machine.old (F.seen files.old) }
    requires order { IsSoundLine order.now }
    requires room { window.first + window.count ≤ 8 }
    ensures serves { (s : State) (text : List ℕ) → Stands machine.old (F.seen files.old) s → B.left body.old ≡ Some text → AreRight (λ b. rows b) window s views.old → Serves (tasks window) (Stands machine.new (F.seen files.new)) (BrokenTask window) s (task order.now text) (no_text O.opening.told) (said O.opening (K.taken result.0.out.now) result.0.page.now) result.1 }
    ensures views { (s : State) (text : List ℕ) → Stands machine.old (F.seen files.old) s → B.left body.old ≡ Some text → AreRight (λ b. rows b) window s views.old → OnOk result.1 (ViewsDone (λ b. rows b) (λ b. told b) window s (task order.now text) views.old views.new) }
    ensures left { (s : State) (text : List ℕ) → Stands machine.old (F.seen files.old) s → B.left body.old ≡ Some text → AreRight (λ b. rows b) window s views.old → AreLeft (touches window s order.now) views.old views.new }
    ensures number { length views.new ≡ length views.old }
    ensures sound { OnOk result.1 (Sound machine.new (F.seen files.new)) }
    ensures carries { (s : State) → Stands machine.old (F.seen files.old) s → IfErr result.1 (λ _. StillCarry (F.seen files.new) s (order_left order.now)) }
    ensures settled { (s : State) (text : List ℕ) → Stands machine.old (F.seen files.old) s → B.left body.old ≡ Some text → IfErr result.1 (λ _. SettledTask (F.seen files.new) window s (task order.now text) (no_text O.opening.told) (said O.opening (K.taken result.0.out.now) result.0.page.now)) }
    ensures unsaid { writes_early order.now ≡ false → IfErr result.1 (λ e. Unsaid e (no_text O.opening.told) (said O.opening (K.taken result.0.out.now) result.0.page.now)) }
    ensures unchanged { order_writes order.now ≡ false → F.seen files.new ≡ F.seen files.old }
    ensures choices { (F.seen files.new).choices ≡ (F.seen files.old).choices }
    ensures asks { (s : State) → Stands machine.old (F.seen files.old) s → F.asked files.new ≤ F.asked files.old + order_price s order.now }
    ensures same { B.origin body.new ≡ B.origin body.old }
    ensures causes { Causes WhyHalt result.1 (counts (F.faults files.old) (B.faults body.old) 0) (counts (F.faults files.new) (B.faults body.new) result.0.page.now.faults) }
    ensures rendered { Rendered O.opening (K.taken result.0.out.now) (K.faults result.0.out.now) result.0.page.now }
    ensures out { result.0.out.ghost_name ≡ way.entry.out.ghost_name }
    ensures page { result.0.page.ghost_name ≡ way.entry.page.ghost_name }
{
    let mut sink: TaggedSink<'o, 'p, 't, K, O> = TaggedSink::open(way);
    let result = serve(alloc, machine, views, files, body, &mut sink, order, window);
    (sink.close(), result)
}
