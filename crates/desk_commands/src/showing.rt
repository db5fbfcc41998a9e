//! The views of the other clients.
ghost use Rattle.std.specs.Prelude.{◌≡◌, ◌≤◌, ◌<◌, ◌+◌, ◌&&◌, if◌then◌else◌, ℕ, All, None, length, OnOk};
ghost use Rattle.base_files.specs.Seen.{Seen};
ghost use Rattle.filter_seat.specs.Seats.{FitsGames};
ghost use Rattle.shell_state.specs.Slots.{slot_at};
ghost use Rattle.shell_state.specs.Stands.{Stands, TablesFit};
ghost use Rattle.shell_state.specs.State.{State};
ghost use Rattle.tree_live.specs.Slots.{in_slot};
ghost use Rattle.view_commands.specs.Views.{AreLeft, AreRight, AreToldAtMost, changes_of, is_own, is_shown};
ghost use Rattle.desk_commands.specs.Desk.{Desk as PlainDesk, seen_by, window_of};
ghost use Rattle.desk_commands.specs.Showing.{AreRightTo, AreShownTo, IsLater, ShownOne, but_one};
ghost use Rattle.desk_commands.specs.Standing.{seat_of, seats_of, with_seat};

use crate::seats::change_seats;
use crate::sitting::window_of;
use filter_seat::Seat;
use script_lines::Clients;
use shell_state::Machine;
use std::alloc::{AllocError, Global};
use tree_live::TreeView;
use view_commands::{Window, show};

// No slot past the eighth shows a tree. Nothing is done.
pub(crate) fn keeps_eight(machine: &Machine)
    ensures eight { (i : ℕ) → 8 ≤ i → in_slot machine.now.tables.hits i ≡ None }
{
    let _board = machine.slots.watched(0);
}

// How many clients there are.
pub(crate) fn clients_of(tagged: bool) -> u8
    ensures number { result ≡ (if tagged then 4 else 1) }
{
    if tagged { 4 } else { 1 }
}

// Tells the views of all clients but one the rows that differ.
pub(crate) fn show_others(
    alloc: Global,
    machine: &mut Machine,
    seats: &mut [Seat],
    clients: &Clients,
    views: &mut [Option<Box<dyn TreeView>>],
    by: u8,
) -> Result<(), AllocError>
    requires fits { All (λ seat. FitsGames seat (length machine.old.kept.entries)) (seats_of seats.old) }
    requires tables { TablesFit machine.old }
    requires number { length seats.old ≡ (if clients.now.tagged then 4 else 1) }
    ensures machine { OnOk result (machine.new ≡ machine.old) }
    ensures seats { OnOk result (seats_of seats.new ≡ seats_of seats.old) }
    ensures shown { (seen : Seen) (d later : PlainDesk) → ((client : ℕ) → Stands (with_seat machine.old (seen_by later client).seat) seen (seen_by later client)) → seats_of seats.old ≡ later.seats → clients.now ≡ d.clients → IsLater d later → AreRightTo (λ b. rows b) (but_one by (length seats.old)) d views.old → OnOk result (AreShownTo (λ b. rows b) (λ b. told b) (but_one by (length seats.old)) d later views.old views.new) }
    ensures left { (seen : Seen) (d later : PlainDesk) → ((client : ℕ) → Stands (with_seat machine.old (seen_by later client).seat) seen (seen_by later client)) → seats_of seats.old ≡ later.seats → clients.now ≡ d.clients → IsLater d later → AreLeft (λ i. is_shown (slot_at d.slots i)) views.old views.new }
    ensures number { length views.new ≡ length views.old }
    ensures same { length seats.new ≡ length seats.old }
{
    let number = clients_of(clients.is_tagged());
    for client in 0..number {
        show_next(alloc, machine, seats, clients, views, by, client)?;
    }
    Ok(())
}

// Tells the views of the next client, unless it is the one that spoke.
fn show_next(
    alloc: Global,
    machine: &mut Machine,
    seats: &mut [Seat],
    clients: &Clients,
    views: &mut [Option<Box<dyn TreeView>>],
    by: u8,
    client: u8,
) -> Result<(), AllocError>
    requires fits { All (λ seat. FitsGames seat (length machine.old.kept.entries)) (seats_of seats.old) }
    requires tables { TablesFit machine.old }
    requires there { client < length seats.old }
    requires few { client < 4 }
    ensures machine { OnOk result (machine.new ≡ machine.old) }
    ensures seats { OnOk result (seats_of seats.new ≡ seats_of seats.old) }
    ensures passed { client ≡ by → views.new ≡ views.old }
    ensures shown { (seen : Seen) (d later : PlainDesk) → (client ≡ by → ⊥) → Stands (with_seat machine.old (seen_by later client).seat) seen (seen_by later client) → seats_of seats.old ≡ later.seats → clients.now ≡ d.clients → IsLater d later → AreRight (λ b. rows b) (window_of d.clients client) (seen_by d client) views.old → OnOk result (ShownOne (λ b. rows b) (λ b. told b) client d later views.old views.new) }
    ensures left { (seen : Seen) (later : PlainDesk) → Stands (with_seat machine.old (seen_by later client).seat) seen (seen_by later client) → seats_of seats.old ≡ later.seats → AreLeft (λ i. is_shown (slot_at later.slots i)) views.old views.new }
    ensures number { length views.new ≡ length views.old }
    ensures same { length seats.new ≡ length seats.old }
{
    if client == by {
        return Ok(());
    }
    let place = client as usize;
    let seat = &mut seats[place];
    show_to(alloc, machine, seat, views, window_of(clients, client))
}

// Tells those of one client.
fn show_to(
    alloc: Global,
    machine: &mut Machine,
    seat: &mut Seat,
    views: &mut [Option<Box<dyn TreeView>>],
    window: Window,
) -> Result<(), AllocError>
    requires fits { FitsGames (seat_of seat.old) (length machine.old.kept.entries) }
    requires tables { TablesFit machine.old }
    requires room { window.first + window.count ≤ 8 }
    ensures machine { OnOk result (machine.new ≡ machine.old) }
    ensures seat { OnOk result (seat_of seat.new ≡ seat_of seat.old) }
    ensures right { (seen : Seen) (earlier s : State) → Stands (with_seat machine.old (seat_of seat.old)) seen s → s.slots ≡ earlier.slots → AreRight (λ b. rows b) window earlier views.old → OnOk result (AreRight (λ b. rows b) window s views.new) }
    ensures told { (seen : Seen) (earlier s : State) → Stands (with_seat machine.old (seat_of seat.old)) seen s → s.slots ≡ earlier.slots → AreRight (λ b. rows b) window earlier views.old → OnOk result (AreToldAtMost (λ b. told b) (λ i. if is_own window i then changes_of earlier s (slot_at s.slots i) else 0) views.old views.new) }
    ensures left { (seen : Seen) (s : State) → Stands (with_seat machine.old (seat_of seat.old)) seen s → AreLeft (λ i. is_own window i && is_shown (slot_at s.slots i)) views.old views.new }
    ensures others { AreLeft (is_own window) views.old views.new }
    ensures number { length views.new ≡ length views.old }
{
    change_seats(machine, seat);
    show(alloc, machine, views, window)?;
    change_seats(machine, seat);
    Ok(())
}
