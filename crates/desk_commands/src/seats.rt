//! The seats of the clients: who sits in the machine, and what a line of one brings to the others.
ghost use Rattle.std.specs.Prelude.{◌≡◌, ◌<◌, ◌+◌, ℕ, List, All, drop, length, map, take, OnOk};
ghost use Rattle.base_core.specs.Base.{Base as PlainBase};
ghost use Rattle.base_core.specs.Represents.{Kept, Represents};
ghost use Rattle.filter_seat.specs.Following.{CanFollow, seat_after, told_by};
ghost use Rattle.filter_seat.specs.Seats.{FitsGames};
ghost use Rattle.desk_commands.specs.Desk.{brought};
ghost use Rattle.desk_commands.specs.Doing.{IsNoted};
ghost use Rattle.desk_commands.specs.Standing.{seat_of, seats_of, with_seat};

use crate::moving::Before;
use filter_seat::{Moved, Seat, follow};
use script_lines::Order;
use shell_state::Machine;
use std::alloc::{AllocError, Global};
use std::mem::swap;

// The client whose seat this is sits down in the machine, and whoever sat there gets up.
pub(crate) fn change_seats(machine: &mut Machine, seat: &mut Seat)
    ensures machine { machine.new ≡ with_seat machine.old (seat_of seat.old) }
    ensures seat { seat_of seat.new ≡ machine.old.seat }
{
    swap(&mut machine.seat, seat);
}

// Brings what a line of a client has done to the seats of the others.
pub(crate) fn bring(
    alloc: Global,
    machine: &Machine,
    seats: &mut [Seat],
    client: usize,
    before: &Before,
    order: &Order,
) -> Result<(), AllocError>
    requires there { client < length seats.old }
    requires fits_before { All (λ seat. FitsGames seat before.now.games) (take client (seats_of seats.old)) }
    requires fits_behind { All (λ seat. FitsGames seat before.now.games) (drop (client + 1) (seats_of seats.old)) }
    ensures fits_before { OnOk result (All (λ seat. FitsGames seat (length machine.now.kept.entries)) (take client (seats_of seats.new))) }
    ensures fits_behind { OnOk result (All (λ seat. FitsGames seat (length machine.now.kept.entries)) (drop (client + 1) (seats_of seats.new))) }
    ensures brought_before { (old : Kept) (games later : List ℕ) (base after : PlainBase) → IsNoted old order.now before.now → Represents old games base → Represents machine.now.kept later after → OnOk result (take client (seats_of seats.new) ≡ map (brought order.now base after) (take client (seats_of seats.old))) }
    ensures brought_behind { (old : Kept) (games later : List ℕ) (base after : PlainBase) → IsNoted old order.now before.now → Represents old games base → Represents machine.now.kept later after → OnOk result (drop (client + 1) (seats_of seats.new) ≡ map (brought order.now base after) (drop (client + 1) (seats_of seats.old))) }
    ensures number { length seats.new ≡ length seats.old }
{
    let moved = before.moved(machine, order);
    if !moved.leads(before.games, machine.games()) {
        // Only files that tell nothing may leave other games than the filters can follow.
        return Err(AllocError);
    }
    follow_others(alloc, seats, client, &moved)
}

// The seats follow what moved, but for that of one client.
fn follow_others(
    alloc: Global,
    seats: &mut [Seat],
    client: usize,
    moved: &Moved<'_>,
) -> Result<(), AllocError>
    requires there { client < length seats.old }
    requires follows { (games : ℕ) × (CanFollow (told_by moved.now) games × (All (λ seat. FitsGames seat games) (take client (seats_of seats.old)) × All (λ seat. FitsGames seat games) (drop (client + 1) (seats_of seats.old)))) }
    ensures before { OnOk result (take client (seats_of seats.new) ≡ map (seat_after (told_by moved.now)) (take client (seats_of seats.old))) }
    ensures behind { OnOk result (drop (client + 1) (seats_of seats.new) ≡ map (seat_after (told_by moved.now)) (drop (client + 1) (seats_of seats.old))) }
    ensures number { length seats.new ≡ length seats.old }
{
    follow_all(alloc, &mut seats[..client], moved)?;
    follow_all(alloc, &mut seats[client + 1..], moved)
}

// All of them follow it.
fn follow_all(alloc: Global, seats: &mut [Seat], moved: &Moved<'_>) -> Result<(), AllocError>
    requires follows { (games : ℕ) × (CanFollow (told_by moved.now) games × All (λ seat. FitsGames seat games) (seats_of seats.old)) }
    ensures follows { OnOk result (seats_of seats.new ≡ map (seat_after (told_by moved.now)) (seats_of seats.old)) }
    ensures number { length seats.new ≡ length seats.old }
{
    for seat in seats.iter_mut() {
        follow_one(alloc, seat, moved)?;
    }
    Ok(())
}

// One of them follows it.
fn follow_one(alloc: Global, seat: &mut Seat, moved: &Moved<'_>) -> Result<(), AllocError>
    requires follows { (games : ℕ) × (CanFollow (told_by moved.now) games × FitsGames (seat_of seat.old) games) }
    ensures follows { OnOk result (seat_of seat.new ≡ seat_after (told_by moved.now) (seat_of seat.old)) }
{
    let saved = seat.saved.as_mut_slice();
    follow(alloc, &mut seat.filter, saved, moved, None)
}
