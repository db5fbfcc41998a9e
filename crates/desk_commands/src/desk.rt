//! The machine of a desk.
ghost use Rattle.std.specs.Prelude.{◌≡◌, ◌<◌, ℕ, if◌then◌else◌, Bool, List, false, length, replicate, IfOk};
ghost use Rattle.base_core.specs.Base.{Base as PlainBase};
ghost use Rattle.base_files.specs.Seen.{Seen};
ghost use Rattle.block_store.specs.Placing.{IsEnd};
ghost use Rattle.filter_seat.specs.Seats.{first_seat};
ghost use Rattle.script_lines.specs.Clients.{has_ended, new_clients};
ghost use Rattle.shell_state.specs.Slots.{Slot};
ghost use Rattle.shell_state.specs.Stands.{Begins, IsOpen, ShowNone};
ghost use Rattle.desk_commands.specs.Desk.{desk_begin};
ghost use Rattle.desk_commands.specs.Standing.{DeskSound, DeskStands, seat_of, seats_of, with_seat};

use crate::seats::change_seats;
use crate::showing::clients_of;
use base_core::Base;
use command_runs::TagPage;
use filter_seat::Seat;
use game_filter::Filter;
use script_lines::Clients;
use shell_state::Machine;
use std::alloc::{AllocError, Global};
use std::marker::Model;

/// An open base with what all its clients share, and the seat of each of them. The client whose line is done sits in the machine; else nobody
/// does.
#[derive(Drop)]
pub struct Desk {
    pub(crate) machine: Machine,
    pub(crate) seats: Vec<Seat>,
    pub(crate) clients: Clients,
    // Text of a client with its tags, before it is written, in room that is taken when the desk is made.
    pub(crate) page: TagPage,
}

impl Model for Desk {
    ghost use Rattle.std.specs.Prelude.{◌≡◌, ◌<◌, ℕ, false, length, if◌then◌else◌};
    ghost use Rattle.script_lines.specs.Clients.{has_ended};
    ghost use Rattle.desk_commands.specs.Standing.{DeskHolding, seats_of};

    ghost Value = { DeskHolding };

    ghost view = { λ desk. record { holding = desk.machine; seats = seats_of desk.seats.items; clients = desk.clients } };

    ghost invariant = { λ desk. (length desk.seats.items ≡ (if desk.clients.tagged then 4 else 1)) × ((client : ℕ) → has_ended desk.clients client ≡ false → client < length desk.seats.items) };
}

impl Desk {
    /// The desk over a base that was opened, where nobody has spoken: for each client every game is in, no filter is kept, and no slot shows a tree. `block` holds
    /// 131,072 bytes.
    pub fn new(
        alloc: Global,
        base: Base,
        block: Vec<u8>,
        clients: Clients,
    ) -> Result<Desk, AllocError>
        requires room { length block.items ≡ 131072 }
        requires new { clients ≡ new_clients clients.tagged }
        ensures clients { IfOk result (λ desk. desk.clients ≡ clients) }

        // If its base ends with the games file, it is sound. If its base was opened or created, it stands for the desk
        // in which a script begins.
        ensures sound { IfOk result (λ desk. (seen : Seen) → IsEnd base.end seen → DeskSound desk seen) }
        ensures stands { IfOk result (λ desk. (seen : Seen) (created : Bool) (slots : List Slot) (plain : PlainBase) → ShowNone slots → IsOpen base seen created plain → DeskStands desk seen (desk_begin clients.tagged created seen.fresh slots plain)) }
    {
        let games = base.header().games;
        let seats = first_seats(alloc, games, clients.is_tagged())?;
        let machine = free_machine(alloc, base, block)?;
        let page = TagPage::new(alloc)?;
        Ok(seated(machine, seats, clients, page))
    }

    /// The number of games of its base.
    pub fn games(&self) -> u32
        ensures games { result ≡ length self.now.holding.kept.entries }
    {
        self.machine.games()
    }

    /// Who may speak, and who has ended.
    pub fn clients(&self) -> &Clients
        ensures clients { result.now ≡ self.now.clients }
    {
        &self.clients
    }
}

// The machine over a base that was opened, in which nobody sits.
fn free_machine(alloc: Global, base: Base, block: Vec<u8>) -> Result<Machine, AllocError>
    requires room { length block.items ≡ 131072 }
    ensures kept { IfOk result (λ machine. machine.kept ≡ base) }
    ensures begins { IfOk result (λ machine. Begins base (with_seat machine (first_seat (length base.entries)))) }
{
    let mut machine = Machine::new(alloc, base, block)?;
    let mut nobody = first_seat(alloc, 0)?;
    change_seats(&mut machine, &mut nobody);
    Ok(machine)
}

// The desk of these.
fn seated(machine: Machine, seats: Vec<Seat>, clients: Clients, page: TagPage) -> Desk
    requires number { length seats.items ≡ (if clients.tagged then 4 else 1) }
    requires speaks { (client : ℕ) → has_ended clients client ≡ false → client < length seats.items }
    ensures holding { result.holding ≡ machine }
    ensures seats { result.seats ≡ seats_of seats.items }
    ensures clients { result.clients ≡ clients }
{
    Desk {
        machine,
        seats,
        clients,
        page,
    }
}

// The seats of the clients of a base with so many games: every game is in, and no filter is kept.
fn first_seats(alloc: Global, games: u32, tagged: bool) -> Result<Vec<Seat>, AllocError>
    ensures first { IfOk result (λ seats. seats_of seats.items ≡ replicate (if tagged then 4 else 1) (first_seat games)) }
{
    let number = clients_of(tagged);
    let places = number as usize;
    let mut seats = Vec::with_capacity(alloc, places)?;
    while seats.len() < places {
        let seat = first_seat(alloc, games)?;
        seats.push(seat)?;
    }
    Ok(seats)
}

// One of them.
fn first_seat(alloc: Global, games: u32) -> Result<Seat, AllocError>
    ensures first { IfOk result (λ seat. seat_of seat ≡ first_seat games) }
{
    let filter = Filter::new(alloc, games)?;
    Ok(Seat {
        filter,
        saved: Vec::new(alloc),
    })
}
