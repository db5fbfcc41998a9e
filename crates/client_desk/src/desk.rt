//! Four clients on one base.
use crate::change::Change;
use crate::client::Client;
use crate::echoing::echo_to_others;
use crate::seat::Seat;
use std::alloc::{AllocError, Global};
use std::marker::Model;
use tree_live::TreeView;

/// The seats of four clients, each with two slots of a list of eight views, and which of them have ended.
#[derive(Drop)]
pub struct Desk {
    seats: Vec<Seat>,
    ended: [bool; 4],
}

impl Model for Desk {
    ghost use Rattle.std.specs.Prelude.{◌≡◌, length, vec_len};
    ghost use Rattle.client_desk.specs.Desks.{Seating};

    ghost Value = { Seating };

    ghost view = { λ d. record { seats = d.seats.items; ended = d.ended } };

    ghost invariant = { λ d. (vec_len d.seats ≡ 4) × (length d.ended ≡ 4) };
}

impl Desk {
    ghost use Rattle.std.specs.Prelude.{◌≡◌, ◌≤◌, ◌<◌, ℕ, Some, true, All, length, slice_get, slice_set, slice_index_or, IfOk, OnOk};
    ghost use Rattle.std.specs.Borrow.{sem};
    ghost use Rattle.std.specs.List.{AllPairs};
    ghost use Rattle.client_desk.specs.Seats.{Seated, ShowsSeat};
    ghost use Rattle.client_desk.specs.Changes.{Fits};
    ghost use Rattle.client_desk.specs.Desks.{Apart, Echoed, EchoTold, new_seating};
    ghost use Rattle.client_desk.specs.Lending.{LendsSeat};

    /// The desk at a base of so many games: each of the four has every game in at ply 0.
    pub fn new(alloc: Global, games: u32) -> Result<Desk, AllocError>
        requires few { games ≤ 16777214 }
        ensures desk { IfOk result (λ desk. desk ≡ new_seating games) }
    {
        let mut seats = Vec::with_capacity(alloc, 4)?;
        seats.push(Seat::new(alloc, games, 0, 2)?)?;
        seats.push(Seat::new(alloc, games, 2, 2)?)?;
        seats.push(Seat::new(alloc, games, 4, 2)?)?;
        seats.push(Seat::new(alloc, games, 6, 2)?)?;
        Ok(Desk {
            seats,
            ended: [false; 4],
        })
    }

    /// The seat of a client.
    pub fn seat(&self, client: Client) -> &Seat
        ensures seat { slice_get self.now.seats client ≡ Some result.now }
    {
        &self.seats[usize::from(client.number())]
    }

    /// The seat of a client, to be changed.
    pub fn seat_mut(&mut self, client: Client) -> &mut Seat
        ensures* writes_back { sem 𝓛 (LendsSeat self.entry client result) }
        ensures seat { slice_get self.old.seats client ≡ Some result.now }
    {
        let place = usize::from(client.number());
        &mut self.seats[place]
    }

    /// Whether a client has ended.
    pub fn ended(&self, client: Client) -> bool
        ensures ended { slice_get self.now.ended client ≡ Some result }
    {
        self.ended[usize::from(client.number())]
    }

    /// A client ends.
    pub fn end(&mut self, client: Client)
        ensures ended { self.new ≡ record self.old { ended = slice_set self.old.ended client true } }
    {
        self.ended[usize::from(client.number())] = true;
    }

    /// Brings a change that a client made to the seats of the other three.
    pub fn echo(
        &mut self,
        alloc: Global,
        by: Client,
        change: &Change,
        views: &mut [Option<Box<dyn TreeView>>],
    ) -> Result<(), AllocError>
        requires apart { AllPairs Apart self.old.seats }
        requires fits { (c : ℕ) → (d : Seated) → (c ≡ by → ⊥) → c < length self.old.seats → Fits change.now (slice_index_or self.old.seats c d) }
        requires shown { All (λ seat. ShowsSeat (λ b. rows b) seat views.old) self.old.seats }
        ensures echoed { OnOk result (Echoed by change.now self.old.seats self.new.seats) }
        ensures shown { OnOk result (All (λ seat. ShowsSeat (λ b. rows b) seat views.new) self.new.seats) }
        ensures told { EchoTold (λ b. told b) by change.now self.old.seats views.old views.new }
        ensures ended { self.new.ended ≡ self.old.ended }
    {
        echo_to_others(
            alloc,
            usize::from(by.number()),
            self.seats.as_mut_slice(),
            views,
            change,
        )
    }
}
