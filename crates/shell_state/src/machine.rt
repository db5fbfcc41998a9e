//! The machine that runs commands.
ghost use Rattle.std.specs.Prelude.{◌≡◌, ◌≤◌, ◌<◌, ◌+◌, length, None, IfOk, IfErr, OnOk, MatchOption};
ghost use Rattle.base_core.specs.Represents.{IsSound};
ghost use Rattle.base_files.specs.declared.faults.Stop.TheVariants as stop;
ghost use Rattle.command_runs.specs.Counts.{Causes, counts};
ghost use Rattle.filter_seat.specs.Seats.{first_seat};
ghost use Rattle.game_tree.specs.Head.{IsBounded};
ghost use Rattle.game_tree.specs.Legal.{IsLegalGame};
ghost use Rattle.game_tree.specs.Settle.{IsSettled};
ghost use Rattle.shell_state.specs.Adding.{Adds};
ghost use Rattle.shell_state.specs.Carrying.{StillCarry};
ghost use Rattle.shell_state.specs.Ends.{IsDevice};
ghost use Rattle.shell_state.specs.Refusing.{index_is_full};
ghost use Rattle.shell_state.specs.Stands.{Begins, Sound, Stands, WhyHalt, depth_of, no_tables};
ghost use Rattle.shell_state.specs.State.{State};
ghost use Rattle.shell_state.specs.declared.halt.Halt.TheVariants as halt;

use crate::halt::Halt;
use crate::hits::hits_of;
use crate::indexing::add_to_index;
use crate::refusing::{Refusal, refused};
use crate::writing::PAGE;
use base_core::Base;
use base_files::Files;
use filter_seat::{Seat, leave_out};
use game_filter::Filter;
use game_tree::{Game, Head};
use pos_index::PosIndex;
use std::alloc::{AllocError, Global};
use std::marker::Model;
use tree_live::Slots;

/// An open base with its position index, and the seat and the slots of its user, and the memory that its commands need.
#[derive(Drop)]
pub struct Machine {
    /// The open base.
    pub base: Base,
    /// The position index of its games, if there is one.
    pub index: Option<PosIndex>,
    /// The positions whose trees its user watches, with their hits.
    pub slots: Slots,
    /// What its user has alone.
    pub seat: Seat,
    /// A record is read into it: as long as the longest one may be.
    pub block: Vec<u8>,
    /// Text that is put together before it is written, in room that is taken when the machine is made.
    pub page: Vec<u8>,
}

impl Model for Machine {
    ghost use Rattle.std.specs.Prelude.{◌≡◌, length};
    ghost use Rattle.shell_state.specs.Slots.{tables_in};
    ghost use Rattle.shell_state.specs.Stands.{Holding};

    ghost Value = { Holding };

    ghost view = { λ machine. record { kept = machine.base; tables = record { index = machine.index; hits = tables_in machine.slots.watches }; seat = record { filter = machine.seat.filter; saved = machine.seat.saved.items } } };

    ghost invariant = { λ machine. (length machine.block.items ≡ 131072) × ((machine.slots.first ≡ 0) × (machine.slots.count ≡ 8)) };
}

impl Machine {
    /// The machine over a base that was opened: every game is in, no filter is kept, there is no index, and no slot shows a tree. `block` holds
    /// 131,072 bytes.
    pub fn new(alloc: Global, base: Base, block: Vec<u8>) -> Result<Machine, AllocError>
        requires room { length block.items ≡ 131072 }
        ensures holds { IfOk result (λ machine. machine ≡ record { kept = base; tables = no_tables; seat = first_seat (length base.entries) }) }

        // If its base was opened without changes, it stands for the state in which a script begins.
        ensures begins { IfOk result (Begins base) }
    {
        let filter = Filter::new(alloc, base.header().games)?;
        let page = Vec::with_capacity(alloc, PAGE)?;
        Ok(Machine {
            base,
            index: None,
            slots: Slots::new(0, 8),
            seat: Seat {
                filter,
                saved: Vec::new(alloc),
            },
            block,
            page,
        })
    }

    /// What every open base keeps, this one too. Nothing is done.
    pub fn keeps_sound(&self)
        ensures sound { IsSound self.now.kept }
    {
        let _header = self.base.header();
    }

    /// The game of a number, if there is one.
    pub fn game_at(&self, number: u64) -> Option<u32>
        ensures at { MatchOption result (length self.now.kept.entries ≤ number) (λ i. (i ≡ number) × (i < length self.now.kept.entries)) }
    {
        if number < u64::from(self.games()) {
            Some(number as u32)
        } else {
            None
        }
    }

    /// The number of games of its base.
    pub fn games(&self) -> u32
        ensures games { result ≡ length self.now.kept.entries }
        ensures few { result ≤ 16777214 }
    {
        self.base.header().games
    }

    /// Whether the position index, if there is one, has no room for one more game.
    pub fn index_is_full(&self) -> bool
        ensures full { result ≡ index_is_full (depth_of self.now.tables.index) (length self.now.kept.entries + 1) }
    {
        match &self.index {
            Some(index) => !index.room(self.games() + 1),
            None => false,
        }
    }

    /// Adds a game, which is then in at ply 0 and in no filter that is kept, and gives its number; or why it is not added.
    pub fn add<F: Files>(
        &mut self,
        alloc: Global,
        files: &mut F,
        head: &Head,
        game: &Game,
    ) -> Result<Result<u32, Refusal>, Halt>
        requires legal { IsLegalGame game.now }
        requires bounded { IsBounded head.now }
        requires settled { IsSettled head.now }
        requires sound { Sound self.old (F.seen files.old) }
        ensures adds { (s : State) → Stands self.old (F.seen files.old) s → IfOk result (Adds self.new (F.seen files.new) s head.now game.now) }
        ensures sound { OnOk result (Sound self.new (F.seen files.new)) }
        ensures devices { IfErr result IsDevice }
        ensures kept { IfErr result (λ e. e ≡ halt.Device stop.Files → self.new ≡ self.old) }
        ensures carries { (s : State) → Stands self.old (F.seen files.old) s → StillCarry (F.seen files.new) s None }
        ensures choices { (F.seen files.new).choices ≡ (F.seen files.old).choices }
        ensures none_asked { F.asked files.new ≡ F.asked files.old }
        ensures causes { Causes WhyHalt result (counts (F.faults files.old) 0 0) (counts (F.faults files.new) 0 0) }
    {
        if self.index_is_full() {
            return Ok(Err(Refusal::FullIndex));
        }
        let added = self.base.add(alloc, files, head, game);
        self.keeps_sound();
        match added {
            Ok(number) => {
                self.seat.filter.push(alloc, Some(0))?;
                leave_out(alloc, self.seat.saved.as_mut_slice())?;
                add_to_index(alloc, &mut self.index, number, game)?;
                let hits = hits_of(&self.slots, head, game);
                self.slots.set_game(number, &hits)?;
                Ok(Ok(number))
            }
            Err(error) => match refused(error) {
                Ok(why) => Ok(Err(why)),
                Err(halt) => Err(halt),
            },
        }
    }
}
