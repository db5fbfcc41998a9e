//! The parts of a seat.
use crate::change::{Change, hits_from};
use filter_seat::{SavedFilter, follow};
use game_filter::Filter;
use std::alloc::{AllocError, Global};
use std::marker::Model;
use tree_live::{Slots, TreeView};
use tree_rows::GameHit;

/// The parts of a seat. After a change that broke off, nothing is known of what is kept and watched in them.
#[derive(Drop)]
pub(crate) struct Parts {
    pub filter: Filter,
    pub saved: Vec<SavedFilter>,
    pub slots: Slots,
    pub first: u8,
    pub count: u8,
}

impl Model for Parts {
    ghost use Rattle.std.specs.Prelude.{◌≡◌, ◌+◌, ◌≤◌};
    ghost use Rattle.client_desk.specs.Seats.{Seated};

    ghost Value = { Seated };

    ghost view = { λ p. record { filter = p.filter; saved = p.saved.items; slots = p.slots } };

    ghost invariant = { λ p. (p.slots.first ≡ p.first) × (p.slots.count ≡ p.count) × (p.first + p.count ≤ 8) };
}

impl Parts {
    ghost use Rattle.std.specs.Prelude.{◌≡◌, ℕ, ◌+◌, ◌<◌, ◌≤◌, [], Option, None, is_some, length, replicate, OnOk};
    ghost use Rattle.tree_live.specs.Watching.{all_changes, with_game};
    ghost use Rattle.tree_live.specs.Slots.{AreChanged, AreShown, AreTold};
    ghost use Rattle.client_desk.specs.Seats.{IsSeat, new_seat};
    ghost use Rattle.client_desk.specs.Changes.{Fits, Follows, game_with, most_told, watch_after};

    /// Brings a change to all parts; an added game has this entry in the filter.
    pub fn follow(
        &mut self,
        alloc: Global,
        views: &mut [Option<Box<dyn TreeView>>],
        change: &Change,
        entry: Option<u32>,
    ) -> Result<(), AllocError>
        requires seat { IsSeat self.old }
        requires fits { Fits change.now self.old }
        requires shown { AreShown (λ b. rows b) self.old.slots views.old }
        ensures follows { OnOk result (Follows entry change.now self.old self.new) }
        ensures shown { OnOk result (AreShown (λ b. rows b) self.new.slots views.new) }
        ensures told { AreTold (λ b. told b) self.old.slots (most_told entry change.now self.old) views.old views.new }
        ensures few { length self.new.filter ≤ 16777214 }
        ensures slots { (self.new.slots.first ≡ self.old.slots.first) × (self.new.slots.count ≡ self.old.slots.count) }
    {
        let games = self.filter.len();
        self.show(alloc, views, change, entry)?;
        let moved = change.moved(games);
        follow(
            alloc,
            &mut self.filter,
            self.saved.as_mut_slice(),
            &moved,
            entry,
        )
    }

    // Brings a change to the slots.
    fn show(
        &mut self,
        alloc: Global,
        views: &mut [Option<Box<dyn TreeView>>],
        change: &Change,
        entry: Option<u32>,
    ) -> Result<(), AllocError>
        requires seat { IsSeat self.old }
        requires fits { Fits change.now self.old }
        requires shown { AreShown (λ b. rows b) self.old.slots views.old }
        ensures filter { self.new.filter ≡ self.old.filter }
        ensures saved { self.new.saved ≡ self.old.saved }
        ensures watches { OnOk result (AreChanged (watch_after entry change.now self.old) self.old.slots self.new.slots) }
        ensures shown { OnOk result (AreShown (λ b. rows b) self.new.slots views.new) }
        ensures told { AreTold (λ b. told b) self.old.slots (most_told entry change.now self.old) views.old views.new }
        ensures slots { (self.new.slots.first ≡ self.old.slots.first) × (self.new.slots.count ≡ self.old.slots.count) }
    {
        match change {
            Change::Added { hits } => {
                let game = self.filter.len();
                self.tell(alloc, views, game, hits, entry)
            }
            Change::Edited { game, hits, .. } => {
                let entry = self.filter.get(*game);
                self.tell(alloc, views, *game, hits, entry)
            }
            Change::Renumbered(renumbering) => self.slots.renumbered(alloc, views, renumbering),
        }
    }

    // Brings a game with this entry in the filter to the slots.
    fn tell(
        &mut self,
        alloc: Global,
        views: &mut [Option<Box<dyn TreeView>>],
        game: u32,
        hits: &[Option<GameHit>; 8],
        entry: Option<u32>,
    ) -> Result<(), AllocError>
        requires seat { IsSeat self.old }
        requires game { game ≤ length self.old.filter }
        requires room { game < 16777214 }
        requires shown { AreShown (λ b. rows b) self.old.slots views.old }
        ensures filter { self.new.filter ≡ self.old.filter }
        ensures saved { self.new.saved ≡ self.old.saved }
        ensures watches { OnOk result (AreChanged (λ k watch. record watch { games = with_game game (game_with entry hits.now (self.old.slots.first + k)) watch.games }) self.old.slots self.new.slots) }
        ensures shown { OnOk result (AreShown (λ b. rows b) self.new.slots views.new) }
        ensures told { AreTold (λ b. told b) self.old.slots (λ k watch. all_changes watch.games (with_game game (game_with entry hits.now (self.old.slots.first + k)) watch.games)) views.old views.new }
        ensures slots { (self.new.slots.first ≡ self.old.slots.first) × (self.new.slots.count ≡ self.old.slots.count) }
    {
        let own = hits_from(self.first, hits);
        self.slots
            .game_changed(alloc, views, game, &own, entry.is_some())
    }

    /// Keeps and watches nothing from now on.
    pub fn empty(&mut self, alloc: Global)
        ensures empty { self.new ≡ record self.old { saved = []; slots = record self.old.slots { watches = replicate 8 None } } }
    {
        self.saved = Vec::new(alloc);
        self.slots = Slots::new(self.first, self.count);
    }
}
