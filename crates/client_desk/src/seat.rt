//! The seat of one client.
use crate::change::Change;
use crate::fault::{KeepError, SlotError};
use crate::parts::Parts;
use cell_core::{PackedBoard, Text};
use filter_seat::{forget, keep, named};
use game_filter::Filter;
use std::alloc::{AllocError, Global};
use std::marker::Model;
use tree_live::{NoView, Slots, TreeView};
use tree_rows::GameHit;

/// What one client has of its own at a base: a filter, at most eight filters that are kept by name, and slots that show
/// trees of the games of the filter.
///
/// Contracts see these three. The views stand in a list outside, which is lent.
#[derive(Drop)]
pub struct Seat {
    parts: Parts,
}

impl Model for Seat {
    ghost use Rattle.client_desk.specs.Seats.{Seated, IsSeat};

    ghost Value = { Seated };

    ghost view = { λ s. s.parts };

    ghost invariant = { λ s. IsSeat s.parts };
}

impl Seat {
    ghost use Rattle.std.specs.Prelude.{◌≡◌, ℕ, ◌+◌, ◌<◌, ◌≤◌, ◌⊎◌, Some, None, length, nat_lt, ◌&&◌, true, false, is_some, slice_set, option_copied, option_map, IfOk, IfErr, IsSome, OnOk, OnErr, MatchResult};
    ghost use Rattle.filter_seat.specs.SavedFilters.{can_keep, dropped_in, is_kept, kept_in, saved_named};
    ghost use Rattle.tree_live.specs.Watching.{all_changes, all_out, hits_in, under};
    ghost use Rattle.tree_live.specs.Slots.{AreChanged, IsTold, in_slot};
    ghost use Rattle.tree_live.specs.Views.{ToldMore};
    ghost use Rattle.client_desk.specs.Seats.{Emptied, IsSeat, SeatTold, ShowsSeat, holds_view, new_seat};
    ghost use Rattle.client_desk.specs.Changes.{Fits, Follows, most_told};
    ghost use Rattle.client_desk.specs.declared.fault.KeepError.TheVariants as keeping;
    ghost use Rattle.client_desk.specs.declared.fault.SlotError.TheVariants as watching;

    /// A seat at a base of so many games, which are all in at ply 0, with `slots` slots, the first of which is the view with the number `first`.
    pub fn new(alloc: Global, games: u32, first: u8, slots: u8) -> Result<Seat, AllocError>
        requires room { first + slots ≤ 8 }
        requires few { games ≤ 16777214 }
        ensures seat { IfOk result (λ seat. seat ≡ new_seat games first slots) }
    {
        Ok(Seat {
            parts: Parts {
                filter: Filter::new(alloc, games)?,
                saved: Vec::new(alloc),
                slots: Slots::new(first, slots),
                first,
                count: slots,
            },
        })
    }

    /// The filter.
    pub fn filter(&self) -> &Filter
        ensures filter { result.now ≡ self.now.filter }
        ensures seat { IsSeat self.now }
    {
        &self.parts.filter
    }

    /// Sets the filter, which has an entry for each game. After want of memory the seat keeps and watches nothing.
    pub fn set_filter(
        &mut self,
        alloc: Global,
        views: &mut [Option<Box<dyn TreeView>>],
        new: Filter,
    ) -> Result<(), AllocError>
        requires same_games { length new ≡ length self.old.filter }
        requires shown { ShowsSeat (λ b. rows b) self.old views.old }
        ensures filter { OnOk result (self.new.filter ≡ new) }
        ensures saved { OnOk result (self.new.saved ≡ self.old.saved) }
        ensures watches { OnOk result (AreChanged (λ k watch. record watch { games = under new watch.games }) self.old.slots self.new.slots) }
        ensures shown { OnOk result (ShowsSeat (λ b. rows b) self.new views.new) }
        ensures emptied { OnErr result (Emptied self.old self.new) }
        ensures told { SeatTold (λ b. told b) self.old.slots (λ k watch. all_changes watch.games (under new watch.games)) views.old views.new }
        ensures slots { (self.new.slots.first ≡ self.old.slots.first) × (self.new.slots.count ≡ self.old.slots.count) }
    {
        match self.parts.slots.filter_changed(alloc, views, &new) {
            Ok(()) => {
                self.parts.filter = new;
                Ok(())
            }
            Err(refused) => {
                self.parts.empty(alloc);
                Err(refused)
            }
        }
    }

    /// Keeps a copy of the filter under a name, in the place of one of that name.
    pub fn keep(&mut self, alloc: Global, name: &Text) -> Result<(), KeepError>
        ensures kept { OnOk result (self.new ≡ record self.old { saved = kept_in self.old.saved name.now self.old.filter }) }
        ensures full { MatchResult result (λ _. can_keep self.old.saved name.now ≡ true) (λ error. ((error ≡ keeping.Full) × (can_keep self.old.saved name.now ≡ false)) ⊎ (error ≡ keeping.Memory)) }
        ensures unchanged { OnErr result (self.new ≡ self.old) }
    {
        if !keep(alloc, &mut self.parts.saved, name, &self.parts.filter)? {
            return Err(KeepError::Full);
        }
        Ok(())
    }

    /// The filter that is kept under a name, or none if none is.
    pub fn saved(&self, name: &[u8]) -> Option<&Filter>
        ensures saved { option_copied result ≡ saved_named self.now.saved name.now }
    {
        named(self.parts.saved.as_slice(), name)
    }

    /// Forgets the filter that is kept under a name; `false` if none is.
    pub fn forget(&mut self, name: &[u8]) -> bool
        ensures forgotten { result ≡ is_kept self.old.saved name.now }
        ensures seat { self.new ≡ record self.old { saved = dropped_in self.old.saved name.now } }
    {
        forget(&mut self.parts.saved, name)
    }

    /// Watches a board and side in slot `k`, in place of what it showed: these are the hits of the games, one optional hit each.
    pub fn watch(
        &mut self,
        alloc: Global,
        views: &mut [Option<Box<dyn TreeView>>],
        k: u8,
        board: PackedBoard,
        hits: Vec<Option<GameHit>>,
    ) -> Result<(), SlotError>
        requires same_games { length hits.items ≡ length self.old.filter }
        requires shown { ShowsSeat (λ b. rows b) self.old views.old }
        ensures view { MatchResult result (λ _. holds_view self.old.slots views.old k ≡ true) (λ error. ((error ≡ watching.NoView) × (holds_view self.old.slots views.old k ≡ false)) ⊎ ((error ≡ watching.Memory) × (holds_view self.old.slots views.old k ≡ true))) }
        ensures watched { OnOk result (self.new ≡ record self.old { slots = record self.old.slots { watches = slice_set self.old.slots.watches k (Some (record { board = board; games = under self.old.filter (all_out hits.items) })) } }) }
        ensures shown { OnOk result (ShowsSeat (λ b. rows b) self.new views.new) }
        ensures unchanged { OnErr result (self.new ≡ self.old) }
        ensures same_views { holds_view self.old.slots views.old k ≡ false → views.new ≡ views.old }
        ensures told { holds_view self.old.slots views.old k ≡ true → IsTold (λ most old new. ToldMore most (told old) (told new)) (Some (1 + length (hits_in (under self.old.filter (all_out hits.items))))) (in_slot views.old (self.old.slots.first + k)) (in_slot views.new (self.old.slots.first + k)) }
        ensures others { (i : ℕ) → (i ≡ self.old.slots.first + k → ⊥) → in_slot views.new i ≡ in_slot views.old i }
    {
        if !self.parts.slots.holds(views, k) {
            return Err(SlotError::NoView);
        }
        self.parts.slots.watch(alloc, views, k, board, hits.as_slice(), &self.parts.filter)?;
        Ok(())
    }

    /// Watches slot `k` no more: its view is dropped, and nothing stands there.
    pub fn unwatch(&mut self, views: &mut [Option<Box<dyn TreeView>>], k: u8) -> Result<(), NoView>
        requires shown { ShowsSeat (λ b. rows b) self.old views.old }
        ensures answer { MatchResult result (λ _. IsSome (in_slot self.old.slots.watches k)) (λ _. in_slot self.old.slots.watches k ≡ None) }
        ensures watched { OnOk result (self.new ≡ record self.old { slots = record self.old.slots { watches = slice_set self.old.slots.watches k None } }) }
        ensures gone { OnOk result (in_slot views.new (self.old.slots.first + k) ≡ None) }
        ensures shown { ShowsSeat (λ b. rows b) self.new views.new }
        ensures others { (i : ℕ) → (i ≡ self.old.slots.first + k → ⊥) → in_slot views.new i ≡ in_slot views.old i }
        ensures unchanged { OnErr result (self.new ≡ self.old) }
        ensures same_views { OnErr result (views.new ≡ views.old) }
    {
        self.parts.slots.unwatch(views, k)
    }

    /// The board and side that slot `k` shows, or none if it is not watched.
    pub fn watched(&self, k: u8) -> Option<&PackedBoard>
        ensures board { option_copied result ≡ option_map (λ watch. watch.board) (in_slot self.now.slots.watches k) }
    {
        self.parts.slots.watched(k)
    }

    /// Brings a change to the seat of the client that made it: an added game is in its filter, at ply 0, and out of the filters that are kept. After
    /// want of memory it keeps and watches nothing.
    pub fn own(
        &mut self,
        alloc: Global,
        views: &mut [Option<Box<dyn TreeView>>],
        change: &Change,
    ) -> Result<(), AllocError>
        requires fits { Fits change.now self.old }
        requires shown { ShowsSeat (λ b. rows b) self.old views.old }
        ensures follows { OnOk result (Follows (Some 0) change.now self.old self.new) }
        ensures shown { OnOk result (ShowsSeat (λ b. rows b) self.new views.new) }
        ensures emptied { OnErr result (Emptied self.old self.new) }
        ensures told { SeatTold (λ b. told b) self.old.slots (most_told (Some 0) change.now self.old) views.old views.new }
        ensures slots { (self.new.slots.first ≡ self.old.slots.first) × (self.new.slots.count ≡ self.old.slots.count) }
    {
        self.follow(alloc, views, change, Some(0))
    }

    /// Brings a change to the seat of another client: an added game is out of every filter. After want of memory the seat keeps and watches nothing.
    pub(crate) fn echo(
        &mut self,
        alloc: Global,
        views: &mut [Option<Box<dyn TreeView>>],
        change: &Change,
    ) -> Result<(), AllocError>
        requires fits { Fits change.now self.old }
        requires shown { ShowsSeat (λ b. rows b) self.old views.old }
        ensures follows { OnOk result (Follows None change.now self.old self.new) }
        ensures shown { OnOk result (ShowsSeat (λ b. rows b) self.new views.new) }
        ensures told { SeatTold (λ b. told b) self.old.slots (most_told None change.now self.old) views.old views.new }
        ensures slots { (self.new.slots.first ≡ self.old.slots.first) × (self.new.slots.count ≡ self.old.slots.count) }
    {
        self.follow(alloc, views, change, None)
    }

    // Brings a change to the seat, where an added game has this entry in the filter.
    fn follow(
        &mut self,
        alloc: Global,
        views: &mut [Option<Box<dyn TreeView>>],
        change: &Change,
        entry: Option<u32>,
    ) -> Result<(), AllocError>
        requires fits { Fits change.now self.old }
        requires shown { ShowsSeat (λ b. rows b) self.old views.old }
        ensures follows { OnOk result (Follows entry change.now self.old self.new) }
        ensures shown { OnOk result (ShowsSeat (λ b. rows b) self.new views.new) }
        ensures emptied { OnErr result (Emptied self.old self.new) }
        ensures told { SeatTold (λ b. told b) self.old.slots (most_told entry change.now self.old) views.old views.new }
        ensures slots { (self.new.slots.first ≡ self.old.slots.first) × (self.new.slots.count ≡ self.old.slots.count) }
    {
        match self.parts.follow(alloc, views, change, entry) {
            Ok(()) => Ok(()),
            Err(refused) => {
                self.parts.empty(alloc);
                Err(refused)
            }
        }
    }
}
