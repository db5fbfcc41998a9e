//! The slots of a list of views.
use crate::change::Change;
use crate::following::follow_all;
use crate::showing::show_all;
use crate::slot::attach;
use crate::view::TreeView;
use crate::watch::Watch;
use cell_core::{Board, Colour, PackedBoard};
use game_filter::{Filter, Renumbering};
use std::alloc::{AllocError, Global};
use std::marker::Model;
use tree_rows::GameHit;

/// There is no watched slot of this number.
#[derive(Clone, Copy, Debug, PartialEq, Eq)]
pub struct NoView;

/// Up to eight places of a list of views, each of which may be watched. Slot k is the view with the number `first` + k.
///
/// Contracts see which boards are watched in which slots, with their games.
#[derive(Drop)]
pub struct Slots {
    first: u8,
    count: u8,
    watches: [Option<Watch>; 8],
}

impl Model for Slots {
    ghost use Rattle.std.specs.Prelude.{◌≡◌, ◌+◌, ◌≤◌, length};
    ghost use Rattle.tree_live.specs.Slots.{AreBelow, Slotted};

    ghost Value = { Slotted };

    ghost view = { λ s. record { first = s.first; count = s.count; watches = s.watches } };

    ghost invariant = { λ s. (s.first + s.count ≤ 8) × ((length s.watches ≡ 8) × AreBelow s.count s.watches) };
}

impl Slots {
    ghost use Rattle.std.specs.Prelude.{◌≡◌, ◌+◌, ◌<◌, ◌≤◌, ◌&&◌, ℕ, false, Some, None, nat_lt, if◌then◌else◌, is_some, length, option_copied, option_map, replicate, slice_set, IfSome, IsSome, IsSomeAnd, OnOk, OnErr, MatchResult};
    ghost use Rattle.cell_core.specs.Packed.{packed_of};
    ghost use Rattle.game_filter.specs.Renumbering.{renumbered};
    ghost use Rattle.tree_live.specs.Watching.{all_changes, all_out, hits_in, staying, under, with_game};
    ghost use Rattle.tree_live.specs.Views.{Shows, ToldMore};
    ghost use Rattle.tree_live.specs.Slots.{AreBelow, AreChanged, AreShown, AreShownIf, AreTold, AreToldRows, EachWatch, Fits, IsTold, changed, in_slot, is_within, kept_hit, most_told};

    /// None of the slots is watched. There are `count` of them, and the last is below 8.
    pub fn new(first: u8, count: u8) -> Slots
        requires room { first + count ≤ 8 }
        ensures none { result ≡ record { first = first; count = count; watches = replicate 8 None } }
    {
        Slots {
            first,
            count,
            watches: [None, None, None, None, None, None, None, None],
        }
    }

    /// Whether slot `k` is one of them and a view stands there.
    pub fn holds(&self, views: &[Option<Box<dyn TreeView>>], k: u8) -> bool
        ensures holds { result ≡ (nat_lt k self.now.count && is_some (in_slot views.now (self.now.first + k))) }
        ensures eight { length self.now.watches ≡ 8 }
    {
        let place = usize::from(self.first) + usize::from(k);
        k < self.count && place < views.len() && views[place].is_some()
    }

    /// The board and side that slot `k` shows, or none if it is not watched. No slot from their count on is watched.
    pub fn watched(&self, k: u8) -> Option<&PackedBoard>
        ensures board { option_copied result ≡ option_map (λ watch. watch.board) (in_slot self.now.watches k) }
        ensures below { AreBelow self.now.count self.now.watches }
        ensures eight { length self.now.watches ≡ 8 }
    {
        let watches = self.watches.as_slice();
        let place = usize::from(k);
        if place >= watches.len() {
            return None;
        }
        match &watches[place] {
            None => None,
            Some(watch) => Some(watch.board()),
        }
    }

    /// The men and the side to move of that board.
    pub fn men(&self, k: u8) -> Option<(&Board, Colour)>
        ensures board { option_map (λ shown. packed_of shown.0.now shown.1) result ≡ option_map (λ watch. watch.board) (in_slot self.now.watches k) }
        ensures below { AreBelow self.now.count self.now.watches }
    {
        let watches = self.watches.as_slice();
        let place = usize::from(k);
        if place >= watches.len() {
            return None;
        }
        match &watches[place] {
            None => None,
            Some(watch) => Some(watch.men()),
        }
    }

    /// Watches a board and side in slot `k`, in place of what it showed: these are the hits of the games, one optional hit each.
    pub fn watch(
        &mut self,
        alloc: Global,
        views: &mut [Option<Box<dyn TreeView>>],
        k: u8,
        board: PackedBoard,
        hits: &[Option<GameHit>],
        filter: &Filter,
    ) -> Result<(), AllocError>
        requires slot { k < self.old.count }
        requires holds { IsSome (in_slot views.old (self.old.first + k)) }
        requires same_games { length hits.now ≡ length filter.now }
        requires few { length hits.now ≤ 16777214 }
        ensures watched { OnOk result (self.new ≡ record self.old { watches = slice_set self.old.watches k (Some (record { board = board; games = under filter.now (all_out hits.now) })) }) }
        ensures unchanged { OnErr result (self.new ≡ self.old) }
        ensures here { OnOk result (IfSome (in_slot self.new.watches k) (λ watch. IsSomeAnd (in_slot views.new (self.old.first + k)) (λ view. Shows (hits_in watch.games) (rows view)))) }
        ensures shown { AreShown (λ b. rows b) self.old views.old → OnOk result (AreShown (λ b. rows b) self.new views.new) }
        ensures told { IsTold (λ most old new. ToldMore most (told old) (told new)) (Some (1 + length (hits_in (under filter.now (all_out hits.now))))) (in_slot views.old (self.old.first + k)) (in_slot views.new (self.old.first + k)) }
        ensures others { (i : ℕ) → (i ≡ self.old.first + k → ⊥) → in_slot views.new i ≡ in_slot views.old i }
        ensures number { length views.new ≡ length views.old }
    {
        let place = usize::from(self.first) + usize::from(k);
        let watch = attach(alloc, &mut views[place], board, hits, filter)?;
        self.watches[usize::from(k)] = watch;
        Ok(())
    }

    /// Watches slot `k` no more: its view is dropped, and nothing stands there.
    pub fn unwatch(&mut self, views: &mut [Option<Box<dyn TreeView>>], k: u8) -> Result<(), NoView>
        ensures answer { MatchResult result (λ _. IsSome (in_slot self.old.watches k)) (λ _. in_slot self.old.watches k ≡ None) }
        ensures watched { OnOk result (self.new ≡ record self.old { watches = slice_set self.old.watches k None }) }
        ensures gone { OnOk result (in_slot views.new (self.old.first + k) ≡ None) }
        ensures shown { AreShown (λ b. rows b) self.old views.old → AreShown (λ b. rows b) self.new views.new }
        ensures others { (i : ℕ) → (i ≡ self.old.first + k → ⊥) → in_slot views.new i ≡ in_slot views.old i }
        ensures unchanged { OnErr result (self.new ≡ self.old) }
        ensures same_views { OnErr result (views.new ≡ views.old) }
        ensures number { length views.new ≡ length views.old }
        ensures eight { length self.old.watches ≡ 8 }
    {
        let place = usize::from(self.first) + usize::from(k);
        if k >= 8 || self.watches[usize::from(k)].is_none() {
            return Err(NoView);
        }
        self.watches[usize::from(k)] = None;
        if place < views.len() {
            views[place] = None;
        }
        Ok(())
    }

    /// The filter has become this one, of the same games.
    pub fn filter_changed(
        &mut self,
        alloc: Global,
        views: &mut [Option<Box<dyn TreeView>>],
        filter: &Filter,
    ) -> Result<(), AllocError>
        requires same_games { EachWatch (λ watch. length filter.now ≡ length watch.games) self.old }
        requires shown { AreShown (λ b. rows b) self.old views.old }
        ensures watched { OnOk result (AreChanged (λ k watch. record watch { games = under filter.now watch.games }) self.old self.new) }
        ensures shown { OnOk result (AreShown (λ b. rows b) self.new views.new) }
        ensures told { AreTold (λ b. told b) self.old (λ k watch. all_changes watch.games (under filter.now watch.games)) views.old views.new }
        ensures slots { (self.new.first ≡ self.old.first) × (self.new.count ≡ self.old.count) }
    {
        self.bring(alloc, views, &Change::Filter(filter))
    }

    /// Game `i` has become another, or is added: its hit in each slot, of which those of slots that are not watched are not looked at,
    /// and whether it is in.
    pub fn game_changed(
        &mut self,
        alloc: Global,
        views: &mut [Option<Box<dyn TreeView>>],
        i: u32,
        hits: &[Option<GameHit>; 8],
        is_in: bool,
    ) -> Result<(), AllocError>
        requires game { EachWatch (λ watch. (i ≤ length watch.games) × (i < 16777214)) self.old }
        requires shown { AreShown (λ b. rows b) self.old views.old }
        ensures watched { OnOk result (AreChanged (λ k watch. record watch { games = with_game i (record { hit = in_slot hits.now k; is_in = is_in }) watch.games }) self.old self.new) }
        ensures shown { OnOk result (AreShown (λ b. rows b) self.new views.new) }
        ensures told { AreTold (λ b. told b) self.old (λ k watch. all_changes watch.games (with_game i (record { hit = in_slot hits.now k; is_in = is_in }) watch.games)) views.old views.new }
        ensures slots { (self.new.first ≡ self.old.first) × (self.new.count ≡ self.old.count) }
    {
        self.bring(
            alloc,
            views,
            &Change::Game {
                i,
                hits: hits.as_slice(),
                is_in,
            },
        )
    }

    /// The games have become those that stay, with their new numbers.
    pub fn renumbered(
        &mut self,
        alloc: Global,
        views: &mut [Option<Box<dyn TreeView>>],
        renumbering: &Renumbering,
    ) -> Result<(), AllocError>
        requires same_games { EachWatch (λ watch. length renumbering.now.to ≡ length watch.games) self.old }
        requires shown { AreShown (λ b. rows b) self.old views.old }
        ensures watched { OnOk result (AreChanged (λ k watch. record watch { games = renumbered renumbering.now.to watch.games }) self.old self.new) }
        ensures shown { OnOk result (AreShown (λ b. rows b) self.new views.new) }
        ensures told { AreTold (λ b. told b) self.old (λ k watch. all_changes watch.games (staying renumbering.now.to watch.games)) views.old views.new }
        ensures slots { (self.new.first ≡ self.old.first) × (self.new.count ≡ self.old.count) }
    {
        self.bring(alloc, views, &Change::Numbers(renumbering))
    }

    /// Game `i` has become another, or is added: its hit in each slot. The game is out until `show` takes it in, and no view is told yet.
    pub fn set_game(&mut self, i: u32, hits: &[Option<GameHit>; 8]) -> Result<(), AllocError>
        requires game { EachWatch (λ watch. (i ≤ length watch.games) × (i < 16777214)) self.old }
        ensures watched { OnOk result (AreChanged (λ k watch. record watch { games = with_game i (record { hit = in_slot hits.now k; is_in = false }) watch.games }) self.old self.new) }
        ensures slots { (self.new.first ≡ self.old.first) × (self.new.count ≡ self.old.count) }
        ensures number { length self.new.watches ≡ length self.old.watches }
    {
        self.follow(&Change::Game {
            i,
            hits: hits.as_slice(),
            is_in: false,
        })
    }

    /// The games have become those that stay, with their new numbers. No view is told yet.
    pub fn renumber(&mut self, renumbering: &Renumbering) -> Result<(), AllocError>
        requires same_games { EachWatch (λ watch. length renumbering.now.to ≡ length watch.games) self.old }
        ensures watched { OnOk result (AreChanged (λ k watch. record watch { games = renumbered renumbering.now.to watch.games }) self.old self.new) }
        ensures slots { (self.new.first ≡ self.old.first) × (self.new.count ≡ self.old.count) }
        ensures number { length self.new.watches ≡ length self.old.watches }
    {
        self.follow(&Change::Numbers(renumbering))
    }

    /// The hit that slot `k` keeps of game `i`, or none if the slot is not watched or has no such game.
    pub fn hit(&self, k: u8, i: u32) -> Option<GameHit>
        ensures hit { result ≡ kept_hit (in_slot self.now.watches k) i }
    {
        let watches = self.watches.as_slice();
        let place = usize::from(k);
        if place >= watches.len() {
            return None;
        }
        match &watches[place] {
            None => None,
            Some(watch) => watch.hit(i),
        }
    }

    /// Takes the games of the filter in and the others out of `count` slots from slot `start` on. It tells the view of
    /// each of them that is watched the rows that differ from those it shows.
    pub fn show(
        &mut self,
        alloc: Global,
        views: &mut [Option<Box<dyn TreeView>>],
        filter: &Filter,
        start: u8,
        count: u8,
    ) -> Result<(), AllocError>
        requires room { start + count ≤ 8 }
        requires same_games { EachWatch (λ watch. length filter.now ≡ length watch.games) self.old }
        ensures watched { OnOk result (AreChanged (λ k watch. if is_within start count k then record watch { games = under filter.now watch.games } else watch) self.old self.new) }
        ensures shown { OnOk result (AreShownIf (λ b. rows b) (is_within start count) self.new views.new) }
        ensures told { AreToldRows (λ b. rows b) (λ b. told b) (is_within start count) (λ watch. record watch { games = under filter.now watch.games }) self.old views.old views.new }
        ensures slots { (self.new.first ≡ self.old.first) × (self.new.count ≡ self.old.count) }
        ensures number { length self.new.watches ≡ length self.old.watches }
    {
        let first = usize::from(self.first) + usize::from(start);
        let end = usize::from(start) + usize::from(count);
        let all = self.watches.as_mut_slice();
        let watches = &mut all[usize::from(start)..end];
        follow_all(watches, &Change::Filter(filter))?;
        show_all(alloc, first, watches, views)
    }

    // Brings a change to each watch, and to no view.
    fn follow(&mut self, change: &Change<'_>) -> Result<(), AllocError>
        requires fits { EachWatch (Fits change.now) self.old }
        ensures watched { OnOk result (AreChanged (changed change.now) self.old self.new) }
        ensures slots { (self.new.first ≡ self.old.first) × (self.new.count ≡ self.old.count) }
        ensures number { length self.new.watches ≡ length self.old.watches }
    {
        follow_all(&mut self.watches, change)
    }

    // Brings a change to each watch, and tells its view the rows that differ.
    fn bring(
        &mut self,
        alloc: Global,
        views: &mut [Option<Box<dyn TreeView>>],
        change: &Change<'_>,
    ) -> Result<(), AllocError>
        requires fits { EachWatch (Fits change.now) self.old }
        requires shown { AreShown (λ b. rows b) self.old views.old }
        ensures watched { OnOk result (AreChanged (changed change.now) self.old self.new) }
        ensures shown { OnOk result (AreShown (λ b. rows b) self.new views.new) }
        ensures told { AreTold (λ b. told b) self.old (most_told change.now) views.old views.new }
        ensures slots { (self.new.first ≡ self.old.first) × (self.new.count ≡ self.old.count) }
    {
        follow_all(&mut self.watches, change)?;
        show_all(alloc, usize::from(self.first), &self.watches, views)
    }
}
