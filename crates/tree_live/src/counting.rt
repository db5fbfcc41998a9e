//! The games of a base as a watch counts them.
ghost use Rattle.std.specs.Prelude.{◌≡◌, length};

use crate::entry::{Entry, same_counted};
use crate::marks::Marks;
use crate::row_changes::keys_changed;
use crate::telling::tell;
use crate::view::TreeView;
use game_filter::Renumbering;
use std::alloc::{AllocError, Global};
use std::marker::Model;
use tree_rows::{GameHit, Rows};

/// Each game of the base as a watch keeps it, and the rows that sum the hits of the games that are in.
///
/// Contracts see the games.
#[derive(Drop)]
pub(crate) struct Counting {
    games: Vec<Entry>,
    table: Rows,
}

impl Model for Counting {
    ghost use Rattle.std.specs.Prelude.{◌≤◌, List, vec_len};
    ghost use Rattle.tree_live.specs.declared.entry.Entry.{Entry as EntryValue};
    ghost use Rattle.tree_live.specs.Keeping.{Sums};

    ghost Value = { List EntryValue };

    ghost view = { λ c. c.games.items };

    ghost invariant = { λ c. (vec_len c.games ≤ 16777214) × Sums c.games.items c.table };
}

impl Counting {
    ghost use Rattle.std.specs.Prelude.{◌≡◌, ◌+◌, ◌<◌, ◌≤◌, [], ◌∷◌, ◌++◌, List, Some, None, length, slice_set, IfOk, OnOk, OnErr};
    ghost use Rattle.game_filter.specs.Renumbering.{renumbered};
    ghost use Rattle.tree_rows.specs.declared.hit.GameHit.{GameHit as HitValue};
    ghost use Rattle.tree_rows.specs.Rows.{rows_of};
    ghost use Rattle.tree_live.specs.Views.{Shows};
    ghost use Rattle.tree_live.specs.RowChanges.{rows_changed};
    ghost use Rattle.tree_live.specs.Watching.{all_out, counted, hits_in, staying, with_game};
    ghost use Rattle.tree_live.specs.Keeping.{entry_at, marked, no_game, reaching};

    /// All games out.
    pub(crate) fn all_out(alloc: Global, hits: &[Option<GameHit>]) -> Result<Counting, AllocError>
        requires few { length hits.now ≤ 16777214 }
        ensures games { IfOk result (λ games. games ≡ all_out hits.now) }
    {
        let mut games = Vec::with_capacity(alloc, hits.len())?;
        for hit in hits {
            games.push(Entry {
                hit: *hit,
                is_in: false,
            })?;
        }
        Ok(Counting {
            games,
            table: Rows::new(alloc),
        })
    }

    /// The hit that is kept of game `i`, if there is one.
    pub(crate) fn hit(&self, i: u32) -> Option<GameHit>
        ensures hit { result ≡ (entry_at self.now i).hit }
    {
        let place = i as usize;
        if place >= self.games.len() {
            return None;
        }
        self.games[place].hit
    }

    /// Game `i` has become another, or is added. No view is told.
    pub(crate) fn set_game(&mut self, i: u32, game: Entry) -> Result<(), AllocError>
        requires game { i ≤ length self.old }
        requires room { i < 16777214 }
        ensures games { OnOk result (self.new ≡ with_game i game self.old) }
    {
        let place = i as usize;
        self.reach(place)?;
        self.change(place, game)
    }

    /// The games have become those that stay, with their new numbers. No view is told.
    pub(crate) fn renumber(&mut self, renumbering: &Renumbering) -> Result<(), AllocError>
        requires same_games { length renumbering.now.to ≡ length self.old }
        ensures games { OnOk result (self.new ≡ renumbered renumbering.now.to self.old) }
    {
        self.take_numbers(renumbering.to())?;
        self.move_games(renumbering);
        Ok(())
    }

    /// Puts a game in or out by its mark.
    pub(crate) fn mark(
        &mut self,
        i: usize,
        marks: Marks,
        mark: Option<u32>,
    ) -> Result<(), AllocError>
        requires game { i < length self.old }
        ensures games { OnOk result (self.new ≡ slice_set self.old i (marked marks (entry_at self.old i) mark)) }
    {
        let game = self.games[i];
        let is_in = marks.wanted(game.is_in, mark);
        if is_in == game.is_in {
            return Ok(());
        }
        self.change(i, Entry { is_in, ..game })
    }

    /// Tells a view the rows that differ from those that it shows.
    pub(crate) fn show(&self, alloc: Global, view: &mut dyn TreeView) -> Result<(), AllocError>
        ensures shown { OnOk result (Shows (hits_in self.now) (rows view.new)) }
        ensures same { (told view.new).who ≡ (told view.old).who }
        ensures told { (hits : List HitValue) → Shows hits (rows view.old) → (told view.new).changes ≤ (told view.old).changes + rows_changed (rows_of hits) (rows_of (hits_in self.now)) }
    {
        let keys = keys_changed(alloc, &*view, self.table.as_slice())?;
        tell(&self.table, view, keys.as_slice())
    }

    // Puts the games out that get no new number.
    fn take_numbers(&mut self, to: &[Option<u32>]) -> Result<(), AllocError>
        requires same_games { length to.now ≡ length self.old }
        ensures games { OnOk result (self.new ≡ staying to.now self.old) }
    {
        for i in 0..to.len() {
            self.mark(i, Marks::Numbers, to[i])?;
        }
        Ok(())
    }

    // A game becomes another.
    fn change(&mut self, i: usize, game: Entry) -> Result<(), AllocError>
        requires game { i < length self.old }
        ensures games { OnOk result (self.new ≡ slice_set self.old i game) }
    {
        if same_counted(&self.games[i].counted(), &game.counted()) {
            self.put(i, game);
            return Ok(());
        }
        self.take_out(i);
        self.put_in(i, game)
    }

    // A game becomes one of which nothing is counted.
    fn take_out(&mut self, i: usize)
        requires game { i < length self.old }
        ensures games { self.new ≡ slice_set self.old i no_game }
    {
        match self.games[i].counted() {
            Some(hit) => self.leave(i, &hit),
            None => self.put(i, NO_GAME),
        }
    }

    // A game of which nothing is counted becomes another.
    fn put_in(&mut self, i: usize, game: Entry) -> Result<(), AllocError>
        requires game { i < length self.old }
        requires out { entry_at self.old i ≡ no_game }
        ensures games { OnOk result (self.new ≡ slice_set self.old i game) }
    {
        match game.counted() {
            Some(hit) => self.enter(i, game, &hit),
            None => {
                self.put(i, game);
                Ok(())
            }
        }
    }

    // A game becomes another of which the same is counted.
    fn put(&mut self, i: usize, game: Entry)
        requires game { i < length self.old }
        requires same { counted game ≡ counted (entry_at self.old i) }
        ensures games { self.new ≡ slice_set self.old i game }
    {
        self.games[i] = game;
    }

    // A game becomes one of which nothing is counted; this hit was.
    fn leave(&mut self, i: usize, hit: &GameHit)
        requires game { i < length self.old }
        requires counted { counted (entry_at self.old i) ≡ Some hit.now }
        ensures games { self.new ≡ slice_set self.old i no_game }
    {
        self.table.drop_hit(hit);
        self.games[i] = NO_GAME;
    }

    // A game of which nothing is counted becomes one of which this hit is. After want of memory nothing changed.
    fn enter(&mut self, i: usize, game: Entry, hit: &GameHit) -> Result<(), AllocError>
        requires game { i < length self.old }
        requires out { entry_at self.old i ≡ no_game }
        requires counted { counted game ≡ Some hit.now }
        ensures games { OnOk result (self.new ≡ slice_set self.old i game) }
    {
        self.table.add_hit(hit)?;
        self.games[i] = game;
        Ok(())
    }

    // One more game, unless there is one of this number.
    fn reach(&mut self, i: usize) -> Result<(), AllocError>
        requires room { i < 16777214 }
        requires game { i ≤ length self.old }
        ensures games { OnOk result (self.new ≡ reaching i self.old) }
    {
        if i < self.games.len() {
            return Ok(());
        }
        self.add_game()
    }

    // One more game, of which nothing is counted.
    fn add_game(&mut self) -> Result<(), AllocError>
        requires room { length self.old < 16777214 }
        ensures games { OnOk result (self.new ≡ self.old ++ no_game ∷ []) }
        ensures unchanged { OnErr result (self.new ≡ self.old) }
    {
        self.games.push(NO_GAME)?;
        Ok(())
    }

    // The games that stay come to their new numbers; of those that go nothing is counted.
    fn move_games(&mut self, renumbering: &Renumbering)
        requires same_games { length renumbering.now.to ≡ length self.old }
        requires out { hits_in (renumbered renumbering.now.to self.old) ≡ hits_in self.old }
        ensures games { self.new ≡ renumbered renumbering.now.to self.old }
    {
        renumbering.apply(&mut self.games);
    }
}

// A game of which nothing is counted.
const NO_GAME: Entry = Entry {
    hit: None,
    is_in: false,
};
