//! A position that is watched.
ghost use Rattle.std.specs.Prelude.{◌≡◌, length};

use crate::blocks::{bring, forget};
use crate::counting::Counting;
use crate::entry::Entry;
use crate::view::TreeView;
use cell_core::{Board, Colour, PackedBoard, unpack};
use game_filter::{Filter, Renumbering};
use std::alloc::{AllocError, Global};
use std::marker::Model;
use tree_rows::GameHit;

/// A board and a side to move that a view shows. For each game of the base it has the hit, if the game meets the
/// position, and whether the game is in the filter. Its rows sum the hits of the games that are in.
///
/// Contracts see the board and the games. The view is not kept: each call is lent it.
#[derive(Drop)]
pub struct Watch {
    board: PackedBoard,
    // Its men and the side to move.
    men: Board,
    side: Colour,
    games: Counting,
    // Of each 64 games: the bits by which they are in or out, if these are known.
    blocks: Vec<Option<u64>>,
}

impl Model for Watch {
    ghost use Rattle.std.specs.Prelude.{◌≡◌};
    ghost use Rattle.cell_core.specs.Packed.{packed_of};
    ghost use Rattle.tree_live.specs.Watching.{Watched};
    ghost use Rattle.tree_live.specs.Keeping.{AreBrought};

    ghost Value = { Watched };

    ghost view = { λ w. record { board = w.board; games = w.games } };

    ghost invariant = { λ w. (packed_of w.men w.side ≡ w.board) × AreBrought w.blocks.items w.games };
}

impl Watch {
    ghost use Rattle.std.specs.Prelude.{◌≡◌, ◌+◌, ◌<◌, ◌≤◌, [], ◌∷◌, ◌++◌, List, Some, None, length, slice_set, IfOk, OnOk, OnErr};
    ghost use Rattle.cell_core.specs.Packed.{packed_of};
    ghost use Rattle.game_filter.specs.Renumbering.{renumbered};
    ghost use Rattle.tree_rows.specs.declared.hit.GameHit.{GameHit as HitValue};
    ghost use Rattle.tree_rows.specs.Rows.{rows_of};
    ghost use Rattle.tree_live.specs.Views.{Shows, ToldMore};
    ghost use Rattle.tree_live.specs.RowChanges.{rows_changed};
    ghost use Rattle.tree_live.specs.Watching.{all_changes, all_out, counted, hits_in, staying, under, with_game};
    ghost use Rattle.tree_live.specs.Keeping.{entry_at};

    /// Watches a board and side, of which these are the hits of the games, one optional hit each: the view is cleared and shows the
    /// rows of those that are in.
    pub fn attach(
        alloc: Global,
        view: &mut dyn TreeView,
        board: PackedBoard,
        hits: &[Option<GameHit>],
        filter: &Filter,
    ) -> Result<Watch, AllocError>
        requires same_games { length hits.now ≡ length filter.now }
        requires few { length hits.now ≤ 16777214 }
        ensures watched { IfOk result (λ watch. watch ≡ record { board = board; games = under filter.now (all_out hits.now) }) }
        ensures shown { IfOk result (λ watch. Shows (hits_in watch.games) (rows view.new)) }
        ensures told { ToldMore (1 + length (hits_in (under filter.now (all_out hits.now)))) (told view.old) (told view.new) }
    {
        view.clear();
        let mut watch = Watch::all_out(alloc, board, hits)?;
        watch.set_filter(filter)?;
        watch.show(alloc, view)?;
        Ok(watch)
    }

    /// The board and side that are watched.
    pub fn board(&self) -> &PackedBoard
        ensures board { result.now ≡ self.now.board }
    {
        &self.board
    }

    /// The men and the side to move of that board.
    pub(crate) fn men(&self) -> (&Board, Colour)
        ensures board { packed_of result.0.now result.1 ≡ self.now.board }
    {
        (&self.men, self.side)
    }

    /// The filter has become this one, of the same games.
    pub fn filter_changed(
        &mut self,
        alloc: Global,
        view: &mut dyn TreeView,
        filter: &Filter,
    ) -> Result<(), AllocError>
        requires same_games { length filter.now ≡ length self.old.games }
        requires shown { Shows (hits_in self.old.games) (rows view.old) }
        ensures watched { OnOk result (self.new ≡ record self.old { games = under filter.now self.old.games }) }
        ensures shown { OnOk result (Shows (hits_in self.new.games) (rows view.new)) }
        ensures told { ToldMore (all_changes self.old.games (under filter.now self.old.games)) (told view.old) (told view.new) }
    {
        self.set_filter(filter)?;
        self.show(alloc, view)
    }

    /// Game `i` has become another, or is added: its hit, if it has one, and whether it is in.
    pub fn game_changed(
        &mut self,
        alloc: Global,
        view: &mut dyn TreeView,
        i: u32,
        game: Entry,
    ) -> Result<(), AllocError>
        requires game { i ≤ length self.old.games }
        requires room { i < 16777214 }
        requires shown { Shows (hits_in self.old.games) (rows view.old) }
        ensures watched { OnOk result (self.new ≡ record self.old { games = with_game i game self.old.games }) }
        ensures shown { OnOk result (Shows (hits_in self.new.games) (rows view.new)) }
        ensures told { ToldMore (all_changes self.old.games (with_game i game self.old.games)) (told view.old) (told view.new) }
    {
        self.set_game(i, game)?;
        self.show(alloc, view)
    }

    /// The games have become those that stay, with their new numbers.
    pub fn renumbered(
        &mut self,
        alloc: Global,
        view: &mut dyn TreeView,
        renumbering: &Renumbering,
    ) -> Result<(), AllocError>
        requires same_games { length renumbering.now.to ≡ length self.old.games }
        requires shown { Shows (hits_in self.old.games) (rows view.old) }
        ensures watched { OnOk result (self.new ≡ record self.old { games = renumbered renumbering.now.to self.old.games }) }
        ensures shown { OnOk result (Shows (hits_in self.new.games) (rows view.new)) }
        ensures told { ToldMore (all_changes self.old.games (staying renumbering.now.to self.old.games)) (told view.old) (told view.new) }
    {
        self.renumber(renumbering)?;
        self.show(alloc, view)
    }

    /// The hit that is kept of game `i`, if there is one.
    pub(crate) fn hit(&self, i: u32) -> Option<GameHit>
        ensures hit { result ≡ (entry_at self.now.games i).hit }
    {
        self.games.hit(i)
    }

    /// Game `i` has become another, or is added. No view is told.
    pub(crate) fn set_game(&mut self, i: u32, game: Entry) -> Result<(), AllocError>
        requires game { i ≤ length self.old.games }
        requires room { i < 16777214 }
        ensures watched { OnOk result (self.new ≡ record self.old { games = with_game i game self.old.games }) }
    {
        match self.games.set_game(i, game) {
            Ok(()) => {
                forget(self.blocks.as_mut_slice(), i as usize / 64);
                Ok(())
            }
            Err(error) => {
                self.blocks.clear();
                Err(error)
            }
        }
    }

    /// The games have become those that stay, with their new numbers. No view is told.
    pub(crate) fn renumber(&mut self, renumbering: &Renumbering) -> Result<(), AllocError>
        requires same_games { length renumbering.now.to ≡ length self.old.games }
        ensures watched { OnOk result (self.new ≡ record self.old { games = renumbered renumbering.now.to self.old.games }) }
    {
        self.blocks.clear();
        self.games.renumber(renumbering)
    }

    /// The filter has become this one, of the same games. No view is told.
    pub(crate) fn set_filter(&mut self, filter: &Filter) -> Result<(), AllocError>
        requires same_games { length filter.now ≡ length self.old.games }
        ensures watched { OnOk result (self.new ≡ record self.old { games = under filter.now self.old.games }) }
    {
        self.blocks
            .resize(filter.len().div_ceil(64) as usize, None)?;
        match bring(&mut self.games, self.blocks.as_mut_slice(), filter) {
            Ok(()) => Ok(()),
            Err(error) => {
                self.blocks.clear();
                Err(error)
            }
        }
    }

    /// Tells a view the rows that differ from those that it shows.
    pub(crate) fn show(&self, alloc: Global, view: &mut dyn TreeView) -> Result<(), AllocError>
        ensures shown { OnOk result (Shows (hits_in self.now.games) (rows view.new)) }
        ensures same { (told view.new).who ≡ (told view.old).who }
        ensures told { (hits : List HitValue) → Shows hits (rows view.old) → (told view.new).changes ≤ (told view.old).changes + rows_changed (rows_of hits) (rows_of (hits_in self.now.games)) }
    {
        self.games.show(alloc, view)
    }

    /// Watches no more: the box is dropped.
    pub fn detach(self, slot: &mut Option<Box<dyn TreeView>>)
        ensures gone { slot.new ≡ None }
    {
        *slot = None;
    }

    // All games out.
    fn all_out(
        alloc: Global,
        board: PackedBoard,
        hits: &[Option<GameHit>],
    ) -> Result<Watch, AllocError>
        requires few { length hits.now ≤ 16777214 }
        ensures watched { IfOk result (λ watch. watch ≡ record { board = board; games = all_out hits.now }) }
    {
        let (men, side) = unpack(&board);
        let games = Counting::all_out(alloc, hits)?;
        Ok(Watch {
            board,
            men,
            side,
            games,
            blocks: Vec::new(alloc),
        })
    }
}
