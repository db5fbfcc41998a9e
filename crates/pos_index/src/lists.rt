//! The hits by the numbers of boards, and the boards of each game.
ghost use Rattle.std.specs.Prelude.{◌≡◌, ◌+◌, ◌≤◌, ◌<◌, ◌^◌, [], ◌∷◌, ◌++◌, All, List, length, drop, map, slice_set, take, OnOk, OnErr};
ghost use Rattle.game_filter.specs.Renumbering.{renumbered};
ghost use Rattle.pos_index.specs.Keeping.{AreListed, EndsEmpty, board_of, boards_of, hits_by, moved, next_set, row_in, spot_in, times, with_row};
ghost use Rattle.pos_index.specs.declared.hit.Hit.{Hit as Hitting};
ghost use Rattle.pos_index.specs.declared.spot.Spot.{Spot as Standing};

use crate::hit::Hit;
use crate::hits::Hits;
use crate::row::Row;
use crate::spot::Spot;
use cell_core::Move;
use game_filter::Renumbering;
use std::alloc::{AllocError, Global};
use std::marker::Model;

/// For each board, by its number, the hits, and for each game, by its number, its spots: each hit is of a spot, and each spot has its hit.
#[derive(Drop)]
pub(crate) struct Lists {
    lists: Vec<Hits>,
    rows: Vec<Row>,
}

impl Model for Lists {
    ghost use Rattle.std.specs.Prelude.{length};
    ghost use Rattle.pos_index.specs.Keeping.{Listed, AreListed, rows_seen};

    ghost Value = { Listed };

    ghost view = { λ l. record { boards = length l.lists.items; rows = rows_seen l.lists.items 0 l.rows.items } };

    ghost invariant = { λ l. AreListed l.lists.items (rows_seen l.lists.items 0 l.rows.items) };
}

impl Lists {
    /// No boards and no games.
    pub(crate) fn new(alloc: Global) -> Lists
        ensures { result ≡ record { boards = 0; rows = [] } }
    {
        Lists {
            lists: Vec::new(alloc),
            rows: Vec::new(alloc),
        }
    }

    /// How many boards there are.
    pub(crate) fn boards(&self) -> usize
        ensures { result ≡ self.now.boards }
    {
        self.lists.len()
    }

    /// The boards of each game.
    pub(crate) fn rows(&self) -> &[Row]
        ensures { result.now ≡ boards_of self.now.rows }
    {
        self.rows.as_slice()
    }

    /// Spot `k` of game `i`.
    pub(crate) fn spot(&self, i: u32, k: usize) -> Spot
        requires game { i < length self.now.rows }
        requires spot { k < length (row_in self.now.rows i) }
        ensures { result ≡ spot_in (row_in self.now.rows i) k }
    {
        let boards = self.rows[i as usize].boards();
        let board = boards[k];
        let hit = self.lists[board as usize].hit(i, times(boards.split_at(k).0, board));
        Spot {
            board,
            ply: hit.ply,
            next: hit.next,
        }
    }

    /// The hits on a board.
    pub(crate) fn hits(&self, board: u32) -> &[Hit]
        requires { board < self.now.boards }
        ensures { result.now ≡ hits_by board 0 self.now.rows }
    {
        self.lists[board as usize].as_slice()
    }

    /// How many boards have a hit.
    pub(crate) fn met(&self) -> usize
        ensures { result ≤ self.now.boards }
    {
        let mut met = 0;
        for hits in self.lists.as_slice() {
            if !hits.as_slice().is_empty() {
                met += 1;
            }
        }
        met
    }

    /// One board more.
    pub(crate) fn add_board(&mut self, alloc: Global) -> Result<(), AllocError>
        requires { self.old.boards < 2 ^ 32 }
        ensures added { OnOk result (self.new ≡ record self.old { boards = self.old.boards + 1 }) }
        ensures unchanged { OnErr result (self.new ≡ self.old) }
    {
        self.lists.push(Hits::new(alloc))?;
        Ok(())
    }

    /// One game more, without spots, with memory for `spots` of them.
    pub(crate) fn add_row(&mut self, alloc: Global, spots: usize) -> Result<(), AllocError>
        ensures added { OnOk result (self.new ≡ record self.old { rows = self.old.rows ++ [] ∷ [] }) }
        ensures unchanged { OnErr result (self.new ≡ self.old) }
    {
        self.rows.push(Row::new(alloc, spots)?)?;
        Ok(())
    }

    /// The last game goes, which has no spots.
    pub(crate) fn pop_row(&mut self)
        requires { EndsEmpty self.old.rows }
        ensures { (rows : List (List Standing)) → self.old.rows ≡ rows ++ [] ∷ [] → self.new ≡ record self.old { rows = rows } }
    {
        self.rows.pop();
    }

    /// One spot more of game `i`, behind its others.
    pub(crate) fn put(&mut self, i: u32, spot: &Spot) -> Result<(), AllocError>
        requires game { i < length self.old.rows }
        requires board { spot.now.board < self.old.boards }
        ensures put { OnOk result (self.new ≡ record self.old { rows = with_row self.old.rows i (row_in self.old.rows i ++ spot.now ∷ []) }) }
        ensures unchanged { OnErr result (self.new ≡ self.old) }
    {
        let board = spot.board as usize;
        put_in(&mut self.rows[i as usize], &mut self.lists[board], i, spot)?;
        Ok(())
    }

    /// The spots of game `i` from a place on go, so many.
    pub(crate) fn drop_middle(&mut self, i: u32, from: usize, count: usize)
        requires game { i < length self.old.rows }
        requires spots { from + count ≤ length (row_in self.old.rows i) }
        ensures { self.new ≡ record self.old { rows = with_row self.old.rows i (take from (row_in self.old.rows i) ++ drop (from + count) (row_in self.old.rows i)) } }
    {
        let (front, rest) = self.rows[i as usize].boards().split_at(from);
        take_middle(self.lists.as_mut_slice(), front, rest.split_at(count).0, i);
        self.rows[i as usize].drop_middle(from, count);
    }

    /// Sets the move after spot `k` of game `i`.
    pub(crate) fn set_next(&mut self, i: u32, k: usize, next: &Option<Move>)
        requires game { i < length self.old.rows }
        requires spot { k < length (row_in self.old.rows i) }
        ensures { self.new ≡ record self.old { rows = with_row self.old.rows i (slice_set (row_in self.old.rows i) k (next_set next.now (spot_in (row_in self.old.rows i) k))) } }
    {
        let boards = self.rows[i as usize].boards();
        let board = boards[k];
        let before = times(boards.split_at(k).0, board);
        self.lists[board as usize].set_next(i, before, next);
    }

    /// The first spots of game `i` stay, so many.
    pub(crate) fn truncate(&mut self, i: u32, count: usize)
        requires game { i < length self.old.rows }
        ensures { self.new ≡ record self.old { rows = with_row self.old.rows i (take count (row_in self.old.rows i)) } }
    {
        let boards = self.rows[i as usize].boards();
        let kept = count.min(boards.len());
        take_lasts(self.lists.as_mut_slice(), boards.split_at(kept).1, i);
        self.rows[i as usize].truncate(kept);
    }

    /// The games get their new numbers, and those that go are left out.
    pub(crate) fn renumber(&mut self, renumbering: &Renumbering)
        requires same_games { length renumbering.now.to ≡ length self.old.rows }
        ensures { self.new ≡ record self.old { rows = renumbered renumbering.now.to self.old.rows } }
    {
        renumber_lists(self.lists.as_mut_slice(), renumbering.to());
        renumbering.apply(&mut self.rows);
    }
}

// One spot more of game `game`, in its row and among the hits on its board.
fn put_in(row: &mut Row, hits: &mut Hits, game: u32, spot: &Spot) -> Result<(), AllocError>
    ensures row { OnOk result (row.new ≡ row.old ++ spot.now.board ∷ []) }
    ensures put { (before behind : List Hitting) → hits.old ≡ before ++ behind → All (λ h. h.game ≤ game) before → All (λ h. game < h.game) behind
        → OnOk result (hits.new ≡ before ++ record { game = game; ply = spot.now.ply; next = spot.now.next } ∷ behind) }
    ensures unchanged { OnErr result ((row.new ≡ row.old) × (hits.new ≡ hits.old)) }
{
    let hit = Hit {
        game,
        ply: spot.ply,
        next: spot.next,
    };
    row.push(spot.board)?;
    match hits.put(hit) {
        Ok(()) => Ok(()),
        Err(refused) => {
            row.pop();
            Err(refused)
        }
    }
}

// How often a board stands among these.
fn times(boards: &[u32], board: u32) -> usize
    ensures times { result ≡ times board boards.now }
    ensures within { result ≤ length boards.now }
{
    let mut found = 0;
    for k in 0..boards.len() {
        if boards[k] == board {
            found += 1;
        }
    }
    found
}

// Takes the hits of the spots of game `game` out that are on these boards, behind those on the boards in front.
fn take_middle(lists: &mut [Hits], front: &[u32], boards: &[u32], game: u32)
    requires { All (λ board. board < length lists.old) boards.now }
    ensures len { length lists.new ≡ length lists.old }
    ensures taken { (rows : List (List Standing)) (before spots behind : List Standing) → game < length rows → row_in rows game ≡ before ++ (spots ++ behind)
        → front.now ≡ map board_of before → boards.now ≡ map board_of spots → AreListed lists.old rows → AreListed lists.new (with_row rows game (before ++ behind)) }
{
    for k in 0..boards.len() {
        let board = boards[k];
        lists[board as usize].take(game, times(front, board));
    }
}

// Takes the hits of the last spots of game `game` out, which are on these boards.
fn take_lasts(lists: &mut [Hits], boards: &[u32], game: u32)
    requires { All (λ board. board < length lists.old) boards.now }
    ensures len { length lists.new ≡ length lists.old }
    ensures taken { (rows : List (List Standing)) (front spots : List Standing) → game < length rows → row_in rows game ≡ front ++ spots → boards.now ≡ map board_of spots
        → AreListed lists.old rows → AreListed lists.new (with_row rows game front) }
{
    for k in 0..boards.len() {
        let board = boards[boards.len() - 1 - k];
        lists[board as usize].take_last(game);
    }
}

// The hits of all boards get the new numbers of their games.
fn renumber_lists(lists: &mut [Hits], to: &[Option<u32>])
    requires { All (All (λ h. h.game < length to.now)) lists.old }
    ensures { lists.new ≡ map (moved to.now) lists.old }
{
    for k in 0..lists.len() {
        lists[k].renumber(to);
    }
}
