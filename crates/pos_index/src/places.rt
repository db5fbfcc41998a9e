//! The places of games, by their boards and by their games.
ghost use Rattle.std.specs.Prelude.{◌≡◌, ◌+◌, ◌≤◌, ◌<◌, ◌^◌, [], ◌∷◌, ◌++◌, List, Some, length, drop, take, slice_set, IfOk, IsTrue, OnOk, OnErr};
ghost use Rattle.cell_core.specs.Packed.{Packed};
ghost use Rattle.game_filter.specs.Renumbering.{renumbered};
ghost use Rattle.pos_index.specs.Hits.{Place, hits_from, last_of};
ghost use Rattle.pos_index.specs.Keeping.{AreKept, EndsEmpty, IsNumber, IsPlaceOn, next_put, place_in, row_in, with_row};

use crate::hit::Hit;
use crate::last::Last;
use crate::lists::Lists;
use crate::spot::Spot;
use cell_core::{Move, PackedBoard};
use game_filter::Renumbering;
use indexmap::IndexSet;
use std::alloc::{AllocError, Global};
use std::marker::Model;

/// The places of the games with the numbers from 0 on. A board is known by its number among those that were met. It
/// keeps its number even if no game stands there any more, until such boards are forgotten.
#[derive(Drop)]
pub(crate) struct Places {
    boards: IndexSet<PackedBoard>,
    // There may be a list more than there are boards, without hits.
    lists: Lists,
    // How many places have gone since it was last looked for boards without hits, or more.
    gone: usize,
}

impl Model for Places {
    ghost use Rattle.std.specs.Prelude.{List};
    ghost use Rattle.pos_index.specs.Hits.{Place};
    ghost use Rattle.pos_index.specs.Keeping.{AreKept, places_by};

    ghost Value = { List (List Place) };

    ghost view = { λ p. places_by p.boards.keys p.lists.rows };

    ghost invariant = { λ p. AreKept p.boards p.lists };
}

impl Places {
    /// No games.
    pub(crate) fn new(alloc: Global) -> Places
        ensures { result ≡ [] }
    {
        Places {
            boards: IndexSet::new(alloc),
            lists: Lists::new(alloc),
            gone: 0,
        }
    }

    /// How many numbers of games there are.
    pub(crate) fn len(&self) -> usize
        ensures { result ≡ length self.now }
    {
        self.lists.rows().len()
    }

    /// How many places the game with a number has.
    pub(crate) fn count(&self, i: u32) -> usize
        requires { i < length self.now }
        ensures { result ≡ length (row_in self.now i) }
    {
        self.lists.rows()[i as usize].boards().len()
    }

    /// The hits on a board.
    pub(crate) fn find(&self, board: &PackedBoard) -> &[Hit]
        ensures { result.now ≡ hits_from board.now 0 self.now }
    {
        match self.boards.get_index_of(board) {
            Some(number) => self.lists.hits(number as u32),
            None => &[],
        }
    }

    /// One game more, without places, with memory for `places` of them.
    pub(crate) fn add_row(&mut self, alloc: Global, places: usize) -> Result<(), AllocError>
        ensures added { OnOk result (self.new ≡ self.old ++ [] ∷ []) }
        ensures unchanged { OnErr result (self.new ≡ self.old) }
    {
        self.lists.add_row(alloc, places)
    }

    /// The last game goes, which has no places.
    pub(crate) fn pop_row(&mut self)
        requires { EndsEmpty self.old }
        ensures { (rows : List (List Place)) → self.old ≡ rows ++ [] ∷ [] → self.new ≡ rows }
    {
        self.lists.pop_row();
    }

    /// One place more of game `i`, behind its others.
    pub(crate) fn put(
        &mut self,
        alloc: Global,
        i: u32,
        board: PackedBoard,
        ply: u8,
        next: &Option<Move>,
    ) -> Result<(), AllocError>
        requires game { i < length self.old }
        ensures put { OnOk result (self.new ≡ with_row self.old i (row_in self.old i ++ record { board = board; ply = ply; next = next.now } ∷ [])) }
        ensures unchanged { OnErr result (self.new ≡ self.old) }
    {
        let number = number_of(alloc, &mut self.boards, &mut self.lists, board)?;
        let spot = Spot {
            board: number,
            ply,
            next: *next,
        };
        self.lists.put(i, &spot)
    }

    /// Whether place `k` of game `i` is after `k` half-moves and on this board.
    pub(crate) fn is_at(&self, i: u32, k: u8, board: &PackedBoard) -> bool
        requires game { i < length self.now }
        requires place { k < length (row_in self.now i) }
        ensures at { IsTrue result → IsPlaceOn board.now k (place_in (row_in self.now i) k) }
    {
        let spot = self.lists.spot(i, usize::from(k));
        match self.boards.get_index(spot.board as usize) {
            Some(other) => other == board && spot.ply == k,
            None => false,
        }
    }

    /// The places of game `i` from a place on go, so many.
    pub(crate) fn drop_middle(&mut self, i: u32, from: usize, count: usize)
        requires game { i < length self.old }
        requires places { from + count ≤ length (row_in self.old i) }
        ensures { self.new ≡ with_row self.old i (take from (row_in self.old i) ++ drop (from + count) (row_in self.old i)) }
    {
        self.lists.drop_middle(i, from, count);
        self.gone = self.gone.saturating_add(count);
    }

    /// Sets the move after place `k` of game `i`.
    pub(crate) fn set_next(&mut self, i: u32, k: usize, next: &Option<Move>)
        requires game { i < length self.old }
        requires place { k < length (row_in self.old i) }
        ensures { self.new ≡ with_row self.old i (slice_set (row_in self.old i) k (next_put next.now (place_in (row_in self.old i) k))) }
    {
        self.lists.set_next(i, k, next);
    }

    /// The first places of game `i` stay, so many.
    pub(crate) fn truncate(&mut self, i: u32, count: usize)
        requires game { i < length self.old }
        ensures { self.new ≡ with_row self.old i (take count (row_in self.old i)) }
    {
        let left = count.min(self.count(i));
        self.gone = self.gone.saturating_add(self.count(i) - left);
        self.lists.truncate(i, count);
    }

    /// The games get their new numbers, and those that go are left out.
    pub(crate) fn renumber(&mut self, renumbering: &Renumbering)
        requires same_games { length renumbering.now.to ≡ length self.old }
        ensures { self.new ≡ renumbered renumbering.now.to self.old }
    {
        self.lists.renumber(renumbering);
        self.gone = self.boards.len();
    }

    /// Boards that no game meets any more are forgotten where they outnumber the others, unless memory runs out for the others. They are
    /// looked for where an eighth as many places have gone as there are boards.
    pub(crate) fn forget(&mut self)
        requires few { length self.old < 2 ^ 32 }
        ensures same { self.new ≡ self.old }
    {
        if self.gone < self.boards.len() / 8 {
            return;
        }
        self.gone = 0;
        if self.lists.met() >= self.boards.len() / 2 {
            return;
        }
        if let Ok(places) = anew(self) {
            *self = places;
        }
    }

    // One game more, with the places of game `i` of others.
    fn copy_row(&mut self, alloc: Global, others: &Places, i: u32) -> Result<(), AllocError>
        requires game { i < length others.now }
        requires last { i ≡ length self.old }
        ensures copied { OnOk result (self.new ≡ self.old ++ row_in others.now i ∷ []) }
    {
        let count = others.count(i);
        self.add_row(alloc, count)?;
        for k in 0..count {
            let (board, ply, next) = others.place(i, k);
            self.put(alloc, i, board, ply, &next)?;
        }
        Ok(())
    }

    /// What is kept of the last place of game `i`.
    pub(crate) fn last(&self, i: u32) -> Option<Last>
        requires { i < length self.now }
        ensures { result ≡ last_of (row_in self.now i) }
    {
        let count = self.count(i);
        if count == 0 {
            return None;
        }
        let (board, _, next) = self.place(i, count - 1);
        Some(Last::of(&board, &next))
    }

    // Place `k` of game `i`: the board, after how many half-moves, and the move then.
    fn place(&self, i: u32, k: usize) -> (PackedBoard, u8, Option<Move>)
        requires game { i < length self.now }
        requires place { k < length (row_in self.now i) }
        ensures place { place_in (row_in self.now i) k ≡ record { board = result.0; ply = result.1; next = result.2 } }
    {
        let spot = self.lists.spot(i, k);
        (self.boards[spot.board as usize], spot.ply, spot.next)
    }
}

// The same places, with the boards alone that are met.
fn anew(old: &Places) -> Result<Places, AllocError>
    requires few { length old.now < 2 ^ 32 }
    ensures same { IfOk result (λ places. places ≡ old.now) }
{
    let alloc = *old.boards.allocator();
    let mut places = Places::new(alloc);
    for i in 0..old.len() as u32 {
        places.copy_row(alloc, old, i)?;
    }
    Ok(places)
}

// The number of a board, which comes last if it is new. That there are more boards than 32 bits can tell is want of memory too.
fn number_of(
    alloc: Global,
    boards: &mut IndexSet<PackedBoard>,
    lists: &mut Lists,
    board: PackedBoard,
) -> Result<u32, AllocError>
    requires { AreKept boards.old lists.old }
    ensures number { IfOk result (λ number. IsNumber boards.new.keys number board) }
    ensures kept { AreKept boards.new lists.new }
    ensures begins { (more : List Packed) × (boards.new.keys ≡ boards.old.keys ++ more) }
    ensures rows { lists.new.rows ≡ lists.old.rows }
{
    if boards.len() >= u32::MAX as usize {
        return Err(AllocError);
    }
    if lists.boards() == boards.len() {
        lists.add_board(alloc)?;
    }
    let (number, _) = boards.insert_full(board)?;
    Ok(number as u32)
}
