//! How many games reach each board.
use cell_core::PackedBoard;
use indexmap::IndexSet;
use std::alloc::{AllocError, Global};
use std::marker::Model;

/// How many games reach a board, and the last of them.
#[derive(Drop)]
pub(crate) struct Met {
    games: u32,
    last: Option<u32>,
}

impl Model for Met {
    ghost use Rattle.book_pages.specs.Meeting.{HowMany, IsHowMany};

    ghost Value = { HowMany };

    ghost view = { λ m. record { games = m.games; last = m.last } };

    ghost invariant = { λ m. IsHowMany m.games m.last };
}

impl Met {
    ghost use Rattle.std.specs.Prelude.{◌≡◌, ◌<◌, ◌+◌, ◌-◌, ◌^◌, Some};
    ghost use Rattle.book_pages.specs.Meeting.{IsBefore, no_game, with_game};

    // No game.
    fn none() -> Met
        ensures none { result ≡ no_game }
    {
        Met {
            games: 0,
            last: None,
        }
    }

    /// How many games there are.
    pub(crate) fn games(&self) -> u32
        ensures games { result ≡ self.now.games }
    {
        self.games
    }

    // Game `i` reaches the board. No later one did.
    fn meet(&mut self, i: u32)
        requires few { i < 2 ^ 32 - 1 }
        requires order { IsBefore (i + 1) self.old.last }
        ensures again { self.old.last ≡ Some i → self.new ≡ self.old }
        ensures first { (self.old.last ≡ Some i → ⊥) → self.new ≡ with_game i self.old }
        ensures order { IsBefore (i + 1) self.new.last }
    {
        if self.last != Some(i) {
            self.last = Some(i);
            self.games += 1;
        }
    }
}

/// The boards that were met, and how many games reach each of them.
#[derive(Drop)]
pub(crate) struct Counts {
    boards: IndexSet<PackedBoard>,
    // One for each board.
    met: Vec<Met>,
}

impl Counts {
    ghost use Rattle.std.specs.Prelude.{◌≡◌, ◌<◌, ◌+◌, ◌-◌, ◌^◌, [], IfOk, OnOk, Some, length, slice_get};
    ghost use Rattle.std.specs.List.{IsDistinct, position_or_len};
    ghost use Rattle.indexmap.specs.IndexSet.{insert_key};
    ghost use Rattle.book_pages.specs.Book.{has_page, packed_eq};
    ghost use Rattle.book_pages.specs.Meeting.{AreCounts, Meets, with_place};

    /// No board was met yet.
    pub(crate) fn new(alloc: Global) -> Counts
        ensures boards { result.boards.keys ≡ [] }
        ensures met { result.met.items ≡ [] }
    {
        Counts {
            boards: IndexSet::new(alloc),
            met: Vec::new(alloc),
        }
    }

    /// Game `i` reaches a board. No later one was counted.
    pub(crate) fn meet(&mut self, i: u32, board: PackedBoard) -> Result<(), AllocError>
        requires few { i < 2 ^ 32 - 1 }
        requires kept { AreCounts (i + 1) self.old.boards.keys self.old.met.items }
        ensures kept { OnOk result (AreCounts (i + 1) self.new.boards.keys self.new.met.items) }
        ensures met { OnOk result (Meets i board self.old.boards.keys self.old.met.items self.new.boards.keys self.new.met.items) }
    {
        let number = self.number(board)?;
        self.met[number].meet(i);
        Ok(())
    }

    // The number of a board, which comes last if it is new.
    fn number(&mut self, board: PackedBoard) -> Result<usize, AllocError>
        requires count { length self.old.met.items ≡ length self.old.boards.keys }
        ensures number { IfOk result (λ number. number ≡ position_or_len (packed_eq board) self.old.boards.keys) }
        ensures within { IfOk result (λ number. number < length self.new.met.items) }
        ensures boards { OnOk result (self.new.boards.keys ≡ insert_key packed_eq self.old.boards.keys board) }
        ensures distinct { OnOk result (IsDistinct packed_eq self.new.boards.keys) }
        ensures met { OnOk result (self.new.met.items ≡ with_place (has_page board self.old.boards.keys) self.old.met.items) }
        ensures count { OnOk result (length self.new.met.items ≡ length self.new.boards.keys) }
    {
        let (number, new) = self.boards.insert_full(board)?;
        if new {
            self.met.push(Met::none())?;
        }
        Ok(number)
    }

    /// How many boards were met.
    pub(crate) fn len(&self) -> usize
        ensures len { result ≡ length self.now.boards.keys }
    {
        self.boards.len()
    }

    /// The board with a number.
    pub(crate) fn board(&self, number: usize) -> &PackedBoard
        requires board { number < length self.now.boards.keys }
        ensures board { slice_get self.now.boards.keys number ≡ Some result.now }
    {
        &self.boards.as_slice()[number]
    }

    /// How many games reach each board.
    pub(crate) fn met(&self) -> &[Met]
        ensures met { result.now ≡ self.now.met.items }
    {
        self.met.as_slice()
    }
}
