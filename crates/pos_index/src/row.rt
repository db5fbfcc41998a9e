//! The boards of one game.
ghost use Rattle.std.specs.Prelude.{◌≡◌, ◌+◌, ◌-◌, ◌≤◌, [], ◌∷◌, ◌++◌, length, drop, take, IfOk, OnOk, OnErr};

use std::alloc::{AllocError, Global};
use std::marker::Model;

/// The numbers of the boards on which a game stands, in order.
#[derive(Drop)]
pub(crate) struct Row {
    boards: Vec<u32>,
}

impl Model for Row {
    ghost use Rattle.std.specs.Prelude.{List, ℕ};

    ghost Value = { List ℕ };

    ghost view = { λ r. r.boards.items };
}

impl Row {
    /// A row without boards, with memory for `boards` of them.
    pub(crate) fn new(alloc: Global, boards: usize) -> Result<Row, AllocError>
        ensures { IfOk result (λ row. row ≡ []) }
    {
        Ok(Row {
            boards: Vec::with_capacity(alloc, boards)?,
        })
    }

    /// The boards.
    pub(crate) fn boards(&self) -> &[u32]
        ensures { result.now ≡ self.now }
    {
        self.boards.as_slice()
    }

    /// One board more.
    pub(crate) fn push(&mut self, board: u32) -> Result<(), AllocError>
        ensures pushed { OnOk result (self.new ≡ self.old ++ board ∷ []) }
        ensures unchanged { OnErr result (self.new ≡ self.old) }
    {
        self.boards.push(board)?;
        Ok(())
    }

    /// The first boards stay, so many or all.
    pub(crate) fn truncate(&mut self, count: usize)
        ensures { self.new ≡ take count self.old }
    {
        self.boards.truncate(count);
    }

    /// The last board goes.
    pub(crate) fn pop(&mut self)
        ensures { self.new ≡ take (length self.old - 1) self.old }
    {
        self.boards.pop();
    }

    /// The boards from a place on go, so many.
    pub(crate) fn drop_middle(&mut self, from: usize, count: usize)
        requires { from + count ≤ length self.old }
        ensures { self.new ≡ take from self.old ++ drop (from + count) self.old }
    {
        self.boards.drain(from..from + count);
    }
}
