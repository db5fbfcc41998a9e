//! What is counted on a board.
ghost use Rattle.std.specs.Prelude.{◌≡◌, ◌≤◌};

use std::alloc::{AllocError, Global};
use std::marker::Model;
use tree_rows::{GameHit, Rows};

/// The rows of a board, and the last game that was counted there.
#[derive(Drop)]
pub(crate) struct Tally {
    rows: Rows,
    last: Option<u32>,
}

impl Model for Tally {
    ghost use Rattle.book_pages.specs.Keeping.{IsTally, Tallied};

    ghost Value = { Tallied };

    ghost view = { λ t. record { rows = t.rows; last = t.last } };

    ghost invariant = { λ t. IsTally t.rows t.last };
}

impl Tally {
    ghost use Rattle.std.specs.Prelude.{◌≡◌, ◌≤◌, ◌+◌, None, Some, [], OnOk};
    ghost use Rattle.tree_rows.specs.Rows.{rows_of};
    ghost use Rattle.book_pages.specs.Keeping.{IsBelow, IsMet};

    /// No game was counted.
    pub(crate) fn new(alloc: Global) -> Tally
        ensures none { result ≡ record { rows = rows_of []; last = None } }
    {
        Tally {
            rows: Rows::new(alloc),
            last: None,
        }
    }

    /// The rows.
    pub(crate) fn rows(&self) -> &Rows
        ensures rows { result.now ≡ self.now.rows }
    {
        &self.rows
    }

    /// Counts game `i`, unless it was counted before. No later game was.
    pub(crate) fn meet(&mut self, i: u32, hit: &GameHit) -> Result<(), AllocError>
        requires few { i ≤ 16777213 }
        requires order { IsBelow (i + 1) self.old }
        ensures again { self.old.last ≡ Some i → OnOk result (self.new ≡ self.old) }
        ensures first { (self.old.last ≡ Some i → ⊥) → OnOk result (IsMet i hit.now self.old self.new) }
    {
        if self.last == Some(i) {
            return Ok(());
        }
        self.rows.add_hit(hit)?;
        self.last = Some(i);
        Ok(())
    }
}
