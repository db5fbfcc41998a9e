//! A view in memory.
ghost use Rattle.std.specs.Prelude.{◌≡◌, ◌+◌, ◌<◌, ◌≤◌, [], Some, None, length, slice_get, IsErr, OnOk, OnErr};
ghost use Rattle.tree_rows.specs.Rows.{KeysDiffer};
ghost use Rattle.tree_live.specs.Views.{Sets, Table, ToldMore, more, told_of};

use crate::place::{set_row, take_row};
use crate::view::TreeView;
use cell_core::Move;
use std::alloc::AllocError;
use std::marker::Model;
use tree_rows::Row;

/// A view that keeps its rows in a list.
///
/// Contracts see its rows, its counts of changes and of puts, and which put it refuses.
#[derive(Drop)]
pub struct TableView {
    rows: Vec<Row>,
    told: u64,
    puts: u64,
    refuse: Option<u64>,
}

impl Model for TableView {
    ghost use Rattle.tree_rows.specs.Rows.{KeysDiffer};
    ghost use Rattle.tree_live.specs.Views.{Table};

    ghost Value = { Table };

    ghost view = { λ v. record { rows = v.rows.items; told = v.told; puts = v.puts; refuse = v.refuse } };

    ghost invariant = { λ v. KeysDiffer v.rows.items };
}

impl TableView {
    /// Begins with these rows, of which no two have one key, and with no change told. Its put of the number `refuse`, counted from 0,
    /// answers want of memory.
    pub fn new(rows: Vec<Row>, refuse: Option<u64>) -> TableView
        requires differ { KeysDiffer rows.items }
        ensures { result ≡ record { rows = rows.items; told = 0; puts = 0; refuse = refuse } }
    {
        TableView {
            rows,
            told: 0,
            puts: 0,
            refuse,
        }
    }
}

impl TreeView for TableView {
    ghost rows = { λ v. v.rows };

    ghost told = { λ v. told_of v };

    fn clear(&mut self)
        ensures none { self.new.rows ≡ [] }
        ensures counts { ToldMore 1 (told_of self.old) (told_of self.new) }

        // More than every view promises: the count of changes, exactly.
        ensures exact { self.new ≡ record self.old { rows = []; told = more self.old.told } }
    {
        self.rows.clear();
        self.told = self.told.saturating_add(1);
    }

    fn put(&mut self, row: Row) -> Result<(), AllocError>
        ensures set { OnOk result (Sets row.key (Some row) self.old.rows self.new.rows) }
        ensures unchanged { OnErr result (self.new.rows ≡ self.old.rows) }
        ensures untold { OnErr result (told_of self.new ≡ told_of self.old) }
        ensures counts { ToldMore 1 (told_of self.old) (told_of self.new) }

        // More than every view promises: which put is refused, and the counts.
        ensures refused { self.old.refuse ≡ Some self.old.puts → IsErr result }
        ensures told { OnOk result (self.new.told ≡ more self.old.told) }
        ensures puts { self.new.puts ≡ more self.old.puts }
        ensures refuse { self.new.refuse ≡ self.old.refuse }
    {
        let number = self.puts;
        self.puts = number.saturating_add(1);
        if self.refuse == Some(number) {
            return Err(AllocError);
        }
        set_row(&mut self.rows, row)?;
        self.told = self.told.saturating_add(1);
        Ok(())
    }

    fn take(&mut self, key: Option<Move>)
        ensures out { Sets key None self.old.rows self.new.rows }
        ensures counts { ToldMore 1 (told_of self.old) (told_of self.new) }

        // More than every view promises: the count of changes, exactly.
        ensures told { self.new.told ≡ more self.old.told }
    {
        take_row(&mut self.rows, &key);
        self.told = self.told.saturating_add(1);
    }

    fn len(&self) -> usize {
        self.rows.len()
    }

    fn told(&self) -> u64 {
        self.told
    }

    fn row(&self, i: usize) -> Row {
        self.rows[i]
    }
}
