//! Views of the rows of a tree.
ghost use Rattle.std.specs.Prelude.{◌≡◌, ℕ, ◌+◌, ◌<◌, ◌≤◌, [], List, Some, None, length, slice_get, OnOk, OnErr};
ghost use Rattle.tree_rows.specs.declared.row.Row.{Row as RowValue};
ghost use Rattle.tree_rows.specs.Rows.{KeysDiffer};
ghost use Rattle.tree_live.specs.Views.{Sets, Told, ToldMore};

use cell_core::Move;
use std::alloc::AllocError;
use tree_rows::Row;

/// Something that shows the rows of a tree, one for each key, and is told each change of them.
pub trait TreeView: Drop {
    // The rows that it shows, in an order of its own.
    ghost rows: { Self → List RowValue };

    // Which view it is, and how many changes it was told; this counter stands still at the greatest u64.
    ghost told: { Self → Told };

    /// Takes all rows out.
    fn clear(&mut self)
        ensures none { rows self.new ≡ [] }
        ensures counts { ToldMore 1 (told self.old) (told self.new) };

    /// Sets the row of its key. After want of memory the rows are as they were, and no change was told.
    fn put(&mut self, row: Row) -> Result<(), AllocError>
        ensures set { OnOk result (Sets row.key (Some row) (rows self.old) (rows self.new)) }
        ensures unchanged { OnErr result (rows self.new ≡ rows self.old) }
        ensures untold { OnErr result (told self.new ≡ told self.old) }
        ensures counts { ToldMore 1 (told self.old) (told self.new) };

    /// Takes the row of a key out, if there is one.
    fn take(&mut self, key: Option<Move>)
        ensures out { Sets key None (rows self.old) (rows self.new) }
        ensures counts { ToldMore 1 (told self.old) (told self.new) };

    /// How many rows it shows. No two of them have one key.
    fn len(&self) -> usize
        ensures len { result ≡ length (rows self.now) }
        ensures once { KeysDiffer (rows self.now) };

    /// How many changes it was told.
    fn told(&self) -> u64
        ensures told { result ≡ (told self.now).changes };

    /// The row at a place below their number.
    fn row(&self, i: usize) -> Row
        requires place { i < length (rows self.now) }
        ensures row { slice_get (rows self.now) i ≡ Some result };
}
