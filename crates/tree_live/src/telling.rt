//! Telling a view the rows that changed.
ghost use Rattle.std.specs.Prelude.{◌≡◌, ◌+◌, ◌≤◌, length, OnOk};
ghost use Rattle.tree_rows.specs.Rows.{row_at};
ghost use Rattle.tree_live.specs.Views.{Sets, ToldMore};
ghost use Rattle.tree_live.specs.Keeping.{Tells};

use crate::view::TreeView;
use cell_core::Move;
use std::alloc::AllocError;
use tree_rows::Rows;

/// Tells a view the rows of these keys, each by one change.
pub(crate) fn tell(
    table: &Rows,
    view: &mut dyn TreeView,
    keys: &[Option<Move>],
) -> Result<(), AllocError>
    ensures told { OnOk result (Tells keys.now table.now (rows view.old) (rows view.new)) }
    ensures counts { ToldMore (length keys.now) (told view.old) (told view.new) }
{
    for key in keys {
        tell_row(table, view, key)?;
    }
    Ok(())
}

// Tells a view the row of a key.
fn tell_row(table: &Rows, view: &mut dyn TreeView, key: &Option<Move>) -> Result<(), AllocError>
    ensures told { OnOk result (Sets key.now (row_at key.now table.now) (rows view.old) (rows view.new)) }
    ensures counts { ToldMore 1 (told view.old) (told view.new) }
{
    match table.get(*key) {
        Some(row) => view.put(row),
        None => {
            view.take(*key);
            Ok(())
        }
    }
}
