//! Rows in a list, one for each key.
ghost use Rattle.std.specs.Prelude.{◌≡◌, ◌≤◌, Some, None, length, OnOk, OnErr};
ghost use Rattle.tree_rows.specs.Rows.{KeysDiffer};
ghost use Rattle.tree_live.specs.Views.{Sets};
ghost use Rattle.tree_live.specs.Keeping.{place_of};

use cell_core::Move;
use std::alloc::AllocError;
use tree_rows::{Row, same_key};

/// Puts a row in the place of the one with its key, or behind the others. After want of memory the rows are as they were.
pub(crate) fn set_row(rows: &mut Vec<Row>, row: Row) -> Result<(), AllocError>
    ensures set { OnOk result (Sets row.key (Some row) rows.old.items rows.new.items) }
    ensures differ { KeysDiffer rows.old.items → KeysDiffer rows.new.items }
    ensures unchanged { OnErr result (rows.new.items ≡ rows.old.items) }
{
    let place = place_of(rows.as_slice(), &row.key);
    if place < rows.len() {
        rows[place] = row;
        return Ok(());
    }
    rows.push(row)?;
    Ok(())
}

/// Takes the row of a key out, if there is one.
pub(crate) fn take_row(rows: &mut Vec<Row>, key: &Option<Move>)
    requires differ { KeysDiffer rows.old.items }
    ensures out { Sets key.now None rows.old.items rows.new.items }
    ensures differ { KeysDiffer rows.new.items }
{
    let place = place_of(rows.as_slice(), key);
    if place < rows.len() {
        rows.remove(place);
    }
}

// The place of the first row with this key, or the number of rows if none has it.
fn place_of(rows: &[Row], key: &Option<Move>) -> usize
    ensures place { result ≡ place_of key.now rows.now }
    ensures within { result ≤ length rows.now }
{
    let mut place = 0;
    for row in rows {
        if same_key(&row.key, key) {
            return place;
        }
        place += 1;
    }
    place
}
