//! The keys whose row is another than the one that a view shows.
ghost use Rattle.std.specs.Prelude.{◌≡◌, if◌then◌else◌, [], ◌∷◌, ◌++◌, is_some, IfOk, OnOk};
ghost use Rattle.tree_rows.specs.Rows.{KeysDiffer, row_at};
ghost use Rattle.tree_live.specs.RowChanges.{is_found, keys_alone, keys_anew, keys_changed, same_counts, same_row, same_sums};

use crate::view::TreeView;
use cell_core::Move;
use std::alloc::{AllocError, Global};
use tree_rows::{Row, same_key};

/// The keys that have another row in a table than in a view.
pub(crate) fn keys_changed(
    alloc: Global,
    view: &dyn TreeView,
    table: &[Row],
) -> Result<Vec<Option<Move>>, AllocError>
    ensures keys { IfOk result (λ keys. keys.items ≡ keys_changed (rows view.now) table.now) }
    ensures once { KeysDiffer (rows view.now) }
{
    let mut keys = Vec::new(alloc);
    let shown = shown_rows(alloc, view, table, &mut keys)?;
    note_anew(&mut keys, shown.as_slice(), table)?;
    Ok(keys)
}

// The rows that a view shows; the keys of those for whose key a table has none are put behind the others.
fn shown_rows(
    alloc: Global,
    view: &dyn TreeView,
    table: &[Row],
    keys: &mut Vec<Option<Move>>,
) -> Result<Vec<Row>, AllocError>
    ensures rows { IfOk result (λ shown. shown.items ≡ rows view.now) }
    ensures noted { IfOk result (λ _. keys.new.items ≡ keys.old.items ++ keys_alone table.now (rows view.now)) }
    ensures once { KeysDiffer (rows view.now) }
{
    let len = view.len();
    let mut shown = Vec::with_capacity(alloc, len)?;
    for i in 0..len {
        let row = view.row(i);
        note_alone(keys, table, &row.key)?;
        shown.push(row)?;
    }
    Ok(shown)
}

// Puts a key behind the others that a table has no row of.
fn note_alone(
    keys: &mut Vec<Option<Move>>,
    table: &[Row],
    key: &Option<Move>,
) -> Result<(), AllocError>
    ensures noted { OnOk result (keys.new.items ≡ (if is_some (row_at key.now table.now) then keys.old.items else keys.old.items ++ key.now ∷ [])) }
{
    if find(table, key).is_none() {
        keys.push(*key)?;
    }
    Ok(())
}

// Puts the keys of those rows behind the others for whose key other rows have another one, or none.
fn note_anew(keys: &mut Vec<Option<Move>>, others: &[Row], rows: &[Row]) -> Result<(), AllocError>
    ensures noted { OnOk result (keys.new.items ≡ keys.old.items ++ keys_anew others.now rows.now) }
{
    for row in rows {
        if !is_found(others, row) {
            keys.push(row.key)?;
        }
    }
    Ok(())
}

// Whether a row is the one that other rows have for its key.
fn is_found(others: &[Row], row: &Row) -> bool
    ensures found { result ≡ is_found (row_at row.now.key others.now) row.now }
{
    match find(others, &row.key) {
        None => false,
        Some(other) => same_row(&other, row),
    }
}

// The row of a key, if there is one.
fn find(rows: &[Row], key: &Option<Move>) -> Option<Row>
    ensures row { result ≡ row_at key.now rows.now }
{
    for row in rows {
        if same_key(&row.key, key) {
            return Some(*row);
        }
    }
    None
}

// Whether two rows are the same.
#[tactic(auto, unfolding(crate::specs::RowChanges::same_row))]
fn same_row(a: &Row, b: &Row) -> bool
    ensures same { result ≡ same_row a.now b.now }
{
    same_key(&a.key, &b.key) && same_counts(a, b) && same_sums(a, b)
}

// Whether two rows count the same games.
fn same_counts(a: &Row, b: &Row) -> bool
    ensures same { result ≡ same_counts a.now b.now }
{
    a.games == b.games
        && a.white == b.white
        && a.draws == b.draws
        && a.black == b.black
        && a.unfinished == b.unfinished
}

// Whether two rows have the same sums.
fn same_sums(a: &Row, b: &Row) -> bool
    ensures same { result ≡ same_sums a.now b.now }
{
    a.mover_sum == b.mover_sum
        && a.mover_rated == b.mover_rated
        && a.other_sum == b.other_sum
        && a.other_rated == b.other_rated
        && a.year_sum == b.year_sum
        && a.dated == b.dated
}
