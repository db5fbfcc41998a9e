//! The text of a crosstable.
ghost use Rattle.std.specs.Prelude.{◌≡◌, [], ◌∷◌, ◌++◌, map, OnOk};
ghost use Rattle.std.specs.Fmt.{decimal};
ghost use Rattle.cross_table.specs.Crosstable.{line_text, lines_text, or_dot, points_text, table_text};
ghost use Rattle.cross_table.specs.Keeping.{front_text, has_met, last_text, row_cell, row_cells, row_line, signs_with, table_in};

use crate::played::Met;
use crate::row::Row;
use itoa::Buffer;
use std::alloc::AllocError;

/// Adds the text of a crosstable: a line for each row, and the last one. It fails only for want of memory, and a part of the text may then
/// have been added.
#[tactic(auto, using(std::proofs::Common::append_assoc), unfolding(crate::specs::Crosstable::table_text))]
pub(crate) fn push_table(into: &mut Vec<u8>, rows: &[Row], games: usize) -> Result<(), AllocError>
    ensures { OnOk result (into.new.items ≡ into.old.items ++ table_text (table_in rows.now games)) }
{
    push_rows(into, rows)?;
    push_last(into, rows.len(), games)
}

// Adds the lines of all rows.
fn push_rows(into: &mut Vec<u8>, rows: &[Row]) -> Result<(), AllocError>
    ensures { OnOk result (into.new.items ≡ into.old.items ++ lines_text 1 (map (row_line rows.now) rows.now)) }
{
    let mut above = 0;
    for row in rows {
        push_row(into, above + 1, row, rows)?;
        above += 1;
    }
    Ok(())
}

// Adds the line of a row with this rank.
#[tactic(auto, using(std::proofs::Common::append_assoc), unfolding(crate::specs::Crosstable::line_text))]
fn push_row(into: &mut Vec<u8>, rank: usize, row: &Row, rows: &[Row]) -> Result<(), AllocError>
    ensures { OnOk result (into.new.items ≡ into.old.items ++ line_text rank (row_line rows.now row.now)) }
{
    push_front(into, rank, row.name.as_slice(), row.half_points, row.games)?;
    push_cells(into, row, rows)?;
    into.push(b'\n')?;
    Ok(())
}

// Adds the rank, the name, its points and its games.
#[tactic(auto, using(std::proofs::Common::append_assoc))]
fn push_front(
    into: &mut Vec<u8>,
    rank: usize,
    name: &[u8],
    half_points: u128,
    games: usize,
) -> Result<(), AllocError>
    ensures { OnOk result (into.new.items ≡ into.old.items ++ front_text rank name.now half_points games) }
{
    push_number(into, rank as u128)?;
    into.push(b' ')?;
    into.extend_from_slice(name)?;
    into.push(b' ')?;
    push_points(into, half_points)?;
    into.push(b'/')?;
    push_number(into, games as u128)
}

// Adds how many names and how many games there are.
#[tactic(auto, using(std::proofs::Common::append_assoc))]
fn push_last(into: &mut Vec<u8>, players: usize, games: usize) -> Result<(), AllocError>
    ensures { OnOk result (into.new.items ≡ into.old.items ++ last_text players games) }
{
    into.extend_from_slice(b"cross ")?;
    push_number(into, players as u128)?;
    into.extend_from_slice(b" players ")?;
    push_number(into, games as u128)?;
    into.extend_from_slice(b" games\n")
}

// Adds the cells of a row, each behind a space.
fn push_cells(into: &mut Vec<u8>, row: &Row, rows: &[Row]) -> Result<(), AllocError>
    ensures { OnOk result (into.new.items ≡ into.old.items ++ row_cells row.now rows.now) }
{
    for column in rows {
        into.push(b' ')?;
        push_cell(into, row, column)?;
    }
    Ok(())
}

// Adds the cell of a row and a column.
fn push_cell(into: &mut Vec<u8>, row: &Row, column: &Row) -> Result<(), AllocError>
    ensures { OnOk result (into.new.items ≡ into.old.items ++ row_cell row.now column.now) }
{
    if row.id == column.id {
        into.push(b'x')?;
        return Ok(());
    }
    push_or_dot(into, row.met.as_slice(), column.id)?;
    Ok(())
}

// Adds the signs of a name's games with the name at a place, or a dot if there are none.
fn push_or_dot(into: &mut Vec<u8>, met: &[Met], id: u32) -> Result<(), AllocError>
    ensures { OnOk result (into.new.items ≡ into.old.items ++ or_dot (signs_with id met.now)) }
{
    if has_met(met, id) {
        return push_signs(into, met, id);
    }
    into.push(b'.')?;
    Ok(())
}

// Whether one of a name's games is with the name at a place.
fn has_met(met: &[Met], id: u32) -> bool
    ensures { result ≡ has_met id met.now }
{
    met.iter().any(|m| id == m.other)
}

// Adds the signs of a name's games with the name at a place.
fn push_signs(into: &mut Vec<u8>, met: &[Met], id: u32) -> Result<(), AllocError>
    ensures { OnOk result (into.new.items ≡ into.old.items ++ signs_with id met.now) }
{
    for m in met {
        push_sign(into, m, id)?;
    }
    Ok(())
}

// Adds the sign of a game, if it is one with the name at this place.
#[tactic(auto, using(crate::proofs::Steps::and_none))]
fn push_sign(into: &mut Vec<u8>, m: &Met, id: u32) -> Result<(), AllocError>
    ensures { OnOk result (into.new.items ≡ into.old.items ++ signs_with id (m.now ∷ [])) }
{
    if id == m.other {
        into.push(m.score.sign())?;
        return Ok(());
    }
    Ok(())
}

// Adds half points as points.
#[tactic(auto, using(std::proofs::Common::append_assoc))]
fn push_points(into: &mut Vec<u8>, half_points: u128) -> Result<(), AllocError>
    ensures { OnOk result (into.new.items ≡ into.old.items ++ points_text half_points) }
{
    push_number(into, half_points / 2)?;
    if half_points % 2 == 0 {
        return into.extend_from_slice(b".0");
    }
    into.extend_from_slice(b".5")
}

// Adds a number.
fn push_number(into: &mut Vec<u8>, number: u128) -> Result<(), AllocError>
    ensures { OnOk result (into.new.items ≡ into.old.items ++ decimal number) }
{
    let mut digits = Buffer::new();
    into.extend_from_slice(digits.format(number).as_bytes())
}
