//! The text of a tree.
ghost use Rattle.std.specs.Prelude.{◌≡◌, ◌++◌, All, OnOk, OnErr, flat_map, replicate};
ghost use Rattle.std.specs.Fmt.{decimal};
ghost use Rattle.tree_rows.specs.MoveText.{IsKey};
ghost use Rattle.tree_rows.specs.TreeText.{averages_text, counts_text, line_of, quotient, right_in, row_line, tree_text};
ghost use Rattle.tree_rows.specs.Numbers.{AreSmall};
ghost use Rattle.tree_rows.specs.Keeping.{given_by};

use crate::move_text::move_text;
use crate::numbers::Numbers;
use crate::order::in_order;
use crate::row::Row;
use cell_core::{Board, Colour};
use itoa::Buffer;
use std::alloc::{AllocError, Global};

/// Adds the text of a tree of this board and side to move. It has a line for each row, by games falling and then by
/// key, and one for the sums of all rows. Each key is a move that is legal from some position of this board and side,
/// or none.
///
/// It fails only for want of memory, and then nothing was added.
#[tactic(auto, using(std::proofs::Common::append_assoc), unfolding(crate::specs::TreeText::tree_text))]
pub fn lines(
    alloc: Global,
    rows: &[Row],
    board: &Board,
    side: Colour,
    into: &mut Vec<u8>,
) -> Result<(), AllocError>
    requires keys { All (λ row. IsKey board.now side row.key) rows.now }
    ensures text { OnOk result (into.new.items ≡ into.old.items ++ tree_text board.now side rows.now) }
    ensures unchanged { OnErr result (into.new.items ≡ into.old.items) }
{
    let sorted = in_order(alloc, rows)?;
    let mut text = Vec::new(alloc);
    push_rows(&mut text, sorted.as_slice(), board, side)?;
    push_line(&mut text, b"total", &Numbers::total(rows))?;
    into.extend_from_slice(text.as_slice())?;
    Ok(())
}

// Adds the lines of rows.
fn push_rows(
    into: &mut Vec<u8>,
    rows: &[Row],
    board: &Board,
    side: Colour,
) -> Result<(), AllocError>
    requires keys { All (λ row. IsKey board.now side row.key) rows.now }
    ensures lines { OnOk result (into.new.items ≡ into.old.items ++ flat_map (row_line board.now side) rows.now) }
{
    for row in rows {
        push_row(into, row, board, side)?;
    }
    Ok(())
}

// Adds the line of a row.
#[tactic(auto, using(crate::proofs::TextLaws::line_of_row))]
fn push_row(into: &mut Vec<u8>, row: &Row, board: &Board, side: Colour) -> Result<(), AllocError>
    requires key { IsKey board.now side row.now.key }
    ensures line { OnOk result (into.new.items ≡ into.old.items ++ row_line board.now side row.now) }
{
    let numbers = Numbers::of(row);
    match &row.key {
        Some(m) => push_line(into, move_text(board, side, m).as_slice(), &numbers),
        None => push_line(into, b"end", &numbers),
    }
}

// Adds a name in eight places, and numbers.
#[tactic(auto, using(std::proofs::Common::append_assoc))]
fn push_line(into: &mut Vec<u8>, name: &[u8], numbers: &Numbers) -> Result<(), AllocError>
    requires small { AreSmall numbers.now }
    ensures line { OnOk result (into.new.items ≡ into.old.items ++ line_of name.now (given_by numbers.now)) }
{
    into.extend_from_slice(name)?;
    push_blanks(into, 8_usize.saturating_sub(name.len()))?;
    push_counts(into, numbers)?;
    push_averages(into, numbers)?;
    into.push(b'\n')?;
    Ok(())
}

// Adds how many games there are, and how many with each result.
#[tactic(auto, using(crate::proofs::TextLaws::text_rules), unfolding(crate::specs::TreeText::counts_text))]
fn push_counts(into: &mut Vec<u8>, numbers: &Numbers) -> Result<(), AllocError>
    ensures counts { OnOk result (into.new.items ≡ into.old.items ++ counts_text (given_by numbers.now)) }
{
    push_number(into, numbers.games)?;
    push_number(into, numbers.white)?;
    push_number(into, numbers.draws)?;
    push_number(into, numbers.black)?;
    push_number(into, numbers.unfinished)
}

// Adds the score and the averages.
#[tactic(auto, using(std::proofs::Common::append_assoc), unfolding(crate::specs::TreeText::averages_text))]
fn push_averages(into: &mut Vec<u8>, numbers: &Numbers) -> Result<(), AllocError>
    requires small { AreSmall numbers.now }
    ensures averages { OnOk result (into.new.items ≡ into.old.items ++ averages_text (given_by numbers.now)) }
{
    let points = 1000 * (2 * numbers.white + numbers.draws);
    let most = 2 * (numbers.white + numbers.draws + numbers.black);
    push_quotient(into, points, most)?;
    push_quotient(into, numbers.mover_sum, numbers.mover_rated)?;
    push_quotient(into, numbers.other_sum, numbers.other_rated)?;
    push_quotient(into, numbers.year_sum, numbers.dated)
}

// Adds a number at the right of nine places.
fn push_number(into: &mut Vec<u8>, number: u128) -> Result<(), AllocError>
    ensures { OnOk result (into.new.items ≡ into.old.items ++ right_in 9 (decimal number)) }
{
    let mut digits = Buffer::new();
    push_right(into, digits.format(number).as_bytes(), 9)
}

// Adds a quotient at the right of six places, or a dash if nothing can be divided by.
fn push_quotient(into: &mut Vec<u8>, number: u128, by: u128) -> Result<(), AllocError>
    ensures { OnOk result (into.new.items ≡ into.old.items ++ right_in 6 (quotient number by)) }
{
    if by == 0 {
        return push_right(into, b"-", 6);
    }
    let mut digits = Buffer::new();
    push_right(into, digits.format(number / by).as_bytes(), 6)
}

// Adds a text at the right of so many places.
#[tactic(auto, using(std::proofs::Common::append_assoc))]
fn push_right(into: &mut Vec<u8>, text: &[u8], places: usize) -> Result<(), AllocError>
    ensures { OnOk result (into.new.items ≡ into.old.items ++ right_in places text.now) }
{
    push_blanks(into, places.saturating_sub(text.len()))?;
    into.extend_from_slice(text)
}

// Adds blanks.
fn push_blanks(into: &mut Vec<u8>, blanks: usize) -> Result<(), AllocError>
    ensures { OnOk result (into.new.items ≡ into.old.items ++ replicate blanks 32) }
{
    for _i in 0..blanks {
        into.push(b' ')?;
    }
    Ok(())
}
