//! The moves of a page as a table.
ghost use Rattle.std.specs.Prelude.{◌≡◌, ◌<◌, ◌++◌, All, List, OnOk, Some, codes, flat_map, is_some, length, slice_get};
ghost use Rattle.cell_core.specs.Packed.{Packed};
ghost use Rattle.tree_rows.specs.declared.row.Row.{Row as RowValue};
ghost use Rattle.chess_laws.specs.Moves.{IsFrom};
ghost use Rattle.tree_rows.specs.MoveText.{IsKey};
ghost use Rattle.tree_rows.specs.Numbers.{AreSmall};
ghost use Rattle.tree_rows.specs.TreeText.{in_order};
ghost use Rattle.book_pages.specs.Book.{has_page};
ghost use Rattle.page_html.specs.Table.{body, columns, key_cell, linked, move_row, table, table_head, table_with, total_row};

use crate::cells::push_columns;
use crate::frame::push_link;
use arrayvec::ArrayVec;
use book_pages::Book;
use cell_core::{Board, Colour, Move, PackedBoard, pack, unpack};
use chess_text::play_san;
use std::alloc::{AllocError, Global};
use tree_rows::{Numbers, Row, in_order, needed};

/// A move of a page with its text, and the page that it leads to.
#[derive(Drop)]
pub struct Led {
    pub page: usize,
    pub board: PackedBoard,
    pub mv: Move,
    pub text: ArrayVec<u8, 8>,
}

// The page whose moves are told: its board, the side to move, and the sums over its rows.
#[derive(Clone, Copy)]
struct Here<'a> {
    book: &'a Book,
    board: Board,
    side: Colour,
    total: Numbers,
}

/// Adds the table of the moves of a page: a row for each, by games falling, whose move is a link to the page that it leads to, and the sums.
/// Adds to `led` the moves that lead to a page.
///
/// It fails only for want of memory, and a part of the table may then have been added.
pub fn push_table(
    alloc: Global,
    out: &mut Vec<u8>,
    led: &mut Vec<Led>,
    book: &Book,
    page: usize,
) -> Result<(), AllocError>
    requires page { page < length book.now.boards }
    ensures table { (board : Packed) (rows : List RowValue) → slice_get book.now.boards page ≡ Some board → slice_get book.now.rows page ≡ Some rows → OnOk result (out.new.items ≡ out.old.items ++ table book.now.boards board rows) }
{
    let rows = book.rows(page);
    let packed = book.board(page);
    let (board, side) = unpack(&packed);
    let here = Here {
        book,
        board,
        side,
        total: Numbers::total(rows),
    };
    push_all(alloc, out, led, &here, rows)
}

// Adds the table of these rows.
#[tactic(auto, using(std::proofs::Common::append_assoc), unfolding(crate::specs::Table::table_with))]
fn push_all(
    alloc: Global,
    out: &mut Vec<u8>,
    led: &mut Vec<Led>,
    here: &Here<'_>,
    rows: &[Row],
) -> Result<(), AllocError>
    requires keys { All (λ row. IsKey here.now.board here.now.side row.key) rows.now }
    requires small { AreSmall here.now.total }
    ensures table { OnOk result (out.new.items ≡ out.old.items ++ table_with here.now.book.now.boards here.now.board here.now.side here.now.total rows.now) }
{
    out.extend_from_slice(table_head())?;
    push_body(alloc, out, led, here, rows)?;
    push_total(out, &here.total)
}

// Adds the rows of moves, if there are any.
#[tactic(auto, using(std::proofs::Common::append_assoc), unfolding(crate::specs::Table::body))]
fn push_body(
    alloc: Global,
    out: &mut Vec<u8>,
    led: &mut Vec<Led>,
    here: &Here<'_>,
    rows: &[Row],
) -> Result<(), AllocError>
    requires keys { All (λ row. IsKey here.now.board here.now.side row.key) rows.now }
    ensures body { OnOk result (out.new.items ≡ out.old.items ++ body (length rows.now) (flat_map (move_row here.now.book.now.boards here.now.board here.now.side here.now.total.games) (in_order rows.now))) }
{
    if rows.is_empty() {
        return Ok(());
    }
    let sorted = in_order(alloc, rows)?;
    out.extend_from_slice(b"<tbody>\n")?;
    push_rows(out, led, here, sorted.as_slice())?;
    out.extend_from_slice(b"</tbody>\n")
}

// Adds rows.
fn push_rows(
    out: &mut Vec<u8>,
    led: &mut Vec<Led>,
    here: &Here<'_>,
    rows: &[Row],
) -> Result<(), AllocError>
    requires keys { All (λ row. IsKey here.now.board here.now.side row.key) rows.now }
    ensures rows { OnOk result (out.new.items ≡ out.old.items ++ flat_map (move_row here.now.book.now.boards here.now.board here.now.side here.now.total.games) rows.now) }
{
    for row in rows {
        push_row(out, led, here, row)?;
    }
    Ok(())
}

// Adds a row.
#[tactic(auto, using(std::proofs::Common::append_assoc), unfolding(crate::specs::Table::move_row, crate::specs::Table::row_with))]
fn push_row(
    out: &mut Vec<u8>,
    led: &mut Vec<Led>,
    here: &Here<'_>,
    row: &Row,
) -> Result<(), AllocError>
    requires key { IsKey here.now.board here.now.side row.now.key }
    ensures row { OnOk result (out.new.items ≡ out.old.items ++ move_row here.now.book.now.boards here.now.board here.now.side here.now.total.games row.now) }
{
    out.extend_from_slice(b"<tr><th scope=\"row\">")?;
    push_key(out, led, here, &row.key)?;
    push_rest(out, &Numbers::of(row), here.total.games)
}

// Adds what stands behind the head of a row.
#[tactic(auto, using(std::proofs::Common::append_assoc))]
fn push_rest(out: &mut Vec<u8>, n: &Numbers, whole: u128) -> Result<(), AllocError>
    requires small { AreSmall n.now }
    ensures rest { OnOk result (out.new.items ≡ out.old.items ++ (codes "</th>" ++ (columns whole n.now ++ codes "</tr>\n"))) }
{
    out.extend_from_slice(b"</th>")?;
    push_columns(out, n, whole)?;
    out.extend_from_slice(b"</tr>\n")
}

// Adds the head of a row.
fn push_key(
    out: &mut Vec<u8>,
    led: &mut Vec<Led>,
    here: &Here<'_>,
    key: &Option<Move>,
) -> Result<(), AllocError>
    requires key { IsKey here.now.board here.now.side key.now }
    ensures key { OnOk result (out.new.items ≡ out.old.items ++ key_cell here.now.book.now.boards here.now.board here.now.side key.now) }
{
    match key {
        Some(mv) => push_move(out, led, here, mv),
        None => out.extend_from_slice(b"end"),
    }
}

// Adds the text of a move, as a link to the page that it leads to, if there is one.
fn push_move(
    out: &mut Vec<u8>,
    led: &mut Vec<Led>,
    here: &Here<'_>,
    mv: &Move,
) -> Result<(), AllocError>
    requires from { IsFrom here.now.board here.now.side mv.now }
    ensures key { OnOk result (out.new.items ≡ out.old.items ++ key_cell here.now.book.now.boards here.now.board here.now.side (Some mv.now)) }
{
    let mut position = needed(&here.board, here.side, mv);
    let text = play_san(&mut position, mv);
    let board = pack(position.board(), position.side());
    let page = here.book.page_of(&board);
    push_linked(out, here.book, page, &board, text.as_slice())?;
    tell(led, page, board, *mv, text)?;
    Ok(())
}

// Tells that a move with this text leads to the page of a board, if that has one.
fn tell(
    led: &mut Vec<Led>,
    page: Option<usize>,
    board: PackedBoard,
    mv: Move,
    text: ArrayVec<u8, 8>,
) -> Result<(), AllocError> {
    if let Some(page) = page {
        led.push(Led {
            page,
            board,
            mv,
            text,
        })?;
    }
    Ok(())
}

// Adds a text, as a link to the page of a board if that has one.
#[tactic(auto, using(std::proofs::Common::append_assoc), unfolding(crate::specs::Table::linked))]
fn push_linked(
    out: &mut Vec<u8>,
    book: &Book,
    page: Option<usize>,
    board: &PackedBoard,
    text: &[u8],
) -> Result<(), AllocError>
    requires page { is_some page ≡ has_page board.now book.now.boards }
    ensures added { OnOk result (out.new.items ≡ out.old.items ++ linked book.now.boards board.now text.now) }
{
    if page.is_none() {
        return out.extend_from_slice(text);
    }
    push_link(out, board)?;
    out.extend_from_slice(text)?;
    out.extend_from_slice(b"</a>")
}

// Adds the row of the sums of all rows, and what stands behind it.
#[tactic(auto, using(std::proofs::Common::append_assoc), unfolding(crate::specs::Table::total_row, crate::specs::Table::row_with))]
fn push_total(out: &mut Vec<u8>, total: &Numbers) -> Result<(), AllocError>
    requires small { AreSmall total.now }
    ensures total { OnOk result (out.new.items ≡ out.old.items ++ total_row total.now) }
{
    out.extend_from_slice(b"<tfoot>\n<tr><th scope=\"row\">Total")?;
    push_rest(out, total, total.games)?;
    out.extend_from_slice(b"</tfoot>\n</table></div>\n")
}

// What stands before the rows.
#[tactic(auto, unfolding(crate::specs::Table::table_head))]
fn table_head() -> &'static [u8]
    ensures text { result.now ≡ table_head }
{
    b"<div class=\"scroll\" role=\"region\" aria-labelledby=\"moves\" tabindex=\"0\"><table class=\"moves\">\n<caption id=\"moves\">Moves</caption>\n<thead><tr><th scope=\"col\">Move</th><th scope=\"col\">Games</th><th scope=\"col\" class=\"share\">Share</th><th scope=\"col\" class=\"results\">White won, drawn, Black won</th><th scope=\"col\">Score</th><th scope=\"col\" class=\"rating\">Rating</th><th scope=\"col\" class=\"other\">Other</th><th scope=\"col\" class=\"year\">Year</th></tr></thead>\n"
}
