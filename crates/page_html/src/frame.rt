//! What stands round a page, and the names of the files.
ghost use Rattle.std.specs.Prelude.{◌≡◌, ◌+◌, ◌++◌, OnOk, codes};
ghost use Rattle.cell_core.specs.Man.{kind_number};
ghost use Rattle.cell_core.specs.Packed.{nibble_of};
ghost use Rattle.page_html.specs.Listing.{game_file};
ghost use Rattle.page_html.specs.Names.{digits_below, file_of, hex_digit, side_text};

use crate::numbers::push_number;
use crate::text::push_text;
use cell_core::{Board, Colour, Kind, Man, PackedBoard, Square, unpack};
use std::alloc::{AllocError, Global};

/// What each page begins with.
const HEAD: &[u8] =
    b"<!DOCTYPE html>\n<html lang=\"en\">\n<head>\n<meta charset=\"utf-8\">\n<meta name=\"viewport\" content=\"width=device-width, initial-scale=1\">\n<title>";

/// What stands between the title and what the page shows. If the board is turned by a link, the page stays in its place: what the link
/// goes to is always in sight.
const BODY: &[u8] =
    b"</title>\n<link rel=\"stylesheet\" href=\"style.css\">\n<script src=\"book.js\" defer></script>\n</head>\n<body>\n<span class=\"pin\" id=\"facing\"></span><span class=\"pin\" id=\"turned\"></span>\n";

/// Adds the name of the file of a position: a digit for each square from a1 on, the files of a rank together, and the side to move.
#[tactic(auto, using(std::proofs::Common::append_assoc), unfolding(crate::specs::Names::file_of))]
pub fn file_name(out: &mut Vec<u8>, packed: &PackedBoard) -> Result<(), AllocError>
    ensures added { OnOk result (out.new.items ≡ out.old.items ++ file_of packed.now) }
{
    let (board, side) = unpack(packed);
    push_digits(out, &board)?;
    out.extend_from_slice(side_text(side))
}

// What stands behind the digits.
fn side_text(side: Colour) -> &'static [u8]
    ensures text { result.now ≡ side_text side }
{
    match side {
        Colour::White => b"w.html",
        Colour::Black => b"b.html",
    }
}

// Adds the digits of the squares.
#[tactic(auto, unfolding(crate::specs::Names::digits_below))]
fn push_digits(out: &mut Vec<u8>, board: &Board) -> Result<(), AllocError>
    ensures added { OnOk result (out.new.items ≡ out.old.items ++ digits_below board.now 64) }
{
    for s in 0..64u8 {
        out.push(digit(board.at(Square::at(s))))?;
    }
    Ok(())
}

/// Adds the name of the file of a game.
#[tactic(auto, using(std::proofs::Common::append_assoc), unfolding(crate::specs::Listing::game_file))]
pub fn game_file_name(out: &mut Vec<u8>, game: u32) -> Result<(), AllocError>
    ensures added { OnOk result (out.new.items ≡ out.old.items ++ game_file game) }
{
    out.extend_from_slice(b"g")?;
    push_number(out, u128::from(game))?;
    out.extend_from_slice(b".html")
}

// The digit of what stands on a square.
fn digit(cell: Option<Man>) -> u8
    ensures digit { result ≡ hex_digit (nibble_of cell) }
{
    match cell {
        None => b'0',
        Some(
            Man {
                colour: Colour::White,
                kind,
            },
        ) => white_digit(kind),
        Some(
            Man {
                colour: Colour::Black,
                kind,
            },
        ) => black_digit(kind),
    }
}

// The digit of a white man.
fn white_digit(kind: Kind) -> u8
    ensures digit { result ≡ hex_digit (1 + kind_number kind) }
{
    match kind {
        Kind::King => b'1',
        Kind::Queen => b'2',
        Kind::Rook => b'3',
        Kind::Bishop => b'4',
        Kind::Knight => b'5',
        Kind::Pawn => b'6',
    }
}

// The digit of a black man.
fn black_digit(kind: Kind) -> u8
    ensures digit { result ≡ hex_digit (9 + kind_number kind) }
{
    match kind {
        Kind::King => b'9',
        Kind::Queen => b'a',
        Kind::Rook => b'b',
        Kind::Bishop => b'c',
        Kind::Knight => b'd',
        Kind::Pawn => b'e',
    }
}

/// Adds the beginning of a link to the page of a position.
#[tactic(auto, using(std::proofs::Common::append_assoc))]
pub(crate) fn push_link(out: &mut Vec<u8>, packed: &PackedBoard) -> Result<(), AllocError>
    ensures added { OnOk result (out.new.items ≡ out.old.items ++ (codes "<a href=\"" ++ (file_of packed.now ++ codes "\">"))) }
{
    out.extend_from_slice(b"<a href=\"")?;
    file_name(out, packed)?;
    out.extend_from_slice(b"\">")
}

/// Adds what stands before the title of a page.
pub(crate) fn push_head(out: &mut Vec<u8>) -> Result<(), AllocError> {
    out.extend_from_slice(HEAD)
}

/// Adds what stands behind the title, and the name of the base.
pub(crate) fn push_title_end(out: &mut Vec<u8>, base: &[u8]) -> Result<(), AllocError> {
    push_text(out, base)?;
    out.extend_from_slice(BODY)
}
