//! Boards as pictures.
ghost use Rattle.std.specs.Prelude.{◌<◌};

use cell_core::{Board, Colour, Kind, Man, Move, Square};
use std::alloc::{AllocError, Global};

/// The outlines of the men, and the squares of two by two, each 45 wide.
const DEFINITIONS: &[u8] = br##"<svg class="defs" width="0" height="0" aria-hidden="true"><defs>
<path id="K" d="M20.5 4v3.5h-3.5v3.5h3.5v3c-2 1-3 3-3 5.500-5.500-4-11.500-1-11.500 5 0 4 3 6 4.500 9l-.500 4.500h25l-.500-4.500c1.500-3 4.500-5 4.500-9 0-6-6-9-11.500-5 0-2.500-1-4.500-3-5.500v-3h3.500v-3.500h-3.500v-3.500z"/>
<path id="Q" d="M10.500 38h24l-1-5c1-5 3-9 4.500-17l-6.500 8.500-2-13.500-5 12.500-2-14.500-2 14.500-5-12.500-2 13.500-6.500-8.500c1.500 8 3.500 12 4.500 17z"/>
<path id="R" d="M10 38h25v-4h-3l-2-14h3v-11h-5v4h-3.500v-4h-4v4h-3.500v-4h-5v11h3l-2 14h-3z"/>
<path id="B" d="M22.500 5.500a3 3 0 0 0-2 5.200c-5.500 3.800-7.500 8.800-6.500 13.800.600 2.500 2 4 4 5l-1 3c-3 0-6 1.500-7 5.500h25c-1-4-4-5.500-7-5.500l-1-3c2-1 3.400-2.500 4-5 1-5-1-10-6.500-13.800a3 3 0 0 0-2-5.200z"/>
<path id="N" d="M13 38h22c0-12 0-20-9-27l-1.500-5-3 4.500c-6 2-9.500 7-11.500 14-1 3 2 5 5 3l5-3c1 3-7 6-7 13.500z"/>
<path id="P" d="M22.500 9a5.500 5.500 0 0 0-3.500 9.500c-3 2-3.500 5-1.500 8-4 2-6.500 5.500-6.500 11.500h23c0-6-2.500-9.500-6.500-11.500 2-3 1.500-6-1.500-8a5.500 5.500 0 0 0-3.500-9.500z"/>
<pattern id="squares" width="90" height="90" patternUnits="userSpaceOnUse"><rect class="light" width="90" height="90"/><path class="dark" d="M45 0h45v45h-45zM0 45h45v45h-45z"/></pattern>
</defs></svg>
"##;

/// The kinds in the order in which they are told.
const KINDS: [Kind; 6] = [
    Kind::King,
    Kind::Queen,
    Kind::Rook,
    Kind::Bishop,
    Kind::Knight,
    Kind::Pawn,
];

/// Adds a board seen from both sides: that with this side below stands in sight, and the other if it is asked for by `#turned`.
pub(crate) fn push_boards(
    out: &mut Vec<u8>,
    board: &Board,
    below: Colour,
    last: &Option<Move>,
) -> Result<(), AllocError> {
    out.extend_from_slice(DEFINITIONS)?;
    out.extend_from_slice(b"<div class=\"board facing\">\n")?;
    push_board(out, board, below, last)?;
    out.extend_from_slice(
        b"<p><a class=\"turn\" href=\"#turned\">Turn the board</a></p>\n</div>\n<div class=\"board turned\">\n",
    )?;
    push_board(out, board, below.other(), last)?;
    out.extend_from_slice(
        b"<p><a class=\"turn\" href=\"#facing\">Turn the board back</a></p>\n</div>\n",
    )
}

// Adds a board seen from a side, on which a move was made last.
fn push_board(
    out: &mut Vec<u8>,
    board: &Board,
    below: Colour,
    last: &Option<Move>,
) -> Result<(), AllocError> {
    out.extend_from_slice(match below {
        Colour::White => b"<svg data-below=\"w\"".as_slice(),
        Colour::Black => b"<svg data-below=\"b\"".as_slice(),
    })?;
    out.extend_from_slice(b" viewBox=\"-16 0 376 376\" role=\"img\" aria-label=\"")?;
    push_side(out, board, Colour::White, b"White")?;
    out.extend_from_slice(b"; ")?;
    push_side(out, board, Colour::Black, b"Black")?;
    out.extend_from_slice(b"\"><rect width=\"360\" height=\"360\" fill=\"url(#squares)\"/>")?;
    out.extend_from_slice(letters(below))?;
    if let Some(mv) = last {
        push_last(out, mv.from, below)?;
        push_last(out, mv.to, below)?;
    }
    out.extend_from_slice(b"<g>")?;
    for s in 0..64u8 {
        if let Some(man) = board.at(Square::at(s)) {
            push_man(out, man, seen_at(s, below))?;
        }
    }
    out.extend_from_slice(b"</g></svg>\n")
}

// Adds the men of a side with their squares, by kinds.
fn push_side(
    out: &mut Vec<u8>,
    board: &Board,
    colour: Colour,
    name: &[u8],
) -> Result<(), AllocError> {
    out.extend_from_slice(name)?;
    for kind in KINDS {
        push_kind(out, board, Man { colour, kind })?;
    }
    Ok(())
}

// Adds the squares of a kind of men, each with the letter of the kind before it, but for pawns.
fn push_kind(out: &mut Vec<u8>, board: &Board, man: Man) -> Result<(), AllocError> {
    for s in 0..64u8 {
        if board.at(Square::at(s)) == Some(man) {
            out.push(b' ')?;
            if man.kind != Kind::Pawn {
                out.extend_from_slice(kind_letter(man.kind))?;
            }
            push_square(out, s)?;
        }
    }
    Ok(())
}

/// Adds the name of a square.
pub(crate) fn push_square(out: &mut Vec<u8>, s: u8) -> Result<(), AllocError>
    requires square { s < 64 }
{
    out.push(b'a' + s % 8)?;
    out.push(b'1' + s / 8)?;
    Ok(())
}

// Marks a square of the last move.
fn push_last(out: &mut Vec<u8>, square: Square, below: Colour) -> Result<(), AllocError> {
    let (left, above) = seen_at(square.index(), below);
    out.extend_from_slice(b"<rect class=\"last\" width=\"45\" height=\"45\"")?;
    push_place(out, left, above)
}

// The letters of the files and the digits of the ranks.
fn letters(below: Colour) -> &'static [u8] {
    match below {
        Colour::White => {
            b"<text x=\"22 67 112 157 202 247 292 337\" y=\"372\">abcdefgh</text><text x=\"-8 -8 -8 -8 -8 -8 -8 -8\" y=\"27 72 117 162 207 252 297 342\">87654321</text>"
        }
        Colour::Black => {
            b"<text x=\"22 67 112 157 202 247 292 337\" y=\"372\">hgfedcba</text><text x=\"-8 -8 -8 -8 -8 -8 -8 -8\" y=\"27 72 117 162 207 252 297 342\">12345678</text>"
        }
    }
}

// Where a square stands: from the left and from above, in squares.
fn seen_at(s: u8, below: Colour) -> (u8, u8)
    requires square { s < 64 }
{
    let file = s % 8;
    let rank = s / 8;
    match below {
        Colour::White => (file, 7 - rank),
        Colour::Black => (7 - file, rank),
    }
}

// Adds a man on a square, by its outline.
fn push_man(out: &mut Vec<u8>, man: Man, (left, above): (u8, u8)) -> Result<(), AllocError> {
    out.extend_from_slice(match man.colour {
        Colour::White => white_man(man.kind),
        Colour::Black => black_man(man.kind),
    })?;
    push_place(out, left, above)
}

// The outline of a white man.
fn white_man(kind: Kind) -> &'static [u8] {
    match kind {
        Kind::King => b"<use href=\"#K\" class=\"white\"",
        Kind::Queen => b"<use href=\"#Q\" class=\"white\"",
        Kind::Rook => b"<use href=\"#R\" class=\"white\"",
        Kind::Bishop => b"<use href=\"#B\" class=\"white\"",
        Kind::Knight => b"<use href=\"#N\" class=\"white\"",
        Kind::Pawn => b"<use href=\"#P\" class=\"white\"",
    }
}

// The outline of a black man.
fn black_man(kind: Kind) -> &'static [u8] {
    match kind {
        Kind::King => b"<use href=\"#K\" class=\"black\"",
        Kind::Queen => b"<use href=\"#Q\" class=\"black\"",
        Kind::Rook => b"<use href=\"#R\" class=\"black\"",
        Kind::Bishop => b"<use href=\"#B\" class=\"black\"",
        Kind::Knight => b"<use href=\"#N\" class=\"black\"",
        Kind::Pawn => b"<use href=\"#P\" class=\"black\"",
    }
}

// Adds where something stands, so many squares from the left and from above, and its end.
fn push_place(out: &mut Vec<u8>, left: u8, above: u8) -> Result<(), AllocError> {
    out.extend_from_slice(from_left(left))?;
    out.extend_from_slice(from_above(above))
}

// The place of a file that is so many from the left.
fn from_left(left: u8) -> &'static [u8] {
    match left {
        0 => b" x=\"0\"",
        1 => b" x=\"45\"",
        2 => b" x=\"90\"",
        3 => b" x=\"135\"",
        4 => b" x=\"180\"",
        5 => b" x=\"225\"",
        6 => b" x=\"270\"",
        _ => b" x=\"315\"",
    }
}

// The place of a rank that is so many from above, and the end of what stands there.
fn from_above(above: u8) -> &'static [u8] {
    match above {
        0 => b" y=\"0\"/>",
        1 => b" y=\"45\"/>",
        2 => b" y=\"90\"/>",
        3 => b" y=\"135\"/>",
        4 => b" y=\"180\"/>",
        5 => b" y=\"225\"/>",
        6 => b" y=\"270\"/>",
        _ => b" y=\"315\"/>",
    }
}

/// The letter of a man: a capital is White's, a small letter Black's.
pub(crate) fn letter(man: Man) -> u8 {
    let capital = match man.kind {
        Kind::King => b'K',
        Kind::Queen => b'Q',
        Kind::Rook => b'R',
        Kind::Bishop => b'B',
        Kind::Knight => b'N',
        Kind::Pawn => b'P',
    };
    match man.colour {
        Colour::White => capital,
        Colour::Black => capital.to_ascii_lowercase(),
    }
}

// The letter of a kind of men.
fn kind_letter(kind: Kind) -> &'static [u8] {
    match kind {
        Kind::King => b"K",
        Kind::Queen => b"Q",
        Kind::Rook => b"R",
        Kind::Bishop => b"B",
        Kind::Knight => b"N",
        Kind::Pawn => b"P",
    }
}
