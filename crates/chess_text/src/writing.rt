//! Positions written in Forsyth-Edwards Notation.
ghost use Rattle.std.specs.Prelude.{◌≡◌, ◌<◌, ◌≤◌, ◌++◌, ◌∷◌, [], OnOk, IfOk, length};
ghost use Rattle.chess_text.specs.Fields.{side_text};
ghost use Rattle.chess_text.specs.Fen.{FenReads};
ghost use Rattle.chess_text.specs.Written.{run_text, row_text, placement_text, letter_where, rights_text, en_passant_text, fen_text, HasDigitsApart};

use super::letters::letter_of;
use super::squares::{file_letter, rank_digit};
use cell_core::{Board, Colour, Man, Square, Text};
use chess_laws::{Position, Rights, Setup};
use std::alloc::{AllocError, Global};

/// Writes a position in Forsyth-Edwards Notation (PGN standard, 16.1): all six fields, with one space between two of
/// them. Each longest run of empty squares of a rank is one digit, the castling rights are in the order `KQkq`, and the
/// counters are `0 1`. It fails only for want of memory.
pub fn write_fen(alloc: Global, p: &Position) -> Result<Text, AllocError>
    ensures written { IfOk result (λ text. text ≡ fen_text p.now) }
    ensures read_again { IfOk result (λ text. FenReads text p.now) }
    ensures whole_runs { IfOk result HasDigitsApart }
{
    let bytes = fen_bytes(alloc, p.setup())?;
    Ok(Text::from_zero_free(bytes))
}

// The bytes of the text.
#[tactic(auto, using(std::proofs::Common::append_assoc), unfolding(crate::specs::Written::fen_text))]
fn fen_bytes(alloc: Global, setup: &Setup) -> Result<Vec<u8>, AllocError>
    ensures ok { IfOk result (λ bytes. bytes.items ≡ fen_text setup.now) }
{
    let mut out = Vec::with_capacity(alloc, 90)?;
    push_placement(&mut out, &setup.board)?;
    out.push(b' ')?;
    out.push(side_letter(setup.side))?;
    out.push(b' ')?;
    push_rights(&mut out, &setup.rights)?;
    out.push(b' ')?;
    push_en_passant(&mut out, setup.en_passant)?;
    out.extend_from_slice(b" 0 1")?;
    Ok(out)
}

// Adds the placement.
#[tactic(auto, unfolding(crate::specs::Written::ranks_text))]
fn push_placement(out: &mut Vec<u8>, board: &Board) -> Result<(), AllocError>
    ensures ok { OnOk result (out.new.items ≡ out.old.items ++ placement_text board.now) }
{
    let squares = board.cells().as_slice();
    for above in 0..7usize {
        let rank = 7 - above;
        push_row(out, &squares[8 * rank..8 * rank + 8])?;
        out.push(b'/')?;
    }
    push_row(out, &squares[..8])
}

// Adds a row of squares, each longest run of empty squares as one digit.
fn push_row(out: &mut Vec<u8>, squares: &[Option<Man>]) -> Result<(), AllocError>
    requires { length squares.now ≤ 8 }
    ensures ok { OnOk result (out.new.items ≡ out.old.items ++ row_text 0 squares.now) }
{
    let mut empty = 0u8;
    for square in squares {
        match square {
            None => empty += 1,
            Some(man) => {
                push_run(out, empty)?;
                out.push(letter_of(*man))?;
                empty = 0;
            }
        }
    }
    push_run(out, empty)
}

// Adds a run of empty squares as its digit, or nothing if the run is empty.
fn push_run(out: &mut Vec<u8>, empty: u8) -> Result<(), AllocError>
    requires { empty ≤ 8 }
    ensures ok { OnOk result (out.new.items ≡ out.old.items ++ run_text empty) }
{
    if empty > 0 {
        out.push(b'0' + empty)?;
    }
    Ok(())
}

// Adds the castling rights in the order `KQkq`, or `-` for none.
#[tactic(auto, unfolding(crate::specs::Written::rights_text))]
fn push_rights(out: &mut Vec<u8>, rights: &Rights) -> Result<(), AllocError>
    ensures ok { OnOk result (out.new.items ≡ out.old.items ++ rights_text rights.now) }
{
    let before = out.len();
    push_where(out, rights.white_king_side, b'K')?;
    push_where(out, rights.white_queen_side, b'Q')?;
    push_where(out, rights.black_king_side, b'k')?;
    push_where(out, rights.black_queen_side, b'q')?;
    if out.len() == before {
        out.push(b'-')?;
    }
    Ok(())
}

// Adds the letter if the right is there.
fn push_where(out: &mut Vec<u8>, right: bool, letter: u8) -> Result<(), AllocError>
    ensures ok { OnOk result (out.new.items ≡ out.old.items ++ letter_where right letter) }
{
    if right {
        out.push(letter)?;
    }
    Ok(())
}

// Adds the en passant square, or `-` for none.
fn push_en_passant(out: &mut Vec<u8>, square: Option<Square>) -> Result<(), AllocError>
    ensures ok { OnOk result (out.new.items ≡ out.old.items ++ en_passant_text square) }
{
    match square {
        None => out.push(b'-')?,
        Some(square) => {
            out.push(file_letter(square))?;
            out.push(rank_digit(square))?;
        }
    }
    Ok(())
}

// The letter of a side to move.
fn side_letter(side: Colour) -> u8
    ensures { side_text side ≡ result ∷ [] }
{
    match side {
        Colour::White => b'w',
        Colour::Black => b'b',
    }
}
