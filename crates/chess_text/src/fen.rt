//! Positions read from Forsyth-Edwards Notation.
ghost use Rattle.std.specs.Prelude.{◌≡◌, IfOk, IfErr};
ghost use Rattle.chess_laws.specs.declared.setup.Setup.{Setup};
ghost use Rattle.chess_laws.specs.declared.fault.PlaceFault.{PlaceFault};
ghost use Rattle.chess_laws.specs.Position.{Sound, Breaks};
ghost use Rattle.chess_text.specs.declared.fault.FenFault.{FenFault};
ghost use Rattle.chess_text.specs.Fault.{fault_of};
ghost use Rattle.chess_text.specs.Fen.{FenReads, FenFaultOf, kept};
ghost use Rattle.chess_text.specs.FenAnswer.{fen_answer};
ghost use Rattle.chess_text.specs.FieldReading.{counters_named, rights_from, setup_named, Answers};

use super::fault::FenFault;
use super::fields::{en_passant_of, is_counter, next_word, or_default, rights_of, side_of};
use super::placement::board_of;
use cell_core::{Board, Colour};
use chess_laws::{Position, Setup};

/// Reads a position in Forsyth-Edwards Notation (PGN standard, 16.1). The fields stand with one space or more between
/// two of them, and spaces at the ends count for nothing. Fields 3 to 6 may be missing from the right: they are then
/// `-`, `-`, `0` and `1`. A castling right whose king or rook is not at home is dropped, and the two counters are read
/// and not kept.
///
/// The fault is the first one, in this order:
///
/// - the first field that is malformed, or missing among the first two;
/// - a seventh field;
/// - the rules of a position in the order of `FenFault`.
pub fn read_fen(text: &[u8]) -> Result<Position, FenFault>
    ensures found { IfOk result (FenReads text.now) }
    ensures only { (p : Setup) → FenReads text.now p → result ≡ Ok p }
    ensures fault { IfErr result (FenFaultOf text.now) }
    ensures first { (fault : FenFault) → FenFaultOf text.now fault → result ≡ Err fault }
    ensures answers { result ≡ fen_answer text.now }
{
    read(text)
}

// The position that the fields of the text say.
fn read(text: &[u8]) -> Result<Position, FenFault>
    ensures answers { Answers text.now result }
{
    match read_fields(text) {
        Ok(says) => placed(&says),
        Err(fault) => Err(fault),
    }
}

// The position of what the fields say, if it keeps the rules.
fn placed(says: &Setup) -> Result<Position, FenFault>
    ensures ok { IfOk result (λ p. p ≡ kept says.now) }
    ensures sound { IfOk result Sound }
    ensures fault { IfErr result (λ fault. (broken : PlaceFault) × (fault ≡ fault_of broken) × Breaks (kept says.now) broken) }
{
    match Position::try_new(says.board, says.side, says.rights.bits(), says.en_passant) {
        Ok(position) => Ok(position),
        Err(broken) => Err(FenFault::from(broken)),
    }
}

// What the fields of a FEN say, or the first field that says nothing.
#[tactic(auto, unfolding(crate::specs::FieldReading::setup_named))]
fn read_fields(text: &[u8]) -> Result<Setup, FenFault>
    ensures exact { result ≡ setup_named text.now }
{
    let (word, text) = next_word(text);
    let board = board_of(word).ok_or(FenFault::Field(1))?;
    let (word, text) = next_word(text);
    let side = side_of(word).ok_or(FenFault::Field(2))?;
    read_rights(text, board, side)
}

// The fields of a FEN from the third on, for this board and side.
#[tactic(auto, unfolding(crate::specs::FieldReading::rights_from))]
fn read_rights(text: &[u8], board: Board, side: Colour) -> Result<Setup, FenFault>
    ensures exact { result ≡ rights_from text.now board side }
{
    let (word, text) = next_word(text);
    let rights = rights_of(or_default(word, b"-")).ok_or(FenFault::Field(3))?;
    let (word, text) = next_word(text);
    let en_passant = en_passant_of(side, or_default(word, b"-")).ok_or(FenFault::Field(4))?;
    read_counters(text)?;
    Ok(Setup {
        board,
        side,
        rights,
        en_passant,
    })
}

// The two counters of a FEN, which are not kept, and the end of the text.
#[tactic(auto, unfolding(crate::specs::FieldReading::counters_named))]
fn read_counters(text: &[u8]) -> Result<(), FenFault>
    ensures exact { result ≡ counters_named text.now }
{
    let (half_moves, text) = next_word(text);
    if !is_counter(or_default(half_moves, b"0")) {
        return Err(FenFault::Field(5));
    }
    let (moves, text) = next_word(text);
    if !is_counter(or_default(moves, b"1")) {
        return Err(FenFault::Field(6));
    }
    let (seventh, _) = next_word(text);
    if seventh.is_empty() {
        Ok(())
    } else {
        Err(FenFault::Field(7))
    }
}
