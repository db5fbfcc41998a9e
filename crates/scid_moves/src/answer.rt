//! The answer to a line: every legal move of the position that it says.
ghost use Rattle.std.specs.Prelude.{◌≡◌, ◌∷◌, [], ◌++◌, nat_lt, not, All, IfOk, OnOk, flat_map, length};
ghost use Rattle.std.specs.Bool.{OnTrue};
ghost use Rattle.std.specs.Option.{option_map_or};
ghost use Rattle.cell_core.specs.declared.man.Colour.TheVariants.{Black};
ghost use Rattle.chess_laws.specs.Step.{Legal};
ghost use Rattle.chess_text.specs.Letters.{capital_of, letter_in};
ghost use Rattle.chess_text.specs.Squares.{square_text};
ghost use Rattle.demo_games.specs.Moves.{legal_moves};
ghost use Rattle.scid_moves.specs.Answers.{answer, coordinates, error_lines, fault_name, move_line, position_answer, state_line};

use arrayvec::ArrayVec;
use cell_core::{Kind, Move, Square};
use chess_laws::Position;
use chess_text::{FenFault, play_san, read_fen, write_fen};
use itoa::Buffer;
use std::alloc::{AllocError, Global};

/// The most bytes that a line may have.
pub const LONGEST_LINE: usize = 1024;

/// The answer to a line, which stands without its line feed. It is a line for each legal move of the position that the
/// line says, how that position stands, and an empty line; or why the line says none. It fails only for want of memory.
pub fn answer(alloc: Global, line: &[u8]) -> Result<Vec<u8>, AllocError>
    ensures answer { IfOk result (λ text. text.items ≡ answer line.now) }
{
    if line.len() > LONGEST_LINE {
        return error_lines(alloc, b"line too long");
    }
    match read_fen(line) {
        Ok(position) => listing(alloc, &position),
        Err(fault) => refusal(alloc, fault),
    }
}

// What is said in place of moves.
fn error_lines(alloc: Global, what: &[u8]) -> Result<Vec<u8>, AllocError>
    ensures lines { IfOk result (λ text. text.items ≡ error_lines what.now) }
{
    let mut text = Vec::from_slice(alloc, b"error: ")?;
    text.extend_from_slice(what)?;
    text.extend_from_slice(b"\n\n")?;
    Ok(text)
}

// The answer to a faulty FEN.
fn refusal(alloc: Global, fault: FenFault) -> Result<Vec<u8>, AllocError>
    ensures lines { IfOk result (λ text. text.items ≡ error_lines (fault_name fault)) }
{
    match fault {
        FenFault::Field(number) => field_refusal(alloc, number),
        FenFault::Kings => error_lines(alloc, b"kings"),
        FenFault::Pawns => error_lines(alloc, b"pawns"),
        FenFault::TooMany => error_lines(alloc, b"too many men"),
        FenFault::InCheck => error_lines(alloc, b"in check"),
    }
}

// The answer if a field is malformed.
fn field_refusal(alloc: Global, number: u8) -> Result<Vec<u8>, AllocError>
    ensures lines { IfOk result (λ text. text.items ≡ error_lines (fault_name (FenFault.Field number))) }
{
    let mut name = Vec::from_slice(alloc, b"field ")?;
    name.extend_from_slice(Buffer::new().format(number).as_bytes())?;
    error_lines(alloc, name.as_slice())
}

// The answer to a position.
fn listing(alloc: Global, position: &Position) -> Result<Vec<u8>, AllocError>
    ensures listing { IfOk result (λ text. text.items ≡ position_answer (Ok position.now)) }
{
    let mut moves = ArrayVec::new();
    if !list_moves(position, &mut moves) {
        return error_lines(alloc, b"too many moves");
    }
    let mut text = Vec::new(alloc);
    push_moves(alloc, &mut text, position, moves.as_slice())?;
    text.extend_from_slice(state_line(position.in_check(), moves.is_empty()))?;
    text.push(b'\n')?;
    Ok(text)
}

// Lists the legal moves, and answers whether they are no more than fit.
#[tactic(auto, using(crate::proofs::MoveLaws::moves_listed, crate::proofs::MoveLaws::moves_fit, crate::proofs::MoveLaws::moves_many, crate::proofs::MoveLaws::moves_legal))]
fn list_moves(position: &Position, moves: &mut ArrayVec<Move, 256>) -> bool
    ensures fits { nat_lt 256 (length (legal_moves position.now)) ≡ not result }
    ensures listed { OnTrue result (moves.new.items ≡ legal_moves position.now) }
    ensures legal { OnTrue result (All (λ m. Legal position.now m) moves.new.items) }
{
    // The call tells that the position keeps the rules.
    let _ = position.setup();
    position.legal_moves(moves)
}

// Adds the lines of these legal moves.
fn push_moves(
    alloc: Global,
    text: &mut Vec<u8>,
    position: &Position,
    moves: &[Move],
) -> Result<(), AllocError>
    requires legal { All (λ m. Legal position.now m) moves.now }
    ensures lines { OnOk result (text.new.items ≡ text.old.items ++ flat_map (move_line position.now) moves.now) }
{
    for m in moves {
        push_move(alloc, text, position, m)?;
    }
    Ok(())
}

// Adds the line of a legal move.
#[tactic(auto, using(std::proofs::Common::append_assoc))]
fn push_move(
    alloc: Global,
    text: &mut Vec<u8>,
    position: &Position,
    m: &Move,
) -> Result<(), AllocError>
    requires legal { Legal position.now m.now }
    ensures line { OnOk result (text.new.items ≡ text.old.items ++ move_line position.now m.now) }
{
    let mut next = *position;
    let san = play_san(&mut next, m);
    let fen = write_fen(alloc, &next)?;
    push_coordinates(text, m)?;
    text.push(b' ')?;
    text.extend_from_slice(san.as_slice())?;
    text.push(b' ')?;
    text.extend_from_slice(fen.as_bytes())?;
    text.push(b'\n')?;
    Ok(())
}

// Adds a move by its squares, and the small letter of a promotion.
#[tactic(auto, using(std::proofs::Common::append_assoc))]
fn push_coordinates(text: &mut Vec<u8>, m: &Move) -> Result<(), AllocError>
    ensures squares { OnOk result (text.new.items ≡ text.old.items ++ coordinates m.now) }
{
    push_square(text, m.from)?;
    push_square(text, m.to)?;
    push_promotion(text, m.promo)
}

// Adds a square as its file letter and its rank digit.
fn push_square(text: &mut Vec<u8>, s: Square) -> Result<(), AllocError>
    ensures square { OnOk result (text.new.items ≡ text.old.items ++ square_text s) }
{
    text.push(b'a' + s.index() % 8)?;
    text.push(b'1' + s.index() / 8)?;
    Ok(())
}

// Adds the small letter of what a pawn becomes.
fn push_promotion(text: &mut Vec<u8>, promo: Option<Kind>) -> Result<(), AllocError>
    ensures letter { OnOk result (text.new.items ≡ text.old.items ++ option_map_or (λ kind. letter_in Black (capital_of kind) ∷ []) promo []) }
{
    if let Some(kind) = promo {
        text.push(small_letter(kind))?;
    }
    Ok(())
}

// The small letter of a kind of man.
fn small_letter(kind: Kind) -> u8
    ensures letter { result ≡ letter_in Black (capital_of kind) }
{
    match kind {
        Kind::King => b'k',
        Kind::Queen => b'q',
        Kind::Rook => b'r',
        Kind::Bishop => b'b',
        Kind::Knight => b'n',
        Kind::Pawn => b'p',
    }
}

// The line that says how it stands with the side to move, if there is one.
fn state_line(check: bool, stuck: bool) -> &'static [u8]
    ensures line { result.now ≡ state_line check stuck }
{
    match (check, stuck) {
        (true, true) => b"mate\n",
        (true, false) => b"check\n",
        (false, true) => b"stalemate\n",
        (false, false) => b"",
    }
}
