//! The text of a move of a tree.
ghost use Rattle.std.specs.Prelude.{◌≡◌, ◌↔◌, IsTrue};
ghost use Rattle.chess_laws.specs.Moves.{IsFrom};
ghost use Rattle.chess_laws.specs.Position.{Sound, setup_of};
ghost use Rattle.chess_laws.specs.Step.{Legal};
ghost use Rattle.chess_text.specs.SanText.{san_text};
ghost use Rattle.tree_rows.specs.MoveText.{IsKey, needed, right_needed, square_needed};

use arrayvec::ArrayVec;
use cell_core::{Board, Colour, Move, Square};
use chess_laws::{Effect, Position, Wing};
use chess_text::write_san;

/// Whether a key is one of a tree of this board and side: a move that is legal from some position of them, or none, for `end`.
pub fn is_key(board: &Board, side: Colour, key: &Option<Move>) -> bool
    ensures key { IsTrue result ↔ IsKey board.now side key.now }
{
    match key {
        Some(m) => is_from(board, side, m),
        None => true,
    }
}

// Whether a move is legal from some position of this board and side: from the one whose only right and en passant square are those that
// the move needs.
fn is_from(board: &Board, side: Colour, m: &Move) -> bool
    ensures from { IsTrue result ↔ IsFrom board.now side m.now }
{
    let Ok(bare) = Position::try_new(*board, side, 0, None) else {
        return false;
    };
    let effect = bare.effect(m);
    let right = right_needed(effect, side);
    match Position::try_new(*board, side, right, square_needed(effect, m)) {
        Ok(position) => position.is_legal(*m),
        Err(_) => false,
    }
}

/// The move in Standard Algebraic Notation, in the position of this board and side whose only right and en passant square are those that
/// the move needs.
pub(crate) fn move_text(board: &Board, side: Colour, m: &Move) -> ArrayVec<u8, 8>
    requires from { IsFrom board.now side m.now }
    ensures text { result.items ≡ san_text (needed board.now side m.now) m.now }
{
    write_san(&needed(board, side, m), *m)
}

/// The position of this board and side whose only right and en passant square are those that a move needs. The move is legal there.
#[tactic(auto, using(crate::proofs::NeededLaws::needed_is))]
pub fn needed(board: &Board, side: Colour, m: &Move) -> Position
    requires from { IsFrom board.now side m.now }
    ensures position { result ≡ needed board.now side m.now }
    ensures legal { Legal result m.now }
{
    let bare = placed(board, side, 0, None);
    let effect = bare.effect(m);
    placed(
        board,
        side,
        right_needed(effect, side),
        square_needed(effect, m),
    )
}

// The position of a setup that keeps the rules.
#[tactic(auto, using(crate::proofs::NeededLaws::unbroken))]
fn placed(board: &Board, side: Colour, rights: u8, square: Option<Square>) -> Position
    requires sound { Sound (setup_of board.now side rights square) }
    ensures position { result ≡ setup_of board.now side rights square }
{
    match Position::try_new(*board, side, rights, square) {
        Ok(position) => position,
        Err(_) => unreachable!(),
    }
}

// The right that a half-move of this kind needs, as its bit.
fn right_needed(effect: Effect, side: Colour) -> u8
    ensures { result ≡ right_needed effect side }
{
    match (effect, side) {
        (Effect::Castle(Wing::KingSide), Colour::White) => 1,
        (Effect::Castle(Wing::QueenSide), Colour::White) => 2,
        (Effect::Castle(Wing::KingSide), Colour::Black) => 4,
        (Effect::Castle(Wing::QueenSide), Colour::Black) => 8,
        _ => 0,
    }
}

// The en passant square that it needs.
fn square_needed(effect: Effect, m: &Move) -> Option<Square>
    ensures { result ≡ square_needed effect m.now }
{
    match effect {
        Effect::Passing => Some(m.to),
        Effect::Plain | Effect::Double | Effect::Castle(_) | Effect::Null => None,
    }
}
