//! Castling: where king and rook stand and go, and which rights are left.
ghost use Rattle.std.specs.Prelude.{◌≡◌, ◌↔◌, ◌||◌, IsTrue, All, None};
ghost use Rattle.cell_core.specs.Board.{man_at};
ghost use Rattle.cell_core.specs.Man.{other};
ghost use Rattle.chess_laws.specs.Attacks.{Attacks};
ghost use Rattle.chess_laws.specs.LegalTests.{AreSafe, is_home_square};
ghost use Rattle.chess_laws.specs.Castling.{king_home, king_target, rook_home, rook_target, between, king_path, has_right, touches, keeps, rights_after};

use super::attack::attacks;
use super::setup::{Rights, Wing};
use cell_core::{Board, Colour, Move, Square};

/// The king's home square.
pub fn king_home(colour: Colour) -> Square
    ensures { result ≡ king_home colour }
{
    match colour {
        Colour::White => Square::at(4),
        Colour::Black => Square::at(60),
    }
}

/// The home square of the rook with which a side castles on this wing: h1, a1, h8 or a8.
pub fn rook_home(colour: Colour, wing: Wing) -> Square
    ensures square { result ≡ rook_home colour wing }
{
    match (colour, wing) {
        (Colour::White, Wing::KingSide) => Square::at(7),
        (Colour::White, Wing::QueenSide) => Square::at(0),
        (Colour::Black, Wing::KingSide) => Square::at(63),
        (Colour::Black, Wing::QueenSide) => Square::at(56),
    }
}

/// Where the king goes in castling: g1, c1, g8 or c8.
pub fn king_target(colour: Colour, wing: Wing) -> Square
    ensures square { result ≡ king_target colour wing }
{
    match (colour, wing) {
        (Colour::White, Wing::KingSide) => Square::at(6),
        (Colour::White, Wing::QueenSide) => Square::at(2),
        (Colour::Black, Wing::KingSide) => Square::at(62),
        (Colour::Black, Wing::QueenSide) => Square::at(58),
    }
}

/// Where that rook goes in castling: f1, d1, f8 or d8, the square that the king crosses.
pub fn rook_target(colour: Colour, wing: Wing) -> Square
    ensures square { result ≡ rook_target colour wing }
{
    match (colour, wing) {
        (Colour::White, Wing::KingSide) => Square::at(5),
        (Colour::White, Wing::QueenSide) => Square::at(3),
        (Colour::Black, Wing::KingSide) => Square::at(61),
        (Colour::Black, Wing::QueenSide) => Square::at(59),
    }
}

/// Whether the right to castle on this wing is left.
pub fn has_right(rights: &Rights, colour: Colour, wing: Wing) -> bool
    ensures { result ≡ has_right rights.now colour wing }
{
    match (colour, wing) {
        (Colour::White, Wing::KingSide) => rights.white_king_side,
        (Colour::White, Wing::QueenSide) => rights.white_queen_side,
        (Colour::Black, Wing::KingSide) => rights.black_king_side,
        (Colour::Black, Wing::QueenSide) => rights.black_queen_side,
    }
}

/// The rights that are left after a move that is not the null move.
pub fn rights_after(rights: &Rights, m: &Move) -> Rights
    ensures { result ≡ rights_after rights.now m.now }
{
    let mut left = *rights;
    leave_rights(&mut left, m);
    left
}

/// Leaves of the rights those that are left after a move that is not the null move.
#[inline(always)]
pub fn leave_rights(rights: &mut Rights, m: &Move)
    ensures { rights.new ≡ rights_after rights.old m.now }
{
    if touches_home(m) {
        *rights = kept_rights(rights, m);
    }
}

// Each right that is left after the move.
#[inline(never)]
fn kept_rights(rights: &Rights, m: &Move) -> Rights
    ensures { result ≡ rights_after rights.now m.now }
{
    Rights {
        white_king_side: keeps(rights, m, Colour::White, Wing::KingSide),
        white_queen_side: keeps(rights, m, Colour::White, Wing::QueenSide),
        black_king_side: keeps(rights, m, Colour::Black, Wing::KingSide),
        black_queen_side: keeps(rights, m, Colour::Black, Wing::QueenSide),
    }
}

// Whether the move begins or ends on the home square of a king or a rook that may castle.
fn touches_home(m: &Move) -> bool
    ensures { result ≡ (is_home_square m.now.from || is_home_square m.now.to) }
{
    is_home_square(m.from) || is_home_square(m.to)
}

// Whether a king or a rook that may castle has this square for its home.
fn is_home_square(s: Square) -> bool
    ensures { result ≡ is_home_square s }
{
    let s = s.index();
    s == 4 || s == 60 || s == 0 || s == 7 || s == 56 || s == 63
}

/// Whether a right is there and is left after the move.
fn keeps(rights: &Rights, m: &Move, colour: Colour, wing: Wing) -> bool
    ensures { result ≡ keeps rights.now m.now colour wing }
{
    has_right(rights, colour, wing)
        && !touches(m, king_home(colour))
        && !touches(m, rook_home(colour, wing))
}

/// Whether the move begins or ends on this square.
fn touches(m: &Move, s: Square) -> bool
    ensures { result ≡ touches m.now s }
{
    m.from == s || m.to == s
}

/// Whether the squares between king and rook are empty.
pub fn is_way_free(board: &Board, colour: Colour, wing: Wing) -> bool
    ensures { IsTrue result ↔ All (λ s. man_at board.now s ≡ None) (between colour wing) }
{
    match (colour, wing) {
        (Colour::White, Wing::KingSide) => are_empty(board, &[Square::at(5), Square::at(6)]),
        (Colour::White, Wing::QueenSide) => are_empty(
            board,
            &[Square::at(1), Square::at(2), Square::at(3)],
        ),
        (Colour::Black, Wing::KingSide) => are_empty(board, &[Square::at(61), Square::at(62)]),
        (Colour::Black, Wing::QueenSide) => are_empty(
            board,
            &[Square::at(57), Square::at(58), Square::at(59)],
        ),
    }
}

/// Whether no enemy attacks the king's square, the one that it crosses or its target.
pub fn is_path_safe(board: &Board, colour: Colour, wing: Wing) -> bool
    ensures { IsTrue result ↔ All (λ s. Attacks board.now (other colour) s → ⊥) (king_path colour wing) }
{
    let home = king_home(colour);
    let crossed = rook_target(colour, wing);
    let target = king_target(colour, wing);
    are_safe(board, colour.other(), home, crossed, target)
}

fn are_empty(board: &Board, squares: &[Square]) -> bool
    ensures { IsTrue result ↔ All (λ s. man_at board.now s ≡ None) squares.now }
{
    squares.iter().all(|s| board.at(*s).is_none())
}

/// Whether no man of this colour attacks one of the three squares.
fn are_safe(board: &Board, from: Colour, first: Square, second: Square, third: Square) -> bool
    ensures { IsTrue result ↔ (AreSafe board.now from first second third) }
{
    is_safe(board, from, first) && is_safe(board, from, second) && is_safe(board, from, third)
}

/// Whether no man of this colour attacks the square.
fn is_safe(board: &Board, from: Colour, s: Square) -> bool
    ensures { IsTrue result ↔ (Attacks board.now from s → ⊥) }
{
    !attacks(board, from, s)
}
