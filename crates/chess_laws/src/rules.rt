//! The rules of a position, one by one.
ghost use Rattle.std.specs.Prelude.{◌≡◌, ◌↔◌, ◌<◌, IsTrue, MatchBool, Some, length};
ghost use Rattle.cell_core.specs.Board.{man_at};
ghost use Rattle.cell_core.specs.Man.{man, other};
ghost use Rattle.cell_core.specs.declared.man.Colour.TheVariants.{White, Black};
ghost use Rattle.cell_core.specs.declared.man.Colour.{Colour};
ghost use Rattle.cell_core.specs.declared.man.Kind.TheVariants.{King, Pawn};
ghost use Rattle.chess_laws.specs.Attacks.{IsInCheck};
ghost use Rattle.chess_laws.specs.Counts.{count_of};
ghost use Rattle.chess_laws.specs.Position.{HasFewMen, HasFitEnPassant, HasPawnsInside, en_passant_rank, king_square, is_at_home, rights_of, start_men};

use super::attack::attacks;
use super::castling::{king_home, rook_home};
use super::census::{count_side, holds};
use super::setup::{Rights, Wing};
use cell_core::{Board, Colour, Kind, Man, Square};

/// Whether no pawn stands on the first or the last rank.
#[tactic(auto, using(crate::proofs::Pawns::inside))]
pub fn has_pawns_inside(board: &Board) -> bool
    ensures { IsTrue result ↔ HasPawnsInside board.now }
{
    for file in 0..8u8 {
        if has_pawn(board, Square::at(file)) {
            return false;
        }
        if has_pawn(board, Square::at(56 + file)) {
            return false;
        }
    }
    true
}

/// Whether each side has at most sixteen men.
pub fn has_few_men(board: &Board) -> bool
    ensures few { IsTrue result ↔ HasFewMen board.now }
    ensures squares { length board.now ≡ 64 }
{
    count_side(board, Colour::White) <= 16 && count_side(board, Colour::Black) <= 16
}

/// Whether the side that is not to move is in check, the kings standing on these squares.
pub fn rests_in_check(board: &Board, side: Colour, white_king: Square, black_king: Square) -> bool
    requires white { (count_of board.now White King ≡ 1) × (white_king ≡ king_square board.now White) }
    requires black { (count_of board.now Black King ≡ 1) × (black_king ≡ king_square board.now Black) }
    ensures check { IsTrue result ↔ IsInCheck board.now (other side) }
{
    match side {
        Colour::White => is_checked(board, Colour::Black, black_king),
        Colour::Black => is_checked(board, Colour::White, white_king),
    }
}

/// Whether the king of this colour is in check, which stands on this square.
fn is_checked(board: &Board, colour: Colour, king: Square) -> bool
    requires one { count_of board.now colour King ≡ 1 }
    requires stands { king ≡ king_square board.now colour }
    ensures check { IsTrue result ↔ IsInCheck board.now colour }
{
    attacks(board, colour.other(), king)
}

/// Whether a pawn stands on the square.
fn has_pawn(board: &Board, s: Square) -> bool
    ensures pawn { MatchBool result ((c : Colour) × (man_at board.now s ≡ Some (man c Pawn))) ((c : Colour) → man_at board.now s ≡ Some (man c Pawn) → ⊥) }
    ensures squares { length board.now ≡ 64 }
{
    match board.at(s) {
        Some(man) => man.kind == Kind::Pawn,
        None => false,
    }
}

/// Whether the en passant square, if there is one, stands on the rank that fits the side to move.
pub fn has_fit_en_passant(side: Colour, square: &Option<Square>) -> bool
    ensures { IsTrue result ↔ HasFitEnPassant side square.now }
{
    match square {
        Some(square) => square.index() / 8 == en_passant_rank(side),
        None => true,
    }
}

/// The rank of an en passant square, by the side to move.
pub fn en_passant_rank(side: Colour) -> u8
    ensures rank { result ≡ en_passant_rank side }
    ensures on_board { result < 8 }
{
    match side {
        Colour::White => 5,
        Colour::Black => 2,
    }
}

/// The rights of these bits, without those whose king or rook is not at home.
pub fn standing_rights(board: &Board, bits: u8) -> Rights
    ensures { result ≡ rights_of board.now bits }
{
    Rights {
        white_king_side: bits % 2 == 1 && is_home(board, Colour::White, Wing::KingSide),
        white_queen_side: bits / 2 % 2 == 1 && is_home(board, Colour::White, Wing::QueenSide),
        black_king_side: bits / 4 % 2 == 1 && is_home(board, Colour::Black, Wing::KingSide),
        black_queen_side: bits / 8 % 2 == 1 && is_home(board, Colour::Black, Wing::QueenSide),
    }
}

/// Whether king and rook stand at home.
fn is_home(board: &Board, colour: Colour, wing: Wing) -> bool
    ensures { result ≡ is_at_home board.now colour wing }
{
    holds(&board.at(king_home(colour)), colour, Kind::King)
        && holds(&board.at(rook_home(colour, wing)), colour, Kind::Rook)
}

/// The initial board.
#[tactic(auto, unfolding(cell_core::specs::Sets::set_of, cell_core::specs::Sets::sets_of))]
pub fn start_board() -> Board
    ensures { result ≡ start_men }
{
    Board::with_sets(
        copied(&START_CELLS),
        [
            0x1000_0000_0000_0010,
            0x0800_0000_0000_0008,
            0x8100_0000_0000_0081,
            0x2400_0000_0000_0024,
            0x4200_0000_0000_0042,
            0x00ff_0000_0000_ff00,
        ],
        [0xffff, 0xffff_0000_0000_0000],
    )
}

// A copy of what stands on the squares.
#[inline(always)]
fn copied(cells: &[Option<Man>; 64]) -> [Option<Man>; 64]
    ensures { result ≡ cells.now }
{
    *cells
}

// What stands on each square of the initial board.
static START_CELLS: [Option<Man>; 64] = [
    WHITE_ROOK,
    WHITE_KNIGHT,
    WHITE_BISHOP,
    WHITE_QUEEN,
    WHITE_KING,
    WHITE_BISHOP,
    WHITE_KNIGHT,
    WHITE_ROOK,
    WHITE_PAWN,
    WHITE_PAWN,
    WHITE_PAWN,
    WHITE_PAWN,
    WHITE_PAWN,
    WHITE_PAWN,
    WHITE_PAWN,
    WHITE_PAWN,
    None,
    None,
    None,
    None,
    None,
    None,
    None,
    None,
    None,
    None,
    None,
    None,
    None,
    None,
    None,
    None,
    None,
    None,
    None,
    None,
    None,
    None,
    None,
    None,
    None,
    None,
    None,
    None,
    None,
    None,
    None,
    None,
    BLACK_PAWN,
    BLACK_PAWN,
    BLACK_PAWN,
    BLACK_PAWN,
    BLACK_PAWN,
    BLACK_PAWN,
    BLACK_PAWN,
    BLACK_PAWN,
    BLACK_ROOK,
    BLACK_KNIGHT,
    BLACK_BISHOP,
    BLACK_QUEEN,
    BLACK_KING,
    BLACK_BISHOP,
    BLACK_KNIGHT,
    BLACK_ROOK,
];

const WHITE_KING: Option<Man> = Some(Man {
    colour: Colour::White,
    kind: Kind::King,
});

const WHITE_QUEEN: Option<Man> = Some(Man {
    colour: Colour::White,
    kind: Kind::Queen,
});

const WHITE_ROOK: Option<Man> = Some(Man {
    colour: Colour::White,
    kind: Kind::Rook,
});

const WHITE_BISHOP: Option<Man> = Some(Man {
    colour: Colour::White,
    kind: Kind::Bishop,
});

const WHITE_KNIGHT: Option<Man> = Some(Man {
    colour: Colour::White,
    kind: Kind::Knight,
});

const WHITE_PAWN: Option<Man> = Some(Man {
    colour: Colour::White,
    kind: Kind::Pawn,
});

const BLACK_KING: Option<Man> = Some(Man {
    colour: Colour::Black,
    kind: Kind::King,
});

const BLACK_QUEEN: Option<Man> = Some(Man {
    colour: Colour::Black,
    kind: Kind::Queen,
});

const BLACK_ROOK: Option<Man> = Some(Man {
    colour: Colour::Black,
    kind: Kind::Rook,
});

const BLACK_BISHOP: Option<Man> = Some(Man {
    colour: Colour::Black,
    kind: Kind::Bishop,
});

const BLACK_KNIGHT: Option<Man> = Some(Man {
    colour: Colour::Black,
    kind: Kind::Knight,
});

const BLACK_PAWN: Option<Man> = Some(Man {
    colour: Colour::Black,
    kind: Kind::Pawn,
});
