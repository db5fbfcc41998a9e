//! What a position is made of.
ghost use Rattle.std.specs.Prelude.{◌≡◌, ◌↔◌, IsTrue};
ghost use Rattle.chess_laws.specs.Position.{bits_of};

use cell_core::{Board, Colour, Square};

/// The wing on which a side castles.
#[derive(Clone, Copy, Debug, PartialEq, Eq)]
pub enum Wing {
    KingSide,
    QueenSide,
}

/// The castling rights that are left: on the king's and on the queen's side, of White and of Black.
#[derive(Clone, Copy, Debug, PartialEq, Eq)]
pub struct Rights {
    pub white_king_side: bool,
    pub white_queen_side: bool,
    pub black_king_side: bool,
    pub black_queen_side: bool,
}

impl Rights {
    /// The rights as bits 0 to 3 for White's king's side and queen's side and Black's.
    pub fn bits(&self) -> u8
        ensures bits { result ≡ bits_of self.now }
    {
        u8::from(self.white_king_side)
            + 2 * u8::from(self.white_queen_side)
            + 4 * u8::from(self.black_king_side)
            + 8 * u8::from(self.black_queen_side)
    }
}

/// What a position is made of, within the rules or not: the board, the side to move, the castling rights and the en
/// passant square. The next position is made as a setup and tested before it becomes a `Position`.
#[derive(Clone, Copy, Debug, PartialEq, Eq)]
pub struct Setup {
    pub board: Board,
    pub side: Colour,
    pub rights: Rights,
    pub en_passant: Option<Square>,
}

impl Setup {
    /// Whether two setups are the same.
    pub fn is_same(&self, other: &Setup) -> bool
        ensures same { IsTrue result ↔ (self.now ≡ other.now) }
    {
        if self.side != other.side {
            return false;
        }
        if self.en_passant != other.en_passant {
            return false;
        }
        if self.rights != other.rights {
            return false;
        }
        self.board.is_same(&other.board)
    }
}
