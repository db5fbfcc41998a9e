//! The ten counts of men in two words.
ghost use Rattle.std.specs.Prelude.{◌≡◌, ◌↔◌, ◌<◌, ◌^◌, ◌∷◌, [], IsTrue, length};
ghost use Rattle.chess_laws.specs.Counts.{count_of, counts_of, fewer};
ghost use Rattle.chess_laws.specs.CountWords.{byte_in, less_at, less_of};
ghost use Rattle.cell_core.specs.declared.man.Kind.TheVariants.{Queen, Rook, Bishop, Knight, Pawn};

use super::census::number;
use cell_core::{Board, Colour, Kind, Man};
use std::marker::Model;

/// How many queens, rooks, bishops, knights and pawns White has, and then Black. A word for each side has a byte for
/// each kind, so that two words tell whether counts are the same. Contracts see the list of the ten.
#[derive(Clone, Copy, Debug, PartialEq, Eq)]
pub struct Counts {
    white: u64,
    black: u64,
}

impl Model for Counts {
    ghost use Rattle.std.specs.Prelude.{List, ℕ};
    ghost use Rattle.chess_laws.specs.CountWords.{AreWords, five_back, ten_in, ten_of};

    ghost Value = { List ℕ };

    ghost view = { λ c. ten_in c.white c.black };

    ghost invariant = { λ c. AreWords c.white c.black };

    ghost inverse = { λ counts. record { white = ten_of counts 0; black = ten_of counts 5 } };

    ghost inverse_ok = { λ c words i. record { white = five_back c.white words.of_white i; black = five_back c.black words.of_black i } };
}

impl Counts {
    ghost use Rattle.chess_laws.specs.Counts.{counts_of, fewer};

    /// The counts of the initial position.
    pub(crate) fn start() -> Counts
        ensures counts { result ≡ 1 ∷ 2 ∷ 2 ∷ 2 ∷ 8 ∷ 1 ∷ 2 ∷ 2 ∷ 2 ∷ 8 ∷ [] }
    {
        Counts {
            white: 0x08_02_02_02_01,
            black: 0x08_02_02_02_01,
        }
    }

    /// The counts of a board.
    pub fn of(board: &Board) -> Counts
        ensures counts { result ≡ counts_of board.now }
        ensures squares { length board.now ≡ 64 }
    {
        Counts {
            white: word(board, Colour::White),
            black: word(board, Colour::Black),
        }
    }

    /// Whether they are the same.
    pub fn is_same(&self, other: &Counts) -> bool
        ensures same { IsTrue result ↔ (self.now ≡ other.now) }
    {
        self.white == other.white && self.black == other.black
    }

    /// The ten numbers.
    pub fn numbers(&self) -> [u8; 10]
        ensures numbers { result ≡ self.now }
    {
        [
            byte(self.white, 0),
            byte(self.white, 8),
            byte(self.white, 16),
            byte(self.white, 24),
            byte(self.white, 32),
            byte(self.black, 0),
            byte(self.black, 8),
            byte(self.black, 16),
            byte(self.black, 24),
            byte(self.black, 32),
        ]
    }

    /// One less of the man on a square, if one stands there that is counted.
    #[inline(always)]
    pub(crate) fn count_out(&mut self, cell: &Option<Man>)
        ensures fewer { self.new ≡ fewer self.old cell.now }
    {
        if let Some(man) = cell {
            match man.colour {
                Colour::White => self.white = one_less(self.white, man.kind),
                Colour::Black => self.black = one_less(self.black, man.kind),
            }
        }
    }
}

// The word of a side's five counts.
fn word(board: &Board, colour: Colour) -> u64
    ensures queens { byte_in result 0 ≡ count_of board.now colour Queen }
    ensures rooks { byte_in result 8 ≡ count_of board.now colour Rook }
    ensures bishops { byte_in result 16 ≡ count_of board.now colour Bishop }
    ensures knights { byte_in result 24 ≡ count_of board.now colour Knight }
    ensures pawns { byte_in result 32 ≡ count_of board.now colour Pawn }
    ensures less { result < 2 ^ 40 }
    ensures squares { length board.now ≡ 64 }
{
    let pawns = u64::from(number(board, colour, Kind::Pawn));
    let knights = u64::from(number(board, colour, Kind::Knight));
    let bishops = u64::from(number(board, colour, Kind::Bishop));
    let rooks = u64::from(number(board, colour, Kind::Rook));
    let queens = u64::from(number(board, colour, Kind::Queen));
    queens + 256 * (rooks + 256 * (bishops + 256 * (knights + 256 * pawns)))
}

// The byte of a word from this bit on.
#[inline(always)]
fn byte(word: u64, shift: u32) -> u8
    requires { shift < 64 }
    ensures { result ≡ byte_in word shift }
{
    ((word >> shift) % 256) as u8
}

// The word with one man of this kind less, if it has one; kings are not counted.
#[inline(always)]
fn one_less(word: u64, kind: Kind) -> u64
    ensures { result ≡ less_of word kind }
{
    match kind {
        Kind::King => word,
        Kind::Queen => less_at(word, 0),
        Kind::Rook => less_at(word, 8),
        Kind::Bishop => less_at(word, 16),
        Kind::Knight => less_at(word, 24),
        Kind::Pawn => less_at(word, 32),
    }
}

// The word with one less in the byte from this bit on, unless that byte is 0.
#[inline(always)]
fn less_at(word: u64, shift: u32) -> u64
    requires { shift < 64 }
    ensures { result ≡ less_at word shift }
{
    if byte(word, shift) == 0 {
        word
    } else {
        word - (1 << shift)
    }
}
