//! The board packed into four words, both ways.
ghost use Rattle.std.specs.Prelude.{◌≡◌, ◌<◌, length};
ghost use Rattle.cell_core.specs.Packed.{cells_of, man_of, men_of, nibble_at, packed_of};

use super::board::Board;
use super::man::{Colour, Kind, Man};
use std::hash::{Hash, Hasher};
use std::marker::Model;

/// A board and the side to move in four words. What stands on a square takes four bits: one in each word, at the bit of
/// the square. Two packed boards are equal if and only if their boards and their sides are.
#[derive(Clone, Copy, Debug, PartialEq, Eq, PartialOrd, Ord)]
pub struct PackedBoard {
    cells: [u64; 4],
    side: Colour,
}

impl Model for PackedBoard {
    ghost use Rattle.cell_core.specs.Packed.{Packed, ArePacked};

    ghost Value = { Packed };

    ghost view = { λ p. record { cells = p.cells; side = p.side } };

    ghost invariant = { λ p. ArePacked p.cells };

    ghost inverse = { λ p. record { cells = p.cells; side = p.side } };
}

/// The four words are hashed one by one, so that nothing is mixed before the hasher's key: the two sides to move of a board hash
/// the same.
impl Hash for PackedBoard {
    ghost use Rattle.std.specs.Prelude.{◌++◌, slice_index_or};
    ghost use Rattle.std.specs.Cmp.Rules.{hashing};
    ghost use borrow.Author.Rules.{rules};
    ghost use Rattle.std.specs.Hash as fed;

    ghost hash_input = { λ p. fed.u64 (slice_index_or p.cells 0 0) ++ (fed.u64 (slice_index_or p.cells 1 0) ++ (fed.u64 (slice_index_or p.cells 2 0) ++ fed.u64 (slice_index_or p.cells 3 0))) };

    ghost respects_eq = { Prim.search (hashing, rules) };

    fn hash<H: Hasher>(&self, state: &mut H) {
        state.write_u64(self.cells[0]);
        state.write_u64(self.cells[1]);
        state.write_u64(self.cells[2]);
        state.write_u64(self.cells[3]);
    }
}

/// Packs a board and the side to move; `unpack` gives them back.
pub fn pack(board: &Board, side: Colour) -> PackedBoard
    ensures packed { result ≡ packed_of board.now side }
    ensures given_back { men_of result.cells ≡ board.now }
{
    PackedBoard {
        cells: words(board),
        side,
    }
}

/// The words of a board: a word for each bit of the kinds' numbers, which count from one here, and one for Black.
fn words(board: &Board) -> [u64; 4]
    ensures words { result ≡ cells_of board.now }
    ensures squares { length board.now ≡ 64 }
{
    let rooks = board.of_kind(Kind::Rook);
    let knights = board.of_kind(Kind::Knight);
    let pawns = board.of_kind(Kind::Pawn);
    [
        board.of_kind(Kind::King) | rooks | knights,
        board.of_kind(Kind::Queen) | rooks | pawns,
        board.of_kind(Kind::Bishop) | knights | pawns,
        board.of_colour(Colour::Black),
    ]
}

/// The board and the side to move of a packed board; `pack` gives the packed board back.
pub fn unpack(packed: &PackedBoard) -> (Board, Colour)
    ensures board { result.0 ≡ men_of packed.now.cells }
    ensures side { result.1 ≡ packed.now.side }
    ensures given_back { packed_of result.0 result.1 ≡ packed.now }
{
    let mut men = [None; 64];
    for s in 0..64u8 {
        men[s as usize] = man(nibble(&packed.cells, s));
    }
    (Board::from_cells(men), packed.side)
}

/// The nibble of a square.
#[tactic(auto, unfolding(crate::specs::Packed::nibble_at))]
fn nibble(words: &[u64; 4], s: u8) -> u8
    requires { s < 64 }
    ensures { result ≡ nibble_at words.now s }
{
    let low = (words[0] >> s) % 2 + 2 * ((words[1] >> s) % 2);
    let high = 4 * ((words[2] >> s) % 2) + 8 * ((words[3] >> s) % 2);
    (low + high) as u8
}

/// What stands on a square with this nibble.
#[tactic(auto, unfolding(crate::specs::Packed::man_of))]
fn man(nibble: u8) -> Option<Man>
    ensures { result ≡ man_of nibble }
{
    match nibble {
        1 => occupied(Colour::White, Kind::King),
        2 => occupied(Colour::White, Kind::Queen),
        3 => occupied(Colour::White, Kind::Rook),
        4 => occupied(Colour::White, Kind::Bishop),
        5 => occupied(Colour::White, Kind::Knight),
        6 => occupied(Colour::White, Kind::Pawn),
        9 => occupied(Colour::Black, Kind::King),
        10 => occupied(Colour::Black, Kind::Queen),
        11 => occupied(Colour::Black, Kind::Rook),
        12 => occupied(Colour::Black, Kind::Bishop),
        13 => occupied(Colour::Black, Kind::Knight),
        14 => occupied(Colour::Black, Kind::Pawn),
        _ => None,
    }
}

/// A square with this man on it.
fn occupied(colour: Colour, kind: Kind) -> Option<Man>
    ensures { result ≡ Some (record { colour = colour; kind = kind }) }
{
    Some(Man { colour, kind })
}
