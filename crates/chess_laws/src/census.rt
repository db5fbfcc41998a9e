//! What is counted on a board.
ghost use Rattle.std.specs.Prelude.{◌≡◌, ◌↔◌, ℕ, ◌<◌, ◌≤◌, IsTrue, IsBitSet, count_by, MatchOption, ◌≢◌, length};
ghost use Rattle.std.specs.List.{position};
ghost use Rattle.cell_core.specs.Man.{is_of, is_man};
ghost use Rattle.cell_core.specs.declared.man.Kind.TheVariants.{King};
ghost use Rattle.chess_laws.specs.Counts.{count_of, is_home};
ghost use Rattle.chess_laws.specs.Position.{king_square};

use cell_core::{Board, Colour, Kind, Man, Square};

/// The square of the king of this colour, if there is just one.
#[tactic(auto, using(crate::proofs::Kings::first_none))]
pub fn only_king(board: &Board, colour: Colour) -> Option<Square>
    ensures { MatchOption result (count_of board.now colour King ≢ 1) (λ s. (count_of board.now colour King ≡ 1) × (s ≡ king_square board.now colour)) }
{
    if count(board, colour, Kind::King) != 1 {
        return None;
    }
    let place = first_king(board, colour)?;
    Square::new(place as u8)
}

/// The place of the first king of this colour.
fn first_king(board: &Board, colour: Colour) -> Option<usize>
    ensures place { result ≡ position (is_man colour King) board.now }
    ensures squares { length board.now ≡ 64 }
{
    let cells = board.cells();
    cells
        .iter()
        .position(|cell| holds(cell, colour, Kind::King))
}

/// How many men of this colour there are.
#[tactic(auto, using(crate::proofs::Counting::ones))]
pub fn count_side(board: &Board, colour: Colour) -> usize
    ensures number { result ≡ count_by (is_of colour) board.now }
    ensures squares { length board.now ≡ 64 }
{
    board.of_colour(colour).count_ones() as usize
}

/// How many men of this colour and kind there are.
#[tactic(auto, using(crate::proofs::Counting::ones))]
fn count(board: &Board, colour: Colour, kind: Kind) -> usize
    ensures number { result ≡ count_of board.now colour kind }
    ensures few { result ≤ 64 }
    ensures squares { length board.now ≡ 64 }
{
    board.of_man(colour, kind).count_ones() as usize
}

/// Whether a man of this colour and kind stands on a square.
pub fn holds(cell: &Option<Man>, colour: Colour, kind: Kind) -> bool
    ensures { result ≡ is_man colour kind cell.now }
{
    match cell {
        Some(man) => man.colour == colour && man.kind == kind,
        None => false,
    }
}

/// How many men of this colour and kind there are, as a small number.
pub fn number(board: &Board, colour: Colour, kind: Kind) -> u8
    ensures number { result ≡ count_of board.now colour kind }
    ensures squares { length board.now ≡ 64 }
{
    count(board, colour, kind) as u8
}

/// The home values of the pawns that stand on their own squares, as bits.
pub fn home_set(board: &Board) -> u16
    ensures { (v : ℕ) → v < 16 → (IsBitSet result v ↔ IsTrue (is_home board.now v)) }
{
    let black = board.of_man(Colour::Black, Kind::Pawn) >> 40 & 0xff00;
    let white = board.of_man(Colour::White, Kind::Pawn) >> 8 & 0xff;
    // The values rise from h7 to a7 and from h2 to a2, against the squares.
    (black as u16 | white as u16).reverse_bits()
}
