//! What is kept of the last place of a game.
ghost use Rattle.std.specs.Prelude.{◌≡◌, ◌<◌, sum};
ghost use Rattle.chess_laws.specs.Counts.{counts_of, is_home};
ghost use Rattle.cell_core.specs.Man.{is_man};
ghost use Rattle.pos_index.specs.Hits.{last_at};
ghost use Rattle.sig_index.specs.Homes.{home_set};

use cell_core::{Board, Colour, Kind, Man, Move, PackedBoard, Square, unpack};
use chess_laws::Counts;

/// Of the last place of a game up to the depth: the home values of the pawns that stand on their own squares, as bits, how many men there
/// are, kings not counted, and whether a move comes after it.
#[derive(Clone, Copy, Debug, PartialEq, Eq)]
pub struct Last {
    pub homes: u16,
    pub men: u16,
    pub goes_on: bool,
}

impl Last {
    /// Of a place on a board, with the move after it.
    pub(crate) fn of(board: &PackedBoard, next: &Option<Move>) -> Last
        ensures { result ≡ last_at (record { board = board.now; ply = 0; next = next.now }) }
    {
        let (board, _) = unpack(board);
        Last {
            homes: home_set(&board),
            men: men_in(&board),
            goes_on: next.is_some(),
        }
    }
}

/// How many men are on a board, kings not counted.
pub fn men_in(board: &Board) -> u16
    ensures men { result ≡ sum (counts_of board.now) }
{
    counts_on(board).iter().map(|count| u16::from(*count)).sum()
}

// The ten counts of a board.
fn counts_on(board: &Board) -> [u8; 10]
    ensures { result ≡ counts_of board.now }
{
    Counts::of(board).numbers()
}

/// The home values of the pawns that stand on their own squares, as bits.
pub fn home_set(board: &Board) -> u16
    ensures homes { result ≡ home_set board.now }
{
    let mut set: u16 = 0;
    for value in 0..16u8 {
        if is_home(board, value) {
            set |= 1 << value;
        }
    }
    set
}

// Whether the pawn with this home value stands on its own square.
fn is_home(board: &Board, value: u8) -> bool
    requires { value < 16 }
    ensures { result ≡ is_home board.now value }
{
    let (colour, square) = if value < 8 {
        (Colour::Black, Square::at(55 - value))
    } else {
        (Colour::White, Square::at(23 - value))
    };
    is_man(&board.at(square), colour, Kind::Pawn)
}

// Whether a man of this colour and kind stands on a square.
fn is_man(cell: &Option<Man>, colour: Colour, kind: Kind) -> bool
    ensures { result ≡ is_man colour kind cell.now }
{
    match cell {
        Some(man) => man.colour == colour && man.kind == kind,
        None => false,
    }
}
