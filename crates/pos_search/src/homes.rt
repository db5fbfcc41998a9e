//! The pawns at home of the board that is sought, by which a walk ends once one of them has left.
ghost use Rattle.std.specs.Prelude.{◌≡◌};
ghost use Rattle.cell_core.specs.Board.{Men};
ghost use Rattle.pos_search.specs.Passing.{has_homes};
ghost use Rattle.pos_search.specs.Sought.{AreHomes};

use cell_core::{Board, Colour, Kind};

// The squares of White's and of Black's pawns at home, a bit a square.
#[derive(Clone, Copy, Debug, PartialEq, Eq)]
pub(crate) struct Homes {
    pub(crate) white: u64,
    pub(crate) black: u64,
}

impl Homes {
    // Those of a board.
    #[tactic(auto, unfolding(crate::specs::Sought::AreHomes))]
    pub(crate) fn of(board: &Board) -> Homes
        ensures homes { AreHomes board.now result }
    {
        Homes {
            white: board.of_man(Colour::White, Kind::Pawn) & 0xff00,
            black: board.of_man(Colour::Black, Kind::Pawn) & 0x00ff_0000_0000_0000,
        }
    }

    // Whether each of them stands on another board too.
    #[inline(always)]
    pub(crate) fn stand_on(&self, board: &Board) -> bool
        ensures { (sought : Men) → AreHomes sought self.now → result ≡ has_homes sought board.now }
    {
        let white = board.of_man(Colour::White, Kind::Pawn);
        let black = board.of_man(Colour::Black, Kind::Pawn);
        white & self.white == self.white && black & self.black == self.black
    }
}
