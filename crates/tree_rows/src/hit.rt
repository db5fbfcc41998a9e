//! What a tree counts of a game.
ghost use Rattle.std.specs.Prelude.{◌≡◌};
ghost use Rattle.tree_rows.specs.Hits.{hit_from, rating_from};

use cell_core::{Colour, Move};
use game_tree::Outcome;

/// A game that meets a position: the move after its first match, or none if the game ends there, and its result. It
/// also has the ratings of the side to move and of the other side, and the year. Ratings and years are 0 if they are
/// not known.
#[derive(Clone, Copy, Debug, PartialEq, Eq)]
pub struct GameHit {
    pub next: Option<Move>,
    pub result: Outcome,
    pub mover: u16,
    pub other: u16,
    pub year: u16,
}

impl GameHit {
    /// What is counted of a game with this outcome, with these ratings of White and of Black and of this year, which meets the position
    /// with this side to move and goes on with this move, if with any.
    pub fn of(
        next: Option<Move>,
        side: Colour,
        outcome: Outcome,
        white: u16,
        black: u16,
        year: u16,
    ) -> GameHit
        ensures hit { result ≡ hit_from next side outcome white black year }
    {
        GameHit {
            next,
            result: outcome,
            mover: rating_from(side, white, black),
            other: rating_from(side.other(), white, black),
            year,
        }
    }
}

// The rating of a side.
fn rating_from(side: Colour, white: u16, black: u16) -> u16
    ensures { result ≡ rating_from side white black }
{
    match side {
        Colour::White => white,
        Colour::Black => black,
    }
}
