//! The games of an event by the places of their names.
ghost use Rattle.std.specs.Prelude.{◌≡◌, IfOk};
ghost use Rattle.cross_table.specs.Keeping.{met_in, met_known, met_points, mets};

use crate::score::Score;
use game_tree::Outcome;
use std::alloc::{AllocError, Global};

/// A game of the event: the places of its names among those that play, and its result.
#[derive(Clone, Copy)]
pub(crate) struct Played {
    pub(crate) white: u32,
    pub(crate) black: u32,
    pub(crate) result: Outcome,
}

/// A game from the side of one of its names: the place of the other one, and how it ended for this one.
#[derive(Clone, Copy)]
pub(crate) struct Met {
    pub(crate) other: u32,
    pub(crate) score: Score,
}

impl Played {
    // What the game is from the side of the name at a place, if it is one of its two.
    fn met(&self, id: u32) -> Option<Met>
        ensures { result ≡ met_in id self.now }
    {
        if id == self.white {
            return Some(Met {
                other: self.black,
                score: Score::of_white(self.result),
            });
        }
        if id == self.black {
            return Some(Met {
                other: self.white,
                score: Score::of_black(self.result),
            });
        }
        None
    }
}

/// The games of the name at a place, from its side.
pub(crate) fn mets(alloc: Global, id: u32, games: &[Played]) -> Result<Vec<Met>, AllocError>
    ensures { IfOk result (λ met. met.items ≡ mets id games.now) }
{
    games.iter().filter_map(|game| game.met(id)).collect(alloc)
}

/// The half points of a name's games.
pub(crate) fn met_points(met: &[Met]) -> u128
    ensures { result ≡ met_points met.now }
{
    let mut points = 0;
    for m in met {
        points += m.score.half_points();
    }
    points
}

/// How many of a name's games have a known result.
pub(crate) fn met_known(met: &[Met]) -> usize
    ensures { result ≡ met_known met.now }
{
    met.iter().filter(|m| m.score.is_known()).count()
}
