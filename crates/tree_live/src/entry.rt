//! What a watch keeps of a game.
ghost use Rattle.std.specs.Prelude.{◌≡◌};
ghost use Rattle.tree_live.specs.Watching.{counted, same_counted, same_hit, same_outcome};

use game_tree::Outcome;
use tree_rows::{GameHit, same_key};

/// A game to a watch: what is counted of it if it meets the position that is watched, and whether it is in the filter.
#[derive(Clone, Copy, Debug)]
pub struct Entry {
    pub hit: Option<GameHit>,
    pub is_in: bool,
}

impl Entry {
    /// The hit of the game, if it is in the filter.
    pub fn counted(&self) -> Option<GameHit>
        ensures counted { result ≡ counted self.now }
    {
        if self.is_in { self.hit } else { None }
    }
}

/// Whether the same is counted of two games.
pub(crate) fn same_counted(a: &Option<GameHit>, b: &Option<GameHit>) -> bool
    ensures same { result ≡ same_counted a.now b.now }
{
    match (a, b) {
        (None, None) => true,
        (Some(a), Some(b)) => same_hit(a, b),
        _ => false,
    }
}

// Whether two hits are the same.
fn same_hit(a: &GameHit, b: &GameHit) -> bool
    ensures same { result ≡ same_hit a.now b.now }
{
    same_key(&a.next, &b.next)
        && same_outcome(a.result, b.result)
        && a.mover == b.mover
        && a.other == b.other
        && a.year == b.year
}

// Whether two games ended in the same way.
fn same_outcome(a: Outcome, b: Outcome) -> bool
    ensures same { result ≡ same_outcome a b }
{
    a == b
}
