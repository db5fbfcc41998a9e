//! What a client changes of the base.
ghost use Rattle.std.specs.Prelude.{◌≡◌, ℕ, ◌+◌, ◌≤◌, length};
ghost use Rattle.tree_live.specs.Slots.{in_slot};

use filter_seat::Moved;
use game_filter::Renumbering;
use tree_rows::GameHit;

/// A change of the games of the base, with the hit of its game on the board of each slot: eight, by the numbers of their views.
///
/// Hits of slots that are not watched are not looked at.
#[derive(Debug, Drop)]
pub enum Change {
    /// A game was added behind the others.
    Added {
        hits: [Option<GameHit>; 8],
    },
    /// A game has another head, or was replaced, moves and all.
    Edited {
        game: u32,
        replaced: bool,
        hits: [Option<GameHit>; 8],
    },
    /// The games have become those that stay.
    Renumbered(Renumbering),
}

impl Change {
    ghost use Rattle.std.specs.Prelude.{◌≡◌, ◌<◌};
    ghost use Rattle.filter_seat.specs.Following.{told_by};
    ghost use Rattle.client_desk.specs.Changes.{moving_of};

    /// What it moves in filters over so many games.
    pub(crate) fn moved(&self, games: u32) -> Moved<'_>
        requires room { games < u32.MAX }
        ensures moved { told_by result ≡ moving_of self.now games }
    {
        match self {
            Change::Added { .. } => Moved::Added(games + 1),
            Change::Edited {
                game,
                replaced: true,
                ..
            } => Moved::Started(u64::from(*game)),
            Change::Edited { .. } => Moved::Nothing,
            Change::Renumbered(renumbering) => Moved::Renumbered(renumbering),
        }
    }
}

/// The hits of the slots of a seat, the first of which is the view with this number.
pub(crate) fn hits_from(first: u8, hits: &[Option<GameHit>; 8]) -> [Option<GameHit>; 8]
    requires room { first ≤ 8 }
    ensures hits { (k : ℕ) → in_slot result k ≡ in_slot hits.now (first + k) }
{
    let mut own = [None; 8];
    for k in 0..8 - usize::from(first) {
        own[k] = hits[usize::from(first) + k];
    }
    own
}
