//! What happens to all watches of a list.
ghost use Rattle.std.specs.Prelude.{◌≡◌};
ghost use Rattle.tree_live.specs.Slots.{in_slot};

use game_filter::{Filter, Renumbering};
use tree_rows::GameHit;

/// What happens to the games of a base and to its filter.
#[derive(Drop)]
pub(crate) enum Change<'a> {
    /// The filter has become this one.
    Filter(&'a Filter),
    /// A game has become another, or is added: its number, its hit in each slot, and whether it is in.
    Game {
        i: u32,
        hits: &'a [Option<GameHit>],
        is_in: bool,
    },
    /// The games have become those that stay.
    Numbers(&'a Renumbering),
}

/// The hit of a slot, or none past the last.
pub(crate) fn hit_in(hits: &[Option<GameHit>], k: usize) -> Option<GameHit>
    ensures hit { result ≡ in_slot hits.now k }
{
    if k < hits.len() { hits[k] } else { None }
}
