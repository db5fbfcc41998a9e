//! Which counts of men can still come in a game.
ghost use Rattle.std.specs.Prelude.{◌≡◌, ◌≤◌, ◌<◌, ℕ, true};
ghost use Rattle.chess_laws.specs.Counts.{counts_of};
ghost use Rattle.chess_laws.specs.Position.{Sound};
ghost use Rattle.game_tree.specs.Game.{GameTree};
ghost use Rattle.game_tree.specs.Legal.{IsLegalGame};
ghost use Rattle.game_tree.specs.Replay.{position_at};
ghost use Rattle.sig_index.specs.Coming.{AreAtLeast, can_come, colour_can_come, lack};
ghost use Rattle.sig_index.specs.declared.mat_query.MatRange.{MatRange as Range};

use crate::mat_query::MatRange;

/// Whether these ten counts, or those of a later ply, can be at least the least that a range allows: the men that are missing can be made
/// of pawns.
#[tactic(auto, unfolding(crate::specs::Coming::can_come))]
pub fn can_come(r: &MatRange, counts: &[u8; 10]) -> bool
    ensures comes { result ≡ can_come r.now counts.now }
{
    colour_can_come(r, counts, 0) && colour_can_come(r, counts, 5)
}

/// A law: if `can_come` is false for a range, the counts of a legal game are at least its least at no later ply.
pub fn missing_men_are_promoted()
    ensures sound { (game : GameTree) (range : Range) (i j : ℕ) → Sound game.start → IsLegalGame game → i ≤ j → AreAtLeast (counts_of (position_at game j).board) range → can_come range (counts_of (position_at game i).board) ≡ true }
{}

// Whether one colour's counts can; its queens stand at this place among the ten.
fn colour_can_come(r: &MatRange, counts: &[u8; 10], queens: usize) -> bool
    requires { queens ≤ 5 }
    ensures { result ≡ colour_can_come r.now counts.now queens }
{
    let lesser = lack(r, counts, queens + 1)
        + lack(r, counts, queens + 2)
        + lack(r, counts, queens + 3);
    lack(r, counts, queens) + lesser + u32::from(r.lo[queens + 4]) <= u32::from(counts[queens + 4])
}

// How many men of a kind are missing to the least that the range allows.
pub(crate) fn lack(r: &MatRange, counts: &[u8; 10], place: usize) -> u32
    requires { place < 10 }
    ensures lack { result ≡ lack r.now counts.now place }
    ensures few { result ≤ 255 }
{
    u32::from(r.lo[place].saturating_sub(counts[place]))
}
