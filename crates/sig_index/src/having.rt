//! Which games a search of counts of men can leave unread, by the men that they did not have at the start.
ghost use Rattle.std.specs.Prelude.{◌≡◌, ◌≤◌, ℕ, true};
ghost use Rattle.chess_laws.specs.Counts.{counts_of};
ghost use Rattle.chess_laws.specs.Position.{Sound, start_setup};
ghost use Rattle.game_tree.specs.Game.{GameTree};
ghost use Rattle.game_tree.specs.Legal.{IsLegalGame};
ghost use Rattle.game_tree.specs.Replay.{position_at};
ghost use Rattle.sig_index.specs.Signature.{IsSig};
ghost use Rattle.sig_index.specs.declared.mat_query.MatRange.{MatRange as Range};
ghost use Rattle.sig_index.specs.declared.signature.Sig.{Sig as Signature};
ghost use Rattle.sig_index.specs.Coming.{AreAtLeast, lack, over_lesser};
ghost use Rattle.sig_index.specs.Having.{can_have, colour_can_have, start_counts};

use crate::brief::Brief;
use crate::coming::lack;
use crate::mat_query::MatRange;

// The ten counts of the initial position.
const START_COUNTS: [u8; 10] = [1, 2, 2, 2, 8, 1, 2, 2, 2, 8];

/// Whether the counts of a game with this signature can have been at least those of the range at some ply. If it answers false no ply
/// of the main line has counts in the range, and the game need not be read.
#[tactic(auto, unfolding(crate::specs::Having::can_have))]
pub fn can_have(s: &Brief<'_>, r: &MatRange) -> bool
    ensures has { result ≡ can_have s.now r.now }
{
    s.has_own_start() || colour_can_have(s, r, 0) && colour_can_have(s, r, 5)
}

/// A law: if `can_have` is false for a range, the counts of a legal game are at least those of the range at no ply.
pub fn start_men_skipping_is_sound()
    ensures sound { (game : GameTree) (sig : Signature) (range : Range) (k : ℕ) → Sound game.start → IsLegalGame game → IsSig game sig
        → AreAtLeast (counts_of (position_at game k).board) range → can_have sig range ≡ true }
    ensures start { counts_of start_setup.board ≡ start_counts }
{}

// Whether one colour's counts can have been at least those of the range in a game from the initial position; its queens stand at this
// place among the ten.
fn colour_can_have(s: &Brief<'_>, r: &MatRange, queens: usize) -> bool
    requires { queens ≤ 5 }
    ensures { result ≡ colour_can_have s.now r.now queens }
{
    let lesser = lesser_lacks(r, queens);
    let all = lack(r, &START_COUNTS, queens) + lesser;
    all + u32::from(r.lo[queens + 4]) <= 8
        && (all == 0 || s.has_promotion())
        && (lesser == 0 || s.has_underpromotion())
}

// How many of one colour's rooks, bishops and knights are missing at the start to the least that the range allows.
fn lesser_lacks(r: &MatRange, queens: usize) -> u32
    requires { queens ≤ 5 }
    ensures lacks { result ≡ over_lesser (lack r.now start_counts) queens }
    ensures few { result ≤ 765 }
{
    lack(r, &START_COUNTS, queens + 1)
        + lack(r, &START_COUNTS, queens + 2)
        + lack(r, &START_COUNTS, queens + 3)
}
