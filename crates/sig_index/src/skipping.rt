//! Which games a search of counts of men can leave unread.
ghost use Rattle.std.specs.Prelude.{◌≡◌, ◌≤◌, ℕ, true};
ghost use Rattle.chess_laws.specs.Counts.{counts_of};
ghost use Rattle.chess_laws.specs.Position.{Sound};
ghost use Rattle.game_tree.specs.Game.{GameTree};
ghost use Rattle.game_tree.specs.Legal.{IsLegalGame};
ghost use Rattle.game_tree.specs.Replay.{plies_of, position_at};
ghost use Rattle.sig_index.specs.Signature.{IsSig};
ghost use Rattle.sig_index.specs.declared.mat_query.MatRange.{MatRange as Range};
ghost use Rattle.sig_index.specs.declared.signature.Sig.{Sig as Signature};
ghost use Rattle.sig_index.specs.Skipping.{AreAtMost, are_within, can_stand, colour_can_stand, rise};
ghost use Rattle.sig_index.specs.Coming.{over_lesser};

use crate::brief::Brief;
use crate::mat_query::MatRange;

/// Whether the counts of a game with this signature can have been at most those of the range at some ply. Where it answers false no
/// ply of the main line has counts in the range, and the game need not be read.
pub fn can_stand(s: &Brief<'_>, r: &MatRange) -> bool
    ensures stands { result ≡ can_stand s.now r.now }
{
    let material = s.material();
    colour_can_stand(s, &material, r, 0) && colour_can_stand(s, &material, r, 5)
}

/// A law: the counts of a legal game are at most those of a range at no ply where `can_stand` is false for it.
pub fn material_skipping_is_sound()
    ensures sound { (game : GameTree) (sig : Signature) (range : Range) (k : ℕ) → Sound game.start → IsLegalGame game → IsSig game sig → k ≤ plies_of game
        → AreAtMost (counts_of (position_at game k).board) range → can_stand sig range ≡ true }
{}

// Whether one colour's counts, of which these are the last, can have been at most those of the range; its queens stand at this place
// among the ten. Where none is above the range no man has to be a promoted one, so that most games are told by that alone.
#[inline(always)]
#[tactic(auto, using(crate::proofs::StandLemmas::within_or_promoted))]
fn colour_can_stand(s: &Brief<'_>, material: &[u8; 10], r: &MatRange, queens: usize) -> bool
    requires material { material.now ≡ s.now.material }
    requires place { queens ≤ 5 }
    ensures { result ≡ colour_can_stand s.now r.now queens }
{
    are_within(material, r, queens) || s.has_promotion() && can_have_promoted(s, r, queens)
}

// Whether none of one colour's last counts is above the greatest that the range allows.
#[inline(always)]
fn are_within(material: &[u8; 10], r: &MatRange, queens: usize) -> bool
    requires { queens ≤ 5 }
    ensures { result ≡ are_within material.now r.now.hi queens }
{
    material[queens] <= r.hi[queens]
        && material[queens + 1] <= r.hi[queens + 1]
        && material[queens + 2] <= r.hi[queens + 2]
        && material[queens + 3] <= r.hi[queens + 3]
        && material[queens + 4] <= r.hi[queens + 4]
}

// Whether one colour's counts can have been at most those of the range where pawns were promoted.
#[inline(never)]
fn can_have_promoted(s: &Brief<'_>, r: &MatRange, queens: usize) -> bool
    requires place { queens ≤ 5 }
    ensures { result ≡ colour_can_stand s.now r.now queens }
{
    let material = s.material();
    let pawns = material[queens + 4];
    let allowed = r.hi[queens + 4];
    let lesser = lesser_rises(&material, r, queens);
    let all = rise(&material, r, queens) + lesser;
    pawns <= allowed
        && all <= u32::from(allowed.saturating_sub(pawns))
        && (all == 0 || s.has_promotion())
        && (lesser == 0 || s.has_underpromotion())
}

// The rises of one colour's rooks, bishops and knights.
fn lesser_rises(material: &[u8; 10], r: &MatRange, queens: usize) -> u32
    requires { queens ≤ 5 }
    ensures rises { (sig : Signature) → material.now ≡ sig.material → result ≡ over_lesser (rise sig r.now) queens }
    ensures few { result ≤ 765 }
{
    rise(material, r, queens + 1) + rise(material, r, queens + 2) + rise(material, r, queens + 3)
}

// How far the last count of a kind is above the greatest that the range allows.
fn rise(material: &[u8; 10], r: &MatRange, place: usize) -> u32
    requires { place ≤ 9 }
    ensures rise { (sig : Signature) → material.now ≡ sig.material → result ≡ rise sig r.now place }
    ensures few { result ≤ 255 }
{
    u32::from(material[place].saturating_sub(r.hi[place]))
}
