//! Streaks of plies whose counts are in a range, along a main line.
ghost use Rattle.std.specs.Prelude.{◌≡◌, ◌<◌, ◌&&◌, ◌||◌, ◌==◌};
ghost use Rattle.sig_index.specs.declared.mat_query.MatRange.{MatRange};
ghost use Rattle.mat_search.specs.Streaks.{IsStanding, is_over, streak_after};

use crate::standing::Standing;
use sig_index::MatQuery;

// How many of the last plies have counts in the range, and in the exchanged one: as many as can be the beginning of a match.
#[derive(Clone, Copy, Debug, PartialEq, Eq)]
pub(crate) struct Streaks {
    pub(crate) own: u32,
    pub(crate) other: u32,
}

impl Streaks {
    // No streak is under way.
    pub(crate) fn none() -> Streaks
        ensures own { result.own ≡ 0 }
        ensures other { result.other ≡ 0 }
    {
        Streaks { own: 0, other: 0 }
    }

    // The streaks after one more ply, of whose counts this is said.
    #[inline(always)]
    pub(crate) fn after(&self, q: &MatQuery, ply: u32, standing: &Standing) -> Streaks
        requires own { self.now.own < q.now.streak }
        requires other { self.now.other < q.now.streak }
        ensures own { result.own ≡ streak_after q.now self.now.own ply standing.now.own }
        ensures other { result.other ≡ streak_after q.now self.now.other ply standing.now.other }
    {
        if !standing.own && !standing.other {
            // As at most plies.
            return Streaks::none();
        }
        Streaks {
            own: streak_after(q, self.own, ply, standing.own),
            other: streak_after(q, self.other, ply, standing.other),
        }
    }

    // Whether one of them is as long as the query asks.
    #[inline(always)]
    pub(crate) fn is_whole(&self, q: &MatQuery) -> bool
        ensures { result ≡ ((self.now.own == q.now.streak) || (self.now.other == q.now.streak)) }
    {
        self.own == q.streak || self.other == q.streak
    }

    // Whether none is under way.
    #[inline(always)]
    pub(crate) fn is_none(&self) -> bool
        ensures { result ≡ ((self.now.own == 0) && (self.now.other == 0)) }
    {
        self.own == 0 && self.other == 0
    }
}

// The streak after one more ply, at which the counts are in the range or not.
fn streak_after(q: &MatQuery, streak: u32, ply: u32, fits: bool) -> u32
    requires { streak < q.now.streak }
    ensures { result ≡ streak_after q.now streak ply fits }
{
    if fits && (0 < streak || q.ply_lo <= ply && ply <= q.ply_hi) {
        streak + 1
    } else {
        0
    }
}

// Whether no match begins behind this ply, at which no streak is under way and of whose counts this is said.
#[inline(always)]
#[tactic(auto, unfolding(crate::specs::Streaks::is_over))]
pub(crate) fn is_over(q: &MatQuery, ply: u32, standing: &Standing) -> bool
    ensures { (other : MatRange) → IsStanding q.now other standing.now → result ≡ is_over q.now other ply standing.now.counts }
{
    q.ply_hi <= ply || !standing.later
}
