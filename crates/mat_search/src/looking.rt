//! What is kept of the plies of a main line, and what each of them tells.
ghost use Rattle.std.specs.Prelude.{◌≡◌, ◌≤◌};
ghost use Rattle.mat_search.specs.Looking.{IsKept, LooksAt, Tells};

use crate::standing::Standing;
use crate::streaks::{Streaks, is_over};
use chess_laws::Counts;
use sig_index::{MatQuery, MatRange};

// What a ply tells: a streak that is as long as the query asks ends at it, no match begins behind it, or neither.
#[derive(Clone, Copy, Debug, PartialEq, Eq)]
pub(crate) enum Told {
    Found,
    Over,
    Open,
}

// What is kept of the plies up to one: what is said of its counts, and the streaks that are under way.
#[derive(Clone, Copy, Debug, PartialEq, Eq)]
pub(crate) struct Kept {
    pub(crate) standing: Standing,
    pub(crate) streaks: Streaks,
}

impl Kept {
    // Before the first ply, which has these counts. `other` is the range of the query with the colours exchanged.
    pub(crate) fn at_first(q: &MatQuery, other: &MatRange, counts: &Counts) -> Kept
        requires streak { 1 ≤ q.now.streak }
        ensures kept { IsKept q.now other.now result }
        ensures own { result.streaks.own ≡ 0 }
        ensures other { result.streaks.other ≡ 0 }
    {
        Kept {
            standing: Standing::of(q, other, counts),
            streaks: Streaks::none(),
        }
    }

    // Looks at a ply with these counts. Most plies have those of the one before, which are in no range, and tell nothing.
    #[inline(always)]
    #[tactic(auto, using(crate::proofs::LookingLemmas::idle_keeps))]
    pub(crate) fn look(&mut self, q: &MatQuery, other: &MatRange, ply: u32, counts: &Counts) -> Told
        requires kept { IsKept q.now other.now self.old }
        ensures looks { LooksAt q.now other.now ply counts.now self.old self.new }
        ensures tells { Tells q.now other.now ply self.new result }
    {
        if self.standing.idle && ply < q.ply_hi && self.standing.counts.is_same(counts) {
            return Told::Open;
        }
        self.look_closely(q, other, ply, counts)
    }

    // The same of a ply that may tell something.
    #[inline(never)]
    #[tactic(auto, using(crate::proofs::LookingLemmas::still_kept))]
    fn look_closely(&mut self, q: &MatQuery, other: &MatRange, ply: u32, counts: &Counts) -> Told
        requires kept { IsKept q.now other.now self.old }
        ensures looks { LooksAt q.now other.now ply counts.now self.old self.new }
        ensures tells { Tells q.now other.now ply self.new result }
    {
        self.standing.follow(q, other, counts);
        self.streaks = self.streaks.after(q, ply, &self.standing);
        if self.streaks.is_whole(q) {
            return Told::Found;
        }
        if self.streaks.is_none() && is_over(q, ply, &self.standing) {
            return Told::Over;
        }
        Told::Open
    }
}
