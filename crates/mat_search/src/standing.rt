//! What a query says of the counts on the board, which is asked again only after they change.
ghost use Rattle.std.specs.Prelude.{◌≡◌};
ghost use Rattle.mat_search.specs.Streaks.{IsStanding, can_match_later};

use crate::matching::in_range;
use chess_laws::Counts;
use sig_index::{MatQuery, MatRange, can_come};

// The counts of a ply, whether they are in the range of a query, whether its `swap` lets them be in the exchanged one and they are, and
// whether they can still come into one of these. They are idle where they are in neither and can.
#[derive(Clone, Copy, Debug, PartialEq, Eq)]
pub(crate) struct Standing {
    pub(crate) counts: Counts,
    pub(crate) own: bool,
    pub(crate) other: bool,
    pub(crate) later: bool,
    pub(crate) idle: bool,
}

impl Standing {
    // What is said of these counts. `other` is the range of the query with the colours exchanged.
    #[inline(never)]
    pub(crate) fn of(q: &MatQuery, other: &MatRange, counts: &Counts) -> Standing
        ensures counts { result.counts ≡ counts.now }
        ensures stands { IsStanding q.now other.now result }
    {
        let numbers = counts.numbers();
        let own = in_range(&q.range, &numbers);
        let in_other = q.swap && in_range(other, &numbers);
        let later = can_match_later(q, other, &numbers);
        Standing {
            counts: *counts,
            own,
            other: in_other,
            later,
            idle: !own && !in_other && later,
        }
    }

    // What is said of the counts of the next ply.
    #[inline(always)]
    pub(crate) fn follow(&mut self, q: &MatQuery, other: &MatRange, counts: &Counts)
        requires stands { IsStanding q.now other.now self.old }
        ensures counts { self.new.counts ≡ counts.now }
        ensures stands { IsStanding q.now other.now self.new }
    {
        if !self.counts.is_same(counts) {
            *self = Standing::of(q, other, counts);
        }
    }
}

// Whether the counts can come into the range, or with `swap` into the other one.
fn can_match_later(q: &MatQuery, other: &MatRange, counts: &[u8; 10]) -> bool
    ensures { result ≡ can_match_later q.now other.now counts.now }
{
    can_come(&q.range, counts) || q.swap && can_come(other, counts)
}
