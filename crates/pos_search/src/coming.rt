//! Whether the men that a search seeks can still come, which is asked again only after the counts of men change.
ghost use Rattle.std.specs.Prelude.{◌≡◌};
ghost use Rattle.pos_search.specs.Sought.{IsTold};

use crate::matching::Sought;
use chess_laws::Counts;

// The counts of a ply, and whether the men of the sought board that are missing can still be made.
#[derive(Clone, Copy, Debug, PartialEq, Eq)]
pub(crate) struct Coming {
    pub(crate) counts: Counts,
    pub(crate) can: bool,
}

impl Coming {
    // It is asked of these counts.
    #[inline(never)]
    pub(crate) fn of(q: &Sought<'_>, counts: &Counts) -> Coming
        ensures counts { result.counts ≡ counts.now }
        ensures told { IsTold q.now result }
    {
        Coming {
            counts: *counts,
            can: q.men_can_come(counts),
        }
    }

    // It is known of the counts of the next ply.
    #[inline(always)]
    pub(crate) fn follow(&mut self, q: &Sought<'_>, counts: &Counts)
        requires told { IsTold q.now self.old }
        ensures counts { self.new.counts ≡ counts.now }
        ensures told { IsTold q.now self.new }
    {
        if !self.counts.is_same(counts) {
            *self = Coming::of(q, counts);
        }
    }
}
