//! What a search of counts of men asks of one position, and of a signature.
ghost use Rattle.std.specs.Prelude.{◌≡◌, ◌<◌, ◌≤◌};
ghost use Rattle.mat_search.specs.Matching.{count_in, exchanged, in_range, other_bounds};
ghost use Rattle.mat_search.specs.Passing.{can_be_in, can_match, is_long, passes};

use sig_index::{Brief, MatQuery, MatRange, can_have, can_stand};

/// Whether a game with this signature can match: if it cannot, no ply of its main line matches. A streak has at least one ply.
#[tactic(auto, unfolding(crate::specs::Passing::passes))]
pub fn passes(s: &Brief<'_>, q: &MatQuery) -> bool
    requires streak { 1 ≤ q.now.streak }
    ensures passes { result ≡ passes s.now q.now }
{
    is_long(s, q) && can_match(s, q)
}

// Whether the main line can have all plies of a streak that begins at `ply_lo`.
fn is_long(s: &Brief<'_>, q: &MatQuery) -> bool
    requires { 1 ≤ q.now.streak }
    ensures { result ≡ is_long s.now q.now }
{
    u64::from(q.ply_lo) + u64::from(q.streak) - 1 <= u64::from(s.plies()) || s.plies() == 1023
}

// Whether the counts can have stood in the query's range, or with `swap` in the exchanged one.
fn can_match(s: &Brief<'_>, q: &MatQuery) -> bool
    ensures { result ≡ can_match s.now q.now }
{
    can_be_in(s, &q.range) || q.swap && can_be_in_exchanged(s, &q.range)
}

// The same of the range with the colours exchanged.
fn can_be_in_exchanged(s: &Brief<'_>, range: &MatRange) -> bool
    ensures { result ≡ can_be_in s.now (exchanged range.now) }
{
    can_be_in(s, &exchanged(range))
}

// Whether the counts can have stood in the range.
#[tactic(auto, unfolding(crate::specs::Passing::can_be_in))]
fn can_be_in(s: &Brief<'_>, range: &MatRange) -> bool
    ensures { result ≡ can_be_in s.now range.now }
{
    can_stand(s, range) && can_have(s, range)
}

// The range with the colours exchanged.
pub(crate) fn exchanged(range: &MatRange) -> MatRange
    ensures { result ≡ exchanged range.now }
{
    MatRange {
        lo: other_bounds(&range.lo),
        hi: other_bounds(&range.hi),
    }
}

// The bounds with the colours exchanged.
#[tactic(auto, using(crate::proofs::ComingLemmas::ten_exchanged))]
fn other_bounds(bounds: &[u8; 10]) -> [u8; 10]
    ensures { result ≡ other_bounds bounds.now }
{
    [
        bounds[5], bounds[6], bounds[7], bounds[8], bounds[9], bounds[0], bounds[1], bounds[2],
        bounds[3], bounds[4],
    ]
}

// Whether the ten counts are in the range.
#[tactic(auto, using(crate::proofs::ComingLemmas::ten_tests), unfolding(crate::specs::Matching::in_range))]
pub(crate) fn in_range(range: &MatRange, counts: &[u8; 10]) -> bool
    ensures { result ≡ in_range range.now counts.now }
{
    count_in(range, counts, 0)
        && count_in(range, counts, 1)
        && count_in(range, counts, 2)
        && count_in(range, counts, 3)
        && count_in(range, counts, 4)
        && count_in(range, counts, 5)
        && count_in(range, counts, 6)
        && count_in(range, counts, 7)
        && count_in(range, counts, 8)
        && count_in(range, counts, 9)
}

// Whether the count at this place among the ten is in the range.
fn count_in(range: &MatRange, counts: &[u8; 10], place: usize) -> bool
    requires { place < 10 }
    ensures { result ≡ count_in range.now counts.now place }
{
    range.lo[place] <= counts[place] && counts[place] <= range.hi[place]
}
