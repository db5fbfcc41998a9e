//! What all lines of a record's game have.

/// How many variations, comments and NAGs all lines of a game have, and whether any line has a promotion, and one to another man than a
/// queen.
#[derive(Clone, Copy, Debug, PartialEq, Eq)]
pub struct Totals {
    pub variations: usize,
    pub comments: usize,
    pub nags: usize,
    pub promo: bool,
    pub under: bool,
}
