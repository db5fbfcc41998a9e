//! The two files of a base that are read whole.

/// A file of a base that is read whole.
#[derive(Clone, Copy, Debug, PartialEq, Eq)]
pub enum Part {
    /// The index file, with one entry for each game.
    Index,
    /// The names file, with the players, events, sites and rounds.
    Names,
}
