//! Why an entry or an index is not read.
use thiserror::Error;

/// What is wrong with an entry.
#[derive(Clone, Copy, Debug, Drop, PartialEq, Eq, Hash, Error)]
pub enum EntryFault {
    /// The result has none of the four codes.
    #[error("no such result")]
    Result,
    /// The ECO code is above 65,500.
    #[error("no such ECO code")]
    Eco,
    /// The month of a date that is used is above 12.
    #[error("a month above twelve")]
    Date,
    /// A rating has none of the seven kinds.
    #[error("no such kind of rating")]
    Rating,
}

/// What is wrong with an index.
#[derive(Clone, Copy, Debug, Drop, PartialEq, Eq, Hash, Error)]
pub enum IndexFault {
    /// So many bytes, fewer than those of the header.
    #[error("an index of {0} bytes, which is no whole header")]
    Short(u64),
    /// The file does not begin with `Scid.si` and a zero byte.
    #[error("not an index")]
    Magic,
    /// A version that is not read.
    #[error("an index of version {0}")]
    Version(u16),
    /// More games than a base holds.
    #[error("an index of {0} games, which are too many")]
    Games(u32),
    /// So many bytes, fewer than those of the header and the entries.
    #[error("an index of {0} bytes, which are too few for its games")]
    Length(u64),
}
