//! What the text of a move says (PGN standard, 8.2.3).
use cell_core::{Kind, Square};
use chess_laws::Wing;

/// The shape of a move's text.
#[derive(Clone, Copy, Debug, PartialEq, Eq)]
pub enum Shape {
    /// Castling on this wing.
    Castle(Wing),
    /// The null move.
    Null,
    /// A man that goes to a square.
    Goes(Going),
}

/// A man that goes to a square: its kind, the file and the rank that it comes from as far as they are said, each counted
/// from 0, its target, and what it is promoted to.
#[derive(Clone, Copy, Debug, PartialEq, Eq)]
pub struct Going {
    pub kind: Kind,
    pub file: Option<u8>,
    pub rank: Option<u8>,
    pub target: Square,
    pub promo: Option<Kind>,
}
