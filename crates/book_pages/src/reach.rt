//! Which positions a book is asked for.
use cell_core::PackedBoard;

/// How many half-moves a book goes on from its start at most.
pub const DEEPEST: u8 = 40;

/// What a book is asked for: the positions that so many games reach, at most so many half-moves after they first stand at the start.
#[derive(Clone, Copy, Debug)]
pub struct Reach {
    /// The board of the start, with the side to move.
    pub start: PackedBoard,
    /// How many half-moves behind the start: at most 40.
    pub depth: u8,
    /// How many games reach a position at least.
    pub least: u32,
}
