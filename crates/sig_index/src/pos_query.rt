//! What a search of positions asks.
use cell_core::{Board, Colour};

/// What a position is to have in common with the board that is sought. The side to move is the same in each mode.
#[derive(Clone, Copy, Debug, PartialEq, Eq, Hash)]
pub enum Mode {
    /// The same men on all 64 squares.
    Exact,
    /// The same counts of men, and pawns on the same squares.
    Pawns,
    /// The same counts of men, and as many pawns of each colour on each file.
    Files,
    /// The same counts of men.
    Material,
}

/// What a search of positions asks: a position that has in common with `board` what `mode` says, with `side` to move. With `vars` the
/// variations are looked at too, if none of the main line is one.
#[derive(Clone, Copy, Debug, PartialEq, Eq)]
pub struct PosQuery {
    pub mode: Mode,
    pub board: Board,
    pub side: Colour,
    pub vars: bool,
}
