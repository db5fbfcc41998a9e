//! The names of openings.
use crate::cutting::cut;
use cell_core::{PackedBoard, pack};
use chess_laws::Position;
use chess_text::read_san;
use game_tree::read_eco;
use indexmap::IndexSet;
use std::alloc::{AllocError, AllocFailed, Global};

/// An opening: its code and its name.
#[derive(Clone, Copy)]
pub struct Opening<'a> {
    pub code: &'a [u8],
    pub name: &'a [u8],
}

/// Openings, each known by the board and the side to move at the end of its moves.
#[derive(Drop)]
pub struct Openings<'a> {
    boards: IndexSet<PackedBoard>,
    // One for each board.
    openings: Vec<Opening<'a>>,
}

/// Why a text gives no openings.
#[derive(Clone, Copy, Debug)]
pub enum OpeningsFault {
    /// The line of this number has no code in front, or a move that is not legal. Lines count from 1.
    Line(u32),
    Memory,
}

impl From<AllocError> for OpeningsFault {
    fn from(_refused: AllocError) -> OpeningsFault {
        OpeningsFault::Memory
    }
}

impl<T: Drop> From<AllocFailed<T>> for OpeningsFault {
    fn from(_refused: AllocFailed<T>) -> OpeningsFault {
        OpeningsFault::Memory
    }
}

impl<'a> Openings<'a> {
    /// No openings.
    pub fn none(alloc: Global) -> Openings<'a> {
        Openings {
            boards: IndexSet::new(alloc),
            openings: Vec::new(alloc),
        }
    }

    /// Reads openings from a text. Each line that is not empty and does not begin with `#` is an opening code, moves in Standard Algebraic
    /// Notation from the initial position on, without move numbers and with blanks between them, and behind a tab the name. If lines end
    /// on one board, the first of them counts.
    pub fn read(alloc: Global, text: &'a [u8]) -> Result<Openings<'a>, OpeningsFault> {
        let mut openings = Openings::none(alloc);
        let mut rest = text;
        let mut number = 0u32;
        while !rest.is_empty() {
            let (line, behind) = cut(rest, b'\n');
            number = number.saturating_add(1);
            if !openings.take(without_return(line))? {
                return Err(OpeningsFault::Line(number));
            }
            rest = behind;
        }
        Ok(openings)
    }

    /// The opening whose moves end on a board, if there is one.
    pub(crate) fn at(&self, board: &PackedBoard) -> Option<Opening<'a>> {
        let number = self.boards.get_index_of(board)?;
        self.openings.get(number).copied()
    }

    // Takes a line, and answers whether it has a code and legal moves, or nothing.
    fn take(&mut self, line: &'a [u8]) -> Result<bool, OpeningsFault> {
        if line.is_empty() || line[0] == b'#' {
            return Ok(true);
        }
        let (words, name) = cut(line, b'\t');
        let (code, moves) = cut(words, b' ');
        if read_eco(code).is_none() {
            return Ok(false);
        }
        let Some(place) = played(moves) else {
            return Ok(false);
        };
        self.add(pack(place.board(), place.side()), Opening { code, name })?;
        Ok(true)
    }

    // Adds an opening, if there is none on its board.
    fn add(&mut self, board: PackedBoard, opening: Opening<'a>) -> Result<(), OpeningsFault> {
        if self.boards.get_index_of(&board).is_none() {
            self.openings.push(opening)?;
            self.boards.insert(board)?;
        }
        Ok(())
    }
}

// The position after the moves of a text, from the initial position on, if they are legal.
fn played(text: &[u8]) -> Option<Position> {
    let mut place = Position::start();
    let mut rest = text;
    while !rest.is_empty() {
        let (word, behind) = cut(rest, b' ');
        if !word.is_empty() {
            match read_san(&place, word) {
                Ok(mv) => place.play(mv),
                Err(_) => return None,
            }
        }
        rest = behind;
    }
    Some(place)
}

// A line without a carriage return at its end.
fn without_return(line: &[u8]) -> &[u8] {
    let len = line.len();
    if len > 0 && line[len - 1] == b'\r' {
        line.split_at(len - 1).0
    } else {
        line
    }
}
