//! What is known of a page once the page is made from which it was found.
use crate::openings::{Opening, Openings};
use arrayvec::ArrayVec;
use book_pages::Way;
use cell_core::{Move, PackedBoard, pack, unpack};
use chess_laws::Position;

/// What is known of a page: a position that stands on its board, the move that led there with its text, and the last opening on the way.
#[derive(Drop)]
pub(crate) struct Place<'a> {
    pub(crate) position: Option<Position>,
    pub(crate) last: Option<Move>,
    pub(crate) text: ArrayVec<u8, 8>,
    pub(crate) opening: Option<Opening<'a>>,
}

impl<'a> Place<'a> {
    /// Nothing is known.
    pub(crate) fn unknown() -> Place<'a> {
        Place {
            position: None,
            last: None,
            text: ArrayVec::new(),
            opening: None,
        }
    }

    /// What a board tells by itself.
    pub(crate) fn on(board: &PackedBoard, openings: &Openings<'a>) -> Place<'a> {
        Place {
            position: alone(board),
            last: None,
            text: ArrayVec::new(),
            opening: openings.at(board),
        }
    }

    /// What the moves of a game tell.
    pub(crate) fn behind(way: &Way, openings: &Openings<'a>) -> Place<'a> {
        let mut position = way.start;
        let mut last = None;
        let mut opening = openings.at(&pack(position.board(), position.side()));
        for mv in way.moves.as_slice() {
            if position.advance(mv) {
                last = Some(*mv);
                opening = openings
                    .at(&pack(position.board(), position.side()))
                    .or(opening);
            }
        }
        Place {
            position: Some(position),
            last,
            text: ArrayVec::new(),
            opening,
        }
    }

    /// What is known behind a move that has this text and leads to this board.
    pub(crate) fn next(
        &self,
        mv: &Move,
        text: ArrayVec<u8, 8>,
        board: &PackedBoard,
        openings: &Openings<'a>,
    ) -> Place<'a> {
        Place {
            position: played(&self.position, mv).or(alone(board)),
            last: Some(*mv),
            text,
            opening: openings.at(board).or(self.opening),
        }
    }
}

// The position after a move, if it is legal.
fn played(position: &Option<Position>, mv: &Move) -> Option<Position> {
    let mut next = (*position)?;
    next.advance(mv).then_some(next)
}

// The position of a board without castling rights, but for the initial one.
fn alone(packed: &PackedBoard) -> Option<Position> {
    let start = Position::start();
    if pack(start.board(), start.side()) == *packed {
        return Some(start);
    }
    let (board, side) = unpack(packed);
    match Position::try_new(board, side, 0, None) {
        Ok(position) => Some(position),
        Err(_) => None,
    }
}
