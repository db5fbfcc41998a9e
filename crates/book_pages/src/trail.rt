//! How games go from board to board.
use crate::listing::{Listed, Listing, Worth};
use arrayvec::ArrayVec;
use cell_core::Move;
use chess_laws::Position;
use std::alloc::{AllocError, Global};

/// How the first game that reached a board came there: the position from which it came, and its moves.
#[derive(Drop)]
pub struct Way {
    pub start: Position,
    pub moves: Vec<Move>,
}

/// What is known of a board beside its rows.
#[derive(Drop)]
pub(crate) struct Trail {
    pub(crate) way: Option<Way>,
    pub(crate) listing: Listing,
}

impl Trail {
    /// Nothing is known.
    pub(crate) fn new() -> Trail {
        Trail {
            way: None,
            listing: Listing::new(),
        }
    }
}

/// The trail of one game over the boards: where it began, and the moves from there on.
#[derive(Drop)]
pub(crate) struct Tracker {
    depth: usize,
    game: u32,
    worth: Worth,
    // How many half-moves it has gone.
    ply: u32,
    start: Option<Position>,
    moves: ArrayVec<Move, 40>,
    // Whether it went on for more half-moves than a book has.
    over: bool,
}

impl Tracker {
    /// The game of this number, at its beginning, if the book is so deep.
    pub(crate) fn new(depth: u8, game: u32, worth: Worth) -> Tracker {
        Tracker {
            depth: usize::from(depth),
            game,
            worth,
            ply: 0,
            start: None,
            moves: ArrayVec::new(),
            over: false,
        }
    }

    /// The game comes to a position, on the board with this number, if it has a page. The first board is the start.
    pub(crate) fn arrive(
        &mut self,
        alloc: Global,
        trails: &mut [Trail],
        here: Option<usize>,
        position: &Position,
    ) -> Result<(), AllocError> {
        let Some(to) = here else {
            return Ok(());
        };
        if to == 0 && self.start.is_none() {
            self.start = Some(*position);
        }
        let Some(trail) = trails.get_mut(to) else {
            return Ok(());
        };
        trail.listing.list(&Listed {
            number: self.game,
            ply: self.ply,
            worth: self.worth,
        });
        self.tell_way(alloc, trail)
    }

    // Tells a board how it was reached, if it was not told before.
    fn tell_way(&self, alloc: Global, trail: &mut Trail) -> Result<(), AllocError> {
        if self.over || trail.way.is_some() {
            return Ok(());
        }
        let Some(start) = self.start else {
            return Ok(());
        };
        let moves = Vec::from_slice(alloc, self.moves.as_slice())?;
        trail.way = Some(Way { start, moves });
        Ok(())
    }

    /// The game goes on by a move.
    pub(crate) fn leave(&mut self, mv: Move) {
        self.ply = self.ply.saturating_add(1);
        self.go_on(mv);
    }

    // Goes on by a move, once it came to the start.
    fn go_on(&mut self, mv: Move) {
        if self.start.is_none() {
            return;
        }
        if self.moves.len() < self.depth && !self.moves.is_full() {
            self.moves.push(mv);
        } else {
            self.over = true;
        }
    }
}
