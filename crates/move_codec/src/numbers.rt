//! The numbers of the men.
ghost use Rattle.std.specs.Prelude.{◌≡◌, ◌+◌, ◌<◌, ◌≤◌, ◌==◌, if◌then◌else◌, length, position, slice_get, count_by};
ghost use Rattle.cell_core.specs.Board.{man_at};
ghost use Rattle.std.specs.Bool.{OnFalse};
ghost use Rattle.cell_core.specs.Man.{is_of, other};
ghost use Rattle.cell_core.specs.declared.man.Colour.{Colour};
ghost use Rattle.move_codec.specs.Numbers.{capture_square, movers_after, number_of, numbers_by, squares_of, standard_numbers, start_ranks, text_numbers, text_numbers_of, went, with_square, without};

use arrayvec::ArrayVec;
use cell_core::{Board, Colour, Kind, Move, Square};
use chess_laws::{Effect, passed_square, rook_home, rook_target};
use std::marker::Model;

/// The squares of one side's men, in the order of the men's numbers: at most 16. Contracts see the list of the squares.
#[derive(Drop)]
pub struct NumberedMen {
    squares: ArrayVec<Square, 16>,
}

impl Model for NumberedMen {
    ghost use Rattle.std.specs.Prelude.{ℕ, List};

    ghost Value = { List ℕ };

    ghost view = { λ m. m.squares.items };
}

/// The numbered squares of both sides.
#[derive(Drop)]
pub struct Numbers {
    pub white: NumberedMen,
    pub black: NumberedMen,
}

impl NumberedMen {
    /// The men on these squares, numbered in their order.
    fn from_squares(squares: [Square; 16]) -> NumberedMen
        ensures squares { result ≡ squares }
    {
        NumberedMen {
            squares: ArrayVec::from_array_in((), squares),
        }
    }

    /// The numbers of a side's men from a FEN: men are added in the order of its placement, the eighth rank first and file
    /// a first. A king takes the number 0, and the man that had it the next number.
    pub(crate) fn in_text(board: &Board, side: Colour) -> NumberedMen
        requires squares { length board.now ≡ 64 }
        requires few { count_by (is_of side) board.now ≤ 16 }
        ensures numbers { result ≡ text_numbers_of board.now side }
    {
        let mut men = NumberedMen {
            squares: ArrayVec::new(),
        };
        for place in 0..64u8 {
            men.add(board, side, Square::at(8 * (7 - place / 8) + place % 8));
        }
        men
    }

    /// Adds what stands on a square, if it is a man of the side.
    fn add(&mut self, board: &Board, side: Colour, square: Square)
        requires { length self.old + (if is_of side (man_at board.now square) then 1 else 0) ≤ 16 }
        ensures { self.new ≡ with_square board.now side self.old square }
    {
        match board.at(square) {
            Some(man) if man.colour == side => {
                self.squares.push(square);
                if man.kind == Kind::King {
                    let last = self.squares.len() - 1;
                    self.squares.as_mut_slice().swap(0, last);
                }
            }
            _ => {}
        }
    }

    /// The squares in the order of the numbers.
    pub fn squares(&self) -> &[Square]
        ensures squares { result.now ≡ self.now }
        ensures few { length self.now ≤ 16 }
    {
        self.squares.as_slice()
    }

    /// The square of the man with this number, or `None` if the side has no such man.
    pub fn get(&self, number: u8) -> Option<Square>
        ensures square { result ≡ slice_get self.now number }
    {
        self.squares.as_slice().get(number as usize).copied()
    }

    /// The number of the man on this square, or how many men there are if none of them stands there.
    pub fn number_of(&self, square: Square) -> usize
        ensures number { result ≡ number_of self.now square }
        ensures few { length self.now ≤ 16 }
    {
        number_on(self.squares.as_slice(), square)
    }

    /// A copy, which takes no memory beyond itself.
    pub(crate) fn copy(&self) -> NumberedMen
        ensures same { result ≡ self.now }
    {
        let mut squares = ArrayVec::new();
        let _fits = squares.try_extend_from_slice(self.squares());
        NumberedMen { squares }
    }

    /// The man on a square goes to another, and keeps its number, which is this one.
    #[inline(always)]
    fn go_by(&mut self, number: usize, from: Square, to: Square)
        requires number { number ≡ number_of self.old from }
        ensures after { self.new ≡ went self.old from to }
    {
        if number < self.squares.len() {
            self.squares.as_mut_slice()[number] = to;
        }
    }

    /// The man on a square goes to another, and keeps its number.
    fn go(&mut self, from: Square, to: Square)
        ensures after { self.new ≡ went self.old from to }
    {
        let number = self.number_of(from);
        self.go_by(number, from, to);
    }

    /// The mover's squares after a move of this effect by the man with this number: castling takes the rook along.
    #[inline(always)]
    fn follow(&mut self, side: Colour, m: &Move, effect: Effect, number: usize)
        requires number { number ≡ number_of self.old m.now.from }
        ensures after { self.new ≡ movers_after side m.now effect self.old }
    {
        self.go_by(number, m.from, m.to);
        if let Effect::Castle(wing) = effect {
            self.go(rook_home(side, wing), rook_target(side, wing));
        }
    }

    /// The man on this square is captured, if there is one: the last man of the list takes its number.
    pub(crate) fn remove(&mut self, captured: Square)
        ensures after { self.new ≡ without self.old captured }
    {
        let number = self.number_of(captured);
        if number < self.squares.len() {
            self.squares.swap_remove(number);
        }
    }

    /// `remove`, which is left out if no man is captured.
    #[inline(always)]
    fn remove_taken(&mut self, captured: Square, taken: bool)
        requires none { OnFalse taken (without self.old captured ≡ self.old) }
        ensures after { self.new ≡ without self.old captured }
    {
        if taken {
            self.remove(captured);
        }
    }
}

impl Numbers {
    /// The numbers at the standard start.
    pub fn standard() -> Numbers
        ensures numbers { result ≡ standard_numbers }
    {
        Numbers {
            white: NumberedMen::from_squares(start_ranks(0, 8)),
            black: NumberedMen::from_squares(start_ranks(56, 48)),
        }
    }

    /// The numbers from a FEN with this board.
    pub(crate) fn in_text(board: &Board) -> Numbers
        requires squares { length board.now ≡ 64 }
        requires few { (side : Colour) → count_by (is_of side) board.now ≤ 16 }
        ensures numbers { result ≡ text_numbers board.now }
    {
        Numbers {
            white: NumberedMen::in_text(board, Colour::White),
            black: NumberedMen::in_text(board, Colour::Black),
        }
    }

    /// A copy, which takes no memory beyond itself.
    pub(crate) fn copy(&self) -> Numbers
        ensures same { result ≡ self.now }
    {
        Numbers {
            white: self.white.copy(),
            black: self.black.copy(),
        }
    }

    /// The numbers after a move of this side and effect.
    pub(crate) fn follow(&mut self, side: Colour, m: &Move, effect: Effect)
        ensures after { self.new ≡ numbers_by side m.now effect self.old }
    {
        let number = self.of(side).number_of(m.from);
        self.follow_by(side, m, effect, number, true);
    }

    /// The numbers after a move of this side and effect by the man with this number. If no man is taken, the other
    /// side's stay as they are.
    #[inline(always)]
    pub(crate) fn follow_by(
        &mut self,
        side: Colour,
        m: &Move,
        effect: Effect,
        number: usize,
        taken: bool,
    )
        requires number { number ≡ number_of (squares_of side self.old) m.now.from }
        requires none { OnFalse taken (without (squares_of (other side) self.old) (capture_square m.now effect) ≡ squares_of (other side) self.old) }
        ensures after { self.new ≡ numbers_by side m.now effect self.old }
    {
        let captured = capture_square(m, effect);
        match side {
            Colour::White => {
                self.white.follow(side, m, effect, number);
                self.black.remove_taken(captured, taken);
            }
            Colour::Black => {
                self.black.follow(side, m, effect, number);
                self.white.remove_taken(captured, taken);
            }
        }
    }

    /// The numbered squares of a side.
    pub fn of(&self, side: Colour) -> &NumberedMen
        ensures squares { result.now ≡ squares_of side self.now }
    {
        match side {
            Colour::White => &self.white,
            Colour::Black => &self.black,
        }
    }
}

/// The place of a square in a list, or the list's length.
#[tactic(auto, using(crate::proofs::Lists::place_within))]
fn number_on(squares: &[Square], square: Square) -> usize
    ensures { result ≡ number_of squares.now square }
{
    match find(squares, square) {
        Some(number) => number,
        None => squares.len(),
    }
}

/// The place of a square in a list, or `None` if it is not in the list.
fn find(squares: &[Square], square: Square) -> Option<usize>
    ensures { result ≡ position (λ s. s == square) squares.now }
{
    squares.iter().position(|s| *s == square)
}

/// The squares of the ranks that begin with these two squares: the king's, then the rest of the first rank, then the
/// second rank, each from file a.
fn start_ranks(back: u8, pawns: u8) -> [Square; 16]
    requires back { back < 57 }
    requires pawns { pawns < 57 }
    ensures { result ≡ start_ranks back pawns }
{
    [
        Square::at(back + 4),
        Square::at(back),
        Square::at(back + 1),
        Square::at(back + 2),
        Square::at(back + 3),
        Square::at(back + 5),
        Square::at(back + 6),
        Square::at(back + 7),
        Square::at(pawns),
        Square::at(pawns + 1),
        Square::at(pawns + 2),
        Square::at(pawns + 3),
        Square::at(pawns + 4),
        Square::at(pawns + 5),
        Square::at(pawns + 6),
        Square::at(pawns + 7),
    ]
}

/// The square on which a move captures, if it captures.
#[inline(always)]
pub(crate) fn capture_square(m: &Move, effect: Effect) -> Square
    ensures { result ≡ capture_square m.now effect }
{
    match effect {
        Effect::Passing => passed_square(m),
        _ => m.to,
    }
}
