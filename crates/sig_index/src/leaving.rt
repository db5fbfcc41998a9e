//! The pawns that leave their own squares along a line.
ghost use Rattle.std.specs.Prelude.{◌≡◌, ◌≤◌, ◌+◌, ◌++◌, [], IsTrue, false, true, length, slice_index_or, slice_set};
ghost use Rattle.sig_index.specs.Leaving.{are_own, at_square, gone, is_own, marked_homes, off_square, staying, value_of};
ghost use Rattle.sig_index.specs.Signature.{all_homes};

use arrayvec::ArrayVec;
use cell_core::{Move, Square};
use std::marker::Model;

/// Whether a square is the own one of some pawn.
const OWN_SQUARES: [bool; 64] = [
    false, false, false, false, false, false, false, false, true, true, true, true, true, true,
    true, true, false, false, false, false, false, false, false, false, false, false, false, false,
    false, false, false, false, false, false, false, false, false, false, false, false, false,
    false, false, false, false, false, false, false, true, true, true, true, true, true, true,
    true, false, false, false, false, false, false, false, false,
];

/// The home values that are looked for along a line, in rising order: those whose own squares are marked.
#[derive(Drop)]
pub(crate) struct Still {
    marks: [bool; 64],
}

impl Model for Still {
    ghost use Rattle.std.specs.Prelude.{◌≡◌, ℕ, List, true};
    ghost use Rattle.sig_index.specs.Leaving.{are_own, marked_homes};

    ghost Value = { List ℕ };

    ghost view = { λ s. marked_homes s.marks };

    ghost invariant = { λ s. are_own 0 s.marks ≡ true };
}

impl Still {
    /// Those of all pawns.
    #[tactic(auto, unfolding(crate::specs::Leaving::marked_homes))]
    pub(crate) fn all() -> Still
        ensures all { result ≡ all_homes }
    {
        Still { marks: OWN_SQUARES }
    }

    /// None.
    #[tactic(auto, unfolding(crate::specs::Leaving::marked_homes))]
    pub(crate) fn none() -> Still
        ensures none { result ≡ [] }
    {
        Still { marks: [false; 64] }
    }

    /// Takes the values at whose own squares a move begins or ends out of these, and adds them to `left`. Of pawns that are at home just
    /// these leave, by moving or by being captured.
    pub(crate) fn leave_by(&mut self, m: &Move, left: &mut ArrayVec<u8, 16>)
        requires room { length self.old + length left.old.items ≤ 16 }
        ensures still { self.new ≡ staying m.now self.old }
        ensures left { left.new.items ≡ left.old.items ++ gone m.now self.old }
    {
        if is_marked(&self.marks, m.from) || is_marked(&self.marks, m.to) {
            self.leave(m, left);
        }
    }

    // The same for any move. It stands apart, so that the look at the marks is compiled into the loops. Values rise as their own squares
    // fall, and a move touches at most two of them.
    #[inline(never)]
    fn leave(&mut self, m: &Move, left: &mut ArrayVec<u8, 16>)
        requires room { length self.old + length left.old.items ≤ 16 }
        ensures still { self.new ≡ staying m.now self.old }
        ensures left { left.new.items ≡ left.old.items ++ gone m.now self.old }
    {
        if m.from.index() < m.to.index() {
            take_out(&mut self.marks, m.to, left);
            take_out(&mut self.marks, m.from, left);
        } else {
            take_out(&mut self.marks, m.from, left);
            take_out(&mut self.marks, m.to, left);
        }
    }
}

// Takes the value with this own square out of those that are marked, if it is among them.
fn take_out(marks: &mut [bool; 64], square: Square, left: &mut ArrayVec<u8, 16>)
    requires own { are_own 0 marks.old ≡ true }
    requires room { length (marked_homes marks.old) + length left.old.items ≤ 16 }
    ensures own { are_own 0 marks.new ≡ true }
    ensures still { marked_homes marks.new ≡ off_square square (marked_homes marks.old) }
    ensures left { left.new.items ≡ left.old.items ++ at_square square (marked_homes marks.old) }
    ensures room { length (marked_homes marks.new) + length left.new.items ≤ 16 }
{
    if is_marked(marks, square) {
        left.push(value_of(square));
        unmark(marks, square);
    }
}

// Whether a square is marked.
fn is_marked(marks: &[bool; 64], square: Square) -> bool
    ensures { result ≡ slice_index_or marks.now square false }
{
    marks[usize::from(square.index())]
}

// Takes the mark off a square.
fn unmark(marks: &mut [bool; 64], square: Square)
    ensures { marks.new ≡ slice_set marks.old square false }
{
    marks[usize::from(square.index())] = false;
}

// The value with this own square.
fn value_of(square: Square) -> u8
    requires own { IsTrue (is_own square) }
    ensures { result ≡ value_of square }
{
    let number = square.index();
    if number < 16 {
        23 - number
    } else {
        55 - number
    }
}
