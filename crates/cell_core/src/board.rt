//! The board of 64 squares.
ghost use Rattle.std.specs.Prelude.{◌≡◌, ◌↔◌, ◌<◌, IsTrue, Some, None, is_some, replicate, length};
ghost use Rattle.cell_core.specs.Board.{man_at, put, same_men};
ghost use Rattle.cell_core.specs.Sets.{is_kind, set_of, sets_of};
ghost use Rattle.cell_core.specs.Man.{is_man, is_of};

use super::man::{Colour, Kind, Man};
use super::sets::Sets;
use super::square::Square;
use std::marker::Model;

/// A board of 64 squares, each empty or with a man on it. Contracts see the list of the 64 in the squares' order.
/// Beside it are kept the squares of each kind and of each colour, by which boards are compared.
#[derive(Clone, Copy, Debug)]
pub struct Board {
    cells: [Option<Man>; 64],
    sets: Sets,
}

impl Model for Board {
    ghost use Rattle.std.specs.Prelude.{List, Option};
    ghost use Rattle.cell_core.specs.declared.man.Man.{Man};
    ghost use Rattle.cell_core.specs.Sets.{Fit, sets_back, sets_of};

    ghost Value = { List (Option Man) };

    ghost view = { λ b. b.cells };

    ghost invariant = { λ b. Fit b.cells b.sets };

    ghost inverse = { λ cells. record { cells = cells; sets = sets_of cells } };

    ghost inverse_ok = { λ b fit i. record { cells = b.cells; sets = sets_back b.cells b.sets fit i } };
}

impl Eq for Board {
    ghost use Rattle.cell_core.specs.SameMen.{men_equiv};

    ghost laws = { men_equiv };
}

impl PartialEq for Board {
    ghost use Rattle.std.specs.Cmp.{partial_equiv_from_equiv};
    ghost use Rattle.cell_core.specs.SameMen.{men_equiv};

    ghost eq = { same_men };

    ghost laws = { partial_equiv_from_equiv men_equiv };

    fn eq(&self, other: &Board) -> bool {
        self.sets.is_same(&other.sets)
    }
}

impl Board {
    /// The board with no man on it.
    pub fn empty() -> Board
        ensures empty { result ≡ replicate 64 None }
    {
        Board {
            cells: [None; 64],
            sets: Sets::none(),
        }
    }

    /// The board with these men on its 64 squares.
    pub fn from_cells(cells: [Option<Man>; 64]) -> Board
        ensures men { result ≡ cells }
    {
        let mut sets = Sets::none();
        for s in 0..64u8 {
            if let Some(man) = cells[s as usize] {
                sets.add(s, man);
            }
        }
        Board { cells, sets }
    }

    /// The board with these men on its 64 squares. The sets are known to be those of the men, a bit a square: of each
    /// kind, from king to pawn, and of White and Black.
    pub fn with_sets(cells: [Option<Man>; 64], kinds: [u64; 6], colours: [u64; 2]) -> Board
        requires sets { sets_of cells ≡ record { kinds = kinds; colours = colours } }
        ensures men { result ≡ cells }
    {
        Board {
            cells,
            sets: Sets::new(kinds, colours),
        }
    }

    /// What stands on each of the 64 squares, in the order of their numbers.
    pub fn cells(&self) -> &[Option<Man>; 64]
        ensures men { result.now ≡ self.now }
        ensures squares { length self.now ≡ 64 }
    {
        &self.cells
    }

    /// What stands on the square `s`.
    pub fn at(&self, s: Square) -> Option<Man>
        ensures man { result ≡ man_at self.now s }
        ensures squares { length self.now ≡ 64 }
    {
        let number = s.index() as usize;
        self.cells[number]
    }

    /// The squares of the men of this colour: the square `s` is the bit `s`.
    pub fn of_colour(&self, colour: Colour) -> u64
        ensures squares { result ≡ set_of (is_of colour) self.now }
        ensures on_board { length self.now ≡ 64 }
    {
        self.sets.of_colour(colour)
    }

    /// The squares of the men of this kind: the square `s` is the bit `s`.
    pub fn of_kind(&self, kind: Kind) -> u64
        ensures squares { result ≡ set_of (is_kind kind) self.now }
    {
        self.sets.of_kind(kind)
    }

    /// The squares on which a man stands: the square `s` is the bit `s`.
    pub fn occupied(&self) -> u64
        ensures squares { result ≡ set_of is_some self.now }
    {
        self.sets.of_colour(Colour::White) | self.sets.of_colour(Colour::Black)
    }

    /// The squares of the men of this colour and kind: the square `s` is the bit `s`.
    pub fn of_man(&self, colour: Colour, kind: Kind) -> u64
        ensures squares { result ≡ set_of (is_man colour kind) self.now }
        ensures on_board { length self.now ≡ 64 }
    {
        self.sets.of_colour(colour) & self.sets.of_kind(kind)
    }

    /// Puts `man` on the square `s`, or empties it.
    #[tactic(auto, using(crate::proofs::Squares::emptied, crate::proofs::Squares::filled))]
    pub fn set(&mut self, s: Square, man: Option<Man>)
        ensures after { self.new ≡ put self.old s man }
        ensures squares { length self.new ≡ 64 }
    {
        let number = s.index();
        self.leave(number);
        self.enter(number, man);
    }

    /// Takes what stands on `from` away and puts `man` on `to`, or empties it: `set` for both squares of a move at once.
    #[tactic(auto, using(crate::proofs::Squares::emptied, crate::proofs::Squares::filled, crate::proofs::Squares::filled_behind))]
    pub fn go(&mut self, from: Square, to: Square, man: Option<Man>)
        ensures after { self.new ≡ put (put self.old from None) to man }
        ensures squares { length self.new ≡ 64 }
    {
        self.leave(from.index());
        let entered = to.index();
        self.leave(entered);
        self.enter(entered, man);
    }

    /// Takes this man, who stands on `from`, away and puts the other on `to`: `go` of a man that is known.
    #[inline(always)]
    #[tactic(auto, using(crate::proofs::Squares::emptied, crate::proofs::Squares::filled, crate::proofs::Squares::filled_behind))]
    pub fn carry(&mut self, from: Square, to: Square, man: Man, arriving: Man)
        requires stands { man_at self.old from ≡ Some man }
        ensures after { self.new ≡ put (put self.old from None) to (Some arriving) }
        ensures squares { length self.new ≡ 64 }
        ensures on_board { to < 64 }
    {
        self.take(from.index(), man);
        let target = to.index();
        self.leave(target);
        self.enter(target, Some(arriving));
    }

    /// Takes this man away from the square on which it stands.
    #[inline(always)]
    fn take(&mut self, number: u8, man: Man)
        requires on_board { number < 64 }
        requires stands { man_at self.old number ≡ Some man }
        ensures after { self.new ≡ put self.old number None }
        ensures squares { length self.new ≡ 64 }
    {
        self.sets.remove(number, man);
        self.cells[number as usize] = None;
    }

    /// Takes what stands on a square away.
    #[inline(always)]
    #[tactic(auto, using(crate::proofs::Squares::empty_already))]
    fn leave(&mut self, number: u8)
        requires { number < 64 }
        ensures after { self.new ≡ put self.old number None }
        ensures squares { length self.new ≡ 64 }
    {
        if let Some(gone) = self.cells[number as usize] {
            self.take(number, gone);
        }
    }

    /// Puts `man` on an empty square, or leaves it empty.
    #[inline(always)]
    #[tactic(auto, using(crate::proofs::Squares::empty_already))]
    fn enter(&mut self, number: u8, man: Option<Man>)
        requires on_board { number < 64 }
        requires empty { man_at self.old number ≡ None }
        ensures after { self.new ≡ put self.old number man }
        ensures squares { length self.new ≡ 64 }
    {
        if let Some(entering) = man {
            self.sets.add(number, entering);
            self.cells[number as usize] = man;
        }
    }

    /// Whether the same men stand on the same squares.
    pub fn is_same(&self, other: &Board) -> bool
        ensures same { IsTrue result ↔ (self.now ≡ other.now) }
        ensures decided { result ≡ same_men self.now other.now }
    {
        self == other
    }
}
