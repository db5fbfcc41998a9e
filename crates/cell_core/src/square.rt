//! The squares of the board.
ghost use Rattle.std.specs.Prelude.{◌≡◌, ◌<◌, ◌≤◌, SomeIff};

use std::marker::Model;

/// A square of the board, numbered from a1 = 0 to h8 = 63, file by file within a rank. Its file is its number modulo 8,
/// and its rank its number divided by 8, both from 0.
#[derive(Clone, Copy, Debug, Default, PartialEq, Eq, PartialOrd, Ord, Hash)]
pub struct Square {
    number: u8,
}

impl Model for Square {
    ghost use Rattle.std.specs.Prelude.{ℕ, ◌<◌};

    ghost Value = { ℕ };

    ghost view = { λ s. s.number };

    ghost invariant = { λ s. s.number < 64 };

    ghost inverse = { λ n. record { number = n } };
}

impl Square {
    /// The square with the number `n`, or `None` if `n` is above 63.
    pub fn new(n: u8) -> Option<Square>
        ensures numbered { SomeIff result (n < 64) n }
    {
        if n < 64 {
            Some(Square { number: n })
        } else {
            None
        }
    }

    /// The square with the number `n`, from 0 to 63.
    pub fn at(n: u8) -> Square
        requires { n < 64 }
        ensures numbered { result ≡ n }
    {
        Square { number: n }
    }

    /// The number of the square, from 0 to 63.
    pub fn index(&self) -> u8
        ensures number { result ≡ self.now }
        ensures on_board { self.now < 64 }
    {
        self.number
    }
}
