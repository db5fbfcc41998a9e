//! The squares of a board's men as sets, a bit a square.
ghost use Rattle.std.specs.Prelude.{◌≡◌, ◌↔◌, ◌<◌, IsTrue, Some, None, replicate, length};
ghost use Rattle.cell_core.specs.Board.{Men, man_at, put};
ghost use Rattle.cell_core.specs.Sets.{colour_number, is_kind, set_of, sets_of};
ghost use Rattle.cell_core.specs.Man.{is_of, kind_number};

use super::man::{Colour, Kind, Man};

/// The squares of the men of each kind, from king to pawn, and of each colour: the square `s` is the bit `s`.
#[derive(Clone, Copy, Debug)]
pub(crate) struct Sets {
    kinds: [u64; 6],
    colours: [u64; 2],
}

impl Sets {
    /// The sets of these squares.
    pub(crate) fn new(kinds: [u64; 6], colours: [u64; 2]) -> Sets
        ensures sets { result ≡ record { kinds = kinds; colours = colours } }
    {
        Sets { kinds, colours }
    }

    /// The sets of the board with no man on it.
    pub(crate) fn none() -> Sets
        ensures sets { result ≡ sets_of (replicate 64 None) }
    {
        Sets {
            kinds: [0; 6],
            colours: [0; 2],
        }
    }

    /// A man comes to an empty square.
    #[inline(always)]
    pub(crate) fn add(&mut self, s: u8, man: Man)
        requires { s < 64 }
        ensures sets { (men : Men) → length men ≡ 64 → self.old ≡ sets_of men → man_at men s ≡ None → self.new ≡ sets_of (put men s (Some man)) }
    {
        let square = 1u64 << s;
        self.kinds[kind_place(man.kind)] |= square;
        self.colours[colour_place(man.colour)] |= square;
    }

    /// Takes a man away from its square.
    #[inline(always)]
    pub(crate) fn remove(&mut self, s: u8, man: Man)
        requires { s < 64 }
        ensures sets { (men : Men) → length men ≡ 64 → self.old ≡ sets_of men → man_at men s ≡ Some man → self.new ≡ sets_of (put men s None) }
    {
        let kept = !(1u64 << s);
        self.kinds[kind_place(man.kind)] &= kept;
        self.colours[colour_place(man.colour)] &= kept;
    }

    /// The squares of the men of this colour.
    pub(crate) fn of_colour(&self, colour: Colour) -> u64
        ensures squares { (men : Men) → self.now ≡ sets_of men → result ≡ set_of (is_of colour) men }
    {
        self.colours[colour_place(colour)]
    }

    /// The squares of the men of this kind.
    pub(crate) fn of_kind(&self, kind: Kind) -> u64
        ensures squares { (men : Men) → self.now ≡ sets_of men → result ≡ set_of (is_kind kind) men }
    {
        self.kinds[kind_place(kind)]
    }

    /// Whether the sets are the same.
    pub(crate) fn is_same(&self, other: &Sets) -> bool
        ensures same { IsTrue result ↔ (self.now ≡ other.now) }
    {
        self.kinds == other.kinds && self.colours == other.colours
    }
}

/// The place of a kind's set.
fn kind_place(kind: Kind) -> usize
    ensures number { result ≡ kind_number kind }
    ensures less { result < 6 }
{
    kind as usize
}

/// The place of a colour's set.
fn colour_place(colour: Colour) -> usize
    ensures number { result ≡ colour_number colour }
    ensures less { result < 2 }
{
    colour as usize
}
