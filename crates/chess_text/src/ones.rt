//! The ones of a word, from the lowest on.
ghost use Rattle.std.specs.Prelude.{◌≡◌, ◌<◌};
ghost use Rattle.std.specs.Int.{bit_at};
ghost use Rattle.chess_text.specs.Ones.{Drops};

use cell_core::Square;

// The square of a word's lowest one.
pub(crate) fn lowest(word: u64) -> Square
    requires some { 0 < word }
    ensures set { bit_at word result ≡ 1 }
{
    Square::at(word.trailing_zeros() as u8)
}

// The word without the one of a square.
pub(crate) fn without(word: u64, s: Square) -> u64
    ensures drops { Drops s word result }
    ensures fewer { bit_at word s ≡ 1 → result < word }
{
    word & !(1 << s.index())
}
