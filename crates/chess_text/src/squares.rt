//! The names of files, ranks and squares.
ghost use Rattle.std.specs.Prelude.{◌≡◌, ◌∷◌, []};
ghost use Rattle.chess_laws.specs.Geometry.{file_of, rank_of};
ghost use Rattle.chess_text.specs.Squares.{file_text, rank_text};

use cell_core::Square;

// The letter of the square's file.
pub fn file_letter(s: Square) -> u8
    ensures { file_text (file_of s) ≡ result ∷ [] }
{
    b'a' + s.index() % 8
}

// The digit of the square's rank.
pub fn rank_digit(s: Square) -> u8
    ensures { rank_text (rank_of s) ≡ result ∷ [] }
{
    b'1' + s.index() / 8
}
