//! The squares that the values of packed moves name.
ghost use Rattle.std.specs.Prelude.{◌≡◌, ◌<◌, ◌≤◌, All};
ghost use Rattle.move_codec.specs.Packed.{ahead, at_difference, by_difference, diagonal_square, is_diagonal, king_differences, knight_differences, on_diagonal, on_file, on_line, other_square, pawn_square, promotion};

use cell_core::{Colour, Kind, Square};

/// The differences of a king's values, each written 64 + difference.
pub(crate) const KING: [u8; 11] = [64, 55, 56, 57, 63, 65, 71, 72, 73, 62, 66];

/// The differences of a knight's values, each written 64 + difference.
pub(crate) const KNIGHT: [u8; 9] = [0, 47, 49, 54, 58, 70, 74, 79, 81];

/// The square whose number is greater by a difference, written 64 + difference, or `None` if no square has that
/// number.
fn at_difference(from: Square, difference: u8) -> Option<Square>
    requires { difference < 128 }
    ensures { result ≡ at_difference from difference }
{
    let sum = from.index() + difference;
    if sum < 64 {
        None
    } else {
        Square::new(sum - 64)
    }
}

/// The square that a king's value names.
pub(crate) fn king_square(from: Square, value: u8) -> Option<Square>
    ensures { result ≡ by_difference king_differences from value }
{
    let difference = *KING.get(value as usize)?;
    at_difference(from, difference)
}

/// The square that a knight's value names.
pub(crate) fn knight_square(from: Square, value: u8) -> Option<Square>
    ensures { result ≡ by_difference knight_differences from value }
{
    let difference = *KNIGHT.get(value as usize)?;
    at_difference(from, difference)
}

/// The square of this file and rank, or `None` if the rank is none or the square is the man's own.
fn other_square(from: Square, file: u8, rank: u8) -> Option<Square>
    requires { file < 8 }
    ensures { result ≡ other_square from file rank }
{
    if rank >= 8 || 8 * rank + file == from.index() {
        return None;
    }
    Some(Square::at(8 * rank + file))
}

/// The square of this file whose rank is `sum` less `less`, by the same rules.
fn on_file(from: Square, file: u8, sum: u8, less: u8) -> Option<Square>
    requires { file < 8 }
    ensures { result ≡ on_file from file sum less }
{
    if sum < less {
        return None;
    }
    other_square(from, file, sum - less)
}

/// The square that a rook's value names, or a queen's along a line.
pub(crate) fn on_line(from: Square, value: u8) -> Option<Square>
    requires { value < 16 }
    ensures { result ≡ on_line from value }
{
    let own = from.index();
    if value < 8 {
        other_square(from, value, own / 8)
    } else {
        other_square(from, own % 8, value - 8)
    }
}

/// The square that a bishop's value names.
pub(crate) fn on_diagonal(from: Square, value: u8) -> Option<Square>
    requires { value < 16 }
    ensures { result ≡ on_diagonal from value }
{
    let own = from.index();
    if value < 8 {
        on_file(from, value, own / 8 + value, own % 8)
    } else {
        on_file(from, value - 8, own / 8 + own % 8, value - 8)
    }
}

/// The square that the second byte of a queen's diagonal move names.
pub(crate) fn diagonal_square(from: Square, byte: u8) -> Option<Square>
    ensures { result ≡ diagonal_square from byte }
{
    if byte < 64 || byte >= 128 {
        return None;
    }
    let to = Square::at(byte - 64);
    if is_diagonal(from, to) {
        Some(to)
    } else {
        None
    }
}

/// Whether a square is another one on one of the diagonals of the first.
fn is_diagonal(from: Square, to: Square) -> bool
    ensures { result ≡ is_diagonal from to }
{
    let (a, b) = (from.index(), to.index());
    b != a && (a % 8).abs_diff(b % 8) == (a / 8).abs_diff(b / 8)
}

/// The square that lies this difference ahead in the side's direction, or `None` if no square has that number.
fn ahead(side: Colour, from: Square, difference: u8) -> Option<Square>
    requires { difference < 64 }
    ensures { result ≡ ahead side from difference }
{
    match side {
        Colour::White => at_difference(from, 64 + difference),
        Colour::Black => at_difference(from, 64 - difference),
    }
}

/// The square that a pawn's value names.
pub(crate) fn pawn_square(side: Colour, from: Square, value: u8) -> Option<Square>
    ensures { result ≡ pawn_square side from value }
{
    match value {
        15 => ahead(side, from, 16),
        _ => ahead(side, from, 7 + value % 3),
    }
}

/// The man that a pawn becomes by its value.
pub(crate) fn promotion(value: u8) -> Option<Kind>
    ensures { result ≡ promotion value }
{
    match value {
        3..=5 => Some(Kind::Queen),
        6..=8 => Some(Kind::Rook),
        9..=11 => Some(Kind::Bishop),
        12..=14 => Some(Kind::Knight),
        _ => None,
    }
}
