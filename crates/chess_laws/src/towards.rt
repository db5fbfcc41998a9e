//! Which step leads from one square towards another.
ghost use Rattle.std.specs.Prelude.{◌≡◌, ◌<◌, IfSome, true};
ghost use Rattle.chess_laws.specs.LegalTests.{line};
ghost use Rattle.chess_laws.specs.Ways.{names_lines, spread, way};

use cell_core::Square;

/// The row of the queen's step that leads from one square towards the other, where one does.
#[tactic(auto, unfolding(crate::specs::LegalTests::line, crate::specs::Ways::names_lines))]
pub fn line(from: Square, to: Square) -> Option<u8>
    ensures row { result ≡ line from to }
    ensures queen { IfSome result (λ row. row < 8) }
{
    line_in(&WAYS, from, to)
}

// The row of the queen's step between two squares, by a table of the ways between squares.
fn line_in(table: &[u8; 240], from: Square, to: Square) -> Option<u8>
    requires says { names_lines table.now ≡ true }
    ensures row { result ≡ line from to }
    ensures queen { IfSome result (λ row. row < 8) }
{
    let way = way_in(table, from, to);
    if way < 8 { Some(way) } else { None }
}

// What a table says of the way from one square to the other.
fn way_in(table: &[u8; 240], from: Square, to: Square) -> u8
    ensures way { result ≡ way table.now from to }
    ensures on_board { from < 64 × to < 64 }
{
    table[(119 - spread(from) + spread(to)) as usize]
}

// The number of the square on a board of sixteen files, on which a difference of numbers tells files and ranks apart.
fn spread(s: Square) -> u8
    ensures spread { result ≡ spread s }
    ensures less { result < 120 }
    ensures on_board { s < 64 }
{
    s.index() + 8 * (s.index() / 8)
}

// By the difference of two squares on a board of sixteen files, 119 being none: the row of the queen's step that leads from
// one towards the other, 8 where a knight's step does, and 9 where neither does.
const WAYS: [u8; 240] = [
    7, 9, 9, 9, 9, 9, 9, 3, 9, 9, 9, 9, 9, 9, 6, 9, 9, 7, 9, 9, 9, 9, 9, 3, 9, 9, 9, 9, 9, 6, 9, 9,
    9, 9, 7, 9, 9, 9, 9, 3, 9, 9, 9, 9, 6, 9, 9, 9, 9, 9, 9, 7, 9, 9, 9, 3, 9, 9, 9, 6, 9, 9, 9, 9,
    9, 9, 9, 9, 7, 9, 9, 3, 9, 9, 6, 9, 9, 9, 9, 9, 9, 9, 9, 9, 9, 7, 8, 3, 8, 6, 9, 9, 9, 9, 9, 9,
    9, 9, 9, 9, 9, 8, 7, 3, 6, 8, 9, 9, 9, 9, 9, 9, 1, 1, 1, 1, 1, 1, 1, 9, 0, 0, 0, 0, 0, 0, 0, 9,
    9, 9, 9, 9, 9, 8, 5, 2, 4, 8, 9, 9, 9, 9, 9, 9, 9, 9, 9, 9, 9, 5, 8, 2, 8, 4, 9, 9, 9, 9, 9, 9,
    9, 9, 9, 9, 5, 9, 9, 2, 9, 9, 4, 9, 9, 9, 9, 9, 9, 9, 9, 5, 9, 9, 9, 2, 9, 9, 9, 4, 9, 9, 9, 9,
    9, 9, 5, 9, 9, 9, 9, 2, 9, 9, 9, 9, 4, 9, 9, 9, 9, 5, 9, 9, 9, 9, 9, 2, 9, 9, 9, 9, 9, 4, 9, 9,
    5, 9, 9, 9, 9, 9, 9, 2, 9, 9, 9, 9, 9, 9, 4, 9,
];
