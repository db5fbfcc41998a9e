//! What two boards have in common.
ghost use Rattle.std.specs.Prelude.{◌≡◌, ◌<◌, ◌+◌, ◌*◌};
ghost use Rattle.cell_core.specs.Board.{same_men};
ghost use Rattle.pos_search.specs.Columns.{on_file, same_numbers, same_pair, same_pairs};
ghost use Rattle.pos_search.specs.Matching.{same_files, same_pawns};

use cell_core::{Board, Colour, Kind};

// Whether the boards have the same men on the same squares. The pawns come first: by them most boards differ.
#[inline(always)]
pub(crate) fn same_men(a: &Board, b: &Board) -> bool
    ensures { result ≡ same_men a.now b.now }
{
    a.of_kind(Kind::Pawn) == b.of_kind(Kind::Pawn) && a.is_same(b)
}

// Whether the boards have pawns of the same side on the same squares.
pub(crate) fn same_pawns(a: &Board, b: &Board) -> bool
    ensures { result ≡ same_pawns a.now b.now }
{
    a.of_man(Colour::White, Kind::Pawn) == b.of_man(Colour::White, Kind::Pawn)
        && a.of_man(Colour::Black, Kind::Pawn) == b.of_man(Colour::Black, Kind::Pawn)
}

// Whether the boards have as many pawns of each side on each file.
pub(crate) fn same_files(a: &Board, b: &Board) -> bool
    ensures { result ≡ same_files a.now b.now }
{
    same_numbers(
        a.of_man(Colour::White, Kind::Pawn),
        b.of_man(Colour::White, Kind::Pawn),
    ) && same_numbers(
        a.of_man(Colour::Black, Kind::Pawn),
        b.of_man(Colour::Black, Kind::Pawn),
    )
}

// Whether two sets have as many squares on each file, as the same sets have.
fn same_numbers(a: u64, b: u64) -> bool
    ensures { result ≡ same_numbers a b }
{
    if a == b {
        return true;
    }
    same_pairs(a, b)
}

// The same by pairs of files.
#[inline(always)]
#[tactic(auto, using(crate::proofs::ColumnLemmas::four_tests), unfolding(crate::specs::Columns::same_pairs))]
fn same_pairs(a: u64, b: u64) -> bool
    ensures { result ≡ same_pairs a b }
{
    same_pair(a, b, 0) && same_pair(a, b, 1) && same_pair(a, b, 2) && same_pair(a, b, 3)
}

// Whether they have as many on this file, and as many on the fourth behind it.
#[inline(always)]
fn same_pair(a: u64, b: u64, file: u8) -> bool
    requires { file < 4 }
    ensures { result ≡ same_pair a b file }
{
    pair(a, file) == pair(b, file)
}

// How many squares of a set stand on this file, and sixteen times as many as on the fourth behind it. Each rank has a byte, and the
// highest byte of the product is the sum of all eight.
#[inline(always)]
fn pair(set: u64, file: u8) -> u64
    requires { file < 4 }
    ensures { result ≡ on_file set file 8 + 16 * on_file set (file + 4) 8 }
{
    (set >> file & 0x1111_1111_1111_1111).wrapping_mul(0x0101_0101_0101_0101) >> 56
}
