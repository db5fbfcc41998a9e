//! Which squares a side attacks.
ghost use Rattle.std.specs.Prelude.{◌<◌, ℕ, Some, true, ◌≡◌, ◌↔◌, IsTrue, Any, List, is_some};
ghost use Rattle.chess_laws.specs.Attacks.{Attacks};
ghost use Rattle.chess_laws.specs.RayTable.{names_seen};
ghost use Rattle.chess_laws.specs.LegalTests.{slides};
ghost use Rattle.chess_laws.specs.Geometry.{bishop_steps, rook_steps, Leaps, Offset as Steps, Runs};
ghost use Rattle.chess_laws.specs.Rays.{sliders, Leaves, LeapsFrom, SlidesFrom, SlidesTo};
ghost use Rattle.chess_laws.specs.Targets.{Has};
ghost use Rattle.cell_core.specs.Board.{man_at, Men};
ghost use Rattle.cell_core.specs.Man.{is_man, man};
ghost use Rattle.cell_core.specs.Sets.{set_of};
ghost use Rattle.cell_core.specs.declared.man.Colour.{Colour as TheColour};
ghost use Rattle.cell_core.specs.declared.man.Kind.{Kind as TheKind};

use super::leaps::{capture_squares, king_squares, knight_squares};
use super::left::Left;
use super::sliding::run_squares;
use super::targets::SquareSet;
use cell_core::{Board, Colour, Kind, Man, Square};

/// Whether some man of the colour `by` attacks the square `s`.
pub fn attacks(board: &Board, by: Colour, s: Square) -> bool
    ensures { IsTrue result ↔ Attacks board.now by s }
{
    attacks_left(board, Left::of(board, by), by, s)
}

/// Whether some man of the colour `by` attacks the square `s`, if these of its men are left of the board.
pub fn attacks_left(board: &Board, left: Left, by: Colour, s: Square) -> bool
    ensures { (new : Men) → Leaves board.now by left.men left.occupied new → IsTrue result ↔ Attacks new by s }
{
    if slides_left(board, left, by, s) {
        return true;
    }
    if leaps(knight_squares(s), left.of_kind(board, Kind::Knight)) {
        return true;
    }
    if leaps(
        capture_squares(by.other(), s),
        left.of_kind(board, Kind::Pawn),
    ) {
        return true;
    }
    leaps(king_squares(s), left.of_kind(board, Kind::King))
}

/// Whether some man of the colour `by` that slides attacks the square `s`, if these of its men are left of the board.
#[inline(always)]
#[tactic(auto, unfolding(crate::specs::LegalTests::line, crate::specs::RayTable::names_seen))]
pub fn slides_left(board: &Board, left: Left, by: Colour, s: Square) -> bool
    ensures { (new : Men) → Leaves board.now by left.men left.occupied new → IsTrue result ↔ SlidesTo new by s }
{
    let queens = left.of_kind(board, Kind::Queen);
    let rooks = left.of_kind(board, Kind::Rook) | queens;
    if slides(rooks, left.occupied(), Kind::Rook, &ROOK_LINES, s) {
        return true;
    }
    let bishops = left.of_kind(board, Kind::Bishop) | queens;
    slides(bishops, left.occupied(), Kind::Bishop, &BISHOP_LINES, s)
}

/// Whether one of these men stands on a square to which steps lead from a square.
#[inline(always)]
fn leaps(squares: SquareSet, men: u64) -> bool
    ensures { (new : Men) (c : TheColour) (k : TheKind) (s : ℕ) (steps : List Steps) → men ≡ set_of (is_man c k) new → s < 64 → ((b : ℕ) → Has squares b ↔ Any (Leaps s b) steps) → IsTrue result ↔ Any (LeapsFrom new (man c k) s) steps }
{
    squares.meets(men)
}

/// Whether a file, a rank or a diagonal has both squares.
#[inline(always)]
#[tactic(auto, unfolding(crate::specs::LegalTests::line, crate::specs::RayTable::names_seen))]
pub fn are_on_line(s: Square, t: Square) -> bool
    ensures rooks { (men : Men) → Any (Runs men s t) rook_steps → IsTrue result }
    ensures bishops { (men : Men) → Any (Runs men s t) bishop_steps → IsTrue result }
{
    is_seen(&ROOK_LINES, Kind::Rook, s, t) || is_seen(&BISHOP_LINES, Kind::Bishop, s, t)
}

// Whether a table of lines has one square on those of this kind of man through the other.
#[inline(always)]
fn is_seen(lines: &[u64; 64], kind: Kind, s: Square, t: Square) -> bool
    requires lines { names_seen lines.now kind ≡ true }
    ensures { (men : Men) → Any (Runs men s t) (slides kind) → IsTrue result }
{
    SquareSet::of_bits(lines[s.index() as usize]).has(t)
}

/// Whether such a man stands on the square.
#[inline(always)]
pub(crate) fn stands(board: &Board, from: Square, colour: Colour, kind: Kind) -> bool
    ensures { IsTrue result ↔ (man_at board.now from ≡ Some (man colour kind)) }
{
    board.at(from) == Some(Man { colour, kind })
}

/// Whether one of these men, who slide as this kind of man does, slides to `s`, if men stand on these squares. A table has the
/// squares on the lines through each square.
#[inline(always)]
fn slides(men: u64, occupied: u64, kind: Kind, lines: &[u64; 64], s: Square) -> bool
    requires lines { names_seen lines.now kind ≡ true }
    ensures { (new : Men) (by : TheColour) → men ≡ sliders new by kind → occupied ≡ set_of is_some new → IsTrue result ↔ Any (SlidesFrom new by kind s) (slides kind) }
{
    let from = s.index();
    let there = SquareSet::of_bits(lines[from as usize]).within(men);
    come(there, occupied, kind, s)
}

/// Whether equal steps of this kind of man lead from `s` to one of the squares, if men stand on these.
#[inline(always)]
fn come(squares: SquareSet, occupied: u64, kind: Kind, s: Square) -> bool
    ensures { (new : Men) → occupied ≡ set_of is_some new → IsTrue result ↔ ((a : ℕ) × (Has squares a × Any (Runs new s a) (slides kind))) }
{
    if squares.is_empty() {
        return false;
    }
    come_along(squares, occupied, kind, s)
}

// The same for squares of which there is at least one.
#[inline(never)]
fn come_along(squares: SquareSet, occupied: u64, kind: Kind, s: Square) -> bool
    ensures { (new : Men) → occupied ≡ set_of is_some new → IsTrue result ↔ ((a : ℕ) × (Has squares a × Any (Runs new s a) (slides kind))) }
{
    match kind {
        Kind::Rook => squares.meets(run_squares(occupied, Kind::Rook, s)),
        Kind::Bishop => squares.meets(run_squares(occupied, Kind::Bishop, s)),
        _ => squares.meets(run_squares(occupied, kind, s)),
    }
}

// The files and ranks through each square.
const ROOK_LINES: [u64; 64] = [
    0x0101_0101_0101_01fe,
    0x0202_0202_0202_02fd,
    0x0404_0404_0404_04fb,
    0x0808_0808_0808_08f7,
    0x1010_1010_1010_10ef,
    0x2020_2020_2020_20df,
    0x4040_4040_4040_40bf,
    0x8080_8080_8080_807f,
    0x0101_0101_0101_fe01,
    0x0202_0202_0202_fd02,
    0x0404_0404_0404_fb04,
    0x0808_0808_0808_f708,
    0x1010_1010_1010_ef10,
    0x2020_2020_2020_df20,
    0x4040_4040_4040_bf40,
    0x8080_8080_8080_7f80,
    0x0101_0101_01fe_0101,
    0x0202_0202_02fd_0202,
    0x0404_0404_04fb_0404,
    0x0808_0808_08f7_0808,
    0x1010_1010_10ef_1010,
    0x2020_2020_20df_2020,
    0x4040_4040_40bf_4040,
    0x8080_8080_807f_8080,
    0x0101_0101_fe01_0101,
    0x0202_0202_fd02_0202,
    0x0404_0404_fb04_0404,
    0x0808_0808_f708_0808,
    0x1010_1010_ef10_1010,
    0x2020_2020_df20_2020,
    0x4040_4040_bf40_4040,
    0x8080_8080_7f80_8080,
    0x0101_01fe_0101_0101,
    0x0202_02fd_0202_0202,
    0x0404_04fb_0404_0404,
    0x0808_08f7_0808_0808,
    0x1010_10ef_1010_1010,
    0x2020_20df_2020_2020,
    0x4040_40bf_4040_4040,
    0x8080_807f_8080_8080,
    0x0101_fe01_0101_0101,
    0x0202_fd02_0202_0202,
    0x0404_fb04_0404_0404,
    0x0808_f708_0808_0808,
    0x1010_ef10_1010_1010,
    0x2020_df20_2020_2020,
    0x4040_bf40_4040_4040,
    0x8080_7f80_8080_8080,
    0x01fe_0101_0101_0101,
    0x02fd_0202_0202_0202,
    0x04fb_0404_0404_0404,
    0x08f7_0808_0808_0808,
    0x10ef_1010_1010_1010,
    0x20df_2020_2020_2020,
    0x40bf_4040_4040_4040,
    0x807f_8080_8080_8080,
    0xfe01_0101_0101_0101,
    0xfd02_0202_0202_0202,
    0xfb04_0404_0404_0404,
    0xf708_0808_0808_0808,
    0xef10_1010_1010_1010,
    0xdf20_2020_2020_2020,
    0xbf40_4040_4040_4040,
    0x7f80_8080_8080_8080,
];

// The diagonals through each square.
const BISHOP_LINES: [u64; 64] = [
    0x8040_2010_0804_0200,
    0x0080_4020_1008_0500,
    0x0000_8040_2011_0a00,
    0x0000_0080_4122_1400,
    0x0000_0001_8244_2800,
    0x0000_0102_0488_5000,
    0x0001_0204_0810_a000,
    0x0102_0408_1020_4000,
    0x4020_1008_0402_0002,
    0x8040_2010_0805_0005,
    0x0080_4020_110a_000a,
    0x0000_8041_2214_0014,
    0x0000_0182_4428_0028,
    0x0001_0204_8850_0050,
    0x0102_0408_10a0_00a0,
    0x0204_0810_2040_0040,
    0x2010_0804_0200_0204,
    0x4020_1008_0500_0508,
    0x8040_2011_0a00_0a11,
    0x0080_4122_1400_1422,
    0x0001_8244_2800_2844,
    0x0102_0488_5000_5088,
    0x0204_0810_a000_a010,
    0x0408_1020_4000_4020,
    0x1008_0402_0002_0408,
    0x2010_0805_0005_0810,
    0x4020_110a_000a_1120,
    0x8041_2214_0014_2241,
    0x0182_4428_0028_4482,
    0x0204_8850_0050_8804,
    0x0408_10a0_00a0_1008,
    0x0810_2040_0040_2010,
    0x0804_0200_0204_0810,
    0x1008_0500_0508_1020,
    0x2011_0a00_0a11_2040,
    0x4122_1400_1422_4180,
    0x8244_2800_2844_8201,
    0x0488_5000_5088_0402,
    0x0810_a000_a010_0804,
    0x1020_4000_4020_1008,
    0x0402_0002_0408_1020,
    0x0805_0005_0810_2040,
    0x110a_000a_1120_4080,
    0x2214_0014_2241_8000,
    0x4428_0028_4482_0100,
    0x8850_0050_8804_0201,
    0x10a0_00a0_1008_0402,
    0x2040_0040_2010_0804,
    0x0200_0204_0810_2040,
    0x0500_0508_1020_4080,
    0x0a00_0a11_2040_8000,
    0x1400_1422_4180_0000,
    0x2800_2844_8201_0000,
    0x5000_5088_0402_0100,
    0xa000_a010_0804_0201,
    0x4000_4020_1008_0402,
    0x0002_0408_1020_4080,
    0x0005_0810_2040_8000,
    0x000a_1120_4080_0000,
    0x0014_2241_8000_0000,
    0x0028_4482_0100_0000,
    0x0050_8804_0201_0000,
    0x00a0_1008_0402_0100,
    0x0040_2010_0804_0201,
];
