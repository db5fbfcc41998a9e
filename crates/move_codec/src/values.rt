//! The values of packed moves: what `targets` reads.
ghost use Rattle.std.specs.Prelude.{◌≡◌, ◌+◌, ◌-◌, ◌<◌, ◌≤◌, ◌==◌, length, position};
ghost use Rattle.move_codec.specs.Packed.{difference_value, diagonal_value, gap, is_line, line_value, pawn_value, promotion_value, value_of};

use super::targets::{KING, KNIGHT};
use cell_core::{Kind, Move};

/// The place of a move's difference in a list of differences, each written 64 + difference, or the list's length.
#[tactic(auto, using(crate::proofs::Lists::place_within))]
fn difference_value(differences: &[u8], m: &Move) -> u8
    requires { length differences.now < 256 }
    ensures { result ≡ difference_value differences.now m.now }
{
    match find(differences, 64 + m.to.index() - m.from.index()) {
        Some(value) => value as u8,
        None => differences.len() as u8,
    }
}

/// The place of a difference in a list, or `None` if it is not in the list.
fn find(differences: &[u8], sought: u8) -> Option<usize>
    ensures { result ≡ position (λ difference. difference == sought) differences.now }
{
    differences
        .iter()
        .position(|difference| *difference == sought)
}

/// The value of a move along a line.
fn line_value(m: &Move) -> u8
    ensures { result ≡ line_value m.now }
{
    let (from, to) = (m.from.index(), m.to.index());
    if to / 8 == from / 8 {
        to % 8
    } else {
        8 + to / 8
    }
}

/// The value of a move along a diagonal.
fn diagonal_value(m: &Move) -> u8
    ensures { result ≡ diagonal_value m.now }
{
    let (from, to) = (m.from.index(), m.to.index());
    if to / 8 + from % 8 == from / 8 + to % 8 {
        to % 8
    } else {
        8 + to % 8
    }
}

/// What a promotion adds to a pawn's value.
fn promotion_value(promo: Option<Kind>) -> u8
    ensures value { result ≡ promotion_value promo }
    ensures small { result ≤ 12 }
{
    match promo {
        Some(Kind::Queen) => 3,
        Some(Kind::Rook) => 6,
        Some(Kind::Bishop) => 9,
        Some(Kind::Knight) => 12,
        _ => 0,
    }
}

/// The value of a pawn's move.
fn pawn_value(m: &Move) -> u8
    ensures { result ≡ pawn_value m.now }
{
    let gap = m.from.index().abs_diff(m.to.index());
    if gap == 16 {
        return 15;
    }
    gap.saturating_sub(7) + promotion_value(m.promo)
}

/// Whether a queen goes along a line.
pub(crate) fn is_line(m: &Move) -> bool
    ensures { result ≡ is_line m.now }
{
    let (from, to) = (m.from.index(), m.to.index());
    to / 8 == from / 8 || to % 8 == from % 8
}

/// The value in the first byte of a move.
#[tactic(auto, unfolding(crate::specs::Packed::value_of))]
pub(crate) fn value_of(kind: Kind, m: &Move) -> u8
    ensures { result ≡ value_of kind m.now }
{
    match kind {
        Kind::King => difference_value(&KING, m),
        Kind::Queen => {
            if is_line(m) {
                line_value(m)
            } else {
                m.from.index() % 8
            }
        }
        Kind::Rook => line_value(m),
        Kind::Bishop => diagonal_value(m),
        Kind::Knight => difference_value(&KNIGHT, m),
        Kind::Pawn => pawn_value(m),
    }
}
