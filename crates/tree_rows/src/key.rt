//! The order of the keys of rows.
ghost use Rattle.std.specs.Prelude.{◌≡◌, ◌<◌, MatchOption};
ghost use Rattle.chess_laws.specs.Moves.{promotion_number};
ghost use Rattle.tree_rows.specs.Keys.{key_cmp, key_word, same_key};

use cell_core::{Kind, Move};
use std::cmp::Ordering;

/// How two keys stand: by the first square, the target and the promotion, and none behind every move.
#[tactic(auto, using(crate::proofs::KeyWords::order_told))]
pub(crate) fn key_order(a: &Option<Move>, b: &Option<Move>) -> Ordering
    ensures { result ≡ key_cmp a.now b.now }
{
    key_word(a).cmp(&key_word(b))
}

/// Whether two keys are the same.
pub fn same_key(a: &Option<Move>, b: &Option<Move>) -> bool
    ensures same { result ≡ same_key a.now b.now }
{
    key_order(a, b).is_eq()
}

// A key as one number, so that an order takes one comparison.
fn key_word(key: &Option<Move>) -> u32
    ensures word { result ≡ key_word key.now }
    ensures squares { MatchOption key.now (Unit {0}) (λ m. (m.from < 64) × (m.to < 64)) }
{
    match key {
        Some(m) => {
            let squares = 256 * u32::from(m.from.index()) + u32::from(m.to.index());
            256 * squares + u32::from(promotion_number(m.promo))
        }
        None => 256 * 256 * 256,
    }
}

// The place of a promotion in their order.
fn promotion_number(promo: Option<Kind>) -> u8
    ensures { result ≡ promotion_number promo }
{
    match promo {
        None => 0,
        Some(Kind::King) => 1,
        Some(Kind::Queen) => 2,
        Some(Kind::Rook) => 3,
        Some(Kind::Bishop) => 4,
        Some(Kind::Knight) => 5,
        Some(Kind::Pawn) => 6,
    }
}
