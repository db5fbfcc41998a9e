//! The items of a search of material.
ghost use Rattle.std.specs.Prelude.{◌≡◌, ◌<◌, ◌≤◌, IfSome};
ghost use Rattle.script_text.specs.MatItems.{count_place, streak, count_item, mat_item};
ghost use Rattle.script_text.specs.Sound.{IsMatQuery};

use crate::numbers::span_within;
use game_tree::read_decimal;
use sig_index::MatQuery;

/// The query with the value of an item, or `None` if no item has the key, or the value is not of its form.
#[tactic(auto, unfolding(crate::specs::MatItems::mat_item))]
pub(crate) fn mat_item(mut query: MatQuery, key: &[u8], value: &[u8]) -> Option<MatQuery>
    ensures added { result ≡ mat_item query key.now value.now }
    ensures bounds { IsMatQuery query → IfSome result IsMatQuery }
{
    if key == b"ply".as_slice() {
        let span = span_within(131_071, value)?;
        query.ply_lo = span.lo as u32;
        query.ply_hi = span.hi as u32;
        return Some(query);
    }
    if key == b"streak".as_slice() {
        query.streak = streak(value)?;
        return Some(query);
    }
    if key == b"swap".as_slice() {
        if value != b"yes".as_slice() {
            return None;
        }
        query.swap = true;
        return Some(query);
    }
    count_item(query, key, value)
}

// The items whose value is a span of a count.
#[tactic(auto, unfolding(crate::specs::MatItems::count_item))]
fn count_item(mut query: MatQuery, key: &[u8], value: &[u8]) -> Option<MatQuery>
    ensures added { result ≡ count_item query key.now value.now }
    ensures bounds { IsMatQuery query → IfSome result IsMatQuery }
{
    let place = count_place(key)?;
    let span = span_within(16, value)?;
    query.range.lo[place] = span.lo as u8;
    query.range.hi[place] = span.hi as u8;
    Some(query)
}

// The place of a count in a range, by its key.
fn count_place(key: &[u8]) -> Option<usize>
    ensures place { result ≡ count_place key.now }
    ensures below { IfSome result (λ place. place < 10) }
{
    if key == b"wq".as_slice() {
        return Some(0);
    }
    if key == b"wr".as_slice() {
        return Some(1);
    }
    if key == b"wb".as_slice() {
        return Some(2);
    }
    if key == b"wn".as_slice() {
        return Some(3);
    }
    if key == b"wp".as_slice() {
        return Some(4);
    }
    if key == b"bq".as_slice() {
        return Some(5);
    }
    if key == b"br".as_slice() {
        return Some(6);
    }
    if key == b"bb".as_slice() {
        return Some(7);
    }
    if key == b"bn".as_slice() {
        return Some(8);
    }
    if key == b"bp".as_slice() {
        return Some(9);
    }
    None
}

// A number of plies from 1 to 131,071.
fn streak(value: &[u8]) -> Option<u32>
    ensures streak { result ≡ streak value.now }
    ensures from_one { IfSome result (λ plies. 1 ≤ plies) }
{
    let plies = read_decimal(value, 131_071)?;
    if plies >= 1 { Some(plies as u32) } else { None }
}
