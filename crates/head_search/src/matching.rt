//! What a search of heads asks of one game.
ghost use Rattle.std.specs.Prelude.{◌≡◌, ◌==◌, []};
ghost use Rattle.std.specs.Int.{bit_at};
ghost use Rattle.game_tree.specs.Head.{head_of};
ghost use Rattle.head_search.specs.Matching.{begins, deleted_item, eco_item, head_matches, is_in, mark_item, name_item, names_match, numbers_match, player_item, result_item, span_item};

use cell_core::Text;
use game_tree::{HeadRef, Outcome};
use sig_index::{HeadQuery, Sig, Span};

/// Whether a game with this head and this signature is one that is asked for: every item of the query holds.
#[tactic(auto, unfolding(crate::specs::Matching::head_matches))]
pub fn matches(h: HeadRef<'_>, s: &Sig, q: &HeadQuery) -> bool
    ensures matches { result ≡ head_matches (head_of h.entry []) s.now.plies q.now }
{
    numbers_hold(&h, q) && span_holds(&q.plies, s.plies) && names_hold(&h, q)
}

// Whether all items hold but those of plies and of names: these cost the least.
fn numbers_hold(h: &HeadRef<'_>, q: &HeadQuery) -> bool
    ensures { result ≡ numbers_match (head_of h.now []) q.now }
{
    deleted_holds(q.deleted, h.deleted)
        && mark_holds(q.mark, h.marks)
        && result_holds(q.result, h.result)
        && span_holds(&q.year, h.date.year)
        && span_holds(&q.welo, h.white_rating.value)
        && span_holds(&q.belo, h.black_rating.value)
        && eco_holds(&q.eco, h.eco)
}

// Whether all items of names hold.
fn names_hold(h: &HeadRef<'_>, q: &HeadQuery) -> bool
    ensures { result ≡ names_match (head_of h.now []) q.now }
{
    name_holds(&q.white, h.white)
        && name_holds(&q.black, h.black)
        && player_holds(&q.player, h.white, h.black)
        && name_holds(&q.event, h.event)
        && name_holds(&q.site, h.site)
        && name_holds(&q.round, h.round)
}

/// Whether an item of the deleted mark holds. Of each kind of items: one that is not there holds.
#[tactic(auto, unfolding(crate::specs::Matching::deleted_item))]
pub(crate) fn deleted_holds(asked: Option<bool>, deleted: bool) -> bool
    ensures { result ≡ deleted_item asked deleted }
{
    match asked {
        Some(yes) => deleted == yes,
        None => true,
    }
}

/// Whether an item of a mark holds.
#[tactic(auto, unfolding(crate::specs::Matching::mark_item))]
pub(crate) fn mark_holds(asked: Option<u8>, marks: u32) -> bool
    ensures { result ≡ mark_item asked marks }
{
    match asked {
        Some(bit) => is_set(marks, bit),
        None => true,
    }
}

// Whether this bit of the marks is set. No bit is from the thirty-second on.
#[tactic(auto, using(crate::proofs::MarkLemmas::none_above))]
fn is_set(marks: u32, bit: u8) -> bool
    ensures { result ≡ (bit_at marks bit == 1) }
{
    bit < 32 && marks >> bit & 1 == 1
}

/// Whether an item of the result holds.
#[tactic(auto, unfolding(crate::specs::Matching::result_item))]
pub(crate) fn result_holds(asked: Option<Outcome>, found: Outcome) -> bool
    ensures { result ≡ result_item asked found }
{
    match asked {
        Some(outcome) => found == outcome,
        None => true,
    }
}

/// Whether an item of a number holds.
#[tactic(auto, unfolding(crate::specs::Matching::span_item))]
pub(crate) fn span_holds(asked: &Option<Span>, n: u16) -> bool
    ensures { result ≡ span_item asked.now n }
{
    match asked {
        Some(span) => is_in(span, n),
        None => true,
    }
}

/// Whether an item of the opening code holds. It never holds for a game without a code.
#[tactic(auto, unfolding(crate::specs::Matching::eco_item))]
pub(crate) fn eco_holds(asked: &Option<Span>, eco: u16) -> bool
    ensures { result ≡ eco_item asked.now eco }
{
    match asked {
        Some(span) => 0 < eco && is_in(span, eco),
        None => true,
    }
}

// Whether an item of a name holds.
#[tactic(auto, unfolding(crate::specs::Matching::name_item))]
fn name_holds(asked: &Option<Text>, name: &[u8]) -> bool
    ensures { result ≡ name_item asked.now name.now }
{
    match asked {
        Some(text) => begins(name, text),
        None => true,
    }
}

// Whether an item of either player holds.
#[tactic(auto, unfolding(crate::specs::Matching::player_item))]
fn player_holds(asked: &Option<Text>, white: &[u8], black: &[u8]) -> bool
    ensures { result ≡ player_item asked.now white.now black.now }
{
    match asked {
        Some(text) => begins(white, text) || begins(black, text),
        None => true,
    }
}

/// Whether a name begins with what is asked, byte by byte.
pub(crate) fn begins(name: &[u8], text: &Text) -> bool
    ensures { result ≡ begins name.now text.now }
{
    name.starts_with(text.as_bytes())
}

// Whether a number is one of the span's.
fn is_in(span: &Span, n: u16) -> bool
    ensures { result ≡ is_in span.now n }
{
    span.lo <= n as u64 && n as u64 <= span.hi
}
