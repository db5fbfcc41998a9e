//! Numbers and spans of numbers.
ghost use Rattle.std.specs.Prelude.{◌≡◌, ◌≤◌, Some, IfSome, option_map};
ghost use Rattle.game_tree.specs.Decimal.{decimal_read};
ghost use Rattle.game_tree.specs.Eco.{eco_read};
ghost use Rattle.script_text.specs.Sound.{IsDepth};
ghost use Rattle.script_text.specs.Numbers.{number, index_depth, split_once, ends, span, between};

use game_tree::{read_decimal, read_eco};
use sig_index::Span;

/// A number: decimal digits, below 2^64.
pub(crate) fn number(word: &[u8]) -> Option<u64>
    ensures { result ≡ number word.now }
{
    read_decimal(word, u64::MAX)
}

/// The number of games of `demo`, at most 100,000.
pub(crate) fn demo_games(word: &[u8]) -> Option<u32>
    ensures { result ≡ decimal_read 100000 word.now }
{
    let games = read_decimal(word, 100_000)?;
    Some(games as u32)
}

/// How many plies of two games `twins` compares, at most 131,071.
pub(crate) fn twin_depth(word: &[u8]) -> Option<u32>
    ensures { result ≡ decimal_read 131071 word.now }
{
    let depth = read_decimal(word, 131_071)?;
    Some(depth as u32)
}

/// The depth of `index`: a number of plies, at most 40, or `off` for no index.
pub(crate) fn index_depth(word: &[u8]) -> Option<Option<u8>>
    ensures depth { result ≡ index_depth word.now }
    ensures bounds { IfSome result IsDepth }
{
    if word == b"off".as_slice() {
        return Some(None);
    }
    let plies = read_decimal(word, 40)?;
    Some(Some(plies as u8))
}

/// What stands before the first byte `at`, and what stands behind it.
pub(crate) fn split_once(at: u8, text: &[u8]) -> Option<(&[u8], &[u8])>
    ensures { option_map (λ parts. (parts.0.now, parts.1.now)) result ≡ split_once at text.now }
{
    for (i, byte) in text.iter().enumerate() {
        if *byte == at {
            let (before, rest) = text.split_at(i);
            return Some((before, &rest[1..]));
        }
    }
    None
}

/// The span `LO..HI`, whose numbers are at most `limit`, and LO at most HI.
#[tactic(auto, unfolding(crate::specs::Numbers::span))]
pub(crate) fn span_within(limit: u64, text: &[u8]) -> Option<Span>
    ensures span { result ≡ span (decimal_read limit) text.now }
    ensures bounds { IfSome result (λ span. span.hi ≤ limit) }
    ensures order { IfSome result (λ span. span.lo ≤ span.hi) }
{
    let (lo, hi) = ends(text)?;
    let lo = read_decimal(lo, limit)?;
    let hi = read_decimal(hi, limit)?;
    between(lo, hi)
}

/// The span `LO..HI` of opening codes, LO at most HI.
#[tactic(auto, unfolding(crate::specs::Numbers::span))]
pub(crate) fn eco_span(text: &[u8]) -> Option<Span>
    ensures { result ≡ span eco_read text.now }
{
    let (lo, hi) = ends(text)?;
    let lo = read_eco(lo)?;
    let hi = read_eco(hi)?;
    between(u64::from(lo), u64::from(hi))
}

// The two ends of `LO..HI`.
#[tactic(auto, unfolding(crate::specs::Numbers::ends))]
fn ends(text: &[u8]) -> Option<(&[u8], &[u8])>
    ensures { option_map (λ parts. (parts.0.now, parts.1.now)) result ≡ ends text.now }
{
    let (lo, rest) = split_once(b'.', text)?;
    match rest {
        [b'.', hi @ ..] => Some((lo, hi)),
        _ => None,
    }
}

// The span between two numbers, if the lower one is not above the upper one.
fn between(lo: u64, hi: u64) -> Option<Span>
    ensures { result ≡ between (Some lo) (Some hi) }
{
    if lo <= hi {
        Some(Span { lo, hi })
    } else {
        None
    }
}
