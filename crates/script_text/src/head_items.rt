//! The items of a search of heads.
ghost use Rattle.std.specs.Prelude.{◌≡◌, IfOk, IfErr, IfSome};
ghost use Rattle.script_text.specs.Forms.{name_text};
ghost use Rattle.script_text.specs.Numbers.{number, span};
ghost use Rattle.script_text.specs.HeadItems.{name_item, span_item, head_item};
ghost use Rattle.script_text.specs.Sound.{IsHeadQuery};
ghost use Rattle.script_text.specs.declared.fault.CommandError.TheVariants.{Memory};

use crate::fault::CommandError;
use crate::forms::{answer, mark_bit, name_text};
use crate::numbers::{eco_span, span_within};
use cell_core::Text;
use game_tree::Outcome;
use sig_index::{HeadQuery, Span};
use std::alloc::Global;

/// The query with the value of an item, or `None` if no item has the key, or the value is not of its form.
#[tactic(auto, unfolding(crate::specs::HeadItems::head_item))]
pub(crate) fn head_item(
    alloc: Global,
    mut query: HeadQuery,
    key: &[u8],
    value: &[u8],
) -> Result<Option<HeadQuery>, CommandError>
    ensures added { IfOk result (λ longer. longer ≡ head_item query key.now value.now) }
    ensures bounds { IfOk result (λ longer. IsHeadQuery query → IfSome longer IsHeadQuery) }
    ensures memory { IfErr result (λ error. error ≡ Memory) }
{
    if key == b"result".as_slice() {
        let Some(outcome) = Outcome::read(value) else {
            return Ok(None);
        };
        query.result = Some(outcome);
        return Ok(Some(query));
    }
    if key == b"deleted".as_slice() {
        let Some(yes) = answer(value) else {
            return Ok(None);
        };
        query.deleted = Some(yes);
        return Ok(Some(query));
    }
    if key == b"mark".as_slice() {
        let Some(bit) = mark_bit(value) else {
            return Ok(None);
        };
        query.mark = Some(bit);
        return Ok(Some(query));
    }
    span_item(alloc, query, key, value)
}

// The items whose value is a span, and those of names.
#[tactic(auto, unfolding(crate::specs::HeadItems::span_item))]
fn span_item(
    alloc: Global,
    mut query: HeadQuery,
    key: &[u8],
    value: &[u8],
) -> Result<Option<HeadQuery>, CommandError>
    ensures added { IfOk result (λ longer. longer ≡ span_item query key.now value.now) }
    ensures bounds { IfOk result (λ longer. IsHeadQuery query → IfSome longer IsHeadQuery) }
    ensures memory { IfErr result (λ error. error ≡ Memory) }
{
    if key == b"year".as_slice() {
        let Some(span) = number_span(value) else {
            return Ok(None);
        };
        query.year = Some(span);
        return Ok(Some(query));
    }
    if key == b"welo".as_slice() {
        let Some(span) = number_span(value) else {
            return Ok(None);
        };
        query.welo = Some(span);
        return Ok(Some(query));
    }
    if key == b"belo".as_slice() {
        let Some(span) = number_span(value) else {
            return Ok(None);
        };
        query.belo = Some(span);
        return Ok(Some(query));
    }
    if key == b"plies".as_slice() {
        let Some(span) = number_span(value) else {
            return Ok(None);
        };
        query.plies = Some(span);
        return Ok(Some(query));
    }
    if key == b"eco".as_slice() {
        let Some(span) = eco_span(value) else {
            return Ok(None);
        };
        query.eco = Some(span);
        return Ok(Some(query));
    }
    name_item(alloc, query, key, value)
}

// The items whose value is the beginning of a name.
#[tactic(auto, unfolding(crate::specs::HeadItems::name_item))]
fn name_item(
    alloc: Global,
    mut query: HeadQuery,
    key: &[u8],
    value: &[u8],
) -> Result<Option<HeadQuery>, CommandError>
    ensures added { IfOk result (λ longer. longer ≡ name_item query key.now value.now) }
    ensures bounds { IfOk result (λ longer. IsHeadQuery query → IfSome longer IsHeadQuery) }
    ensures memory { IfErr result (λ error. error ≡ Memory) }
{
    let Some(text) = name_prefix(alloc, value)? else {
        return Ok(None);
    };
    if key == b"white".as_slice() {
        query.white = Some(text);
        return Ok(Some(query));
    }
    if key == b"black".as_slice() {
        query.black = Some(text);
        return Ok(Some(query));
    }
    if key == b"player".as_slice() {
        query.player = Some(text);
        return Ok(Some(query));
    }
    if key == b"event".as_slice() {
        query.event = Some(text);
        return Ok(Some(query));
    }
    if key == b"site".as_slice() {
        query.site = Some(text);
        return Ok(Some(query));
    }
    if key == b"round".as_slice() {
        query.round = Some(text);
        return Ok(Some(query));
    }
    Ok(None)
}

// The beginning of a name, as a text.
fn name_prefix(alloc: Global, value: &[u8]) -> Result<Option<Text>, CommandError>
    ensures text { IfOk result (λ text. text ≡ name_text value.now) }
    ensures memory { IfErr result (λ error. error ≡ Memory) }
{
    match name_text(value) {
        Some(name) => Ok(Some(Text::from_zero_free(Vec::from_slice(alloc, name)?))),
        None => Ok(None),
    }
}

// A span of numbers below 2^64.
fn number_span(value: &[u8]) -> Option<Span>
    ensures { result ≡ span number value.now }
{
    span_within(u64::MAX, value)
}
