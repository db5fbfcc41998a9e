//! Items KEY=VALUE of a search, each key at most once and one item at least.
ghost use Rattle.std.specs.Prelude.{◌≡◌, false, [], ◌<◌, length, IfOk, IfErr, IfSome};
ghost use Rattle.std.specs.Option.{option_map, option_map_or};
ghost use Rattle.std.specs.Str.{bytes_eq};
ghost use Rattle.sig_index.specs.Queries.{any_head, any_material};
ghost use Rattle.script_text.specs.Items.{key_and_value, has_key, new_item, with_item, with_items, items};
ghost use Rattle.script_text.specs.HeadItems.{head_item};
ghost use Rattle.script_text.specs.MatItems.{mat_item};
ghost use Rattle.script_text.specs.Sound.{IsHeadQuery, IsMatQuery};
ghost use Rattle.script_text.specs.Answer.{Answers};
ghost use Rattle.script_text.specs.declared.fault.CommandError.TheVariants.{Memory};

use crate::fault::{CommandError, ScriptFault};
use crate::head_items::head_item;
use crate::mat_items::mat_item;
use crate::numbers::split_once;
use crate::words::Word;
use sig_index::{HeadQuery, MatQuery};
use std::alloc::Global;

// Key and value of an item.
fn key_and_value(word: &Word) -> Option<(&[u8], &[u8])>
    ensures { option_map (λ parts. (parts.0.now, parts.1.now)) result ≡ key_and_value word.now }
{
    split_once(b'=', word.text()?)
}

// Whether the word is an item of this key.
fn is_keyed(key: &[u8], word: &Word) -> bool
    ensures { result ≡ option_map_or (λ parts. bytes_eq parts.0 key.now) (key_and_value word.now) false }
{
    match key_and_value(word) {
        Some((other, _)) => other == key,
        None => false,
    }
}

// Whether one of the words is an item of this key.
fn has_key(words: &[Word], key: &[u8]) -> bool
    ensures { result ≡ has_key words.now key.now }
{
    words.iter().any(|word| is_keyed(key, word))
}

// Key and value of the next item, if no item before it has its key.
fn new_item<'a>(before: &[Word], word: &'a Word) -> Option<(&'a [u8], &'a [u8])>
    ensures { option_map (λ parts. (parts.0.now, parts.1.now)) result ≡ new_item before.now word.now }
{
    let (key, value) = key_and_value(word)?;
    if has_key(before, key) {
        None
    } else {
        Some((key, value))
    }
}

#[tactic(auto, unfolding(crate::specs::Items::with_item))]
fn with_head_item(
    alloc: Global,
    before: &[Word],
    query: HeadQuery,
    word: &Word,
) -> Result<Option<HeadQuery>, CommandError>
    ensures added { IfOk result (λ longer. longer ≡ with_item head_item before.now query word.now) }
    ensures bounds { IfOk result (λ longer. IsHeadQuery query → IfSome longer IsHeadQuery) }
    ensures memory { IfErr result (λ error. error ≡ Memory) }
{
    let Some((key, value)) = new_item(before, word) else {
        return Ok(None);
    };
    head_item(alloc, query, key, value)
}

#[tactic(auto, unfolding(crate::specs::Items::with_item))]
fn with_mat_item(before: &[Word], query: MatQuery, word: &Word) -> Option<MatQuery>
    ensures added { result ≡ with_item mat_item before.now query word.now }
    ensures bounds { IsMatQuery query → IfSome result IsMatQuery }
{
    let (key, value) = new_item(before, word)?;
    mat_item(query, key, value)
}

/// What the items from word 3 on ask of heads.
#[tactic(auto, unfolding(crate::specs::Items::items))]
pub(crate) fn head_items(alloc: Global, words: &[Word]) -> Result<HeadQuery, CommandError>
    requires { length words.now < 4294967290 }
    ensures exact { Answers result (items head_item any_head words.now) }
    ensures bounds { IfOk result IsHeadQuery }
{
    if words.len() <= 3 {
        return Err(CommandError::Bad(ScriptFault::Argument(3)));
    }
    all_head_items(alloc, &words[3..])
}

// What these items ask of heads; the first of them is word 3.
#[tactic(auto, using(crate::proofs::ItemLaws::item_missed, crate::proofs::ItemLaws::item_added, crate::proofs::ItemLaws::items_end))]
fn all_head_items(alloc: Global, items: &[Word]) -> Result<HeadQuery, CommandError>
    requires { length items.now < 4294967290 }
    ensures exact { Answers result (with_items head_item [] items.now any_head) }
    ensures bounds { IfOk result IsHeadQuery }
{
    let mut query = HeadQuery::any();
    for n in 0..items.len() {
        query = match with_head_item(alloc, &items[..n], query, &items[n])? {
            Some(longer) => longer,
            None => return Err(CommandError::Bad(ScriptFault::Argument(n as u32 + 3))),
        };
    }
    Ok(query)
}

/// What the items from word 3 on ask of the counts of men.
#[tactic(auto, unfolding(crate::specs::Items::items))]
pub(crate) fn mat_items(words: &[Word]) -> Result<MatQuery, ScriptFault>
    requires { length words.now < 4294967290 }
    ensures exact { result ≡ items mat_item any_material words.now }
    ensures bounds { IfOk result IsMatQuery }
{
    if words.len() <= 3 {
        return Err(ScriptFault::Argument(3));
    }
    all_mat_items(&words[3..])
}

// What these items ask of the counts of men; the first of them is word 3.
#[tactic(auto, using(crate::proofs::ItemLaws::item_missed, crate::proofs::ItemLaws::item_added, crate::proofs::ItemLaws::items_end))]
fn all_mat_items(items: &[Word]) -> Result<MatQuery, ScriptFault>
    requires { length items.now < 4294967290 }
    ensures exact { result ≡ with_items mat_item [] items.now any_material }
    ensures bounds { IfOk result IsMatQuery }
{
    let mut query = MatQuery::any();
    for n in 0..items.len() {
        query = match with_mat_item(&items[..n], query, &items[n]) {
            Some(longer) => longer,
            None => return Err(ScriptFault::Argument(n as u32 + 3)),
        };
    }
    Ok(query)
}
