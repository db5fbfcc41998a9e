//! Reading the extra tags of a record.
ghost use Rattle.std.specs.Prelude.{◌≡◌, ◌+◌, ◌<◌, ◌≤◌, List, [], ◌∷◌, ◌++◌, ℕ, length, drop, Ok, Err, IfOk, IfErr, OnOk, MatchOption, slice_index_or};
ghost use Rattle.std.specs.List.{list_all};
ghost use Rattle.std.specs.Bool.{OnTrue};
ghost use Rattle.cell_core.specs.Text.{IsZeroFree};
ghost use Rattle.game_tree.specs.TagName.{free_of, is_tag_byte};
ghost use Rattle.game_tree.specs.declared.head.Tag.{Tag as TagValue};
ghost use Rattle.game_codec.specs.Breach.{Tells};
ghost use Rattle.game_codec.specs.TagSpelling.{coded_names};
ghost use Rattle.game_codec.specs.TagReading.{BreaksTags, part_at, value_at, with_name, with_value, date_at, tag_at, is_value_byte, BeginsTag, BeginsTags};
ghost use Rattle.game_codec.specs.TagParts.{IsNext, IsParts, tag_of};
ghost use Rattle.game_codec.specs.declared.fault.RecordWhat.TheVariants as fault;

use super::breach::{Breach, Unread};
use super::fault::RecordWhat;
use cell_core::Text;
use game_tree::{Date, Tag, is_reserved, is_tag_byte};
use std::alloc::{AllocError, Global};

// The names that the codes from 241 on stand for.
const CODED_NAMES: [&[u8]; 10] = [
    b"WhiteCountry",
    b"BlackCountry",
    b"Annotator",
    b"PlyCount",
    b"EventDate",
    b"Opening",
    b"Variation",
    b"Setup",
    b"Source",
    b"SetUp",
];

/// The tags of a record without those of reserved names, and how many bytes all of them take with the zero byte behind
/// them.
#[derive(Debug, Drop)]
pub(crate) struct TagsRead {
    pub(crate) tags: Vec<Tag>,
    pub(crate) used: usize,
}

/// Reads the extra tags at the beginning of a record, up to the zero byte that ends them.
pub(crate) fn read_tags(alloc: Global, bytes: &[u8]) -> Result<TagsRead, Unread>
    ensures ok { IfOk result (λ read. (all : List TagValue) × (BeginsTags bytes.now all (drop read.used bytes.now)
        × (read.tags.items ≡ free_of all))) }
    ensures used { IfOk result (λ read. read.used ≤ length bytes.now) }
{
    let mut tags = Vec::new(alloc);
    let mut rest = bytes;
    loop {
        match next_tag(alloc, rest)? {
            Next::End => {
                return Ok(TagsRead {
                    tags,
                    used: bytes.len() - rest.len() + 1,
                });
            }
            Next::Tag { tag, used } => {
                rest = rest.split_at(used).1;
                put_free(&mut tags, tag)?;
            }
        }
    }
}

/// How many bytes the extra tags of a record take with the zero byte behind them. Their texts are not kept.
pub(crate) fn tags_len(bytes: &[u8]) -> Result<usize, Breach>
    ensures ok { IfOk result (λ used. (all : List TagValue) × BeginsTags bytes.now all (drop used bytes.now)) }
    ensures used { IfOk result (λ used. used ≤ length bytes.now) }
    ensures err { IfErr result (Tells (λ rest what. (all : List TagValue) × BreaksTags bytes.now all rest what)) }
{
    let mut rest = bytes;
    loop {
        match tag_len(rest)? {
            None => return Ok(bytes.len() - rest.len() + 1),
            Some(used) => rest = rest.split_at(used).1,
        }
    }
}

// How many bytes the next tag takes, or `None` at the zero byte that ends the tags.
fn tag_len(bytes: &[u8]) -> Result<Option<usize>, Breach>
    ensures ok { IfOk result (λ found. MatchOption found ((rest : List ℕ) × (bytes.now ≡ 0 ∷ rest))
        (λ used. (tag : TagValue) × (BeginsTag bytes.now tag (drop used bytes.now) × ((0 < used) × (used ≤ length bytes.now))))) }
    ensures err { IfErr result (Tells (λ rest what. (rest ≡ bytes.now) × (tag_at bytes.now ≡ Err what))) }
{
    match next_parts(bytes) {
        Ok(Parts::End) => Ok(None),
        Ok(Parts::Named { used, .. }) => Ok(Some(1 + used)),
        Ok(Parts::Dated { .. }) => Ok(Some(4)),
        Err(what) => Err(Breach {
            left: bytes.len(),
            what,
        }),
    }
}

// Adds a tag, unless its name is reserved.
fn put_free(tags: &mut Vec<Tag>, tag: Tag) -> Result<(), AllocError>
    ensures free { OnOk result (tags.new.items ≡ tags.old.items ++ free_of (tag ∷ [])) }
{
    if !is_reserved(tag.name.as_bytes()) {
        tags.push(tag)?;
    }
    Ok(())
}

// What the bytes behind a tag begin with: another tag of so many bytes, or the zero byte.
#[derive(Debug, Drop)]
enum Next {
    Tag { tag: Tag, used: usize },
    End,
}

// The next tag.
fn next_tag(alloc: Global, bytes: &[u8]) -> Result<Next, Unread>
    ensures ok { IfOk result (IsNext bytes.now) }
{
    match next_parts(bytes) {
        Ok(Parts::End) => Ok(Next::End),
        Ok(Parts::Named { name, value, used }) => Ok(Next::Tag {
            tag: tag_of(alloc, name, value)?,
            used: 1 + used,
        }),
        Ok(Parts::Dated { date }) => Ok(Next::Tag {
            tag: tag_of(alloc, b"EventDate", date.text().as_slice())?,
            used: 4,
        }),
        Err(_what) => Err(Unread),
    }
}

// A tag of these texts.
fn tag_of(alloc: Global, name: &[u8], value: &[u8]) -> Result<Tag, AllocError>
    requires name { IsZeroFree name.now }
    requires value { IsZeroFree value.now }
    ensures texts { IfOk result (λ tag. tag ≡ tag_of name.now value.now) }
{
    let name = Vec::from_slice(alloc, name)?;
    let value = Vec::from_slice(alloc, value)?;
    Ok(Tag {
        name: Text::from_zero_free(name),
        value: Text::from_zero_free(value),
    })
}

/// What the next tag is made of. The bytes used are counted behind its first.
#[derive(Drop)]
pub(crate) enum Parts<'a> {
    Named {
        name: &'a [u8],
        value: &'a [u8],
        used: usize,
    },
    Dated {
        date: Date,
    },
    End,
}

/// The parts of the next tag, or its first fault.
pub(crate) fn next_parts<'a>(bytes: &'a [u8]) -> Result<Parts<'a>, RecordWhat>
    ensures ok { IfOk result (IsParts (tag_at bytes.now) (drop 1 bytes.now)) }
    ensures some { IfOk result (λ parts. 0 < length bytes.now) }
    ensures err { IfErr result (λ what. tag_at bytes.now ≡ Err what) }
{
    match bytes {
        [] => Err(RecordWhat::Short),
        [code, behind @ ..] => parts_of(*code, behind),
    }
}

// The parts of a tag that begins with this byte, and those behind it.
#[tactic(auto, unfolding(crate::specs::TagReading::tag_at))]
fn parts_of<'a>(code: u8, bytes: &'a [u8]) -> Result<Parts<'a>, RecordWhat>
    ensures ok { IfOk result (IsParts (tag_at (code ∷ bytes.now)) bytes.now) }
    ensures err { IfErr result (λ what. tag_at (code ∷ bytes.now) ≡ Err what) }
{
    if code == 0 {
        return Ok(Parts::End);
    }
    if code <= 240 {
        return spelled_out(bytes, usize::from(code));
    }
    if code <= 250 {
        return coded(code - 241, bytes);
    }
    if code <= 254 {
        return Err(RecordWhat::TagCode);
    }
    dated(bytes)
}

// The name that a code stands for.
fn coded_name(number: u8) -> &'static [u8]
    requires { number < 10 }
    ensures name { result.now ≡ slice_index_or coded_names number [] }
    ensures zero_free { IsZeroFree result.now }
{
    CODED_NAMES[usize::from(number)]
}

// A tag whose name has `len` bytes, behind the length.
fn spelled_out<'a>(bytes: &'a [u8], len: usize) -> Result<Parts<'a>, RecordWhat>
    ensures ok { IfOk result (IsParts (with_name (part_at is_tag_byte fault.TagName len bytes.now)) bytes.now) }
    ensures err { IfErr result (λ what. with_name (part_at is_tag_byte fault.TagName len bytes.now) ≡ Err what) }
{
    let name = name_part(bytes, len)?;
    let value = value_part(bytes.split_at(len).1)?;
    Ok(Parts::Named {
        name,
        value,
        used: len + 1 + value.len(),
    })
}

// A tag with one of the names that have a code, behind the code.
fn coded<'a>(number: u8, bytes: &'a [u8]) -> Result<Parts<'a>, RecordWhat>
    requires { number < 10 }
    ensures ok { IfOk result (IsParts (with_value (slice_index_or coded_names number []) (value_at bytes.now)) bytes.now) }
    ensures err { IfErr result (λ what. with_value (slice_index_or coded_names number []) (value_at bytes.now) ≡ Err what) }
{
    let value = value_part(bytes)?;
    Ok(Parts::Named {
        name: coded_name(number),
        value,
        used: 1 + value.len(),
    })
}

// A packed date, behind its code.
#[tactic(auto, unfolding(crate::specs::TagReading::date_at))]
fn dated<'a>(bytes: &'a [u8]) -> Result<Parts<'a>, RecordWhat>
    ensures ok { IfOk result (IsParts (date_at bytes.now) bytes.now) }
    ensures err { IfErr result (λ what. date_at bytes.now ≡ Err what) }
{
    let [a, b, c, ..] = bytes else {
        return Err(RecordWhat::Short);
    };
    let number = 65536 * u32::from(*a) + 256 * u32::from(*b) + u32::from(*c);
    let date = Date::of_number(number);
    if date.year <= 2047 && date.month <= 12 {
        Ok(Parts::Dated { date })
    } else {
        Err(RecordWhat::TagValue)
    }
}

// A name of `len` bytes. A byte that no name may have is told before an early end.
#[tactic(auto, unfolding(crate::specs::TagReading::part_at))]
fn name_part(bytes: &[u8], len: usize) -> Result<&[u8], RecordWhat>
    ensures ok { IfOk result (λ name. part_at is_tag_byte fault.TagName len bytes.now ≡ Ok (name.now, drop len bytes.now)) }
    ensures some { IfOk result (λ name. (length name.now ≡ len) × (len ≤ length bytes.now)) }
    ensures zero_free { IfOk result (λ name. IsZeroFree name.now) }
    ensures err { IfErr result (λ what. part_at is_tag_byte fault.TagName len bytes.now ≡ Err what) }
{
    let (there, _) = bytes.split_at(len.min(bytes.len()));
    if has_name_bytes_alone(there) {
        whole(there, len)
    } else {
        Err(RecordWhat::TagName)
    }
}

// A value behind its length.
#[tactic(auto, unfolding(crate::specs::TagReading::value_at))]
fn value_part(bytes: &[u8]) -> Result<&[u8], RecordWhat>
    ensures ok { IfOk result (λ value. value_at bytes.now ≡ Ok (value.now, drop (1 + length value.now) bytes.now)) }
    ensures some { IfOk result (λ value. 1 + length value.now ≤ length bytes.now) }
    ensures zero_free { IfOk result (λ value. IsZeroFree value.now) }
    ensures err { IfErr result (λ what. value_at bytes.now ≡ Err what) }
{
    match bytes {
        [] => Err(RecordWhat::Short),
        [len, behind @ ..] => counted(behind, usize::from(*len)),
    }
}

// A value of `len` bytes. A zero byte is told before an early end.
#[tactic(auto, unfolding(crate::specs::TagReading::part_at))]
fn counted(bytes: &[u8], len: usize) -> Result<&[u8], RecordWhat>
    ensures ok { IfOk result (λ value. part_at is_value_byte fault.TagValue len bytes.now ≡ Ok (value.now, drop len bytes.now)) }
    ensures some { IfOk result (λ value. (length value.now ≡ len) × (len ≤ length bytes.now)) }
    ensures zero_free { IfOk result (λ value. IsZeroFree value.now) }
    ensures err { IfErr result (λ what. part_at is_value_byte fault.TagValue len bytes.now ≡ Err what) }
{
    let (there, _) = bytes.split_at(len.min(bytes.len()));
    if has_value_bytes_alone(there) {
        whole(there, len)
    } else {
        Err(RecordWhat::TagValue)
    }
}

// The bytes that are there, if they are as many as are due.
fn whole(there: &[u8], len: usize) -> Result<&[u8], RecordWhat>
    ensures ok { IfOk result (λ part. (part.now ≡ there.now) × (len ≤ length there.now)) }
    ensures err { IfErr result (λ what. (what ≡ fault.Short) × (length there.now < len)) }
{
    if there.len() < len {
        Err(RecordWhat::Short)
    } else {
        Ok(there)
    }
}

fn has_name_bytes_alone(bytes: &[u8]) -> bool
    ensures all { result ≡ list_all is_tag_byte bytes.now }
    ensures zero_free { OnTrue result (IsZeroFree bytes.now) }
{
    bytes.iter().all(|byte| is_tag_byte(*byte))
}

fn has_value_bytes_alone(bytes: &[u8]) -> bool
    ensures all { result ≡ list_all is_value_byte bytes.now }
    ensures zero_free { OnTrue result (IsZeroFree bytes.now) }
{
    bytes.iter().all(|byte| *byte != 0)
}
