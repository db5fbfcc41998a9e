//! The head of a game, from its tags.
ghost use Rattle.std.specs.Prelude.{◌≡◌, ◌++◌, ◌≤◌, ◌<◌, ◌^◌, All, IfOk, IfSome, OnOk, None, Some, codes, length, option_and_then, unwrap_or, if◌then◌else◌};
ghost use Rattle.game_tree.specs.TagList.{is_named};
ghost use Rattle.game_tree.specs.Eco.{eco_read};
ghost use Rattle.cell_core.specs.Text.{IsZeroFree};
ghost use Rattle.game_tree.specs.Date.{IsDate, date_read, unknown_date};
ghost use Rattle.game_tree.specs.declared.head.Outcome.TheVariants as outcome;
ghost use Rattle.game_tree.specs.Head.{IsName, IsRating, IsTag, IsBounded};
ghost use Rattle.game_tree.specs.Marks.{mark_letters};
ghost use Rattle.game_tree.specs.Settle.{IsSettled, settled};
ghost use Rattle.game_tree.specs.TagName.{free_of};
ghost use Rattle.pgn_read.specs.Field.{name_text};
ghost use Rattle.pgn_read.specs.Heads.{first_told, value_of, name_from, result_from, rating_told, rating_from, flags_of, has_letter, marks_of, all_marks, head_from, IsReadTag};

use crate::field::Name;
use crate::read_tag::ReadTag;
use cell_core::{Colour, Text};
use game_tree::{
    Date, Head, Outcome, Rating, Tag, Tags, mark_letters, read_decimal, read_eco, settle,
};
use std::alloc::{AllocError, Global};

// The greatest value of a rating.
const GREATEST_RATING: u64 = 4_095;

/// The head of a game with these tags and this end mark.
pub(crate) fn head_from(
    alloc: Global,
    tags: Vec<ReadTag>,
    mark: Option<Outcome>,
) -> Result<Head, AllocError>
    requires read { All IsReadTag tags.items }
    ensures head { IfOk result (λ head. head ≡ head_from tags.items mark) }
    ensures bounded { IfOk result (λ head. IsBounded head) }
    ensures settled { IfOk result (λ head. IsSettled head) }
{
    let mut head = head_told(alloc, tags, mark)?;
    settle(alloc, &mut head)?;
    Ok(head)
}

// The head before it is settled.
#[tactic(auto, unfolding(crate::specs::Heads::head_from))]
fn head_told(alloc: Global, tags: Vec<ReadTag>, mark: Option<Outcome>) -> Result<Head, AllocError>
    requires read { All IsReadTag tags.items }
    ensures head { IfOk result (λ head. settled head ≡ head_from tags.items mark) }
    ensures bounded { IfOk result (λ head. IsBounded head) }
{
    let flags = flags_of(alloc, tags.as_slice())?;
    let white = name_from(alloc, Name::White, tags.as_slice())?;
    let black = name_from(alloc, Name::Black, tags.as_slice())?;
    let event = name_from(alloc, Name::Event, tags.as_slice())?;
    let site = name_from(alloc, Name::Site, tags.as_slice())?;
    let round = name_from(alloc, Name::Round, tags.as_slice())?;
    let date = date_from(tags.as_slice());
    let result = result_from(mark, tags.as_slice());
    let white_rating = rating_from(Colour::White, tags.as_slice());
    let black_rating = rating_from(Colour::Black, tags.as_slice());
    let eco = eco_from(tags.as_slice());
    let tags = free_of(alloc, tags)?;
    Ok(Head {
        white,
        black,
        event,
        site,
        round,
        date,
        event_date: Date::unknown(),
        result,
        white_rating,
        black_rating,
        eco,
        marks: marks_told(flags.as_slice()),
        deleted: has_letter(flags.as_slice(), b'D'),
        tags,
    })
}

// The value of the first tag of this name.
fn value_of<'a>(name: Name, tags: &'a [ReadTag]) -> Option<&'a [u8]>
    requires read { All IsReadTag tags.now }
    ensures none { result ≡ None → value_of (name_text name) tags.now ≡ None }
    ensures some { IfSome result (λ value. value_of (name_text name) tags.now ≡ Some value.now) }
    ensures zero_free { IfSome result (λ value. IsZeroFree value.now) }
    ensures bounded { IfSome result (λ value. IsName value.now) }
{
    for tag in tags {
        if tag.is(name) {
            return Some(tag.value());
        }
    }
    None
}

// The name that this tag gives.
fn name_from(alloc: Global, name: Name, tags: &[ReadTag]) -> Result<Text, AllocError>
    requires read { All IsReadTag tags.now }
    ensures name { IfOk result (λ text. text ≡ name_from (name_text name) tags.now) }
    ensures bounded { IfOk result (λ text. IsName text) }
{
    match value_of(name, tags) {
        Some(value) => text_of(alloc, value),
        None => text_of(alloc, b"?"),
    }
}

/// A text of these bytes.
pub(crate) fn text_of(alloc: Global, bytes: &[u8]) -> Result<Text, AllocError>
    requires { IsZeroFree bytes.now }
    ensures { IfOk result (λ text. text ≡ bytes.now) }
{
    Ok(Text::from_zero_free(Vec::from_slice(alloc, bytes)?))
}

// The date of the game.
fn date_from(tags: &[ReadTag]) -> Date
    requires read { All IsReadTag tags.now }
    ensures date { result ≡ unwrap_or (option_and_then date_read (value_of (codes "Date") tags.now)) unknown_date }
    ensures bounded { IsDate result }
{
    match value_of(Name::Date, tags) {
        Some(value) => Date::read(value).unwrap_or(Date::unknown()),
        None => Date::unknown(),
    }
}

// The result of the game.
fn result_from(mark: Option<Outcome>, tags: &[ReadTag]) -> Outcome
    requires read { All IsReadTag tags.now }
    ensures outcome { result ≡ result_from (unwrap_or mark outcome.Unknown) tags.now }
{
    match mark {
        None => result_told(tags),
        Some(Outcome::Unknown) => result_told(tags),
        Some(outcome) => outcome,
    }
}

// The result that the tag tells.
fn result_told(tags: &[ReadTag]) -> Outcome
    requires read { All IsReadTag tags.now }
    ensures outcome { result ≡ result_from outcome.Unknown tags.now }
{
    match value_of(Name::Result, tags) {
        Some(value) => Outcome::read(value).unwrap_or(Outcome::Unknown),
        None => Outcome::Unknown,
    }
}

// The rating of a side.
fn rating_from(side: Colour, tags: &[ReadTag]) -> Rating
    ensures rating { result ≡ rating_from side tags.now }
    ensures bounded { IsRating result }
{
    for tag in tags {
        if let Some(rating) = rating_told(side, tag) {
            return rating;
        }
    }
    Rating { value: 0, kind: 0 }
}

// The rating of a side that a tag tells.
#[tactic(auto, unfolding(crate::specs::Heads::rating_told))]
fn rating_told(side: Colour, tag: &ReadTag) -> Option<Rating>
    ensures rating { result ≡ rating_told side tag.now }
    ensures bounded { IfSome result (λ rating. IsRating rating) }
{
    let (rated, kind) = tag.rating()?;
    if rated != side {
        return None;
    }
    let value = read_decimal(tag.value(), GREATEST_RATING)?;
    if value == 0 {
        return None;
    }
    Some(Rating {
        value: value as u16,
        kind,
    })
}

// The opening code.
fn eco_from(tags: &[ReadTag]) -> u16
    ensures eco { result ≡ unwrap_or (first_told (λ tag. if is_named (codes "ECO") tag then eco_read tag.value else None) tags.now) 0 }
    ensures bounded { result ≤ 65500 }
{
    for tag in tags {
        if let Some(eco) = eco_told(tag) {
            return eco;
        }
    }
    0
}

// The opening code that a tag tells.
fn eco_told(tag: &ReadTag) -> Option<u16>
    ensures eco { result ≡ (if is_named (codes "ECO") tag.now then eco_read tag.now.value else None) }
    ensures bounded { IfSome result (λ eco. eco ≤ 65500) }
{
    if !tag.is(Name::Eco) {
        return None;
    }
    read_eco(tag.value())
}

// The letters of all tags ScidFlags.
fn flags_of(alloc: Global, tags: &[ReadTag]) -> Result<Vec<u8>, AllocError>
    ensures flags { IfOk result (λ flags. flags.items ≡ flags_of tags.now) }
{
    let mut flags = Vec::new(alloc);
    for tag in tags {
        if tag.is(Name::ScidFlags) {
            flags.extend_from_slice(tag.value())?;
        }
    }
    Ok(flags)
}

// Whether a letter is among them.
fn has_letter(flags: &[u8], letter: u8) -> bool
    ensures letter { result ≡ has_letter flags.now letter }
{
    flags.iter().any(|flag| *flag == letter)
}

// The marks of these letters. Most games have none.
fn marks_told(flags: &[u8]) -> u32
    ensures marks { result ≡ marks_of flags.now mark_letters }
    ensures most { result ≤ all_marks mark_letters }
{
    if flags.is_empty() {
        0
    } else {
        marks_of(flags, mark_letters())
    }
}

// The marks of these letters, the first letter's bit being the lowest.
fn marks_of(flags: &[u8], letters: &[u8]) -> u32
    requires few { all_marks letters.now < 2 ^ 32 }
    ensures marks { result ≡ marks_of flags.now letters.now }
    ensures most { result ≤ all_marks letters.now }
{
    match letters {
        [] => 0,
        [letter, letters @ ..] => {
            u32::from(has_letter(flags, *letter)) + 2 * marks_of(flags, letters)
        }
    }
}

// The tags that no field of a head stands for.
fn free_of(alloc: Global, tags: Vec<ReadTag>) -> Result<Tags, AllocError>
    requires read { All IsReadTag tags.items }
    ensures free { IfOk result (λ free. free ≡ free_of tags.items) }
    ensures bounded { IfOk result (λ free. All IsTag free) }
{
    let free = extra_tags(alloc, tags)?;
    Ok(Tags::from_vec(free))
}

fn extra_tags(alloc: Global, tags: Vec<ReadTag>) -> Result<Vec<Tag>, AllocError>
    ensures free { IfOk result (λ free. free.items ≡ free_of tags.items) }
{
    let mut free = Vec::new(alloc);
    for tag in tags {
        if let Some(tag) = tag.into_extra() {
            free.push(tag)?;
        }
    }
    Ok(free)
}
