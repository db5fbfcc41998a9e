//! Edits of a head by the name and the value of a tag.
ghost use Rattle.std.specs.Prelude.{◌≡◌, ◌⊎◌, Ok, Err, IfOk, IfErr, OnOk, OnErr, length};
ghost use Rattle.cell_core.specs.Text.{IsZeroFree};
ghost use Rattle.game_tree.specs.Head.{IsBounded};
ghost use Rattle.game_tree.specs.Settle.{IsSettled, settled};
ghost use Rattle.game_tree.specs.TagName.{rating_of};
ghost use Rattle.game_tree.specs.TagEdit.{valued, eco_value, rating_with, rating_edit, rating_or_extra, named_edit, edit_of, IsEdit, edited};
ghost use Rattle.game_tree.specs.declared.tag_edit.TagEdit.TheVariants as edit;
ghost use Rattle.game_tree.specs.declared.tag_edit.TagEditError.TheVariants as fault;

use super::bounds::is_name;
use super::date::Date;
use super::decimal::read_decimal;
use super::eco::read_eco;
use super::head::{Head, Outcome, Rating, Tag, text_of};
use super::settling::{event_date_tag, set_dates, settle_head, settle_in_place};
use super::tag_name::{is_refused, is_tag_name, rating_of};
use cell_core::{Colour, Text};
use std::alloc::{AllocError, Global};
use thiserror::Error;

/// An edit of a head: one of its parts, as a tag of its name would set it. A rating has the kind that its tag's name
/// tells; a value of 0 takes it away.
#[derive(Debug, Drop)]
pub enum TagEdit {
    Event(Text),
    Site(Text),
    Date(Date),
    Round(Text),
    White(Text),
    Black(Text),
    Result(Outcome),
    WhiteRating(Rating),
    BlackRating(Rating),
    Eco(u16),
    EventDate(Date),
    Extra(Tag),
}

/// Why a name and a value are no edit of a head.
#[derive(Clone, Copy, Debug, Drop, PartialEq, Eq, PartialOrd, Ord, Hash, Error)]
pub enum TagEditError {
    /// The name is no tag name, or it is SetUp, Setup, FEN or ScidFlags, which no edit sets.
    #[error("a tag that cannot be set")]
    Name,
    /// The value is not one of the name: above 255 bytes, with a zero byte, or of another form than the name asks.
    #[error("a value that the tag cannot have")]
    Value,
    /// Memory was refused.
    #[error("out of memory")]
    Memory,
}

impl From<AllocError> for TagEditError {
    ghost from_gives = { λ _ error. error ≡ fault.Memory };

    fn from(_refused: AllocError) -> TagEditError {
        TagEditError::Memory
    }
}

impl TagEdit {
    /// The edit that a name and a value are. The names are those of the roster (PGN standard, section 8.1.1), of ratings
    /// (as `WhiteElo`), ECO, EventDate, and those of extra tags. A date reads as `Date::read` tells, a result as
    /// `Outcome::read`, an opening code as `read_eco` or is empty, which is none, and a rating is a number of at most
    /// 4095. Every value has at most 255 bytes, none of them zero.
    #[tactic(auto, using(crate::proofs::TagEditLemmas::reading))]
    pub fn read(alloc: Global, name: &[u8], value: &[u8]) -> Result<TagEdit, TagEditError>
        ensures ok { IfOk result (λ edit. edit_of name.now value.now ≡ Ok edit) }
        ensures err { IfErr result (λ error. (edit_of name.now value.now ≡ Err error) ⊎ (error ≡ fault.Memory)) }
        ensures bounds { IfOk result (λ edit. IsEdit edit) }
    {
        read_edit(alloc, name, value)
    }
}

/// Changes the head by an edit and settles it. A value of an extra tag that is empty removes all tags of its name; another
/// takes the place of the first of its name, or comes last. It fails only for want of memory, and then the head is as
/// before.
#[tactic(auto, using(crate::proofs::TagEditLemmas::editing))]
pub fn apply(alloc: Global, head: &mut Head, edit: &TagEdit) -> Result<(), AllocError>
    requires head { IsBounded head.old }
    requires edit { IsEdit edit.now }
    ensures ok { OnOk result (head.new ≡ edited head.old edit.now) }
    ensures err { OnErr result (head.new ≡ head.old) }
    ensures bounds { IsBounded head.new }
    ensures settled { OnOk result (IsSettled head.new) }
{
    change(alloc, head, edit)?;
    Ok(())
}

// The edit, without its laws.
#[tactic(auto, unfolding(crate::specs::TagEdit::edit_of))]
fn read_edit(alloc: Global, name: &[u8], value: &[u8]) -> Result<TagEdit, TagEditError>
    ensures ok { IfOk result (λ edit. edit_of name.now value.now ≡ Ok edit) }
    ensures err { IfErr result (λ error. (edit_of name.now value.now ≡ Err error) ⊎ (error ≡ fault.Memory)) }
{
    if is_refused(name) || !is_tag_name(name) {
        return Err(TagEditError::Name);
    }
    if !is_name(value) {
        return Err(TagEditError::Value);
    }
    read_named(alloc, name, value)
}

// The edit of a name that may be set, by a value that may be a tag's.
#[tactic(auto, unfolding(crate::specs::TagEdit::named_edit))]
fn read_named(alloc: Global, name: &[u8], value: &[u8]) -> Result<TagEdit, TagEditError>
    requires name { IsZeroFree name.now }
    requires value { IsZeroFree value.now }
    ensures ok { IfOk result (λ edit. named_edit name.now value.now ≡ Ok edit) }
    ensures err { IfErr result (λ error. (named_edit name.now value.now ≡ Err error) ⊎ (error ≡ fault.Memory)) }
{
    if name == b"Event".as_slice() {
        return Ok(TagEdit::Event(text_of(alloc, value)?));
    }
    if name == b"Site".as_slice() {
        return Ok(TagEdit::Site(text_of(alloc, value)?));
    }
    if name == b"Round".as_slice() {
        return Ok(TagEdit::Round(text_of(alloc, value)?));
    }
    if name == b"White".as_slice() {
        return Ok(TagEdit::White(text_of(alloc, value)?));
    }
    if name == b"Black".as_slice() {
        return Ok(TagEdit::Black(text_of(alloc, value)?));
    }
    if name == b"Date".as_slice() {
        return Ok(TagEdit::Date(Date::read(value).ok_or(TagEditError::Value)?));
    }
    if name == b"EventDate".as_slice() {
        return Ok(TagEdit::EventDate(Date::read(value).ok_or(TagEditError::Value)?));
    }
    if name == b"Result".as_slice() {
        return Ok(TagEdit::Result(Outcome::read(value).ok_or(TagEditError::Value)?));
    }
    if name == b"ECO".as_slice() {
        return Ok(TagEdit::Eco(eco_value(value).ok_or(TagEditError::Value)?));
    }
    match rating_of(name) {
        Some((side, kind)) => {
            let number = read_decimal(value, 4095).ok_or(TagEditError::Value)?;
            Ok(rating_edit(side, kind, number as u16))
        }
        None => Ok(TagEdit::Extra(Tag {
            name: text_of(alloc, name)?,
            value: text_of(alloc, value)?,
        })),
    }
}

// The number of an opening code; an empty text takes the code away.
fn eco_value(text: &[u8]) -> Option<u16>
    ensures { result ≡ eco_value text.now }
{
    if text.is_empty() {
        Some(0)
    } else {
        read_eco(text)
    }
}

// The edit of a side's rating.
fn rating_edit(side: Colour, kind: u8, number: u16) -> TagEdit
    ensures { result ≡ rating_edit side kind number }
{
    let kind = if number == 0 { 0 } else { kind };
    let rating = Rating {
        value: number,
        kind,
    };
    match side {
        Colour::White => TagEdit::WhiteRating(rating),
        Colour::Black => TagEdit::BlackRating(rating),
    }
}

// The change, without its laws. Settling asks only for the dates and the tags, so the head is settled before another part
// is set, and nothing is changed before memory was given.
#[tactic(auto, using(crate::proofs::TagEditLemmas::settling_apart))]
fn change(alloc: Global, head: &mut Head, edit: &TagEdit) -> Result<(), AllocError>
    ensures ok { OnOk result (head.new ≡ edited head.old edit.now) }
    ensures err { OnErr result (head.new ≡ head.old) }
{
    match edit {
        TagEdit::Date(date) => set_dates(alloc, head, *date, head.event_date)?,
        TagEdit::EventDate(date) => set_event_date(alloc, head, *date)?,
        TagEdit::Extra(tag) => set_tag(alloc, head, tag)?,
        TagEdit::Event(text) => head.event = settle_and_copy(alloc, head, text)?,
        TagEdit::Site(text) => head.site = settle_and_copy(alloc, head, text)?,
        TagEdit::Round(text) => head.round = settle_and_copy(alloc, head, text)?,
        TagEdit::White(text) => head.white = settle_and_copy(alloc, head, text)?,
        TagEdit::Black(text) => head.black = settle_and_copy(alloc, head, text)?,
        TagEdit::Result(outcome) => {
            settle_head(alloc, head)?;
            head.result = *outcome;
        }
        TagEdit::WhiteRating(rating) => {
            settle_head(alloc, head)?;
            head.white_rating = *rating;
        }
        TagEdit::BlackRating(rating) => {
            settle_head(alloc, head)?;
            head.black_rating = *rating;
        }
        TagEdit::Eco(number) => {
            settle_head(alloc, head)?;
            head.eco = *number;
        }
    }
    Ok(())
}

// Settles the head, and copies a text for it first.
fn settle_and_copy(alloc: Global, head: &mut Head, text: &Text) -> Result<Text, AllocError>
    ensures ok { OnOk result (head.new ≡ settled head.old) }
    ensures copy { IfOk result (λ copy. copy ≡ text.now) }
    ensures err { OnErr result (head.new ≡ head.old) }
{
    let copy = text.copied(alloc)?;
    settle_head(alloc, head)?;
    Ok(copy)
}

// Gives the head this event date in place of its own and of all tags EventDate, and settles it.
#[tactic(auto, using(crate::proofs::TagEditLemmas::event_date_alone))]
fn set_event_date(alloc: Global, head: &mut Head, date: Date) -> Result<(), AllocError>
    ensures ok { OnOk result (head.new ≡ edited head.old (edit.EventDate date)) }
    ensures err { OnErr result (head.new ≡ head.old) }
{
    if date.is_unknown() {
        head.tags.remove_named(b"EventDate");
        head.event_date = date;
        return Ok(());
    }
    set_dates(alloc, head, head.date, date)
}

// Sets an extra tag and settles the head.
#[tactic(auto, unfolding(crate::specs::Settle::settled))]
fn set_tag(alloc: Global, head: &mut Head, tag: &Tag) -> Result<(), AllocError>
    ensures ok { OnOk result (head.new ≡ edited head.old (edit.Extra tag.now)) }
    ensures err { OnErr result (head.new ≡ head.old) }
{
    let tag = tag.copied(alloc)?;
    if head.event_date.keeps_rule(head.date) {
        head.tags.set_named(alloc, tag)?;
        settle_in_place(head);
        return Ok(());
    }
    let last = event_date_tag(alloc, head.event_date)?;
    head.tags.set_and_replace(tag, last)?;
    head.event_date = Date::unknown();
    Ok(())
}
