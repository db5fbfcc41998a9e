//! Heads of games and their parts.
ghost use Rattle.std.specs.Prelude.{◌≡◌, [], IfOk};
ghost use Rattle.cell_core.specs.Text.{IsZeroFree};

use super::date::Date;
use super::tags::Tags;
use cell_core::Text;
use std::alloc::{AllocError, Global};

/// The result of a game.
#[derive(Clone, Copy, Debug, Default, PartialEq, Eq, PartialOrd, Ord, Hash)]
pub enum Outcome {
    #[default]
    Unknown,
    White,
    Black,
    Draw,
}

/// A player's rating: a value of at most 4095, where 0 is no rating, and its kind: 0 Elo, 1 Rating, 2 Rapid, 3 ICCF,
/// 4 USCF, 5 DWZ, 6 ECF. No rating has the kind 0.
#[derive(Clone, Copy, Debug, Default, PartialEq, Eq, PartialOrd, Ord, Hash)]
pub struct Rating {
    pub value: u16,
    pub kind: u8,
}

/// A tag that no field of a head stands for (PGN standard, section 8.1).
#[derive(Debug, Drop)]
pub struct Tag {
    pub name: Text,
    pub value: Text,
}

impl Tag {
    /// A tag of the same texts. It fails only for want of memory.
    pub fn copied(&self, alloc: Global) -> Result<Tag, AllocError>
        ensures same { IfOk result (λ tag. tag ≡ self.now) }
    {
        let name = self.name.copied(alloc)?;
        let value = self.value.copied(alloc)?;
        Ok(Tag { name, value })
    }
}

/// The head of a game: its names written out, its dates, result, ratings, opening code, marks and extra tags.
/// `marks` has the twelve user marks in bits 0 to 11 and the six custom marks in bits 12 to 17.
#[derive(Debug, Drop)]
pub struct Head {
    pub white: Text,
    pub black: Text,
    pub event: Text,
    pub site: Text,
    pub round: Text,
    pub date: Date,
    pub event_date: Date,
    pub result: Outcome,
    pub white_rating: Rating,
    pub black_rating: Rating,
    pub eco: u16,
    pub marks: u32,
    pub deleted: bool,
    pub tags: Tags,
}

impl Head {
    ghost use Rattle.game_tree.specs.Head.{head_of, without_tags, HasTexts};

    /// The head of these fields and these tags. It fails only for want of memory.
    pub fn of(alloc: Global, fields: HeadRef<'_>, tags: Tags) -> Result<Head, AllocError>
        requires texts { HasTexts fields }
        ensures head { IfOk result (λ head. head ≡ head_of fields.entry tags) }
    {
        Ok(Head {
            white: text_of(alloc, fields.white)?,
            black: text_of(alloc, fields.black)?,
            event: text_of(alloc, fields.event)?,
            site: text_of(alloc, fields.site)?,
            round: text_of(alloc, fields.round)?,
            date: fields.date,
            event_date: fields.event_date,
            result: fields.result,
            white_rating: fields.white_rating,
            black_rating: fields.black_rating,
            eco: fields.eco,
            marks: fields.marks,
            deleted: fields.deleted,
            tags,
        })
    }

    /// The head without its tags.
    pub fn fields(&self) -> HeadRef<'_>
        ensures fields { head_of result self.now.tags ≡ self.now }
        ensures without_tags { head_of result [] ≡ without_tags self.now }
        ensures texts { HasTexts result }
    {
        HeadRef {
            white: self.white.as_bytes(),
            black: self.black.as_bytes(),
            event: self.event.as_bytes(),
            site: self.site.as_bytes(),
            round: self.round.as_bytes(),
            date: self.date,
            event_date: self.event_date,
            result: self.result,
            white_rating: self.white_rating,
            black_rating: self.black_rating,
            eco: self.eco,
            marks: self.marks,
            deleted: self.deleted,
        }
    }
}

/// A head without its tags, over names that stand elsewhere.
#[derive(Clone, Copy, Debug)]
pub struct HeadRef<'a> {
    pub white: &'a [u8],
    pub black: &'a [u8],
    pub event: &'a [u8],
    pub site: &'a [u8],
    pub round: &'a [u8],
    pub date: Date,
    pub event_date: Date,
    pub result: Outcome,
    pub white_rating: Rating,
    pub black_rating: Rating,
    pub eco: u16,
    pub marks: u32,
    pub deleted: bool,
}

// A text of these bytes.
pub(crate) fn text_of(alloc: Global, bytes: &[u8]) -> Result<Text, AllocError>
    requires { IsZeroFree bytes.now }
    ensures { IfOk result (λ text. text ≡ bytes.now) }
{
    Ok(Text::from_zero_free(Vec::from_slice(alloc, bytes)?))
}
