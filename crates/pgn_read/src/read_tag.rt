//! Tags that were read.
ghost use Rattle.std.specs.Prelude.{◌≡◌, ◌≤◌, ◌&&◌, IfOk, IfSome, MatchOption, true, false};
ghost use Rattle.std.specs.Bool.{OnTrue};
ghost use Rattle.cell_core.specs.Text.{IsZeroFree};
ghost use Rattle.game_tree.specs.TagList.{is_named};
ghost use Rattle.game_tree.specs.TagName.{is_among, roster_names, rating_of, is_reserved};
ghost use Rattle.pgn_read.specs.Field.{name_text, name_of, IsField};
ghost use Rattle.pgn_read.specs.Reading.{has_tag};

use crate::field::{Field, Name};
use crate::heads::text_of;
use cell_core::{Colour, Text};
use game_tree::Tag;
use std::alloc::{AllocError, Global};
use std::marker::Model;

/// A tag that was read. Its name is compared once, and kept only if the field does not tell it.
#[derive(Drop)]
pub(crate) struct ReadTag {
    field: Field,
    extra: Text,
    value: Text,
}

impl Model for ReadTag {
    ghost use Rattle.game_tree.specs.declared.head.Tag.{Tag};
    ghost use Rattle.pgn_read.specs.Field.{name_of, IsField};

    ghost Value = { Tag };

    ghost view = { λ t. record { name = name_of t.field t.extra; value = t.value } };

    ghost invariant = { λ t. IsField t.field t.extra };
}

impl ReadTag {
    /// The tag of this name and value.
    pub(crate) fn new(alloc: Global, name: &[u8], value: Vec<u8>) -> Result<ReadTag, AllocError>
        requires name { IsZeroFree name.now }
        requires value { IsZeroFree value.items }
        ensures tag { IfOk result (λ tag. tag ≡ record { name = name.now; value = value.items }) }
    {
        let field = Field::of(name);
        let extra = extra_of(alloc, field, name)?;
        let value = Text::from_zero_free(value);
        Ok(ReadTag {
            field,
            extra,
            value,
        })
    }

    /// The value.
    pub(crate) fn value(&self) -> &[u8]
        ensures value { result.now ≡ self.now.value }
        ensures zero_free { IsZeroFree self.now.value }
    {
        self.value.as_bytes()
    }

    /// Whether the tag has this name.
    #[tactic(auto, using(crate::proofs::FieldLaws::text_by_field))]
    pub(crate) fn is(&self, name: Name) -> bool
        ensures named { result ≡ is_named (name_text name) self.now }
        ensures text { OnTrue result (self.now.name ≡ name_text name) }
    {
        self.field.is(name)
    }

    /// The side and the kind of the rating that the tag is.
    #[tactic(auto, using(crate::proofs::FieldLaws::rating_by_field))]
    pub(crate) fn rating(&self) -> Option<(Colour, u8)>
        ensures rating { result ≡ rating_of self.now.name }
        ensures kind { IfSome result (λ rating. rating.1 ≤ 6) }
    {
        self.field.rating()
    }

    /// Whether it is a tag of the roster, and one of the tags has its name already.
    #[tactic(auto, using(crate::proofs::FieldLaws::roster_by_field))]
    pub(crate) fn repeats(&self, tags: &[ReadTag]) -> bool
        ensures repeats { result ≡ (is_among roster_names self.now.name && has_tag self.now.name tags.now) }
    {
        match self.field {
            Field::Own(own) => own.is_roster() && has_tag(own, tags),
            Field::Rating(..) | Field::Extra => false,
        }
    }

    /// The tag, if it is an extra one.
    #[tactic(auto, using(crate::proofs::FieldLaws::own_reserved, crate::proofs::FieldLaws::rating_is_reserved))]
    pub(crate) fn into_extra(self) -> Option<Tag>
        ensures extra { MatchOption result (is_reserved self.name ≡ true) (λ tag. (tag ≡ self) × (is_reserved self.name ≡ false)) }
    {
        let ReadTag {
            field,
            extra,
            value,
        } = self;
        match field {
            Field::Extra => Some(Tag { name: extra, value }),
            Field::Own(_) | Field::Rating(..) => None,
        }
    }
}

// What is kept of a name that tells this field.
fn extra_of(alloc: Global, field: Field, name: &[u8]) -> Result<Text, AllocError>
    requires zero_free { IsZeroFree name.now }
    requires field { IsField field name.now }
    ensures name { IfOk result (λ extra. name_of field extra ≡ name_of field name.now) }
    ensures field { IfOk result (λ extra. IsField field extra) }
{
    match field {
        Field::Extra => text_of(alloc, name),
        Field::Own(_) | Field::Rating(..) => Ok(Text::new(alloc)),
    }
}

// Whether one of the tags has this name.
fn has_tag(name: Name, tags: &[ReadTag]) -> bool
    ensures { result ≡ has_tag (name_text name) tags.now }
{
    tags.iter().any(|tag| tag.is(name))
}
