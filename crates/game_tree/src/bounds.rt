//! The bounds of heads and their parts.
ghost use Rattle.std.specs.Prelude.{◌≡◌, ◌↔◌, ◌==◌, not, All, IsTrue};
ghost use Rattle.std.specs.List.{list_all};
ghost use Rattle.cell_core.specs.Text.{IsZeroFree};
ghost use Rattle.game_tree.specs.Date.{IsDate};
ghost use Rattle.game_tree.specs.Head.{IsName, is_name, IsRating, IsTag, IsBounded};

use super::date::Date;
use super::head::{Head, Rating, Tag};
use super::tag_name::{is_reserved, is_tag_name};
use cell_core::is_zero_free;

impl Head {
    /// Whether each field is within its bounds:
    ///
    /// - names have at most 255 bytes;
    /// - years are at most 2047, months at most 12 and days at most 31;
    /// - ratings are at most 4095 and of the kinds 0 to 6;
    /// - an opening code is at most 65,500;
    /// - marks are below 2^18;
    /// - extra tags have names that are tag names and not reserved, and values of at most 255 bytes.
    pub fn is_bounded(&self) -> bool
        ensures bounded { IsTrue result ↔ IsBounded self.now }
    {
        is_name(self.white.as_bytes())
            && is_name(self.black.as_bytes())
            && is_name(self.event.as_bytes())
            && is_name(self.site.as_bytes())
            && is_name(self.round.as_bytes())
            && self.date.is_bounded()
            && self.event_date.is_bounded()
            && self.white_rating.is_bounded()
            && self.black_rating.is_bounded()
            && self.eco <= 65_500
            && self.marks < 1 << 18
            && are_bounded(self.tags.as_slice())
    }
}

impl Date {
    /// Whether the year is at most 2047, the month at most 12 and the day at most 31.
    pub fn is_bounded(&self) -> bool
        ensures bounded { IsTrue result ↔ IsDate self.now }
    {
        self.year <= 2047 && self.month <= 12 && self.day <= 31
    }
}

impl Rating {
    /// Whether the value is at most 4095 and the kind at most 6, and 0 if the value is 0.
    pub fn is_bounded(&self) -> bool
        ensures bounded { IsTrue result ↔ IsRating self.now }
    {
        self.value <= 4095 && self.kind <= 6 && (self.value > 0 || self.kind == 0)
    }
}

impl Tag {
    /// Whether the name is a tag name and not reserved, and the value has at most 255 bytes.
    pub fn is_bounded(&self) -> bool
        ensures bounded { IsTrue result ↔ IsTag self.now }
    {
        is_tag_name(self.name.as_bytes())
            && !is_reserved(self.name.as_bytes())
            && is_name(self.value.as_bytes())
    }
}

/// Whether these bytes can be a name or a tag's value: at most 255 bytes, none of them zero.
pub fn is_name(name: &[u8]) -> bool
    ensures bounded { IsTrue result ↔ IsName name.now }
    ensures test { result ≡ is_name name.now }
{
    name.len() <= 255 && has_text_bytes_alone(name)
}

// The same test as `is_zero_free`, with its answer by computing too.
fn has_text_bytes_alone(name: &[u8]) -> bool
    ensures each { IsTrue result ↔ IsZeroFree name.now }
    ensures all { result ≡ list_all (λ byte. not (byte == 0)) name.now }
{
    is_zero_free(name)
}

/// Whether each of these tags is within the bounds of extra tags.
pub fn are_bounded(tags: &[Tag]) -> bool
    ensures bounded { IsTrue result ↔ All IsTag tags.now }
{
    tags.iter().all(|tag| tag.is_bounded())
}
