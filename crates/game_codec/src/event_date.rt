//! The event date that a record's tags give.
ghost use Rattle.std.specs.Prelude.{◌≡◌, ◌<◌, ℕ, [], List, IfSome, IsTrue, MatchOption};
ghost use Rattle.game_tree.specs.Game.{GameTree};
ghost use Rattle.game_tree.specs.Date.{IsDate, is_near};
ghost use Rattle.game_tree.specs.Settle.{first_near_date, near_date};
ghost use Rattle.game_tree.specs.declared.head.Tag.{Tag as TagValue};
ghost use Rattle.game_codec.specs.Record.{IsRecord};
ghost use Rattle.game_codec.specs.TagDates.{IsTagDate};
ghost use Rattle.game_codec.specs.TagReading.{BeginsTags};

use super::tags::{Parts, next_parts};
use game_tree::Date;

/// The first date that an extra tag EventDate of a record gives, of those within the rule of event dates for a game of this date. It
/// takes no memory.
pub fn event_date_in(bytes: &[u8], game: Date) -> Option<Date>
    ensures first { (tags : List TagValue) (tree : GameTree) → IsRecord bytes.now tags tree → result ≡ first_near_date game tags }
    ensures near { IfSome result (λ date. IsDate date × IsTrue (is_near date game)) }
{
    let mut rest = bytes;
    'tags: loop {
        match next_date(rest, game) {
            None => return None,
            Some(tag) => {
                if tag.date.is_some() {
                    return tag.date;
                }
                rest = rest.split_at(tag.used).1;
            }
        }
    }
}

// The event date that a tag gives, and how many bytes the tag takes.
#[derive(Clone, Copy, Debug, Drop)]
struct TagDate {
    date: Option<Date>,
    used: usize,
}

// The date of the next tag. There is no next one at the zero byte that ends the tags, and if the bytes begin with no tag.
fn next_date(bytes: &[u8], game: Date) -> Option<TagDate>
    ensures next { MatchOption result ((tags : List TagValue) (behind : List ℕ) → BeginsTags bytes.now tags behind → tags ≡ []) (λ tag. IsTagDate game bytes.now tag.date tag.used) }
    ensures near { IfSome result (λ tag. IfSome tag.date (λ date. IsDate date × IsTrue (is_near date game))) }
{
    match next_parts(bytes) {
        Ok(Parts::Named { name, value, used }) => Some(TagDate {
            date: named_date(name, value, game),
            used: 1 + used,
        }),
        Ok(Parts::Dated { date }) => Some(TagDate {
            date: named_date(b"EventDate", date.text().as_slice(), game),
            used: 4,
        }),
        Ok(Parts::End) => None,
        Err(_) => None,
    }
}

// The date within the rule that a tag of this name and value gives.
#[tactic(auto, unfolding(game_tree::specs::Settle::near_date))]
fn named_date(name: &[u8], value: &[u8], game: Date) -> Option<Date>
    ensures near { IfSome result (λ date. IsDate date × IsTrue (is_near date game)) }
    ensures exact { result ≡ near_date game (record { name = name.now; value = value.now }) }
{
    if name != b"EventDate".as_slice() {
        return None;
    }
    let date = Date::read(value)?;
    if date.is_near(game) { Some(date) } else { None }
}
