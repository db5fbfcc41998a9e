//! Where the date of an event stands.
ghost use Rattle.std.specs.Prelude.{◌≡◌, IfOk, OnOk, OnErr, IsTrue};
ghost use Rattle.game_tree.specs.Head.{IsBounded};
ghost use Rattle.game_tree.specs.Date.{keeps_rule};
ghost use Rattle.game_tree.specs.Settle.{near_date, first_near_date, event_date_tag, with_dates, settled, IsSettled};

use super::date::Date;
use super::head::{Head, Tag, text_of};
use super::tags::is_named;
use std::alloc::{AllocError, Global};

/// Settles where the date of the event stands. A date is within the rule if its year is known and differs by at most 3
/// from the known year of the game.
///
/// - An event date within the rule removes all tags named EventDate.
/// - An event date outside of it becomes unknown. A tag EventDate with its text, as the last tag, takes the place of
///   all of that name.
/// - Without an event date, the first tag EventDate that reads as a date within the rule becomes the event date, and
///   all of that name go.
///
/// A head that was settled stays as it is. It fails only for want of memory, and then the head is as before.
#[tactic(auto, using(crate::proofs::SettleLemmas::settling))]
pub fn settle(alloc: Global, head: &mut Head) -> Result<(), AllocError>
    requires { IsBounded head.old }
    ensures ok { OnOk result (head.new ≡ settled head.old) }
    ensures err { OnErr result (head.new ≡ head.old) }
    ensures bounds { IsBounded head.new }
    ensures rule { OnOk result (IsTrue (keeps_rule head.new.event_date head.new.date)) }
    ensures settled { OnOk result (IsSettled head.new) }
{
    settle_head(alloc, head)?;
    Ok(())
}

// The same, without its laws.
pub(crate) fn settle_head(alloc: Global, head: &mut Head) -> Result<(), AllocError>
    ensures ok { OnOk result (head.new ≡ settled head.old) }
    ensures err { OnErr result (head.new ≡ head.old) }
{
    set_dates(alloc, head, head.date, head.event_date)
}

// Gives a head these dates and settles it. All memory is taken before it changes.
#[tactic(auto, unfolding(crate::specs::Settle::settled))]
pub(crate) fn set_dates(
    alloc: Global,
    head: &mut Head,
    date: Date,
    event_date: Date,
) -> Result<(), AllocError>
    ensures ok { OnOk result (head.new ≡ settled (with_dates head.old date event_date)) }
    ensures err { OnErr result (head.new ≡ head.old) }
{
    if event_date.keeps_rule(date) {
        head.date = date;
        head.event_date = event_date;
        settle_in_place(head);
        return Ok(());
    }
    let tag = event_date_tag(alloc, event_date)?;
    head.tags.replace_named(tag)?;
    head.date = date;
    head.event_date = Date::unknown();
    Ok(())
}

// Settles a head whose event date keeps the rule, which takes no memory.
#[tactic(auto, unfolding(crate::specs::Settle::settled))]
pub(crate) fn settle_in_place(head: &mut Head)
    requires { IsTrue (keeps_rule head.old.event_date head.old.date) }
    ensures { head.new ≡ settled head.old }
{
    if head.event_date.is_near(head.date) {
        head.tags.remove_named(b"EventDate");
    } else if let Some(date) = first_near_date(head.tags.as_slice(), head.date) {
        head.tags.remove_named(b"EventDate");
        head.event_date = date;
    }
}

// The tag EventDate with the text of this date.
pub(crate) fn event_date_tag(alloc: Global, date: Date) -> Result<Tag, AllocError>
    ensures { IfOk result (λ tag. tag ≡ event_date_tag date) }
{
    let name = text_of(alloc, b"EventDate")?;
    let value = text_of(alloc, &date.text())?;
    Ok(Tag { name, value })
}

// The first date within the rule that a tag EventDate reads as.
fn first_near_date(tags: &[Tag], game: Date) -> Option<Date>
    ensures { result ≡ first_near_date game tags.now }
{
    for tag in tags {
        if let Some(date) = near_date(tag, game) {
            return Some(date);
        }
    }
    None
}

// The date within the rule that this tag gives, if it is named EventDate.
#[tactic(auto, unfolding(crate::specs::Settle::near_date))]
fn near_date(tag: &Tag, game: Date) -> Option<Date>
    ensures { result ≡ near_date game tag.now }
{
    if !is_named(tag, b"EventDate") {
        return None;
    }
    let date = Date::read(tag.value.as_bytes())?;
    if date.is_near(game) { Some(date) } else { None }
}
