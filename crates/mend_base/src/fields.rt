//! What an entry says of a game if a field of it stands for nothing.
ghost use Rattle.std.specs.Prelude.{◌≡◌, Option};
ghost use Rattle.index_entry.specs.Entry.{IsEntry, entry_in, event_date_of, fault_in};
ghost use Rattle.mend_base.specs.Fields.{date_known, eco_known, event_date_known, known_in, rating_known};

use game_tree::{Date, Rating};
use index_entry::{
    ENTRY_LEN, Entry, EntryFault, black_in, black_rating_in, comments_in, date_in, eco_in,
    event_in, has_own_start_in, has_promotion_in, has_underpromotion_in, home_count_in, home_in,
    is_deleted_in, marks_in, material_in, nags_in, outcome_in, place_of, plies_in, round_in,
    site_in, unpack, variations_in, white_in, white_rating_in,
};

/// What an entry says without what stands for nothing in it, and the first fault of its fields.
#[derive(Clone, Copy, Drop)]
pub(crate) struct Said {
    pub(crate) entry: Entry,
    pub(crate) fault: Option<EntryFault>,
}

/// What these bytes say of a game, whatever they are.
pub(crate) fn said_by(packed: &[u8; ENTRY_LEN]) -> Said
    ensures entry { result.entry ≡ known_in packed.now }
    ensures fault { result.fault ≡ fault_in packed.now }
    ensures fields { IsEntry result.entry }
{
    match unpack(packed) {
        Ok(entry) => Said { entry, fault: None },
        Err(fault) => Said {
            entry: known_entry(packed),
            fault: Some(fault),
        },
    }
}

// The entry of these bytes without what stands for nothing.
#[tactic(auto, unfolding(crate::specs::Fields::known_in, crate::specs::Fields::without_faults))]
fn known_entry(b: &[u8; ENTRY_LEN]) -> Entry
    ensures known { result ≡ known_in b.now }
{
    let (offset, len) = place_of(b);
    let date = date_in(b);
    Entry {
        offset,
        len,
        own_start: has_own_start_in(b),
        promo: has_promotion_in(b),
        under: has_underpromotion_in(b),
        deleted: is_deleted_in(b),
        marks: marks_in(b),
        white: white_in(b),
        black: black_in(b),
        event: event_in(b),
        site: site_in(b),
        round: round_in(b),
        vars: variations_in(b),
        comments: comments_in(b),
        nags: nags_in(b),
        result: outcome_in(b),
        eco: eco_known(eco_in(b)),
        date: date_known(date),
        event_date: event_date_known(date, event_date_in(b)),
        white_rating: rating_known(white_rating_in(b)),
        black_rating: rating_known(black_rating_in(b)),
        material: material_in(b),
        plies: plies_in(b),
        home_count: home_count_in(b),
        home: home_in(b),
    }
}

// An ECO code, or none.
fn eco_known(eco: u16) -> u16
    ensures known { result ≡ eco_known eco }
{
    if 65_500 < eco { 0 } else { eco }
}

// A date, or the unknown one.
fn date_known(date: Date) -> Date
    ensures known { result ≡ date_known date }
{
    if 12 < date.month {
        Date::unknown()
    } else {
        date
    }
}

// An event's date beside that of the game, or the unknown one.
fn event_date_known(game: Date, event: Date) -> Date
    ensures known { result ≡ event_date_known game event }
{
    if 12 < game.month || 12 < event.month {
        Date::unknown()
    } else {
        event
    }
}

// A rating, or none.
fn rating_known(rating: Rating) -> Rating
    ensures known { result ≡ rating_known rating }
{
    if 6 < rating.kind {
        Rating { value: 0, kind: 0 }
    } else {
        rating
    }
}

// The event's date in the bytes of an entry, whatever its month is.
#[tactic(auto, using(crate::proofs::FieldLaws::event_code_read, crate::proofs::FieldLaws::event_month_read, crate::proofs::FieldLaws::event_day_read), unfolding(index_entry::specs::Entry::entry_in))]
fn event_date_in(b: &[u8; ENTRY_LEN]) -> Date
    ensures date { result ≡ (entry_in b.now).event_date }
{
    event_date_of(
        date_in(b).year,
        b[25] / 32,
        b[25] / 2 % 16,
        b[25] % 2 * 16 + b[26] / 16,
    )
}

// The event's date by its distance from the year of the game, its month and its day.
fn event_date_of(game_year: u16, code: u8, month: u8, day: u8) -> Date
    ensures date { result ≡ event_date_of game_year code month day }
{
    let sum = u32::from(game_year) + u32::from(code);
    if code == 0 || game_year == 0 || sum <= 4 || 2052 <= sum {
        return Date::unknown();
    }
    Date {
        year: (sum - 4) as u16,
        month,
        day,
    }
}
