//! An entry from its 47 bytes.
ghost use Rattle.std.specs.Prelude.{◌≡◌, ◌≤◌, ◌<◌, ◌+◌, ◌*◌, ◌^◌, map, slice_index, IfOk};
ghost use Rattle.std.specs.List.{range_with_len};
ghost use Rattle.byteorder.specs.Endian.{big_from};
ghost use Rattle.index_entry.specs.Entry.{IsEntry, entry_in, entry_read};
ghost use Rattle.index_entry.specs.Reading.{outcome_at, eco_at, event_at, dates_at, rating_at, material_at, home_at, entry_at};

use crate::{Entry, EntryFault};
use byteorder::{BigEndian, ByteOrder};
use game_tree::{Date, Outcome, Rating};

/// What the 47 bytes of an entry say.
///
/// # Errors
///
/// The first of `Result`, `Eco`, `Date` and `Rating` that the bytes give rise to.
pub fn unpack(b: &[u8; 47]) -> Result<Entry, EntryFault>
    // The entry that the bits at each field's places spell, or the first fault.
    ensures exact { result ≡ entry_read b.now }
    // What is read can be written.
    ensures sound { IfOk result IsEntry }
{
    read_entry(b)
}

/// Where the record of an entry begins in the games file, and its length, whatever the other fields say.
pub fn place_of(b: &[u8; 47]) -> (u32, u32)
    ensures offset { result.0 ≡ (entry_in b.now).offset }
    ensures len { result.1 ≡ (entry_in b.now).len }
{
    (quad(b, 0), split(b[6] / 128, word(b, 4)))
}

#[tactic(auto, unfolding(crate::specs::Reading::entry_at, crate::specs::Reading::fields_at))]
fn read_entry(b: &[u8; 47]) -> Result<Entry, EntryFault>
    ensures { result ≡ entry_at b.now }
{
    let result = outcome_of(b[21] / 16)?;
    let eco = eco_of(word(b, 23))?;
    let (date, event_date) = dates_of(quad(b, 25))?;
    let white_rating = rating_of(word(b, 29))?;
    let black_rating = rating_of(word(b, 31))?;
    let flags = word(b, 7);
    Ok(Entry {
        offset: quad(b, 0),
        len: split(b[6] / 128, word(b, 4)),
        own_start: flags % 2 == 1,
        promo: flags / 2 % 2 == 1,
        under: flags / 4 % 2 == 1,
        deleted: flags / 8 % 2 == 1,
        marks: u32::from(b[6] % 64) * 4096 + u32::from(flags / 16),
        white: split(b[9] / 16, word(b, 10)),
        black: split(b[9] % 16, word(b, 12)),
        event: split(b[14] / 32, word(b, 15)),
        site: split(b[14] / 4 % 8, word(b, 17)),
        round: split(b[14] % 4, word(b, 19)),
        vars: b[22] % 16,
        comments: b[22] / 16,
        nags: b[21] % 16,
        result,
        eco,
        date,
        event_date,
        white_rating,
        black_rating,
        material: material_of(b[34], b[35], b[36]),
        plies: u16::from(b[38] / 64) * 256 + u16::from(b[37]),
        home_count: b[38] % 64,
        home: home_of(b),
    })
}

// The byte at a place.
pub(crate) fn byte_at(b: &[u8; 47], at: usize) -> u8
    requires { at < 47 }
    ensures { result ≡ slice_index b.now at }
{
    b[at]
}

// The number of the two bytes at a place.
pub(crate) fn word(b: &[u8; 47], at: usize) -> u16
    requires { at ≤ 45 }
    ensures { result ≡ big_from at 2 b.now }
{
    BigEndian::read_u16(&b[at..])
}

// The number of the four bytes at a place.
pub(crate) fn quad(b: &[u8; 47], at: usize) -> u32
    requires { at ≤ 43 }
    ensures { result ≡ big_from at 4 b.now }
{
    BigEndian::read_u32(&b[at..])
}

// The number of the eight bytes at a place.
pub(crate) fn octet(b: &[u8; 47], at: usize) -> u64
    requires { at ≤ 39 }
    ensures { result ≡ big_from at 8 b.now }
{
    BigEndian::read_u64(&b[at..])
}

// A number of more than sixteen bits.
pub(crate) fn split(high: u8, low: u16) -> u32
    ensures { result ≡ high * 65536 + low }
{
    u32::from(high) * 65_536 + u32::from(low)
}

#[tactic(auto, unfolding(crate::specs::Reading::outcome_at))]
fn outcome_of(code: u8) -> Result<Outcome, EntryFault>
    ensures { result ≡ outcome_at code }
{
    match code {
        0 => Ok(Outcome::Unknown),
        1 => Ok(Outcome::White),
        2 => Ok(Outcome::Black),
        3 => Ok(Outcome::Draw),
        _ => Err(EntryFault::Result),
    }
}

#[tactic(auto, unfolding(crate::specs::Reading::eco_at))]
fn eco_of(code: u16) -> Result<u16, EntryFault>
    ensures { result ≡ eco_at code }
{
    if code <= 65_500 {
        Ok(code)
    } else {
        Err(EntryFault::Eco)
    }
}

#[tactic(auto, unfolding(crate::specs::Reading::dates_at))]
fn dates_of(word: u32) -> Result<(Date, Date), EntryFault>
    ensures { result ≡ dates_at word }
{
    let date = Date::of_number(word % 1_048_576);
    let event_date = event_date_of(date, word);
    if 12 < date.month || 12 < event_date.month {
        return Err(EntryFault::Date);
    }
    Ok((date, event_date))
}

// The event date of the high bits of the word of the dates: 3 for the year, by its distance from the game's, 4 for the month, 5 for the day.
#[tactic(auto, unfolding(crate::specs::Reading::event_at))]
fn event_date_of(game: Date, word: u32) -> Date
    requires { game.year < 2048 }
    ensures { result ≡ event_at game word }
{
    let code = (word / 0x2000_0000) as u16;
    if code == 0 || game.year == 0 || 2051 < game.year + code || game.year + code <= 4 {
        return Date::unknown();
    }
    Date {
        year: game.year + code - 4,
        month: (word / 0x200_0000 % 16) as u8,
        day: (word / 0x10_0000 % 32) as u8,
    }
}

#[tactic(auto, unfolding(crate::specs::Reading::rating_at))]
fn rating_of(word: u16) -> Result<Rating, EntryFault>
    ensures { result ≡ rating_at word }
{
    let value = word % 4096;
    if value == 0 {
        return Ok(Rating { value: 0, kind: 0 });
    }
    let kind = (word / 4096) as u8;
    if 6 < kind {
        return Err(EntryFault::Rating);
    }
    Ok(Rating { value, kind })
}

// The ten final counts.
#[tactic(auto, unfolding(crate::specs::Reading::material_at))]
pub(crate) fn material_of(first: u8, second: u8, third: u8) -> [u8; 10]
    ensures { result ≡ material_at first second third }
{
    [
        first / 64,
        first / 16 % 4,
        first / 4 % 4,
        first % 4,
        second / 16,
        second / 4 % 4,
        second % 4,
        third / 64,
        third / 16 % 4,
        third % 16,
    ]
}

// The home values, and 0 past the end of their list.
pub(crate) fn home_of(b: &[u8; 47]) -> [u8; 16]
    ensures { result ≡ map (home_at b.now) (range_with_len 0 16) }
{
    let mut home = [0; 16];
    for i in 0..16 {
        home[i] = home_value(b, i);
    }
    home
}

#[tactic(auto, unfolding(crate::specs::Reading::home_at))]
fn home_value(b: &[u8; 47], i: usize) -> u8
    requires { i < 16 }
    ensures { result ≡ home_at b.now i }
{
    if usize::from(b[38] % 64) <= i {
        return 0;
    }
    let byte = b[39 + i / 2];
    if i % 2 == 0 { byte / 16 } else { byte % 16 }
}
