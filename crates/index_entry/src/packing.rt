//! The 47 bytes of an entry.
ghost use Rattle.std.specs.Prelude.{ℕ, List, Ok, ◌≡◌, ◌≤◌, ◌<◌, ◌+◌, ◌*◌, ◌^◌, ◌++◌, IsTrue, length, slice_index, take, drop};
ghost use Rattle.game_tree.specs.Date.{IsDate, keeps_rule};
ghost use Rattle.game_tree.specs.Head.{IsRating};
ghost use Rattle.index_entry.specs.Entry.{IsEntry, IsWritten, AreCleared, entry_read};
ghost use Rattle.index_entry.specs.Writing.{byte_of, code_of, flags_of, counts_of, event_number, dates_word, rating_word, place_bytes, id_bytes, game_bytes, two_of, last_bytes, written};

use crate::Entry;
use game_tree::{Date, Outcome, Rating};

/// The 47 bytes of an entry. Bits that say nothing are zero.
pub fn pack(e: &Entry) -> [u8; 47]
    requires { IsEntry e.now }
    // The bytes say the entry, and have zeros in all places that say nothing.
    ensures written { IsWritten result e.now }
    // Unpacked, they give the entry.
    ensures read_again { entry_read result ≡ Ok e.now }
    // Of whatever bytes the entry was unpacked, they are those with zeros in the places of theirs that say nothing.
    ensures cleared { (bytes : List ℕ) → entry_read bytes ≡ Ok e.now → AreCleared bytes result }
{
    write_entry(e)
}

#[tactic(auto, unfolding(crate::specs::Writing::written))]
fn write_entry(e: &Entry) -> [u8; 47]
    requires { IsEntry e.now }
    ensures is { result ≡ written e.now }
    ensures fits { e.now.offset < 2 ^ 32 }
{
    let mut b = [0; 47];
    put(&mut b, 0, &place_bytes(e));
    put(&mut b, 9, &id_bytes(e));
    put(&mut b, 21, &game_bytes(e));
    put(&mut b, 33, &last_bytes(e));
    b
}

// Writes a part of an entry at its place.
fn put(b: &mut [u8; 47], at: usize, part: &[u8])
    requires { at + length part.now ≤ 47 }
    ensures { b.new ≡ take at b.old ++ (part.now ++ drop (at + length part.now) b.old) }
{
    b[at..at + part.len()].copy_from_slice(part);
}

// The byte of a number above so many lower bits.
fn byte(number: u32, lower: u32) -> u8
    requires { lower < 32 }
    ensures { result ≡ byte_of number lower }
{
    ((number >> lower) % 256) as u8
}

// The record's place and length, the marks and the tests.
#[tactic(auto, unfolding(crate::specs::Writing::place_bytes))]
fn place_bytes(e: &Entry) -> [u8; 9]
    requires { IsEntry e.now }
    ensures is { result ≡ place_bytes e.now }
    ensures fits { e.now.offset < 2 ^ 32 }
{
    let flags = flags_of(e);
    [
        byte(e.offset, 24),
        byte(e.offset, 16),
        byte(e.offset, 8),
        byte(e.offset, 0),
        byte(e.len, 8),
        byte(e.len, 0),
        (e.len / 65_536 * 128 + e.marks / 4096) as u8,
        byte(flags, 8),
        byte(flags, 0),
    ]
}

#[tactic(auto, unfolding(crate::specs::Writing::flags_of))]
fn flags_of(e: &Entry) -> u32
    ensures { result ≡ flags_of e.now }
{
    e.marks % 4096 * 16
        + u32::from(e.deleted) * 8
        + u32::from(e.under) * 4
        + u32::from(e.promo) * 2
        + u32::from(e.own_start)
}

// The ids of the names.
#[tactic(auto, unfolding(crate::specs::Writing::id_bytes))]
fn id_bytes(e: &Entry) -> [u8; 12]
    requires { IsEntry e.now }
    ensures { result ≡ id_bytes e.now }
{
    [
        (e.white / 65_536 * 16 + e.black / 65_536) as u8,
        byte(e.white, 8),
        byte(e.white, 0),
        byte(e.black, 8),
        byte(e.black, 0),
        (e.event / 65_536 * 32 + e.site / 65_536 * 4 + e.round / 65_536) as u8,
        byte(e.event, 8),
        byte(e.event, 0),
        byte(e.site, 8),
        byte(e.site, 0),
        byte(e.round, 8),
        byte(e.round, 0),
    ]
}

// The counts, the ECO code, the dates, the ratings.
#[tactic(auto, unfolding(crate::specs::Writing::game_bytes))]
fn game_bytes(e: &Entry) -> [u8; 12]
    requires { IsEntry e.now }
    ensures { result ≡ game_bytes e.now }
{
    let counts = counts_of(e);
    let eco = u32::from(e.eco);
    let dates = dates_word(e);
    let white = rating_word(e.white_rating);
    let black = rating_word(e.black_rating);
    [
        byte(counts, 8),
        byte(counts, 0),
        byte(eco, 8),
        byte(eco, 0),
        byte(dates, 24),
        byte(dates, 16),
        byte(dates, 8),
        byte(dates, 0),
        byte(white, 8),
        byte(white, 0),
        byte(black, 8),
        byte(black, 0),
    ]
}

#[tactic(auto, unfolding(crate::specs::Writing::counts_of))]
fn counts_of(e: &Entry) -> u32
    ensures { result ≡ counts_of e.now }
{
    code_of(e.result) * 4096
        + u32::from(e.nags) * 256
        + u32::from(e.comments) * 16
        + u32::from(e.vars)
}

fn code_of(outcome: Outcome) -> u32
    ensures is { result ≡ code_of outcome }
    ensures small { result < 4 }
{
    match outcome {
        Outcome::Unknown => 0,
        Outcome::White => 1,
        Outcome::Black => 2,
        Outcome::Draw => 3,
    }
}

#[tactic(auto, unfolding(crate::specs::Writing::dates_word))]
fn dates_word(e: &Entry) -> u32
    requires { IsEntry e.now }
    ensures { result ≡ dates_word e.now }
{
    event_number(e.event_date, e.date) * 1_048_576 + e.date.number()
}

#[tactic(auto, unfolding(crate::specs::Writing::event_number))]
fn event_number(event: Date, game: Date) -> u32
    requires event { IsDate event }
    requires game { IsDate game }
    requires rule { IsTrue (keeps_rule event game) }
    ensures is { result ≡ event_number event game }
    ensures small { result < 4096 }
{
    if event.is_unknown() {
        return 0;
    }
    u32::from(event.year + 4 - game.year) * 512 + u32::from(event.month) * 32 + u32::from(event.day)
}

#[tactic(auto, unfolding(crate::specs::Writing::rating_word))]
fn rating_word(rating: Rating) -> u32
    ensures { result ≡ rating_word rating }
{
    u32::from(rating.kind) * 4096 + u32::from(rating.value)
}

// Nothing, the final counts, the half-moves, the home values.
#[tactic(auto, unfolding(crate::specs::Writing::last_bytes))]
fn last_bytes(e: &Entry) -> [u8; 14]
    requires { IsEntry e.now }
    ensures { result ≡ last_bytes e.now }
{
    let m = &e.material;
    [
        0,
        m[0] * 64 + m[1] * 16 + m[2] * 4 + m[3],
        m[4] * 16 + m[5] * 4 + m[6],
        m[7] * 64 + m[8] * 16 + m[9],
        (e.plies % 256) as u8,
        (e.plies / 256 * 64) as u8 + e.home_count,
        two_of(&e.home, 0),
        two_of(&e.home, 2),
        two_of(&e.home, 4),
        two_of(&e.home, 6),
        two_of(&e.home, 8),
        two_of(&e.home, 10),
        two_of(&e.home, 12),
        two_of(&e.home, 14),
    ]
}

// Two home values in one byte.
fn two_of(home: &[u8; 16], i: usize) -> u8
    requires place { i < 15 }
    requires high { slice_index home.now i < 16 }
    requires low { slice_index home.now (i + 1) < 16 }
    ensures { result ≡ two_of home.now i }
{
    home[i] * 16 + home[i + 1]
}
