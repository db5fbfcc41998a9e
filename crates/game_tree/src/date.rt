//! Dates and their texts.
ghost use Rattle.std.specs.Prelude.{◌≡◌, ◌==◌, ◌≤◌, ◌<◌, ◌^◌, length, IfSome};
ghost use Rattle.std.specs.List.{list_all};
ghost use Rattle.cell_core.specs.Text.{IsZeroFree};
ghost use Rattle.game_tree.specs.Date.{IsDate, unknown_date, is_unknown, date_number, date_of, keeps_rule, shown, date_text, part, dated, date_read, is_near};

use super::decimal::read_decimal;

/// A date of a game or an event; a part that is 0 is unknown. A date that is kept has a year of at most 2047, a month
/// of at most 12 and a day of at most 31.
#[derive(Clone, Copy, Debug, Default, PartialEq, Eq, PartialOrd, Ord, Hash)]
pub struct Date {
    pub year: u16,
    pub month: u8,
    pub day: u8,
}

impl Date {
    /// The date of which nothing is known.
    pub fn unknown() -> Date
        ensures unknown { result ≡ unknown_date }
    {
        Date {
            year: 0,
            month: 0,
            day: 0,
        }
    }

    /// Whether nothing is known of the date.
    pub fn is_unknown(&self) -> bool
        ensures unknown { result ≡ is_unknown self.now }
    {
        self.year == 0 && self.month == 0 && self.day == 0
    }

    /// Whether this is a date that an event of a game of the date `game` can have: its year is from 1 to 2047 and
    /// differs by at most 3 from the game's year, which is known.
    pub fn is_near(&self, game: Date) -> bool
        ensures near { result ≡ is_near self.now game }
    {
        let (event_year, game_year) = (u32::from(self.year), u32::from(game.year));
        1 <= event_year
            && event_year <= 2047
            && 1 <= game_year
            && event_year <= game_year + 3
            && game_year <= event_year + 3
    }

    /// Whether an event of a game of the date `game` may keep this date: it is unknown, or it is near the game's.
    pub fn keeps_rule(&self, game: Date) -> bool
        ensures rule { result ≡ keeps_rule self.now game }
    {
        self.is_unknown() || self.is_near(game)
    }

    /// The date as one number, `year * 512 + month * 32 + day`.
    #[tactic(auto, using(crate::proofs::DateLemmas::numbering))]
    pub fn number(&self) -> u32
        ensures number { result ≡ date_number self.now }
        ensures back { IsDate self.now → date_of result ≡ self.now }
    {
        number_of(*self)
    }

    /// The date of such a number. Every number below 2^25 is that of its date.
    #[tactic(auto, using(crate::proofs::DateLemmas::numbering))]
    pub fn of_number(number: u32) -> Date
        requires { number < 2 ^ 25 }
        ensures date { result ≡ date_of number }
        ensures number { date_number result ≡ number }
    {
        numbered(number)
    }

    /// The text of the date, as `1994.05.??` (PGN standard, section 8.1.1.3).
    #[tactic(auto, using(crate::proofs::DateLemmas::reading_back))]
    pub fn text(&self) -> [u8; 10]
        ensures text { result ≡ date_text self.now }
        ensures zero_free { IsZeroFree result }
        ensures reads_back { IsDate self.now → date_read result ≡ Some self.now }
    {
        text_of(*self)
    }

    /// The date that `text` reads as: `1994.05.12`, `1994.05` or `1994`, with question marks for an unknown part.
    /// `None` if the text has another form or a part is above its greatest value.
    #[tactic(auto, unfolding(crate::specs::Date::date_read))]
    pub fn read(text: &[u8]) -> Option<Date>
        ensures read { result ≡ date_read text.now }
        ensures bounds { IfSome result (λ date. IsDate date) }
    {
        match text.len() {
            4 => dated(text, b"??", b"??"),
            7 if text[4] == b'.' => dated(&text[0..4], &text[5..7], b"??"),
            10 if text[4] == b'.' && text[7] == b'.' => dated(
                &text[0..4],
                &text[5..7],
                &text[8..10],
            ),
            _ => None,
        }
    }
}

// The number of a date, without its law.
fn number_of(date: Date) -> u32
    ensures { result ≡ date_number date }
{
    u32::from(date.year) * 512 + u32::from(date.month) * 32 + u32::from(date.day)
}

// The date of a number, without its law.
fn numbered(number: u32) -> Date
    requires { number < 2 ^ 25 }
    ensures { result ≡ date_of number }
{
    Date {
        year: (number / 512) as u16,
        month: (number / 32 % 16) as u8,
        day: (number % 32) as u8,
    }
}

#[tactic(auto, unfolding(crate::specs::Date::date_text))]
fn text_of(date: Date) -> [u8; 10]
    ensures text { result ≡ date_text date }
    ensures zero_free { IsZeroFree result }
{
    let (year, month, day) = (date.year, u16::from(date.month), u16::from(date.day));
    [
        shown(year, year / 1000),
        shown(year, year / 100),
        shown(year, year / 10),
        shown(year, year),
        b'.',
        shown(month, month / 10),
        shown(month, month),
        b'.',
        shown(day, day / 10),
        shown(day, day),
    ]
}

// The date of the texts of its three parts.
fn dated(year: &[u8], month: &[u8], day: &[u8]) -> Option<Date>
    ensures read { result ≡ dated year.now month.now day.now }
    ensures bounds { IfSome result (λ date. IsDate date) }
{
    let year = part(year, 2047)?;
    let month = part(month, 12)?;
    let day = part(day, 31)?;
    Some(Date {
        year,
        month: month as u8,
        day: day as u8,
    })
}

// A part of a date: 0 of question marks, the number of decimal digits if it is at most `limit`.
#[tactic(auto, unfolding(crate::specs::Date::part))]
fn part(text: &[u8], limit: u16) -> Option<u16>
    ensures read { result ≡ part limit text.now }
    ensures bound { IfSome result (λ number. number ≤ limit) }
{
    if is_unknown_part(text) {
        return Some(0);
    }
    let number = read_decimal(text, u64::from(limit))?;
    Some(number as u16)
}

// Whether each byte is a question mark.
fn is_unknown_part(text: &[u8]) -> bool
    ensures { result ≡ list_all (λ c. c == 63) text.now }
{
    text.iter().all(|c| *c == b'?')
}

// The last digit of `number` as text, or a question mark if the whole part of the date is 0.
fn shown(whole: u16, number: u16) -> u8
    ensures { result ≡ shown whole number }
{
    if whole == 0 {
        b'?'
    } else {
        b'0' + (number % 10) as u8
    }
}
