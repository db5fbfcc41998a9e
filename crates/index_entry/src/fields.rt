//! The fields that searches ask for, each read by itself from the 47 bytes of an entry.
ghost use Rattle.std.specs.Prelude.{◌≡◌, ◌<◌, ◌*◌, ◌-◌, ◌/◌, ◌%◌, ◌^◌, ℕ, slice_index};
ghost use Rattle.index_entry.specs.Entry.{entry_in, outcome_of, rating_of};

use crate::unpacking::{byte_at, home_of, material_of, octet, quad, split, word};
use game_tree::{Date, Outcome, Rating};

/// Whether the game is marked as deleted.
#[tactic(auto, using(crate::proofs::ReadLemmas::deleted_read_is), unfolding(crate::specs::Entry::entry_in))]
pub fn is_deleted_in(b: &[u8; 47]) -> bool
    ensures deleted { result ≡ (entry_in b.now).deleted }
{
    word(b, 7) / 8 % 2 == 1
}

/// The marks.
#[tactic(auto, using(crate::proofs::ReadLemmas::marks_read_is), unfolding(crate::specs::Entry::entry_in))]
pub fn marks_in(b: &[u8; 47]) -> u32
    ensures marks { result ≡ (entry_in b.now).marks }
{
    u32::from(b[6] % 64) * 4096 + u32::from(word(b, 7) / 16)
}

/// White's id.
#[tactic(auto, using(crate::proofs::ReadLemmas::white_read_is), unfolding(crate::specs::Entry::entry_in))]
pub fn white_in(b: &[u8; 47]) -> u32
    ensures white { result ≡ (entry_in b.now).white }
{
    split(b[9] / 16, word(b, 10))
}

/// Black's id.
#[tactic(auto, using(crate::proofs::ReadLemmas::black_read_is), unfolding(crate::specs::Entry::entry_in))]
pub fn black_in(b: &[u8; 47]) -> u32
    ensures black { result ≡ (entry_in b.now).black }
{
    split(b[9] % 16, word(b, 12))
}

/// The event's id.
#[tactic(auto, using(crate::proofs::ReadLemmas::event_read_is), unfolding(crate::specs::Entry::entry_in))]
pub fn event_in(b: &[u8; 47]) -> u32
    ensures event { result ≡ (entry_in b.now).event }
{
    split(b[14] / 32, word(b, 15))
}

/// The site's id.
#[tactic(auto, using(crate::proofs::ReadLemmas::site_read_is), unfolding(crate::specs::Entry::entry_in))]
pub fn site_in(b: &[u8; 47]) -> u32
    ensures site { result ≡ (entry_in b.now).site }
{
    split(b[14] / 4 % 8, word(b, 17))
}

/// The round's id.
#[tactic(auto, using(crate::proofs::ReadLemmas::round_read_is), unfolding(crate::specs::Entry::entry_in))]
pub fn round_in(b: &[u8; 47]) -> u32
    ensures round { result ≡ (entry_in b.now).round }
{
    split(b[14] % 4, word(b, 19))
}

/// The result; a code that is none counts as unknown.
#[tactic(auto, using(crate::proofs::ReadLemmas::outcome_read_is), unfolding(crate::specs::Entry::entry_in))]
pub fn outcome_in(b: &[u8; 47]) -> Outcome
    ensures outcome { result ≡ (entry_in b.now).result }
{
    outcome_of(b[21] / 16)
}

// The result of a code.
#[tactic(auto, using(crate::proofs::ReadLemmas::outcome_other))]
fn outcome_of(code: u8) -> Outcome
    ensures outcome { result ≡ outcome_of code }
{
    match code {
        1 => Outcome::White,
        2 => Outcome::Black,
        3 => Outcome::Draw,
        _ => Outcome::Unknown,
    }
}

/// The ECO code.
#[tactic(auto, using(crate::proofs::ReadLemmas::eco_read_is), unfolding(crate::specs::Entry::entry_in))]
pub fn eco_in(b: &[u8; 47]) -> u16
    ensures eco { result ≡ (entry_in b.now).eco }
{
    word(b, 23)
}

/// The game's date.
#[tactic(auto, using(crate::proofs::ReadLemmas::date_read_is), unfolding(crate::specs::Entry::entry_in))]
pub fn date_in(b: &[u8; 47]) -> Date
    ensures date { result ≡ (entry_in b.now).date }
{
    Date::of_number(quad(b, 25) % 1_048_576)
}

/// White's rating.
#[tactic(auto, using(crate::proofs::ReadLemmas::white_kind_read_is, crate::proofs::ReadLemmas::white_value_read_is), unfolding(crate::specs::Entry::entry_in))]
pub fn white_rating_in(b: &[u8; 47]) -> Rating
    ensures rating { result ≡ (entry_in b.now).white_rating }
{
    rating_of(word(b, 29))
}

/// Black's rating.
#[tactic(auto, using(crate::proofs::ReadLemmas::black_kind_read_is, crate::proofs::ReadLemmas::black_value_read_is), unfolding(crate::specs::Entry::entry_in))]
pub fn black_rating_in(b: &[u8; 47]) -> Rating
    ensures rating { result ≡ (entry_in b.now).black_rating }
{
    rating_of(word(b, 31))
}

// The rating of a word; one of value 0 is none, whatever its kind.
fn rating_of(word: u16) -> Rating
    ensures rating { result ≡ rating_of (word / 4096) (word % 4096) }
{
    let value = word % 4096;
    let kind = if value == 0 { 0 } else { (word / 4096) as u8 };
    Rating { value, kind }
}

/// The half-moves of the main line.
#[tactic(auto, using(crate::proofs::ReadLemmas::plies_read_is), unfolding(crate::specs::Entry::entry_in))]
pub fn plies_in(b: &[u8; 47]) -> u16
    ensures plies { result ≡ (entry_in b.now).plies }
{
    u16::from(b[38] / 64) * 256 + u16::from(b[37])
}

/// Whether the game has a start of its own.
#[tactic(auto, using(crate::proofs::ReadLemmas::own_start_read_is), unfolding(crate::specs::Entry::entry_in))]
pub fn has_own_start_in(b: &[u8; 47]) -> bool
    ensures own_start { result ≡ (entry_in b.now).own_start }
{
    word(b, 7) % 2 == 1
}

/// Whether there is a promotion in any line.
#[tactic(auto, using(crate::proofs::ReadLemmas::promo_read_is), unfolding(crate::specs::Entry::entry_in))]
pub fn has_promotion_in(b: &[u8; 47]) -> bool
    ensures promo { result ≡ (entry_in b.now).promo }
{
    word(b, 7) / 2 % 2 == 1
}

/// Whether there is a promotion to another man than a queen.
#[tactic(auto, using(crate::proofs::ReadLemmas::under_read_is), unfolding(crate::specs::Entry::entry_in))]
pub fn has_underpromotion_in(b: &[u8; 47]) -> bool
    ensures under { result ≡ (entry_in b.now).under }
{
    word(b, 7) / 4 % 2 == 1
}

/// The code of the number of variations.
#[tactic(auto, using(crate::proofs::ReadLemmas::vars_read_is), unfolding(crate::specs::Entry::entry_in))]
pub fn variations_in(b: &[u8; 47]) -> u8
    ensures vars { result ≡ (entry_in b.now).vars }
{
    byte_at(b, 22) % 16
}

/// The code of the number of comments.
#[tactic(auto, using(crate::proofs::ReadLemmas::comments_read_is), unfolding(crate::specs::Entry::entry_in))]
pub fn comments_in(b: &[u8; 47]) -> u8
    ensures comments { result ≡ (entry_in b.now).comments }
{
    byte_at(b, 22) / 16
}

/// The code of the number of NAGs.
#[tactic(auto, using(crate::proofs::ReadLemmas::nags_read_is), unfolding(crate::specs::Entry::entry_in))]
pub fn nags_in(b: &[u8; 47]) -> u8
    ensures nags { result ≡ (entry_in b.now).nags }
{
    byte_at(b, 21) % 16
}

/// The ten final counts of men.
#[tactic(auto, using(crate::proofs::ReadLemmas::material_read_is), unfolding(crate::specs::Entry::entry_in))]
pub fn material_in(b: &[u8; 47]) -> [u8; 10]
    ensures material { result ≡ (entry_in b.now).material }
{
    material_of(b[34], b[35], b[36])
}

/// How many home values there are.
#[tactic(auto, using(crate::proofs::ReadLemmas::home_count_read_is), unfolding(crate::specs::Entry::entry_in))]
pub fn home_count_in(b: &[u8; 47]) -> u8
    ensures count { result ≡ (entry_in b.now).home_count }
{
    byte_at(b, 38) % 64
}

/// The home values as one word, the first of them in its highest four bits. What stands behind them may be anything.
#[tactic(auto, using(crate::proofs::ReadLemmas::home_word_read_is), unfolding(crate::specs::Entry::entry_in))]
pub fn home_word_in(b: &[u8; 47]) -> u64
    ensures values { (i : ℕ) → i < 16 → i < (entry_in b.now).home_count → result / 2 ^ (60 - 4 * i) % 16 ≡ slice_index (entry_in b.now).home i }
{
    octet(b, 39)
}

/// The home values, and 0 past the end of their list.
#[tactic(auto, using(crate::proofs::ReadLemmas::home_values_read_is), unfolding(crate::specs::Entry::entry_in))]
pub fn home_in(b: &[u8; 47]) -> [u8; 16]
    ensures home { result ≡ (entry_in b.now).home }
{
    home_of(b)
}
