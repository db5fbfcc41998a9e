//! The codes of counts.
ghost use Rattle.std.specs.Prelude.{◌≡◌, ◌<◌};
ghost use Rattle.index_entry.specs.Counts.{count_code};

/// The code that an entry keeps of a number of variations, comments or NAGs: up to 10 the number itself, from 11 on one code for
/// several numbers.
pub fn count_code(count: u64) -> u8
    ensures code { result ≡ count_code count }
    ensures small { result < 16 }
{
    match count {
        0..=10 => count as u8,
        11..=12 => 10,
        13..=17 => 11,
        18..=24 => 12,
        25..=34 => 13,
        35..=44 => 14,
        _ => 15,
    }
}
