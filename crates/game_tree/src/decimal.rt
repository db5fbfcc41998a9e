//! Numbers in decimal digits.
ghost use Rattle.std.specs.Prelude.{◌≡◌, ◌≤◌, ◌<◌, ◌+◌, ◌*◌, ℕ, Some, IfSome, MatchOption};
ghost use Rattle.std.specs.List.{AllPass, list_all};
ghost use Rattle.std.specs.Bool.{OnTrue};
ghost use Rattle.std.specs.Char.{is_ascii_digit};
ghost use Rattle.std.specs.Fmt.{decimal};
ghost use Rattle.game_tree.specs.Decimal.{decimal_value, decimal_read, IsPadded};

/// The number that `text` writes in decimal digits, at most `limit`. Leading zeros do no harm. `None` if the text is
/// empty, has a byte that is no digit, or writes a greater number.
#[tactic(auto, using(crate::proofs::DecimalLemmas::reading))]
pub fn read_decimal(text: &[u8], limit: u64) -> Option<u64>
    ensures read { result ≡ decimal_read limit text.now }
    ensures bound { IfSome result (λ number. number ≤ limit) }
    ensures padded { IfSome result (λ number. IsPadded text.now number) }
    ensures written { (n : ℕ) → n ≤ limit → text.now ≡ decimal n → result ≡ Some n }
{
    number_of(text, limit)
}

// The number, without its laws.
#[tactic(auto, unfolding(crate::specs::Decimal::decimal_read))]
fn number_of(text: &[u8], limit: u64) -> Option<u64>
    ensures { result ≡ decimal_read limit text.now }
{
    if text.is_empty() || !has_digits_alone(text) {
        return None;
    }
    value_of(text, limit)
}

// The number that these digits write, if it is at most `limit`.
fn value_of(digits: &[u8], limit: u64) -> Option<u64>
    requires { AllPass is_ascii_digit digits.now }
    ensures { MatchOption result (limit < decimal_value digits.now)
        (λ number. (number ≡ decimal_value digits.now) × (number ≤ limit)) }
{
    let mut number = 0u64;
    for digit in digits {
        let Some(longer) = extended(number, *digit - b'0', limit) else {
            return None;
        };
        number = longer;
    }
    Some(number)
}

// The number with one more digit, if it is at most `limit`.
fn extended(number: u64, digit: u8, limit: u64) -> Option<u64>
    ensures { MatchOption result (limit < 10 * number + digit)
        (λ longer. (longer ≡ 10 * number + digit) × (longer ≤ limit)) }
{
    let longer = number.checked_mul(10)?.checked_add(u64::from(digit))?;
    if longer <= limit { Some(longer) } else { None }
}

// Whether each byte is a decimal digit.
fn has_digits_alone(text: &[u8]) -> bool
    ensures all { result ≡ list_all is_ascii_digit text.now }
    ensures each { OnTrue result (AllPass is_ascii_digit text.now) }
{
    text.iter().all(|c| c.is_ascii_digit())
}
