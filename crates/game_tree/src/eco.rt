//! Opening codes and their texts.
ghost use Rattle.std.specs.Prelude.{◌≡◌, ◌≤◌, ◌<◌, ◌+◌, ◌∷◌, Some, IfSome};
ghost use Rattle.game_tree.specs.Eco.{eco_text, eco_read, extension_text, extension_read, eco_number, is_from};

use arrayvec::ArrayVec;

/// The text of an opening code, as `B15` or `B15a1`: a letter from A to E and two digits, as in the Encyclopaedia of
/// Chess Openings. The extension of a code is a small letter, and maybe a digit from 1 to 4. The text of 0, which is no
/// code, is empty.
#[tactic(auto, using(crate::proofs::EcoLemmas::reading_back))]
pub fn eco_text(number: u16) -> ArrayVec<u8, 5>
    requires { number ≤ 65500 }
    ensures text { result.items ≡ eco_text number }
    ensures reads_back { 1 ≤ number → eco_read result.items ≡ Some number }
{
    text_of(number)
}

/// The number of the opening code that `text` is, from 1 to 65,500: `1 + 13100 * letter + 1310 * digit + 131 * digit +
/// extension`, where the letters count from 0 for A, and the extension is 0 for none and else `1 + 5 * letter + digit`.
#[tactic(auto, using(crate::proofs::EcoLemmas::reading_back))]
pub fn read_eco(text: &[u8]) -> Option<u16>
    ensures read { result ≡ eco_read text.now }
    ensures bounds { IfSome result (λ number. (1 ≤ number) × (number ≤ 65500)) }
    ensures written { IfSome result (λ number. eco_text number ≡ text.now) }
{
    number_of(text)
}

// The text, without its law.
#[tactic(auto, unfolding(crate::specs::Eco::eco_text))]
fn text_of(number: u16) -> ArrayVec<u8, 5>
    requires { number ≤ 65500 }
    ensures { result.items ≡ eco_text number }
{
    let mut text = ArrayVec::new();
    if number == 0 {
        return text;
    }
    let code = number - 1;
    text.push(b'A' + (code / 13_100) as u8);
    text.push(b'0' + (code / 1_310 % 10) as u8);
    text.push(b'0' + (code / 131 % 10) as u8);
    let extension = (code % 131) as u8;
    if extension > 0 {
        text.push(b'a' + (extension - 1) / 5);
    }
    if extension > 0 && (extension - 1) % 5 > 0 {
        text.push(b'0' + (extension - 1) % 5);
    }
    text
}

// The number, without its laws.
#[tactic(auto, unfolding(crate::specs::Eco::eco_read))]
fn number_of(text: &[u8]) -> Option<u16>
    ensures { result ≡ eco_read text.now }
{
    let [letter, tens, units, extension @ ..] = text else {
        return None;
    };
    if !is_from(b'A', b'E', *letter)
        || !is_from(b'0', b'9', *tens)
        || !is_from(b'0', b'9', *units)
    {
        return None;
    }
    let extension = extension_of(extension)?;
    Some(
        1 + 13_100 * u16::from(*letter - b'A')
            + 1_310 * u16::from(*tens - b'0')
            + 131 * u16::from(*units - b'0')
            + extension,
    )
}

// The extension that a text is.
fn extension_of(text: &[u8]) -> Option<u16>
    ensures read { result ≡ extension_read text.now }
    ensures bound { IfSome result (λ extension. extension ≤ 130) }
{
    match text {
        [] => Some(0),
        [letter] if is_from(b'a', b'z', *letter) => Some(1 + 5 * u16::from(*letter - b'a')),
        [letter, digit] if is_from(b'a', b'z', *letter) && is_from(b'1', b'4', *digit) => Some(
            1 + 5 * u16::from(*letter - b'a') + u16::from(*digit - b'0'),
        ),
        _ => None,
    }
}

fn is_from(low: u8, high: u8, byte: u8) -> bool
    ensures { result ≡ is_from low high byte }
{
    low <= byte && byte <= high
}
