//! Texts in HTML.
ghost use Rattle.std.specs.Prelude.{◌≡◌, ◌≤◌, ◌++◌, OnOk, Some, codes, length};
ghost use Rattle.std.specs.Fmt.{decimal};
ghost use Rattle.page_html.specs.Text.{characters, front, html_read, shown, written, written_char};

use crate::numbers::push_number;
use bstr::decode_utf8;
use std::alloc::{AllocError, Global};

/// Adds a text, so that HTML shows the characters that it has, whatever its bytes are. The characters are those of
/// UTF-8, and each byte that is of none of them is the character of Latin-1. A sign stands for a control character. Of
/// the characters `<`, `>`, `&` and `"`, and of those beyond ASCII, the reference is written (HTML standard, 13.1.4).
///
/// It fails only for want of memory, and a part of the text may then have been added.
pub fn push_text(out: &mut Vec<u8>, text: &[u8]) -> Result<(), AllocError>
    ensures added { OnOk result (out.new.items ≡ out.old.items ++ written text.now) }
    // What was written has none of the four but in its references, and HTML reads the characters of the text in it.
    ensures read_back { html_read (written text.now) ≡ Some (characters text.now) }
{
    let mut rest = text;
    while !rest.is_empty() {
        let (character, len) = front(rest);
        push_char(out, shown(character))?;
        rest = rest.split_at(len).1;
    }
    Ok(())
}

// The first character of a text, and how many bytes it takes.
#[tactic(auto, using(crate::proofs::TextLemmas::fronts))]
fn front(text: &[u8]) -> (u32, usize)
    requires some { 1 ≤ length text.now }
    ensures front { result ≡ front text.now }
    ensures some { 1 ≤ result.1 }
    ensures within { result.1 ≤ length text.now }
{
    match decode_utf8(text) {
        (Some(character), len) => (character as u32, len),
        (None, _) => (u32::from(text[0]), 1),
    }
}

// A character, or the sign of a control character.
fn shown(character: u32) -> u32
    ensures { result ≡ shown character }
{
    match character {
        0..=31 => 0x2400 + character,
        127 => 0x2421,
        128..=159 => 0xfffd,
        _ => character,
    }
}

// Adds a character.
#[tactic(auto, unfolding(crate::specs::Text::written_char))]
fn push_char(out: &mut Vec<u8>, character: u32) -> Result<(), AllocError>
    ensures added { OnOk result (out.new.items ≡ out.old.items ++ written_char character) }
{
    if character == 60 {
        return out.extend_from_slice(b"&lt;");
    }
    if character == 62 {
        return out.extend_from_slice(b"&gt;");
    }
    if character == 38 {
        return out.extend_from_slice(b"&amp;");
    }
    if character == 34 {
        return out.extend_from_slice(b"&quot;");
    }
    if character < 128 {
        out.push(character as u8)?;
        return Ok(());
    }
    push_reference(out, character)
}

// Adds the reference of a character by its number.
#[tactic(auto, using(std::proofs::Common::append_assoc))]
fn push_reference(out: &mut Vec<u8>, character: u32) -> Result<(), AllocError>
    ensures added { OnOk result (out.new.items ≡ out.old.items ++ (codes "&#" ++ (decimal character ++ codes ";"))) }
{
    out.extend_from_slice(b"&#")?;
    push_number(out, u128::from(character))?;
    out.extend_from_slice(b";")
}
