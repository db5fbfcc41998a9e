//! Tags as they are read.
ghost use Rattle.std.specs.Prelude.{◌≡◌, ◌==◌, ◌++◌, drop, false, IfOk, OnOk, ◌&&◌, not, take};
ghost use Rattle.std.specs.List.{list_any};
ghost use Rattle.pgn_read.specs.Bytes.{behind, is_white};
ghost use Rattle.pgn_read.specs.Said.{said};
ghost use Rattle.pgn_read.specs.TagText.{escapes, meant_by, unescaped_from, closing, quoting, naming, tag_from, value_len};

use crate::run::{Run, has_zero, split_run};
use crate::token::{Lexed, Token};
use std::alloc::{AllocError, Global};

/// A tag, from behind its opening bracket on.
pub(crate) fn tag_from(text: &[u8]) -> Lexed<'_>
    ensures token { said result.token ≡ (tag_from text.now).token }
    ensures rest { result.rest.now ≡ (tag_from text.now).rest }
{
    let (_, text) = split_run(Run::White, text);
    let (name, text) = split_run(Run::TagName, text);
    naming(name, text)
}

// From behind the name on.
fn naming<'a>(name: &'a [u8], text: &'a [u8]) -> Lexed<'a>
    ensures token { said result.token ≡ (naming name.now text.now).token }
    ensures rest { result.rest.now ≡ (naming name.now text.now).rest }
{
    if name.is_empty() {
        return bad(text);
    }
    let (_, text) = split_run(Run::White, text);
    quoting(name, text)
}

// From the opening quotation mark on.
fn quoting<'a>(name: &'a [u8], text: &'a [u8]) -> Lexed<'a>
    ensures token { said result.token ≡ (quoting name.now text.now).token }
    ensures rest { result.rest.now ≡ (quoting name.now text.now).rest }
{
    match text {
        [b'"', text @ ..] => {
            let (raw, text) = split_value(text);
            unquoting(name, raw, text)
        }
        _ => bad(text),
    }
}

// From the closing quotation mark on.
fn unquoting<'a>(name: &'a [u8], raw: &'a [u8], text: &'a [u8]) -> Lexed<'a>
    ensures token { said result.token ≡ (closing name.now raw.now (behind is_white (drop 1 text.now))).token }
    ensures rest { result.rest.now ≡ (closing name.now raw.now (behind is_white (drop 1 text.now))).rest }
{
    match text {
        [_, text @ ..] => {
            let (_, text) = split_run(Run::White, text);
            closing(name, raw, text)
        }
        [] => bad(text),
    }
}

// From the closing bracket on.
fn closing<'a>(name: &'a [u8], raw: &'a [u8], text: &'a [u8]) -> Lexed<'a>
    ensures token { said result.token ≡ (closing name.now raw.now text.now).token }
    ensures rest { result.rest.now ≡ (closing name.now raw.now text.now).rest }
{
    match text {
        [b']', text @ ..] => {
            if has_zero(raw) {
                return bad(text);
            }
            Lexed {
                token: Token::Tag(name, raw),
                rest: text,
            }
        }
        _ => bad(text),
    }
}

// No tag, before these bytes.
fn bad(text: &[u8]) -> Lexed<'_>
    ensures token { result.token ≡ Token.BadTag }
    ensures rest { result.rest.now ≡ text.now }
{
    Lexed {
        token: Token::BadTag,
        rest: text,
    }
}

// The bytes of a value, and those from its closing quotation mark on.
fn split_value(text: &[u8]) -> (&[u8], &[u8])
    ensures raw { result.0.now ≡ take (value_len false text.now) text.now }
    ensures behind { result.1.now ≡ drop (value_len false text.now) text.now }
{
    let mut escaped = false;
    for (i, byte) in text.iter().enumerate() {
        if ends_value(escaped, *byte) {
            return text.split_at(i);
        }
        escaped = escapes(escaped, *byte);
    }
    (text, &text[text.len()..])
}

// Whether a byte is the closing quotation mark.
fn ends_value(escaped: bool, byte: u8) -> bool
    ensures { result ≡ not escaped && (byte == 34) }
{
    !escaped && byte == b'"'
}

// Whether a byte escapes the one behind it.
fn escapes(escaped: bool, byte: u8) -> bool
    ensures { result ≡ escapes escaped byte }
{
    !escaped && byte == b'\\'
}

/// The value that these bytes are, without its escapes. Most values have none.
#[tactic(auto, using(crate::proofs::EscapeLaws::no_escapes))]
pub(crate) fn unescaped(alloc: Global, raw: &[u8]) -> Result<Vec<u8>, AllocError>
    ensures value { IfOk result (λ value. value.items ≡ unescaped_from false raw.now) }
{
    if has_backslash(raw) {
        return without_escapes(alloc, raw);
    }
    Ok(Vec::from_slice(alloc, raw)?)
}

// Whether one of the bytes is a backslash.
fn has_backslash(raw: &[u8]) -> bool
    ensures { result ≡ list_any (λ byte. byte == 92) raw.now }
{
    raw.iter().any(|byte| *byte == b'\\')
}

// The value, byte by byte.
fn without_escapes(alloc: Global, raw: &[u8]) -> Result<Vec<u8>, AllocError>
    ensures value { IfOk result (λ value. value.items ≡ unescaped_from false raw.now) }
{
    let mut value = Vec::with_capacity(alloc, raw.len())?;
    let mut escaped = false;
    for byte in raw {
        push_meant(&mut value, escaped, *byte)?;
        escaped = escapes(escaped, *byte);
    }
    if escaped {
        value.push(b'\\')?;
    }
    Ok(value)
}

// Adds what a byte of a value means.
fn push_meant(value: &mut Vec<u8>, escaped: bool, byte: u8) -> Result<(), AllocError>
    ensures meant { OnOk result (value.new.items ≡ value.old.items ++ meant_by escaped byte) }
{
    if escaped && byte != b'"' && byte != b'\\' {
        value.push(b'\\')?;
    }
    if escaped || byte != b'\\' {
        value.push(byte)?;
    }
    Ok(())
}
