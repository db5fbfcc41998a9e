//! The fields of a names file: each reader gives its value and the bytes after it.
ghost use Rattle.std.specs.Prelude.{◌≡◌, ◌≤◌, ◌<◌, [], Option, unwrap_or, length, IfOk};
ghost use Rattle.std.specs.Option.{option_copied};
ghost use Rattle.name_base.specs.Reading.{Gives, number_at, skip_at, byte_at, shared_at, own_at};

use crate::NameWhat;
use byteorder::{BigEndian, ByteOrder};

/// A number of one to three bytes.
#[tactic(auto, unfolding(crate::specs::Reading::number_at))]
pub(crate) fn number_at(width: usize, bytes: &[u8]) -> Result<(u32, &[u8]), NameWhat>
    requires some { 1 ≤ width }
    requires few { width ≤ 3 }
    ensures gives { Gives (λ x. (x.0, x.1.now)) result (number_at width bytes.now) }
    ensures small { IfOk result (λ x. x.0 < 16777216) }
{
    if bytes.len() < width {
        return Err(NameWhat::Short);
    }
    let (_, rest) = bytes.split_at(width);
    Ok((BigEndian::read_uint(bytes, width) as u32, rest))
}

/// Bytes that are passed over.
#[tactic(auto, unfolding(crate::specs::Reading::skip_at))]
pub(crate) fn skip_at(count: usize, bytes: &[u8]) -> Result<&[u8], NameWhat>
    ensures { Gives (λ x. x.now) result (skip_at count bytes.now) }
{
    if bytes.len() < count {
        return Err(NameWhat::Short);
    }
    let (_, rest) = bytes.split_at(count);
    Ok(rest)
}

/// One byte.
#[tactic(auto, unfolding(crate::specs::Reading::byte_at))]
pub(crate) fn byte_at(bytes: &[u8]) -> Result<(u8, &[u8]), NameWhat>
    ensures { Gives (λ x. (x.0, x.1.now)) result (byte_at bytes.now) }
{
    match bytes {
        [] => Err(NameWhat::Short),
        [byte, rest @ ..] => Ok((*byte, rest)),
    }
}

/// The length of the prefix that a name of this length shares with the name before it. The first name of a kind has none.
#[tactic(auto, unfolding(crate::specs::Reading::shared_at))]
pub(crate) fn shared_at<'a>(
    before: Option<&[u8]>,
    len: u8,
    bytes: &'a [u8],
) -> Result<(u8, &'a [u8]), NameWhat>
    ensures gives { Gives (λ x. (x.0, x.1.now)) result (shared_at (option_copied before.entry) len bytes.now) }
    ensures own { IfOk result (λ x. x.0 ≤ len) }
    ensures before { IfOk result (λ x. x.0 ≤ length (unwrap_or (option_copied before.entry) [])) }
{
    let Some(before) = before else {
        return Ok((0, bytes));
    };
    let (shared, rest) = byte_at(bytes)?;
    if len < shared || before.len() < shared as usize {
        return Err(NameWhat::Prefix);
    }
    Ok((shared, rest))
}

/// The bytes of a name that are its own.
#[tactic(auto, unfolding(crate::specs::Reading::own_at))]
pub(crate) fn own_at(count: usize, bytes: &[u8]) -> Result<(&[u8], &[u8]), NameWhat>
    ensures { Gives (λ x. (x.0.now, x.1.now)) result (own_at count bytes.now) }
{
    let (there, rest) = bytes.split_at(count.min(bytes.len()));
    if there.contains(&0) {
        return Err(NameWhat::Zero);
    }
    if bytes.len() < count {
        return Err(NameWhat::Short);
    }
    Ok((there, rest))
}
