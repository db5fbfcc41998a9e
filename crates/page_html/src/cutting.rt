//! Texts cut in parts.
ghost use Rattle.std.specs.Prelude.{◌≤◌, ◌<◌, length};

/// What stands before the first of such a byte, and what stands behind it.
pub(crate) fn cut(text: &[u8], byte: u8) -> (&[u8], &[u8])
    ensures front { length result.0.now ≤ length text.now }
    ensures behind { 1 ≤ length text.now → length result.1.now < length text.now }
{
    match text.iter().position(|one| *one == byte) {
        Some(at) => {
            let (front, rest) = text.split_at(at);
            (front, rest.split_at(1).1)
        }
        None => text.split_at(text.len()),
    }
}
