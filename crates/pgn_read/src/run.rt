//! Runs of bytes of one kind.
ghost use Rattle.std.specs.Prelude.{◌≡◌, ◌==◌, ◌∷◌, true, false, ℕ, Bool, List, MatchOption};
ghost use Rattle.std.specs.Char.{is_ascii_alphabetic};
ghost use Rattle.pgn_read.specs.declared.run.Run.TheVariants as run;
ghost use Rattle.pgn_read.specs.Classes.{tells};
ghost use Rattle.pgn_read.specs.Clear.{BeginsWith};
ghost use Rattle.pgn_read.specs.Bytes.{is_of, is_white, is_move_byte, is_glyph, front, behind, begins, has_zero};

// The classes of bytes, as they are summed up in the table.
const WHITE: u8 = 1;

const TAG_NAME: u8 = 2;

const DIGITS: u8 = 4;

const DOTS: u8 = 8;

const GLYPHS: u8 = 16;

const MOVE: u8 = 32;

// The classes of each byte.
const CLASSES: [u8; 256] = [
    0, 0, 0, 0, 0, 0, 0, 0, 0, 1, 1, 1, 1, 1, 0, 0, 0, 0, 0, 0, 0, 0, 0, 0, 0, 0, 0, 0, 0, 0, 0, 0,
    1, 18, 0, 34, 2, 2, 2, 2, 2, 2, 2, 34, 2, 34, 10, 2, 38, 38, 38, 38, 38, 38, 38, 38, 38, 38,
    34, 2, 2, 34, 2, 18, 2, 34, 34, 34, 34, 34, 34, 34, 34, 34, 34, 34, 34, 34, 34, 34, 34, 34, 34,
    34, 34, 34, 34, 34, 34, 34, 34, 2, 2, 0, 2, 2, 2, 34, 34, 34, 34, 34, 34, 34, 34, 34, 34, 34,
    34, 34, 34, 34, 34, 34, 34, 34, 34, 34, 34, 34, 34, 34, 34, 2, 2, 2, 2, 0, 0, 0, 0, 0, 0, 0, 0,
    0, 0, 0, 0, 0, 0, 0, 0, 0, 0, 0, 0, 0, 0, 0, 0, 0, 0, 0, 0, 0, 0, 0, 0, 0, 0, 0, 0, 0, 0, 0, 0,
    0, 0, 0, 0, 0, 0, 0, 0, 0, 0, 0, 0, 0, 0, 0, 0, 0, 0, 0, 0, 0, 0, 0, 0, 0, 0, 0, 0, 0, 0, 0, 0,
    0, 0, 0, 0, 0, 0, 0, 0, 0, 0, 0, 0, 0, 0, 0, 0, 0, 0, 0, 0, 0, 0, 0, 0, 0, 0, 0, 0, 0, 0, 0, 0,
    0, 0, 0, 0, 0, 0, 0, 0, 0, 0, 0, 0, 0, 0, 0, 0, 0, 0, 0, 0, 0, 0, 0, 0, 0,
];

/// The kinds of bytes of which runs are made.
#[derive(Clone, Copy, Debug, PartialEq, Eq)]
pub(crate) enum Run {
    White,
    TagName,
    Digits,
    Dots,
    Glyphs,
    Move,
    /// All bytes but a closing brace.
    ToBrace,
    /// All bytes but a line feed.
    ToFeed,
    /// All bytes but zero.
    ToZero,
}

impl Run {
    fn has(self, byte: u8) -> bool
        ensures has { result ≡ is_of self byte }
    {
        match self {
            Run::White => is_in(&CLASSES, WHITE, byte),
            Run::TagName => is_in(&CLASSES, TAG_NAME, byte),
            Run::Digits => is_in(&CLASSES, DIGITS, byte),
            Run::Dots => is_in(&CLASSES, DOTS, byte),
            Run::Glyphs => is_in(&CLASSES, GLYPHS, byte),
            Run::Move => is_in(&CLASSES, MOVE, byte),
            Run::ToBrace => byte != b'}',
            Run::ToFeed => byte != b'\n',
            Run::ToZero => byte != 0,
        }
    }
}

// Whether the table has the byte in the class.
fn is_in(table: &[u8; 256], class: u8, byte: u8) -> bool
    ensures told { (test : ℕ → Bool) → tells table.now class test ≡ true → result ≡ test byte }
{
    table[byte as usize] & class != 0
}

/// The longest run at the beginning of the bytes, and what stands behind it.
pub(crate) fn split_run(run: Run, bytes: &[u8]) -> (&[u8], &[u8])
    ensures front { result.0.now ≡ front (is_of run) bytes.now }
    ensures behind { result.1.now ≡ behind (is_of run) bytes.now }
{
    for (i, byte) in bytes.iter().enumerate() {
        if !run.has(*byte) {
            return bytes.split_at(i);
        }
    }
    (bytes, &bytes[bytes.len()..])
}

/// The same if the first bytes are known to be in the run.
#[tactic(auto, using(crate::proofs::ClearLaws::front_behind, crate::proofs::ClearLaws::rest_behind))]
pub(crate) fn split_run_behind(run: Run, known: usize, bytes: &[u8]) -> (&[u8], &[u8])
    requires known { BeginsWith run known bytes.now }
    ensures front { result.0.now ≡ front (is_of run) bytes.now }
    ensures behind { result.1.now ≡ behind (is_of run) bytes.now }
{
    let (more, _) = split_run(run, bytes.split_at(known).1);
    bytes.split_at(known + more.len())
}

/// Whether a byte is white space.
pub(crate) fn is_white(byte: u8) -> bool
    ensures white { result ≡ is_white byte }
{
    byte == b' ' || (9 <= byte && byte <= 13)
}

/// Whether a byte is one of a suffix.
pub(crate) fn is_glyph(byte: u8) -> bool
    ensures glyph { result ≡ is_glyph byte }
{
    byte == b'!' || byte == b'?'
}

/// Whether a byte is one of a move's text.
pub(crate) fn is_move_byte(byte: u8) -> bool
    ensures move_byte { result ≡ is_move_byte byte }
{
    is_letter(byte)
        || byte.is_ascii_digit()
        || byte == b'+'
        || byte == b'#'
        || byte == b'='
        || byte == b'-'
        || byte == b':'
}

fn is_letter(byte: u8) -> bool
    ensures letter { result ≡ is_ascii_alphabetic byte }
{
    (b'A' <= byte && byte <= b'Z') || (b'a' <= byte && byte <= b'z')
}

/// Whether the bytes begin with this form.
pub(crate) fn begins(form: &[u8], bytes: &[u8]) -> bool
    ensures begins { result ≡ begins form.now bytes.now }
{
    let mut rest = bytes;
    for first in form {
        let Some(tail) = behind_byte(*first, rest) else {
            return false;
        };
        rest = tail;
    }
    true
}

// What stands behind this byte, if the bytes begin with it.
fn behind_byte(first: u8, bytes: &[u8]) -> Option<&[u8]>
    ensures begins { MatchOption result ((form : List ℕ) → begins (first ∷ form) bytes.now ≡ false)
        (λ tail. (form : List ℕ) → begins (first ∷ form) bytes.now ≡ begins form tail.now) }
{
    match bytes {
        [byte, tail @ ..] => { if *byte == first { Some(tail) } else { None } }
        [] => None,
    }
}

/// Whether one of the bytes is zero.
pub(crate) fn has_zero(text: &[u8]) -> bool
    ensures zero { result ≡ has_zero text.now }
{
    text.iter().any(|byte| *byte == 0)
}

/// The same if the first bytes are known to have none.
#[tactic(auto, using(crate::proofs::ClearLaws::zero_behind))]
pub(crate) fn has_zero_behind(known: usize, text: &[u8]) -> bool
    requires known { BeginsWith run.ToZero known text.now }
    ensures zero { result ≡ has_zero text.now }
{
    has_zero(text.split_at(known).1)
}
