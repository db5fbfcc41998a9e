//! How far a text was searched.
ghost use Rattle.std.specs.Prelude.{◌≡◌, ◌≤◌, ◌-◌, length, take, drop};
ghost use Rattle.pgn_read.specs.Clear.{IsClear, nothing_clear};

use crate::run::{Run, split_run_behind};

/// How many bytes at the beginning of a text are known to have no closing brace, and how many to have no zero. So a comment
/// that stays where it is, as its item is refused, is searched once, whatever stands in it.
#[derive(Clone, Copy)]
pub(crate) struct Clear {
    pub(crate) braces: usize,
    pub(crate) zeros: usize,
}

impl Clear {
    /// Of a text that was not searched.
    pub(crate) fn nothing() -> Clear
        ensures nothing { result ≡ nothing_clear }
    {
        Clear {
            braces: 0,
            zeros: 0,
        }
    }

    /// The same of the text behind so many bytes.
    pub(crate) fn behind(self, count: usize) -> Clear
        ensures braces { result.braces ≡ self.braces - count }
        ensures zeros { result.zeros ≡ self.zeros - count }
    {
        Clear {
            braces: self.braces.saturating_sub(count),
            zeros: self.zeros.saturating_sub(count),
        }
    }

    /// The same if a comment that begins the text was searched to its closing brace.
    pub(crate) fn through(self, text: &[u8]) -> Clear
        requires clear { IsClear self text.now }
        ensures clear { IsClear result text.now }
    {
        match text {
            [b'{', ..] => self.to_brace(text),
            _ => self,
        }
    }

    // The same if the text was searched to its first closing brace.
    fn to_brace(self, text: &[u8]) -> Clear
        requires clear { IsClear self text.now }
        ensures clear { IsClear result text.now }
    {
        let braces = split_run_behind(Run::ToBrace, self.braces, text).0.len();
        if self.zeros >= braces {
            return Clear {
                braces,
                zeros: self.zeros,
            };
        }
        let comment = text.split_at(braces).0;
        let zeros = split_run_behind(Run::ToZero, self.zeros, comment).0.len();
        Clear { braces, zeros }
    }
}
