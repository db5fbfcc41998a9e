//! The texts of results.
ghost use Rattle.std.specs.Prelude.{◌≡◌, Some, IfSome};
ghost use Rattle.game_tree.specs.Outcome.{outcome_text, outcome_read};

use super::head::Outcome;

impl Outcome {
    /// The text of the result: `1-0`, `0-1`, `1/2-1/2` or `*` (PGN standard, section 8.1.1.7).
    pub fn text(&self) -> &'static [u8]
        ensures text { result.now ≡ outcome_text self.now }
        ensures reads_back { outcome_read result.now ≡ Some self.now }
    {
        match self {
            Outcome::White => b"1-0",
            Outcome::Black => b"0-1",
            Outcome::Draw => b"1/2-1/2",
            Outcome::Unknown => b"*",
        }
    }

    /// The result that `text` is, or `None` if it is none of the four texts.
    pub fn read(text: &[u8]) -> Option<Outcome>
        ensures read { result ≡ outcome_read text.now }
        ensures written { IfSome result (λ outcome. outcome_text outcome ≡ text.now) }
    {
        if text == b"1-0".as_slice() {
            return Some(Outcome::White);
        }
        if text == b"0-1".as_slice() {
            return Some(Outcome::Black);
        }
        if text == b"1/2-1/2".as_slice() {
            return Some(Outcome::Draw);
        }
        if text == b"*".as_slice() {
            return Some(Outcome::Unknown);
        }
        None
    }
}
