//! Any words can be spelled in a line.
ghost use Rattle.std.specs.Prelude.{◌≡◌, ℕ, List, Some, map};
ghost use Rattle.script_text.specs.Words.{words_of};
ghost use Rattle.script_text.specs.Spelling.{quoted_line};

/// A law: words of any bytes, each in quotes with a backslash before its quotes and backslashes, are read as they are.
#[tactic(auto, using(crate::proofs::SpellingLaws::quoted_line_read))]
pub fn quoted_words_are_read()
    ensures read { (texts : List (List ℕ)) → words_of (quoted_line texts) ≡ map (λ text. Some text) texts }
{}
