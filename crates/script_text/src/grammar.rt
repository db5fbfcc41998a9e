//! A line spells one list of words.
ghost use Rattle.std.specs.Prelude.{◌≡◌, ℕ, List};
ghost use Rattle.script_text.specs.Words.{Word, words_of};
ghost use Rattle.script_text.specs.Grammar.{Spells};

/// A law: each line spells exactly one list of words, by whatever quotes and backslashes, and these are the words that it is cut into.
#[tactic(auto, using(crate::proofs::GrammarLaws::spelled, crate::proofs::GrammarLaws::spelled_once))]
pub fn lines_have_one_reading()
    ensures some { (line : List ℕ) → Spells line (words_of line) }
    ensures one { (line : List ℕ) (words : List Word) → Spells line words → words ≡ words_of line }
{}
