//! A line is cut into words.
ghost use Rattle.std.specs.Prelude.{◌≡◌, ℕ, [], ◌∷◌, List, IfOk, IfErr};
ghost use Rattle.std.specs.Option.{option_map};
ghost use Rattle.script_text.specs.Words.{words_of, is_blank, is_escaped};
ghost use Rattle.script_text.specs.Cutting.{words_with};
ghost use Rattle.script_text.specs.declared.words.Place.TheVariants.{Between, Inside, Quoted, Escaped};
ghost use Rattle.script_text.specs.declared.fault.CommandError.TheVariants.{Memory};

use crate::fault::CommandError;
use std::alloc::Global;
use std::marker::Model;
use std::mem::replace;

/// A word of a line: its bytes without quotes and escapes, or nothing if a quoted part in it is not closed.
#[derive(Debug, Drop)]
pub(crate) struct Word {
    text: Option<Vec<u8>>,
}

impl Model for Word {
    ghost use Rattle.std.specs.Prelude.{ℕ, List, Option};
    ghost use Rattle.std.specs.Option.{option_map};

    ghost Value = { Option (List ℕ) };

    ghost view = { λ w. option_map (λ text. text.items) w.text };
}

impl Word {
    // The text of the word.
    pub(crate) fn text(&self) -> Option<&[u8]>
        ensures { option_map (λ text. text.now) result ≡ self.now }
    {
        match &self.text {
            Some(text) => Some(text.as_slice()),
            None => None,
        }
    }
}

/// Where in a line a byte stands.
#[derive(Clone, Copy, Debug, PartialEq, Eq)]
pub(crate) enum Place {
    /// Between two words.
    Between,
    /// In a word, outside quotes.
    Inside,
    /// In a quoted part of a word.
    Quoted,
    /// In a quoted part, right behind a backslash.
    Escaped,
}

/// A line that is being cut: the words that are whole, the bytes of the word that is not, and where the next byte stands.
#[derive(Drop)]
struct Cutter {
    words: Vec<Word>,
    word: Vec<u8>,
    place: Place,
}

impl Cutter {
    // The words of the line, which ends here.
    #[tactic(auto, unfolding(crate::specs::Cutting::words_with, crate::specs::Words::cut))]
    fn finish(self) -> Result<Vec<Word>, CommandError>
        ensures words { IfOk result (λ words. words.items ≡ words_with self []) }
        ensures memory { IfErr result (λ error. error ≡ Memory) }
    {
        let Cutter {
            mut words,
            word,
            place,
        } = self;
        match place {
            Place::Between => {}
            Place::Inside => words.push(Word { text: Some(word) })?,
            Place::Quoted | Place::Escaped => words.push(Word { text: None })?,
        }
        Ok(words)
    }

    // Takes the next byte of the line.
    #[tactic(auto, unfolding(crate::specs::Cutting::words_with, crate::specs::Words::cut), using(crate::proofs::WordLaws::front_front, crate::proofs::WordLaws::front_none, crate::proofs::WordLaws::ended))]
    fn take(&mut self, alloc: Global, byte: u8) -> Result<(), CommandError>
        ensures goes_on { IfOk result (λ _. (rest : List ℕ) → words_with self.new rest ≡ words_with self.old (byte ∷ rest)) }
        ensures memory { IfErr result (λ error. error ≡ Memory) }
    {
        match self.place {
            Place::Between => self.take_between(byte),
            Place::Inside => self.take_inside(alloc, byte),
            Place::Quoted => self.take_quoted(byte),
            Place::Escaped => self.take_escaped(byte),
        }
    }

    #[tactic(auto, unfolding(crate::specs::Cutting::words_with, crate::specs::Words::cut), using(crate::proofs::WordLaws::front_front, crate::proofs::WordLaws::front_none, crate::proofs::WordLaws::ended))]
    fn take_between(&mut self, byte: u8) -> Result<(), CommandError>
        requires { self.old.place ≡ Between }
        ensures goes_on { IfOk result (λ _. (rest : List ℕ) → words_with self.new rest ≡ words_with self.old (byte ∷ rest)) }
        ensures memory { IfErr result (λ error. error ≡ Memory) }
    {
        if is_blank(byte) {
            return Ok(());
        }
        if byte == b'"' {
            self.place = Place::Quoted;
            return Ok(());
        }
        self.place = Place::Inside;
        self.word.push(byte)?;
        Ok(())
    }

    #[tactic(auto, unfolding(crate::specs::Cutting::words_with, crate::specs::Words::cut), using(crate::proofs::WordLaws::front_front, crate::proofs::WordLaws::front_none, crate::proofs::WordLaws::ended))]
    fn take_inside(&mut self, alloc: Global, byte: u8) -> Result<(), CommandError>
        requires { self.old.place ≡ Inside }
        ensures goes_on { IfOk result (λ _. (rest : List ℕ) → words_with self.new rest ≡ words_with self.old (byte ∷ rest)) }
        ensures memory { IfErr result (λ error. error ≡ Memory) }
    {
        if is_blank(byte) {
            let text = replace(&mut self.word, Vec::new(alloc));
            self.words.push(Word { text: Some(text) })?;
            self.place = Place::Between;
            return Ok(());
        }
        if byte == b'"' {
            self.place = Place::Quoted;
            return Ok(());
        }
        self.word.push(byte)?;
        Ok(())
    }

    #[tactic(auto, unfolding(crate::specs::Cutting::words_with, crate::specs::Words::cut), using(crate::proofs::WordLaws::front_front, crate::proofs::WordLaws::front_none, crate::proofs::WordLaws::ended))]
    fn take_quoted(&mut self, byte: u8) -> Result<(), CommandError>
        requires { self.old.place ≡ Quoted }
        ensures goes_on { IfOk result (λ _. (rest : List ℕ) → words_with self.new rest ≡ words_with self.old (byte ∷ rest)) }
        ensures memory { IfErr result (λ error. error ≡ Memory) }
    {
        if byte == b'"' {
            self.place = Place::Inside;
            return Ok(());
        }
        if byte == b'\\' {
            self.place = Place::Escaped;
            return Ok(());
        }
        self.word.push(byte)?;
        Ok(())
    }

    #[tactic(auto, unfolding(crate::specs::Cutting::words_with, crate::specs::Words::cut), using(crate::proofs::WordLaws::front_front, crate::proofs::WordLaws::front_none, crate::proofs::WordLaws::ended))]
    fn take_escaped(&mut self, byte: u8) -> Result<(), CommandError>
        requires { self.old.place ≡ Escaped }
        ensures goes_on { IfOk result (λ _. (rest : List ℕ) → words_with self.new rest ≡ words_with self.old (byte ∷ rest)) }
        ensures memory { IfErr result (λ error. error ≡ Memory) }
    {
        self.place = Place::Quoted;
        if is_escaped(byte) {
            self.word.push(byte)?;
            return Ok(());
        }
        self.word.push(b'\\')?;
        self.word.push(byte)?;
        Ok(())
    }
}

// Whether the byte stands between words.
fn is_blank(byte: u8) -> bool
    ensures { result ≡ is_blank byte }
{
    byte == b' ' || byte == b'\t'
}

// Whether a backslash before the byte makes it a plain byte of a quoted part.
fn is_escaped(byte: u8) -> bool
    ensures { result ≡ is_escaped byte }
{
    byte == b'"' || byte == b'\\'
}

/// The words of a line.
#[tactic(auto, unfolding(crate::specs::Cutting::words_with), using(crate::proofs::WordLaws::front_none))]
pub(crate) fn cut(alloc: Global, line: &[u8]) -> Result<Vec<Word>, CommandError>
    ensures words { IfOk result (λ words. words.items ≡ words_of line.now) }
    ensures memory { IfErr result (λ error. error ≡ Memory) }
{
    let mut cutter = Cutter {
        words: Vec::new(alloc),
        word: Vec::new(alloc),
        place: Place::Between,
    };
    for byte in line {
        cutter.take(alloc, *byte)?;
    }
    cutter.finish()
}
