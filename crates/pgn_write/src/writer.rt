//! The writer of a movetext, token by token.
ghost use Rattle.std.specs.Prelude.{◌≡◌, ◌<◌, ◌≤◌, ◌+◌, ◌-◌, ◌^◌, ◌==◌, ◌++◌, ◌∷◌, [], if◌then◌else◌, not, map, length, OnOk, IsTrue, ℕ, List, take, drop, false};
ghost use Rattle.std.specs.Fmt.{decimal};
ghost use Rattle.std.specs.List.{prefix_len};
ghost use Rattle.pgn_write.specs.Token as token;
ghost use Rattle.pgn_write.specs.Token.{without_brace};
ghost use Rattle.pgn_write.specs.Layout.{column_after, has_room};
ghost use Rattle.pgn_write.specs.Writing.{IsLaid, begins_at, begun, flushed, grown, lead_in, lead_size, put, ready, size};

use cell_core::Colour;
use game_tree::Outcome;
use itoa::Buffer;
use std::alloc::AllocError;
use std::marker::Model;

// The greatest length of a line, in bytes (PGN standard, section 4.3).
const LINE: usize = 79;

/// Lays the tokens of a movetext on lines of at most 79 bytes. The last unit is open until the next one begins, since a closing
/// bracket may still belong to it, and only then is it known what leads it in.
///
/// After want of memory the writer is spent: what it holds then is not told.
#[derive(Drop)]
pub(crate) struct Writer {
    // What is written, and the last unit from `from` on. A space stands before it, unless it is the first.
    text: Vec<u8>,
    from: usize,
    column: Option<usize>,
    holds: bool,
}

impl Model for Writer {
    ghost use Rattle.pgn_write.specs.Writing.{IsLaid, Writing, coded_writing, seen};

    ghost Value = { Writing };

    ghost coded = { coded_writing };

    ghost view = { λ w. seen w.text.items w.from w.column w.holds };

    ghost invariant = { λ w. IsLaid w.text.items w.from w.column };
}

impl Writer {
    /// The writer of a movetext behind this text.
    pub(crate) fn new(written: Vec<u8>) -> Writer
        ensures begun { result ≡ begun written.items }
    {
        let from = written.len();
        Writer {
            text: written,
            from,
            column: None,
            holds: true,
        }
    }

    /// How many bytes there are, with the last unit. No memory holds as many as 64 bits can count.
    pub(crate) fn size(&self) -> u64
        ensures size { result ≡ size self.now }
        ensures small { result + 1 < 2 ^ 64 }
    {
        let bytes = self.text.as_slice().len() as u64;
        match self.column {
            None => bytes,
            Some(_) => bytes - 1,
        }
    }

    /// The text that was written, without the last unit if that was not written out.
    pub(crate) fn into_written(self) -> Vec<u8>
        ensures written { result.items ≡ self.written }
    {
        let Writer {
            mut text,
            from,
            column,
            ..
        } = self;
        match column {
            None => text.truncate(from),
            Some(_) => text.truncate(from - 1),
        }
        text
    }

    /// Writes the last unit out.
    pub(crate) fn flush(&mut self) -> Result<(), AllocError>
        ensures flushed { OnOk result (self.new ≡ flushed self.old) }
    {
        let column = lead_in(&mut self.text, self.from, self.column);
        self.text.push(b' ')?;
        self.from = self.text.len();
        self.column = Some(column);
        self.holds = true;
        Ok(())
    }
}

impl Writer {
    /// Adds the number of a move, with the side that moves.
    pub(crate) fn number(&mut self, number: u64, side: Colour) -> Result<(), AllocError>
        ensures put { OnOk result (self.new ≡ put (token.number number side) self.old) }
    {
        self.ready()?;
        self.grow_decimal(number, true)?;
        match side {
            Colour::White => self.grow(b". ", true)?,
            Colour::Black => self.grow(b"... ", true)?,
        }
        Ok(())
    }

    /// Adds the text of a move.
    pub(crate) fn mv(&mut self, text: &[u8]) -> Result<(), AllocError>
        ensures put { OnOk result (self.new ≡ put (token.move text.now) self.old) }
    {
        self.ready()?;
        self.grow(text, false)
    }

    /// Adds a NAG (numeric annotation glyph).
    pub(crate) fn nag(&mut self, nag: u8) -> Result<(), AllocError>
        ensures put { OnOk result (self.new ≡ put (token.nag nag) self.old) }
    {
        self.ready()?;
        self.grow(b"$", false)?;
        self.grow_decimal(u64::from(nag), false)
    }

    /// Adds a comment.
    pub(crate) fn comment(&mut self, text: &[u8]) -> Result<(), AllocError>
        ensures put { OnOk result (self.new ≡ put (token.comment text.now) self.old) }
    {
        self.ready()?;
        self.grow_comment(text)
    }

    /// Adds the opening bracket of a variation.
    pub(crate) fn open(&mut self) -> Result<(), AllocError>
        ensures put { OnOk result (self.new ≡ put token.opens self.old) }
    {
        self.ready()?;
        self.grow(b"(", true)
    }

    /// Adds the closing bracket of a variation.
    pub(crate) fn close(&mut self) -> Result<(), AllocError>
        ensures put { OnOk result (self.new ≡ put token.closes self.old) }
    {
        self.grow(b")", false)
    }

    /// Adds the result behind all moves.
    pub(crate) fn ending(&mut self, outcome: Outcome) -> Result<(), AllocError>
        ensures put { OnOk result (self.new ≡ put (token.ending outcome) self.old) }
    {
        self.ready()?;
        self.grow(outcome.text(), false)
    }

    // Makes sure that there is a unit for a token that is no closing bracket.
    fn ready(&mut self) -> Result<(), AllocError>
        ensures ready { OnOk result (self.new ≡ ready false self.old) }
    {
        if self.holds {
            return Ok(());
        }
        self.flush()
    }

    // Adds bytes to the unit, and says whether the next token belongs to it.
    #[tactic(auto, using(crate::proofs::WriterLaws::grown_is, crate::proofs::WriterLaws::laid_more))]
    fn grow(&mut self, bytes: &[u8], holds: bool) -> Result<(), AllocError>
        ensures grown { OnOk result (self.new ≡ grown bytes.now holds self.old) }
    {
        self.text.extend_from_slice(bytes)?;
        self.holds = holds;
        Ok(())
    }

    // The same of a number in decimal digits.
    fn grow_decimal(&mut self, number: u64, holds: bool) -> Result<(), AllocError>
        ensures grown { OnOk result (self.new ≡ grown (decimal number) holds self.old) }
    {
        let mut digits = Buffer::new();
        self.grow(digits.format(number).as_bytes(), holds)
    }

    // The same of a comment in its braces.
    #[tactic(auto, using(crate::proofs::WriterLaws::grown_is, crate::proofs::WriterLaws::laid_longer))]
    fn grow_comment(&mut self, text: &[u8]) -> Result<(), AllocError>
        ensures grown { OnOk result (self.new ≡ grown (123 ∷ map without_brace text.now ++ 125 ∷ []) false self.old) }
    {
        push_comment(&mut self.text, text)?;
        self.holds = false;
        Ok(())
    }
}

// Adds a comment in its braces. A closing brace inside it is written as a closing bracket.
fn push_comment(unit: &mut Vec<u8>, text: &[u8]) -> Result<(), AllocError>
    ensures pushed { OnOk result (unit.new.items ≡ unit.old.items ++ 123 ∷ map without_brace text.now ++ 125 ∷ []) }
    ensures longer { length unit.old.items ≤ length unit.new.items }
{
    unit.push(b'{')?;
    for byte in text {
        unit.push(without_brace(*byte))?;
    }
    unit.push(b'}')?;
    Ok(())
}

// The byte as a comment has it.
fn without_brace(byte: u8) -> u8
    ensures { result ≡ without_brace byte }
{
    if byte == b'}' { b')' } else { byte }
}

// Writes what leads the unit in before it, unless it is the first, and gives the length of the last line behind it.
#[tactic(auto, using(crate::proofs::WriterLaws::led_in))]
fn lead_in(text: &mut Vec<u8>, from: usize, column: Option<usize>) -> usize
    requires laid { IsLaid text.old.items from column }
    ensures text { text.new.items ≡ take (from - lead_size column) text.old.items ++ (lead_in column (drop from text.old.items) ++ drop from text.old.items) }
    ensures column { result ≡ column_after (begins_at column (drop from text.old.items)) (drop from text.old.items) }
{
    let unit = text.as_slice().split_at(from).1;
    let width = width(unit);
    let begin = begins_at(column, width);
    let behind = column_behind(begin, width, unit);
    if column.is_some() {
        text[from - 1] = lead(begin);
    }
    behind
}

// The byte that leads a unit in which begins there: a space, or a line feed if it begins a line.
fn lead(begin: usize) -> u8
    ensures { result ≡ (if begin == 0 then 10 else 32) }
{
    if begin == 0 { b'\n' } else { b' ' }
}

// Where on its line a unit begins whose first line is so wide, behind a line of so many bytes.
fn begins_at(column: Option<usize>, width: usize) -> usize
    ensures begins { (unit : List ℕ) → width ≡ prefix_len (λ byte. not (byte == 10)) unit → result ≡ begins_at column unit }
    ensures small { result ≤ 79 }
{
    match column {
        None => 0,
        Some(column) => {
            if has_room(column, width) {
                column + 1
            } else {
                0
            }
        }
    }
}

// Whether a line of `column` bytes has room for a space and a unit whose first line is so wide.
fn has_room(column: usize, width: usize) -> bool
    ensures room { (unit : List ℕ) → width ≡ prefix_len (λ byte. not (byte == 10)) unit → result ≡ has_room column unit }
    ensures small { IsTrue result → column < 79 }
{
    column < LINE && width < LINE - column
}

// The length of the last line behind a unit that begins there. Most units have one line, and are not gone through again.
#[tactic(auto, using(crate::proofs::WriterLaws::one_line))]
fn column_behind(begin: usize, width: usize, unit: &[u8]) -> usize
    requires small { begin ≤ 79 }
    requires width { width ≡ prefix_len (λ byte. not (byte == 10)) unit.now }
    ensures column { result ≡ column_after begin unit.now }
{
    if width == unit.len() {
        begin + width
    } else {
        column_after(begin, unit)
    }
}

// The bytes of a text up to its first line feed.
fn width(text: &[u8]) -> usize
    ensures width { result ≡ prefix_len (λ byte. not (byte == 10)) text.now }
{
    let mut at = 0;
    for byte in text {
        if *byte == b'\n' {
            return at;
        }
        at += 1;
    }
    at
}

// The length of the last line after a text that begins behind `column` bytes of its line.
fn column_after(column: usize, text: &[u8]) -> usize
    requires small { column ≤ 79 }
    ensures column { result ≡ column_after column text.now }
{
    let mut at = column;
    for byte in text {
        at = next_column(at, *byte);
    }
    at
}

// The length of the line after one more byte.
fn next_column(column: usize, byte: u8) -> usize
    requires small { column + 1 < 2 ^ 64 }
    ensures column { result ≡ (if byte == 10 then 0 else column + 1) }
    ensures bound { result ≤ column + 1 }
{
    if byte == b'\n' { 0 } else { column + 1 }
}
