//! Where the reader of a body stands, and how it goes on.
ghost use Rattle.std.specs.Prelude.{◌≡◌, ◌≤◌, ◌<◌, ◌+◌, not, nat_lt, true, false, [], length, take, drop, None, Ok, IfOk, OnOk, OnErr, IfErr};
ghost use Rattle.std.specs.Str.{bytes_eq};
ghost use Rattle.base_files.specs.Counters.{Rose};
ghost use Rattle.base_files.specs.Told.{before, Tells};
ghost use Rattle.script_text.specs.Reading.{shorn};
ghost use Rattle.script_lines.specs.Bodies.{feed_at};
ghost use Rattle.script_lines.specs.Fronts.{EndsAt, IsLast, Says, Seen, StopsAt, begins_otherwise, within};
ghost use Rattle.script_lines.specs.Script.{longest_script};
ghost use Rattle.script_lines.specs.Standing.{IsBegun, Start, Standing, is_fresh, is_open, left_of, still_left};

use crate::reader::{LineReader, ReadError, feed_at};
use base_files::{Failed, FaultCount, Source};
use script_text::shorn;
use std::alloc::{AllocError, Global};

/// How many bytes are read at once to come to the end of a body.
const PIECE: usize = 4096;

/// How far a body was read.
#[derive(Clone, Copy, Debug, PartialEq, Eq)]
pub enum At {
    /// To the beginning of one of its lines.
    Line,
    /// Into one of its lines.
    Inside,
    /// To behind the line that ends it, which has so many bytes with its line feed.
    Behind(usize),
    /// To the end of the input.
    End,
}

/// What stands at the front of the bytes that were read of a body.
#[derive(Clone, Copy, Debug, PartialEq, Eq)]
enum Front {
    /// A byte of the body.
    Body,
    /// The line that ends it, which has so many bytes with its line feed.
    Ends(usize),
    /// The beginning of a line that may be this one, or nothing.
    Open,
}

/// A reader of lines that stands in the body of a command.
#[derive(Drop)]
pub struct Place {
    pub(crate) reader: LineReader,
    pub(crate) word: Vec<u8>,
    pub(crate) at: At,
    // Why it reads no further.
    pub(crate) stuck: Option<ReadError>,
    // How many reads failed.
    pub(crate) refused: FaultCount,
}

impl Place {
    /// The place of a reader that stands at the beginning of a body, which ends at the line of this word.
    pub fn new(alloc: Global, reader: LineReader, word: &[u8]) -> Result<Place, AllocError>
        ensures begins { IfOk result (IsBegun reader word.now) }
    {
        Ok(Place {
            reader,
            word: Vec::from_slice(alloc, word)?,
            at: At::Line,
            stuck: None,
            refused: FaultCount::new(),
        })
    }

    /// The reader, which stands behind what was read of the body.
    pub fn into_reader(self) -> LineReader
        ensures reader { result ≡ self.reader }
    {
        self.reader
    }

    /// How far the body was read.
    pub fn at(&self) -> At
        ensures at { result ≡ self.now.at }
    {
        self.at
    }

    /// Why it is read no further: the input failed, or the greatest length of a script was met.
    pub fn stuck(&self) -> Option<ReadError>
        ensures stuck { result ≡ self.now.stuck }
    {
        self.stuck
    }

    /// Reads the body to its end.
    pub fn drain<S: Source>(&mut self, input: &mut S) -> Result<(), Failed>
        requires short { length self.old.word.items ≤ 32 }
        ensures over { OnOk result (is_open self.new.at ≡ false) }
        ensures counts { self.old.refused ≤ self.new.refused }
        ensures cause { OnErr result (Rose self.old.refused self.new.refused) }
        ensures same { S.origin input.new ≡ S.origin input.old }
        ensures stands { (s : Start) → Standing s self.old (S.left input.old) (S.budget input.old) (S.faults input.old) → Standing s self.new (S.left input.new) (S.budget input.new) (S.faults input.new) }
    {
        let mut piece = [0; PIECE];
        'pieces: loop {
            let count = match self.read(input, &mut piece) {
                Ok(count) => count,
                Err(Failed) => return Err(Failed),
            };
            if count == 0 {
                return Ok(());
            }
        }
    }

    // Reads the next bytes of the body into the front of `into`, and says how many: none only at its end. A fault of the input and the
    // greatest length of a script are faults, and it reads no further behind them.
    pub(crate) fn read<S: Source>(
        &mut self,
        input: &mut S,
        into: &mut [u8],
    ) -> Result<usize, Failed>
        requires some { 0 < length into.old }
        requires short { length self.old.word.items ≤ 32 }
        ensures fits { IfOk result (λ n. n ≤ length into.old) }
        ensures given { IfOk result (λ n. left_of self.old (S.left input.old) ≡ before (take n into.new) (left_of self.new (S.left input.new))) }
        ensures end { IfOk result (λ n. n ≡ 0 → Tells (left_of self.new (S.left input.new)) []) }
        ensures spent { IfOk result (λ n. still_left self.new (S.budget input.new) + n ≡ still_left self.old (S.budget input.old)) }
        ensures none_lost { OnErr result (left_of self.new (S.left input.new) ≡ left_of self.old (S.left input.old)) }
        ensures none_spent { OnErr result (still_left self.new (S.budget input.new) ≡ still_left self.old (S.budget input.old)) }
        ensures counts { self.old.refused ≤ self.new.refused }
        ensures cause { OnErr result (Rose self.old.refused self.new.refused) }
        ensures over { IfOk result (λ n. n ≡ 0 → is_open self.new.at ≡ false) }
        ensures word { self.new.word ≡ self.old.word }
        ensures same { S.origin input.new ≡ S.origin input.old }
        ensures stands { (s : Start) → Standing s self.old (S.left input.old) (S.budget input.old) (S.faults input.old) → Standing s self.new (S.left input.new) (S.budget input.new) (S.faults input.new) }
    {
        if self.stuck.is_some() {
            return Err(self.refused.fault());
        }
        if self.is_over() {
            return Ok(0);
        }
        match self.look(input) {
            Ok(Front::Body) => Ok(self.give(into)),
            Ok(Front::Ends(size)) => {
                self.pass_end(size);
                Ok(0)
            }
            Ok(Front::Open) => {
                self.at = At::End;
                Ok(0)
            }
            Err(error) => {
                self.stuck = Some(error);
                Err(self.refused.fault())
            }
        }
    }

    // Reads so far that it is known whether a byte of the body comes next. Nothing comes at the end of the input.
    fn look<S: Source>(&mut self, input: &mut S) -> Result<Front, ReadError>
        requires short { length self.old.word.items ≤ 32 }
        requires inside { is_open self.old.at ≡ true }
        ensures kept { before self.new.reader.unread (S.left input.new) ≡ before self.old.reader.unread (S.left input.old) }
        ensures rest { self.new ≡ record self.old { reader = self.new.reader } }
        ensures tagged { self.new.reader.tagged ≡ self.old.reader.tagged }
        ensures used { self.new.reader.used ≡ self.old.reader.used }
        ensures says { IfOk result (Seen self.new (S.left input.new)) }
        ensures stuck { IfErr result (StopsAt self.new.reader) }
        ensures fits { result ≡ Ok Front.Open → self.new.reader.used + length self.new.reader.unread ≤ longest_script }
        ensures limit { self.new.reader.used ≤ longest_script }
        ensures sum { S.budget input.new + length self.new.reader.unread ≡ S.budget input.old + length self.old.reader.unread }
        ensures falls { S.budget input.new ≤ S.budget input.old }
        ensures counts { S.faults input.old ≤ S.faults input.new }
        ensures same { S.origin input.new ≡ S.origin input.old }
        ensures cause { IfErr result (λ e. e ≡ ReadError.Failed → Rose (S.faults input.old) (S.faults input.new)) }
    {
        'looks: loop {
            match self.front() {
                Front::Body => return Ok(Front::Body),
                Front::Ends(size) => return Ok(Front::Ends(size)),
                Front::Open => {}
            }
            if self.is_full() {
                return Err(ReadError::TooLong);
            }
            match self.reader.fill_behind(input) {
                Ok(true) => {}
                Ok(false) => return Ok(self.last()),
                Err(Failed) => return Err(ReadError::Failed),
            }
        }
    }

    // What stands at the front of the unread bytes, of those within the greatest length of a script.
    fn front(&self) -> Front
        requires inside { is_open self.now.at ≡ true }
        ensures says { Says self.now.word.items (is_fresh self.now.at) (within self.now.reader) result }
        ensures used { self.now.reader.used ≤ longest_script }
    {
        let bytes = self.reader.within();
        if self.at == At::Line {
            line_front(self.word.as_slice(), bytes)
        } else if bytes.is_empty() {
            Front::Open
        } else {
            Front::Body
        }
    }

    // What stands there at the end of the input: more of the body, or nothing, if the word ends it too.
    #[tactic(auto, using(crate::proofs::BodyLaws::word_whole))]
    fn last(&self) -> Front
        requires inside { is_open self.now.at ≡ true }
        requires none { feed_at self.now.reader.unread ≡ None }
        ensures last { IsLast self.now.word.items (is_fresh self.now.at) self.now.reader.unread result }
    {
        let unread = self.reader.unread();
        if unread.is_empty() {
            return Front::Open;
        }
        if self.at != At::Line {
            return Front::Body;
        }
        if is_word(self.word.as_slice(), unread) {
            Front::Open
        } else {
            Front::Body
        }
    }

    // Whether the whole body was read.
    fn is_over(&self) -> bool
        ensures over { result ≡ not (is_open self.now.at) }
    {
        match self.at {
            At::Line => false,
            At::Inside => false,
            At::Behind(_) => true,
            At::End => true,
        }
    }

    // Whether more bytes were read than a script may have.
    fn is_full(&self) -> bool
        ensures full { result ≡ nat_lt longest_script (self.now.reader.used + length self.now.reader.unread) }
    {
        self.reader.within().len() < self.reader.unread().len()
    }

    // Passes over the line that ends the body.
    fn pass_end(&mut self, size: usize)
        requires there { size ≤ length self.old.reader.unread }
        requires within { self.old.reader.used + size ≤ longest_script }
        ensures unread { self.new.reader.unread ≡ drop size self.old.reader.unread }
        ensures tagged { self.new.reader.tagged ≡ self.old.reader.tagged }
        ensures used { self.new.reader.used ≡ self.old.reader.used + size }
        ensures rest { self.new ≡ record self.old { reader = self.new.reader; at = At.Behind size } }
    {
        self.reader.pass(size);
        self.at = At::Behind(size);
    }

    // Gives the unread bytes within the greatest length of a script, up to and with the first line feed, as far as there is room, and says
    // how many.
    fn give(&mut self, into: &mut [u8]) -> usize
        requires room { 0 < length into.old }
        requires some { 0 < length (within self.old.reader) }
        ensures fits { result ≤ length into.old }
        ensures there { result ≤ length self.old.reader.unread }
        ensures some { 0 < result }
        ensures given { take result into.new ≡ take result self.old.reader.unread }
        ensures ends { EndsAt (take result self.old.reader.unread) self.new.at }
        ensures unread { self.new.reader.unread ≡ drop result self.old.reader.unread }
        ensures tagged { self.new.reader.tagged ≡ self.old.reader.tagged }
        ensures used { self.new.reader.used ≡ self.old.reader.used + result }
        ensures rest { self.new ≡ record self.old { reader = self.new.reader; at = self.new.at } }
    {
        let bytes = self.reader.within();
        let most = bytes.split_at(bytes.len().min(into.len())).0;
        let (count, at) = part_end(most);
        into[..count].copy_from_slice(most.split_at(count).0);
        self.reader.pass(count);
        self.at = at;
        count
    }
}

// How many bytes of a body are given at once: up to and with the first line feed, or all of these.
#[tactic(auto, using(crate::proofs::BodyLaws::part_ended, crate::proofs::BodyLaws::feed_inside, crate::proofs::BodyLaws::whole_part))]
fn part_end(bytes: &[u8]) -> (usize, At)
    requires some { 0 < length bytes.now }
    ensures fits { result.0 ≤ length bytes.now }
    ensures some { 0 < result.0 }
    ensures ends { EndsAt (take result.0 bytes.now) result.1 }
{
    match feed_at(bytes) {
        Some(place) => (place + 1, At::Line),
        None => (bytes.len(), At::Inside),
    }
}

// What stands at the front of these bytes, with which a line begins. The first byte rules most lines out.
#[tactic(auto, using(crate::proofs::BodyLaws::otherwise_begun))]
fn line_front(word: &[u8], bytes: &[u8]) -> Front
    ensures says { Says word.now true bytes.now result }
{
    if begins_otherwise(word, bytes) {
        return Front::Body;
    }
    match feed_at(bytes) {
        Some(place) => {
            if is_word(word, bytes.split_at(place).0) {
                Front::Ends(place + 1)
            } else {
                Front::Body
            }
        }
        None => {
            if bytes.len() <= word.len() + 1 {
                Front::Open
            } else {
                Front::Body
            }
        }
    }
}

// Whether the bytes begin with another byte than the word.
#[inline(always)]
fn begins_otherwise(word: &[u8], bytes: &[u8]) -> bool
    ensures otherwise { result ≡ begins_otherwise word.now bytes.now }
{
    match (word, bytes) {
        ([wanted, ..], [byte, ..]) => *byte != *wanted,
        _ => false,
    }
}

// Whether a line, which stands without its line feed, is the word.
fn is_word(word: &[u8], line: &[u8]) -> bool
    ensures word { result ≡ bytes_eq (shorn line.now) word.now }
{
    shorn(line) == word
}
