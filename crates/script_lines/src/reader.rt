//! The lines of the input, one after the other. No more than one line is held.
ghost use Rattle.std.specs.Prelude.{◌≡◌, ◌≤◌, ◌<◌, ◌+◌, ◌-◌, ℕ, List, [], ◌++◌, length, take, drop, true, false, Option, Some, None, Ok, OnOk, OnErr, IfOk, IfErr, IfSome};
ghost use Rattle.base_files.specs.Counters.{Rose};
ghost use Rattle.base_files.specs.Told.{before, Tells};
ghost use Rattle.script_text.specs.Sound.{IsSoundLine};
ghost use Rattle.script_lines.specs.Bodies.{feed_at};
ghost use Rattle.script_lines.specs.Clients.{line_of};
ghost use Rattle.script_lines.specs.Reading.{TookPart, TookLine, TookLast, SaysLast, IsFull, Stuck, most_kept};
ghost use Rattle.script_lines.specs.Script.{longest_script, piece_len};

use crate::line::{Line, read_line};
use base_files::{Failed, Source};
use std::alloc::{AllocError, Global};
use std::marker::Model;

/// How many bytes are read at once.
const PIECE: usize = 32_768;

/// How many bytes of a line are kept: two more than a client and its command may have. So what is kept of a line that
/// is too long is too long.
const MOST_KEPT: usize = 65_541;

/// The most bytes that a script may have.
const LONGEST_SCRIPT: u64 = 1_073_741_824;

/// The reader of the lines of a script.
#[derive(Drop)]
pub struct LineReader {
    // Whether lines name their clients.
    tagged: bool,
    // The bytes from `from` to `to` were read and not yet taken.
    piece: Vec<u8>,
    from: usize,
    to: usize,
    line: Vec<u8>,
    used: u64,
}

impl Model for LineReader {
    ghost use Rattle.std.specs.Prelude.{◌≡◌, ◌≤◌, length, take, drop};
    ghost use Rattle.script_lines.specs.Reading.{Reader, most_kept};
    ghost use Rattle.script_lines.specs.Script.{longest_script, piece_len};

    ghost Value = { Reader };

    ghost view = { λ r. record { tagged = r.tagged; unread = drop r.from (take r.to r.piece.items); line = r.line.items; used = r.used } };

    ghost invariant = { λ r. (length r.piece.items ≡ piece_len) × (r.from ≤ r.to) × (r.to ≤ piece_len) × (length r.line.items ≤ most_kept) × (r.used ≤ longest_script) };
}

/// How far the bytes that were read have taken a line.
#[derive(Clone, Copy, Debug, PartialEq, Eq)]
enum Part {
    /// To its line feed.
    Ended,
    /// To the end of what was read.
    Open,
    /// To the greatest length of a script, behind which there is more.
    Limit,
}

/// Why no line was read.
#[derive(Clone, Copy, Debug, PartialEq, Eq)]
pub enum ReadError {
    /// The input failed.
    Failed,
    /// The script has more than 1,073,741,824 bytes, and no line that ends within them ends it.
    TooLong,
    /// Memory ran out.
    Memory,
}

/// A line that was read.
#[derive(Drop)]
pub enum Taken {
    /// It ended with a line feed.
    Line(Line),
    /// The end of the input ended it.
    Last(Line),
}

impl LineReader {
    /// A reader that has read nothing yet, of lines that name their clients or of such that do not.
    pub fn new(alloc: Global, tagged: bool) -> Result<LineReader, AllocError>
        ensures new { IfOk result (λ reader. reader ≡ record { tagged = tagged; unread = []; line = []; used = 0 }) }
    {
        Ok(LineReader {
            tagged,
            piece: vec![in alloc; 0; PIECE]?,
            from: 0,
            to: 0,
            line: Vec::new(alloc),
            used: 0,
        })
    }

    // The bytes that were read and not yet taken.
    pub(crate) fn unread(&self) -> &[u8]
        ensures unread { result.now ≡ self.now.unread }
    {
        &self.piece[self.from..self.to]
    }

    // Reads the next bytes of the input; none only at its end.
    fn fill<S: Source>(&mut self, input: &mut S) -> Result<(), Failed>
        requires empty { self.old.unread ≡ [] }
        ensures given { OnOk result (S.left input.old ≡ before self.new.unread (S.left input.new)) }
        ensures end { OnOk result (self.new.unread ≡ [] → Tells (S.left input.new) []) }
        ensures spent { OnOk result (S.budget input.new + length self.new.unread ≡ S.budget input.old) }
        ensures none_given { OnErr result (self.new.unread ≡ []) }
        ensures none_lost { OnErr result (S.left input.new ≡ S.left input.old) }
        ensures none_spent { OnErr result (S.budget input.new ≡ S.budget input.old) }
        ensures tagged { self.new.tagged ≡ self.old.tagged }
        ensures line { self.new.line ≡ self.old.line }
        ensures used { self.new.used ≡ self.old.used }
        ensures counts { S.faults input.old ≤ S.faults input.new }
        ensures same { S.origin input.new ≡ S.origin input.old }
        ensures cause { OnErr result (Rose (S.faults input.old) (S.faults input.new)) }
    {
        self.from = 0;
        self.to = 0;
        self.to = input.read(self.piece.as_mut_slice())?;
        Ok(())
    }

    // Whether there are unread bytes. If there are none, the next ones are read first.
    fn refill<S: Source>(&mut self, input: &mut S) -> Result<bool, Failed>
        ensures kept { before self.old.unread (S.left input.old) ≡ before self.new.unread (S.left input.new) }
        ensures tagged { self.new.tagged ≡ self.old.tagged }
        ensures line { self.new.line ≡ self.old.line }
        ensures used { self.new.used ≡ self.old.used }
        ensures some { result ≡ Ok true → 0 < length self.new.unread }
        ensures none { result ≡ Ok false → self.new.unread ≡ [] }
        ensures end { result ≡ Ok false → Tells (S.left input.new) [] }
        ensures unasked { 0 < length self.old.unread → (input.new ≡ input.old) × (self.new ≡ self.old) }
        ensures failed { OnErr result (self.new.unread ≡ []) }
        ensures sum { S.budget input.new + length self.new.unread ≡ S.budget input.old + length self.old.unread }
        ensures falls { S.budget input.new ≤ S.budget input.old }
        ensures counts { S.faults input.old ≤ S.faults input.new }
        ensures same { S.origin input.new ≡ S.origin input.old }
        ensures cause { OnErr result (Rose (S.faults input.old) (S.faults input.new)) }
    {
        if !self.unread().is_empty() {
            return Ok(true);
        }
        self.fill(input)?;
        Ok(!self.unread().is_empty())
    }

    // Reads the next bytes of the input behind the unread ones, which are fewer than a piece; whether there are any.
    pub(crate) fn fill_behind<S: Source>(&mut self, input: &mut S) -> Result<bool, Failed>
        requires room { length self.old.unread < piece_len }
        ensures kept { before self.old.unread (S.left input.old) ≡ before self.new.unread (S.left input.new) }
        ensures tagged { self.new.tagged ≡ self.old.tagged }
        ensures line { self.new.line ≡ self.old.line }
        ensures used { self.new.used ≡ self.old.used }
        ensures some { result ≡ Ok true → length self.old.unread < length self.new.unread }
        ensures none { result ≡ Ok false → self.new.unread ≡ self.old.unread }
        ensures end { result ≡ Ok false → Tells (S.left input.new) [] }
        ensures failed { OnErr result (self.new.unread ≡ self.old.unread) }
        ensures sum { S.budget input.new + length self.new.unread ≡ S.budget input.old + length self.old.unread }
        ensures falls { S.budget input.new ≤ S.budget input.old }
        ensures counts { S.faults input.old ≤ S.faults input.new }
        ensures same { S.origin input.new ≡ S.origin input.old }
        ensures cause { OnErr result (Rose (S.faults input.old) (S.faults input.new)) }
    {
        shift(&mut self.piece, self.from, self.to);
        let unread = self.to - self.from;
        self.from = 0;
        self.to = unread;
        let count = read_behind(self.piece.as_mut_slice(), unread, input)?;
        self.to = unread + count;
        Ok(count > 0)
    }

    // Takes so many of the unread bytes into the line.
    #[tactic(auto, using(crate::proofs::ReadingLaws::kept_more))]
    fn take(&mut self, count: usize) -> Result<(), AllocError>
        requires there { count ≤ length self.old.unread }
        requires within { self.old.used + count ≤ longest_script }
        ensures unread { OnOk result (self.new.unread ≡ drop count self.old.unread) }
        ensures tagged { self.new.tagged ≡ self.old.tagged }
        ensures line { OnOk result (self.new.line ≡ take most_kept (self.old.line ++ take count self.old.unread)) }
        ensures used { OnOk result (self.new.used ≡ self.old.used + count) }
        ensures failed { OnErr result (self.new.unread ≡ self.old.unread) }
        ensures unused { OnErr result (self.new.used ≡ self.old.used) }
    {
        let room = MOST_KEPT - self.line.len();
        let unread = &self.piece[self.from..self.to];
        let kept = unread.split_at(count.min(room)).0;
        self.line.extend_from_slice(kept)?;
        self.from += count;
        self.used += count as u64;
        Ok(())
    }

    // The unread bytes within the greatest length of a script.
    pub(crate) fn within(&self) -> &[u8]
        ensures within { result.now ≡ take (longest_script - self.now.used) self.now.unread }
        ensures used { self.now.used ≤ longest_script }
    {
        let room = (LONGEST_SCRIPT - self.used) as usize;
        let unread = &self.piece[self.from..self.to];
        unread.split_at(unread.len().min(room)).0
    }

    // Takes the unread bytes up to and with the first line feed, which stands at a place within the greatest length of a script.
    #[tactic(auto, using(crate::proofs::ReadingLaws::took_line))]
    fn take_line(&mut self, place: usize) -> Result<(), AllocError>
        requires at { feed_at (take (longest_script - self.old.used) self.old.unread) ≡ Some place }
        ensures line { OnOk result ((l : Option (List ℕ)) → TookLine self.old.line self.old l (line_of self.new.tagged self.new.line) self.new l) }
        ensures sum { self.new.used + length self.new.unread ≡ self.old.used + length self.old.unread }
        ensures shorter { OnOk result (length self.new.unread < length self.old.unread) }
    {
        self.take(place)?;
        self.pass(1);
        Ok(())
    }

    // Passes over so many unread bytes, which count.
    pub(crate) fn pass(&mut self, count: usize)
        requires there { count ≤ length self.old.unread }
        requires within { self.old.used + count ≤ longest_script }
        ensures unread { self.new.unread ≡ drop count self.old.unread }
        ensures tagged { self.new.tagged ≡ self.old.tagged }
        ensures line { self.new.line ≡ self.old.line }
        ensures used { self.new.used ≡ self.old.used + count }
    {
        self.from += count;
        self.used += count as u64;
    }

    // Takes the unread bytes within the greatest length of a script, of which none is a line feed; whether there are more.
    #[tactic(auto, using(crate::proofs::ReadingLaws::took_part))]
    fn take_open(&mut self) -> Result<bool, AllocError>
        requires none { feed_at (take (longest_script - self.old.used) self.old.unread) ≡ None }
        ensures part { OnOk result ((l : Option (List ℕ)) → TookPart self.old.line self.old l self.new l) }
        ensures all { result ≡ Ok false → self.new.unread ≡ [] }
        ensures none { result ≡ Ok false → feed_at self.old.unread ≡ None }
        ensures full { result ≡ Ok true → IsFull self.new }
        ensures sum { self.new.used + length self.new.unread ≡ self.old.used + length self.old.unread }
    {
        let within = self.within().len();
        self.take(within)?;
        Ok(!self.unread().is_empty())
    }

    // Takes the unread bytes up to and with the first line feed, or all of them, within the greatest length of a script.
    fn take_part(&mut self) -> Result<Part, AllocError>
        ensures line { result ≡ Ok Part.Ended → (l : Option (List ℕ)) → TookLine self.old.line self.old l (line_of self.new.tagged self.new.line) self.new l }
        ensures open { result ≡ Ok Part.Open → (l : Option (List ℕ)) → TookPart self.old.line self.old l self.new l }
        ensures all { result ≡ Ok Part.Open → self.new.unread ≡ [] }
        ensures none { result ≡ Ok Part.Open → feed_at self.old.unread ≡ None }
        ensures limit { result ≡ Ok Part.Limit → (l : Option (List ℕ)) → TookPart self.old.line self.old l self.new l }
        ensures full { result ≡ Ok Part.Limit → IsFull self.new }
        ensures sum { self.new.used + length self.new.unread ≡ self.old.used + length self.old.unread }
        ensures shorter { result ≡ Ok Part.Ended → length self.new.unread < length self.old.unread }
    {
        match feed_at(self.within()) {
            Some(place) => {
                self.take_line(place)?;
                Ok(Part::Ended)
            }
            None => {
                let more = self.take_open()?;
                Ok(if more { Part::Limit } else { Part::Open })
            }
        }
    }

    // Reads a line, and says whether a line feed ended it; else the end of the input did.
    #[tactic(auto, using(crate::proofs::ReadingLaws::unasked_still))]
    fn read_line<S: Source>(&mut self, input: &mut S) -> Result<bool, ReadError>
        requires fresh { self.old.line ≡ [] }
        ensures line { result ≡ Ok true → TookLine [] self.old (S.left input.old) (line_of self.new.tagged self.new.line) self.new (S.left input.new) }
        ensures last { result ≡ Ok false → TookLast self.old (S.left input.old) self.new (S.left input.new) }
        ensures unasked { (feed_at self.old.unread ≡ None → ⊥) → input.new ≡ input.old }
        ensures stuck { IfErr result (λ e. Stuck e self.old (S.left input.old) self.new (S.left input.new)) }
        ensures sum { S.budget input.new + (self.new.used + length self.new.unread) ≡ S.budget input.old + (self.old.used + length self.old.unread) }
        ensures falls { S.budget input.new ≤ S.budget input.old }
        ensures ahead { result ≡ Ok true → S.budget input.new + length self.new.unread < S.budget input.old + length self.old.unread }
        ensures counts { S.faults input.old ≤ S.faults input.new }
        ensures same { S.origin input.new ≡ S.origin input.old }
        ensures cause { IfErr result (λ e. e ≡ ReadError.Failed → Rose (S.faults input.old) (S.faults input.new)) }
    {
        'parts: loop {
            let some = match self.refill(input) {
                Ok(some) => some,
                Err(Failed) => return Err(ReadError::Failed),
            };
            if !some {
                return Ok(false);
            }
            match self.take_part() {
                Ok(Part::Ended) => return Ok(true),
                Ok(Part::Open) => {}
                Ok(Part::Limit) => return Err(ReadError::TooLong),
                Err(_) => return Err(ReadError::Memory),
            }
        }
    }

    /// Reads the next line, and what it says.
    pub fn next<S: Source>(&mut self, alloc: Global, input: &mut S) -> Result<Taken, ReadError>
        ensures line { (line : Line) → result ≡ Ok (Taken.Line line) → TookLine [] self.old (S.left input.old) line self.new (S.left input.new) }
        ensures last { (line : Line) → result ≡ Ok (Taken.Last line) → SaysLast self.old (S.left input.old) line self.new (S.left input.new) }
        ensures stuck { IfErr result (λ e. Stuck e self.old (S.left input.old) self.new (S.left input.new)) }
        // While a whole line stands unread nothing is asked of the input, and of a line no more is held than tells what it says.
        ensures unasked { (feed_at self.old.unread ≡ None → ⊥) → input.new ≡ input.old }
        ensures held { OnOk result (length self.new.line ≤ most_kept) }
        ensures within { OnOk result (self.new.used ≤ longest_script) }
        ensures few { OnOk result (length self.new.unread ≤ piece_len) }
        ensures bounds { (line : Line) → result ≡ Ok (Taken.Line line) → IsSoundLine line.order }
        ensures last_bounds { (line : Line) → result ≡ Ok (Taken.Last line) → IsSoundLine line.order }
        ensures client { (line : Line) → result ≡ Ok (Taken.Line line) → IfSome line.client (λ client. client < 4) }
        ensures last_client { (line : Line) → result ≡ Ok (Taken.Last line) → IfSome line.client (λ client. client < 4) }
        ensures sum { S.budget input.new + (self.new.used + length self.new.unread) ≡ S.budget input.old + (self.old.used + length self.old.unread) }
        ensures falls { S.budget input.new ≤ S.budget input.old }
        ensures ahead { (line : Line) → result ≡ Ok (Taken.Line line) → S.budget input.new + length self.new.unread < S.budget input.old + length self.old.unread }
        ensures counts { S.faults input.old ≤ S.faults input.new }
        ensures same { S.origin input.new ≡ S.origin input.old }
        ensures cause { IfErr result (λ e. e ≡ ReadError.Failed → Rose (S.faults input.old) (S.faults input.new)) }
    {
        self.line.clear();
        match self.read_line(input) {
            Ok(true) => Ok(Taken::Line(self.says(alloc)?)),
            Ok(false) => Ok(Taken::Last(self.says(alloc)?)),
            Err(error) => Err(error),
        }
    }

    // What the line says.
    fn says(&self, alloc: Global) -> Result<Line, ReadError>
        ensures line { IfOk result (λ line. line ≡ line_of self.now.tagged self.now.line) }
        ensures bounds { IfOk result (λ line. IsSoundLine line.order) }
        ensures client { IfOk result (λ line. IfSome line.client (λ client. client < 4)) }
        ensures memory { IfErr result (λ e. e ≡ ReadError.Memory) }
        ensures within { self.now.used ≤ longest_script }
        ensures few { length self.now.unread ≤ piece_len }
        ensures held { length self.now.line ≤ most_kept }
    {
        read_line(alloc, self.tagged, self.line.as_slice())
    }
}

// Moves the bytes from one place to another to the front.
fn shift(piece: &mut Vec<u8>, from: usize, to: usize)
    requires order { from ≤ to }
    requires inside { to ≤ length piece.old.items }
    ensures moved { take (to - from) piece.new.items ≡ drop from (take to piece.old.items) }
    ensures size { length piece.new.items ≡ length piece.old.items }
{
    piece.copy_within(from..to, 0);
}

// Reads the next bytes of the input behind the first ones, which stay, and says how many.
fn read_behind<S: Source>(piece: &mut [u8], kept: usize, input: &mut S) -> Result<usize, Failed>
    requires room { kept < length piece.old }
    ensures kept { take kept piece.new ≡ take kept piece.old }
    ensures size { length piece.new ≡ length piece.old }
    ensures fits { IfOk result (λ n. kept + n ≤ length piece.old) }
    ensures given { IfOk result (λ n. S.left input.old ≡ before (drop kept (take (kept + n) piece.new)) (S.left input.new)) }
    ensures end { IfOk result (λ n. n ≡ 0 → Tells (S.left input.new) []) }
    ensures spent { IfOk result (λ n. S.budget input.new + n ≡ S.budget input.old) }
    ensures none_lost { OnErr result (S.left input.new ≡ S.left input.old) }
    ensures none_spent { OnErr result (S.budget input.new ≡ S.budget input.old) }
    ensures counts { S.faults input.old ≤ S.faults input.new }
    ensures same { S.origin input.new ≡ S.origin input.old }
    ensures cause { OnErr result (Rose (S.faults input.old) (S.faults input.new)) }
{
    match input.read(&mut piece[kept..]) {
        Ok(count) => Ok(count),
        Err(Failed) => Err(Failed),
    }
}

// The place of the first line feed.
pub(crate) fn feed_at(bytes: &[u8]) -> Option<usize>
    ensures place { result ≡ feed_at bytes.now }
{
    bytes.iter().position(|byte| *byte == b'\n')
}
