//! The bytes of a source that were read and not yet taken.
ghost use Rattle.std.specs.Prelude.{◌≡◌, ◌≤◌, ◌<◌, ◌+◌, ◌-◌, ◌==◌, ◌∷◌, ◌⊎◌, ℕ, List, None, IfSome, OnSome, ◌&&◌, slice_index_or, [], length, take, drop, option_map, true, false, IfErr, OnOk, IsTrue, MatchOption, fold};
ghost use Rattle.base_files.specs.Told.{before, Tells};
ghost use Rattle.std.specs.Bool.{OnTrue, OnFalse};
ghost use Rattle.pgn_read.specs.Bytes.{begins};
ghost use Rattle.pgn_read.specs.Causes.{HasCause};
ghost use Rattle.pgn_read.specs.Items.{begins_game};
ghost use Rattle.pgn_read.specs.Lexing.{lexed};
ghost use Rattle.pgn_read.specs.Place.{next_place, first_place};
ghost use Rattle.pgn_read.specs.Text.{longest, most_ahead, skipped, behind_mark, on_remark};
ghost use Rattle.pgn_read.specs.Clear.{IsClear};
ghost use Rattle.pgn_read.specs.Readers.{with_more, ahead};
ghost use Rattle.pgn_read.specs.Window.{gap_behind, resumed_at, waiting, Decides};

use crate::buffer::Buffer;
use crate::clear::Clear;
use crate::error::PgnError;
use crate::place::Place;
use crate::run::{begins, is_white};
use base_files::Source;
use std::alloc::Global;
use std::marker::Model;

/// The greatest length of a game's text.
pub(crate) const LONGEST: usize = 1_048_576;

/// How many bytes are read on at least, beside as many again as are unread.
const FURTHER: usize = 16_384;

/// The bytes of a source that were read and not yet taken, with the place of the first of them.
#[derive(Drop)]
pub(crate) struct Window {
    buffer: Buffer,
    clear: Clear,
    place: Place,
    room: usize,
    ended: bool,
}

impl Model for Window {
    ghost use Rattle.std.specs.Prelude.{◌≤◌};
    ghost use Rattle.pgn_read.specs.Clear.{IsClear};
    ghost use Rattle.pgn_read.specs.Readers.{Window as Seen};
    ghost use Rattle.pgn_read.specs.Text.{longest};

    ghost Value = { Seen };

    ghost view = { λ w. record { unread = w.buffer; place = w.place; room = w.room; ended = w.ended } };

    ghost invariant = { λ w. (w.room ≤ longest) × IsClear w.clear w.buffer };
}

impl Window {
    /// Before the first byte of a text.
    pub(crate) fn new(alloc: Global) -> Window
        ensures new { result ≡ record { unread = []; place = first_place; room = longest; ended = false } }
    {
        Window {
            buffer: Buffer::new(alloc),
            clear: Clear::nothing(),
            place: Place::first(),
            room: LONGEST,
            ended: false,
        }
    }

    /// The unread bytes.
    pub(crate) fn unread(&self) -> &[u8]
        ensures unread { result.now ≡ self.now.unread }
    {
        self.buffer.unread()
    }

    /// A law: there are never more of them.
    pub(crate) fn is_bounded(&self)
        ensures most { length self.now.unread ≤ most_ahead }
    {
        let _unread = self.buffer.unread();
    }

    /// How far the unread bytes were searched.
    pub(crate) fn clear(&self) -> Clear
        ensures clear { IsClear result self.now.unread }
    {
        self.clear
    }

    /// Searches a comment in braces that the unread bytes begin with.
    pub(crate) fn search_comment(&mut self)
        ensures same { self.new ≡ self.old }
    {
        self.clear = self.clear.through(self.buffer.unread());
    }

    /// The place of the first unread byte.
    pub(crate) fn place(&self) -> Place
        ensures place { result ≡ self.now.place }
    {
        self.place
    }

    /// How many bytes a game's text may still have.
    pub(crate) fn room(&self) -> usize
        ensures room { result ≡ self.now.room }
        ensures most { self.now.room ≤ longest }
    {
        self.room
    }

    /// Begins a call: the end of the source is not known.
    pub(crate) fn begin(&mut self)
        ensures begun { self.new ≡ record self.old { ended = false } }
    {
        self.ended = false;
    }

    /// The length of a game's text counts from here.
    pub(crate) fn count_from_here(&mut self)
        ensures counted { self.new ≡ record self.old { room = longest } }
    {
        self.room = LONGEST;
    }

    // The first unread byte.
    fn peek(&self) -> Option<u8>
        ensures first { MatchOption result (self.now.unread ≡ []) (λ byte. self.now.unread ≡ byte ∷ drop 1 self.now.unread) }
    {
        match self.unread() {
            [byte, ..] => Some(*byte),
            [] => None,
        }
    }

    // Passes over the first unread byte.
    fn pass_byte(&mut self, byte: u8)
        requires some { 0 < length self.old.unread }
        ensures unread { self.new.unread ≡ drop 1 self.old.unread }
        ensures place { self.new.place ≡ next_place self.old.place byte }
        ensures room { self.new.room ≡ self.old.room - 1 }
        ensures ended { self.new.ended ≡ self.old.ended }
    {
        self.place = self.place.next(byte);
        self.room = self.room.saturating_sub(1);
        self.drop_front(1);
    }

    // The place behind so many unread bytes.
    fn place_behind(&self, count: usize) -> Place
        requires there { count ≤ length self.now.unread }
        ensures place { result ≡ fold next_place self.now.place (take count self.now.unread) }
    {
        self.place.behind(self.unread().split_at(count).0)
    }

    /// Passes over so many unread bytes.
    pub(crate) fn pass(&mut self, count: usize)
        requires there { count ≤ length self.old.unread }
        ensures unread { self.new.unread ≡ drop count self.old.unread }
        ensures place { self.new.place ≡ fold next_place self.old.place (take count self.old.unread) }
        ensures room { self.new.room ≡ self.old.room - count }
        ensures ended { self.new.ended ≡ self.old.ended }
    {
        self.place = self.place_behind(count);
        self.room = self.room.saturating_sub(count);
        self.drop_front(count);
    }

    // Takes so many unread bytes away, and nothing else.
    #[tactic(auto, using(crate::proofs::ClearLaws::passed_clear))]
    fn drop_front(&mut self, count: usize)
        requires there { count ≤ length self.old.unread }
        ensures dropped { self.new ≡ record self.old { unread = drop count self.old.unread } }
    {
        self.clear = self.clear.behind(count);
        self.buffer.pass(count);
    }

    // Reads until there are so many unread bytes, or to the source's end.
    #[tactic(auto, using(crate::proofs::ClearLaws::grown_clear))]
    fn fill<S: Source>(&mut self, source: &mut S, wanted: usize) -> Result<(), PgnError>
        requires room { wanted + 4096 ≤ most_ahead }
        requires told { IsTrue self.old.ended → Tells (S.left source.old) [] }
        ensures kept { OnOk result (before self.old.unread (S.left source.old) ≡ before self.new.unread (S.left source.new)) }
        ensures full { OnOk result (IsTrue self.new.ended ⊎ (wanted ≤ length self.new.unread)) }
        ensures told { OnOk result (IsTrue self.new.ended → Tells (S.left source.new) []) }
        ensures place { self.new.place ≡ self.old.place }
        ensures room { self.new.room ≡ self.old.room }
        ensures sum { OnOk result (S.budget source.new + length self.new.unread ≡ S.budget source.old + length self.old.unread) }
        ensures spends { S.budget source.new ≤ S.budget source.old }
        ensures counts { S.faults source.old ≤ S.faults source.new }
        ensures same { S.origin source.new ≡ S.origin source.old }
        ensures cause { IfErr result (λ e. HasCause e (S.faults source.old) (S.faults source.new)) }
    {
        if self.ended {
            return Ok(());
        }
        self.buffer.fill(source, wanted)?;
        self.ended = self.buffer.unread().len() < wanted;
        Ok(())
    }

    // Reads until there are so many unread bytes, or to the source's end, unless there are so many already.
    fn look<S: Source>(&mut self, source: &mut S, count: usize) -> Result<(), PgnError>
        requires few { count ≤ 8 }
        requires told { IsTrue self.old.ended → Tells (S.left source.old) [] }
        ensures kept { OnOk result (ahead self.old (S.left source.old) ≡ ahead self.new (S.left source.new)) }
        ensures there { OnOk result (IsTrue self.new.ended ⊎ (count ≤ length self.new.unread)) }
        ensures told { OnOk result (IsTrue self.new.ended → Tells (S.left source.new) []) }
        ensures place { self.new.place ≡ self.old.place }
        ensures room { self.new.room ≡ self.old.room }
        ensures sum { OnOk result (S.budget source.new + length self.new.unread ≡ S.budget source.old + length self.old.unread) }
        ensures spends { S.budget source.new ≤ S.budget source.old }
        ensures counts { S.faults source.old ≤ S.faults source.new }
        ensures same { S.origin source.new ≡ S.origin source.old }
        ensures cause { IfErr result (λ e. HasCause e (S.faults source.old) (S.faults source.new)) }
    {
        if self.unread().len() >= count {
            return Ok(());
        }
        self.fill(source, count)
    }

    // Passes over a byte of a gap, and says whether a skipped line goes on behind it; nothing if the gap has ended.
    fn pass_gap(&mut self, inside: bool) -> Option<bool>
        ensures passes { IfSome result (λ later. (more : List ℕ) → gap_behind inside (with_more self.old more) ≡ gap_behind later (with_more self.new more)) }
        ensures shorter { OnSome result (length self.new.unread < length self.old.unread) }
        ensures ended { self.new.ended ≡ self.old.ended }
        ensures stops { result ≡ None → 0 < length self.old.unread → (more : List ℕ) → gap_behind inside (with_more self.old more) ≡ with_more self.old more }
        ensures kept { result ≡ None → self.new ≡ self.old }
    {
        let byte = self.peek()?;
        let remark = on_remark(inside, self.place, byte);
        if !remark && !is_white(byte) {
            return None;
        }
        self.pass_byte(byte);
        Some(remark && byte != b'\n')
    }

    // Passes over a gap that is one space, as most are, and says whether there was one.
    fn pass_space(&mut self) -> bool
        ensures passed { OnTrue result ((more : List ℕ) → gap_behind false (with_more self.old more) ≡ with_more self.new more) }
        ensures there { OnTrue result (1 ≤ length self.new.unread) }
        ensures shorter { OnTrue result (length self.new.unread < length self.old.unread) }
        ensures ended { self.new.ended ≡ self.old.ended }
        ensures kept { OnFalse result (self.new ≡ self.old) }
    {
        let [b' ', next, ..] = self.unread() else {
            return false;
        };
        if is_white(*next) || *next == b'%' {
            return false;
        }
        self.pass_byte(b' ');
        true
    }

    /// Skips white space and lines that are skipped, up to the next token or the end of the text.
    pub(crate) fn skip_gap<S: Source>(&mut self, source: &mut S) -> Result<(), PgnError>
        requires told { IsTrue self.old.ended → Tells (S.left source.old) [] }
        ensures skipped { OnOk result (option_map skipped (ahead self.old (S.left source.old)) ≡ ahead self.new (S.left source.new)) }
        ensures there { OnOk result (IsTrue self.new.ended ⊎ (1 ≤ length self.new.unread)) }
        ensures told { OnOk result (IsTrue self.new.ended → Tells (S.left source.new) []) }
        ensures sum { OnOk result (S.budget source.new + length self.new.unread ≤ S.budget source.old + length self.old.unread) }
        ensures spends { S.budget source.new ≤ S.budget source.old }
        ensures counts { S.faults source.old ≤ S.faults source.new }
        ensures same { S.origin source.new ≡ S.origin source.old }
        ensures cause { IfErr result (λ e. HasCause e (S.faults source.old) (S.faults source.new)) }
    {
        if self.pass_space() {
            return Ok(());
        }
        self.skip_on(source)
    }

    // The same of any gap. Apart from the loop over tokens it leaves the way over a gap of one space short.
    #[inline(never)]
    fn skip_on<S: Source>(&mut self, source: &mut S) -> Result<(), PgnError>
        requires told { IsTrue self.old.ended → Tells (S.left source.old) [] }
        ensures skipped { OnOk result (option_map skipped (ahead self.old (S.left source.old)) ≡ ahead self.new (S.left source.new)) }
        ensures there { OnOk result (IsTrue self.new.ended ⊎ (1 ≤ length self.new.unread)) }
        ensures told { OnOk result (IsTrue self.new.ended → Tells (S.left source.new) []) }
        ensures sum { OnOk result (S.budget source.new + length self.new.unread ≤ S.budget source.old + length self.old.unread) }
        ensures spends { S.budget source.new ≤ S.budget source.old }
        ensures counts { S.faults source.old ≤ S.faults source.new }
        ensures same { S.origin source.new ≡ S.origin source.old }
        ensures cause { IfErr result (λ e. HasCause e (S.faults source.old) (S.faults source.new)) }
    {
        let mut inside = false;
        'gap: loop {
            if let Err(error) = self.look(source, 1) {
                return Err(error);
            }
            match self.pass_gap(inside) {
                Some(later) => inside = later,
                None => return Ok(()),
            }
        }
    }

    // Whether this is the beginning of a text, and has a byte order mark.
    fn has_mark(&self) -> bool
        ensures mark { result ≡ ((self.now.place.line == 1) && (self.now.place.column == 1)) && begins (239 ∷ 187 ∷ 191 ∷ []) self.now.unread }
    {
        self.place.line == 1 && self.place.column == 1 && begins(b"\xef\xbb\xbf", self.unread())
    }

    /// Skips a byte order mark at the beginning of a text.
    pub(crate) fn skip_mark<S: Source>(&mut self, source: &mut S) -> Result<(), PgnError>
        requires told { IsTrue self.old.ended → Tells (S.left source.old) [] }
        ensures skipped { OnOk result (option_map behind_mark (ahead self.old (S.left source.old)) ≡ ahead self.new (S.left source.new)) }
        ensures told { OnOk result (IsTrue self.new.ended → Tells (S.left source.new) []) }
        ensures sum { OnOk result (S.budget source.new + length self.new.unread ≤ S.budget source.old + length self.old.unread) }
        ensures spends { S.budget source.new ≤ S.budget source.old }
        ensures counts { S.faults source.old ≤ S.faults source.new }
        ensures same { S.origin source.new ≡ S.origin source.old }
        ensures cause { IfErr result (λ e. HasCause e (S.faults source.old) (S.faults source.new)) }
    {
        if let Err(error) = self.look(source, 3) {
            return Err(error);
        }
        if self.has_mark() {
            self.pass(3);
        }
        Ok(())
    }

    /// Whether the unread bytes tell the token at their front, which has so many bytes behind it, or that it is too long.
    pub(crate) fn tells(&self, behind: usize) -> bool
        requires behind { behind ≡ length (lexed self.now.unread).rest }
        ensures decides { OnTrue result (Decides self.now) }
        ensures not_ended { OnFalse result (self.now.ended ≡ false) }
        ensures short { OnFalse result (length self.now.unread < longest + 8) }
    {
        self.ended || behind >= 8 || self.unread().len() >= self.room + 8
    }

    /// Reads on, or to the source's end.
    #[tactic(auto, using(crate::proofs::WindowLaws::paid))]
    pub(crate) fn read_on<S: Source>(&mut self, source: &mut S) -> Result<(), PgnError>
        requires told { IsTrue self.old.ended → Tells (S.left source.old) [] }
        requires not_ended { self.old.ended ≡ false }
        requires short { length self.old.unread < longest + 8 }
        ensures kept { OnOk result (ahead self.old (S.left source.old) ≡ ahead self.new (S.left source.new)) }
        ensures told { OnOk result (IsTrue self.new.ended → Tells (S.left source.new) []) }
        ensures sum { OnOk result (S.budget source.new + length self.new.unread ≡ S.budget source.old + length self.old.unread) }
        ensures further { OnOk result (S.budget source.new + waiting self.new < S.budget source.old + waiting self.old) }
        ensures spends { S.budget source.new ≤ S.budget source.old }
        ensures counts { S.faults source.old ≤ S.faults source.new }
        ensures same { S.origin source.new ≡ S.origin source.old }
        ensures cause { IfErr result (λ e. HasCause e (S.faults source.old) (S.faults source.new)) }
    {
        self.fill(source, 2 * self.unread().len() + FURTHER)
    }

    // Whether a line begins here on which reading goes on behind a fault.
    fn begins_game(&self) -> bool
        ensures begins { result ≡ begins_game self.now.place self.now.room self.now.unread }
    {
        self.place.column == 1 && self.room != LONGEST && begins(b"[Event \"", self.unread())
    }

    // Passes over a byte before such a line, and says whether there was one.
    fn pass_faulty(&mut self) -> bool
        ensures passes { OnTrue result (begins_game self.old.place self.old.room self.old.unread ≡ false) }
        ensures some { OnTrue result (0 < length self.old.unread) }
        ensures stops { OnFalse result ((self.old.unread ≡ []) ⊎ (begins_game self.old.place self.old.room self.old.unread ≡ true)) }
        ensures kept { OnFalse result (self.new ≡ self.old) }
        ensures unread { OnTrue result (self.new.unread ≡ drop 1 self.old.unread) }
        ensures place { OnTrue result (self.new.place ≡ next_place self.old.place (slice_index_or self.old.unread 0 0)) }
        ensures room { OnTrue result (self.new.room ≡ self.old.room - 1) }
        ensures ended { self.new.ended ≡ self.old.ended }
    {
        let Some(byte) = self.peek() else {
            return false;
        };
        if self.begins_game() {
            return false;
        }
        self.pass_byte(byte);
        true
    }

    /// Goes on, behind a fault, to the first line that begins a game, or to the end of the text.
    pub(crate) fn resume<S: Source>(&mut self, source: &mut S) -> Result<(), PgnError>
        requires told { IsTrue self.old.ended → Tells (S.left source.old) [] }
        ensures resumed { OnOk result (option_map resumed_at (ahead self.old (S.left source.old)) ≡ ahead self.new (S.left source.new)) }
        ensures spends { S.budget source.new ≤ S.budget source.old }
        ensures counts { S.faults source.old ≤ S.faults source.new }
        ensures same { S.origin source.new ≡ S.origin source.old }
        ensures cause { IfErr result (λ e. HasCause e (S.faults source.old) (S.faults source.new)) }
    {
        'lines: loop {
            if let Err(error) = self.look(source, 8) {
                return Err(error);
            }
            if !self.pass_faulty() {
                return Ok(());
            }
        }
    }
}

// Whether a byte is on a line that is skipped.
fn on_remark(inside: bool, place: Place, byte: u8) -> bool
    ensures { result ≡ on_remark inside place byte }
{
    inside || (place.column == 1 && byte == b'%')
}
