//! All lines of a record, without its tree.
ghost use Rattle.std.specs.Prelude.{◌≡◌, ◌+◌, ◌<◌, ◌≤◌, ◌==◌, ◌^◌, List, [], ◌∷◌, ◌++◌, Some, None, Ok, length, slice_get, IsTrue, IfOk, IfErr, MatchOption};
ghost use Rattle.game_tree.specs.Game.{GameTree};
ghost use Rattle.game_tree.specs.Legal.{deepest};
ghost use Rattle.game_tree.specs.declared.head.Tag.{Tag as TagValue};
ghost use Rattle.game_codec.specs.Fault.{IsRecordFault};
ghost use Rattle.game_codec.specs.Place.{beginning};
ghost use Rattle.game_codec.specs.Record.{IsRecord, IsSomeRecord};
ghost use Rattle.game_codec.specs.Visits.{all_visits};
ghost use Rattle.game_codec.specs.Blank.{blank, kept_in};
ghost use Rattle.game_codec.specs.Open.{HasGone, HasMet, IsSound, varied};

use super::breach::Breach;
use super::fault::RecordFault;
use super::place::Place;
use super::reading::Item;
use super::token::Token;
use super::tokens::next_token;
use super::walk::{begin, fault_at};
use arrayvec::ArrayVec;
use cell_core::Move;
use chess_laws::Position;
use move_codec::Numbered;
use std::marker::Model;
use std::mem::replace;

/// A walk over all lines of a record: each move of the main line and of every variation once, in the order in which they
/// are written. It takes no memory and makes no tree. The texts of the comments are not looked at.
#[derive(Drop)]
pub struct AllWalk<'a> {
    bytes: &'a [u8],
    lines: Lines<'a>,
    given: u32,
}

impl<'a> Model for AllWalk<'a> {
    ghost use Rattle.std.specs.Prelude.{◌==◌};
    ghost use Rattle.game_codec.specs.AllWalk.{AllWalked};

    ghost Value = { AllWalked };

    ghost use Rattle.game_codec.specs.Open.{IsAllWalk};

    ghost view = { λ w. record { bytes = w.bytes.now; given = w.given; position = w.lines.line.place.here.position; ply = w.lines.line.ply; on_main = w.lines.line.place.depth == 0 } };

    ghost invariant = { λ w. IsAllWalk w.bytes.now w.lines w.given };
}

impl<'a> AllWalk<'a> {
    /// The walk at the start of a record's main line, which keeps its open lines in the room that is lent. A record has fewer than 2^32
    /// bytes. The fault is the first of bytes that are no record.
    pub fn new(bytes: &'a [u8], outer: &'a mut OuterLines) -> Result<AllWalk<'a>, RecordFault>
        requires few { length bytes.now < 2 ^ 32 }
        ensures bytes { IfOk result (λ walk. walk.bytes ≡ bytes.now) }
        ensures given { IfOk result (λ walk. walk.given ≡ 0) }
        ensures ply { IfOk result (λ walk. walk.ply ≡ 0) }
        ensures main { IfOk result (λ walk. IsTrue walk.on_main) }
        ensures start { IfOk result (λ walk. (tags : List TagValue) (game : GameTree) → IsRecord bytes.now tags game → walk.position ≡ game.start) }
        ensures fault { IfErr result (λ _. IsSomeRecord bytes.now → ⊥) }
        // Nothing was passed unread, so it is the first fault of the bytes.
        ensures first { IfErr result (IsRecordFault bytes.now) }
    {
        let mut start = Numbered::standard();
        match begin(bytes, &mut start) {
            Ok(used) => Ok(AllWalk {
                bytes,
                lines: Lines::beginning(start, bytes.split_at(used).1, outer),
                given: 0,
            }),
            Err(breach) => Err(fault_at(bytes, breach)),
        }
    }

    /// The position after the move that was given last, or the start before the first.
    pub fn position(&self) -> &Position
        ensures position { result.now ≡ self.now.position }
    {
        self.lines.line.place.position()
    }

    /// How many moves of its own line lead there from the game's start.
    pub fn ply(&self) -> u32
        ensures ply { result ≡ self.now.ply }
    {
        self.lines.line.ply
    }

    /// Whether that line is the main line.
    pub fn on_main(&self) -> bool
        ensures main { result ≡ self.now.on_main }
    {
        self.lines.line.place.depth() == 0
    }

    /// Plays the next move in written order and gives it, or gives `None` after the last one. The fault is the first of the bytes. After
    /// `None` and after a fault the position is that of some line.
    pub fn step(&mut self) -> Result<Option<Move>, RecordFault>
        // On a record of a game it is the next of all its moves.
        ensures next { IfOk result (λ next. (tags : List TagValue) (game : GameTree) → IsRecord self.old.bytes tags game
            → MatchOption next (slice_get (all_visits game) self.old.given ≡ None)
            (λ m. slice_get (all_visits game) self.old.given ≡ Some (record { mv = m; position = self.new.position; ply = self.new.ply; main = self.new.on_main }))) }
        ensures given { IfOk result (λ next. MatchOption next (self.new.given ≡ self.old.given) (λ _. self.new.given ≡ self.old.given + 1)) }
        // A move takes a byte at least.
        ensures bounded { self.new.given ≤ length self.new.bytes }
        ensures bytes { self.new.bytes ≡ self.old.bytes }
        ensures fault { IfErr result (λ _. IsSomeRecord self.old.bytes → ⊥) }
        // All that stands before it was checked.
        ensures first { IfErr result (IsRecordFault self.old.bytes) }
        ensures place { IfErr result (λ fault. fault.place ≤ length self.old.bytes) }
    {
        match self.lines.next_move() {
            Err(breach) => Err(fault_at(self.bytes, breach)),
            Ok(None) => Ok(None),
            Ok(Some(m)) => {
                self.given += 1;
                Ok(Some(m))
            }
        }
    }
}

/// Room for the open lines of a walk: as many as variations may stand one inside another. All its places are cleared when it is made, which
/// may take longer than a walk. So it is lent to one walk after the other.
#[derive(Drop)]
pub struct OuterLines {
    lines: ArrayVec<Option<OpenLine>, 200>,
}

impl OuterLines {
    /// Room without an open line.
    pub fn new() -> OuterLines {
        OuterLines {
            lines: ArrayVec::new(),
        }
    }

    // Takes all lines out.
    fn clear(&mut self)
        ensures none { kept_in self.new ≡ [] }
    {
        self.lines.clear();
    }

    // Puts a line in, round which the others stand.
    fn push(&mut self, line: OpenLine)
        requires room { length (kept_in self.old) < 200 }
        ensures lines { kept_in self.new ≡ kept_in self.old ++ line ∷ [] }
    {
        self.lines.push(Some(line));
    }

    // Takes the line out that was put in last.
    fn pop(&mut self) -> OpenLine
        requires some { 0 < length (kept_in self.old) }
        ensures lines { kept_in self.old ≡ kept_in self.new ++ result ∷ [] }
    {
        match self.lines.pop() {
            Some(Some(line)) => line,
            _ => OpenLine::blank(),
        }
    }
}

// An open line: the place in it, and how many moves led there.
#[derive(Drop)]
struct OpenLine {
    place: Place,
    ply: u32,
}

impl OpenLine {
    // The line of the initial position.
    fn blank() -> OpenLine
        ensures blank { result ≡ blank }
    {
        OpenLine {
            place: Place::beginning(0, Numbered::standard()),
            ply: 0,
        }
    }

    // The beginning of a variation of the last move.
    fn variation(&self) -> OpenLine
        requires room { self.now.place.depth < deepest }
        ensures varied { result ≡ varied self.now }
    {
        OpenLine {
            place: self.place.variation(),
            ply: self.ply.saturating_sub(1),
        }
    }
}

// The open lines, those round the innermost from the main line on, and the bytes behind what was read.
#[derive(Drop)]
struct Lines<'a> {
    ahead: &'a [u8],
    line: OpenLine,
    outer: &'a mut OuterLines,
}

impl<'a> Lines<'a> {
    // The beginning of the main line.
    fn beginning(start: Numbered, ahead: &'a [u8], outer: &'a mut OuterLines) -> Lines<'a>
        ensures ahead { result.ahead.now ≡ ahead.now }
        ensures place { result.line.place ≡ beginning 0 start }
        ensures ply { result.line.ply ≡ 0 }
        ensures alone { kept_in result.outer.now ≡ [] }
    {
        outer.clear();
        Lines {
            ahead,
            line: OpenLine {
                place: Place::beginning(0, start),
                ply: 0,
            },
            outer,
        }
    }

    // Plays the next move.
    fn next_move(&mut self) -> Result<Option<Move>, Breach>
        requires sound { IsSound self.old }
        ensures gone { HasGone self.old result self.new }
    {
        loop {
            match self.meet() {
                Err(breach) => return Err(breach),
                Ok(Item::Play(m)) => return Ok(Some(m)),
                Ok(Item::End) => return Ok(None),
                Ok(Item::Mark) => {}
            }
        }
    }

    // Goes behind the first item of the bytes, unless that is the end of the game.
    fn meet(&mut self) -> Result<Item, Breach>
        requires sound { IsSound self.old }
        ensures met { HasMet self.old result self.new }
    {
        let ahead = self.ahead;
        let next = match next_token(&mut self.line.place, ahead) {
            Ok(next) => next,
            Err(what) => {
                return Err(Breach {
                    left: ahead.len(),
                    what,
                });
            }
        };
        let behind = ahead.split_at(next.used).1;
        match next.token {
            Token::Play(m) => {
                self.ahead = behind;
                self.line.ply += 1;
                Ok(Item::Play(m))
            }
            Token::Nag(_) => {
                self.ahead = behind;
                Ok(Item::Mark)
            }
            Token::Comment => {
                self.ahead = behind;
                Ok(Item::Mark)
            }
            Token::Open => {
                self.ahead = behind;
                self.begin_variation();
                Ok(Item::Mark)
            }
            Token::Close => {
                self.ahead = behind;
                self.line = self.outer.pop();
                Ok(Item::Mark)
            }
            Token::End => Ok(Item::End),
        }
    }

    // Begins a variation of the last move.
    fn begin_variation(&mut self)
        requires deep { self.old.line.place.depth < deepest }
        requires room { length (kept_in self.old.outer.now) < 200 }
        ensures ahead { self.new.ahead.now ≡ self.old.ahead.now }
        ensures line { self.new.line ≡ varied self.old.line }
        ensures outer { kept_in self.new.outer.now ≡ kept_in self.old.outer.now ++ self.old.line ∷ [] }
    {
        let inner = self.line.variation();
        self.outer.push(replace(&mut self.line, inner));
    }
}
