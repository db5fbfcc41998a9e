//! A record read and checked in one pass, without its tree.
ghost use Rattle.std.specs.Prelude.{◌≡◌, ◌+◌, ◌<◌, ◌≤◌, ◌^◌, List, length, IfOk, IfErr, OnOk, MatchOption};
ghost use Rattle.chess_laws.specs.Step.{Step};
ghost use Rattle.game_tree.specs.Game.{GameTree};
ghost use Rattle.game_tree.specs.Replay.{next_at, plies_of, position_at};
ghost use Rattle.game_tree.specs.declared.head.Tag.{Tag as TagValue};
ghost use Rattle.game_codec.specs.Fault.{IsRecordFault};
ghost use Rattle.game_codec.specs.Reading.{BreaksLine, BreaksRecord, Does, Ends, Finishes, Passes, Plays, Reads};
ghost use Rattle.game_codec.specs.Place.{IsMoveDue, Takes};
ghost use Rattle.game_codec.specs.Record.{IsRecord};
ghost use Rattle.game_codec.specs.Tallying.{added, size_of};
ghost use Rattle.game_codec.specs.Token.{Open};
ghost use Rattle.game_codec.specs.Totals.{AreTotals};

use super::breach::Breach;
use super::checking::{check_line, check_texts};
use super::fault::RecordFault;
use super::place::{Place, is_move_due};
use super::tally::Tally;
use super::token::Token;
use super::tokens::next_token;
use super::totals::Totals;
use super::walk::fault_at;
use cell_core::Move;
use chess_laws::Position;
use move_codec::Numbered;
use std::marker::Model;

/// The place of a main line, which the readings of records use one after the other.
#[derive(Drop)]
pub struct MainPlace {
    place: Place,
}

impl Model for MainPlace {
    ghost Value = { Unit {0} };

    ghost view = { λ _. tt };
}

impl MainPlace {
    /// A place that no reading has used.
    pub fn new() -> MainPlace {
        MainPlace {
            place: Place::beginning(0, Numbered::standard()),
        }
    }
}

/// A reading of a record that goes from one move of the main line to the next and checks all that stands between them.
/// It tells each fault that the bytes have, and at the end what all lines have. It takes no memory and makes no tree.
#[derive(Drop)]
pub struct Reading<'a> {
    bytes: &'a [u8],
    at: At<'a>,
    ply: u32,
}

impl<'a> Model for Reading<'a> {
    ghost use Rattle.game_codec.specs.Walk.{Walked};

    ghost Value = { Walked };

    ghost use Rattle.game_codec.specs.Reading.{IsReading};

    ghost view = { λ r. record { bytes = r.bytes.now; ply = r.ply; position = r.at.place.now.here.position } };

    ghost invariant = { λ r. IsReading r.bytes.now r.at r.ply };
}

impl<'a> Reading<'a> {
    /// The reading at the start of a record's main line, behind its tags and its start. A record has fewer than 2^32 bytes. The fault
    /// is the first of the bytes. What the place was used for before does not matter.
    pub fn new(bytes: &'a [u8], main: &'a mut MainPlace) -> Result<Reading<'a>, RecordFault>
        requires few { length bytes.now < 2 ^ 32 }
        ensures bytes { IfOk result (λ reading. reading.bytes ≡ bytes.now) }
        ensures start { IfOk result (λ reading. reading.ply ≡ 0) }
        ensures fault { IfErr result (IsRecordFault bytes.now) }
    {
        let place = &mut main.place;
        match place.begin(bytes) {
            Ok(used) => Ok(Reading {
                bytes,
                at: At {
                    rest: bytes.split_at(used).1,
                    place,
                    tally: Tally::new(),
                },
                ply: 0,
            }),
            Err(breach) => Err(fault_at(bytes, breach)),
        }
    }

    /// The position that was reached. On a record of a game it is the game's after so many half-moves of the main line.
    pub fn position(&self) -> &Position
        ensures position { result.now ≡ self.now.position }
        ensures replay { (tags : List TagValue) (game : GameTree) → IsRecord self.now.bytes tags game → result.now ≡ position_at game self.now.ply }
    {
        self.at.place.position()
    }

    /// How many half-moves of the main line were played.
    pub fn ply(&self) -> u32
        ensures ply { result ≡ self.now.ply }
        ensures within { (tags : List TagValue) (game : GameTree) → IsRecord self.now.bytes tags game → result ≤ plies_of game }
        // A move takes a byte at least.
        ensures bounded { result ≤ length self.now.bytes }
    {
        self.ply
    }

    /// Plays the next move of the main line and gives it, or gives `None` at its end. What stands before it was then checked,
    /// variations with all their moves. The fault is the first of the bytes. After `None` and after a fault the position is as it was.
    pub fn step(&mut self) -> Result<Option<Move>, RecordFault>
        // On a record of a game this is the game's next move.
        ensures next { IfOk result (λ next. (tags : List TagValue) (game : GameTree) → IsRecord self.old.bytes tags game → next ≡ next_at game self.old.ply) }
        ensures played { IfOk result (λ next. MatchOption next (self.new ≡ self.old)
            (λ m. Step self.old.position m self.new.position × ((self.new.ply ≡ self.old.ply + 1) × (self.new.bytes ≡ self.old.bytes)))) }
        ensures fault { IfErr result (IsRecordFault self.old.bytes) }
        // A move takes a byte at least.
        ensures bounded { self.new.ply ≤ length self.new.bytes }
        ensures unchanged { IfErr result (λ _. self.new ≡ self.old) }
    {
        match self.at.next() {
            Err(breach) => Err(fault_at(self.bytes, breach)),
            Ok(None) => Ok(None),
            Ok(Some(m)) => {
                self.ply += 1;
                Ok(Some(m))
            }
        }
    }

    /// Reads what is left of the record, and gives what all lines of its game have. The fault is the first of the bytes.
    pub fn finish(self) -> Result<Totals, RecordFault>
        // The bytes are a record of this game.
        ensures record_of { IfOk result (λ totals. (tags : List TagValue) × ((game : GameTree) × (IsRecord self.entry.bytes tags game × AreTotals game totals))) }
        ensures fault { IfErr result (IsRecordFault self.entry.bytes) }
    {
        let bytes = self.bytes;
        let mut at = self.at;
        match at.totals() {
            Ok(totals) => Ok(totals),
            Err(breach) => Err(fault_at(bytes, breach)),
        }
    }
}

// A place of a main line, the bytes from there on, and what was met before.
#[derive(Drop)]
struct At<'a> {
    place: &'a mut Place,
    rest: &'a [u8],
    tally: Tally,
}

// One item of a main line.
#[derive(Drop)]
pub(crate) enum Item {
    // A NAG, a comment, or a whole variation.
    Mark,
    Play(Move),
    // The end of the game, which is not passed.
    End,
}

impl<'a> At<'a> {
    // Goes to the end of the record, and gives what all lines have.
    fn totals(&mut self) -> Result<Totals, Breach>
        requires main { self.old.place.now.depth ≡ 0 }
        requires room { size_of self.old.tally + length self.old.rest.now ≤ usize.MAX }
        ensures finishes { IfOk result (Finishes self.old) }
        ensures fault { IfErr result (BreaksRecord self.old) }
    {
        self.to_end()?;
        let comments = check_texts(self.tally.comments, self.rest.split_at(1).1)?;
        Ok(Totals {
            variations: self.tally.variations,
            comments,
            nags: self.tally.nags,
            promo: self.tally.promo,
            under: self.tally.under,
        })
    }

    // Goes to the end of the main line.
    fn to_end(&mut self) -> Result<(), Breach>
        requires main { self.old.place.now.depth ≡ 0 }
        requires room { size_of self.old.tally + length self.old.rest.now ≤ usize.MAX }
        ensures end { OnOk result (Reads self.old self.new × Ends self.new) }
        ensures fault { IfErr result (BreaksLine self.old) }
    {
        'moves: loop {
            match self.next()? {
                None => return Ok(()),
                Some(_m) => {}
            }
        }
    }

    // Goes behind the next move of the main line, or to its end.
    fn next(&mut self) -> Result<Option<Move>, Breach>
        requires main { self.old.place.now.depth ≡ 0 }
        requires room { size_of self.old.tally + length self.old.rest.now ≤ usize.MAX }
        ensures next { IfOk result (λ found. MatchOption found (Passes self.old self.new × Ends self.new) (λ m. Plays self.old m self.new)) }
        ensures fault { IfErr result (BreaksLine self.old) }
        ensures passes { IfErr result (λ _. Passes self.old self.new) }
    {
        'items: loop {
            match self.item()? {
                Item::Mark => {}
                Item::Play(m) => return Ok(Some(m)),
                Item::End => return Ok(None),
            }
        }
    }

    // Goes behind the next item of the main line, unless that is its end. Most items are moves.
    #[inline(always)]
    fn item(&mut self) -> Result<Item, Breach>
        requires main { self.old.place.now.depth ≡ 0 }
        requires room { size_of self.old.tally + length self.old.rest.now ≤ usize.MAX }
        ensures does { IfOk result (λ item. Does self.old item self.new) }
        ensures fault { IfErr result (BreaksLine self.old) }
        ensures passes { IfErr result (λ _. Passes self.old self.new) }
    {
        if is_move_due(self.rest) {
            return self.play();
        }
        self.other_item()
    }

    // The same where a move is due.
    #[inline(always)]
    fn play(&mut self) -> Result<Item, Breach>
        requires due { IsMoveDue self.old.rest.now }
        ensures does { IfOk result (λ item. Does self.old item self.new) }
        ensures fault { IfErr result (BreaksLine self.old) }
        ensures passes { IfErr result (λ _. Passes self.old self.new) }
    {
        match self.place.play(self.rest) {
            Ok((m, used)) => {
                self.rest = self.rest.split_at(used).1;
                self.tally.play(&m);
                Ok(Item::Play(m))
            }
            Err(what) => Err(Breach {
                left: self.rest.len(),
                what,
            }),
        }
    }

    // The same for any item.
    #[inline(never)]
    fn other_item(&mut self) -> Result<Item, Breach>
        requires main { self.old.place.now.depth ≡ 0 }
        requires room { size_of self.old.tally + length self.old.rest.now ≤ usize.MAX }
        ensures does { IfOk result (λ item. Does self.old item self.new) }
        ensures fault { IfErr result (BreaksLine self.old) }
        ensures passes { IfErr result (λ _. Passes self.old self.new) }
    {
        let next = match next_token(self.place, self.rest) {
            Ok(next) => next,
            Err(what) => {
                return Err(Breach {
                    left: self.rest.len(),
                    what,
                });
            }
        };
        let behind = self.rest.split_at(next.used).1;
        let mut tally = self.tally;
        tally.add(&next.token);
        match next.token {
            Token::Open => self.variation(behind, tally),
            Token::Close => Ok(Item::End),
            Token::End => Ok(Item::End),
            Token::Play(m) => {
                self.rest = behind;
                self.tally = tally;
                Ok(Item::Play(m))
            }
            Token::Nag(_) => {
                self.rest = behind;
                self.tally = tally;
                Ok(Item::Mark)
            }
            Token::Comment => {
                self.rest = behind;
                self.tally = tally;
                Ok(Item::Mark)
            }
        }
    }

    // Goes behind a variation, which begins behind its mark. Its mark is counted in `met`.
    fn variation(&mut self, behind: &'a [u8], met: Tally) -> Result<Item, Breach>
        requires main { self.old.place.now.depth ≡ 0 }
        requires room { size_of self.old.tally + length self.old.rest.now ≤ usize.MAX }
        requires takes { Takes self.old.place.now self.old.rest.now Open behind.now }
        requires met { met ≡ added self.old.tally Open }
        ensures does { IfOk result (λ item. Does self.old item self.new) }
        ensures fault { IfErr result (BreaksLine self.old) }
        ensures same { IfErr result (λ _. self.new ≡ self.old) }
    {
        let mut tally = met;
        let used = check_line(self.place.variation(), behind, &mut tally)?;
        self.rest = behind.split_at(used).1;
        self.tally = tally;
        Ok(Item::Mark)
    }
}
