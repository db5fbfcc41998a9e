//! A game while its tokens are read.
ghost use Rattle.std.specs.Prelude.{◌≡◌, ◌==◌, ◌++◌, ◌∷◌, false, [], All, IfOk, OnOk, OnErr, IsTrue, slice_index_or, codes, ◌||◌, nat_lt, length};
ghost use Rattle.cell_core.specs.Text.{IsZeroFree};
ghost use Rattle.pgn_read.specs.Legality.{IsLegal};
ghost use Rattle.pgn_read.specs.Fit.{IsFit};
ghost use Rattle.pgn_read.specs.Said.{said, said_step, StepsWell, IsBalanced, IsSound};
ghost use Rattle.pgn_read.specs.TagText.{unescaped_from};
ghost use Rattle.pgn_read.specs.Token as token;
ghost use Rattle.chess_text.specs.SanAnswer.{san_answer};
ghost use Rattle.chess_text.specs.FenAnswer.{fen_answer};
ghost use Rattle.pgn_read.specs.declared.item.GameWhat.TheVariants as what;
ghost use Rattle.pgn_read.specs.Heads.{head_from, IsReadTag};
ghost use Rattle.pgn_read.specs.Reading.{unread, is_inside, has_move, with_tag, starting, tag_effect, at_tag, is_faulty, opened, closed_to, effect, is_next_game, game_of, by_answer, played};

use crate::field::Name;
use crate::heads::{head_from, text_of};
use crate::item::{GameWhat, Item};
use crate::read_tag::ReadTag;
use crate::step::{End, Step};
use crate::tag_text::unescaped;
use crate::token::Token;
use crate::turn::Turn;
use chess_laws::Position;
use chess_text::read_fen;
use game_tree::{Branch, Builder, Game, Outcome};
use std::alloc::{AllocError, Global};
use std::marker::Model;
use std::mem::replace;

// The greatest lengths of a tag's name and of its value.
const LONGEST_NAME: usize = 240;

const LONGEST_VALUE: usize = 255;

// How many variations may stand within each other.
const DEEPEST: usize = 200;

/// A game while its tokens are read. After want of memory it is spent.
#[derive(Drop)]
pub(crate) struct Reading {
    tags: Vec<ReadTag>,
    // Whether one of them is a FEN tag.
    has_start: bool,
    in_moves: bool,
    start: Position,
    moves: Builder,
    turn: Turn,
    outer: Vec<Turn>,
}

impl Model for Reading {
    ghost use Rattle.std.specs.Prelude.{◌≡◌, reverse, All, codes};
    ghost use Rattle.pgn_read.specs.Heads.{IsReadTag};
    ghost use Rattle.pgn_read.specs.Reading.{Reading as Read, has_tag};
    ghost use Rattle.pgn_read.specs.ReadingCode.{coded_reading};

    ghost Value = { Read };

    ghost coded = { coded_reading };

    ghost view = { λ r. record { tags = r.tags.items; in_moves = r.in_moves; start = r.start; moves = r.moves; turn = r.turn; outer = reverse r.outer.items } };

    ghost invariant = { λ r. All IsReadTag r.tags.items × (r.has_start ≡ has_tag (codes "FEN") r.tags.items) };
}

impl Reading {
    /// Before the first token.
    pub(crate) fn new(alloc: Global) -> Reading
        ensures unread { result ≡ unread }
    {
        Reading {
            tags: Vec::new(alloc),
            has_start: false,
            in_moves: false,
            start: Position::start(),
            moves: Builder::new(alloc),
            turn: Turn::at(&Position::start()),
            outer: Vec::new(alloc),
        }
    }

    /// Whether a variation is open.
    pub(crate) fn is_inside(&self) -> bool
        ensures inside { result ≡ is_inside self.now }
    {
        !self.outer.is_empty()
    }

    /// Whether anything but comments was read.
    pub(crate) fn is_game(&self) -> bool
        ensures game { result ≡ self.now.in_moves || nat_lt 0 (length self.now.tags) }
    {
        self.in_moves || !self.tags.is_empty()
    }

    /// Whether a tag of these bytes belongs to the next game.
    pub(crate) fn is_next_game(&self, bytes: &[u8]) -> bool
        ensures next { result ≡ is_next_game self.now bytes.now }
    {
        self.in_moves && !self.is_inside() && begins_with_bracket(bytes)
    }

    /// Takes a token into the game, and says what it does.
    #[tactic(auto, unfolding(crate::specs::Reading::effect))]
    pub(crate) fn take(&mut self, alloc: Global, token: Token<'_>) -> Result<Step, AllocError>
        requires sound { IsSound (said token) }
        requires balanced { IsBalanced self.old }
        ensures effect { IfOk result (λ step. said_step step self.new ≡ effect (said token.entry) self.old) }
        ensures well { IfOk result (λ step. StepsWell step self.old self.new) }
        ensures balanced { OnOk result (IsBalanced self.new) }
    {
        match token {
            Token::Tag(name, raw) => self.take_tag(alloc, name, raw),
            Token::BadTag => Ok(self.take_bad_tag()),
            Token::Comment(text) => self.take_comment(alloc, text),
            Token::OpenComment => Ok(Step::Ends(End::Faulty(GameWhat::Brace))),
            Token::Nag(n) => self.take_nag(alloc, n),
            Token::Opens => self.open(alloc),
            Token::Closes => self.close(alloc),
            Token::Ending(outcome) => Ok(self.take_ending(outcome)),
            Token::Number => {
                self.in_moves = true;
                Ok(Step::GoesOn)
            }
            Token::Move(text) => self.take_move(alloc, text),
            Token::Bad => Ok(Step::Ends(End::Faulty(GameWhat::Token))),
            Token::TheEnd => Ok(self.take_end()),
        }
    }

    // A malformed tag.
    fn take_bad_tag(&self) -> Step
        ensures effect { said_step result self.now ≡ at_tag self.now (is_faulty what.Tag) }
        ensures well { StepsWell result self.now self.now }
    {
        if self.is_inside() {
            return Step::Ends(End::Faulty(GameWhat::Paren));
        }
        if self.in_moves {
            return Step::Ends(End::Before);
        }
        Step::Ends(End::Faulty(GameWhat::Tag))
    }

    // A tag.
    fn take_tag(&mut self, alloc: Global, name: &[u8], raw: &[u8]) -> Result<Step, AllocError>
        requires sound { IsSound (token.tag name.now (unescaped_from false raw.now)) }
        requires balanced { IsBalanced self.old }
        ensures effect { IfOk result (λ step. said_step step self.new ≡ at_tag self.old (tag_effect name.now (unescaped_from false raw.now) self.old)) }
        ensures well { IfOk result (λ step. StepsWell step self.old self.new) }
        ensures balanced { OnOk result (IsBalanced self.new) }
    {
        if self.is_inside() {
            return Ok(Step::Ends(End::Faulty(GameWhat::Paren)));
        }
        if self.in_moves {
            return Ok(Step::Ends(End::Before));
        }
        let value = unescaped(alloc, raw)?;
        self.take_pair(alloc, name, value)
    }

    // A tag before the moves.
    fn take_pair(&mut self, alloc: Global, name: &[u8], value: Vec<u8>) -> Result<Step, AllocError>
        requires sound { IsSound (token.tag name.now value.items) }
        requires balanced { IsBalanced self.old }
        ensures effect { IfOk result (λ step. said_step step self.new ≡ tag_effect name.now value.items self.old) }
        ensures well { IfOk result (λ step. StepsWell step self.old self.new) }
        ensures balanced { OnOk result (IsBalanced self.new) }
    {
        let is_long = name.len() > LONGEST_NAME || value.len() > LONGEST_VALUE;
        let tag = ReadTag::new(alloc, name, value)?;
        if tag.repeats(self.tags.as_slice()) {
            return Ok(Step::Ends(End::Faulty(GameWhat::Tag)));
        }
        if is_long {
            return Ok(Step::Ends(End::Faulty(GameWhat::TagTooLong)));
        }
        if tag.is(Name::Fen) {
            return self.take_fen(tag);
        }
        self.push_tag(tag)?;
        Ok(Step::GoesOn)
    }

    // A tag that gives the start, where it is the first.
    fn take_fen(&mut self, tag: ReadTag) -> Result<Step, AllocError>
        requires fen { tag.name ≡ codes "FEN" }
        requires read { IsReadTag tag }
        requires balanced { IsBalanced self.old }
        ensures effect { IfOk result (λ step. said_step step self.new ≡ by_answer (λ p. with_tag (codes "FEN") tag.value (starting p self.old)) what.Fen (fen_answer tag.value)) }
        ensures well { IfOk result (λ step. StepsWell step self.old self.new) }
        ensures balanced { OnOk result (IsBalanced self.new) }
    {
        match read_fen(tag.value()) {
            Ok(position) => {
                self.start_at(&position);
                self.push_tag(tag)?;
                Ok(Step::GoesOn)
            }
            Err(fault) => Ok(Step::Ends(End::Faulty(GameWhat::Fen(fault)))),
        }
    }

    // The start of the game, where no other was given before.
    fn start_at(&mut self, position: &Position)
        ensures starting { self.new ≡ starting position.now self.old }
    {
        if !self.has_start {
            self.start = *position;
            self.turn = Turn::at(position);
        }
    }

    // Adds a tag behind the others.
    #[tactic(auto, using(crate::proofs::HeadLaws::one_more_start))]
    fn push_tag(&mut self, tag: ReadTag) -> Result<(), AllocError>
        requires read { IsReadTag tag }
        ensures tag { OnOk result (self.new ≡ with_tag tag.name tag.value self.old) }
    {
        let gives_start = tag.is(Name::Fen);
        push_read(&mut self.tags, tag)?;
        self.has_start = self.has_start || gives_start;
        Ok(())
    }

    // A comment.
    #[tactic(auto, unfolding(crate::specs::Reading::effect))]
    fn take_comment(&mut self, alloc: Global, text: &[u8]) -> Result<Step, AllocError>
        requires sound { IsZeroFree text.now }
        requires balanced { IsBalanced self.old }
        ensures effect { IfOk result (λ step. said_step step self.new ≡ effect (token.comment text.now) self.old) }
        ensures well { IfOk result (λ step. StepsWell step self.old self.new) }
        ensures balanced { OnOk result (IsBalanced self.new) }
    {
        let text = text_of(alloc, text)?;
        self.moves.comment(alloc, text)?;
        Ok(Step::GoesOn)
    }

    // A NAG, which belongs to a move.
    #[tactic(auto, unfolding(crate::specs::Reading::effect))]
    fn take_nag(&mut self, alloc: Global, n: u8) -> Result<Step, AllocError>
        requires balanced { IsBalanced self.old }
        ensures effect { IfOk result (λ step. said_step step self.new ≡ effect (token.nag n) self.old) }
        ensures well { IfOk result (λ step. StepsWell step self.old self.new) }
        ensures balanced { OnOk result (IsBalanced self.new) }
    {
        if !self.moves.has_move() {
            return Ok(Step::Ends(End::Faulty(GameWhat::Token)));
        }
        self.in_moves = true;
        self.moves.nag(alloc, n)?;
        Ok(Step::GoesOn)
    }

    // The beginning of a variation of the last move.
    #[tactic(auto, unfolding(crate::specs::Reading::effect))]
    fn open(&mut self, alloc: Global) -> Result<Step, AllocError>
        requires balanced { IsBalanced self.old }
        ensures effect { IfOk result (λ step. said_step step self.new ≡ effect token.opens self.old) }
        ensures well { IfOk result (λ step. StepsWell step self.old self.new) }
        ensures balanced { OnOk result (IsBalanced self.new) }
    {
        if self.outer.len() >= DEEPEST {
            return Ok(Step::Ends(End::Faulty(GameWhat::Depth)));
        }
        if !self.moves.has_move() {
            return Ok(Step::Ends(End::Faulty(GameWhat::Token)));
        }
        self.open_line(alloc)?;
        Ok(Step::GoesOn)
    }

    fn open_line(&mut self, alloc: Global) -> Result<(), AllocError>
        requires move_there { IsTrue (has_move self.old) }
        requires balanced { IsBalanced self.old }
        ensures opened { OnOk result (self.new ≡ opened self.old) }
        ensures balanced { OnOk result (IsBalanced self.new) }
    {
        let inner = Turn::at(&self.turn.before());
        let round = replace(&mut self.turn, inner);
        self.in_moves = true;
        self.outer.push(round)?;
        self.moves.open(alloc)
    }

    // The end of a variation.
    fn close(&mut self, alloc: Global) -> Result<Step, AllocError>
        requires balanced { IsBalanced self.old }
        ensures effect { IfOk result (λ step. said_step step self.new ≡ closed_to self.old self.old.outer) }
        ensures well { IfOk result (λ step. StepsWell step self.old self.new) }
        ensures balanced { OnOk result (IsBalanced self.new) }
    {
        let Some(turn) = self.outer.pop() else {
            return Ok(Step::Ends(End::Faulty(GameWhat::Paren)));
        };
        self.turn = turn;
        self.in_moves = true;
        self.moves.close(alloc)?;
        Ok(Step::GoesOn)
    }

    // An end mark, which is skipped inside a variation.
    #[tactic(auto, unfolding(crate::specs::Reading::effect))]
    fn take_ending(&mut self, outcome: Outcome) -> Step
        requires balanced { IsBalanced self.old }
        ensures effect { said_step result self.new ≡ effect (token.ending outcome) self.old }
        ensures well { StepsWell result self.old self.new }
        ensures balanced { IsBalanced self.new }
    {
        if self.is_inside() {
            self.in_moves = true;
            return Step::GoesOn;
        }
        Step::Ends(End::Behind(outcome))
    }

    // The text of a move.
    fn take_move(&mut self, alloc: Global, text: &[u8]) -> Result<Step, AllocError>
        requires balanced { IsBalanced self.old }
        ensures effect { IfOk result (λ step. said_step step self.new ≡ by_answer (λ m. played m self.old) what.San (san_answer self.old.turn.now_at text.now)) }
        ensures well { IfOk result (λ step. StepsWell step self.old self.new) }
        ensures balanced { OnOk result (IsBalanced self.new) }
    {
        match self.turn.advance(text) {
            Ok(m) => {
                self.in_moves = true;
                self.moves.play(alloc, m)?;
                Ok(Step::GoesOn)
            }
            Err(fault) => Ok(Step::Ends(End::Faulty(GameWhat::San(fault)))),
        }
    }

    // The end of the text.
    #[tactic(auto, unfolding(crate::specs::Reading::effect))]
    fn take_end(&self) -> Step
        ensures effect { said_step result self.now ≡ effect token.the_end self.now }
        ensures well { StepsWell result self.now self.now }
    {
        if self.is_inside() {
            return Step::Ends(End::Faulty(GameWhat::Paren));
        }
        Step::Ends(End::Before)
    }

    /// The game that was read, with its head.
    pub(crate) fn finish(self, alloc: Global, mark: Option<Outcome>) -> Result<Item, AllocError>
        requires balanced { IsBalanced self }
        requires outside { self.outer ≡ [] }
        requires legal { IsLegal self }
        ensures item { IfOk result (λ item. item ≡ Item.Good (head_from self.tags mark) (game_of self)) }
        ensures good { IfOk result IsFit }
    {
        let Reading {
            tags,
            has_start: _has_start,
            start,
            moves,
            in_moves: _in_moves,
            turn: _turn,
            outer: _outer,
        } = self;
        let head = head_from(alloc, tags, mark)?;
        let Branch { lead, line } = moves.finish(alloc)?;
        Ok(Item::Good(head, Game { start, lead, line }))
    }
}

// Adds a read tag behind the others.
#[tactic(auto, using(crate::proofs::HeadLaws::pushed_read))]
fn push_read(tags: &mut Vec<ReadTag>, tag: ReadTag) -> Result<(), AllocError>
    requires read { All IsReadTag tags.old.items }
    requires tag_read { IsReadTag tag }
    ensures pushed { OnOk result (tags.new.items ≡ tags.old.items ++ tag ∷ []) }
    ensures unchanged { OnErr result (tags.new.items ≡ tags.old.items) }
    ensures still_read { All IsReadTag tags.new.items }
{
    tags.push(tag)?;
    Ok(())
}

// Whether the bytes begin with `[`.
fn begins_with_bracket(bytes: &[u8]) -> bool
    ensures { result ≡ (slice_index_or bytes.now 0 0 == 91) }
{
    match bytes {
        [byte, ..] => *byte == b'[',
        [] => false,
    }
}
