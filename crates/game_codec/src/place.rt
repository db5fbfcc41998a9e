//! A place in a line of a record's moves, as it is while they are read.
ghost use Rattle.std.specs.Prelude.{◌≡◌, ◌+◌, ◌<◌, ◌≤◌, ◌⊎◌, ◌↔◌, ℕ, List, IsTrue, length, drop, IfOk, IfErr};
ghost use Rattle.std.specs.Bool.{OnFalse, OnTrue};
ghost use Rattle.game_tree.specs.Game.{GameTree};
ghost use Rattle.game_tree.specs.Legal.{deepest};
ghost use Rattle.game_tree.specs.declared.head.Tag.{Tag as TagValue};
ghost use Rattle.game_codec.specs.Breach.{Tells};
ghost use Rattle.game_codec.specs.Fault.{Breaks};
ghost use Rattle.game_codec.specs.Record.{IsRecord};
ghost use Rattle.game_codec.specs.Start.{BeginsStart};
ghost use Rattle.game_codec.specs.TagReading.{BeginsTags};
ghost use Rattle.game_codec.specs.Walking.{IsBehind};
ghost use Rattle.game_codec.specs.Place.{beginning, variation_of, after_comment, FaultAt, IsMoveDue, Takes};
ghost use Rattle.game_codec.specs.Nests.{Hangs, IsCalm, IsCalmBehind, IsKept, IsPast, token_of, with_before};
ghost use Rattle.game_codec.specs.Token.{Play};

use super::breach::Breach;
use super::fault::RecordWhat;
use super::token::Token;
use super::tokens::NextToken;
use super::walk::begin;
use cell_core::Move;
use chess_laws::Position;
use move_codec::Numbered;
use std::marker::Model;

/// A place in a line: how many variations are open there, the position before the last move and the one behind it. It
/// also has whether the line has a move yet, and whether a comment stands at the place. The position before the last
/// move is kept only if a variation of that move may begin.
#[derive(Drop)]
pub(crate) struct Place {
    depth: u32,
    before: Numbered,
    here: Numbered,
    has_move: bool,
    has_comment: bool,
}

impl Model for Place {
    ghost use Rattle.game_codec.specs.Place.{Place as Spot};

    ghost Value = { Spot };

    ghost view = { λ p. record { depth = p.depth; before = p.before; here = p.here; has_move = p.has_move; has_comment = p.has_comment } };
}

impl Place {
    /// The beginning of a line with so many variations open.
    pub(crate) fn beginning(depth: u32, start: Numbered) -> Place
        ensures beginning { result ≡ beginning depth start }
    {
        Place {
            depth,
            before: start.copy(),
            here: start,
            has_move: false,
            has_comment: false,
        }
    }

    /// Goes to the beginning of the main line of a record, and gives how many of its bytes stand before the moves.
    pub(crate) fn begin(&mut self, bytes: &[u8]) -> Result<usize, Breach>
        ensures beginning { self.new ≡ beginning 0 self.new.here }
        ensures begun { IfOk result (λ used. (tags : List TagValue) (game : GameTree) → IsRecord bytes.now tags game → IsBehind game self.new.here 0 (drop used bytes.now)) }
        ensures used { IfOk result (λ used. used ≤ length bytes.now) }
        ensures spelled { IfOk result (λ used. (tags : List TagValue) × ((behind : List ℕ) × (BeginsTags bytes.now tags behind × BeginsStart behind self.new.here (drop used bytes.now)))) }
        ensures first { IfErr result (Tells (Breaks bytes.now)) }
    {
        self.here = Numbered::standard();
        let used = begin(bytes, &mut self.here);
        self.depth = 0;
        self.before = self.here.copy();
        self.has_move = false;
        self.has_comment = false;
        used
    }

    /// The beginning of a variation of the last move.
    pub(crate) fn variation(&self) -> Place
        requires room { self.now.depth < deepest }
        ensures variation { result ≡ variation_of self.now }
    {
        Place::beginning(self.depth + 1, self.before.copy())
    }

    /// The position behind the last move.
    pub(crate) fn position(&self) -> &Position
        ensures position { result.now ≡ self.now.here.position }
    {
        self.here.position()
    }

    /// How many variations are open.
    pub(crate) fn depth(&self) -> u32
        ensures depth { result ≡ self.now.depth }
    {
        self.depth
    }

    /// Whether the line has a move yet.
    pub(crate) fn has_move(&self) -> bool
        ensures has { result ≡ self.now.has_move }
    {
        self.has_move
    }

    /// Whether a comment stands here.
    pub(crate) fn has_comment(&self) -> bool
        ensures has { result ≡ self.now.has_comment }
    {
        self.has_comment
    }

    /// Goes on behind a comment.
    pub(crate) fn comment(&mut self)
        ensures after { self.new ≡ after_comment self.old }
    {
        self.has_comment = true;
    }

    /// Reads the move that the bytes begin with, and goes on behind it. Gives it with the number of its bytes.
    #[inline(always)]
    pub(crate) fn play(&mut self, bytes: &[u8]) -> Result<(Move, usize), RecordWhat>
        requires due { IsMoveDue bytes.now }
        ensures takes { IfOk result (λ next. Takes self.old bytes.now (Play next.0) (drop next.1 bytes.now)) }
        ensures used { IfOk result (λ next. (0 < next.1) × (next.1 ≤ length bytes.now)) }
        ensures past { IfOk result (λ next. IsPast self.old (Play next.0) self.new (drop next.1 bytes.now)) }
        ensures fault { IfErr result (FaultAt self.old bytes.now) }
        ensures kept { IfErr result (λ _. IsKept self.old self.new bytes.now) }
    {
        self.keep_before(bytes);
        match self.here.advance(bytes) {
            Ok((m, used)) => {
                self.has_move = true;
                self.has_comment = false;
                Ok((m, usize::from(used)))
            }
            Err(fault) => Err(RecordWhat::Move(fault)),
        }
    }

    /// The same as an item.
    pub(crate) fn next_move(&mut self, bytes: &[u8]) -> Result<NextToken, RecordWhat>
        requires due { IsMoveDue bytes.now }
        ensures takes { IfOk result (λ next. Takes self.old bytes.now (token_of next.token) (drop next.used bytes.now)) }
        ensures used { IfOk result (λ next. (0 < next.used) × (next.used ≤ length bytes.now)) }
        ensures past { IfOk result (λ next. IsPast self.old (token_of next.token) self.new (drop next.used bytes.now)) }
        ensures fault { IfErr result (FaultAt self.old bytes.now) }
        ensures kept { IfErr result (λ _. IsKept self.old self.new bytes.now) }
    {
        match self.play(bytes) {
            Ok((m, used)) => Ok(NextToken {
                token: Token::Play(m),
                used,
            }),
            Err(what) => Err(what),
        }
    }

    // Keeps the position as the one before the next move, if a variation of that move may follow.
    fn keep_before(&mut self, bytes: &[u8])
        ensures same { self.new ≡ with_before self.new.before self.old }
        ensures kept { (self.new.before ≡ self.old.here) ⊎ IsCalmBehind bytes.now }
    {
        if hangs_behind(bytes) {
            self.keep_here();
        }
    }

    // Keeps the position as the one before the next move. It stands apart, so that a move behind which nothing hangs has no room made for
    // the copy.
    #[inline(never)]
    fn keep_here(&mut self)
        ensures kept { self.new ≡ with_before self.old.here self.old }
    {
        self.before = self.here.copy();
    }
}

/// Whether the bytes begin with a move, as far as the first one tells.
pub(crate) fn is_move_due(bytes: &[u8]) -> bool
    ensures due { OnTrue result (IsMoveDue bytes.now) }
{
    match bytes {
        [] => false,
        [byte, ..] => *byte < 11 || 15 < *byte,
    }
}

// Whether a mark of what hangs on a move may follow the move that the bytes begin with, which takes one of them or two.
fn hangs_behind(bytes: &[u8]) -> bool
    ensures calm { OnFalse result (IsCalmBehind bytes.now) }
{
    match bytes {
        [] => false,
        [_, behind @ ..] => hangs_soon(behind),
    }
}

// Whether one of the first two bytes is a mark of what hangs on a move.
fn hangs_soon(bytes: &[u8]) -> bool
    ensures calm { OnFalse result (IsCalm bytes.now × IsCalm (drop 1 bytes.now)) }
{
    match bytes {
        [] => false,
        [byte, behind @ ..] => {
            if hangs(*byte) {
                return true;
            }
            hangs_first(behind)
        }
    }
}

// Whether the first byte is a mark of what hangs on a move.
fn hangs_first(bytes: &[u8]) -> bool
    ensures calm { OnFalse result (IsCalm bytes.now) }
{
    match bytes {
        [] => false,
        [byte, ..] => hangs(*byte),
    }
}

// Whether a byte is a mark of what hangs on a move: a NAG, a comment, or the beginning of a variation.
fn hangs(byte: u8) -> bool
    ensures hangs { IsTrue result ↔ Hangs byte }
{
    byte == 11 || byte == 12 || byte == 13
}
