//! Places in lines of moves.
ghost use Rattle.std.specs.Prelude.{◌≡◌, ◌<◌, ◌++◌, ◌∷◌, [], IfOk, IfErr, fold, length};
ghost use Rattle.pgn_read.specs.Reading.{turn_at};
ghost use Rattle.pgn_read.specs.Turns.{AreLegal, before_last};
ghost use Rattle.chess_laws.specs.Step.{Legal, stepped};
ghost use Rattle.chess_text.specs.SanAnswer.{san_answer};

use arrayvec::ArrayVec;
use cell_core::Move;
use chess_laws::Position;
use chess_text::{SanFault, advance_san};
use std::marker::Model;

/// A place in a line: the position that it has come to, and the one before its last move, where a variation begins. Few moves have a
/// variation, so that position is not copied at each move: an earlier one is kept, with the moves from there.
#[derive(Debug, Drop)]
pub(crate) struct Turn {
    earlier: Position,
    since: ArrayVec<Move, 8>,
    now_at: Position,
}

impl Model for Turn {
    ghost use Rattle.std.specs.Prelude.{◌≡◌, fold};
    ghost use Rattle.chess_laws.specs.Step.{stepped};
    ghost use Rattle.pgn_read.specs.Turns.{Turn as Place, AreLegal, before_last, coded_turn};

    ghost Value = { Place };

    ghost coded = { coded_turn };

    ghost view = { λ t. record { before = before_last t.earlier t.since.items; now_at = t.now_at } };

    ghost invariant = { λ t. AreLegal t.earlier t.since.items × (t.now_at ≡ fold stepped t.earlier t.since.items) };
}

impl Turn {
    /// The beginning of a line.
    pub(crate) fn at(position: &Position) -> Turn
        ensures at { result ≡ turn_at position.now }
    {
        Turn {
            earlier: *position,
            since: ArrayVec::new(),
            now_at: *position,
        }
    }

    /// The position before the last move, or the beginning of the line if it has no move. It becomes the earlier one, so a move is played
    /// again once at most, however many variations there are.
    pub(crate) fn before(&mut self) -> Position
        ensures before { result ≡ self.old.before }
        ensures same { self.new ≡ self.old }
    {
        come_near(&mut self.earlier, &mut self.since);
        self.earlier
    }

    /// Plays the legal move that a text is and gives it, or why it is none. After a fault nothing is told of the place.
    pub(crate) fn advance(&mut self, text: &[u8]) -> Result<Move, SanFault>
        ensures answer { result ≡ san_answer self.old.now_at text.now }
        ensures played { IfOk result (λ m. self.new ≡ record { before = self.old.now_at; now_at = stepped self.old.now_at m }) }
    {
        make_room(&mut self.earlier, &mut self.since, &self.now_at);
        let m = advance(&mut self.now_at, text)?;
        keep(&mut self.since, &m);
        Ok(m)
    }
}

// Plays the legal move that a text is. Apart from the loop over tokens the search for it takes fewer instructions.
#[inline(never)]
fn advance(position: &mut Position, text: &[u8]) -> Result<Move, SanFault>
    ensures answer { result ≡ san_answer position.old text.now }
    ensures legal { IfOk result (Legal position.old) }
    ensures played { IfOk result (λ m. position.new ≡ stepped position.old m) }
    ensures kept { IfErr result (λ _. position.new ≡ position.old) }
{
    advance_san(position, text)
}

// Makes room for one more move. If there is none, the position that has been reached becomes the earlier one.
#[inline(always)]
fn make_room(earlier: &mut Position, since: &mut ArrayVec<Move, 8>, now_at: &Position)
    requires legal { AreLegal earlier.old since.old.items }
    requires come { now_at.now ≡ fold stepped earlier.old since.old.items }
    ensures legal { AreLegal earlier.new since.new.items }
    ensures come { now_at.now ≡ fold stepped earlier.new since.new.items }
    ensures room { length since.new.items < 8 }
{
    if since.is_full() {
        *earlier = *now_at;
        since.clear();
    }
}

// Makes the position before the last move the earlier one.
fn come_near(earlier: &mut Position, since: &mut ArrayVec<Move, 8>)
    requires legal { AreLegal earlier.old since.old.items }
    ensures before { earlier.new ≡ before_last earlier.old since.old.items }
    ensures again { before_last earlier.new since.new.items ≡ before_last earlier.old since.old.items }
    ensures legal { AreLegal earlier.new since.new.items }
    ensures come { fold stepped earlier.new since.new.items ≡ fold stepped earlier.old since.old.items }
{
    if let Some(last) = since.pop() {
        play_all(earlier, since.as_slice());
        since.clear();
        keep(since, &last);
    }
}

// Plays moves that are legal one behind the other.
fn play_all(position: &mut Position, moves: &[Move])
    requires legal { AreLegal position.old moves.now }
    ensures played { position.new ≡ fold stepped position.old moves.now }
{
    for m in moves {
        position.play(*m);
    }
}

// Keeps one more move.
#[inline(always)]
fn keep(since: &mut ArrayVec<Move, 8>, m: &Move)
    requires room { length since.old.items < 8 }
    ensures kept { since.new.items ≡ since.old.items ++ m.now ∷ [] }
{
    since.push(*m);
}
