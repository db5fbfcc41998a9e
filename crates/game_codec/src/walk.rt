//! The main line of a record, without its tree.
ghost use Rattle.std.specs.Prelude.{◌≡◌, ◌+◌, ◌-◌, ◌<◌, ◌≤◌, ◌^◌, ℕ, List, [], ◌∷◌, length, drop, IfOk, IfErr, MatchOption};
ghost use Rattle.cell_core.specs.declared.step.Move.{Move as Step'};
ghost use Rattle.chess_laws.specs.Step.{Step};
ghost use Rattle.game_tree.specs.Game.{GameTree};
ghost use Rattle.game_tree.specs.Replay.{next_at, plies_of, position_at};
ghost use Rattle.game_tree.specs.declared.head.Tag.{Tag as TagValue};
ghost use Rattle.game_codec.specs.Breach.{Tells};
ghost use Rattle.game_codec.specs.Fault.{Breaks, IsRecordFault};
ghost use Rattle.game_codec.specs.RecordAnswer.{place_of};
ghost use Rattle.game_codec.specs.Record.{IsRecord, IsSomeRecord, IsSpelled};
ghost use Rattle.game_codec.specs.Start.{BeginsStart, standard_start};
ghost use Rattle.game_codec.specs.TagReading.{BeginsTags};
ghost use Rattle.game_codec.specs.Walking.{GoesOn, IsBehind};

use super::breach::Breach;
use super::decoding::place_of;
use super::fault::{RecordFault, RecordWhat};
use super::passing::before_move;
use super::start::read_start;
use super::tags::tags_len;
use cell_core::Move;
use chess_laws::Position;
use move_codec::Numbered;
use std::marker::Model;

/// A walk over the main line of a record: the positions and the moves, one after the other. It takes no memory and makes no
/// tree. The texts of the comments are not looked at, and variations are passed by their marks alone, so that the walk does
/// not see what is wrong there.
#[derive(Drop)]
pub struct Walk<'a> {
    bytes: &'a [u8],
    // The bytes behind the last move that was played.
    ahead: &'a [u8],
    here: Numbered,
    ply: u32,
}

impl<'a> Model for Walk<'a> {
    ghost use Rattle.game_codec.specs.Walk.{Walked};

    ghost Value = { Walked };

    ghost use Rattle.game_codec.specs.Walking.{IsWalk};

    ghost view = { λ w. record { bytes = w.bytes.now; ply = w.ply; position = w.here.position } };

    ghost invariant = { λ w. IsWalk w.bytes.now w.ahead.now w.here w.ply };
}

impl<'a> Walk<'a> {
    /// The walk at the start of a record's main line. A record has fewer than 2^32 bytes. The fault is the first of bytes that are
    /// no record.
    pub fn new(bytes: &'a [u8]) -> Result<Walk<'a>, RecordFault>
        requires few { length bytes.now < 2 ^ 32 }
        ensures bytes { IfOk result (λ walk. walk.bytes ≡ bytes.now) }
        ensures start { IfOk result (λ walk. walk.ply ≡ 0) }
        ensures fault { IfErr result (λ _. IsSomeRecord bytes.now → ⊥) }
        // Nothing was passed unread, so it is the first fault of the bytes.
        ensures first { IfErr result (IsRecordFault bytes.now) }
    {
        let mut here = Numbered::standard();
        match begin(bytes, &mut here) {
            Ok(used) => Ok(Walk {
                bytes,
                ahead: bytes.split_at(used).1,
                here,
                ply: 0,
            }),
            Err(breach) => Err(fault_at(bytes, breach)),
        }
    }

    /// The position that was reached. On a record of a game it is the game's after so many half-moves of the main line.
    pub fn position(&self) -> &Position
        ensures position { result.now ≡ self.now.position }
        ensures replay { (tags : List TagValue) (game : GameTree) → IsRecord self.now.bytes tags game → result.now ≡ position_at game self.now.ply }
    {
        self.here.position()
    }

    /// How many half-moves of the main line were played.
    pub fn ply(&self) -> u32
        ensures ply { result ≡ self.now.ply }
        ensures within { (tags : List TagValue) (game : GameTree) → IsRecord self.now.bytes tags game → result ≤ plies_of game }
        // A move takes a byte at least.
        ensures bounded { result ≤ length self.now.bytes }
    {
        self.ply
    }

    /// Plays the next move of the main line and gives it, or gives `None` at its end. Bytes that give a fault are no
    /// record. After `None` and after a fault the walk is as it was.
    #[inline(always)]
    pub fn step(&mut self) -> Result<Option<Move>, RecordFault>
        // On a record of a game this is the game's next move.
        ensures next { IfOk result (λ next. (tags : List TagValue) (game : GameTree) → IsRecord self.old.bytes tags game → next ≡ next_at game self.old.ply) }
        ensures played { IfOk result (λ next. MatchOption next (self.new ≡ self.old)
            (λ m. Step self.old.position m self.new.position × ((self.new.ply ≡ self.old.ply + 1) × (self.new.bytes ≡ self.old.bytes)))) }
        ensures fault { IfErr result (λ _. IsSomeRecord self.old.bytes → ⊥) }
        // Which fault it tells, and at which place, is tested: `game_vectors`, `fault_tests`.
        ensures place { IfErr result (λ fault. fault.place ≤ length self.old.bytes) }
        ensures unchanged { IfErr result (λ _. self.new ≡ self.old) }
    {
        match next_move(&mut self.here, self.ahead) {
            Err(breach) => Err(fault_at(self.bytes, breach)),
            Ok(None) => Ok(None),
            Ok(Some(next)) => {
                self.ahead = next.ahead;
                self.ply += 1;
                Ok(Some(next.mv))
            }
        }
    }
}

/// How many bytes stand before the moves of a record, of which the start takes the place of the standard one.
pub(crate) fn begin(bytes: &[u8], start: &mut Numbered) -> Result<usize, Breach>
    requires standard { start.old ≡ standard_start }
    ensures begun { IfOk result (λ used. (tags : List TagValue) (game : GameTree) → IsRecord bytes.now tags game → IsBehind game start.new 0 (drop used bytes.now)) }
    ensures starts { IfOk result (λ used. (tags : List TagValue) (game : GameTree) (r : IsSpelled bytes.now tags game) → (r.start ≡ start.new) × (r.behind_start ≡ drop used bytes.now)) }
    ensures used { IfOk result (λ used. used ≤ length bytes.now) }
    ensures spelled { IfOk result (λ used. (tags : List TagValue) × ((behind : List ℕ) × (BeginsTags bytes.now tags behind × BeginsStart behind start.new (drop used bytes.now)))) }
    ensures fault { IfErr result (λ _. IsSomeRecord bytes.now → ⊥) }
    ensures first { IfErr result (Tells (Breaks bytes.now)) }
{
    let used = tags_len(bytes)?;
    let read = read_start(bytes.split_at(used).1, start)?;
    Ok(used + read)
}

// A move of the main line, and the bytes behind it.
#[derive(Drop)]
struct NextMove<'a> {
    mv: Move,
    ahead: &'a [u8],
}

// Plays the next move of a main line.
#[inline(always)]
fn next_move<'a>(here: &mut Numbered, bytes: &'a [u8]) -> Result<Option<NextMove<'a>>, Breach>
    ensures next { IfOk result (λ found. MatchOption found
        ((here.new ≡ here.old) × ((moves : List Step') → GoesOn here.old moves bytes.now → moves ≡ []))
        (λ next. Step here.old.position next.mv here.new.position × ((length next.ahead.now < length bytes.now)
        × ((moves : List Step') → GoesOn here.old moves bytes.now → (later : List Step') × ((moves ≡ next.mv ∷ later) × GoesOn here.new later next.ahead.now))))) }
    ensures tail { IfOk result (λ found. MatchOption found (Unit {0}) (λ next. next.ahead.now ≡ drop (length bytes.now - length next.ahead.now) bytes.now)) }
    ensures fault { IfErr result (λ _. (moves : List Step') → GoesOn here.old moves bytes.now → ⊥) }
    ensures unchanged { IfErr result (λ _. here.new ≡ here.old) }
{
    let Some(used) = before_move(bytes)? else {
        return Ok(None);
    };
    let due = bytes.split_at(used).1;
    match here.advance(due) {
        Err(fault) => Err(Breach {
            left: due.len(),
            what: RecordWhat::Move(fault),
        }),
        Ok((m, taken)) => Ok(Some(NextMove {
            mv: m,
            ahead: due.split_at(usize::from(taken)).1,
        })),
    }
}

// The fault that a part of these bytes has.
#[inline(never)]
pub(crate) fn fault_at(bytes: &[u8], breach: Breach) -> RecordFault
    requires few { length bytes.now < 2 ^ 32 }
    ensures first { Tells (Breaks bytes.now) breach → IsRecordFault bytes.now result }
    ensures within { result.place ≤ length bytes.now }
    ensures what { result.what ≡ breach.what }
    ensures place { (rest : List ℕ) → length rest ≡ breach.left → result.place ≡ place_of (length bytes.now) rest breach.what }
{
    RecordFault {
        place: place_of(bytes.len(), breach.left, breach.what),
        what: breach.what,
    }
}
