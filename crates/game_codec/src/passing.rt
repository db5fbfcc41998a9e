//! Passing what stands between the moves of a main line, by its marks alone.
ghost use Rattle.std.specs.Prelude.{◌≡◌, ◌+◌, ◌<◌, ◌≤◌, ℕ, List, [], ◌∷◌, length, drop, IsTrue, IfOk, IfErr, MatchOption};
ghost use Rattle.cell_core.specs.declared.step.Move.{Move};
ghost use Rattle.chess_laws.specs.declared.setup.Setup.{Setup};
ghost use Rattle.move_codec.specs.Numbers.{Numbered};
ghost use Rattle.game_codec.specs.Place.{IsMoveDue};
ghost use Rattle.game_codec.specs.Walking.{GoesOn, IsFront, Within};

use super::breach::Breach;
use super::fault::RecordWhat;

/// What stands at the front of a main line: a move, the end of the game, or so many bytes between the moves.
#[derive(Debug, Drop)]
pub(crate) enum Front {
    Move,
    End,
    Passes(usize),
}

/// How many bytes stand before the next move of a main line, or `None` if the game ends. Mostly a move stands at the front.
#[inline(always)]
pub(crate) fn before_move(bytes: &[u8]) -> Result<Option<usize>, Breach>
    ensures due { IfOk result (λ found. MatchOption found
        ((here : Numbered) (moves : List Move) → GoesOn here moves bytes.now → moves ≡ [])
        (λ used. (used ≤ length bytes.now) × (IsMoveDue (drop used bytes.now)
        × ((here : Numbered) (moves : List Move) → GoesOn here moves bytes.now → GoesOn here moves (drop used bytes.now))))) }
    ensures fault { IfErr result (λ _. (here : Numbered) (moves : List Move) → GoesOn here moves bytes.now → ⊥) }
{
    if is_move(bytes) {
        Ok(Some(0))
    } else {
        pass_marks(bytes)
    }
}

// Whether a move stands at the front: a byte that is no mark.
#[inline(always)]
fn is_move(bytes: &[u8]) -> bool
    ensures due { IsTrue result → IsMoveDue bytes.now }
{
    match bytes {
        [] => false,
        [byte, ..] => *byte < 11 || 15 < *byte,
    }
}

// The same wherever a mark may stand at the front.
#[inline(never)]
fn pass_marks(bytes: &[u8]) -> Result<Option<usize>, Breach>
    ensures due { IfOk result (λ found. MatchOption found
        ((here : Numbered) (moves : List Move) → GoesOn here moves bytes.now → moves ≡ [])
        (λ used. (used ≤ length bytes.now) × (IsMoveDue (drop used bytes.now)
        × ((here : Numbered) (moves : List Move) → GoesOn here moves bytes.now → GoesOn here moves (drop used bytes.now))))) }
    ensures fault { IfErr result (λ _. (here : Numbered) (moves : List Move) → GoesOn here moves bytes.now → ⊥) }
{
    let mut rest = bytes;
    loop {
        match at_front(rest)? {
            Front::Move => return Ok(Some(bytes.len() - rest.len())),
            Front::End => return Ok(None),
            Front::Passes(used) => rest = rest.split_at(used).1,
        }
    }
}

// What stands at the front of a main line.
fn at_front(bytes: &[u8]) -> Result<Front, Breach>
    ensures front { IfOk result (IsFront bytes.now) }
    ensures fault { IfErr result (λ _. (here : Numbered) (moves : List Move) → GoesOn here moves bytes.now → ⊥) }
{
    match bytes {
        [] => Err(Breach {
            left: 0,
            what: RecordWhat::Short,
        }),
        [byte, behind @ ..] => front_of(*byte, behind),
    }
}

// What stands at the front of a main line, by its first byte and those behind it. A NAG is passed with its number.
fn front_of(byte: u8, behind: &[u8]) -> Result<Front, Breach>
    ensures front { IfOk result (IsFront (byte ∷ behind.now)) }
    ensures fault { IfErr result (λ _. (here : Numbered) (moves : List Move) → GoesOn here moves (byte ∷ behind.now) → ⊥) }
{
    match byte {
        11 => nag(behind),
        12 => Ok(Front::Passes(1)),
        13 => Ok(Front::Passes(1 + variation_len(behind)?)),
        14 => Err(Breach {
            left: behind.len() + 1,
            what: RecordWhat::Mark,
        }),
        15 => Ok(Front::End),
        _ => Ok(Front::Move),
    }
}

// A NAG in a main line, behind its mark.
fn nag(behind: &[u8]) -> Result<Front, Breach>
    ensures front { IfOk result (IsFront (11 ∷ behind.now)) }
    ensures fault { IfErr result (λ _. (here : Numbered) (moves : List Move) → GoesOn here moves (11 ∷ behind.now) → ⊥) }
{
    if behind.is_empty() {
        Err(Breach {
            left: 0,
            what: RecordWhat::Short,
        })
    } else {
        Ok(Front::Passes(2))
    }
}

// How many bytes a variation takes with its end, behind the mark of its beginning. Its moves are not read.
#[inline(never)]
fn variation_len(bytes: &[u8]) -> Result<usize, Breach>
    ensures len { IfOk result (λ used. (used ≤ length bytes.now) × ((behind : List ℕ) → Within 1 bytes.now behind → drop used bytes.now ≡ behind)) }
    ensures fault { IfErr result (λ _. (behind : List ℕ) → Within 1 bytes.now behind → ⊥) }
{
    let mut depth = 1;
    let mut rest = bytes;
    while depth > 0 {
        let passed = pass(depth, rest)?;
        depth = passed.depth;
        rest = rest.split_at(passed.used).1;
    }
    Ok(bytes.len() - rest.len())
}

// How many bytes are passed in a variation, and how many variations are open behind them.
#[derive(Debug, Drop)]
struct Passed {
    used: usize,
    depth: usize,
}

// Passes one item in a variation, or one byte of a move.
fn pass(depth: usize, bytes: &[u8]) -> Result<Passed, Breach>
    requires open { 0 < depth }
    requires room { depth < usize.MAX }
    ensures within { IfOk result (λ passed. (behind : List ℕ) → Within depth bytes.now behind → Within passed.depth (drop passed.used bytes.now) behind) }
    ensures used { IfOk result (λ passed. (0 < passed.used) × (passed.used ≤ length bytes.now)) }
    ensures depth { IfOk result (λ passed. passed.depth ≤ depth + 1) }
    ensures fault { IfErr result (λ _. (behind : List ℕ) → Within depth bytes.now behind → ⊥) }
{
    match bytes {
        [] => Err(Breach {
            left: 0,
            what: RecordWhat::Short,
        }),
        [byte, behind @ ..] => pass_by(depth, *byte, behind),
    }
}

// Passes one item in a variation, or one byte of a move, by its first byte and those behind it.
fn pass_by(depth: usize, byte: u8, behind: &[u8]) -> Result<Passed, Breach>
    requires open { 0 < depth }
    requires room { depth < usize.MAX }
    ensures within { IfOk result (λ passed. (later : List ℕ) → Within depth (byte ∷ behind.now) later → Within passed.depth (drop passed.used (byte ∷ behind.now)) later) }
    ensures used { IfOk result (λ passed. (0 < passed.used) × (passed.used ≤ length behind.now + 1)) }
    ensures depth { IfOk result (λ passed. passed.depth ≤ depth + 1) }
    ensures fault { IfErr result (λ _. (later : List ℕ) → Within depth (byte ∷ behind.now) later → ⊥) }
{
    if byte == 11 {
        return pass_nag(depth, behind);
    }
    if byte == 13 {
        return Ok(Passed {
            used: 1,
            depth: depth + 1,
        });
    }
    if byte == 14 {
        return Ok(Passed {
            used: 1,
            depth: depth - 1,
        });
    }
    if byte == 15 {
        return Err(Breach {
            left: behind.len() + 1,
            what: RecordWhat::Mark,
        });
    }
    Ok(Passed { used: 1, depth })
}

// Passes a NAG in a variation, behind its mark.
fn pass_nag(depth: usize, behind: &[u8]) -> Result<Passed, Breach>
    requires open { 0 < depth }
    ensures within { IfOk result (λ passed. (later : List ℕ) → Within depth (11 ∷ behind.now) later → Within passed.depth (drop passed.used (11 ∷ behind.now)) later) }
    ensures used { IfOk result (λ passed. (0 < passed.used) × (passed.used ≤ length behind.now + 1)) }
    ensures depth { IfOk result (λ passed. passed.depth ≡ depth) }
    ensures fault { IfErr result (λ _. (later : List ℕ) → Within depth (11 ∷ behind.now) later → ⊥) }
{
    if behind.is_empty() {
        Err(Breach {
            left: 0,
            what: RecordWhat::Short,
        })
    } else {
        Ok(Passed { used: 2, depth })
    }
}
