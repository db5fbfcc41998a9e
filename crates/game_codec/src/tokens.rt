//! The next item of a record's moves.
ghost use Rattle.std.specs.Prelude.{◌≡◌, ◌<◌, ◌≤◌, ℕ, List, ◌∷◌, length, drop, IfOk, IfErr};
ghost use Rattle.game_codec.specs.Place.{Takes, FaultAt};
ghost use Rattle.game_codec.specs.Nests.{IsKept, IsPast, token_of};

use super::fault::RecordWhat;
use super::place::Place;
use super::token::Token;
use game_tree::DEEPEST;

/// An item of a record's moves, and how many bytes it takes.
#[derive(Debug, Drop)]
pub(crate) struct NextToken {
    pub(crate) token: Token,
    pub(crate) used: usize,
}

/// The item that the bytes begin with, or why none that may stand at the place. The place is then the one behind it in its
/// own line.
pub(crate) fn next_token(place: &mut Place, bytes: &[u8]) -> Result<NextToken, RecordWhat>
    ensures takes { IfOk result (λ next. Takes place.old bytes.now (token_of next.token) (drop next.used bytes.now)) }
    ensures used { IfOk result (λ next. (0 < next.used) × (next.used ≤ length bytes.now)) }
    ensures past { IfOk result (λ next. IsPast place.old (token_of next.token) place.new (drop next.used bytes.now)) }
    ensures fault { IfErr result (FaultAt place.old bytes.now) }
    ensures kept { IfErr result (λ _. IsKept place.old place.new bytes.now) }
{
    let [byte, behind @ ..] = bytes else {
        return Err(RecordWhat::Short);
    };
    match *byte {
        11 => nag(place, behind),
        12 => comment(place),
        13 => opening(place),
        14 => closing(place),
        15 => end(place),
        _ => place.next_move(bytes),
    }
}

// A NAG, behind its mark.
fn nag(place: &Place, behind: &[u8]) -> Result<NextToken, RecordWhat>
    ensures takes { IfOk result (λ next. Takes place.now (11 ∷ behind.now) (token_of next.token) (drop next.used (11 ∷ behind.now))) }
    ensures used { IfOk result (λ next. (next.used ≡ 2) × (1 ≤ length behind.now)) }
    ensures past { IfOk result (λ next. (behind : List ℕ) → IsPast place.now (token_of next.token) place.now behind) }
    ensures fault { IfErr result (FaultAt place.now (11 ∷ behind.now)) }
{
    if !place.has_move() {
        return Err(RecordWhat::Mark);
    }
    match behind {
        [number, ..] => Ok(NextToken {
            token: Token::Nag(*number),
            used: 2,
        }),
        [] => Err(RecordWhat::Short),
    }
}

// A comment, whatever stands behind its mark.
fn comment(place: &mut Place) -> Result<NextToken, RecordWhat>
    ensures same { IfErr result (λ _. place.new ≡ place.old) }
    ensures takes { IfOk result (λ next. (behind : List ℕ) → Takes place.old (12 ∷ behind) (token_of next.token) behind) }
    ensures used { IfOk result (λ next. next.used ≡ 1) }
    ensures past { IfOk result (λ next. (behind : List ℕ) → IsPast place.old (token_of next.token) place.new behind) }
    ensures fault { IfErr result (λ what. (behind : List ℕ) → FaultAt place.old (12 ∷ behind) what) }
{
    if place.has_comment() {
        Err(RecordWhat::TwoComments)
    } else {
        place.comment();
        Ok(NextToken {
            token: Token::Comment,
            used: 1,
        })
    }
}

// The beginning of a variation.
fn opening(place: &Place) -> Result<NextToken, RecordWhat>
    ensures takes { IfOk result (λ next. (behind : List ℕ) → Takes place.now (13 ∷ behind) (token_of next.token) behind) }
    ensures used { IfOk result (λ next. next.used ≡ 1) }
    ensures past { IfOk result (λ next. (behind : List ℕ) → IsPast place.now (token_of next.token) place.now behind) }
    ensures fault { IfErr result (λ what. (behind : List ℕ) → FaultAt place.now (13 ∷ behind) what) }
{
    if !place.has_move() {
        Err(RecordWhat::Mark)
    } else if place.depth() >= DEEPEST {
        Err(RecordWhat::Depth)
    } else {
        Ok(NextToken {
            token: Token::Open,
            used: 1,
        })
    }
}

// The end of a variation.
fn closing(place: &Place) -> Result<NextToken, RecordWhat>
    ensures takes { IfOk result (λ next. (behind : List ℕ) → Takes place.now (14 ∷ behind) (token_of next.token) behind) }
    ensures used { IfOk result (λ next. next.used ≡ 1) }
    ensures past { IfOk result (λ next. (behind : List ℕ) → IsPast place.now (token_of next.token) place.now behind) }
    ensures fault { IfErr result (λ what. (behind : List ℕ) → FaultAt place.now (14 ∷ behind) what) }
{
    if place.depth() == 0 {
        Err(RecordWhat::Mark)
    } else {
        Ok(NextToken {
            token: Token::Close,
            used: 1,
        })
    }
}

// The end of the game.
fn end(place: &Place) -> Result<NextToken, RecordWhat>
    ensures takes { IfOk result (λ next. (behind : List ℕ) → Takes place.now (15 ∷ behind) (token_of next.token) behind) }
    ensures used { IfOk result (λ next. next.used ≡ 1) }
    ensures past { IfOk result (λ next. (behind : List ℕ) → IsPast place.now (token_of next.token) place.now behind) }
    ensures fault { IfErr result (λ what. (behind : List ℕ) → FaultAt place.now (15 ∷ behind) what) }
{
    if place.depth() == 0 {
        Ok(NextToken {
            token: Token::End,
            used: 1,
        })
    } else {
        Err(RecordWhat::Mark)
    }
}
