//! Moves read from Standard Algebraic Notation.
ghost use Rattle.std.specs.Prelude.{◌≡◌, ◌↔◌, ◌<◌, IsTrue, IfOk, IfErr, IfSome, MatchOption, MatchResult, None, Some, length};
ghost use Rattle.cell_core.specs.declared.step.Move.{Move};
ghost use Rattle.chess_laws.specs.Position.{Sound};
ghost use Rattle.chess_laws.specs.Step.{effect_of, Legal};
ghost use Rattle.chess_text.specs.declared.fault.SanFault.{SanFault};
ghost use Rattle.chess_text.specs.declared.shape.Shape.TheVariants.{Castle, Goes, Null};
ghost use Rattle.chess_text.specs.SanAnswer.{san_answer};
ghost use Rattle.chess_text.specs.SanReads.{SanReads, SanFaultOf, Fits, has_own_form};
ghost use Rattle.chess_text.specs.SanSearch.{AnswersShape, NotOne, StandsSo, FitsFrom, FoundAll, FoundBy, FoundWith, is_from_elsewhere};

use super::fault::SanFault;
use super::ones::{lowest, without};
use super::san_shape::shape_of;
use super::shape::{Going, Shape};
use cell_core::{Colour, Kind, Man, Move, Square};
use chess_laws::{Effect, Position, Setup, Wing, king_target};

// From the target of a white pawn: one square back, two, and back to the left and to the right.
pub(crate) const WHITE_PAWN_STEPS: [u8; 4] = [56, 48, 55, 57];

// The same of a black pawn.
pub(crate) const BLACK_PAWN_STEPS: [u8; 4] = [8, 16, 7, 9];

/// Reads a move in Standard Algebraic Notation (PGN standard, 8.2.3). Castling is `O-O`, `O-O-O`, `0-0` or `0-0-0`, and
/// the null move is `--`. The text of any other move has these parts in this order, of which only the target square
/// must be there:
///
/// - a letter of `KQRBN`, a file, and a rank;
/// - `x` or `:`;
/// - the target square;
/// - a promotion, which is a letter of `QRBN`, with or without `=` in front.
///
/// Any number of `+` and `#` may follow. The signs of capture, check and mate are not checked.
///
/// The fault is
///
/// - `Shape` if and only if the text is not of this form,
/// - `NoMove` if no legal move is of the text's form,
/// - `Two` if several are.
pub fn read_san(p: &Position, text: &[u8]) -> Result<Move, SanFault>
    ensures found { IfOk result (SanReads p.now text.now) }
    ensures only { (m : Move) → SanReads p.now text.now m → result ≡ Ok m }
    ensures fault { IfErr result (SanFaultOf p.now text.now) }
    ensures first { (fault : SanFault) → SanFaultOf p.now text.now fault → result ≡ Err fault }
    ensures answers { result ≡ san_answer p.now text.now }
{
    read(p, p.setup(), text)
}

// The one legal move of the text's form. The setup is that of the position.
fn read(p: &Position, setup: &Setup, text: &[u8]) -> Result<Move, SanFault>
    requires same { setup.now ≡ p.now }
    requires sound { Sound p.now }
    ensures found { IfOk result (SanReads p.now text.now) }
    ensures only { (m : Move) → SanReads p.now text.now m → result ≡ Ok m }
    ensures fault { IfErr result (SanFaultOf p.now text.now) }
    ensures first { (fault : SanFault) → SanFaultOf p.now text.now fault → result ≡ Err fault }
{
    match shape_of(text) {
        Some(shape) => move_of(p, setup, &shape),
        None => Err(SanFault::Shape),
    }
}

// The one legal move of the shape.
pub(crate) fn move_of(p: &Position, setup: &Setup, shape: &Shape) -> Result<Move, SanFault>
    requires same { setup.now ≡ p.now }
    requires sound { Sound p.now }
    ensures answers { AnswersShape p.now shape.now result }
{
    match shape {
        Shape::Castle(wing) => castling_of(p, *wing),
        Shape::Null => null_of(p),
        Shape::Goes(going) => search(p, setup, going),
    }
}

// Castling on the wing.
fn castling_of(p: &Position, wing: Wing) -> Result<Move, SanFault>
    ensures answers { AnswersShape p.now (Castle wing) result }
{
    let side = p.side();
    let m = Move {
        from: p.king(side),
        to: king_target(side, wing),
        promo: None,
    };
    if p.effect(&m) == Effect::Castle(wing) && p.is_legal(m) {
        Ok(m)
    } else {
        Err(SanFault::NoMove)
    }
}

// The null move.
fn null_of(p: &Position) -> Result<Move, SanFault>
    ensures answers { AnswersShape p.now Null result }
{
    let king = p.king(p.side());
    let number = king.index();
    let m = Move {
        from: Square::at(number),
        to: Square::at(number),
        promo: None,
    };
    if p.effect(&m) == Effect::Null && p.is_legal(m) {
        Ok(m)
    } else {
        Err(SanFault::NoMove)
    }
}

// The one man that goes so.
#[tactic(auto, using(crate::proofs::SearchLaws::found_every))]
fn search(p: &Position, setup: &Setup, g: &Going) -> Result<Move, SanFault>
    requires same { setup.now ≡ p.now }
    requires sound { Sound p.now }
    ensures answers { AnswersShape p.now (Goes g.now) result }
{
    match find_from(p, setup, g) {
        Ok(found) => found.ok_or(SanFault::NoMove),
        Err(fault) => Err(fault),
    }
}

// The legal move that goes so, if there is one: each man of this kind is tried, and of pawns those that may come to the target.
#[tactic(auto, using(crate::proofs::CameLaws::white_all, crate::proofs::CameLaws::black_all))]
fn find_from(p: &Position, setup: &Setup, g: &Going) -> Result<Option<Move>, SanFault>
    requires same { setup.now ≡ p.now }
    requires sound { Sound p.now }
    ensures all { MatchResult result (FoundAll p.now g.now) (NotOne p.now (Goes g.now)) }
{
    match g.kind {
        Kind::King | Kind::Queen | Kind::Rook | Kind::Bishop | Kind::Knight => by_men(p, setup, g),
        Kind::Pawn => match setup.side {
            Colour::White => by_steps(p, setup, g, &WHITE_PAWN_STEPS),
            Colour::Black => by_steps(p, setup, g, &BLACK_PAWN_STEPS),
        },
    }
}

// The legal move that goes so of one of the men of this kind.
fn by_men(p: &Position, setup: &Setup, g: &Going) -> Result<Option<Move>, SanFault>
    requires same { setup.now ≡ p.now }
    ensures all { MatchResult result (FoundAll p.now g.now) (NotOne p.now (Goes g.now)) }
{
    let mut found = None;
    let mut left = setup.board.of_man(setup.side, g.kind);
    'men: while left != 0 {
        let from = lowest(left);
        found = with_square(found, p, setup, g, from)?;
        left = without(left, from);
    }
    Ok(found)
}

// The legal move that goes so from a square to which one of these steps leads from the target.
#[tactic(auto, using(crate::proofs::CameLaws::by_start))]
fn by_steps(p: &Position, setup: &Setup, g: &Going, steps: &[u8]) -> Result<Option<Move>, SanFault>
    requires same { setup.now ≡ p.now }
    ensures tried { MatchResult result (FoundBy p.now g.now steps.now (length steps.now)) (NotOne p.now (Goes g.now)) }
{
    let mut found = None;
    for step in steps {
        let from = Square::at((g.target.index() + step % 64) % 64);
        found = with_square(found, p, setup, g, from)?;
    }
    Ok(found)
}

// What was found, and the legal move that goes so from this square. There is but one such move from a square. Most squares have
// no such man, so the test of that belongs into the loops, and the rest apart.
#[inline(always)]
fn with_square(
    found: Option<Move>,
    p: &Position,
    setup: &Setup,
    g: &Going,
    from: Square,
) -> Result<Option<Move>, SanFault>
    requires same { setup.now ≡ p.now }
    requires fits { IfSome found (Fits p.now (Goes g.now)) }
    ensures tried { MatchResult result (FoundWith p.now g.now from found) (NotOne p.now (Goes g.now)) }
{
    if !stands_so(setup, g, from) {
        return Ok(found);
    }
    let Some(m) = from_square(p, g, from) else {
        return Ok(found);
    };
    if is_from_elsewhere(&found, from) {
        return Err(SanFault::Two);
    }
    Ok(Some(m))
}

// Whether what was found is a move from another square.
fn is_from_elsewhere(found: &Option<Move>, from: Square) -> bool
    ensures elsewhere { result ≡ is_from_elsewhere found.now from }
{
    match found {
        Some(first) => first.from != from,
        None => false,
    }
}

// The legal move from the square, on which such a man stands, that goes so.
#[inline(never)]
fn from_square(p: &Position, g: &Going, from: Square) -> Option<Move>
    requires stands { StandsSo p.now g.now from }
    ensures answers { MatchOption result ((m : Move) → Fits p.now (Goes g.now) m → m.from ≡ from → ⊥) (FitsFrom p.now g.now from) }
{
    let m = Move {
        from,
        to: g.target,
        promo: g.promo,
    };
    if has_own_form(p.effect(&m)) {
        return None;
    }
    if !p.is_legal(m) {
        return None;
    }
    Some(m)
}

// Whether such a man stands on the square, as far as the text says where.
#[inline(always)]
pub(crate) fn stands_so(p: &Setup, g: &Going, s: Square) -> bool
    ensures answers { IsTrue result ↔ StandsSo p.now g.now s }
{
    let man = Man {
        colour: p.side,
        kind: g.kind,
    };
    p.board.at(s) == Some(man)
        && is_as_said(s.index() % 8, &g.file)
        && is_as_said(s.index() / 8, &g.rank)
}

// Whether a file or a rank is the one that the text gives, if it gives one.
fn is_as_said(line: u8, said: &Option<u8>) -> bool
    ensures answers { IsTrue result ↔ IfSome said.now (λ wanted. line ≡ wanted) }
{
    match said {
        Some(wanted) => line == *wanted,
        None => true,
    }
}

// Whether the move has a form of its own.
pub(crate) fn has_own_form(effect: Effect) -> bool
    ensures exact { result ≡ has_own_form effect }
{
    matches!(effect, Effect::Castle(_) | Effect::Null)
}
