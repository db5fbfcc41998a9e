//! Moves read from Standard Algebraic Notation and played at once.
ghost use Rattle.std.specs.Prelude.{◌≡◌, ◌<◌, false, IfOk, IfErr, Some, length};
ghost use Rattle.std.specs.Bool.{OnFalse, OnTrue};
ghost use Rattle.cell_core.specs.Board.{man_at};
ghost use Rattle.cell_core.specs.Man.{man};
ghost use Rattle.cell_core.specs.declared.step.Move.{Move};
ghost use Rattle.chess_laws.specs.Position.{Sound};
ghost use Rattle.chess_laws.specs.Step.{effect_of, Legal, Step, stepped};
ghost use Rattle.chess_text.specs.declared.shape.Shape.TheVariants.{Goes};
ghost use Rattle.chess_text.specs.SanAnswer.{san_answer};
ghost use Rattle.chess_text.specs.SanReads.{Fits, has_own_form};
ghost use Rattle.chess_text.specs.SanSearch.{AnswersShape, StandsSo};
ghost use Rattle.chess_text.specs.SanStarts.{AreStarts, StartsBy, StartsWith, and_one, gap, may_land, may_reach};

use super::fault::SanFault;
use super::ones::{lowest, without};
use super::san_reading::{BLACK_PAWN_STEPS, WHITE_PAWN_STEPS, has_own_form, move_of, stands_so};
use super::san_shape::shape_of;
use super::shape::{Going, Shape};
use cell_core::{Colour, Kind, Move, Square};
use chess_laws::{Position, Setup};

/// Reads a move in Standard Algebraic Notation as `read_san` does, and plays it. If one man alone may go to the target, the play
/// tells whether the move is legal. After a fault nothing has changed.
pub fn advance_san(p: &mut Position, text: &[u8]) -> Result<Move, SanFault>
    ensures answers { result ≡ san_answer p.old text.now }
    ensures step { IfOk result (λ m. Step p.old m p.new) }
    ensures becomes { IfOk result (λ m. p.new ≡ stepped p.old m) }
    ensures kept { IfErr result (λ _. p.new ≡ p.old) }
{
    let _rules = p.setup();
    match shape_of(text) {
        Some(shape) => advance_shape(p, &shape),
        None => Err(SanFault::Shape),
    }
}

// Plays the one legal move of the shape.
fn advance_shape(p: &mut Position, shape: &Shape) -> Result<Move, SanFault>
    ensures answers { AnswersShape p.old shape.now result }
    ensures step { IfOk result (λ m. Step p.old m p.new) }
    ensures kept { IfErr result (λ _. p.new ≡ p.old) }
{
    match shape {
        Shape::Goes(going) => advance_going(p, shape, going),
        Shape::Castle(_) | Shape::Null => advance_found(p, shape),
    }
}

// Plays the one legal move that goes so.
fn advance_going(p: &mut Position, shape: &Shape, g: &Going) -> Result<Move, SanFault>
    requires shape { shape.now ≡ Goes g.now }
    ensures answers { AnswersShape p.old (Goes g.now) result }
    ensures step { IfOk result (λ m. Step p.old m p.new) }
    ensures kept { IfErr result (λ _. p.new ≡ p.old) }
{
    match starts_of(p.setup(), g) {
        Starts::None => Err(SanFault::NoMove),
        Starts::One(from) => advance_from(p, g, from),
        Starts::More => advance_found(p, shape),
    }
}

// Looks for the one legal move of the shape, and plays it.
fn advance_found(p: &mut Position, shape: &Shape) -> Result<Move, SanFault>
    ensures answers { AnswersShape p.old shape.now result }
    ensures step { IfOk result (λ m. Step p.old m p.new) }
    ensures kept { IfErr result (λ _. p.new ≡ p.old) }
{
    match move_of(p, p.setup(), shape) {
        Ok(m) => {
            play(p, &m);
            Ok(m)
        }
        Err(fault) => Err(fault),
    }
}

// Plays a legal move.
fn play(p: &mut Position, m: &Move)
    requires legal { Legal p.old m.now }
    ensures step { Step p.old m.now p.new }
{
    p.play(*m);
}

// Plays the move from this square that goes so, where it is legal. From no other square a move goes so.
fn advance_from(p: &mut Position, g: &Going, from: Square) -> Result<Move, SanFault>
    requires stands { StandsSo p.old g.now from }
    requires only { (m : Move) → Fits p.old (Goes g.now) m → m.from ≡ from }
    ensures answers { AnswersShape p.old (Goes g.now) result }
    ensures step { IfOk result (λ m. Step p.old m p.new) }
    ensures kept { IfErr result (λ _. p.new ≡ p.old) }
{
    let m = Move {
        from,
        to: g.target,
        promo: g.promo,
    };
    if advance_as(p, g.kind, &m) {
        Ok(m)
    } else {
        Err(SanFault::NoMove)
    }
}

// Plays the move of the mover's man of this kind, which stands where it begins, where it is legal and has no form of its own. It is
// compiled for each kind apart.
fn advance_as(p: &mut Position, kind: Kind, m: &Move) -> bool
    requires stands { man_at p.old.board m.now.from ≡ Some (man p.old.side kind) }
    ensures legal { OnTrue result (has_own_form (effect_of p.old m.now) ≡ false) }
    ensures step { OnTrue result (Step p.old m.now p.new) }
    ensures none { OnFalse result (has_own_form (effect_of p.old m.now) ≡ false → Legal p.old m.now → ⊥) }
    ensures kept { OnFalse result (p.new ≡ p.old) }
{
    match kind {
        Kind::King => advance_kind(p, Kind::King, m),
        Kind::Queen => advance_kind(p, Kind::Queen, m),
        Kind::Rook => advance_kind(p, Kind::Rook, m),
        Kind::Bishop => advance_kind(p, Kind::Bishop, m),
        Kind::Knight => advance_kind(p, Kind::Knight, m),
        Kind::Pawn => advance_kind(p, Kind::Pawn, m),
    }
}

// The same, for a kind that is a constant.
#[inline(always)]
fn advance_kind(p: &mut Position, kind: Kind, m: &Move) -> bool
    requires stands { man_at p.old.board m.now.from ≡ Some (man p.old.side kind) }
    ensures legal { OnTrue result (has_own_form (effect_of p.old m.now) ≡ false) }
    ensures step { OnTrue result (Step p.old m.now p.new) }
    ensures none { OnFalse result (has_own_form (effect_of p.old m.now) ≡ false → Legal p.old m.now → ⊥) }
    ensures kept { OnFalse result (p.new ≡ p.old) }
{
    let effect = p.effect_as(kind, m);
    if has_own_form(effect) {
        return false;
    }
    p.advance_as(kind, m, effect)
}

// The squares from which a man may go so: none, one, or more.
#[derive(Clone, Copy, Debug)]
pub(crate) enum Starts {
    None,
    One(Square),
    More,
}

// From where a man may go so, apart from what stands between and the safety of the king.
#[tactic(auto, using(crate::proofs::StartLaws::white_starts, crate::proofs::StartLaws::black_starts))]
fn starts_of(p: &Setup, g: &Going) -> Starts
    requires sound { Sound p.now }
    ensures starts { AreStarts p.now g.now result }
{
    match g.kind {
        Kind::King | Kind::Queen | Kind::Rook | Kind::Bishop | Kind::Knight => starts_of_men(p, g),
        Kind::Pawn => match p.side {
            Colour::White => starts_by_steps(p, g, &WHITE_PAWN_STEPS),
            Colour::Black => starts_by_steps(p, g, &BLACK_PAWN_STEPS),
        },
    }
}

// From where one of the men of this kind may go so.
fn starts_of_men(p: &Setup, g: &Going) -> Starts
    ensures starts { AreStarts p.now g.now result }
{
    let mut starts = Starts::None;
    let mut left = p.board.of_man(p.side, g.kind);
    'men: while left != 0 {
        let from = lowest(left);
        starts = with_start(starts, p, g, from);
        left = without(left, from);
    }
    starts
}

// From where a man may go so to which one of these steps leads from the target.
fn starts_by_steps(p: &Setup, g: &Going, steps: &[u8]) -> Starts
    ensures starts { StartsBy p.now g.now steps.now (length steps.now) result }
{
    let mut starts = Starts::None;
    for step in steps {
        let from = Square::at((g.target.index() + step % 64) % 64);
        starts = with_start(starts, p, g, from);
    }
    starts
}

// These and one more square, if a man may go so from there.
#[inline(always)]
fn with_start(starts: Starts, p: &Setup, g: &Going, from: Square) -> Starts
    ensures with { StartsWith p.now g.now from starts result }
{
    if !stands_so(p, g, from) {
        return starts;
    }
    if !may_reach(g.kind, from, g.target) {
        return starts;
    }
    if !may_land(p, g.kind, from, g.target) {
        return starts;
    }
    and_one(starts, from)
}

// These and one more square.
#[inline(always)]
fn and_one(starts: Starts, from: Square) -> Starts
    ensures { result ≡ and_one starts from }
{
    match starts {
        Starts::None => Starts::One(from),
        Starts::One(_) => Starts::More,
        Starts::More => Starts::More,
    }
}

// Whether a man of this kind may reach one square from the other, by the files and ranks between them: a rook keeps one of both, a
// bishop changes both by as many, and a knight by three in all.
#[inline(always)]
fn may_reach(kind: Kind, from: Square, to: Square) -> bool
    ensures { result ≡ may_reach kind from to }
{
    let files = gap(from.index() % 8, to.index() % 8);
    let ranks = gap(from.index() / 8, to.index() / 8);
    match kind {
        Kind::Rook => files == 0 || ranks == 0,
        Kind::Bishop => files == ranks,
        Kind::Knight => files + ranks == 3,
        Kind::King | Kind::Queen | Kind::Pawn => true,
    }
}

// Whether a man of this kind may land there: a pawn keeps its file just where no man stands on its target, unless it captures en passant.
#[inline(always)]
fn may_land(p: &Setup, kind: Kind, from: Square, to: Square) -> bool
    ensures { result ≡ may_land p.now kind from to }
{
    if kind != Kind::Pawn || p.en_passant == Some(to) {
        return true;
    }
    if from.index() % 8 == to.index() % 8 {
        p.board.at(to).is_none()
    } else {
        p.board.at(to).is_some()
    }
}

// How far two files or ranks are apart.
#[inline(always)]
fn gap(a: u8, b: u8) -> u8
    ensures { result ≡ gap a b }
{
    a.abs_diff(b)
}
