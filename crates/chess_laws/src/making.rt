//! Making a legal move, and whether it gives check.
ghost use Rattle.std.specs.Prelude.{◌≡◌, ◌↔◌, ◌⊎◌, ◌&&◌, IsTrue, Some, is_none, true};
ghost use Rattle.std.specs.Bool.{OnFalse, OnTrue};
ghost use Rattle.cell_core.specs.Board.{man_at, Men};
ghost use Rattle.cell_core.specs.Man.{other};
ghost use Rattle.chess_laws.specs.Counts.{counts_of, fewer};
ghost use Rattle.chess_laws.specs.Keeps.{in_check};
ghost use Rattle.chess_laws.specs.LegalTests.{is_calm, takes_target};
ghost use Rattle.chess_laws.specs.Position.{Sound, king_square};
ghost use Rattle.chess_laws.specs.Rays.{Hits, LeapsAs, SlidesTo};
ghost use Rattle.chess_laws.specs.Step.{after, effect_of, Legal};

use super::attack::slides_left;
use super::counts::Counts;
use super::effect::Effect;
use super::leaps::{is_capture_step, is_king_step, is_knight_step};
use super::left::Left;
use super::legal::is_calm;
use super::next::{change, change_calm};
use super::setup::Setup;
use cell_core::{Board, Colour, Kind, Man, Move, Square};

/// Makes a legal move of what stands where it begins and keeps the ten counts, and answers whether the other side is in check
/// then, whose king stands on this square.
#[inline(always)]
pub fn make(
    p: &mut Setup,
    counts: &mut Counts,
    m: &Move,
    effect: Effect,
    standing: Option<Man>,
    resting: Square,
) -> bool
    requires sound { Sound p.old }
    requires legal { Legal p.old m.now }
    requires effect { effect ≡ effect_of p.old m.now }
    requires standing { standing ≡ man_at p.old.board m.now.from }
    requires resting { resting ≡ king_square p.old.board (other p.old.side) }
    requires census { counts.old ≡ counts_of p.old.board }
    ensures becomes { p.new ≡ after p.old m.now effect }
    ensures check { result ≡ in_check p.new }
    ensures census { counts.new ≡ counts_of p.new.board }
{
    let side = p.side;
    let taken = p.board.at(m.to);
    let come = change_as(p, m, effect, standing);
    recount(counts, &p.board, &taken, takes_alone(m, effect));
    gives_check(&p.board, side, &come, m.to, resting)
}

/// Makes the move of what stands on its first square, and gives what stands on its target then.
#[inline(always)]
pub fn change_as(p: &mut Setup, m: &Move, effect: Effect, standing: Option<Man>) -> Option<Man>
    requires standing { standing ≡ man_at p.old.board m.now.from }
    ensures becomes { p.new ≡ after p.old m.now effect }
    ensures come { result ≡ man_at p.new.board m.now.to }
{
    if let Some(man) = standing {
        if is_calm(effect) {
            return Some(change_calm(p, m, effect, man));
        }
    }
    change(p, m, effect);
    p.board.at(m.to)
}

// Whether the move changes the counts by the man on its target alone.
#[inline(always)]
fn takes_alone(m: &Move, effect: Effect) -> bool
    ensures { result ≡ (takes_target effect && is_none m.now.promo) }
{
    takes_target(effect) && m.promo.is_none()
}

// Whether a move takes no man but one on its target.
fn takes_target(effect: Effect) -> bool
    ensures { result ≡ takes_target effect }
{
    match effect {
        Effect::Plain | Effect::Double | Effect::Castle(_) => true,
        Effect::Passing | Effect::Null => false,
    }
}

// The counts of the board, which are those before without the man that was taken, if that is all.
#[inline(always)]
fn recount(counts: &mut Counts, board: &Board, taken: &Option<Man>, alone: bool)
    ensures one { OnTrue alone (counts.new ≡ fewer counts.old taken.now) }
    ensures all { OnFalse alone (counts.new ≡ counts_of board.now) }
{
    if alone {
        counts.count_out(taken);
    } else {
        *counts = Counts::of(board);
    }
}

// Whether what has come to a square is a man of this colour that leaps to another, or one that slides reaches it.
#[inline(always)]
fn gives_check(board: &Board, by: Colour, come: &Option<Man>, from: Square, s: Square) -> bool
    requires come { come.now ≡ man_at board.now from }
    ensures { IsTrue result ↔ (Hits board.now by from s ⊎ SlidesTo board.now by s) }
{
    hits(by, come, from, s) || slides_left(board, Left::of(board, by), by, s)
}

// Whether what stands on one square is a man of this colour and leaps to another.
#[inline(always)]
fn hits(by: Colour, standing: &Option<Man>, from: Square, s: Square) -> bool
    ensures { (men : Men) → standing.now ≡ man_at men from → IsTrue result ↔ Hits men by from s }
{
    match standing {
        Some(standing) => standing.colour == by && leaps_as(by, standing.kind, from, s),
        None => false,
    }
}

// Whether a man of this kind leaps from one square to the other.
#[inline(always)]
fn leaps_as(colour: Colour, kind: Kind, from: Square, to: Square) -> bool
    ensures { IsTrue result ↔ LeapsAs colour kind from to }
{
    match kind {
        Kind::King => is_king_step(from, to),
        Kind::Knight => is_knight_step(from, to),
        Kind::Pawn => is_capture_step(colour, from, to),
        Kind::Queen | Kind::Rook | Kind::Bishop => false,
    }
}
