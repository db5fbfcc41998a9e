//! Which moves are legal.
ghost use Rattle.std.specs.Prelude.{◌≡◌, ◌↔◌, ◌&&◌, true, IsTrue, None, Some, length};
ghost use Rattle.std.specs.Bool.{OnFalse, OnTrue};
ghost use Rattle.cell_core.specs.Board.{man_at, put};
ghost use Rattle.cell_core.specs.Man.{man, other};
ghost use Rattle.chess_laws.specs.LegalTests.{IsOnlyKing, is_calm, king_after};
ghost use Rattle.chess_laws.specs.Attacks.{IsInCheck};
ghost use Rattle.chess_laws.specs.Rays.{Shut, SlidesTo};
ghost use Rattle.chess_laws.specs.Position.{Sound};
ghost use Rattle.chess_laws.specs.Step.{board_after, effect_of, Case, Legal};

use super::attack::{are_on_line, attacks_left, slides_left};
use super::cases::{is_allowed, is_calm_of};
use super::effect::Effect;
use super::left::Left;
use super::next::effect_of;
use super::setup::Setup;
use cell_core::{Kind, Move, Square};

/// Whether the move is legal for the side to move, whose king stands on this square and is in check or not.
pub fn is_legal(p: &Setup, king: Square, checked: bool, m: &Move) -> bool
    requires sound { Sound p.now }
    requires king { IsOnlyKing p.now.board p.now.side king }
    requires check { IsTrue checked ↔ IsInCheck p.now.board p.now.side }
    ensures { IsTrue result ↔ Legal p.now m.now }
{
    is_legal_as(p, king, checked, m, effect_of(p, m))
}

/// Whether the move, which is of this kind, is legal.
pub fn is_legal_as(p: &Setup, king: Square, checked: bool, m: &Move, effect: Effect) -> bool
    requires sound { Sound p.now }
    requires king { IsOnlyKing p.now.board p.now.side king }
    requires check { IsTrue checked ↔ IsInCheck p.now.board p.now.side }
    requires effect { effect ≡ effect_of p.now m.now }
    ensures { IsTrue result ↔ Legal p.now m.now }
{
    if !is_allowed(p, king, m, effect) {
        return false;
    }
    let shut = is_shut(p, king, checked, m.from);
    is_legal_allowed(p, king, shut, m, effect)
}

/// Whether the move is legal, which is a plain one or a double step of the mover's man of this kind.
#[inline(always)]
pub fn is_legal_calm(
    p: &Setup,
    king: Square,
    checked: bool,
    kind: Kind,
    m: &Move,
    effect: Effect,
) -> bool
    requires sound { Sound p.now }
    requires king { IsOnlyKing p.now.board p.now.side king }
    requires check { IsTrue checked ↔ IsInCheck p.now.board p.now.side }
    requires stands { man_at p.now.board m.now.from ≡ Some (man p.now.side kind) }
    requires effect { effect ≡ effect_of p.now m.now }
    requires calm { is_calm effect ≡ true }
    ensures { IsTrue result ↔ Legal p.now m.now }
{
    if !is_calm_of(p, kind, m, effect) {
        return false;
    }
    let shut = is_shut(p, king, checked, m.from);
    is_legal_allowed(p, king, shut, m, effect)
}

/// Whether the mover's king is safe after each calm move from this square.
#[inline(always)]
#[tactic(auto, using(crate::proofs::Opening::shut_of))]
pub fn is_shut(p: &Setup, king: Square, checked: bool, from: Square) -> bool
    requires sound { Sound p.now }
    requires king { IsOnlyKing p.now.board p.now.side king }
    requires check { IsTrue checked ↔ IsInCheck p.now.board p.now.side }
    ensures { OnTrue result (Shut p.now king from) }
{
    if checked {
        return false;
    }
    if from == king {
        return false;
    }
    !uncovers(p, king, from)
}

/// Whether the move, which is of this kind, is legal, where the square it leaves may be shut.
pub fn is_legal_from(p: &Setup, king: Square, shut: bool, m: &Move, effect: Effect) -> bool
    requires sound { Sound p.now }
    requires king { IsOnlyKing p.now.board p.now.side king }
    requires shut { OnTrue shut (Shut p.now king m.now.from) }
    requires effect { effect ≡ effect_of p.now m.now }
    ensures { IsTrue result ↔ Legal p.now m.now }
{
    if !is_allowed(p, king, m, effect) {
        return false;
    }
    is_legal_allowed(p, king, shut, m, effect)
}

/// Whether the move, which is of this kind and allowed by its rules, is legal, where the square it leaves may be shut.
#[inline(always)]
pub fn is_legal_allowed(p: &Setup, king: Square, shut: bool, m: &Move, effect: Effect) -> bool
    requires sound { Sound p.now }
    requires king { IsOnlyKing p.now.board p.now.side king }
    requires shut { OnTrue shut (Shut p.now king m.now.from) }
    requires effect { effect ≡ effect_of p.now m.now }
    requires allowed { Case p.now m.now effect }
    ensures { IsTrue result ↔ Legal p.now m.now }
{
    stays_safe(shut, effect) || is_safe_after(p, king, m, effect)
}

// Whether the mover's king is safe on the board after an allowed move.
fn is_safe_after(p: &Setup, king: Square, m: &Move, effect: Effect) -> bool
    requires sound { Sound p.now }
    requires king { IsOnlyKing p.now.board p.now.side king }
    requires effect { effect ≡ effect_of p.now m.now }
    requires allowed { Case p.now m.now effect }
    ensures { IsTrue result ↔ (IsInCheck (board_after p.now m.now effect) p.now.side → ⊥) }
{
    let left = Left::after(p, m, effect);
    !attacks_left(&p.board, left, p.side.other(), king_after(king, m))
}

/// Where the king stands after the move: on its target, if the king is what moves.
pub fn king_after(king: Square, m: &Move) -> Square
    ensures { result ≡ king_after king m.now }
{
    if m.from == king { m.to } else { king }
}

// Whether the mover's king is safe after the move without a look at the board after it.
#[inline(always)]
fn stays_safe(shut: bool, effect: Effect) -> bool
    ensures { result ≡ (shut && is_calm effect) }
{
    shut && is_calm(effect)
}

// Whether the move changes two squares alone, where it begins and where it ends.
#[inline(always)]
pub fn is_calm(effect: Effect) -> bool
    ensures { result ≡ is_calm effect }
{
    match effect {
        Effect::Plain | Effect::Double => true,
        Effect::Passing | Effect::Castle(_) | Effect::Null => false,
    }
}

// Whether an enemy may slide to the king over this square, if nothing stands on it.
#[inline(always)]
fn uncovers(p: &Setup, king: Square, from: Square) -> bool
    requires squares { length p.now.board ≡ 64 }
    ensures { OnFalse result (SlidesTo (put p.now.board from None) (other p.now.side) king → SlidesTo p.now.board (other p.now.side) king) }
{
    are_on_line(king, from) && slides_without(p, king, from)
}

// Whether an enemy slides to the king if nothing stands on this square.
#[inline(always)]
fn slides_without(p: &Setup, king: Square, from: Square) -> bool
    requires squares { length p.now.board ≡ 64 }
    ensures { IsTrue result ↔ SlidesTo (put p.now.board from None) (other p.now.side) king }
{
    let enemy = p.side.other();
    let left = Left::of(&p.board, enemy).emptied(from);
    slides_left(&p.board, left, enemy, king)
}
