//! What a move leads to.
ghost use Rattle.std.specs.Prelude.{◌≡◌, Some, true};
ghost use Rattle.cell_core.specs.Board.{man_at};
ghost use Rattle.cell_core.specs.declared.man.Kind.TheVariants.{King, Pawn};
ghost use Rattle.cell_core.specs.declared.step.Move.{Move};
ghost use Rattle.chess_laws.specs.declared.setup.Setup.{Setup};
ghost use Rattle.chess_laws.specs.LegalTests.{is_calm};
ghost use Rattle.chess_laws.specs.Step.{effect_as, effect_of, goes_two, changes_file, arriving, moved, board_after, rights_left, en_passant_after, passed_square, after};

use super::castling::{king_home, king_target, leave_rights, rights_after, rook_home, rook_target};
use super::effect::Effect;
use super::rules::en_passant_rank;
use super::setup::{Rights, Setup, Wing};
use cell_core::{Board, Colour, Kind, Man, Move, Square};

/// What kind of half-move it is, by the man that stands on its first square.
pub fn effect_of(p: &Setup, m: &Move) -> Effect
    ensures { result ≡ effect_of p.now m.now }
{
    match p.board.at(m.from) {
        Some(standing) => effect_as(p, standing.kind, m),
        None => Effect::Plain,
    }
}

/// What kind of half-move the move of a man of this kind is.
#[inline(always)]
pub fn effect_as(p: &Setup, kind: Kind, m: &Move) -> Effect
    ensures { result ≡ effect_as kind p.now m.now }
{
    match kind {
        Kind::King => king_effect(p, m),
        Kind::Pawn => pawn_effect(p, m),
        Kind::Queen | Kind::Rook | Kind::Bishop | Kind::Knight => Effect::Plain,
    }
}

/// What kind of half-move a king's move is.
fn king_effect(p: &Setup, m: &Move) -> Effect
    ensures { result ≡ effect_as King p.now m.now }
{
    let from_home = m.from == king_home(p.side);
    if m.to == m.from {
        Effect::Null
    } else if from_home && m.to == king_target(p.side, Wing::KingSide) {
        Effect::Castle(Wing::KingSide)
    } else if from_home && m.to == king_target(p.side, Wing::QueenSide) {
        Effect::Castle(Wing::QueenSide)
    } else {
        Effect::Plain
    }
}

/// What kind of half-move a pawn's move is.
fn pawn_effect(p: &Setup, m: &Move) -> Effect
    ensures { result ≡ effect_as Pawn p.now m.now }
{
    if goes_two(p.side, m) {
        Effect::Double
    } else if m.to.index() % 8 != m.from.index() % 8 && p.board.at(m.to).is_none() {
        Effect::Passing
    } else {
        Effect::Plain
    }
}

/// Whether the move goes two ranks forward.
fn goes_two(side: Colour, m: &Move) -> bool
    ensures { result ≡ goes_two side m.now }
{
    let from = m.from.index() / 8;
    let to = m.to.index() / 8;
    match side {
        Colour::White => to == from + 2,
        Colour::Black => from == to + 2,
    }
}

/// The square of the pawn that a capture en passant takes: on the mover's rank and the target's file (FIDE Laws,
/// Article 3.7.3.1).
pub fn passed_square(m: &Move) -> Square
    ensures square { result ≡ passed_square m.now }
{
    Square::at(8 * (m.from.index() / 8) + m.to.index() % 8)
}

/// Makes the move on the board.
pub fn change_board(p: &mut Setup, m: &Move, effect: Effect)
    ensures board { p.new.board ≡ board_after p.old m.now effect }
    ensures side { p.new.side ≡ p.old.side }
{
    match effect {
        Effect::Null => {}
        Effect::Plain | Effect::Double => move_man(p, m),
        Effect::Passing => {
            move_man(p, m);
            p.board.set(passed_square(m), None);
        }
        Effect::Castle(wing) => {
            move_man(p, m);
            p.board.set(rook_home(p.side, wing), None);
            let rook = Man {
                colour: p.side,
                kind: Kind::Rook,
            };
            p.board.set(rook_target(p.side, wing), Some(rook));
        }
    }
}

// Takes the man to its target, where it may become another.
fn move_man(p: &mut Setup, m: &Move)
    ensures board { p.new.board ≡ moved p.old m.now }
    ensures side { p.new.side ≡ p.old.side }
{
    let arriving = match m.promo {
        Some(kind) => Some(Man {
            colour: p.side,
            kind,
        }),
        None => p.board.at(m.from),
    };
    p.board.go(m.from, m.to, arriving);
}

/// The rights that are left after the move.
fn rights_left(p: &Setup, m: &Move, effect: Effect) -> Rights
    ensures { result ≡ rights_left p.now m.now effect }
{
    match effect {
        Effect::Null => p.rights,
        Effect::Plain | Effect::Double | Effect::Passing | Effect::Castle(_) => rights_after(
            &p.rights, m,
        ),
    }
}

/// The square that a pawn's double step has crossed.
#[inline(always)]
fn en_passant_after(p: &Setup, m: &Move, effect: Effect) -> Option<Square>
    ensures { result ≡ en_passant_after p.now m.now effect }
{
    match effect {
        Effect::Double => {
            let rank = en_passant_rank(p.side.other());
            Some(Square::at(8 * rank + m.from.index() % 8))
        }
        Effect::Plain | Effect::Passing | Effect::Castle(_) | Effect::Null => None,
    }
}

/// Makes a plain move or a double step of this man, who stands where it begins, and gives the man that arrives.
#[inline(always)]
pub fn change_calm(p: &mut Setup, m: &Move, effect: Effect, standing: Man) -> Man
    requires calm { is_calm effect ≡ true }
    requires stands { man_at p.old.board m.now.from ≡ Some standing }
    ensures becomes { p.new ≡ after p.old m.now effect }
    ensures lands { man_at p.new.board m.now.to ≡ Some result }
{
    let en_passant = en_passant_after(p, m, effect);
    let arriving = arriving(p.side, standing, m.promo);
    p.board.carry(m.from, m.to, standing, arriving);
    p.side = p.side.other();
    leave_rights(&mut p.rights, m);
    p.en_passant = en_passant;
    arriving
}

// The man that arrives: this one, or what it is promoted to.
#[inline(always)]
fn arriving(side: Colour, standing: Man, promo: Option<Kind>) -> Man
    ensures { (p : Setup) (m : Move) → p.side ≡ side → m.promo ≡ promo → man_at p.board m.from ≡ Some standing → Some result ≡ arriving p m promo }
{
    match promo {
        Some(kind) => Man { colour: side, kind },
        None => standing,
    }
}

/// Makes the move, which may be against the rules.
pub fn change(p: &mut Setup, m: &Move, effect: Effect)
    ensures { p.new ≡ after p.old m.now effect }
{
    let rights = rights_left(p, m, effect);
    let en_passant = en_passant_after(p, m, effect);
    change_board(p, m, effect);
    p.side = p.side.other();
    p.rights = rights;
    p.en_passant = en_passant;
}
