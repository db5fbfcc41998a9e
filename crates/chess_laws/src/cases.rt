//! Which moves the rules of each kind of half-move allow, apart from the safety of the mover's king.
ghost use Rattle.std.specs.Prelude.{◌≡◌, ◌↔◌, true, IsTrue, Any, Some, None};
ghost use Rattle.cell_core.specs.Board.{man_at};
ghost use Rattle.cell_core.specs.Man.{man, other};
ghost use Rattle.chess_laws.specs.Geometry.{forward, pawn_captures, rank_of, shift, Leaps, Runs, Walk};
ghost use Rattle.chess_laws.specs.Attacks.{Reaches, IsInCheck};
ghost use Rattle.chess_laws.specs.LegalTests.{IsOnlyKing, MayCastle, is_calm, slides, IsEnemyOn};
ghost use Rattle.chess_laws.specs.Step.{Case, CastleCase, DoubleCase, GoesPlainly, HasNoOwn, NullCase, PassingCase, PlainCase, last_rank, may_become, pawn_rank, promotes_rightly};

use super::attack::{attacks, stands};
use super::castling::{has_right, is_path_safe, is_way_free};
use super::effect::Effect;
use super::leaps::{is_capture_step, is_king_step, is_knight_step};
use super::next::passed_square;
use super::setup::{Setup, Wing};
use super::sliding::runs;
use cell_core::{Board, Colour, Kind, Man, Move, Square};

/// Whether the rules of its kind allow the move.
pub fn is_allowed(p: &Setup, king: Square, m: &Move, effect: Effect) -> bool
    requires king { IsOnlyKing p.now.board p.now.side king }
    ensures { IsTrue result ↔ Case p.now m.now effect }
{
    match effect {
        Effect::Plain => is_plain(p, m),
        Effect::Double => is_double(p, m),
        Effect::Passing => is_passing(p, m),
        Effect::Castle(wing) => is_castling(p, m, wing),
        Effect::Null => is_null(p, king, m),
    }
}

/// Whether it is a plain move or capture of one of the mover's men.
fn is_plain(p: &Setup, m: &Move) -> bool
    ensures { IsTrue result ↔ PlainCase p.now m.now }
{
    let Some(standing) = p.board.at(m.from) else {
        return false;
    };
    standing.colour == p.side && is_plain_of(p, standing.kind, m)
}

/// Whether the rules of its kind allow the move, a plain one or a double step of the mover's man of this kind, which stands where it
/// begins.
#[inline(always)]
pub fn is_calm_of(p: &Setup, kind: Kind, m: &Move, effect: Effect) -> bool
    requires stands { man_at p.now.board m.now.from ≡ Some (man p.now.side kind) }
    requires calm { is_calm effect ≡ true }
    ensures { IsTrue result ↔ Case p.now m.now effect }
{
    match effect {
        Effect::Plain => is_plain_of(p, kind, m),
        Effect::Double => is_double(p, m),
        Effect::Passing | Effect::Castle(_) | Effect::Null => false,
    }
}

/// Whether it is a plain move or capture of the mover's man of this kind, which stands where it begins.
#[inline(always)]
fn is_plain_of(p: &Setup, kind: Kind, m: &Move) -> bool
    requires stands { man_at p.now.board m.now.from ≡ Some (man p.now.side kind) }
    ensures { IsTrue result ↔ PlainCase p.now m.now }
{
    goes_plainly(p, kind, m) && promotes_rightly(p.side, kind, m)
}

/// Whether a man of this kind makes the move plainly.
#[inline(always)]
fn goes_plainly(p: &Setup, kind: Kind, m: &Move) -> bool
    ensures { IsTrue result ↔ GoesPlainly p.now kind m.now }
{
    match kind {
        Kind::Pawn => steps_on(p, m) || takes(p, m),
        Kind::King | Kind::Queen | Kind::Rook | Kind::Bishop | Kind::Knight => {
            has_no_own(&p.board, p.side, m.to) && reaches(&p.board, p.side, kind, m.from, m.to)
        }
    }
}

/// Whether a pawn goes one square forward to an empty square.
#[inline(always)]
fn steps_on(p: &Setup, m: &Move) -> bool
    ensures { IsTrue result ↔ (Leaps m.now.from m.now.to (forward p.now.side)) × (man_at p.now.board m.now.to ≡ None) }
{
    ahead(p.side, m.from) == Some(m.to) && p.board.at(m.to).is_none()
}

/// Whether a pawn captures an enemy man diagonally in front of it.
#[inline(always)]
fn takes(p: &Setup, m: &Move) -> bool
    ensures { IsTrue result ↔ (Any (Leaps m.now.from m.now.to) (pawn_captures p.now.side)) × IsEnemyOn p.now.board p.now.side m.now.to }
{
    is_capture_step(p.side, m.from, m.to) && has_enemy(&p.board, p.side, m.to)
}

/// Whether an enemy of this colour stands on the square.
#[inline(always)]
pub fn has_enemy(board: &Board, colour: Colour, s: Square) -> bool
    ensures { IsTrue result ↔ IsEnemyOn board.now colour s }
{
    match board.at(s) {
        Some(standing) => standing.colour == colour.other(),
        None => false,
    }
}

/// Whether no man of this colour stands on the square.
#[inline(always)]
pub fn has_no_own(board: &Board, colour: Colour, s: Square) -> bool
    ensures { IsTrue result ↔ HasNoOwn board.now colour s }
{
    match board.at(s) {
        Some(standing) => standing.colour != colour,
        None => true,
    }
}

/// Whether a pawn that comes to the last rank is promoted to a queen, rook, bishop or knight, and no other move names a
/// promotion.
#[inline(always)]
fn promotes_rightly(side: Colour, kind: Kind, m: &Move) -> bool
    ensures { result ≡ promotes_rightly side kind m.now }
{
    if kind == Kind::Pawn && m.to.index() / 8 == last_rank(side) {
        may_become(m.promo)
    } else {
        m.promo.is_none()
    }
}

/// The rank on which a pawn is promoted.
pub fn last_rank(side: Colour) -> u8
    ensures { result ≡ last_rank side }
{
    match side {
        Colour::White => 7,
        Colour::Black => 0,
    }
}

/// Whether a pawn may become this.
fn may_become(promo: Option<Kind>) -> bool
    ensures { result ≡ may_become promo }
{
    match promo {
        Some(Kind::Queen | Kind::Rook | Kind::Bishop | Kind::Knight) => true,
        Some(Kind::King | Kind::Pawn) | None => false,
    }
}

/// Whether it is a pawn's first move of two squares.
#[inline(always)]
fn is_double(p: &Setup, m: &Move) -> bool
    ensures { IsTrue result ↔ DoubleCase p.now m.now }
{
    stands(&p.board, m.from, p.side, Kind::Pawn)
        && is_on_own_rank(p.side, m.from)
        && walks_two(&p.board, p.side, m.from, m.to)
        && p.board.at(m.to).is_none()
        && m.promo.is_none()
}

/// Whether the square is on the rank on which a side's pawns begin.
pub fn is_on_own_rank(side: Colour, s: Square) -> bool
    ensures { IsTrue result ↔ (rank_of s ≡ pawn_rank side) }
{
    match side {
        Colour::White => s.index() / 8 == 1,
        Colour::Black => s.index() / 8 == 6,
    }
}

/// Whether two steps forward lead from one square to the other, over an empty one.
#[inline(always)]
fn walks_two(board: &Board, side: Colour, from: Square, to: Square) -> bool
    ensures { IsTrue result ↔ Walk board.now (forward side) 1 from to }
{
    let Some(crossed) = ahead(side, from) else {
        return false;
    };
    board.at(crossed).is_none() && ahead(side, crossed) == Some(to)
}

/// Whether it is a pawn's capture en passant.
fn is_passing(p: &Setup, m: &Move) -> bool
    ensures { IsTrue result ↔ PassingCase p.now m.now }
{
    let passed = Man {
        colour: p.side.other(),
        kind: Kind::Pawn,
    };
    stands(&p.board, m.from, p.side, Kind::Pawn)
        && is_capture_step(p.side, m.from, m.to)
        && p.en_passant == Some(m.to)
        && p.board.at(m.to).is_none()
        && p.board.at(passed_square(m)) == Some(passed)
        && m.promo.is_none()
}

/// Whether it is castling on this wing.
pub fn is_castling(p: &Setup, m: &Move, wing: Wing) -> bool
    ensures { IsTrue result ↔ CastleCase p.now m.now wing }
{
    may_castle(p, m, wing) && is_path_safe(&p.board, p.side, wing)
}

/// Whether the king may castle on this wing, apart from its safety.
fn may_castle(p: &Setup, m: &Move, wing: Wing) -> bool
    ensures { IsTrue result ↔ MayCastle p.now m.now wing }
{
    stands(&p.board, m.from, p.side, Kind::King)
        && has_right(&p.rights, p.side, wing)
        && m.promo.is_none()
        && is_way_free(&p.board, p.side, wing)
}

/// Whether it is the null move, and the mover may pass.
fn is_null(p: &Setup, king: Square, m: &Move) -> bool
    requires king { IsOnlyKing p.now.board p.now.side king }
    ensures { IsTrue result ↔ NullCase p.now m.now }
{
    stands(&p.board, m.from, p.side, Kind::King)
        && m.to == m.from
        && m.promo.is_none()
        && !is_in_check(&p.board, p.side, king)
}

/// Whether the king of this colour, which stands on this square alone, is in check.
pub fn is_in_check(board: &Board, colour: Colour, king: Square) -> bool
    requires king { IsOnlyKing board.now colour king }
    ensures { IsTrue result ↔ IsInCheck board.now colour }
{
    attacks(board, colour.other(), king)
}

/// The square in front of a pawn of this colour, if there is one.
#[inline(always)]
#[tactic(auto, using(crate::proofs::Shifts::ahead_up, crate::proofs::Shifts::ahead_down, crate::proofs::Shifts::edge_up, crate::proofs::Shifts::edge_down))]
pub fn ahead(colour: Colour, s: Square) -> Option<Square>
    ensures { result ≡ shift (forward colour) s }
{
    let number = s.index();
    match colour {
        Colour::White if number < 56 => Some(Square::at(number + 8)),
        Colour::Black if number >= 8 => Some(Square::at(number - 8)),
        Colour::White | Colour::Black => None,
    }
}

/// Whether such a man reaches one square from the other.
#[inline(always)]
pub fn reaches(board: &Board, colour: Colour, kind: Kind, from: Square, to: Square) -> bool
    ensures { IsTrue result ↔ Reaches board.now colour kind from to }
{
    match kind {
        Kind::King => is_king_step(from, to),
        Kind::Queen | Kind::Rook | Kind::Bishop => runs(board.occupied(), kind, from, to),
        Kind::Knight => is_knight_step(from, to),
        Kind::Pawn => is_capture_step(colour, from, to),
    }
}
