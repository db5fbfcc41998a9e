//! Every legal move of a position, in order.
ghost use Rattle.std.specs.Prelude.{◌≡◌, ◌↔◌, ◌+◌, ◌*◌, ◌<◌, ◌≤◌, ◌++◌, ◌∷◌, IsTrue, MatchOption, Some, [], length};
ghost use Rattle.cell_core.specs.Board.{man_at};
ghost use Rattle.cell_core.specs.Man.{man};
ghost use Rattle.std.specs.Bool.{OnTrue, OnFalse};
ghost use Rattle.std.specs.Ordering.{is_lt};
ghost use Rattle.chess_laws.specs.Attacks.{IsInCheck};
ghost use Rattle.chess_laws.specs.LegalTests.{IsOnlyKing};
ghost use Rattle.chess_laws.specs.Position.{Sound};
ghost use Rattle.chess_laws.specs.Rays.{Shut};
ghost use Rattle.chess_laws.specs.Moves.{HasMoreMoves, IsMove, ListsMoves, place_of, promotion_number};
ghost use Rattle.chess_laws.specs.Targets.{Comes, IsKnown, ListsBelow, ListsBefore, MayPromote};

use super::attack::stands;
use super::cases::last_rank;
use super::legal::{is_legal_allowed, is_legal_from, is_shut};
use super::next::{effect_as, effect_of};
use super::position::Position;
use super::setup::Setup;
use super::targets::{SquareSet, targets};
use arrayvec::ArrayVec;
use cell_core::{Kind, Move, Square};

impl Position {
    /// Lists every legal move but the null move in `into`, in the order of moves. It answers false and leaves `into`
    /// empty if there are more than 256.
    pub fn legal_moves(&self, into: &mut ArrayVec<Move, 256>) -> bool
        ensures listed { OnTrue result (ListsMoves self.now into.new.items) }
        ensures emptied { OnFalse result (into.new.items ≡ []) }
        ensures many { OnFalse result (HasMoreMoves self.now 256) }
        ensures room { OnTrue result (HasMoreMoves self.now 256 → ⊥) }
    {
        let fits = list_moves(self.setup(), self.king(self.side()), self.in_check(), into);
        if !fits {
            into.clear();
        }
        fits
    }

    /// Whether there is a legal move besides the null move. It stops at the first.
    pub fn has_move(&self) -> bool
        ensures some { IsTrue result ↔ ((m : Move) × IsMove self.now m) }
    {
        let mut none: ArrayVec<Move, 0> = ArrayVec::new();
        !list_moves(
            self.setup(),
            self.king(self.side()),
            self.in_check(),
            &mut none,
        )
    }
}

/// Whether a move stands before another in the order of moves, which is the order of the type `Move`: by the first square,
/// then the target, then the promotion.
pub fn is_before(a: &Move, b: &Move) -> bool
    ensures place { IsTrue result ↔ (place_of a.now < place_of b.now) }
    ensures order { result ≡ is_lt (⟦<Move as Ord>⟧.cmp a.now b.now) }
{
    place(a) < place(b)
}

// The place of a move in the order of moves.
fn place(m: &Move) -> u16
    ensures place { result ≡ place_of m.now }
    ensures on_board { m.now.to < 64 }
{
    512 * u16::from(m.from.index()) + 8 * u16::from(m.to.index()) + promotion_number(m.promo)
}

// The place of a promotion in the order none, queen, rook, bishop, knight.
fn promotion_number(promo: Option<Kind>) -> u16
    ensures number { result ≡ promotion_number promo }
    ensures less { result < 7 }
{
    match promo {
        None => 0,
        Some(Kind::King) => 1,
        Some(Kind::Queen) => 2,
        Some(Kind::Rook) => 3,
        Some(Kind::Bishop) => 4,
        Some(Kind::Knight) => 5,
        Some(Kind::Pawn) => 6,
    }
}

/// Lists every legal move but the null move, or answers false at the first for which there is no room. The king of the
/// side to move stands on the square `king`.
fn list_moves<const N: usize>(
    p: &Setup,
    king: Square,
    checked: bool,
    into: &mut ArrayVec<Move, N>,
) -> bool
    requires sound { Sound p.now }
    requires king { IsOnlyKing p.now.board p.now.side king }
    requires check { IsTrue checked ↔ IsInCheck p.now.board p.now.side }
    ensures listed { OnTrue result (ListsMoves p.now into.new.items) }
    ensures room { OnTrue result (HasMoreMoves p.now N → ⊥) }
    ensures many { OnFalse result (HasMoreMoves p.now N) }
{
    into.clear();
    let own = SquareSet::of_bits(p.board.of_colour(p.side));
    let mut at = 0u8;
    while let Some(from) = own.next(at) {
        if !list_from(p, king, checked, from, into) {
            return false;
        }
        at = from.index() + 1;
    }
    true
}

/// Lists the moves from this square behind those from the squares before it.
fn list_from<const N: usize>(
    p: &Setup,
    king: Square,
    checked: bool,
    from: Square,
    into: &mut ArrayVec<Move, N>,
) -> bool
    requires sound { Sound p.now }
    requires king { IsOnlyKing p.now.board p.now.side king }
    requires check { IsTrue checked ↔ IsInCheck p.now.board p.now.side }
    requires before { ListsBelow p.now N (512 * from) into.old.items }
    ensures listed { OnTrue result (ListsBelow p.now N (512 * (from + 1)) into.new.items) }
    ensures many { OnFalse result (HasMoreMoves p.now N) }
{
    let Some(kind) = own_kind(p, from) else {
        return true;
    };
    let targets = targets(p, kind, from);
    if targets.is_empty() {
        return true;
    }
    let shut = is_shut(p, king, checked, from);
    let mut at = 0u8;
    while let Some(to) = targets.next(at) {
        if !list_to(p, king, shut, kind, from, to, into) {
            return false;
        }
        at = to.index() + 1;
    }
    true
}

/// The kind of the mover's man on this square.
fn own_kind(p: &Setup, from: Square) -> Option<Kind>
    ensures { MatchOption result ((k : Kind) → man_at p.now.board from ≡ Some (man p.now.side k) → ⊥) (λ k. man_at p.now.board from ≡ Some (man p.now.side k)) }
{
    match p.board.at(from) {
        Some(standing) if standing.colour == p.side => Some(standing.kind),
        _ => None,
    }
}

/// Lists the moves from one square to another behind those before them, where a man of this kind stands on the first and is
/// known to come to the other.
fn list_to<const N: usize>(
    p: &Setup,
    king: Square,
    shut: bool,
    kind: Kind,
    from: Square,
    to: Square,
    into: &mut ArrayVec<Move, N>,
) -> bool
    requires sound { Sound p.now }
    requires king { IsOnlyKing p.now.board p.now.side king }
    requires shut { OnTrue shut (Shut p.now king from) }
    requires stands { man_at p.now.board from ≡ Some (man p.now.side kind) }
    requires comes { Comes p.now kind from to }
    requires on_board { to < 64 }
    requires before { ListsBelow p.now N (512 * from + 8 * to) into.old.items }
    ensures listed { OnTrue result (ListsBelow p.now N (512 * from + 8 * (to + 1)) into.new.items) }
    ensures many { OnFalse result (HasMoreMoves p.now N) }
{
    if !is_known(p, kind, to) {
        return list_tested(p, king, shut, from, to, into);
    }
    let m = Move {
        from,
        to,
        promo: None,
    };
    let effect = effect_as(p, kind, &m);
    if !is_legal_allowed(p, king, shut, &m, effect) {
        return true;
    }
    push(m, into)
}

/// Whether a man of this kind that comes to the square makes just one move, whose rule allows it: no pawn that is promoted or
/// may capture in passing.
fn is_known(p: &Setup, kind: Kind, to: Square) -> bool
    ensures { OnTrue result (IsKnown p.now kind to) }
{
    match kind {
        Kind::Pawn => p.en_passant != Some(to) && to.index() / 8 != last_rank(p.side),
        Kind::King | Kind::Queen | Kind::Rook | Kind::Bishop | Kind::Knight => true,
    }
}

/// Lists the moves from one square to another behind those before them, each tested by its rule.
fn list_tested<const N: usize>(
    p: &Setup,
    king: Square,
    shut: bool,
    from: Square,
    to: Square,
    into: &mut ArrayVec<Move, N>,
) -> bool
    requires sound { Sound p.now }
    requires king { IsOnlyKing p.now.board p.now.side king }
    requires shut { OnTrue shut (Shut p.now king from) }
    requires on_board { to < 64 }
    requires before { ListsBelow p.now N (512 * from + 8 * to) into.old.items }
    ensures listed { OnTrue result (ListsBelow p.now N (512 * from + 8 * (to + 1)) into.new.items) }
    ensures many { OnFalse result (HasMoreMoves p.now N) }
{
    if !add(p, king, shut, from, to, None, into) {
        return false;
    }
    if may_promote(p, from, to) {
        return list_promotions(p, king, shut, from, to, into);
    }
    true
}

/// Lists the promotions of a pawn behind the moves before them.
fn list_promotions<const N: usize>(
    p: &Setup,
    king: Square,
    shut: bool,
    from: Square,
    to: Square,
    into: &mut ArrayVec<Move, N>,
) -> bool
    requires sound { Sound p.now }
    requires king { IsOnlyKing p.now.board p.now.side king }
    requires shut { OnTrue shut (Shut p.now king from) }
    requires on_board { to < 64 }
    requires before { ListsBelow p.now N (512 * from + (8 * to + 1)) into.old.items }
    ensures listed { OnTrue result (ListsBelow p.now N (512 * from + 8 * (to + 1)) into.new.items) }
    ensures many { OnFalse result (HasMoreMoves p.now N) }
{
    if !add(p, king, shut, from, to, Some(Kind::Queen), into) {
        return false;
    }
    if !add(p, king, shut, from, to, Some(Kind::Rook), into) {
        return false;
    }
    if !add(p, king, shut, from, to, Some(Kind::Bishop), into) {
        return false;
    }
    add(p, king, shut, from, to, Some(Kind::Knight), into)
}

/// Whether a pawn of the side to move stands on `from` and `to` is on its last rank.
fn may_promote(p: &Setup, from: Square, to: Square) -> bool
    ensures { IsTrue result ↔ MayPromote p.now from to }
{
    to.index() / 8 == last_rank(p.side) && stands(&p.board, from, p.side, Kind::Pawn)
}

/// Adds the move if it is a legal one besides the null move. It answers false if `into` has no room for it.
fn add<const N: usize>(
    p: &Setup,
    king: Square,
    shut: bool,
    from: Square,
    to: Square,
    promo: Option<Kind>,
    into: &mut ArrayVec<Move, N>,
) -> bool
    requires sound { Sound p.now }
    requires king { IsOnlyKing p.now.board p.now.side king }
    requires shut { OnTrue shut (Shut p.now king from) }
    requires on_board { to < 64 }
    requires before { ListsBefore p.now N (record { from = from; to = to; promo = promo }) into.old.items }
    ensures listed { OnTrue result (ListsBelow p.now N (512 * from + (8 * to + (promotion_number promo + 1))) into.new.items) }
    ensures many { OnFalse result (HasMoreMoves p.now N) }
{
    let m = Move { from, to, promo };
    if !is_move(p, king, shut, &m) {
        return true;
    }
    push(m, into)
}

/// Adds the move if `into` has room for it, and answers whether it has.
fn push<const N: usize>(m: Move, into: &mut ArrayVec<Move, N>) -> bool
    ensures added { OnTrue result (into.new.items ≡ into.old.items ++ m ∷ []) }
    ensures room { OnTrue result (length into.old.items < N) }
    ensures full { OnFalse result (length into.old.items ≡ N) }
{
    if into.is_full() {
        return false;
    }
    into.push(m);
    true
}

/// Whether the move is a legal one besides the null move.
fn is_move(p: &Setup, king: Square, shut: bool, m: &Move) -> bool
    requires sound { Sound p.now }
    requires king { IsOnlyKing p.now.board p.now.side king }
    requires shut { OnTrue shut (Shut p.now king m.now.from) }
    ensures { IsTrue result ↔ IsMove p.now m.now }
{
    m.to != m.from && is_legal_from(p, king, shut, m, effect_of(p, m))
}
