//! Where the rules of a man lead it, apart from the safety of its king.
ghost use Rattle.std.specs.Prelude.{◌≡◌, ◌↔◌, ℕ, ◌<◌, ◌≤◌, ◌⊎◌, Any, IsTrue, MatchOption, None, Some, true};
ghost use Rattle.std.specs.Int.{bit_at};
ghost use Rattle.cell_core.specs.Board.{man_at};
ghost use Rattle.chess_laws.specs.Castling.{king_target};
ghost use Rattle.chess_laws.specs.Geometry.{Leaps, Runs, forward, king_steps, knight_steps, pawn_captures};
ghost use Rattle.chess_laws.specs.LegalTests.{slides};
ghost use Rattle.chess_laws.specs.Targets.{CastlesTo, Comes, DoublesTo, Has, MayTake, goes};
ghost use Rattle.chess_laws.specs.Step.{CastleCase, HasNoOwn};

use super::cases::{ahead, is_castling, is_on_own_rank};
use super::castling::{king_home, king_target};
use super::leaps::{capture_squares, king_squares, knight_squares};
use super::setup::{Setup, Wing};
use super::sliding::run_squares;
use cell_core::{Kind, Move, Square};

/// A set of squares.
#[derive(Clone, Copy, Debug, PartialEq, Eq)]
pub struct SquareSet {
    bits: u64,
}

impl SquareSet {
    /// The squares of these bits, the square `s` being the bit `s`.
    pub fn of_bits(bits: u64) -> SquareSet
        ensures bits { result.bits ≡ bits }
    {
        SquareSet { bits }
    }

    /// Whether the square is in the set.
    #[tactic(auto, using(crate::proofs::Sets::has_told))]
    pub fn has(&self, s: Square) -> bool
        ensures has { IsTrue result ↔ Has self.now s }
    {
        self.bits >> s.index() & 1 == 1
    }

    /// The squares of the set that are among those of these bits.
    #[tactic(auto, using(crate::proofs::Sets::both_bits))]
    pub fn within(&self, bits: u64) -> SquareSet
        ensures both { (s : ℕ) → Has result s ↔ (Has self.now s × (bit_at bits s ≡ 1)) }
    {
        SquareSet {
            bits: self.bits & bits,
        }
    }

    /// Whether the set has one of the squares of these bits.
    #[tactic(auto, using(crate::proofs::Sets::meets_told))]
    pub fn meets(&self, bits: u64) -> bool
        ensures meets { IsTrue result ↔ ((s : ℕ) × (Has self.now s × (bit_at bits s ≡ 1))) }
    {
        self.bits & bits != 0
    }

    /// The set without the squares of these bits.
    #[tactic(auto, using(crate::proofs::Sets::without_bits))]
    pub fn without(&self, bits: u64) -> SquareSet
        ensures left { (s : ℕ) → Has result s ↔ (Has self.now s × (bit_at bits s ≡ 0)) }
    {
        SquareSet {
            bits: self.bits & !bits,
        }
    }

    /// The set with no square.
    fn empty() -> SquareSet
        ensures none { (k : ℕ) → Has result k → ⊥ }
    {
        SquareSet { bits: 0 }
    }

    /// Whether no square is in the set.
    #[tactic(auto, using(crate::proofs::Sets::empty_told))]
    pub fn is_empty(&self) -> bool
        ensures empty { IsTrue result ↔ ((k : ℕ) → Has self.now k → ⊥) }
    {
        self.bits == 0
    }

    /// The set with this square too.
    fn with(self, s: Square) -> SquareSet
        ensures added { Has result s }
        ensures kept { (k : ℕ) → Has self k → Has result k }
        ensures only { (k : ℕ) → Has result k → (Has self k ⊎ (k ≡ s)) }
    {
        SquareSet {
            bits: with_bit(self.bits, s.index()),
        }
    }

    /// The first square of the set from the number `at` on.
    #[tactic(auto, using(crate::proofs::Sets::shifted))]
    pub fn next(&self, at: u8) -> Option<Square>
        requires { at ≤ 64 }
        ensures from { MatchOption result (Unit {0}) (λ s. at ≤ s × s < 64) }
        ensures member { MatchOption result (Unit {0}) (λ s. Has self.now s) }
        ensures first { MatchOption result ((k : ℕ) → k < 64 → at ≤ k → Has self.now k → ⊥) (λ s. (k : ℕ) → at ≤ k → k < s → Has self.now k → ⊥) }
    {
        if at == 64 {
            return None;
        }
        let place = first_bit(self.bits >> at)?;
        Some(Square::at(at + place))
    }
}

/// The word with the bit `k`.
#[tactic(auto, using(crate::proofs::Sets::bit_kept, crate::proofs::Sets::bit_set, crate::proofs::Sets::bit_only))]
fn with_bit(word: u64, k: u8) -> u64
    requires { k < 64 }
    ensures set { bit_at result k ≡ 1 }
    ensures kept { (i : ℕ) → bit_at word i ≡ 1 → bit_at result i ≡ 1 }
    ensures only { (i : ℕ) → bit_at result i ≡ 1 → ((bit_at word i ≡ 1) ⊎ (i ≡ k)) }
{
    word | (1 << k)
}

/// The lowest bit of the word.
#[tactic(auto, using(crate::proofs::Sets::lowest_set, crate::proofs::Sets::lowest_first))]
fn first_bit(word: u64) -> Option<u8>
    ensures none { MatchOption result (word ≡ 0) (λ k. k < 64) }
    ensures first { MatchOption result (Unit {0}) (λ k. (i : ℕ) → i < k → bit_at word i ≡ 0) }
    ensures set { MatchOption result (Unit {0}) (λ k. bit_at word k ≡ 1) }
{
    if word == 0 {
        None
    } else {
        Some(word.trailing_zeros() as u8)
    }
}

/// Where a man of the mover's of this kind comes from this square, whatever becomes of its king.
pub fn targets(p: &Setup, kind: Kind, from: Square) -> SquareSet
    ensures only { (b : ℕ) → Has result b → Comes p.now kind from b }
    ensures all { (b : ℕ) → Comes p.now kind from b → Has result b }
{
    match kind {
        Kind::King => castling_targets(p, from, king_targets(p, from)),
        Kind::Queen => slide_targets(p, Kind::Queen, from),
        Kind::Rook => slide_targets(p, Kind::Rook, from),
        Kind::Bishop => slide_targets(p, Kind::Bishop, from),
        Kind::Knight => knight_targets(p, from),
        Kind::Pawn => way_targets(p, from, capture_targets(p, from)),
    }
}

/// The set, and where the king castles from this square.
fn castling_targets(p: &Setup, from: Square, set: SquareSet) -> SquareSet
    ensures castles { (b : ℕ) → CastlesTo p.now from b → Has result b }
    ensures kept { (b : ℕ) → Has set b → Has result b }
    ensures only { (b : ℕ) → Has result b → (Has set b ⊎ CastlesTo p.now from b) }
{
    if from != king_home(p.side) {
        return set;
    }
    let set = with_castling(p, from, Wing::KingSide, set);
    with_castling(p, from, Wing::QueenSide, set)
}

/// The set, and where the king castles on this wing.
fn with_castling(p: &Setup, from: Square, wing: Wing, set: SquareSet) -> SquareSet
    ensures castles { CastleCase p.now (goes from (king_target p.now.side wing)) wing → Has result (king_target p.now.side wing) }
    ensures kept { (b : ℕ) → Has set b → Has result b }
    ensures only { (b : ℕ) → Has result b → (Has set b ⊎ ((b ≡ king_target p.now.side wing) × CastleCase p.now (goes from (king_target p.now.side wing)) wing)) }
{
    let m = Move {
        from,
        to: king_target(p.side, wing),
        promo: None,
    };
    if is_castling(p, &m, wing) {
        set.with(m.to)
    } else {
        set
    }
}

/// The set, and where one step forward leads a pawn from this square and two from its own rank, over and to empty ones.
fn way_targets(p: &Setup, from: Square, set: SquareSet) -> SquareSet
    ensures one { (b : ℕ) → Leaps from b (forward p.now.side) → man_at p.now.board b ≡ None → Has result b }
    ensures two { (b : ℕ) → DoublesTo p.now from b → Has result b }
    ensures kept { (b : ℕ) → Has set b → Has result b }
    ensures only { (b : ℕ) → Has result b → (Has set b ⊎ ((Leaps from b (forward p.now.side) × (man_at p.now.board b ≡ None)) ⊎ DoublesTo p.now from b)) }
{
    let Some(next) = ahead(p.side, from) else {
        return set;
    };
    if p.board.at(next).is_some() {
        return set;
    }
    let set = set.with(next);
    if !is_on_own_rank(p.side, from) {
        return set;
    }
    match ahead(p.side, next) {
        Some(second) => with_empty(p, second, set),
        None => set,
    }
}

/// The set, and this square where it is empty.
fn with_empty(p: &Setup, s: Square, set: SquareSet) -> SquareSet
    ensures added { man_at p.now.board s ≡ None → Has result s }
    ensures kept { (b : ℕ) → Has set b → Has result b }
    ensures only { (b : ℕ) → Has result b → (Has set b ⊎ ((b ≡ s) × (man_at p.now.board s ≡ None))) }
{
    if p.board.at(s).is_none() {
        set.with(s)
    } else {
        set
    }
}

/// The squares diagonally in front of a pawn on which it may capture.
fn capture_targets(p: &Setup, from: Square) -> SquareSet
    ensures only { (b : ℕ) → Has result b → (Any (Leaps from b) (pawn_captures p.now.side) × MayTake p.now b) }
    ensures all { (b : ℕ) → Any (Leaps from b) (pawn_captures p.now.side) → MayTake p.now b → Has result b }
{
    capture_squares(p.side, from).within(takeable(p))
}

/// The squares on which a pawn may capture: those of the enemies, and the en passant square.
fn takeable(p: &Setup) -> u64
    ensures { (b : ℕ) → (bit_at result b ≡ 1) ↔ MayTake p.now b }
{
    let enemies = p.board.of_colour(p.side.other());
    match p.en_passant {
        Some(s) => with_bit(enemies, s.index()),
        None => enemies,
    }
}

/// Where a knight's steps lead, but to no man of the mover's own.
fn knight_targets(p: &Setup, from: Square) -> SquareSet
    ensures only { (b : ℕ) → Has result b → (Any (Leaps from b) knight_steps × HasNoOwn p.now.board p.now.side b) }
    ensures all { (b : ℕ) → Any (Leaps from b) knight_steps → HasNoOwn p.now.board p.now.side b → Has result b }
{
    not_own(p, knight_squares(from))
}

/// Where a king's steps lead, but to no man of the mover's own.
fn king_targets(p: &Setup, from: Square) -> SquareSet
    ensures only { (b : ℕ) → Has result b → (Any (Leaps from b) king_steps × HasNoOwn p.now.board p.now.side b) }
    ensures all { (b : ℕ) → Any (Leaps from b) king_steps → HasNoOwn p.now.board p.now.side b → Has result b }
{
    not_own(p, king_squares(from))
}

/// The squares of a set on which no man of the mover's own stands.
fn not_own(p: &Setup, set: SquareSet) -> SquareSet
    ensures { (b : ℕ) → Has result b ↔ (Has set b × HasNoOwn p.now.board p.now.side b) }
{
    set.without(p.board.of_colour(p.side))
}

/// Where a man of this kind slides, but to no man of the mover's own.
#[inline(always)]
fn slide_targets(p: &Setup, kind: Kind, from: Square) -> SquareSet
    ensures only { (b : ℕ) → Has result b → (Any (Runs p.now.board from b) (slides kind) × HasNoOwn p.now.board p.now.side b) }
    ensures all { (b : ℕ) → Any (Runs p.now.board from b) (slides kind) → HasNoOwn p.now.board p.now.side b → Has result b }
{
    let squares = run_squares(p.board.occupied(), kind, from);
    not_own(p, SquareSet::of_bits(squares))
}
