//! The hits on one board, asked for by the games.
ghost use Rattle.std.specs.Prelude.{◌≡◌, ◌≤◌, ◌<◌, ◌++◌, ℕ, All, List, length, IfSome, IsTrue};
ghost use Rattle.cell_core.specs.Packed.{Packed};
ghost use Rattle.pos_index.specs.Hits.{IsLegalOn, Place, first_on, hits_from, places_in};
ghost use Rattle.pos_index.specs.Keeping.{IsGap};
ghost use Rattle.pos_index.specs.declared.hit.Hit.{Hit as Standing};

use crate::hit::Hit;
use crate::hits::first_of;
use cell_core::Move;
use std::marker::Model;

/// The hits on one board, in order of games, for a caller that asks of many games. Those of a game are found at once where its number
/// follows that of the game that was asked for before, and else by halving.
///
/// Contracts see the hits.
#[derive(Drop)]
pub struct BoardHits<'a> {
    hits: &'a [Hit],
    // Where the hits of the next game are looked for first.
    next: usize,
    // No game from the one number on, and before the other, has a hit.
    from: u32,
    to: u32,
}

impl<'a> Model for BoardHits<'a> {
    ghost use Rattle.std.specs.Prelude.{◌≤◌, List, length};
    ghost use Rattle.pos_index.specs.Keeping.{IsGap};
    ghost use Rattle.pos_index.specs.declared.hit.Hit.{Hit as Standing};

    ghost Value = { List Standing };

    ghost view = { λ b. b.hits.now };

    ghost invariant = { λ b. (b.next ≤ length b.hits.now) × IsGap b.hits.now b.from b.to };
}

impl<'a> BoardHits<'a> {
    /// The hits that an index has on a board, and none without an index.
    pub fn new(hits: &'a [Hit]) -> BoardHits<'a>
        ensures hits { result ≡ hits.now }
    {
        BoardHits {
            hits,
            next: 0,
            from: 0,
            to: 0,
        }
    }

    /// The first hit of a game: after how many half-moves of its main line it stands on the board, and the move then.
    #[inline(always)]
    pub fn first(&mut self, game: u32) -> Option<(u32, Option<Move>)>
        ensures same { self.new ≡ self.old }
        ensures first { (board : Packed) (rows : List (List Place)) → self.old ≡ hits_from board 0 rows → result ≡ first_on board (places_in rows game) }
        ensures legal { (board : Packed) → All (λ hit. IfSome hit.next (IsLegalOn board)) self.old → IfSome result (λ first. IfSome first.1 (IsLegalOn board)) }
    {
        if self.skips(game) {
            return None;
        }
        self.first_among(game)
    }

    /// Whether a game is known to have no hit without a look at the hits: it comes behind one that was asked for last, and before the next
    /// that has one. Any other game may have none, too.
    #[inline(always)]
    pub fn skips(&self, game: u32) -> bool
        ensures none { IsTrue result → (board : Packed) (rows : List (List Place)) → self.now ≡ hits_from board 0 rows → None ≡ first_on board (places_in rows game) }
    {
        self.from <= game && game < self.to
    }

    // The same of a game that is not known to have none.
    #[inline(always)]
    fn first_among(&mut self, game: u32) -> Option<(u32, Option<Move>)>
        ensures same { self.new ≡ self.old }
        ensures first { (board : Packed) (rows : List (List Place)) → self.old ≡ hits_from board 0 rows → result ≡ first_on board (places_in rows game) }
        ensures legal { (board : Packed) → All (λ hit. IfSome hit.next (IsLegalOn board)) self.old → IfSome result (λ first. IfSome first.1 (IsLegalOn board)) }
    {
        let begin = begin_of(self.hits, self.next, game);
        self.next = begin;
        if begin == self.hits.len() {
            self.skip_from(game);
            return None;
        }
        let hit = self.hits[begin];
        if hit.game != game {
            self.skip_from(game);
            return None;
        }
        self.next = begin + 1;
        self.skip_from(game.saturating_add(1));
        Some((u32::from(hit.ply), hit.next))
    }

    // The games from this one up to the next hit are known to have none.
    #[inline(always)]
    fn skip_from(&mut self, game: u32)
        ensures same { self.new ≡ self.old }
    {
        self.to = gap_end(self.hits, self.next, game);
        self.from = game;
    }
}

// Before which number no game from `game` on has a hit, if `at` is where its hits would begin.
fn gap_end(hits: &[Hit], at: usize, game: u32) -> u32
    requires { at ≤ length hits.now }
    ensures { IsGap hits.now game result }
{
    if at > 0 && hits[at - 1].game >= game {
        return 0;
    }
    if at == hits.len() {
        return u32::MAX;
    }
    hits[at].game
}

// Where the hits of a game begin, or would: at a place that is given, if it is the right one.
#[inline(always)]
fn begin_of(hits: &[Hit], at: usize, game: u32) -> usize
    requires { at ≤ length hits.now }
    ensures first { (before behind : List Standing) → hits.now ≡ before ++ behind → All (λ h. h.game < game) before → All (λ h. game ≤ h.game) behind → result ≡ length before }
    ensures within { result ≤ length hits.now }
{
    if begins_at(hits, at, game) {
        at
    } else {
        first_of(hits, game)
    }
}

// Whether the hits of a game begin at this place, or would.
#[inline(always)]
fn begins_at(hits: &[Hit], at: usize, game: u32) -> bool
    requires { at ≤ length hits.now }
    ensures { IsTrue result → (before behind : List Standing) → hits.now ≡ before ++ behind → All (λ h. h.game < game) before → All (λ h. game ≤ h.game) behind → at ≡ length before }
{
    if at > 0 && hits[at - 1].game >= game {
        return false;
    }
    at == hits.len() || hits[at].game >= game
}
