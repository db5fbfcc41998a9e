//! The hits on one board.
ghost use Rattle.std.specs.Prelude.{◌≡◌, ◌≤◌, ◌<◌, [], ◌∷◌, ◌++◌, All, List, OnOk, OnErr, length, take};
ghost use Rattle.pos_index.specs.declared.hit.Hit.{Hit as Standing};
ghost use Rattle.pos_index.specs.Keeping.{IsApart, hit_in, moved, own_hits};

use crate::hit::Hit;
use cell_core::Move;
use smallvec::SmallVec;
use std::alloc::{AllocError, Global};
use std::marker::Model;

/// Hits in order of games, and of one game in order of plies. One hit takes no memory of its own.
#[derive(Drop)]
pub(crate) struct Hits {
    hits: SmallVec<Hit, 1>,
}

impl Model for Hits {
    ghost use Rattle.std.specs.Prelude.{List};
    ghost use Rattle.pos_index.specs.declared.hit.Hit.{Hit as Standing};

    ghost Value = { List Standing };

    ghost view = { λ h. h.hits.items };
}

impl Hits {
    /// No hits.
    pub(crate) fn new(alloc: Global) -> Hits
        ensures { result ≡ [] }
    {
        Hits {
            hits: SmallVec::new(alloc),
        }
    }

    /// The hits.
    pub(crate) fn as_slice(&self) -> &[Hit]
        ensures { result.now ≡ self.now }
    {
        self.hits.as_slice()
    }

    /// Puts a hit behind those of its game and of the games before.
    pub(crate) fn put(&mut self, hit: Hit) -> Result<(), AllocError>
        ensures put { (before behind : List Standing) → self.old ≡ before ++ behind → All (λ h. h.game ≤ hit.game) before → All (λ h. hit.game < h.game) behind
            → OnOk result (self.new ≡ before ++ hit ∷ behind) }
        ensures unchanged { OnErr result (self.new ≡ self.old) }
    {
        let place = self
            .hits
            .as_slice()
            .partition_point(|other| other.game <= hit.game);
        self.hits.insert(place, hit)?;
        Ok(())
    }

    // Where the hits of a game begin.
    fn first_of(&self, game: u32) -> usize
        ensures first { (before behind : List Standing) → self.now ≡ before ++ behind → All (λ h. h.game < game) before → All (λ h. game ≤ h.game) behind → result ≡ length before }
        ensures within { result ≤ length self.now }
    {
        first_of(self.hits.as_slice(), game)
    }

    /// Takes a hit of a game out, the one behind so many others of the game.
    pub(crate) fn take(&mut self, game: u32, rank: usize)
        ensures { (before own behind : List Standing) (hit : Standing) → self.old ≡ before ++ (own ++ hit ∷ behind) → All (λ h. h.game < game) before → All (λ h. game ≤ h.game) (own ++ hit ∷ behind)
            → rank ≡ length own → self.new ≡ before ++ (own ++ behind) }
    {
        let first = self.first_of(game);
        if rank < self.hits.len() - first {
            self.hits.remove(first + rank);
        }
    }

    /// The hit of a game behind so many others of the game.
    pub(crate) fn hit(&self, game: u32, rank: usize) -> Hit
        requires apart { IsApart self.now game (own_hits game self.now) }
        requires rank { rank < length (own_hits game self.now) }
        ensures { result ≡ hit_in (own_hits game self.now) rank }
    {
        self.hits.as_slice()[self.first_of(game) + rank]
    }

    /// Sets the move after a hit of a game, the one behind so many others of the game.
    pub(crate) fn set_next(&mut self, game: u32, rank: usize, next: &Option<Move>)
        ensures { (before own behind : List Standing) (hit : Standing) → self.old ≡ before ++ (own ++ hit ∷ behind) → All (λ h. h.game < game) before → All (λ h. game ≤ h.game) (own ++ hit ∷ behind)
            → rank ≡ length own → self.new ≡ before ++ (own ++ record hit { next = next.now } ∷ behind) }
    {
        let first = self.first_of(game);
        if rank < self.hits.len() - first {
            self.hits.as_mut_slice()[first + rank].next = *next;
        }
    }

    /// Takes the last hit of a game out.
    pub(crate) fn take_last(&mut self, game: u32)
        ensures { (before behind : List Standing) (hit : Standing) → self.old ≡ before ++ hit ∷ behind → All (λ h. h.game ≤ game) (before ++ hit ∷ []) → All (λ h. game < h.game) behind
            → self.new ≡ before ++ behind }
    {
        let place = self
            .hits
            .as_slice()
            .partition_point(|other| other.game <= game);
        if 0 < place {
            self.hits.remove(place - 1);
        }
    }

    /// The hits get the new numbers of their games, and those of games that go are left out.
    pub(crate) fn renumber(&mut self, to: &[Option<u32>])
        requires { All (λ h. h.game < length to.now) self.old }
        ensures { self.new ≡ moved to.now self.old }
    {
        let kept = renumber(self.hits.as_mut_slice(), to);
        self.hits.truncate(kept);
    }
}

/// Where the hits of a game begin, or would.
#[inline(never)]
pub(crate) fn first_of(hits: &[Hit], game: u32) -> usize
    ensures first { (before behind : List Standing) → hits.now ≡ before ++ behind → All (λ h. h.game < game) before → All (λ h. game ≤ h.game) behind → result ≡ length before }
    ensures within { result ≤ length hits.now }
{
    hits.partition_point(|other| other.game < game)
}

// Moves the hits of the games that stay to the front, with the new numbers, and answers how many they are.
fn renumber(hits: &mut [Hit], to: &[Option<u32>]) -> usize
    requires { All (λ h. h.game < length to.now) hits.old }
    ensures moved { take result hits.new ≡ moved to.now hits.old }
    ensures len { length hits.new ≡ length hits.old }
    ensures within { result ≤ length hits.old }
{
    let mut kept = 0;
    for k in 0..hits.len() {
        let hit = hits[k];
        if let Some(number) = to[hit.game as usize] {
            hits[kept] = Hit {
                game: number,
                ply: hit.ply,
                next: hit.next,
            };
            kept += 1;
        }
    }
    kept
}
