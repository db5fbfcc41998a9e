//! The filter of a base.
use crate::entries::Entries;
use crate::plies;
use crate::renumbering::Renumbering;
use std::alloc::{AllocError, Global};
use std::marker::Model;

/// The games of a base that are in, each with the ply at which it matched.
///
/// Contracts see a filter as the list of its optional plies, one per game: a ply if the game is
/// in, none if it is out. It takes four bytes and a bit a game, and its number of games in is kept beside them.
#[derive(Debug, Drop)]
pub struct Filter {
    entries: Entries,
    count: u32,
}

impl Model for Filter {
    ghost use Rattle.std.specs.Prelude.{◌≡◌, ◌^◌, ◌<◌, ℕ, List, Option, length};
    ghost use Rattle.game_filter.specs.Filter.{count_in};

    ghost Value = { List (Option ℕ) };

    ghost view = { λ f. f.entries };

    ghost invariant = { λ f. (length f.entries < 2 ^ 32) × (f.count ≡ count_in f.entries) };
}

impl Filter {
    ghost use Rattle.std.specs.Prelude.{◌≡◌, ◌^◌, ◌<◌, ◌*◌, ℕ, [], ◌∷◌, ◌++◌, Some, length, map, slice_get, slice_set, IfOk, OnOk, OnErr};
    ghost use Rattle.game_filter.specs.Filter.{AreMarks, all_in, all_out, count_in, negated, intersection, union, restricted};
    ghost use Rattle.game_filter.specs.Renumbering.{renumbered};

    /// The filter of `n` games that has every one of them in, at ply 0.
    pub fn new(alloc: Global, n: u32) -> Result<Filter, AllocError>
        ensures all { IfOk result (λ filter. filter ≡ all_in n) }
    {
        let entries = Entries::all_in(alloc, n)?;
        Ok(Filter { entries, count: n })
    }

    /// A filter with the same entries.
    pub fn copy(&self, alloc: Global) -> Result<Filter, AllocError>
        ensures same { IfOk result (λ filter. filter ≡ self.now) }
    {
        let entries = self.entries.copy(alloc)?;
        Ok(Filter {
            entries,
            count: self.count,
        })
    }

    /// Takes the entries of another filter of as many games.
    pub fn take_over(&mut self, other: &Filter)
        requires same_games { length self.old ≡ length other.now }
        ensures same { self.new ≡ other.now }
    {
        self.entries.take_over(&other.entries);
        self.count = other.count;
    }

    /// Adds the entry of one more game. After an error the filter is as it was.
    ///
    /// The entries grow by the allocator that they were made with.
    pub fn push(&mut self, _alloc: Global, ply: Option<u32>) -> Result<(), AllocError>
        requires room { length self.old < u32.MAX }
        ensures added { OnOk result (self.new ≡ self.old ++ ply ∷ []) }
        ensures unchanged { OnErr result (self.new ≡ self.old) }
    {
        self.entries.push(ply)?;
        self.count += u32::from(ply.is_some());
        Ok(())
    }

    /// The number of games.
    pub fn len(&self) -> u32
        ensures len { result ≡ length self.now }
    {
        self.entries.len()
    }

    /// The number of games that are in.
    pub fn count(&self) -> u32
        ensures count { result ≡ count_in self.now }
    {
        self.count
    }

    /// The ply at which game `i` is in, or none if it is out.
    pub fn get(&self, i: u32) -> Option<u32>
        requires game { i < length self.now }
        ensures entry { slice_get self.now i ≡ Some result }
    {
        self.entries.get(i)
    }

    /// Which of the 64 games from number 64 `k` on are in: bit j is that of game 64 `k` + j. Bits past the last game may be any.
    pub fn block(&self, k: u32) -> u64
        requires games { 64 * k < length self.now }
        ensures marks { AreMarks self.now k result }
    {
        self.entries.block(k)
    }

    /// Puts game `i` in at a ply, or out.
    pub fn set(&mut self, i: u32, ply: Option<u32>)
        requires game { i < length self.old }
        ensures changed { self.new ≡ slice_set self.old i ply }
    {
        let was_in = self.entries.is_in(i);
        self.entries.set(i, ply);
        self.count = self.count - u32::from(was_in) + u32::from(ply.is_some());
    }

    /// Puts every game in, at ply 0.
    pub fn reset(&mut self)
        ensures all { self.new ≡ all_in (length self.old) }
    {
        let games = self.len();
        self.entries.fill();
        self.count = games;
    }

    /// Puts every game out.
    pub fn clear(&mut self)
        ensures none { self.new ≡ all_out (length self.old) }
    {
        self.entries.clear();
        self.count = 0;
    }

    /// Puts the games that are in out, and those that are out in at ply 0.
    pub fn negate(&mut self)
        ensures negated { self.new ≡ negated self.old }
    {
        let games = self.len();
        self.entries.negate();
        self.count = games - self.count;
    }

    /// Keeps the games that are in both filters, at their own plies.
    pub fn and(&mut self, other: &Filter)
        requires same_games { length self.old ≡ length other.now }
        ensures both { self.new ≡ intersection self.old other.now }
    {
        self.count = plies::intersect(&mut self.entries, &other.entries);
    }

    /// Adds the games that are in `other` alone, at the plies that they have there.
    pub fn or(&mut self, other: &Filter)
        requires same_games { length self.old ≡ length other.now }
        ensures either { self.new ≡ union self.old other.now }
    {
        self.count = plies::unite(&mut self.entries, &other.entries);
    }

    /// Puts out every game whose number is below `first` or above `last`.
    pub fn restrict(&mut self, first: u32, last: u32)
        ensures restricted { self.new ≡ restricted first last self.old }
    {
        self.count = plies::restrict(&mut self.entries, first, last);
    }

    /// The entries of the games that stay get their new numbers, and those of the games that go are left out.
    pub fn renumber(&mut self, renumbering: &Renumbering)
        requires same_games { length renumbering.now.to ≡ length self.old }
        ensures moved { self.new ≡ renumbered renumbering.now.to self.old }
        ensures kept { length self.new ≡ renumbering.now.kept }
        ensures entries { (i number : ℕ) → slice_get renumbering.now.to i ≡ Some (Some number) → slice_get self.new number ≡ slice_get self.old i }
    {
        self.count = plies::renumber(&mut self.entries, renumbering);
    }
}
