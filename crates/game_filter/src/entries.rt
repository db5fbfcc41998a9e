//! The entries of a filter in four bytes and a bit each.
ghost use Rattle.std.specs.Prelude.{◌≡◌, ◌≢◌, ◌<◌, ◌^◌, ◌-◌, ◌==◌, ℕ, length, map, replicate, slice_index_or, IfOk};
ghost use Rattle.std.specs.Int.{bit_at};
ghost use Rattle.std.specs.Int.Bits.{bit_and, bit_xor};
ghost use Rattle.game_filter.specs.Entries.{words_for};

use std::alloc::{AllocError, Global};
use std::marker::Model;

/// One optional ply for each game of a base.
///
/// A ply may be any number, so that none is free for a game that is out. A bit beside the ply tells it.
#[derive(Debug, Drop)]
pub(crate) struct Entries {
    plies: Vec<u32>,
    inside: Vec<u64>,
}

impl Model for Entries {
    ghost use Rattle.std.specs.Prelude.{◌≡◌, ◌^◌, ◌<◌, ℕ, List, Option, vec_len};
    ghost use Rattle.game_filter.specs.Entries.{entries_of, words_for};

    ghost Value = { List (Option ℕ) };

    ghost view = { λ e. entries_of e.inside.items e.plies.items };

    ghost invariant = { λ e. (vec_len e.plies < 2 ^ 32) × (vec_len e.inside ≡ words_for (vec_len e.plies)) };
}

impl Entries {
    ghost use Rattle.std.specs.Prelude.{◌≡◌, ◌<◌, ◌≤◌, ◌+◌, ◌*◌, [], ◌∷◌, ◌++◌, None, Some, is_some, length, slice_get, slice_index_or, slice_set, take, IfOk, OnOk, OnErr};
    ghost use Rattle.game_filter.specs.Filter.{AreMarks, all_in, all_out, intersection, negated};

    /// The entries of `n` games that are in, at ply 0.
    pub(crate) fn all_in(alloc: Global, n: u32) -> Result<Entries, AllocError>
        ensures all { IfOk result (λ entries. entries ≡ all_in n) }
    {
        let games = n as usize;
        let plies = zeros(alloc, games)?;
        let inside = ones(alloc, word_count(games))?;
        Ok(Entries { plies, inside })
    }

    /// The same entries.
    pub(crate) fn copy(&self, alloc: Global) -> Result<Entries, AllocError>
        ensures same { IfOk result (λ entries. entries ≡ self.now) }
    {
        let plies = Vec::from_slice(alloc, self.plies.as_slice())?;
        let inside = Vec::from_slice(alloc, self.inside.as_slice())?;
        Ok(Entries { plies, inside })
    }

    /// Takes the entries of as many other games.
    pub(crate) fn take_over(&mut self, other: &Entries)
        requires same_games { length self.old ≡ length other.now }
        ensures same { self.new ≡ other.now }
    {
        self.plies
            .as_mut_slice()
            .copy_from_slice(other.plies.as_slice());
        self.inside
            .as_mut_slice()
            .copy_from_slice(other.inside.as_slice());
    }

    /// The number of games.
    pub(crate) fn len(&self) -> u32
        ensures len { result ≡ length self.now }
    {
        self.plies.len() as u32
    }

    /// The entry of game `i`.
    pub(crate) fn get(&self, i: u32) -> Option<u32>
        requires game { i < length self.now }
        ensures entry { slice_get self.now i ≡ Some result }
    {
        let place = i as usize;
        if has_bit(self.inside[place / 64], i % 64) {
            Some(self.plies[place])
        } else {
            None
        }
    }

    /// Whether game `i` is in.
    pub(crate) fn is_in(&self, i: u32) -> bool
        requires game { i < length self.now }
        ensures is_in { result ≡ is_some (slice_index_or self.now i None) }
    {
        has_bit(self.inside[i as usize / 64], i % 64)
    }

    /// Which of the 64 games from number 64 `k` on are in: bit j is that of game 64 `k` + j.
    pub(crate) fn block(&self, k: u32) -> u64
        requires games { 64 * k < length self.now }
        ensures marks { AreMarks self.now k result }
    {
        self.inside[k as usize]
    }

    /// Gives game `i` another entry.
    pub(crate) fn set(&mut self, i: u32, ply: Option<u32>)
        requires game { i < length self.old }
        ensures changed { self.new ≡ slice_set self.old i ply }
    {
        let place = i as usize;
        let word = with_bit(self.inside[place / 64], i % 64, ply.is_some());
        self.inside[place / 64] = word;
        self.plies[place] = ply.unwrap_or(0);
    }

    /// Adds the entry of one more game. After an error the entries are as they were.
    pub(crate) fn push(&mut self, ply: Option<u32>) -> Result<(), AllocError>
        requires room { length self.old < u32.MAX }
        ensures added { OnOk result (self.new ≡ self.old ++ ply ∷ []) }
        ensures unchanged { OnErr result (self.new ≡ self.old) }
    {
        let games = self.len();
        self.add()?;
        self.set(games, ply);
        Ok(())
    }

    // Adds one more game, whose entry is still to be set. All memory is taken before anything changes.
    fn add(&mut self) -> Result<(), AllocError>
        requires room { length self.old < u32.MAX }
        ensures kept { OnOk result (take (length self.old) self.new ≡ self.old) }
        ensures one_more { OnOk result (length self.new ≡ length self.old + 1) }
        ensures unchanged { OnErr result (self.new ≡ self.old) }
    {
        self.plies.reserve(1)?;
        if self.plies.len() % 64 == 0 {
            self.inside.push(0)?;
        }
        self.plies.push(0)?;
        Ok(())
    }

    /// Leaves the first `n` games alone.
    pub(crate) fn truncate(&mut self, n: u32)
        requires { n ≤ length self.old }
        ensures cut { self.new ≡ take n self.old }
    {
        let games = n as usize;
        self.plies.truncate(games);
        self.inside.truncate(word_count(games));
    }

    /// Puts every game in, at ply 0.
    pub(crate) fn fill(&mut self)
        ensures all { self.new ≡ all_in (length self.old) }
    {
        self.plies.as_mut_slice().fill(0);
        self.inside.as_mut_slice().fill(u64::MAX);
    }

    /// Puts every game out.
    pub(crate) fn clear(&mut self)
        ensures none { self.new ≡ all_out (length self.old) }
    {
        self.inside.as_mut_slice().fill(0);
    }

    /// Puts the games that are in out, and those that are out in at ply 0.
    pub(crate) fn negate(&mut self)
        ensures negated { self.new ≡ negated self.old }
    {
        self.plies.as_mut_slice().fill(0);
        turn_words(self.inside.as_mut_slice());
    }

    /// Puts every game out that is out among as many others.
    pub(crate) fn intersect(&mut self, other: &Entries)
        requires same_games { length self.old ≡ length other.now }
        ensures both { self.new ≡ intersection self.old other.now }
        ensures len { length self.new ≡ length self.old }
    {
        keep_common(self.inside.as_mut_slice(), other.inside.as_slice());
    }
}

// How many words have a bit for each of so many games.
fn word_count(games: usize) -> usize
    requires { games < 2 ^ 32 }
    ensures { result ≡ words_for games }
{
    games.div_ceil(64)
}

// So many numbers 0.
fn zeros(alloc: Global, n: usize) -> Result<Vec<u32>, AllocError>
    ensures { IfOk result (λ list. list.items ≡ replicate n 0) }
{
    let mut list = Vec::with_capacity(alloc, n)?;
    list.resize(n, 0)?;
    Ok(list)
}

// So many words with every bit set.
fn ones(alloc: Global, n: usize) -> Result<Vec<u64>, AllocError>
    ensures { IfOk result (λ list. list.items ≡ replicate n (2 ^ 64 - 1)) }
{
    let mut list = Vec::with_capacity(alloc, n)?;
    list.resize(n, u64::MAX)?;
    Ok(list)
}

// Whether the bit `k` of a word is set.
fn has_bit(word: u64, k: u32) -> bool
    requires { k < 64 }
    ensures { result ≡ (bit_at word k == 1) }
{
    word >> k & 1 == 1
}

// The word with its bit `k` set or not.
fn with_bit(word: u64, k: u32, is_set: bool) -> u64
    requires { k < 64 }
    ensures here { (bit_at result k == 1) ≡ is_set }
    ensures others { (i : ℕ) → i < 64 → i ≢ k → bit_at result i ≡ bit_at word i }
{
    if is_set {
        word | 1 << k
    } else {
        word & !(1 << k)
    }
}

// Sets the bits that are not set, and no other.
fn turn_words(words: &mut [u64])
    ensures turned { words.new ≡ map (λ (word : ℕ). bit_xor word (2 ^ 64 - 1)) words.old }
{
    for word in words.iter_mut() {
        *word ^= u64::MAX;
    }
}

// Leaves the bits that are set in both words of each place.
fn keep_common(words: &mut [u64], others: &[u64])
    requires same_count { length words.old ≡ length others.now }
    ensures both { (k : ℕ) → k < length words.old → slice_index_or words.new k 0 ≡ bit_and (slice_index_or words.old k 0) (slice_index_or others.now k 0) }
{
    for i in 0..words.len() {
        words[i] &= others[i];
    }
}
