//! A source of bytes in memory.
ghost use Rattle.std.specs.Prelude.{◌≡◌, ℕ, ◌+◌, ◌-◌, ◌^◌, ◌<◌, ◌≤◌, ◌↔◌, ◌++◌, List, [], length, take, drop, min, vec_len, Option, Some, None, IfOk, OnErr, IsErr, IsTrue};
ghost use Rattle.base_files.specs.Counters.{Rose, LAST};
ghost use Rattle.base_files.specs.Told.{before, Tells};
ghost use Rattle.base_files.specs.Feeds.{Feed, given_into, after_giving, after_fault, is_spent};

use crate::faults::Failed;
use crate::plan::Plan;
use crate::source::Source;
use std::marker::Model;

/// A source that gives bytes of memory, once or again and again.
#[derive(Drop)]
pub struct MemSource {
    store: Store,
    most: usize,
    plan: Plan,
}

/// The bytes of a source, and the place of the next one.
#[derive(Drop)]
enum Store {
    Once {
        bytes: Vec<u8>,
        next: usize,
    },
    Again {
        piece: Vec<u8>,
        next: usize,
        budget: u64,
    },
}

impl Model for MemSource {
    ghost use Rattle.std.specs.Prelude.{◌≡◌, ◌≤◌};
    ghost use Rattle.base_files.specs.Feeds.{Feed};
    ghost use Rattle.base_files.specs.FeedStore.{left_of, budget_of, most_of, IsWithin};

    ghost Value = { Feed };

    ghost view = { λ source. record { left = left_of source.store; budget = budget_of source.store; most = source.most; calls = source.plan } };

    ghost invariant = { λ source. (1 ≤ source.most) × IsWithin source.store × (most_of source.store source.most ≡ source.most) };
}

impl MemSource {
    /// Gives these bytes once, at most `piece` of them in a call, which is at least 1.
    /// The calls of these numbers fail, counted from 0.
    pub fn new(bytes: Vec<u8>, piece: u32, fails: Vec<u64>) -> MemSource
        requires { 1 ≤ piece }
        ensures { result ≡ record { left = Some bytes.items; budget = vec_len bytes; most = piece; calls = record { planned = fails.items; made = 0; faults = 0 } } }
    {
        MemSource {
            store: Store::Once { bytes, next: 0 },
            most: piece as usize,
            plan: Plan::new(fails),
        }
    }

    /// Gives the piece, which is not empty, again and again, and tells nothing of its bytes.
    /// After 18,446,744,073,709,551,615 bytes each call fails.
    pub fn endless(piece: Vec<u8>) -> MemSource
        requires { 1 ≤ vec_len piece }
        ensures { result ≡ record { left = None; budget = LAST; most = vec_len piece; calls = record { planned = []; made = 0; faults = 0 } } }
    {
        let none_fail = Vec::new(*piece.allocator());
        MemSource {
            most: piece.len(),
            store: Store::Again {
                piece,
                next: 0,
                budget: u64::MAX,
            },
            plan: Plan::new(none_fail),
        }
    }
}

impl Source for MemSource {
    ghost left = { λ source. source.left };

    ghost budget = { λ source. source.budget };

    ghost faults = { λ source. source.calls.faults };

    ghost origin = { λ _. [] };

    fn read(&mut self, into: &mut [u8]) -> Result<usize, Failed>
        requires { 0 < length into.old }
        ensures fits { IfOk result (λ n. n ≤ length into.old) }
        ensures given { IfOk result (λ n. self.old.left ≡ before (take n into.new) self.new.left) }
        ensures end { IfOk result (λ n. n ≡ 0 → Tells self.new.left []) }
        ensures spent { IfOk result (λ n. self.new.budget + n ≡ self.old.budget) }
        ensures none_lost { OnErr result (self.new.left ≡ self.old.left) }
        ensures none_spent { OnErr result (self.new.budget ≡ self.old.budget) }
        ensures counts { self.old.calls.faults ≤ self.new.calls.faults }
        ensures cause { OnErr result (Rose self.old.calls.faults self.new.calls.faults) }

        // More than every source promises: how many bytes come, which calls fail, and what each leaves.
        ensures fails { IsErr result ↔ IsTrue (is_spent self.old) }
        ensures many { IfOk result (λ n. n ≡ given_into self.old (length into.old)) }
        ensures served { IfOk result (λ n. self.new ≡ after_giving self.old n) }
        ensures failed { OnErr result (self.new ≡ after_fault self.old) }
    {
        if let Store::Again { budget: 0, .. } = self.store {
            self.plan.fail();
            return Err(Failed);
        }
        self.plan.begin()?;
        Ok(self.store.give(self.most, into))
    }
}

impl Store {
    ghost use Rattle.std.specs.Prelude.{◌≡◌, ◌-◌, ◌≤◌, take, min, length};
    ghost use Rattle.base_files.specs.Told.{before};
    ghost use Rattle.base_files.specs.Feeds.{told_after};
    ghost use Rattle.base_files.specs.FeedStore.{left_of, budget_of, most_of, IsWithin};

    // Gives the next bytes, at most `most`, and says how many.
    fn give(&mut self, most: usize, into: &mut [u8]) -> usize
        requires within { IsWithin self.old }
        requires most { most_of self.old most ≡ most }
        ensures still_within { IsWithin self.new }
        ensures still_most { most_of self.new most ≡ most }
        ensures many { result ≡ min (min most (length into.old)) (budget_of self.old) }
        ensures spent { budget_of self.new ≡ budget_of self.old - result }
        ensures left { left_of self.new ≡ told_after result (left_of self.old) }
        ensures given { left_of self.old ≡ before (take result into.new) (left_of self.new) }
    {
        match self {
            Store::Once { bytes, next } => give_once(bytes, next, most, into),
            Store::Again {
                piece,
                next,
                budget,
            } => give_again(piece, next, budget, into),
        }
    }
}

// Gives at most `most` of the bytes from `next` on, and says how many.
fn give_once(bytes: &[u8], next: &mut usize, most: usize, into: &mut [u8]) -> usize
    requires { next.old ≤ length bytes.now }
    ensures many { result ≡ min (min most (length into.old)) (length bytes.now - next.old) }
    ensures given { drop next.old bytes.now ≡ take result into.new ++ drop next.new bytes.now }
    ensures moved { next.new ≡ next.old + result }
{
    let rest = bytes.split_at(*next).1;
    let n = most.min(into.len()).min(rest.len());
    into[..n].copy_from_slice(&rest[..n]);
    *next += n;
    n
}

// Gives at most one whole piece of bytes, from `next` on and then from the start of the piece, and says how many.
fn give_again(piece: &[u8], next: &mut usize, budget: &mut u64, into: &mut [u8]) -> usize
    requires { next.old < length piece.now }
    ensures many { result ≡ min (min (length piece.now) (length into.old)) budget.old }
    ensures within { next.new < length piece.now }
    ensures spent { budget.new + result ≡ budget.old }
{
    let most = piece.len().min(into.len());
    let n = if *budget < most as u64 {
        *budget as usize
    } else {
        most
    };
    for byte in into[..n].iter_mut() {
        *byte = piece[*next];
        *next = if *next + 1 == piece.len() {
            0
        } else {
            *next + 1
        };
    }
    *budget -= n as u64;
    n
}
