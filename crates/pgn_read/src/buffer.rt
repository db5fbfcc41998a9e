//! Bytes of a source that were read and not yet used.
ghost use Rattle.std.specs.Prelude.{◌≡◌, ◌≤◌, ◌<◌, ◌+◌, ◌-◌, [], length, take, drop, max, IfOk, IfErr, OnOk, OnErr};
ghost use Rattle.base_files.specs.Counters.{Rose};
ghost use Rattle.base_files.specs.Told.{before, Tells};
ghost use Rattle.pgn_read.specs.Causes.{HasCause};
ghost use Rattle.pgn_read.specs.Text.{most_ahead};

use crate::error::PgnError;
use base_files::{Failed, Source};
use std::alloc::{AllocError, Global};
use std::marker::Model;

// How many bytes are read at once, at most.
const PIECE: usize = 4_096;

/// The bytes of a source that were read and not yet used.
#[derive(Drop)]
pub(crate) struct Buffer {
    // Those from `from` to `to` are unread, and behind them is room for those that come next.
    bytes: Vec<u8>,
    from: usize,
    to: usize,
}

impl Model for Buffer {
    ghost use Rattle.std.specs.Prelude.{◌≤◌, ◌+◌, ◌*◌, ℕ, List, length, take, drop};
    ghost use Rattle.pgn_read.specs.Text.{most_ahead};

    ghost Value = { List ℕ };

    ghost view = { λ b. drop b.from (take b.to b.bytes.items) };

    ghost invariant = { λ b. (b.from ≤ b.to) × ((b.to ≤ length b.bytes.items) × ((b.to ≤ b.from + most_ahead) × (length b.bytes.items ≤ 2 * most_ahead))) };
}

impl Buffer {
    /// No bytes.
    pub(crate) fn new(alloc: Global) -> Buffer
        ensures none { result ≡ [] }
    {
        Buffer {
            bytes: Vec::new(alloc),
            from: 0,
            to: 0,
        }
    }

    /// The unread bytes.
    pub(crate) fn unread(&self) -> &[u8]
        ensures unread { result.now ≡ self.now }
        ensures most { length self.now ≤ most_ahead }
    {
        &self.bytes[self.from..self.to]
    }

    /// Passes over so many of them.
    pub(crate) fn pass(&mut self, count: usize)
        requires there { count ≤ length self.old }
        ensures rest { self.new ≡ drop count self.old }
    {
        self.from += count;
    }

    /// Reads until there are so many, or to the source's end.
    pub(crate) fn fill<S: Source>(&mut self, source: &mut S, wanted: usize) -> Result<(), PgnError>
        requires room { wanted + 4096 ≤ most_ahead }
        ensures front { take (length self.old) self.new ≡ self.old }
        ensures kept { OnOk result (before self.old (S.left source.old) ≡ before self.new (S.left source.new)) }
        ensures end { OnOk result (length self.new < wanted → Tells (S.left source.new) []) }
        ensures sum { OnOk result (S.budget source.new + length self.new ≡ S.budget source.old + length self.old) }
        ensures spends { S.budget source.new ≤ S.budget source.old }
        ensures counts { S.faults source.old ≤ S.faults source.new }
        ensures same { S.origin source.new ≡ S.origin source.old }
        ensures cause { IfErr result (λ e. HasCause e (S.faults source.old) (S.faults source.new)) }
    {
        let unread = self.to - self.from;
        let from = shift(&mut self.bytes, self.from, self.to);
        self.from = from;
        self.to = from + unread;
        lengthen(&mut self.bytes, from + wanted + PIECE)?;
        self.to = read_to(&mut self.bytes, from + unread, from + wanted, source)?;
        Ok(())
    }
}

// Moves the bytes from one place to another to the front, if those before them are as many, so that each move is paid by
// bytes that were used. Says where they begin then.
#[tactic(auto, using(crate::proofs::BufferLaws::moved_front))]
fn shift(bytes: &mut Vec<u8>, from: usize, to: usize) -> usize
    requires order { from ≤ to }
    requires inside { to ≤ length bytes.old.items }
    ensures moved { drop result (take (result + (to - from)) bytes.new.items) ≡ drop from (take to bytes.old.items) }
    ensures size { length bytes.new.items ≡ length bytes.old.items }
    ensures near { result ≤ to - from }
    ensures before { result ≤ from }
{
    if from < to - from {
        return from;
    }
    bytes.copy_within(from..to, 0);
    0
}

// Makes them so many at least. Those that are there stay.
fn lengthen(bytes: &mut Vec<u8>, count: usize) -> Result<(), AllocError>
    ensures front { take (length bytes.old.items) bytes.new.items ≡ bytes.old.items }
    ensures long { OnOk result (count ≤ length bytes.new.items) }
    ensures most { length bytes.new.items ≤ max count (length bytes.old.items) }
{
    if bytes.len() < count {
        bytes.resize(count, 0)?;
    }
    Ok(())
}

// Reads behind the first ones, which stay, until there are so many, or to the source's end; says how many there are then.
#[tactic(auto, using(crate::proofs::BufferLaws::all_lent))]
fn read_to<S: Source>(
    bytes: &mut Vec<u8>,
    kept: usize,
    wanted: usize,
    source: &mut S,
) -> Result<usize, Failed>
    requires there { kept ≤ length bytes.old.items }
    requires room { wanted + 4096 ≤ length bytes.old.items }
    ensures front { take kept bytes.new.items ≡ take kept bytes.old.items }
    ensures size { length bytes.new.items ≡ length bytes.old.items }
    ensures within { IfOk result (λ n. n ≤ length bytes.new.items) }
    ensures more { IfOk result (λ n. kept ≤ n) }
    ensures given { IfOk result (λ n. S.left source.old ≡ before (drop kept (take n bytes.new.items)) (S.left source.new)) }
    ensures few { IfOk result (λ n. n ≤ max kept (wanted + 4096)) }
    ensures end { IfOk result (λ n. n < wanted → Tells (S.left source.new) []) }
    ensures sum { IfOk result (λ n. S.budget source.new + n ≡ S.budget source.old + kept) }
    ensures spends { S.budget source.new ≤ S.budget source.old }
    ensures counts { S.faults source.old ≤ S.faults source.new }
    ensures same { S.origin source.new ≡ S.origin source.old }
    ensures cause { OnErr result (Rose (S.faults source.old) (S.faults source.new)) }
{
    read_pieces(bytes.as_mut_slice(), kept, wanted, source)
}

// The same of a slice, piece by piece.
#[tactic(auto, using(crate::proofs::BufferLaws::read_more, crate::proofs::BufferLaws::front_stays))]
fn read_pieces<S: Source>(
    bytes: &mut [u8],
    kept: usize,
    wanted: usize,
    source: &mut S,
) -> Result<usize, Failed>
    requires there { kept ≤ length bytes.old }
    requires room { wanted + 4096 ≤ length bytes.old }
    ensures front { take kept bytes.new ≡ take kept bytes.old }
    ensures size { length bytes.new ≡ length bytes.old }
    ensures within { IfOk result (λ n. n ≤ length bytes.new) }
    ensures more { IfOk result (λ n. kept ≤ n) }
    ensures given { IfOk result (λ n. S.left source.old ≡ before (drop kept (take n bytes.new)) (S.left source.new)) }
    ensures few { IfOk result (λ n. n ≤ max kept (wanted + 4096)) }
    ensures end { IfOk result (λ n. n < wanted → Tells (S.left source.new) []) }
    ensures sum { IfOk result (λ n. S.budget source.new + n ≡ S.budget source.old + kept) }
    ensures spends { S.budget source.new ≤ S.budget source.old }
    ensures counts { S.faults source.old ≤ S.faults source.new }
    ensures same { S.origin source.new ≡ S.origin source.old }
    ensures cause { OnErr result (Rose (S.faults source.old) (S.faults source.new)) }
{
    let mut to = kept;
    'reads: while to < wanted {
        let n = read_piece(bytes, to, source)?;
        if n == 0 {
            return Ok(to);
        }
        to += n;
    }
    Ok(to)
}

// Reads the next piece behind the first bytes, which stay, and says how many bytes it has.
fn read_piece<S: Source>(bytes: &mut [u8], kept: usize, source: &mut S) -> Result<usize, Failed>
    requires room { kept + 4096 ≤ length bytes.old }
    ensures front { take kept bytes.new ≡ take kept bytes.old }
    ensures size { length bytes.new ≡ length bytes.old }
    ensures fits { IfOk result (λ n. kept + n ≤ length bytes.old) }
    ensures few { IfOk result (λ n. n ≤ 4096) }
    ensures given { IfOk result (λ n. S.left source.old ≡ before (drop kept (take (kept + n) bytes.new)) (S.left source.new)) }
    ensures end { IfOk result (λ n. n ≡ 0 → Tells (S.left source.new) []) }
    ensures spent { IfOk result (λ n. S.budget source.new + n ≡ S.budget source.old) }
    ensures none_lost { OnErr result (S.left source.new ≡ S.left source.old) }
    ensures none_spent { OnErr result (S.budget source.new ≡ S.budget source.old) }
    ensures counts { S.faults source.old ≤ S.faults source.new }
    ensures same { S.origin source.new ≡ S.origin source.old }
    ensures cause { OnErr result (Rose (S.faults source.old) (S.faults source.new)) }
{
    match source.read(&mut bytes[kept..kept + PIECE]) {
        Ok(n) => Ok(n),
        Err(Failed) => Err(Failed),
    }
}
