//! How many undeleted games have the same names, date and result.
ghost use Rattle.std.specs.Prelude.{◌≡◌, ◌+◌, ◌<◌, ◌≤◌, ℕ, if◌then◌else◌, length, take, IfOk, OnOk};
ghost use Rattle.twin_games.specs.Asking.{is_shared};
ghost use Rattle.twin_games.specs.Keys.{AreCounts, count_in, same_pairing};
ghost use Rattle.twin_games.specs.declared.pairing.Pairing.{Pairing as Key};

use crate::pairing::{Pairing, pairing_of};
use indexmap::IndexMap;
use sig_index::Games;
use std::alloc::{AllocError, Global};

/// The pairings of the undeleted games, each with the number of games that have it.
pub(crate) fn count_pairings<'a, G: Games>(
    alloc: Global,
    games: &'a G,
) -> Result<IndexMap<Pairing<'a>, u32>, AllocError>
    ensures { IfOk result (λ counts. AreCounts counts (G.heads games.now)) }
{
    let mut counts = IndexMap::new(alloc);
    for i in 0..games.len() {
        count_game(&mut counts, games, i)?;
    }
    Ok(counts)
}

// Counts game `i`, unless it is deleted.
fn count_game<'a, G: Games>(
    counts: &mut IndexMap<Pairing<'a>, u32>,
    games: &'a G,
    i: u32,
) -> Result<(), AllocError>
    requires game { i < length (G.sigs games.now) }
    requires head { i < length (G.heads games.now) }
    requires few { length (G.heads games.now) ≤ u32.MAX }
    requires counts { AreCounts counts.old (take i (G.heads games.now)) }
    ensures { OnOk result (AreCounts counts.new (take (i + 1) (G.heads games.now))) }
{
    if games.is_deleted(i) {
        return Ok(());
    }
    add(counts, pairing_of(games, i))?;
    Ok(())
}

// Counts a game more of this pairing.
#[tactic(auto, using(crate::proofs::CountLemmas::added))]
fn add<'a>(counts: &mut IndexMap<Pairing<'a>, u32>, pairing: Pairing<'a>) -> Result<(), AllocError>
    requires { count_in counts.old pairing < u32.MAX }
    ensures { OnOk result ((q : Key) → count_in counts.new q ≡ (if same_pairing pairing.entry q then count_in counts.old pairing.entry + 1 else count_in counts.old q)) }
{
    let count = counts.get(&pairing).copied().unwrap_or(0);
    counts.insert(pairing, count + 1)?;
    Ok(())
}

/// Whether game `i` is undeleted, and has the names, the date and the result of another undeleted one.
pub(crate) fn is_shared<'a, G: Games>(
    games: &'a G,
    i: u32,
    counts: &IndexMap<Pairing<'a>, u32>,
) -> bool
    requires game { i < length (G.sigs games.now) }
    requires counts { AreCounts counts.now (G.heads games.now) }
    ensures { result ≡ is_shared (G.heads games.now) i }
{
    if games.is_deleted(i) {
        return false;
    }
    2 <= count_of(counts, &pairing_of(games, i))
}

// How many games have this pairing.
fn count_of<'a>(counts: &IndexMap<Pairing<'a>, u32>, pairing: &Pairing<'a>) -> u32
    ensures { result ≡ count_in counts.now pairing.now }
{
    counts.get(pairing).copied().unwrap_or(0)
}
