//! One game after the other, and whether one like it was met before.
ghost use Rattle.std.specs.Prelude.{◌≡◌, ◌+◌, ◌<◌, ◌≤◌, ℕ, if◌then◌else◌, List, Some, length, slice_get, IfOk, IfErr, OnOk};
ghost use Rattle.base_files.specs.Counters.{raised};
ghost use Rattle.game_tree.specs.Game.{GameTree};
ghost use Rattle.sig_index.specs.Games.{AreWithin, Holds, extent_in};
ghost use Rattle.twin_games.specs.Asking.{is_shared};
ghost use Rattle.twin_games.specs.Causes.{HasTwinCause};
ghost use Rattle.twin_games.specs.Keys.{AreCounts, HasMet, IsOpening};
ghost use Rattle.twin_games.specs.Twins.{is_twin};

use crate::counting::is_shared;
use crate::fault::TwinError;
use crate::opening::{Opening, opening_of};
use crate::pairing::{Pairing, pairing_of};
use base_files::Files;
use indexmap::{IndexMap, IndexSet};
use sig_index::{FetchError, Games};
use std::alloc::Global;

/// What is kept of a game that was read.
#[derive(Debug, Drop, PartialEq, Eq, Hash)]
pub(crate) struct Met<'a> {
    pairing: Pairing<'a>,
    opening: Opening,
}

/// Whether game `i` is a twin, if `met` is of the games before it. A game is read if it is undeleted and has the names, the date and
/// the result of another undeleted one.
pub(crate) fn meet<'a, G: Games, F: Files>(
    alloc: Global,
    games: &'a G,
    i: u32,
    depth: u32,
    counts: &IndexMap<Pairing<'a>, u32>,
    met: &mut IndexSet<Met<'a>>,
    files: &mut F,
    buf: &mut [u8],
) -> Result<bool, TwinError>
    requires game { i < length (G.sigs games.now) }
    requires heads { length (G.heads games.now) ≡ length (G.sigs games.now) }
    requires counts { AreCounts counts.now (G.heads games.now) }
    requires room { 131072 ≤ length buf.old }
    requires within { AreWithin (F.seen files.old).known (G.extents games.now) }
    ensures twin { (told : List ℕ) (list : List GameTree) → (F.seen files.old).games ≡ Some told → Holds told (G.extents games.now) (G.sigs games.now) list
        → HasMet (G.heads games.now) list depth i met.old → IfOk result (λ twin. twin ≡ is_twin (G.heads games.now) list depth i) }
    ensures met { (told : List ℕ) (list : List GameTree) → (F.seen files.old).games ≡ Some told → Holds told (G.extents games.now) (G.sigs games.now) list
        → HasMet (G.heads games.now) list depth i met.old → OnOk result (HasMet (G.heads games.now) list depth (i + 1) met.new) }
    ensures unchanged { F.seen files.new ≡ F.seen files.old }
    ensures asks { F.asked files.new ≤ F.asked files.old + (if is_shared (G.heads games.now) i then (extent_in (G.extents games.now) i).len else 0) }
    ensures asked { OnOk result (raised (F.asked files.old) (if is_shared (G.heads games.now) i then (extent_in (G.extents games.now) i).len else 0) ≤ F.asked files.new) }
    ensures counts { F.faults files.old ≤ F.faults files.new }
    ensures cause { IfErr result (λ e. HasTwinCause e (G.sigs games.now) (G.extents games.now) (F.seen files.old).games buf.new (F.faults files.old) (F.faults files.new)) }
{
    if !is_shared(games, i, counts) {
        return Ok(false);
    }
    let opening = match read_opening(alloc, games, i, depth, files, buf) {
        Ok(opening) => opening,
        Err(error) => return Err(error),
    };
    let pairing = pairing_of(games, i);
    let new = met.insert(Met { pairing, opening })?;
    Ok(!new)
}

// The opening of one game, whose record is read into `buf`.
fn read_opening<G: Games, F: Files>(
    alloc: Global,
    games: &G,
    i: u32,
    depth: u32,
    files: &mut F,
    buf: &mut [u8],
) -> Result<Opening, TwinError>
    requires game { i < length (G.sigs games.now) }
    requires room { 131072 ≤ length buf.old }
    requires within { AreWithin (F.seen files.old).known (G.extents games.now) }
    ensures opening { (told : List ℕ) (list : List GameTree) (game : GameTree) → (F.seen files.old).games ≡ Some told → Holds told (G.extents games.now) (G.sigs games.now) list → slice_get list i ≡ Some game → IfOk result (λ opening. IsOpening depth opening game) }
    ensures unchanged { F.seen files.new ≡ F.seen files.old }
    ensures asks { F.asked files.new ≤ F.asked files.old + (extent_in (G.extents games.now) i).len }
    ensures asked { OnOk result (raised (F.asked files.old) (extent_in (G.extents games.now) i).len ≤ F.asked files.new) }
    ensures counts { F.faults files.old ≤ F.faults files.new }
    ensures cause { IfErr result (λ e. HasTwinCause e (G.sigs games.now) (G.extents games.now) (F.seen files.old).games buf.new (F.faults files.old) (F.faults files.new)) }
{
    let len = match games.fetch(i, files, buf) {
        Ok(len) => len,
        Err(error) => return Err(TwinError::Fetch(error)),
    };
    let read = match opening_of(alloc, buf.split_at(len as usize).0, depth) {
        Ok(read) => read,
        Err(_) => return Err(TwinError::Memory),
    };
    match read {
        Some(opening) => Ok(opening),
        None => Err(TwinError::Fetch(FetchError::Changed {
            game: i,
            kept: games.sig(i),
            found: None,
        })),
    }
}
