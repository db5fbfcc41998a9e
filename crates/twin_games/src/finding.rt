//! The twins of a base.
ghost use Rattle.std.specs.Prelude.{◌≡◌, ◌+◌, ◌<◌, ◌≤◌, ℕ, if◌then◌else◌, All, AllPairs, List, [], ◌∷◌, ◌++◌, Some, length, IfOk, IfErr, OnOk};
ghost use Rattle.base_files.specs.Counters.{raised};
ghost use Rattle.game_tree.specs.Game.{GameTree};
ghost use Rattle.sig_index.specs.Games.{AreWithin, Holds};
ghost use Rattle.twin_games.specs.Asking.{price};
ghost use Rattle.twin_games.specs.Causes.{HasTwinCause};
ghost use Rattle.twin_games.specs.Twins.{twins_of};

use crate::counting::count_pairings;
use crate::fault::TwinError;
use crate::meeting::meet;
use base_files::Files;
use indexmap::IndexSet;
use sig_index::Games;
use std::alloc::{AllocError, Global};

/// Gives the numbers of the games that are twins, in rising order. A game is a twin if it is undeleted and an undeleted
/// game before it has
///
/// - the same names of White and Black, date, result and start position, and
/// - the same first `depth` moves of the main line, or all of them if the lines end before.
///
/// `buf` has at least 131,072 bytes. A game's record is read, once, if it is undeleted and has the names, the date and
/// the result of another undeleted game, and so many bytes count as asked.
pub fn twins<G: Games, F: Files>(
    alloc: Global,
    games: &G,
    depth: u32,
    files: &mut F,
    buf: &mut [u8],
) -> Result<Vec<u32>, TwinError>
    requires room { 131072 ≤ length buf.old }
    requires within { AreWithin (F.seen files.old).known (G.extents games.now) }
    // Over a games file that is told and holds the records of these games.
    ensures found { (told : List ℕ) (list : List GameTree) → (F.seen files.old).games ≡ Some told → Holds told (G.extents games.now) (G.sigs games.now) list → IfOk result (λ twins. twins.items ≡ twins_of (G.heads games.now) list depth) }
    ensures rising { IfOk result (λ twins. AllPairs (λ i j. i < j) twins.items) }
    ensures there { IfOk result (λ twins. All (λ i. i < length (G.sigs games.now)) twins.items) }
    ensures unchanged { F.seen files.new ≡ F.seen files.old }
    ensures asks { F.asked files.new ≤ F.asked files.old + price (G.heads games.now) (G.extents games.now) }
    ensures asked { OnOk result (raised (F.asked files.old) (price (G.heads games.now) (G.extents games.now)) ≤ F.asked files.new) }
    ensures counts { F.faults files.old ≤ F.faults files.new }
    ensures cause { IfErr result (λ e. HasTwinCause e (G.sigs games.now) (G.extents games.now) (F.seen files.old).games buf.new (F.faults files.old) (F.faults files.new)) }
{
    let counts = count_pairings(alloc, games)?;
    let mut met = IndexSet::new(alloc);
    let mut twins = Vec::new(alloc);
    for i in 0..games.len() {
        let twin = match meet(alloc, games, i, depth, &counts, &mut met, files, buf) {
            Ok(twin) => twin,
            Err(error) => return Err(error),
        };
        list_if(twin, &mut twins, i)?;
    }
    Ok(twins)
}

// Lists a game that is a twin.
fn list_if(twin: bool, twins: &mut Vec<u32>, i: u32) -> Result<(), AllocError>
    ensures { OnOk result (twins.new.items ≡ twins.old.items ++ (if twin then i ∷ [] else [])) }
{
    if !twin {
        return Ok(());
    }
    twins.push(i)?;
    Ok(())
}
