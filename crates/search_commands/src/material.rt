//! The search for counts of men.
ghost use Rattle.std.specs.Prelude.{◌≡◌, ◌≤◌, ◌+◌, ℕ, List, Some, Ok, length, IfErr, OnOk};
ghost use Rattle.base_files.specs.Counters.{raised};
ghost use Rattle.command_runs.specs.Counts.{Causes, counts};
ghost use Rattle.game_filter.specs.Search.{searched};
ghost use Rattle.game_tree.specs.Game.{GameTree};
ghost use Rattle.mat_search.specs.Matching.{firsts_of};
ghost use Rattle.mat_search.specs.Searching.{price};
ghost use Rattle.sig_index.specs.Games.{AreWithin, Holds};
ghost use Rattle.search_commands.specs.Searching.{search_material_work};
ghost use Rattle.shell_state.specs.Ends.{IsDevice};
ghost use Rattle.shell_state.specs.Stands.{Stands, Sound, WhyHalt, Asks, AsksAll};
ghost use Rattle.shell_state.specs.State.{State};

use base_files::Files;
use game_filter::{Filter, Op};
use mat_search::search;
use shell_state::{Halt, Machine};
use sig_index::{Games, MatQuery};

/// The command `search OP material ITEM ..`: leaves in the filter the games that are in then, and writes nothing yet.
pub fn material_games<F: Files>(
    machine: &mut Machine,
    files: &mut F,
    op: Op,
    query: &MatQuery,
) -> Result<(), Halt>
    requires streak { 1 ≤ query.now.streak }
    requires sound { Sound machine.old (F.seen files.old) }
    ensures stands { (s : State) → Stands machine.old (F.seen files.old) s → OnOk result (Stands machine.new (F.seen files.new) ((search_material_work op query.now).after s)) }
    ensures devices { (s : State) → Stands machine.old (F.seen files.old) s → IfErr result IsDevice }
    ensures sound { OnOk result (Sound machine.new (F.seen files.new)) }
    ensures unchanged { F.seen files.new ≡ F.seen files.old }
    ensures asks { Asks machine.old (search_material_work op query.now) (F.asked files.old) (F.asked files.new) }
    ensures asked { OnOk result (AsksAll machine.old (search_material_work op query.now) (F.asked files.old) (F.asked files.new)) }
    ensures causes { Causes WhyHalt result (counts (F.faults files.old) 0 0) (counts (F.faults files.new) 0 0) }
{
    let block = machine.block.as_mut_slice();
    search_games(
        &machine.base,
        query,
        op,
        &mut machine.seat.filter,
        files,
        block,
    )
}

// Leaves in the filter what its entries become by the search. The records of the games that can match are read into `block`.
fn search_games<G: Games, F: Files>(
    games: &G,
    query: &MatQuery,
    op: Op,
    filter: &mut Filter,
    files: &mut F,
    block: &mut [u8],
) -> Result<(), Halt>
    requires streak { 1 ≤ query.now.streak }
    requires room { length block.old ≡ 131072 }
    requires within { AreWithin (F.seen files.old).known (G.extents games.now) }
    requires entries { length filter.old ≡ length (G.sigs games.now) }
    ensures found { (told : List ℕ) (list : List GameTree) → (F.seen files.old).games ≡ Some told → Holds told (G.extents games.now) (G.sigs games.now) list → OnOk result (filter.new ≡ searched op (firsts_of query.now list) filter.old) }
    ensures devices { (told : List ℕ) (list : List GameTree) → (F.seen files.old).games ≡ Some told → Holds told (G.extents games.now) (G.sigs games.now) list → IfErr result IsDevice }
    ensures entries { length filter.new ≡ length filter.old }
    ensures room { length block.new ≡ 131072 }
    ensures unchanged { F.seen files.new ≡ F.seen files.old }
    ensures asks { F.asked files.new ≤ F.asked files.old + price op query.now (G.sigs games.now) (G.extents games.now) filter.old }
    ensures asked { OnOk result (raised (F.asked files.old) (price op query.now (G.sigs games.now) (G.extents games.now) filter.old) ≤ F.asked files.new) }
    ensures causes { Causes WhyHalt result (counts (F.faults files.old) 0 0) (counts (F.faults files.new) 0 0) }
{
    match search(games, query, op, filter, files, block) {
        Ok(()) => Ok(()),
        Err(error) => Err(Halt::from(error)),
    }
}
