//! The searches for a position.
ghost use Rattle.std.specs.Prelude.{◌≡◌, ◌≤◌, ◌+◌, ℕ, List, Some, Ok, length, option_copied, IfErr, OnOk};
ghost use Rattle.base_files.specs.Counters.{raised};
ghost use Rattle.command_runs.specs.Counts.{Causes, counts};
ghost use Rattle.command_runs.specs.Endings.{NoneLost, Serves};
ghost use Rattle.game_filter.specs.Search.{searched};
ghost use Rattle.game_tree.specs.Game.{GameTree};
ghost use Rattle.pos_index.specs.Hits.{IndexesAll, rows_told};
ghost use Rattle.pos_search.specs.Matching.{firsts_of};
ghost use Rattle.game_search.specs.Questions.{cost_of};
ghost use Rattle.pos_search.specs.Searching.{are_read};
ghost use Rattle.sig_index.specs.Costs.{price_by};
ghost use Rattle.sig_index.specs.Games.{AreWithin, Holds};
ghost use Rattle.search_commands.specs.Searching.{search_position_work, find_work};
ghost use Rattle.shell_state.specs.Ends.{IsDevice, Unsaid};
ghost use Rattle.shell_state.specs.Stands.{Stands, Sound, Broken, WhyHalt, Asks, AsksAll};
ghost use Rattle.shell_state.specs.State.{State};
ghost use Rattle.shell_state.specs.Work.{works};

use base_files::{Files, Sink};
use cell_core::{Board, Colour};
use game_filter::{Filter, Op};
use pos_index::PosIndex;
use pos_search::search;
use shell_state::{Halt, Machine, write_filter};
use sig_index::{Games, Mode, PosQuery};

/// The command `find BOARD SIDE`: leaves in the filter the games that are in then, and writes nothing yet.
pub fn find_games<F: Files>(
    machine: &mut Machine,
    files: &mut F,
    board: &Board,
    side: Colour,
) -> Result<(), Halt>
    requires sound { Sound machine.old (F.seen files.old) }
    ensures stands { (s : State) → Stands machine.old (F.seen files.old) s → OnOk result (Stands machine.new (F.seen files.new) ((find_work board.now side).after s)) }
    ensures devices { (s : State) → Stands machine.old (F.seen files.old) s → IfErr result IsDevice }
    ensures sound { OnOk result (Sound machine.new (F.seen files.new)) }
    ensures unchanged { F.seen files.new ≡ F.seen files.old }
    ensures asks { Asks machine.old (find_work board.now side) (F.asked files.old) (F.asked files.new) }
    ensures asked { OnOk result (AsksAll machine.old (find_work board.now side) (F.asked files.old) (F.asked files.new)) }
    ensures causes { Causes WhyHalt result (counts (F.faults files.old) 0 0) (counts (F.faults files.new) 0 0) }
{
    let query = PosQuery {
        mode: Mode::Exact,
        board: *board,
        side,
        vars: false,
    };
    position_games(machine, files, Op::Ignore, &query)
}

/// The command `search OP position MODE BOARD SIDE`, with `vars` or without: matches games that reach such a position,
/// and writes its line.
#[tactic(auto, using(shell_state::proofs::Causing::unsaid_without))]
pub fn search_position<F: Files, K: Sink>(
    machine: &mut Machine,
    files: &mut F,
    out: &mut K,
    op: Op,
    query: &PosQuery,
) -> Result<(), Halt>
    requires sound { Sound machine.old (F.seen files.old) }
    ensures serves { (s : State) → Stands machine.old (F.seen files.old) s → Serves works (Stands machine.new (F.seen files.new)) Broken s (search_position_work op query.now) (K.taken out.old) (K.taken out.new) result }
    ensures sound { OnOk result (Sound machine.new (F.seen files.new)) }
    ensures unchanged { F.seen files.new ≡ F.seen files.old }
    ensures asks { Asks machine.old (search_position_work op query.now) (F.asked files.old) (F.asked files.new) }
    ensures asked { OnOk result (AsksAll machine.old (search_position_work op query.now) (F.asked files.old) (F.asked files.new)) }
    ensures unsaid { IfErr result (λ e. Unsaid e (K.taken out.old) (K.taken out.new)) }
    ensures none_lost { NoneLost (K.taken out.old) (K.taken out.new) }
    ensures causes { Causes WhyHalt result (counts (F.faults files.old) 0 (K.faults out.old)) (counts (F.faults files.new) 0 (K.faults out.new)) }
{
    match position_games(machine, files, op, query) {
        Ok(()) => {}
        Err(halt) => return Err(halt),
    }
    write_filter(&machine.seat.filter, out)
}

/// The same, but that nothing is written yet.
pub fn position_games<F: Files>(
    machine: &mut Machine,
    files: &mut F,
    op: Op,
    query: &PosQuery,
) -> Result<(), Halt>
    requires sound { Sound machine.old (F.seen files.old) }
    ensures stands { (s : State) → Stands machine.old (F.seen files.old) s → OnOk result (Stands machine.new (F.seen files.new) ((search_position_work op query.now).after s)) }
    ensures devices { (s : State) → Stands machine.old (F.seen files.old) s → IfErr result IsDevice }
    ensures sound { OnOk result (Sound machine.new (F.seen files.new)) }
    ensures unchanged { F.seen files.new ≡ F.seen files.old }
    ensures asks { Asks machine.old (search_position_work op query.now) (F.asked files.old) (F.asked files.new) }
    ensures asked { OnOk result (AsksAll machine.old (search_position_work op query.now) (F.asked files.old) (F.asked files.new)) }
    ensures causes { Causes WhyHalt result (counts (F.faults files.old) 0 0) (counts (F.faults files.new) 0 0) }
{
    let block = machine.block.as_mut_slice();
    search_games(
        &machine.base,
        query,
        op,
        machine.index.as_ref(),
        &mut machine.seat.filter,
        files,
        block,
    )
}

// Leaves in the filter what its entries become by the search. The records of the games that can match and that the index does not decide are
// read into `block`.
fn search_games<G: Games, F: Files>(
    games: &G,
    query: &PosQuery,
    op: Op,
    index: Option<&PosIndex>,
    filter: &mut Filter,
    files: &mut F,
    block: &mut [u8],
) -> Result<(), Halt>
    requires room { length block.old ≡ 131072 }
    requires within { AreWithin (F.seen files.old).known (G.extents games.now) }
    requires entries { length filter.old ≡ length (G.sigs games.now) }
    ensures found { (told : List ℕ) (list : List GameTree) → (F.seen files.old).games ≡ Some told → Holds told (G.extents games.now) (G.sigs games.now) list → IndexesAll (option_copied index.entry) list → OnOk result (filter.new ≡ searched op (firsts_of query.now list) filter.old) }
    ensures devices { (told : List ℕ) (list : List GameTree) → (F.seen files.old).games ≡ Some told → Holds told (G.extents games.now) (G.sigs games.now) list → IfErr result IsDevice }
    ensures entries { length filter.new ≡ length filter.old }
    ensures room { length block.new ≡ 131072 }
    ensures unchanged { F.seen files.new ≡ F.seen files.old }
    ensures asks { F.asked files.new ≤ F.asked files.old + price_by (cost_of op) (are_read query.now (rows_told (option_copied index.entry)) (G.sigs games.now)) (G.extents games.now) filter.old }
    ensures asked { OnOk result (raised (F.asked files.old) (price_by (cost_of op) (are_read query.now (rows_told (option_copied index.entry)) (G.sigs games.now)) (G.extents games.now) filter.old) ≤ F.asked files.new) }
    ensures causes { Causes WhyHalt result (counts (F.faults files.old) 0 0) (counts (F.faults files.new) 0 0) }
{
    match search(games, query, op, index, filter, files, block) {
        Ok(()) => Ok(()),
        Err(error) => Err(Halt::from(error)),
    }
}
