//! `watch K BOARD SIDE`.
ghost use Rattle.std.specs.Prelude.{◌≡◌, ◌==◌, ◌≤◌, ◌+◌, ◌&&◌, ℕ, List, Option, nat_lt, if◌then◌else◌, map, option_copied, IfErr, IfOk, OnOk, length};
ghost use Rattle.base_core.specs.Base.{Base as PlainBase};
ghost use Rattle.base_core.specs.Represents.{IsSound, Represents, extents_of, sigs_of};
ghost use Rattle.cell_core.specs.Packed.{packed_of};
ghost use Rattle.command_runs.specs.Counts.{Causes, counts};
ghost use Rattle.game_filter.specs.declared.op.Op.TheVariants.{Ignore};
ghost use Rattle.pos_index.specs.Hits.{IndexesAll, rows_told};
ghost use Rattle.game_search.specs.Questions.{cost_of};
ghost use Rattle.pos_search.specs.Searching.{are_read};
ghost use Rattle.shell_state.specs.Ends.{IsDevice};
ghost use Rattle.shell_state.specs.Lines.{game_line};
ghost use Rattle.shell_state.specs.Slots.{hit_of_game};
ghost use Rattle.shell_state.specs.Stands.{Asks, Sound, Stands, WhyHalt};
ghost use Rattle.shell_state.specs.State.{State};
ghost use Rattle.sig_index.specs.Costs.{price_by};
ghost use Rattle.sig_index.specs.declared.pos_query.Mode.TheVariants.{Exact};
ghost use Rattle.view_commands.specs.Views.{AreLeft, AreRight, AreToldAtMost, shown_hits, watch_work};

use crate::viewing::slot_of;
use crate::window::Window;
use base_core::Base;
use base_files::Files;
use cell_core::{Board, Colour, pack};
use pos_index::PosIndex;
use pos_search::{Sought, hits_told};
use shell_state::{Halt, Machine, game_line, read_hit};
use sig_index::{Mode, PosQuery};
use std::alloc::Global;
use tree_live::TreeView;
use tree_rows::GameHit;

/// The command `watch K BOARD SIDE` of a user: gives its line, which is not written yet. Views of slots that are not the
/// user's own are as before.
pub fn watch<F: Files>(
    alloc: Global,
    machine: &mut Machine,
    views: &mut [Option<Box<dyn TreeView>>],
    files: &mut F,
    number: u64,
    board: &Board,
    side: Colour,
    window: Window,
) -> Result<Vec<u8>, Halt>
    requires room { window.first + window.count ≤ 8 }
    requires sound { Sound machine.old (F.seen files.old) }
    ensures line { (s : State) → Stands machine.old (F.seen files.old) s → AreRight (λ b. rows b) window s views.old → IfOk result (λ line. line.items ≡ (watch_work window number board.now side).text s) }
    ensures stands { (s : State) → Stands machine.old (F.seen files.old) s → AreRight (λ b. rows b) window s views.old → OnOk result (Stands machine.new (F.seen files.new) ((watch_work window number board.now side).after s)) }
    ensures right { (s : State) → Stands machine.old (F.seen files.old) s → AreRight (λ b. rows b) window s views.old → OnOk result (AreRight (λ b. rows b) window ((watch_work window number board.now side).after s) views.new) }

    // The view is told one change more than games that are in meet the position, at most, and every other one none.
    ensures told { (s : State) → Stands machine.old (F.seen files.old) s → AreRight (λ b. rows b) window s views.old → OnOk result (AreToldAtMost (λ b. told b) (λ i. if nat_lt number window.count && (window.first + number == i) then 1 + length (shown_hits s (packed_of board.now side)) else 0) views.old views.new) }
    ensures left { AreLeft (λ i. nat_lt number window.count && (window.first + number == i)) views.old views.new }
    ensures number { length views.new ≡ length views.old }
    ensures devices { (s : State) → Stands machine.old (F.seen files.old) s → IfErr result IsDevice }
    ensures sound { OnOk result (Sound machine.new (F.seen files.new)) }
    ensures unchanged { F.seen files.new ≡ F.seen files.old }
    ensures asks { Asks machine.old (watch_work window number board.now side) (F.asked files.old) (F.asked files.new) }
    ensures causes { Causes WhyHalt result (counts (F.faults files.old) 0 0) (counts (F.faults files.new) 0 0) }
{
    let k = slot_of(window, number);
    if !machine.slots.holds(views, k) {
        return Ok(game_line(alloc, b"error: no view ", number)?);
    }
    let query = PosQuery {
        mode: Mode::Exact,
        board: *board,
        side,
        vars: false,
    };
    let block = machine.block.as_mut_slice();
    let index = machine.index.as_ref();
    let hits = match read_hits(alloc, &machine.base, index, &query, files, block) {
        Ok(hits) => hits,
        Err(halt) => return Err(halt),
    };
    let packed = pack(board, side);
    machine.slots.watch(
        alloc,
        views,
        k,
        packed,
        hits.as_slice(),
        &machine.seat.filter,
    )?;
    Ok(game_line(alloc, b"watching ", number)?)
}

// What the tree of a position counts of each game, in their order. The records of those that the index does not decide are read into
// `block`.
fn read_hits<F: Files>(
    alloc: Global,
    base: &Base,
    index: Option<&PosIndex>,
    query: &PosQuery,
    files: &mut F,
    block: &mut [u8],
) -> Result<Vec<Option<GameHit>>, Halt>
    requires exact { query.now.mode ≡ Exact }
    requires sound { IsSound base.now }
    requires room { length block.old ≡ 131072 }
    requires within { base.now.end ≤ (F.seen files.old).known }
    ensures hits { (told : List ℕ) (all : PlainBase) → (F.seen files.old).games ≡ Some told → Represents base.now told all → IndexesAll (option_copied index.entry) (map (λ held. held.game) all.games) → IfOk result (λ hits. hits.items ≡ map (hit_of_game query.now) all.games) }
    ensures devices { (told : List ℕ) (all : PlainBase) → (F.seen files.old).games ≡ Some told → Represents base.now told all → IfErr result IsDevice }
    ensures number { IfOk result (λ hits. length hits.items ≡ length base.now.entries) }
    ensures few { length base.now.entries ≤ 16777214 }
    ensures room { length block.new ≡ 131072 }
    ensures unchanged { F.seen files.new ≡ F.seen files.old }
    ensures asks { (plies : List (Option ℕ)) → length plies ≡ length base.now.entries → F.asked files.new ≤ F.asked files.old + price_by (cost_of Ignore) (are_read query.now (rows_told (option_copied index.entry)) (sigs_of base.now)) (extents_of base.now) plies }
    ensures causes { Causes WhyHalt result (counts (F.faults files.old) 0 0) (counts (F.faults files.new) 0 0) }
{
    let sought = Sought::new(query);
    let mut told = hits_told(query, index);
    let mut hits = Vec::new(alloc);
    for i in 0..base.header().games {
        match read_hit(base, i, &sought, &mut told, files, block) {
            Ok(hit) => hits.push(hit)?,
            Err(halt) => return Err(halt),
        }
    }
    Ok(hits)
}
