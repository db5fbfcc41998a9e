//! The command that writes the opening tree of the games that are in.
ghost use Rattle.std.specs.Prelude.{◌≡◌, ◌≤◌, ◌<◌, ◌+◌, ◌++◌, ℕ, if◌then◌else◌, List, Option, Some, Ok, All, length, map, option_copied, slice_get, IfOk, IfErr, OnOk, option_to_list};
ghost use Rattle.base_core.specs.Base.{Base as PlainBase, Held};
ghost use Rattle.base_core.specs.Represents.{IsSound, Represents, extents_of, sigs_of};
ghost use Rattle.base_files.specs.Counters.{raised};
ghost use Rattle.command_runs.specs.Counts.{Causes, counts};
ghost use Rattle.command_runs.specs.Endings.{NoneLost, Serves};
ghost use Rattle.game_filter.specs.declared.op.Op.TheVariants.{And};
ghost use Rattle.pos_index.specs.Hits.{Index, IndexesAll, Place, places_in, rows_told};
ghost use Rattle.game_search.specs.Questions.{cost_of};
ghost use Rattle.pos_search.specs.Searching.{are_read, is_read};
ghost use Rattle.pos_search.specs.Telling.{AreLegalHits, hits_told};
ghost use Rattle.sig_index.specs.Costs.{price_by};
ghost use Rattle.sig_index.specs.Games.{extent_in};
ghost use Rattle.sig_index.specs.declared.signature.Sig.{Sig};
ghost use Rattle.sig_index.specs.declared.pos_query.Mode.TheVariants.{Exact};
ghost use Rattle.tree_rows.specs.MoveText.{IsKey};
ghost use Rattle.tree_rows.specs.Rows.{AreRows, rows_of};
ghost use Rattle.tree_rows.specs.declared.hit.GameHit.{GameHit as Hit};
ghost use Rattle.search_commands.specs.Trees.{tree_work};
ghost use Rattle.shell_state.specs.Ends.{IsDevice, Unsaid};
ghost use Rattle.shell_state.specs.Stands.{Stands, Sound, Broken, WhyHalt, Asks, AsksAll};
ghost use Rattle.shell_state.specs.State.{State};
ghost use Rattle.shell_state.specs.Work.{works};
ghost use Rattle.shell_state.specs.Meeting.{hit_if_in, tree_hits, tree_of};
ghost use Rattle.shell_state.specs.Slots.{hit_of_game};

use base_core::Base;
use base_files::{Files, Sink, Stop};
use cell_core::{Board, Colour};
use game_filter::Filter;
use pos_index::PosIndex;
use pos_search::{Sought, Told, hits_told};
use shell_state::{Halt, Machine, is_passed, read_hit, write_line};
use sig_index::{Mode, PosQuery};
use std::alloc::{AllocError, Global};
use tree_rows::{Rows, lines};

/// The command `tree BOARD SIDE`: writes the moves that the games of the filter made there.
#[tactic(auto, using(shell_state::proofs::Causing::unsaid_without))]
pub fn tree<F: Files, K: Sink>(
    alloc: Global,
    machine: &mut Machine,
    files: &mut F,
    out: &mut K,
    board: &Board,
    side: Colour,
) -> Result<(), Halt>
    requires sound { Sound machine.old (F.seen files.old) }
    ensures same { machine.new ≡ machine.old }
    ensures serves { (s : State) → Stands machine.old (F.seen files.old) s → Serves works (Stands machine.new (F.seen files.new)) Broken s (tree_work board.now side) (K.taken out.old) (K.taken out.new) result }
    ensures unchanged { F.seen files.new ≡ F.seen files.old }
    ensures asks { Asks machine.old (tree_work board.now side) (F.asked files.old) (F.asked files.new) }
    ensures asked { OnOk result (AsksAll machine.old (tree_work board.now side) (F.asked files.old) (F.asked files.new)) }
    ensures unsaid { IfErr result (λ e. Unsaid e (K.taken out.old) (K.taken out.new)) }
    ensures none_lost { NoneLost (K.taken out.old) (K.taken out.new) }
    ensures causes { Causes WhyHalt result (counts (F.faults files.old) 0 (K.faults out.old)) (counts (F.faults files.new) 0 (K.faults out.new)) }
{
    let query = PosQuery {
        mode: Mode::Exact,
        board: *board,
        side,
        vars: false,
    };
    let block = machine.block.as_mut_slice();
    match read_tree(
        alloc,
        &machine.base,
        machine.index.as_ref(),
        &machine.seat.filter,
        &query,
        files,
        block,
    ) {
        Ok(text) => write_line(out, text.as_slice()),
        Err(halt) => Err(halt),
    }
}

// The text of the tree of a position over the games that are in. The records of those that the index does not decide are read into `block`.
fn read_tree<F: Files>(
    alloc: Global,
    base: &Base,
    index: Option<&PosIndex>,
    filter: &Filter,
    query: &PosQuery,
    files: &mut F,
    block: &mut [u8],
) -> Result<Vec<u8>, Halt>
    requires exact { query.now.mode ≡ Exact }
    requires games { length filter.now ≡ length base.now.entries }
    requires sound { IsSound base.now }
    requires room { length block.old ≡ 131072 }
    requires within { base.now.end ≤ (F.seen files.old).known }
    ensures text { (told : List ℕ) (all : PlainBase) → (F.seen files.old).games ≡ Some told → Represents base.now told all → IndexesAll (option_copied index.entry) (map (λ held. held.game) all.games) → IfOk result (λ text. text.items ≡ tree_of query.now filter.now all.games) }
    ensures devices { (told : List ℕ) (all : PlainBase) → (F.seen files.old).games ≡ Some told → Represents base.now told all → IfErr result IsDevice }
    ensures room { length block.new ≡ 131072 }
    ensures unchanged { F.seen files.new ≡ F.seen files.old }
    ensures asks { F.asked files.new ≤ F.asked files.old + price_by (cost_of And) (are_read query.now (rows_told (option_copied index.entry)) (sigs_of base.now)) (extents_of base.now) filter.now }
    ensures asked { OnOk result (raised (F.asked files.old) (price_by (cost_of And) (are_read query.now (rows_told (option_copied index.entry)) (sigs_of base.now)) (extents_of base.now) filter.now) ≤ F.asked files.new) }
    ensures causes { Causes WhyHalt result (counts (F.faults files.old) 0 0) (counts (F.faults files.new) 0 0) }
{
    let sought = Sought::new(query);
    let mut told = hits_told(query, index);
    let rows = match read_rows(alloc, base, filter, &sought, &mut told, files, block) {
        Ok(rows) => rows,
        Err(halt) => return Err(halt),
    };
    let mut text = Vec::new(alloc);
    match lines(alloc, rows.as_slice(), &query.board, query.side, &mut text) {
        Ok(()) => Ok(text),
        Err(AllocError) => Err(Halt::Device(Stop::Memory)),
    }
}

// The rows of the games that are in: each hit is summed as it is read, so that memory goes by rows. An index tells `told` of the hits.
fn read_rows<F: Files>(
    alloc: Global,
    base: &Base,
    filter: &Filter,
    query: &Sought<'_>,
    told: &mut Told<'_>,
    files: &mut F,
    block: &mut [u8],
) -> Result<Rows, Halt>
    requires exact { query.now.mode ≡ Exact }
    requires squares { length query.now.board ≡ 64 }
    requires legal { AreLegalHits query.now told.old }
    requires games { length filter.now ≡ length base.now.entries }
    requires sound { IsSound base.now }
    requires room { length block.old ≡ 131072 }
    requires within { base.now.end ≤ (F.seen files.old).known }
    ensures same { told.new ≡ told.old }
    ensures rows { (contents : List ℕ) (all : PlainBase) (index : Option Index) → (F.seen files.old).games ≡ Some contents → Represents base.now contents all
        → told.old ≡ hits_told query.now (rows_told index) → IndexesAll index (map (λ held. held.game) all.games) → IfOk result (λ rows. rows ≡ rows_of (tree_hits query.now filter.now all.games)) }
    ensures devices { (told : List ℕ) (all : PlainBase) → (F.seen files.old).games ≡ Some told → Represents base.now told all → IfErr result IsDevice }
    ensures keys { IfOk result (λ rows. All (λ row. IsKey query.now.board query.now.side row.key) rows) }
    ensures room { length block.new ≡ 131072 }
    ensures unchanged { F.seen files.new ≡ F.seen files.old }
    ensures asks { (rows : List (List Place)) → told.old ≡ hits_told query.now rows → F.asked files.new ≤ F.asked files.old + price_by (cost_of And) (are_read query.now rows (sigs_of base.now)) (extents_of base.now) filter.now }
    ensures asked { (rows : List (List Place)) → told.old ≡ hits_told query.now rows → OnOk result (raised (F.asked files.old) (price_by (cost_of And) (are_read query.now rows (sigs_of base.now)) (extents_of base.now) filter.now) ≤ F.asked files.new) }
    ensures causes { Causes WhyHalt result (counts (F.faults files.old) 0 0) (counts (F.faults files.new) 0 0) }
{
    let mut rows = Rows::new(alloc);
    for i in 0..filter.len() {
        match add_game(&mut rows, base, i, filter.get(i), query, told, files, block) {
            Ok(()) => {}
            Err(halt) => return Err(halt),
        }
    }
    Ok(rows)
}

// Counts the hit of a game in the rows of those before it, if the game is in and meets the position.
#[inline(always)]
fn add_game<F: Files>(
    rows: &mut Rows,
    base: &Base,
    i: u32,
    ply: Option<u32>,
    query: &Sought<'_>,
    told: &mut Told<'_>,
    files: &mut F,
    block: &mut [u8],
) -> Result<(), Halt>
    requires exact { query.now.mode ≡ Exact }
    requires squares { length query.now.board ≡ 64 }
    requires legal { AreLegalHits query.now told.old }
    requires there { i < length base.now.entries }
    requires counted { AreRows i rows.old }
    requires sound { IsSound base.now }
    requires room { length block.old ≡ 131072 }
    requires within { base.now.end ≤ (F.seen files.old).known }
    ensures same { told.new ≡ told.old }
    ensures added { (contents : List ℕ) (all : PlainBase) (held : Held) (index : Option Index) (hits : List Hit) → (F.seen files.old).games ≡ Some contents → Represents base.now contents all → slice_get all.games i ≡ Some held
        → told.old ≡ hits_told query.now (rows_told index) → IndexesAll index (map (λ h. h.game) all.games) → rows.old ≡ rows_of hits → OnOk result (rows.new ≡ rows_of (hits ++ option_to_list (hit_if_in query.now ply held))) }
    ensures devices { (told : List ℕ) (all : PlainBase) → (F.seen files.old).games ≡ Some told → Represents base.now told all → IfErr result IsDevice }
    ensures counted { OnOk result (AreRows (i + 1) rows.new) }
    ensures keys { All (λ row. IsKey query.now.board query.now.side row.key) rows.old → OnOk result (All (λ row. IsKey query.now.board query.now.side row.key) rows.new) }
    ensures room { length block.new ≡ 131072 }
    ensures unchanged { F.seen files.new ≡ F.seen files.old }
    ensures asks { (sig : Sig) (rows : List (List Place)) → slice_get (sigs_of base.now) i ≡ Some sig → told.old ≡ hits_told query.now rows → F.asked files.new ≤ F.asked files.old + cost_of And (is_read query.now (places_in rows i) sig) (extent_in (extents_of base.now) i) ply }
    ensures asked { (sig : Sig) (rows : List (List Place)) → slice_get (sigs_of base.now) i ≡ Some sig → told.old ≡ hits_told query.now rows → OnOk result (raised (F.asked files.old) (cost_of And (is_read query.now (places_in rows i) sig) (extent_in (extents_of base.now) i) ply) ≤ F.asked files.new) }
    ensures causes { Causes WhyHalt result (counts (F.faults files.old) 0 0) (counts (F.faults files.new) 0 0) }
{
    let Some(_) = ply else {
        return Ok(());
    };
    if is_passed(base, i, query, told) {
        return Ok(());
    }
    add_met(rows, base, i, query, told, files, block)
}

// The same of a game that is in and may meet the position. It stands apart, so that no game that is passed over has room cleared for its hit.
#[inline(never)]
fn add_met<F: Files>(
    rows: &mut Rows,
    base: &Base,
    i: u32,
    query: &Sought<'_>,
    told: &mut Told<'_>,
    files: &mut F,
    block: &mut [u8],
) -> Result<(), Halt>
    requires exact { query.now.mode ≡ Exact }
    requires squares { length query.now.board ≡ 64 }
    requires legal { AreLegalHits query.now told.old }
    requires there { i < length base.now.entries }
    requires counted { AreRows i rows.old }
    requires sound { IsSound base.now }
    requires room { length block.old ≡ 131072 }
    requires within { base.now.end ≤ (F.seen files.old).known }
    ensures same { told.new ≡ told.old }
    ensures added { (contents : List ℕ) (all : PlainBase) (held : Held) (index : Option Index) (hits : List Hit) → (F.seen files.old).games ≡ Some contents → Represents base.now contents all → slice_get all.games i ≡ Some held
        → told.old ≡ hits_told query.now (rows_told index) → IndexesAll index (map (λ h. h.game) all.games) → rows.old ≡ rows_of hits → OnOk result (rows.new ≡ rows_of (hits ++ option_to_list (hit_of_game query.now held))) }
    ensures devices { (told : List ℕ) (all : PlainBase) → (F.seen files.old).games ≡ Some told → Represents base.now told all → IfErr result IsDevice }
    ensures counted { OnOk result (AreRows (i + 1) rows.new) }
    ensures keys { All (λ row. IsKey query.now.board query.now.side row.key) rows.old → OnOk result (All (λ row. IsKey query.now.board query.now.side row.key) rows.new) }
    ensures room { length block.new ≡ 131072 }
    ensures unchanged { F.seen files.new ≡ F.seen files.old }
    ensures asks { (sig : Sig) (rows : List (List Place)) → slice_get (sigs_of base.now) i ≡ Some sig → told.old ≡ hits_told query.now rows → F.asked files.new ≤ F.asked files.old + (if is_read query.now (places_in rows i) sig then (extent_in (extents_of base.now) i).len else 0) }
    ensures asked { (sig : Sig) (rows : List (List Place)) → slice_get (sigs_of base.now) i ≡ Some sig → told.old ≡ hits_told query.now rows → OnOk result (raised (F.asked files.old) (if is_read query.now (places_in rows i) sig then (extent_in (extents_of base.now) i).len else 0) ≤ F.asked files.new) }
    ensures causes { Causes WhyHalt result (counts (F.faults files.old) 0 0) (counts (F.faults files.new) 0 0) }
{
    let hit = match read_hit(base, i, query, told, files, block) {
        Ok(Some(hit)) => hit,
        Ok(None) => return Ok(()),
        Err(halt) => return Err(halt),
    };
    match rows.add_hit(&hit) {
        Ok(()) => Ok(()),
        Err(AllocError) => Err(Halt::Device(Stop::Memory)),
    }
}
