//! `index D` and `index off`.
ghost use Rattle.std.specs.Prelude.{◌≡◌, ◌≤◌, ◌+◌, ℕ, List, Ok, None, Some, length, map, IfOk, IfErr, IfSome, OnOk};
ghost use Rattle.base_files.specs.Seen.{Seen};
ghost use Rattle.command_runs.specs.Counts.{Causes, counts};
ghost use Rattle.command_runs.specs.Endings.{NoneLost, Serves};
ghost use Rattle.game_tree.specs.Game.{GameTree};
ghost use Rattle.pos_index.specs.Asking.{price};
ghost use Rattle.pos_index.specs.Hits.{Fits, Indexes};
ghost use Rattle.sig_index.specs.Games.{AreWithin, Holds};
ghost use Rattle.index_commands.specs.Ends.{halt_of_build};
ghost use Rattle.index_commands.specs.Indexing.{index_after, index_line, index_text, index_work};
ghost use Rattle.shell_state.specs.Ends.{IsDevice, Unsaid};
ghost use Rattle.shell_state.specs.Stands.{Asks, Broken, Sound, Stands, WhyHalt};
ghost use Rattle.shell_state.specs.State.{State};
ghost use Rattle.shell_state.specs.Work.{works};

use base_files::{Files, Sink, Stop};
use pos_index::{BuildError, PosIndex};
use shell_state::{Halt, Machine, error_line, write_line};
use sig_index::Games;
use std::alloc::{AllocError, Global};

/// The command `index D`, D at most 40, or `index off`: builds a position index to this depth, or drops it, and writes
/// its line. An index that is there is dropped when the new one stands.
pub fn index<F: Files, K: Sink>(
    alloc: Global,
    machine: &mut Machine,
    files: &mut F,
    out: &mut K,
    depth: Option<u8>,
) -> Result<(), Halt>
    requires depth { IfSome depth (λ plies. plies ≤ 40) }
    requires sound { Sound machine.old (F.seen files.old) }
    ensures serves { (s : State) → Stands machine.old (F.seen files.old) s → Serves works (Stands machine.new (F.seen files.new)) Broken s (index_work depth) (K.taken out.old) (K.taken out.new) result }
    ensures sound { OnOk result (Sound machine.new (F.seen files.new)) }
    ensures unchanged { F.seen files.new ≡ F.seen files.old }
    ensures asks { Asks machine.old (index_work depth) (F.asked files.old) (F.asked files.new) }
    ensures unsaid { IfErr result (λ e. Unsaid e (K.taken out.old) (K.taken out.new)) }
    ensures none_lost { NoneLost (K.taken out.old) (K.taken out.new) }
    ensures causes { Causes WhyHalt result (counts (F.faults files.old) 0 (K.faults out.old)) (counts (F.faults files.new) 0 (K.faults out.new)) }
{
    match depth {
        Some(depth) => index_to(alloc, machine, files, out, depth),
        None => drop_index(machine, out),
    }
}

// Builds the index to this depth, and writes the line for it.
#[tactic(auto, using(shell_state::proofs::Causing::unsaid_without))]
fn index_to<F: Files, K: Sink>(
    alloc: Global,
    machine: &mut Machine,
    files: &mut F,
    out: &mut K,
    depth: u8,
) -> Result<(), Halt>
    requires depth { depth ≤ 40 }
    requires sound { Sound machine.old (F.seen files.old) }
    ensures serves { (s : State) → Stands machine.old (F.seen files.old) s → Serves works (Stands machine.new (F.seen files.new)) Broken s (index_work (Some depth)) (K.taken out.old) (K.taken out.new) result }
    ensures sound { OnOk result (Sound machine.new (F.seen files.new)) }
    ensures unchanged { F.seen files.new ≡ F.seen files.old }
    ensures asks { Asks machine.old (index_work (Some depth)) (F.asked files.old) (F.asked files.new) }
    ensures unsaid { IfErr result (λ e. Unsaid e (K.taken out.old) (K.taken out.new)) }
    ensures none_lost { NoneLost (K.taken out.old) (K.taken out.new) }
    ensures causes { Causes WhyHalt result (counts (F.faults files.old) 0 (K.faults out.old)) (counts (F.faults files.new) 0 (K.faults out.new)) }
{
    match build(alloc, machine, files, depth) {
        Ok(line) => write_line(out, line.as_slice()),
        Err(halt) => Err(halt),
    }
}

// Drops the index, if there is one, and says so.
#[tactic(auto, using(shell_state::proofs::Causing::unsaid_without))]
fn drop_index<K: Sink>(machine: &mut Machine, out: &mut K) -> Result<(), Halt>
    ensures serves { (seen : Seen) (s : State) → Stands machine.old seen s → Serves works (Stands machine.new seen) Broken s (index_work None) (K.taken out.old) (K.taken out.new) result }
    ensures sound { (seen : Seen) → Sound machine.old seen → OnOk result (Sound machine.new seen) }
    ensures unsaid { IfErr result (λ e. Unsaid e (K.taken out.old) (K.taken out.new)) }
    ensures none_lost { NoneLost (K.taken out.old) (K.taken out.new) }
    ensures causes { Causes WhyHalt result (counts 0 0 (K.faults out.old)) (counts 0 0 (K.faults out.new)) }
{
    machine.index = None;
    write_line(out, b"index off\n")
}

// Builds the index, which then takes the place of the old one, and gives the line for it.
fn build<F: Files>(
    alloc: Global,
    machine: &mut Machine,
    files: &mut F,
    depth: u8,
) -> Result<Vec<u8>, Halt>
    requires depth { depth ≤ 40 }
    requires sound { Sound machine.old (F.seen files.old) }
    ensures line { (s : State) → Stands machine.old (F.seen files.old) s → IfOk result (λ line. line.items ≡ index_text s (Some depth)) }
    ensures stands { (s : State) → Stands machine.old (F.seen files.old) s → OnOk result (Stands machine.new (F.seen files.new) (index_after s (Some depth))) }
    ensures devices { (s : State) → Stands machine.old (F.seen files.old) s → IfErr result IsDevice }
    ensures sound { OnOk result (Sound machine.new (F.seen files.new)) }
    ensures unchanged { F.seen files.new ≡ F.seen files.old }
    ensures asks { Asks machine.old (index_work (Some depth)) (F.asked files.old) (F.asked files.new) }
    ensures causes { Causes WhyHalt result (counts (F.faults files.old) 0 0) (counts (F.faults files.new) 0 0) }
{
    if !PosIndex::fits(depth, machine.games()) {
        return Ok(error_line(alloc, b"index too big")?);
    }
    let block = machine.block.as_mut_slice();
    let index = match read_index(alloc, &machine.base, depth, files, block) {
        Ok(index) => index,
        Err(halt) => return Err(halt),
    };
    let line = index_line(alloc, u64::from(depth), index.entries())?;
    machine.index = Some(index);
    Ok(line)
}

// The index of all games, whose records are read into `block`.
fn read_index<G: Games, F: Files>(
    alloc: Global,
    games: &G,
    depth: u8,
    files: &mut F,
    block: &mut [u8],
) -> Result<PosIndex, Halt>
    requires depth { depth ≤ 40 }
    requires fits { Fits depth (length (G.sigs games.now)) }
    requires room { length block.old ≡ 131072 }
    requires within { AreWithin (F.seen files.old).known (G.extents games.now) }
    ensures depth { IfOk result (λ index. index.depth ≡ depth) }
    ensures games { IfOk result (λ index. length index.rows ≡ length (G.sigs games.now)) }
    ensures indexed { (told : List ℕ) (list : List GameTree) → (F.seen files.old).games ≡ Some told → Holds told (G.extents games.now) (G.sigs games.now) list → IfOk result (λ index. Indexes index (map Some list)) }
    ensures devices { (told : List ℕ) (list : List GameTree) → (F.seen files.old).games ≡ Some told → Holds told (G.extents games.now) (G.sigs games.now) list → IfErr result IsDevice }
    ensures room { length block.new ≡ 131072 }
    ensures unchanged { F.seen files.new ≡ F.seen files.old }
    ensures asks { F.asked files.new ≤ F.asked files.old + price (G.extents games.now) }
    ensures causes { Causes WhyHalt result (counts (F.faults files.old) 0 0) (counts (F.faults files.new) 0 0) }
{
    match PosIndex::build(alloc, games, depth, files, block) {
        Ok(index) => Ok(index),
        Err(error) => Err(halt_of(error)),
    }
}

// How the command ends whose index is not built.
fn halt_of(error: BuildError) -> Halt
    ensures { result ≡ halt_of_build error }
{
    match error {
        BuildError::Fetch(unread) => Halt::from(unread),
        BuildError::Memory => Halt::Device(Stop::Memory),
    }
}

// `index D E entries`.
fn index_line(alloc: Global, depth: u64, entries: u64) -> Result<Vec<u8>, AllocError>
    ensures { IfOk result (λ line. line.items ≡ index_line depth entries) }
{
    let mut line = format!(in alloc; "index {depth}")?;
    write!(line, " {entries} entries\n")?;
    Ok(line.into_bytes())
}
