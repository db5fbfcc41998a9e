//! The command that marks twins as deleted.
ghost use Rattle.std.specs.Prelude.{◌≡◌, ◌≤◌, ◌<◌, ◌+◌, ℕ, List, All, Ok, Some, length, IfOk, IfErr, OnOk};
ghost use Rattle.command_runs.specs.Counts.{Causes, counts};
ghost use Rattle.command_runs.specs.Endings.{NoneLost, Serves};
ghost use Rattle.game_tree.specs.Game.{GameTree};
ghost use Rattle.sig_index.specs.Games.{AreWithin, Holds};
ghost use Rattle.twin_games.specs.Asking.{price};
ghost use Rattle.twin_games.specs.Twins.{twins_of};
ghost use Rattle.report_commands.specs.Ends.{Marked, halt_of_twins, twins_line};
ghost use Rattle.report_commands.specs.Twins.{found_twins, twins_work, with_deleted};
ghost use Rattle.shell_state.specs.Ends.{IsDevice, Unsaid};
ghost use Rattle.shell_state.specs.Stands.{Stands, Sound, Broken, WhyHalt, Asks};
ghost use Rattle.shell_state.specs.State.{State};
ghost use Rattle.shell_state.specs.Work.{works};

use base_core::{Base, NoGame};
use base_files::{Files, Sink, Stop};
use shell_state::{Halt, Machine, write_line};
use sig_index::Games;
use std::alloc::{AllocError, Global};
use twin_games::TwinError;

/// The command `twins D`: marks each twin as deleted, by the first D plies, and writes its line.
#[tactic(auto, using(shell_state::proofs::Causing::unsaid_without))]
pub fn twins<F: Files, K: Sink>(
    alloc: Global,
    machine: &mut Machine,
    files: &mut F,
    out: &mut K,
    depth: u32,
) -> Result<(), Halt>
    requires sound { Sound machine.old (F.seen files.old) }
    ensures serves { (s : State) → Stands machine.old (F.seen files.old) s → Serves works (Stands machine.new (F.seen files.new)) Broken s (twins_work depth) (K.taken out.old) (K.taken out.new) result }
    ensures sound { OnOk result (Sound machine.new (F.seen files.new)) }
    ensures unchanged { F.seen files.new ≡ F.seen files.old }
    ensures asks { Asks machine.old (twins_work depth) (F.asked files.old) (F.asked files.new) }
    ensures unsaid { IfErr result (λ e. Unsaid e (K.taken out.old) (K.taken out.new)) }
    ensures none_lost { NoneLost (K.taken out.old) (K.taken out.new) }
    ensures causes { Causes WhyHalt result (counts (F.faults files.old) 0 (K.faults out.old)) (counts (F.faults files.new) 0 (K.faults out.new)) }
{
    match mark_twins(alloc, machine, files, depth) {
        Ok(line) => write_line(out, line.as_slice()),
        Err(halt) => Err(halt),
    }
}

// Marks the twins, and gives the line for them.
fn mark_twins<F: Files>(
    alloc: Global,
    machine: &mut Machine,
    files: &mut F,
    depth: u32,
) -> Result<Vec<u8>, Halt>
    requires sound { Sound machine.old (F.seen files.old) }
    ensures line { (s : State) → Stands machine.old (F.seen files.old) s → IfOk result (λ line. line.items ≡ twins_line (length (found_twins s depth))) }
    ensures stands { (s : State) → Stands machine.old (F.seen files.old) s → OnOk result (Stands machine.new (F.seen files.new) (with_deleted s (found_twins s depth))) }
    ensures devices { (s : State) → Stands machine.old (F.seen files.old) s → IfErr result IsDevice }
    ensures sound { OnOk result (Sound machine.new (F.seen files.new)) }
    ensures unchanged { F.seen files.new ≡ F.seen files.old }
    ensures asks { Asks machine.old (twins_work depth) (F.asked files.old) (F.asked files.new) }
    ensures causes { Causes WhyHalt result (counts (F.faults files.old) 0 0) (counts (F.faults files.new) 0 0) }
{
    let block = machine.block.as_mut_slice();
    let found = match find_twins(alloc, &machine.base, depth, files, block) {
        Ok(found) => found,
        Err(halt) => return Err(halt),
    };
    let line = twins_line(alloc, found.len())?;
    delete_all(&mut machine.base, found.as_slice());
    machine.keeps_sound();
    Ok(line)
}

// The numbers of the twins. The records of the games that may be some are read into `block`.
fn find_twins<G: Games, F: Files>(
    alloc: Global,
    games: &G,
    depth: u32,
    files: &mut F,
    block: &mut [u8],
) -> Result<Vec<u32>, Halt>
    requires room { length block.old ≡ 131072 }
    requires within { AreWithin (F.seen files.old).known (G.extents games.now) }
    ensures found { (told : List ℕ) (list : List GameTree) → (F.seen files.old).games ≡ Some told → Holds told (G.extents games.now) (G.sigs games.now) list → IfOk result (λ found. found.items ≡ twins_of (G.heads games.now) list depth) }
    ensures devices { (told : List ℕ) (list : List GameTree) → (F.seen files.old).games ≡ Some told → Holds told (G.extents games.now) (G.sigs games.now) list → IfErr result IsDevice }
    ensures there { IfOk result (λ found. All (λ game. game < length (G.sigs games.now)) found.items) }
    ensures room { length block.new ≡ 131072 }
    ensures unchanged { F.seen files.new ≡ F.seen files.old }
    ensures asks { F.asked files.new ≤ F.asked files.old + price (G.heads games.now) (G.extents games.now) }
    ensures causes { Causes WhyHalt result (counts (F.faults files.old) 0 0) (counts (F.faults files.new) 0 0) }
{
    match twin_games::twins(alloc, games, depth, files, block) {
        Ok(found) => Ok(found),
        Err(error) => Err(halt_of(error)),
    }
}

// How the command ends whose twins are not known.
fn halt_of(error: TwinError) -> Halt
    ensures { result ≡ halt_of_twins error }
{
    match error {
        TwinError::Fetch(unread) => Halt::from(unread),
        TwinError::Memory => Halt::Device(Stop::Memory),
    }
}

// `twins N`.
fn twins_line(alloc: Global, count: usize) -> Result<Vec<u8>, AllocError>
    ensures { IfOk result (λ line. line.items ≡ twins_line count) }
{
    let line = format!(in alloc; "twins {count}\n")?;
    Ok(line.into_bytes())
}

// Marks all these games as deleted.
fn delete_all(base: &mut Base, games: &[u32])
    requires there { All (λ game. game < length base.old.entries) games.now }
    ensures marked { Marked games.now base.old base.new }
{
    for game in games {
        if let Err(NoGame { .. }) = base.delete(*game) {
            return;
        }
    }
}
