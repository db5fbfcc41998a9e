//! The command that adds games which are made of draws, and shows them.
ghost use Rattle.std.specs.Prelude.{◌≡◌, ◌≤◌, ◌+◌, ◌++◌, ℕ, [], IfOk, IfErr, OnOk};
ghost use Rattle.base_files.specs.Told.{adds};
ghost use Rattle.command_runs.specs.Counts.{Causes, counts};
ghost use Rattle.command_runs.specs.Endings.{Halted, NoneLost, Serves};
ghost use Rattle.search_commands.specs.Demo.{Adding, adding, at_start, demo_line, one_more, shown_after, shown_text, demo_work, shown_price, demo_price};
ghost use Rattle.search_commands.specs.Demoing.{Adds, AddsNext, IsAdding, IsShort, Wrote};
ghost use Rattle.shell_state.specs.Carrying.{StillCarry};
ghost use Rattle.shell_state.specs.Ends.{IsDevice, IsOutput};
ghost use Rattle.shell_state.specs.Refusing.{refusal_line};
ghost use Rattle.shell_state.specs.Stands.{Broken, Sound, Stands, WhyHalt};
ghost use Rattle.shell_state.specs.State.{State};
ghost use Rattle.shell_state.specs.Work.{works};

use crate::positions::search_position;
use crate::trees::tree;
use base_files::{Files, Sink, Stop};
use cell_core::Colour;
use chess_laws::Position;
use demo_games::Generator;
use game_filter::Op;
use game_tree::plies;
use shell_state::{Halt, Machine, Refusal, refusal_line, write_line};
use sig_index::{Mode, PosQuery};
use std::alloc::{AllocError, Global};

// The games that were added: so many plies they have, or why the one behind them is not.
enum Added {
    Plies(u64),
    Refused(Refusal),
}

/// The command `demo SEED GAMES`: adds so many games of draws from this seed, and writes its text. Then it searches for the
/// initial position, and writes its tree.
pub fn demo<F: Files, K: Sink>(
    alloc: Global,
    machine: &mut Machine,
    files: &mut F,
    out: &mut K,
    seed: u64,
    games: u32,
) -> Result<(), Halt>
    requires sound { Sound machine.old (F.seen files.old) }
    ensures serves { (s : State) → Stands machine.old (F.seen files.old) s → Serves works (Stands machine.new (F.seen files.new)) Broken s (demo_work seed games) (K.taken out.old) (K.taken out.new) result }
    ensures sound { OnOk result (Sound machine.new (F.seen files.new)) }
    ensures carries { (s : State) → Stands machine.old (F.seen files.old) s → StillCarry (F.seen files.new) s None }
    ensures choices { (F.seen files.new).choices ≡ (F.seen files.old).choices }
    ensures asks { (s : State) → Stands machine.old (F.seen files.old) s → F.asked files.new ≤ F.asked files.old + demo_price s seed games }
    ensures none_lost { NoneLost (K.taken out.old) (K.taken out.new) }
    ensures causes { Causes WhyHalt result (counts (F.faults files.old) 0 (K.faults out.old)) (counts (F.faults files.new) 0 (K.faults out.new)) }
{
    match add_games(alloc, machine, files, seed, games) {
        Ok(Added::Plies(sum)) => show(alloc, machine, files, out, games, sum),
        Ok(Added::Refused(why)) => write_refusal(alloc, out, why),
        Err(halt) => Err(halt),
    }
}

// Adds so many games, or those before the first that is refused.
fn add_games<F: Files>(
    alloc: Global,
    machine: &mut Machine,
    files: &mut F,
    seed: u64,
    games: u32,
) -> Result<Added, Halt>
    requires sound { Sound machine.old (F.seen files.old) }
    ensures adds { (s : State) → Stands machine.old (F.seen files.old) s → IfOk result (Adds machine.new (F.seen files.new) (adding s seed games)) }
    ensures devices { IfErr result IsDevice }
    ensures sound { OnOk result (Sound machine.new (F.seen files.new)) }
    ensures carries { (s : State) → Stands machine.old (F.seen files.old) s → StillCarry (F.seen files.new) s None }
    ensures choices { (F.seen files.new).choices ≡ (F.seen files.old).choices }
    ensures none_asked { F.asked files.new ≡ F.asked files.old }
    ensures causes { Causes WhyHalt result (counts (F.faults files.old) 0 0) (counts (F.faults files.new) 0 0) }
{
    let mut generator = Generator::new(seed);
    let mut sum = 0u64;
    for number in 0..games {
        match add_next(alloc, machine, files, &mut generator, number) {
            Ok(Added::Plies(more)) => sum += more,
            Ok(Added::Refused(why)) => return Ok(Added::Refused(why)),
            Err(halt) => return Err(halt),
        }
    }
    Ok(Added::Plies(sum))
}

// Makes the game of a number and adds it.
fn add_next<F: Files>(
    alloc: Global,
    machine: &mut Machine,
    files: &mut F,
    generator: &mut Generator,
    number: u32,
) -> Result<Added, Halt>
    requires sound { Sound machine.old (F.seen files.old) }
    ensures adds { (sum : ℕ) (a : Adding) → IsAdding machine.old (F.seen files.old) generator.old sum a → IfOk result (AddsNext machine.new (F.seen files.new) generator.new sum (one_more a number)) }
    ensures short { IfOk result IsShort }
    ensures devices { IfErr result IsDevice }
    ensures sound { OnOk result (Sound machine.new (F.seen files.new)) }
    ensures carries { (s : State) → Stands machine.old (F.seen files.old) s → StillCarry (F.seen files.new) s None }
    ensures choices { (F.seen files.new).choices ≡ (F.seen files.old).choices }
    ensures none_asked { F.asked files.new ≡ F.asked files.old }
    ensures causes { Causes WhyHalt result (counts (F.faults files.old) 0 0) (counts (F.faults files.new) 0 0) }
{
    let (head, game) = generator.make(alloc, number)?;
    let more = u64::from(plies(&game));
    match machine.add(alloc, files, &head, &game) {
        Ok(Ok(_)) => Ok(Added::Plies(more)),
        Ok(Err(why)) => Ok(Added::Refused(why)),
        Err(halt) => Err(halt),
    }
}

// Writes the error line of a game that is not added.
fn write_refusal<K: Sink>(alloc: Global, out: &mut K, why: Refusal) -> Result<(), Halt>
    ensures written { OnOk result (K.taken out.new ≡ adds (K.taken out.old) (refusal_line why)) }
    ensures halted { Halted [] (refusal_line why) (K.taken out.old) (K.taken out.new) }
    ensures output { IfErr result IsOutput }
    ensures none_lost { NoneLost (K.taken out.old) (K.taken out.new) }
    ensures causes { Causes WhyHalt result (counts 0 0 (K.faults out.old)) (counts 0 0 (K.faults out.new)) }
{
    match refusal_line(alloc, why) {
        Ok(line) => write_line(out, line.as_slice()),
        Err(AllocError) => Err(Halt::Device(Stop::Memory)),
    }
}

// Says how many games were added and how many plies they have, and shows them.
fn show<F: Files, K: Sink>(
    alloc: Global,
    machine: &mut Machine,
    files: &mut F,
    out: &mut K,
    games: u32,
    plies: u64,
) -> Result<(), Halt>
    requires sound { Sound machine.old (F.seen files.old) }
    ensures shows { (s : State) → Stands machine.old (F.seen files.old) s → Wrote machine.new (F.seen files.new) (shown_after s) (demo_line games plies ++ shown_text s) (K.taken out.old) (K.taken out.new) result }
    ensures sound { OnOk result (Sound machine.new (F.seen files.new)) }
    ensures unchanged { F.seen files.new ≡ F.seen files.old }
    ensures asks { (s : State) → Stands machine.old (F.seen files.old) s → F.asked files.new ≤ F.asked files.old + shown_price s }
    ensures none_lost { NoneLost (K.taken out.old) (K.taken out.new) }
    ensures causes { Causes WhyHalt result (counts (F.faults files.old) 0 (K.faults out.old)) (counts (F.faults files.new) 0 (K.faults out.new)) }
{
    let line = demo_line(alloc, games, plies)?;
    match write_line(out, line.as_slice()) {
        Ok(()) => show_start(alloc, machine, files, out),
        Err(halt) => Err(halt),
    }
}

// How many games were added, and how many plies they have.
fn demo_line(alloc: Global, games: u32, plies: u64) -> Result<Vec<u8>, AllocError>
    ensures line { IfOk result (λ line. line.items ≡ demo_line games plies) }
{
    let line = format!(in alloc; "demo {games} games {plies} plies\n")?;
    Ok(line.into_bytes())
}

// Searches for the initial position in all games, and writes its tree.
fn show_start<F: Files, K: Sink>(
    alloc: Global,
    machine: &mut Machine,
    files: &mut F,
    out: &mut K,
) -> Result<(), Halt>
    requires sound { Sound machine.old (F.seen files.old) }
    ensures shows { (s : State) → Stands machine.old (F.seen files.old) s → Wrote machine.new (F.seen files.new) (shown_after s) (shown_text s) (K.taken out.old) (K.taken out.new) result }
    ensures sound { OnOk result (Sound machine.new (F.seen files.new)) }
    ensures unchanged { F.seen files.new ≡ F.seen files.old }
    ensures asks { (s : State) → Stands machine.old (F.seen files.old) s → F.asked files.new ≤ F.asked files.old + shown_price s }
    ensures none_lost { NoneLost (K.taken out.old) (K.taken out.new) }
    ensures causes { Causes WhyHalt result (counts (F.faults files.old) 0 (K.faults out.old)) (counts (F.faults files.new) 0 (K.faults out.new)) }
{
    let query = at_start();
    match search_position(machine, files, out, Op::Ignore, &query) {
        Ok(()) => tree(alloc, machine, files, out, &query.board, Colour::White),
        Err(halt) => Err(halt),
    }
}

// The initial position on all squares, with White to move.
fn at_start() -> PosQuery
    ensures start { result ≡ at_start }
{
    PosQuery {
        mode: Mode::Exact,
        board: *Position::start().board(),
        side: Colour::White,
        vars: false,
    }
}
