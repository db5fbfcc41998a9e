//! The command that gives games their opening codes.
ghost use Rattle.std.specs.Prelude.{[], ◌≡◌, ◌≤◌, ◌<◌, ◌+◌, ℕ, List, All, Ok, Some, length, map, slice_get, count_by, is_some, sum_by, IfOk, IfErr, OnOk};
ghost use Rattle.command_runs.specs.Counts.{Causes, counts};
ghost use Rattle.command_runs.specs.Endings.{NoneLost, Serves};
ghost use Rattle.eco_class.specs.Reading.{table_of};
ghost use Rattle.eco_class.specs.Table.{eco_of};
ghost use Rattle.game_tree.specs.Game.{GameTree};
ghost use Rattle.sig_index.specs.Games.{AreWithin, Holds, extent_in};
ghost use Rattle.report_commands.specs.Classifying.{classified_by, classified_text, eco_work, state_by, text_by};
ghost use Rattle.report_commands.specs.Ends.{AreCoded, IsCode, IsCoded};
ghost use Rattle.shell_state.specs.Ends.{IsDevice, IsBodyFault, Unsaid};
ghost use Rattle.shell_state.specs.Stands.{Stands, Sound, WhyHalt, Asks, Broken};
ghost use Rattle.shell_state.specs.State.{State};
ghost use Rattle.shell_state.specs.Work.{works};

use crate::bodies::read_body;
use crate::eco_lines::{classified_line, no_table_line};
use base_core::{Base, NoGame};
use base_files::{Files, Sink, Source, Stop};
use eco_class::{EcoError, EcoFault, EcoTable};
use shell_state::{Halt, Machine, write_line};
use sig_index::Games;
use std::alloc::Global;

/// The command `eco <<WORD`: gives each game its opening code by the table in the body, and writes its line.
#[tactic(auto, using(shell_state::proofs::Causing::unsaid_without))]
pub fn eco<F: Files, B: Source, K: Sink>(
    alloc: Global,
    machine: &mut Machine,
    files: &mut F,
    body: &mut B,
    out: &mut K,
) -> Result<(), Halt>
    requires sound { Sound machine.old (F.seen files.old) }
    ensures serves { (s : State) (text : List ℕ) → Stands machine.old (F.seen files.old) s → B.left body.old ≡ Some text → Serves works (Stands machine.new (F.seen files.new)) Broken s (eco_work text) (K.taken out.old) (K.taken out.new) result }
    ensures sound { OnOk result (Sound machine.new (F.seen files.new)) }
    ensures unchanged { F.seen files.new ≡ F.seen files.old }
    ensures asks { Asks machine.old (eco_work []) (F.asked files.old) (F.asked files.new) }
    ensures same { B.origin body.new ≡ B.origin body.old }
    ensures unsaid { IfErr result (λ e. Unsaid e (K.taken out.old) (K.taken out.new)) }
    ensures none_lost { NoneLost (K.taken out.old) (K.taken out.new) }
    ensures causes { Causes WhyHalt result (counts (F.faults files.old) (B.faults body.old) (K.faults out.old)) (counts (F.faults files.new) (B.faults body.new) (K.faults out.new)) }
{
    match classify(alloc, machine, files, body) {
        Ok(line) => write_line(out, line.as_slice()),
        Err(halt) => Err(halt),
    }
}

// Gives the games the codes of the table that the body is, and the line for them; or the line for what is wrong with it.
fn classify<F: Files, B: Source>(
    alloc: Global,
    machine: &mut Machine,
    files: &mut F,
    body: &mut B,
) -> Result<Vec<u8>, Halt>
    requires sound { Sound machine.old (F.seen files.old) }
    ensures line { (s : State) (text : List ℕ) → Stands machine.old (F.seen files.old) s → B.left body.old ≡ Some text → IfOk result (λ line. line.items ≡ text_by s (table_of text)) }
    ensures stands { (s : State) (text : List ℕ) → Stands machine.old (F.seen files.old) s → B.left body.old ≡ Some text → OnOk result (Stands machine.new (F.seen files.new) (state_by s (table_of text))) }
    ensures devices { (s : State) → Stands machine.old (F.seen files.old) s → IfErr result IsBodyFault }
    ensures sound { OnOk result (Sound machine.new (F.seen files.new)) }
    ensures unchanged { F.seen files.new ≡ F.seen files.old }
    ensures asks { Asks machine.old (eco_work []) (F.asked files.old) (F.asked files.new) }
    ensures same { B.origin body.new ≡ B.origin body.old }
    ensures causes { Causes WhyHalt result (counts (F.faults files.old) (B.faults body.old) 0) (counts (F.faults files.new) (B.faults body.new) 0) }
{
    match read_table(alloc, body) {
        Ok(Ok(table)) => classify_by(alloc, machine, files, &table),
        Ok(Err(fault)) => Ok(no_table_line(alloc, fault)?),
        Err(halt) => Err(halt),
    }
}

// The table that the body is, or its first fault.
fn read_table<B: Source>(alloc: Global, body: &mut B) -> Result<Result<EcoTable, EcoFault>, Halt>
    ensures table { (text : List ℕ) → B.left body.old ≡ Some text → IfOk result (λ table. table_of text ≡ table) }
    ensures devices { IfErr result IsBodyFault }
    ensures same { B.origin body.new ≡ B.origin body.old }
    ensures causes { Causes WhyHalt result (counts 0 (B.faults body.old) 0) (counts 0 (B.faults body.new) 0) }
{
    let text = match read_body(alloc, body) {
        Ok(text) => text,
        Err(halt) => return Err(halt),
    };
    match EcoTable::read(alloc, text.as_slice()) {
        Ok(table) => Ok(Ok(table)),
        Err(EcoError::Bad(fault)) => Ok(Err(fault)),
        Err(EcoError::Memory) => Err(Halt::Device(Stop::Memory)),
    }
}

// Gives the games the codes of a table, and the line for them. No game has its code before the codes of all are known.
fn classify_by<F: Files>(
    alloc: Global,
    machine: &mut Machine,
    files: &mut F,
    table: &EcoTable,
) -> Result<Vec<u8>, Halt>
    requires sound { Sound machine.old (F.seen files.old) }
    ensures line { (s : State) → Stands machine.old (F.seen files.old) s → IfOk result (λ line. line.items ≡ classified_text s table.now) }
    ensures stands { (s : State) → Stands machine.old (F.seen files.old) s → OnOk result (Stands machine.new (F.seen files.new) (classified_by s table.now)) }
    ensures devices { (s : State) → Stands machine.old (F.seen files.old) s → IfErr result IsDevice }
    ensures sound { OnOk result (Sound machine.new (F.seen files.new)) }
    ensures unchanged { F.seen files.new ≡ F.seen files.old }
    ensures asks { Asks machine.old (eco_work []) (F.asked files.old) (F.asked files.new) }
    ensures causes { Causes WhyHalt result (counts (F.faults files.old) 0 0) (counts (F.faults files.new) 0 0) }
{
    let block = machine.block.as_mut_slice();
    let found = match find_codes(alloc, &machine.base, table, files, block) {
        Ok(found) => found,
        Err(halt) => return Err(halt),
    };
    let codes = found.as_slice();
    let line = classified_line(alloc, found_in(codes) as u64, codes.len() as u64)?;
    set_codes(&mut machine.base, codes);
    machine.keeps_sound();
    Ok(line)
}

// The codes of the games by a table. Each record is read into `block`.
fn find_codes<G: Games, F: Files>(
    alloc: Global,
    games: &G,
    table: &EcoTable,
    files: &mut F,
    block: &mut [u8],
) -> Result<Vec<Option<u16>>, Halt>
    requires room { length block.old ≡ 131072 }
    requires within { AreWithin (F.seen files.old).known (G.extents games.now) }
    ensures found { (told : List ℕ) (list : List GameTree) → (F.seen files.old).games ≡ Some told → Holds told (G.extents games.now) (G.sigs games.now) list → IfOk result (λ codes. codes.items ≡ map (eco_of table.now) list) }
    ensures devices { (told : List ℕ) (list : List GameTree) → (F.seen files.old).games ≡ Some told → Holds told (G.extents games.now) (G.sigs games.now) list → IfErr result IsDevice }
    ensures count { IfOk result (λ codes. length codes.items ≡ length (G.sigs games.now)) }
    ensures small { IfOk result (λ codes. All IsCode codes.items) }
    ensures room { length block.new ≡ 131072 }
    ensures unchanged { F.seen files.new ≡ F.seen files.old }
    ensures asks { F.asked files.new ≤ F.asked files.old + sum_by (λ place. place.len) (G.extents games.now) }
    ensures causes { Causes WhyHalt result (counts (F.faults files.old) 0 0) (counts (F.faults files.new) 0 0) }
{
    let mut codes = Vec::new(alloc);
    for i in 0..games.len() {
        let code = match find_code(games, i, table, files, block) {
            Ok(code) => code,
            Err(halt) => return Err(halt),
        };
        codes.push(code)?;
    }
    Ok(codes)
}

// The code of game `i` by a table.
fn find_code<G: Games, F: Files>(
    games: &G,
    i: u32,
    table: &EcoTable,
    files: &mut F,
    block: &mut [u8],
) -> Result<Option<u16>, Halt>
    requires game { i < length (G.sigs games.now) }
    requires room { length block.old ≡ 131072 }
    requires within { AreWithin (F.seen files.old).known (G.extents games.now) }
    ensures code { (told : List ℕ) (list : List GameTree) (game : GameTree) → (F.seen files.old).games ≡ Some told → Holds told (G.extents games.now) (G.sigs games.now) list → slice_get list i ≡ Some game → IfOk result (λ code. code ≡ eco_of table.now game) }
    ensures devices { (told : List ℕ) (list : List GameTree) → (F.seen files.old).games ≡ Some told → Holds told (G.extents games.now) (G.sigs games.now) list → IfErr result IsDevice }
    ensures small { IfOk result IsCode }
    ensures room { length block.new ≡ 131072 }
    ensures unchanged { F.seen files.new ≡ F.seen files.old }
    ensures asks { F.asked files.new ≤ F.asked files.old + (extent_in (G.extents games.now) i).len }
    ensures causes { Causes WhyHalt result (counts (F.faults files.old) 0 0) (counts (F.faults files.new) 0 0) }
{
    let len = match games.fetch(i, files, block) {
        Ok(len) => len,
        Err(unread) => return Err(Halt::from(unread)),
    };
    match table.classify(block.split_at(len as usize).0) {
        Ok(code) => Ok(code),
        Err(_) => Err(Halt::Changed {
            game: i,
            kept: games.sig(i),
            found: None,
        }),
    }
}

// How many games have a code.
fn found_in(codes: &[Option<u16>]) -> usize
    ensures { result ≡ count_by is_some codes.now }
{
    codes.iter().filter(|code| code.is_some()).count()
}

// Gives each game its code, if it has one.
fn set_codes(base: &mut Base, codes: &[Option<u16>])
    requires count { length codes.now ≡ length base.old.entries }
    requires small { All IsCode codes.now }
    ensures coded { AreCoded codes.now base.old base.new }
{
    for i in 0..base.len() {
        set_code(base, i, codes[i as usize]);
    }
}

// Gives game `i` a code, if there is one.
fn set_code(base: &mut Base, i: u32, code: Option<u16>)
    requires there { i < length base.old.entries }
    requires small { IsCode code }
    ensures coded { IsCoded i code base.old base.new }
{
    if let Some(code) = code {
        match base.set_eco(i, code) {
            Ok(()) | Err(NoGame { .. }) => {}
        }
    }
}
