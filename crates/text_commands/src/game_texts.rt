//! The commands that write games in Portable Game Notation. What `export` writes goes out in pages.
ghost use Rattle.std.specs.Prelude.{◌≡◌, ◌≤◌, ◌<◌, ◌+◌, ◌++◌, ℕ, IsTrue, List, Some, is_some, Ok, length, slice_get, IfOk, IfErr, OnOk, OnErr};
ghost use Rattle.base_core.specs.Base.{Base as PlainBase, Held};
ghost use Rattle.base_core.specs.Represents.{Represents};
ghost use Rattle.base_files.specs.Counters.{raised};
ghost use Rattle.base_files.specs.Told.{adds};
ghost use Rattle.command_runs.specs.Counts.{Causes, counts};
ghost use Rattle.command_runs.specs.Endings.{NoneLost, Serves};
ghost use Rattle.game_tree.specs.Head.{IsBounded};
ghost use Rattle.game_tree.specs.Legal.{IsLegalGame};
ghost use Rattle.index_entry.specs.declared.entry.Entry.{Entry};
ghost use Rattle.pgn_write.specs.Pgn.{pgn_of};
ghost use Rattle.shell_state.specs.Ends.{IsDevice, Unsaid, halt_of};
ghost use Rattle.shell_state.specs.Passing.{len_if_in};
ghost use Rattle.shell_state.specs.Stands.{Stands, Sound, Broken, WhyHalt, len_at, Asks, AsksAll};
ghost use Rattle.shell_state.specs.State.{State};
ghost use Rattle.shell_state.specs.Work.{works};
ghost use Rattle.text_commands.specs.Cuts.{GameEnds, GamesEnd, PutsTextIfIn};
ghost use Rattle.text_commands.specs.GameTexts.{ExportCut, game_text, text_if_in, IsTextOf, WritesTextOf, WritesTextsOf, exported_len, export_work, show_work};

use base_core::Base;
use base_files::{Files, Sink, Stop};
use game_filter::Filter;
use game_tree::{Game, Head};
use pgn_write::write_game;
use shell_state::{Halt, Machine, halt_of, no_game_line, write_full, write_line, write_page};
use std::alloc::{AllocError, Global};

/// The command `show G`: writes the game in PGN.
#[tactic(auto, using(shell_state::proofs::Causing::unsaid_without))]
pub fn show<F: Files, K: Sink>(
    alloc: Global,
    machine: &mut Machine,
    files: &mut F,
    out: &mut K,
    number: u64,
) -> Result<(), Halt>
    requires sound { Sound machine.old (F.seen files.old) }
    ensures same { machine.new ≡ machine.old }
    ensures serves { (s : State) → Stands machine.old (F.seen files.old) s → Serves works (Stands machine.new (F.seen files.new)) Broken s (show_work number) (K.taken out.old) (K.taken out.new) result }
    ensures unchanged { F.seen files.new ≡ F.seen files.old }
    ensures asks { Asks machine.old (show_work number) (F.asked files.old) (F.asked files.new) }
    ensures asked { OnOk result (AsksAll machine.old (show_work number) (F.asked files.old) (F.asked files.new)) }
    // Whatever the files hold, what is written is the text of a legal game, which has the signature that is kept.
    ensures shown { OnOk result (WritesTextOf machine.old.kept number (K.taken out.old) (K.taken out.new)) }
    ensures unsaid { IfErr result (λ e. Unsaid e (K.taken out.old) (K.taken out.new)) }
    ensures none_lost { NoneLost (K.taken out.old) (K.taken out.new) }
    ensures causes { Causes WhyHalt result (counts (F.faults files.old) 0 (K.faults out.old)) (counts (F.faults files.new) 0 (K.faults out.new)) }
{
    match machine.game_at(number) {
        Some(i) => show_there(alloc, machine, files, out, i),
        None => {
            let line = no_game_line(alloc, number)?;
            write_line(out, line.as_slice())
        }
    }
}

// The same of a game that is there.
fn show_there<F: Files, K: Sink>(
    alloc: Global,
    machine: &mut Machine,
    files: &mut F,
    out: &mut K,
    i: u32,
) -> Result<(), Halt>
    requires there { i < length machine.old.kept.entries }
    requires sound { Sound machine.old (F.seen files.old) }
    ensures same { machine.new ≡ machine.old }
    ensures serves { (s : State) → Stands machine.old (F.seen files.old) s → Serves works (Stands machine.new (F.seen files.new)) Broken s (show_work i) (K.taken out.old) (K.taken out.new) result }
    ensures unchanged { F.seen files.new ≡ F.seen files.old }
    ensures asks { Asks machine.old (show_work i) (F.asked files.old) (F.asked files.new) }
    ensures asked { OnOk result (AsksAll machine.old (show_work i) (F.asked files.old) (F.asked files.new)) }
    ensures shown { OnOk result (WritesTextOf machine.old.kept i (K.taken out.old) (K.taken out.new)) }
    ensures unsaid { IfErr result (λ e. Unsaid e (K.taken out.old) (K.taken out.new)) }
    ensures none_lost { NoneLost (K.taken out.old) (K.taken out.new) }
    ensures causes { Causes WhyHalt result (counts (F.faults files.old) 0 (K.faults out.old)) (counts (F.faults files.new) 0 (K.faults out.new)) }
{
    let block = machine.block.as_mut_slice();
    write_one(alloc, &machine.base, i, files, block, out)
}

/// The command `export`: writes the games of the filter in PGN, in their order.
pub fn export<F: Files, K: Sink>(
    alloc: Global,
    machine: &mut Machine,
    files: &mut F,
    out: &mut K,
) -> Result<(), Halt>
    requires sound { Sound machine.old (F.seen files.old) }
    ensures same { machine.new ≡ machine.old }
    ensures serves { (s : State) → Stands machine.old (F.seen files.old) s → Serves works (Stands machine.new (F.seen files.new)) Broken s export_work (K.taken out.old) (K.taken out.new) result }
    ensures cut { (s : State) → Stands machine.old (F.seen files.old) s → IfErr result (λ e. ExportCut s.seat.filter s.shared.base.games e (K.taken out.old) (K.taken out.new)) }
    ensures unchanged { F.seen files.new ≡ F.seen files.old }
    ensures asks { Asks machine.old export_work (F.asked files.old) (F.asked files.new) }
    ensures asked { OnOk result (AsksAll machine.old export_work (F.asked files.old) (F.asked files.new)) }
    // Whatever the files hold, what is written is the texts of legal games, which have the signatures that are kept: one for each game that is in.
    ensures shown { OnOk result (WritesTextsOf machine.old.kept machine.old.seat.filter (K.taken out.old) (K.taken out.new)) }
    ensures none_lost { NoneLost (K.taken out.old) (K.taken out.new) }
    ensures causes { Causes WhyHalt result (counts (F.faults files.old) 0 (K.faults out.old)) (counts (F.faults files.new) 0 (K.faults out.new)) }
{
    let block = machine.block.as_mut_slice();
    write_games(
        alloc,
        &machine.base,
        &machine.seat.filter,
        files,
        block,
        out,
    )
}

// Writes the games that are in, one after the other. Each record is read into `block`.
fn write_games<F: Files, K: Sink>(
    alloc: Global,
    base: &Base,
    filter: &Filter,
    files: &mut F,
    block: &mut [u8],
    out: &mut K,
) -> Result<(), Halt>
    requires games { length filter.now ≡ length base.now.entries }
    requires room { length block.old ≡ 131072 }
    requires within { base.now.end ≤ (F.seen files.old).known }
    ensures written { (told : List ℕ) (all : PlainBase) → (F.seen files.old).games ≡ Some told → Represents base.now told all → GamesEnd result filter.now all.games (K.taken out.old) (K.taken out.new) }
    ensures unchanged { F.seen files.new ≡ F.seen files.old }
    ensures asks { F.asked files.new ≤ F.asked files.old + exported_len filter.now base.now.entries }
    ensures asked { OnOk result (raised (F.asked files.old) (exported_len filter.now base.now.entries) ≤ F.asked files.new) }
    ensures shown { OnOk result (WritesTextsOf base.now filter.now (K.taken out.old) (K.taken out.new)) }
    ensures none_lost { NoneLost (K.taken out.old) (K.taken out.new) }
    ensures causes { Causes WhyHalt result (counts (F.faults files.old) 0 (K.faults out.old)) (counts (F.faults files.new) 0 (K.faults out.new)) }
{
    let mut page = Vec::new(alloc);
    let put = put_games(alloc, base, filter, files, block, &mut page, out);
    // Where it is broken off too, so that the games before stand whole.
    match write_page(&mut page, out) {
        Ok(()) => put,
        Err(halt) => Err(halt),
    }
}

// Puts the games that are in on the page, one after the other. Each record is read into `block`.
fn put_games<F: Files, K: Sink>(
    alloc: Global,
    base: &Base,
    filter: &Filter,
    files: &mut F,
    block: &mut [u8],
    page: &mut Vec<u8>,
    out: &mut K,
) -> Result<(), Halt>
    requires games { length filter.now ≡ length base.now.entries }
    requires room { length block.old ≡ 131072 }
    requires within { base.now.end ≤ (F.seen files.old).known }
    ensures put { (told : List ℕ) (all : PlainBase) → (F.seen files.old).games ≡ Some told → Represents base.now told all → GamesEnd result filter.now all.games (adds (K.taken out.old) page.old.items) (adds (K.taken out.new) page.new.items) }
    ensures unchanged { F.seen files.new ≡ F.seen files.old }
    ensures asks { F.asked files.new ≤ F.asked files.old + exported_len filter.now base.now.entries }
    ensures asked { OnOk result (raised (F.asked files.old) (exported_len filter.now base.now.entries) ≤ F.asked files.new) }
    ensures shown { OnOk result (WritesTextsOf base.now filter.now (adds (K.taken out.old) page.old.items) (adds (K.taken out.new) page.new.items)) }
    ensures none_lost { NoneLost (K.taken out.old) (K.taken out.new) }
    ensures causes { Causes WhyHalt result (counts (F.faults files.old) 0 (K.faults out.old)) (counts (F.faults files.new) 0 (K.faults out.new)) }
{
    for i in 0..filter.len() {
        match put_if_in(alloc, base, i, filter.get(i), files, block, page, out) {
            Ok(()) => {}
            Err(halt) => return Err(halt),
        }
    }
    Ok(())
}

// Puts a game on the page, if it is in.
fn put_if_in<F: Files, K: Sink>(
    alloc: Global,
    base: &Base,
    i: u32,
    ply: Option<u32>,
    files: &mut F,
    block: &mut [u8],
    page: &mut Vec<u8>,
    out: &mut K,
) -> Result<(), Halt>
    requires there { i < length base.now.entries }
    requires room { length block.old ≡ 131072 }
    requires within { base.now.end ≤ (F.seen files.old).known }
    ensures put { (told : List ℕ) (all : PlainBase) (held : Held) → (F.seen files.old).games ≡ Some told → Represents base.now told all → slice_get all.games i ≡ Some held → GameEnds result (text_if_in i ply held) (adds (K.taken out.old) page.old.items) (adds (K.taken out.new) page.new.items) }
    ensures some { OnErr result (IsTrue (is_some ply)) }
    ensures room { length block.new ≡ 131072 }
    ensures unchanged { F.seen files.new ≡ F.seen files.old }
    ensures asks { F.asked files.new ≤ F.asked files.old + len_if_in ply (len_at base.now.entries i) }
    ensures asked { OnOk result (raised (F.asked files.old) (len_if_in ply (len_at base.now.entries i)) ≤ F.asked files.new) }
    ensures shown { OnOk result (PutsTextIfIn base.now i ply (adds (K.taken out.old) page.old.items) (adds (K.taken out.new) page.new.items)) }
    ensures none_lost { NoneLost (K.taken out.old) (K.taken out.new) }
    ensures causes { Causes WhyHalt result (counts (F.faults files.old) 0 (K.faults out.old)) (counts (F.faults files.new) 0 (K.faults out.new)) }
{
    match ply {
        Some(_) => put_one(alloc, base, i, files, block, page, out),
        None => Ok(()),
    }
}

// Puts a game on the page. Its record is read into `block`.
fn put_one<F: Files, K: Sink>(
    alloc: Global,
    base: &Base,
    i: u32,
    files: &mut F,
    block: &mut [u8],
    page: &mut Vec<u8>,
    out: &mut K,
) -> Result<(), Halt>
    requires there { i < length base.now.entries }
    requires room { length block.old ≡ 131072 }
    requires within { base.now.end ≤ (F.seen files.old).known }
    ensures put { (told : List ℕ) (all : PlainBase) (held : Held) → (F.seen files.old).games ≡ Some told → Represents base.now told all → slice_get all.games i ≡ Some held → GameEnds result (game_text held) (adds (K.taken out.old) page.old.items) (adds (K.taken out.new) page.new.items) }
    ensures room { length block.new ≡ 131072 }
    ensures unchanged { F.seen files.new ≡ F.seen files.old }
    ensures asks { F.asked files.new ≤ F.asked files.old + len_at base.now.entries i }
    ensures asked { OnOk result (raised (F.asked files.old) (len_at base.now.entries i) ≤ F.asked files.new) }
    ensures shown { OnOk result (WritesTextOf base.now i (adds (K.taken out.old) page.old.items) (adds (K.taken out.new) page.new.items)) }
    ensures none_lost { NoneLost (K.taken out.old) (K.taken out.new) }
    ensures causes { Causes WhyHalt result (counts (F.faults files.old) 0 (K.faults out.old)) (counts (F.faults files.new) 0 (K.faults out.new)) }
{
    match read_behind(alloc, base, i, files, block, page) {
        Ok(()) => write_full(page, out),
        Err(halt) => Err(halt),
    }
}

// Writes a game. Its record is read into `block`.
#[tactic(auto, using(shell_state::proofs::Causing::unsaid_without))]
fn write_one<F: Files, K: Sink>(
    alloc: Global,
    base: &Base,
    i: u32,
    files: &mut F,
    block: &mut [u8],
    out: &mut K,
) -> Result<(), Halt>
    requires there { i < length base.now.entries }
    requires room { length block.old ≡ 131072 }
    requires within { base.now.end ≤ (F.seen files.old).known }
    ensures written { (told : List ℕ) (all : PlainBase) (held : Held) → (F.seen files.old).games ≡ Some told → Represents base.now told all → slice_get all.games i ≡ Some held → GameEnds result (game_text held) (K.taken out.old) (K.taken out.new) }
    ensures room { length block.new ≡ 131072 }
    ensures unchanged { F.seen files.new ≡ F.seen files.old }
    ensures asks { F.asked files.new ≤ F.asked files.old + len_at base.now.entries i }
    ensures asked { OnOk result (raised (F.asked files.old) (len_at base.now.entries i) ≤ F.asked files.new) }
    ensures shown { OnOk result (WritesTextOf base.now i (K.taken out.old) (K.taken out.new)) }
    ensures unsaid { IfErr result (λ e. Unsaid e (K.taken out.old) (K.taken out.new)) }
    ensures none_lost { NoneLost (K.taken out.old) (K.taken out.new) }
    ensures causes { Causes WhyHalt result (counts (F.faults files.old) 0 (K.faults out.old)) (counts (F.faults files.new) 0 (K.faults out.new)) }
{
    match read_text(alloc, base, i, files, block) {
        Ok(text) => write_line(out, text.as_slice()),
        Err(halt) => Err(halt),
    }
}

// The text of a game. Its record is read into `block`.
fn read_text<F: Files>(
    alloc: Global,
    base: &Base,
    i: u32,
    files: &mut F,
    block: &mut [u8],
) -> Result<Vec<u8>, Halt>
    requires there { i < length base.now.entries }
    requires room { length block.old ≡ 131072 }
    requires within { base.now.end ≤ (F.seen files.old).known }
    ensures text { (told : List ℕ) (all : PlainBase) (held : Held) → (F.seen files.old).games ≡ Some told → Represents base.now told all → slice_get all.games i ≡ Some held → IfOk result (λ text. text.items ≡ game_text held) }
    ensures devices { (told : List ℕ) (all : PlainBase) → (F.seen files.old).games ≡ Some told → Represents base.now told all → IfErr result IsDevice }
    ensures room { length block.new ≡ 131072 }
    ensures unchanged { F.seen files.new ≡ F.seen files.old }
    ensures asks { F.asked files.new ≤ F.asked files.old + len_at base.now.entries i }
    ensures asked { OnOk result (raised (F.asked files.old) (len_at base.now.entries i) ≤ F.asked files.new) }
    ensures shown { IfOk result (λ text. (e : Entry) → slice_get base.now.entries i ≡ Some e → IsTextOf base.now.names e text.items) }
    ensures causes { Causes WhyHalt result (counts (F.faults files.old) 0 0) (counts (F.faults files.new) 0 0) }
{
    let mut text = Vec::new(alloc);
    match read_behind(alloc, base, i, files, block, &mut text) {
        Ok(()) => Ok(text),
        Err(halt) => Err(halt),
    }
}

// Puts the text of a game behind another text, which stays as it is if that fails. Its record is read into `block`.
fn read_behind<F: Files>(
    alloc: Global,
    base: &Base,
    i: u32,
    files: &mut F,
    block: &mut [u8],
    text: &mut Vec<u8>,
) -> Result<(), Halt>
    requires there { i < length base.now.entries }
    requires room { length block.old ≡ 131072 }
    requires within { base.now.end ≤ (F.seen files.old).known }
    ensures text { (told : List ℕ) (all : PlainBase) (held : Held) → (F.seen files.old).games ≡ Some told → Represents base.now told all → slice_get all.games i ≡ Some held → OnOk result (text.new.items ≡ text.old.items ++ game_text held) }
    ensures kept { OnErr result (text.new.items ≡ text.old.items) }
    ensures devices { (told : List ℕ) (all : PlainBase) → (F.seen files.old).games ≡ Some told → Represents base.now told all → IfErr result IsDevice }
    ensures room { length block.new ≡ 131072 }
    ensures unchanged { F.seen files.new ≡ F.seen files.old }
    ensures asks { F.asked files.new ≤ F.asked files.old + len_at base.now.entries i }
    ensures asked { OnOk result (raised (F.asked files.old) (len_at base.now.entries i) ≤ F.asked files.new) }
    ensures shown { OnOk result ((e : Entry) → slice_get base.now.entries i ≡ Some e → (added : List ℕ) × ((text.new.items ≡ text.old.items ++ added) × IsTextOf base.now.names e added)) }
    ensures causes { Causes WhyHalt result (counts (F.faults files.old) 0 0) (counts (F.faults files.new) 0 0) }
{
    let (head, game) = match base.game(alloc, i, files, block) {
        Ok(read) => read,
        Err(error) => return Err(halt_of(error)),
    };
    match put_behind(alloc, &head, &game, text) {
        Ok(()) => Ok(()),
        Err(AllocError) => Err(Halt::Device(Stop::Memory)),
    }
}

// Puts the text of a game with this head behind another text, which stays as it is if that fails.
fn put_behind(alloc: Global, head: &Head, game: &Game, text: &mut Vec<u8>) -> Result<(), AllocError>
    requires legal { IsLegalGame game.now }
    requires bounded { IsBounded head.now }
    ensures text { OnOk result (text.new.items ≡ text.old.items ++ pgn_of head.now game.now) }
    ensures kept { OnErr result (text.new.items ≡ text.old.items) }
{
    write_game(alloc, head.fields(), head.tags.as_slice(), game, text)
}
