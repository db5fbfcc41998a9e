//! The command that takes the games of a body in.
ghost use Rattle.std.specs.Prelude.{◌≡◌, ◌<◌, ℕ, ◌+◌, [], List, Option, None, Some, Ok, IfOk, IfErr, OnOk};
ghost use Rattle.base_files.specs.Told.{adds};
ghost use Rattle.base_files.specs.declared.faults.Stop.TheVariants as stop;
ghost use Rattle.command_runs.specs.Counts.{Causes, counts};
ghost use Rattle.command_runs.specs.Endings.{Halted, NoneLost, Serves};
ghost use Rattle.pgn_read.specs.Fit.{IsFit, IsFitGame};
ghost use Rattle.pgn_read.specs.Items.{items_of};
ghost use Rattle.pgn_read.specs.Readers.{told};
ghost use Rattle.pgn_read.specs.declared.item.Item.TheVariants as item;
ghost use Rattle.intake_commands.specs.Breaking.{TakesFirst};
ghost use Rattle.intake_commands.specs.Ends.{unread_halt};
ghost use Rattle.intake_commands.specs.Importing.{Intake, intake, item_after, item_text, next_number, import_work};
ghost use Rattle.intake_commands.specs.Intakes.{Counted, StandsLater, TakesIn, TookIn, TookNext};
ghost use Rattle.intake_commands.specs.LastLine.{ServesBut};
ghost use Rattle.shell_state.specs.Carrying.{StillCarry};
ghost use Rattle.shell_state.specs.Ends.{IsDevice, IsFault, IsOutput, Unsaid};
ghost use Rattle.shell_state.specs.Stands.{Stands, Sound, WhyHalt, Broken};
ghost use Rattle.shell_state.specs.State.{State};
ghost use Rattle.shell_state.specs.Work.{works};
ghost use Rattle.shell_state.specs.declared.halt.Halt.TheVariants as halt;

use crate::item_lines::{faulty_line, imported_line, not_added_line};
use crate::paging::next_behind;
use base_files::{Files, Sink, Source, Stop};
use game_tree::{Game, Head};
use pgn_read::{Item, PgnError, Reader};
use shell_state::{Halt, Machine, game_line, write_full, write_page};
use std::alloc::Global;

/// The command `import <<WORD`: takes the games of a body in, and gives the last line of its text, which is not written yet.
pub fn import<F: Files, B: Source, K: Sink>(
    alloc: Global,
    machine: &mut Machine,
    files: &mut F,
    body: &mut B,
    out: &mut K,
) -> Result<Vec<u8>, Halt>
    requires sound { Sound machine.old (F.seen files.old) }
    ensures serves { (s : State) (text : List ℕ) → Stands machine.old (F.seen files.old) s → B.left body.old ≡ Some text → ServesBut works (Stands machine.new (F.seen files.new)) Broken s (import_work text) (K.taken out.old) (K.taken out.new) result }
    // If the input or the files break it off, the lines of the items that were taken in are written, whole.
    ensures first { (s : State) (text : List ℕ) → Stands machine.old (F.seen files.old) s → B.left body.old ≡ Some text → IfErr result (TakesFirst machine.new s (items_of text) (K.taken out.old) (K.taken out.new)) }
    ensures sound { OnOk result (Sound machine.new (F.seen files.new)) }
    ensures carries { (s : State) → Stands machine.old (F.seen files.old) s → StillCarry (F.seen files.new) s None }
    ensures choices { (F.seen files.new).choices ≡ (F.seen files.old).choices }
    ensures none_asked { F.asked files.new ≡ F.asked files.old }
    ensures same { B.origin body.new ≡ B.origin body.old }
    ensures none_lost { NoneLost (K.taken out.old) (K.taken out.new) }
    ensures causes { Causes WhyHalt result (counts (F.faults files.old) (B.faults body.old) (K.faults out.old)) (counts (F.faults files.new) (B.faults body.new) (K.faults out.new)) }
{
    let (added, refused) = match take_all(alloc, machine, files, body, out) {
        Ok(counts) => counts,
        Err(halt) => return Err(halt),
    };
    Ok(imported_line(alloc, added, refused)?)
}

// Takes the items of the body in and writes their lines, and says how many games were added and how many items refused.
fn take_all<F: Files, B: Source, K: Sink>(
    alloc: Global,
    machine: &mut Machine,
    files: &mut F,
    body: &mut B,
    out: &mut K,
) -> Result<(u64, u64), Halt>
    requires sound { Sound machine.old (F.seen files.old) }
    ensures takes { (s : State) (text : List ℕ) → Stands machine.old (F.seen files.old) s → B.left body.old ≡ Some text → TakesIn machine.new (F.seen files.new) s (items_of text) (K.taken out.old) (K.taken out.new) result }
    ensures sound { OnOk result (Sound machine.new (F.seen files.new)) }
    ensures carries { (s : State) → Stands machine.old (F.seen files.old) s → StillCarry (F.seen files.new) s None }
    ensures choices { (F.seen files.new).choices ≡ (F.seen files.old).choices }
    ensures none_asked { F.asked files.new ≡ F.asked files.old }
    ensures same { B.origin body.new ≡ B.origin body.old }
    ensures none_lost { NoneLost (K.taken out.old) (K.taken out.new) }
    ensures causes { Causes WhyHalt result (counts (F.faults files.old) (B.faults body.old) (K.faults out.old)) (counts (F.faults files.new) (B.faults body.new) (K.faults out.new)) }
{
    let mut page = Vec::new(alloc);
    let taken = take_in(alloc, machine, files, body, &mut page, out);
    if let Err(Halt::Device(Stop::Write)) = taken {
        return Err(Halt::Device(Stop::Write));
    }
    // Where it is broken off otherwise too, so that the lines of all items before stand whole.
    match write_page(&mut page, out) {
        Ok(()) => taken,
        Err(halt) => Err(halt),
    }
}

// Takes the items of the body in and puts their lines on the page, and says how many games were added and how many items refused.
fn take_in<F: Files, B: Source, K: Sink>(
    alloc: Global,
    machine: &mut Machine,
    files: &mut F,
    body: &mut B,
    page: &mut Vec<u8>,
    out: &mut K,
) -> Result<(u64, u64), Halt>
    requires sound { Sound machine.old (F.seen files.old) }
    ensures takes { (s : State) (text : List ℕ) → Stands machine.old (F.seen files.old) s → B.left body.old ≡ Some text → TakesIn machine.new (F.seen files.new) s (items_of text) (adds (K.taken out.old) page.old.items) (adds (K.taken out.new) page.new.items) result }
    ensures sound { OnOk result (Sound machine.new (F.seen files.new)) }
    ensures carries { (s : State) → Stands machine.old (F.seen files.old) s → StillCarry (F.seen files.new) s None }
    ensures choices { (F.seen files.new).choices ≡ (F.seen files.old).choices }
    ensures none_asked { F.asked files.new ≡ F.asked files.old }
    ensures same { B.origin body.new ≡ B.origin body.old }
    ensures none_lost { NoneLost (K.taken out.old) (K.taken out.new) }
    ensures causes { Causes WhyHalt result (counts (F.faults files.old) (B.faults body.old) (K.faults out.old)) (counts (F.faults files.new) (B.faults body.new) (K.faults out.new)) }
{
    let mut reader = Reader::new(alloc)?;
    let mut added = 0u64;
    for taken in 0..u64::MAX {
        match take_next(
            alloc,
            machine,
            files,
            body,
            page,
            out,
            &mut reader,
            taken + 1,
        ) {
            Ok(Some(was_added)) => added += u64::from(was_added),
            Ok(None) => return Ok((added, taken - added)),
            Err(halt) => return Err(halt),
        }
    }
    Err(Halt::Device(Stop::Memory))
}

// Takes the next item of the body in, which has this number, and puts its line on the page. Answers whether its game
// was added, or `None` if there is no more item.
fn take_next<F: Files, B: Source, K: Sink>(
    alloc: Global,
    machine: &mut Machine,
    files: &mut F,
    body: &mut B,
    page: &mut Vec<u8>,
    out: &mut K,
    reader: &mut Reader,
    number: u64,
) -> Result<Option<bool>, Halt>
    requires from_one { 0 < number }
    requires free { reader.old.stuck ≡ None }
    requires sound { Sound machine.old (F.seen files.old) }
    ensures took { (s : State) (text : List ℕ) (start : Option (List ℕ)) (added refused : ℕ) → TookIn machine.old (F.seen files.old) s text (told reader.old (B.left body.old)) start (adds (K.taken out.old) page.old.items) added refused → added + refused + 1 ≡ number → TookNext machine.new (F.seen files.new) s text (told reader.new (B.left body.new)) start (adds (K.taken out.new) page.new.items) added refused result }
    ensures stays { (s : State) → Stands machine.old (F.seen files.old) s → OnOk result (StandsLater machine.new (F.seen files.new) s) }
    ensures sound { OnOk result (Sound machine.new (F.seen files.new)) }
    ensures free { OnOk result (reader.new.stuck ≡ None) }
    ensures carries { (s : State) → Stands machine.old (F.seen files.old) s → StillCarry (F.seen files.new) s None }
    ensures choices { (F.seen files.new).choices ≡ (F.seen files.old).choices }
    ensures none_asked { F.asked files.new ≡ F.asked files.old }
    ensures same { B.origin body.new ≡ B.origin body.old }
    ensures none_lost { NoneLost (K.taken out.old) (K.taken out.new) }
    ensures causes { Causes WhyHalt result (counts (F.faults files.old) (B.faults body.old) (K.faults out.old)) (counts (F.faults files.new) (B.faults body.new) (K.faults out.new)) }
{
    let item = match next_behind(alloc, reader, body, page, out) {
        Ok(Some(item)) => item,
        Ok(None) => return Ok(None),
        Err(halt) => return Err(halt),
    };
    match take_item(alloc, machine, files, page, out, number, &item) {
        Ok(added) => Ok(Some(added)),
        Err(halt) => Err(halt),
    }
}

// How a command ends whose body is not read.
pub(crate) fn unread(error: PgnError) -> Halt
    ensures halt { result ≡ unread_halt error }
{
    match error {
        PgnError::Failed => Halt::Device(Stop::Read),
        PgnError::Memory => Halt::Device(Stop::Memory),
    }
}

// Takes an item in and puts its line on the page, and says whether its game was added.
fn take_item<F: Files, K: Sink>(
    alloc: Global,
    machine: &mut Machine,
    files: &mut F,
    page: &mut Vec<u8>,
    out: &mut K,
    number: u64,
    item: &Item,
) -> Result<bool, Halt>
    requires fit { IsFit item.now }
    requires sound { Sound machine.old (F.seen files.old) }
    ensures serves { (i : Intake) → Stands machine.old (F.seen files.old) i.state → next_number i ≡ number → Serves intake (λ later. Stands machine.new (F.seen files.new) later.state) (λ _ _ e _ _ _. IsFault e) i item.now (adds (K.taken out.old) page.old.items) (adds (K.taken out.new) page.new.items) result }
    ensures counted { (i : Intake) → Stands machine.old (F.seen files.old) i.state → IfOk result (λ added. Counted added i (item_after i item.now)) }
    ensures unsaid { IfErr result (λ e. Unsaid e (adds (K.taken out.old) page.old.items) (adds (K.taken out.new) page.new.items)) }
    ensures kept { IfErr result (λ e. e ≡ halt.Device stop.Files → machine.new ≡ machine.old) }
    ensures sound { OnOk result (Sound machine.new (F.seen files.new)) }
    ensures carries { (s : State) → Stands machine.old (F.seen files.old) s → StillCarry (F.seen files.new) s None }
    ensures choices { (F.seen files.new).choices ≡ (F.seen files.old).choices }
    ensures none_asked { F.asked files.new ≡ F.asked files.old }
    ensures none_lost { NoneLost (K.taken out.old) (K.taken out.new) }
    ensures causes { Causes WhyHalt result (counts (F.faults files.old) 0 (K.faults out.old)) (counts (F.faults files.new) 0 (K.faults out.new)) }
{
    match add_item(alloc, machine, files, number, item) {
        Ok(taken) => put_item(page, out, taken.0.as_slice(), taken.1),
        Err(halt) => Err(halt),
    }
}

// Puts the line of an item on the page, which is written if that fills it, and says whether its game was added.
fn put_item<K: Sink>(
    page: &mut Vec<u8>,
    out: &mut K,
    line: &[u8],
    added: bool,
) -> Result<bool, Halt>
    ensures put { OnOk result (adds (K.taken out.new) page.new.items ≡ adds (adds (K.taken out.old) page.old.items) line.now) }
    ensures halted { Halted [] line.now (adds (K.taken out.old) page.old.items) (adds (K.taken out.new) page.new.items) }
    ensures added { IfOk result (λ told. told ≡ added) }
    ensures output { IfErr result IsOutput }
    ensures none_lost { NoneLost (K.taken out.old) (K.taken out.new) }
    ensures causes { Causes WhyHalt result (counts 0 0 (K.faults out.old)) (counts 0 0 (K.faults out.new)) }
{
    page.extend_from_slice(line)?;
    match write_full(page, out) {
        Ok(()) => Ok(added),
        Err(halt) => Err(halt),
    }
}

// Takes an item in, and gives its line, and whether its game was added.
fn add_item<F: Files>(
    alloc: Global,
    machine: &mut Machine,
    files: &mut F,
    number: u64,
    item: &Item,
) -> Result<(Vec<u8>, bool), Halt>
    requires fit { IsFit item.now }
    requires sound { Sound machine.old (F.seen files.old) }
    ensures line { (i : Intake) → Stands machine.old (F.seen files.old) i.state → next_number i ≡ number → IfOk result (λ given. given.0.items ≡ item_text i item.now) }
    ensures stands { (i : Intake) → Stands machine.old (F.seen files.old) i.state → OnOk result (Stands machine.new (F.seen files.new) (item_after i item.now).state) }
    ensures counted { (i : Intake) → Stands machine.old (F.seen files.old) i.state → IfOk result (λ given. Counted given.1 i (item_after i item.now)) }
    ensures devices { IfErr result IsDevice }
    ensures kept { IfErr result (λ e. e ≡ halt.Device stop.Files → machine.new ≡ machine.old) }
    ensures sound { OnOk result (Sound machine.new (F.seen files.new)) }
    ensures carries { (s : State) → Stands machine.old (F.seen files.old) s → StillCarry (F.seen files.new) s None }
    ensures choices { (F.seen files.new).choices ≡ (F.seen files.old).choices }
    ensures none_asked { F.asked files.new ≡ F.asked files.old }
    ensures causes { Causes WhyHalt result (counts (F.faults files.old) 0 0) (counts (F.faults files.new) 0 0) }
{
    match item {
        Item::Good(head, game) => add_game(alloc, machine, files, number, head, game),
        Item::Bad(fault) => {
            let line = faulty_line(alloc, number, *fault)?;
            Ok((line, false))
        }
    }
}

// Adds a game, and gives its line, and whether it was added.
fn add_game<F: Files>(
    alloc: Global,
    machine: &mut Machine,
    files: &mut F,
    number: u64,
    head: &Head,
    game: &Game,
) -> Result<(Vec<u8>, bool), Halt>
    requires fit { IsFitGame head.now game.now }
    requires sound { Sound machine.old (F.seen files.old) }
    ensures line { (i : Intake) → Stands machine.old (F.seen files.old) i.state → next_number i ≡ number → IfOk result (λ given. given.0.items ≡ item_text i (item.Good head.now game.now)) }
    ensures stands { (i : Intake) → Stands machine.old (F.seen files.old) i.state → OnOk result (Stands machine.new (F.seen files.new) (item_after i (item.Good head.now game.now)).state) }
    ensures counted { (i : Intake) → Stands machine.old (F.seen files.old) i.state → IfOk result (λ given. Counted given.1 i (item_after i (item.Good head.now game.now))) }
    ensures devices { IfErr result IsDevice }
    ensures kept { IfErr result (λ e. e ≡ halt.Device stop.Files → machine.new ≡ machine.old) }
    ensures sound { OnOk result (Sound machine.new (F.seen files.new)) }
    ensures carries { (s : State) → Stands machine.old (F.seen files.old) s → StillCarry (F.seen files.new) s None }
    ensures choices { (F.seen files.new).choices ≡ (F.seen files.old).choices }
    ensures none_asked { F.asked files.new ≡ F.asked files.old }
    ensures causes { Causes WhyHalt result (counts (F.faults files.old) 0 0) (counts (F.faults files.new) 0 0) }
{
    match machine.add(alloc, files, head, game) {
        Ok(Ok(i)) => Ok((game_line(alloc, b"added ", u64::from(i))?, true)),
        Ok(Err(why)) => Ok((not_added_line(alloc, number, why)?, false)),
        Err(halt) => Err(halt),
    }
}
