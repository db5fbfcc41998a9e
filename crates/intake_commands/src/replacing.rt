//! The command that puts the game of a body in the place of another one.
ghost use Rattle.std.specs.Prelude.{◌≡◌, ◌<◌, ℕ, List, [], ◌∷◌, length, None, Some, IfOk, IfErr, IfSome, OnOk};
ghost use Rattle.command_runs.specs.Counts.{Causes, counts};
ghost use Rattle.pgn_read.specs.Fit.{IsFitGame};
ghost use Rattle.pgn_read.specs.Items.{AreItems, items_of};
ghost use Rattle.pgn_read.specs.Readers.{told};
ghost use Rattle.pgn_read.specs.Text.{At};
ghost use Rattle.pgn_read.specs.declared.item.Item.{Item as PlainItem};
ghost use Rattle.pgn_read.specs.declared.item.Item.TheVariants as item;
ghost use Rattle.intake_commands.specs.Importing.{line_with, state_with, the_new, the_one};
ghost use Rattle.intake_commands.specs.Intakes.{IsFitOnly, IsOnly, IsRest};
ghost use Rattle.shell_state.specs.Carrying.{StillCarry};
ghost use Rattle.shell_state.specs.Ends.{IsDevice, IsBodyFault};
ghost use Rattle.shell_state.specs.Stands.{Stands, Sound, WhyHalt};
ghost use Rattle.shell_state.specs.State.{State};

use crate::importing::unread;
use crate::item_lines::faulty_line;
use base_files::{Files, Source, Stop};
use filter_seat::put_at_start;
use game_tree::{Game, Head};
use pgn_read::{GameFault, Item, Reader};
use shell_state::{
    Halt, Machine, game_line, hits_of, line_of, no_game_line, refused_line, replace_in_index,
};
use std::alloc::Global;

// What a body has that is to have one game.
#[derive(Drop)]
enum Only {
    Game(Head, Game),
    // No game, or more than one.
    Other,
    // The first item of this number is no game.
    Faulty(u64, GameFault),
}

/// The command `replace G <<WORD`: puts the one game of the body in the place of the game, and gives its line, which is
/// not written yet.
pub fn replace_line<F: Files, B: Source>(
    alloc: Global,
    machine: &mut Machine,
    files: &mut F,
    body: &mut B,
    number: u64,
) -> Result<Vec<u8>, Halt>
    requires sound { Sound machine.old (F.seen files.old) }
    ensures line { (s : State) (text : List ℕ) → Stands machine.old (F.seen files.old) s → B.left body.old ≡ Some text → IfOk result (λ line. line.items ≡ line_with number (the_new s number text)) }
    ensures stands { (s : State) (text : List ℕ) → Stands machine.old (F.seen files.old) s → B.left body.old ≡ Some text → OnOk result (Stands machine.new (F.seen files.new) (state_with s number (the_new s number text))) }
    ensures devices { IfErr result IsBodyFault }
    ensures sound { OnOk result (Sound machine.new (F.seen files.new)) }
    ensures carries { (s : State) → Stands machine.old (F.seen files.old) s → StillCarry (F.seen files.new) s None }
    ensures choices { (F.seen files.new).choices ≡ (F.seen files.old).choices }
    ensures none_asked { F.asked files.new ≡ F.asked files.old }
    ensures same { B.origin body.new ≡ B.origin body.old }
    ensures causes { Causes WhyHalt result (counts (F.faults files.old) (B.faults body.old) 0) (counts (F.faults files.new) (B.faults body.new) 0) }
{
    match machine.game_at(number) {
        Some(i) => replace_there(alloc, machine, files, body, i),
        None => Ok(no_game_line(alloc, number)?),
    }
}

// Puts the game of the body in the place of game `i`, and gives the line for it.
fn replace_there<F: Files, B: Source>(
    alloc: Global,
    machine: &mut Machine,
    files: &mut F,
    body: &mut B,
    i: u32,
) -> Result<Vec<u8>, Halt>
    requires there { i < length machine.old.kept.entries }
    requires sound { Sound machine.old (F.seen files.old) }
    ensures line { (s : State) (text : List ℕ) → Stands machine.old (F.seen files.old) s → B.left body.old ≡ Some text → IfOk result (λ line. line.items ≡ line_with i (the_new s i text)) }
    ensures stands { (s : State) (text : List ℕ) → Stands machine.old (F.seen files.old) s → B.left body.old ≡ Some text → OnOk result (Stands machine.new (F.seen files.new) (state_with s i (the_new s i text))) }
    ensures devices { IfErr result IsBodyFault }
    ensures sound { OnOk result (Sound machine.new (F.seen files.new)) }
    ensures carries { (s : State) → Stands machine.old (F.seen files.old) s → StillCarry (F.seen files.new) s None }
    ensures choices { (F.seen files.new).choices ≡ (F.seen files.old).choices }
    ensures none_asked { F.asked files.new ≡ F.asked files.old }
    ensures same { B.origin body.new ≡ B.origin body.old }
    ensures causes { Causes WhyHalt result (counts (F.faults files.old) (B.faults body.old) 0) (counts (F.faults files.new) (B.faults body.new) 0) }
{
    match read_only(alloc, body) {
        Ok(Only::Game(head, game)) => put_game(alloc, machine, files, i, &head, &game),
        Ok(Only::Other) => Ok(line_of(alloc, b"error: one game expected")?),
        Ok(Only::Faulty(number, fault)) => Ok(faulty_line(alloc, number, fault)?),
        Err(halt) => Err(halt),
    }
}

// Puts a game in the place of game `i`, and gives the line for it.
fn put_game<F: Files>(
    alloc: Global,
    machine: &mut Machine,
    files: &mut F,
    i: u32,
    head: &Head,
    game: &Game,
) -> Result<Vec<u8>, Halt>
    requires there { i < length machine.old.kept.entries }
    requires fit { IsFitGame head.now game.now }
    requires sound { Sound machine.old (F.seen files.old) }
    ensures line { (s : State) → Stands machine.old (F.seen files.old) s → IfOk result (λ line. line.items ≡ line_with i (the_one s.shared.base (item.Good head.now game.now ∷ []))) }
    ensures stands { (s : State) → Stands machine.old (F.seen files.old) s → OnOk result (Stands machine.new (F.seen files.new) (state_with s i (the_one s.shared.base (item.Good head.now game.now ∷ [])))) }
    ensures devices { IfErr result IsDevice }
    ensures sound { OnOk result (Sound machine.new (F.seen files.new)) }
    ensures carries { (s : State) → Stands machine.old (F.seen files.old) s → StillCarry (F.seen files.new) s None }
    ensures choices { (F.seen files.new).choices ≡ (F.seen files.old).choices }
    ensures none_asked { F.asked files.new ≡ F.asked files.old }
    ensures causes { Causes WhyHalt result (counts (F.faults files.old) 0 0) (counts (F.faults files.new) 0 0) }
{
    let replaced = machine.base.replace_game(alloc, files, i, head, game);
    machine.keeps_sound();
    match replaced {
        Ok(()) => {
            put_at_start(
                &mut machine.seat.filter,
                machine.seat.saved.as_mut_slice(),
                i,
            );
            replace_in_index(alloc, &mut machine.index, i, game)?;
            let hits = hits_of(&machine.slots, head, game);
            machine.slots.set_game(i, &hits)?;
            Ok(game_line(alloc, b"replaced ", u64::from(i))?)
        }
        Err(error) => refused_line(alloc, error),
    }
}

// Reads the items of a body that is to have one game.
fn read_only<B: Source>(alloc: Global, body: &mut B) -> Result<Only, Halt>
    ensures only { (text : List ℕ) → B.left body.old ≡ Some text → IfOk result (IsOnly (items_of text)) }
    ensures fit { IfOk result IsFitOnly }
    ensures devices { IfErr result IsBodyFault }
    ensures same { B.origin body.new ≡ B.origin body.old }
    ensures causes { Causes WhyHalt result (counts 0 (B.faults body.old) 0) (counts 0 (B.faults body.new) 0) }
{
    let mut reader = Reader::new(alloc)?;
    match reader.next(alloc, body) {
        Ok(Some(Item::Good(head, game))) => match read_behind(alloc, &mut reader, body) {
            Ok(None) => Ok(Only::Game(head, game)),
            Ok(Some(other)) => Ok(other),
            Err(halt) => Err(halt),
        },
        Ok(Some(Item::Bad(fault))) => Ok(Only::Faulty(1, fault)),
        Ok(None) => Ok(Only::Other),
        Err(error) => Err(unread(error)),
    }
}

// Reads the items behind the first one, if there are any, up to one that is no game.
fn read_behind<B: Source>(
    alloc: Global,
    reader: &mut Reader,
    body: &mut B,
) -> Result<Option<Only>, Halt>
    requires free { reader.old.stuck ≡ None }
    ensures rest { (at : At) → told reader.old (B.left body.old) ≡ Some at → IfOk result (λ given. (items : List PlainItem) → AreItems at items → IsRest items given) }
    ensures fit { IfOk result (λ given. IfSome given IsFitOnly) }
    ensures devices { IfErr result IsBodyFault }
    ensures same { B.origin body.new ≡ B.origin body.old }
    ensures causes { Causes WhyHalt result (counts 0 (B.faults body.old) 0) (counts 0 (B.faults body.new) 0) }
{
    let mut more = None;
    for number in 2..u64::MAX {
        match reader.next(alloc, body) {
            Ok(Some(Item::Good(_, _))) => more = Some(Only::Other),
            Ok(Some(Item::Bad(fault))) => return Ok(Some(Only::Faulty(number, fault))),
            Ok(None) => return Ok(more),
            Err(error) => return Err(unread(error)),
        }
    }
    Err(Halt::Device(Stop::Memory))
}
