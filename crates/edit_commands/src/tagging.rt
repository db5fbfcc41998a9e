//! The command that sets a tag of a game.
ghost use Rattle.std.specs.Prelude.{◌≡◌, ◌<◌, length, IfOk, IfErr, OnOk};
ghost use Rattle.command_runs.specs.Counts.{Causes, counts};
ghost use Rattle.game_tree.specs.TagEdit.{IsEdit};
ghost use Rattle.edit_commands.specs.Editing.{DidTag, tag_after, tag_text, tag_work};
ghost use Rattle.shell_state.specs.Carrying.{StillCarry};
ghost use Rattle.shell_state.specs.Ends.{IsDevice};
ghost use Rattle.shell_state.specs.Stands.{Stands, Sound, WhyHalt, Asks};
ghost use Rattle.shell_state.specs.State.{State};

use crate::retagging::retagged;
use base_files::Files;
use game_tree::TagEdit;
use shell_state::{Halt, Machine, game_line, no_game_line, refused_line};
use std::alloc::Global;

/// The command `tag G NAME VALUE`: sets a tag of the game, and gives its line, which is not written yet.
pub fn tag_line<F: Files>(
    alloc: Global,
    machine: &mut Machine,
    files: &mut F,
    number: u64,
    edit: &TagEdit,
) -> Result<Vec<u8>, Halt>
    requires edit { IsEdit edit.now }
    requires sound { Sound machine.old (F.seen files.old) }
    ensures line { (s : State) → Stands machine.old (F.seen files.old) s → IfOk result (λ line. line.items ≡ tag_text s number edit.now) }
    ensures stands { (s : State) → Stands machine.old (F.seen files.old) s → OnOk result (Stands machine.new (F.seen files.new) (tag_after s number edit.now)) }
    ensures devices { (s : State) → Stands machine.old (F.seen files.old) s → IfErr result IsDevice }
    ensures sound { OnOk result (Sound machine.new (F.seen files.new)) }
    ensures carries { (s : State) → Stands machine.old (F.seen files.old) s → StillCarry (F.seen files.new) s None }
    ensures choices { (F.seen files.new).choices ≡ (F.seen files.old).choices }
    ensures tagged { IfOk result (λ line. DidTag number edit.now machine.old.kept machine.new.kept (F.seen files.old) (F.seen files.new) line.items) }
    ensures asks { Asks machine.old (tag_work number edit.now) (F.asked files.old) (F.asked files.new) }
    ensures causes { Causes WhyHalt result (counts (F.faults files.old) 0 0) (counts (F.faults files.new) 0 0) }
{
    match machine.game_at(number) {
        Some(i) => set_tag(alloc, machine, files, i, edit),
        None => Ok(no_game_line(alloc, number)?),
    }
}

// The same of a game that is there. The slots follow.
fn set_tag<F: Files>(
    alloc: Global,
    machine: &mut Machine,
    files: &mut F,
    i: u32,
    edit: &TagEdit,
) -> Result<Vec<u8>, Halt>
    requires there { i < length machine.old.kept.entries }
    requires edit { IsEdit edit.now }
    requires sound { Sound machine.old (F.seen files.old) }
    ensures line { (s : State) → Stands machine.old (F.seen files.old) s → IfOk result (λ line. line.items ≡ tag_text s i edit.now) }
    ensures stands { (s : State) → Stands machine.old (F.seen files.old) s → OnOk result (Stands machine.new (F.seen files.new) (tag_after s i edit.now)) }
    ensures devices { (s : State) → Stands machine.old (F.seen files.old) s → IfErr result IsDevice }
    ensures sound { OnOk result (Sound machine.new (F.seen files.new)) }
    ensures carries { (s : State) → Stands machine.old (F.seen files.old) s → StillCarry (F.seen files.new) s None }
    ensures choices { (F.seen files.new).choices ≡ (F.seen files.old).choices }
    ensures tagged { IfOk result (λ line. DidTag i edit.now machine.old.kept machine.new.kept (F.seen files.old) (F.seen files.new) line.items) }
    ensures asks { Asks machine.old (tag_work i edit.now) (F.asked files.old) (F.asked files.new) }
    ensures causes { Causes WhyHalt result (counts (F.faults files.old) 0 0) (counts (F.faults files.new) 0 0) }
{
    let block = machine.block.as_mut_slice();
    let edited = machine.base.set_tag(alloc, files, block, i, edit);
    machine.keeps_sound();
    match edited {
        Ok(()) => {
            let hits = retagged(&machine.slots, &machine.base, i);
            machine.slots.set_game(i, &hits)?;
            Ok(game_line(alloc, b"tagged ", u64::from(i))?)
        }
        Err(error) => refused_line(alloc, error),
    }
}
