//! The commands that mark games. Each answers the line that it writes.
ghost use Rattle.std.specs.Prelude.{◌<◌};
ghost use Rattle.edit_commands.specs.Editing.{undelete_work, delete_work, mark_work};
ghost use Rattle.shell_state.specs.Stands.{Fits, Quiet};

use base_core::NoGame;
use shell_state::{Line, Machine, number_line, unknown_game_line};

/// The command `delete G`: marks the game as deleted, and gives its line.
pub fn delete(machine: &mut Machine, number: u64) -> Line
    requires fits { Fits machine.old }
    ensures quiet { Quiet machine.old (delete_work number) machine.new result.items }
{
    let Some(i) = machine.game_at(number) else {
        return unknown_game_line(number);
    };
    if let Err(NoGame { .. }) = machine.base.delete(i) {
        return unknown_game_line(number);
    }
    machine.keeps_sound();
    number_line(b"deleted ", number)
}

/// The command `undelete G`: takes the mark of a deleted game away, and gives its line.
pub fn undelete(machine: &mut Machine, number: u64) -> Line
    requires fits { Fits machine.old }
    ensures quiet { Quiet machine.old (undelete_work number) machine.new result.items }
{
    let Some(i) = machine.game_at(number) else {
        return unknown_game_line(number);
    };
    if let Err(NoGame { .. }) = machine.base.undelete(i) {
        return unknown_game_line(number);
    }
    machine.keeps_sound();
    number_line(b"undeleted ", number)
}

/// The command `mark G LETTER on`, or the same with `off`: sets a mark of the game, or takes it away, and gives the line.
pub fn mark(machine: &mut Machine, number: u64, bit: u8, on: bool) -> Line
    requires fits { Fits machine.old }
    requires mark { bit < 18 }
    ensures quiet { Quiet machine.old (mark_work number bit on) machine.new result.items }
{
    let Some(i) = machine.game_at(number) else {
        return unknown_game_line(number);
    };
    if let Err(NoGame { .. }) = machine.base.mark(i, bit, on) {
        return unknown_game_line(number);
    }
    machine.keeps_sound();
    number_line(b"marked ", number)
}
