//! How the commands part by what is shown of them in the views of slots.
ghost use Rattle.std.specs.Prelude.{◌≡◌};
ghost use Rattle.shell_commands.specs.Parts.{part_of};

use script_text::Command;

// What a command changes of that which the views of slots show.
#[derive(Clone, Copy)]
pub(crate) enum Part {
    /// What a slot shows, or it writes what one shows.
    Slots,
    /// The filter, without the files: its text is one line.
    Lines,
    /// The filter, by games that it reads.
    Searches,
    /// Games, with the files: its text ends with one line.
    Edits,
    /// It makes games, and adds them.
    Games,
    /// A mark of a game or a kept filter, which no view shows: its text is one line.
    Marks,
    /// Nothing that a view shows, without the files: its text is made before it is written.
    Answers,
    /// Nothing that a view shows: it writes while it reads or saves.
    Texts,
}

// The part of a command.
pub(crate) fn part_of(command: &Command) -> Part
    ensures part { result ≡ part_of command.now }
{
    match command {
        Command::Watch(..) | Command::View(_) | Command::Unwatch(_) => Part::Slots,
        Command::SearchHeader(..)
        | Command::Reset
        | Command::Clear
        | Command::Negate
        | Command::Restrict(..)
        | Command::Take(_)
        | Command::And(_)
        | Command::Or(_) => Part::Lines,
        Command::Find(..) | Command::SearchPosition(..) | Command::SearchMaterial(..) => {
            Part::Searches
        }
        Command::Import(_) | Command::Replace(..) | Command::Tag(..) | Command::Compact => {
            Part::Edits
        }
        Command::Demo(..) => Part::Games,
        Command::Drop(_) | Command::Delete(_) | Command::Undelete(_) | Command::Mark(..) => {
            Part::Marks
        }
        Command::Nothing | Command::Keep(_) | Command::Cross(_) | Command::Info | Command::Quit =>
            Part::Answers,
        _ => Part::Texts,
    }
}
