//! What the commands of one client may change of what another one sees.
ghost use Rattle.std.specs.Prelude.{◌≡◌};
ghost use Rattle.desk_commands.specs.Kinds.{command_kind, is_seen, order_kind};

use script_lines::Order;
use script_text::Command;

/// What a command changes beside the seat and the slots of its client.
#[derive(Clone, Copy, Debug, PartialEq, Eq)]
pub enum Kind {
    /// Nothing.
    Private,
    /// What is shared, or who may speak.
    Public,
    /// Games come behind those that are there.
    Adds,
    /// The entries of games move in each seat.
    Moves,
}

// The kind of a line. A faulty one is private.
pub(crate) fn order_kind(order: &Order) -> Kind
    ensures kind { result ≡ order_kind order.now }
{
    match order {
        Ok(command) => command_kind(command),
        Err(_) => Kind::Private,
    }
}

// Whether other clients may see what a line does in the trees that they watch.
pub(crate) fn is_seen(order: &Order) -> bool
    ensures seen { result ≡ is_seen order.now }
{
    matches!(
        order,
        Ok(Command::Replace(..) | Command::Tag(..) | Command::Compact)
    )
}

// The kind of a command.
fn command_kind(command: &Command) -> Kind
    ensures kind { result ≡ command_kind command.now }
{
    match command {
        Command::Import(_) | Command::Demo(..) => Kind::Adds,
        Command::Replace(..) | Command::Compact => Kind::Moves,
        Command::Eco(_)
        | Command::Tag(..)
        | Command::Delete(_)
        | Command::Undelete(_)
        | Command::Mark(..)
        | Command::Twins(_)
        | Command::Index(_)
        | Command::Save
        | Command::Quit => Kind::Public,
        _ => Kind::Private,
    }
}
