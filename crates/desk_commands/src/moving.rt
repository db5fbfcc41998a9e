//! What a line moves in the filters over the games.
ghost use Rattle.std.specs.Prelude.{◌≡◌, nat_lt, if◌then◌else◌, ℕ, List, Ok, length, IfOk, IfSome};
ghost use Rattle.base_core.specs.Base.{Base as PlainBase};
ghost use Rattle.base_core.specs.Represents.{Kept, Represents};
ghost use Rattle.filter_seat.specs.Following.{Moving, told_by};
ghost use Rattle.desk_commands.specs.Desk.{moved_by};
ghost use Rattle.desk_commands.specs.Doing.{IsNoted};
ghost use Rattle.desk_commands.specs.Kinds.{command_kind, order_kind};
ghost use Rattle.desk_commands.specs.declared.kinds.Kind.TheVariants.{Moves};

use crate::kinds::{Kind, order_kind};
use compact_base::numbering_of;
use filter_seat::Moved;
use game_filter::Renumbering;
use script_lines::Order;
use script_text::Command;
use shell_state::Machine;
use std::alloc::{AllocError, Global};

// What is noted of the games of a base before a line is done.
#[derive(Drop)]
pub(crate) struct Before {
    pub games: u32,
    // Where its games file ends.
    pub end: u64,
    // How a compaction numbers the games anew, if the line asks for one.
    pub numbering: Option<Renumbering>,
}

impl Before {
    // What is noted of the base of this machine.
    pub fn of(alloc: Global, machine: &Machine, order: &Order) -> Result<Before, AllocError>
        ensures noted { IfOk result (IsNoted machine.now.kept order.now) }
    {
        let numbering = match order {
            Ok(Command::Compact) => Some(numbering_of(alloc, &machine.base)?),
            _ => None,
        };
        Ok(Before {
            games: machine.games(),
            end: machine.base.end(),
            numbering,
        })
    }

    // What the line has moved, this being the machine behind it.
    pub fn moved(&self, machine: &Machine, order: &Order) -> Moved<'_>
        ensures moved { (old : Kept) (games later : List ℕ) (before after : PlainBase) → IsNoted old order.now self.now → Represents old games before → Represents machine.now.kept later after → told_by result ≡ moved_by order.now before after }
    {
        match order_kind(order) {
            Kind::Adds => Moved::Added(machine.games()),
            Kind::Moves => self.moved_there(machine, order),
            Kind::Private | Kind::Public => Moved::Nothing,
        }
    }

    // The same of a line that moves entries.
    fn moved_there(&self, machine: &Machine, order: &Order) -> Moved<'_>
        requires moves { order_kind order.now ≡ Moves }
        ensures moved { (old : Kept) (games later : List ℕ) (before after : PlainBase) → IsNoted old order.now self.now → Represents old games before → Represents machine.now.kept later after → told_by result ≡ moved_by order.now before after }
    {
        match order {
            Ok(command) => self.moved_with(machine, command),
            Err(_) => unreachable!(),
        }
    }

    // The same of its command.
    fn moved_with(&self, machine: &Machine, command: &Command) -> Moved<'_>
        requires moves { command_kind command.now ≡ Moves }
        ensures moved { (old : Kept) (games later : List ℕ) (before after : PlainBase) → IsNoted old (Ok command.now) self.now → Represents old games before → Represents machine.now.kept later after → told_by result ≡ moved_by (Ok command.now) before after }
    {
        match command {
            Command::Replace(game, _) => self.started(machine, *game),
            Command::Compact => self.renumbered(machine),
            _ => unreachable!(),
        }
    }

    // A game starts anew if its new record has come.
    fn started(&self, machine: &Machine, game: u64) -> Moved<'_>
        ensures moved { told_by result ≡ (if nat_lt self.now.end machine.now.kept.end then Moving.started game else Moving.nothing) }
    {
        if self.end < machine.base.end() {
            Moved::Started(game)
        } else {
            Moved::Nothing
        }
    }

    // Games have new numbers if some have gone.
    fn renumbered(&self, machine: &Machine) -> Moved<'_>
        ensures moved { IfSome self.now.numbering (λ numbering. told_by result ≡ (if nat_lt (length machine.now.kept.entries) self.now.games then Moving.numbered numbering else Moving.nothing)) }
    {
        match &self.numbering {
            Some(numbering) => {
                if machine.games() < self.games {
                    Moved::Renumbered(numbering)
                } else {
                    Moved::Nothing
                }
            }
            None => Moved::Nothing,
        }
    }
}
