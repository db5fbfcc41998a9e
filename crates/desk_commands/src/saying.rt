//! What is said to a client.
ghost use Rattle.std.specs.Prelude.{◌≡◌, ◌<◌, [], codes, IfErr, IfOk, OnOk};
ghost use Rattle.base_files.specs.Told.{adds};
ghost use Rattle.command_runs.specs.Counts.{Causes, Why, counts};
ghost use Rattle.command_runs.specs.Endings.{Halted, NoneLost};
ghost use Rattle.shell_state.specs.Ends.{IsOutput};
ghost use Rattle.shell_state.specs.Stands.{WhyHalt};
ghost use Rattle.desk_commands.specs.Desk.{lines_to, unless_nothing};
ghost use Rattle.desk_commands.specs.Doing.{client_tag};

use base_files::{Sink, Stop};
use command_runs::{TagPage, write_tagged, write_text};
use script_lines::{Clients, Order};
use script_text::Command;
use shell_state::{Halt, error_line, write_line};
use std::alloc::{AllocError, Global};

// The tag of a client, which stands before each of its lines.
pub(crate) fn client_tag(client: u8) -> [u8; 3]
    requires client { client < 4 }
    ensures tag { result ≡ client_tag client }
{
    [b'@', b'0' + client, b' ']
}

// The error line of these words for a line that says something; nothing for another one.
fn unless_nothing(alloc: Global, words: &[u8], order: &Order) -> Result<Vec<u8>, AllocError>
    ensures line { IfOk result (λ line. line.items ≡ unless_nothing words.now order.now) }
{
    match order {
        Ok(Command::Nothing) => Ok(Vec::new(alloc)),
        _ => error_line(alloc, words),
    }
}

// Writes a text to a client, each line of it behind the client's tag if clients have tags.
fn write_to<K: Sink>(
    out: &mut K,
    page: &mut TagPage,
    clients: &Clients,
    client: u8,
    text: &[u8],
) -> Result<(), Stop>
    requires client { client < 4 }
    ensures written { OnOk result (K.taken out.new ≡ adds (K.taken out.old) (lines_to clients.now client text.now)) }
    ensures halted { Halted [] (lines_to clients.now client text.now) (K.taken out.old) (K.taken out.new) }
    ensures none_lost { NoneLost (K.taken out.old) (K.taken out.new) }
    ensures causes { Causes Why result (counts 0 0 (K.faults out.old)) (counts 0 0 (K.faults out.new)) }
{
    if clients.is_tagged() {
        write_tagged(out, page, &client_tag(client), text)
    } else {
        write_text(out, text)
    }
}

// Says that no client says a line, if it says something.
pub(crate) fn say_nobody<K: Sink>(alloc: Global, out: &mut K, order: &Order) -> Result<(), Halt>
    ensures written { OnOk result (K.taken out.new ≡ adds (K.taken out.old) (unless_nothing (codes "no client") order.now)) }
    ensures halted { Halted [] (unless_nothing (codes "no client") order.now) (K.taken out.old) (K.taken out.new) }
    ensures output { IfErr result IsOutput }
    ensures none_lost { NoneLost (K.taken out.old) (K.taken out.new) }
    ensures causes { Causes WhyHalt result (counts 0 0 (K.faults out.old)) (counts 0 0 (K.faults out.new)) }
{
    let text = unless_nothing(alloc, b"no client", order)?;
    write_line(out, text.as_slice())
}

// Tells a client that it has ended, unless its line says nothing.
pub(crate) fn say_late<K: Sink>(
    alloc: Global,
    out: &mut K,
    page: &mut TagPage,
    clients: &Clients,
    client: u8,
    order: &Order,
) -> Result<(), Halt>
    requires client { client < 4 }
    ensures written { OnOk result (K.taken out.new ≡ adds (K.taken out.old) (lines_to clients.now client (unless_nothing (codes "client ended") order.now))) }
    ensures halted { Halted [] (lines_to clients.now client (unless_nothing (codes "client ended") order.now)) (K.taken out.old) (K.taken out.new) }
    ensures output { IfErr result IsOutput }
    ensures none_lost { NoneLost (K.taken out.old) (K.taken out.new) }
    ensures causes { Causes WhyHalt result (counts 0 0 (K.faults out.old)) (counts 0 0 (K.faults out.new)) }
{
    let text = unless_nothing(alloc, b"client ended", order)?;
    match write_to(out, page, clients, client, text.as_slice()) {
        Ok(()) => Ok(()),
        Err(stop) => Err(Halt::Device(stop)),
    }
}
