//! What a line of a script says, and who says it.
ghost use Rattle.std.specs.Prelude.{◌≡◌, ◌≤◌, ◌<◌, ◌-◌, nat_le, nat_lt, ◌&&◌, if◌then◌else◌, length, Some, None, IfOk, IfErr, IfSome, IsSome, option_map};
ghost use Rattle.script_text.specs.Reading.{reading};
ghost use Rattle.script_text.specs.Sound.{IsSoundLine};
ghost use Rattle.script_text.specs.Tasks.{body_word};
ghost use Rattle.script_lines.specs.Clients.{is_quit, line_of, named, unclaimed};

use crate::reader::ReadError;
use cell_core::Text;
use script_text::{Command, CommandError, ScriptFault, read_command};
use std::alloc::Global;

/// The command that a line says, or its first fault.
pub type Order = Result<Command, ScriptFault>;

/// A line of a script: the client who says it, from 0 to 3, if one does, and what it says. Without a client a line that has no word or is a
/// remark is `Nothing`, and any other is unknown.
#[derive(Drop)]
pub struct Line {
    pub client: Option<u8>,
    pub order: Order,
}

/// What a line says, which stands without its line feed. If lines name their clients, it begins with one.
#[tactic(auto, unfolding(crate::specs::Clients::line_of))]
pub(crate) fn read_line(alloc: Global, tagged: bool, line: &[u8]) -> Result<Line, ReadError>
    ensures line { IfOk result (λ said. said ≡ line_of tagged line.now) }
    ensures bounds { IfOk result (λ said. IsSoundLine said.order) }
    ensures client { IfOk result (λ said. IfSome said.client (λ client. client < 4)) }
    ensures memory { IfErr result (λ error. error ≡ ReadError.Memory) }
{
    if !tagged {
        return Ok(Line {
            client: Some(0),
            order: read_order(alloc, line)?,
        });
    }
    match named(line) {
        Some(client) => Ok(Line {
            client: Some(client),
            order: read_order(alloc, line.split_at(3).1)?,
        }),
        None => Ok(Line {
            client: None,
            order: unclaimed(read_order(alloc, line)?),
        }),
    }
}

// The command that a line says, or its first fault.
fn read_order(alloc: Global, line: &[u8]) -> Result<Order, ReadError>
    ensures order { IfOk result (λ order. order ≡ reading line.now) }
    ensures bounds { IfOk result IsSoundLine }
    ensures memory { IfErr result (λ error. error ≡ ReadError.Memory) }
{
    match read_command(alloc, line) {
        Ok(command) => Ok(Ok(command)),
        Err(CommandError::Bad(fault)) => Ok(Err(fault)),
        Err(CommandError::Memory) => Err(ReadError::Memory),
    }
}

// What a line says that names no client, by how it reads alone.
fn unclaimed(order: Order) -> Order
    ensures unclaimed { result ≡ unclaimed order }
{
    match order {
        Ok(Command::Nothing) => Ok(Command::Nothing),
        _ => Err(ScriptFault::Unknown),
    }
}

// The client that the first three bytes of a line name.
#[tactic(auto, unfolding(crate::specs::Clients::named))]
fn named(line: &[u8]) -> Option<u8>
    ensures named { result ≡ named line.now }
    ensures few { IfSome result (λ client. client < 4) }
    ensures long { IsSome result → 3 ≤ length line.now }
{
    match line {
        [b'@', digit, b' ', ..] => client_of(*digit),
        _ => None,
    }
}

// The client whose digit this byte is.
fn client_of(digit: u8) -> Option<u8>
    ensures client { result ≡ (if nat_le 48 digit && nat_lt digit 52 then Some (digit - 48) else None) }
    ensures few { IfSome result (λ client. client < 4) }
{
    if digit < b'0' || digit > b'3' {
        return None;
    }
    Some(digit - b'0')
}

/// The word that ends the body of a line's command, if it has one.
pub fn body_word(order: &Order) -> Option<&Text>
    ensures word { option_map (λ word. word.now) result ≡ body_word order.now }
{
    match order {
        Ok(Command::Import(word)) => Some(word),
        Ok(Command::Replace(_, word)) => Some(word),
        Ok(Command::Eco(word)) => Some(word),
        _ => None,
    }
}

/// Whether a line is `quit`.
pub fn is_quit(order: &Order) -> bool
    ensures quit { result ≡ is_quit order.now }
{
    match order {
        Ok(Command::Quit) => true,
        _ => false,
    }
}
