//! The lines of the items of a body.
ghost use Rattle.std.specs.Prelude.{◌≡◌, string_bytes, IfOk};
ghost use Rattle.intake_commands.specs.Importing.{fault_words, faulty_line, imported_line, item_line, what_words};
ghost use Rattle.intake_commands.specs.Intakes.{not_added_line};
ghost use Rattle.shell_state.specs.Lines.{san_words};

use pgn_read::{GameFault, GameWhat};
use shell_state::{Refusal, san_words};
use std::alloc::{AllocError, Global};

// A line that names an item of a body, the first being 1.
fn item_line(alloc: Global, number: u64, words: &[u8]) -> Result<Vec<u8>, AllocError>
    ensures line { IfOk result (λ line. line.items ≡ item_line number words.now) }
{
    let front = format!(in alloc; "error: game {number}")?;
    let mut line = front.into_bytes();
    line.extend_from_slice(words)?;
    line.push(b'\n')?;
    Ok(line)
}

// The line of an item that is no game.
pub(crate) fn faulty_line(
    alloc: Global,
    number: u64,
    fault: GameFault,
) -> Result<Vec<u8>, AllocError>
    ensures line { IfOk result (λ line. line.items ≡ faulty_line number fault) }
{
    let words = fault_words(alloc, fault)?;
    item_line(alloc, number, words.as_bytes())
}

// The line of an item whose game is not added.
pub(crate) fn not_added_line(
    alloc: Global,
    number: u64,
    why: Refusal,
) -> Result<Vec<u8>, AllocError>
    ensures line { IfOk result (λ line. line.items ≡ not_added_line number why) }
{
    let mut words = Vec::from_slice(alloc, b": ")?;
    words.extend_from_slice(why.words())?;
    item_line(alloc, number, words.as_slice())
}

// Where an item has a fault, and which.
fn fault_words(alloc: Global, fault: GameFault) -> Result<String, AllocError>
    ensures words { IfOk result (λ words. string_bytes words ≡ fault_words fault) }
{
    let line = fault.line;
    let column = fault.column;
    let mut words = format!(in alloc; " line {line} column {column}: ")?;
    words.push_str(what_words(fault.what))?;
    Ok(words)
}

// What is wrong with a token of a game's text.
fn what_words(what: GameWhat) -> &'static str
    ensures words { result.now ≡ what_words what }
{
    match what {
        GameWhat::Tag => "bad tag",
        GameWhat::TagTooLong => "tag too long",
        GameWhat::San(fault) => san_words(fault),
        GameWhat::Fen(_) => "bad position",
        GameWhat::Brace => "open comment",
        GameWhat::Paren => "unbalanced variation",
        GameWhat::Depth => "variation too deep",
        GameWhat::Token => "bad token",
        GameWhat::TooLong => "game too long",
    }
}

// How many games were added, and how many items refused.
pub(crate) fn imported_line(alloc: Global, added: u64, refused: u64) -> Result<Vec<u8>, AllocError>
    ensures line { IfOk result (λ line. line.items ≡ imported_line added refused) }
{
    let line = format!(in alloc; "imported {added} refused {refused}\n")?;
    Ok(line.into_bytes())
}
