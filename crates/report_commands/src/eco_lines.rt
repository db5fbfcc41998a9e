//! The lines of the command that gives games their opening codes.
ghost use Rattle.std.specs.Fmt.{decimal};
ghost use Rattle.std.specs.Prelude.{◌≡◌, [], ◌∷◌, ◌++◌, codes, string_bytes, IfOk};
ghost use Rattle.report_commands.specs.Classifying.{classified_line, eco_words, no_table_line};

use eco_class::{EcoFault, EcoWhat};
use shell_state::san_words;
use std::alloc::{AllocError, Global};

// `classified C of N`.
pub(crate) fn classified_line(alloc: Global, count: u64, games: u64) -> Result<Vec<u8>, AllocError>
    ensures line { IfOk result (λ line. line.items ≡ classified_line count games) }
{
    let behind = of_games(alloc, games)?;
    let front = format!(in alloc; "classified {count}")?;
    let mut line = front.into_bytes();
    line.extend_from_slice(behind.as_slice())?;
    Ok(line)
}

// The end of that line.
fn of_games(alloc: Global, games: u64) -> Result<Vec<u8>, AllocError>
    ensures words { IfOk result (λ words. words.items ≡ codes " of " ++ decimal games ++ 10 ∷ []) }
{
    let words = format!(in alloc; " of {games}\n")?;
    Ok(words.into_bytes())
}

// The line of a body that is no table.
pub(crate) fn no_table_line(alloc: Global, fault: EcoFault) -> Result<Vec<u8>, AllocError>
    ensures line { IfOk result (λ line. line.items ≡ no_table_line fault) }
{
    let words = fault_words(alloc, fault)?;
    let mut line = words.into_bytes();
    line.push(b'\n')?;
    Ok(line)
}

// Which line has a fault, and which.
fn fault_words(alloc: Global, fault: EcoFault) -> Result<String, AllocError>
    ensures words { IfOk result (λ words. string_bytes words ≡ codes "error: eco line " ++ decimal fault.line ++ codes ": " ++ eco_words fault.what) }
{
    let line = fault.line;
    let mut words = format!(in alloc; "error: eco line {line}: ")?;
    words.push_str(eco_words(fault.what))?;
    Ok(words)
}

// What is wrong with a line of a table.
fn eco_words(what: EcoWhat) -> &'static str
    ensures words { result.now ≡ eco_words what }
{
    match what {
        EcoWhat::Lines => "too many lines",
        EcoWhat::Code => "bad code",
        EcoWhat::San(fault) => san_words(fault),
        EcoWhat::Twice(_) => "repeated position",
    }
}
