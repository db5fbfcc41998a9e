//! The lines that commands write.
ghost use Rattle.std.specs.Prelude.{◌≡◌, IfOk, codes};
ghost use Rattle.shell_state.specs.Lines.{error_line, game_line, no_game_line, line_of, fault_line, san_words};

use chess_text::SanFault;
use script_text::ScriptFault;
use std::alloc::{AllocError, Global};

/// A line of these words.
pub fn line_of(alloc: Global, words: &[u8]) -> Result<Vec<u8>, AllocError>
    ensures { IfOk result (λ line. line.items ≡ line_of words.now) }
{
    let mut line = Vec::from_slice(alloc, words)?;
    line.push(b'\n')?;
    Ok(line)
}

/// An error line of these words.
pub fn error_line(alloc: Global, words: &[u8]) -> Result<Vec<u8>, AllocError>
    ensures { IfOk result (λ line. line.items ≡ error_line words.now) }
{
    let mut line = Vec::from_slice(alloc, b"error: ")?;
    line.extend_from_slice(words)?;
    line.push(b'\n')?;
    Ok(line)
}

/// The error line of a line that is no command.
pub fn fault_line(alloc: Global, fault: ScriptFault) -> Result<Vec<u8>, AllocError>
    ensures { IfOk result (λ line. line.items ≡ fault_line fault) }
{
    match fault {
        ScriptFault::TooLong => line_of(alloc, b"error: line too long"),
        ScriptFault::Unknown => line_of(alloc, b"error: unknown command"),
        ScriptFault::Argument(n) => argument_line(alloc, n),
        ScriptFault::Extra => line_of(alloc, b"error: extra argument"),
    }
}

// The error line of a word that is not of its form.
fn argument_line(alloc: Global, n: u32) -> Result<Vec<u8>, AllocError>
    ensures { IfOk result (λ line. line.items ≡ game_line (codes "error: argument ") n) }
{
    let line = format!(in alloc; "error: argument {n}\n")?;
    Ok(line.into_bytes())
}

/// The error line of a game that is not there.
pub fn no_game_line(alloc: Global, game: u64) -> Result<Vec<u8>, AllocError>
    ensures { IfOk result (λ line. line.items ≡ no_game_line game) }
{
    let line = format!(in alloc; "error: no game {game}\n")?;
    Ok(line.into_bytes())
}

/// A line of words and the number of a game.
pub fn game_line(alloc: Global, words: &[u8], game: u64) -> Result<Vec<u8>, AllocError>
    ensures { IfOk result (λ line. line.items ≡ game_line words.now game) }
{
    let mut line = Vec::from_slice(alloc, words)?;
    let digits = format!(in alloc; "{game}\n")?;
    line.extend_from_slice(digits.as_bytes())?;
    Ok(line)
}

/// What is wrong with the text of a move.
pub fn san_words(fault: SanFault) -> &'static str
    ensures words { result.now ≡ san_words fault }
{
    match fault {
        SanFault::Shape => "bad move text",
        SanFault::NoMove => "no legal move",
        SanFault::Two => "ambiguous move",
    }
}
