//! Lines are read as commands.
ghost use Rattle.std.specs.Prelude.{◌≡◌, ◌≤◌, ◌<◌, length, IfOk, IfErr, Ok};
ghost use Rattle.cell_core.specs.Text.{IsZeroFree};
ghost use Rattle.script_text.specs.Words.{Word, words_of};
ghost use Rattle.script_text.specs.Arguments.{last_argument};
ghost use Rattle.script_text.specs.Forms.{vars};
ghost use Rattle.script_text.specs.Answer.{Answers};
ghost use Rattle.script_text.specs.Reading.{looks_aside, search, search_position, command_of, shorn, is_remark, reading};
ghost use Rattle.script_text.specs.Parts.{searching, filtering, saving_filters, showing, editing, ending};
ghost use Rattle.script_text.specs.Sound.{IsSound};
ghost use Rattle.script_text.specs.declared.fault.CommandError.TheVariants.{Memory};

use crate::arguments::{
    board_and_side, demo_arguments, mark_arguments, no_more, number_and_body, one_body, one_depth,
    one_index, one_name, one_number, one_text, slot_board_and_side, text_at, two_numbers,
};
use crate::command::Command;
use crate::fault::{CommandError, ScriptFault};
use crate::forms::{SearchKind, board, mode, op, search_kind, side, vars};
use crate::items::{head_items, mat_items};
use crate::tagging::tag;
use crate::words::{Word, cut};
use cell_core::Text;
use game_filter::Op;
use sig_index::PosQuery;
use std::alloc::Global;

// A text of these bytes.
fn text(alloc: Global, bytes: &[u8]) -> Result<Text, CommandError>
    requires { IsZeroFree bytes.now }
    ensures text { IfOk result (λ text. text ≡ bytes.now) }
    ensures memory { IfErr result (λ error. error ≡ Memory) }
{
    Ok(Text::from_zero_free(Vec::from_slice(alloc, bytes)?))
}

// The arguments of a search of positions.
#[tactic(auto, unfolding(crate::specs::Reading::search_position))]
fn search_position(operation: Op, words: &[Word]) -> Result<Command, ScriptFault>
    ensures exact { result ≡ search_position operation words.now }
    ensures bounds { IfOk result IsSound }
{
    let mode = mode(text_at(words, 3)?).ok_or(ScriptFault::Argument(3))?;
    let board = board(text_at(words, 4)?).ok_or(ScriptFault::Argument(4))?;
    let side = side(text_at(words, 5)?).ok_or(ScriptFault::Argument(5))?;
    let vars = looks_aside(words)?;
    Ok(Command::SearchPosition(
        operation,
        PosQuery {
            mode,
            board,
            side,
            vars,
        },
    ))
}

// Whether a search of positions looks in variations too: its last word, which may be left out.
fn looks_aside(words: &[Word]) -> Result<bool, ScriptFault>
    ensures exact { result ≡ looks_aside words.now }
{
    if words.len() <= 6 {
        Ok(false)
    } else {
        aside_word(words)
    }
}

// That word.
#[tactic(auto, unfolding(crate::specs::Arguments::last_argument))]
fn aside_word(words: &[Word]) -> Result<bool, ScriptFault>
    ensures exact { result ≡ last_argument 6 vars words.now }
{
    let aside = vars(text_at(words, 6)?).ok_or(ScriptFault::Argument(6))?;
    no_more(words, 6)?;
    Ok(aside)
}

// The arguments of a search.
#[tactic(auto, unfolding(crate::specs::Reading::search))]
fn search(alloc: Global, words: &[Word]) -> Result<Command, CommandError>
    requires { length words.now < 4294967290 }
    ensures exact { Answers result (search words.now) }
    ensures bounds { IfOk result IsSound }
{
    let operation = op(text_at(words, 1)?).ok_or(ScriptFault::Argument(1))?;
    let kind = search_kind(text_at(words, 2)?).ok_or(ScriptFault::Argument(2))?;
    match kind {
        SearchKind::Position => Ok(search_position(operation, words)?),
        SearchKind::Material => Ok(Command::SearchMaterial(operation, mat_items(words)?)),
        SearchKind::Header => Ok(Command::SearchHeader(operation, head_items(alloc, words)?)),
    }
}

// Commands that look for positions, and those of watched trees.
#[tactic(auto, unfolding(crate::specs::Parts::searching))]
fn searching(alloc: Global, name: &[u8], words: &[Word]) -> Result<Command, CommandError>
    requires { length words.now < 4294967290 }
    ensures exact { Answers result (searching name.now words.now) }
    ensures bounds { IfOk result IsSound }
{
    if name == b"find".as_slice() {
        let (board, side) = board_and_side(words)?;
        return Ok(Command::Find(board, side));
    }
    if name == b"search".as_slice() {
        return search(alloc, words);
    }
    if name == b"tree".as_slice() {
        let (board, side) = board_and_side(words)?;
        return Ok(Command::Tree(board, side));
    }
    if name == b"watch".as_slice() {
        let (slot, board, side) = slot_board_and_side(words)?;
        return Ok(Command::Watch(slot, board, side));
    }
    if name == b"view".as_slice() {
        return Ok(Command::View(one_number(words)?));
    }
    if name == b"unwatch".as_slice() {
        return Ok(Command::Unwatch(one_number(words)?));
    }
    filtering(alloc, name, words)
}

// Commands that change the filter by itself.
#[tactic(auto, unfolding(crate::specs::Parts::filtering))]
fn filtering(alloc: Global, name: &[u8], words: &[Word]) -> Result<Command, CommandError>
    ensures exact { Answers result (filtering name.now words.now) }
    ensures bounds { IfOk result IsSound }
{
    if name == b"reset".as_slice() {
        no_more(words, 0)?;
        return Ok(Command::Reset);
    }
    if name == b"clear".as_slice() {
        no_more(words, 0)?;
        return Ok(Command::Clear);
    }
    if name == b"negate".as_slice() {
        no_more(words, 0)?;
        return Ok(Command::Negate);
    }
    if name == b"restrict".as_slice() {
        let (first, last) = two_numbers(words)?;
        return Ok(Command::Restrict(first, last));
    }
    saving_filters(alloc, name, words)
}

// Commands on saved filters.
#[tactic(auto, unfolding(crate::specs::Parts::saving_filters))]
fn saving_filters(alloc: Global, name: &[u8], words: &[Word]) -> Result<Command, CommandError>
    ensures exact { Answers result (saving_filters name.now words.now) }
    ensures bounds { IfOk result IsSound }
{
    if name == b"keep".as_slice() {
        return Ok(Command::Keep(text(alloc, one_name(words)?)?));
    }
    if name == b"use".as_slice() {
        return Ok(Command::Take(text(alloc, one_name(words)?)?));
    }
    if name == b"and".as_slice() {
        return Ok(Command::And(text(alloc, one_name(words)?)?));
    }
    if name == b"or".as_slice() {
        return Ok(Command::Or(text(alloc, one_name(words)?)?));
    }
    if name == b"drop".as_slice() {
        return Ok(Command::Drop(text(alloc, one_name(words)?)?));
    }
    showing(alloc, name, words)
}

// Commands that show games and change nothing.
#[tactic(auto, unfolding(crate::specs::Parts::showing))]
fn showing(alloc: Global, name: &[u8], words: &[Word]) -> Result<Command, CommandError>
    ensures exact { Answers result (showing name.now words.now) }
    ensures bounds { IfOk result IsSound }
{
    if name == b"hits".as_slice() {
        no_more(words, 0)?;
        return Ok(Command::Hits);
    }
    if name == b"list".as_slice() {
        no_more(words, 0)?;
        return Ok(Command::List);
    }
    if name == b"show".as_slice() {
        return Ok(Command::Show(one_number(words)?));
    }
    if name == b"export".as_slice() {
        no_more(words, 0)?;
        return Ok(Command::Export);
    }
    if name == b"cross".as_slice() {
        return Ok(Command::Cross(text(alloc, one_text(words)?)?));
    }
    if name == b"info".as_slice() {
        no_more(words, 0)?;
        return Ok(Command::Info);
    }
    editing(alloc, name, words)
}

// Commands that change games.
#[tactic(auto, unfolding(crate::specs::Parts::editing))]
fn editing(alloc: Global, name: &[u8], words: &[Word]) -> Result<Command, CommandError>
    ensures exact { Answers result (editing name.now words.now) }
    ensures bounds { IfOk result IsSound }
{
    if name == b"import".as_slice() {
        return Ok(Command::Import(text(alloc, one_body(words)?)?));
    }
    if name == b"replace".as_slice() {
        let (game, end) = number_and_body(words)?;
        return Ok(Command::Replace(game, text(alloc, end)?));
    }
    if name == b"eco".as_slice() {
        return Ok(Command::Eco(text(alloc, one_body(words)?)?));
    }
    if name == b"tag".as_slice() {
        return tag(alloc, words);
    }
    if name == b"delete".as_slice() {
        return Ok(Command::Delete(one_number(words)?));
    }
    if name == b"undelete".as_slice() {
        return Ok(Command::Undelete(one_number(words)?));
    }
    if name == b"mark".as_slice() {
        let (game, bit, on) = mark_arguments(words)?;
        return Ok(Command::Mark(game, bit, on));
    }
    Ok(ending(name, words)?)
}

// Commands for the base as a whole, and the end.
#[tactic(auto, unfolding(crate::specs::Parts::ending))]
fn ending(name: &[u8], words: &[Word]) -> Result<Command, ScriptFault>
    ensures exact { result ≡ ending name.now words.now }
    ensures bounds { IfOk result IsSound }
{
    if name == b"twins".as_slice() {
        return Ok(Command::Twins(one_depth(words)?));
    }
    if name == b"index".as_slice() {
        return Ok(Command::Index(one_index(words)?));
    }
    if name == b"save".as_slice() {
        no_more(words, 0)?;
        return Ok(Command::Save);
    }
    if name == b"compact".as_slice() {
        no_more(words, 0)?;
        return Ok(Command::Compact);
    }
    if name == b"demo".as_slice() {
        let (seed, games) = demo_arguments(words)?;
        return Ok(Command::Demo(seed, games));
    }
    if name == b"quit".as_slice() {
        no_more(words, 0)?;
        return Ok(Command::Quit);
    }
    Err(ScriptFault::Unknown)
}

// The command of the words of a line.
#[tactic(auto, using(crate::proofs::TableLaws::named_by_parts))]
fn command_of(alloc: Global, words: &[Word]) -> Result<Command, CommandError>
    requires { length words.now < 4294967290 }
    ensures exact { Answers result (command_of words.now) }
    ensures bounds { IfOk result IsSound }
{
    let Some(first) = words.first() else {
        return Ok(Command::Nothing);
    };
    match first.text() {
        Some(name) => searching(alloc, name, words),
        None => Err(CommandError::Bad(ScriptFault::Unknown)),
    }
}

/// A line without its last carriage return.
#[tactic(auto, unfolding(crate::specs::Reading::shorn))]
pub fn shorn(line: &[u8]) -> &[u8]
    ensures { result.now ≡ shorn line.now }
{
    match line {
        [rest @ .., b'\r'] => rest,
        _ => line,
    }
}

// Whether the line begins with `#`.
fn is_remark(line: &[u8]) -> bool
    ensures { result ≡ is_remark line.now }
{
    match line {
        [b'#', ..] => true,
        _ => false,
    }
}

/// The command that a line of a script says. The line stands without its line feed. A mark's bit is below 18, a tag's
/// edit is within the bounds of heads, a streak has at least one ply, and an index is at most 40 plies deep.
///
/// # Errors
///
/// `Bad` with the first fault of the line, and `Memory`.
#[tactic(auto, unfolding(crate::specs::Reading::reading), using(crate::proofs::LengthLaws::words_short))]
pub fn read_command(alloc: Global, line: &[u8]) -> Result<Command, CommandError>
    ensures exact { Answers result (reading line.now) }
    ensures bounds { IfOk result IsSound }
{
    if is_remark(line) {
        return Ok(Command::Nothing);
    }
    let line = shorn(line);
    if line.len() > 65_536 {
        return Err(CommandError::Bad(ScriptFault::TooLong));
    }
    let words = cut(alloc, line)?;
    command_of(alloc, words.as_slice())
}
