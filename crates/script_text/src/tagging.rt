//! The arguments of `tag`.
ghost use Rattle.std.specs.Prelude.{Some, None, IfOk};
ghost use Rattle.game_tree.specs.TagEdit.{IsEdit};
ghost use Rattle.script_text.specs.Answer.{Answers, Fails};
ghost use Rattle.script_text.specs.Arguments.{text_at};
ghost use Rattle.script_text.specs.Tagging.{tag_edit};
ghost use Rattle.script_text.specs.Reading.{tag};
ghost use Rattle.script_text.specs.Sound.{IsSound};

use crate::arguments::{no_more, text_at};
use crate::command::Command;
use crate::fault::{CommandError, ScriptFault};
use crate::numbers::number;
use crate::words::Word;
use game_tree::{TagEdit, TagEditError};
use std::alloc::Global;

/// G NAME VALUE
#[tactic(auto, unfolding(crate::specs::Reading::tag))]
pub(crate) fn tag(alloc: Global, words: &[Word]) -> Result<Command, CommandError>
    ensures exact { Answers result (tag words.now) }
    ensures bounds { IfOk result IsSound }
{
    let game = number(text_at(words, 1)?).ok_or(ScriptFault::Argument(1))?;
    let name = text_at(words, 2)?;
    let edit = tag_edit(alloc, name, words)?;
    no_more(words, 3)?;
    Ok(Command::Tag(game, edit))
}

// The edit of a name, and of word 3 as its value.
fn tag_edit(alloc: Global, name: &[u8], words: &[Word]) -> Result<TagEdit, CommandError>
    ensures exact { Answers result (tag_edit name.now (text_at words.now 3)) }
    ensures bounds { IfOk result (λ edit. IsEdit edit) }
{
    match text_at(words, 3) {
        Ok(value) => with_value(alloc, name, value),
        Err(_) => Err(without_value(alloc, name)),
    }
}

// The edit of a name and a value.
#[tactic(auto, unfolding(crate::specs::Tagging::tag_edit))]
fn with_value(alloc: Global, name: &[u8], value: &[u8]) -> Result<TagEdit, CommandError>
    ensures exact { Answers result (tag_edit name.now (Some value.now)) }
    ensures bounds { IfOk result (λ edit. IsEdit edit) }
{
    match TagEdit::read(alloc, name, value) {
        Ok(edit) => Ok(edit),
        Err(TagEditError::Name) => Err(CommandError::Bad(ScriptFault::Argument(2))),
        Err(TagEditError::Value) => Err(CommandError::Bad(ScriptFault::Argument(3))),
        Err(TagEditError::Memory) => Err(CommandError::Memory),
    }
}

// Why a name without a value is no edit.
#[tactic(auto, unfolding(crate::specs::Tagging::tag_edit))]
fn without_value(alloc: Global, name: &[u8]) -> CommandError
    ensures { Fails result (tag_edit name.now None) }
{
    match TagEdit::read(alloc, name, b"") {
        Err(TagEditError::Name) => CommandError::Bad(ScriptFault::Argument(2)),
        Err(TagEditError::Memory) => CommandError::Memory,
        _ => CommandError::Bad(ScriptFault::Argument(3)),
    }
}
