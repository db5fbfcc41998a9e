//! The arguments of a command.
ghost use Rattle.std.specs.Prelude.{◌≡◌, ◌≤◌, ◌<◌, length, None, Some, IfOk, IfErr, MatchResult};
ghost use Rattle.std.specs.Option.{option_map};
ghost use Rattle.cell_core.specs.Text.{IsZeroFree};
ghost use Rattle.chess_text.specs.Filling.{board_named};
ghost use Rattle.game_tree.specs.Decimal.{decimal_read};
ghost use Rattle.script_text.specs.Forms.{side, switch, mark_bit, filter_name, name_text, body_end};
ghost use Rattle.script_text.specs.Numbers.{number, index_depth};
ghost use Rattle.script_text.specs.Sound.{IsDepth};
ghost use Rattle.script_text.specs.Arguments.{text_at, no_more, last_argument, two, three};
ghost use Rattle.script_text.specs.declared.fault.ScriptFault.TheVariants.{Argument};

use crate::fault::ScriptFault;
use crate::forms::{board, body_end, filter_name, mark_bit, name_text, side, switch};
use crate::numbers::{demo_games, index_depth, number, twin_depth};
use crate::words::Word;
use cell_core::{Board, Colour};

/// The text of argument `n`; the fault if the word is missing or not closed.
pub(crate) fn text_at(words: &[Word], n: u32) -> Result<&[u8], ScriptFault>
    ensures { MatchResult result (λ text. text_at words.now n ≡ Some text.now)
        (λ fault. (text_at words.now n ≡ None) × (fault ≡ Argument n)) }
{
    let word = words.get(n as usize).ok_or(ScriptFault::Argument(n))?;
    word.text().ok_or(ScriptFault::Argument(n))
}

/// The fault if a word, closed or not, follows `n` arguments.
pub(crate) fn no_more(words: &[Word], n: u32) -> Result<(), ScriptFault>
    requires { n ≤ 9 }
    ensures { result ≡ no_more n words.now }
{
    if words.len() <= n as usize + 1 {
        Ok(())
    } else {
        Err(ScriptFault::Extra)
    }
}

/// BOARD SIDE
#[tactic(auto, unfolding(crate::specs::Arguments::two, crate::specs::Arguments::last_argument))]
pub(crate) fn board_and_side(words: &[Word]) -> Result<(Board, Colour), ScriptFault>
    ensures { result ≡ two board_named side words.now }
{
    let board = board(text_at(words, 1)?).ok_or(ScriptFault::Argument(1))?;
    let side = side(text_at(words, 2)?).ok_or(ScriptFault::Argument(2))?;
    no_more(words, 2)?;
    Ok((board, side))
}

/// K BOARD SIDE
#[tactic(auto, unfolding(crate::specs::Arguments::three, crate::specs::Arguments::last_argument))]
pub(crate) fn slot_board_and_side(words: &[Word]) -> Result<(u64, Board, Colour), ScriptFault>
    ensures { result ≡ three number board_named side words.now }
{
    let slot = number(text_at(words, 1)?).ok_or(ScriptFault::Argument(1))?;
    let board = board(text_at(words, 2)?).ok_or(ScriptFault::Argument(2))?;
    let side = side(text_at(words, 3)?).ok_or(ScriptFault::Argument(3))?;
    no_more(words, 3)?;
    Ok((slot, board, side))
}

/// One number.
#[tactic(auto, unfolding(crate::specs::Arguments::last_argument))]
pub(crate) fn one_number(words: &[Word]) -> Result<u64, ScriptFault>
    ensures { result ≡ last_argument 1 number words.now }
{
    let number = number(text_at(words, 1)?).ok_or(ScriptFault::Argument(1))?;
    no_more(words, 1)?;
    Ok(number)
}

/// Two numbers.
#[tactic(auto, unfolding(crate::specs::Arguments::two, crate::specs::Arguments::last_argument))]
pub(crate) fn two_numbers(words: &[Word]) -> Result<(u64, u64), ScriptFault>
    ensures { result ≡ two number number words.now }
{
    let first = number(text_at(words, 1)?).ok_or(ScriptFault::Argument(1))?;
    let second = number(text_at(words, 2)?).ok_or(ScriptFault::Argument(2))?;
    no_more(words, 2)?;
    Ok((first, second))
}

/// NAME of a filter.
#[tactic(auto, unfolding(crate::specs::Arguments::last_argument))]
pub(crate) fn one_name(words: &[Word]) -> Result<&[u8], ScriptFault>
    ensures named { MatchResult result (λ name. last_argument 1 filter_name words.now ≡ Ok name.now) (λ fault. last_argument 1 filter_name words.now ≡ Err fault) }
    ensures free { IfOk result (λ name. IsZeroFree name.now) }
    ensures short { IfOk result (λ name. length name.now ≤ 32) }
{
    let name = filter_name(text_at(words, 1)?).ok_or(ScriptFault::Argument(1))?;
    no_more(words, 1)?;
    Ok(name)
}

/// A name of the base.
#[tactic(auto, unfolding(crate::specs::Arguments::last_argument))]
pub(crate) fn one_text(words: &[Word]) -> Result<&[u8], ScriptFault>
    ensures named { MatchResult result (λ name. last_argument 1 name_text words.now ≡ Ok name.now) (λ fault. last_argument 1 name_text words.now ≡ Err fault) }
    ensures free { IfOk result (λ name. IsZeroFree name.now) }
{
    let name = name_text(text_at(words, 1)?).ok_or(ScriptFault::Argument(1))?;
    no_more(words, 1)?;
    Ok(name)
}

/// How many plies are compared.
#[tactic(auto, unfolding(crate::specs::Arguments::last_argument))]
pub(crate) fn one_depth(words: &[Word]) -> Result<u32, ScriptFault>
    ensures { result ≡ last_argument 1 (decimal_read 131071) words.now }
{
    let depth = twin_depth(text_at(words, 1)?).ok_or(ScriptFault::Argument(1))?;
    no_more(words, 1)?;
    Ok(depth)
}

/// D of an index, or `off`.
#[tactic(auto, unfolding(crate::specs::Arguments::last_argument))]
pub(crate) fn one_index(words: &[Word]) -> Result<Option<u8>, ScriptFault>
    ensures exact { result ≡ last_argument 1 index_depth words.now }
    ensures bounds { IfOk result IsDepth }
{
    let depth = index_depth(text_at(words, 1)?).ok_or(ScriptFault::Argument(1))?;
    no_more(words, 1)?;
    Ok(depth)
}

/// `<<WORD`
#[tactic(auto, unfolding(crate::specs::Arguments::last_argument))]
pub(crate) fn one_body(words: &[Word]) -> Result<&[u8], ScriptFault>
    ensures ends { MatchResult result (λ end. last_argument 1 body_end words.now ≡ Ok end.now) (λ fault. last_argument 1 body_end words.now ≡ Err fault) }
    ensures free { IfOk result (λ end. IsZeroFree end.now) }
    ensures short { IfOk result (λ end. length end.now ≤ 32) }
{
    let end = body_end(text_at(words, 1)?).ok_or(ScriptFault::Argument(1))?;
    no_more(words, 1)?;
    Ok(end)
}

/// G `<<WORD`
#[tactic(auto, unfolding(crate::specs::Arguments::two, crate::specs::Arguments::last_argument))]
pub(crate) fn number_and_body(words: &[Word]) -> Result<(u64, &[u8]), ScriptFault>
    ensures ends { MatchResult result (λ given. two number body_end words.now ≡ Ok (given.0, given.1.now)) (λ fault. two number body_end words.now ≡ Err fault) }
    ensures free { IfOk result (λ given. IsZeroFree given.1.now) }
    ensures short { IfOk result (λ given. length given.1.now ≤ 32) }
{
    let number = number(text_at(words, 1)?).ok_or(ScriptFault::Argument(1))?;
    let end = body_end(text_at(words, 2)?).ok_or(ScriptFault::Argument(2))?;
    no_more(words, 2)?;
    Ok((number, end))
}

/// G LETTER `on` or `off`
#[tactic(auto, unfolding(crate::specs::Arguments::three, crate::specs::Arguments::last_argument))]
pub(crate) fn mark_arguments(words: &[Word]) -> Result<(u64, u8, bool), ScriptFault>
    ensures exact { result ≡ three number mark_bit switch words.now }
    ensures bounds { IfOk result (λ given. given.1 < 18) }
{
    let number = number(text_at(words, 1)?).ok_or(ScriptFault::Argument(1))?;
    let bit = mark_bit(text_at(words, 2)?).ok_or(ScriptFault::Argument(2))?;
    let on = switch(text_at(words, 3)?).ok_or(ScriptFault::Argument(3))?;
    no_more(words, 3)?;
    Ok((number, bit, on))
}

/// SEED GAMES
#[tactic(auto, unfolding(crate::specs::Arguments::two, crate::specs::Arguments::last_argument))]
pub(crate) fn demo_arguments(words: &[Word]) -> Result<(u64, u32), ScriptFault>
    ensures { result ≡ two number (decimal_read 100000) words.now }
{
    let seed = number(text_at(words, 1)?).ok_or(ScriptFault::Argument(1))?;
    let games = demo_games(text_at(words, 2)?).ok_or(ScriptFault::Argument(2))?;
    no_more(words, 2)?;
    Ok((seed, games))
}
