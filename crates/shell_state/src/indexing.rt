//! What edits make of the position index.
ghost use Rattle.std.specs.Prelude.{◌≡◌, ◌<◌, ◌+◌, false, length, option_map, IfSome, OnOk, OnErr};
ghost use Rattle.game_tree.specs.Legal.{IsLegalGame};
ghost use Rattle.shell_state.specs.Indexing.{index_with, index_with_at};
ghost use Rattle.shell_state.specs.Refusing.{index_is_full};
ghost use Rattle.shell_state.specs.Stands.{depth_of};

use game_tree::Game;
use pos_index::PosIndex;
use std::alloc::{AllocError, Global};

/// Adds a game, which gets this number, to the index, if there is one. After want of memory it is as it was.
pub(crate) fn add_to_index(
    alloc: Global,
    index: &mut Option<PosIndex>,
    number: u32,
    game: &Game,
) -> Result<(), AllocError>
    requires last { IfSome index.old (λ x. number ≡ length x.rows) }
    requires room { index_is_full (depth_of index.old) (number + 1) ≡ false }
    requires legal { IsLegalGame game.now }
    ensures added { OnOk result (index.new ≡ option_map (index_with game.now) index.old) }
    ensures unchanged { OnErr result (index.new ≡ index.old) }
{
    match index {
        Some(index) => index.add(alloc, number, game),
        None => Ok(()),
    }
}

/// Puts a game in the place of game `i` of the index, if there is one. After want of memory it is as it was.
pub fn replace_in_index(
    alloc: Global,
    index: &mut Option<PosIndex>,
    i: u32,
    game: &Game,
) -> Result<(), AllocError>
    requires there { IfSome index.old (λ x. i < length x.rows) }
    requires legal { IsLegalGame game.now }
    ensures replaced { OnOk result (index.new ≡ option_map (index_with_at i game.now) index.old) }
    ensures unchanged { OnErr result (index.new ≡ index.old) }
{
    match index {
        Some(index) => index.replace(alloc, i, game),
        None => Ok(()),
    }
}
