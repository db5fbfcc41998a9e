//! A filter that is brought to games, 64 of them at a time.
ghost use Rattle.std.specs.Prelude.{◌≡◌, ◌≤◌, ◌<◌, ◌+◌, ◌*◌, ◌/◌, ◌⊎◌, List, None, IfSome, length, slice_set, OnOk};
ghost use Rattle.tree_live.specs.Watching.{under};
ghost use Rattle.tree_live.specs.declared.entry.Entry.{Entry};
ghost use Rattle.tree_live.specs.Keeping.{AreBrought, TellsBlock, partly};

use crate::counting::Counting;
use crate::marks::Marks;
use game_filter::Filter;
use std::alloc::AllocError;

/// Puts games in or out by a filter. Of each 64 games a block has the bits by which they are in or out, if these are known: if the filter
/// has the same, none of them is looked at.
pub(crate) fn bring(
    games: &mut Counting,
    blocks: &mut [Option<u64>],
    filter: &Filter,
) -> Result<(), AllocError>
    requires same_games { length filter.now ≡ length games.old }
    requires blocks { length blocks.old ≡ (length filter.now + 63) / 64 }
    requires brought { AreBrought blocks.old games.old }
    ensures games { OnOk result (games.new ≡ under filter.now games.old) }
    ensures brought { OnOk result (AreBrought blocks.new games.new) }
{
    for k in 0..filter.len().div_ceil(64) {
        bring_block(games, &mut blocks[k as usize], k, filter)?;
    }
    Ok(())
}

// The same of the games of one block.
fn bring_block(
    games: &mut Counting,
    block: &mut Option<u64>,
    k: u32,
    filter: &Filter,
) -> Result<(), AllocError>
    requires same_games { length filter.now ≡ length games.old }
    requires there { 64 * k < length filter.now }
    requires brought { IfSome block.old (TellsBlock games.old k) }
    ensures games { OnOk result ((before : List Entry) → length filter.now ≡ length before → games.old ≡ partly (64 * k) filter.now before → games.new ≡ partly (64 * k + 64) filter.now before) }
    ensures brought { OnOk result ((before : List Entry) → length filter.now ≡ length before → games.old ≡ partly (64 * k) filter.now before → IfSome block.new (TellsBlock games.new k)) }
{
    let marks = filter.block(k);
    if let Some(known) = block {
        if *known == marks {
            return Ok(());
        }
    }
    let len = filter.len();
    let first = 64 * k;
    mark_games(games, filter, first, end_behind(first, len))?;
    *block = Some(marks);
    Ok(())
}

// The end of the block that begins with a game, of so many games.
fn end_behind(first: u32, games: u32) -> u32
    requires there { first < games }
    ensures end { (result ≡ first + 64) ⊎ (result ≡ games) }
    ensures within { (first ≤ result) × (result ≤ games) }
    ensures most { result ≤ first + 64 }
{
    if games - first < 64 {
        games
    } else {
        first + 64
    }
}

// Puts the games of these numbers in or out.
fn mark_games(games: &mut Counting, filter: &Filter, first: u32, end: u32) -> Result<(), AllocError>
    requires same_games { length filter.now ≡ length games.old }
    requires order { first ≤ end }
    requires within { end ≤ length filter.now }
    ensures games { OnOk result ((before : List Entry) → length filter.now ≡ length before → games.old ≡ partly first filter.now before → games.new ≡ partly end filter.now before) }
{
    for i in first..end {
        games.mark(i as usize, Marks::Plies, filter.get(i))?;
    }
    Ok(())
}

/// The bits of a block are known no more, if there is such a block.
pub(crate) fn forget(blocks: &mut [Option<u64>], k: usize)
    ensures forgotten { blocks.new ≡ slice_set blocks.old k None }
{
    if k < blocks.len() {
        blocks[k] = None;
    }
}
