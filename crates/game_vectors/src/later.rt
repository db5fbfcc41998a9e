//! Changes of slots whose views are told later, by one call; each watch has so many games.
ghost use Rattle.std.specs.Prelude.{◌≡◌, ◌+◌, ◌<◌, OnOk, length};
ghost use Rattle.game_vectors.specs.Standing.{AreStanding, AreWaiting};

use game_filter::Filter;
use std::alloc::{AllocError, Global};
use tree_live::{Slots, TreeView};
use tree_rows::GameHit;

/// Each view shows its rows, and may fall behind from now on.
pub(crate) fn wait(slots: &Slots, views: &[Option<Box<dyn TreeView>>], games: u32)
    requires stand { AreStanding (λ b. rows b) slots.now views.now games }
    ensures wait { AreWaiting slots.now views.now games }
{
    let _games = games;
    let _views = views.len();
    let _slots = slots.watched(0);
}

/// Game `i` is another.
pub(crate) fn put(
    slots: &mut Slots,
    views: &[Option<Box<dyn TreeView>>],
    games: u32,
    i: u32,
    hits: &[Option<GameHit>; 8],
) -> Result<(), AllocError>
    requires few { games < 16777214 }
    requires game { i < games }
    requires wait { AreWaiting slots.old views.now games }
    ensures wait { OnOk result (AreWaiting slots.new views.now games) }
{
    let _views = views.len();
    slots.set_game(i, hits)
}

/// A game is added.
pub(crate) fn add(
    slots: &mut Slots,
    views: &[Option<Box<dyn TreeView>>],
    games: u32,
    hits: &[Option<GameHit>; 8],
) -> Result<(), AllocError>
    requires few { games < 16777214 }
    requires wait { AreWaiting slots.old views.now games }
    ensures wait { OnOk result (AreWaiting slots.new views.now (games + 1)) }
{
    let _views = views.len();
    slots.set_game(games, hits)
}

/// The filter is this one, and the views are told what differs.
pub(crate) fn show(
    alloc: Global,
    slots: &mut Slots,
    views: &mut [Option<Box<dyn TreeView>>],
    filter: &Filter,
) -> Result<(), AllocError>
    requires wait { AreWaiting slots.old views.old (length filter.now) }
    ensures wait { OnOk result (AreWaiting slots.new views.new (length filter.now)) }
{
    slots.show(alloc, views, filter, 0, 8)
}
