//! Changes of slots, after each of which each view shows its rows and each watch has so many games.
ghost use Rattle.std.specs.Prelude.{◌≡◌, ◌+◌, ◌<◌, ◌≤◌, IsSome, OnOk, length};
ghost use Rattle.tree_live.specs.Slots.{in_slot};
ghost use Rattle.game_vectors.specs.Standing.{AreStanding};

use cell_core::PackedBoard;
use game_filter::{Filter, Renumbering};
use std::alloc::{AllocError, Global};
use tree_live::{Slots, TreeView};
use tree_rows::GameHit;

/// No slot is watched.
pub(crate) fn none(first: u8, count: u8, views: &[Option<Box<dyn TreeView>>], games: u32) -> Slots
    requires room { first + count ≤ 8 }
    ensures stand { AreStanding (λ b. rows b) result views.now games }
    ensures slots { (result.first ≡ first) × (result.count ≡ count) }
{
    let _games = games;
    let _views = views.len();
    Slots::new(first, count)
}

/// Slot `k` shows a board.
pub(crate) fn watch(
    alloc: Global,
    slots: &mut Slots,
    views: &mut [Option<Box<dyn TreeView>>],
    k: u8,
    board: PackedBoard,
    hits: Vec<Option<GameHit>>,
    filter: &Filter,
) -> Result<(), AllocError>
    requires slot { k < slots.old.count }
    requires holds { IsSome (in_slot views.old (slots.old.first + k)) }
    requires same_games { length hits.items ≡ length filter.now }
    requires few { length hits.items ≤ 16777214 }
    requires stand { AreStanding (λ b. rows b) slots.old views.old (length filter.now) }
    ensures stand { OnOk result (AreStanding (λ b. rows b) slots.new views.new (length filter.now)) }
    ensures slots { (slots.new.first ≡ slots.old.first) × (slots.new.count ≡ slots.old.count) }
{
    slots.watch(alloc, views, k, board, hits.as_slice(), filter)
}

/// The filter is this one.
pub(crate) fn filter(
    alloc: Global,
    slots: &mut Slots,
    views: &mut [Option<Box<dyn TreeView>>],
    filter: &Filter,
) -> Result<(), AllocError>
    requires stand { AreStanding (λ b. rows b) slots.old views.old (length filter.now) }
    ensures stand { OnOk result (AreStanding (λ b. rows b) slots.new views.new (length filter.now)) }
{
    slots.filter_changed(alloc, views, filter)
}

/// A game is added that is in.
pub(crate) fn add(
    alloc: Global,
    slots: &mut Slots,
    views: &mut [Option<Box<dyn TreeView>>],
    games: u32,
    hits: &[Option<GameHit>; 8],
) -> Result<(), AllocError>
    requires few { games < 16777214 }
    requires stand { AreStanding (λ b. rows b) slots.old views.old games }
    ensures stand { OnOk result (AreStanding (λ b. rows b) slots.new views.new (games + 1)) }
{
    slots.game_changed(alloc, views, games, hits, true)
}

/// Game `i` is another, which is in.
pub(crate) fn replace(
    alloc: Global,
    slots: &mut Slots,
    views: &mut [Option<Box<dyn TreeView>>],
    games: u32,
    i: u32,
    hits: &[Option<GameHit>; 8],
) -> Result<(), AllocError>
    requires few { games < 16777214 }
    requires game { i < games }
    requires stand { AreStanding (λ b. rows b) slots.old views.old games }
    ensures stand { OnOk result (AreStanding (λ b. rows b) slots.new views.new games) }
{
    slots.game_changed(alloc, views, i, hits, true)
}

/// The games are those that stay.
pub(crate) fn renumber(
    alloc: Global,
    slots: &mut Slots,
    views: &mut [Option<Box<dyn TreeView>>],
    renumbering: &Renumbering,
) -> Result<(), AllocError>
    requires stand { AreStanding (λ b. rows b) slots.old views.old (length renumbering.now.to) }
    ensures stand { OnOk result (AreStanding (λ b. rows b) slots.new views.new renumbering.now.kept) }
{
    let _to = renumbering.to();
    slots.renumbered(alloc, views, renumbering)
}
