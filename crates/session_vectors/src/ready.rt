//! Changes of a desk, after each of which each view shows its rows and each seat has so many games.
ghost use Rattle.std.specs.Prelude.{◌≡◌, ◌≤◌, IfOk, OnOk, length};
ghost use Rattle.session_vectors.specs.Ready.{Comes, IsReady};

use cell_core::PackedBoard;
use client_desk::{Change, Client, Desk, SlotError};
use game_filter::Filter;
use std::alloc::{AllocError, Global};
use tree_live::TreeView;
use tree_rows::GameHit;

/// Nobody has said anything yet.
pub(crate) fn begin(
    alloc: Global,
    views: &[Option<Box<dyn TreeView>>],
    games: u32,
) -> Result<Desk, AllocError>
    requires few { games ≤ 16777214 }
    ensures ready { IfOk result (λ desk. IsReady (λ b. rows b) desk views.now games) }
{
    let _views = views.len();
    Desk::new(alloc, games)
}

/// A client watches a board in slot `k`.
pub(crate) fn watch(
    alloc: Global,
    desk: &mut Desk,
    views: &mut [Option<Box<dyn TreeView>>],
    by: Client,
    k: u8,
    board: PackedBoard,
    hits: Vec<Option<GameHit>>,
) -> Result<(), SlotError>
    requires ready { IsReady (λ b. rows b) desk.old views.old (length hits.items) }
    ensures ready { OnOk result (IsReady (λ b. rows b) desk.new views.new (length hits.items)) }
{
    desk.seat_mut(by).watch(alloc, views, k, board, hits)
}

/// A client sets its filter.
pub(crate) fn filter(
    alloc: Global,
    desk: &mut Desk,
    views: &mut [Option<Box<dyn TreeView>>],
    by: Client,
    new: Filter,
) -> Result<(), AllocError>
    requires ready { IsReady (λ b. rows b) desk.old views.old (length new) }
    ensures ready { OnOk result (IsReady (λ b. rows b) desk.new views.new (length new)) }
{
    desk.seat_mut(by).set_filter(alloc, views, new)
}

/// A client changes the base of so many games, which has so many afterwards.
pub(crate) fn bring(
    alloc: Global,
    desk: &mut Desk,
    views: &mut [Option<Box<dyn TreeView>>],
    by: Client,
    change: &Change,
    games: u32,
    after: u32,
) -> Result<(), AllocError>
    requires comes { Comes change.now games after }
    requires ready { IsReady (λ b. rows b) desk.old views.old games }
    ensures ready { OnOk result (IsReady (λ b. rows b) desk.new views.new after) }
{
    let _counts = (games, after);
    desk.seat_mut(by).own(alloc, views, change)?;
    desk.echo(alloc, by, change, views)
}
