//! One slot of a list of views.
ghost use Rattle.std.specs.Prelude.{◌≡◌, ◌+◌, ◌≤◌, Some, length, IfOk, IsSome, IsSomeAnd, IfSome};
ghost use Rattle.tree_live.specs.Watching.{all_out, hits_in, under};
ghost use Rattle.tree_live.specs.Views.{Shows, ToldMore};
ghost use Rattle.tree_live.specs.Slots.{IsTold};

use crate::view::TreeView;
use crate::watch::Watch;
use cell_core::PackedBoard;
use game_filter::Filter;
use std::alloc::{AllocError, Global};
use tree_rows::GameHit;

/// Watches a board and side in a slot that holds a view.
pub(crate) fn attach(
    alloc: Global,
    slot: &mut Option<Box<dyn TreeView>>,
    board: PackedBoard,
    hits: &[Option<GameHit>],
    filter: &Filter,
) -> Result<Option<Watch>, AllocError>
    requires same_games { length hits.now ≡ length filter.now }
    requires few { length hits.now ≤ 16777214 }
    requires holds { IsSome slot.old }
    ensures watched { IfOk result (λ watch. watch ≡ Some (record { board = board; games = under filter.now (all_out hits.now) })) }
    ensures shown { IfOk result (λ watch. IfSome watch (λ watch. IsSomeAnd slot.new (λ view. Shows (hits_in watch.games) (rows view)))) }
    ensures told { IsTold (λ most old new. ToldMore most (told old) (told new)) (Some (1 + length (hits_in (under filter.now (all_out hits.now))))) slot.old slot.new }
{
    match slot {
        None => Ok(None),
        Some(view) => {
            let watch = Watch::attach(alloc, &mut **view, board, hits, filter)?;
            Ok(Some(watch))
        }
    }
}
