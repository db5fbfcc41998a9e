//! A watch over a view in memory.
ghost use Rattle.std.specs.Prelude.{◌<◌};

use cell_core::{Board, Colour, Move, Square, pack};
use game_filter::Filter;
use game_tree::Outcome;
use std::test::Fail;
use tree_live::{TableView, TreeView, Watch};
use tree_rows::GameHit;

// A game that goes on with a move from this square to that two ranks above.
pub(crate) fn played(from: u8, mover: u16) -> Option<GameHit>
    requires { from < 48 }
{
    Some(GameHit {
        next: Some(Move {
            from: Square::at(from),
            to: Square::at(from + 16),
            promo: None,
        }),
        result: Outcome::Draw,
        mover,
        other: 0,
        year: 2024,
    })
}

// How many rows a view shows, how many games they count, and how many changes it was told.
fn seen(view: &TableView) -> (usize, u32, u64) {
    let mut games = 0u32;
    for i in 0..view.len() {
        games = games.saturating_add(view.row(i).games);
    }
    (view.len(), games, view.told())
}

#[test]
fn a_view_that_refuses_its_second_row(rt: HostRuntime) -> Result<(), Fail> {
    let alloc = rt.alloc();
    let hits = Vec::from_array(alloc, [played(12, 2500), played(11, 2400)])?;
    let filter = Filter::new(alloc, 2)?;
    let board = pack(&Board::empty(), Colour::White);
    let mut view = TableView::new(Vec::new(alloc), Some(1));
    let watch = Watch::attach(alloc, &mut view, board, hits.as_slice(), &filter);
    assert!(rt; watch.is_err());
    assert_eq!(rt; seen(&view), (1, 1, 2));
    Ok(())
}
