//! Views that are told later.
ghost use Rattle.std.specs.Prelude.{◌≡◌, OnOk, length};
ghost use Rattle.game_vectors.specs.Standing.{AreWaiting};

use super::later::{add, put, show, wait};
use super::slot_tests::{Shown, in_slots, shown, watch_one};
use super::standing::none;
use super::watch_tests::played;
use game_filter::Filter;
use std::alloc::Global;
use std::process::Abort;
use std::test::Fail;
use tree_live::{Slots, TableView, TreeView};

// What the views of slots 0 and 2 show, counted by hand, at four stages:
//
// - Both are watched, with a game that goes on with e4, one that goes on with d4 and one that never stands there.
// - The first has gone out and come back, so that nothing is told.
// - A game with e4 was added for slot 0 alone, and the first goes on with d4, before the views are told.
// - The views were told.
const STAGES: [[Shown; 2]; 4] = [
    [(2, 2, 3), (2, 2, 3)],
    [(2, 2, 3), (2, 2, 3)],
    [(2, 2, 3), (2, 2, 3)],
    [(2, 3, 5), (1, 2, 5)],
];

// What the views of slots 0 and 2 show.
fn both(rt: &impl Abort, views: &[Option<Box<dyn TreeView>>]) -> [Shown; 2] {
    assert_eq!(rt; views.len(), 3);
    [shown(&views[0]), shown(&views[2])]
}

// The views after the first game went out and came back.
fn back(
    rt: &impl Abort,
    alloc: Global,
    slots: &mut Slots,
    views: &mut [Option<Box<dyn TreeView>>],
    all: &Filter,
) -> Result<[Shown; 2], Fail>
    requires wait { AreWaiting slots.old views.old 3 }
    requires games { length all.now ≡ 3 }
    ensures wait { OnOk result (AreWaiting slots.new views.new 3) }
{
    put(slots, views, 3, 0, &in_slots(None, None))?;
    let hits = in_slots(played(12, 2500), played(12, 2500));
    put(slots, views, 3, 0, &hits)?;
    show(alloc, slots, views, all)?;
    Ok(both(rt, views))
}

// A game is added, and the first is another; the views as they stand.
fn behind(
    rt: &impl Abort,
    alloc: Global,
    slots: &mut Slots,
    views: &[Option<Box<dyn TreeView>>],
) -> Result<[Shown; 2], Fail>
    requires wait { AreWaiting slots.old views.now 3 }
    ensures wait { OnOk result (AreWaiting slots.new views.now 4) }
{
    add(slots, views, 3, &in_slots(played(12, 0), None))?;
    let hits = in_slots(played(11, 0), played(11, 0));
    put(slots, views, 4, 0, &hits)?;
    Ok(both(rt, views))
}

// All changes, one after the other.
fn stages(
    rt: &impl Abort,
    alloc: Global,
    views: &mut [Option<Box<dyn TreeView>>],
) -> Result<[[Shown; 2]; 4], Fail> {
    let mut all = Filter::new(alloc, 3)?;
    let mut slots = none(0, 3, views, 3);
    watch_one(rt, alloc, &mut slots, views, 0, &all)?;
    watch_one(rt, alloc, &mut slots, views, 2, &all)?;
    let watched = both(rt, views);
    wait(&slots, views, 3);
    let same = back(rt, alloc, &mut slots, views, &all)?;
    let untold = behind(rt, alloc, &mut slots, views)?;
    all.push(alloc, Some(0))?;
    show(alloc, &mut slots, views, &all)?;
    Ok([watched, same, untold, both(rt, views)])
}

#[test]
fn views_that_are_told_later(rt: HostRuntime) -> Result<(), Fail> {
    let mut views: Vec<Option<Box<dyn TreeView>>> = Vec::new(rt.alloc());
    for _k in 0..3u8 {
        let view: Box<dyn TreeView> = Box::new(
            rt.alloc(),
            TableView::new(Vec::new(rt.alloc()), None),
        )?;
        views.push(Some(view))?;
    }
    assert_eq!(rt; stages(&rt, rt.alloc(), views.as_mut_slice())?, STAGES);
    Ok(())
}
