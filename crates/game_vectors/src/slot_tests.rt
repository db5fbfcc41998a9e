//! Slots over boxes.
ghost use Rattle.std.specs.Prelude.{◌≡◌, ◌<◌, OnOk, length};
ghost use Rattle.game_vectors.specs.Standing.{AreStanding};

use super::standing::{add, filter, none, renumber, replace, watch};
use super::watch_tests::played;
use cell_core::{Board, Colour, pack};
use game_filter::{Filter, Renumbering};
use std::alloc::Global;
use std::process::Abort;
use std::test::Fail;
use tree_live::{Slots, TableView, TreeView};
use tree_rows::GameHit;

/// What a view shows: how many rows, how many games they count, and how many changes it was told.
pub(crate) type Shown = (usize, u32, u64);

// What the views of slots 0 and 2 show, counted by hand, at six stages:
//
// - Both are watched, with a game that goes on with e4, one that goes on with d4 and one that never stands there.
// - The first goes out.
// - It comes in again.
// - A game with e4 comes in, for slot 0 alone.
// - The first goes on with d4.
// - The second goes.
const STAGES: [[Shown; 2]; 6] = [
    [(2, 2, 3), (2, 2, 3)],
    [(1, 1, 4), (1, 1, 4)],
    [(2, 2, 5), (2, 2, 5)],
    [(2, 3, 6), (2, 2, 5)],
    [(2, 3, 8), (1, 2, 7)],
    [(2, 2, 9), (1, 1, 8)],
];

pub(crate) fn shown(view: &Option<Box<dyn TreeView>>) -> Shown {
    match view {
        None => (0, 0, 0),
        Some(view) => {
            let mut games = 0u32;
            for i in 0..view.len() {
                games = games.saturating_add(view.row(i).games);
            }
            (view.len(), games, view.told())
        }
    }
}

// What the views of slots 0 and 2 show, which are those of the numbers 4 and 6.
fn both(rt: &impl Abort, views: &[Option<Box<dyn TreeView>>]) -> [Shown; 2] {
    assert_eq!(rt; views.len(), 8);
    [shown(&views[4]), shown(&views[6])]
}

// Watches the empty board in a slot.
pub(crate) fn watch_one(
    rt: &impl Abort,
    alloc: Global,
    slots: &mut Slots,
    views: &mut [Option<Box<dyn TreeView>>],
    k: u8,
    all: &Filter,
) -> Result<(), Fail>
    requires stand { AreStanding (λ b. rows b) slots.old views.old 3 }
    requires slot { k < slots.old.count }
    requires games { length all.now ≡ 3 }
    ensures stand { OnOk result (AreStanding (λ b. rows b) slots.new views.new 3) }
    ensures slots { slots.new.count ≡ slots.old.count }
{
    let hits = Vec::from_array(alloc, [played(12, 2500), played(11, 2400), None])?;
    let board = pack(&Board::empty(), Colour::White);
    assert!(rt; slots.holds(views, k));
    watch(alloc, slots, views, k, board, hits, all)?;
    Ok(())
}

// The filter is this one, and then both views.
fn filtered(
    rt: &impl Abort,
    alloc: Global,
    slots: &mut Slots,
    views: &mut [Option<Box<dyn TreeView>>],
    all: &Filter,
) -> Result<[Shown; 2], Fail>
    requires stand { AreStanding (λ b. rows b) slots.old views.old 3 }
    requires games { length all.now ≡ 3 }
    ensures stand { OnOk result (AreStanding (λ b. rows b) slots.new views.new 3) }
{
    filter(alloc, slots, views, all)?;
    Ok(both(rt, views))
}

// The hits of a game in slots 0 and 2.
pub(crate) fn in_slots(zero: Option<GameHit>, two: Option<GameHit>) -> [Option<GameHit>; 8] {
    [zero, None, two, None, None, None, None, None]
}

// The views after the third game was added.
fn added(
    rt: &impl Abort,
    alloc: Global,
    slots: &mut Slots,
    views: &mut [Option<Box<dyn TreeView>>],
) -> Result<[Shown; 2], Fail>
    requires stand { AreStanding (λ b. rows b) slots.old views.old 3 }
    ensures stand { OnOk result (AreStanding (λ b. rows b) slots.new views.new 4) }
{
    add(alloc, slots, views, 3, &in_slots(played(12, 0), None))?;
    Ok(both(rt, views))
}

// The views after the first game was replaced.
fn replaced(
    rt: &impl Abort,
    alloc: Global,
    slots: &mut Slots,
    views: &mut [Option<Box<dyn TreeView>>],
) -> Result<[Shown; 2], Fail>
    requires stand { AreStanding (λ b. rows b) slots.old views.old 4 }
    ensures stand { OnOk result (AreStanding (λ b. rows b) slots.new views.new 4) }
{
    let hits = in_slots(played(11, 0), played(11, 0));
    replace(alloc, slots, views, 4, 0, &hits)?;
    Ok(both(rt, views))
}

// The views after the second game went.
fn renumbered(
    rt: &impl Abort,
    alloc: Global,
    slots: &mut Slots,
    views: &mut [Option<Box<dyn TreeView>>],
) -> Result<[Shown; 2], Fail>
    requires stand { AreStanding (λ b. rows b) slots.old views.old 4 }
{
    let mut renumbering = Renumbering::new(alloc);
    renumbering.keep()?;
    renumbering.remove()?;
    renumbering.keep()?;
    renumbering.keep()?;
    renumber(alloc, slots, views, &renumbering)?;
    Ok(both(rt, views))
}

// What a box that refuses its second row shows after it was to be watched, or nothing if that went well.
fn refused(
    rt: &impl Abort,
    alloc: Global,
    views: &mut [Option<Box<dyn TreeView>>],
) -> Result<Shown, Fail> {
    let all = Filter::new(alloc, 3)?;
    let mut slots = none(7, 1, views, 3);
    let hits = Vec::from_array(alloc, [played(12, 2500), played(11, 2400), None])?;
    let board = pack(&Board::empty(), Colour::White);
    assert!(rt; slots.holds(views, 0));
    if watch(alloc, &mut slots, views, 0, board, hits, &all).is_ok() {
        return Ok((0, 0, 0));
    }
    assert_eq!(rt; views.len(), 8);
    Ok(shown(&views[7]))
}

// All changes, one after the other.
fn stages(
    rt: &impl Abort,
    alloc: Global,
    views: &mut [Option<Box<dyn TreeView>>],
) -> Result<[[Shown; 2]; 6], Fail> {
    let mut all = Filter::new(alloc, 3)?;
    let mut slots = none(4, 3, views, 3);
    watch_one(rt, alloc, &mut slots, views, 0, &all)?;
    watch_one(rt, alloc, &mut slots, views, 2, &all)?;
    let watched = both(rt, views);
    all.set(0, None);
    let out = filtered(rt, alloc, &mut slots, views, &all)?;
    all.set(0, Some(4));
    let back = filtered(rt, alloc, &mut slots, views, &all)?;
    let more = added(rt, alloc, &mut slots, views)?;
    let other = replaced(rt, alloc, &mut slots, views)?;
    let fewer = renumbered(rt, alloc, &mut slots, views)?;
    Ok([watched, out, back, more, other, fewer])
}

#[test]
fn seven_boxes_in_eight_slots(rt: HostRuntime) -> Result<(), Fail> {
    let mut views: Vec<Option<Box<dyn TreeView>>> = Vec::new(rt.alloc());
    for k in 0..8u8 {
        if k == 5 {
            views.push(None)?;
        } else {
            let refuse = if k == 7 { Some(1) } else { None };
            let view: Box<dyn TreeView> = Box::new(
                rt.alloc(),
                TableView::new(Vec::new(rt.alloc()), refuse),
            )?;
            views.push(Some(view))?;
        }
    }
    let slots = Slots::new(4, 3);
    assert!(rt; slots.holds(views.as_slice(), 0));
    assert!(rt; !slots.holds(views.as_slice(), 1));
    assert!(rt; slots.holds(views.as_slice(), 2));
    assert!(rt; !slots.holds(views.as_slice(), 3));
    assert!(rt; slots.watched(0).is_none());
    assert_eq!(rt; stages(&rt, rt.alloc(), views.as_mut_slice())?, STAGES);
    assert_eq!(rt; refused(&rt, rt.alloc(), views.as_mut_slice())?, (1, 1, 2));
    Ok(())
}
