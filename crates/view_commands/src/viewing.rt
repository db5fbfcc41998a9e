//! `view K` and `unwatch K`.
ghost use Rattle.std.specs.Prelude.{◌≡◌, ◌+◌, ◌≤◌, ◌<◌, ◌&&◌, List, All, IfOk, OnOk, length, IsSomeAnd};
ghost use Rattle.base_files.specs.Seen.{Seen};
ghost use Rattle.cell_core.specs.Packed.{men_of};
ghost use Rattle.shell_state.specs.Slots.{slot_at};
ghost use Rattle.shell_state.specs.Stands.{Fits, Sound, Stands};
ghost use Rattle.shell_state.specs.State.{State};
ghost use Rattle.tree_live.specs.Slots.{in_slot};
ghost use Rattle.tree_live.specs.Views.{Shows};
ghost use Rattle.tree_rows.specs.MoveText.{IsKey};
ghost use Rattle.tree_rows.specs.Rows.{KeysDiffer, rows_of};
ghost use Rattle.tree_rows.specs.TreeText.{tree_text};
ghost use Rattle.tree_rows.specs.declared.hit.GameHit.{GameHit};
ghost use Rattle.view_commands.specs.Views.{AreLeft, AreRight, AreToldAtMost, is_own, is_shown, unwatch_work, view_work};

use crate::window::Window;
use cell_core::{Board, Colour, PackedBoard, unpack};
use shell_state::{Machine, game_line};
use std::alloc::{AllocError, Global};
use tree_live::{NoView, TreeView};
use tree_rows::{Row, is_key, lines};

/// The command `view K` of a user: gives its text, which is not written yet.
pub fn view(
    alloc: Global,
    machine: &Machine,
    views: &[Option<Box<dyn TreeView>>],
    number: u64,
    window: Window,
) -> Result<Vec<u8>, AllocError>
    requires room { window.first + window.count ≤ 8 }
    ensures text { (seen : Seen) (s : State) → Stands machine.now seen s → AreRight (λ b. rows b) window s views.now → IfOk result (λ text. text.items ≡ (view_work window number).text s) }
{
    let k = slot_of(window, number);
    match machine.slots.watched(k) {
        Some(board) => text_in(alloc, views, k, board),
        None => game_line(alloc, b"error: no view ", number),
    }
}

/// The command `unwatch K` of a user: gives its line, which is not written yet. Views of slots that are not the user's own
/// are as before.
pub fn unwatch(
    alloc: Global,
    machine: &mut Machine,
    views: &mut [Option<Box<dyn TreeView>>],
    number: u64,
    window: Window,
) -> Result<Vec<u8>, AllocError>
    requires room { window.first + window.count ≤ 8 }
    requires fits { Fits machine.old }
    ensures line { (seen : Seen) (s : State) → Stands machine.old seen s → IfOk result (λ line. line.items ≡ (unwatch_work window number).text s) }
    ensures stands { (seen : Seen) (s : State) → Stands machine.old seen s → OnOk result (Stands machine.new seen ((unwatch_work window number).after s)) }
    ensures right { (seen : Seen) (s : State) → Stands machine.old seen s → AreRight (λ b. rows b) window s views.old → OnOk result (AreRight (λ b. rows b) window ((unwatch_work window number).after s) views.new) }
    ensures told { (seen : Seen) (s : State) → Stands machine.old seen s → AreRight (λ b. rows b) window s views.old → OnOk result (AreToldAtMost (λ b. told b) (λ i. 0) views.old views.new) }
    ensures left { (seen : Seen) (s : State) → Stands machine.old seen s → AreLeft (λ i. is_own window i && is_shown (slot_at s.slots i)) views.old views.new }
    ensures others { AreLeft (is_own window) views.old views.new }
    ensures number { length views.new ≡ length views.old }
    ensures sound { (seen : Seen) → Sound machine.old seen → OnOk result (Sound machine.new seen) }
{
    match machine.slots.unwatch(views, slot_of(window, number)) {
        Ok(()) => game_line(alloc, b"unwatched ", number),
        Err(NoView) => game_line(alloc, b"error: no view ", number),
    }
}

/// The slot that a user names by a number. A number past the user's last one names the ninth, which shows no tree.
pub(crate) fn slot_of(window: Window, number: u64) -> u8
    requires room { window.first + window.count ≤ 8 }
    ensures slot { number < window.count → result ≡ window.first + number }
    ensures past { window.count ≤ number → result ≡ 8 }
{
    if number < u64::from(window.count) {
        window.first + number as u8
    } else {
        8
    }
}

// The text of the tree of this board that the view of a slot shows.
fn text_in(
    alloc: Global,
    views: &[Option<Box<dyn TreeView>>],
    k: u8,
    packed: &PackedBoard,
) -> Result<Vec<u8>, AllocError>
    ensures text { (hits : List GameHit) → All (λ hit. IsKey (men_of packed.now.cells) packed.now.side hit.next) hits → IsSomeAnd (in_slot views.now k) (λ view. Shows hits (rows view)) → IfOk result (λ text. text.items ≡ tree_text (men_of packed.now.cells) packed.now.side (rows_of hits)) }
{
    let place = usize::from(k);
    if place >= views.len() {
        return Ok(Vec::new(alloc));
    }
    match &views[place] {
        Some(view) => text_of(alloc, &**view, packed),
        None => Ok(Vec::new(alloc)),
    }
}

// The text of the tree of this board that a view shows.
fn text_of(alloc: Global, view: &dyn TreeView, packed: &PackedBoard) -> Result<Vec<u8>, AllocError>
    ensures text { (hits : List GameHit) → All (λ hit. IsKey (men_of packed.now.cells) packed.now.side hit.next) hits → Shows hits (rows view.now) → IfOk result (λ text. text.items ≡ tree_text (men_of packed.now.cells) packed.now.side (rows_of hits)) }
{
    let (board, side) = unpack(packed);
    let shown = shown_rows(alloc, view, &board, side)?;
    let mut text = Vec::new(alloc);
    lines(alloc, shown.as_slice(), &board, side, &mut text)?;
    Ok(text)
}

// The rows that a view shows. One whose move is legal from no position of this board and side is left out: if the files are told there
// is none, but a view may stand beside files that tell nothing.
fn shown_rows(
    alloc: Global,
    view: &dyn TreeView,
    board: &Board,
    side: Colour,
) -> Result<Vec<Row>, AllocError>
    ensures keys { IfOk result (λ shown. All (λ row. IsKey board.now side row.key) shown.items) }
    ensures rows { All (λ row. IsKey board.now side row.key) (rows view.now) → IfOk result (λ shown. shown.items ≡ rows view.now) }
    ensures once { KeysDiffer (rows view.now) }
{
    let len = view.len();
    let mut shown = Vec::with_capacity(alloc, len)?;
    for i in 0..len {
        let row = view.row(i);
        if is_key(board, side, &row.key) {
            shown.push(row)?;
        }
    }
    Ok(shown)
}
