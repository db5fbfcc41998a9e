//! A change that is brought from one client to the others.
ghost use Rattle.std.specs.Prelude.{◌≡◌, ℕ, ◌<◌, ◌≤◌, All, length, slice_index_or, OnOk};
ghost use Rattle.std.specs.List.{AllPairs};
ghost use Rattle.client_desk.specs.Seats.{Seated, ShowsSeat};
ghost use Rattle.client_desk.specs.Changes.{Fits};
ghost use Rattle.client_desk.specs.Desks.{Apart, Echoed, EchoTold};
ghost use Rattle.client_desk.specs.Echoing.{DoneAt, ToldAt};

use crate::change::Change;
use crate::seat::Seat;
use std::alloc::{AllocError, Global};
use tree_live::TreeView;

/// Brings a change to all seats but that of the client with this number.
pub(crate) fn echo_to_others(
    alloc: Global,
    by: usize,
    seats: &mut [Seat],
    views: &mut [Option<Box<dyn TreeView>>],
    change: &Change,
) -> Result<(), AllocError>
    requires apart { AllPairs Apart seats.old }
    requires fits { (c : ℕ) → (d : Seated) → (c ≡ by → ⊥) → c < length seats.old → Fits change.now (slice_index_or seats.old c d) }
    requires shown { All (λ seat. ShowsSeat (λ b. rows b) seat views.old) seats.old }
    ensures echoed { OnOk result (Echoed by change.now seats.old seats.new) }
    ensures shown { OnOk result (All (λ seat. ShowsSeat (λ b. rows b) seat views.new) seats.new) }
    ensures told { EchoTold (λ b. told b) by change.now seats.old views.old views.new }
    ensures number { length seats.new ≡ length seats.old }
{
    for c in 0..seats.len() {
        echo_at(alloc, by, c, seats, views, change)?;
    }
    Ok(())
}

// Brings it to one seat, unless that is the client's own.
fn echo_at(
    alloc: Global,
    by: usize,
    c: usize,
    seats: &mut [Seat],
    views: &mut [Option<Box<dyn TreeView>>],
    change: &Change,
) -> Result<(), AllocError>
    requires place { c < length seats.old }
    requires fits { (d : Seated) → (c ≡ by → ⊥) → Fits change.now (slice_index_or seats.old c d) }
    requires shown { (d : Seated) → ShowsSeat (λ b. rows b) (slice_index_or seats.old c d) views.old }
    ensures done { OnOk result (DoneAt (λ b. rows b) by change.now c seats.old seats.new views.new) }
    ensures told { ToldAt (λ b. told b) by change.now c seats.old seats.new views.old views.new }
{
    if c == by {
        return Ok(());
    }
    seats[c].echo(alloc, views, change)
}
