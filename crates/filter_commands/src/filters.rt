//! The commands on filters. Each answers the line that it writes, and `keep` alone takes memory.
ghost use Rattle.std.specs.Prelude.{◌≡◌, ◌≤◌, ℕ, All, IfOk, length};
ghost use Rattle.game_filter.specs.Filter.{all_in, all_out, intersection, negated, restricted, union};
ghost use Rattle.filter_commands.specs.Filters.{drop_line, drop_work, filtering, join_work, keep_work};
ghost use Rattle.filter_seat.specs.SavedFilters.{dropped_in};
ghost use Rattle.shell_state.specs.Stands.{Fits, Quiet};

use cell_core::Text;
use filter_seat::{SavedFilter, forget, keep, meet, take_from, unite};
use game_filter::Filter;
use shell_state::{Line, Machine, filter_line, line_of, name_line};
use std::alloc::{AllocError, Global};

/// The command `reset`: takes all games into the filter, and gives its line.
pub fn reset(machine: &mut Machine) -> Line
    requires fits { Fits machine.old }
    ensures quiet { Quiet machine.old (filtering (λ plies. all_in (length plies))) machine.new result.items }
{
    machine.seat.filter.reset();
    filter_line(&machine.seat.filter)
}

/// The command `clear`: takes all games out of the filter, and gives its line.
pub fn clear(machine: &mut Machine) -> Line
    requires fits { Fits machine.old }
    ensures quiet { Quiet machine.old (filtering (λ plies. all_out (length plies))) machine.new result.items }
{
    machine.seat.filter.clear();
    filter_line(&machine.seat.filter)
}

/// The command `negate`: makes the games that are out the filter, and gives its line.
pub fn negate(machine: &mut Machine) -> Line
    requires fits { Fits machine.old }
    ensures quiet { Quiet machine.old (filtering negated) machine.new result.items }
{
    machine.seat.filter.negate();
    filter_line(&machine.seat.filter)
}

/// The command `restrict A B`: keeps in the filter the games from the first number to the second, and gives its line.
pub fn restrict(machine: &mut Machine, first: u64, last: u64) -> Line
    requires fits { Fits machine.old }
    ensures quiet { Quiet machine.old (filtering (restricted first last)) machine.new result.items }
{
    restrict_to(&mut machine.seat.filter, first, last);
    filter_line(&machine.seat.filter)
}

// Puts out every game below `first` or above `last`. No game has the number of games or a higher number.
#[tactic(auto, using(crate::proofs::FilterLaws::restricted_cut, crate::proofs::FilterLaws::length_restricted))]
fn restrict_to(filter: &mut Filter, first: u64, last: u64)
    ensures restricted { filter.new ≡ restricted first last filter.old }
    ensures games { length filter.new ≡ length filter.old }
{
    let games = u64::from(filter.len());
    filter.restrict(first.min(games) as u32, last.min(games) as u32);
}

/// The command `keep NAME`: keeps a copy of the filter under this name, and gives its line.
pub fn keep_filter(alloc: Global, machine: &mut Machine, name: &Text) -> Result<Vec<u8>, AllocError>
    requires fits { Fits machine.old }
    requires short { length name.now ≤ 32 }
    ensures quiet { IfOk result (λ line. Quiet machine.old (keep_work name.now) machine.new line.items) }
{
    if !keep(alloc, &mut machine.seat.saved, name, &machine.seat.filter)? {
        return line_of(alloc, b"error: full filters");
    }
    let line = name_line(b"kept ", name);
    Vec::from_slice(alloc, line.as_slice())
}

/// The command `use NAME`: takes the kept filter of this name in place of the filter, and gives its line.
pub fn take(machine: &mut Machine, name: &Text) -> Line
    requires fits { Fits machine.old }
    requires short { length name.now ≤ 32 }
    ensures quiet { Quiet machine.old (join_work (λ own other. other) name.now) machine.new result.items }
{
    if !take_from(
        &mut machine.seat.filter,
        machine.seat.saved.as_slice(),
        name.as_bytes(),
    ) {
        return name_line(b"error: no filter ", name);
    }
    filter_line(&machine.seat.filter)
}

/// The command `and NAME`: keeps the games that are in the kept filter of this name too, and gives its line.
pub fn and(machine: &mut Machine, name: &Text) -> Line
    requires fits { Fits machine.old }
    requires short { length name.now ≤ 32 }
    ensures quiet { Quiet machine.old (join_work intersection name.now) machine.new result.items }
{
    if !meet(
        &mut machine.seat.filter,
        machine.seat.saved.as_slice(),
        name.as_bytes(),
    ) {
        return name_line(b"error: no filter ", name);
    }
    filter_line(&machine.seat.filter)
}

/// The command `or NAME`: adds the games of the kept filter of this name, and gives its line.
pub fn or(machine: &mut Machine, name: &Text) -> Line
    requires fits { Fits machine.old }
    requires short { length name.now ≤ 32 }
    ensures quiet { Quiet machine.old (join_work union name.now) machine.new result.items }
{
    if !unite(
        &mut machine.seat.filter,
        machine.seat.saved.as_slice(),
        name.as_bytes(),
    ) {
        return name_line(b"error: no filter ", name);
    }
    filter_line(&machine.seat.filter)
}

/// The command `drop NAME`: forgets the kept filter of this name, and gives its line.
pub fn drop_filter(machine: &mut Machine, name: &Text) -> Line
    requires fits { Fits machine.old }
    requires short { length name.now ≤ 32 }
    ensures quiet { Quiet machine.old (drop_work name.now) machine.new result.items }
{
    forget_line(&mut machine.seat.saved, name)
}

// Forgets the filter of a name, and gives the line for that.
fn forget_line(saved: &mut Vec<SavedFilter>, name: &Text) -> Line
    requires short { length name.now ≤ 32 }
    ensures line { result.items ≡ drop_line saved.old.items name.now }
    ensures saved { saved.new.items ≡ dropped_in saved.old.items name.now }
    ensures same_games { (games : ℕ) → All (λ kept. length kept.plies ≡ games) saved.old.items → All (λ kept. length kept.plies ≡ games) saved.new.items }
{
    if !forget(saved, name.as_bytes()) {
        return name_line(b"error: no filter ", name);
    }
    name_line(b"dropped ", name)
}
