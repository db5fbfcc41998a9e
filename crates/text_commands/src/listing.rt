//! The command that lists the games of the filter.
ghost use Rattle.std.specs.Fmt.{decimal};
ghost use Rattle.std.specs.Prelude.{◌≡◌, ◌≤◌, ◌<◌, [], ◌++◌, Some, Ok, length, slice_get, OnOk, IfErr};
ghost use Rattle.base_core.specs.Represents.{IsSound, heads_of};
ghost use Rattle.base_files.specs.Causes.{HasCause};
ghost use Rattle.base_files.specs.Seen.{Seen};
ghost use Rattle.base_files.specs.Told.{Grew, adds};
ghost use Rattle.command_runs.specs.Counts.{Causes, Why, counts};
ghost use Rattle.command_runs.specs.Endings.{Halted, NoneLost, Serves};
ghost use Rattle.game_tree.specs.Head.{head_of};
ghost use Rattle.game_tree.specs.declared.head.Head.{Head};
ghost use Rattle.shell_state.specs.Lines.{filter_line};
ghost use Rattle.shell_state.specs.Stands.{Stands, Fits, Broken, WhyHalt};
ghost use Rattle.shell_state.specs.State.{State};
ghost use Rattle.shell_state.specs.Work.{works};
ghost use Rattle.text_commands.specs.Listing.{list_of, listed, listed_eco, listed_facts, listed_if_in, listed_numbers, listed_players, list_work};

use base_core::Base;
use base_files::{DeviceError, Sink, Stop, write_all};
use game_filter::Filter;
use game_tree::{HeadRef, eco_text};
use itoa::Buffer;
use shell_state::{Halt, Machine, PIECE, filter_line};
use sig_index::Games;
use std::alloc::AllocError;

/// The command `list`: writes a line with the head of each game of the filter, and then that of the filter.
pub fn list<K: Sink>(machine: &mut Machine, out: &mut K) -> Result<(), Halt>
    requires fits { Fits machine.old }
    requires sound { IsSound machine.old.kept }
    ensures same { machine.new ≡ machine.old }
    ensures serves { (seen : Seen) (s : State) → Stands machine.old seen s → Serves works (Stands machine.new seen) Broken s list_work (K.taken out.old) (K.taken out.new) result }
    ensures none_lost { NoneLost (K.taken out.old) (K.taken out.new) }
    ensures causes { Causes WhyHalt result (counts 0 0 (K.faults out.old)) (counts 0 0 (K.faults out.new)) }
{
    match write_list(&machine.base, &machine.seat.filter, &mut machine.page, out) {
        Ok(()) => {}
        Err(stop) => return Err(Halt::Device(stop)),
    }
    Ok(())
}

// Writes a line for each game that is in, and then how many of how many there are. The text goes out in pieces, by way of `page`.
#[tactic(auto, using(command_runs::proofs::Joining::halted_by, command_runs::proofs::Joining::none_lost_by))]
fn write_list<K: Sink>(
    base: &Base,
    filter: &Filter,
    page: &mut Vec<u8>,
    out: &mut K,
) -> Result<(), Stop>
    requires games { length filter.now ≡ length base.now.entries }
    requires sound { IsSound base.now }
    ensures written { OnOk result (K.taken out.new ≡ adds (K.taken out.old) (list_of filter.now (heads_of base.now))) }
    ensures halted { Halted [] (list_of filter.now (heads_of base.now)) (K.taken out.old) (K.taken out.new) }
    ensures none_lost { NoneLost (K.taken out.old) (K.taken out.new) }
    ensures causes { Causes Why result (counts 0 0 (K.faults out.old)) (counts 0 0 (K.faults out.new)) }
{
    page.clear();
    match put_list(base, filter, page, out) {
        Ok(()) => Ok(()),
        Err(error) => Err(error.of_output()),
    }
}

// Writes the lines. `text` is empty.
fn put_list<K: Sink>(
    base: &Base,
    filter: &Filter,
    text: &mut Vec<u8>,
    out: &mut K,
) -> Result<(), DeviceError>
    requires empty { text.old.items ≡ [] }
    requires games { length filter.now ≡ length base.now.entries }
    requires sound { IsSound base.now }
    ensures written { OnOk result (K.taken out.new ≡ adds (K.taken out.old) (list_of filter.now (heads_of base.now))) }
    ensures none_lost { Grew (K.taken out.old) (K.taken out.new) }
    ensures no_more { Grew (K.taken out.new) (adds (K.taken out.old) (list_of filter.now (heads_of base.now))) }
    ensures counts { K.faults out.old ≤ K.faults out.new }
    ensures cause { IfErr result (λ e. HasCause e (K.faults out.old) (K.faults out.new)) }
{
    for i in 0..filter.len() {
        put_game(text, base, i, filter.get(i), out)?;
    }
    push_count(text, filter)?;
    write_all(out, text.as_slice())
}

// Puts the line of a game behind the text, if it is in, and writes the text if it is long enough.
fn put_game<K: Sink>(
    text: &mut Vec<u8>,
    base: &Base,
    i: u32,
    ply: Option<u32>,
    out: &mut K,
) -> Result<(), DeviceError>
    requires there { i < length base.now.entries }
    requires sound { IsSound base.now }
    ensures put { (head : Head) → slice_get (heads_of base.now) i ≡ Some head → OnOk result (adds (K.taken out.new) text.new.items ≡ adds (K.taken out.old) (text.old.items ++ listed_if_in i ply head)) }
    ensures none_lost { Grew (K.taken out.old) (K.taken out.new) }
    ensures no_more { (head : Head) → slice_get (heads_of base.now) i ≡ Some head → Grew (K.taken out.new) (adds (K.taken out.old) (text.old.items ++ listed_if_in i ply head)) }
    ensures counts { K.faults out.old ≤ K.faults out.new }
    ensures cause { IfErr result (λ e. HasCause e (K.faults out.old) (K.faults out.new)) }
{
    let Some(ply) = ply else {
        return Ok(());
    };
    push_game(text, i, ply, &head_at(base, i))?;
    if text.len() >= PIECE {
        write_all(out, text.as_slice())?;
        text.clear();
    }
    Ok(())
}

// The head of a game of an open base.
fn head_at(base: &Base, i: u32) -> HeadRef<'_>
    requires there { i < length base.now.entries }
    requires sound { IsSound base.now }
    ensures head { slice_get (heads_of base.now) i ≡ Some (head_of result []) }
    ensures eco { result.eco ≤ 65500 }
{
    base.head(i)
}

// Puts the line of a game that is in behind the text.
fn push_game(text: &mut Vec<u8>, game: u32, ply: u32, head: &HeadRef<'_>) -> Result<(), AllocError>
    requires eco { head.now.eco ≤ 65500 }
    ensures { OnOk result (text.new.items ≡ text.old.items ++ listed game ply (head_of head.now [])) }
{
    push_numbers(text, game, ply)?;
    push_facts(text, head)?;
    push_players(text, head)
}

// Puts the numbers of a game and of its ply behind the text.
fn push_numbers(text: &mut Vec<u8>, game: u32, ply: u32) -> Result<(), AllocError>
    ensures { OnOk result (text.new.items ≡ text.old.items ++ listed_numbers game ply) }
{
    push_decimal(text, game)?;
    text.extend_from_slice(b" ")?;
    push_decimal(text, ply)?;
    text.extend_from_slice(b" ")
}

// Puts a number behind the text.
fn push_decimal(text: &mut Vec<u8>, number: u32) -> Result<(), AllocError>
    ensures { OnOk result (text.new.items ≡ text.old.items ++ decimal number) }
{
    let mut digits = Buffer::new();
    text.extend_from_slice(digits.format(number).as_bytes())
}

// Puts the result, the date and the opening code of a game behind the text.
fn push_facts(text: &mut Vec<u8>, head: &HeadRef<'_>) -> Result<(), AllocError>
    requires eco { head.now.eco ≤ 65500 }
    ensures { OnOk result (text.new.items ≡ text.old.items ++ listed_facts (head_of head.now [])) }
{
    text.extend_from_slice(head.result.text())?;
    text.extend_from_slice(b" ")?;
    text.extend_from_slice(head.date.text().as_slice())?;
    text.extend_from_slice(b" ")?;
    push_eco(text, head.eco)?;
    text.extend_from_slice(b" ")
}

// Puts an opening code behind the text, or a dash if there is none.
fn push_eco(text: &mut Vec<u8>, eco: u16) -> Result<(), AllocError>
    requires eco { eco ≤ 65500 }
    ensures { OnOk result (text.new.items ≡ text.old.items ++ listed_eco eco) }
{
    if eco == 0 {
        return text.extend_from_slice(b"-");
    }
    text.extend_from_slice(eco_text(eco).as_slice())
}

// Puts the names of the players behind the text, and ends the line.
fn push_players(text: &mut Vec<u8>, head: &HeadRef<'_>) -> Result<(), AllocError>
    ensures { OnOk result (text.new.items ≡ text.old.items ++ listed_players (head_of head.now [])) }
{
    text.extend_from_slice(head.white)?;
    text.extend_from_slice(b" - ")?;
    text.extend_from_slice(head.black)?;
    text.extend_from_slice(b"\n")
}

// Puts the line that counts the games that are in behind the text.
fn push_count(text: &mut Vec<u8>, filter: &Filter) -> Result<(), AllocError>
    ensures { OnOk result (text.new.items ≡ text.old.items ++ filter_line filter.now) }
{
    let line = filter_line(filter);
    text.extend_from_slice(line.as_slice())
}
