//! Writing the games of a filter.
ghost use Rattle.std.specs.Prelude.{◌≡◌, ◌≤◌, [], ◌∷◌, ◌++◌, Ok, OnOk, IfErr};
ghost use Rattle.base_files.specs.Causes.{HasCause};
ghost use Rattle.base_files.specs.Seen.{Seen};
ghost use Rattle.base_files.specs.Told.{Grew, adds};
ghost use Rattle.command_runs.specs.Counts.{Causes, Why, counts};
ghost use Rattle.command_runs.specs.Endings.{Halted, NoneLost, Serves};
ghost use Rattle.search_commands.specs.Searching.{hits_work};
ghost use Rattle.shell_state.specs.Lines.{count_line, hit_line, hit_lines, hits_text};
ghost use Rattle.shell_state.specs.Stands.{Stands, Broken, WhyHalt};
ghost use Rattle.shell_state.specs.State.{State};
ghost use Rattle.shell_state.specs.Work.{works};

use base_files::{DeviceError, Sink, Stop, write_all};
use game_filter::Filter;
use shell_state::{Halt, Machine, PIECE, count_line, hit_line};
use std::alloc::AllocError;

/// The command `hits`: writes a line for each game of the filter, and then that of the filter.
pub fn hits<K: Sink>(machine: &mut Machine, out: &mut K) -> Result<(), Halt>
    ensures same { machine.new ≡ machine.old }
    ensures serves { (seen : Seen) (s : State) → Stands machine.old seen s → Serves works (Stands machine.new seen) Broken s hits_work (K.taken out.old) (K.taken out.new) result }
    ensures none_lost { NoneLost (K.taken out.old) (K.taken out.new) }
    ensures causes { Causes WhyHalt result (counts 0 0 (K.faults out.old)) (counts 0 0 (K.faults out.new)) }
{
    match write_hits(&machine.seat.filter, &mut machine.page, out) {
        Ok(()) => Ok(()),
        Err(stop) => Err(Halt::Device(stop)),
    }
}

// Writes a line for each game that is in, and then how many of how many there are. The text goes out in pieces, by way of `page`.
#[tactic(auto, using(command_runs::proofs::Joining::halted_by, command_runs::proofs::Joining::none_lost_by))]
pub(crate) fn write_hits<K: Sink>(
    filter: &Filter,
    page: &mut Vec<u8>,
    out: &mut K,
) -> Result<(), Stop>
    ensures written { OnOk result (K.taken out.new ≡ adds (K.taken out.old) (hits_text filter.now)) }
    ensures halted { Halted [] (hits_text filter.now) (K.taken out.old) (K.taken out.new) }
    ensures none_lost { NoneLost (K.taken out.old) (K.taken out.new) }
    ensures causes { Causes Why result (counts 0 0 (K.faults out.old)) (counts 0 0 (K.faults out.new)) }
{
    page.clear();
    match put_hits(filter, page, out) {
        Ok(()) => Ok(()),
        Err(error) => Err(error.of_output()),
    }
}

// Writes the lines of a filter. `text` is empty.
fn put_hits<K: Sink>(filter: &Filter, text: &mut Vec<u8>, out: &mut K) -> Result<(), DeviceError>
    requires empty { text.old.items ≡ [] }
    ensures written { OnOk result (K.taken out.new ≡ adds (K.taken out.old) (hits_text filter.now)) }
    ensures none_lost { Grew (K.taken out.old) (K.taken out.new) }
    ensures no_more { Grew (K.taken out.new) (adds (K.taken out.old) (hits_text filter.now)) }
    ensures counts { K.faults out.old ≤ K.faults out.new }
    ensures cause { IfErr result (λ e. HasCause e (K.faults out.old) (K.faults out.new)) }
{
    for game in 0..filter.len() {
        put_game(text, game, filter.get(game), out)?;
    }
    put_count(text, filter.count(), filter.len())?;
    write_all(out, text.as_slice())
}

// Puts the line of a game behind the text, if it is in, and writes the text if it is long enough.
fn put_game<K: Sink>(
    text: &mut Vec<u8>,
    game: u32,
    hit: Option<u32>,
    out: &mut K,
) -> Result<(), DeviceError>
    ensures put { OnOk result (adds (K.taken out.new) (text.new.items) ≡ adds (K.taken out.old) (text.old.items ++ hit_lines game (hit ∷ []))) }
    ensures none_lost { Grew (K.taken out.old) (K.taken out.new) }
    ensures no_more { Grew (K.taken out.new) (adds (K.taken out.old) (text.old.items ++ hit_lines game (hit ∷ []))) }
    ensures counts { K.faults out.old ≤ K.faults out.new }
    ensures cause { IfErr result (λ e. HasCause e (K.faults out.old) (K.faults out.new)) }
{
    let Some(ply) = hit else {
        return Ok(());
    };
    push_hit(text, game, ply)?;
    if text.len() >= PIECE {
        write_all(out, text.as_slice())?;
        text.clear();
    }
    Ok(())
}

// Puts the line of a game that is in behind the text.
fn push_hit(text: &mut Vec<u8>, game: u32, ply: u32) -> Result<(), AllocError>
    ensures { OnOk result (text.new.items ≡ text.old.items ++ hit_line game ply) }
{
    text.extend_from_slice(hit_line(game, ply).as_slice())
}

// Puts the line that counts the games that are in behind the text.
fn put_count(text: &mut Vec<u8>, count: u32, games: u32) -> Result<(), AllocError>
    ensures { OnOk result (text.new.items ≡ text.old.items ++ count_line count games) }
{
    let line = count_line(u64::from(count), u64::from(games));
    text.extend_from_slice(line.as_slice())
}
