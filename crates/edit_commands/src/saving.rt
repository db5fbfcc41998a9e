//! The command that saves the base.
ghost use Rattle.std.specs.Prelude.{◌≡◌, Ok, IfOk, IfErr, OnOk};
ghost use Rattle.base_core.specs.Saved.{IsSaved};
ghost use Rattle.command_runs.specs.Counts.{Causes, counts};
ghost use Rattle.command_runs.specs.Endings.{NoneLost, Serves};
ghost use Rattle.edit_commands.specs.Ends.{unsaved_halt};
ghost use Rattle.edit_commands.specs.Saving.{save_after, saved_line, save_work};
ghost use Rattle.shell_state.specs.Carrying.{Settled, StillCarry};
ghost use Rattle.shell_state.specs.Ends.{IsDevice, Unsaid};
ghost use Rattle.shell_state.specs.Stands.{Stands, Sound, Broken, WhyHalt};
ghost use Rattle.shell_state.specs.State.{State};
ghost use Rattle.shell_state.specs.Work.{works};

use base_core::SaveError;
use base_files::{Files, Sink, Stop};
use shell_state::{Halt, Machine, write_line};
use std::alloc::{AllocError, Global};

/// The command `save`: makes the files mean the base, and writes its line.
#[tactic(auto, using(shell_state::proofs::Causing::unsaid_without))]
pub fn save<F: Files, K: Sink>(
    alloc: Global,
    machine: &mut Machine,
    files: &mut F,
    out: &mut K,
) -> Result<(), Halt>
    requires sound { Sound machine.old (F.seen files.old) }
    ensures serves { (s : State) → Stands machine.old (F.seen files.old) s → Serves works (Stands machine.new (F.seen files.new)) Broken s save_work (K.taken out.old) (K.taken out.new) result }
    // Whatever they hold, the names file and the index are then what is written for the base.
    ensures saved { OnOk result (IsSaved machine.old.kept (F.seen files.old) (F.seen files.new)) }
    ensures sound { OnOk result (Sound machine.new (F.seen files.new)) }
    ensures carries { (s : State) → Stands machine.old (F.seen files.old) s → IfErr result (λ _. StillCarry (F.seen files.new) s (Some (λ base. base))) }
    // Nothing of its line was written before the files carry the base.
    ensures settled { (s : State) → Stands machine.old (F.seen files.old) s → IfErr result (λ _. Settled (F.seen files.new) (save_after s) (K.taken out.old) (K.taken out.new)) }
    ensures choices { (F.seen files.new).choices ≡ (F.seen files.old).choices }
    ensures none_asked { F.asked files.new ≡ F.asked files.old }
    ensures unsaid { IfErr result (λ e. Unsaid e (K.taken out.old) (K.taken out.new)) }
    ensures none_lost { NoneLost (K.taken out.old) (K.taken out.new) }
    ensures causes { Causes WhyHalt result (counts (F.faults files.old) 0 (K.faults out.old)) (counts (F.faults files.new) 0 (K.faults out.new)) }
{
    if let Err(halt) = save_files(alloc, machine, files) {
        return Err(halt);
    }
    let line = saved_line(alloc, machine.games())?;
    write_line(out, line.as_slice())
}

// Makes the files mean the base.
fn save_files<F: Files>(alloc: Global, machine: &mut Machine, files: &mut F) -> Result<(), Halt>
    requires sound { Sound machine.old (F.seen files.old) }
    ensures stands { (s : State) → Stands machine.old (F.seen files.old) s → OnOk result (Stands machine.new (F.seen files.new) (save_after s)) }
    ensures saved { OnOk result (IsSaved machine.old.kept (F.seen files.old) (F.seen files.new)) }
    ensures devices { IfErr result IsDevice }
    ensures sound { OnOk result (Sound machine.new (F.seen files.new)) }
    ensures carries { (s : State) → Stands machine.old (F.seen files.old) s → IfErr result (λ _. StillCarry (F.seen files.new) s (Some (λ base. base))) }
    ensures choices { (F.seen files.new).choices ≡ (F.seen files.old).choices }
    ensures none_asked { F.asked files.new ≡ F.asked files.old }
    ensures causes { Causes WhyHalt result (counts (F.faults files.old) 0 0) (counts (F.faults files.new) 0 0) }
{
    if let Err(error) = machine.base.save(alloc, files) {
        return Err(unsaved_halt(error));
    }
    Ok(())
}

// How the command ends if the base is not saved.
fn unsaved_halt(error: SaveError) -> Halt
    ensures halt { result ≡ unsaved_halt error }
{
    match error {
        SaveError::Failed => Halt::Device(Stop::Files),
        SaveError::Memory => Halt::Device(Stop::Memory),
    }
}

// `saved G games`.
fn saved_line(alloc: Global, games: u32) -> Result<Vec<u8>, AllocError>
    ensures line { IfOk result (λ line. line.items ≡ saved_line games) }
{
    let line = format!(in alloc; "saved {games} games\n")?;
    Ok(line.into_bytes())
}
