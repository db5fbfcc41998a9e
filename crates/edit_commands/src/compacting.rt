//! The command that compacts the base.
ghost use Rattle.std.specs.Prelude.{◌≡◌, Ok, length, option_map, IfOk, IfErr, IfSome, OnOk};
ghost use Rattle.base_core.specs.Compacted.{compacted};
ghost use Rattle.command_runs.specs.Counts.{Causes, counts};
ghost use Rattle.edit_commands.specs.Compacting.{DidCompact, compact_after, compact_text, compacted_line, compact_work};
ghost use Rattle.edit_commands.specs.Ends.{uncompacted};
ghost use Rattle.edit_commands.specs.Indexed.{renumbered_index};
ghost use Rattle.shell_state.specs.Carrying.{StillCarry};
ghost use Rattle.shell_state.specs.Ends.{EndsAs, IsDevice};
ghost use Rattle.shell_state.specs.Stands.{Stands, Sound, WhyHalt, Asks};
ghost use Rattle.shell_state.specs.State.{State};

use base_core::What;
use base_files::{Files, Stop};
use compact_base::CompactError;
use filter_seat::renumber_all;
use game_filter::Renumbering;
use pos_index::PosIndex;
use shell_state::{Halt, Machine, Refusal, refusal_line};
use std::alloc::{AllocError, Global};

/// The command `compact`: takes the deleted games out, and gives its line, which is not written yet. The filters, the index
/// and the slots move with the games that are left.
pub fn compact_line<F: Files>(
    alloc: Global,
    machine: &mut Machine,
    files: &mut F,
) -> Result<Vec<u8>, Halt>
    requires sound { Sound machine.old (F.seen files.old) }
    ensures line { (s : State) → Stands machine.old (F.seen files.old) s → IfOk result (λ line. line.items ≡ compact_text s) }
    ensures stands { (s : State) → Stands machine.old (F.seen files.old) s → OnOk result (Stands machine.new (F.seen files.new) (compact_after s)) }
    ensures devices { (s : State) → Stands machine.old (F.seen files.old) s → IfErr result IsDevice }
    ensures copied { IfOk result (λ line. DidCompact machine.old.kept machine.new.kept (F.seen files.old) (F.seen files.new) line.items) }
    ensures sound { OnOk result (Sound machine.new (F.seen files.new)) }
    ensures carries { (s : State) → Stands machine.old (F.seen files.old) s → StillCarry (F.seen files.new) s (Some compacted) }
    ensures choices { (F.seen files.new).choices ≡ (F.seen files.old).choices }
    ensures asks { Asks machine.old compact_work (F.asked files.old) (F.asked files.new) }
    ensures causes { Causes WhyHalt result (counts (F.faults files.old) 0 0) (counts (F.faults files.new) 0 0) }
{
    let games = machine.games();
    let block = machine.block.as_mut_slice();
    let compacted = compact_base::compact(alloc, &mut machine.base, files, block);
    machine.keeps_sound();
    match compacted {
        Ok(renumbering) => {
            renumber_index(&mut machine.index, &renumbering);
            renumber_all(
                &mut machine.seat.filter,
                machine.seat.saved.as_mut_slice(),
                &renumbering,
            );
            machine.slots.renumber(&renumbering)?;
            Ok(compacted_line(alloc, games, renumbering.kept())?)
        }
        Err(error) => uncompacted(alloc, error),
    }
}

// The index, if there is one, gets the new numbers of the games.
fn renumber_index(index: &mut Option<PosIndex>, renumbering: &Renumbering)
    requires rows { IfSome index.old (λ x. length renumbering.now.to ≡ length x.rows) }
    ensures renumbered { index.new ≡ option_map (renumbered_index renumbering.now.to) index.old }
{
    if let Some(index) = index {
        index.renumber(renumbering);
    }
}

// The error line of a base that is not compacted, or how the command ends.
fn uncompacted(alloc: Global, error: CompactError) -> Result<Vec<u8>, Halt>
    ensures line { IfOk result (λ line. uncompacted error ≡ Ok line.items) }
    ensures halt { IfErr result (EndsAs (uncompacted error)) }
{
    match error {
        CompactError::Full => Ok(refusal_line(alloc, Refusal::Full(What::File))?),
        CompactError::Failed => Err(Halt::Device(Stop::Files)),
        CompactError::Memory => Err(Halt::Device(Stop::Memory)),
        CompactError::Changed { game, kept, found } => Err(Halt::Changed { game, kept, found }),
    }
}

// `compacted A to B`.
fn compacted_line(alloc: Global, games: u32, kept: u32) -> Result<Vec<u8>, AllocError>
    ensures line { IfOk result (λ line. line.items ≡ compacted_line games kept) }
{
    let line = format!(in alloc; "compacted {games} to {kept}\n")?;
    Ok(line.into_bytes())
}
