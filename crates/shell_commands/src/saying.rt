//! Writing the line of a command that uses no file.
ghost use Rattle.command_runs.specs.Counts.{Causes, counts};
ghost use Rattle.command_runs.specs.Endings.{NoneLost};
ghost use Rattle.shell_commands.specs.Saying.{Said};
ghost use Rattle.shell_state.specs.Stands.{WhyHalt};

use base_files::{Sink, Stop};
use shell_state::{Halt, write_line};
use std::alloc::AllocError;

// Writes the line, if memory sufficed for it.
#[tactic(auto, using(crate::proofs::ShownLaws::said_by))]
pub(crate) fn say<K: Sink>(out: &mut K, answer: Result<Vec<u8>, AllocError>) -> Result<(), Halt>
    ensures said { Said answer result (K.taken out.old) (K.taken out.new) }
    ensures none_lost { NoneLost (K.taken out.old) (K.taken out.new) }
    ensures causes { Causes WhyHalt result (counts 0 0 (K.faults out.old)) (counts 0 0 (K.faults out.new)) }
{
    match answer {
        Ok(line) => write_line(out, line.as_slice()),
        Err(AllocError) => Err(Halt::Device(Stop::Memory)),
    }
}
