//! Writing a text.
ghost use Rattle.std.specs.Prelude.{◌≡◌, ◌≤◌, [], drop, length, IfErr, OnOk};
ghost use Rattle.base_files.specs.Causes.{HasCause};
ghost use Rattle.base_files.specs.Told.{adds, Grew};
ghost use Rattle.command_runs.specs.Endings.{Halted, NoneLost};
ghost use Rattle.command_runs.specs.Counts.{Causes, Why, counts};

use base_files::{DeviceError, Sink, Stop, write_all};

/// Writes a text. After an error the sink has taken a front part of it, which may be empty.
#[tactic(auto, using(crate::proofs::Joining::halted_by, crate::proofs::Joining::none_lost_by))]
pub fn write_text<K: Sink>(out: &mut K, text: &[u8]) -> Result<(), Stop>
    ensures written { OnOk result (K.taken out.new ≡ adds (K.taken out.old) text.now) }
    ensures halted { Halted [] text.now (K.taken out.old) (K.taken out.new) }
    ensures none_lost { NoneLost (K.taken out.old) (K.taken out.new) }
    ensures causes { Causes Why result (counts 0 0 (K.faults out.old)) (counts 0 0 (K.faults out.new)) }
{
    match write_all(out, text) {
        Ok(()) => Ok(()),
        Err(error) => Err(error.of_output()),
    }
}

/// Writes the bytes from a place on, and moves the place behind those that the sink has taken.
pub fn write_from<K: Sink>(
    bytes: &[u8],
    written: &mut usize,
    out: &mut K,
) -> Result<(), DeviceError>
    requires within { written.old ≤ length bytes.now }
    ensures kept { adds (K.taken out.new) (drop written.new bytes.now) ≡ adds (K.taken out.old) (drop written.old bytes.now) }
    ensures within { written.new ≤ length bytes.now }
    ensures all { OnOk result (written.new ≡ length bytes.now) }
    ensures grew { Grew (K.taken out.old) (K.taken out.new) }
    ensures counts { K.faults out.old ≤ K.faults out.new }
    ensures cause { IfErr result (λ e. HasCause e (K.faults out.old) (K.faults out.new)) }
{
    while *written < bytes.len() {
        match out.write(bytes.split_at(*written).1) {
            Ok(n) => *written += n,
            Err(error) => return Err(error),
        }
    }
    Ok(())
}
