//! Bodies that are read whole.
ghost use Rattle.std.specs.Prelude.{◌≡◌, ◌<◌, ◌^◌, length, IfOk, IfErr};
ghost use Rattle.base_files.specs.Told.{Tells};
ghost use Rattle.command_runs.specs.Counts.{Causes, counts};
ghost use Rattle.shell_state.specs.Ends.{IsBodyFault};
ghost use Rattle.shell_state.specs.Stands.{WhyHalt};

use base_files::{Failed, Source, Stop};
use shell_state::Halt;
use std::alloc::Global;

// How many bytes of a body are asked for at once.
const PIECE: usize = 4096;

// No body is longer: a script has at most 2^30 bytes.
const LONGEST: usize = 4_294_967_295;

// All bytes of a body.
pub(crate) fn read_body<B: Source>(alloc: Global, body: &mut B) -> Result<Vec<u8>, Halt>
    ensures whole { IfOk result (λ bytes. Tells (B.left body.old) bytes.items) }
    ensures few { IfOk result (λ bytes. length bytes.items < 2 ^ 32) }
    ensures devices { IfErr result IsBodyFault }
    ensures same { B.origin body.new ≡ B.origin body.old }
    ensures causes { Causes WhyHalt result (counts 0 (B.faults body.old) 0) (counts 0 (B.faults body.new) 0) }
{
    let mut bytes = Vec::new(alloc);
    let mut piece = [0; PIECE];
    'pieces: loop {
        let n = match body.read(&mut piece) {
            Ok(n) => n,
            Err(Failed) => return Err(Halt::Device(Stop::Read)),
        };
        if n == 0 {
            return Ok(bytes);
        }
        if n > LONGEST - bytes.len() {
            return Err(Halt::Device(Stop::Memory));
        }
        bytes.extend_from_slice(&piece[..n])?;
    }
}
