//! Writing a whole slice into a sink.
ghost use Rattle.std.specs.Prelude.{◌≡◌, ◌≤◌, OnOk, IfErr};
ghost use Rattle.base_files.specs.Told.{adds, Grew};
ghost use Rattle.base_files.specs.Causes.{HasCause};

use crate::faults::DeviceError;
use crate::sink::Sink;

/// Writes all the bytes. After an error the sink has taken a front part of them, which may be empty.
pub fn write_all<S: Sink>(sink: &mut S, bytes: &[u8]) -> Result<(), DeviceError>
    ensures added { OnOk result (S.taken sink.new ≡ adds (S.taken sink.old) bytes.now) }
    ensures none_lost { Grew (S.taken sink.old) (S.taken sink.new) }
    ensures no_more { Grew (S.taken sink.new) (adds (S.taken sink.old) bytes.now) }
    ensures counts { S.faults sink.old ≤ S.faults sink.new }
    ensures cause { IfErr result (λ e. HasCause e (S.faults sink.old) (S.faults sink.new)) }
{
    let mut rest = bytes;
    while !rest.is_empty() {
        match sink.write(rest) {
            Ok(n) => rest = rest.split_at(n).1,
            Err(error) => return Err(error),
        }
    }
    Ok(())
}
