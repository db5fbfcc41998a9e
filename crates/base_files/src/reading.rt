//! Reading a source to its end, up to a limit.
ghost use Rattle.std.specs.Prelude.{◌≡◌, ◌+◌, ◌<◌, ◌≤◌, [], length, IfErr};
ghost use Rattle.base_files.specs.Told.{before, Tells, Advanced};
ghost use Rattle.base_files.specs.Causes.{HasCause};
ghost use Rattle.base_files.specs.Inputs.{IfWhole, IfTooLong, MoreThan};

use crate::faults::DeviceError;
use crate::source::Source;
use std::alloc::Global;

/// What a source had up to its end, or that it has more bytes than the limit.
#[derive(Drop)]
pub enum Input {
    /// All the bytes, at most as many as the limit.
    Whole(Vec<u8>),
    /// There are more bytes than the limit.
    TooLong,
}

/// How many bytes are asked of a source at once.
const PIECE: usize = 4096;

/// Reads the source to its end, if that comes within `limit` bytes. At most `limit + 1` bytes are read.
#[tactic(auto, using(crate::proofs::Telling::advances))]
pub fn read_to_limit<S: Source>(
    alloc: Global,
    source: &mut S,
    limit: usize,
) -> Result<Input, DeviceError>
    ensures whole { IfWhole result (λ bytes. Tells (S.left source.old) bytes) }
    ensures taken { IfWhole result (λ bytes. S.left source.old ≡ before bytes (S.left source.new)) }
    ensures end { IfWhole result (λ _. Tells (S.left source.new) []) }
    ensures within { IfWhole result (λ bytes. length bytes ≤ limit) }
    ensures too_long { IfTooLong result (MoreThan limit (S.left source.old)) }
    ensures spent_too_much { IfTooLong result (S.budget source.new + limit < S.budget source.old) }
    ensures advanced { Advanced (S.left source.old) (S.left source.new) }
    ensures spends { S.budget source.new ≤ S.budget source.old }
    ensures no_further { S.budget source.old ≤ S.budget source.new + limit + 1 }
    ensures counts { S.faults source.old ≤ S.faults source.new }
    ensures cause { IfErr result (λ e. HasCause e (S.faults source.old) (S.faults source.new)) }
{
    let mut bytes = Vec::new(alloc);
    let mut piece = [0; PIECE];
    'pieces: loop {
        let room = limit - bytes.len();
        let asked = if room < PIECE { room + 1 } else { PIECE };
        let n = match source.read(&mut piece[..asked]) {
            Ok(n) => n,
            Err(fault) => return Err(DeviceError::from(fault)),
        };
        if n == 0 {
            return Ok(Input::Whole(bytes));
        }
        if n > room {
            return Ok(Input::TooLong);
        }
        bytes.extend_from_slice(&piece[..n])?;
    }
}
