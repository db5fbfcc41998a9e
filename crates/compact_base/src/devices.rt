//! The calls of the files for a new games file, with the errors of a compaction.
ghost use Rattle.std.specs.Prelude.{◌≡◌, ◌≤◌, ◌++◌, replicate, IfErr, OnOk, OnErr};
ghost use Rattle.base_files.specs.Counters.{Rose};
ghost use Rattle.base_files.specs.Seen.{FreshAlone, begun, committed, lengthened};
ghost use Rattle.compact_base.specs.Drafting.{IsDevice};

use crate::fault::CompactError;
use base_files::Files;

/// Begins a new games file.
pub(crate) fn begin<F: Files>(files: &mut F) -> Result<(), CompactError>
    ensures begun { OnOk result (F.seen files.new ≡ begun (F.seen files.old)) }
    ensures left { OnErr result (FreshAlone (F.seen files.old) (F.seen files.new)) }
    ensures device { IfErr result IsDevice }
    ensures none_asked { F.asked files.new ≡ F.asked files.old }
    ensures counts { F.faults files.old ≤ F.faults files.new }
    ensures cause { IfErr result (λ error. error ≡ CompactError.Failed → Rose (F.faults files.old) (F.faults files.new)) }
{
    match files.begin_new() {
        Ok(()) => Ok(()),
        Err(failed) => Err(CompactError::from(failed)),
    }
}

/// Adds zero bytes and then a record to the new games file.
pub(crate) fn append<F: Files>(files: &mut F, pad: u32, bytes: &[u8]) -> Result<(), CompactError>
    ensures added { OnOk result (F.seen files.new ≡ lengthened (replicate pad 0 ++ bytes.now) (F.seen files.old)) }
    ensures left { OnErr result (FreshAlone (F.seen files.old) (F.seen files.new)) }
    ensures device { IfErr result IsDevice }
    ensures none_asked { F.asked files.new ≡ F.asked files.old }
    ensures counts { F.faults files.old ≤ F.faults files.new }
    ensures cause { IfErr result (λ error. error ≡ CompactError.Failed → Rose (F.faults files.old) (F.faults files.new)) }
{
    match files.append_new(pad, bytes) {
        Ok(()) => Ok(()),
        Err(failed) => Err(CompactError::from(failed)),
    }
}

/// Makes the new games file, these names and this index the current ones.
pub(crate) fn commit<F: Files>(
    files: &mut F,
    names: &[u8],
    index: &[u8],
) -> Result<(), CompactError>
    ensures committed { OnOk result (F.seen files.new ≡ committed names.now index.now (F.seen files.old)) }
    ensures left { OnErr result (FreshAlone (F.seen files.old) (F.seen files.new)) }
    ensures device { IfErr result IsDevice }
    ensures none_asked { F.asked files.new ≡ F.asked files.old }
    ensures counts { F.faults files.old ≤ F.faults files.new }
    ensures cause { IfErr result (λ error. error ≡ CompactError.Failed → Rose (F.faults files.old) (F.faults files.new)) }
{
    match files.commit_new(names, index) {
        Ok(()) => Ok(()),
        Err(failed) => Err(CompactError::from(failed)),
    }
}
