//! Writing lines.
ghost use Rattle.std.specs.Prelude.{◌≡◌, ◌<◌, [], Ok, IfErr, OnOk};
ghost use Rattle.base_files.specs.Told.{adds};
ghost use Rattle.command_runs.specs.Counts.{Causes, counts};
ghost use Rattle.command_runs.specs.Endings.{Halted, NoneLost};
ghost use Rattle.shell_state.specs.Ends.{IsOutput};
ghost use Rattle.shell_state.specs.Lines.{filter_line};
ghost use Rattle.shell_state.specs.Stands.{WhyHalt};

use crate::halt::Halt;
use crate::short_lines::filter_line;
use base_files::{Sink, Stop};
use command_runs::write_text;
use game_filter::Filter;

/// How many bytes of text are put together before they are written.
pub const PIECE: usize = 32_768;

/// How many bytes a page has room for: a piece and the longest line of a game behind it, whose names have at most 255 bytes each.
pub const PAGE: usize = 33_792;

/// Writes `filter N of M`.
pub fn write_filter<K: Sink>(filter: &Filter, out: &mut K) -> Result<(), Halt>
    ensures written { OnOk result (K.taken out.new ≡ adds (K.taken out.old) (filter_line filter.now)) }
    ensures halted { Halted [] (filter_line filter.now) (K.taken out.old) (K.taken out.new) }
    ensures output { IfErr result IsOutput }
    ensures none_lost { NoneLost (K.taken out.old) (K.taken out.new) }
    ensures causes { Causes WhyHalt result (counts 0 0 (K.faults out.old)) (counts 0 0 (K.faults out.new)) }
{
    let line = filter_line(filter);
    write_line(out, line.as_slice())
}

/// Writes a line whose work is done.
pub fn write_line<K: Sink>(out: &mut K, line: &[u8]) -> Result<(), Halt>
    ensures written { OnOk result (K.taken out.new ≡ adds (K.taken out.old) line.now) }
    ensures halted { Halted [] line.now (K.taken out.old) (K.taken out.new) }
    ensures output { IfErr result IsOutput }
    ensures none_lost { NoneLost (K.taken out.old) (K.taken out.new) }
    ensures causes { Causes WhyHalt result (counts 0 0 (K.faults out.old)) (counts 0 0 (K.faults out.new)) }
{
    match write_text(out, line) {
        Ok(()) => Ok(()),
        Err(stop) => Err(Halt::Device(stop)),
    }
}
