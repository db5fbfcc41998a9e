//! Text that goes out in pages: it is put behind what waits, and all that waits is written when it fills a page.
//!
//! What an output has taken and what waits for it are one text, of which no write changes anything (`kept`). So a command that puts its text
//! here meets the same contract in that text as one that writes it at once.
ghost use Rattle.std.specs.Prelude.{◌≡◌, ◌≤◌, [], drop, length, IfErr, OnOk};
ghost use Rattle.base_files.specs.Told.{adds};
ghost use Rattle.command_runs.specs.Counts.{Causes, counts};
ghost use Rattle.command_runs.specs.Endings.{NoneLost};
ghost use Rattle.shell_state.specs.Ends.{IsOutput};
ghost use Rattle.shell_state.specs.Stands.{WhyHalt};

use crate::halt::Halt;
use crate::writing::PIECE;
use base_files::Sink;
use command_runs::write_from;

/// Writes all that waits, if it fills a page.
pub fn write_full<K: Sink>(page: &mut Vec<u8>, out: &mut K) -> Result<(), Halt>
    ensures kept { adds (K.taken out.new) page.new.items ≡ adds (K.taken out.old) page.old.items }
    ensures output { IfErr result IsOutput }
    ensures none_lost { NoneLost (K.taken out.old) (K.taken out.new) }
    ensures causes { Causes WhyHalt result (counts 0 0 (K.faults out.old)) (counts 0 0 (K.faults out.new)) }
{
    if page.len() < PIECE {
        return Ok(());
    }
    write_page(page, out)
}

/// Writes all that waits. After an error what was not written waits still.
pub fn write_page<K: Sink>(page: &mut Vec<u8>, out: &mut K) -> Result<(), Halt>
    ensures kept { adds (K.taken out.new) page.new.items ≡ adds (K.taken out.old) page.old.items }
    ensures empty { OnOk result (page.new.items ≡ []) }
    ensures shorter { length page.new.items ≤ length page.old.items }
    ensures output { IfErr result IsOutput }
    ensures none_lost { NoneLost (K.taken out.old) (K.taken out.new) }
    ensures causes { Causes WhyHalt result (counts 0 0 (K.faults out.old)) (counts 0 0 (K.faults out.new)) }
{
    let mut written = 0;
    match write_from(page.as_slice(), &mut written, out) {
        Ok(()) => {
            page.clear();
            Ok(())
        }
        Err(error) => {
            remove_front(page, written);
            Err(Halt::Device(error.of_output()))
        }
    }
}

// Removes the first bytes, so many of them.
#[tactic(auto, using(crate::proofs::PageLaws::front_removed))]
fn remove_front(bytes: &mut Vec<u8>, count: usize)
    requires there { count ≤ length bytes.old.items }
    ensures rest { bytes.new.items ≡ drop count bytes.old.items }
{
    let all = bytes.len();
    bytes.copy_within(count..all, 0);
    bytes.truncate(all - count);
}
