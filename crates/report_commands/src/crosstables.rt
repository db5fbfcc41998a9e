//! The command that writes the crosstable of an event.
ghost use Rattle.std.specs.Prelude.{◌≡◌, IfOk, Ok};
ghost use Rattle.report_commands.specs.Crosstables.{cross_of, cross_work};
ghost use Rattle.shell_state.specs.Stands.{Fits, Quiet};

use cell_core::Text;
use cross_table::CrossError;
use shell_state::{Machine, error_line};
use sig_index::Games;
use std::alloc::{AllocError, Global};

/// The command `cross EVENT`: gives the crosstable of the event, or its error line.
pub fn cross(alloc: Global, machine: &Machine, event: &Text) -> Result<Vec<u8>, AllocError>
    requires fits { Fits machine.now }
    ensures quiet { IfOk result (λ text. Quiet machine.now (cross_work event.now) machine.now text.items) }
{
    text_of(alloc, &machine.base, event.as_bytes())
}

// The text of the crosstable of an event.
fn text_of<G: Games>(alloc: Global, games: &G, event: &[u8]) -> Result<Vec<u8>, AllocError>
    ensures text { IfOk result (λ text. text.items ≡ cross_of event.now (G.heads games.now)) }
{
    match cross_table::cross(alloc, games, event) {
        Ok(table) => {
            let mut text = Vec::new(alloc);
            table.write(&mut text)?;
            Ok(text)
        }
        Err(CrossError::TooMany(_)) => error_line(alloc, b"too many players"),
        Err(CrossError::Memory) => Err(AllocError),
    }
}
