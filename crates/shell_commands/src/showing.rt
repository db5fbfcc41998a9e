//! Bringing the views of slots up to date within a command.
ghost use Rattle.std.specs.Prelude.{◌≡◌, ◌+◌, ◌≤◌, IfErr};
ghost use Rattle.base_files.specs.declared.faults.Stop.TheVariants as stop;
ghost use Rattle.shell_commands.specs.Saying.{Wrote};
ghost use Rattle.shell_commands.specs.Showing.{AllFit, Updated};
ghost use Rattle.shell_state.specs.declared.halt.Halt.TheVariants as halt;

use base_files::{Sink, Stop};
use shell_state::{Halt, Machine, write_line};
use std::alloc::{AllocError, Global};
use tree_live::TreeView;
use view_commands::{Window, show};

// Tells the views of a user the rows that differ.
pub(crate) fn show_rows(
    alloc: Global,
    machine: &mut Machine,
    views: &mut [Option<Box<dyn TreeView>>],
    window: Window,
) -> Result<(), Halt>
    requires room { window.first + window.count ≤ 8 }
    requires fits { AllFit machine.old }
    ensures updated { Updated (λ b. rows b) (λ b. told b) window machine.old machine.new views.old views.new result }
    ensures memory { IfErr result (λ e. e ≡ halt.Device stop.Memory) }
{
    match show(alloc, machine, views, window) {
        Ok(()) => Ok(()),
        Err(AllocError) => Err(Halt::Device(Stop::Memory)),
    }
}

// The same, and then writes the last line of a command.
pub(crate) fn show_line<K: Sink>(
    alloc: Global,
    machine: &mut Machine,
    views: &mut [Option<Box<dyn TreeView>>],
    out: &mut K,
    line: &[u8],
    window: Window,
) -> Result<(), Halt>
    requires room { window.first + window.count ≤ 8 }
    requires fits { AllFit machine.old }
    ensures updated { Updated (λ b. rows b) (λ b. told b) window machine.old machine.new views.old views.new result }
    ensures wrote { Wrote line.now (K.taken out.old) (K.taken out.new) (K.faults out.old) (K.faults out.new) result }
{
    match show_rows(alloc, machine, views, window) {
        Ok(()) => write_line(out, line),
        Err(halt) => Err(halt),
    }
}
