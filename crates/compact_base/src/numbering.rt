//! How the games are numbered anew.
ghost use Rattle.std.specs.Prelude.{◌≡◌, ◌<◌, ◌+◌, length, take, IfOk, OnOk};
ghost use Rattle.compact_base.specs.Compacting.{numbering};

use base_core::Base;
use game_filter::Renumbering;
use sig_index::Games;
use std::alloc::{AllocError, Global};

/// How a compaction of the base numbers its games anew.
pub fn numbering_of(alloc: Global, base: &Base) -> Result<Renumbering, AllocError>
    ensures numbers { IfOk result (λ renumbering. renumbering ≡ numbering base.now.entries) }
{
    let mut renumbering = Renumbering::new(alloc);
    for i in 0..base.len() {
        number_game(base, i, &mut renumbering)?;
    }
    Ok(renumbering)
}

// One game more: it stays, or goes.
fn number_game(base: &Base, i: u32, renumbering: &mut Renumbering) -> Result<(), AllocError>
    requires there { i < length base.now.entries }
    requires numbers { renumbering.old ≡ numbering (take i base.now.entries) }
    ensures numbers { OnOk result (renumbering.new ≡ numbering (take (i + 1) base.now.entries)) }
{
    // Reading the header makes the bounds of the base known.
    let _header = base.header();
    if base.is_deleted(i) {
        renumbering.remove()?;
        return Ok(());
    }
    renumbering.keep()?;
    Ok(())
}
