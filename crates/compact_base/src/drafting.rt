//! The draft of the games that stay.
ghost use Rattle.std.specs.Prelude.{◌<◌, ◌+◌, length, take, IfOk, IfErr, OnOk};
ghost use Rattle.compact_base.specs.Compacting.{new_end};
ghost use Rattle.compact_base.specs.Drafting.{HasFirst, WhyNotDrafted};

use crate::fault::CompactError;
use base_core::{Base, Draft};
use sig_index::Games;
use std::alloc::Global;

/// The draft of the games that stay.
pub(crate) fn draft_of(alloc: Global, base: &Base) -> Result<Draft, CompactError>
    ensures drafted { IfOk result (HasFirst (length base.now.entries) base.now) }
    ensures why { IfErr result (WhyNotDrafted (new_end base.now.entries)) }
{
    let mut draft = Draft::new(alloc, base);
    for i in 0..base.len() {
        draft_game(alloc, base, i, &mut draft)?;
    }
    Ok(draft)
}

// One game more: it is taken over, or goes.
fn draft_game(alloc: Global, base: &Base, i: u32, draft: &mut Draft) -> Result<(), CompactError>
    requires there { i < length base.now.entries }
    requires drafted { HasFirst i base.now draft.old }
    ensures drafted { OnOk result (HasFirst (i + 1) base.now draft.new) }
    ensures why { IfErr result (WhyNotDrafted (new_end (take (i + 1) base.now.entries))) }
{
    // Reading the header makes the bounds of the base known.
    let _header = base.header();
    if base.is_deleted(i) {
        return Ok(());
    }
    match draft.push(alloc, base, i) {
        Ok(_pad) => Ok(()),
        Err(error) => Err(CompactError::from(error)),
    }
}
