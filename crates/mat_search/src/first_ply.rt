//! The first matching ply of a record.
ghost use Rattle.std.specs.Prelude.{◌≡◌, ◌≤◌, ◌^◌, ◌<◌, List, length, IfOk, IfErr};
ghost use Rattle.game_codec.specs.Record.{IsRecord, IsSomeRecord};
ghost use Rattle.game_tree.specs.Game.{GameTree};
ghost use Rattle.game_tree.specs.declared.head.Tag.{Tag};
ghost use Rattle.mat_search.specs.Matching.{first_of};

use crate::looking::{Kept, Told};
use crate::matching::exchanged;
use game_codec::{RecordFault, Walk};
use sig_index::MatQuery;

// The first ply of the main line of a record that matches, or `None` if none does. The walk ends when the answer is
// known. Bytes that give a fault are no record.
pub(crate) fn first_ply(bytes: &[u8], q: &MatQuery) -> Result<Option<u32>, RecordFault>
    requires few { length bytes.now < 2 ^ 32 }
    requires streak { 1 ≤ q.now.streak }
    ensures first { IfOk result (λ ply. (tags : List Tag) (game : GameTree) → IsRecord bytes.now tags game → ply ≡ first_of q.now game) }
    ensures fault { IfErr result (λ _. IsSomeRecord bytes.now → ⊥) }
{
    let exchanged = exchanged(&q.range);
    let mut walk = Walk::new(bytes)?;
    let mut kept = Kept::at_first(q, &exchanged, walk.position().census());
    loop {
        let ply = walk.ply();
        match kept.look(q, &exchanged, ply, walk.position().census()) {
            // The streak ends at this ply.
            Told::Found => return Ok(Some(ply.saturating_sub(q.streak - 1))),
            Told::Over => return Ok(None),
            Told::Open => {}
        }
        match walk.step() {
            Ok(Some(_)) => {}
            Ok(None) => return Ok(None),
            Err(fault) => return Err(fault),
        }
    }
}
