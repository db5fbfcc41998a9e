//! What trees count of a game whose head has become another.
ghost use Rattle.std.specs.Prelude.{◌≡◌, ◌<◌, length};
ghost use Rattle.base_core.specs.Represents.{heads_of};
ghost use Rattle.sig_index.specs.Games.{head_in};
ghost use Rattle.tree_live.specs.Slots.{AreBelow, in_slot};
ghost use Rattle.edit_commands.specs.Retagging.{AreAgain, hit_again};

use base_core::Base;
use cell_core::unpack;
use shell_state::counted;
use tree_live::Slots;
use tree_rows::GameHit;

// The hits that the slots keep of game `i`, with its head as it is now.
pub(crate) fn retagged(slots: &Slots, base: &Base, i: u32) -> [Option<GameHit>; 8]
    requires eight { slots.now.count ≡ 8 }
    requires there { i < length base.now.entries }
    ensures hits { AreAgain (head_in (heads_of base.now) i) i slots.now.watches result }
{
    [
        hit_now(slots, base, 0, i),
        hit_now(slots, base, 1, i),
        hit_now(slots, base, 2, i),
        hit_now(slots, base, 3, i),
        hit_now(slots, base, 4, i),
        hit_now(slots, base, 5, i),
        hit_now(slots, base, 6, i),
        hit_now(slots, base, 7, i),
    ]
}

// That of one slot, if it keeps one.
fn hit_now(slots: &Slots, base: &Base, k: u8, i: u32) -> Option<GameHit>
    requires there { i < length base.now.entries }
    ensures hit { result ≡ hit_again (head_in (heads_of base.now) i) i (in_slot slots.now.watches k) }
    ensures below { AreBelow slots.now.count slots.now.watches }
{
    let board = slots.watched(k)?;
    let hit = slots.hit(k, i)?;
    let (_, side) = unpack(board);
    Some(counted(base, i, hit.next, side))
}
