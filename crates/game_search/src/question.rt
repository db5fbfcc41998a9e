//! What a search asks of each game.
ghost use Rattle.std.specs.Prelude.{◌≡◌, ◌≤◌, ℕ, List, Option, length, is_none, IfSome, IfOk, OnErr};
ghost use Rattle.game_codec.specs.Record.{IsRecord, IsSomeRecord};
ghost use Rattle.game_tree.specs.Game.{GameTree};
ghost use Rattle.game_tree.specs.declared.head.Tag.{Tag};
ghost use Rattle.sig_index.specs.Signature.{IsSig, IsSigBounded};
ghost use Rattle.game_search.specs.Questions.{Unread};

use game_codec::RecordFault;
use sig_index::Brief;

/// What a search asks of each game: the first ply at which it matches.
pub trait Question {
    // The first matching ply of a game.
    ghost first: { Self → GameTree → Option ℕ };

    // Which games have to be read, and what is known of the others.
    ghost tells: { Self → Unread → Type 0 };

    /// What is known of the first matching ply of game `i` of this signature without its record: the ply, if the game
    /// has one; or `None`, if the record has to be read.
    fn unread(&mut self, i: u32, sig: &Brief<'_>) -> Option<Option<u32>>
        requires bounded { IsSigBounded sig.now }
        ensures same { self.new ≡ self.old }
        ensures reads { (unread : Unread) → tells self.old unread → is_none result ≡ unread.reads i sig.now }
        ensures known { (unread : Unread) → tells self.old unread → IfSome result (λ ply. ply ≡ unread.ply i) };

    /// The first matching ply of the game of a record, if it has one and this is its signature. Bytes that give a fault
    /// are no record.
    fn in_record(&mut self, record: &[u8], sig: &Brief<'_>) -> Result<Option<u32>, RecordFault>
        requires short { length record.now ≤ 131071 }
        ensures same { self.new ≡ self.old }
        ensures first { IfOk result (λ ply. (tags : List Tag) (game : GameTree) → IsRecord record.now tags game → IsSig game sig.now → ply ≡ first self.old game) }
        ensures fault { OnErr result (IsSomeRecord record.now → ⊥) };
}
