//! What is written is read again.
ghost use Rattle.std.specs.Prelude.{List, All};
ghost use Rattle.game_tree.specs.Game.{GameTree};
ghost use Rattle.game_tree.specs.Head.{IsTag};
ghost use Rattle.game_tree.specs.Kept.{IsGame};
ghost use Rattle.game_tree.specs.Legal.{IsLegalGame};
ghost use Rattle.game_tree.specs.declared.head.Tag.{Tag as TagValue};
ghost use Rattle.game_codec.specs.Record.{IsRecord};
ghost use Rattle.game_codec.specs.Written.{written_record};

/// A law: the written form of a legal game and of tags within their bounds is a record of this game and these tags. So
/// `decode_game` gives them back. Every `Game` keeps `IsGame`.
pub fn written_records_are_read()
    ensures { (tags : List TagValue) (game : GameTree) → IsGame game → IsLegalGame game
        → All IsTag tags → IsRecord (written_record tags game) tags game }
{}
