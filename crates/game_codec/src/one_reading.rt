//! Bytes say one thing.
ghost use Rattle.std.specs.Prelude.{◌≡◌, ◌<◌, ◌↔◌, ◌⊎◌, All, List, Ok, Some, ℕ};
ghost use Rattle.game_tree.specs.Game.{GameTree};
ghost use Rattle.game_tree.specs.declared.head.Tag.{Tag as TagValue};
ghost use Rattle.game_codec.specs.Record.{IsRecord, IsSomeRecord, IsSpelled};
ghost use Rattle.game_codec.specs.Fault.{IsBroken, IsRecordFault};
ghost use Rattle.game_codec.specs.TagReading.{tag_at};
ghost use Rattle.game_codec.specs.TagSpelling.{SpellsTag};
ghost use Rattle.game_codec.specs.declared.fault.RecordFault.{RecordFault as Fault};

/// A law: bytes are a record of one game and one list of tags, or have one first fault, and never both. The record, the fault and each tag are
/// also said in words.
pub fn bytes_have_one_reading()
    ensures one_record { (bytes : List ℕ) (tags others : List TagValue) (game other : GameTree)
        → IsRecord bytes tags game → IsRecord bytes others other → (tags ≡ others) × (game ≡ other) }
    ensures one_fault { (bytes : List ℕ) (fault other : Fault) → IsRecordFault bytes fault → IsRecordFault bytes other → fault ≡ other }
    ensures not_both { (bytes : List ℕ) (tags : List TagValue) (game : GameTree) (fault : Fault)
        → IsRecord bytes tags game → IsRecordFault bytes fault → ⊥ }
    ensures one_of_both { (bytes : List ℕ) → IsSomeRecord bytes ⊎ ((fault : Fault) × IsRecordFault bytes fault) }
    ensures spelled { (bytes : List ℕ) (tags : List TagValue) (game : GameTree) → IsRecord bytes tags game ↔ IsSpelled bytes tags game }
    ensures broken { (bytes : List ℕ) (fault : Fault) → IsRecordFault bytes fault ↔ IsBroken bytes fault }
    ensures tag { (bytes : List ℕ) (tag : TagValue) (later : List ℕ) → All (λ byte. byte < 256) bytes
        → (tag_at bytes ≡ Ok (Some (tag, later))) ↔ SpellsTag bytes tag later }
{}
