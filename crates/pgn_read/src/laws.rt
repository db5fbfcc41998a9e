//! Laws of texts and their items.
ghost use Rattle.std.specs.Prelude.{◌≡◌, ◌∷◌, ℕ, [], List, Option, None, Some};
ghost use Rattle.game_tree.specs.Game.{GameTree};
ghost use Rattle.game_tree.specs.declared.head.Head.{Head as HeadValue};
ghost use Rattle.pgn_read.specs.declared.item.Item.{Item as PlainItem};
ghost use Rattle.pgn_read.specs.declared.item.Item.TheVariants.{Good};
ghost use Rattle.pgn_read.specs.Text.{At};
ghost use Rattle.pgn_read.specs.Items.{PgnReads, items_of, next_item};
ghost use Rattle.pgn_read.specs.Meant.{IsMeant, said_at};
ghost use Rattle.pgn_read.specs.Readers.{fresh_reader, told, Follows, ItemsAhead, AreRead};

/// A law: a text has one list of items, which is the one that is computed.
#[tactic(auto, using(crate::proofs::ItemLaws::one_list, crate::proofs::CountLaws::listed, crate::proofs::CountLaws::listed_alone))]
pub fn texts_have_one_list_of_items()
    ensures listed { (text : List ℕ) → PgnReads text (items_of text) }
    ensures alone { (text : List ℕ) (items : List PlainItem) → PgnReads text items → items ≡ items_of text }
    ensures one { (text : List ℕ) (items others : List PlainItem) → PgnReads text items → PgnReads text others → items ≡ others }
{}

/// A law: who reads a text that is told from its beginning, item by item until there is none, has read the items of the text.
/// Of one item: what is ahead behind it was ahead behind the item itself.
#[tactic(auto, using(crate::proofs::ReadLaws::more_ahead, crate::proofs::ReadLaws::none_ahead, crate::proofs::ReadLaws::all_read))]
pub fn items_are_read_one_by_one()
    ensures whole { (text : List ℕ) (items : List PlainItem) → AreRead (told fresh_reader (Some text)) items → PgnReads text items }
    ensures first { (text : List ℕ) (items : List PlainItem) → ItemsAhead (told fresh_reader (Some text)) items → PgnReads text items }
    ensures more { (old new : Option At) (item : PlainItem) (items : List PlainItem) → Follows old (Some item) new → ItemsAhead new items
        → ItemsAhead old (item ∷ items) }
    ensures last { (old new : Option At) → Follows old None new → ItemsAhead old [] }
{}

/// A law: the game of a good item is what its movetext means. Its moves are those that the texts of moves name, each in
/// the position that was reached, with the NAGs, the comments and the variations between them as they stand.
pub fn good_games_mean_their_movetext()
    ensures meant { (a : At) (head : HeadValue) (game : GameTree) → (next_item a).item ≡ Some (Good head game) → IsMeant (said_at a) game }
{}
