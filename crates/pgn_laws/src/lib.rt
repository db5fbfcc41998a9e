//! Laws of Portable Game Notation (PGN): what is written is read again, and texts that are spelled in other ways are read too.
#![tactic(auto)]

ghost use Rattle.std.specs.Prelude.{◌≡◌, ◌≤◌, ◌∷◌, ◌++◌, ℕ, false, [], List, length, Some, All, map};
ghost use Rattle.chess_laws.specs.declared.setup.Setup.{Setup};
ghost use Rattle.game_tree.specs.Game.{GameTree};
ghost use Rattle.game_tree.specs.Kept.{IsGame};
ghost use Rattle.game_tree.specs.declared.head.Head.{Head as HeadValue};
ghost use Rattle.game_tree.specs.declared.head.Outcome.{Outcome};
ghost use Rattle.game_tree.specs.declared.head.Tag.{Tag};
ghost use Rattle.pgn_read.specs.declared.item.Item.TheVariants.{Good};
ghost use Rattle.pgn_read.specs.Fit.{IsFitGame};
ghost use Rattle.pgn_read.specs.Heads.{head_from};
ghost use Rattle.pgn_read.specs.Lexing.{lexed};
ghost use Rattle.pgn_laws.specs.MovetextSpelling.{Spelling, movetext_by, tokens_by, IsSpelling, StandFirst, behind_tags, game_meant};
ghost use Rattle.pgn_laws.specs.TagSpelling.{TagParts, AreParts, tag_before, said_by};
ghost use Rattle.pgn_read.specs.Text.{At, longest};
ghost use Rattle.pgn_read.specs.Token as token;
ghost use Rattle.pgn_read.specs.Token.{lexed_as};
ghost use Rattle.pgn_read.specs.Items.{PgnReads, item_at, all_spots};
ghost use Rattle.pgn_laws.specs.RoundTrip.{Headed, IsReadAgain, texts_of, again};
ghost use Rattle.pgn_write.specs.Pgn.{pgn_of};

/// A law: a tag is read as its name and its value however it is spelled, with white space between its parts or without, and with
/// backslashes in its value. And only what is spelled so is read as a tag.
#[tactic(auto, using(crate::proofs::TagSpellingLaws::tag_spelled, crate::proofs::TagReadLaws::spelled_so))]
pub fn spelled_tags_are_read()
    ensures read { (tag : TagParts) (rest : List ℕ) → AreParts tag
        → lexed (tag_before tag rest) ≡ lexed_as (token.tag tag.name (said_by tag.value)) rest }
    ensures only { (text rest name value : List ℕ) → lexed text ≡ lexed_as (token.tag name value) rest
        → (tag : TagParts) × (AreParts tag × ((text ≡ tag_before tag rest) × ((tag.name ≡ name) × (said_by tag.value ≡ value)))) }
{}

/// A law: a game whose tokens behind its tags spell a movetext and then an end mark is what the movetext means, however it is spelled:
/// with any texts of its moves, and with numbers wherever they stand.
#[tactic(auto, using(crate::proofs::SpellingLaws::movetext_meant))]
pub fn spelled_movetexts_are_read()
    ensures read { (tags : List Tag) (start : Setup) (s : Spelling) (outcome : Outcome) (a : At) → IsSpelling 0 start start false s
        → StandFirst (tokens_by s ++ (token.ending outcome ∷ [])) (all_spots a)
        → (item_at (behind_tags tags start) a).item ≡ Some (Good (head_from tags (Some outcome)) (game_meant start (movetext_by s))) }
{}

/// A law: the joined texts of legal games with settled heads within their bounds, each of at most 1,048,576 bytes, are
/// read as good items alone. The items are the same heads with the same games, but `}` in a comment is read as `)`. So
/// is the text of one game by itself.
#[tactic(auto, using(crate::proofs::RoundTripLaws::read_again, crate::proofs::RoundTripLaws::one_read_again))]
pub fn written_games_are_read_again()
    ensures again { (games : List Headed) → All IsReadAgain games → PgnReads (texts_of games) (map again games) }
    ensures one { (head : HeadValue) (game : GameTree) → IsFitGame head game → IsGame game → length (pgn_of head game) ≤ longest
        → PgnReads (pgn_of head game) (again (record { head = head; game = game }) ∷ []) }
{}
