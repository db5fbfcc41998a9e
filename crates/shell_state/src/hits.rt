//! What trees count of games: of one that comes in, for each slot that shows a tree, and of one that is there.
ghost use Rattle.std.specs.Prelude.{◌≡◌, ◌≤◌, ◌<◌, ◌+◌, ℕ, if◌then◌else◌, false, List, None, Option, Some, length, map, option_and_then, option_map, slice_get, IfErr, IfOk, IfSome, IsTrue, OnOk};
ghost use Rattle.base_core.specs.Base.{Base as PlainBase, Held};
ghost use Rattle.base_core.specs.Represents.{IsSound, Represents, extents_of, heads_of, sigs_of};
ghost use Rattle.base_files.specs.Counters.{raised};
ghost use Rattle.cell_core.specs.Packed.{packed_of};
ghost use Rattle.command_runs.specs.Counts.{Causes, counts};
ghost use Rattle.game_tree.specs.Legal.{IsLegalGame};
ghost use Rattle.pos_index.specs.Hits.{Index, IndexesAll, Place, places_in, rows_told};
ghost use Rattle.pos_search.specs.Searching.{is_read};
ghost use Rattle.pos_search.specs.Telling.{AreLegalHits, hits_told};
ghost use Rattle.sig_index.specs.Games.{extent_in, head_in};
ghost use Rattle.sig_index.specs.declared.pos_query.Mode.TheVariants.{Exact};
ghost use Rattle.sig_index.specs.declared.signature.Sig.{Sig};
ghost use Rattle.tree_rows.specs.Hits.{hit_of};
ghost use Rattle.tree_rows.specs.MoveText.{IsKey};
ghost use Rattle.shell_state.specs.Ends.{IsDevice};
ghost use Rattle.shell_state.specs.Hits.{AreHits, hit_on};
ghost use Rattle.shell_state.specs.Slots.{hit_of_game};
ghost use Rattle.shell_state.specs.Stands.{WhyHalt};

use crate::halt::Halt;
use base_core::Base;
use base_files::Files;
use cell_core::{Board, Colour, Move};
use game_tree::{Game, Head};
use pos_search::{Sought, Told, hit_sought, next_in};
use sig_index::Games;
use tree_live::Slots;
use tree_rows::GameHit;

/// The hit of a game with this head in each slot that shows a tree, if the game meets its position.
pub fn hits_of(slots: &Slots, head: &Head, game: &Game) -> [Option<GameHit>; 8]
    requires eight { slots.now.count ≡ 8 }
    requires legal { IsLegalGame game.now }
    ensures hits { AreHits slots.now.watches head.now game.now result }
{
    [
        hit_for(slots.men(0), head, game),
        hit_for(slots.men(1), head, game),
        hit_for(slots.men(2), head, game),
        hit_for(slots.men(3), head, game),
        hit_for(slots.men(4), head, game),
        hit_for(slots.men(5), head, game),
        hit_for(slots.men(6), head, game),
        hit_for(slots.men(7), head, game),
    ]
}

// The hit of a game on a board and side, if there is one to be met and the game meets it.
fn hit_for(shown: Option<(&Board, Colour)>, head: &Head, game: &Game) -> Option<GameHit>
    requires legal { IsLegalGame game.now }
    ensures hit { result ≡ option_and_then (hit_on head.now game.now) (option_map (λ board. packed_of board.0.now board.1) shown.entry) }
{
    let (board, side) = shown?;
    hit_on(board, side, head, game)
}

// The hit of a game on a board, if the game meets it.
fn hit_on(board: &Board, side: Colour, head: &Head, game: &Game) -> Option<GameHit>
    requires legal { IsLegalGame game.now }
    ensures hit { result ≡ hit_on head.now game.now (packed_of board.now side) }
{
    // A board has 64 squares.
    let _cells = board.cells();
    let next = next_in(board, side, game)?;
    Some(GameHit::of(
        next,
        side,
        head.result,
        head.white_rating.value,
        head.black_rating.value,
        head.date.year,
    ))
}

/// What is counted of game `i` if it goes on with this move behind the match, if with any. Of its head only that is read.
pub fn counted(base: &Base, i: u32, next: Option<Move>, side: Colour) -> GameHit
    requires there { i < length base.now.entries }
    ensures counted { result ≡ hit_of next side (head_in (heads_of base.now) i) }
{
    GameHit::of(
        next,
        side,
        base.outcome(i),
        base.white_rating(i).value,
        base.black_rating(i).value,
        base.date(i).year,
    )
}

/// Whether game `i` is known not to meet the position, without its record and without a look at the hits that an index has. Any other game
/// may not meet it, too.
#[inline(always)]
pub fn is_passed(base: &Base, i: u32, query: &Sought<'_>, told: &Told<'_>) -> bool
    requires squares { length query.now.board ≡ 64 }
    requires there { i < length base.now.entries }
    ensures none { (contents : List ℕ) (all : PlainBase) (held : Held) (index : Option Index) → IsTrue result → Represents base.now contents all → slice_get all.games i ≡ Some held
        → told.now ≡ hits_told query.now (rows_told index) → IndexesAll index (map (λ h. h.game) all.games) → None ≡ hit_of_game query.now held }
    ensures unread { (sig : Sig) (rows : List (List Place)) → IsTrue result → slice_get (sigs_of base.now) i ≡ Some sig → told.now ≡ hits_told query.now rows → is_read query.now (places_in rows i) sig ≡ false }
{
    pos_search::is_passed(told, i, query, &base.brief(i))
}

/// The hit of a game, if it meets the position. Its record is read into `block` if it can and the index does not decide it.
#[inline(always)]
pub fn read_hit<F: Files>(
    base: &Base,
    i: u32,
    query: &Sought<'_>,
    told: &mut Told<'_>,
    files: &mut F,
    block: &mut [u8],
) -> Result<Option<GameHit>, Halt>
    requires exact { query.now.mode ≡ Exact }
    requires squares { length query.now.board ≡ 64 }
    requires legal { AreLegalHits query.now told.old }
    requires there { i < length base.now.entries }
    requires sound { IsSound base.now }
    requires room { length block.old ≡ 131072 }
    requires within { base.now.end ≤ (F.seen files.old).known }
    ensures same { told.new ≡ told.old }
    ensures hit { (contents : List ℕ) (all : PlainBase) (held : Held) (index : Option Index) → (F.seen files.old).games ≡ Some contents → Represents base.now contents all → slice_get all.games i ≡ Some held
        → told.old ≡ hits_told query.now (rows_told index) → IndexesAll index (map (λ h. h.game) all.games) → IfOk result (λ hit. hit ≡ hit_of_game query.now held) }
    ensures devices { (told : List ℕ) (all : PlainBase) → (F.seen files.old).games ≡ Some told → Represents base.now told all → IfErr result IsDevice }
    ensures key { IfOk result (λ hit. IfSome hit (λ found. IsKey query.now.board query.now.side found.next)) }
    ensures room { length block.new ≡ 131072 }
    ensures unchanged { F.seen files.new ≡ F.seen files.old }
    ensures asks { (sig : Sig) (rows : List (List Place)) → slice_get (sigs_of base.now) i ≡ Some sig → told.old ≡ hits_told query.now rows → F.asked files.new ≤ F.asked files.old + (if is_read query.now (places_in rows i) sig then (extent_in (extents_of base.now) i).len else 0) }
    ensures asked { (sig : Sig) (rows : List (List Place)) → slice_get (sigs_of base.now) i ≡ Some sig → told.old ≡ hits_told query.now rows → OnOk result (raised (F.asked files.old) (if is_read query.now (places_in rows i) sig then (extent_in (extents_of base.now) i).len else 0) ≤ F.asked files.new) }
    ensures causes { Causes WhyHalt result (counts (F.faults files.old) 0 0) (counts (F.faults files.new) 0 0) }
{
    match hit_sought(base, i, query, told, files, block) {
        Ok(Some((_, next))) => Ok(Some(counted(base, i, next, query.side()))),
        Ok(None) => Ok(None),
        Err(error) => Err(Halt::from(error)),
    }
}
