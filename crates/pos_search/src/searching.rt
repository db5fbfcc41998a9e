//! The search of all games.
ghost use Rattle.std.specs.Prelude.{◌≡◌, ◌≤◌, ◌<◌, ◌+◌, ℕ, false, if◌then◌else◌, List, Option, None, Some, length, option_copied, slice_get, slice_index_or, take, IfOk, IfErr, OnOk};
ghost use Rattle.base_files.specs.Counters.{raised};
ghost use Rattle.game_filter.specs.Search.{entry_after, looks_at, searched};
ghost use Rattle.game_tree.specs.Game.{GameTree};
ghost use Rattle.pos_index.specs.Hits.{Index, IndexesAll, Place, places_in, rows_told};
ghost use Rattle.sig_index.specs.Costs.{EndsAt, KeepsOthers, LeavesRest, price_by};
ghost use Rattle.sig_index.specs.Games.{AreWithin, HasFetchCause, Holds, Names, extent_in};
ghost use Rattle.sig_index.specs.declared.signature.Sig.{Sig};
ghost use Rattle.pos_search.specs.Matching.{firsts_of, hit_of, IsLegalFrom};
ghost use Rattle.game_search.specs.Questions.{cost_of};
ghost use Rattle.pos_search.specs.Searching.{are_read, hit_told, is_read, ply_of};
ghost use Rattle.pos_search.specs.Telling.{AreLegalHits, hits_told};

use crate::asking::Asked;
use crate::matching::Sought;
use crate::telling::{Told, hit_told, hits_told, is_open};
use crate::walking::first_sought;
use base_files::Files;
use cell_core::Move;
use game_codec::OuterLines;
use game_filter::{Filter, Op};
use pos_index::PosIndex;
use sig_index::{FetchError, Games, PosQuery};

/// The first ply at which game `i` matches, with the move after it on the main line and none in a variation, or `None` if it never does.
/// `i` is below the number of games, and `buf` has at least 131,072 bytes. An index, if there is one, is meant to be one of these games. The
/// game's record is read if it can match and the index does not decide it, and so many bytes count as asked.
pub fn hit<G: Games, F: Files>(
    games: &G,
    i: u32,
    q: &PosQuery,
    index: Option<&PosIndex>,
    files: &mut F,
    buf: &mut [u8],
) -> Result<Option<(u32, Option<Move>)>, FetchError>
    requires game { i < length (G.sigs games.now) }
    requires room { 131072 ≤ length buf.old }
    requires within { AreWithin (F.seen files.old).known (G.extents games.now) }
    // Over a games file that is told and holds the records of these games, with an index of them or none.
    ensures found { (told : List ℕ) (list : List GameTree) (game : GameTree) → (F.seen files.old).games ≡ Some told → Holds told (G.extents games.now) (G.sigs games.now) list → slice_get list i ≡ Some game → IndexesAll (option_copied index.entry) list → IfOk result (λ hit. hit ≡ hit_of q.now game) }
    ensures legal { IfOk result (λ hit. IsLegalFrom q.now hit) }
    ensures unchanged { F.seen files.new ≡ F.seen files.old }
    ensures asks { (sig : Sig) → slice_get (G.sigs games.now) i ≡ Some sig → F.asked files.new ≤ F.asked files.old + (if is_read q.now (places_in (rows_told (option_copied index.entry)) i) sig then (extent_in (G.extents games.now) i).len else 0) }
    ensures asked { (sig : Sig) → slice_get (G.sigs games.now) i ≡ Some sig → OnOk result (raised (F.asked files.old) (if is_read q.now (places_in (rows_told (option_copied index.entry)) i) sig then (extent_in (G.extents games.now) i).len else 0) ≤ F.asked files.new) }
    ensures counts { F.faults files.old ≤ F.faults files.new }
    ensures cause { IfErr result (λ e. HasFetchCause e (G.sigs games.now) (G.extents games.now) (F.seen files.old).games buf.new (F.faults files.old) (F.faults files.new)) }
    ensures own { IfErr result (λ e. Names e i) }
{
    hit_sought(
        games,
        i,
        &Sought::new(q),
        &mut hits_told(q, index),
        files,
        buf,
    )
}

/// Leaves in the filter what its entries become by a search of a position. The filter has one entry per game, and `buf`
/// has at least 131,072 bytes. An index, if there is one, is meant to be one of these games. A game is read if `op`
/// looks at it, it can match and the index does not decide it, and so many bytes count as asked. After an error the
/// games from one on have their old entries; if the error names a game, it is that one. The games before it have their
/// new entries, if the files tell what they hold and the index is of these games.
pub fn search<G: Games, F: Files>(
    games: &G,
    q: &PosQuery,
    op: Op,
    index: Option<&PosIndex>,
    filter: &mut Filter,
    files: &mut F,
    buf: &mut [u8],
) -> Result<(), FetchError>
    requires games { length filter.old ≡ length (G.sigs games.now) }
    requires room { 131072 ≤ length buf.old }
    requires within { AreWithin (F.seen files.old).known (G.extents games.now) }
    // Over a games file that is told and holds the records of these games, with an index of them or none.
    ensures found { (told : List ℕ) (list : List GameTree) → (F.seen files.old).games ≡ Some told → Holds told (G.extents games.now) (G.sigs games.now) list → IndexesAll (option_copied index.entry) list → OnOk result (filter.new ≡ searched op (firsts_of q.now list) filter.old) }
    ensures ended { (told : List ℕ) (list : List GameTree) → (F.seen files.old).games ≡ Some told → Holds told (G.extents games.now) (G.sigs games.now) list → IndexesAll (option_copied index.entry) list → IfErr result (λ e. EndsAt e (λ n. searched op (take n (firsts_of q.now list)) filter.old) filter.old filter.new) }
    ensures rest { IfErr result (λ e. LeavesRest e filter.old filter.new) }
    // Whatever the files hold and however the search ends, a game that `op` does not look at keeps its entry.
    ensures kept { KeepsOthers (looks_at op) filter.old filter.new }
    // And a game that is not read has the ply that the index tells of it, or no matching ply if the index tells none.
    ensures skipped { OnOk result ((i : ℕ) (sig : Sig) → slice_get (G.sigs games.now) i ≡ Some sig → is_read q.now (places_in (rows_told (option_copied index.entry)) i) sig ≡ false → slice_index_or filter.new i None ≡ entry_after op (slice_index_or filter.old i None) (ply_of (hit_told q.now (places_in (rows_told (option_copied index.entry)) i)))) }
    ensures entries { length filter.new ≡ length filter.old }
    ensures unchanged { F.seen files.new ≡ F.seen files.old }
    ensures asks { F.asked files.new ≤ F.asked files.old + price_by (cost_of op) (are_read q.now (rows_told (option_copied index.entry)) (G.sigs games.now)) (G.extents games.now) filter.old }
    ensures asked { OnOk result (raised (F.asked files.old) (price_by (cost_of op) (are_read q.now (rows_told (option_copied index.entry)) (G.sigs games.now)) (G.extents games.now) filter.old) ≤ F.asked files.new) }
    ensures counts { F.faults files.old ≤ F.faults files.new }
    ensures cause { IfErr result (λ e. HasFetchCause e (G.sigs games.now) (G.extents games.now) (F.seen files.old).games buf.new (F.faults files.old) (F.faults files.new)) }
{
    if q.vars {
        let mut room = OuterLines::new();
        let mut asked = Asked::new(q, index, Some(&mut room));
        return game_search::search(games, &mut asked, op, filter, files, buf);
    }
    let mut asked = Asked::new(q, index, None);
    game_search::search(games, &mut asked, op, filter, files, buf)
}

/// The same as `hit`, of what is sought, with what an index of these games tells of it, if there is one.
#[inline(always)]
pub fn hit_sought<G: Games, F: Files>(
    games: &G,
    i: u32,
    q: &Sought<'_>,
    told: &mut Told<'_>,
    files: &mut F,
    buf: &mut [u8],
) -> Result<Option<(u32, Option<Move>)>, FetchError>
    requires game { i < length (G.sigs games.now) }
    requires room { 131072 ≤ length buf.old }
    requires within { AreWithin (F.seen files.old).known (G.extents games.now) }
    ensures found { (contents : List ℕ) (list : List GameTree) (game : GameTree) (index : Option Index) → (F.seen files.old).games ≡ Some contents → Holds contents (G.extents games.now) (G.sigs games.now) list → slice_get list i ≡ Some game
        → length q.now.board ≡ 64 → told.old ≡ hits_told q.now (rows_told index) → IndexesAll index list → IfOk result (λ hit. hit ≡ hit_of q.now game) }
    ensures legal { AreLegalHits q.now told.old → IfOk result (λ hit. IsLegalFrom q.now hit) }
    ensures same { told.new ≡ told.old }
    ensures unchanged { F.seen files.new ≡ F.seen files.old }
    ensures asks { (sig : Sig) (rows : List (List Place)) → slice_get (G.sigs games.now) i ≡ Some sig → told.old ≡ hits_told q.now rows → F.asked files.new ≤ F.asked files.old + (if is_read q.now (places_in rows i) sig then (extent_in (G.extents games.now) i).len else 0) }
    ensures asked { (sig : Sig) (rows : List (List Place)) → slice_get (G.sigs games.now) i ≡ Some sig → told.old ≡ hits_told q.now rows → OnOk result (raised (F.asked files.old) (if is_read q.now (places_in rows i) sig then (extent_in (G.extents games.now) i).len else 0) ≤ F.asked files.new) }
    ensures counts { F.faults files.old ≤ F.faults files.new }
    ensures cause { IfErr result (λ e. HasFetchCause e (G.sigs games.now) (G.extents games.now) (F.seen files.old).games buf.new (F.faults files.old) (F.faults files.new)) }
    ensures own { IfErr result (λ e. Names e i) }
{
    if let Some(found) = hit_told(told, i) {
        return Ok(Some(found));
    }
    if !is_open(told, i, q, &games.brief(i)) {
        return Ok(None);
    }
    hit_read(games, i, q, files, buf)
}

// The hit of one game, whose record is read into `buf`.
#[inline(never)]
fn hit_read<G: Games, F: Files>(
    games: &G,
    i: u32,
    q: &Sought<'_>,
    files: &mut F,
    buf: &mut [u8],
) -> Result<Option<(u32, Option<Move>)>, FetchError>
    requires game { i < length (G.sigs games.now) }
    requires room { 131072 ≤ length buf.old }
    requires within { AreWithin (F.seen files.old).known (G.extents games.now) }
    ensures found { (told : List ℕ) (list : List GameTree) (game : GameTree) → (F.seen files.old).games ≡ Some told → Holds told (G.extents games.now) (G.sigs games.now) list → slice_get list i ≡ Some game → IfOk result (λ hit. hit ≡ hit_of q.now game) }
    ensures legal { IfOk result (λ hit. IsLegalFrom q.now hit) }
    ensures unchanged { F.seen files.new ≡ F.seen files.old }
    ensures asks { F.asked files.new ≤ F.asked files.old + (extent_in (G.extents games.now) i).len }
    ensures asked { OnOk result (raised (F.asked files.old) (extent_in (G.extents games.now) i).len ≤ F.asked files.new) }
    ensures counts { F.faults files.old ≤ F.faults files.new }
    ensures cause { IfErr result (λ e. HasFetchCause e (G.sigs games.now) (G.extents games.now) (F.seen files.old).games buf.new (F.faults files.old) (F.faults files.new)) }
    ensures own { IfErr result (λ e. Names e i) }
{
    let len = games.fetch(i, files, buf)?;
    match first_sought(buf.split_at(len as usize).0, q) {
        Ok(hit) => Ok(hit),
        Err(_) => Err(FetchError::Changed {
            game: i,
            kept: games.sig(i),
            found: None,
        }),
    }
}
