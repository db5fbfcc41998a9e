//! The search of all games.
ghost use Rattle.std.specs.Prelude.{◌≡◌, ◌≤◌, ◌<◌, ◌+◌, ℕ, false, if◌then◌else◌, List, Option, None, Some, length, map, slice_get, slice_index_or, slice_set, take, IfOk, IfErr, OnOk, OnErr};
ghost use Rattle.base_files.specs.Counters.{raised};
ghost use Rattle.game_filter.specs.Search.{entry_after, looks_at, searched};
ghost use Rattle.game_search.specs.Questions.{AreRight, Unread, cost_of, reads_from};
ghost use Rattle.game_tree.specs.Game.{GameTree};
ghost use Rattle.sig_index.specs.Costs.{EndsAt, KeepsOthers, LeavesRest, price_by};
ghost use Rattle.sig_index.specs.Games.{AreWithin, HasFetchCause, Holds, Names, extent_in};
ghost use Rattle.sig_index.specs.declared.signature.Sig.{Sig};

use crate::question::Question;
use base_files::Files;
use game_filter::{Filter, Op};
use sig_index::{FetchError, Games};

/// Leaves in the filter what its entries become by a search. The filter has one entry per game, and `buf` has at least
/// 131,072 bytes. A game is read if `op` looks at it and its first matching ply is not known unread, and so many bytes
/// count as asked. After an error the games from one on have their old entries; if the error names a game, it is that
/// one. The games before it have their new entries, if the files tell what they hold.
pub fn search<Q: Question, G: Games, F: Files>(
    games: &G,
    q: &mut Q,
    op: Op,
    filter: &mut Filter,
    files: &mut F,
    buf: &mut [u8],
) -> Result<(), FetchError>
    requires games { length filter.old ≡ length (G.sigs games.now) }
    requires room { 131072 ≤ length buf.old }
    requires within { AreWithin (F.seen files.old).known (G.extents games.now) }
    // Over a games file that is told and holds the records of these games.
    ensures found { (unread : Unread) (told : List ℕ) (list : List GameTree) → Q.tells q.old unread → (F.seen files.old).games ≡ Some told → Holds told (G.extents games.now) (G.sigs games.now) list → AreRight unread (Q.first q.old) (G.sigs games.now) list
        → OnOk result (filter.new ≡ searched op (map (Q.first q.old) list) filter.old) }
    ensures ended { (unread : Unread) (told : List ℕ) (list : List GameTree) → Q.tells q.old unread → (F.seen files.old).games ≡ Some told → Holds told (G.extents games.now) (G.sigs games.now) list → AreRight unread (Q.first q.old) (G.sigs games.now) list
        → IfErr result (λ e. EndsAt e (λ n. searched op (take n (map (Q.first q.old) list)) filter.old) filter.old filter.new) }
    ensures rest { IfErr result (λ e. LeavesRest e filter.old filter.new) }
    // Whatever the files hold and however the search ends, a game that `op` does not look at keeps its entry.
    ensures kept { KeepsOthers (looks_at op) filter.old filter.new }
    // And a game that is not read has the ply that is known of it.
    ensures skipped { (unread : Unread) → Q.tells q.old unread → OnOk result ((i : ℕ) (sig : Sig) → slice_get (G.sigs games.now) i ≡ Some sig → unread.reads i sig ≡ false → slice_index_or filter.new i None ≡ entry_after op (slice_index_or filter.old i None) (unread.ply i)) }
    ensures entries { length filter.new ≡ length filter.old }
    ensures same { q.new ≡ q.old }
    ensures unchanged { F.seen files.new ≡ F.seen files.old }
    ensures asks { (unread : Unread) → Q.tells q.old unread → F.asked files.new ≤ F.asked files.old + price_by (cost_of op) (reads_from unread.reads 0 (G.sigs games.now)) (G.extents games.now) filter.old }
    ensures asked { (unread : Unread) → Q.tells q.old unread → OnOk result (raised (F.asked files.old) (price_by (cost_of op) (reads_from unread.reads 0 (G.sigs games.now)) (G.extents games.now) filter.old) ≤ F.asked files.new) }
    ensures counts { F.faults files.old ≤ F.faults files.new }
    ensures cause { IfErr result (λ e. HasFetchCause e (G.sigs games.now) (G.extents games.now) (F.seen files.old).games buf.new (F.faults files.old) (F.faults files.new)) }
{
    for i in 0..games.len() {
        match search_game(games, i, q, op, filter, files, buf) {
            Ok(()) => {}
            Err(error) => return Err(error),
        }
    }
    Ok(())
}

// Joins the first matching ply of one game.
#[inline(always)]
fn search_game<Q: Question, G: Games, F: Files>(
    games: &G,
    i: u32,
    q: &mut Q,
    op: Op,
    filter: &mut Filter,
    files: &mut F,
    buf: &mut [u8],
) -> Result<(), FetchError>
    requires game { i < length (G.sigs games.now) }
    requires games { length filter.old ≡ length (G.sigs games.now) }
    requires room { 131072 ≤ length buf.old }
    requires within { AreWithin (F.seen files.old).known (G.extents games.now) }
    ensures joined { (unread : Unread) (told : List ℕ) (list : List GameTree) (game : GameTree) → Q.tells q.old unread → (F.seen files.old).games ≡ Some told → Holds told (G.extents games.now) (G.sigs games.now) list → AreRight unread (Q.first q.old) (G.sigs games.now) list → slice_get list i ≡ Some game
        → OnOk result (filter.new ≡ slice_set filter.old i (entry_after op (slice_index_or filter.old i None) (Q.first q.old game))) }
    ensures entry { OnOk result ((ply : Option ℕ) × (filter.new ≡ slice_set filter.old i ply)) }
    ensures skipped { (unread : Unread) (sig : Sig) → Q.tells q.old unread → slice_get (G.sigs games.now) i ≡ Some sig → unread.reads i sig ≡ false → OnOk result (filter.new ≡ slice_set filter.old i (entry_after op (slice_index_or filter.old i None) (unread.ply i))) }
    ensures passed { looks_at op (slice_index_or filter.old i None) ≡ false → filter.new ≡ filter.old }
    ensures left { OnErr result (filter.new ≡ filter.old) }
    ensures same { q.new ≡ q.old }
    ensures unchanged { F.seen files.new ≡ F.seen files.old }
    ensures asks { (unread : Unread) (sig : Sig) → Q.tells q.old unread → slice_get (G.sigs games.now) i ≡ Some sig → F.asked files.new ≤ F.asked files.old + cost_of op (unread.reads i sig) (extent_in (G.extents games.now) i) (slice_index_or filter.old i None) }
    ensures asked { (unread : Unread) (sig : Sig) → Q.tells q.old unread → slice_get (G.sigs games.now) i ≡ Some sig → OnOk result (raised (F.asked files.old) (cost_of op (unread.reads i sig) (extent_in (G.extents games.now) i) (slice_index_or filter.old i None)) ≤ F.asked files.new) }
    ensures counts { F.faults files.old ≤ F.faults files.new }
    ensures cause { IfErr result (λ e. HasFetchCause e (G.sigs games.now) (G.extents games.now) (F.seen files.old).games buf.new (F.faults files.old) (F.faults files.new)) }
    ensures own { IfErr result (λ e. Names e i) }
{
    let old = filter.get(i);
    if !op.looks_at(old) {
        return Ok(());
    }
    match q.unread(i, &games.brief(i)) {
        Some(first) => {
            join(filter, i, old, first);
            Ok(())
        }
        None => join_read(games, i, q, old, filter, files, buf),
    }
}

// Gives game `i` another entry in place of this one. A game that was out and stays out is not written.
#[inline(always)]
fn join(filter: &mut Filter, i: u32, old: Option<u32>, first: Option<u32>)
    requires game { slice_get filter.old i ≡ Some old }
    ensures joined { filter.new ≡ slice_set filter.old i first }
{
    if old.is_some() || first.is_some() {
        filter.set(i, first);
    }
}

// The same with the first matching ply of the game, whose record is read into `buf`. It stands apart, so that no game that is not read has
// room cleared for its end.
#[inline(never)]
fn join_read<Q: Question, G: Games, F: Files>(
    games: &G,
    i: u32,
    q: &mut Q,
    old: Option<u32>,
    filter: &mut Filter,
    files: &mut F,
    buf: &mut [u8],
) -> Result<(), FetchError>
    requires game { i < length (G.sigs games.now) }
    requires old { slice_get filter.old i ≡ Some old }
    requires room { 131072 ≤ length buf.old }
    requires within { AreWithin (F.seen files.old).known (G.extents games.now) }
    ensures joined { (told : List ℕ) (list : List GameTree) (game : GameTree) → (F.seen files.old).games ≡ Some told → Holds told (G.extents games.now) (G.sigs games.now) list → slice_get list i ≡ Some game → OnOk result (filter.new ≡ slice_set filter.old i (Q.first q.old game)) }
    ensures entry { OnOk result ((ply : Option ℕ) × (filter.new ≡ slice_set filter.old i ply)) }
    ensures left { OnErr result (filter.new ≡ filter.old) }
    ensures same { q.new ≡ q.old }
    ensures unchanged { F.seen files.new ≡ F.seen files.old }
    ensures asks { F.asked files.new ≤ F.asked files.old + (extent_in (G.extents games.now) i).len }
    ensures asked { OnOk result (raised (F.asked files.old) (extent_in (G.extents games.now) i).len ≤ F.asked files.new) }
    ensures counts { F.faults files.old ≤ F.faults files.new }
    ensures cause { IfErr result (λ e. HasFetchCause e (G.sigs games.now) (G.extents games.now) (F.seen files.old).games buf.new (F.faults files.old) (F.faults files.new)) }
    ensures own { IfErr result (λ e. Names e i) }
{
    let first = first_read(games, i, q, files, buf)?;
    join(filter, i, old, first);
    Ok(())
}

// The first matching ply of one game, whose record is read into `buf`.
fn first_read<Q: Question, G: Games, F: Files>(
    games: &G,
    i: u32,
    q: &mut Q,
    files: &mut F,
    buf: &mut [u8],
) -> Result<Option<u32>, FetchError>
    requires game { i < length (G.sigs games.now) }
    requires room { 131072 ≤ length buf.old }
    requires within { AreWithin (F.seen files.old).known (G.extents games.now) }
    ensures first { (told : List ℕ) (list : List GameTree) (game : GameTree) → (F.seen files.old).games ≡ Some told → Holds told (G.extents games.now) (G.sigs games.now) list → slice_get list i ≡ Some game → IfOk result (λ ply. ply ≡ Q.first q.old game) }
    ensures same { q.new ≡ q.old }
    ensures unchanged { F.seen files.new ≡ F.seen files.old }
    ensures asks { F.asked files.new ≤ F.asked files.old + (extent_in (G.extents games.now) i).len }
    ensures asked { OnOk result (raised (F.asked files.old) (extent_in (G.extents games.now) i).len ≤ F.asked files.new) }
    ensures counts { F.faults files.old ≤ F.faults files.new }
    ensures cause { IfErr result (λ e. HasFetchCause e (G.sigs games.now) (G.extents games.now) (F.seen files.old).games buf.new (F.faults files.old) (F.faults files.new)) }
    ensures own { IfErr result (λ e. Names e i) }
{
    let len = games.fetch(i, files, buf)?;
    match q.in_record(buf.split_at(len as usize).0, &games.brief(i)) {
        Ok(ply) => Ok(ply),
        Err(_) => Err(FetchError::Changed {
            game: i,
            kept: games.sig(i),
            found: None,
        }),
    }
}
