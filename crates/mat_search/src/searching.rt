//! The search of all games.
ghost use Rattle.std.specs.Prelude.{◌≡◌, ◌≤◌, ◌<◌, ◌+◌, ℕ, false, List, None, Some, length, slice_get, slice_index_or, take, IfOk, IfErr, OnOk, OnErr};
ghost use Rattle.base_files.specs.Counters.{raised};
ghost use Rattle.game_filter.specs.Search.{entry_after, looks_at, searched};
ghost use Rattle.game_codec.specs.Record.{IsRecord, IsSomeRecord};
ghost use Rattle.game_tree.specs.Game.{GameTree};
ghost use Rattle.sig_index.specs.Costs.{EndsAt, KeepsOthers, LeavesRest};
ghost use Rattle.sig_index.specs.Games.{AreWithin, HasFetchCause, Holds};
ghost use Rattle.sig_index.specs.declared.signature.Sig.{Sig};
ghost use Rattle.mat_search.specs.Matching.{first_of, firsts_of};
ghost use Rattle.mat_search.specs.Passing.{passes};
ghost use Rattle.mat_search.specs.Searching.{price, tells};

use crate::first_ply::first_ply;
use crate::matching::passes;
use base_files::Files;
use game_codec::RecordFault;
use game_filter::{Filter, Op};
use game_search::Question;
use sig_index::{Brief, FetchError, Games, MatQuery};
use std::marker::Model;

// What a query of counts asks of each game. A streak has at least one ply.
#[derive(Drop)]
struct Counts<'a> {
    query: &'a MatQuery,
}

impl<'a> Model for Counts<'a> {
    ghost use Rattle.std.specs.Prelude.{◌≤◌};
    ghost use Rattle.sig_index.specs.declared.mat_query.MatQuery.{MatQuery as Query};

    ghost Value = { Query };

    ghost view = { λ counts. counts.query.now };

    ghost invariant = { λ counts. 1 ≤ counts.query.now.streak };
}

impl<'a> Question for Counts<'a> {
    ghost first = { first_of };

    ghost tells = { tells };

    fn unread(&mut self, _i: u32, sig: &Brief<'_>) -> Option<Option<u32>> {
        if passes(sig, self.query) {
            None
        } else {
            Some(None)
        }
    }

    fn in_record(&mut self, record: &[u8], _sig: &Brief<'_>) -> Result<Option<u32>, RecordFault> {
        first_ply(record, self.query)
    }
}

/// Leaves in the filter what its entries become by a search of counts of men. The filter has one entry per game, a
/// streak has at least one ply, and `buf` has at least 131,072 bytes. A game is read if `op` looks at it and it can
/// match, and so many bytes count as asked. After an error the games from one on have their old entries; if the error
/// names a game, it is that one. The games before it have their new entries, if the files tell what they hold.
pub fn search<G: Games, F: Files>(
    games: &G,
    q: &MatQuery,
    op: Op,
    filter: &mut Filter,
    files: &mut F,
    buf: &mut [u8],
) -> Result<(), FetchError>
    requires games { length filter.old ≡ length (G.sigs games.now) }
    requires streak { 1 ≤ q.now.streak }
    requires room { 131072 ≤ length buf.old }
    requires within { AreWithin (F.seen files.old).known (G.extents games.now) }
    // Over a games file that is told and holds the records of these games.
    ensures found { (told : List ℕ) (list : List GameTree) → (F.seen files.old).games ≡ Some told → Holds told (G.extents games.now) (G.sigs games.now) list → OnOk result (filter.new ≡ searched op (firsts_of q.now list) filter.old) }
    ensures ended { (told : List ℕ) (list : List GameTree) → (F.seen files.old).games ≡ Some told → Holds told (G.extents games.now) (G.sigs games.now) list → IfErr result (λ e. EndsAt e (λ n. searched op (take n (firsts_of q.now list)) filter.old) filter.old filter.new) }
    ensures rest { IfErr result (λ e. LeavesRest e filter.old filter.new) }
    // Whatever the files hold and however the search ends, a game that `op` does not look at keeps its entry.
    ensures kept { KeepsOthers (looks_at op) filter.old filter.new }
    // And a game that can't match, which is not read, has no matching ply.
    ensures skipped { OnOk result ((i : ℕ) (sig : Sig) → slice_get (G.sigs games.now) i ≡ Some sig → passes sig q.now ≡ false → slice_index_or filter.new i None ≡ entry_after op (slice_index_or filter.old i None) None) }
    ensures entries { length filter.new ≡ length filter.old }
    ensures unchanged { F.seen files.new ≡ F.seen files.old }
    ensures asks { F.asked files.new ≤ F.asked files.old + price op q.now (G.sigs games.now) (G.extents games.now) filter.old }
    ensures asked { OnOk result (raised (F.asked files.old) (price op q.now (G.sigs games.now) (G.extents games.now) filter.old) ≤ F.asked files.new) }
    ensures counts { F.faults files.old ≤ F.faults files.new }
    ensures cause { IfErr result (λ e. HasFetchCause e (G.sigs games.now) (G.extents games.now) (F.seen files.old).games buf.new (F.faults files.old) (F.faults files.new)) }
{
    game_search::search(games, &mut Counts { query: q }, op, filter, files, buf)
}
