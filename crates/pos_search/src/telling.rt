//! What an index tells of the games for a query.
ghost use Rattle.std.specs.Prelude.{◌≡◌, ◌&&◌, not, false, IsTrue, List, [], None, option_copied, slice_index_or};
ghost use Rattle.pos_index.specs.Hits.{Place, places_in, rows_told};
ghost use Rattle.sig_index.specs.Homes.{IsHomeList};
ghost use Rattle.sig_index.specs.declared.pos_query.PosQuery.{PosQuery as Query};
ghost use Rattle.pos_search.specs.Matching.{IsLegalFrom};
ghost use Rattle.pos_search.specs.Passing.{passes};
ghost use Rattle.pos_search.specs.Searching.{hit_told, is_exact, is_out, ply_of};
ghost use Rattle.pos_search.specs.Telling.{AreLegalHits, hits_told, out_by};

use crate::matching::Sought;
use cell_core::{Move, pack};
use pos_index::{BoardHits, Last, PosIndex};
use sig_index::{Brief, Mode, PosQuery};
use std::marker::Model;

/// What an index tells a search of all games, if there is one: the hits on the board that is sought, and what is kept of the last place of
/// each game.
#[derive(Drop)]
pub struct Told<'a> {
    hits: BoardHits<'a>,
    lasts: &'a [Option<Last>],
}

impl<'a> Model for Told<'a> {
    ghost use Rattle.pos_search.specs.Telling.{Told as PlainTold};

    ghost Value = { PlainTold };

    ghost view = { λ told. record { hits = told.hits; lasts = told.lasts.now } };
}

/// What an index tells for a query, if there is one: nothing, if the query is not exact.
pub fn hits_told<'a>(q: &PosQuery, index: Option<&'a PosIndex>) -> Told<'a>
    ensures told { result ≡ hits_told q.now (rows_told (option_copied index.entry)) }
    ensures legal { AreLegalHits q.now result }
{
    let Some(index) = index else {
        return nothing_told();
    };
    if !is_exact(q.mode) {
        return nothing_told();
    }
    Told {
        hits: BoardHits::new(index.find(&pack(&q.board, q.side))),
        lasts: index.lasts(),
    }
}

// No hits, and nothing of any game.
fn nothing_told<'a>() -> Told<'a>
    ensures { result ≡ record { hits = []; lasts = [] } }
{
    Told {
        hits: BoardHits::new(&[]),
        lasts: &[],
    }
}

// The hit of game `i`, if it is told.
#[inline(always)]
pub(crate) fn hit_told(told: &mut Told<'_>, i: u32) -> Option<(u32, Option<Move>)>
    ensures same { told.new ≡ told.old }
    ensures told { (query : Query) (rows : List (List Place)) → told.old ≡ hits_told query rows → result ≡ hit_told query (places_in rows i) }
    ensures legal { (query : Query) → AreLegalHits query told.old → IsLegalFrom query result }
{
    told.hits.first(i)
}

// Whether game `i`, of which no hit is told, can match.
#[inline(always)]
pub(crate) fn is_open(told: &Told<'_>, i: u32, q: &Sought<'_>, sig: &Brief<'_>) -> bool
    requires home { IsHomeList sig.now.home }
    ensures { (rows : List (List Place)) → told.now ≡ hits_told q.now rows → result ≡ (passes sig.now q.now && not (is_out q.now (places_in rows i) sig.now)) }
{
    !is_out(told, i, q, sig) && q.passes(sig)
}

/// Whether game `i` of this signature is known to have no hit, without a look at the hits: none is told of it, and its record need not be
/// read. Any other game may have none, too.
#[inline(always)]
pub fn is_passed(told: &Told<'_>, i: u32, q: &Sought<'_>, sig: &Brief<'_>) -> bool
    requires home { IsHomeList sig.now.home }
    ensures untold { IsTrue result → (rows : List (List Place)) → told.now ≡ hits_told q.now rows → None ≡ hit_told q.now (places_in rows i) }
    ensures closed { IsTrue result → (rows : List (List Place)) → told.now ≡ hits_told q.now rows → (passes sig.now q.now && not (is_out q.now (places_in rows i) sig.now)) ≡ false }
{
    told.hits.skips(i) && !is_open(told, i, q, sig)
}

// Whether what is kept of the last place of game `i` rules it out.
#[inline(always)]
fn is_out(told: &Told<'_>, i: u32, q: &Sought<'_>, sig: &Brief<'_>) -> bool
    ensures { (rows : List (List Place)) → told.now ≡ hits_told q.now rows → result ≡ is_out q.now (places_in rows i) sig.now }
{
    is_out_by(&last_told(told, i), q, sig)
}

// What is kept of the last place of game `i`.
#[inline(always)]
fn last_told(told: &Told<'_>, i: u32) -> Option<Last>
    ensures { result ≡ slice_index_or told.now.lasts i None }
{
    if (i as usize) < told.lasts.len() {
        told.lasts[i as usize]
    } else {
        None
    }
}

// Whether it rules the game out.
#[inline(always)]
fn is_out_by(last: &Option<Last>, q: &Sought<'_>, sig: &Brief<'_>) -> bool
    ensures { result ≡ out_by q.now sig.now last.now }
{
    match last {
        Some(last) => q.is_past(last) && !q.looks_into(sig),
        None => false,
    }
}

// The first matching ply of game `i`, if it is told.
#[inline(always)]
pub(crate) fn ply_told(told: &mut Told<'_>, i: u32) -> Option<u32>
    ensures same { told.new ≡ told.old }
    ensures told { (query : Query) (rows : List (List Place)) → told.old ≡ hits_told query rows → result ≡ ply_of (hit_told query (places_in rows i)) }
{
    match hit_told(told, i) {
        Some((ply, _)) => Some(ply),
        None => None,
    }
}

// Whether only the board that is sought matches in this mode.
fn is_exact(mode: Mode) -> bool
    ensures { result ≡ is_exact mode }
{
    match mode {
        Mode::Exact => true,
        Mode::Pawns | Mode::Files | Mode::Material => false,
    }
}
