//! The search of all games.
ghost use Rattle.std.specs.Prelude.{◌≡◌, ◌<◌, None, Some, length, slice_get, slice_index_or, slice_set};
ghost use Rattle.game_filter.specs.Search.{entry_after, searched};
ghost use Rattle.sig_index.specs.Games.{head_in, name_in, plies_in};
ghost use Rattle.head_search.specs.Matching.{deleted_item, firsts_of, head_matches, name_item, names_match, numbers_match, player_item};

use crate::matching::{begins, eco_holds, mark_holds, result_holds, span_holds};
use cell_core::Text;
use game_filter::{Filter, Op};
use sig_index::{Games, HeadName, HeadQuery};

/// Leaves in the filter what its entries become by a search of heads: a game that is asked for matches at ply 0. The filter has one
/// entry per game.
pub fn search<G: Games>(games: &G, q: &HeadQuery, op: Op, filter: &mut Filter)
    requires games { length filter.old ≡ length (G.sigs games.now) }
    ensures found { filter.new ≡ searched op (firsts_of q.now (G.heads games.now) (G.sigs games.now)) filter.old }
{
    for i in 0..games.len() {
        search_game(games, i, q, op, filter);
    }
}

// Joins the match of one game.
#[tactic(auto, using(game_filter::proofs::Searches::joined, game_filter::proofs::Searches::not_looked_at))]
fn search_game<G: Games>(games: &G, i: u32, q: &HeadQuery, op: Op, filter: &mut Filter)
    requires game { i < length (G.sigs games.now) }
    requires games { length filter.old ≡ length (G.sigs games.now) }
    ensures joined { filter.new ≡ slice_set filter.old i (entry_after op (slice_index_or filter.old i None)
        (slice_index_or (firsts_of q.now (G.heads games.now) (G.sigs games.now)) i None)) }
{
    let old = filter.get(i);
    if op.looks_at(old) {
        join(filter, i, old, op.entry(old, first_ply(games, i, q)));
    }
}

// Writes the entry of one game, of which the old one is known. A game that was out and stays out is not written.
#[tactic(auto, using(crate::proofs::SearchLemmas::stays_out))]
fn join(filter: &mut Filter, i: u32, old: Option<u32>, entry: Option<u32>)
    requires game { i < length filter.old }
    requires old { slice_get filter.old i ≡ Some old }
    ensures set { filter.new ≡ slice_set filter.old i entry }
{
    if old.is_some() || entry.is_some() {
        filter.set(i, entry);
    }
}

// The first matching ply of one game.
fn first_ply<G: Games>(games: &G, i: u32, q: &HeadQuery) -> Option<u32>
    requires game { i < length (G.sigs games.now) }
    ensures first { result ≡ slice_index_or (firsts_of q.now (G.heads games.now) (G.sigs games.now)) i None }
{
    // There is a head for each signature.
    let _count = games.len();
    if is_asked(games, i, q) { Some(0) } else { None }
}

// Whether a game is one that is asked for. The items are tested from the cheapest on, each on its own part of the head.
#[tactic(auto, unfolding(crate::specs::Matching::head_matches))]
fn is_asked<G: Games>(games: &G, i: u32, q: &HeadQuery) -> bool
    requires game { i < length (G.sigs games.now) }
    ensures asked { result ≡ head_matches (head_in (G.heads games.now) i) (plies_in (G.sigs games.now) i) q.now }
{
    numbers_fit(games, i, q) && span_holds(&q.plies, games.plies(i)) && names_fit(games, i, q)
}

// Whether all items of a game hold but those of plies and of names.
fn numbers_fit<G: Games>(games: &G, i: u32, q: &HeadQuery) -> bool
    requires game { i < length (G.sigs games.now) }
    ensures { result ≡ numbers_match (head_in (G.heads games.now) i) q.now }
{
    deleted_fits(games, i, q.deleted)
        && mark_holds(q.mark, games.marks(i))
        && result_holds(q.result, games.outcome(i))
        && span_holds(&q.year, games.date(i).year)
        && span_holds(&q.welo, games.white_rating(i).value)
        && span_holds(&q.belo, games.black_rating(i).value)
        && eco_holds(&q.eco, games.eco(i))
}

// Whether the item of the deleted mark holds. The mark is looked up only if it is asked for.
#[tactic(auto, unfolding(crate::specs::Matching::deleted_item))]
fn deleted_fits<G: Games>(games: &G, i: u32, asked: Option<bool>) -> bool
    requires game { i < length (G.sigs games.now) }
    ensures { result ≡ deleted_item asked (head_in (G.heads games.now) i).deleted }
{
    match asked {
        Some(yes) => games.is_deleted(i) == yes,
        None => true,
    }
}

// Whether all items of names of a game hold.
fn names_fit<G: Games>(games: &G, i: u32, q: &HeadQuery) -> bool
    requires game { i < length (G.sigs games.now) }
    ensures { result ≡ names_match (head_in (G.heads games.now) i) q.now }
{
    name_fits(games, i, HeadName::White, &q.white)
        && name_fits(games, i, HeadName::Black, &q.black)
        && player_fits(games, i, &q.player)
        && name_fits(games, i, HeadName::Event, &q.event)
        && name_fits(games, i, HeadName::Site, &q.site)
        && name_fits(games, i, HeadName::Round, &q.round)
}

// Whether an item of one of a game's names holds. A name that is not asked for is not looked up.
#[tactic(auto, unfolding(crate::specs::Matching::name_item))]
fn name_fits<G: Games>(games: &G, i: u32, which: HeadName, asked: &Option<Text>) -> bool
    requires game { i < length (G.sigs games.now) }
    ensures { result ≡ name_item asked.now (name_in which (head_in (G.heads games.now) i)) }
{
    match asked {
        Some(text) => begins(games.name(i, which), text),
        None => true,
    }
}

// Whether the item of either player holds.
#[tactic(auto, unfolding(crate::specs::Matching::player_item))]
fn player_fits<G: Games>(games: &G, i: u32, asked: &Option<Text>) -> bool
    requires game { i < length (G.sigs games.now) }
    ensures { result ≡ player_item asked.now (head_in (G.heads games.now) i).white (head_in (G.heads games.now) i).black }
{
    match asked {
        Some(text) => {
            begins(games.name(i, HeadName::White), text)
                || begins(games.name(i, HeadName::Black), text)
        }
        None => true,
    }
}
