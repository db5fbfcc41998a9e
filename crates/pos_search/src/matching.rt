//! What a search of a position asks of one position, and of a signature.
ghost use Rattle.std.specs.Prelude.{◌≡◌, length};
ghost use Rattle.chess_laws.specs.Counts.{counts_of};
ghost use Rattle.chess_laws.specs.Position.{Sound};
ghost use Rattle.sig_index.specs.Coming.{can_come};
ghost use Rattle.sig_index.specs.Homes.{IsHomeList};
ghost use Rattle.pos_search.specs.Matching.{alike, matches, same_counts};
ghost use Rattle.pos_search.specs.Passing.{fixes_pawns, has_homes, just, looks_into, passes};
ghost use Rattle.pos_search.specs.Sought.{IsTold, can_follow};
ghost use Rattle.pos_search.specs.Telling.{past_by};

use crate::boards::{same_files, same_men, same_pawns};
use crate::coming::Coming;
use crate::homes::Homes;
use cell_core::Colour;
use chess_laws::{Counts, Position};
use pos_index::{Last, home_set, men_in};
use sig_index::{Brief, MatRange, Mode, PosQuery, can_come, can_stand, home_allows};
use std::marker::Model;

/// Whether a game with this signature can match: if it cannot, no ply of its main line matches, and no place of its variations if the
/// query looks there. A home list has at most 16 values, each below 16.
pub fn passes(s: &Brief<'_>, q: &PosQuery) -> bool
    requires home { IsHomeList s.now.home }
    ensures passes { result ≡ passes s.now q.now }
{
    Sought::new(q).passes(s)
}

/// What a search of a position seeks, with what is counted on its board once: for a caller that asks of many games, each by itself.
///
/// Contracts see the query.
#[derive(Drop)]
pub struct Sought<'a> {
    query: &'a PosQuery,
    // The ten counts, the same as the only ones of a range, and their sum.
    counts: Counts,
    range: MatRange,
    men: u16,
    // The pawns at home: their values, and their squares.
    homes: u16,
    at_home: Homes,
}

impl<'a> Model for Sought<'a> {
    ghost use Rattle.sig_index.specs.declared.pos_query.PosQuery.{PosQuery as Query};
    ghost use Rattle.pos_search.specs.Sought.{IsCounted};

    ghost Value = { Query };

    ghost view = { λ s. s.query.now };

    ghost invariant = { λ s. IsCounted s.query.now s.counts s.range s.men s.homes s.at_home };
}

impl<'a> Sought<'a> {
    /// What a query seeks.
    pub fn new(query: &'a PosQuery) -> Sought<'a>
        ensures query { result ≡ query.now }
        ensures squares { length result.board ≡ 64 }
    {
        let counts = Counts::of(&query.board);
        let numbers = counts.numbers();
        Sought {
            query,
            counts,
            range: MatRange {
                lo: numbers,
                hi: numbers,
            },
            men: men_in(&query.board),
            homes: home_set(&query.board),
            at_home: Homes::of(&query.board),
        }
    }

    /// The side that is to move.
    pub fn side(&self) -> Colour
        ensures side { result ≡ self.now.side }
    {
        self.query.side
    }

    // Whether a game with this signature can match.
    #[inline(never)]
    #[tactic(auto, unfolding(crate::specs::Passing::passes))]
    pub(crate) fn passes(&self, s: &Brief<'_>) -> bool
        requires home { IsHomeList s.now.home }
        ensures passes { result ≡ passes s.now self.now }
    {
        if self.looks_into(s) {
            return true;
        }
        (!fixes_pawns(self.query.mode) || home_allows(s, self.homes)) && can_stand(s, &self.range)
    }

    // Whether variations of a game with this signature are looked at: the query looks there, and it has some.
    #[inline(always)]
    pub(crate) fn looks_into(&self, s: &Brief<'_>) -> bool
        ensures into { result ≡ looks_into s.now self.now }
    {
        self.query.vars && s.variations() != 0
    }

    // Whether no ply behind the last place of a game that an index has can have the board, by what is kept of that place.
    #[inline(always)]
    pub(crate) fn is_past(&self, last: &Last) -> bool
        ensures { result ≡ past_by self.now last.now }
    {
        // By the number of men most games are.
        if last.men < self.men {
            return true;
        }
        last.homes & self.homes != self.homes || !last.goes_on
    }

    // Whether variations are looked at too.
    pub(crate) fn looks_aside(&self) -> bool
        ensures aside { result ≡ self.now.vars }
    {
        self.query.vars
    }

    // Whether a position is one that is sought.
    #[inline(always)]
    #[tactic(auto, unfolding(crate::specs::Matching::matches))]
    pub(crate) fn matches(&self, p: &Position) -> bool
        ensures matches { result ≡ matches self.now p.now }
        ensures sound { Sound p.now }
    {
        // The rules of a position.
        let _setup = p.setup();
        p.side() == self.query.side && self.is_alike(p)
    }

    // Whether its board has in common with the sought one what the mode says.
    #[inline(always)]
    fn is_alike(&self, p: &Position) -> bool
        ensures { result ≡ alike self.now.mode p.now.board self.now.board }
    {
        let board = p.board();
        match self.query.mode {
            Mode::Exact => same_men(board, &self.query.board),
            Mode::Pawns => self.has_counts(p) && same_pawns(board, &self.query.board),
            Mode::Files => self.has_counts(p) && same_files(board, &self.query.board),
            Mode::Material => self.has_counts(p),
        }
    }

    // Whether its board has as many men of each kind as the sought one.
    #[inline(always)]
    fn has_counts(&self, p: &Position) -> bool
        ensures { result ≡ same_counts p.now.board self.now.board }
    {
        self.counts.is_same(p.census())
    }

    // Whether a position that is sought can still come after this one.
    #[inline(always)]
    #[tactic(auto, unfolding(crate::specs::Sought::can_follow))]
    pub(crate) fn can_follow(&self, p: &Position, coming: &mut Coming) -> bool
        requires told { IsTold self.now coming.old }
        ensures follows { result ≡ can_follow self.now p.now }
        ensures told { IsTold self.now coming.new }
    {
        coming.follow(self, p.census());
        coming.can && (!fixes_pawns(self.query.mode) || self.has_homes(p))
    }

    // What is known before a ply is looked at: if no man is missing, all can come.
    pub(crate) fn at_first(&self) -> Coming
        ensures told { IsTold self.now result }
    {
        Coming {
            counts: self.counts,
            can: true,
        }
    }

    // Whether the men of the sought board that are missing can still be made with so many men on the board.
    pub(crate) fn men_can_come(&self, counts: &Counts) -> bool
        ensures { result ≡ can_come (just (counts_of self.now.board)) counts.now }
    {
        can_come(&self.range, &counts.numbers())
    }

    // Whether each pawn at home on the sought board stands at home.
    fn has_homes(&self, p: &Position) -> bool
        ensures { result ≡ has_homes self.now.board p.now.board }
    {
        self.at_home.stand_on(p.board())
    }
}

// Whether the pawns stand on the same squares in this mode.
fn fixes_pawns(mode: Mode) -> bool
    ensures { result ≡ fixes_pawns mode }
{
    match mode {
        Mode::Exact | Mode::Pawns => true,
        Mode::Files | Mode::Material => false,
    }
}
