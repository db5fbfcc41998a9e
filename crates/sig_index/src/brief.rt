//! The signature in the 47 bytes of a game's entry.
ghost use Rattle.std.specs.Prelude.{◌≡◌, ◌<◌, ◌*◌, ◌-◌, ◌/◌, ◌%◌, ◌^◌, ℕ, length, slice_index};
ghost use Rattle.index_entry.specs.Entry.{entry_in};
ghost use Rattle.sig_index.specs.Signature.{IsSigBounded, sig_in};

use crate::signature::{HomeList, Sig};
use game_tree::{Date, Outcome, Rating};
use index_entry::{
    ENTRY_LEN, Entry, comments_in, has_own_start_in, has_promotion_in, has_underpromotion_in,
    home_count_in, home_in, home_word_in, material_in, nags_in, pack, plies_in, variations_in,
};
use std::marker::Model;

/// The signature of a game in the 47 bytes of its entry. Each part is read by itself, where it is asked for.
///
/// Contracts see the signature.
#[derive(Drop)]
pub struct Brief<'a> {
    entry: &'a [u8; ENTRY_LEN],
}

impl<'a> Model for Brief<'a> {
    ghost use Rattle.index_entry.specs.Entry.{entry_in};
    ghost use Rattle.sig_index.specs.Signature.{sig_in};
    ghost use Rattle.sig_index.specs.declared.signature.Sig.{Sig as Signature};

    ghost Value = { Signature };

    ghost view = { λ b. sig_in (entry_in b.entry.now) };
}

impl<'a> Brief<'a> {
    /// The signature in an entry.
    pub fn new(entry: &'a [u8; ENTRY_LEN]) -> Brief<'a>
        ensures sig { result ≡ sig_in (entry_in entry.now) }
    {
        Brief { entry }
    }

    /// All of it.
    pub fn whole(&self) -> Sig
        ensures whole { result ≡ self.now }
    {
        Sig {
            material: self.material(),
            home: HomeList {
                count: self.home_count(),
                values: home_in(self.entry),
            },
            plies: self.plies(),
            promo: self.has_promotion(),
            under: self.has_underpromotion(),
            own_start: self.has_own_start(),
            vars: self.variations(),
            comments: comments_in(self.entry),
            nags: nags_in(self.entry),
        }
    }

    /// The final counts.
    pub fn material(&self) -> [u8; 10]
        ensures material { result ≡ self.now.material }
    {
        material_in(self.entry)
    }

    /// How many pawns left their own squares.
    pub fn home_count(&self) -> u8
        ensures count { result ≡ self.now.home.count }
        ensures values { length self.now.home.values ≡ 16 }
    {
        home_count_in(self.entry)
    }

    /// The home values as one word, the first in its highest four bits. What stands behind them may be anything.
    pub fn home_word(&self) -> u64
        ensures values { (i : ℕ) → i < 16 → i < self.now.home.count → result / 2 ^ (60 - 4 * i) % 16 ≡ slice_index self.now.home.values i }
    {
        home_word_in(self.entry)
    }

    /// The plies of the main line; more than 1,023 count as 1,023.
    pub fn plies(&self) -> u16
        ensures plies { result ≡ self.now.plies }
    {
        plies_in(self.entry)
    }

    /// Whether any line has a promotion.
    pub fn has_promotion(&self) -> bool
        ensures promotion { result ≡ self.now.promo }
    {
        has_promotion_in(self.entry)
    }

    /// Whether any line has a promotion to another man than a queen.
    pub fn has_underpromotion(&self) -> bool
        ensures promotion { result ≡ self.now.under }
    {
        has_underpromotion_in(self.entry)
    }

    /// Whether the game begins at another position than the initial one.
    pub fn has_own_start(&self) -> bool
        ensures own_start { result ≡ self.now.own_start }
    {
        has_own_start_in(self.entry)
    }

    /// The code of the number of variations in all lines.
    pub fn variations(&self) -> u8
        ensures variations { result ≡ self.now.vars }
    {
        variations_in(self.entry)
    }
}

/// The 47 bytes of an entry that has this signature and says nothing else.
pub(crate) fn entry_with(sig: &Sig) -> [u8; ENTRY_LEN]
    requires bounded { IsSigBounded sig.now }
    ensures sig { sig_in (entry_in result) ≡ sig.now }
{
    let unrated = Rating { value: 0, kind: 0 };
    pack(&Entry {
        offset: 0,
        len: 0,
        own_start: sig.own_start,
        promo: sig.promo,
        under: sig.under,
        deleted: false,
        marks: 0,
        white: 0,
        black: 0,
        event: 0,
        site: 0,
        round: 0,
        vars: sig.vars,
        comments: sig.comments,
        nags: sig.nags,
        result: Outcome::Unknown,
        eco: 0,
        date: Date::unknown(),
        event_date: Date::unknown(),
        white_rating: unrated,
        black_rating: unrated,
        material: sig.material,
        plies: sig.plies,
        home_count: sig.home.count,
        home: sig.home.values,
    })
}
