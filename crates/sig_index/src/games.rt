//! The games of a base as searches see them.
ghost use Rattle.std.specs.Prelude.{◌≡◌, ◌≤◌, ◌<◌, [], List, length, take, slice_get, Some, IfOk, IfErr};
ghost use Rattle.base_files.specs.Counters.{raised};
ghost use Rattle.base_files.specs.Told.{Tells};
ghost use Rattle.base_files.specs.declared.extent.Extent.{Extent as Place};
ghost use Rattle.game_tree.specs.Head.{head_of, HasTexts};
ghost use Rattle.game_tree.specs.declared.head.Head.{Head};
ghost use Rattle.sig_index.specs.declared.signature.Sig.{Sig as Signature};
ghost use Rattle.sig_index.specs.Games.{AreWithin, HasFetchCause, Names, extent_in, head_in, name_in, plies_in, record_told};
ghost use Rattle.sig_index.specs.Signature.{IsSigBounded};

use crate::brief::Brief;
use crate::signature::Sig;
use base_files::{Extent, Files};
use game_tree::{Date, HeadRef, Outcome, Rating};
use thiserror::Error;

/// Why the moves of a game are not known.
#[derive(Clone, Copy, Debug, PartialEq, Eq, Error)]
pub enum FetchError {
    /// The files failed.
    #[error("the files of the base failed")]
    Failed,
    /// The bytes of the game's record are no longer those of a game with the signature that is kept. They are no
    /// record, or one of a game whose signature is `found`.
    #[error("game {game} has changed")]
    Changed {
        game: u32,
        kept: Sig,
        found: Option<Sig>,
    },
}

/// The names of a head.
#[derive(Clone, Copy, Debug, PartialEq, Eq)]
pub enum HeadName {
    White,
    Black,
    Event,
    Site,
    Round,
}

/// The games of a base, counted from 0: of each its head without tags, its signature, and where its record stands. What a search of
/// heads asks for is read by itself, so that no game's head is made of all its parts for one of them.
pub trait Games {
    // The heads, without tags.
    ghost heads: { Self → List Head };

    // The signatures.
    ghost sigs: { Self → List Signature };

    // Where the records stand.
    ghost extents: { Self → List Place };

    /// The number of games.
    fn len(&self) -> u32
        ensures one_sig_each { length (sigs self.now) ≡ result }
        ensures one_head_each { length (heads self.now) ≡ result }
        ensures one_extent_each { length (extents self.now) ≡ result };

    /// The signature of game `i`, which is below the number of games.
    fn sig(&self, i: u32) -> Sig
        requires game { i < length (sigs self.now) }
        ensures kept { slice_get (sigs self.now) i ≡ Some result }
        ensures bounded { IsSigBounded result };

    /// The signature of game `i`, of which a search reads what it asks for.
    fn brief(&self, i: u32) -> Brief<'_>
        requires game { i < length (sigs self.now) }
        ensures kept { slice_get (sigs self.now) i ≡ Some result }
        ensures bounded { IsSigBounded result };

    /// The head of game `i`, without its tags.
    fn head(&self, i: u32) -> HeadRef<'_>
        requires game { i < length (sigs self.now) }
        ensures head { slice_get (heads self.now) i ≡ Some (head_of result []) }
        ensures texts { HasTexts result };

    /// One of the names of game `i`.
    fn name(&self, i: u32, which: HeadName) -> &[u8]
        requires game { i < length (sigs self.now) }
        ensures name { result.now ≡ name_in which (head_in (heads self.now) i) };

    /// Whether game `i` is marked as deleted.
    fn is_deleted(&self, i: u32) -> bool
        requires game { i < length (sigs self.now) }
        ensures deleted { result ≡ (head_in (heads self.now) i).deleted };

    /// The marks of game `i`.
    fn marks(&self, i: u32) -> u32
        requires game { i < length (sigs self.now) }
        ensures marks { result ≡ (head_in (heads self.now) i).marks };

    /// The result of game `i`.
    fn outcome(&self, i: u32) -> Outcome
        requires game { i < length (sigs self.now) }
        ensures outcome { result ≡ (head_in (heads self.now) i).result };

    /// The date of game `i`.
    fn date(&self, i: u32) -> Date
        requires game { i < length (sigs self.now) }
        ensures date { result ≡ (head_in (heads self.now) i).date };

    /// The rating of White in game `i`.
    fn white_rating(&self, i: u32) -> Rating
        requires game { i < length (sigs self.now) }
        ensures rating { result ≡ (head_in (heads self.now) i).white_rating };

    /// The rating of Black in game `i`.
    fn black_rating(&self, i: u32) -> Rating
        requires game { i < length (sigs self.now) }
        ensures rating { result ≡ (head_in (heads self.now) i).black_rating };

    /// The opening code of game `i`.
    fn eco(&self, i: u32) -> u16
        requires game { i < length (sigs self.now) }
        ensures eco { result ≡ (head_in (heads self.now) i).eco };

    /// The plies that the signature of game `i` has.
    fn plies(&self, i: u32) -> u16
        requires game { i < length (sigs self.now) }
        ensures plies { result ≡ plies_in (sigs self.now) i };

    /// Where the record of game `i` stands. It has at most 131,071 bytes.
    fn extent(&self, i: u32) -> Extent
        requires game { i < length (sigs self.now) }
        ensures extent { result ≡ extent_in (extents self.now) i }
        ensures short { result.len ≤ 131071 };

    /// Reads the record of game `i` into the front of `buf`, which has at least 131,072 bytes, and answers its length,
    /// at most 131,071. Each record ends within the length of the games file that is known. So many bytes count as
    /// asked, after an error too.
    ///
    /// The bytes need not be looked at: `Changed` comes only if they are, and if they are not those of a game with the
    /// signature that is kept.
    fn fetch<F: Files>(&self, i: u32, files: &mut F, buf: &mut [u8]) -> Result<u32, FetchError>
        requires game { i < length (sigs self.now) }
        requires room { 131072 ≤ length buf.old }
        requires within { AreWithin (F.seen files.old).known (extents self.now) }
        ensures len { IfOk result (λ n. n ≡ (extent_in (extents self.now) i).len) }
        ensures short { IfOk result (λ n. n ≤ 131071) }
        ensures bytes { IfOk result (λ n. Tells (record_told (F.seen files.old).games (extent_in (extents self.now) i)) (take n buf.new)) }
        ensures unchanged { F.seen files.new ≡ F.seen files.old }
        ensures asks { F.asked files.new ≡ raised (F.asked files.old) (extent_in (extents self.now) i).len }
        ensures counts { F.faults files.old ≤ F.faults files.new }
        ensures cause { IfErr result (λ e. HasFetchCause e (sigs self.now) (extents self.now) (F.seen files.old).games buf.new (F.faults files.old) (F.faults files.new)) }
        ensures own { IfErr result (λ e. Names e i) };
}
