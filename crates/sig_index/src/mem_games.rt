//! The games of a base in memory, for tests and benches.
ghost use Rattle.std.specs.Prelude.{◌≡◌, ◌≤◌, ◌<◌, ◌^◌, [], ◌∷◌, ◌++◌, List, ℕ, All, length, slice_get, take, Some, IfOk, IfErr, OnOk, OnErr};
ghost use Rattle.base_files.specs.Counters.{Rose, raised};
ghost use Rattle.base_files.specs.Told.{Tells};
ghost use Rattle.game_codec.specs.Record.{IsRecord};
ghost use Rattle.game_codec.specs.Written.{IfTooLong, longest, written_record};
ghost use Rattle.game_tree.specs.Head.{head_of, without_tags, HasTexts, IsTag};
ghost use Rattle.game_tree.specs.Legal.{IsLegalGame};
ghost use Rattle.sig_index.specs.declared.signature.Sig.{Sig as Signature};
ghost use Rattle.sig_index.specs.Games.{AreWithin, extent_in, head_in, name_in, plies_in, record_told};
ghost use Rattle.sig_index.specs.MemGames.{Kept, kept_of, heads_of, sigs_of, extents_of};
ghost use Rattle.sig_index.specs.Signature.{IsSig, IsSigBounded};

use crate::brief::{Brief, entry_with};
use crate::games::{FetchError, Games, HeadName};
use crate::signature::{Sig, sig_of};
use base_files::{Extent, Files};
use game_codec::{EncodeError, encode_game};
use game_tree::{Date, Game, Head, HeadRef, Outcome, Rating};
use index_entry::ENTRY_LEN;
use std::alloc::Global;
use std::marker::Model;

/// The heads and signatures of games, whose records stand one behind the other in a games file.
#[derive(Drop)]
pub struct MemGames {
    games: Vec<MemGame>,
}

/// What is kept of one game.
#[derive(Drop)]
struct MemGame {
    head: Head,
    // The bytes of an entry with its signature.
    entry: [u8; ENTRY_LEN],
    extent: Extent,
}

impl Model for MemGame {
    ghost use Rattle.std.specs.Prelude.{◌≤◌};
    ghost use Rattle.game_tree.specs.Head.{without_tags};
    ghost use Rattle.sig_index.specs.MemGames.{Kept};
    ghost use Rattle.index_entry.specs.Entry.{entry_in};
    ghost use Rattle.sig_index.specs.Signature.{IsSigBounded, sig_in};

    ghost Value = { Kept };

    ghost view = { λ game. record { head = without_tags game.head; sig = sig_in (entry_in game.entry); extent = game.extent } };

    ghost invariant = { λ game. IsSigBounded (sig_in (entry_in game.entry)) × (game.extent.len ≤ 131071) };
}

impl Model for MemGames {
    ghost use Rattle.std.specs.Prelude.{◌<◌, ◌^◌, List, length};
    ghost use Rattle.sig_index.specs.MemGames.{Kept};

    ghost Value = { List Kept };

    ghost view = { λ games. games.games.items };

    ghost invariant = { λ games. length games.games.items < 2 ^ 32 };
}

impl MemGames {
    /// No games.
    pub fn new(alloc: Global) -> MemGames
        ensures none { result ≡ [] }
    {
        MemGames {
            games: Vec::new(alloc),
        }
    }

    /// Adds a legal game with this head, and its record at the end of the bytes of a games file. After an error both are as they were.
    pub fn add(
        &mut self,
        alloc: Global,
        head: Head,
        game: &Game,
        file: &mut Vec<u8>,
    ) -> Result<(), EncodeError>
        requires legal { IsLegalGame game.now }
        requires tags { All IsTag head.tags }
        requires room { length self.old < u32.MAX }
        ensures added { OnOk result ((sig : Signature) × ((bytes : List ℕ) × ((IsSig game.now sig × IsRecord bytes head.tags game.now)
            × ((self.new ≡ self.old ++ kept_of head sig (length file.old.items) (length bytes) ∷ []) × (file.new.items ≡ file.old.items ++ bytes))))) }
        ensures too_long { IfErr result (IfTooLong (λ n. (n ≡ length (written_record head.tags game.now)) × (longest < n))) }
        ensures unchanged { OnErr result ((self.new ≡ self.old) × (file.new.items ≡ file.old.items)) }
    {
        let bytes = encode_game(alloc, game, head.tags.as_slice())?;
        let offset = file.len();
        let extent = Extent {
            offset: offset as u64,
            len: bytes.len() as u32,
        };
        file.extend_from_slice(bytes.as_slice())?;
        let entry = entry_with(&sig_of(game));
        if self
            .games
            .push(MemGame {
                head,
                entry,
                extent,
            })
            .is_err()
        {
            file.truncate(offset);
            return Err(EncodeError::Memory);
        }
        Ok(())
    }

    // What is kept of game `i`.
    fn at(&self, i: u32) -> &MemGame
        requires game { i < length self.now }
        ensures head { slice_get (heads_of self.now) i ≡ Some result.now.head }
        ensures fields { result.now.head ≡ head_in (heads_of self.now) i }
        ensures sig { slice_get (sigs_of self.now) i ≡ Some result.now.sig }
        ensures plies { result.now.sig.plies ≡ plies_in (sigs_of self.now) i }
        ensures extent { result.now.extent ≡ extent_in (extents_of self.now) i }
    {
        &self.games[i as usize]
    }
}

impl MemGame {
    fn name(&self, which: HeadName) -> &[u8]
        ensures name { result.now ≡ name_in which self.now.head }
    {
        match which {
            HeadName::White => self.head.white.as_bytes(),
            HeadName::Black => self.head.black.as_bytes(),
            HeadName::Event => self.head.event.as_bytes(),
            HeadName::Site => self.head.site.as_bytes(),
            HeadName::Round => self.head.round.as_bytes(),
        }
    }

    fn brief(&self) -> Brief<'_>
        ensures sig { result ≡ self.now.sig }
        ensures bounded { IsSigBounded result }
    {
        Brief::new(&self.entry)
    }

    fn extent(&self) -> Extent
        ensures extent { result ≡ self.now.extent }
        ensures short { result.len ≤ 131071 }
    {
        self.extent
    }
}

impl Games for MemGames {
    ghost heads = { heads_of };

    ghost sigs = { sigs_of };

    ghost extents = { extents_of };

    fn len(&self) -> u32 {
        self.games.len() as u32
    }

    fn sig(&self, i: u32) -> Sig {
        self.brief(i).whole()
    }

    fn brief(&self, i: u32) -> Brief<'_> {
        self.at(i).brief()
    }

    fn head(&self, i: u32) -> HeadRef<'_> {
        self.at(i).head.fields()
    }

    fn name(&self, i: u32, which: HeadName) -> &[u8] {
        self.at(i).name(which)
    }

    fn is_deleted(&self, i: u32) -> bool {
        self.at(i).head.deleted
    }

    fn marks(&self, i: u32) -> u32 {
        self.at(i).head.marks
    }

    fn outcome(&self, i: u32) -> Outcome {
        self.at(i).head.result
    }

    fn date(&self, i: u32) -> Date {
        self.at(i).head.date
    }

    fn white_rating(&self, i: u32) -> Rating {
        self.at(i).head.white_rating
    }

    fn black_rating(&self, i: u32) -> Rating {
        self.at(i).head.black_rating
    }

    fn eco(&self, i: u32) -> u16 {
        self.at(i).head.eco
    }

    fn plies(&self, i: u32) -> u16 {
        self.at(i).brief().plies()
    }

    fn extent(&self, i: u32) -> Extent {
        self.at(i).extent()
    }

    fn fetch<F: Files>(&self, i: u32, files: &mut F, buf: &mut [u8]) -> Result<u32, FetchError> {
        let extent = self.at(i).extent();
        match files.read_games(extent.offset, extent.len, buf) {
            Ok(()) => Ok(extent.len),
            Err(_) => Err(FetchError::Failed),
        }
    }
}
