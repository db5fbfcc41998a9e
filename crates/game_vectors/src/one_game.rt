//! A game in memory, and the games file that holds its record.
ghost use Rattle.std.specs.Prelude.{◌≡◌, [], length, IfOk};
ghost use Rattle.sig_index.specs.Games.{AreWithin};
ghost use Rattle.sig_index.specs.MemGames.{extents_of, sigs_of};

use base_files::{Files, MemFiles, Swap};
use cell_core::Text;
use game_codec::decode_game;
use game_tree::{Date, Head, Outcome, Rating, Tags};
use sig_index::MemGames;
use std::alloc::Global;
use std::test::Fail;

const NO_DATE: Date = Date {
    year: 0,
    month: 0,
    day: 0,
};

const NO_RATING: Rating = Rating { value: 0, kind: 0 };

// A head of which nothing is known.
fn no_head(alloc: Global) -> Head
    ensures tags { result.tags ≡ [] }
{
    Head {
        white: Text::new(alloc),
        black: Text::new(alloc),
        event: Text::new(alloc),
        site: Text::new(alloc),
        round: Text::new(alloc),
        date: NO_DATE,
        event_date: NO_DATE,
        result: Outcome::Unknown,
        white_rating: NO_RATING,
        black_rating: NO_RATING,
        eco: 0,
        marks: 0,
        deleted: false,
        tags: Tags::new(alloc),
    }
}

/// The game of a record, and files of which the length is known and these bytes change.
pub fn one_game(
    alloc: Global,
    record: &'static [u8],
    swaps: Vec<Swap>,
) -> Result<(MemGames, MemFiles), Fail>
    ensures one { IfOk result (λ held. length (sigs_of held.0) ≡ 1) }
    ensures within { IfOk result (λ held. AreWithin held.1.known (extents_of held.0)) }
{
    let game = decode_game(alloc, record.split_at(record.len().min(100)).0)?.game;
    let mut games = MemGames::new(alloc);
    let mut file = Vec::new(alloc);
    games.add(alloc, no_head(alloc), &game, &mut file)?;
    let mut files = MemFiles::changing(Vec::new(alloc), Vec::new(alloc), file, swaps);
    files.games_len()?;
    Ok((games, files))
}
