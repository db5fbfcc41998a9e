//! One row of a tree.
ghost use Rattle.std.specs.Prelude.{◌≡◌, ◌≤◌, ◌<◌, ◌+◌, ◌^◌};
ghost use Rattle.tree_rows.specs.Rows.{IsHit, ended, known};
ghost use Rattle.tree_rows.specs.Keeping.{HasRoom, IsCounted, grown, no_hits, shrunk};

use crate::hit::GameHit;
use cell_core::Move;
use game_tree::Outcome;

/// The games that go on with one move, or that end at the position if the key is none. A row has how many there are,
/// with each result, and the sums of the ratings of the side to move, of those of the other side, and of the years.
/// Beside each sum stands how many games have such a number.
#[derive(Clone, Copy, Debug, PartialEq, Eq)]
pub struct Row {
    pub key: Option<Move>,
    pub games: u32,
    pub white: u32,
    pub draws: u32,
    pub black: u32,
    pub unfinished: u32,
    pub mover_sum: u64,
    pub mover_rated: u32,
    pub other_sum: u64,
    pub other_rated: u32,
    pub year_sum: u64,
    pub dated: u32,
}

impl Row {
    // The row of one hit.
    pub(crate) fn of(hit: &GameHit) -> Row
        ensures row { result ≡ grown hit.now (no_hits hit.now.next) }
        ensures hit { IsHit hit.now }
    {
        let mut row = Row {
            key: hit.next,
            games: 0,
            white: 0,
            draws: 0,
            black: 0,
            unfinished: 0,
            mover_sum: 0,
            mover_rated: 0,
            other_sum: 0,
            other_rated: 0,
            year_sum: 0,
            dated: 0,
        };
        row.add(hit);
        row
    }

    // Counts one hit more.
    #[tactic(auto, unfolding(crate::specs::Keeping::grown))]
    pub(crate) fn add(&mut self, hit: &GameHit)
        requires room { HasRoom self.old }
        ensures row { self.new ≡ grown hit.now self.old }
        ensures hit { IsHit hit.now }
    {
        self.games += 1;
        self.white += ended(Outcome::White, hit.result);
        self.draws += ended(Outcome::Draw, hit.result);
        self.black += ended(Outcome::Black, hit.result);
        self.unfinished += ended(Outcome::Unknown, hit.result);
        self.mover_sum = raised(self.mover_sum, hit.mover);
        self.mover_rated += known(hit.mover);
        self.other_sum = raised(self.other_sum, hit.other);
        self.other_rated += known(hit.other);
        self.year_sum = raised(self.year_sum, hit.year);
        self.dated += known(hit.year);
    }

    // Counts a hit no more.
    #[tactic(auto, unfolding(crate::specs::Keeping::shrunk))]
    pub(crate) fn drop_hit(&mut self, hit: &GameHit)
        requires counted { IsCounted hit.now self.old }
        ensures { self.new ≡ shrunk hit.now self.old }
    {
        self.games -= 1;
        self.white -= ended(Outcome::White, hit.result);
        self.draws -= ended(Outcome::Draw, hit.result);
        self.black -= ended(Outcome::Black, hit.result);
        self.unfinished -= ended(Outcome::Unknown, hit.result);
        self.mover_sum -= u64::from(hit.mover);
        self.mover_rated -= known(hit.mover);
        self.other_sum -= u64::from(hit.other);
        self.other_rated -= known(hit.other);
        self.year_sum -= u64::from(hit.year);
        self.dated -= known(hit.year);
    }
}

// A sum with a number more.
fn raised(sum: u64, number: u16) -> u64
    requires room { sum < 2 ^ 63 }
    ensures sum { result ≡ sum + number }
    ensures small { number < 65536 }
{
    sum + u64::from(number)
}

// One if a game ended so.
fn ended(outcome: Outcome, result_of_game: Outcome) -> u32
    ensures one { result ≡ ended outcome result_of_game }
    ensures few { result ≤ 1 }
{
    u32::from(outcome == result_of_game)
}

// One for a number that is known.
fn known(number: u16) -> u32
    ensures one { result ≡ known number }
    ensures few { result ≤ 1 }
{
    u32::from(number != 0)
}
