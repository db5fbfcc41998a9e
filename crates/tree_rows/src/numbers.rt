//! The numbers of a row, and their sums over all rows.
ghost use Rattle.std.specs.Prelude.{◌≡◌, ◌+◌, ◌-◌, ◌<◌, ◌≤◌, ◌^◌, ℕ};
ghost use Rattle.tree_rows.specs.Numbers.{AreSmall, numbers_of, total_of};
ghost use Rattle.tree_rows.specs.Keeping.{AreFew, AreWithin, plus};

use crate::row::Row;

/// The numbers of a row, or of all rows together: wide enough for the sums of any rows.
#[derive(Clone, Copy)]
pub struct Numbers {
    pub games: u128,
    pub white: u128,
    pub draws: u128,
    pub black: u128,
    pub unfinished: u128,
    pub mover_sum: u128,
    pub mover_rated: u128,
    pub other_sum: u128,
    pub other_rated: u128,
    pub year_sum: u128,
    pub dated: u128,
}

impl Numbers {
    /// The numbers of a row.
    pub fn of(row: &Row) -> Numbers
        ensures numbers { result ≡ numbers_of row.now }
        ensures small { AreSmall result }
    {
        Numbers {
            games: counted(0, row.games),
            white: counted(0, row.white),
            draws: counted(0, row.draws),
            black: counted(0, row.black),
            unfinished: counted(0, row.unfinished),
            mover_sum: u128::from(row.mover_sum),
            mover_rated: counted(0, row.mover_rated),
            other_sum: u128::from(row.other_sum),
            other_rated: counted(0, row.other_rated),
            year_sum: u128::from(row.year_sum),
            dated: counted(0, row.dated),
        }
    }

    /// The sums over all rows.
    pub fn total(rows: &[Row]) -> Numbers
        ensures sums { result ≡ total_of rows.now }
        ensures small { AreSmall result }
    {
        let mut total = NOTHING;
        for row in rows {
            total.add(row);
        }
        total
    }

    // Adds those of a row.
    fn add(&mut self, row: &Row)
        requires room { AreFew self.old }
        ensures plus { self.new ≡ plus self.old row.now }
        ensures within { (rows : ℕ) → AreWithin rows self.old → AreWithin (rows + 1) self.new }
    {
        self.games = counted(self.games, row.games);
        self.white = counted(self.white, row.white);
        self.draws = counted(self.draws, row.draws);
        self.black = counted(self.black, row.black);
        self.unfinished = counted(self.unfinished, row.unfinished);
        self.mover_sum = summed(self.mover_sum, row.mover_sum);
        self.mover_rated = counted(self.mover_rated, row.mover_rated);
        self.other_sum = summed(self.other_sum, row.other_sum);
        self.other_rated = counted(self.other_rated, row.other_rated);
        self.year_sum = summed(self.year_sum, row.year_sum);
        self.dated = counted(self.dated, row.dated);
    }
}

// The sums over no rows.
const NOTHING: Numbers = Numbers {
    games: 0,
    white: 0,
    draws: 0,
    black: 0,
    unfinished: 0,
    mover_sum: 0,
    mover_rated: 0,
    other_sum: 0,
    other_rated: 0,
    year_sum: 0,
    dated: 0,
};

// A number with that of a row more.
fn counted(number: u128, more: u32) -> u128
    requires room { number ≤ 2 ^ 128 - 2 ^ 64 }
    ensures sum { result ≡ number + more }
    ensures small { more < 2 ^ 32 }
{
    number + u128::from(more)
}

// A sum with that of a row more.
fn summed(sum: u128, more: u64) -> u128
    requires room { sum ≤ 2 ^ 128 - 2 ^ 64 }
    ensures sum { result ≡ sum + more }
    ensures small { more < 2 ^ 64 }
{
    sum + u128::from(more)
}
