//! How games end for their names.
ghost use Rattle.std.specs.Prelude.{◌≡◌, ◌≤◌};
ghost use Rattle.cross_table.specs.Crosstable.{half_points_of, is_known, score_by, sign};

use game_tree::Outcome;

/// How a game ended for one of its two names. It is open if its result is unknown.
#[derive(Clone, Copy, Debug, PartialEq, Eq)]
pub(crate) enum Score {
    Won,
    Drawn,
    Lost,
    Open,
}

impl Score {
    /// How a game ended for White.
    pub(crate) fn of_white(outcome: Outcome) -> Score
        ensures { result ≡ score_by Score.Won Score.Lost outcome }
    {
        match outcome {
            Outcome::Unknown => Score::Open,
            Outcome::White => Score::Won,
            Outcome::Black => Score::Lost,
            Outcome::Draw => Score::Drawn,
        }
    }

    /// How a game ended for Black.
    pub(crate) fn of_black(outcome: Outcome) -> Score
        ensures { result ≡ score_by Score.Lost Score.Won outcome }
    {
        match outcome {
            Outcome::Unknown => Score::Open,
            Outcome::White => Score::Lost,
            Outcome::Black => Score::Won,
            Outcome::Draw => Score::Drawn,
        }
    }

    /// Its half points.
    pub(crate) fn half_points(self) -> u128
        ensures points { result ≡ half_points_of self }
        ensures few { result ≤ 2 }
    {
        match self {
            Score::Won => 2,
            Score::Drawn => 1,
            Score::Lost | Score::Open => 0,
        }
    }

    /// Whether the result is known.
    pub(crate) fn is_known(self) -> bool
        ensures { result ≡ is_known self }
    {
        match self {
            Score::Won | Score::Drawn | Score::Lost => true,
            Score::Open => false,
        }
    }

    /// Its sign in a cell.
    pub(crate) fn sign(self) -> u8
        ensures { result ≡ sign self }
    {
        match self {
            Score::Won => b'1',
            Score::Drawn => b'=',
            Score::Lost => b'0',
            Score::Open => b'*',
        }
    }
}
