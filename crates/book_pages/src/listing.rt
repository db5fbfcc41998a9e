//! Which games of a page are listed.
use arrayvec::ArrayVec;
use game_tree::Date;

/// How many games a page lists at most.
const MOST: usize = 10;

/// What decides which games are listed: the sum of the ratings, where one that is not known counts nothing, and then the date.
#[derive(Clone, Copy, Debug, Default, PartialEq, Eq, PartialOrd, Ord)]
pub(crate) struct Worth {
    ratings: u32,
    date: Date,
}

impl Worth {
    /// What a game of players with these ratings is worth, of this date.
    pub(crate) fn of(white: u16, black: u16, date: Date) -> Worth {
        Worth {
            ratings: u32::from(white) + u32::from(black),
            date,
        }
    }
}

/// A game that is listed: its number, and after how many half-moves it first stands on the board of the page.
#[derive(Clone, Copy, Debug, Default)]
pub struct Listed {
    pub number: u32,
    pub ply: u32,
    pub(crate) worth: Worth,
}

/// The games that are listed so far: the best rated, and among those of equal ratings the newest, the best first. Of games that are equal in
/// both, those that came first.
#[derive(Drop)]
pub(crate) struct Listing {
    games: ArrayVec<Listed, 10>,
}

impl Listing {
    /// No game is listed.
    pub(crate) fn new() -> Listing {
        Listing {
            games: ArrayVec::new(),
        }
    }

    /// The games that are listed.
    pub(crate) fn games(&self) -> &[Listed] {
        self.games.as_slice()
    }

    /// Lists a game, unless it was listed before or ten others are worth as much.
    pub(crate) fn list(&mut self, game: &Listed) {
        if self.is_last_worth(&game.worth) {
            return;
        }
        if self.games().iter().any(|one| one.number == game.number) {
            return;
        }
        let before = self
            .games()
            .iter()
            .take_while(|one| one.worth >= game.worth)
            .count();
        self.games.truncate(MOST - 1);
        self.games.insert(before.min(self.games.len()), *game);
    }

    // Whether ten games are listed that are worth as much.
    fn is_last_worth(&self, worth: &Worth) -> bool {
        match self.games().last() {
            Some(last) => self.games.is_full() && last.worth >= *worth,
            None => false,
        }
    }
}
