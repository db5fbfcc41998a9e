//! The words that the program is run with.
ghost use Rattle.std.specs.Prelude.{◌≤◌, IfSome};

use crate::folder::Existing;
use book_pages::{DEEPEST, Reach};
use cell_core::{Colour, PackedBoard, pack};
use chess_laws::Position;
use chess_text::read_board;

/// How many half-moves a book goes on, and how many games reach a position at least, if the words do not say.
const DEPTH: u8 = 16;

const LEAST: u32 = 10;

/// What the words ask for: the pages of a base in a folder.
#[derive(Clone, Copy)]
pub struct Wanted<'a> {
    pub base: &'a str,
    pub folder: &'a str,
    pub reach: Reach,
    /// The items of a search of heads, if not all games count.
    pub only: Option<&'a str>,
    /// The side that stands below on the boards.
    pub below: Colour,
    /// The file of the names of openings.
    pub names: Option<&'a str>,
    pub existing: Existing,
}

// What some words have said so far.
#[derive(Clone, Copy)]
struct Said<'a> {
    base: Option<&'a str>,
    folder: Option<&'a str>,
    depth: Option<u8>,
    least: Option<u32>,
    start: Option<PackedBoard>,
    only: Option<&'a str>,
    below: Option<Colour>,
    names: Option<&'a str>,
    existing: Option<Existing>,
}

/// What the words ask for. They are the name of a base and then that of a folder, and among them these, each at most
/// once:
///
/// - `--depth` and a number up to 40;
/// - `--least` and a number from 1 on;
/// - `--only` and the items of a search of heads, which are not read here;
/// - `--from` with a board and a side;
/// - `--side` and `white` or `black`;
/// - `--names` and the name of a file;
/// - `--replace`.
pub fn words_read(words: &[String]) -> Option<Wanted<'_>> {
    let Some(said) = said_by(words) else {
        return None;
    };
    Some(Wanted {
        base: said.base?,
        folder: said.folder?,
        reach: Reach {
            start: said.start.unwrap_or(first_board()),
            depth: said.depth.unwrap_or(DEPTH),
            least: said.least.unwrap_or(LEAST),
        },
        only: said.only,
        below: said.below.unwrap_or(Colour::White),
        names: said.names,
        existing: said.existing.unwrap_or(Existing::Refuse),
    })
}

// What these words say.
fn said_by(words: &[String]) -> Option<Said<'_>> {
    let mut said = Said {
        base: None,
        folder: None,
        depth: None,
        least: None,
        start: None,
        only: None,
        below: None,
        names: None,
        existing: None,
    };
    let mut rest = words;
    for _word in 0..words.len() {
        match rest.split_first() {
            Some((word, behind)) => rest = said.take(word.as_str(), behind)?,
            None => return Some(said),
        }
    }
    Some(said)
}

impl<'a> Said<'a> {
    // Takes a word and what it needs of those behind it, and gives the others.
    fn take(&mut self, word: &'a str, behind: &'a [String]) -> Option<&'a [String]> {
        if word == "--depth" {
            return self.take_depth(behind);
        }
        if word == "--least" {
            return self.take_least(behind);
        }
        if word == "--only" {
            return self.take_only(behind);
        }
        if word == "--from" {
            return self.take_start(behind);
        }
        if word == "--side" {
            return self.take_side(behind);
        }
        if word == "--names" {
            return self.take_names(behind);
        }
        if word == "--replace" {
            put(&mut self.existing, Existing::Replace)?;
            return Some(behind);
        }
        self.take_name(word)?;
        Some(behind)
    }

    // Takes how deep.
    fn take_depth(&mut self, words: &'a [String]) -> Option<&'a [String]> {
        let (word, behind) = words.split_first()?;
        let depth = number(word.as_str(), u32::from(DEEPEST))?;
        put(&mut self.depth, depth as u8)?;
        Some(behind)
    }

    // Takes how many games.
    fn take_least(&mut self, words: &'a [String]) -> Option<&'a [String]> {
        let (word, behind) = words.split_first()?;
        let least = number(word.as_str(), u32::MAX)?;
        if least == 0 {
            return None;
        }
        put(&mut self.least, least)?;
        Some(behind)
    }

    // Takes which games.
    fn take_only(&mut self, words: &'a [String]) -> Option<&'a [String]> {
        let (word, behind) = words.split_first()?;
        put(&mut self.only, word.as_str())?;
        Some(behind)
    }

    // Takes the start.
    fn take_start(&mut self, words: &'a [String]) -> Option<&'a [String]> {
        let (board, rest) = words.split_first()?;
        let (side, behind) = rest.split_first()?;
        let start = board_of(board.as_str(), side.as_str())?;
        put(&mut self.start, start)?;
        Some(behind)
    }

    // Takes the side that stands below.
    fn take_side(&mut self, words: &'a [String]) -> Option<&'a [String]> {
        let (word, behind) = words.split_first()?;
        let side = match word.as_str() {
            "white" => Colour::White,
            "black" => Colour::Black,
            _ => return None,
        };
        put(&mut self.below, side)?;
        Some(behind)
    }

    // Takes the file of the names of openings.
    fn take_names(&mut self, words: &'a [String]) -> Option<&'a [String]> {
        let (word, behind) = words.split_first()?;
        put(&mut self.names, word.as_str())?;
        Some(behind)
    }

    // Takes the name of the base, or of the folder.
    fn take_name(&mut self, word: &'a str) -> Option<()> {
        if word.is_empty() || word.starts_with("-") {
            return None;
        }
        if self.base.is_none() {
            self.base = Some(word);
            return Some(());
        }
        put(&mut self.folder, word)
    }
}

// Puts what is said once.
fn put<T: Copy>(place: &mut Option<T>, value: T) -> Option<()> {
    if place.is_some() {
        return None;
    }
    *place = Some(value);
    Some(())
}

// A number of decimal digits without a leading zero, up to a greatest one.
fn number(word: &str, most: u32) -> Option<u32>
    ensures within { IfSome result (λ number. number ≤ most) }
{
    let digits = word.as_bytes();
    if digits.is_empty() || (digits.len() > 1 && digits[0] == b'0') {
        return None;
    }
    let mut number = 0u32;
    for digit in digits {
        if !digit.is_ascii_digit() {
            return None;
        }
        number = number
            .checked_mul(10)?
            .checked_add(u32::from(*digit - b'0'))?;
    }
    (number <= most).then_some(number)
}

// A board and a side to move.
fn board_of(board: &str, side: &str) -> Option<PackedBoard> {
    let side = match side {
        "w" => Colour::White,
        "b" => Colour::Black,
        _ => return None,
    };
    match read_board(board.as_bytes()) {
        Ok(board) => Some(pack(&board, side)),
        Err(_) => None,
    }
}

// The board of the initial position.
fn first_board() -> PackedBoard {
    let start = Position::start();
    pack(start.board(), start.side())
}
