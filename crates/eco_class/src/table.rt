//! Tables of opening codes.
ghost use Rattle.std.specs.Prelude.{◌≡◌};
ghost use Rattle.chess_laws.specs.Counts.{counts_of};
ghost use Rattle.eco_class.specs.Kept.{men_in};
ghost use Rattle.eco_class.specs.declared.fault.EcoError.TheVariants.{Bad};

use crate::cutting::{Piece, is_comment, next_line, next_word, without_return};
use crate::fault::{EcoError, EcoFault, EcoWhat};
use crate::moves::played;
use cell_core::{PackedBoard, pack, unpack};
use chess_laws::Position;
use game_codec::{RecordFault, Walk};
use game_tree::read_eco;
use indexmap::IndexMap;
use std::alloc::Global;
use std::marker::Model;

/// How many lines a table has at most.
const MOST_LINES: usize = 65_536;

// What a table keeps of the line that ends on a board with a side to move: its number and its code.
#[derive(Clone, Copy, Debug)]
struct Named {
    line: u32,
    code: u16,
}

/// A table of opening codes: lines of moves, each with its code. A line is known by the board and the side to move at its end, and no
/// two lines end on the same board with the same side to move.
///
/// Contracts see the list of the lines: their numbers, codes, boards and sides to move.
#[derive(Drop)]
pub struct EcoTable {
    lines: IndexMap<PackedBoard, Named>,
    // No line ends with fewer men on the board, kings not counted.
    least: u16,
}

impl Model for EcoTable {
    ghost use Rattle.std.specs.Prelude.{List};
    ghost use Rattle.eco_class.specs.Table.{Opening};
    ghost use Rattle.eco_class.specs.Kept.{IsKept, openings_of};

    ghost Value = { List Opening };

    ghost view = { λ t. openings_of t.lines.entries };

    ghost invariant = { λ t. IsKept t.lines.entries t.least };
}

impl EcoTable {
    ghost use Rattle.std.specs.Prelude.{◌≡◌, ◌≤◌, ◌<◌, ◌^◌, [], List, Ok, Err, All, length, option_map, IfOk, IfErr, IfSome, OnOk, nat_le};
    ghost use Rattle.std.specs.Bool.{OnFalse};
    ghost use Rattle.cell_core.specs.Packed.{men_of};
    ghost use Rattle.game_codec.specs.Record.{IsRecord, IsSomeRecord};
    ghost use Rattle.game_tree.specs.Eco.{eco_read};
    ghost use Rattle.game_tree.specs.Game.{GameTree};
    ghost use Rattle.game_tree.specs.declared.head.Tag.{Tag};
    ghost use Rattle.eco_class.specs.declared.fault.EcoFault.{EcoFault as Fault};
    ghost use Rattle.eco_class.specs.Table.{code_at, code_of, eco_of, line_at};
    ghost use Rattle.eco_class.specs.Reading.{joined, table_of, with_code, with_line};
    ghost use Rattle.eco_class.specs.Cutting.{words_of};
    ghost use Rattle.eco_class.specs.Kept.{GivesBack, opening};

    /// Reads a table from its text, which has fewer than 2^32 bytes. Each line that has a word and does not begin with `#` is an opening
    /// code and then any number of moves in Standard Algebraic Notation, without move numbers, from the initial position on. Spaces and
    /// tabs stand between words, and a carriage return at the end of a line is dropped.
    ///
    /// The fault is the first in the order of lines and then of words.
    pub fn read(alloc: Global, text: &[u8]) -> Result<EcoTable, EcoError>
        requires few { length text.now < 2 ^ 32 }
        ensures table { IfOk result (λ table. table_of text.now ≡ Ok table) }
        ensures fault { IfErr result (λ error. (fault : Fault) → error ≡ Bad fault → table_of text.now ≡ Err fault) }
    {
        let mut table = EcoTable::empty(alloc);
        let mut rest = text;
        let mut number = 0;
        while let Some(line) = next_line(rest) {
            number += 1;
            match table.read_line(number, line.text) {
                Ok(()) => rest = line.behind,
                Err(error) => return Err(error),
            }
        }
        Ok(table)
    }

    /// How many lines there are: at most 65,536.
    pub fn len(&self) -> u32
        ensures len { result ≡ length self.now }
        ensures few { result ≤ 65536 }
    {
        self.lines.len() as u32
    }

    /// The code of the line that ends on this board with this side to move, or `None` if none does.
    pub fn code_at(&self, p: &PackedBoard) -> Option<u16>
        ensures code { result ≡ code_at self.now (men_of p.now.cells) p.now.side }
        ensures bounds { IfSome result (λ code. (1 ≤ code) × (code ≤ 65500)) }
    {
        // The rules of a packed board.
        let _board = unpack(p);
        match self.named_at(p) {
            Some(named) => Some(named.code),
            None => None,
        }
    }

    /// Gives the code of the game of a record, or `None` if it has none. The code is that of the line that ends on the
    /// board, with the same side to move, of the last position of the main line on which one ends. The start is one of
    /// these positions. A record has fewer than 2^32 bytes.
    ///
    /// No memory is taken. The walk ends when fewer men are left than at the end of each line, since men never come
    /// back. Bytes that give a fault are no record.
    pub fn classify(&self, bytes: &[u8]) -> Result<Option<u16>, RecordFault>
        requires few { length bytes.now < 2 ^ 32 }
        ensures code { IfOk result (λ code. (tags : List Tag) (game : GameTree) → IsRecord bytes.now tags game → code ≡ eco_of self.now game) }
        ensures bounds { IfOk result (λ found. IfSome found (λ code. (1 ≤ code) × (code ≤ 65500))) }
        ensures fault { IfErr result (λ _. IsSomeRecord bytes.now → ⊥) }
    {
        let mut walk = Walk::new(bytes)?;
        let mut code = None;
        loop {
            // A move takes a byte at least, so the walk ends.
            walk.ply();
            let place = walk.position();
            code = self.code_of(place).or(code);
            if !self.can_follow(place) {
                return Ok(code);
            }
            match walk.step() {
                Ok(Some(_)) => {}
                Ok(None) => return Ok(code),
                Err(fault) => return Err(fault),
            }
        }
    }

    // The table with no line.
    fn empty(alloc: Global) -> EcoTable
        ensures { result ≡ [] }
    {
        EcoTable {
            lines: IndexMap::new(alloc),
            least: u16::MAX,
        }
    }

    // Reads one more line, which has this number.
    #[tactic(auto, unfolding(crate::specs::Reading::with_line))]
    fn read_line(&mut self, number: u32, line: &[u8]) -> Result<(), EcoError>
        ensures table { OnOk result (with_line self.old number line.now ≡ Ok self.new) }
        ensures fault { IfErr result (λ error. (fault : Fault) → error ≡ Bad fault → with_line self.old number line.now ≡ Err fault) }
    {
        if is_comment(line) {
            return Ok(());
        }
        match next_word(without_return(line)) {
            Some(first) => self.read_words(number, &first),
            None => Ok(()),
        }
    }

    // Reads the words of one more line: the code, and the moves behind it.
    fn read_words(&mut self, number: u32, first: &Piece<'_>) -> Result<(), EcoError>
        ensures table { OnOk result (with_code self.old number (words_of first.now.behind.now) (eco_read first.now.text.now) ≡ Ok self.new) }
        ensures fault { IfErr result (λ error. (fault : Fault) → error ≡ Bad fault → with_code self.old number (words_of first.now.behind.now) (eco_read first.now.text.now) ≡ Err fault) }
    {
        let Some(code) = read_eco(first.text) else {
            return Err(bad(number, EcoWhat::Code));
        };
        if self.lines.len() >= MOST_LINES {
            return Err(bad(number, EcoWhat::Lines));
        }
        match played(first.behind) {
            Ok(place) => self.add(number, code, &place),
            Err(fault) => Err(bad(number, EcoWhat::San(fault))),
        }
    }

    // Adds a line that ends at this position, if no earlier one ends on its board with the same side to move.
    fn add(&mut self, number: u32, code: u16, place: &Position) -> Result<(), EcoError>
        requires code { (1 ≤ code) × (code ≤ 65500) }
        requires few { length self.old < 65536 }
        ensures table { OnOk result (joined self.old (opening number code place.now) (line_at self.old place.now.board place.now.side) ≡ Ok self.new) }
        ensures fault { IfErr result (λ error. (fault : Fault) → error ≡ Bad fault → joined self.old (opening number code place.now) (line_at self.old place.now.board place.now.side) ≡ Err fault) }
    {
        let key = pack(place.board(), place.side());
        if let Some(earlier) = self.named_at(&key) {
            return Err(bad(number, EcoWhat::Twice(earlier.line)));
        }
        self.lines.insert(key, Named { line: number, code })?;
        self.least = self.least.min(men_in(place));
        Ok(())
    }

    // The code of the line that ends on the board of a position with its side to move.
    fn code_of(&self, p: &Position) -> Option<u16>
        ensures code { result ≡ code_of self.now p.now }
        ensures bounds { IfSome result (λ code. (1 ≤ code) × (code ≤ 65500)) }
    {
        match self.named_at(&pack(p.board(), p.side())) {
            Some(named) => Some(named.code),
            None => None,
        }
    }

    // What is kept of the line that ends on this board with this side to move.
    fn named_at(&self, key: &PackedBoard) -> Option<Named>
        requires packed { GivesBack key.now }
        ensures line { option_map (λ named. named.line) result ≡ line_at self.now (men_of key.now.cells) key.now.side }
        ensures code { option_map (λ named. named.code) result ≡ code_at self.now (men_of key.now.cells) key.now.side }
        ensures bounds { IfSome result (λ named. (1 ≤ named.code) × (named.code ≤ 65500)) }
    {
        self.lines.get(key).copied()
    }

    // Whether as many men are left as at the end of some line. If they are not, none of the lines can follow.
    fn can_follow(&self, p: &Position) -> bool
        ensures over { OnFalse result (All (λ line. men_in p.now.board < men_in line.board) self.now) }
    {
        self.least <= men_in(p)
    }
}

// How many men are on the board of a position, kings not counted.
fn men_in(p: &Position) -> u16
    ensures men { result ≡ men_in p.now.board }
{
    p.counts().iter().map(|count| u16::from(*count)).sum()
}

// The fault of a line.
fn bad(line: u32, what: EcoWhat) -> EcoError
    ensures { result ≡ Bad (record { line = line; what = what }) }
{
    EcoError::Bad(EcoFault { line, what })
}
