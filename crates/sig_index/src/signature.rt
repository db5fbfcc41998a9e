//! The signature of a game, by which searches pass it over unread.
ghost use Rattle.std.specs.Prelude.{◌≡◌, ◌≤◌, length};
ghost use Rattle.chess_laws.specs.Counts.{counts_of};
ghost use Rattle.cell_core.specs.Board.{Men};
ghost use Rattle.chess_laws.specs.Position.{Sound, start_setup};
ghost use Rattle.index_entry.specs.Entry.{AreCounts};
ghost use Rattle.game_tree.specs.Legal.{IsLegalGame};
ghost use Rattle.game_tree.specs.Replay.{plies_of, position_at};
ghost use Rattle.sig_index.specs.Signature.{IsSig, IsSigBounded, material_of, left_of, home_list};

use crate::leaving::Still;
use arrayvec::ArrayVec;
use chess_laws::{Counts, Position, Setup};
use game_tree::Game;
use index_entry::count_code;

/// The home values of the pawns that left their own squares, in their order: `count` of them, at most 16, and zeros behind them. The
/// home value of a pawn is 15 down to 8 for a2 to h2, and 7 down to 0 for a7 to h7.
#[derive(Clone, Copy, Debug, PartialEq, Eq)]
pub struct HomeList {
    pub count: u8,
    pub values: [u8; 16],
}

/// What a base keeps of a game, so that searches need not read each.
#[derive(Clone, Copy, Debug, PartialEq, Eq)]
pub struct Sig {
    /// The final counts of queens, rooks, bishops, knights and pawns, White's and then Black's; more than three count as three, but for
    /// pawns.
    pub material: [u8; 10],
    /// The pawns that left their own squares along the main line; none if the game has an own start.
    pub home: HomeList,
    /// The plies of the main line; more than 1,023 count as 1,023.
    pub plies: u16,
    /// Whether any line has a promotion.
    pub promo: bool,
    /// Whether any line has a promotion to another man than a queen.
    pub under: bool,
    /// Whether the game begins at another position than the initial one.
    pub own_start: bool,
    /// The code of the number of variations in all lines.
    pub vars: u8,
    /// The code of the number of comments in all lines.
    pub comments: u8,
    /// The code of the number of NAGs in all lines.
    pub nags: u8,
}

/// The signature of a legal game. It plays the main line once, and takes no memory.
pub fn sig_of(g: &Game) -> Sig
    requires { IsLegalGame g.now }
    ensures signature { IsSig g.now result }
    ensures bounded { IsSigBounded result }
{
    sig_ending(g, end_of(g).setup())
}

// The last position of the main line.
fn end_of(g: &Game) -> Position
    requires { IsLegalGame g.now }
    ensures last { result ≡ position_at g.now (plies_of g.now) }
{
    let line = g.line.as_slice();
    let mut position = g.start;
    for node in line {
        position.play(node.mv);
    }
    position
}

/// The signature of a legal game whose main line ends in this position. No move is played, and no memory is taken.
pub fn sig_ending(g: &Game, last: &Setup) -> Sig
    requires legal { IsLegalGame g.now }
    requires last { last.now ≡ position_at g.now (plies_of g.now) }
    ensures signature { IsSig g.now result }
    ensures bounded { IsSigBounded result }
{
    // The rules of the start hold at the end, where they bound the pawns.
    let _start = g.start.setup();
    let own_start = !g.start.is_start();
    let counts = g.counts();
    let promotions = g.promotions();
    Sig {
        material: material_at(last),
        home: if own_start {
            home_list(&[])
        } else {
            left_along(g)
        },
        plies: g.line.as_slice().len().min(1023) as u16,
        promo: promotions.any,
        under: promotions.under,
        own_start,
        vars: count_code(counts.variations),
        comments: count_code(counts.comments),
        nags: count_code(counts.nags),
    }
}

// The pawns that leave their own squares along the main line of a game that begins at the initial position.
fn left_along(g: &Game) -> HomeList
    requires legal { IsLegalGame g.now }
    requires initial { g.now.start ≡ start_setup }
    ensures left { result ≡ home_list (left_of g.now) }
{
    let line = g.line.as_slice();
    let mut still = Still::all();
    let mut left = ArrayVec::new();
    for node in line {
        still.leave_by(&node.mv, &mut left);
    }
    home_list(left.as_slice())
}

/// These values with zeros behind them.
pub(crate) fn home_list(values: &[u8]) -> HomeList
    requires { length values.now ≤ 16 }
    ensures { result ≡ home_list values.now }
{
    let mut list = [0; 16];
    list[..values.len()].copy_from_slice(values);
    HomeList {
        count: values.len() as u8,
        values: list,
    }
}

/// The counts with more than three as three, but for pawns.
pub(crate) fn material_of(last: &Position) -> [u8; 10]
    ensures material { result ≡ material_of last.now.board }
    ensures bounded { AreCounts result }
{
    // The rules of a position bound the pawns.
    let _setup = last.setup();
    capped(&last.counts())
}

// The same of a setup, whose men are counted.
fn material_at(last: &Setup) -> [u8; 10]
    requires sound { Sound last.now }
    ensures material { result ≡ material_of last.now.board }
    ensures bounded { AreCounts result }
{
    capped(&Counts::of(&last.board).numbers())
}

// These counts, with more than three as three, but for pawns.
fn capped(counts: &[u8; 10]) -> [u8; 10]
    ensures material { (men : Men) → counts.now ≡ counts_of men → result ≡ material_of men }
{
    [
        counts[0].min(3),
        counts[1].min(3),
        counts[2].min(3),
        counts[3].min(3),
        counts[4],
        counts[5].min(3),
        counts[6].min(3),
        counts[7].min(3),
        counts[8].min(3),
        counts[9],
    ]
}
