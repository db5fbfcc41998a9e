//! Lines that take no memory.
ghost use Rattle.std.specs.Fmt.{decimal};
ghost use Rattle.std.specs.Prelude.{◌≡◌, ◌≤◌, ◌+◌, ◌++◌, length};
ghost use Rattle.shell_state.specs.Lines.{count_line, filter_line, game_line, hit_line, name_line, no_game_line};

use arrayvec::ArrayVec;
use cell_core::Text;
use game_filter::Filter;
use itoa::Buffer;

/// A line of at most 64 bytes.
pub type Line = ArrayVec<u8, 64>;

/// `filter N of M`.
pub fn filter_line(filter: &Filter) -> Line
    ensures line { result.items ≡ filter_line filter.now }
{
    count_line(u64::from(filter.count()), u64::from(filter.len()))
}

/// `filter N of M` of these numbers.
pub fn count_line(count: u64, games: u64) -> Line
    ensures line { result.items ≡ count_line count games }
{
    let mut line = Line::new();
    push(&mut line, b"filter ");
    push_number(&mut line, count);
    push(&mut line, b" of ");
    push_number(&mut line, games);
    push(&mut line, b"\n");
    line
}

/// `G P`: a game that is in, and its ply.
pub fn hit_line(game: u32, ply: u32) -> Line
    ensures line { result.items ≡ hit_line game ply }
{
    let mut line = Line::new();
    push_number(&mut line, u64::from(game));
    push(&mut line, b" ");
    push_number(&mut line, u64::from(ply));
    push(&mut line, b"\n");
    line
}

/// A line of at most 43 bytes of words and the number of a game.
pub fn number_line(words: &[u8], number: u64) -> Line
    requires short { length words.now ≤ 43 }
    ensures line { result.items ≡ game_line words.now number }
{
    let mut line = Line::new();
    push(&mut line, words);
    push_number(&mut line, number);
    push(&mut line, b"\n");
    line
}

/// The error line of a game that is not there.
pub fn unknown_game_line(number: u64) -> Line
    ensures line { result.items ≡ no_game_line number }
{
    number_line(b"error: no game ", number)
}

/// A line of words and a name, which are at most 63 bytes.
pub fn name_line(words: &[u8], name: &Text) -> Line
    requires short { length words.now + length name.now ≤ 63 }
    ensures line { result.items ≡ name_line words.now name.now }
{
    let mut line = Line::new();
    push(&mut line, words);
    push(&mut line, name.as_bytes());
    push(&mut line, b"\n");
    line
}

// Puts bytes behind a line that has room for them.
fn push(line: &mut Line, bytes: &[u8])
    requires room { length line.old.items + length bytes.now ≤ 64 }
    ensures pushed { line.new.items ≡ line.old.items ++ bytes.now }
    ensures len { length line.new.items ≡ length line.old.items + length bytes.now }
{
    let _ = line.try_extend_from_slice(bytes);
}

// Puts a number behind a line that has room for twenty digits.
fn push_number(line: &mut Line, number: u64)
    requires room { length line.old.items + 20 ≤ 64 }
    ensures pushed { line.new.items ≡ line.old.items ++ decimal number }
    ensures len { length line.new.items ≤ length line.old.items + 20 }
{
    let mut digits = Buffer::new();
    push(line, digits.format(number).as_bytes());
}
