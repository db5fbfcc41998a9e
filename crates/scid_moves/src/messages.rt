//! What the program says besides its answers.

/// The answer to `--help`.
pub const HELP: &str = "\
usage: scid_moves

Each line of standard input is a position in Forsyth-Edwards Notation. Each is
answered, before the next one is read, by a line for each legal move, in the
order of their squares, and an empty line:

  e2e4 e4 FEN   the move by its squares (and the letter of a promotion), its
                text in Standard Algebraic Notation, and the position behind it

Before the empty line stands `check`, `mate` or `stalemate`, where it is so. A
line that is no position is answered by `error: WHAT` and an empty line:

  error: field N         field N, from 1, is malformed, or a seventh follows
  error: kings           a side has no king, or several
  error: pawns           a pawn stands on the first or the last rank
  error: too many men    a side has more than 16 men
  error: in check        the side that is not to move is in check
  error: line too long   the line has more than 1,024 bytes
  error: too many moves  there are more than 256 legal moves

Exit status: 0 done, 1 usage, 3 read fault, 4 write fault, 8 out of memory.
What it was is told on standard error.
";

/// The answer to `--version`.
pub const VERSION: &str = "scid_moves 0.1.0\n";
