//! What the program says besides the text of a session.

ghost use Rattle.std.specs.Prelude.{◌≡◌};
ghost use Rattle.scid_shell.specs.Messages.{line_of};

use shell_session::Status;

/// The answer to `--help`.
pub const HELP: &str = "\
usage: scid_shell [--create] [--strict] [--desk] BASE < SCRIPT

Runs a script over the Scid base BASE.si4, BASE.sn4, BASE.sg4, and writes the
line `base G games M mended` and then the text of each command.

  --create    makes the files that are absent; three empty files are a base
  --strict    refuses a base whose index differs from its records, where it
              is else mended in memory
  --desk      serves four clients from one script: each line begins with @0,
              @1, @2 or @3 and a space, as each line of the answers does; each
              client has a filter, kept filters and two slots of his own, and
              all share the base

A script has a command a line. A line that is empty or begins with # does
nothing. Words stand between spaces and tabs; a quoted part keeps its spaces.

  find BOARD SIDE    the games that reach a board with a side to move, each
                     with its first such ply; they are the filter from then on
  search OP header ITEM ..
                     the games whose head has each item, as `white=Reti` or
                     `year=1900..1910`, by the keys below
  search OP position MODE BOARD SIDE [vars]
                     the games that reach a position which has in common with
                     a board what MODE says: `exact`, `pawns`, `files` or
                     `material`; with `vars` in their variations too
  search OP material ITEM ..
                     the games that have such counts of men, as `wq=1..1`, by
                     the keys below
  reset              all games into the filter
  clear              none
  negate             those that are out, and no others
  restrict A B       out with the games below A and above B
  keep NAME          keeps a copy of the filter under a name, at most eight
  use NAME           the kept filter in the place of the filter
  and NAME           the games that are in both
  or NAME            the games that are in one of them
  drop NAME          forgets the kept filter
  hits               the games of the filter, each with its ply
  list               the same with result, date, opening and players
  show G             the game G in PGN
  export             the games of the filter in PGN
  tree BOARD SIDE    the moves that the games of the filter made from a board
  watch K BOARD SIDE slot K, from 0 to 7, shows this tree from then on
  view K             the tree that slot K shows
  unwatch K          slot K shows nothing any more
  cross EVENT        the crosstable of the event of that name
  import <<WORD      adds the games of the lines of PGN behind this one, up to
                     a line WORD
  replace G <<WORD   puts the one game of those lines in the place of game G
  tag G NAME VALUE   sets a tag of the game G
  delete G           marks the game G as deleted
  undelete G         takes that mark away
  mark G LETTER on   sets a mark of the game G; `off` takes it away
  twins D            marks each game as deleted that says the same as an
                     earlier one: names, date, result, start and first D plies
  eco <<WORD         gives each game its opening code by the table of the lines
                     behind this one, as `samples/openings.eco` is one
  index D            keeps in memory which games meet which board in their
                     first D plies, 40 at most, so that `find`, exact searches
                     and `tree` read fewer records; `index off` drops it
  demo SEED GAMES    adds so many games of draws
  save               makes the files mean the base
  compact            takes out the deleted games, and makes the files mean what
                     is left
  info               what is in the base
  quit               ends, as the end of the input does

BOARD is the first field of a FEN, and SIDE is w or b. Games and plies count
from 0. OP is `ignore` for a search of all games, `and` for one of those of the
filter, `or` for one of the others, which come to it. A line that is no command
gives a line that begins with `error: `, and the script goes on.

Keys of header: white, black, player, event, site and round with what the name
begins with; result=1-0 (0-1, 1/2-1/2, *); year, welo, belo and plies with a
span as 2000..2010; eco=B10..B19; deleted=yes (no); mark=LETTER.
Keys of material: wq wr wb wn wp bq br bb bn bp with a span of counts, as 0..2;
ply with a span of plies; streak=PLIES, so many in a row; swap=yes, also with
the colours exchanged.

A base is changed only where its file system has locks; else copy it to another
disk. What a run left that was broken off, `scid_mend --back BASE` puts right.

Exit status: 0 done, 1 usage, 2 bad base, 3 read fault, 4 write fault, 5 files
fault, 6 changed game, 7 input too long, 8 out of memory. What it was is told
on standard error.
";

/// What to type if the base was named as its file is.
pub const NO_ENDING: &str = "a base is named without the ending of its files: ";

/// What to type if there is no such base.
pub const CREATE: &str = "there is no base of this name; --create makes one";

/// The answer to `--version`.
pub const VERSION: &str = "scid_shell 0.1.0\n";

/// The line on standard error for a session that is not done; of a bad base and of a changed game its beginning, which the fault
/// or the game follows.
pub fn message(status: &Status) -> &'static str
    ensures line { result.now ≡ line_of status.now }
{
    match status {
        Status::Done => "",
        Status::Usage =>
            "usage: scid_shell [--create] [--strict] [--desk] BASE (--help tells more)",
        Status::BadBase(_) => "bad base: ",
        Status::ReadFault => "read fault",
        Status::WriteFault => "write fault",
        Status::FilesFault => "files fault",
        Status::Changed { .. } => "changed game ",
        Status::InputTooLong => "input too long",
        Status::Memory => "out of memory",
    }
}
