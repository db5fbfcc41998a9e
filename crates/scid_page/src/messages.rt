//! What the program says besides the pages.
use crate::end::End;

/// The answer to `--help`.
pub const HELP: &str = "\
usage: scid_page [--depth D] [--least N] [--only ITEMS] [--from BOARD SIDE]
                 [--side SIDE] [--names FILE] [--replace] BASE FOLDER

Makes of the Scid base BASE.si4, BASE.sn4, BASE.sg4 a folder of linked pages,
to be looked at in a browser from FOLDER/index.html on: a page for each
position that at least N games reach within D half-moves. On a page are the
board, the moves that were made there with their games and results, each with
a link to its page, the way that leads there, and the ten best rated games,
each with a page on which it is played through.

  --depth D          how many half-moves, up to 40; 16 where it is not given
  --least N          how many games; 10 where it is not given
  --only ITEMS       only the games that scid_shell finds by the command
                     `search and header ITEMS`, as 'player=Reti deleted=no';
                     ITEMS is one word, so put it in quotes
  --from BOARD SIDE  from this position on, and not from the initial one;
                     BOARD is the first field of a FEN, and SIDE is w or b
  --side SIDE        the side below on all boards, white or black; white where
                     it is not given
  --names FILE       the names of openings: a line for each, as
                     `C60 e4 e5 Nf3 Nc6 Bb5`, and the name behind a tab
  --replace          puts the new folder in the place of FOLDER all at once,
                     if scid_page made all that is in it

FOLDER is made; one that is there has to be empty, but for --replace. Until all
is written a file INCOMPLETE stands in the new folder. There are at most 20,000
positions: where there would be more, more games are asked for, and the last
line says how many.

Exit status: 0 done, 1 usage, 2 bad base, 3 read fault, 4 write fault,
5 files fault, 6 changed game, 8 out of memory. What it was is told on standard
error.
";

/// The answer to `--version`.
pub const VERSION: &str = "scid_page 0.1.0\n";

/// The line on standard error for a run that is not done; of a bad base and of a changed game its beginning.
pub fn message(end: &End) -> &'static str {
    match end {
        End::Usage => {
            "usage: scid_page [--depth D] [--least N] [--only ITEMS] [--from BOARD SIDE] [--side SIDE] [--names FILE] [--replace] BASE FOLDER"
        }
        End::BadBase(_) => "bad base: ",
        End::ReadFault => "read fault",
        End::BadName(_) => "no opening in the file of names: line ",
        End::WriteFault => "write fault",
        End::FilesFault => "files fault",
        End::Changed(_) => "changed game ",
        End::Memory => "out of memory",
    }
}
