//! What the program says besides its report.
ghost use Rattle.std.specs.Prelude.{◌≡◌};
ghost use Rattle.scid_mend.specs.Messages.{line_of};

use crate::status::Status;

/// The answer to `--help`.
pub const HELP: &str = "\
usage: scid_mend [--fronts] [--loose] OLD NEW
       scid_mend --back BASE

Makes the Scid base NEW.si4, NEW.sn4, NEW.sg4 of every game of the base OLD
that is whole, in order. OLD is read, and nothing of it is changed. NEW is
refused where one of its files is there.

A game is whole where its record has no fault. All entries of the index are
looked at, whatever its header counts. A game comes over with ? for a name that
is missing, and without a result, an ECO code, a date or a rating that stands
for nothing. What becomes of the others stands on standard output, a line a
game, with its first fault:

  left out G: FAULT        the game G does not come over
  left out G to H: FAULT   nor do these, of which the index has no entries
  changed G: FAULT         the game G comes over without this
  counted C, found F       the header counts C games, and there are F entries
  index file: FAULT; its entries are tried

and at the end `mended G of N games, C changed`.

With --fronts a game comes over too whose record has a fault, as changed: each
line with a fault, the main line or a variation, ends before its first fault,
with a comment that says so.

With --loose the records come over too that no entry names, behind the others:
each one that is whole and stands between the records of the entries. Such a
game has its tags, moves and comments, but no head. It is told of as

  took G: games file: the record at byte N, which has no entry

and counts as changed. An index without a header, or that is not there, is as
one of no games then.

With --back it puts right what a run left beside BASE that was broken off: it
puts the files back that a compact had set aside, or finishes a compact whose
new files all have their places, takes away the others, and says which it did.

Exit status: 0 all games came over as they were, 2 no index, 4 write fault,
5 files fault, 8 out of memory, 9 usage, 10 a limit of the new base, 11 some
games were changed or left out. What it was is told on standard error.
";

/// The answer to `--version`.
pub const VERSION: &str = "scid_mend 0.1.0\n";

/// The line on standard error for a status; of a faulty index and of a limit its beginning, which the fault or the limit follows.
pub fn message(status: &Status) -> &'static str
    ensures line { result.now ≡ line_of status.now }
{
    match status {
        Status::All | Status::NotAll => "",
        Status::BadIndex(_) => "bad base: index file: ",
        Status::WriteFault => "write fault",
        Status::FilesFault => "files fault",
        Status::Memory => "out of memory",
        Status::Usage => "usage: scid_mend [--fronts] [--loose] OLD NEW",
        Status::Full(_) => "full ",
    }
}
