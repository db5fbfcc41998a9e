//! Where the files of a book are put.
ghost use Rattle.std.specs.Prelude.{◌≡◌, List, None, Option, OnOk};
ghost use Rattle.scid_page.specs.Shelf.{File, with_file};

use crate::end::End;
use crate::folder::Folder;
use watched_devices::ProgressLine;

/// Where the files of a book are put.
pub trait Shelf {
    // The files that were put there, where it tells them.
    ghost told: { Self → Option (List File) };

    /// Puts a file there, of whose name there is none yet.
    fn put(&mut self, name: &[u8], text: &[u8]) -> Result<(), End>
        ensures told { OnOk result (told self.new ≡ with_file (told self.old) (record { name = name.now; text = text.now })) };

    /// One page more of so many was put there.
    fn has_one_of(&mut self, pages: usize)
        ensures told { told self.new ≡ told self.old };
}

/// The folder of the pages, and the line that says how far the run is.
#[derive(Drop)]
pub struct Filling<'a> {
    folder: &'a Folder<'a>,
    line: &'a ProgressLine<'a>,
    // How many pages of positions it has.
    written: u64,
}

impl<'a> Filling<'a> {
    /// A folder in which nothing of the book stands yet.
    pub fn new(folder: &'a Folder<'a>, line: &'a ProgressLine<'a>) -> Filling<'a> {
        Filling {
            folder,
            line,
            written: 0,
        }
    }
}

impl<'a> Shelf for Filling<'a> {
    ghost told = { λ _. None };

    fn put(&mut self, name: &[u8], text: &[u8]) -> Result<(), End>
        ensures told { OnOk result (None ≡ with_file None (record { name = name.now; text = text.now })) }
    {
        self.folder.write_at(name, text)
    }

    fn has_one_of(&mut self, pages: usize) {
        self.written = self.written.saturating_add(1);
        self.line.wrote(self.written, pages as u64);
    }
}
