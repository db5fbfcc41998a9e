//! The block of a games file that was read ahead.
ghost use Rattle.std.specs.Prelude.{◌≡◌, length};

use std::alloc::{AllocError, Global};
use std::io;
use std::io::{ErrorKind, Read, Seek, SeekFrom};

/// The bytes that are read ahead at once. No record of a games file crosses a multiple of it.
pub const BLOCK: usize = 131_072;

/// A block of the games file that was read ahead: its first `filled` bytes are those of the file from `start` on.
#[derive(Drop)]
pub struct Ahead {
    block: Vec<u8>,
    start: u64,
    filled: usize,
}

impl Ahead {
    /// Room for one block, of which nothing was read yet.
    pub fn new(alloc: Global) -> Result<Ahead, AllocError> {
        Ok(Ahead {
            block: vec![in alloc; 0u8; BLOCK]?,
            start: 0,
            filled: 0,
        })
    }

    /// Fills `into` from this place of the games file on, if all of it was read ahead.
    pub fn gives(&self, offset: u64, into: &mut [u8]) -> bool
        ensures { length into.new ≡ length into.old }
    {
        let Some(skipped) = offset.checked_sub(self.start) else {
            return false;
        };
        let filled = self.filled.min(self.block.len());
        if skipped > filled as u64 || into.len() > filled - skipped as usize {
            return false;
        }
        let start = skipped as usize;
        into.copy_from_slice(&self.block[start..start + into.len()]);
        true
    }

    /// Whether this place of the games file lies in the block that was turned to last, or in the one behind it. So it is if records
    /// are read in their order.
    pub fn is_near(&self, offset: u64) -> bool {
        let block = offset / BLOCK as u64;
        let last = self.start / BLOCK as u64;
        match block.checked_sub(last) {
            Some(further) => further <= 1,
            None => false,
        }
    }

    /// Turns to the block of this place, of which nothing is read ahead.
    pub fn turn_to(&mut self, offset: u64) {
        self.filled = 0;
        self.start = offset - offset % BLOCK as u64;
    }

    /// Forgets what was read ahead.
    pub fn forget(&mut self) {
        self.filled = 0;
    }

    /// Reads the block of this place ahead, as far as the file goes.
    pub fn read<F: Read + Seek>(&mut self, games: &mut F, offset: u64) -> io::Result<()> {
        self.turn_to(offset);
        games.seek(SeekFrom::Start(self.start))?;
        self.filled = read_up_to(games, self.block.as_mut_slice())?;
        Ok(())
    }
}

// Reads into the front of `into` until it is full or the file ends, and says how many bytes were read.
fn read_up_to<F: Read>(file: &mut F, into: &mut [u8]) -> io::Result<usize> {
    let mut filled = 0;
    for _ in 0..u64::MAX {
        if filled >= into.len() {
            return Ok(filled);
        }
        match file.read(&mut into[filled..]) {
            Ok(0) => return Ok(filled),
            Ok(n) => filled += n,
            Err(error) if error.kind() == ErrorKind::Interrupted => {}
            Err(error) => return Err(error),
        }
    }
    Ok(filled)
}
