//! The new games file of a base on a disk.
use crate::ahead::BLOCK;
use std::alloc::Global;
use std::fs::File;
use std::io;
use std::io::{BufWriter, Write};

/// How many zero bytes are written at once.
const PIECE: u32 = 4096;

/// A games file that is being made, written by blocks.
#[derive(Drop)]
pub struct NewGames {
    writer: BufWriter<File>,
}

impl NewGames {
    /// A games file of no bytes yet. All the memory that writing wants is taken here.
    pub fn new(alloc: Global, file: File) -> io::Result<NewGames> {
        Ok(NewGames {
            writer: BufWriter::with_capacity(alloc, BLOCK, file)?,
        })
    }

    /// Adds `pad` zero bytes and then `bytes` at its end.
    pub fn add(&mut self, pad: u32, bytes: &[u8]) -> io::Result<()> {
        write_padded(&mut self.writer, pad, bytes)
    }

    /// The file, to which all is written.
    pub fn finish(mut self) -> io::Result<File> {
        self.writer.flush()?;
        let (file, _) = self.writer.into_parts();
        Ok(file)
    }
}

/// Writes `pad` zero bytes and then `bytes`.
pub fn write_padded<F: Write>(file: &mut F, pad: u32, bytes: &[u8]) -> io::Result<()> {
    if pad > 0 {
        write_zeros(file, pad)?;
    }
    file.write_all(bytes)
}

// Writes so many zero bytes.
fn write_zeros<F: Write>(file: &mut F, count: u32) -> io::Result<()> {
    let zeros = [0u8; PIECE as usize];
    for _ in 0..count / PIECE {
        file.write_all(&zeros)?;
    }
    file.write_all(&zeros[..(count % PIECE) as usize])
}
