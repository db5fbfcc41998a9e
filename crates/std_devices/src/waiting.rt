//! What was added to a games file and is not written yet.
use crate::ahead::BLOCK;
use std::alloc::{AllocError, Global};

/// Bytes that wait to be written at the end of a games file, a block of them at most.
#[derive(Drop)]
pub struct Waiting {
    block: Vec<u8>,
    filled: usize,
}

impl Waiting {
    /// Room for one block, in which nothing waits. All the memory that waiting wants is taken here.
    pub fn new(alloc: Global) -> Result<Waiting, AllocError> {
        Ok(Waiting {
            block: vec![in alloc; 0u8; BLOCK]?,
            filled: 0,
        })
    }

    /// What waits.
    pub fn bytes(&self) -> &[u8] {
        &self.block[..self.filled.min(self.block.len())]
    }

    /// Takes `pad` zero bytes and then `bytes` behind what waits, if there is room for all of them.
    pub fn takes(&mut self, pad: u32, bytes: &[u8]) -> bool {
        let filled = self.filled.min(self.block.len());
        let room = self.block.len() - filled;
        let pad = pad as usize;
        if pad > room || bytes.len() > room - pad {
            return false;
        }
        let start = filled + pad;
        let end = start + bytes.len();
        self.block[filled..start].fill(0);
        self.block[start..end].copy_from_slice(bytes);
        self.filled = end;
        true
    }

    /// Nothing waits from then on.
    pub fn clear(&mut self) {
        self.filled = 0;
    }
}
