ghost use Rattle.std.specs.Prelude.{◌≡◌, ◌≤◌, nat_lt, length, [], IfOk, OnOk, IsTrue};
ghost use Rattle.fw_outside.specs.Outside.{HasCause, Writes};
ghost use Rattle.fw_dub.specs.Reels.{kept, bytes_of};

use fw_kept_parts::Part;
use fw_outside::{Failed, Sink};
use std::alloc::{AllocError, Global};
use std::marker::Model;

/// How many bytes a block has.
pub const BLOCK: usize = 480;

/// The blocks of 16 frames of the 525 line system, with 250 each.
pub const BLOCKS_525: u16 = 4_000;

/// The blocks of 16 frames of the 625 line system, with 300 each.
pub const BLOCKS_625: u16 = 4_800;

/// The most blocks that a reel keeps.
pub const MOST_BLOCKS: usize = BLOCKS_625 as usize;

/// The blocks that were recorded, in order. No call but `new` takes memory.
#[derive(Drop)]
pub struct Reel {
    blocks: Vec<[u8; BLOCK]>,
}

impl Model for Reel {
    ghost use Rattle.std.specs.Prelude.{ℕ, List, ◌≤◌, vec_len, vec_capacity};

    ghost Value = { List (List ℕ) };

    ghost view = { λ r. r.blocks.items };

    ghost invariant = { λ r. (vec_len r.blocks ≤ 4800) × (4800 ≤ vec_capacity r.blocks) };
}

// Two that are found the same are the same.
fn same_block(block: &[u8], other: &[u8]) -> bool
    ensures { IsTrue result → block.now ≡ other.now }
{
    block == other
}

impl Reel {
    /// An empty reel, with room for all that it may keep.
    pub fn new(alloc: Global) -> Result<Reel, AllocError>
        ensures { IfOk result (λ r. r ≡ []) }
    {
        Ok(Reel {
            blocks: Vec::with_capacity(alloc, MOST_BLOCKS)?,
        })
    }

    /// Keeps a block after the others, and answers true, exactly if fewer than `limit` are kept. Else nothing changes.
    pub fn keep(&mut self, block: &[u8; 480], limit: u16) -> bool
        requires { limit ≤ 4800 }
        ensures room { result ≡ nat_lt (length self.old) limit }
        ensures state { self.new ≡ kept limit block.now self.old }
    {
        if self.blocks.len() >= usize::from(limit) {
            return false;
        }
        let _ = self.blocks.push(*block);
        true
    }

    /// Becomes a copy of another.
    pub fn copy_from(&mut self, other: &Reel)
        ensures { self.new ≡ other.now }
    {
        self.clear();
        for block in &other.blocks {
            self.keep(block, BLOCKS_625);
        }
    }

    /// Two that are found the same are the same.
    pub fn is_same(&self, other: &Reel) -> bool
        ensures { IsTrue result → self.now ≡ other.now }
    {
        if self.blocks.len() != other.blocks.len() {
            return false;
        }
        for n in 0..self.blocks.len() {
            if !same_block(&self.blocks[n], &other.blocks[n]) {
                return false;
            }
        }
        true
    }

    /// Empties it.
    pub fn clear(&mut self)
        ensures { self.new ≡ [] }
    {
        self.blocks.clear();
    }

    /// How many blocks it keeps.
    pub fn blocks(&self) -> u16
        ensures count { result ≡ length self.now }
        ensures few { result ≤ 4800 }
    {
        self.blocks.len() as u16
    }

    /// Writes all blocks, in order.
    pub fn write<K: Sink>(&self, sink: &mut K) -> Result<(), Failed>
        ensures bytes { Writes (K.held sink.old) (K.held sink.new) result (bytes_of self.now) }
        ensures cause { HasCause (K.faults sink.old) (K.faults sink.new) result }
        ensures same { OnOk result (K.faults sink.new ≡ K.faults sink.old) }
    {
        for block in &self.blocks {
            sink.write(block)?;
        }
        Ok(())
    }
}

impl Part for Reel {
    type Whole = Reel;

    ghost IsOf = { λ kept reel. kept ≡ reel };

    fn of(alloc: Global, reel: &Reel) -> Result<Reel, AllocError> {
        let mut copy = Reel::new(alloc)?;
        copy.copy_from(reel);
        Ok(copy)
    }

    fn is_of(&self, reel: &Reel) -> bool {
        self.is_same(reel)
    }

    fn mark(reel: &Reel) -> u64 {
        reel.blocks.len() as u64
    }
}
