//! What a deck records: blocks of a DV stream, one after another, up to a limit.
#![tactic(auto)]

mod reel;

pub use reel::{BLOCK, BLOCKS_525, BLOCKS_625, MOST_BLOCKS, Reel};
