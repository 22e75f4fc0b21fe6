//! The row that a phrase belongs to among those that are at hand.

use crate::carried::Carried;
use crate::phrase::{Phrase, Words};
use fw_words::Swap;

/// An odd number by which keys are spread over the rows: 2^32 divided by the golden ratio.
const SPREAD: u32 = 0x9E37_79B1;

// A number of a swap: any would do.
#[inline(always)]
fn mixed(s: Swap) -> u32 {
    s.argument.wrapping_add(s.new.wrapping_mul(3))
}

// A number of what is carried: any would do.
#[inline(always)]
fn mixed_frame(carried: Carried) -> u32 {
    match carried {
        Carried::Nothing => 0,
        Carried::Quadlet(quadlet) => quadlet,
        Carried::Pair(first, second) => first.wrapping_add(second.wrapping_mul(3)),
    }
}

// The row that a phrase belongs to: any would do.
#[inline(always)]
pub(crate) fn row_of(phrase: &Phrase) -> usize {
    let (kind, words) = match phrase.words {
        Words::Write | Words::Lock(None) => (0, 0),
        Words::Read => (1, 0),
        Words::Lock(Some(s)) => (2, mixed(s)),
        Words::Word(word) => (3, word),
        Words::Change(s) => (4, mixed(s)),
        Words::Brought(word) => (5, word),
        Words::Proposed(s) => (6, mixed(s)),
        Words::Swapped(s, word) => (7, mixed(s).wrapping_add(word.wrapping_mul(5))),
        Words::Written(carried) => (8, mixed_frame(carried)),
    };
    let key = words.wrapping_add((phrase.offset % 4096) as u32 ^ (kind << 12));
    (key.wrapping_mul(SPREAD) >> 22) as usize
}
