//! The cycle that a line begins with.

ghost use Rattle.std.specs.Prelude.{◌≡◌, ◌≤◌, ◌++◌, codes, decimal, take};

use itoa::Buffer;
use std::marker::Model;

/// In how many bytes a `CycleRow` is kept. The greatest cycle has 20 digits.
const ROOM: usize = 24;

/// The digits of a cycle and a space after them, at most 21 bytes. Many entries have the cycle of the one before, for which
/// nothing is made. Contracts see it as this text.
#[derive(Drop)]
pub struct CycleRow {
    cycle: u64,
    bytes: [u8; ROOM],
    // How many of the bytes are the digits and the space.
    size: usize,
}

impl Model for CycleRow {
    ghost use Rattle.std.specs.Prelude.{List, ℕ, ◌≡◌, ◌≤◌, ◌++◌, take, codes, decimal};

    ghost Value = { List ℕ };

    ghost view = { λ r. take r.size r.bytes };

    ghost invariant = { λ r. (r.size ≤ 24) × (take r.size r.bytes ≡ decimal r.cycle ++ codes " ") };
}

impl CycleRow {
    /// Those of this cycle.
    pub fn of(cycle: u64) -> CycleRow
        ensures { result ≡ decimal cycle ++ codes " " }
    {
        let mut buffer = Buffer::new();
        let digits = buffer.format(cycle).as_bytes();
        let mut bytes = [b' '; ROOM];
        bytes[..digits.len()].copy_from_slice(digits);
        CycleRow {
            cycle,
            bytes,
            size: digits.len() + 1,
        }
    }

    /// Goes on to this cycle.
    #[inline(always)]
    pub fn set(&mut self, cycle: u64)
        ensures { self.new ≡ decimal cycle ++ codes " " }
    {
        if self.cycle != cycle {
            *self = CycleRow::of(cycle);
        }
    }

    /// The text.
    #[inline(always)]
    pub fn as_slice(&self) -> &[u8]
        ensures { result.now ≡ self.now }
    {
        &self.bytes[..self.size]
    }

    /// The bytes that begin with the text, and its length: to copy them all takes less than to copy so many.
    #[inline(always)]
    pub fn row(&self) -> (&[u8; 24], usize)
        ensures size { result.1 ≤ 24 }
        ensures text { take result.1 result.0.now ≡ self.now }
    {
        (&self.bytes, self.size)
    }
}
