//! A source that gives little at a time, and may fail at its end.

ghost use Rattle.std.specs.Prelude.{None};

use fw_outside::{Failed, Source, copy_prefix};

/// A source that gives at most so many bytes at a time. If it is to fail, the read after its last byte does.
#[derive(Drop)]
pub struct Portions<'a> {
    left: &'a [u8],
    most: usize,
    fails: bool,
    faults: u64,
}

impl<'a> Portions<'a> {
    /// All that there is at once.
    pub(crate) fn whole(bytes: &'a [u8]) -> Portions<'a> {
        Portions::of(bytes, usize::MAX)
    }

    /// At most so many bytes at a time.
    pub(crate) fn of(bytes: &'a [u8], most: usize) -> Portions<'a> {
        Portions {
            left: bytes,
            most,
            fails: false,
            faults: 0,
        }
    }

    /// One byte at a time, and a read after the last that fails.
    pub(crate) fn failing(bytes: &'a [u8]) -> Portions<'a> {
        Portions {
            left: bytes,
            most: 1,
            fails: true,
            faults: 0,
        }
    }
}

impl Source for Portions<'_> {
    ghost left = { λ _. None };

    ghost faults = { λ s. s.faults };

    fn read(&mut self, into: &mut [u8]) -> Result<usize, Failed> {
        if self.fails && self.left.is_empty() {
            self.faults = self.faults.saturating_add(1);
            return Err(Failed);
        }
        let count = copy_prefix(&self.left[..self.left.len().min(self.most)], into);
        self.left = &self.left[count..];
        Ok(count)
    }
}
