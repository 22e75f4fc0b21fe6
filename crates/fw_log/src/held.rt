//! The bytes of an entry that came in pieces.

ghost use Rattle.std.specs.Prelude.{◌≡◌, ◌≤◌, ◌+◌, ◌-◌, [], ◌++◌, length, take};

use std::marker::Model;

/// How many bytes the header of a log and the longest entry after it have.
pub(crate) const ROOM: usize = 2308;

/// At most as many bytes as a header and an entry have. To drop them touches none of them.
#[derive(Drop)]
pub struct SplitEntry {
    bytes: [u8; ROOM],
    /// How many bytes are held.
    length: usize,
}

impl Model for SplitEntry {
    ghost use Rattle.std.specs.Prelude.{List, ℕ, ◌≤◌, take};

    ghost Value = { List ℕ };

    ghost view = { λ h. take h.length h.bytes };

    ghost invariant = { λ h. h.length ≤ 2308 };
}

impl SplitEntry {
    /// No bytes.
    pub(crate) fn new() -> SplitEntry
        ensures { result ≡ [] }
    {
        SplitEntry {
            bytes: [0; ROOM],
            length: 0,
        }
    }

    /// Appends all bytes of a slice.
    pub(crate) fn append(&mut self, more: &[u8])
        requires { length self.old + length more.now ≤ 2308 }
        ensures { self.new ≡ self.old ++ more.now }
    {
        let end = self.length + more.len();
        self.bytes[self.length..end].copy_from_slice(more);
        self.length = end;
    }

    /// Drops all bytes.
    pub(crate) fn clear(&mut self)
        ensures { self.new ≡ [] }
    {
        self.length = 0;
    }

    /// Puts the bytes of two slices in place of what was there, at most so many.
    pub(crate) fn join(&mut self, prefix: &[u8], back: &[u8], most: usize)
        requires prefix { length prefix.now ≤ most }
        requires room { most ≤ 2308 }
        ensures { self.new ≡ prefix.now ++ take (most - length prefix.now) back.now }
    {
        self.clear();
        self.append(prefix);
        let room = most - prefix.len();
        self.append(if back.len() < room {
            back
        } else {
            &back[..room]
        });
    }

    /// All bytes.
    pub(crate) fn as_slice(&self) -> &[u8]
        ensures value { result.now ≡ self.now }
        ensures fits { length self.now ≤ 2308 }
    {
        &self.bytes[..self.length]
    }
}
