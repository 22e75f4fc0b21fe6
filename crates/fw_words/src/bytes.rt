ghost use Rattle.std.specs.Prelude.{◌≡◌, ◌<◌, ◌≤◌, ◌+◌, ◌-◌, [], ◌∷◌, ◌++◌, ℕ, length, slice_index, take};

use arrayvec::ArrayVec;
use std::marker::Model;

/// At most `N` bytes, in order.
#[derive(PartialEq, Eq, Drop)]
pub struct Bytes<const N: usize> {
    bytes: ArrayVec<u8, N>,
}

/// What the type of a slice says of its items: nothing is done.
#[inline(always)]
pub fn are_bytes(bytes: &[u8])
    ensures { (i : ℕ) → slice_index bytes.now i < 256 }
{
    let _ = bytes;
}

/// The data of a block: at most 512 bytes.
pub type Bytes512 = Bytes<512>;

/// The data of a lock request: at most 16 bytes.
pub type Bytes16 = Bytes<16>;

/// The data of a lock response: at most 8 bytes.
pub type Bytes8 = Bytes<8>;

impl<const N: usize> Model for Bytes<N> {
    ghost use Rattle.std.specs.Prelude.{List, ℕ};

    ghost Value = { List ℕ };

    ghost view = { λ b. b.bytes.items };

    ghost inverse = { λ xs. record { bytes = record { items = xs } } };
}

impl<const N: usize> Bytes<N> {
    /// No bytes.
    pub fn new() -> Bytes<N>
        ensures { result ≡ [] }
    {
        Bytes {
            bytes: ArrayVec::new(),
        }
    }

    /// Appends a byte.
    pub fn push(&mut self, b: u8)
        requires { length self.old < N }
        ensures { self.new ≡ self.old ++ b ∷ [] }
    {
        self.bytes.push(b);
    }

    /// Appends all bytes of a slice.
    pub fn append(&mut self, more: &[u8])
        requires { length self.old + length more.now ≤ N }
        ensures { self.new ≡ self.old ++ more.now }
    {
        let _ = self.bytes.try_extend_from_slice(more);
    }

    /// Takes all bytes away. The work grows with the bytes that were held, and not with the room.
    pub fn clear(&mut self)
        ensures { self.new ≡ [] }
    {
        self.bytes.clear();
    }

    /// Puts the bytes of two slices in place of what was there, as many as there is room for.
    pub fn join(&mut self, prefix: &[u8], back: &[u8])
        requires { length prefix.now ≤ N }
        ensures { self.new ≡ prefix.now ++ take (N - length prefix.now) back.now }
    {
        self.bytes.clear();
        self.append(prefix);
        let room = N - prefix.len();
        self.append(if back.len() < room {
            back
        } else {
            &back[..room]
        });
    }

    /// All bytes.
    pub fn as_slice(&self) -> &[u8]
        ensures value { result.now ≡ self.now }
        ensures fits { length self.now ≤ N }
    {
        self.bytes.as_slice()
    }
}
