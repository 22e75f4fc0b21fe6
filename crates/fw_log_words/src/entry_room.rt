//! Entries of a log that are appended in place.

ghost use Rattle.std.specs.Prelude.{◌≡◌, ◌≤◌, ◌+◌, ◌++◌, [], length, IfOk, OnOk, take};

use std::alloc::{AllocError, Global};
use std::marker::Model;

/// How many bytes there is room for at first: more than the entries have of 4,096 bytes of a log and of the longest entry after
/// them, in the longer version.
const ROOM: usize = 12_288;

/// The bytes of entries, and room after them: the room for an entry is asked for once.
#[derive(Drop)]
pub(crate) struct EntryRoom {
    bytes: Vec<u8>,
    // How many of the bytes are those of entries.
    filled: usize,
}

impl Model for EntryRoom {
    ghost use Rattle.std.specs.Prelude.{List, ℕ, ◌≤◌, length, take};

    ghost Value = { List ℕ };

    ghost view = { λ r. take r.filled r.bytes.items };

    ghost invariant = { λ r. r.filled ≤ length r.bytes.items };
}

// Appends so many zeros.
#[cold]
#[inline(never)]
fn grow(bytes: &mut Vec<u8>, count: usize) -> Result<(), AllocError>
    ensures grown { OnOk result (length bytes.new.items ≡ length bytes.old.items + count) }
    ensures same { take (length bytes.old.items) bytes.new.items ≡ bytes.old.items }
{
    for _ in 0..count {
        bytes.push(0)?;
    }
    Ok(())
}

// Makes room for so many bytes more after those that are filled, which stay as they are.
#[inline(always)]
fn make_room(bytes: &mut Vec<u8>, filled: usize, room: usize) -> Result<(), AllocError>
    requires { filled ≤ length bytes.old.items }
    ensures room { OnOk result (filled + room ≤ length bytes.new.items) }
    ensures filled { filled ≤ length bytes.new.items }
    ensures same { take filled bytes.new.items ≡ take filled bytes.old.items }
{
    if room <= bytes.len() - filled {
        return Ok(());
    }
    grow(bytes, room)
}

// Writes a piece over the bytes from `at` on, and answers where it ends.
#[inline(always)]
fn write_piece(out: &mut [u8], at: usize, piece: &[u8]) -> usize
    requires { at + length piece.now ≤ length out.old }
    ensures size { length out.new ≡ length out.old }
    ensures end { result ≡ at + length piece.now }
    ensures text { take result out.new ≡ take at out.old ++ piece.now }
{
    let end = at + piece.len();
    out[at..end].copy_from_slice(piece);
    end
}

// Writes a head and a body over the bytes from `at` on, and answers where they end.
#[inline(always)]
fn write_entry<const N: usize>(out: &mut [u8], at: usize, head: [u8; N], body: &[u8]) -> usize
    requires { at + N + length body.now ≤ length out.old }
    ensures size { length out.new ≡ length out.old }
    ensures end { result ≡ at + N + length body.now }
    ensures text { take result out.new ≡ take at out.old ++ (head.entry ++ body.now) }
{
    let start = write_piece(out, at, &head);
    write_piece(out, start, body)
}

impl EntryRoom {
    /// No entries. An error says that memory ran out.
    pub(crate) fn new(alloc: Global) -> Result<EntryRoom, AllocError>
        ensures { IfOk result (λ r. r ≡ []) }
    {
        Ok(EntryRoom {
            bytes: vec![in alloc; 0; ROOM]?,
            filled: 0,
        })
    }

    /// The bytes of all entries.
    pub(crate) fn as_slice(&self) -> &[u8]
        ensures { result.now ≡ self.now }
    {
        &self.bytes[..self.filled]
    }

    /// Drops the entries, and keeps the memory.
    pub(crate) fn clear(&mut self)
        ensures { self.new ≡ [] }
    {
        self.filled = 0;
    }

    /// Appends an entry, from its head and the bytes of its body. An error says that memory ran out.
    #[inline(always)]
    pub(crate) fn put<const N: usize>(
        &mut self,
        head: [u8; N],
        body: &[u8],
    ) -> Result<(), AllocError>
        ensures { OnOk result (self.new ≡ self.old ++ (head.entry ++ body.now)) }
    {
        make_room(&mut self.bytes, self.filled, N + body.len())?;
        self.filled = write_entry(&mut self.bytes, self.filled, head, body);
        Ok(())
    }
}
