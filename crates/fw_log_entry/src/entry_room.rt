//! Room for the bytes of one entry.

ghost use Rattle.std.specs.Prelude.{◌≡◌, ◌≤◌, ◌+◌, [], ◌++◌, length, take, OnOk};
ghost use Rattle.fw_outside.specs.Outside.{HasCause, Writes};
ghost use Rattle.fw_async.specs.Async.{Fits, spelling};

use fw_async::{Packet, write_packet_at};
use fw_outside::{Failed, Sink};
use std::alloc::{AllocError, Global};
use std::marker::Model;

/// How many bytes an entry has at most: the 16 of its head and the 569 quadlets of a reset.
const MOST: usize = 2292;

/// How many bytes are handed to a sink as the beginning of a row.
const ROW: usize = 48;

/// The bytes of one entry, or a prefix of them. To take them away touches none of them.
#[derive(Drop)]
pub(crate) struct EntryBytes {
    bytes: [u8; MOST],
    /// How many bytes there are.
    length: usize,
}

impl Model for EntryBytes {
    ghost use Rattle.std.specs.Prelude.{List, ℕ, ◌≤◌, take};

    ghost Value = { List ℕ };

    ghost view = { λ b. take b.length b.bytes };

    ghost invariant = { λ b. b.length ≤ 2292 };
}

impl EntryBytes {
    /// No bytes.
    fn new() -> EntryBytes
        ensures { result ≡ [] }
    {
        EntryBytes {
            bytes: [0; MOST],
            length: 0,
        }
    }

    /// All bytes.
    pub(crate) fn as_slice(&self) -> &[u8]
        ensures same { result.now ≡ self.now }
        ensures few { length result.now ≤ 2292 }
    {
        &self.bytes[..self.length]
    }

    /// Takes all bytes away.
    pub(crate) fn clear(&mut self)
        ensures { self.new ≡ [] }
    {
        self.length = 0;
    }

    /// Appends all bytes of a slice.
    #[inline(always)]
    pub(crate) fn append(&mut self, more: &[u8])
        requires { length self.old + length more.now ≤ 2292 }
        ensures { self.new ≡ self.old ++ more.now }
    {
        let end = self.length + more.len();
        self.bytes[self.length..end].copy_from_slice(more);
        self.length = end;
    }

    /// Appends the bytes of a packet.
    pub(crate) fn append_packet(&mut self, p: &Packet)
        requires fits { Fits p.now }
        requires room { length self.old + length (spelling p.now) ≤ 2292 }
        ensures { self.new ≡ self.old ++ spelling p.now }
    {
        self.length = write_packet_at(p, &mut self.bytes, self.length);
    }

    /// Appends all bytes to a sink, in one write.
    #[inline(always)]
    pub(crate) fn write_to<K: Sink>(&self, sink: &mut K) -> Result<(), Failed>
        ensures bytes { Writes (K.held sink.old) (K.held sink.new) result self.now }
        ensures cause { HasCause (K.faults sink.old) (K.faults sink.new) result }
        ensures same { OnOk result (K.faults sink.new ≡ K.faults sink.old) }
    {
        if self.length <= ROW {
            return sink.write_prefix(row_of(&self.bytes), self.length);
        }
        sink.write(self.as_slice())
    }
}

// The first bytes.
#[inline(always)]
fn row_of(bytes: &[u8; MOST]) -> &[u8; ROW]
    ensures { result.now ≡ take 48 bytes.now }
{
    match bytes.first_chunk::<ROW>() {
        Some(row) => row,
        None => unreachable!(),
    }
}

/// Memory in which an entry is put together before it is written. It is made once and used again for each entry.
#[derive(Drop)]
pub struct EntryRoom {
    pub(crate) bytes: Box<EntryBytes>,
}

impl EntryRoom {
    /// Room for one entry.
    pub fn new(alloc: Global) -> Result<EntryRoom, AllocError> {
        Ok(EntryRoom {
            bytes: Box::new(alloc, EntryBytes::new())?,
        })
    }
}
