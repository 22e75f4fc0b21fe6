//! Text that is appended to in place.

ghost use Rattle.std.specs.Prelude.{◌≡◌, ◌≤◌, ◌+◌, ◌++◌, [], length, false, IfOk, IsTrue, OnOk, codes, take};
ghost use Rattle.fw_async.specs.Reader.{Spells};
ghost use Rattle.fw_async.specs.declared.packet.Packet.{Packet};
ghost use Rattle.fw_log_json_packets.specs.Packets.{iso_fields, packet_fields};
ghost use Rattle.fw_log_json_packets.specs.Usual.{IsUsualIso};

use crate::rows::PREFIX;
use crate::usual::write_packet;
use crate::usual_iso::write_iso;
use fw_cip::IsoPacket;
use fw_log_names::Pairs;
use std::alloc::{AllocError, Global};
use std::marker::Model;

/// How many bytes of text there is room for at first: more than the objects have of 4,096 bytes of a log and of the longest
/// entry after them.
const ROOM: usize = 131_072;

/// How many bytes the object of a usual packet has at most.
const OBJECT: usize = 1536;

/// A text, and room after it: a short piece is appended by a few moves, and nothing else.
#[derive(Drop)]
pub struct TextRoom {
    bytes: Vec<u8>,
    // How many of the bytes are the text.
    filled: usize,
}

impl Model for TextRoom {
    ghost use Rattle.std.specs.Prelude.{List, ℕ, ◌≤◌, length, take};

    ghost Value = { List ℕ };

    ghost view = { λ r. take r.filled r.bytes.items };

    ghost invariant = { λ r. r.filled ≤ length r.bytes.items };
}

// Appends so many zeros.
#[cold]
#[inline(never)]
fn grow(bytes: &mut Vec<u8>, count: usize) -> Result<(), AllocError>
    ensures grown { OnOk result (length bytes.new.items ≡ length bytes.old.items + count) }
    ensures same { take (length bytes.old.items) bytes.new.items ≡ bytes.old.items }
{
    for _ in 0..count {
        bytes.push(0)?;
    }
    Ok(())
}

// Makes room for so many bytes more after those that are filled, which stay as they are.
#[inline(always)]
fn make_room(bytes: &mut Vec<u8>, filled: usize, room: usize) -> Result<(), AllocError>
    requires { filled ≤ length bytes.old.items }
    ensures room { OnOk result (filled + room ≤ length bytes.new.items) }
    ensures filled { filled ≤ length bytes.new.items }
    ensures same { take filled bytes.new.items ≡ take filled bytes.old.items }
{
    if room <= bytes.len() - filled {
        return Ok(());
    }
    grow(bytes, room)
}

impl TextRoom {
    /// No text. An error says that memory ran out.
    pub fn new(alloc: Global) -> Result<TextRoom, AllocError>
        ensures { IfOk result (λ r. r ≡ []) }
    {
        Ok(TextRoom {
            bytes: vec![in alloc; 0; ROOM]?,
            filled: 0,
        })
    }

    /// The text.
    pub fn as_slice(&self) -> &[u8]
        ensures { result.now ≡ self.now }
    {
        &self.bytes[..self.filled]
    }

    /// Drops the text, and keeps the memory.
    pub fn clear(&mut self)
        ensures { self.new ≡ [] }
    {
        self.filled = 0;
    }

    /// Appends a piece. An error says that memory ran out.
    pub fn put(&mut self, piece: &[u8]) -> Result<(), AllocError>
        ensures { OnOk result (self.new ≡ self.old ++ piece.now) }
    {
        make_room(&mut self.bytes, self.filled, piece.len())?;
        let end = self.filled + piece.len();
        self.bytes[self.filled..end].copy_from_slice(piece);
        self.filled = end;
        Ok(())
    }

    /// Appends the object of a packet of a usual kind, from the packet's bytes; it begins with so many bytes of a row. Answers
    /// whether it did: it appends nothing of a packet of another kind.
    #[inline(always)]
    pub fn put_packet(
        &mut self,
        prefix: &[u8; PREFIX],
        size: usize,
        pairs: &Pairs,
        bytes: &[u8],
    ) -> Result<bool, AllocError>
        requires prefix { size ≤ 64 }
        ensures object { (p : Packet) → Spells p bytes.now → IfOk result (λ put. IsTrue put → self.new ≡ self.old ++ (take size prefix.now ++ (packet_fields p ++ codes "}\n"))) }
        ensures other { IfOk result (λ put. put ≡ false → self.new ≡ self.old) }
    {
        make_room(&mut self.bytes, self.filled, OBJECT)?;
        match write_packet(&mut self.bytes, self.filled, prefix, size, pairs, bytes) {
            Some(end) => {
                self.filled = end;
                Ok(true)
            }
            None => Ok(false),
        }
    }

    /// The same of a usual isochronous packet.
    #[inline(always)]
    pub fn put_iso(
        &mut self,
        prefix: &[u8; PREFIX],
        size: usize,
        p: &IsoPacket,
    ) -> Result<(), AllocError>
        requires prefix { size ≤ 64 }
        requires usual { IsUsualIso p.now }
        ensures { OnOk result (self.new ≡ self.old ++ (take size prefix.now ++ (iso_fields p.now ++ codes "}\n"))) }
    {
        make_room(&mut self.bytes, self.filled, OBJECT)?;
        self.filled = write_iso(&mut self.bytes, self.filled, prefix, size, p);
        Ok(())
    }
}
