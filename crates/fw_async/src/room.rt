//! Room for the bytes of one packet.

ghost use Rattle.std.specs.Prelude.{◌≡◌, ◌≤◌, ◌<◌, ◌+◌, ◌^◌, [], ◌∷◌, ◌++◌, length, take, flat_map};
ghost use Rattle.std.specs.Int.{to_be_bytes, w32};
ghost use Rattle.fw_async.specs.Async.{spelling, padded, size, Fits, HeadFits, request, response};
ghost use Rattle.fw_async_fields.specs.Tcode.{code_of};

use crate::header::{first_quadlet, rcode_quadlet, source_quadlet};
use crate::packet::{Head, Packet};
use crate::writer::{size_of, write_over};
use fw_async_fields::{Tcode, padding_of};
use fw_words::{Quadlet, put_quadlet, with_field};
use std::marker::Model;

mod rows;

use rows::{copy_over, copy_short, row_of};

/// How many bytes stand before a packet.
const PREFIX: usize = 16;

/// How many bytes the request and the response of a transaction of one quadlet have at most, and some more.
const SHORT: usize = 32;

/// How many bytes stand before a packet, and in the longest one.
const ALL: usize = 544;

/// Room for the bytes of one packet. It is made once and used again for each. The sixteen bytes before the packet are
/// those of `following`, so that a packet that something stands before, as in an entry of a log, is not copied for it.
#[derive(Drop)]
pub struct PacketRoom {
    bytes: [u8; ALL],
    /// How many bytes the packet has.
    length: usize,
}

impl Model for PacketRoom {
    ghost use Rattle.std.specs.Prelude.{List, ℕ, ◌≤◌, drop, take};

    ghost Value = { List ℕ };

    ghost view = { λ r. take r.length (drop 16 r.bytes) };

    ghost invariant = { λ r. r.length ≤ 528 };
}

impl PacketRoom {
    /// No bytes.
    pub fn new() -> PacketRoom
        ensures { result ≡ [] }
    {
        PacketRoom {
            bytes: [0; ALL],
            length: 0,
        }
    }

    /// The packet's bytes.
    pub fn as_slice(&self) -> &[u8]
        ensures { result.now ≡ self.now }
    {
        &self.bytes[PREFIX..PREFIX + self.length]
    }

    /// Copies the packet's bytes over the beginning of `row`, and answers how many they are.
    #[inline(always)]
    pub(crate) fn copy_to(&self, row: &mut [u8; 528]) -> usize
        ensures bytes { take result row.new ≡ self.now }
        ensures size { result ≡ length self.now }
        ensures room { result ≤ 528 }
    {
        // Most packets are short. A copy of a fixed size takes a few moves.
        if self.length <= SHORT {
            copy_short(&self.bytes[PREFIX..PREFIX + SHORT], row);
        } else {
            copy_over(self.as_slice(), row);
        }
        self.length
    }

    /// The packet's bytes after sixteen others. What the room has then does not matter.
    pub fn following_bytes<'a>(&'a mut self, prefix: [u8; 16]) -> &'a [u8]
        ensures { result.now ≡ prefix ++ self.old }
    {
        self.bytes[..PREFIX].copy_from_slice(&prefix);
        &self.bytes[..PREFIX + self.length]
    }

    /// As `following`, of a short packet, and with what stands in the room after it.
    #[inline(always)]
    pub fn row_following<'a>(&'a mut self, prefix: [u8; 16]) -> &'a [u8; 48]
        requires { length self.old ≤ 32 }
        ensures { take (16 + length self.old) result.now ≡ prefix ++ self.old }
    {
        self.bytes[..PREFIX].copy_from_slice(&prefix);
        row_of(&self.bytes)
    }

    /// Puts a packet in place of what was there.
    // Inlined, with one match: where the kind of the packet is known, so is what is put, and where it is not, it is asked for once.
    #[inline(always)]
    pub fn put(&mut self, p: &Packet)
        requires { Fits p.now }
        ensures { self.new ≡ spelling p.now }
    {
        use Packet::*;
        match p {
            WriteQuadlet {
                head,
                offset,
                value,
            } => {
                self.begin_request(Tcode::WriteQuadlet, head, *offset);
                self.push(*value);
            }
            WriteBlock {
                head,
                offset,
                bytes,
            } => {
                self.begin_request(Tcode::WriteBlock, head, *offset);
                self.push_data(bytes.as_slice(), 0);
            }
            WriteReply { head, rcode } => self.begin_response(Tcode::WriteReply, head, *rcode),
            ReadQuadlet { head, offset } => self.begin_request(Tcode::ReadQuadlet, head, *offset),
            ReadBlock {
                head,
                offset,
                length,
            } => {
                self.begin_request(Tcode::ReadBlock, head, *offset);
                self.push(with_field(u32::from(*length), 16, 0));
            }
            ReadQuadletReply { head, rcode, value } => {
                self.begin_response(Tcode::ReadQuadletReply, head, *rcode);
                self.push(*value);
            }
            ReadBlockReply { head, rcode, bytes } => {
                self.begin_response(Tcode::ReadBlockReply, head, *rcode);
                self.push_data(bytes.as_slice(), 0);
            }
            CycleStart { head, offset, time } => {
                self.begin_request(Tcode::CycleStart, head, *offset);
                self.push(*time);
            }
            Lock {
                head,
                offset,
                function,
                bytes,
            } => {
                self.begin_request(Tcode::Lock, head, *offset);
                self.push_data(bytes.as_slice(), *function);
            }
            LockReply {
                head,
                rcode,
                function,
                bytes,
            } => {
                self.begin_response(Tcode::LockReply, head, *rcode);
                self.push_data(bytes.as_slice(), *function);
            }
        }
    }

    // The quadlet with the size of data, and the data up to a whole quadlet.
    fn push_data(&mut self, bytes: &[u8], low: u8)
        requires few { length bytes.now ≤ 512 }
        requires begun { length self.old ≡ 12 }
        ensures { self.new ≡ self.old ++ flat_map (to_be_bytes w32) (size (length bytes.now) low ∷ []) ++ padded bytes.now }
    {
        self.push(size_of(bytes, low));
        self.extend(bytes);
        let padding = padding_of(bytes.len());
        if !padding.is_empty() {
            self.extend(padding);
        }
    }

    /// The first three quadlets of a request, in place of what was there.
    pub(crate) fn begin_request(&mut self, tcode: Tcode, h: &Head, offset: u64)
        requires head { HeadFits h.now }
        requires offset { offset < 2 ^ 48 }
        ensures { self.new ≡ flat_map (to_be_bytes w32) (request (code_of tcode) h.now offset [] []).quadlets }
    {
        self.clear();
        self.push(first_quadlet(tcode, h));
        self.push(source_quadlet(h, offset));
        self.push((offset & 0xffff_ffff) as u32);
    }

    /// The first three quadlets of a response, in place of what was there.
    pub(crate) fn begin_response(&mut self, tcode: Tcode, h: &Head, rcode: u8)
        requires head { HeadFits h.now }
        requires rcode { rcode < 2 ^ 4 }
        ensures { self.new ≡ flat_map (to_be_bytes w32) (response (code_of tcode) h.now rcode [] []).quadlets }
    {
        self.clear();
        self.push(first_quadlet(tcode, h));
        self.push(rcode_quadlet(h, rcode));
        self.push(0);
    }

    /// One quadlet more.
    pub(crate) fn push(&mut self, q: u32)
        requires { length self.old + 4 ≤ 528 }
        ensures { self.new ≡ self.old ++ to_be_bytes w32 q }
    {
        self.extend(&put_quadlet(Quadlet(q)));
    }

    // Takes all bytes away, and touches none.
    fn clear(&mut self)
        ensures { self.new ≡ [] }
    {
        self.length = 0;
    }

    fn extend(&mut self, more: &[u8])
        requires { length self.old + length more.now ≤ 528 }
        ensures { self.new ≡ self.old ++ more.now }
    {
        let end = PREFIX + self.length;
        write_over(&mut self.bytes, end, more);
        self.length += more.len();
    }
}
