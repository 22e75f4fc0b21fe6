//! The packets of transactions of one quadlet: its read, and its compare_swap.

ghost use Rattle.std.specs.Prelude.{◌≡◌, ◌<◌, ◌^◌, IfSome};
ghost use Rattle.fw_words.specs.Quadlet.{quadlet_at};
ghost use Rattle.fw_async.specs.Async.{spelling, HeadFits};
ghost use Rattle.fw_async.specs.Reader.{Spells, IsPacket};
ghost use Rattle.fw_async.specs.Whole.{IsComplete, ReadsAs};
ghost use Rattle.fw_async.specs.Quadlets.{request_packet, read_reply, swap_reply};
ghost use Rattle.fw_async.specs.declared.packet.Packet.{Packet as PacketRecord};

use crate::header::head_at;
use crate::packet::Head;
use crate::room::PacketRoom;
use fw_async_fields::{Tcode, offset_at, tcode_at};
use fw_words::{Swap, quadlet_at};

/// Quadlet 3 of a compare_swap of quadlets: eight bytes of data, and its extended_tcode.
pub(crate) const SWAP_SIZE: u32 = 0x0008_0002;

/// Quadlet 3 of its response: the four bytes of the old value.
pub(crate) const OLD_SIZE: u32 = 0x0004_0002;

/// Quadlet 3 of a response without an old value.
const NO_OLD_SIZE: u32 = 0x0000_0002;

/// A quadlet read, or a quadlet compare_swap, as its request packet asks it.
#[derive(Clone, Copy)]
pub struct QuadletRequest {
    pub head: Head,
    /// The destination_offset, 48 bits.
    pub offset: u64,
    /// None in a read.
    pub swap: Option<Swap>,
}

// What the bytes of a quadlet read ask.
fn read_asked_at(bytes: &[u8]) -> QuadletRequest
    requires { IsComplete 4 bytes.now }
    ensures { ReadsAs 4 bytes.now (request_packet result) }
{
    QuadletRequest {
        head: head_at(bytes),
        offset: offset_at(bytes),
        swap: None,
    }
}

// What the bytes of a compare_swap of a quadlet ask.
fn swap_asked_at(bytes: &[u8]) -> QuadletRequest
    requires complete { IsComplete 9 bytes.now }
    requires size { quadlet_at bytes.now 12 ≡ 0x00080002 }
    ensures { ReadsAs 9 bytes.now (request_packet result) }
{
    QuadletRequest {
        head: head_at(bytes),
        offset: offset_at(bytes),
        swap: Some(Swap {
            argument: quadlet_at(bytes, 16).0,
            new: quadlet_at(bytes, 20).0,
        }),
    }
}

/// What the request packet asks that these bytes are, if it asks a quadlet; it is found at once. None tells nothing.
pub fn quadlet_request_at(bytes: &[u8]) -> Option<QuadletRequest>
    requires { IsPacket bytes.now }
    ensures { (p : PacketRecord) → Spells p bytes.now → IfSome result (λ q. p ≡ request_packet q) }
{
    match tcode_at(bytes)? {
        Tcode::ReadQuadlet => Some(read_asked_at(bytes)),
        Tcode::Lock if quadlet_at(bytes, 12).0 == SWAP_SIZE => Some(swap_asked_at(bytes)),
        _ => None,
    }
}

impl PacketRoom {
    /// Puts a request packet in place of what was there.
    pub fn put_request(&mut self, q: &QuadletRequest)
        requires head { HeadFits q.now.head }
        requires offset { q.now.offset < 2 ^ 48 }
        ensures { self.new ≡ spelling (request_packet q.now) }
    {
        match q.swap {
            None => self.begin_request(Tcode::ReadQuadlet, &q.head, q.offset),
            Some(swap) => {
                self.begin_request(Tcode::Lock, &q.head, q.offset);
                self.push(SWAP_SIZE);
                self.push(swap.argument);
                self.push(swap.new);
            }
        }
    }

    /// Puts the response packet to a quadlet read in place of what was there.
    pub fn put_read_reply(&mut self, head: &Head, rcode: u8, value: u32)
        requires head { HeadFits head.now }
        requires rcode { rcode < 2 ^ 4 }
        ensures { self.new ≡ spelling (read_reply head.now rcode value) }
    {
        self.begin_response(Tcode::ReadQuadletReply, head, rcode);
        self.push(value);
    }

    /// Puts the response packet to a quadlet compare_swap in place of what was there, with the old value if there is one.
    pub fn put_swap_reply(&mut self, head: &Head, rcode: u8, old: Option<u32>)
        requires head { HeadFits head.now }
        requires rcode { rcode < 2 ^ 4 }
        ensures { self.new ≡ spelling (swap_reply head.now rcode old) }
    {
        self.begin_response(Tcode::LockReply, head, rcode);
        match old {
            None => self.push(NO_OLD_SIZE),
            Some(old) => {
                self.push(OLD_SIZE);
                self.push(old);
            }
        }
    }
}
