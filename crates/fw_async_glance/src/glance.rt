//! What a packet of a usual kind says.

ghost use Rattle.std.specs.Prelude.{◌≡◌};
ghost use Rattle.fw_async.specs.Reader.{IsPacket, Spells};
ghost use Rattle.fw_async_fields.specs.Reading.{tcode_of};
ghost use Rattle.fw_async.specs.declared.packet.Packet.{Packet};
ghost use Rattle.fw_words.specs.Quadlet.{quadlet_at};
ghost use Rattle.fw_async_glance.specs.Glances.{IsGlance};

use crate::fields::{head_at, offset_at, rcode_at, swap_at};
use fw_async::Head;
use fw_words::{Swap, quadlet_at};

/// Quadlet 3 of a compare_swap of quadlets: eight bytes of data, and its extended_tcode.
const SWAP_SIZE: u32 = 0x0008_0002;

/// Quadlet 3 of its response: the four bytes of the old value.
const OLD_SIZE: u32 = 0x0004_0002;

/// Quadlet 3 of a write of a block of eight bytes.
const PAIR_SIZE: u32 = 0x0008_0000;

/// What a packet of a usual kind says. An offset has 48 bits, a response code 4.
#[derive(Clone, Copy)]
pub enum Glance {
    /// A request for a quadlet.
    Read {
        head: Head,
        offset: u64,
    },
    /// A response with a quadlet.
    ReadReply {
        head: Head,
        rcode: u8,
        value: u32,
    },
    /// A request for a compare_swap of a quadlet.
    Swap {
        head: Head,
        offset: u64,
        swap: Swap,
    },
    /// A response with its old value.
    SwapReply {
        head: Head,
        rcode: u8,
        old: u32,
    },
    /// A request to write a quadlet.
    Write {
        head: Head,
        offset: u64,
        value: u32,
    },
    /// A request to write a block of two quadlets, as most frames are.
    WritePair {
        head: Head,
        offset: u64,
        first: u32,
        second: u32,
    },
    /// A response to a write.
    WriteReply {
        head: Head,
        rcode: u8,
    },
    /// A cycle start, with CYCLE_TIME.
    CycleStart {
        head: Head,
        offset: u64,
        time: u32,
    },
    /// Of another packet nothing is said.
    Other,
}

/// What the packet says that these bytes are.
#[inline(always)]
pub fn glance_at(bytes: &[u8]) -> Glance
    requires { IsPacket bytes.now }
    ensures { (p : Packet) → Spells p bytes.now → IsGlance result p }
{
    match quadlet_at(bytes, 0).field(24, 27) {
        0 => write_at(bytes),
        1 if quadlet_at(bytes, 12).0 == PAIR_SIZE => pair_at(bytes),
        2 => write_reply_at(bytes),
        4 => read_at(bytes),
        6 => read_reply_at(bytes),
        8 => cycle_start_at(bytes),
        9 if quadlet_at(bytes, 12).0 == SWAP_SIZE => swap_request_at(bytes),
        11 if quadlet_at(bytes, 12).0 == OLD_SIZE => swap_reply_at(bytes),
        _ => Glance::Other,
    }
}

// What a read says.
#[inline(always)]
fn read_at(bytes: &[u8]) -> Glance
    requires packet { IsPacket bytes.now }
    requires kind { tcode_of bytes.now ≡ 4 }
    ensures { (p : Packet) → Spells p bytes.now → IsGlance result p }
{
    Glance::Read {
        head: head_at(bytes),
        offset: offset_at(bytes),
    }
}

// What the response to a read says.
#[inline(always)]
fn read_reply_at(bytes: &[u8]) -> Glance
    requires packet { IsPacket bytes.now }
    requires kind { tcode_of bytes.now ≡ 6 }
    ensures { (p : Packet) → Spells p bytes.now → IsGlance result p }
{
    Glance::ReadReply {
        head: head_at(bytes),
        rcode: rcode_at(bytes),
        value: quadlet_at(bytes, 12).0,
    }
}

// What a compare_swap of a quadlet says.
#[inline(always)]
fn swap_request_at(bytes: &[u8]) -> Glance
    requires packet { IsPacket bytes.now }
    requires kind { tcode_of bytes.now ≡ 9 }
    requires size { quadlet_at bytes.now 12 ≡ 0x00080002 }
    ensures { (p : Packet) → Spells p bytes.now → IsGlance result p }
{
    Glance::Swap {
        head: head_at(bytes),
        offset: offset_at(bytes),
        swap: swap_at(bytes),
    }
}

// What the response to one says.
#[inline(always)]
fn swap_reply_at(bytes: &[u8]) -> Glance
    requires packet { IsPacket bytes.now }
    requires kind { tcode_of bytes.now ≡ 11 }
    requires size { quadlet_at bytes.now 12 ≡ 0x00040002 }
    ensures { (p : Packet) → Spells p bytes.now → IsGlance result p }
{
    Glance::SwapReply {
        head: head_at(bytes),
        rcode: rcode_at(bytes),
        old: quadlet_at(bytes, 16).0,
    }
}

// What a write of a quadlet says.
#[inline(always)]
fn write_at(bytes: &[u8]) -> Glance
    requires packet { IsPacket bytes.now }
    requires kind { tcode_of bytes.now ≡ 0 }
    ensures { (p : Packet) → Spells p bytes.now → IsGlance result p }
{
    Glance::Write {
        head: head_at(bytes),
        offset: offset_at(bytes),
        value: quadlet_at(bytes, 12).0,
    }
}

// What a write of a block of two quadlets says.
#[inline(always)]
fn pair_at(bytes: &[u8]) -> Glance
    requires packet { IsPacket bytes.now }
    requires kind { tcode_of bytes.now ≡ 1 }
    requires size { quadlet_at bytes.now 12 ≡ 0x00080000 }
    ensures { (p : Packet) → Spells p bytes.now → IsGlance result p }
{
    let data = swap_at(bytes);
    Glance::WritePair {
        head: head_at(bytes),
        offset: offset_at(bytes),
        first: data.argument,
        second: data.new,
    }
}

// What a cycle start says.
#[inline(always)]
fn cycle_start_at(bytes: &[u8]) -> Glance
    requires packet { IsPacket bytes.now }
    requires kind { tcode_of bytes.now ≡ 8 }
    ensures { (p : Packet) → Spells p bytes.now → IsGlance result p }
{
    Glance::CycleStart {
        head: head_at(bytes),
        offset: offset_at(bytes),
        time: quadlet_at(bytes, 12).0,
    }
}

// What the response to a write says.
#[inline(always)]
fn write_reply_at(bytes: &[u8]) -> Glance
    requires packet { IsPacket bytes.now }
    requires kind { tcode_of bytes.now ≡ 2 }
    ensures { (p : Packet) → Spells p bytes.now → IsGlance result p }
{
    Glance::WriteReply {
        head: head_at(bytes),
        rcode: rcode_at(bytes),
    }
}
