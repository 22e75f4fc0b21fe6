//! Packets that are right at the first look, as nearly all are: no fault of them is looked for.

ghost use Rattle.std.specs.Prelude.{◌≡◌, ◌≤◌, ◌%◌, IsTrue, length};
ghost use Rattle.fw_async.specs.Plain.{has_zeros, is_whole_block, is_plain_form, is_plain_packet};
ghost use Rattle.fw_async.specs.Reader.{IsPacket};
ghost use Rattle.fw_async_fields.specs.Tcode.{code_of};

use crate::quadlets::{OLD_SIZE, SWAP_SIZE};
use fw_async_fields::{Tcode, tcode_at};
use fw_words::quadlet_at;

// The zeros that a response has after its rcode.
fn has_zeros(bytes: &[u8]) -> bool
    requires { 12 ≤ length bytes.now }
    ensures { result ≡ has_zeros bytes.now }
{
    quadlet_at(bytes, 4).field(20, 31) == 0 && quadlet_at(bytes, 8).0 == 0
}

// The data of a block takes all bytes after quadlet 3, and there is no padding.
fn is_whole_block(bytes: &[u8]) -> bool
    requires { 12 ≤ length bytes.now }
    ensures { result ≡ is_whole_block bytes.now }
{
    let count = bytes.len();
    16 <= count && count <= 528 && quadlet_at(bytes, 12).0 as usize == 65536 * (count - 16)
}

// The bytes have a form that most packets of their kind have.
#[inline(always)]
fn is_plain_form(tcode: Tcode, bytes: &[u8]) -> bool
    requires { 12 ≤ length bytes.now }
    ensures { result ≡ is_plain_form (code_of tcode) bytes.now }
{
    let count = bytes.len();
    match tcode {
        Tcode::ReadQuadlet => count == 12,
        Tcode::ReadQuadletReply => count == 16 && has_zeros(bytes),
        Tcode::Lock => count == 24 && quadlet_at(bytes, 12).0 == SWAP_SIZE,
        Tcode::LockReply => count == 20 && quadlet_at(bytes, 12).0 == OLD_SIZE && has_zeros(bytes),
        Tcode::WriteQuadlet | Tcode::CycleStart => count == 16,
        Tcode::WriteBlock => is_whole_block(bytes),
        Tcode::WriteReply => count == 12 && has_zeros(bytes),
        Tcode::ReadBlock | Tcode::ReadBlockReply => false,
    }
}

/// Whether the bytes are a packet of one of the usual forms. Of other bytes nothing is said: they may be no packet, or one of
/// a rare form, as a block with padding, a read of a block, or a lock but compare_swap of a quadlet.
#[inline(always)]
pub fn is_plain_packet(bytes: &[u8]) -> bool
    requires { 12 ≤ length bytes.now }
    ensures value { result ≡ is_plain_packet bytes.now }
    ensures packet { IsTrue result → length bytes.now % 4 ≡ 0 → IsPacket bytes.now }
{
    match tcode_at(bytes) {
        Some(tcode) => is_plain_form(tcode, bytes),
        None => false,
    }
}
