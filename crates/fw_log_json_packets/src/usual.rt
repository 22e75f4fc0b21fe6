//! The objects of packets of the usual kinds, written in place from the bytes that the packets are.

ghost use Rattle.std.specs.Prelude.{◌≡◌, ◌≤◌, ◌+◌, ◌++◌, IfSome, None, codes, length, take};
ghost use Rattle.fw_async.specs.Reader.{Spells};
ghost use Rattle.fw_async.specs.declared.packet.Packet.{Packet};
ghost use Rattle.fw_log_json_packets.specs.Packets.{packet_fields};

use crate::requests::{write_block_request, write_read, write_swap_request, write_write};
use crate::responses::{write_read_reply, write_swap_reply, write_write_reply};
use crate::rows::{PREFIX, write_row};
use crate::standing::{block_in, rcode_in, usual_code};
use fw_log_names::Pairs;
use fw_words::quadlet_at;

/// Quadlet 3 of the request of a compare_swap of a quadlet: data_length 8, and the function.
const SWAP_SIZE: u32 = 0x8_0002;

/// That of its response: data_length 4.
const OLD_SIZE: u32 = 0x4_0002;

// Writes what three quadlets are.
#[inline(always)]
fn write_three(
    out: &mut [u8],
    at: usize,
    prefix: &[u8; PREFIX],
    size: usize,
    pairs: &Pairs,
    bytes: &[u8],
) -> Option<usize>
    requires prefix { size ≤ 64 }
    requires three { length bytes.now ≡ 12 }
    requires room { at + 1400 ≤ length out.old }
    ensures size { length out.new ≡ length out.old }
    ensures same { result ≡ None → out.new ≡ out.old }
    ensures end { IfSome result (λ e. e ≤ at + 1400) }
    ensures text { (p : Packet) → Spells p bytes.now → IfSome result (λ e. take e out.new ≡ take at out.old ++ (take size prefix.now ++ packet_fields p)) }
{
    match usual_code(bytes) {
        Some(4) => Some(write_read(out, at, prefix, size, pairs, bytes)),
        Some(2) => match rcode_in(bytes) {
            Some(rcode) => Some(write_write_reply(out, at, prefix, size, pairs, bytes, rcode)),
            None => None,
        },
        _ => None,
    }
}

// Writes what four quadlets are.
#[inline(always)]
fn write_four(
    out: &mut [u8],
    at: usize,
    prefix: &[u8; PREFIX],
    size: usize,
    pairs: &Pairs,
    bytes: &[u8],
) -> Option<usize>
    requires prefix { size ≤ 64 }
    requires four { length bytes.now ≡ 16 }
    requires room { at + 1400 ≤ length out.old }
    ensures size { length out.new ≡ length out.old }
    ensures same { result ≡ None → out.new ≡ out.old }
    ensures end { IfSome result (λ e. e ≤ at + 1400) }
    ensures text { (p : Packet) → Spells p bytes.now → IfSome result (λ e. take e out.new ≡ take at out.old ++ (take size prefix.now ++ packet_fields p)) }
{
    match usual_code(bytes) {
        Some(6) => match rcode_in(bytes) {
            Some(rcode) => Some(write_read_reply(out, at, prefix, size, pairs, bytes, rcode)),
            None => None,
        },
        Some(0) => Some(write_write(out, at, prefix, size, pairs, bytes)),
        _ => None,
    }
}

// Writes the response of a compare_swap of a quadlet that five quadlets are.
#[inline(always)]
fn write_five(
    out: &mut [u8],
    at: usize,
    prefix: &[u8; PREFIX],
    size: usize,
    pairs: &Pairs,
    bytes: &[u8],
) -> Option<usize>
    requires prefix { size ≤ 64 }
    requires five { length bytes.now ≡ 20 }
    requires room { at + 1400 ≤ length out.old }
    ensures size { length out.new ≡ length out.old }
    ensures same { result ≡ None → out.new ≡ out.old }
    ensures end { IfSome result (λ e. e ≤ at + 1400) }
    ensures text { (p : Packet) → Spells p bytes.now → IfSome result (λ e. take e out.new ≡ take at out.old ++ (take size prefix.now ++ packet_fields p)) }
{
    if quadlet_at(bytes, 12).0 != OLD_SIZE {
        return None;
    }
    match (usual_code(bytes), rcode_in(bytes)) {
        (Some(11), Some(rcode)) => Some(write_swap_reply(
            out, at, prefix, size, pairs, bytes, rcode,
        )),
        _ => None,
    }
}

// Writes a block of at most 512 bytes that is written.
#[inline(always)]
fn write_block(
    out: &mut [u8],
    at: usize,
    prefix: &[u8; PREFIX],
    size: usize,
    pairs: &Pairs,
    bytes: &[u8],
) -> Option<usize>
    requires prefix { size ≤ 64 }
    requires room { at + 1400 ≤ length out.old }
    ensures size { length out.new ≡ length out.old }
    ensures same { result ≡ None → out.new ≡ out.old }
    ensures end { IfSome result (λ e. e ≤ at + 1400) }
    ensures text { (p : Packet) → Spells p bytes.now → IfSome result (λ e. take e out.new ≡ take at out.old ++ (take size prefix.now ++ packet_fields p)) }
{
    if bytes.len() < 16 {
        return None;
    }
    match (usual_code(bytes), block_in(bytes)) {
        (Some(1), Some(block)) => Some(write_block_request(
            out, at, prefix, size, pairs, bytes, block,
        )),
        _ => None,
    }
}

// Writes the request of a compare_swap of a quadlet that six quadlets are, or the block that they write.
#[inline(always)]
fn write_six(
    out: &mut [u8],
    at: usize,
    prefix: &[u8; PREFIX],
    size: usize,
    pairs: &Pairs,
    bytes: &[u8],
) -> Option<usize>
    requires prefix { size ≤ 64 }
    requires six { length bytes.now ≡ 24 }
    requires room { at + 1400 ≤ length out.old }
    ensures size { length out.new ≡ length out.old }
    ensures same { result ≡ None → out.new ≡ out.old }
    ensures end { IfSome result (λ e. e ≤ at + 1400) }
    ensures text { (p : Packet) → Spells p bytes.now → IfSome result (λ e. take e out.new ≡ take at out.old ++ (take size prefix.now ++ packet_fields p)) }
{
    if quadlet_at(bytes, 12).0 != SWAP_SIZE {
        return write_block(out, at, prefix, size, pairs, bytes);
    }
    match usual_code(bytes) {
        Some(9) => Some(write_swap_request(out, at, prefix, size, pairs, bytes)),
        _ => None,
    }
}

// Writes the fields of a packet of a usual kind after a prefix.
#[inline(always)]
fn write_usual(
    out: &mut [u8],
    at: usize,
    prefix: &[u8; PREFIX],
    size: usize,
    pairs: &Pairs,
    bytes: &[u8],
) -> Option<usize>
    requires prefix { size ≤ 64 }
    requires room { at + 1400 ≤ length out.old }
    ensures size { length out.new ≡ length out.old }
    ensures same { result ≡ None → out.new ≡ out.old }
    ensures end { IfSome result (λ e. e ≤ at + 1400) }
    ensures text { (p : Packet) → Spells p bytes.now → IfSome result (λ e. take e out.new ≡ take at out.old ++ (take size prefix.now ++ packet_fields p)) }
{
    match bytes.len() {
        12 => write_three(out, at, prefix, size, pairs, bytes),
        16 => write_four(out, at, prefix, size, pairs, bytes),
        20 => write_five(out, at, prefix, size, pairs, bytes),
        24 => write_six(out, at, prefix, size, pairs, bytes),
        _ => write_block(out, at, prefix, size, pairs, bytes),
    }
}

/// Writes the object of a packet of a usual kind, which begins with so many bytes of a row, over the bytes from `at` on, and
/// answers where it ends; writes nothing of one of another kind.
#[inline(always)]
pub(crate) fn write_packet(
    out: &mut [u8],
    at: usize,
    prefix: &[u8; PREFIX],
    size: usize,
    pairs: &Pairs,
    bytes: &[u8],
) -> Option<usize>
    requires prefix { size ≤ 64 }
    requires room { at + 1536 ≤ length out.old }
    ensures size { length out.new ≡ length out.old }
    ensures same { result ≡ None → out.new ≡ out.old }
    ensures end { IfSome result (λ e. e ≤ at + 1536) }
    ensures text { (p : Packet) → Spells p bytes.now → IfSome result (λ e. take e out.new ≡ take at out.old ++ (take size prefix.now ++ (packet_fields p ++ codes "}\n"))) }
{
    match write_usual(out, at, prefix, size, pairs, bytes) {
        Some(end) => Some(write_row(out, end, *b"}\n")),
        None => None,
    }
}
