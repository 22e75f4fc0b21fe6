//! The fields of requests of the usual kinds, written in place.

ghost use Rattle.std.specs.Prelude.{◌≡◌, ◌≤◌, ◌+◌, ◌++◌, length, take};
ghost use Rattle.fw_words.specs.Quadlet.{quadlet_at};
ghost use Rattle.fw_async.specs.Reader.{Spells};
ghost use Rattle.fw_async_fields.specs.Reading.{tcode_of};
ghost use Rattle.fw_async.specs.declared.packet.Packet.{Packet};
ghost use Rattle.fw_log_json_packets.specs.Packets.{packet_fields};
ghost use Rattle.fw_log_json_packets.specs.Standing.{block_standing, head_standing};
ghost use Rattle.fw_log_json_packets.specs.Usual.{IsUsualHead};

use crate::blocks::write_place_block;
use crate::fields::{write_opening, write_place_quadlet};
use crate::kinds;
use crate::parts::place;
use crate::rows::{PREFIX, write_row};
use crate::standing::offset_in;
use crate::swaps::write_place_swap;
use fw_log_names::Pairs;
use fw_words::quadlet_at;

// Writes a read request of a quadlet.
#[inline(always)]
pub(crate) fn write_read(
    out: &mut [u8],
    at: usize,
    prefix: &[u8; PREFIX],
    size: usize,
    pairs: &Pairs,
    bytes: &[u8],
) -> usize
    requires prefix { size ≤ 64 }
    requires three { length bytes.now ≡ 12 }
    requires usual { IsUsualHead (head_standing bytes.now) }
    requires code { tcode_of bytes.now ≡ 4 }
    requires room { at + 1400 ≤ length out.old }
    ensures size { length out.new ≡ length out.old }
    ensures end { result ≤ at + 1400 }
    ensures text { (p : Packet) → Spells p bytes.now → take result out.new ≡ take at out.old ++ (take size prefix.now ++ packet_fields p) }
{
    let at = write_opening(out, at, prefix, size, kinds::read_quadlet(), pairs, bytes);
    write_row(out, at, place(pairs, offset_in(bytes)))
}

// Writes a write request of a quadlet.
#[inline(always)]
pub(crate) fn write_write(
    out: &mut [u8],
    at: usize,
    prefix: &[u8; PREFIX],
    size: usize,
    pairs: &Pairs,
    bytes: &[u8],
) -> usize
    requires prefix { size ≤ 64 }
    requires four { length bytes.now ≡ 16 }
    requires usual { IsUsualHead (head_standing bytes.now) }
    requires code { tcode_of bytes.now ≡ 0 }
    requires room { at + 1400 ≤ length out.old }
    ensures size { length out.new ≡ length out.old }
    ensures end { result ≤ at + 1400 }
    ensures text { (p : Packet) → Spells p bytes.now → take result out.new ≡ take at out.old ++ (take size prefix.now ++ packet_fields p) }
{
    let at = write_opening(out, at, prefix, size, kinds::write_quadlet(), pairs, bytes);
    write_place_quadlet(out, at, pairs, offset_in(bytes), quadlet_at(bytes, 12).0)
}

// Writes a write request of this block.
#[inline(always)]
pub(crate) fn write_block_request(
    out: &mut [u8],
    at: usize,
    prefix: &[u8; PREFIX],
    size: usize,
    pairs: &Pairs,
    bytes: &[u8],
    block: &[u8],
) -> usize
    requires prefix { size ≤ 64 }
    requires four { 16 ≤ length bytes.now }
    requires few { length block.now ≤ 512 }
    requires usual { IsUsualHead (head_standing bytes.now) }
    requires code { tcode_of bytes.now ≡ 1 }
    requires block { block.now ≡ block_standing bytes.now }
    requires room { at + 1400 ≤ length out.old }
    ensures size { length out.new ≡ length out.old }
    ensures end { result ≤ at + 1400 }
    ensures text { (p : Packet) → Spells p bytes.now → take result out.new ≡ take at out.old ++ (take size prefix.now ++ packet_fields p) }
{
    let at = write_opening(out, at, prefix, size, kinds::write_block(), pairs, bytes);
    write_place_block(out, at, pairs, offset_in(bytes), block)
}

// Writes the request of a compare_swap of a quadlet.
#[inline(always)]
pub(crate) fn write_swap_request(
    out: &mut [u8],
    at: usize,
    prefix: &[u8; PREFIX],
    size: usize,
    pairs: &Pairs,
    bytes: &[u8],
) -> usize
    requires prefix { size ≤ 64 }
    requires six { length bytes.now ≡ 24 }
    requires usual { IsUsualHead (head_standing bytes.now) }
    requires code { tcode_of bytes.now ≡ 9 }
    requires swap { quadlet_at bytes.now 12 ≡ 524290 }
    requires room { at + 1400 ≤ length out.old }
    ensures size { length out.new ≡ length out.old }
    ensures end { result ≤ at + 1400 }
    ensures text { (p : Packet) → Spells p bytes.now → take result out.new ≡ take at out.old ++ (take size prefix.now ++ packet_fields p) }
{
    let at = write_opening(out, at, prefix, size, kinds::lock(), pairs, bytes);
    write_place_swap(out, at, pairs, offset_in(bytes), &bytes[16..24])
}
