//! The fields of responses of the usual kinds, written in place.

ghost use Rattle.std.specs.Prelude.{◌≡◌, ◌≤◌, ◌+◌, ◌++◌, length, take};
ghost use Rattle.fw_words.specs.Quadlet.{quadlet_at};
ghost use Rattle.fw_async.specs.Reader.{Spells};
ghost use Rattle.fw_async_fields.specs.Reading.{tcode_of};
ghost use Rattle.fw_async.specs.declared.packet.Packet.{Packet};
ghost use Rattle.fw_log_json_packets.specs.Packets.{packet_fields};
ghost use Rattle.fw_log_json_packets.specs.Standing.{head_standing, rcode_standing};
ghost use Rattle.fw_log_json_packets.specs.Usual.{IsUsualCode, IsUsualHead};

use crate::fields::{write_opening, write_rcode, write_rcode_quadlet};
use crate::kinds;
use crate::rows::PREFIX;
use crate::swaps::write_rcode_old;
use fw_log_names::Pairs;
use fw_words::quadlet_at;

// Writes a write response.
#[inline(always)]
pub(crate) fn write_write_reply(
    out: &mut [u8],
    at: usize,
    prefix: &[u8; PREFIX],
    size: usize,
    pairs: &Pairs,
    bytes: &[u8],
    rcode: u8,
) -> usize
    requires prefix { size ≤ 64 }
    requires three { length bytes.now ≡ 12 }
    requires usual { IsUsualHead (head_standing bytes.now) }
    requires known { IsUsualCode rcode }
    requires code { tcode_of bytes.now ≡ 2 }
    requires rcode { rcode ≡ rcode_standing bytes.now }
    requires room { at + 1400 ≤ length out.old }
    ensures size { length out.new ≡ length out.old }
    ensures end { result ≤ at + 1400 }
    ensures text { (p : Packet) → Spells p bytes.now → take result out.new ≡ take at out.old ++ (take size prefix.now ++ packet_fields p) }
{
    let at = write_opening(out, at, prefix, size, kinds::write_reply(), pairs, bytes);
    write_rcode(out, at, rcode)
}

// Writes a read response of a quadlet.
#[inline(always)]
pub(crate) fn write_read_reply(
    out: &mut [u8],
    at: usize,
    prefix: &[u8; PREFIX],
    size: usize,
    pairs: &Pairs,
    bytes: &[u8],
    rcode: u8,
) -> usize
    requires prefix { size ≤ 64 }
    requires four { length bytes.now ≡ 16 }
    requires usual { IsUsualHead (head_standing bytes.now) }
    requires known { IsUsualCode rcode }
    requires code { tcode_of bytes.now ≡ 6 }
    requires rcode { rcode ≡ rcode_standing bytes.now }
    requires room { at + 1400 ≤ length out.old }
    ensures size { length out.new ≡ length out.old }
    ensures end { result ≤ at + 1400 }
    ensures text { (p : Packet) → Spells p bytes.now → take result out.new ≡ take at out.old ++ (take size prefix.now ++ packet_fields p) }
{
    let at = write_opening(out, at, prefix, size, kinds::read_reply(), pairs, bytes);
    write_rcode_quadlet(out, at, pairs, rcode, quadlet_at(bytes, 12).0)
}

// Writes the response of a compare_swap of a quadlet.
#[inline(always)]
pub(crate) fn write_swap_reply(
    out: &mut [u8],
    at: usize,
    prefix: &[u8; PREFIX],
    size: usize,
    pairs: &Pairs,
    bytes: &[u8],
    rcode: u8,
) -> usize
    requires prefix { size ≤ 64 }
    requires five { length bytes.now ≡ 20 }
    requires usual { IsUsualHead (head_standing bytes.now) }
    requires known { IsUsualCode rcode }
    requires code { tcode_of bytes.now ≡ 11 }
    requires swap { quadlet_at bytes.now 12 ≡ 262146 }
    requires rcode { rcode ≡ rcode_standing bytes.now }
    requires room { at + 1400 ≤ length out.old }
    ensures size { length out.new ≡ length out.old }
    ensures end { result ≤ at + 1400 }
    ensures text { (p : Packet) → Spells p bytes.now → take result out.new ≡ take at out.old ++ (take size prefix.now ++ packet_fields p) }
{
    let at = write_opening(out, at, prefix, size, kinds::lock_reply(), pairs, bytes);
    write_rcode_old(out, at, pairs, rcode, &bytes[16..20])
}
