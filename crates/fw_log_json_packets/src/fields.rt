//! The head of a usual packet, where it goes or how it ends, and a quadlet, written in place.

ghost use Rattle.std.specs.Prelude.{◌≡◌, ◌≤◌, ◌<◌, ◌+◌, ◌++◌, decimal, length, take};
ghost use Rattle.fw_log_json_packets.specs.Values.{field};
ghost use Rattle.fw_log_json_packets.specs.Packets.{head_fields, place_fields, rcode_fields, quadlet_field};
ghost use Rattle.fw_log_json_packets.specs.Standing.{head_standing};
ghost use Rattle.fw_log_json_packets.specs.Usual.{IsUsualCode, IsUsualHead};

use crate::parts::{addressee, place, quadlet, usual_sender};
use crate::rows::{PREFIX, write_prefix, write_row};
use crate::standing::head_in;
use fw_async::Head;
use fw_log_names::Pairs;

/// The response code of a transaction that is complete (IEEE 1394-1995, response codes).
pub(crate) const COMPLETE: u8 = 0;

/// That of a request to an address where nothing is.
pub(crate) const ADDRESS_ERROR: u8 = 7;

// Writes a number of one byte.
#[inline(always)]
#[tactic(auto, using(std::proofs::lemmas::Fmt::decimal_digit, fw_text::proofs::DecimalLaws::two_digits, crate::proofs::IsoTexts::three_digits))]
pub(crate) fn write_number(out: &mut [u8], at: usize, n: u8) -> usize
    requires { at + 3 ≤ length out.old }
    ensures size { length out.new ≡ length out.old }
    ensures end { result ≤ at + 3 }
    ensures text { take result out.new ≡ take at out.old ++ decimal n }
{
    if n < 10 {
        return write_row(out, at, [b'0' + n]);
    }
    if n < 100 {
        return write_row(out, at, [b'0' + n / 10, b'0' + n % 10]);
    }
    write_row(out, at, [b'0' + n / 100, b'0' + n / 10 % 10, b'0' + n % 10])
}

// Writes a number under its key.
#[inline(always)]
#[tactic(auto, unfolding(crate::specs::Values::field))]
pub(crate) fn write_count<const N: usize>(out: &mut [u8], at: usize, key: [u8; N], n: u8) -> usize
    requires { at + N + 3 ≤ length out.old }
    ensures size { length out.new ≡ length out.old }
    ensures end { result ≤ at + N + 3 }
    ensures text { take result out.new ≡ take at out.old ++ field key.entry (decimal n) }
{
    let at = write_row(out, at, key);
    write_number(out, at, n)
}

// Writes the fields of a head.
#[inline(always)]
pub(crate) fn write_head(out: &mut [u8], at: usize, pairs: &Pairs, h: &Head) -> usize
    requires usual { IsUsualHead h.now }
    requires room { at + 91 ≤ length out.old }
    ensures size { length out.new ≡ length out.old }
    ensures end { result ≤ at + 91 }
    ensures text { take result out.new ≡ take at out.old ++ head_fields h.now }
{
    let at = write_row(out, at, addressee(pairs, h.destination));
    let at = write_number(out, at, h.tl);
    write_row(out, at, usual_sender(pairs, h.source))
}

// Writes a prefix, a transaction code with its name, and the head that stands in the bytes of a packet.
#[inline(always)]
pub(crate) fn write_opening<const N: usize>(
    out: &mut [u8],
    at: usize,
    prefix: &[u8; PREFIX],
    size: usize,
    code: [u8; N],
    pairs: &Pairs,
    bytes: &[u8],
) -> usize
    requires prefix { size ≤ 64 }
    requires head { 8 ≤ length bytes.now }
    requires usual { IsUsualHead (head_standing bytes.now) }
    requires room { at + N + 155 ≤ length out.old }
    ensures size { length out.new ≡ length out.old }
    ensures end { result ≤ at + N + 155 }
    ensures text { take result out.new ≡ take at out.old ++ (take size prefix.now ++ (code.entry ++ head_fields (head_standing bytes.now))) }
{
    let at = write_prefix(out, at, prefix, size);
    let at = write_row(out, at, code);
    write_head(out, at, pairs, &head_in(bytes))
}

// The response code of a transaction that is complete, and its name.
#[inline(always)]
fn complete() -> [u8; 34]
    ensures { result ≡ rcode_fields 0 }
{
    *b",\"rcode\":0,\"rcode_name\":\"complete\""
}

// That of a request to an address where nothing is, and its name.
#[inline(always)]
fn address_error() -> [u8; 39]
    ensures { result ≡ rcode_fields 7 }
{
    *b",\"rcode\":7,\"rcode_name\":\"address_error\""
}

// Writes a response code and its name.
#[inline(always)]
pub(crate) fn write_rcode(out: &mut [u8], at: usize, rcode: u8) -> usize
    requires code { IsUsualCode rcode }
    requires room { at + 39 ≤ length out.old }
    ensures size { length out.new ≡ length out.old }
    ensures end { result ≤ at + 39 }
    ensures text { take result out.new ≡ take at out.old ++ rcode_fields rcode }
{
    if rcode == COMPLETE {
        return write_row(out, at, complete());
    }
    write_row(out, at, address_error())
}

// Writes a response code and a quadlet.
#[inline(always)]
pub(crate) fn write_rcode_quadlet(
    out: &mut [u8],
    at: usize,
    pairs: &Pairs,
    rcode: u8,
    value: u32,
) -> usize
    requires code { IsUsualCode rcode }
    requires room { at + 57 ≤ length out.old }
    ensures size { length out.new ≡ length out.old }
    ensures end { result ≤ at + 57 }
    ensures text { take result out.new ≡ take at out.old ++ (rcode_fields rcode ++ quadlet_field value) }
{
    let at = write_rcode(out, at, rcode);
    write_row(out, at, quadlet(pairs, value))
}

// Writes an offset and a quadlet.
#[inline(always)]
pub(crate) fn write_place_quadlet(
    out: &mut [u8],
    at: usize,
    pairs: &Pairs,
    offset: u64,
    value: u32,
) -> usize
    requires { at + 42 ≤ length out.old }
    ensures size { length out.new ≡ length out.old }
    ensures end { result ≤ at + 42 }
    ensures text { take result out.new ≡ take at out.old ++ (place_fields offset ++ quadlet_field value) }
{
    let at = write_row(out, at, place(pairs, offset));
    write_row(out, at, quadlet(pairs, value))
}
