//! The data of a compare_swap of a quadlet, written in place.

ghost use Rattle.std.specs.Prelude.{◌≡◌, ◌≤◌, ◌+◌, ◌++◌, codes, decimal, length, take};
ghost use Rattle.fw_log_names.specs.Names.{function_name};
ghost use Rattle.fw_text.specs.Texts.{hex_bytes};
ghost use Rattle.fw_log_json_packets.specs.Values.{code, field};
ghost use Rattle.fw_log_json_packets.specs.Packets.{place_fields, rcode_fields, lock_fields};
ghost use Rattle.fw_log_json_packets.specs.Usual.{IsUsualCode};

use crate::digits::digits_of;
use crate::fields::write_rcode;
use crate::parts::place;
use crate::rows::write_row;
use fw_log_names::Pairs;

// The size and the function of the data of a compare_swap, the key of the data and a quotation mark.
#[inline(always)]
fn swap_prefix() -> [u8; 81]
    ensures { result ≡ field (codes ",\"data_length\":") (decimal 8) ++ code (codes ",\"extended_tcode\":") 2 (codes ",\"extended_tcode_name\":") (function_name 2) ++ codes ",\"data\":\"" }
{
    *b",\"data_length\":8,\"extended_tcode\":2,\"extended_tcode_name\":\"compare_swap\",\"data\":\""
}

// Those of its old value.
#[inline(always)]
fn old_prefix() -> [u8; 81]
    ensures { result ≡ field (codes ",\"data_length\":") (decimal 4) ++ code (codes ",\"extended_tcode\":") 2 (codes ",\"extended_tcode_name\":") (function_name 2) ++ codes ",\"data\":\"" }
{
    *b",\"data_length\":4,\"extended_tcode\":2,\"extended_tcode_name\":\"compare_swap\",\"data\":\""
}

// Writes the digits of a quadlet.
#[inline(always)]
fn write_four(out: &mut [u8], at: usize, pairs: &Pairs, bytes: &[u8]) -> usize
    requires four { length bytes.now ≡ 4 }
    requires room { at + 8 ≤ length out.old }
    ensures size { length out.new ≡ length out.old }
    ensures end { result ≡ at + 8 }
    ensures text { take result out.new ≡ take at out.old ++ hex_bytes bytes.now }
{
    match bytes {
        [a, b, c, d] => write_row(out, at, digits_of(pairs, [*a, *b, *c, *d])),
        _ => unreachable!(),
    }
}

// Writes the digits of two quadlets.
#[inline(always)]
pub(crate) fn write_eight(out: &mut [u8], at: usize, pairs: &Pairs, bytes: &[u8]) -> usize
    requires eight { length bytes.now ≡ 8 }
    requires room { at + 16 ≤ length out.old }
    ensures size { length out.new ≡ length out.old }
    ensures end { result ≡ at + 16 }
    ensures text { take result out.new ≡ take at out.old ++ hex_bytes bytes.now }
{
    let (first, last) = bytes.split_at(4);
    let at = write_four(out, at, pairs, first);
    write_four(out, at, pairs, last)
}

// Writes the size, the function and the data of a compare_swap of a quadlet.
#[inline(always)]
fn write_swap(out: &mut [u8], at: usize, pairs: &Pairs, bytes: &[u8]) -> usize
    requires eight { length bytes.now ≡ 8 }
    requires room { at + 98 ≤ length out.old }
    ensures size { length out.new ≡ length out.old }
    ensures end { result ≡ at + 98 }
    ensures text { take result out.new ≡ take at out.old ++ lock_fields 2 bytes.now }
{
    let at = write_row(out, at, swap_prefix());
    let at = write_eight(out, at, pairs, bytes);
    write_row(out, at, *b"\"")
}

// Writes those of its old value.
#[inline(always)]
fn write_old(out: &mut [u8], at: usize, pairs: &Pairs, bytes: &[u8]) -> usize
    requires four { length bytes.now ≡ 4 }
    requires room { at + 90 ≤ length out.old }
    ensures size { length out.new ≡ length out.old }
    ensures end { result ≡ at + 90 }
    ensures text { take result out.new ≡ take at out.old ++ lock_fields 2 bytes.now }
{
    let at = write_row(out, at, old_prefix());
    let at = write_four(out, at, pairs, bytes);
    write_row(out, at, *b"\"")
}

// Writes an offset, and the function and the data of a compare_swap of a quadlet.
#[inline(always)]
pub(crate) fn write_place_swap(
    out: &mut [u8],
    at: usize,
    pairs: &Pairs,
    offset: u64,
    bytes: &[u8],
) -> usize
    requires eight { length bytes.now ≡ 8 }
    requires room { at + 122 ≤ length out.old }
    ensures size { length out.new ≡ length out.old }
    ensures end { result ≤ at + 122 }
    ensures text { take result out.new ≡ take at out.old ++ (place_fields offset ++ lock_fields 2 bytes.now) }
{
    let at = write_row(out, at, place(pairs, offset));
    write_swap(out, at, pairs, bytes)
}

// Writes a response code, and the function and the old value of a compare_swap of a quadlet.
#[inline(always)]
pub(crate) fn write_rcode_old(
    out: &mut [u8],
    at: usize,
    pairs: &Pairs,
    rcode: u8,
    bytes: &[u8],
) -> usize
    requires code { IsUsualCode rcode }
    requires four { length bytes.now ≡ 4 }
    requires room { at + 129 ≤ length out.old }
    ensures size { length out.new ≡ length out.old }
    ensures end { result ≤ at + 129 }
    ensures text { take result out.new ≡ take at out.old ++ (rcode_fields rcode ++ lock_fields 2 bytes.now) }
{
    let at = write_rcode(out, at, rcode);
    write_old(out, at, pairs, bytes)
}
