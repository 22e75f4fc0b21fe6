//! Blocks of data, written in place.

ghost use Rattle.std.specs.Prelude.{◌≡◌, ◌≤◌, ◌<◌, ◌+◌, ◌++◌, codes, decimal, length, take};
ghost use Rattle.fw_text.specs.Texts.{hex_bytes};
ghost use Rattle.fw_log_json_packets.specs.Values.{field, quoted};
ghost use Rattle.fw_log_json_packets.specs.Packets.{block_fields, place_fields};

use crate::digits::write_digits;
use crate::fields::write_number;
use crate::parts::place;
use crate::rows::write_row;
use crate::swaps::write_eight;
use fw_log_names::Pairs;

// Writes the bytes of a block.
#[inline(always)]
pub(crate) fn write_data(out: &mut [u8], at: usize, bytes: &[u8]) -> usize
    requires few { length bytes.now ≤ 512 }
    requires room { at + 1034 ≤ length out.old }
    ensures size { length out.new ≡ length out.old }
    ensures end { result ≤ at + 1034 }
    ensures text { take result out.new ≡ take at out.old ++ field (codes ",\"data\":") (quoted (hex_bytes bytes.now)) }
{
    let at = write_row(out, at, *b",\"data\":\"");
    let at = write_digits(out, at, bytes);
    write_row(out, at, *b"\"")
}

// The same with less work for a block of eight bytes, as most are that are written.
#[inline(always)]
fn write_few(out: &mut [u8], at: usize, pairs: &Pairs, bytes: &[u8]) -> usize
    requires few { length bytes.now ≤ 512 }
    requires room { at + 1034 ≤ length out.old }
    ensures size { length out.new ≡ length out.old }
    ensures end { result ≤ at + 1034 }
    ensures text { take result out.new ≡ take at out.old ++ field (codes ",\"data\":") (quoted (hex_bytes bytes.now)) }
{
    if bytes.len() != 8 {
        return write_data(out, at, bytes);
    }
    let at = write_row(out, at, *b",\"data\":\"");
    let at = write_eight(out, at, pairs, bytes);
    write_row(out, at, *b"\"")
}

// Writes how many bytes a block has, under its key.
#[inline(always)]
#[tactic(auto, unfolding(crate::specs::Values::field), using(crate::proofs::IsoTexts::three_digits))]
fn write_length(out: &mut [u8], at: usize, n: usize) -> usize
    requires few { n < 1000 }
    requires room { at + 18 ≤ length out.old }
    ensures size { length out.new ≡ length out.old }
    ensures end { result ≤ at + 18 }
    ensures text { take result out.new ≡ take at out.old ++ field (codes ",\"data_length\":") (decimal n) }
{
    let at = write_row(out, at, *b",\"data_length\":");
    if n < 100 {
        return write_number(out, at, n as u8);
    }
    write_row(
        out,
        at,
        [
            b'0' + (n / 100) as u8,
            b'0' + (n / 10 % 10) as u8,
            b'0' + (n % 10) as u8,
        ],
    )
}

// Writes an offset, and a block of at most 512 bytes.
pub(crate) fn write_place_block(
    out: &mut [u8],
    at: usize,
    pairs: &Pairs,
    offset: u64,
    bytes: &[u8],
) -> usize
    requires few { length bytes.now ≤ 512 }
    requires room { at + 1100 ≤ length out.old }
    ensures size { length out.new ≡ length out.old }
    ensures end { result ≤ at + 1100 }
    ensures text { take result out.new ≡ take at out.old ++ (place_fields offset ++ block_fields bytes.now) }
{
    let at = write_row(out, at, place(pairs, offset));
    let at = write_length(out, at, bytes.len());
    write_few(out, at, pairs, bytes)
}
