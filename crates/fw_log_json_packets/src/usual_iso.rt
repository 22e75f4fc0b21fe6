//! The objects of isochronous packets of SD-DVCR, written in place.

ghost use Rattle.std.specs.Prelude.{◌≡◌, ◌≤◌, ◌+◌, ◌++◌, IsTrue, Some, false, codes, decimal, length, take};
ghost use Rattle.fw_cip.specs.Iso.{bit, block_bytes, data_length};
ghost use Rattle.fw_log_names.specs.Names.{format_name};
ghost use Rattle.fw_text.specs.Texts.{hex};
ghost use Rattle.fw_log_json_packets.specs.Values.{code, field, name_value, quoted};
ghost use Rattle.fw_log_json_packets.specs.Packets.{cip_fields, iso_fields};
ghost use Rattle.fw_log_json_packets.specs.Usual.{IsUsualCip, IsUsualIso};

use crate::blocks::write_data;
use crate::cip::{LINES_525_UNTIMED, block_bytes, has_usual_sizes, is_untimed_525, is_untimed_625};
use crate::digits::LONGEST;
use crate::fields::write_count;
use crate::rows::{PREFIX, write_prefix, write_row};
use fw_cip::{CipHeader, IsoPacket};

// Whether the blocks are those of SD-DVCR, without a time stamp.
#[inline(always)]
fn is_usual_cip(c: &CipHeader) -> bool
    ensures { IsTrue result → IsUsualCip c.now }
{
    has_usual_sizes(c) && (is_untimed_525(c) || is_untimed_625(c))
}

/// Whether an isochronous packet has blocks of SD-DVCR, without a time stamp.
#[inline(always)]
pub fn is_usual_iso(p: &IsoPacket) -> bool
    ensures { IsTrue result → IsUsualIso p.now }
{
    is_usual_cip(&p.cip) && block_bytes(p).len() <= LONGEST
}

// Writes the length of a packet after its isochronous header, and its tag.
#[inline(always)]
#[tactic(auto, using(crate::proofs::IsoTexts::long_opening, crate::proofs::IsoTexts::short_opening))]
fn write_opening(out: &mut [u8], at: usize, p: &IsoPacket) -> usize
    requires { at + 26 ≤ length out.old }
    ensures size { length out.new ≡ length out.old }
    ensures end { result ≤ at + 26 }
    ensures text { take result out.new ≡ take at out.old ++ (field (codes ",\"data_length\":") (decimal (data_length p.now.block)) ++ field (codes ",\"tag\":") (decimal 1)) }
{
    match &p.block {
        Some(_) => write_row(out, at, *b",\"data_length\":488,\"tag\":1"),
        None => write_row(out, at, *b",\"data_length\":8,\"tag\":1"),
    }
}

// The transaction code of isochronous packets, and its name.
#[inline(always)]
fn iso_code() -> [u8; 35]
    ensures { result ≡ code (codes ",\"tcode\":") 10 (codes ",\"tcode_name\":") (Some (codes "iso_data")) }
{
    *b",\"tcode\":10,\"tcode_name\":\"iso_data\""
}

// How the blocks of SD-DVCR are cut.
#[inline(always)]
fn sizes() -> [u8; 33]
    ensures { result ≡ field (codes ",\"dbs\":") (decimal 120) ++ field (codes ",\"fn\":") (decimal 0) ++ field (codes ",\"qpc\":") (decimal 0) ++ field (codes ",\"sph\":") (decimal (bit false)) }
{
    *b",\"dbs\":120,\"fn\":0,\"qpc\":0,\"sph\":0"
}

// Writes the format and its name.
#[inline(always)]
fn write_format(out: &mut [u8], at: usize, c: &CipHeader) -> usize
    requires usual { IsUsualCip c.now }
    requires room { at + 56 ≤ length out.old }
    ensures size { length out.new ≡ length out.old }
    ensures end { result ≤ at + 56 }
    ensures text { take result out.new ≡ take at out.old ++ (field (codes ",\"fmt\":") (decimal c.now.fmt) ++ field (codes ",\"fdf\":") (quoted (hex 6 c.now.fdf)) ++ field (codes ",\"format_name\":") (name_value (format_name c.now))) }
{
    if c.fdf == LINES_525_UNTIMED {
        return write_row(
            out,
            at,
            *b",\"fmt\":0,\"fdf\":\"00ffff\",\"format_name\":\"SD-DVCR 525-60\"",
        );
    }
    write_row(
        out,
        at,
        *b",\"fmt\":0,\"fdf\":\"80ffff\",\"format_name\":\"SD-DVCR 625-50\"",
    )
}

// Writes the fields of a CIP header.
#[inline(always)]
fn write_cip(out: &mut [u8], at: usize, c: &CipHeader) -> usize
    requires usual { IsUsualCip c.now }
    requires room { at + 110 ≤ length out.old }
    ensures size { length out.new ≡ length out.old }
    ensures end { result ≤ at + 110 }
    ensures text { take result out.new ≡ take at out.old ++ cip_fields c.now }
{
    let at = write_count(out, at, *b",\"sid\":", c.sid);
    let at = write_row(out, at, sizes());
    let at = write_count(out, at, *b",\"dbc\":", c.dbc);
    write_format(out, at, c)
}

// Writes the fields of an isochronous packet.
#[inline(always)]
fn write_fields(out: &mut [u8], at: usize, p: &IsoPacket) -> usize
    requires usual { IsUsualIso p.now }
    requires room { at + 1240 ≤ length out.old }
    ensures size { length out.new ≡ length out.old }
    ensures end { result ≤ at + 1240 }
    ensures text { take result out.new ≡ take at out.old ++ iso_fields p.now }
{
    let at = write_opening(out, at, p);
    let at = write_count(out, at, *b",\"channel\":", p.channel);
    let at = write_row(out, at, iso_code());
    let at = write_count(out, at, *b",\"sy\":", p.sy);
    let at = write_cip(out, at, &p.cip);
    write_data(out, at, block_bytes(p))
}

/// Writes the object of a usual isochronous packet, which begins with so many bytes of a row, over the bytes from `at` on, and
/// answers where it ends.
pub(crate) fn write_iso(
    out: &mut [u8],
    at: usize,
    prefix: &[u8; PREFIX],
    size: usize,
    p: &IsoPacket,
) -> usize
    requires prefix { size ≤ 64 }
    requires usual { IsUsualIso p.now }
    requires room { at + 1536 ≤ length out.old }
    ensures size { length out.new ≡ length out.old }
    ensures end { result ≤ at + 1536 }
    ensures text { take result out.new ≡ take at out.old ++ (take size prefix.now ++ (iso_fields p.now ++ codes "}\n")) }
{
    let at = write_prefix(out, at, prefix, size);
    let at = write_fields(out, at, p);
    write_row(out, at, *b"}\n")
}
