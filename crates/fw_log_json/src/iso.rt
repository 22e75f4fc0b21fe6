//! The fields of an isochronous packet.

ghost use Rattle.std.specs.Prelude.{◌≡◌, ◌++◌, OnOk, Some, codes, decimal};
ghost use Rattle.fw_cip.specs.Iso.{bit, data_length};
ghost use Rattle.fw_log_names.specs.Names.{format_name};
ghost use Rattle.fw_text.specs.Texts.{hex};
ghost use Rattle.fw_log_json_packets.specs.Values.{field, quoted, code, name_value};
ghost use Rattle.fw_log_json_packets.specs.Packets.{cip_fields, iso_fields};

use crate::values::{put_count, put_data, put_name, put_six};
use fw_cip::{CipHeader, IsoPacket};
use fw_log_json_packets::{block_bytes, has_usual_sizes, is_untimed_525, is_untimed_625};
use fw_log_names::{Pairs, format_name, put_word};
use std::alloc::AllocError;

// The length of a packet after its isochronous header, and its tag.
#[tactic(auto, using(fw_log_json_packets::proofs::IsoTexts::long_opening, fw_log_json_packets::proofs::IsoTexts::short_opening))]
fn opening(p: &IsoPacket) -> &'static str
    ensures { result.now ≡ field (codes ",\"data_length\":") (decimal (data_length p.now.block)) ++ field (codes ",\"tag\":") (decimal 1) }
{
    match &p.block {
        Some(_) => r#","data_length":488,"tag":1"#,
        None => r#","data_length":8,"tag":1"#,
    }
}

// Appends the transaction code of isochronous packets and its name.
#[inline(always)]
fn put_iso_code(text: &mut Vec<u8>) -> Result<(), AllocError>
    ensures { OnOk result (text.new.items ≡ text.old.items ++ code (codes ",\"tcode\":") 10 (codes ",\"tcode_name\":") (Some (codes "iso_data"))) }
{
    put_word(text, r#","tcode":10,"tcode_name":"iso_data""#)
}

// A flag as a number.
fn bit(flag: bool) -> u64
    ensures { result ≡ bit flag }
{
    if flag { 1 } else { 0 }
}

// Appends how the blocks are cut.
fn put_sizes(text: &mut Vec<u8>, c: &CipHeader) -> Result<(), AllocError>
    ensures { OnOk result (text.new.items ≡ text.old.items ++ field (codes ",\"dbs\":") (decimal c.now.dbs) ++ field (codes ",\"fn\":") (decimal c.now.fraction) ++ field (codes ",\"qpc\":") (decimal c.now.qpc) ++ field (codes ",\"sph\":") (decimal (bit c.now.sph))) }
{
    if has_usual_sizes(c) {
        return put_word(text, r#","dbs":120,"fn":0,"qpc":0,"sph":0"#);
    }
    put_count(text, r#","dbs":"#, u64::from(c.dbs))?;
    put_count(text, r#","fn":"#, u64::from(c.fraction))?;
    put_count(text, r#","qpc":"#, u64::from(c.qpc))?;
    put_count(text, r#","sph":"#, bit(c.sph))
}

// Appends the format and its name.
fn put_format(text: &mut Vec<u8>, pairs: &Pairs, c: &CipHeader) -> Result<(), AllocError>
    ensures { OnOk result (text.new.items ≡ text.old.items ++ field (codes ",\"fmt\":") (decimal c.now.fmt) ++ field (codes ",\"fdf\":") (quoted (hex 6 c.now.fdf)) ++ field (codes ",\"format_name\":") (name_value (format_name c.now))) }
{
    if is_untimed_525(c) {
        return put_word(
            text,
            r#","fmt":0,"fdf":"00ffff","format_name":"SD-DVCR 525-60""#,
        );
    }
    if is_untimed_625(c) {
        return put_word(
            text,
            r#","fmt":0,"fdf":"80ffff","format_name":"SD-DVCR 625-50""#,
        );
    }
    put_count(text, r#","fmt":"#, u64::from(c.fmt))?;
    put_six(text, pairs, r#","fdf":"#, c.fdf)?;
    put_name(text, r#","format_name":"#, format_name(c))
}

fn put_cip(text: &mut Vec<u8>, pairs: &Pairs, c: &CipHeader) -> Result<(), AllocError>
    ensures { OnOk result (text.new.items ≡ text.old.items ++ cip_fields c.now) }
{
    put_count(text, r#","sid":"#, u64::from(c.sid))?;
    put_sizes(text, c)?;
    put_count(text, r#","dbc":"#, u64::from(c.dbc))?;
    put_format(text, pairs, c)
}

// Appends the fields of an isochronous packet.
pub(crate) fn put_iso(text: &mut Vec<u8>, pairs: &Pairs, p: &IsoPacket) -> Result<(), AllocError>
    ensures { OnOk result (text.new.items ≡ text.old.items ++ iso_fields p.now) }
{
    put_word(text, opening(p))?;
    put_count(text, r#","channel":"#, u64::from(p.channel))?;
    put_iso_code(text)?;
    put_count(text, r#","sy":"#, u64::from(p.sy))?;
    put_cip(text, pairs, &p.cip)?;
    put_data(text, pairs, r#","data":"#, block_bytes(p))
}
