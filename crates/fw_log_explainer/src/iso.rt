//! The lines of isochronous packets of SD-DVCR, written in place.

ghost use Rattle.std.specs.Prelude.{◌≡◌, ◌≤◌, ◌+◌, ◌++◌, ◌%◌, ◌^◌, IfSome, codes, length, take};
ghost use Rattle.std.specs.Option.{is_some};
ghost use Rattle.fw_log_names.specs.Names.{format_name};
ghost use Rattle.fw_text.specs.Texts.{hex};
ghost use Rattle.fw_log_explain.specs.Lines.{block_word, format_text, iso_text, stream_text};

use crate::write::{write_cycle, write_part, write_row};
use fw_cip::{Block, CipHeader, IsoPacket};
use fw_log_names::Pairs;

/// In how many bytes the line of an isochronous packet is written: the cycle has at most 24, and the rest 72.
pub(crate) const ISO: usize = 96;

// The name of a packet's format, if it has one, and what stands before its time stamp.
#[inline(always)]
#[tactic(auto, unfolding(fw_log_explain::specs::Lines::format_text))]
fn format_of(cip: &CipHeader) -> Option<[u8; 20]>
    ensures { IfSome result (λ words. words ++ hex 4 (cip.now.fdf % 2 ^ 16) ≡ codes " " ++ format_text (format_name cip.now) cip.now) }
{
    if cip.fmt != 0 {
        return None;
    }
    match cip.fdf / 0x1_0000 {
        0x00 => Some(*b" SD-DVCR 525-60 SYT "),
        0x80 => Some(*b" SD-DVCR 625-50 SYT "),
        _ => None,
    }
}

// Writes the stream that a packet is of.
#[inline(always)]
fn write_stream(out: &mut [u8], at: usize, p: &IsoPacket) -> usize
    requires { at + 41 ≤ length out.old }
    ensures size { length out.new ≡ length out.old }
    ensures end { result ≤ at + 41 }
    ensures text { take result out.new ≡ take at out.old ++ stream_text p.now }
{
    let at = write_part(out, at, *b"isochronous channel ", p.channel);
    let at = write_part(out, at, *b" SID ", p.cip.sid);
    write_part(out, at, *b" DBC ", p.cip.dbc)
}

// Writes the format of a packet and its time stamp, by what stands before this.
#[inline(always)]
fn write_format(out: &mut [u8], at: usize, pairs: &Pairs, words: [u8; 20], cip: &CipHeader) -> usize
    requires { at + 24 ≤ length out.old }
    ensures size { length out.new ≡ length out.old }
    ensures end { result ≡ at + 24 }
    ensures text { take result out.new ≡ take at out.old ++ (words ++ hex 4 (cip.now.fdf % 2 ^ 16)) }
{
    let at = write_row(out, at, words);
    write_row(out, at, pairs.four((cip.fdf % 0x1_0000) as u16))
}

// Writes whether a packet has a block, and a line feed.
#[inline(always)]
#[tactic(auto, unfolding(fw_log_explain::specs::Lines::block_word))]
fn write_presence(out: &mut [u8], at: usize, has: bool) -> usize
    requires { at + 7 ≤ length out.old }
    ensures size { length out.new ≡ length out.old }
    ensures end { result ≡ at + 7 }
    ensures text { take result out.new ≡ take at out.old ++ (block_word has ++ codes "\n") }
{
    if has {
        return write_row(out, at, *b" block\n");
    }
    write_row(out, at, *b" empty\n")
}

/// The same packet.
#[inline(always)]
pub(crate) fn same_packet<'a>(p: &IsoPacket<'a>) -> IsoPacket<'a>
    ensures { result ≡ p.now }
{
    let block = match &p.block {
        Some(block) => Some(Block::new(block.as_slice())),
        None => None,
    };
    IsoPacket {
        channel: p.channel,
        sy: p.sy,
        cip: p.cip,
        block,
    }
}

/// Writes the line of an isochronous packet whose format has a name, and answers where it ends; its cycle has so many bytes of a row.
#[inline(always)]
pub(crate) fn write_iso(
    out: &mut [u8; ISO],
    row: &[u8; 24],
    size: usize,
    pairs: &Pairs,
    p: &IsoPacket,
) -> Option<usize>
    requires { size ≤ 24 }
    ensures { IfSome result (λ end. (end ≤ 96) × (take end out.new ≡ take size row.now ++ (iso_text p.now ++ codes "\n"))) }
{
    let words = format_of(&p.cip)?;
    let at = write_cycle(out, row, size);
    let at = write_stream(out, at, p);
    let at = write_format(out, at, pairs, words, &p.cip);
    Some(write_presence(out, at, p.block.is_some()))
}
