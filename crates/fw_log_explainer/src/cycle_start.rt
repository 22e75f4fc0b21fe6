//! The lines of cycle starts, written in place: no two say the same.

ghost use Rattle.std.specs.Prelude.{◌≡◌, ◌≤◌, ◌<◌, ◌+◌, ◌++◌, codes, decimal, length, take};
ghost use Rattle.fw_text.specs.Texts.{hex};
ghost use Rattle.fw_log_explainer.specs.Lines.{start_line, time_text};

use crate::write::{write_cycle, write_part, write_row};
use fw_log_names::Pairs;
use fw_words::Quadlet;

/// In how many bytes the line of a cycle start is written.
pub(crate) const START: usize = 192;

// Writes a number in decimal digits, at most four.
#[inline(always)]
#[tactic(auto, using(std::proofs::lemmas::Fmt::decimal_digit, fw_text::proofs::DecimalLaws::two_digits, crate::proofs::Digits::three_digits, crate::proofs::Digits::four_digits))]
fn write_long(out: &mut [u8], at: usize, n: u32) -> usize
    requires number { n < 10000 }
    requires room { at + 4 ≤ length out.old }
    ensures size { length out.new ≡ length out.old }
    ensures end { result ≤ at + 4 }
    ensures text { take result out.new ≡ take at out.old ++ decimal n }
{
    let last = b'0' + (n % 10) as u8;
    if n < 10 {
        return write_row(out, at, [b'0' + n as u8]);
    }
    if n < 100 {
        return write_row(out, at, [b'0' + (n / 10) as u8, last]);
    }
    let tens = b'0' + (n / 10 % 10) as u8;
    if n < 1000 {
        return write_row(out, at, [b'0' + (n / 100) as u8, tens, last]);
    }
    let hundreds = b'0' + (n / 100 % 10) as u8;
    write_row(out, at, [b'0' + (n / 1000) as u8, hundreds, tens, last])
}

// Writes words, and a number of at most four digits.
#[inline(always)]
fn write_field<const N: usize>(out: &mut [u8], at: usize, words: [u8; N], n: u32) -> usize
    requires number { n < 10000 }
    requires room { at + N + 4 ≤ length out.old }
    ensures size { length out.new ≡ length out.old }
    ensures end { result ≤ at + N + 4 }
    ensures text { take result out.new ≡ take at out.old ++ (words.entry ++ decimal n) }
{
    let at = write_row(out, at, words);
    write_long(out, at, n)
}

// Writes what CYCLE_TIME says.
#[inline(always)]
fn write_time(out: &mut [u8], at: usize, pairs: &Pairs, time: u32) -> usize
    requires { at + 91 ≤ length out.old }
    ensures size { length out.new ≡ length out.old }
    ensures end { result ≤ at + 91 }
    ensures text { take result out.new ≡ take at out.old ++ time_text time }
{
    let at = write_row(out, at, *b" cycle_start CYCLE_TIME ");
    let at = write_row(out, at, pairs.eight(time));
    let time = Quadlet(time);
    let at = write_field(out, at, *b", second_count ", time.field(0, 6));
    let at = write_field(out, at, *b", cycle_count ", time.field(7, 19));
    write_field(out, at, *b", cycle_offset ", time.field(20, 31))
}

/// Writes the line of a cycle start that a node of the local bus sends to all, and answers where it ends; its cycle has so many bytes of
/// a row.
pub(crate) fn write_start(
    out: &mut [u8; START],
    row: &[u8; 24],
    size: usize,
    pairs: &Pairs,
    source: u8,
    label: u8,
    time: u32,
) -> usize
    requires { size ≤ 24 }
    ensures end { result ≤ 192 }
    ensures text { take result out.new ≡ take size row.now ++ start_line source label time }
{
    let at = write_cycle(out, row, size);
    let at = write_part(out, at, *b"node ", source);
    let at = write_part(out, at, *b" to broadcast label ", label);
    let at = write_time(out, at, pairs, time);
    write_row(out, at, *b"\n")
}
