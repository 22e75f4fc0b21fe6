//! Rows and words that are written over the bytes of a room.

ghost use Rattle.std.specs.Prelude.{◌≡◌, ◌≤◌, ◌+◌, ◌*◌, ◌/◌, ◌++◌, List, flat_map, length, take};
ghost use Rattle.fw_phy.specs.Phy.{spelling};
ghost use Rattle.fw_phy.specs.declared.packet.PhyPacket.{PhyPacket};
ghost use Rattle.fw_log_text.specs.Line.{id_text, quadlet_text, quadlets_text};
ghost use Rattle.std.specs.Int.{from_be_bytes, w32};

use crate::numbers::FEW;
use crate::quadlets::word_of;
use fw_log_names::{CycleRow, Pairs};
use fw_words::quadlet_at;
use std::marker::Model;

/// How many bytes a row has.
pub(crate) const ROW: usize = 24;

/// How many bytes a quadlet has as text: a space, and eight digits.
pub(crate) const WORD: usize = 9;

/// A text of at most 24 bytes, before others: they are copied whole, which takes less than to ask how many there are.
#[derive(Drop)]
pub(crate) struct Row<'a> {
    bytes: &'a [u8; ROW],
    // How many bytes the text has.
    size: usize,
}

impl<'a> Model for Row<'a> {
    ghost use Rattle.std.specs.Prelude.{List, ℕ, ◌≤◌, take};

    ghost Value = { List ℕ };

    ghost view = { λ r. take r.size r.bytes.now };

    ghost invariant = { λ r. r.size ≤ 24 };
}

impl<'a> Row<'a> {
    /// The first bytes of these.
    #[inline(always)]
    pub(crate) fn new(bytes: &'a [u8; ROW], size: usize) -> Row<'a>
        requires { size ≤ 24 }
        ensures { result ≡ take size bytes.now }
    {
        Row { bytes, size }
    }

    /// The text of a cycle.
    #[inline(always)]
    pub(crate) fn of_cycle(cycle: &'a CycleRow) -> Row<'a>
        ensures { result ≡ cycle.now }
    {
        let (bytes, size) = cycle.row();
        Row::new(bytes, size)
    }
}

/// Writes a row over the bytes from `at` on, and answers where its text ends.
#[inline(always)]
pub(crate) fn write_row(out: &mut [u8], at: usize, row: Row) -> usize
    requires { at + 24 ≤ length out.old }
    ensures size { length out.new ≡ length out.old }
    ensures end { result ≤ at + 24 }
    ensures text { take result out.new ≡ take at out.old ++ row.entry }
{
    let bytes = row.bytes;
    out[at..at + ROW].copy_from_slice(bytes);
    at + row.size
}

// Writes a word over the bytes from `at` on.
#[inline(always)]
fn write_word(out: &mut [u8], at: usize, word: [u8; WORD])
    requires { at + 9 ≤ length out.old }
    ensures size { length out.new ≡ length out.old }
    ensures text { take (at + 9) out.new ≡ take at out.old ++ word }
{
    out[at..at + WORD].copy_from_slice(&word);
}

/// Writes a few bytes over those from `at` on, and answers where the first so many end.
#[inline(always)]
pub(crate) fn write_few(out: &mut [u8], at: usize, few: [u8; FEW], size: usize) -> usize
    requires within { size ≤ 4 }
    requires room { at + 4 ≤ length out.old }
    ensures size { length out.new ≡ length out.old }
    ensures end { result ≡ at + size }
    ensures text { take result out.new ≡ take at out.old ++ take size few }
{
    out[at..at + FEW].copy_from_slice(&few);
    at + size
}

// A space, and the digits of four bytes.
#[inline(always)]
fn word_from(pairs: &Pairs, four: &[u8; 4]) -> [u8; WORD]
    ensures { result ≡ quadlet_text (from_be_bytes w32 four.now) }
{
    let [first, second, third, last] = *four;
    let [a, b] = pairs.of(u64::from(first));
    let [c, d] = pairs.of(u64::from(second));
    let [e, f] = pairs.of(u64::from(third));
    let [g, h] = pairs.of(u64::from(last));
    [b' ', a, b, c, d, e, f, g, h]
}

/// Writes all whole quadlets of some bytes over the bytes from `at` on, and answers where they end.
#[inline(always)]
pub(crate) fn write_quadlets(out: &mut [u8], at: usize, pairs: &Pairs, bytes: &[u8]) -> usize
    requires { at + 9 * (length bytes.now / 4) ≤ length out.old }
    ensures size { length out.new ≡ length out.old }
    ensures end { result ≡ at + 9 * (length bytes.now / 4) }
    ensures text { take result out.new ≡ take at out.old ++ quadlets_text bytes.now }
{
    let mut end = at;
    let mut rest = bytes;
    while let Some((four, more)) = rest.split_first_chunk::<4>() {
        write_word(out, end, word_from(pairs, four));
        end += WORD;
        rest = more;
    }
    end
}

/// Writes the first quadlet of each eight bytes over the bytes from `at` on, and answers where they end.
#[inline(always)]
pub(crate) fn write_ids(out: &mut [u8], at: usize, pairs: &Pairs, bytes: &[u8]) -> usize
    requires { at + 9 * (length bytes.now / 8) ≤ length out.old }
    ensures size { length out.new ≡ length out.old }
    ensures end { result ≡ at + 9 * (length bytes.now / 8) }
    ensures text { (ids : List PhyPacket) → bytes.now ≡ flat_map spelling ids → take result out.new ≡ take at out.old ++ flat_map id_text ids }
{
    let mut end = at;
    for i in 0..bytes.len() / 8 {
        write_word(out, end, word_of(pairs, quadlet_at(bytes, 8 * i).0));
        end += WORD;
    }
    end
}
