//! What the line of a packet begins with: its cycle, and who sends it to whom.

ghost use Rattle.std.specs.Prelude.{◌≡◌, ◌≤◌, ◌+◌, ◌++◌, ◌∷◌, [], OnOk, codes, length, take};
ghost use Rattle.fw_trace_names.specs.CausedLines.{at_cycle};
ghost use Rattle.fw_trace_names.specs.Names.{id_text};

use crate::naming::Names;
use crate::parts::{put_cycle, put_row};
use fw_log_names::{CycleRow, put_word};
use std::alloc::AllocError;

/// In how many bytes it is written: six spaces, a cycle of at most 21, an arrow of at most five, and the rows of two names.
const ROOM: usize = 80;

/// In how many bytes a whole line is written: what it begins with takes at most 68, what is told a row, and the line feed one.
const LINE: usize = 192;

/// In how many bytes a row is kept of what a line tells.
pub const TOLD: usize = 112;

/// The spaces before the cycle.
const MARGIN: usize = 6;

// Writes a row over the bytes from `at` on, and answers where so many of its bytes end.
#[inline(always)]
fn write_begun<const N: usize>(out: &mut [u8], at: usize, row: &[u8; N], size: usize) -> usize
    requires within { size ≤ N }
    requires room { at + N ≤ length out.old }
    ensures size { length out.new ≡ length out.old }
    ensures end { result ≡ at + size }
    ensures text { take result out.new ≡ take at out.old ++ take size row.now }
{
    out[at..at + N].copy_from_slice(row);
    at + size
}

// Appends so many bytes of a row after a space.
#[inline(always)]
pub(crate) fn put_blank_row(
    text: &mut Vec<u8>,
    row: &[u8; 16],
    size: usize,
) -> Result<(), AllocError>
    requires { size ≤ 16 }
    ensures { OnOk result (text.new.items ≡ text.old.items ++ (codes " " ++ take size row.now)) }
{
    let mut blank = [b' '; 17];
    let end = write_begun(&mut blank, 1, row, size);
    put_row(text, &blank, end)
}

// Writes what a line begins with whose names are these rows, and answers where it ends.
#[inline(always)]
fn write_ends<const N: usize>(
    out: &mut [u8],
    digits: (&[u8; 24], usize),
    left: (&[u8; 16], usize),
    arrow: &[u8; N],
    right: (&[u8; 16], usize),
) -> usize
    requires arrow { N ≤ 5 }
    requires digits { digits.1 ≤ 24 }
    requires left { left.1 ≤ 16 }
    requires right { right.1 ≤ 16 }
    requires margin { take 6 out.old ≡ codes "      " }
    requires room { 80 ≤ length out.old }
    ensures size { length out.new ≡ length out.old }
    ensures end { result ≤ 68 }
    ensures text { take result out.new ≡ codes "      " ++ take digits.entry.1 digits.entry.0.now ++ take left.entry.1 left.entry.0.now ++ arrow.now ++ take right.entry.1 right.entry.0.now ++ codes " " }
{
    let at = write_begun(out, MARGIN, digits.0, digits.1);
    let at = write_begun(out, at, left.0, left.1);
    let at = write_begun(out, at, arrow, N);
    let at = write_begun(out, at, right.0, right.1);
    write_begun(out, at, b" ", 1)
}

// Appends it piece by piece.
#[inline(never)]
fn put_pieces(
    text: &mut Vec<u8>,
    digits: &mut CycleRow,
    cycle: u64,
    names: &Names,
    left: u16,
    arrow: &[u8],
    right: u16,
) -> Result<(), AllocError>
    ensures { OnOk result (text.new.items ≡ text.old.items ++ (at_cycle cycle ++ id_text names.now left ++ arrow.now ++ id_text names.now right ++ codes " ")) }
{
    put_cycle(text, digits, cycle)?;
    names.put_id(text, left)?;
    text.extend_from_slice(arrow)?;
    names.put_id(text, right)?;
    put_word(text, " ")
}

/// Appends what a line begins with: its cycle, the nodes with these IDs with an arrow of at most five bytes between them, and a space.
/// An error says that memory ran out, and comes for nothing else: a part of the text may be appended then.
#[inline(always)]
pub fn put_ends<const N: usize>(
    text: &mut Vec<u8>,
    digits: &mut CycleRow,
    cycle: u64,
    names: &Names,
    left: u16,
    arrow: &[u8; N],
    right: u16,
) -> Result<(), AllocError>
    requires { N ≤ 5 }
    ensures { OnOk result (text.new.items ≡ text.old.items ++ (at_cycle cycle ++ id_text names.now left ++ arrow.now ++ id_text names.now right ++ codes " ")) }
{
    let (Some(first), Some(second)) = (names.row_of(left), names.row_of(right)) else {
        return put_pieces(text, digits, cycle, names, left, arrow, right);
    };
    digits.set(cycle);
    let mut line = [b' '; ROOM];
    let size = write_ends(&mut line, digits.row(), first, arrow, second);
    put_row(text, &line, size)
}

// Appends a whole line piece by piece.
#[inline(never)]
fn put_line_pieces(
    text: &mut Vec<u8>,
    digits: &mut CycleRow,
    cycle: u64,
    names: &Names,
    left: u16,
    arrow: &[u8],
    right: u16,
    told: (&[u8; TOLD], usize),
) -> Result<(), AllocError>
    requires { told.1 ≤ 112 }
    ensures { OnOk result (text.new.items ≡ text.old.items ++ ((at_cycle cycle ++ id_text names.now left ++ arrow.now ++ id_text names.now right ++ codes " ") ++ (take told.entry.1 told.entry.0.now ++ 10 ∷ []))) }
{
    put_pieces(text, digits, cycle, names, left, arrow, right)?;
    put_row(text, told.0, told.1)?;
    put_word(text, "\n")
}

/// Appends a whole line: what it begins with, as `put_ends` does, so many bytes of a row, and a line feed.
/// An error says that memory ran out, and comes for nothing else: a part of the text may be appended then.
#[inline(always)]
pub fn put_whole_line<const N: usize>(
    text: &mut Vec<u8>,
    digits: &mut CycleRow,
    cycle: u64,
    names: &Names,
    left: u16,
    arrow: &[u8; N],
    right: u16,
    told: (&[u8; TOLD], usize),
) -> Result<(), AllocError>
    requires arrow { N ≤ 5 }
    requires told { told.1 ≤ 112 }
    ensures { OnOk result (text.new.items ≡ text.old.items ++ ((at_cycle cycle ++ id_text names.now left ++ arrow.now ++ id_text names.now right ++ codes " ") ++ (take told.entry.1 told.entry.0.now ++ 10 ∷ []))) }
{
    let (Some(left_row), Some(right_row)) = (names.row_of(left), names.row_of(right)) else {
        return put_line_pieces(text, digits, cycle, names, left, arrow, right, told);
    };
    digits.set(cycle);
    let mut line = [b' '; LINE];
    let at = write_ends(&mut line, digits.row(), left_row, arrow, right_row);
    let at = write_begun(&mut line, at, told.0, told.1);
    let at = write_begun(&mut line, at, b"\n", 1);
    put_row(text, &line, at)
}
