//! Slips of a line, which are told before its words are looked at.

ghost use Rattle.std.specs.Prelude.{◌≡◌, ◌≤◌, ◌<◌, ◌++◌, IfSome, OnOk, length, not, position};
ghost use Rattle.std.specs.List.{list_all};
ghost use Rattle.fw_check.specs.Shown.{is_printable};
ghost use Rattle.fw_check.specs.Slips.{begins_with_byte, byte_at, byte_slip, byte_text, end_slip, ends_with_byte, is_space, mark_slip, slip_of, slip_text, space_slip, two_spaces, upper_digit};

use crate::shown::{is_printable, put, put_numbered};
use fw_log_names::put_word;
use std::alloc::AllocError;

/// A byte order mark, in UTF-8.
const BYTE_ORDER_MARK: [u8; 3] = [0xEF, 0xBB, 0xBF];

/// A slip of a line. Columns count bytes, from 1.
#[derive(Clone, Copy)]
pub enum Slip {
    ByteOrderMark,
    CarriageReturn,
    /// The first byte that is not printable, at this column, is a tab.
    Tab(usize),
    /// It is this byte.
    OtherByte(u8, usize),
    SpacesAlone,
    SpaceBefore,
    /// Two spaces that stand before a word begin at this column.
    TwoSpaces(usize),
    SpaceAfter,
    /// The line stands after `end`, which is on this line.
    FollowingEnd(u32),
}

fn mark_slip(line: &[u8]) -> Option<Slip>
    ensures { result ≡ mark_slip line.now }
{
    if line.starts_with(&BYTE_ORDER_MARK) {
        Some(Slip::ByteOrderMark)
    } else if ends_with_byte(line, b'\r') {
        Some(Slip::CarriageReturn)
    } else {
        None
    }
}

fn ends_with_byte(line: &[u8], b: u8) -> bool
    ensures { result ≡ ends_with_byte b line.now }
{
    !line.is_empty() && line[line.len() - 1] == b
}

// The place of the first byte that is not printable.
fn unprintable(line: &[u8]) -> Option<usize>
    ensures value { result ≡ position (λ b. not (is_printable b)) line.now }
    ensures there { IfSome result (λ place. place < length line.now) }
{
    line.iter().position(|b| !is_printable(*b))
}

fn byte_slip(line: &[u8]) -> Option<Slip>
    ensures { result ≡ byte_slip line.now }
{
    let place = unprintable(line)?;
    let column = place + 1;
    Some(if line[place] == b'\t' {
        Slip::Tab(column)
    } else {
        Slip::OtherByte(line[place], column)
    })
}

fn are_spaces(bytes: &[u8]) -> bool
    ensures { result ≡ list_all is_space bytes.now }
{
    bytes.iter().all(|b| *b == b' ')
}

// If two spaces stand for the first time, unless nothing but spaces follows.
fn two_spaces(line: &[u8]) -> Option<usize>
    ensures value { result ≡ two_spaces line.now }
    ensures there { IfSome result (λ place. place < length line.now) }
{
    for i in 1..line.len() {
        if line[i - 1] == b' ' && line[i] == b' ' {
            return if are_spaces(&line[i..]) {
                None
            } else {
                Some(i - 1)
            };
        }
    }
    None
}

fn space_slip(line: &[u8]) -> Option<Slip>
    ensures { result ≡ space_slip line.now }
{
    if are_spaces(line) {
        return Some(Slip::SpacesAlone);
    }
    if begins_with_byte(line, b' ') {
        return Some(Slip::SpaceBefore);
    }
    match two_spaces(line) {
        Some(place) => Some(Slip::TwoSpaces(place + 1)),
        None if ends_with_byte(line, b' ') => Some(Slip::SpaceAfter),
        None => None,
    }
}

/// The first byte is this one.
pub(crate) fn begins_with_byte(line: &[u8], b: u8) -> bool
    ensures { result ≡ begins_with_byte b line.now }
{
    !line.is_empty() && line[0] == b
}

fn end_slip(end: u32) -> Option<Slip>
    ensures { result ≡ end_slip end }
{
    if end == 0 {
        None
    } else {
        Some(Slip::FollowingEnd(end))
    }
}

/// The first slip of a line; `end` is the number of the line `end`, 0 if it was not read.
pub(crate) fn slip_of(line: &[u8], end: u32) -> Option<Slip>
    ensures { result ≡ slip_of line.now end }
{
    if let Some(slip) = mark_slip(line) {
        return Some(slip);
    }
    if let Some(slip) = byte_slip(line) {
        return Some(slip);
    }
    if let Some(slip) = space_slip(line) {
        return Some(slip);
    }
    end_slip(end)
}

// An upper-case hexadecimal digit.
fn upper_digit(n: u8) -> u8
    requires { n ≤ 15 }
    ensures { result ≡ upper_digit n }
{
    if n < 10 { b'0' + n } else { b'A' - 10 + n }
}

// Appends a byte in two digits.
fn put_byte(text: &mut Vec<u8>, byte: u8) -> Result<(), AllocError>
    ensures { OnOk result (text.new.items ≡ text.old.items ++ byte_text byte) }
{
    put(text, &[upper_digit(byte / 16), upper_digit(byte % 16)])
}

/// Appends what is told of a slip. An error says that memory ran out, and comes for nothing else.
pub(crate) fn put_slip(text: &mut Vec<u8>, slip: Slip) -> Result<(), AllocError>
    ensures { OnOk result (text.new.items ≡ text.old.items ++ slip_text slip) }
{
    match slip {
        Slip::ByteOrderMark => {
            put_word(
                text,
                "a byte order mark (EF BB BF) stands before the first word",
            )
        }
        Slip::CarriageReturn => {
            put_word(text, "the line ends with CR LF; lines end with LF alone")
        }
        Slip::Tab(column) => {
            put_numbered(
                text,
                "a tab at column ",
                column as u64,
                "; words are parted by one space",
            )
        }
        Slip::OtherByte(byte, column) => {
            put_word(text, "the byte ")?;
            put_byte(text, byte)?;
            put_numbered(
                text,
                " at column ",
                column as u64,
                "; words are of printable ASCII",
            )
        }
        Slip::SpacesAlone => put_word(text, "spaces alone; an empty line has none"),
        Slip::SpaceBefore => put_word(text, "a space before the first word"),
        Slip::TwoSpaces(column) => {
            put_numbered(
                text,
                "two spaces at column ",
                column as u64,
                "; words are parted by one",
            )
        }
        Slip::SpaceAfter => put_word(text, "a space behind the last word"),
        Slip::FollowingEnd(line) => {
            put_numbered(
                text,
                "it stands behind `end` of line ",
                u64::from(line),
                "; only empty lines and comments may follow",
            )
        }
    }
}
