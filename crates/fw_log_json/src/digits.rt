//! The digits of bytes: of the data of a lock, of long blocks.

ghost use Rattle.std.specs.Prelude.{◌≡◌, ◌≤◌, ◌++◌, OnOk, length};
ghost use Rattle.fw_text.specs.Texts.{hex_bytes};

use crate::values::put_text;
use fw_log_json_packets::{LONGEST, digits_of, write_digits};
use fw_log_names::{Pairs, put_bytes};
use std::alloc::AllocError;

/// How many bytes a block has whose digits are put together before they are appended.
const LONG: usize = 64;

// Appends the digits of a long block.
fn put_long(text: &mut Vec<u8>, bytes: &[u8]) -> Result<(), AllocError>
    requires most { length bytes.now ≤ 512 }
    ensures { OnOk result (text.new.items ≡ text.old.items ++ hex_bytes bytes.now) }
{
    let mut row = [0; 2 * LONGEST];
    let end = write_digits(&mut row, 0, bytes);
    text.extend_from_slice(&row[..end])
}

// Appends the digits of two quadlets.
#[inline(always)]
fn put_two(
    text: &mut Vec<u8>,
    pairs: &Pairs,
    first: [u8; 4],
    last: [u8; 4],
) -> Result<(), AllocError>
    ensures { OnOk result (text.new.items ≡ text.old.items ++ (hex_bytes first ++ hex_bytes last)) }
{
    put_text(text, &digits_of(pairs, first))?;
    put_text(text, &digits_of(pairs, last))
}

// Appends the digits of bytes that are no quadlet.
fn put_more(text: &mut Vec<u8>, pairs: &Pairs, bytes: &[u8]) -> Result<(), AllocError>
    ensures { OnOk result (text.new.items ≡ text.old.items ++ hex_bytes bytes.now) }
{
    if let Some((first, [a, b, c, d])) = bytes.split_first_chunk::<4>() {
        return put_two(text, pairs, *first, [*a, *b, *c, *d]);
    }
    put_other(text, pairs, bytes)
}

// Appends the digits of bytes, two a byte. Most locks have a quadlet, or two.
#[inline(always)]
pub(crate) fn put_digits(text: &mut Vec<u8>, pairs: &Pairs, bytes: &[u8]) -> Result<(), AllocError>
    ensures { OnOk result (text.new.items ≡ text.old.items ++ hex_bytes bytes.now) }
{
    match bytes {
        [a, b, c, d] => put_text(text, &digits_of(pairs, [*a, *b, *c, *d])),
        _ => put_more(text, pairs, bytes),
    }
}

// Appends the digits of other bytes.
fn put_other(text: &mut Vec<u8>, pairs: &Pairs, bytes: &[u8]) -> Result<(), AllocError>
    ensures { OnOk result (text.new.items ≡ text.old.items ++ hex_bytes bytes.now) }
{
    if LONG <= bytes.len() && bytes.len() <= LONGEST {
        return put_long(text, bytes);
    }
    put_bytes(text, pairs, bytes)
}
