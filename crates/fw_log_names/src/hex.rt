//! Numbers and bytes in hexadecimal digits.

ghost use Rattle.std.specs.Prelude.{◌≡◌, ◌++◌, OnOk};
ghost use Rattle.fw_text.specs.Digits.{byte_digits};
ghost use Rattle.fw_text.specs.Texts.{hex, hex_bytes, blank_hex, quadlet_text, quadlets_text};

use crate::append::put_word;
use crate::pairs::Pairs;
use fw_words::get_quadlet;
use std::alloc::AllocError;

/// Appends a byte in two digits.
pub fn put_hex2(text: &mut Vec<u8>, pairs: &Pairs, n: u8) -> Result<(), AllocError>
    ensures { OnOk result (text.new.items ≡ text.old.items ++ byte_digits n) }
{
    text.extend_from_slice(&pairs.of(u64::from(n)))
}

/// Appends a number of 16 bits in four digits.
pub fn put_hex4(text: &mut Vec<u8>, pairs: &Pairs, n: u16) -> Result<(), AllocError>
    ensures { OnOk result (text.new.items ≡ text.old.items ++ hex 4 n) }
{
    text.extend_from_slice(&pairs.four(n))
}

/// Appends the last 24 bits of a number in six digits.
pub fn put_hex6(text: &mut Vec<u8>, pairs: &Pairs, n: u32) -> Result<(), AllocError>
    ensures { OnOk result (text.new.items ≡ text.old.items ++ hex 6 n) }
{
    text.extend_from_slice(&pairs.six(n))
}

/// Appends a quadlet in eight digits.
pub fn put_hex8(text: &mut Vec<u8>, pairs: &Pairs, n: u32) -> Result<(), AllocError>
    ensures { OnOk result (text.new.items ≡ text.old.items ++ hex 8 n) }
{
    text.extend_from_slice(&pairs.eight(n))
}

/// Appends the last 48 bits of a number in twelve digits.
pub fn put_hex12(text: &mut Vec<u8>, pairs: &Pairs, n: u64) -> Result<(), AllocError>
    ensures { OnOk result (text.new.items ≡ text.old.items ++ hex 12 n) }
{
    text.extend_from_slice(&pairs.twelve(n))
}

// The digits of four bytes.
fn digits_of(pairs: &Pairs, four: [u8; 4]) -> [u8; 8]
    ensures { result ≡ hex_bytes four }
{
    let [a, b] = pairs.of(u64::from(four[0]));
    let [c, d] = pairs.of(u64::from(four[1]));
    let [e, f] = pairs.of(u64::from(four[2]));
    let [g, h] = pairs.of(u64::from(four[3]));
    [a, b, c, d, e, f, g, h]
}

/// Appends bytes in two digits each, with nothing between.
pub fn put_bytes(text: &mut Vec<u8>, pairs: &Pairs, bytes: &[u8]) -> Result<(), AllocError>
    ensures { OnOk result (text.new.items ≡ text.old.items ++ hex_bytes bytes.now) }
{
    let mut rest = bytes;
    while let Some((four, more)) = rest.split_first_chunk::<4>() {
        text.extend_from_slice(&digits_of(pairs, *four))?;
        rest = more;
    }
    while let Some((one, more)) = rest.split_first() {
        put_hex2(text, pairs, *one)?;
        rest = more;
    }
    Ok(())
}

/// Appends a space and bytes in two digits each, or nothing if there are no bytes.
pub fn put_blank_hex(text: &mut Vec<u8>, pairs: &Pairs, bytes: &[u8]) -> Result<(), AllocError>
    ensures { OnOk result (text.new.items ≡ text.old.items ++ blank_hex bytes.now) }
{
    if bytes.is_empty() {
        return Ok(());
    }
    put_word(text, " ")?;
    put_bytes(text, pairs, bytes)
}

/// Appends a space and a quadlet in eight digits.
pub fn put_quadlet(text: &mut Vec<u8>, pairs: &Pairs, q: u32) -> Result<(), AllocError>
    ensures { OnOk result (text.new.items ≡ text.old.items ++ quadlet_text q) }
{
    put_word(text, " ")?;
    put_hex8(text, pairs, q)
}

/// Appends each whole quadlet of some bytes, a space before each.
pub fn put_quadlets(text: &mut Vec<u8>, pairs: &Pairs, bytes: &[u8]) -> Result<(), AllocError>
    ensures { OnOk result (text.new.items ≡ text.old.items ++ quadlets_text bytes.now) }
{
    let mut rest = bytes;
    while let Some((four, more)) = rest.split_first_chunk::<4>() {
        put_quadlet(text, pairs, get_quadlet(*four).0)?;
        rest = more;
    }
    Ok(())
}
