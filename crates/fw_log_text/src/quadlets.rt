//! Words, numbers and quadlets as text.

ghost use Rattle.std.specs.Prelude.{◌≡◌, ◌++◌, ◌*◌, OnOk, flat_map, decimal};
ghost use Rattle.fw_phy.specs.Phy.{spelling};
ghost use Rattle.fw_log_text.specs.Line.{quadlet_text, quadlets_text, offset_text, id_text};

use crate::numbers::Numbers;
use crate::text_room::TextRoom;
use fw_log_names::Pairs;
use fw_phy::PhyPacket;
use fw_words::{get_quadlet, quadlet_at};
use itoa::Buffer;
use std::alloc::AllocError;

// Appends a word.
pub(crate) fn put_word(text: &mut TextRoom, word: &str) -> Result<(), AllocError>
    ensures { OnOk result (text.new ≡ text.old ++ word.now) }
{
    text.put(word.as_bytes())
}

// Appends a number below 256 in decimal digits.
#[inline(always)]
pub(crate) fn put_small(text: &mut TextRoom, numbers: &Numbers, n: u8) -> Result<(), AllocError>
    ensures { OnOk result (text.new ≡ text.old ++ decimal n) }
{
    let (few, size) = numbers.of(n);
    text.put_few(few, size)
}

// Appends a number in decimal digits.
pub(crate) fn put_number(text: &mut TextRoom, numbers: &Numbers, n: u64) -> Result<(), AllocError>
    ensures { OnOk result (text.new ≡ text.old ++ decimal n) }
{
    if n < 256 {
        return put_small(text, numbers, n as u8);
    }
    let mut buffer = Buffer::new();
    text.put(buffer.format(n).as_bytes())
}

// Appends a word and a number.
#[inline(always)]
pub(crate) fn put_count(
    text: &mut TextRoom,
    numbers: &Numbers,
    word: &str,
    n: u64,
) -> Result<(), AllocError>
    ensures { OnOk result (text.new ≡ text.old ++ (word.now ++ decimal n)) }
{
    put_word(text, word)?;
    put_number(text, numbers, n)
}

// A space, and the digits of a quadlet.
pub(crate) fn word_of(pairs: &Pairs, q: u32) -> [u8; 9]
    ensures { result ≡ quadlet_text q }
{
    let [a, b, c, d, e, f, g, h] = pairs.eight(q);
    [b' ', a, b, c, d, e, f, g, h]
}

/// A space, and the eight lower-case hexadecimal digits of a quadlet.
pub fn quadlet_word(q: u32) -> [u8; 9]
    ensures { result ≡ quadlet_text q }
{
    word_of(&Pairs::new(), q)
}

// Appends a space and the quadlet.
pub(crate) fn put_quadlet(text: &mut TextRoom, pairs: &Pairs, q: u32) -> Result<(), AllocError>
    ensures { OnOk result (text.new ≡ text.old ++ quadlet_text q) }
{
    text.put(&word_of(pairs, q))
}

// A space, and the last three digits of an offset.
fn offset_of(pairs: &Pairs, offset: u16) -> [u8; 4]
    ensures { result ≡ offset_text offset }
{
    let [_, a, b, c] = pairs.four(offset);
    [b' ', a, b, c]
}

// Appends a space and the offset.
pub(crate) fn put_offset(text: &mut TextRoom, pairs: &Pairs, offset: u16) -> Result<(), AllocError>
    ensures { OnOk result (text.new ≡ text.old ++ offset_text offset) }
{
    text.put(&offset_of(pairs, offset))
}

// Appends all whole quadlets of some bytes.
pub(crate) fn put_quadlets(
    text: &mut TextRoom,
    pairs: &Pairs,
    bytes: &[u8],
) -> Result<(), AllocError>
    ensures { OnOk result (text.new ≡ text.old ++ quadlets_text bytes.now) }
{
    let mut rest = bytes;
    while let Some((four, more)) = rest.split_first_chunk::<4>() {
        put_quadlet(text, pairs, get_quadlet(*four).0)?;
        rest = more;
    }
    Ok(())
}

// Appends the first quadlet of each packet, from the bytes of them all.
pub(crate) fn put_ids(
    text: &mut TextRoom,
    pairs: &Pairs,
    ids: &[PhyPacket],
    bytes: &[u8],
) -> Result<(), AllocError>
    requires { bytes.now ≡ flat_map spelling ids.now }
    ensures { OnOk result (text.new ≡ text.old ++ flat_map id_text ids.now) }
{
    for i in 0..ids.len() {
        put_quadlet(text, pairs, quadlet_at(bytes, 8 * i).0)?;
    }
    Ok(())
}
