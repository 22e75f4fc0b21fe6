//! Numbers as the bytes of a key, four at once.

ghost use Rattle.std.specs.Prelude.{◌≡◌, ◌∷◌, ◌++◌, [], OnOk};
ghost use Rattle.fw_kept_parts.specs.Words.{bytes_of, words_of};

use fw_kept_parts::put_words;
use std::alloc::AllocError;

// The bytes of four numbers.
fn four_words(a: u32, b: u32, c: u32, d: u32) -> [u8; 16]
    ensures { result ≡ bytes_of (a ∷ b ∷ c ∷ d ∷ []) }
{
    let [a0, a1, a2, a3] = a.to_le_bytes();
    let [b0, b1, b2, b3] = b.to_le_bytes();
    let [c0, c1, c2, c3] = c.to_le_bytes();
    let [d0, d1, d2, d3] = d.to_le_bytes();
    [
        a0, a1, a2, a3, b0, b1, b2, b3, c0, c1, c2, c3, d0, d1, d2, d3,
    ]
}

/// Appends numbers, four bytes each, the low one first.
pub(crate) fn put_key_words(out: &mut Vec<u8>, words: &[u32]) -> Result<(), AllocError>
    ensures { OnOk result (out.new.items ≡ out.old.items ++ bytes_of words.now) }
{
    let mut rest = words;
    while let [a, b, c, d, more @ ..] = rest {
        out.extend_from_slice(&four_words(*a, *b, *c, *d))?;
        rest = more;
    }
    put_words(out, rest)
}

// Appends the numbers of bytes.
fn push_words(out: &mut Vec<u32>, bytes: &[u8]) -> Result<(), AllocError>
    ensures { OnOk result (out.new.items ≡ out.old.items ++ words_of bytes.now) }
{
    let mut rest = bytes;
    while let [a, b, c, d, more @ ..] = rest {
        out.push(u32::from_le_bytes([*a, *b, *c, *d]))?;
        rest = more;
    }
    Ok(())
}

/// Reads the numbers of bytes, in place of what `out` has.
pub(crate) fn read_key_words(out: &mut Vec<u32>, bytes: &[u8]) -> Result<(), AllocError>
    ensures { OnOk result (out.new.items ≡ words_of bytes.now) }
{
    out.clear();
    let mut rest = bytes;
    while let [
        a0,
        a1,
        a2,
        a3,
        b0,
        b1,
        b2,
        b3,
        c0,
        c1,
        c2,
        c3,
        d0,
        d1,
        d2,
        d3,
        more @ ..,
    ] = rest
    {
        let a = u32::from_le_bytes([*a0, *a1, *a2, *a3]);
        let b = u32::from_le_bytes([*b0, *b1, *b2, *b3]);
        let c = u32::from_le_bytes([*c0, *c1, *c2, *c3]);
        let d = u32::from_le_bytes([*d0, *d1, *d2, *d3]);
        out.extend_from_slice(&[a, b, c, d])?;
        rest = more;
    }
    push_words(out, rest)
}
