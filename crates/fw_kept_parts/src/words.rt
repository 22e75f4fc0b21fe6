//! Lists of numbers as bytes.

ghost use Rattle.std.specs.Prelude.{◌≡◌, ◌<◌, ◌^◌, ◌++◌, ℕ, slice_index, OnOk};
ghost use Rattle.fw_kept_parts.specs.Words.{bytes_of, words_of};

use std::alloc::AllocError;

/// What the type of numbers says of them: nothing is done.
pub fn are_numbers(words: &[u32])
    ensures { (k : ℕ) → slice_index words.now k < 2 ^ 32 }
{
    let _ = words;
}

/// Appends numbers, four bytes each, the low one first.
pub fn put_words(out: &mut Vec<u8>, words: &[u32]) -> Result<(), AllocError>
    ensures { OnOk result (out.new.items ≡ out.old.items ++ bytes_of words.now) }
{
    for word in words {
        out.extend_from_slice(&word.to_le_bytes())?;
    }
    Ok(())
}

/// Reads the numbers of bytes, in place of what `out` has.
pub fn read_words(out: &mut Vec<u32>, bytes: &[u8]) -> Result<(), AllocError>
    ensures { OnOk result (out.new.items ≡ words_of bytes.now) }
{
    out.clear();
    let mut rest = bytes;
    while let [a, b, c, d, more @ ..] = rest {
        out.push(u32::from_le_bytes([*a, *b, *c, *d]))?;
        rest = more;
    }
    Ok(())
}
