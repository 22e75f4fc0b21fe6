//! Bytes of a room that are copied in rows of a fixed size.

ghost use Rattle.std.specs.Prelude.{◌≡◌, ◌≤◌, length, take};

use super::{ALL, SHORT};

// The first bytes, of which those of a short packet are the last.
#[inline(always)]
pub(super) fn row_of(bytes: &[u8; ALL]) -> &[u8; 48]
    ensures { result.now ≡ take 48 bytes.now }
{
    match bytes.first_chunk::<48>() {
        Some(row) => row,
        None => unreachable!(),
    }
}

// Writes over the bytes at the beginning.
pub(super) fn copy_over(bytes: &[u8], row: &mut [u8; 528])
    requires { length bytes.now ≤ 528 }
    ensures { take (length bytes.now) row.new ≡ bytes.now }
{
    row[..bytes.len()].copy_from_slice(bytes);
}

// Writes so many bytes over the beginning. One array is moved over another, so that no test is made of whether they overlap.
#[inline(always)]
pub(super) fn copy_short(short: &[u8], row: &mut [u8; 528])
    requires { length short.now ≡ 32 }
    ensures { take 32 row.new ≡ short.now }
{
    match (short.as_array::<SHORT>(), row.first_chunk_mut::<SHORT>()) {
        (Some(whole), Some(prefix)) => *prefix = *whole,
        _ => unreachable!(),
    }
}
