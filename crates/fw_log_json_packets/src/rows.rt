//! Rows of bytes that are written over those of a room.

ghost use Rattle.std.specs.Prelude.{◌≡◌, ◌≤◌, ◌+◌, ◌++◌, length, take};

/// How many bytes are copied of a prefix at once: more than that of any entry has.
pub const PREFIX: usize = 64;

/// Writes bytes over those from `at` on, and answers where they end.
#[inline(always)]
pub(crate) fn write_row<const N: usize>(out: &mut [u8], at: usize, row: [u8; N]) -> usize
    requires { at + N ≤ length out.old }
    ensures size { length out.new ≡ length out.old }
    ensures end { result ≡ at + N }
    ensures text { take result out.new ≡ take at out.old ++ row.entry }
{
    out[at..at + N].copy_from_slice(&row);
    at + N
}

/// Writes a prefix over the bytes from `at` on, and answers where it ends: to copy them all takes less than to copy so many.
#[inline(always)]
pub(crate) fn write_prefix(out: &mut [u8], at: usize, row: &[u8; PREFIX], size: usize) -> usize
    requires within { size ≤ 64 }
    requires room { at + 64 ≤ length out.old }
    ensures size { length out.new ≡ length out.old }
    ensures end { result ≡ at + size }
    ensures text { take result out.new ≡ take at out.old ++ take size row.now }
{
    let row = *row;
    out[at..at + PREFIX].copy_from_slice(&row);
    at + size
}
