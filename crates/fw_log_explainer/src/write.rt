//! Pieces of a line, written in place.

ghost use Rattle.std.specs.Prelude.{◌≡◌, ◌≤◌, ◌+◌, ◌++◌, OnOk, decimal, length, take};

use std::alloc::AllocError;

/// Writes bytes over those from `at` on, and answers where they end.
#[inline(always)]
pub(crate) fn write_row<const N: usize>(out: &mut [u8], at: usize, row: [u8; N]) -> usize
    requires { at + N ≤ length out.old }
    ensures size { length out.new ≡ length out.old }
    ensures end { result ≡ at + N }
    ensures text { take result out.new ≡ take at out.old ++ row.entry }
{
    out[at..at + N].copy_from_slice(&row);
    at + N
}

/// Writes a number in decimal digits, at most three.
#[inline(always)]
#[tactic(auto, using(std::proofs::lemmas::Fmt::decimal_digit, fw_text::proofs::DecimalLaws::two_digits, crate::proofs::Digits::three_digits))]
pub(crate) fn write_number(out: &mut [u8], at: usize, n: u8) -> usize
    requires { at + 3 ≤ length out.old }
    ensures size { length out.new ≡ length out.old }
    ensures end { result ≤ at + 3 }
    ensures text { take result out.new ≡ take at out.old ++ decimal n }
{
    if n < 10 {
        return write_row(out, at, [b'0' + n]);
    }
    if n < 100 {
        return write_row(out, at, [b'0' + n / 10, b'0' + n % 10]);
    }
    write_row(out, at, [b'0' + n / 100, b'0' + n / 10 % 10, b'0' + n % 10])
}

/// Writes a word and a number after it.
#[inline(always)]
pub(crate) fn write_part<const N: usize>(out: &mut [u8], at: usize, word: [u8; N], n: u8) -> usize
    requires { at + N + 3 ≤ length out.old }
    ensures size { length out.new ≡ length out.old }
    ensures end { result ≤ at + N + 3 }
    ensures text { take result out.new ≡ take at out.old ++ (word.entry ++ decimal n) }
{
    let at = write_row(out, at, word);
    write_number(out, at, n)
}

/// Writes the prefix of a line, its cycle and a space, over the first bytes, and answers where it ends: to copy all bytes of the row takes
/// less than to copy so many.
#[inline(always)]
pub(crate) fn write_cycle(out: &mut [u8], row: &[u8; 24], size: usize) -> usize
    requires within { size ≤ 24 }
    requires room { 24 ≤ length out.old }
    ensures size { length out.new ≡ length out.old }
    ensures end { result ≡ size }
    ensures text { take result out.new ≡ take size row.now }
{
    out[..24].copy_from_slice(row);
    size
}

/// Appends the first bytes of a row. All are copied, and the rest is taken off again: that takes less than to copy so many.
#[inline(always)]
pub(crate) fn put_row<const N: usize>(
    text: &mut Vec<u8>,
    row: &[u8; N],
    size: usize,
) -> Result<(), AllocError>
    requires { size ≤ N }
    ensures { OnOk result (text.new.items ≡ text.old.items ++ take size row.now) }
{
    text.extend_from_slice(row)?;
    let over = N - size;
    text.truncate(text.len() - over);
    Ok(())
}
