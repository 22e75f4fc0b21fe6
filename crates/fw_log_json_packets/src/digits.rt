//! The digits of bytes: of the data of a lock, of blocks.

ghost use Rattle.std.specs.Prelude.{◌≡◌, ◌≤◌, ◌<◌, ◌+◌, ◌*◌, ◌++◌, false, length, take};
ghost use Rattle.std.specs.Fmt.{digit_glyph};
ghost use Rattle.fw_text.specs.Digits.{byte_digits};
ghost use Rattle.fw_text.specs.Texts.{hex_bytes};

use fw_log_names::Pairs;

/// How many bytes a block has at most whose digits are put together at once.
pub const LONGEST: usize = 512;

/// How far in ASCII the letter of the digit ten stands beyond where the digits would go on.
const LETTERS: u8 = b'a' - b'0' - 10;

/// The digits of four bytes, two each.
#[inline(always)]
pub fn digits_of(pairs: &Pairs, four: [u8; 4]) -> [u8; 8]
    ensures { result ≡ hex_bytes four }
{
    let [a, b] = pairs.of(u64::from(four[0]));
    let [c, d] = pairs.of(u64::from(four[1]));
    let [e, f] = pairs.of(u64::from(four[2]));
    let [g, h] = pairs.of(u64::from(four[3]));
    [a, b, c, d, e, f, g, h]
}

// The digit of four bits. It is reckoned, not looked up: so a loop over bytes takes many of them at once.
#[inline(always)]
fn digit(n: u8) -> u8
    requires { n < 16 }
    ensures { result ≡ digit_glyph false n }
{
    b'0' + n + if n > 9 { LETTERS } else { 0 }
}

// The two digits of a byte.
#[inline(always)]
fn digits_of_byte(byte: u8) -> [u8; 2]
    ensures { result ≡ byte_digits byte }
{
    [digit(byte / 16), digit(byte % 16)]
}

// Writes two digits over the bytes from `at` on.
#[inline(always)]
fn write_two(out: &mut [u8], at: usize, digits: [u8; 2])
    requires { at + 2 ≤ length out.old }
    ensures size { length out.new ≡ length out.old }
    ensures text { take (at + 2) out.new ≡ take at out.old ++ digits }
{
    out[at..at + 2].copy_from_slice(&digits);
}

/// Writes the digits of bytes over the bytes from `at` on, and answers where they end.
pub fn write_digits(out: &mut [u8], at: usize, bytes: &[u8]) -> usize
    requires most { length bytes.now ≤ 512 }
    requires room { at + 2 * length bytes.now ≤ length out.old }
    ensures size { length out.new ≡ length out.old }
    ensures end { result ≡ at + 2 * length bytes.now }
    ensures text { take result out.new ≡ take at out.old ++ hex_bytes bytes.now }
{
    for place in 0..bytes.len() {
        write_two(out, at + 2 * place, digits_of_byte(bytes[place]));
    }
    at + 2 * bytes.len()
}
