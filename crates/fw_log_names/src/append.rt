//! Words, numbers and names as text.

ghost use Rattle.std.specs.Prelude.{◌≡◌, ◌++◌, OnOk, decimal};
ghost use Rattle.std.specs.Option.{option_copied};
ghost use Rattle.fw_text.specs.Texts.{named};

use itoa::Buffer;
use std::alloc::AllocError;

/// Appends a word.
#[inline(always)]
pub fn put_word(text: &mut Vec<u8>, word: &str) -> Result<(), AllocError>
    ensures { OnOk result (text.new.items ≡ text.old.items ++ word.now) }
{
    text.extend_from_slice(word.as_bytes())
}

/// Appends a number in decimal digits.
#[inline(always)]
#[tactic(auto, using(std::proofs::lemmas::Fmt::decimal_digit, fw_text::proofs::DecimalLaws::two_digits))]
pub fn put_number(text: &mut Vec<u8>, n: u64) -> Result<(), AllocError>
    ensures { OnOk result (text.new.items ≡ text.old.items ++ decimal n) }
{
    // Most numbers of a log have one digit or two.
    if n < 10 {
        return text.extend_from_slice(&[b'0' + n as u8]);
    }
    if n < 100 {
        return text.extend_from_slice(&[b'0' + (n / 10) as u8, b'0' + (n % 10) as u8]);
    }
    put_long_number(text, n)
}

fn put_long_number(text: &mut Vec<u8>, n: u64) -> Result<(), AllocError>
    ensures { OnOk result (text.new.items ≡ text.old.items ++ decimal n) }
{
    let mut buffer = Buffer::new();
    text.extend_from_slice(buffer.format(n).as_bytes())
}

/// Appends the name that a table has for a number, or if it has none another word, a space and the number.
pub fn put_named(
    text: &mut Vec<u8>,
    name: Option<&str>,
    other: &str,
    number: u64,
) -> Result<(), AllocError>
    ensures { OnOk result (text.new.items ≡ text.old.items ++ named (option_copied name.entry) other.now number) }
{
    match name {
        Some(name) => put_word(text, name),
        None => {
            put_word(text, other)?;
            put_word(text, " ")?;
            put_number(text, number)
        }
    }
}
