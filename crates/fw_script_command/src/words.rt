//! Names and numbers.

ghost use Rattle.std.specs.Prelude.{◌≡◌, ◌≤◌, ◌^◌, IfSome, IfNone, true};
ghost use Rattle.std.specs.List.{list_all};
ghost use Rattle.std.specs.Char.{is_ascii_digit};
ghost use Rattle.std.specs.Str.Parse.{digits_value};
ghost use Rattle.fw_script_command.specs.Words.{is, is_name_byte, is_taken, name_in, is_decimal, number_in, place_in};

use crate::Name;
use crate::cut::cut;

/// The word is this text.
#[inline(always)]
pub(crate) fn is(word: &[u8], text: &[u8]) -> bool
    ensures { result ≡ is text.now word.now }
{
    word == text
}

/// The word is reserved: `manager`, `any` or `late`, which name no device.
// By patterns: it is asked of each name of a script, and `is` costs a call a text.
pub fn is_taken(word: &[u8]) -> bool
    ensures { result ≡ is_taken word.now }
{
    matches!(word, b"manager" | b"any" | b"late")
}

pub(crate) fn is_name_byte(b: u8) -> bool
    ensures { result ≡ is_name_byte b }
{
    b.is_ascii_lowercase() || b.is_ascii_digit()
}

fn are_digits(word: &[u8]) -> bool
    ensures { result ≡ list_all is_ascii_digit word.now }
{
    word.iter().all(|b| b.is_ascii_digit())
}

/// The name that the word is.
pub(crate) fn name(word: &[u8]) -> Option<Name>
    ensures { result ≡ name_in word.now }
{
    if word.is_empty() || word.len() > 16 || !word[0].is_ascii_lowercase() || is_taken(word) {
        return None;
    }
    Name::from_bytes(word)
}

/// The value of decimal digits without a leading zero.
fn decimal(word: &[u8]) -> Option<u32>
    ensures some { IfSome result (λ n. (is_decimal word.now ≡ true) × (digits_value 10 word.now ≡ n)) }
    ensures none { IfNone result (is_decimal word.now ≡ true → 2 ^ 32 ≤ digits_value 10 word.now) }
{
    // Most numbers of a script are one digit, which is not worth a text that is parsed.
    if let [only] = word {
        return char::from(*only).to_digit(10);
    }
    if word.is_empty() || !are_digits(word) {
        return None;
    }
    if word.len() > 1 && word[0] == b'0' {
        return None;
    }
    match str::from_utf8(word) {
        Ok(text) => match text.parse::<u32>() {
            Ok(n) => Some(n),
            Err(_) => None,
        },
        Err(_) => None,
    }
}

/// The number that the word is, from `low` to `high`.
pub(crate) fn number(word: &[u8], low: u32, high: u32) -> Option<u32>
    ensures value { result ≡ number_in low high word.now }
    ensures range { IfSome result (λ n. (low ≤ n) × (n ≤ high)) }
{
    match decimal(word) {
        Some(n) if low <= n && n <= high => Some(n),
        _ => None,
    }
}

/// The number that the word is, from `low` to `high`, if these are small.
pub(crate) fn small(word: &[u8], low: u8, high: u8) -> Option<u8>
    ensures { result ≡ number_in low high word.now }
{
    Some(number(word, u32::from(low), u32::from(high))? as u8)
}

/// A name and a number up to `high`, separated by a full stop: a port or a plug of a device.
pub(crate) fn place(word: &[u8], high: u8) -> Option<(Name, u8)>
    ensures { result ≡ place_in high word.now }
{
    // The digits are not searched for another full stop: with it, they are no number.
    let (prefix, digits) = cut(word, b'.')?;
    Some((name(prefix)?, small(digits, 0, high)?))
}
