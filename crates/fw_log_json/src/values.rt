//! Values under their keys. A key is handed in with its punctuation, as `,"code":`, since that is one text with it.

ghost use Rattle.std.specs.Prelude.{◌≡◌, ◌++◌, OnOk, decimal};
ghost use Rattle.std.specs.Option.{option_copied};
ghost use Rattle.fw_text.specs.Texts.{hex, hex_bytes};
ghost use Rattle.fw_log_json_packets.specs.Values.{field, quoted, name_value, number_value, flag_value, code, comma};

use crate::digits::put_digits;
use fw_log_names::{Pairs, put_number, put_word};
use std::alloc::AllocError;

// Appends what stands before the value of a list at this place.
pub(crate) fn put_comma(text: &mut Vec<u8>, place: usize) -> Result<(), AllocError>
    ensures { OnOk result (text.new.items ≡ text.old.items ++ comma place) }
{
    if place == 0 {
        return Ok(());
    }
    put_word(text, ",")
}

// Appends a text that is at hand.
#[inline(always)]
pub(crate) fn put_text(text: &mut Vec<u8>, more: &[u8]) -> Result<(), AllocError>
    ensures { OnOk result (text.new.items ≡ text.old.items ++ more.now) }
{
    text.extend_from_slice(more)
}

// Appends a key and a value that is at hand.
#[inline(always)]
#[tactic(auto, unfolding(fw_log_json_packets::specs::Values::field))]
fn put_value(text: &mut Vec<u8>, key: &str, value: &[u8]) -> Result<(), AllocError>
    ensures { OnOk result (text.new.items ≡ text.old.items ++ field key.now value.now) }
{
    put_word(text, key)?;
    text.extend_from_slice(value)
}

// Appends a key and a number.
#[inline(always)]
#[tactic(auto, unfolding(fw_log_json_packets::specs::Values::field))]
pub(crate) fn put_count(text: &mut Vec<u8>, key: &str, n: u64) -> Result<(), AllocError>
    ensures { OnOk result (text.new.items ≡ text.old.items ++ field key.now (decimal n)) }
{
    put_word(text, key)?;
    put_number(text, n)
}

// Appends a key and a flag.
#[inline(always)]
#[tactic(auto, unfolding(fw_log_json_packets::specs::Values::field))]
pub(crate) fn put_flag(text: &mut Vec<u8>, key: &str, b: bool) -> Result<(), AllocError>
    ensures { OnOk result (text.new.items ≡ text.old.items ++ field key.now (flag_value b)) }
{
    put_word(text, key)?;
    put_word(text, if b { "true" } else { "false" })
}

// Appends a key, and a number or null.
#[tactic(auto, unfolding(fw_log_json_packets::specs::Values::field))]
pub(crate) fn put_number_or_null(
    text: &mut Vec<u8>,
    key: &str,
    n: Option<u8>,
) -> Result<(), AllocError>
    ensures { OnOk result (text.new.items ≡ text.old.items ++ field key.now (number_value n)) }
{
    put_word(text, key)?;
    match n {
        Some(n) => put_number(text, u64::from(n)),
        None => put_word(text, "null"),
    }
}

// Appends a text whose characters need no escape.
#[inline(always)]
#[tactic(auto, unfolding(fw_log_json_packets::specs::Values::quoted))]
pub(crate) fn put_quoted(text: &mut Vec<u8>, word: &str) -> Result<(), AllocError>
    ensures { OnOk result (text.new.items ≡ text.old.items ++ quoted word.now) }
{
    put_word(text, "\"")?;
    put_word(text, word)?;
    put_word(text, "\"")
}

// Appends the name that a table has, or null.
#[inline(always)]
pub(crate) fn put_name_value(text: &mut Vec<u8>, name: Option<&str>) -> Result<(), AllocError>
    ensures { OnOk result (text.new.items ≡ text.old.items ++ name_value (option_copied name.entry)) }
{
    match name {
        Some(name) => put_quoted(text, name),
        None => put_word(text, "null"),
    }
}

// Appends a key, and the name that a table has, or null.
#[inline(always)]
#[tactic(auto, unfolding(fw_log_json_packets::specs::Values::field))]
pub(crate) fn put_name(text: &mut Vec<u8>, key: &str, name: Option<&str>) -> Result<(), AllocError>
    ensures { OnOk result (text.new.items ≡ text.old.items ++ field key.now (name_value (option_copied name.entry))) }
{
    put_word(text, key)?;
    put_name_value(text, name)
}

// Appends a code under its key, and its name under another.
#[inline(always)]
#[tactic(auto, unfolding(fw_log_json_packets::specs::Values::code))]
pub(crate) fn put_code(
    text: &mut Vec<u8>,
    key: &str,
    n: u64,
    name_key: &str,
    name: Option<&str>,
) -> Result<(), AllocError>
    ensures { OnOk result (text.new.items ≡ text.old.items ++ code key.now n name_key.now (option_copied name.entry)) }
{
    put_count(text, key, n)?;
    put_name(text, name_key, name)
}

#[inline(always)]
#[tactic(auto, unfolding(fw_log_json_packets::specs::Values::quoted))]
fn quoted_six(pairs: &Pairs, n: u32) -> [u8; 8]
    ensures { result ≡ quoted (hex 6 n) }
{
    let [a, b, c, d, e, f] = pairs.six(n);
    [b'"', a, b, c, d, e, f, b'"']
}

// Appends a key and 24 bits in six digits.
#[inline(always)]
pub(crate) fn put_six(
    text: &mut Vec<u8>,
    pairs: &Pairs,
    key: &str,
    n: u32,
) -> Result<(), AllocError>
    ensures { OnOk result (text.new.items ≡ text.old.items ++ field key.now (quoted (hex 6 n))) }
{
    put_value(text, key, &quoted_six(pairs, n))
}

#[inline(always)]
#[tactic(auto, unfolding(fw_log_json_packets::specs::Values::quoted))]
fn quoted_eight(pairs: &Pairs, n: u32) -> [u8; 10]
    ensures { result ≡ quoted (hex 8 n) }
{
    let [a, b, c, d, e, f, g, h] = pairs.eight(n);
    [b'"', a, b, c, d, e, f, g, h, b'"']
}

// Appends a key and a quadlet in eight digits.
#[inline(always)]
pub(crate) fn put_eight(
    text: &mut Vec<u8>,
    pairs: &Pairs,
    key: &str,
    n: u32,
) -> Result<(), AllocError>
    ensures { OnOk result (text.new.items ≡ text.old.items ++ field key.now (quoted (hex 8 n))) }
{
    put_value(text, key, &quoted_eight(pairs, n))
}

#[inline(always)]
#[tactic(auto, unfolding(fw_log_json_packets::specs::Values::quoted))]
fn quoted_twelve(pairs: &Pairs, n: u64) -> [u8; 14]
    ensures { result ≡ quoted (hex 12 n) }
{
    let mut row = *b"\"............\"";
    row[1..13].copy_from_slice(&pairs.twelve(n));
    row
}

// Appends a key and 48 bits in twelve digits.
#[inline(always)]
pub(crate) fn put_twelve(
    text: &mut Vec<u8>,
    pairs: &Pairs,
    key: &str,
    n: u64,
) -> Result<(), AllocError>
    ensures { OnOk result (text.new.items ≡ text.old.items ++ field key.now (quoted (hex 12 n))) }
{
    put_value(text, key, &quoted_twelve(pairs, n))
}

// Appends a key and bytes, two digits each.
#[tactic(auto, unfolding(fw_log_json_packets::specs::Values::field, fw_log_json_packets::specs::Values::quoted))]
pub(crate) fn put_data(
    text: &mut Vec<u8>,
    pairs: &Pairs,
    key: &str,
    bytes: &[u8],
) -> Result<(), AllocError>
    ensures { OnOk result (text.new.items ≡ text.old.items ++ field key.now (quoted (hex_bytes bytes.now))) }
{
    put_word(text, key)?;
    put_word(text, "\"")?;
    put_digits(text, pairs, bytes)?;
    put_word(text, "\"")
}
