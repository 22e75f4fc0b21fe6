//! Lines of a script, and their words, as they are shown.

ghost use Rattle.std.specs.Prelude.{◌≡◌, ◌<◌, ◌+◌, ◌++◌, length, map, take, codes, decimal, OnOk};
ghost use Rattle.fw_check.specs.Shown.{headed, is_printable, named_word, quoted, shown, shown_byte, word_at};

use fw_log_names::{put_number, put_word};
use fw_script_command::{Pieces, Separator};
use std::alloc::AllocError;

/// How many bytes of a line are shown.
const LINE_SHOWN: usize = 100;

/// How many bytes of a word are shown.
const WORD_SHOWN: usize = 40;

/// From the space to the tilde.
pub(crate) fn is_printable(b: u8) -> bool
    ensures { result ≡ is_printable b }
{
    matches!(b, 32..=126)
}

/// Appends bytes.
pub(crate) fn put(text: &mut Vec<u8>, bytes: &[u8]) -> Result<(), AllocError>
    ensures { OnOk result (text.new.items ≡ text.old.items ++ bytes.now) }
{
    text.extend_from_slice(bytes)
}

// A byte, or `?` in its place.
fn shown_byte(b: u8) -> u8
    ensures { result ≡ shown_byte b }
{
    if is_printable(b) { b } else { b'?' }
}

// Appends bytes, with `?` in place of each that is not printable.
fn put_bytes(text: &mut Vec<u8>, bytes: &[u8]) -> Result<(), AllocError>
    ensures { OnOk result (text.new.items ≡ text.old.items ++ map shown_byte bytes.now) }
{
    for b in bytes {
        text.push(shown_byte(*b))?;
    }
    Ok(())
}

/// Appends what is shown of a line.
pub(crate) fn put_shown(text: &mut Vec<u8>, line: &[u8]) -> Result<(), AllocError>
    ensures { OnOk result (text.new.items ≡ text.old.items ++ shown line.now) }
{
    if line.len() > LINE_SHOWN {
        put_bytes(text, &line[..LINE_SHOWN])?;
        put_word(text, " ..")
    } else {
        put_bytes(text, line)
    }
}

/// Appends a number between two texts.
pub(crate) fn put_numbered(
    text: &mut Vec<u8>,
    before: &str,
    number: u64,
    after: &str,
) -> Result<(), AllocError>
    ensures { OnOk result (text.new.items ≡ text.old.items ++ (before.now ++ decimal number ++ after.now)) }
{
    put_word(text, before)?;
    put_number(text, number)?;
    put_word(text, after)
}

/// Appends the number of a line.
pub(crate) fn put_line_number(text: &mut Vec<u8>, number: u32) -> Result<(), AllocError>
    ensures { OnOk result (text.new.items ≡ text.old.items ++ (codes "line " ++ decimal number ++ codes ": ")) }
{
    put_numbered(text, "line ", u64::from(number), ": ")
}

/// Appends a line's number, and what is shown of it.
pub(crate) fn put_head(text: &mut Vec<u8>, number: u32, line: &[u8]) -> Result<(), AllocError>
    ensures { OnOk result (text.new.items ≡ text.old.items ++ headed number (shown line.now)) }
{
    put_line_number(text, number)?;
    put_shown(text, line)?;
    put_word(text, "\n")
}

/// The word of a line with a number from 1; none beyond the last.
pub(crate) fn word_at(line: &[u8], number: u8) -> &[u8]
    requires { 0 < number }
    ensures { result.now ≡ word_at line.now number }
{
    let mut words = Pieces::new(line, Separator::Space);
    for _skipped in 1..number {
        let _ = words.next();
    }
    match words.next() {
        Some(word) => word,
        None => b"",
    }
}

fn put_quoted(text: &mut Vec<u8>, word: &[u8]) -> Result<(), AllocError>
    ensures { OnOk result (text.new.items ≡ text.old.items ++ quoted word.now) }
{
    put_word(text, "\"")?;
    if word.len() > WORD_SHOWN {
        put(text, &word[..WORD_SHOWN])?;
        put_word(text, "..\"")
    } else {
        put(text, word)?;
        put_word(text, "\"")
    }
}

/// Appends a word of the line, by its number.
pub(crate) fn put_named_word(text: &mut Vec<u8>, line: &[u8], number: u8) -> Result<(), AllocError>
    requires { 0 < number }
    ensures { OnOk result (text.new.items ≡ text.old.items ++ named_word line.now number) }
{
    put_word(text, "word ")?;
    put_number(text, u64::from(number))?;
    put_word(text, " is ")?;
    put_quoted(text, word_at(line, number))
}
