//! The lines of a script, as they are told.

ghost use Rattle.std.specs.Prelude.{◌≡◌, ◌++◌, ◌-◌, IsTrue, OnOk, map, replicate, decimal};
ghost use Rattle.fw_trace_lines.specs.Lines.{right, shown_byte, line_text};

use fw_log_names::put_word;
use itoa::Buffer;
use std::alloc::AllocError;

// The spaces before the digits of a line's number, by how many these are.
fn margin(digits: usize) -> &'static str
    ensures { result.now ≡ replicate (5 - digits) 32 }
{
    match digits {
        0 => "     ",
        1 => "    ",
        2 => "   ",
        3 => "  ",
        4 => " ",
        _ => "",
    }
}

// Appends a line's number, and before it as many spaces as it lacks of five characters.
fn put_line_number(text: &mut Vec<u8>, number: u32) -> Result<(), AllocError>
    ensures { OnOk result (text.new.items ≡ text.old.items ++ right 5 (decimal number)) }
{
    let mut buffer = Buffer::new();
    let digits = buffer.format(u64::from(number)).as_bytes();
    put_word(text, margin(digits.len()))?;
    text.extend_from_slice(digits)
}

// A byte of a line as it is shown.
fn shown_byte(b: u8) -> u8
    ensures { result ≡ shown_byte b }
{
    if b < 0x20 || b == 0x7F { b'?' } else { b }
}

// Each byte of a line is shown as it is.
fn is_plain(line: &[u8]) -> bool
    ensures { IsTrue result → map shown_byte line.now ≡ line.now }
{
    // All bytes are looked at: so many can be at once.
    let mut plain = true;
    for b in line {
        plain &= shown_byte(*b) == *b;
    }
    plain
}

// Appends the bytes of a line as they are shown.
fn put_bytes(text: &mut Vec<u8>, line: &[u8]) -> Result<(), AllocError>
    ensures { OnOk result (text.new.items ≡ text.old.items ++ map shown_byte line.now) }
{
    if is_plain(line) {
        return text.extend_from_slice(line);
    }
    for i in 0..line.len() {
        text.push(shown_byte(line[i]))?;
    }
    Ok(())
}

// Appends a line of a script; nothing of an empty one.
#[tactic(auto, unfolding(crate::specs::Lines::line_text))]
pub(crate) fn put_line(text: &mut Vec<u8>, number: u32, line: &[u8]) -> Result<(), AllocError>
    ensures { OnOk result (text.new.items ≡ text.old.items ++ line_text number line.now) }
{
    if line.is_empty() {
        return Ok(());
    }
    put_line_number(text, number)?;
    put_word(text, " ")?;
    put_bytes(text, line)?;
    put_word(text, "\n")
}
