//! Words with numbers after them.

ghost use Rattle.std.specs.Prelude.{◌≡◌, ◌≤◌, ◌++◌, OnOk, decimal, take};
ghost use Rattle.std.specs.Option.{option_copied};
ghost use Rattle.fw_text.specs.Texts.{named};
ghost use Rattle.fw_trace_names.specs.CausedLines.{at_cycle};

use fw_log_names::{CycleRow, put_named, put_number, put_word};
use std::alloc::AllocError;

/// Appends so many bytes of a row: to copy all of it takes less than to copy so many.
/// An error says that memory ran out, and comes for nothing else: a part of the text may be appended then.
#[inline(always)]
pub fn put_row<const N: usize>(
    text: &mut Vec<u8>,
    row: &[u8; N],
    size: usize,
) -> Result<(), AllocError>
    requires { size ≤ N }
    ensures { OnOk result (text.new.items ≡ text.old.items ++ take size row.now) }
{
    text.extend_from_slice(row)?;
    let over = N - size;
    text.truncate(text.len() - over);
    Ok(())
}

/// Appends a word, and directly after it a number in decimal. An error says that memory ran out, and comes for nothing else: a part of the text may be appended then.
#[inline(always)]
pub fn put_part(text: &mut Vec<u8>, word: &str, n: u64) -> Result<(), AllocError>
    ensures { OnOk result (text.new.items ≡ text.old.items ++ (word.now ++ decimal n)) }
{
    put_word(text, word)?;
    put_number(text, n)
}

/// Appends a word, and the name that a table has for a number, or if it has none another word, a space and the number.
/// An error says that memory ran out, and comes for nothing else: a part of the text may be appended then.
#[inline(always)]
pub fn put_named_part(
    text: &mut Vec<u8>,
    word: &str,
    name: Option<&str>,
    other: &str,
    number: u64,
) -> Result<(), AllocError>
    ensures { OnOk result (text.new.items ≡ text.old.items ++ (word.now ++ named (option_copied name.entry) other.now number)) }
{
    put_word(text, word)?;
    put_named(text, name, other, number)
}

/// Appends what a line that was caused begins with: six spaces, the cycle in decimal, a space. The digits of the cycle before are at
/// hand, since many lines have the same. An error says that memory ran out, and comes for nothing else: a part of the text may be appended then.
#[inline(always)]
pub fn put_cycle(text: &mut Vec<u8>, digits: &mut CycleRow, cycle: u64) -> Result<(), AllocError>
    ensures { OnOk result (text.new.items ≡ text.old.items ++ at_cycle cycle) }
{
    digits.set(cycle);
    put_word(text, "      ")?;
    let (row, size) = digits.row();
    put_row(text, row, size)
}
