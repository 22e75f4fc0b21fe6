//! What is told of a refused line.

ghost use Rattle.std.specs.Prelude.{◌≡◌, ◌++◌, OnOk};
ghost use Rattle.fw_script_command.specs.Keyword.{keyword_in};
ghost use Rattle.fw_check.specs.Refusals.{bad_line_text, form_of_line, long_line_text, no_end_text, rule_text};
ghost use Rattle.fw_check.specs.Shown.{word_at};
ghost use Rattle.fw_check.specs.Whys.{HasToldWord};

use crate::bad_line::put_bad_line;
use crate::forms::put_form;
use crate::rule_text::{put_why, rule_name};
use crate::shown::{put_head, put_line_number, word_at};
use crate::why::Why;
use fw_log_names::put_word;
use fw_script_command::{Keyword, keyword_of};
use std::alloc::{AllocError, Global};

/// Appends that no line is `end`; the number is that of the line after the last. An error says that memory ran out, and comes for nothing else;
/// so below.
pub fn put_no_end(text: &mut Vec<u8>, number: u32) -> Result<(), AllocError>
    ensures { OnOk result (text.new.items ≡ text.old.items ++ no_end_text number) }
{
    put_line_number(text, number)?;
    put_word(text, "(the end of the input)\nNoEnd: no line is `end`\n")?;
    put_form(text, Keyword::End)
}

/// Appends that a line is too long.
pub fn put_long_line(text: &mut Vec<u8>, number: u32, line: &[u8]) -> Result<(), AllocError>
    ensures { OnOk result (text.new.items ≡ text.old.items ++ long_line_text number line.now) }
{
    put_head(text, number, line)?;
    put_word(text, "LineTooLong: the line has more than 256 bytes\n")
}

/// Appends why a line has no form, or that it follows `end`, which is on the line with the last number, 0 if it was not read.
pub fn put_formless(
    alloc: Global,
    text: &mut Vec<u8>,
    number: u32,
    line: &[u8],
    end: u32,
) -> Result<(), AllocError>
    ensures { OnOk result (text.new.items ≡ text.old.items ++ bad_line_text number line.now end) }
{
    put_head(text, number, line)?;
    put_bad_line(alloc, text, line, end)
}

// Appends the form of a line.
fn put_form_of(text: &mut Vec<u8>, line: &[u8]) -> Result<(), AllocError>
    ensures { OnOk result (text.new.items ≡ text.old.items ++ form_of_line (keyword_in (word_at line.now 1))) }
{
    match keyword_of(word_at(line, 1)) {
        Some(keyword) => put_form(text, keyword),
        None => Ok(()),
    }
}

/// Appends why a line's command breaks a rule.
pub fn put_rule(text: &mut Vec<u8>, number: u32, line: &[u8], why: &Why) -> Result<(), AllocError>
    requires { HasToldWord why.now }
    ensures { OnOk result (text.new.items ≡ text.old.items ++ rule_text number line.now why.now) }
{
    put_head(text, number, line)?;
    put_word(text, rule_name(why))?;
    put_word(text, ": ")?;
    put_why(text, line, why)?;
    put_word(text, "\n")?;
    put_form_of(text, line)
}
