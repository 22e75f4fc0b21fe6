//! Why a line is no command.

ghost use Rattle.std.specs.Prelude.{◌≡◌, ◌<◌, ◌++◌, [], None, OnOk};
ghost use Rattle.fw_script_command.specs.Form.{after_first};
ghost use Rattle.fw_script_command.specs.Pieces.{pieces};
ghost use Rattle.fw_script_command.specs.Types.{types_of};
ghost use Rattle.fw_check.specs.BadLines.{bad_line, form_refusal, misfit_text, surplus, words_refusal};
ghost use Rattle.fw_script_command.specs.Keyword.{keyword_in};
ghost use Rattle.fw_check.specs.Misfits.{HasNumber, first_misfit};
ghost use Rattle.fw_check.specs.Shown.{word_at};

use crate::forms::{put_commands, put_expected, put_form};
use crate::misfit::{Misfit, first_misfit};
use crate::shown::{put_named_word, put_numbered, word_at};
use crate::slip::{begins_with_byte, put_slip, slip_of};
use crate::word_slip::{lowered, word_slip};
use fw_log_names::put_word;
use fw_script_command::{Keyword, Pieces, Separator, WordType, keyword_of};
use std::alloc::{AllocError, Global};

// What a word too many may be.
fn surplus(keyword: Keyword, word: &[u8]) -> &'static str
    ensures { result.now ≡ surplus keyword word.now }
{
    if begins_with_byte(word, b'#') {
        return ": a comment has a line of its own";
    }
    match keyword {
        Keyword::Command => ": the bytes of HEX stand together",
        _ => "",
    }
}

fn put_missing(text: &mut Vec<u8>, number: u8, ty: WordType) -> Result<(), AllocError>
    ensures { OnOk result (text.new.items ≡ text.old.items ++ misfit_text Keyword.End [] (Misfit.Missing number ty)) }
{
    put_numbered(text, "word ", u64::from(number), " is missing; expected ")?;
    put_expected(text, ty)
}

fn put_unfit(
    alloc: Global,
    text: &mut Vec<u8>,
    line: &[u8],
    number: u8,
    ty: WordType,
) -> Result<(), AllocError>
    requires { 0 < number }
    ensures { OnOk result (text.new.items ≡ text.old.items ++ misfit_text Keyword.End line.now (Misfit.Unfit number ty)) }
{
    put_named_word(text, line, number)?;
    put_word(text, word_slip(alloc, ty, word_at(line, number))?)?;
    put_word(text, "; expected ")?;
    put_expected(text, ty)
}

fn put_extra(
    text: &mut Vec<u8>,
    keyword: Keyword,
    line: &[u8],
    number: u8,
) -> Result<(), AllocError>
    requires { 0 < number }
    ensures { OnOk result (text.new.items ≡ text.old.items ++ misfit_text keyword line.now (Misfit.Extra number)) }
{
    put_named_word(text, line, number)?;
    put_word(text, ", one too many")?;
    put_word(text, surplus(keyword, word_at(line, number)))
}

// Appends what is told of a line whose first word is this command.
fn put_form_refusal(
    alloc: Global,
    text: &mut Vec<u8>,
    keyword: Keyword,
    line: &[u8],
    found: Option<Misfit>,
) -> Result<(), AllocError>
    requires { HasNumber found }
    ensures { OnOk result (text.new.items ≡ text.old.items ++ form_refusal keyword line.now found) }
{
    match found {
        None => return Ok(()),
        Some(Misfit::Missing(number, ty)) => put_missing(text, number, ty)?,
        Some(Misfit::Unfit(number, ty)) => put_unfit(alloc, text, line, number, ty)?,
        Some(Misfit::Extra(number)) => put_extra(text, keyword, line, number)?,
    }
    put_word(text, "\n")?;
    put_form(text, keyword)
}

// The first word of a line that its form refuses.
fn misfit_of(keyword: Keyword, line: &[u8]) -> Option<Misfit>
    ensures value { result ≡ first_misfit 2 (types_of keyword) (after_first (pieces 32 line.now)) }
    ensures number { HasNumber result }
{
    let mut words = Pieces::new(line, Separator::Space);
    let _ = words.next();
    first_misfit(keyword.types(), &mut words)
}

// Appends what is told of a line whose first word is no command.
fn put_no_command(alloc: Global, text: &mut Vec<u8>, line: &[u8]) -> Result<(), AllocError>
    ensures { OnOk result (text.new.items ≡ text.old.items ++ words_refusal line.now None) }
{
    let small = lowered(alloc, word_at(line, 1))?;
    put_named_word(text, line, 1)?;
    match keyword_of(&small) {
        Some(keyword) => {
            put_word(text, ", with capital letters; expected a command\n")?;
            put_form(text, keyword)
        }
        None => {
            put_word(text, "; expected a command\n")?;
            put_commands(text)
        }
    }
}

// Appends what is told of the words of a line.
fn put_words_refusal(alloc: Global, text: &mut Vec<u8>, line: &[u8]) -> Result<(), AllocError>
    ensures { OnOk result (text.new.items ≡ text.old.items ++ words_refusal line.now (keyword_in (word_at line.now 1))) }
{
    match keyword_of(word_at(line, 1)) {
        Some(keyword) => put_form_refusal(alloc, text, keyword, line, misfit_of(keyword, line)),
        None => put_no_command(alloc, text, line),
    }
}

/// Appends why a line has no form, or that it follows `end` of the line with the last number, 0 if that was not read. An error says that memory ran
/// out, and comes for nothing else.
pub(crate) fn put_bad_line(
    alloc: Global,
    text: &mut Vec<u8>,
    line: &[u8],
    end: u32,
) -> Result<(), AllocError>
    ensures { OnOk result (text.new.items ≡ text.old.items ++ bad_line line.now end) }
{
    put_word(text, "BadLine: ")?;
    match slip_of(line, end) {
        Some(slip) => {
            put_slip(text, slip)?;
            put_word(text, "\n")
        }
        None => put_words_refusal(alloc, text, line),
    }
}
