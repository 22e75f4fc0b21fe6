//! The forms of lines as text, and what each type of word is.

ghost use Rattle.std.specs.Prelude.{◌≡◌, ◌++◌, OnOk, flat_map};
ghost use Rattle.fw_script_command.specs.Types.{types_of};
ghost use Rattle.fw_check.specs.Forms.{command_lines, expected, form_line, form_text, form_word, number_name, type_name, type_words};

use fw_log_names::{put_number, put_word};
use fw_script_command::{Keyword, NumberType, WordType};
use std::alloc::AllocError;

fn number_name(number: NumberType) -> &'static str
    ensures { result.now ≡ number_name number }
{
    match number {
        NumberType::Ports => "PORTS",
        NumberType::Overhead => "OVERHEAD",
        NumberType::Slot => "SLOT",
        NumberType::Count | NumberType::WrittenCycles => "COUNT",
        NumberType::Rounds => "ROUNDS",
        NumberType::Cycles => "CYCLES",
        NumberType::Tape => "TAPE",
    }
}

fn type_name(ty: WordType) -> &'static str
    ensures { result.now ≡ type_name ty }
{
    match ty {
        WordType::Name | WordType::Shown => "NAME",
        WordType::Kind => "KIND",
        WordType::Speed => "SPEED",
        WordType::System => "SYSTEM",
        WordType::End => "END",
        WordType::Plug => "PLUG",
        WordType::Channel => "CHANNEL",
        WordType::Offset => "OFF",
        WordType::Quadlet => "WORD",
        WordType::Frame => "HEX",
        WordType::Late => "late",
        WordType::Number(number) => number_name(number),
    }
}

fn put_range(text: &mut Vec<u8>, number: NumberType) -> Result<(), AllocError>
    ensures { OnOk result (text.new.items ≡ text.old.items ++ type_words (WordType.Number number)) }
{
    let (low, high) = number.range();
    put_word(text, "a number from ")?;
    put_number(text, u64::from(low))?;
    put_word(text, " to ")?;
    put_number(text, u64::from(high))
}

// Appends what words a type has.
fn put_type_words(text: &mut Vec<u8>, ty: WordType) -> Result<(), AllocError>
    ensures { OnOk result (text.new.items ≡ text.old.items ++ type_words ty) }
{
    match ty {
        WordType::Name => put_word(text, "1 to 16 of a to z and 0 to 9, a letter first"),
        WordType::Shown => put_word(text, "a name, or manager"),
        WordType::Kind => put_word(text, "relay, deck, camcorder or computer"),
        WordType::Speed => put_word(text, "100, 200 or 400"),
        WordType::System => put_word(text, "525 or 625"),
        WordType::End => put_word(text, "NAME.PORT, with a PORT from 0 to 26"),
        WordType::Plug => put_word(text, "NAME.NUMBER, with a NUMBER from 0 to 30"),
        WordType::Channel => put_word(text, "any, or a number from 0 to 63"),
        WordType::Offset => put_word(text, "three hexadecimal digits"),
        WordType::Quadlet => put_word(text, "eight hexadecimal digits"),
        WordType::Frame => put_word(text, "1 to 110 bytes, two hexadecimal digits each"),
        WordType::Late => put_word(text, "late or no word"),
        WordType::Number(number) => put_range(text, number),
    }
}

/// Appends what is expected of a word. An error says that memory ran out, and comes for nothing else; so below.
pub(crate) fn put_expected(text: &mut Vec<u8>, ty: WordType) -> Result<(), AllocError>
    ensures { OnOk result (text.new.items ≡ text.old.items ++ expected ty) }
{
    if !matches!(ty, WordType::Late) {
        put_word(text, type_name(ty))?;
        put_word(text, ": ")?;
    }
    put_type_words(text, ty)
}

// Appends a type in a form; the word that may be missing makes a second form.
fn put_form_word(text: &mut Vec<u8>, ty: WordType) -> Result<(), AllocError>
    ensures { OnOk result (text.new.items ≡ text.old.items ++ form_word ty) }
{
    if let WordType::Late = ty {
        return put_word(text, ", die NAME late");
    }
    put_word(text, " ")?;
    put_word(text, type_name(ty))
}

fn put_form_words(text: &mut Vec<u8>, types: &[WordType]) -> Result<(), AllocError>
    ensures { OnOk result (text.new.items ≡ text.old.items ++ flat_map form_word types.now) }
{
    for ty in types {
        put_form_word(text, *ty)?;
    }
    Ok(())
}

/// Appends the line with the form of a command.
pub(crate) fn put_form(text: &mut Vec<u8>, keyword: Keyword) -> Result<(), AllocError>
    ensures { OnOk result (text.new.items ≡ text.old.items ++ form_line keyword) }
{
    put_word(text, "form: ")?;
    put_word(text, keyword.word())?;
    put_form_words(text, keyword.types())?;
    put_word(text, "\n")
}

/// Appends the two lines with all commands.
pub(crate) fn put_commands(text: &mut Vec<u8>) -> Result<(), AllocError>
    ensures { OnOk result (text.new.items ≡ text.old.items ++ command_lines) }
{
    put_word(
        text,
        "commands: withhold device cable reset connect broadcast listen break step settle die lose candidate\n",
    )?;
    put_word(
        text,
        "commands: contend start wait cycles read swap show command insert eject dub end\n",
    )
}
