//! The operands of AV/C frames.

ghost use Rattle.std.specs.Prelude.{◌≡◌, ◌++◌, ◌≤◌, ◌<◌, ◌+◌, length, drop, codes};
ghost use Rattle.std.specs.Option.{option_copied};
ghost use Rattle.fw_log_frames.specs.Names.{tape_operand_name, operand_name};
ghost use Rattle.fw_log_frames.specs.Frames.{operand, operands_as, time_code, company, plugs, unit_info, takes, tape_row, general_row, first_name, first_text, row_text, tape_operands, general_operands};

use crate::names::{operand_name, tape_operand_name};
use fw_text::Text;

/// How the first operands of a frame are told.
#[derive(Clone, Copy)]
pub enum OperandRow {
    /// An absolute time code of a tape: frames, seconds, minutes and hours stand after the first operand.
    TimeCode,
    /// A company.
    Company,
    /// How many input plugs and output plugs of the serial bus there are.
    Plugs,
    /// The type of a unit, and its company.
    UnitInfo,
    /// A page of the table of subunits.
    Page,
    /// A first operand that may have a word.
    Word,
}

// The row of the operands of an opcode of the tape subunit.
fn tape_row(opcode: u8, operands: &[u8]) -> OperandRow
    ensures row { result ≡ tape_row opcode operands.now }
    ensures takes { takes result ≤ length operands.now }
{
    if opcode == 0x51 && operands.len() >= 5 && operands[0] == 0x71 {
        OperandRow::TimeCode
    } else {
        OperandRow::Word
    }
}

// The row of the operands of an opcode of every address.
fn general_row(opcode: u8, operands: &[u8]) -> OperandRow
    ensures row { result ≡ general_row opcode operands.now }
    ensures takes { takes result ≤ length operands.now }
{
    match opcode {
        0x00 if operands.len() >= 3 => OperandRow::Company,
        0x02 if operands.len() >= 3 && operands[0] == 0x00 => OperandRow::Plugs,
        0x30 if operands.len() >= 5 => OperandRow::UnitInfo,
        0x31 if !operands.is_empty() => OperandRow::Page,
        _ => OperandRow::Word,
    }
}

// Says words, and an operand in two digits.
#[tactic(auto, unfolding(crate::specs::Frames::operand))]
fn put_operand(text: &mut Text, words: &str, operands: &[u8], n: usize)
    requires { n < length operands.now }
    ensures { text.new ≡ text.old ++ (words.now ++ operand operands.now n) }
{
    text.word(words);
    text.hex2(operands[n]);
}

// Says a company, three operands from the n-th on.
fn put_company(text: &mut Text, operands: &[u8], n: usize)
    requires { n + 3 ≤ length operands.now }
    ensures { text.new ≡ text.old ++ company operands.now n }
{
    put_operand(text, "company ", operands, n);
    put_operand(text, "", operands, n + 1);
    put_operand(text, "", operands, n + 2);
}

// Says the word that the first operand has, and the operands after it; or all of them in digits.
fn put_first(text: &mut Text, name: Option<&str>, operands: &[u8])
    ensures { text.new ≡ text.old ++ first_text (option_copied name.entry) operands.now }
{
    let [_, rest @ ..] = operands else {
        return;
    };
    match name {
        Some(name) => {
            text.word(" ");
            text.word(name);
            text.blank_hex(rest);
        }
        None => text.blank_hex(operands),
    }
}

// Says operands by their row.
#[tactic(auto, unfolding(crate::specs::Frames::operands_as))]
fn put_row(text: &mut Text, row: OperandRow, name: Option<&str>, operands: &[u8])
    requires { takes row ≤ length operands.now }
    ensures { text.new ≡ text.old ++ row_text row (option_copied name.entry) operands.now }
{
    match row {
        OperandRow::TimeCode => {
            put_operand(text, " ", operands, 4);
            put_operand(text, ":", operands, 3);
            put_operand(text, ":", operands, 2);
            put_operand(text, ":", operands, 1);
            text.blank_hex(&operands[5..]);
        }
        OperandRow::Company => {
            text.word(" ");
            put_company(text, operands, 0);
            text.blank_hex(&operands[3..]);
        }
        OperandRow::Plugs => {
            put_operand(text, " inputs ", operands, 1);
            put_operand(text, " outputs ", operands, 2);
            text.blank_hex(&operands[3..]);
        }
        OperandRow::UnitInfo => {
            put_operand(text, " type ", operands, 1);
            text.word(" ");
            put_company(text, operands, 2);
            text.blank_hex(&operands[5..]);
        }
        OperandRow::Page => {
            put_operand(text, " page ", operands, 0);
            text.blank_hex(&operands[1..]);
        }
        OperandRow::Word => put_first(text, name, operands),
    }
}

// The word for the first operand of an opcode of the tape subunit.
fn tape_word(opcode: u8, operands: &[u8]) -> Option<&'static str>
    ensures { option_copied result ≡ first_name (tape_operand_name opcode) operands.now }
{
    match operands {
        [first, ..] => tape_operand_name(opcode, *first),
        [] => None,
    }
}

// The word for the first operand of an opcode of every address.
fn general_word(opcode: u8, operands: &[u8]) -> Option<&'static str>
    ensures { option_copied result ≡ first_name (operand_name opcode) operands.now }
{
    match operands {
        [first, ..] => operand_name(opcode, *first),
        [] => None,
    }
}

// Says the operands of an opcode of the tape subunit.
pub(crate) fn put_tape_operands(text: &mut Text, opcode: u8, operands: &[u8])
    ensures { text.new ≡ text.old ++ tape_operands opcode operands.now }
{
    let name = tape_word(opcode, operands);
    put_row(text, tape_row(opcode, operands), name, operands);
}

// Says the operands of an opcode of every address.
pub(crate) fn put_general_operands(text: &mut Text, opcode: u8, operands: &[u8])
    ensures { text.new ≡ text.old ++ general_operands opcode operands.now }
{
    let name = general_word(opcode, operands);
    put_row(text, general_row(opcode, operands), name, operands);
}
