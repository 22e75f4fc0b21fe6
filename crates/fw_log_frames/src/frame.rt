//! Frames.

ghost use Rattle.std.specs.Prelude.{◌≡◌, ◌++◌, ◌≤◌, length};
ghost use Rattle.std.specs.Option.{option_copied};
ghost use Rattle.fw_log_frames.specs.Frames.{opcode_or, is_tape, command_text, address_text, is_extended, addressed_text, frame_text};

use crate::names::{CODES, OPCODES, SUBUNITS, TAPE_OPCODES};
use crate::operands::{put_general_operands, put_tape_operands};
use fw_text::{Text, name_in};

/// The address of the unit itself: subunit_type 31 and subunit_ID 7.
const UNIT: u8 = 0xFF;

/// The subunit_type of tape recorders.
const TAPE: u8 = 4;

// Says the name of an opcode, or its digits.
fn put_opcode(text: &mut Text, name: Option<&str>, opcode: u8)
    ensures { text.new ≡ text.old ++ opcode_or (option_copied name.entry) opcode }
{
    match name {
        Some(name) => text.word(name),
        None => {
            text.word("opcode ");
            text.hex2(opcode);
        }
    }
}

// The opcode is one of the tape subunit's own.
fn is_tape(kind: u8, opcode: u8) -> bool
    ensures { result ≡ is_tape kind opcode }
{
    kind == TAPE && name_in(&TAPE_OPCODES, u16::from(opcode)).is_some()
}

// Says an opcode to a subunit of this type, and its operands.
#[tactic(auto, unfolding(crate::specs::Frames::command_text))]
fn put_command(text: &mut Text, kind: u8, opcode: u8, operands: &[u8])
    ensures { text.new ≡ text.old ++ command_text kind opcode operands.now }
{
    if is_tape(kind, opcode) {
        put_opcode(text, name_in(&TAPE_OPCODES, u16::from(opcode)), opcode);
        put_tape_operands(text, opcode, operands);
    } else {
        put_opcode(text, name_in(&OPCODES, u16::from(opcode)), opcode);
        put_general_operands(text, opcode, operands);
    }
}

// Says the unit itself, or a subunit by its type and its number.
#[tactic(auto, unfolding(crate::specs::Frames::address_text))]
fn put_address(text: &mut Text, address: u8)
    ensures { text.new ≡ text.old ++ address_text address }
{
    if address == UNIT {
        return text.word("unit");
    }
    let kind = address / 8;
    text.named(name_in(&SUBUNITS, u16::from(kind)), "type", u64::from(kind));
    text.word(" subunit ");
    text.number(u64::from(address % 8));
}

// The address goes on in the bytes after it.
fn is_extended(address: u8) -> bool
    ensures { result ≡ is_extended address }
{
    address != UNIT && (address / 8 == 0x1E || address % 8 == 5)
}

// Says an address, an opcode, and its operands; or an address that goes on, in digits with all that stands after it.
#[tactic(auto, unfolding(crate::specs::Frames::addressed_text))]
fn put_addressed(text: &mut Text, bytes: &[u8])
    requires { 3 ≤ length bytes.now }
    ensures { text.new ≡ text.old ++ addressed_text bytes.now }
{
    if is_extended(bytes[1]) {
        text.word(" extended address");
        text.blank_hex(&bytes[1..]);
    } else {
        text.word(" ");
        put_address(text, bytes[1]);
        text.word(" ");
        put_command(text, bytes[1] / 8, bytes[2], &bytes[3..]);
    }
}

/// Says the bytes that are written to FCP_COMMAND or FCP_RESPONSE in words: `AV/C`, the command type or response code, who is
/// addressed, the opcode, and the operands; or that they are no AV/C frame, and their digits.
#[tactic(auto, unfolding(crate::specs::Frames::frame_text))]
pub fn put_frame(text: &mut Text, bytes: &[u8])
    ensures { text.new ≡ text.old ++ frame_text bytes.now }
{
    if bytes.len() < 3 || bytes[0] >= 16 {
        text.word(" not AV/C");
        return text.blank_hex(bytes);
    }
    text.word(" AV/C ");
    text.named(
        name_in(&CODES, u16::from(bytes[0])),
        "code",
        u64::from(bytes[0]),
    );
    put_addressed(text, bytes);
}
