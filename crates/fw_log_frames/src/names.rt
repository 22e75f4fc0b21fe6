//! The names of AV/C frames (AV/C General 3.0; AV/C Tape Recorder/Player Subunit 2.1): tables, which the definitions look up too.

ghost use Rattle.std.specs.Prelude.{◌≡◌};
ghost use Rattle.std.specs.Option.{option_copied};
ghost use Rattle.fw_log_frames.specs.Names.{tape_operand_name, operand_name};

use fw_text::name_in;

/// Command types and response codes; the standard reserves 5, 6, 7 and E hexadecimal.
pub const CODES: [(u16, &str); 12] = [
    (0x00, "CONTROL"),
    (0x01, "STATUS"),
    (0x02, "SPECIFIC INQUIRY"),
    (0x03, "NOTIFY"),
    (0x04, "GENERAL INQUIRY"),
    (0x08, "NOT IMPLEMENTED"),
    (0x09, "ACCEPTED"),
    (0x0A, "REJECTED"),
    (0x0B, "IN TRANSITION"),
    (0x0C, "IMPLEMENTED/STABLE"),
    (0x0D, "CHANGED"),
    (0x0F, "INTERIM"),
];

/// Values of subunit_type.
pub const SUBUNITS: [(u16, &str); 15] = [
    (0x00, "monitor"),
    (0x01, "audio"),
    (0x02, "printer"),
    (0x03, "disc"),
    (0x04, "tape"),
    (0x05, "tuner"),
    (0x06, "ca"),
    (0x07, "camera"),
    (0x09, "panel"),
    (0x0A, "bulletin board"),
    (0x0B, "camera storage"),
    (0x0C, "music"),
    (0x1C, "vendor unique"),
    (0x1D, "all"),
    (0x1F, "unit"),
];

/// The opcodes that the tape subunit has of its own.
pub const TAPE_OPCODES: [(u16, &str); 6] = [
    (0x51, "TIME CODE"),
    (0xC1, "LOAD MEDIUM"),
    (0xC2, "RECORD"),
    (0xC3, "PLAY"),
    (0xC4, "WIND"),
    (0xD0, "TRANSPORT STATE"),
];

/// The opcodes of every address: of descriptors and other information, of plugs and connections, of what a unit is and of its state.
pub const OPCODES: [(u16, &str); 34] = [
    (0x00, "VENDOR DEPENDENT"),
    (0x01, "RESERVE"),
    (0x02, "PLUG INFO"),
    (0x05, "OPEN INFO BLOCK"),
    (0x06, "READ INFO BLOCK"),
    (0x07, "WRITE INFO BLOCK"),
    (0x08, "OPEN DESCRIPTOR"),
    (0x09, "READ DESCRIPTOR"),
    (0x0A, "WRITE DESCRIPTOR"),
    (0x0B, "SEARCH DESCRIPTOR"),
    (0x0C, "CREATE DESCRIPTOR"),
    (0x0D, "OBJECT NUMBER SELECT"),
    (0x10, "DIGITAL OUTPUT"),
    (0x11, "DIGITAL INPUT"),
    (0x12, "CHANNEL USAGE"),
    (0x18, "OUTPUT PLUG SIGNAL FORMAT"),
    (0x19, "INPUT PLUG SIGNAL FORMAT"),
    (0x1F, "GENERAL BUS SETUP"),
    (0x20, "CONNECT AV"),
    (0x21, "DISCONNECT AV"),
    (0x22, "CONNECTIONS"),
    (0x24, "CONNECT"),
    (0x25, "DISCONNECT"),
    (0x26, "ASYNCHRONOUS CONNECTION"),
    (0x30, "UNIT INFO"),
    (0x31, "SUBUNIT INFO"),
    (0x7C, "PASS THROUGH"),
    (0x7D, "GUI UPDATE"),
    (0x7E, "PUSH GUI DATA"),
    (0x7F, "USER ACTION"),
    (0xB0, "VERSION"),
    (0xB2, "POWER"),
    (0xB3, "RATE"),
    (0xB8, "FUNCTION BLOCK"),
];

/// An opcode of the tape subunit and its first operand: what that says to it, or of it.
pub const TAPE_OPERANDS: [(u16, &str); 11] = [
    (0xC1_60, "EJECT"),
    (0xC2_75, "START"),
    (0xC2_7D, "PAUSE"),
    (0xC3_75, "FORWARD"),
    (0xC3_7D, "FORWARD PAUSE"),
    (0xC3_65, "REVERSE"),
    (0xC3_6D, "REVERSE PAUSE"),
    (0xC4_60, "STOP"),
    (0xC4_65, "REWIND"),
    (0xC4_75, "FAST FORWARD"),
    (0xD0_7F, "?"),
];

/// An opcode of every address and its first operand.
pub const OPERANDS: [(u16, &str); 3] = [(0xB2_60, "OFF"), (0xB2_70, "ON"), (0xB2_7F, "?")];

// What the first operand says to the tape subunit, or of it.
pub(crate) fn tape_operand_name(opcode: u8, operand: u8) -> Option<&'static str>
    ensures { option_copied result ≡ tape_operand_name opcode operand }
{
    name_in(&TAPE_OPERANDS, 256 * u16::from(opcode) + u16::from(operand))
}

// What the first operand says to every address, or of it.
pub(crate) fn operand_name(opcode: u8, operand: u8) -> Option<&'static str>
    ensures { option_copied result ≡ operand_name opcode operand }
{
    name_in(&OPERANDS, 256 * u16::from(opcode) + u16::from(operand))
}
