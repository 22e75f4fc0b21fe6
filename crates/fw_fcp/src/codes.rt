//! Command types and response codes (AV/C General 3.0, ctype and response). 5, 6, 7 and E hexadecimal are reserved.

/// A command that is to be carried out.
pub const CONTROL: u8 = 0x0;
/// A command that asks for a state.
pub const STATUS: u8 = 0x1;
/// A command that asks whether a control command with these operands is supported.
pub const SPECIFIC_INQUIRY: u8 = 0x2;
/// A command that asks to be told once of a change of a state.
pub const NOTIFY: u8 = 0x3;
/// A command that asks whether a control command with this opcode is supported.
pub const GENERAL_INQUIRY: u8 = 0x4;

/// The response to a command that the target does not support.
pub const NOT_IMPLEMENTED: u8 = 0x8;
/// The response to a control command that was carried out.
pub const ACCEPTED: u8 = 0x9;
/// The response to a command that is supported and cannot be carried out now.
pub const REJECTED: u8 = 0xA;
/// The response to a status command during a transition. It is read, and never given (own).
pub const IN_TRANSITION: u8 = 0xB;
/// The response to a status command, and to an inquiry of what is supported (IMPLEMENTED).
pub const STABLE: u8 = 0xC;
/// The response to a notify command at the change that it asked for.
pub const CHANGED: u8 = 0xD;
/// The first response to a notify command: the state at present.
pub const INTERIM: u8 = 0xF;
