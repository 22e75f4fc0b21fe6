ghost use Rattle.std.specs.Prelude.{◌≡◌};
ghost use Rattle.fw_fcp.specs.Tables.{row_of, has_opcode};
ghost use Rattle.fw_tape.specs.Rows.{control_rows, status_rows, notify_rows, rows_of};

use crate::Transport;
use fw_fcp::{CONTROL, NOTIFY, STATUS, is_padding};

/// The rows of the tape subunit's table of commands.
#[derive(Clone, Copy)]
pub enum TapeRow {
    /// The tape goes out.
    Eject,
    /// The transport enters a state.
    Enter(Transport),
    /// The transport's state.
    TransportState,
    /// The time code of the frame at which the tape stands.
    TimeCode,
}

impl TapeRow {
    /// The row that a command of this type is, if it is one. An inquiry is read as the control command that it asks for.
    #[inline(always)]
    pub fn of(code: u8, opcode: u8, operands: &[u8]) -> Option<TapeRow>
        ensures { result ≡ row_of (rows_of code) opcode operands.now }
    {
        match code {
            CONTROL => control_row(opcode, operands),
            STATUS => status_row(opcode, operands),
            NOTIFY => notify_row(opcode, operands),
            _ => None,
        }
    }

    /// Some control command has this opcode.
    pub fn is_controlled(opcode: u8) -> bool
        ensures { result ≡ has_opcode control_rows opcode }
    {
        matches!(opcode, 0xC1..=0xC4)
    }
}

fn control_row(opcode: u8, operands: &[u8]) -> Option<TapeRow>
    ensures { result ≡ row_of control_rows opcode operands.now }
{
    let (operand, rest) = operands.split_first()?;
    let row = match (opcode, *operand) {
        (0xC1, 0x60) => TapeRow::Eject,
        (0xC2, 0x75) => TapeRow::Enter(Transport::Record),
        (0xC2, 0x7D) => TapeRow::Enter(Transport::RecordPause),
        (0xC3, 0x75) => TapeRow::Enter(Transport::Play),
        (0xC3, 0x7D) => TapeRow::Enter(Transport::PlayPause),
        (0xC3, 0x65) => TapeRow::Enter(Transport::Reverse),
        (0xC3, 0x6D) => TapeRow::Enter(Transport::ReversePause),
        (0xC4, 0x60) => TapeRow::Enter(Transport::Stop),
        (0xC4, 0x65) => TapeRow::Enter(Transport::Rewind),
        (0xC4, 0x75) => TapeRow::Enter(Transport::FastForward),
        _ => return None,
    };
    if is_padding(rest) { Some(row) } else { None }
}

fn status_row(opcode: u8, operands: &[u8]) -> Option<TapeRow>
    ensures { result ≡ row_of status_rows opcode operands.now }
{
    match (opcode, operands) {
        (0xD0, [0x7F, rest @ ..]) if is_padding(rest) => Some(TapeRow::TransportState),
        (0x51, [0x71, _, _, _, _, rest @ ..]) if is_padding(rest) => Some(TapeRow::TimeCode),
        _ => None,
    }
}

fn notify_row(opcode: u8, operands: &[u8]) -> Option<TapeRow>
    ensures { result ≡ row_of notify_rows opcode operands.now }
{
    match (opcode, operands) {
        (0xD0, [0x7F, rest @ ..]) if is_padding(rest) => Some(TapeRow::TransportState),
        _ => None,
    }
}
