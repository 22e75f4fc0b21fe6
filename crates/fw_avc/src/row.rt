ghost use Rattle.std.specs.Prelude.{◌≡◌, ◌≤◌, IfSome, length};
ghost use Rattle.fw_fcp.specs.Tables.{row_of, has_opcode};
ghost use Rattle.fw_avc.specs.Rows.{control_rows, status_rows, notify_rows, rows_of, operands_of, IsOfType};

use crate::company;
use fw_fcp::{CONTROL, NOTIFY, STATUS, is_padding};

/// The rows of the unit's own table of commands.
#[derive(Clone, Copy)]
pub enum UnitRow {
    /// UNIT INFO.
    UnitInfo,
    /// SUBUNIT INFO.
    SubunitInfo,
    /// PLUG INFO of the serial bus.
    PlugInfo,
    /// POWER on, if true, or off.
    SetPower(bool),
    /// POWER, as a state.
    PowerState,
    /// VENDOR DEPENDENT of the unit's company.
    VendorDependent,
}

impl UnitRow {
    /// The row that a command of this type is, if it is one. An inquiry is read as the control command that it asks for.
    pub fn of(code: u8, opcode: u8, operands: &[u8]) -> Option<UnitRow>
        ensures row { result ≡ row_of (rows_of code) opcode operands.now }
        ensures command { IfSome result (IsOfType code) }
        ensures operands { IfSome result (λ row. operands_of row ≤ length operands.now) }
    {
        match code {
            CONTROL => control_row(opcode, operands),
            STATUS => status_row(opcode, operands),
            NOTIFY => notify_row(opcode, operands),
            _ => None,
        }
    }

    /// Some control command has this opcode.
    pub fn is_controlled(opcode: u8) -> bool
        ensures { result ≡ has_opcode control_rows opcode }
    {
        matches!(opcode, 0xB2 | 0x00)
    }
}

fn control_row(opcode: u8, operands: &[u8]) -> Option<UnitRow>
    ensures row { result ≡ row_of control_rows opcode operands.now }
    ensures command { IfSome result (IsOfType 0) }
    ensures operands { IfSome result (λ row. operands_of row ≤ length operands.now) }
{
    match (opcode, operands) {
        (0xB2, [0x70, rest @ ..]) if is_padding(rest) => Some(UnitRow::SetPower(true)),
        (0xB2, [0x60, rest @ ..]) if is_padding(rest) => Some(UnitRow::SetPower(false)),
        (0x00, [company::HIGH, company::MIDDLE, company::LOW, ..]) => Some(
            UnitRow::VendorDependent,
        ),
        _ => None,
    }
}

fn status_row(opcode: u8, operands: &[u8]) -> Option<UnitRow>
    ensures row { result ≡ row_of status_rows opcode operands.now }
    ensures command { IfSome result (IsOfType 1) }
    ensures operands { IfSome result (λ row. operands_of row ≤ length operands.now) }
{
    if let (0xB2, [0x7F, rest @ ..]) = (opcode, operands) {
        return if is_padding(rest) {
            Some(UnitRow::PowerState)
        } else {
            None
        };
    }
    let [first, _, _, _, _, rest @ ..] = operands else {
        return None;
    };
    let row = match (opcode, *first) {
        (0x30, _) => UnitRow::UnitInfo,
        (0x31, page) if page % 16 == 7 && page < 0x80 => UnitRow::SubunitInfo,
        (0x02, 0x00) => UnitRow::PlugInfo,
        _ => return None,
    };
    if is_padding(rest) { Some(row) } else { None }
}

fn notify_row(opcode: u8, operands: &[u8]) -> Option<UnitRow>
    ensures row { result ≡ row_of notify_rows opcode operands.now }
    ensures command { IfSome result (IsOfType 3) }
    ensures operands { IfSome result (λ row. operands_of row ≤ length operands.now) }
{
    match (opcode, operands) {
        (0xB2, [0x7F, rest @ ..]) if is_padding(rest) => Some(UnitRow::PowerState),
        _ => None,
    }
}
