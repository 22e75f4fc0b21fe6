ghost use Rattle.std.specs.Prelude.{◌≡◌, ◌≢◌, ◌≤◌, Some, None, length, if◌then◌else◌};
ghost use Rattle.fw_fcp.specs.Tables.{row_of};
ghost use Rattle.fw_tape.specs.Commands.{response, row_response, row_after, tape_after, inquired};
ghost use Rattle.fw_tape.specs.Rows.{rows_of};

use crate::time_code::time_code;
use crate::{Tape, TapeRow};
use fw_fcp::{
    ACCEPTED, CONTROL, Frame, GENERAL_INQUIRY, NOT_IMPLEMENTED, REJECTED, SPECIFIC_INQUIRY, STABLE,
    is_padding,
};

impl Tape {
    /// Carries a command to the tape subunit out, as with power on, and puts the response into `out`.
    pub fn command(&mut self, f: &Frame, out: &mut Frame)
        requires kind { f.now.kind ≡ 4 }
        requires id { f.now.id ≡ 0 }
        requires code { f.now.code ≤ 4 }
        requires not_notify { f.now.code ≢ 3 }
        ensures response { out.new ≡ response self.old f.now }
        ensures tape { self.new ≡ tape_after self.old f.now }
    {
        let operands = f.operands.as_slice();
        match f.code {
            SPECIFIC_INQUIRY => inquired(
                f,
                TapeRow::of(CONTROL, f.opcode, operands).is_some(),
                out,
            ),
            GENERAL_INQUIRY => inquired(
                f,
                TapeRow::is_controlled(f.opcode) && is_padding(operands),
                out,
            ),
            code => match TapeRow::of(code, f.opcode, operands) {
                Some(row) => self.row(f, row, out),
                None => out.repeat(f, NOT_IMPLEMENTED),
            },
        }
    }

    /// The response to a command that is a row.
    fn row(&mut self, f: &Frame, row: TapeRow, out: &mut Frame)
        requires { row_of (rows_of f.now.code) f.now.opcode f.now.operands ≡ Some row }
        ensures response { out.new ≡ row_response self.old f.now (Some row) }
        ensures tape { self.new ≡ row_after self.old (Some row) }
    {
        match row {
            TapeRow::TransportState => {
                let (opcode, operand) = self.state();
                out.show(f, STABLE, opcode, &[operand])
            }
            TapeRow::TimeCode => self.time(f, out),
            TapeRow::Eject => accepted(f, self.eject(), out),
            TapeRow::Enter(transport) => accepted(f, self.enter(transport), out),
        }
    }

    /// The response that shows the time code.
    fn time(&self, f: &Frame, out: &mut Frame)
        requires { 5 ≤ length f.now.operands }
        ensures { out.new ≡ row_response self.now f.now (Some TapeRow.TimeCode) }
    {
        match self.cassette() {
            Some(cassette) => {
                let [frame, second, minute, hour] = time_code(cassette.system, cassette.frame());
                out.show(f, STABLE, f.opcode, &[0x71, frame, second, minute, hour])
            }
            None => out.repeat(f, REJECTED),
        }
    }
}

/// The response to an inquiry, by whether what it asks for is a row.
fn inquired(f: &Frame, found: bool, out: &mut Frame)
    ensures { out.new ≡ inquired f.now found }
{
    out.repeat(f, if found { STABLE } else { NOT_IMPLEMENTED });
}

/// The response to a control command that asks for a tape, by whether one was in.
fn accepted(f: &Frame, was_in: bool, out: &mut Frame)
    ensures { out.new ≡ record f.now { code = if was_in then 9 else 0xA } }
{
    out.repeat(f, if was_in { ACCEPTED } else { REJECTED });
}
