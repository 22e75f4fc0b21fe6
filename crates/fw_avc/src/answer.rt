ghost use Rattle.std.specs.Prelude.{◌≡◌, ◌≤◌, ◌==◌, ◌&&◌, IsTrue, length, if◌then◌else◌};
ghost use Rattle.fw_fcp.specs.Frames.{Fits};
ghost use Rattle.fw_tape.specs.Desks.{AnyVendorByte, NoVendor};
ghost use Rattle.fw_avc.specs.Laws.{is_refusal};
ghost use Rattle.fw_avc.specs.Rows.{operands_of, IsOfType};
ghost use Rattle.fw_avc.specs.State.{with_power};
ghost use Rattle.fw_avc.specs.Replies.{OfUnit, IsResponse, ruling, row_ruling, state_after, unit_after, is_bare, asked, shows_state, subunits};

use crate::vendor::vendor_dependent;
use crate::{Kept, Unit, UnitRow, Watched, company};
use fw_fcp::{
    ACCEPTED, CONTROL, Frame, GENERAL_INQUIRY, INTERIM, NOT_IMPLEMENTED, NOTIFY, REJECTED,
    SPECIFIC_INQUIRY, STABLE, is_padding,
};
use fw_tape::{Desk, TapeRow, Transport};

impl Unit {
    /// Carries a command frame from a node out, and puts the response into `out`: the first rule that holds, and then the row
    /// of the table. What is answered NOT IMPLEMENTED or REJECTED changes nothing.
    pub fn answer<F: Fn(u16, u32, u16) -> [u8; 480], H: Fn(u32, u8) -> u8>(
        &mut self,
        from: u8,
        f: &Frame,
        desk: &Desk<F, H>,
        out: &mut Frame,
    )
        requires desk { AnyVendorByte (H.pre desk.now.vendor) }
        requires code { f.now.code ≤ 4 }
        ensures response { IsResponse (H.post desk.now.vendor) self.old f.now (ruling self.old f.now) out.new }
        ensures unit { self.new ≡ unit_after self.old from f.now }
        ensures fits { Fits f.now → Fits out.new }
        ensures refused { IsTrue (is_refusal out.new.code) → self.new ≡ self.old }
    {
        self.answer_by_address(from, f, desk, out);
    }

    fn answer_by_address<F: Fn(u16, u32, u16) -> [u8; 480], H: Fn(u32, u8) -> u8>(
        &mut self,
        from: u8,
        f: &Frame,
        desk: &Desk<F, H>,
        out: &mut Frame,
    )
        requires desk { AnyVendorByte (H.pre desk.now.vendor) }
        requires code { f.now.code ≤ 4 }
        ensures response { IsResponse (H.post desk.now.vendor) self.old f.now (ruling self.old f.now) out.new }
        ensures unit { self.new ≡ unit_after self.old from f.now }
    {
        match (f.kind, f.id) {
            (31, 7) => self.unit_command(from, f, desk, out),
            (4, 0) => self.tape_command(from, f, out),
            _ => out.repeat(f, NOT_IMPLEMENTED),
        }
    }

    /// A command to the unit itself.
    fn unit_command<F: Fn(u16, u32, u16) -> [u8; 480], H: Fn(u32, u8) -> u8>(
        &mut self,
        from: u8,
        f: &Frame,
        desk: &Desk<F, H>,
        out: &mut Frame,
    )
        requires desk { AnyVendorByte (H.pre desk.now.vendor) }
        requires kind { f.now.kind ≡ 31 }
        requires id { f.now.id ≡ 7 }
        ensures response { IsResponse (H.post desk.now.vendor) self.old f.now (ruling self.old f.now) out.new }
        ensures unit { self.new ≡ unit_after self.old from f.now }
    {
        let operands = f.operands.as_slice();
        match f.code {
            SPECIFIC_INQUIRY => inquired(
                f,
                UnitRow::of(CONTROL, f.opcode, operands).is_some(),
                out,
            ),
            GENERAL_INQUIRY => inquired(f, UnitRow::is_controlled(f.opcode) && is_bare(f), out),
            code => match UnitRow::of(code, f.opcode, operands) {
                Some(row) => self.unit_row(from, f, row, desk, out),
                None => out.repeat(f, NOT_IMPLEMENTED),
            },
        }
    }

    /// A command that is a row of the unit's table.
    fn unit_row<F: Fn(u16, u32, u16) -> [u8; 480], H: Fn(u32, u8) -> u8>(
        &mut self,
        from: u8,
        f: &Frame,
        row: UnitRow,
        desk: &Desk<F, H>,
        out: &mut Frame,
    )
        requires desk { AnyVendorByte (H.pre desk.now.vendor) }
        requires kind { f.now.kind ≡ 31 }
        requires command { IsOfType f.now.code row }
        requires operands { operands_of row ≤ length f.now.operands }
        ensures response { IsResponse (H.post desk.now.vendor) self.old f.now (row_ruling self.old f.now (OfUnit row)) out.new }
        ensures unit { self.new ≡ state_after self.old from f.now (row_ruling self.old f.now (OfUnit row)) }
    {
        match row {
            UnitRow::UnitInfo => out.show(
                f,
                STABLE,
                f.opcode,
                &[0x07, 0x20, company::HIGH, company::MIDDLE, company::LOW],
            ),
            UnitRow::SubunitInfo => {
                out.show(f, STABLE, f.opcode, &subunits(f.operands.as_slice()[0]))
            }
            UnitRow::PlugInfo => {
                out.show(f, STABLE, f.opcode, &[0, self.inputs, self.outputs, 0, 0])
            }
            UnitRow::SetPower(on) => {
                self.set_power(on);
                out.repeat(f, ACCEPTED)
            }
            UnitRow::PowerState => {
                let power = self.power;
                self.show(from, f, Watched::Power(power), out)
            }
            UnitRow::VendorDependent => vendor_dependent(f, desk, out),
        }
    }

    /// Power off stops the transport.
    fn set_power(&mut self, on: bool)
        ensures { self.new ≡ with_power on self.old }
    {
        self.power = on;
        if !on {
            let _ = self.tape.enter(Transport::Stop);
        }
    }

    /// The response that shows a state. A NOTIFY request is kept, with the value that it is told; if four are kept, it is
    /// rejected.
    fn show(&mut self, from: u8, f: &Frame, value: Watched, out: &mut Frame)
        requires { 1 ≤ length f.now.operands }
        ensures response { out.new ≡ (if (f.now.code == 3) && (length self.old.kept == 4) then record f.now { code = 0xA } else shows_state f.now value) }
        ensures unit { self.new ≡ (if (f.now.code == 3) && (length self.old.kept == 4) then self.old else asked self.old from f.now value) }
    {
        let (opcode, operand) = value.codes();
        if f.code != NOTIFY {
            out.show(f, STABLE, opcode, &[operand]);
            return;
        }
        match self.kept.try_push(Kept { node: from, value }) {
            Ok(()) => out.show(f, INTERIM, opcode, &[operand]),
            Err(_) => out.repeat(f, REJECTED),
        }
    }

    /// A command to the tape subunit.
    fn tape_command(&mut self, from: u8, f: &Frame, out: &mut Frame)
        requires kind { f.now.kind ≡ 4 }
        requires id { f.now.id ≡ 0 }
        requires code { f.now.code ≤ 4 }
        ensures response { IsResponse NoVendor self.old f.now (ruling self.old f.now) out.new }
        ensures unit { self.new ≡ unit_after self.old from f.now }
    {
        let is_row = TapeRow::of(f.code, f.opcode, f.operands.as_slice()).is_some();
        if is_row && !self.power {
            out.repeat(f, REJECTED);
            return;
        }
        if f.code != NOTIFY {
            self.tape.command(f, out);
            return;
        }
        if !is_row {
            out.repeat(f, NOT_IMPLEMENTED);
            return;
        }
        let transport = self.tape.transport();
        self.show(from, f, Watched::Transport(transport), out);
    }
}

/// The response to an inquiry, by whether what it asks for is a row.
fn inquired(f: &Frame, found: bool, out: &mut Frame)
    ensures { out.new ≡ record f.now { code = if found then 0xC else 8 } }
{
    out.repeat(f, if found { STABLE } else { NOT_IMPLEMENTED });
}

/// No operands, but for the zeros by which a frame may be longer; all operands of opcode 0 count.
fn is_bare(f: &Frame) -> bool
    ensures { result ≡ is_bare f.now }
{
    let operands = f.operands.as_slice();
    if f.opcode == 0 {
        operands.is_empty()
    } else {
        is_padding(operands)
    }
}

/// A page of the table of subunits: the tape subunit stands on page 0.
fn subunits(page: u8) -> [u8; 5]
    ensures { result ≡ subunits page }
{
    let first = if page == 0x07 { 0x20 } else { 0xFF };
    [page, first, 0xFF, 0xFF, 0xFF]
}
