ghost use Rattle.std.specs.Prelude.{◌≤◌, ◌+◌, length};
ghost use Rattle.fw_tape.specs.Desks.{AnyVendorByte};
ghost use Rattle.fw_avc.specs.Replies.{IsVendorResponse};
ghost use Rattle.fw_avc.specs.Vendor.{AddsMade};

use crate::company;
use fw_fcp::{ACCEPTED, Frame, Operands};
use fw_tape::Desk;

/// The response to VENDOR DEPENDENT of the unit's company: after the company, what the vendor makes of each byte.
pub(crate) fn vendor_dependent<F: Fn(u16, u32, u16) -> [u8; 480], H: Fn(u32, u8) -> u8>(
    f: &Frame,
    desk: &Desk<F, H>,
    out: &mut Frame,
)
    requires desk { AnyVendorByte (H.pre desk.now.vendor) }
    requires company { 3 ≤ length f.now.operands }
    ensures { IsVendorResponse (H.post desk.now.vendor) f.now out.new }
{
    let asked = &f.operands.as_slice()[3..];
    out.code = ACCEPTED;
    out.kind = f.kind;
    out.id = f.id;
    out.opcode = f.opcode;
    out.operands.clear();
    out.operands
        .append(&[company::HIGH, company::MIDDLE, company::LOW]);
    append_made(&mut out.operands, asked, desk);
}

/// Appends what the vendor makes of each byte.
fn append_made<F: Fn(u16, u32, u16) -> [u8; 480], H: Fn(u32, u8) -> u8>(
    operands: &mut Operands,
    asked: &[u8],
    desk: &Desk<F, H>,
)
    requires desk { AnyVendorByte (H.pre desk.now.vendor) }
    requires room { length operands.old + length asked.now ≤ 509 }
    ensures { AddsMade (H.post desk.now.vendor) asked.now operands.old operands.new }
{
    for byte in asked {
        operands.push(desk.vendor_byte(company::COMPANY_ID, *byte));
    }
}
