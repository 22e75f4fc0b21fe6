ghost use Rattle.std.specs.Prelude.{◌≡◌, ◌<◌, ◌≤◌, IsOk, OnOk, OnErr, length};
ghost use Rattle.std.specs.Result.{result_err};
ghost use Rattle.fw_fcp.specs.Frames.{Fits, spelling, frame_fault, is_reserved};

use crate::{Frame, FrameFault};

/// A command type or response code that the standard reserves.
fn is_reserved(code: u8) -> bool
    ensures { result ≡ is_reserved code }
{
    matches!(code, 0x5..=0x7 | 0xE)
}

/// Replaces `out` by the frame that all of the bytes, at most a block's 512, spell.
///
/// The first fault that holds is answered: `Short` under three bytes, `NotAvc` if the first four bits are not 0, and
/// `ReservedType` if the next four are a reserved code. Then `out` stays as it was.
pub fn read_frame(bytes: &[u8], out: &mut Frame) -> Result<(), FrameFault>
    requires { length bytes.now ≤ 512 }
    ensures fault { result_err result ≡ frame_fault bytes.now }
    ensures found { OnOk result (Fits out.new × (bytes.now ≡ spelling out.new)) }
    ensures only { (f : Frame) → Fits f → bytes.now ≡ spelling f → IsOk result × (out.new ≡ f) }
    ensures same { OnErr result (out.new ≡ out.old) }
{
    if bytes.len() < 3 {
        return Err(FrameFault::Short);
    }
    let transaction_set = bytes[0] >> 4;
    if transaction_set != 0 {
        return Err(FrameFault::NotAvc(transaction_set));
    }
    if is_reserved(bytes[0]) {
        return Err(FrameFault::ReservedType(bytes[0]));
    }
    out.code = bytes[0];
    out.kind = bytes[1] >> 3;
    out.id = bytes[1] & 7;
    out.opcode = bytes[2];
    out.operands.clear();
    out.operands.append(&bytes[3..]);
    Ok(())
}
