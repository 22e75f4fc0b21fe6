ghost use Rattle.std.specs.Prelude.{◌≡◌};
ghost use Rattle.fw_fcp.specs.Frames.{Fits, spelling};

use crate::Frame;
use fw_words::Bytes512;

/// Replaces `out` by the bytes of a frame.
pub fn write_frame(f: &Frame, out: &mut Bytes512)
    requires { Fits f.now }
    ensures { out.new ≡ spelling f.now }
{
    out.clear();
    out.push(f.code);
    out.push((f.kind << 3) | f.id);
    out.push(f.opcode);
    out.append(f.operands.as_slice());
}
