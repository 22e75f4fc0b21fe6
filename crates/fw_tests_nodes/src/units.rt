//! Frames to a unit and its responses.

mod commands;
mod states;
mod worked;

ghost use Rattle.fw_tape.specs.Desks.{AnyVendorByte};

use fw_avc::Unit;
use fw_fcp::{Frame, read_frame};
use fw_tape::Desk;

/// The bytes of a frame; at most 16 are looked at.
fn frame_of(bytes: &[u8]) -> Option<Frame> {
    if bytes.len() > 16 {
        return None;
    }
    let mut frame = Frame::new();
    read_frame(bytes, &mut frame).ok()?;
    Some(frame)
}

/// The response to a frame from node 1, as a unit gives it; None if it is no frame or no command.
fn respond<F: Fn(u16, u32, u16) -> [u8; 480], H: Fn(u32, u8) -> u8>(
    unit: &mut Unit,
    bytes: &[u8],
    desk: &Desk<F, H>,
) -> Option<Frame>
    requires { AnyVendorByte (H.pre desk.now.vendor) }
{
    let command = frame_of(bytes)?;
    if command.code > 4 {
        return None;
    }
    let mut response = Frame::new();
    unit.answer(1, &command, desk, &mut response);
    Some(response)
}
