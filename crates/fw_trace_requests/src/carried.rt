//! What requests carry.

ghost use Rattle.std.specs.Prelude.{◌≡◌, ◌++◌, OnOk};
ghost use Rattle.fw_trace_requests.specs.Answers.{carried_text};
ghost use Rattle.fw_trace_requests.specs.Carried.{frame_told, pair_bytes};

use fw_async::Packet;
use fw_log_frames::append_frame;
use std::alloc::AllocError;

/// What a request carries whose line is made when its turn comes: most frames are the quadlet of a write, or a block of two.
#[derive(Clone, Copy)]
pub enum Carried {
    /// Nothing.
    Nothing,
    /// The quadlet of a write.
    Quadlet(u32),
    /// The two quadlets of a write of a block.
    Pair(u32, u32),
}

// The bytes of two quadlets.
fn pair_bytes(first: u32, second: u32) -> [u8; 8]
    ensures { result ≡ pair_bytes first second }
{
    let [a, b, c, d] = first.to_be_bytes();
    let [e, f, g, h] = second.to_be_bytes();
    [a, b, c, d, e, f, g, h]
}

// Appends the frame that is carried, if any.
#[tactic(auto, unfolding(crate::specs::Carried::frame_told))]
pub(crate) fn put_frame_of(text: &mut Vec<u8>, carried: Carried) -> Result<(), AllocError>
    ensures { OnOk result (text.new.items ≡ text.old.items ++ frame_told carried) }
{
    match carried {
        Carried::Nothing => Ok(()),
        Carried::Quadlet(quadlet) => append_frame(text, &quadlet.to_be_bytes()),
        Carried::Pair(first, second) => append_frame(text, &pair_bytes(first, second)),
    }
}

// Appends the frame that a request carries.
#[tactic(auto, unfolding(crate::specs::Answers::carried_text))]
pub(crate) fn put_carried(text: &mut Vec<u8>, p: &Packet) -> Result<(), AllocError>
    ensures { OnOk result (text.new.items ≡ text.old.items ++ carried_text p.now) }
{
    match p {
        Packet::WriteQuadlet { value, .. } => append_frame(text, &value.to_be_bytes()),
        Packet::WriteBlock { bytes, .. } => append_frame(text, bytes.as_slice()),
        _ => Ok(()),
    }
}
