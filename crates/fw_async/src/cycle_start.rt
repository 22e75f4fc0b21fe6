//! Cycle starts, read from whole packets.

ghost use Rattle.fw_async.specs.Whole.{IsComplete, ReadsAs};

use crate::header::head_at;
use crate::packet::Packet;
use fw_async_fields::offset_at;
use fw_words::quadlet_at;

pub fn cycle_start_at<'a>(bytes: &'a [u8]) -> Packet<'a>
    requires { IsComplete 8 bytes.now }
    ensures { ReadsAs 8 bytes.now result }
{
    Packet::CycleStart {
        head: head_at(bytes),
        offset: offset_at(bytes),
        time: quadlet_at(bytes, 12).0,
    }
}
