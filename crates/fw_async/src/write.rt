//! Write requests and their response, read from whole packets.

ghost use Rattle.fw_async.specs.Whole.{IsComplete, ReadsAs};

use crate::header::head_at;
use crate::packet::Packet;
use fw_async_fields::{block_at, offset_at, rcode_at};
use fw_words::quadlet_at;

pub fn write_quadlet_at<'a>(bytes: &'a [u8]) -> Packet<'a>
    requires { IsComplete 0 bytes.now }
    ensures { ReadsAs 0 bytes.now result }
{
    Packet::WriteQuadlet {
        head: head_at(bytes),
        offset: offset_at(bytes),
        value: quadlet_at(bytes, 12).0,
    }
}

pub fn write_block_at<'a>(bytes: &'a [u8]) -> Packet<'a>
    requires { IsComplete 1 bytes.now }
    ensures { ReadsAs 1 bytes.now result }
{
    Packet::WriteBlock {
        head: head_at(bytes),
        offset: offset_at(bytes),
        bytes: block_at(bytes),
    }
}

pub fn write_reply_at<'a>(bytes: &'a [u8]) -> Packet<'a>
    requires { IsComplete 2 bytes.now }
    ensures { ReadsAs 2 bytes.now result }
{
    Packet::WriteReply {
        head: head_at(bytes),
        rcode: rcode_at(bytes),
    }
}
