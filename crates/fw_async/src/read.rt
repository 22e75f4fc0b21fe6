//! Read requests and their responses, read from whole packets.

ghost use Rattle.fw_async.specs.Whole.{IsComplete, ReadsAs};

use crate::header::head_at;
use crate::packet::Packet;
use fw_async_fields::{block_at, length_at, offset_at, rcode_at};
use fw_words::quadlet_at;

pub fn read_quadlet_at<'a>(bytes: &'a [u8]) -> Packet<'a>
    requires { IsComplete 4 bytes.now }
    ensures { ReadsAs 4 bytes.now result }
{
    Packet::ReadQuadlet {
        head: head_at(bytes),
        offset: offset_at(bytes),
    }
}

pub fn read_block_at<'a>(bytes: &'a [u8]) -> Packet<'a>
    requires { IsComplete 5 bytes.now }
    ensures { ReadsAs 5 bytes.now result }
{
    Packet::ReadBlock {
        head: head_at(bytes),
        offset: offset_at(bytes),
        length: length_at(bytes) as u16,
    }
}

pub fn read_quadlet_reply_at<'a>(bytes: &'a [u8]) -> Packet<'a>
    requires { IsComplete 6 bytes.now }
    ensures { ReadsAs 6 bytes.now result }
{
    Packet::ReadQuadletReply {
        head: head_at(bytes),
        rcode: rcode_at(bytes),
        value: quadlet_at(bytes, 12).0,
    }
}

pub fn read_block_reply_at<'a>(bytes: &'a [u8]) -> Packet<'a>
    requires { IsComplete 7 bytes.now }
    ensures { ReadsAs 7 bytes.now result }
{
    Packet::ReadBlockReply {
        head: head_at(bytes),
        rcode: rcode_at(bytes),
        bytes: block_at(bytes),
    }
}
