//! Lock requests and their response, read from whole packets.

ghost use Rattle.fw_async.specs.Whole.{IsComplete, ReadsAs};

use crate::header::head_at;
use crate::packet::Packet;
use fw_async_fields::{data_at, function_at, offset_at, rcode_at};

pub fn lock_at<'a>(bytes: &'a [u8]) -> Packet<'a>
    requires { IsComplete 9 bytes.now }
    ensures { ReadsAs 9 bytes.now result }
{
    Packet::Lock {
        head: head_at(bytes),
        offset: offset_at(bytes),
        function: function_at(bytes) as u8,
        bytes: data_at(bytes),
    }
}

pub fn lock_reply_at<'a>(bytes: &'a [u8]) -> Packet<'a>
    requires { IsComplete 11 bytes.now }
    ensures { ReadsAs 11 bytes.now result }
{
    Packet::LockReply {
        head: head_at(bytes),
        rcode: rcode_at(bytes),
        function: function_at(bytes) as u8,
        bytes: data_at(bytes),
    }
}
