//! Replies, and the packets that carry them.

ghost use Rattle.std.specs.Prelude.{◌≡◌, ◌≤◌, ◌<◌, ◌^◌, Some, IsSome, IsTrue, length};
ghost use Rattle.fw_async.specs.Async.{Fits};
ghost use Rattle.fw_async_fields.specs.Data.{AreBytes, is_reply_size};
ghost use Rattle.fw_async.specs.Quadlets.{request_packet as quadlet_packet, old_value as old_part};
ghost use Rattle.fw_async.specs.Reader.{Spells};
ghost use Rattle.fw_async.specs.declared.packet.Packet.{Packet as PacketRecord};
ghost use Rattle.fw_node.specs.Packets.{request_in, response_to, response_head, old_bytes, reply_in, old_value};

use fw_async::{Head, Packet, PacketRoom, QuadletRequest, node_id};
use fw_csr::Reply;
use fw_words::{Bytes, Bytes8, Data, Quadlet, put_quadlet, quadlet_at};

/// The retry code of each packet, retry_X (own).
pub const RETRY_X: u8 = 1;

/// The packet by which node `number` answers a request packet with this reply.
pub fn response(number: u8, p: &Packet, reply: Reply) -> Packet<'static>
    requires number { number ≤ 62 }
    requires request { IsSome (request_in p.now) }
    ensures packet { response_to number p.now reply ≡ Some result }
    ensures fits { reply.rcode < 2 ^ 4 → Fits p.now → Fits result }
{
    let Reply { rcode, value } = reply;
    match p {
        Packet::ReadQuadlet { head, .. } => Packet::ReadQuadletReply {
            head: response_head(number, head),
            rcode,
            value,
        },
        Packet::ReadBlock { head, .. } => Packet::ReadBlockReply {
            head: response_head(number, head),
            rcode,
            bytes: Data::new(&[]),
        },
        Packet::WriteQuadlet { head, .. } | Packet::WriteBlock { head, .. } => Packet::WriteReply {
            head: response_head(number, head),
            rcode,
        },
        Packet::Lock { head, function, .. } => {
            lock_response(response_head(number, head), *function, reply)
        }
        _ => unreachable!(),
    }
}

/// `response` to a request of one quadlet as bytes, in place of what `out` held.
pub fn put_reply(number: u8, asked: &QuadletRequest, reply: Reply, out: &mut PacketRoom)
    requires number { number ≤ 62 }
    requires rcode { reply.rcode < 2 ^ 4 }
    requires fits { Fits (quadlet_packet asked.now) }
    ensures { (r : PacketRecord) → response_to number (quadlet_packet asked.now) reply ≡ Some r → Spells r out.new }
{
    let head = response_head(number, &asked.head);
    match asked.swap {
        None => out.put_read_reply(&head, reply.rcode, reply.value),
        Some(_) => out.put_swap_reply(&head, reply.rcode, old_quadlet(reply)),
    }
}

/// The old value, if the lock was carried out.
fn old_quadlet(reply: Reply) -> Option<u32>
    ensures { old_part result ≡ old_bytes reply }
{
    if reply.is_complete() {
        Some(reply.value)
    } else {
        None
    }
}

/// The response to a lock request with this function, with the old value if the lock was carried out.
fn lock_response(head: Head, function: u8, reply: Reply) -> Packet<'static>
    ensures packet { result ≡ Packet.LockReply head reply.rcode function (old_bytes reply) }
    ensures sizes { IsTrue (is_reply_size (length (old_bytes reply))) }
    ensures bytes { AreBytes (old_bytes reply) }
{
    Packet::LockReply {
        head,
        rcode: reply.rcode,
        function,
        bytes: old_bytes(reply),
    }
}

/// To the requester, under the request's transaction label.
fn response_head(number: u8, request: &Head) -> Head
    requires { number ≤ 62 }
    ensures { result ≡ response_head number request.now }
{
    Head {
        destination: request.source,
        tl: request.tl,
        rt: RETRY_X,
        pri: 0,
        source: node_id(number),
    }
}

/// The data of a lock response: the old value, if the lock was carried out.
fn old_bytes(reply: Reply) -> Bytes8
    ensures value { result ≡ old_bytes reply }
    ensures size { IsTrue (is_reply_size (length result)) }
    ensures bytes { AreBytes result }
{
    let mut bytes = Bytes::new();
    if let Some(old) = old_quadlet(reply) {
        bytes.append(&put_quadlet(Quadlet(old)));
    }
    bytes
}

/// The reply that a response packet carries, with its response code. None if the packet is no response, or carries
/// other data than a quadlet.
pub fn reply_in(p: &Packet) -> Option<Reply>
    ensures { result ≡ reply_in p.now }
{
    match p {
        Packet::WriteReply { rcode, .. } => Some(Reply {
            rcode: *rcode,
            value: 0,
        }),
        Packet::ReadQuadletReply { rcode, value, .. } => Some(Reply {
            rcode: *rcode,
            value: *value,
        }),
        Packet::ReadBlockReply { rcode, bytes, .. } => old_value(*rcode, bytes.as_slice()),
        Packet::LockReply { rcode, bytes, .. } => old_value(*rcode, bytes.as_slice()),
        _ => None,
    }
}

/// The reply with this data: a quadlet, or none.
fn old_value(rcode: u8, bytes: &[u8]) -> Option<Reply>
    ensures { result ≡ old_value rcode bytes.now }
{
    let value = match bytes.len() {
        0 => 0,
        4 => quadlet_at(bytes, 0).0,
        _ => return None,
    };
    Some(Reply { rcode, value })
}
