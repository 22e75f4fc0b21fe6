//! Requests, and the packets that ask them.

ghost use Rattle.std.specs.Prelude.{◌≡◌, ◌≤◌, Some, IsSome};
ghost use Rattle.fw_async.specs.Async.{Fits, spelling};
ghost use Rattle.fw_async.specs.Quadlets.{request_packet as quadlet_packet};
ghost use Rattle.fw_node.specs.Packets.{request_in, requester, packet_of, request_head, RequestFits};

use crate::response::RETRY_X;
use fw_async::{Head, Packet, PacketRoom, QuadletRequest, node_id, number_of};
use fw_csr::{QuadletAccess, Request};
use fw_terms::Label;
use fw_words::{Bytes, Bytes16, Data, Swap};

/// What a request packet asks.
pub fn request_of<'a>(p: &Packet<'a>) -> Request<'a>
    requires { IsSome (request_in p.now) }
    ensures { request_in p.now ≡ Some result }
{
    match *p {
        Packet::ReadQuadlet { offset, .. } => Request::Read { offset },
        Packet::ReadBlock { offset, length, .. } => Request::ReadBlock { offset, length },
        Packet::WriteQuadlet { offset, value, .. } => Request::Write { offset, value },
        Packet::WriteBlock {
            offset,
            ref bytes,
            ..
        } => Request::WriteBlock {
            offset,
            bytes: Data::new(bytes.as_slice()),
        },
        Packet::Lock {
            offset,
            function,
            ref bytes,
            ..
        } => lock_request(offset, function, bytes),
        _ => unreachable!(),
    }
}

/// A lock at an offset, with this function and data.
fn lock_request(offset: u64, function: u8, bytes: &Bytes16) -> Request<'static>
    ensures { result ≡ Request.Lock offset function bytes.now }
{
    Request::Lock {
        offset,
        function,
        bytes: copy_of(bytes),
    }
}

/// The number of the node that a request packet comes from.
pub fn requester(p: &Packet) -> u8
    requires { IsSome (request_in p.now) }
    ensures { result ≡ requester p.now }
{
    let source = match p {
        Packet::ReadQuadlet { head, .. }
        | Packet::ReadBlock { head, .. }
        | Packet::WriteQuadlet { head, .. }
        | Packet::WriteBlock { head, .. }
        | Packet::Lock { head, .. } => head.source,
        _ => unreachable!(),
    };
    number_of(source)
}

fn copy_of(bytes: &Bytes16) -> Bytes16
    ensures { result ≡ bytes.now }
{
    let mut copy = Bytes::new();
    copy.append(bytes.as_slice());
    copy
}

/// The packet by which node `from` asks node `to` this, both of the local bus, as a part of this.
/// It has retry code 1, retry_X, and priority 0 (own).
pub fn request_packet<'a>(from: u8, to: u8, label: Label, r: &Request<'a>) -> Packet<'a>
    requires from { from ≤ 62 }
    requires to { to ≤ 62 }
    ensures packet { result ≡ packet_of (request_head from to label) r.now }
    ensures fits { RequestFits r.now → Fits result }
{
    let head = request_head(from, to, label);
    match *r {
        Request::Read { offset } => Packet::ReadQuadlet { head, offset },
        Request::ReadBlock { offset, length } => Packet::ReadBlock {
            head,
            offset,
            length,
        },
        Request::Write { offset, value } => Packet::WriteQuadlet {
            head,
            offset,
            value,
        },
        Request::WriteBlock { offset, ref bytes } => Packet::WriteBlock {
            head,
            offset,
            bytes: Data::new(bytes.as_slice()),
        },
        Request::Lock {
            offset,
            function,
            ref bytes,
        } => lock_packet(head, offset, function, bytes),
    }
}

/// The packet by which node `from` asks node `to` for a quadlet, as bytes, in place of what `out` held: `request_packet`.
#[inline(always)]
pub fn put_request(from: u8, to: u8, label: Label, r: &QuadletAccess, out: &mut PacketRoom)
    requires from { from ≤ 62 }
    requires to { to ≤ 62 }
    requires fits { Fits (packet_of (request_head from to label) r.now) }
    ensures { out.new ≡ spelling (packet_of (request_head from to label) r.now) }
{
    let (offset, swap) = r.parts();
    out.put_request(&QuadletRequest {
        head: request_head(from, to, label),
        offset,
        swap,
    });
}

/// What the packet of a request of one quadlet asks.
pub fn asked_of(q: &QuadletRequest) -> QuadletAccess
    ensures { request_in (quadlet_packet q.now) ≡ Some result }
{
    // Word by word: copied whole, the two are put into one register and taken out again at each request.
    let swap = match q.swap {
        None => None,
        Some(Swap { argument, new }) => Some(Swap { argument, new }),
    };
    QuadletAccess::new(q.offset, swap)
}

/// From one node of the local bus to another, under a transaction label.
fn request_head(from: u8, to: u8, label: Label) -> Head
    requires from { from ≤ 62 }
    requires to { to ≤ 62 }
    ensures { result ≡ request_head from to label }
{
    Head {
        destination: node_id(to),
        tl: label.code(),
        rt: RETRY_X,
        pri: 0,
        source: node_id(from),
    }
}

/// The lock request packet at an offset, with this function and data.
fn lock_packet(head: Head, offset: u64, function: u8, bytes: &Bytes16) -> Packet<'static>
    ensures { result ≡ Packet.Lock head offset function bytes.now }
{
    Packet::Lock {
        head,
        offset,
        function,
        bytes: copy_of(bytes),
    }
}
