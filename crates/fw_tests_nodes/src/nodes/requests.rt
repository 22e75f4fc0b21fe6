//! Nodes of each kind, and requests to them.

ghost use Rattle.std.specs.Prelude.{◌≡◌, None, IsSome, IsTrue};
ghost use Rattle.fw_terms.specs.Devices.{has_link};
ghost use Rattle.fw_node.specs.Packets.{request_in};

use fw_async::{Head, Packet};
use fw_csr::REGISTER_SPACE;
use fw_node::Node;
use fw_terms::DeviceKind;
use fw_words::{Bytes, Data, Quadlet, put_quadlet, quadlet_at};
use std::process::Abort;

/// The cycle of each request.
pub const NOW: u64 = 8001;

/// A deck as node 1 and manager, a camcorder as node 0, or a computer as node 62, at 100, 200 and 400 Mbit/s.
pub fn node_of(kind: DeviceKind) -> Node
    requires { IsTrue (has_link kind) }
    ensures number { IsSome result.number }
    ensures link { IsTrue (has_link result.kind) }
    ensures given { result.waiting ≡ None }
{
    let (device, rate, number, manager) = match kind {
        DeviceKind::Camcorder => (0, 1, 0, false),
        DeviceKind::Computer => (62, 2, 62, false),
        _ => (5, 0, 1, true),
    };
    let mut node = Node::new(kind.code(), device, rate, false);
    node.reset(number, manager);
    node
}

/// A request from node 3 under transaction label 5.
const HEAD: Head = Head {
    destination: 0xFFC1,
    tl: 5,
    rt: 0,
    pri: 0,
    source: 0xFFC3,
};

/// A request at an offset.
#[derive(Clone, Copy)]
pub enum Ask {
    Read,
    /// compare_swap of two quadlets.
    Swap(u32, u32),
    /// compare_swap of two eight-byte values.
    SwapOctlets(u32, u32),
    FetchAdd(u32),
    ReadBlock,
    Write,
    /// A write of two bytes, which are no frame.
    WriteBlock,
}

// The data of a lock.
fn bytes_of(words: &[u32]) -> Bytes<16> {
    let mut bytes = Bytes::new();
    for &word in words {
        if bytes.as_slice().len() <= 12 {
            bytes.append(&put_quadlet(Quadlet(word)));
        }
    }
    bytes
}

// The packet of a request.
fn packet_of(ask: Ask, offset: u64) -> Packet<'static>
    ensures { IsSome (request_in result) }
{
    let (function, bytes) = match ask {
        Ask::Read => return Packet::ReadQuadlet { head: HEAD, offset },
        Ask::ReadBlock => {
            return Packet::ReadBlock {
                head: HEAD,
                offset,
                length: 4,
            };
        }
        Ask::Write => {
            return Packet::WriteQuadlet {
                head: HEAD,
                offset,
                value: 0x0020_C375,
            };
        }
        Ask::WriteBlock => {
            return Packet::WriteBlock {
                head: HEAD,
                offset,
                bytes: Data::new(&[0x00, 0xFF]),
            };
        }
        Ask::Swap(argument, new) => (2, bytes_of(&[argument, new])),
        Ask::SwapOctlets(argument, new) => (2, bytes_of(&[0, argument, 0, new])),
        Ask::FetchAdd(value) => (3, bytes_of(&[value])),
    };
    Packet::Lock {
        head: HEAD,
        offset,
        function,
        bytes,
    }
}

// The response is of the request's kind.
fn is_of_kind(ask: Ask, reply: &Packet) -> bool {
    match ask {
        Ask::Read => matches!(reply, Packet::ReadQuadletReply { .. }),
        Ask::ReadBlock => matches!(reply, Packet::ReadBlockReply { .. }),
        Ask::Write | Ask::WriteBlock => matches!(reply, Packet::WriteReply { .. }),
        Ask::Swap(..) | Ask::SwapOctlets(..) | Ask::FetchAdd(_) => {
            matches!(reply, Packet::LockReply { .. })
        }
    }
}

// The one quadlet of a response's data, which may be empty.
fn quadlet_in(rt: &impl Abort, data: &[u8]) -> Option<u32> {
    if data.len() == 4 {
        return Some(quadlet_at(data, 0).0);
    }
    assert!(rt; data.is_empty());
    None
}

/// The response code, and the quadlet that the response shows, if it shows one.
pub fn answer(rt: &impl Abort, node: &mut Node, ask: Ask, offset: u16) -> (u8, Option<u32>)
    requires number { IsSome node.old.number }
    requires link { IsTrue (has_link node.old.kind) }
    ensures number { IsSome node.new.number }
    ensures link { IsTrue (has_link node.new.kind) }
{
    let p = packet_of(ask, REGISTER_SPACE + u64::from(offset));
    let reply = node.answer_packet(NOW, &p);
    assert!(rt; is_of_kind(ask, &reply), "{offset:X}");
    match &reply {
        Packet::ReadQuadletReply { rcode, value, .. } => (*rcode, Some(*value)),
        Packet::ReadBlockReply { rcode, bytes, .. } => (*rcode, quadlet_in(rt, bytes.as_slice())),
        Packet::WriteReply { rcode, .. } => (*rcode, None),
        Packet::LockReply { rcode, bytes, .. } => (*rcode, quadlet_in(rt, bytes.as_slice())),
        _ => panic!(rt; "{offset:X}"),
    }
}
