//! Request packets and their responses, in quadlets.

ghost use Rattle.std.specs.Prelude.{IfSome, IsSome, IsTrue};
ghost use Rattle.fw_async.specs.Reader.{Spells};
ghost use Rattle.fw_terms.specs.Devices.{has_link};

use super::requests::{NOW, node_of};
use arrayvec::ArrayVec;
use fw_async::{Packet, PacketRoom, read_packet};
use fw_node::Node;
use fw_terms::DeviceKind;
use fw_words::{Quadlet, put_quadlet};
use std::process::Abort;

/// The bytes of these quadlets.
pub fn bytes_of(words: &[u32]) -> ArrayVec<u8, 528> {
    let mut bytes = ArrayVec::new();
    for &word in words {
        let _ = bytes.try_extend_from_slice(&put_quadlet(Quadlet(word)));
    }
    bytes
}

/// The packet that these bytes are, if they are one.
pub fn packet_of<'a>(bytes: &'a [u8]) -> Option<Packet<'a>>
    ensures { IfSome result (λ p. Spells p bytes.now) }
{
    match read_packet(bytes) {
        Ok(fed) if fed.used == bytes.len() => fed.packet,
        _ => None,
    }
}

/// The node's response to a request packet is this one, both in quadlets.
fn exchange(rt: &impl Abort, node: &mut Node, request: &[u32], response: &[u32])
    requires number { IsSome node.old.number }
    requires link { IsTrue (has_link node.old.kind) }
    ensures number { IsSome node.new.number }
    ensures link { IsTrue (has_link node.new.kind) }
{
    let request = bytes_of(request);
    let p = match packet_of(request.as_slice()) {
        Some(p) => p,
        None => panic!(rt; "no packet"),
    };
    assert!(rt; matches!(p, Packet::ReadQuadlet { .. } | Packet::Lock { .. }));
    let mut room = PacketRoom::new();
    let _reply = node.serve(NOW, request.as_slice(), &mut room);
    assert!(rt; room.as_slice() == bytes_of(response).as_slice());
}

/// A request of the bus, and its response.
const EXCHANGES: [(&[u32], &[u32]); 7] = [
    // BANDWIDTH_AVAILABLE from 4915 to 2403; the same again finds 2403, twice.
    (
        &[
            0xFFC1_0190,
            0xFFC0_FFFF,
            0xF000_0220,
            0x0008_0002,
            0x1333,
            0x0963,
        ],
        &[0xFFC0_01B0, 0xFFC1_0000, 0, 0x0004_0002, 0x1333],
    ),
    (
        &[
            0xFFC1_0190,
            0xFFC0_FFFF,
            0xF000_0220,
            0x0008_0002,
            0x1333,
            0x0000,
        ],
        &[0xFFC0_01B0, 0xFFC1_0000, 0, 0x0004_0002, 0x0963],
    ),
    (
        &[
            0xFFC1_0190,
            0xFFC0_FFFF,
            0xF000_0220,
            0x0008_0002,
            0x1333,
            0x0000,
        ],
        &[0xFFC0_01B0, 0xFFC1_0000, 0, 0x0004_0002, 0x0963],
    ),
    // A fetch_add is not allowed, and no register stands at 230.
    (
        &[0xFFC1_0190, 0xFFC0_FFFF, 0xF000_0220, 0x0004_0003, 0x0001],
        &[0xFFC0_01B0, 0xFFC1_6000, 0, 0x0000_0003],
    ),
    (
        &[0xFFC1_0140, 0xFFC0_FFFF, 0xF000_0230],
        &[0xFFC0_0160, 0xFFC1_7000, 0, 0],
    ),
    // BUS_MANAGER_ID from 3F to 0, under transaction label 1.
    (
        &[
            0xFFC1_0590,
            0xFFC0_FFFF,
            0xF000_021C,
            0x0008_0002,
            0x003F,
            0x0000,
        ],
        &[0xFFC0_05B0, 0xFFC1_0000, 0, 0x0004_0002, 0x003F],
    ),
    (
        &[0xFFC1_0540, 0xFFC0_FFFF, 0xF000_021C],
        &[0xFFC0_0560, 0xFFC1_0000, 0, 0],
    ),
];

#[test]
fn packets_in_quadlets(rt: HostRuntime) {
    let mut node = node_of(DeviceKind::Deck);
    for &(request, response) in &EXCHANGES {
        exchange(&rt, &mut node, request, response);
    }
    let registers = node.manager().map(|m| m.registers());
    assert!(rt; registers == Some([0, 0x0963, 0xFFFF_FFFF, 0xFFFF_FFFF]));
}
