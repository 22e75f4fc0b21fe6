//! Command frames to nodes, and the packets that follow them, in quadlets.

ghost use Rattle.std.specs.Prelude.{◌≡◌, None, IsSome, IsTrue};
ghost use Rattle.fw_terms.specs.Devices.{has_link};
ghost use Rattle.fw_tape.specs.Desks.{AnyVendorByte};

use super::packets::{bytes_of, packet_of};
use super::requests::{NOW, node_of};
use arrayvec::ArrayVec;
use fw_async::{Packet, write_packet};
use fw_node::Node;
use fw_tape::Desk;
use fw_terms::DeviceKind;
use fw_words::Bytes;
use std::process::Abort;

/// The next packet that the node sends is this one, or there is none.
fn sends(rt: &impl Abort, node: &mut Node, packet: &[u32])
    requires number { IsSome node.old.number }
    requires link { IsTrue (has_link node.old.kind) }
    ensures number { IsSome node.new.number }
    ensures link { IsTrue (has_link node.new.kind) }
    ensures given { node.new.waiting ≡ None }
{
    let mut bytes = ArrayVec::new();
    let mut room = Bytes::new();
    if let Some(p) = node.outgoing(&mut room) {
        write_packet(&p, &mut bytes);
    }
    assert!(rt; bytes.as_slice() == bytes_of(packet).as_slice());
}

/// The node carries a command out, and sends these packets after it, of which the last is none.
fn commands<F: Fn(u16, u32, u16) -> [u8; 480], H: Fn(u32, u8) -> u8>(
    rt: &impl Abort,
    node: &mut Node,
    request: &[u32],
    sent: &[&[u32]],
    desk: &Desk<F, H>,
)
    requires desk { AnyVendorByte (H.pre desk.now.vendor) }
    requires number { IsSome node.old.number }
    requires link { IsTrue (has_link node.old.kind) }
    requires given { node.old.waiting ≡ None }
    ensures number { IsSome node.new.number }
    ensures link { IsTrue (has_link node.new.kind) }
    ensures given { node.new.waiting ≡ None }
{
    let request = bytes_of(request);
    match packet_of(request.as_slice()) {
        Some(p) => {
            assert!(rt; matches!(p, Packet::WriteQuadlet { .. } | Packet::WriteBlock { .. }));
            let mut response = ArrayVec::new();
            node.take(NOW, request.as_slice(), desk, &mut response);
            assert!(rt;
                matches!(
                    packet_of(response.as_slice()),
                    Some(Packet::WriteReply { .. })
                )
            );
        }
        None => panic!(rt; "no packet"),
    }
    let Some((first, others)) = sent.split_first() else {
        panic!(rt; "the last is none");
    };
    sends(rt, node, first);
    for packet in others {
        sends(rt, node, packet);
    }
}

/// A request, and what the node sends after it.
const ROWS: [(&[u32], &[&[u32]]); 8] = [
    (
        &[0xFFC1_0500, 0xFFC0_FFFF, 0xF000_0B00, 0x03FF_B27F],
        &[&[0xFFC0_0500, 0xFFC1_FFFF, 0xF000_0D00, 0x0FFF_B270], &[]],
    ),
    (
        &[0xFFC1_0500, 0xFFC0_FFFF, 0xF000_0B00, 0x00FF_B260],
        &[
            &[0xFFC0_0500, 0xFFC1_FFFF, 0xF000_0D00, 0x09FF_B260],
            &[0xFFC0_0500, 0xFFC1_FFFF, 0xF000_0D00, 0x0DFF_B260],
            &[],
        ],
    ),
    (
        &[0xFFC1_0500, 0xFFC0_FFFF, 0xF000_0B00, 0x0020_C460],
        &[&[0xFFC0_0500, 0xFFC1_FFFF, 0xF000_0D00, 0x0A20_C460], &[]],
    ),
    (
        &[
            0xFFC1_0510,
            0xFFC0_FFFF,
            0xF000_0B00,
            0x0006_0000,
            0x01FF_B27F,
            0,
        ],
        &[
            &[
                0xFFC0_0510,
                0xFFC1_FFFF,
                0xF000_0D00,
                0x0006_0000,
                0x0CFF_B260,
                0,
            ],
            &[],
        ],
    ),
    (
        &[
            0xFFC1_0510,
            0xFFC0_FFFF,
            0xF000_0B00,
            0x0008_0000,
            0x00FF_00A0,
            0xB0C0_01F0,
        ],
        &[
            &[
                0xFFC0_0510,
                0xFFC1_FFFF,
                0xF000_0D00,
                0x0008_0000,
                0x09FF_00A0,
                0xB0C0_FE0F,
            ],
            &[],
        ],
    ),
    // Two bytes, a response, and a frame at FCP_RESPONSE: nothing follows.
    (
        &[
            0xFFC1_0510,
            0xFFC0_FFFF,
            0xF000_0B00,
            0x0002_0000,
            0x00FF_0000,
        ],
        &[&[]],
    ),
    (
        &[0xFFC1_0500, 0xFFC0_FFFF, 0xF000_0B00, 0x08FF_B27F],
        &[&[]],
    ),
    (
        &[0xFFC1_0500, 0xFFC0_FFFF, 0xF000_0D00, 0x01FF_B27F],
        &[&[]],
    ),
];

#[test]
fn a_deck_is_commanded(rt: HostRuntime) {
    let desk = Desk::new(|_: u16, _: u32, _: u16| [0; 480], |_: u32, byte: u8| !byte);
    let mut node = node_of(DeviceKind::Deck);
    for &(request, sent) in &ROWS {
        commands(&rt, &mut node, request, sent, &desk);
    }
}

#[test]
fn only_decks_and_camcorders_have_units(rt: HostRuntime) {
    let desk = Desk::new(|_: u16, _: u32, _: u16| [0; 480], |_: u32, byte: u8| !byte);
    let mut computer = node_of(DeviceKind::Computer);
    assert!(rt; computer.unit().is_none());
    let play: &[u32] = &[0xFFC1_0500, 0xFFC0_FFFF, 0xF000_0B00, 0x0020_C375];
    commands(&rt, &mut computer, play, &[&[]], &desk);
    let mut camcorder = node_of(DeviceKind::Camcorder);
    match camcorder.unit() {
        Some(unit) => unit.tape().insert(7, false),
        None => panic!(rt; "no unit"),
    }
    let accepted: &[u32] = &[0xFFC0_0500, 0xFFC0_FFFF, 0xF000_0D00, 0x0920_C375];
    commands(&rt, &mut camcorder, play, &[accepted, &[]], &desk);
}
