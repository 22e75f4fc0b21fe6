//! PHY packets in both directions, and bytes that are none.

use fw_phy::{PhyFault, PhyPacket, SelfId, SelfIdMore, read_phy, write_phy};

// A quadlet and its inverse, as they stand on the cable.
fn twice(quadlet: u32) -> [u8; 8] {
    let [a, b, c, d] = quadlet.to_be_bytes();
    [a, b, c, d, !a, !b, !c, !d]
}

// Whether the quadlet, with its inverse after it, is read as the packet, and what is read is written as them.
fn is_both_ways(quadlet: u32, packet: &PhyPacket) -> bool {
    match read_phy(&twice(quadlet)) {
        Ok(read) => read == *packet && write_phy(&read) == twice(quadlet),
        Err(_) => false,
    }
}

// Packet zero of node 0 with a link, a gap count of 63, a delay and a power class of 0, and no further packet.
const NODE: SelfId = SelfId {
    phy: 0,
    link: true,
    gap: 63,
    speed: 0,
    delay: 0,
    contender: true,
    power: 0,
    ports: [1, 0, 0],
    initiator: true,
    more: false,
};

// Self-ID packets of small buses. A lone deck:
//
//     a 0-
//
// a computer between a camcorder and two decks in a row:
//
//     cam 0---0 pc 1---0 left 1---0 right
//
// and two decks. Then a packet of each kind, with fields that differ from their neighbours.
const PACKETS: [(u32, PhyPacket); 11] = [
    (0x807F_0842, PhyPacket::SelfId(NODE)),
    (
        0x807F_0080,
        PhyPacket::SelfId(SelfId {
            contender: false,
            ports: [2, 0, 0],
            initiator: false,
            ..NODE
        }),
    ),
    (
        0x817F_88E4,
        PhyPacket::SelfId(SelfId {
            phy: 1,
            speed: 2,
            ports: [3, 2, 1],
            initiator: false,
            ..NODE
        }),
    ),
    (
        0x827F_0880,
        PhyPacket::SelfId(SelfId {
            phy: 2,
            ports: [2, 0, 0],
            initiator: false,
            ..NODE
        }),
    ),
    (
        0x837F_08F2,
        PhyPacket::SelfId(SelfId {
            phy: 3,
            ports: [3, 3, 0],
            ..NODE
        }),
    ),
    (
        0x807F_0882,
        PhyPacket::SelfId(SelfId {
            ports: [2, 0, 0],
            ..NODE
        }),
    ),
    (
        0x817F_08C0,
        PhyPacket::SelfId(SelfId {
            phy: 1,
            ports: [3, 0, 0],
            initiator: false,
            ..NODE
        }),
    ),
    (
        0x8593_9349,
        PhyPacket::SelfIdMore(SelfIdMore {
            phy: 5,
            number: 1,
            ports: [3, 2, 1, 0, 3, 1, 0, 2],
            more: true,
        }),
    ),
    (
        0x03D5_0000,
        PhyPacket::Config {
            root: 3,
            force_root: true,
            set_gap: true,
            gap: 21,
        },
    ),
    (0x4900_0000, PhyPacket::LinkOn { phy: 9 }),
    (
        0xAA15_6519,
        PhyPacket::SelfId(SelfId {
            phy: 42,
            link: false,
            gap: 21,
            speed: 1,
            delay: 2,
            contender: false,
            power: 5,
            ports: [0, 1, 2],
            initiator: false,
            more: true,
        }),
    ),
];

#[test]
fn packets_both_ways(rt: HostRuntime) {
    for (quadlet, packet) in &PACKETS {
        assert!(rt; is_both_ways(*quadlet, packet), "{quadlet:08X}");
    }
}

// Quadlets that are no packets, and the reserved bit of each that is set.
const RESERVED: [(u32, u8); 12] = [
    (0xC000_0000, 1),
    (0xFFFF_FFFF, 1),
    (0x03D5_8000, 16),
    (0x03D5_0001, 31),
    (0x4980_0000, 8),
    (0x4900_0003, 30),
    (0x85C0_0000, 9),
    (0x85F0_0000, 9),
    (0x85B0_0000, 11),
    (0x8588_0002, 12),
    (0x8584_0002, 13),
    (0x8580_0002, 30),
];

fn is_refused(bytes: &[u8], fault: PhyFault) -> bool {
    read_phy(bytes).err() == Some(fault)
}

#[test]
fn reserved_bits_are_refused(rt: HostRuntime) {
    for &(quadlet, bit) in &RESERVED {
        let fault = PhyFault::Reserved(bit);
        assert!(rt; is_refused(&twice(quadlet), fault), "{quadlet:08X}");
    }
}

const WHOLE: [u8; 8] = [0x80, 0x7F, 0x08, 0x42, 0x7F, 0x80, 0xF7, 0xBD];

const NOT_INVERSE: [u8; 8] = [0xC0, 0, 0, 0, 0x3F, 0xFF, 0xFF, 0xFE];

#[test]
fn what_is_short_or_no_inverse_is_refused(rt: HostRuntime) {
    assert!(rt; read_phy(&WHOLE).is_ok());
    assert!(rt; is_refused(&WHOLE[..7], PhyFault::Short));
    assert!(rt; is_refused(&[], PhyFault::Short));
    assert!(rt; is_refused(&NOT_INVERSE, PhyFault::NotInverse));
}
