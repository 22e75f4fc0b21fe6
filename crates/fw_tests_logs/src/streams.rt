//! Packets in both directions, bytes that are none, and the two ends of a stream.
//!
//! The first packets are those that a camcorder writes as node 0 on channel 0, 525-60, in an implementation of the same
//! rules that shares no code with this one. The others were laid out by hand. What the packets say is told by the session `each_kind`
//! of `fire_sessions`.

use arrayvec::ArrayVec;
use fw_cip::{Block, CipHeader, Heard, IsoFault, IsoPacket, Listener, Talker, read_iso, write_iso};
use fw_words::{Quadlet, put_quadlet};

// The bytes of quadlets, and after them so many bytes 7.
fn bytes_of(words: &[u32], more: usize) -> ArrayVec<u8, 600> {
    let mut bytes = ArrayVec::new();
    for word in words {
        let _ = bytes.try_extend_from_slice(&put_quadlet(Quadlet(*word)));
    }
    let _ = bytes.try_extend_from_slice(&[7; 500][..more.min(500)]);
    bytes
}

const BLOCK: [u8; 480] = [7; 480];

// The CIP header of the bus's first packet.
const FIRST: CipHeader = CipHeader {
    sid: 0,
    dbs: 0x78,
    fraction: 0,
    qpc: 0,
    sph: false,
    dbc: 0,
    fmt: 0,
    fdf: 0xFFFF,
};

// The first quadlets of packets, and how many bytes 7 stand after them. Every field of the last has bits that differ from its
// neighbours'.
const PACKETS: [([u32; 3], usize); 3] = [
    ([0x0008_40A0, 0x0078_0000, 0x8000_FFFF], 0),
    ([0x01E8_40A0, 0x0078_000D, 0x8000_FFFF], 480),
    ([0x0008_6AA9, 0x1581_ACFE, 0xAA12_3456], 0),
];

// Whether the bytes are read as a packet, which is written as the bytes.
fn are_both_ways(bytes: &[u8]) -> bool {
    match read_iso(bytes) {
        Ok(packet) => {
            let mut out = ArrayVec::new();
            write_iso(&packet, &mut out);
            out.as_slice() == bytes
        }
        Err(_) => false,
    }
}

#[test]
fn packets_both_ways(rt: HostRuntime) {
    for &(words, more) in &PACKETS {
        let bytes = bytes_of(&words, more);
        assert!(rt; are_both_ways(bytes.as_slice()));
    }
}

// The quadlets of no packets, how many bytes 7 stand after them, and the faults.
const NO_PACKETS: [([u32; 3], usize, IsoFault); 9] = [
    (
        [0x0008_40A0, 0x0078_0000, 0x8000_FFFF],
        480,
        IsoFault::BadSize(8),
    ),
    (
        [0x01E8_40A0, 0x0078_0000, 0x8000_FFFF],
        476,
        IsoFault::BadSize(488),
    ),
    (
        [0x0009_40A0, 0x0078_0000, 0x8000_FFFF],
        1,
        IsoFault::BadSize(9),
    ),
    ([0x0008_80A0, 0x0078_0300, 0x8000_FFFF], 0, IsoFault::NotCip),
    ([0x0008_40B0, 0x0078_0000, 0x8000_FFFF], 0, IsoFault::NotCip),
    ([0x0008_40A0, 0x4078_0000, 0x8000_FFFF], 0, IsoFault::NotCip),
    ([0x0008_40A0, 0x0078_0000, 0xC000_FFFF], 0, IsoFault::NotCip),
    (
        [0x0009_40A0, 0x0078_0300, 0x8000_FFFF],
        0,
        IsoFault::Reserved(54),
    ),
    (
        [0x0008_40A0, 0x0078_0100, 0x8000_FFFF],
        0,
        IsoFault::Reserved(55),
    ),
];

// Whether the bytes are refused for this fault.
fn are_refused(bytes: &[u8], fault: IsoFault) -> bool {
    read_iso(bytes).err() == Some(fault)
}

#[test]
fn bytes_that_are_no_packet(rt: HostRuntime) {
    for &(words, more, fault) in &NO_PACKETS {
        let bytes = bytes_of(&words, more);
        assert!(rt; are_refused(bytes.as_slice(), fault));
    }
    for count in [0, 11] {
        assert!(rt; are_refused(&[0; 11][..count], IsoFault::Short));
    }
}

// The DBC of the packet after so many blocks: the first and the last block of a frame of 525-60, which has 250, and of
// 625-50, which has 300, and the first of the next; a day's last block of each; and where the count of 8 bits turns.
const TALKS: [(bool, u64, u8); 9] = [
    (false, 0, 0),
    (false, 249, 0xF9),
    (false, 250, 0xFA),
    (true, 299, 0x2B),
    (true, 300, 0x2C),
    (false, 647_999_999, 0xFF),
    (true, 647_999_999, 0xFF),
    (true, 0x1_0000_00FF, 0xFF),
    (true, 0x1_0000_0100, 0),
];

// Whether the next packet of a talker of node 3 on channel 5 has this count, and a block if it is given one.
fn is_next(talker: &mut Talker, fifty: bool, block: Option<&[u8; 480]>, dbc: u8) -> bool {
    let packet = talker.cycle(3, fifty, block);
    let cip = CipHeader {
        sid: 3,
        dbc,
        fdf: if fifty { 0x80_FFFF } else { 0xFFFF },
        ..FIRST
    };
    packet.channel == 5 && packet.cip == cip && packet.block.is_some() == block.is_some()
}

#[test]
fn a_talker_counts_its_blocks(rt: HostRuntime) {
    for &(fifty, blocks, dbc) in &TALKS {
        let mut talker = Talker::new(5);
        talker.skip(blocks);
        assert!(rt; is_next(&mut talker, fifty, None, dbc));
        assert!(rt; is_next(&mut talker, fifty, Some(&BLOCK), dbc));
        assert!(rt; is_next(&mut talker, fifty, None, dbc.wrapping_add(1)));
    }
}

// A stream with gaps, each found at the packet after it: the count of a packet, whether it has a block, and what is heard.
const HEARD: [(u8, bool, Heard); 7] = [
    (9, false, Heard::Empty),
    (9, true, Heard::Block),
    (10, true, Heard::Block),
    (
        10,
        false,
        Heard::Gap {
            expected: 11,
            found: 10,
        },
    ),
    (11, false, Heard::Empty),
    (
        255,
        true,
        Heard::Gap {
            expected: 11,
            found: 255,
        },
    ),
    (0, true, Heard::Block),
];

// Whether this is heard of a packet with this count, with or without a block.
fn is_heard(listener: &mut Listener, dbc: u8, full: bool, heard: Heard) -> bool {
    let packet = IsoPacket {
        channel: 0,
        sy: 0,
        cip: CipHeader { dbc, ..FIRST },
        block: full.then_some(Block::new(&BLOCK)),
    };
    listener.take(&packet) == heard
}

#[test]
fn a_listener_finds_gaps(rt: HostRuntime) {
    let mut listener = Listener::new();
    for &(dbc, full, heard) in &HEARD {
        assert!(rt; is_heard(&mut listener, dbc, full, heard));
    }
}
