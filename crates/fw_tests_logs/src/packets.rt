//! Packets in both directions, bytes that are none, and packets in pieces of any size. What the packets say is told by the session
//! `each_kind` of `fire_sessions`.

ghost use Rattle.std.specs.Prelude.{◌<◌};

use arrayvec::ArrayVec;
use fw_async::{Fed, PacketReader, read_packet, write_packet};
use fw_words::{Bytes, Quadlet, put_quadlet};

pub(crate) fn bytes_of(words: &[u32]) -> ArrayVec<u8, 528> {
    let mut bytes = ArrayVec::new();
    for word in words {
        let _ = bytes.try_extend_from_slice(&put_quadlet(Quadlet(*word)));
    }
    bytes
}

// Whether the words are read as one packet, which is written as the words.
fn are_both_ways(words: &[u32]) -> bool {
    let bytes = bytes_of(words);
    match read_packet(bytes.as_slice()) {
        Ok(
            Fed {
                used,
                packet: Some(packet),
            },
        ) => {
            let mut out = ArrayVec::new();
            write_packet(&packet, &mut out);
            used == bytes.len() && out.as_slice() == bytes.as_slice()
        }
        _ => false,
    }
}

const PACKETS: [&[u32]; 11] = [
    // The answered FCP command and its answer.
    &[0xffc00500, 0xffc1ffff, 0xf0000b00, 0x0020c375],
    &[0xffc10520, 0xffc00000, 0x00000000],
    // A cycle start.
    &[0xffff008f, 0xffc3ffff, 0xf0000200, 0x02001000],
    // A read of oPCR 0, and the reply to one of an offset that names no register.
    &[0xffc00140, 0xffc0ffff, 0xf0000904],
    &[0xffc00160, 0xffc17000, 0x00000000, 0x00000000],
    // A block read of the bus name, and the reply.
    &[0xffc10150, 0xffc0ffff, 0xf0000404, 0x00060000],
    &[
        0xffc00170, 0xffc10000, 0x00000000, 0x00060000, 0x31333934, 0xe0000000,
    ],
    // An FCP command of five bytes.
    &[
        0xffc00510, 0xffc1ffff, 0xf0000b00, 0x00050000, 0x01ff30ff, 0x07000000,
    ],
    // A lock of BANDWIDTH_AVAILABLE (4915 units, 2512 are asked for), its response, and that of a fetch_add that is refused.
    &[
        0xffc10190, 0xffc0ffff, 0xf0000220, 0x00080002, 0x00001333, 0x00000963,
    ],
    &[0xffc001b0, 0xffc10000, 0x00000000, 0x00040002, 0x00001333],
    &[0xffc001b0, 0xffc16000, 0x00000000, 0x00000003],
];

#[test]
fn packets_both_ways(rt: HostRuntime) {
    for words in &PACKETS {
        assert!(rt; are_both_ways(words));
    }
}

// A lock request, its response and a padded block.
const STREAM: [u32; 17] = [
    0xffc10190, 0xffc0ffff, 0xf0000220, 0x00080002, 0x00001333, 0x00000963, 0xffc001b0, 0xffc10000,
    0, 0x00040002, 0x00001333, 0xffc00510, 0xffc1ffff, 0xf0000b00, 0x00050000, 0x01ff30ff,
    0x07000000,
];

// Whether the packets that end in a piece, at most three, are taken to its end, and gives what they are written as to what was written.
fn takes(reader: &mut PacketReader, piece: &[u8], written: &mut ArrayVec<u8, 528>) -> bool {
    let mut room = Bytes::new();
    let mut rest = piece;
    for _ in 0..4 {
        let Ok(Fed { used, packet }) = reader.feed(rest, &mut room) else {
            return false;
        };
        rest = rest.get(used..).unwrap_or(&[]);
        let Some(packet) = packet else { break };
        let mut out = ArrayVec::new();
        write_packet(&packet, &mut out);
        let _ = written.try_extend_from_slice(out.as_slice());
    }
    rest.is_empty()
}

// Whether a stream in pieces of a size gives packets that are written as it.
fn is_read_in_pieces(stream: &[u8], size: usize) -> bool
    requires { 0 < size }
{
    let mut reader = PacketReader::new();
    let mut written = ArrayVec::new();
    for piece in stream.chunks(size) {
        if !takes(&mut reader, piece, &mut written) {
            return false;
        }
    }
    reader.is_between() && written.as_slice() == stream
}

// In pieces of every size up to two packets.
#[test]
fn any_pieces_give_the_same_packets(rt: HostRuntime) {
    let stream = bytes_of(&STREAM);
    assert!(rt; is_read_in_pieces(stream.as_slice(), 1));
    assert!(rt; is_read_in_pieces(stream.as_slice(), 7));
    assert!(rt; is_read_in_pieces(stream.as_slice(), 24));
    assert!(rt; is_read_in_pieces(stream.as_slice(), 68));
}
