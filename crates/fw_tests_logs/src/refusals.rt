//! Quadlets that begin no packet, and the byte that shows it.

use crate::packets::bytes_of;
use fw_async::{PacketFault, PacketReader, read_packet};
use fw_words::Bytes;

// Whether the words, fed one byte at a time, show the fault with the byte at this place and not before, and the reader answers
// nothing else after it.
fn is_found(bytes: &[u8], place: usize, fault: PacketFault) -> bool {
    let mut reader = PacketReader::new();
    let mut room = Bytes::new();
    for (at, byte) in bytes.iter().enumerate() {
        let found = reader.feed(&[*byte], &mut room).err();
        if found != (at >= place).then_some(fault) {
            return false;
        }
    }
    !reader.is_between()
}

// Whether that is so, and the words at hand show the same.
fn are_refused(words: &[u32], place: usize, fault: PacketFault) -> bool {
    let bytes = bytes_of(words);
    is_found(bytes.as_slice(), place, fault) && read_packet(bytes.as_slice()).err() == Some(fault)
}

const UNKNOWN_CODES: [u32; 6] = [3, 10, 12, 13, 14, 15];

const REPLY_CODES: [u32; 4] = [2, 6, 7, 11];

// The second and third quadlets of replies, the place of the byte that shows the fault, and the reserved bit.
const RESERVED: [(u32, u32, usize, u32); 5] = [
    (0xffc0_0800, 0, 7, 52),
    (0xffc0_0801, 0, 7, 52),
    (0xffc0_0001, 0x8000_0000, 7, 63),
    (0xffc0_f000, 0x8000_0000, 11, 64),
    (0xffc0_f000, 0x0000_0001, 11, 95),
];

#[test]
fn reserved_codes_and_bits_are_refused(rt: HostRuntime) {
    for &code in &UNKNOWN_CODES {
        let words = [0xffc00100 | code << 4, 0, 0];
        assert!(rt; are_refused(&words, 3, PacketFault::UnknownTcode), "{code}");
    }
    for &(second, third, place, bit) in &RESERVED {
        for &code in &REPLY_CODES {
            let words = [0xffc10500 | code << 4, second, third];
            assert!(rt;
                are_refused(&words, place, PacketFault::Reserved(bit)),
                "{bit}"
            );
        }
    }
}

// Codes, sizes and the quadlet after a block of five bytes, with its padding; the place of the byte that shows the fault, and the fault.
const SIZES: [(u32, u32, u32, usize, PacketFault); 19] = [
    (1, 0x0005_8000, 0, 15, PacketFault::Reserved(112)),
    (5, 0x0201_0001, 0, 15, PacketFault::Reserved(127)),
    (1, 0x0201_0000, 0, 15, PacketFault::TooLong(513)),
    (5, 0xffff_0000, 0, 15, PacketFault::TooLong(0xffff)),
    (7, 0x0201_0000, 0, 15, PacketFault::TooLong(513)),
    (9, 0x0009_0000, 0, 15, PacketFault::Reserved(112)),
    (9, 0x0008_0008, 0, 15, PacketFault::Reserved(112)),
    (9, 0x0004_0001, 0, 15, PacketFault::BadLength(4)),
    (9, 0x000c_0002, 0, 15, PacketFault::BadLength(12)),
    (9, 0x0010_0003, 0, 15, PacketFault::BadLength(16)),
    (9, 0x0000_0004, 0, 15, PacketFault::BadLength(0)),
    (9, 0x0004_0005, 0, 15, PacketFault::BadLength(4)),
    (9, 0x0009_0006, 0, 15, PacketFault::BadLength(9)),
    (9, 0x0018_0007, 0, 15, PacketFault::BadLength(24)),
    (11, 0x0000_0100, 0, 15, PacketFault::Reserved(112)),
    (11, 0x0010_0002, 0, 15, PacketFault::BadLength(16)),
    (1, 0x0005_0000, 0x0701_0000, 21, PacketFault::BadPadding(21)),
    (7, 0x0005_0000, 0x0700_0100, 22, PacketFault::BadPadding(22)),
    (1, 0x0005_0000, 0x0700_0001, 23, PacketFault::BadPadding(23)),
];

#[test]
fn sizes_and_padding_are_refused(rt: HostRuntime) {
    for &(code, size, last, place, fault) in &SIZES {
        let first = 0xffc00100 | code << 4;
        let words = [first, 0xffc1_0000, 0, size, 0x01ff_30ff, last];
        assert!(rt; are_refused(&words, place, fault), "{size:08x}");
    }
}
