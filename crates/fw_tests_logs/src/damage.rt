//! Short logs of which a byte is changed: which fault of a body the reader answers, of which a note says nothing. What is told of whole
//! logs stands in `fire_sessions/data/damages.txt`.
//!
//! What the bytes come to was worked out by hand from the layouts of the log and of the standard.

use crate::reading::passed;
use BodyFault::{Fields, Iso, Packet, Phy};
use PacketFault::{BadLength, Reserved, UnknownTcode};
use fw_async::PacketFault;
use fw_cip::IsoFault;
use fw_log::{BodyFault, LogFault, LogWhy};
use fw_phy::PhyFault;
use std::alloc::{AllocError, Global};
use std::test::Fail;

/// Whether a log, in hexadecimal, is refused so if the byte at a place is so much more, modulo 256.
pub(crate) fn is_refused(
    alloc: Global,
    text: &str,
    (at, more): (usize, u8),
    fault: LogFault,
) -> Result<bool, AllocError> {
    let Ok(mut log) = hex::decode(alloc, text) else {
        return Ok(false);
    };
    let Some(byte) = log.get_mut(at) else {
        return Ok(false);
    };
    *byte = byte.wrapping_add(more);
    Ok(log.len() < 1000 && passed(alloc, &log)? == Err(fault))
}

// A place and a number of bytes from it on, how much more one of them is, and which fault its body has.
type Row = (usize, usize, &'static [u8], BodyFault);

const MORE: &[u8] = &[1];

const LESS: &[u8] = &[255];

const BOTH: &[u8] = &[1, 255];

// Whether a log is refused so at a place for each change of a row.
fn is_faulty(alloc: Global, text: &str, place: u64, row: &Row) -> Result<bool, AllocError> {
    let (from, count, steps, fault) = *row;
    let why = LogWhy::BadBody(fault);
    for more in steps {
        for at in from..from.saturating_add(count) {
            if !is_refused(alloc, text, (at, *more), LogFault { place, why })? {
                return Ok(false);
            }
        }
    }
    Ok(true)
}

// A lone entry, each after its header, and the first bytes of another if a length may say that they are its own.
const RESET: &str = "\
31333934000000010000000000000000010000050000000000000000000000010000000100010101807f08427f80f7bd02000003";

pub(crate) const RESET_IN_VERSION_2: &str = "\
3133393400000002000000000000000001000005000000010000000000000000000000010000000100010101807f08427f80f7bd0200000300000001";

const RESET_OF_NO_INVERSE: &str = "\
3133393400000002000000000000000001000005000000010000000000000000000000010000000100010101807f08427f80f7bc";

const READ: &str =
    "31333934000000010000000000000000020000030000000000000000ffc00140ffc0fffff000090402000003";

const READ_REPLY: &str = "\
31333934000000010000000000000000020000040000000000000000ffc00160ffc0000000000000803f007a02000003";

const READ_REPLY_OF_CHANNELS: &str =
    "31333934000000010000000000000000020000040000000000000000ffc00160ffc0000000000000ffffffff";

const READ_REPLY_OF_UNITS: &str =
    "31333934000000010000000000000000020000040000000000000000ffc00160ffc000000000000000001333";

const LOCK: &str = "\
31333934000000010000000000000000020000060000000000000000ffc00190ffc0fffff000022800080002fffffffffffffffe02000003";

const LOCK_REPLY: &str = "\
31333934000000010000000000000000020000050000000000000000ffc001b0ffc000000000000000040002ffffffff02000003";

const OUTCOME: &str = "31333934000000010000000000000000050000020000000000000000010000000000003f";

const ISOCHRONOUS: &str =
    "31333934000000010000000000000000030000030000000000000000000840a0007800008000ffff";

// The bus reset. With a kind more it is a packet that is shorter than the body; with a quadlet more one is left over. The root, the
// manager, of which 255 is none, the initiator and the number of nodes, of which there is one; the node, of which there is no kind 4; and
// its packet.
const OF_RESET: &[Row] = &[
    (16, 1, MORE, Fields),
    (19, 1, MORE, Phy(PhyFault::Short)),
    (32, 1, BOTH, Fields),
    (33, 1, MORE, Fields),
    (34, 1, BOTH, Fields),
    (35, 1, MORE, Phy(PhyFault::Short)),
    (35, 1, LESS, Fields),
    (36, 1, LESS, Fields),
    (39, 1, &[3], Fields),
    (40, 8, BOTH, Phy(PhyFault::NotInverse)),
];

// In version 2 its epoch stands in the head and in the body.
const OF_RESET_IN_VERSION_2: &[Row] = &[
    (19, 1, MORE, Phy(PhyFault::Short)),
    (20, 4, BOTH, Fields),
    (32, 4, BOTH, Fields),
    (36, 1, BOTH, Fields),
    (37, 1, MORE, Fields),
    (38, 1, BOTH, Fields),
    (39, 1, MORE, Phy(PhyFault::Short)),
    (39, 1, LESS, Fields),
    (40, 1, LESS, Fields),
    (44, 8, BOTH, Phy(PhyFault::NotInverse)),
];

// In the other version the head has another length, and what is then read as a self-ID packet is none.
const OF_ONE_AS_TWO: &[Row] = &[(7, 1, MORE, Phy(PhyFault::NotInverse))];

const OF_TWO_AS_ONE: &[Row] = &[(7, 1, LESS, Phy(PhyFault::NotInverse))];

// The epoch in the head of a reset is judged after the packets in it.
const OF_NO_INVERSE: &[Row] = &[(23, 1, MORE, Phy(PhyFault::NotInverse))];

// A request to read a quadlet. With transaction codes 3 and 12 it is none.
const OF_READ: &[Row] = &[
    (16, 1, MORE, Iso(IsoFault::NotCip)),
    (19, 1, MORE, Fields),
    (31, 1, &[255, 0x80], Packet(UnknownTcode)),
];

// A reply: the response code, and the bits after it, which are reserved.
const OF_REPLY: &[Row] = &[
    (19, 1, BOTH, Fields),
    (34, 1, MORE, Packet(Reserved(55))),
    (34, 1, LESS, Packet(Reserved(52))),
    (35, 1, MORE, Packet(Reserved(63))),
    (35, 1, LESS, Packet(Reserved(56))),
    (36, 1, MORE, Packet(Reserved(71))),
    (36, 1, LESS, Packet(Reserved(64))),
    (37, 1, MORE, Packet(Reserved(79))),
    (37, 1, LESS, Packet(Reserved(72))),
    (38, 1, MORE, Packet(Reserved(87))),
    (38, 1, LESS, Packet(Reserved(80))),
    (39, 1, MORE, Packet(Reserved(95))),
    (39, 1, LESS, Packet(Reserved(88))),
];

// With transaction code 5 the value of a reply is a length and sixteen reserved bits, of which the first that is set is found: 803F007A,
// FFFFFFFF and 00001333.
const OF_VALUE: &[Row] = &[(31, 1, LESS, Packet(Reserved(121)))];

const OF_CHANNELS: &[Row] = &[(31, 1, LESS, Packet(Reserved(112)))];

const OF_UNITS: &[Row] = &[(31, 1, LESS, Packet(Reserved(115)))];

// A compare_swap. With transaction code 8 it is a cycle start, which is shorter.
const OF_LOCK: &[Row] = &[
    (16, 1, LESS, Fields),
    (19, 1, BOTH, Fields),
    (31, 1, LESS, Fields),
    (40, 1, MORE, Packet(BadLength(264))),
    (40, 1, LESS, Packet(BadLength(65288))),
    (41, 1, MORE, Packet(BadLength(9))),
    (41, 1, LESS, Packet(BadLength(7))),
    (42, 1, BOTH, Packet(Reserved(112))),
];

// Its reply, beside what all replies have.
const OF_LOCK_REPLY: &[Row] = &[
    (16, 1, LESS, Fields),
    (31, 1, LESS, Packet(UnknownTcode)),
    (40, 1, MORE, Packet(BadLength(260))),
    (40, 1, LESS, Packet(BadLength(65284))),
    (41, 1, MORE, Packet(BadLength(5))),
    (41, 1, LESS, Packet(BadLength(3))),
    (42, 1, BOTH, Packet(Reserved(112))),
];

// An outcome of code 1: with a kind less an event of two quadlets. Outcomes of codes 0 and 2 have no units and channel.
const OF_OUTCOME: &[Row] = &[
    (16, 1, LESS, Fields),
    (28, 1, BOTH, Fields),
    (31, 1, BOTH, Fields),
];

// An isochronous packet without a block: its length, its tag, and a reserved bit of its CIP header.
const OF_ISOCHRONOUS: &[Row] = &[
    (28, 1, &[2], Iso(IsoFault::BadSize(0x208))),
    (29, 1, &[0x10], Iso(IsoFault::BadSize(0x18))),
    (30, 1, &[0x40], Iso(IsoFault::NotCip)),
    (34, 1, &[2], Iso(IsoFault::Reserved(54))),
];

// A log, where its body stands, and its rows.
type Sample = (&'static str, u64, &'static [Row]);

const SAMPLES: &[Sample] = &[
    (RESET, 28, OF_RESET),
    (RESET, 32, OF_ONE_AS_TWO),
    (RESET_IN_VERSION_2, 32, OF_RESET_IN_VERSION_2),
    (RESET_IN_VERSION_2, 28, OF_TWO_AS_ONE),
    (RESET_OF_NO_INVERSE, 32, OF_NO_INVERSE),
    (READ, 28, OF_READ),
    (READ_REPLY, 28, OF_REPLY),
    (READ_REPLY, 28, OF_VALUE),
    (READ_REPLY_OF_CHANNELS, 28, OF_CHANNELS),
    (READ_REPLY_OF_UNITS, 28, OF_UNITS),
    (LOCK, 28, OF_LOCK),
    (LOCK_REPLY, 28, OF_LOCK_REPLY),
    (LOCK_REPLY, 28, OF_REPLY),
    (OUTCOME, 28, OF_OUTCOME),
    (ISOCHRONOUS, 28, OF_ISOCHRONOUS),
];

// Whether a log is refused so for each of its rows.
fn are_faulty(alloc: Global, sample: &Sample) -> Result<bool, AllocError> {
    let (text, place, rows) = *sample;
    for row in rows {
        if !is_faulty(alloc, text, place, row)? {
            return Ok(false);
        }
    }
    Ok(true)
}

#[test]
fn bodies_of_which_a_byte_is_changed(rt: HostRuntime) -> Result<(), Fail> {
    for sample in SAMPLES {
        assert!(rt; are_faulty(rt.alloc(), sample)?);
    }
    Ok(())
}
