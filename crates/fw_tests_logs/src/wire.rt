//! Requests that are put, taken and cleared.

use crate::packets::bytes_of;
use fw_async::{Fed, Wire, read_packet};
use fw_words::Bytes;

/// What is done to a wire, with the packets in quadlets.
#[derive(Clone, Copy)]
enum Step {
    Put(u8, &'static [u32]),
    /// What must stand there is taken; None if nothing must stand.
    Take(u8, Option<&'static [u32]>),
    Clear,
}

use Step::{Clear, Put, Take};

/// A read of oPCR 0, a lock of BANDWIDTH_AVAILABLE, a lock of CHANNELS_AVAILABLE_LO, and a block of five bytes with its padding.
const READ: &[u32] = &[0xffc00140, 0xffc0ffff, 0xf0000904];

const UNITS: &[u32] = &[
    0xffc10190, 0xffc0ffff, 0xf0000220, 0x00080002, 0x00001333, 0x00000963,
];

const CHANNEL: &[u32] = &[
    0xffc00190, 0xffc1ffff, 0xf0000228, 0x00080002, 0xffffffff, 0xfffffffe,
];

const BLOCK: &[u32] = &[
    0xffc00510, 0xffc1ffff, 0xf0000b00, 0x00050000, 0x01ff30ff, 0x07000000,
];

/// Whether nothing stands before the packet that these quadlets are is put, and it stands then.
fn puts(wire: &mut Wire, from: u8, words: &[u32]) -> bool {
    let bytes = bytes_of(words);
    match read_packet(bytes.as_slice()) {
        Ok(
            Fed {
                packet: Some(packet),
                ..
            },
        ) if from <= 62 && wire.get(from).is_none() => {
            wire.put(from, &packet);
            wire.get(from) == Some(bytes.as_slice())
        }
        _ => false,
    }
}

/// Whether what these quadlets are is taken, or nothing; and nothing stands then.
fn takes(wire: &mut Wire, from: u8, words: Option<&[u32]>) -> bool {
    let mut room = Bytes::new();
    let is_due = match (words, wire.take(from, &mut room)) {
        (Some(words), Some(taken)) => taken == bytes_of(words).as_slice(),
        (None, None) => true,
        _ => false,
    };
    is_due && wire.get(from).is_none()
}

fn is_carried_out(wire: &mut Wire, step: Step) -> bool {
    match step {
        Put(from, words) => puts(wire, from, words),
        Take(from, words) => takes(wire, from, words),
        Clear => {
            wire.clear();
            true
        }
    }
}

const STEPS: [Step; 24] = [
    // One request is taken once.
    Take(0, None),
    Put(0, UNITS),
    Take(0, Some(UNITS)),
    Take(0, None),
    // The oldest goes first, then the youngest, then the one between them; what is put meanwhile stands.
    Put(0, READ),
    Put(62, CHANNEL),
    Put(7, BLOCK),
    Take(1, None),
    Take(63, None),
    Take(255, None),
    Take(0, Some(READ)),
    Put(0, BLOCK),
    Take(7, Some(BLOCK)),
    Put(7, READ),
    Take(0, Some(BLOCK)),
    Take(62, Some(CHANNEL)),
    Take(7, Some(READ)),
    Take(62, None),
    // After all have been cleared each sender may put again, in a row that held a longer packet.
    Put(5, BLOCK),
    Put(6, UNITS),
    Clear,
    Take(5, None),
    Take(6, None),
    Put(5, READ),
];

#[test]
fn pairs_stand_until_they_are_taken(rt: HostRuntime) {
    let mut wire = Wire::new();
    for &step in &STEPS {
        assert!(rt; is_carried_out(&mut wire, step));
    }
    assert!(rt; takes(&mut wire, 5, Some(READ)));
}

/// Each node puts a request and takes it when the next one has put its own: far more often than there are nodes.
#[test]
fn many_requests_come_and_go(rt: HostRuntime) {
    let mut wire = Wire::new();
    assert!(rt; puts(&mut wire, 62, UNITS));
    for _ in 0..8 {
        for from in 0..63 {
            let before = if from == 0 { 62 } else { from - 1 };
            assert!(rt; puts(&mut wire, from, UNITS) && takes(&mut wire, before, Some(UNITS)));
        }
    }
    assert!(rt; takes(&mut wire, 62, Some(UNITS)));
}
