//! Frames both ways, and each fault.

use fw_fcp::{Frame, FrameFault, read_frame, write_frame};
use fw_words::Bytes512;

/// Frames: code, subunit type and ID, opcode and operands; and their bytes. PLAY, the state of a playing transport, UNIT INFO, and a
/// frame with no operands.
const FRAMES: [(u8, u8, u8, u8, &[u8], &[u8]); 4] = [
    (0, 4, 0, 0xC3, &[0x75], &[0x00, 0x20, 0xC3, 0x75]),
    (0xD, 4, 0, 0xC3, &[0x75], &[0x0D, 0x20, 0xC3, 0x75]),
    (
        1,
        31,
        7,
        0x30,
        &[0xFF; 5],
        &[0x01, 0xFF, 0x30, 0xFF, 0xFF, 0xFF, 0xFF, 0xFF],
    ),
    (0xF, 21, 2, 0, &[], &[0x0F, 0xAA, 0x00]),
];

/// The frame that these bytes are, if they are one, and it is written as them.
fn both_ways(spelling: &[u8]) -> Option<Frame> {
    if spelling.len() > 512 {
        return None;
    }
    let mut found = Frame::new();
    read_frame(spelling, &mut found).ok()?;
    let mut out = Bytes512::new();
    out.append(&[9, 9]);
    write_frame(&found, &mut out);
    if out.as_slice() == spelling {
        Some(found)
    } else {
        None
    }
}

/// Whether a frame has this code, subunit type and ID, opcode and operands.
fn has(f: &Frame, code: u8, (kind, id): (u8, u8), opcode: u8, operands: &[u8]) -> bool {
    f.code == code
        && f.kind == kind
        && f.id == id
        && f.opcode == opcode
        && f.operands.as_slice() == operands
}

#[test]
fn frames_both_ways(rt: HostRuntime) {
    for &(code, kind, id, opcode, operands, spelling) in &FRAMES {
        let found = both_ways(spelling);
        assert!(rt; found.is_some_and(|f| has(&f, code, (kind, id), opcode, operands)));
    }
}

/// Bytes that are no frame.
const REFUSED: [(&[u8], FrameFault); 9] = [
    (&[], FrameFault::Short),
    (&[0, 0xFF], FrameFault::Short),
    (&[0x15, 0xFF], FrameFault::Short),
    (&[0x10, 0xFF, 0], FrameFault::NotAvc(1)),
    (&[0xF5, 0xFF, 0, 0], FrameFault::NotAvc(15)),
    (&[0x05, 0xFF, 0, 0], FrameFault::ReservedType(5)),
    (&[0x06, 0xFF, 0], FrameFault::ReservedType(6)),
    (&[0x07, 0xFF, 0], FrameFault::ReservedType(7)),
    (&[0x0E, 0xFF, 0], FrameFault::ReservedType(14)),
];

#[test]
fn refusals(rt: HostRuntime) {
    for &(bytes, fault) in &REFUSED {
        assert!(rt; bytes.len() <= 4);
        let mut out = Frame::new();
        assert!(rt; read_frame(bytes, &mut out).err() == Some(fault));
    }
}

// Whether a code is read at an address.
fn is_read(code: u8, address: u8) -> bool {
    let mut f = Frame::new();
    read_frame(&[code, address, 0xB2, 0x70], &mut f).is_ok()
        && has(&f, code, (address / 8, address % 8), 0xB2, &[0x70])
}

// Each code that is not reserved is read, at each address.
#[test]
fn each_code_and_address(rt: HostRuntime) {
    for code in [0u8, 1, 2, 3, 4, 8, 9, 10, 11, 12, 13, 15] {
        for address in 0..=255 {
            assert!(rt; is_read(code, address), "{code:02X} {address:02X}");
        }
    }
}

// A frame as long as a block: 509 operands.
#[test]
fn the_longest_frame(rt: HostRuntime) {
    let mut f = Frame::new();
    assert!(rt; read_frame(&[0; 512], &mut f).is_ok());
    assert!(rt; f.operands.as_slice().len() == 509);
}
