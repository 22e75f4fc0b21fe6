//! Scripts up to their limits, and how far they are read.

use crate::calls::{NONE, call_over, prefix, read_on};
use fw_outside::MemSource;
use std::alloc::{AllocError, Global};
use std::test::Fail;

// The header of a log, and its entry of the bus reset that declares one deck.
const PREFIX: [u8; 52] = [
    0x31, 0x33, 0x39, 0x34, 0, 0, 0, 2, 0, 0, 0, 0, 0, 0, 0, 0, 0x01, 0, 0, 0x05, 0, 0, 0, 1, 0, 0,
    0, 0, 0, 0, 0, 0, 0, 0, 0, 1, 0, 0, 0, 1, 0, 1, 1, 1, 0x80, 0x7F, 0x08, 0x42, 0x7F, 0x80, 0xF7,
    0xBD,
];

const DECK: &str = "device d deck 1 100\n";

// A script: its first lines, a piece so many times after them, and its last line.
type Pieces = (&'static str, &'static str, u32, &'static str);

fn script_of(alloc: Global, pieces: &Pieces) -> Result<String, AllocError> {
    let (first, piece, count, last) = pieces;
    let mut script = first.to_string(alloc)?;
    for _ in 0..*count {
        script.push_str(piece)?;
    }
    script.push_str(last)?;
    Ok(script)
}

// Scripts and the read that fails, if any; the status and the note, how many bytes were written, and how many at least are left unread.
const AT_LIMITS: &[(Pieces, u32, u8, &str, usize, usize)] = &[
    (("", "a", 257, ""), 0, 3, "line 1: LineTooLong\n", 16, 0),
    (
        ("", "#\n", 524_288, ""),
        0,
        3,
        "line 524289: NoEnd\n",
        16,
        0,
    ),
    (("", "#\n", 524_289, ""), 0, 7, "too long\n", 16, 0),
    (
        ("x\n", "#\n", 3000, ""),
        0,
        3,
        "line 1: BadLine\n",
        16,
        1904,
    ),
    // The first line is carried out before the second read, which fails.
    ((DECK, "#\n", 3000, "end\n"), 2, 5, "read fault\n", 52, 0),
];

#[test]
fn scripts_are_read_line_by_line_up_to_their_limits(rt: HostRuntime) -> Result<(), Fail> {
    let alloc = rt.alloc();
    for (pieces, read, status, note, length, left) in AT_LIMITS {
        let script = script_of(alloc, pieces)?;
        let mut source = MemSource::new(script.as_bytes().to_vec(alloc)?, [*read].to_vec(alloc)?);
        let ended = call_over(alloc, &["run"], &mut source, NONE)?;
        assert!(rt; ended.is(*status, note, prefix(&PREFIX, *length)), "{note}");
        assert!(rt; read_on(&mut source) >= *left, "{note}");
    }
    Ok(())
}
