//! How far a damaged log is read.

use crate::calls::{NONE, call_over, read_on};
use fw_outside::MemSource;
use std::alloc::{AllocError, Global};
use std::test::Fail;

// The header of a log, of which the first entry would begin with a byte 0, and more of these after it.
const HEADER: [u8; 16] = [0x31, 0x33, 0x39, 0x34, 0, 0, 0, 2, 0, 0, 0, 0, 0, 0, 0, 0];

fn damaged(alloc: Global) -> Result<Vec<u8>, AllocError> {
    let mut log = HEADER.to_vec(alloc)?;
    for _ in 0..71_846 {
        log.push(0)?;
    }
    Ok(log)
}

#[test]
fn a_log_is_read_in_pieces(rt: HostRuntime) -> Result<(), Fail> {
    let alloc = rt.alloc();
    for word in ["decode", "dv"] {
        let mut source = MemSource::new(damaged(alloc)?, Vec::new(alloc));
        let ended = call_over(alloc, &[word], &mut source, NONE)?;
        assert!(rt; ended.is(4, "byte 16: BadKind\n", b""), "{word}");
        assert!(rt; read_on(&mut source) >= 6326, "{word}");
    }
    Ok(())
}
