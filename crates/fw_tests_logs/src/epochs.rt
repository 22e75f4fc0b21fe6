//! Epochs that are refused: which one the reader answers, of which a note says nothing.

use crate::damage::{RESET_IN_VERSION_2, is_refused};
use fw_log::{LogFault, LogWhy};
use std::alloc::{AllocError, Global};
use std::test::Fail;

// A bus reset of epoch 2, and the head of an entry that has epoch 1.
const RESET_OF_EPOCH_2: &str = "\
3133393400000002000000000000000001000005000000020000000000000000000000020000000100010101807f08427f80f7bd0200000300000001";

// The places of bytes, how much more each is, where the epoch stands that is refused, and which it is. The first is the kind of the bus
// reset, which is then a packet before the first reset; the others are the epoch of the entry after it.
const EPOCHS: [(usize, u8, u64, u32); 10] = [
    (16, 1, 20, 1),
    (56, 1, 56, 0x0100_0001),
    (56, 255, 56, 0xFF00_0001),
    (56, 0x80, 56, 0x8000_0001),
    (57, 1, 56, 0x0001_0001),
    (57, 255, 56, 0x00FF_0001),
    (58, 1, 56, 0x0000_0101),
    (58, 255, 56, 0x0000_FF01),
    (59, 1, 56, 2),
    (59, 255, 56, 0),
];

// Whether a log is refused so for its epoch.
fn is_of_no_epoch(
    alloc: Global,
    text: &str,
    change: (usize, u8),
    (place, epoch): (u64, u32),
) -> Result<bool, AllocError> {
    let why = LogWhy::BadEpoch(epoch);
    is_refused(alloc, text, change, LogFault { place, why })
}

#[test]
fn epochs_that_are_refused(rt: HostRuntime) -> Result<(), Fail> {
    for &(at, more, place, epoch) in &EPOCHS {
        let is_due = is_of_no_epoch(rt.alloc(), RESET_IN_VERSION_2, (at, more), (place, epoch))?;
        assert!(rt; is_due, "{at}");
    }
    assert!(rt; is_of_no_epoch(rt.alloc(), RESET_OF_EPOCH_2, (0, 0), (56, 1))?);
    Ok(())
}
