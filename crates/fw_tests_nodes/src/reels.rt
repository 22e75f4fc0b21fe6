//! Which blocks a reel keeps, and what it writes.

use fw_dub::Reel;
use fw_outside::MemSink;
use std::alloc::Global;
use std::test::Fail;

/// Whether a reel keeps three blocks of four: the third, as the limit is two then, is not kept.
fn keeps(reel: &mut Reel) -> bool {
    reel.keep(&[1; 480], 2)
        && reel.keep(&[2; 480], 2)
        && !reel.keep(&[3; 480], 2)
        && reel.keep(&[4; 480], 3)
        && reel.blocks() == 3
}

/// Whether it writes these three, in order.
fn writes(alloc: Global, reel: &Reel) -> Result<bool, Fail> {
    let mut sink = MemSink::new(alloc, 2_000, Vec::new(alloc))?;
    Ok(reel.write(&mut sink).is_ok() && are_in_order(sink.as_slice()))
}

fn are_in_order(blocks: &[u8]) -> bool {
    blocks.len() == 1_440 && blocks[479] == 1 && blocks[480] == 2 && blocks[960] == 4
}

#[test]
fn blocks_are_kept_up_to_the_limit_and_written_in_order(rt: HostRuntime) -> Result<(), Fail> {
    let mut reel = Reel::new(rt.alloc())?;
    assert!(rt; keeps(&mut reel));
    assert!(rt; writes(rt.alloc(), &reel)?);
    reel.clear();
    assert!(rt; reel.blocks() == 0);
    Ok(())
}
