//! A ledger of no reset entry: what it takes, what it refuses, and what it tells.

use crate::decks::{dies, second_over, take};
use fw_ledger::Ledger;
use fw_terms::PlugAt;
use std::test::Fail;

#[test]
fn a_new_ledger_tells_that_all_is_free(rt: HostRuntime) -> Result<(), Fail> {
    let ledger = Ledger::new(rt.alloc())?;
    assert!(rt; (ledger.remainder(), ledger.free_channels()) == (4915, u64::MAX));
    let plug = PlugAt { device: 0, plug: 0 };
    assert!(rt; ledger.out_word(plug).is_none() && ledger.in_word(plug).is_none());
    Ok(())
}

// No second is over, and no node asks; a death is taken.
#[test]
fn before_a_reset_little_is_taken(rt: HostRuntime) -> Result<(), Fail> {
    let mut ledger = Ledger::new(rt.alloc())?;
    assert!(rt; !second_over(&rt, &mut ledger)?);
    assert!(rt; dies(&rt, &mut ledger, 0)?);
    assert!(rt; ledger.remainder() == 4915);
    assert!(rt;
        !take(
            &rt,
            &mut ledger,
            2,
            &[0xFFC1_0140, 0xFFC0_FFFF, 0xF000_0220]
        )?
    );
    Ok(())
}
