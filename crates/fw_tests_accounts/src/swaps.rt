//! Logs of two decks, entry by entry: what the registers hold after each compare_swap, reset, second and death.

use crate::decks::{
    BANDWIDTH, CHANNELS, FIRST, INPUT, OUTPUT, SECOND, Swap, Words, address, dies, is_taken,
    joined, reset, second_over, words,
};
use std::test::Fail;

const FREE: u32 = 0xFFFF_FFFF;

const HELD: u32 = 0x7FFF_FFFF;

/// Two controllers connect the first deck to the second at overhead_ID 8, one over the other, and break it again: each swap, and
/// the words after it.
const MOVES: [(u32, u32, u32, u32, u32, Words); 12] = [
    (
        FIRST,
        SECOND,
        CHANNELS,
        FREE,
        HELD,
        (0x1333, HELD, 0x803F_007A, 0x803F_0000),
    ),
    (
        FIRST,
        SECOND,
        BANDWIDTH,
        0x1333,
        0xA63,
        (0xA63, HELD, 0x803F_007A, 0x803F_0000),
    ),
    (
        FIRST,
        FIRST,
        OUTPUT,
        0x803F_007A,
        0x8100_207A,
        (0xA63, HELD, 0x8100_207A, 0x803F_0000),
    ),
    (
        FIRST,
        SECOND,
        INPUT,
        0x803F_0000,
        0x8100_0000,
        (0xA63, HELD, 0x8100_207A, 0x8100_0000),
    ),
    (
        SECOND,
        FIRST,
        OUTPUT,
        0x8100_207A,
        0x8200_207A,
        (0xA63, HELD, 0x8200_207A, 0x8100_0000),
    ),
    (
        SECOND,
        SECOND,
        INPUT,
        0x8100_0000,
        0x8200_0000,
        (0xA63, HELD, 0x8200_207A, 0x8200_0000),
    ),
    (
        FIRST,
        SECOND,
        INPUT,
        0x8200_0000,
        0x8100_0000,
        (0xA63, HELD, 0x8200_207A, 0x8100_0000),
    ),
    (
        FIRST,
        FIRST,
        OUTPUT,
        0x8200_207A,
        0x8100_207A,
        (0xA63, HELD, 0x8100_207A, 0x8100_0000),
    ),
    (
        SECOND,
        SECOND,
        INPUT,
        0x8100_0000,
        0x8000_0000,
        (0xA63, HELD, 0x8100_207A, 0x8000_0000),
    ),
    (
        SECOND,
        FIRST,
        OUTPUT,
        0x8100_207A,
        0x8000_207A,
        (0xA63, HELD, 0x8000_207A, 0x8000_0000),
    ),
    (
        SECOND,
        SECOND,
        BANDWIDTH,
        0xA63,
        0x1333,
        (0x1333, HELD, 0x8000_207A, 0x8000_0000),
    ),
    (
        SECOND,
        SECOND,
        CHANNELS,
        HELD,
        FREE,
        (0x1333, FREE, 0x8000_207A, 0x8000_0000),
    ),
];

#[test]
fn connections_are_made_overlaid_and_broken(rt: HostRuntime) -> Result<(), Fail> {
    let mut ledger = joined(&rt)?;
    for &(from, to, offset, argument, new, after) in &MOVES {
        let s = Swap {
            from,
            to,
            offset,
            argument,
            new,
        };
        assert!(rt; is_taken(&rt, &mut ledger, s, argument)?);
        assert!(rt;
            words(&ledger) == Some(after),
            "{argument:08x} to {new:08x}"
        );
    }
    Ok(())
}

/// Swaps of the first deck that are no moves: units with no channel, two channels, a channel of another half, the output plug with
/// nothing allocated, a disconnection.
const NO_MOVES: [(u32, u32, u32, u32); 6] = [
    (SECOND, BANDWIDTH, 0x1333, 0xA63),
    (SECOND, CHANNELS, 0xFFFF_FFFF, 0x3FFF_FFFF),
    (SECOND, CHANNELS, 0xFFFF_FFFF, 0xFFFF_FFFF),
    (FIRST, OUTPUT, 0x803F_007A, 0x8100_207A),
    (FIRST, OUTPUT, 0x803F_007A, 0xC03F_007A),
    (SECOND, INPUT, 0x803F_0000, 0x8200_0000),
];

// A swap of a register that finds its argument and is no move is refused; one that finds another word is taken. Either
// leaves the registers.
#[test]
fn swaps_that_are_no_moves_are_refused(rt: HostRuntime) -> Result<(), Fail> {
    let before = Some((0x1333, FREE, 0x803F_007A, 0x803F_0000));
    for &(to, offset, argument, new) in &NO_MOVES {
        let s = Swap {
            from: FIRST,
            to,
            offset,
            argument,
            new,
        };
        for (old, taken) in [(argument, false), (!argument, true)] {
            let mut ledger = joined(&rt)?;
            let found = is_taken(&rt, &mut ledger, s, old)?;
            assert!(rt;
                (found, words(&ledger)) == (taken, before),
                "{argument:08x} to {new:08x}"
            );
        }
    }
    Ok(())
}

// A controller that dies leaves its channel up to the next reset. In the second after a reset only the channel of a flow that
// talked may be allocated, and no second is over twice.
#[test]
fn deaths_and_resets(rt: HostRuntime) -> Result<(), Fail> {
    let mut ledger = joined(&rt)?;
    let channel = Swap {
        from: FIRST,
        to: SECOND,
        offset: CHANNELS,
        argument: FREE,
        new: HELD,
    };
    assert!(rt; is_taken(&rt, &mut ledger, channel, FREE)?);
    assert!(rt; dies(&rt, &mut ledger, 0)?);
    assert!(rt; words(&ledger) == Some((0x1333, HELD, 0x803F_007A, 0x803F_0000)));
    let free = Some((0x1333, FREE, 0x803F_007A, 0x803F_0000));
    reset(&rt, &mut ledger, 3)?;
    assert!(rt; words(&ledger) == free);
    address(&rt, &mut ledger, 0x803F_007A)?;
    assert!(rt; !is_taken(&rt, &mut ledger, channel, FREE)?);
    assert!(rt; words(&ledger) == free);
    assert!(rt; second_over(&rt, &mut ledger)?);
    assert!(rt; !second_over(&rt, &mut ledger)?);
    assert!(rt; words(&ledger) == free);
    Ok(())
}
