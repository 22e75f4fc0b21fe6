//! A controller's procedures, answer by answer: what it sends, and how its jobs end.

mod orders;
mod steps;

use fw_cmp::{Outcome, StartFault};
use fw_terms::PlugAt;
use orders::Order::{Broadcast, Connect, Listen};
use orders::{FIRST, SECOND};
use steps::Step::{
    self, Breaks, Ends, Exchanges, Hears, Loses, Reads, Resets, Rests, SecondOver, Starts, Waits,
};
use steps::{Row, takes};

/// A first connection of device 0's output to device 1's input at overhead_ID 8, on channel 0.
const MAKES: [Row; 8] = [
    (0, 0x904, 0x803F_007A, None),
    (1, 0x224, 0xFFFF_FFFF, None),
    (1, 0x224, 0xFFFF_FFFF, Some(0x7FFF_FFFF)),
    (1, 0x220, 4915, None),
    (1, 0x220, 4915, Some(2659)),
    (0, 0x904, 0x803F_007A, Some(0x8100_207A)),
    (1, 0x984, 0x803F_0000, None),
    (1, 0x984, 0x803F_0000, Some(0x8100_0000)),
];

/// It is restored.
const RESTORES: [Row; 8] = [
    (0, 0x904, 0x8000_207A, None),
    (1, 0x224, 0xFFFF_FFFF, None),
    (1, 0x224, 0xFFFF_FFFF, Some(0x7FFF_FFFF)),
    (1, 0x220, 4915, None),
    (1, 0x220, 4915, Some(2659)),
    (0, 0x904, 0x8000_207A, Some(0x8100_207A)),
    (1, 0x984, 0x8000_0000, None),
    (1, 0x984, 0x8000_0000, Some(0x8100_0000)),
];

/// It is broken.
const BREAKS: [Row; 8] = [
    (1, 0x984, 0x8100_0000, None),
    (1, 0x984, 0x8100_0000, Some(0x8000_0000)),
    (0, 0x904, 0x8100_207A, None),
    (0, 0x904, 0x8100_207A, Some(0x8000_207A)),
    (1, 0x220, 2659, None),
    (1, 0x220, 2659, Some(4915)),
    (1, 0x224, 0x7FFF_FFFF, None),
    (1, 0x224, 0x7FFF_FFFF, Some(0xFFFF_FFFF)),
];

/// A broadcast of device 0's output at overhead_ID 0, on channel 63.
const BROADCASTS: [Row; 6] = [
    (0, 0x904, 0x803F_007A, None),
    (1, 0x228, 0xFFFF_FFFF, None),
    (1, 0x228, 0xFFFF_FFFF, Some(0xFFFF_FFFE)),
    (1, 0x220, 4915, None),
    (1, 0x220, 4915, Some(2403)),
    (0, 0x904, 0x803F_007A, Some(0xC03F_007A)),
];

/// Device 1's input listens on channel 63.
const LISTENS: [Row; 2] = [
    (1, 0x984, 0x803F_0000, None),
    (1, 0x984, 0x803F_0000, Some(0xC03F_0000)),
];

/// Too few units are left at overhead_ID 0: the channel, which is 1, is given back.
const GIVES_BACK: [Row; 6] = [
    (1, 0x904, 0x803F_007A, None),
    (1, 0x224, 0x7FFF_FFFF, None),
    (1, 0x224, 0x7FFF_FFFF, Some(0x3FFF_FFFF)),
    (1, 0x220, 2403, None),
    (1, 0x224, 0x3FFF_FFFF, None),
    (1, 0x224, 0x3FFF_FFFF, Some(0x7FFF_FFFF)),
];

const CONNECT: Step = Starts(Connect(FIRST, SECOND, 8), Ok(0));

const CONNECT_AGAIN: Step = Starts(Connect(FIRST, SECOND, 8), Ok(1));

const CONNECTED: Step = Ends(0, Outcome::Connected(0));

/// Breaks of slot 0 from now on are refused.
const NO_BREAK: Step = Breaks(0, Err(StartFault::NoSuchConnection));

/// The second output plug of device 0.
const NO_PLUG: PlugAt = PlugAt { device: 0, plug: 1 };

const ABSENT: PlugAt = PlugAt { device: 5, plug: 0 };

/// What a new controller goes through, in each.
const PROCEDURES: [&[Step]; 9] = [
    // A connection is made and broken, and may be made again.
    &[
        CONNECT,
        Exchanges(&MAKES),
        CONNECTED,
        Rests,
        Breaks(0, Ok(())),
        NO_BREAK,
        Exchanges(&BREAKS),
        Ends(0, Outcome::Broken),
        CONNECT,
    ],
    // A broadcast takes channel 63; it is one of the own device.
    &[
        Starts(Broadcast(1, FIRST), Err(StartFault::NotOwnPlug)),
        Starts(Broadcast(0, FIRST), Ok(0)),
        Exchanges(&BROADCASTS),
        Ends(0, Outcome::Connected(63)),
    ],
    // A second listener finds the input busy.
    &[
        Starts(Listen(1, SECOND), Ok(0)),
        Exchanges(&LISTENS),
        Ends(0, Outcome::Connected(63)),
        Starts(Listen(1, SECOND), Ok(1)),
        Reads(1, 0x984),
        Hears(0, 0xC03F_0000),
        Ends(1, Outcome::InputBusy(0xC03F_0000)),
    ],
    // Too few units give the channel back.
    &[
        Starts(Connect(SECOND, FIRST, 0), Ok(0)),
        Exchanges(&GIVES_BACK),
        Ends(0, Outcome::NoUnits(2403)),
    ],
    // An absent plug ends the job, and so does an absent device.
    &[
        Starts(Connect(NO_PLUG, SECOND, 0), Ok(0)),
        Reads(0, 0x908),
        Hears(7, 0),
        Ends(0, Outcome::NoPlug(7)),
        Starts(Connect(FIRST, ABSENT, 0), Ok(0)),
        Ends(0, Outcome::Absent(5)),
    ],
    // A bus reset ends a making and restores what stands.
    &[
        CONNECT,
        Exchanges(&MAKES),
        CONNECTED,
        CONNECT_AGAIN,
        Reads(0, 0x904),
        Resets(16_000),
        Ends(1, Outcome::Reset(3)),
        CONNECT_AGAIN,
        Exchanges(&RESTORES),
        Ends(0, Outcome::Restored(0)),
        Waits(16_000),
    ],
    // A restoring comes too late once its second is over. It can be broken until its outcome is written.
    &[
        CONNECT,
        Exchanges(&MAKES),
        CONNECTED,
        Resets(8000),
        Reads(0, 0x904),
        SecondOver,
        Hears(0, 0x8000_207A),
        Breaks(0, Ok(())),
        Ends(0, Outcome::Late(8000)),
        NO_BREAK,
        Ends(0, Outcome::Broken),
        Rests,
    ],
    // A response is lost: the controller forces a bus reset 800 cycles after its request, and the job counts as one not answered.
    &[
        CONNECT,
        Exchanges(&MAKES),
        CONNECTED,
        CONNECT_AGAIN,
        Reads(0, 0x904),
        Loses(8800),
        Resets(16_000),
        Ends(1, Outcome::Reset(3)),
        Exchanges(&RESTORES),
        Ends(0, Outcome::Restored(0)),
    ],
    // A ninth job is refused, and so is a break of what is only waiting to be made.
    &[
        Starts(Listen(0, FIRST), Ok(0)),
        Starts(Listen(0, FIRST), Ok(1)),
        Starts(Listen(0, FIRST), Ok(2)),
        Starts(Listen(0, FIRST), Ok(3)),
        Starts(Listen(0, FIRST), Ok(4)),
        Starts(Listen(0, FIRST), Ok(5)),
        Starts(Listen(0, FIRST), Ok(6)),
        Starts(Listen(0, FIRST), Ok(7)),
        Starts(Listen(0, FIRST), Err(StartFault::Busy)),
        NO_BREAK,
    ],
];

#[test]
fn controllers_go_through_their_procedures(rt: HostRuntime) {
    for &steps in &PROCEDURES {
        takes(&rt, steps);
    }
}
