//! Who is on a bus, who is root, which number each device has, and the self-ID packets that say so.

use crate::cablings::{Cable, Facts, Port, bus, facts, identified, refused, self_ids_are};
use fw_tree::TreeFault;
use std::alloc::Global;
use std::test::Fail;

/// Devices and cables; the root, the manager, and each device's number, 63 if it is off; if packets are named, the device that
/// begins the reset and the first quadlets of the self-ID packets.
type Topology = (
    &'static [Facts],
    &'static [Cable],
    (u8, Option<u8>, &'static [u8]),
    (u8, &'static [u32]),
);

/// Decks at 100 Mbit/s, by their ports.
const DECK_1: Facts = (1, 0, true, true);

const DECK_2: Facts = (2, 0, true, true);

const DECK_3: Facts = (3, 0, true, true);

const DECK_27: Facts = (27, 0, true, true);

const PC: Facts = (3, 2, true, true);

const CAM: Facts = (1, 0, true, false);

/// Five decks in a row, joined from the left.
const ROW: [Cable; 4] = [
    ((0, 1), (1, 0)),
    ((1, 1), (2, 0)),
    ((2, 1), (3, 0)),
    ((3, 1), (4, 0)),
];

const TOPOLOGIES: [Topology; 8] = [
    // A device alone:
    //
    //     relay 0-
    (
        &[(1, 0, false, false)],
        &[],
        (0, None, &[0]),
        (0, &[0x803F_0042]),
    ),
    // Five decks in a row:
    //
    //     a 1---0 b 1---0 c 1---0 d 1---0 e
    (
        &[DECK_2; 5],
        &ROW,
        (2, Some(2), &[0, 1, 4, 3, 2]),
        (
            3,
            &[
                0x807F_0860,
                0x817F_08E0,
                0x827F_0890,
                0x837F_08B2,
                0x847F_08F0,
            ],
        ),
    ),
    // The same, and e is off.
    (
        &[DECK_2; 5],
        &[((0, 1), (1, 0)), ((1, 1), (2, 0)), ((2, 1), (3, 0))],
        (2, Some(2), &[0, 1, 3, 2, 63]),
        (0, &[]),
    ),
    // A computer between a camcorder and two decks, in order pc, cam, left, right:
    //
    //     cam 0---0 pc 1---0 left 1---0 right
    (
        &[PC, CAM, DECK_2, DECK_1],
        &[((0, 0), (1, 0)), ((0, 1), (2, 0)), ((2, 1), (3, 0))],
        (2, Some(2), &[1, 0, 3, 2]),
        (2, &[0x807F_0080, 0x817F_88E4, 0x827F_0880, 0x837F_08F2]),
    ),
    // pc and cam alone.
    (
        &[PC, CAM],
        &[((0, 0), (1, 0))],
        (1, Some(0), &[0, 1]),
        (0, &[0x807F_8896, 0x817F_00C0]),
    ),
    // A hub of 27 ports whose last port has a cable:
    //
    //     hub 26---0 leaf
    (
        &[DECK_27, DECK_1],
        &[((0, 26), (1, 0))],
        (1, Some(1), &[0, 1]),
        (
            0,
            &[
                0x807F_0857,
                0x8081_5555,
                0x8091_5555,
                0x80A1_5558,
                0x817F_08C0,
            ],
        ),
    ),
    // Two equal halves: after the four leaves, their centres leave towards each other.
    //
    //     2 0---0       0---0 4
    //           0 2---2 1
    //     3 0---1       1---0 5
    (
        &[DECK_3; 6],
        &[
            ((0, 2), (1, 2)),
            ((0, 0), (2, 0)),
            ((0, 1), (3, 0)),
            ((1, 0), (4, 0)),
            ((1, 1), (5, 0)),
        ],
        (1, Some(1), &[4, 5, 2, 3, 0, 1]),
        (0, &[]),
    ),
    // The same with the centres exchanged.
    (
        &[DECK_3; 6],
        &[
            ((1, 2), (0, 2)),
            ((1, 0), (2, 0)),
            ((1, 1), (3, 0)),
            ((0, 0), (4, 0)),
            ((0, 1), (5, 0)),
        ],
        (1, Some(1), &[4, 5, 0, 1, 2, 3]),
        (0, &[]),
    ),
];

#[test]
fn drawn_topologies_are_identified(rt: HostRuntime) {
    for &(devices, cables, (root, manager, numbers), (initiator, quadlets)) in &TOPOLOGIES {
        let cabling = bus(&rt, devices, cables);
        identified(&rt, &cabling, root, manager, numbers);
        if !quadlets.is_empty() {
            self_ids_are(&rt, &cabling, initiator, quadlets);
        }
    }
}

// As many devices as there can be, in a row:
//
//     0 1---0 1 1---0 2 .. 61 1---0 62
#[test]
fn a_row_of_63(rt: HostRuntime) {
    let mut cables = [((0, 1), (1, 0)); 62];
    let mut numbers = [62; 63];
    for d in 0..62_u8 {
        cables[d as usize] = ((d, 1), (d + 1, 0));
        if d < 31 {
            numbers[d as usize] = d;
            numbers[62 - d as usize] = 31 + d;
        }
    }
    let cabling = bus(&rt, &[DECK_2; 63], &cables);
    identified(&rt, &cabling, 31, Some(31), &numbers);
}

// A hub with 27 arms. 18 of these have leaves of their own, two each but the last:
//
//     28 0---1
//              1 0---0 hub 18---0 19 .. hub 26---0 27
//     29 0---2
#[test]
fn a_star_of_63(rt: HostRuntime) {
    let mut cables = [((0, 0), (1, 0)); 62];
    let mut numbers = [62; 63];
    for arm in 1..28_u8 {
        cables[arm as usize - 1] = ((0, arm - 1), (arm, 0));
        numbers[arm as usize] = if arm < 18 { 3 * arm - 1 } else { arm + 34 };
    }
    for leaf in 0..35_u8 {
        let arm = 1 + leaf / 2;
        cables[27 + leaf as usize] = ((arm, 1 + leaf % 2), (28 + leaf, 0));
        numbers[28 + leaf as usize] = 3 * (leaf / 2) + leaf % 2;
    }
    let mut devices = [DECK_3; 63];
    devices[0] = DECK_27;
    identified(&rt, &bus(&rt, &devices, &cables), 0, Some(0), &numbers);
}

/// Cables that are refused if the devices stand so:
///
///     1- 0 0---0 1 1-       0- 2       0- 3 1-
const REFUSED: [(Port, Port, TreeFault); 9] = [
    ((0, 2), (2, 0), TreeFault::NoPort),
    ((2, 0), (4, 0), TreeFault::NoPort),
    ((0, 0), (1, 2), TreeFault::NoPort),
    ((0, 0), (2, 0), TreeFault::PortUsed),
    ((2, 0), (1, 0), TreeFault::PortUsed),
    ((2, 0), (2, 0), TreeFault::PortUsed),
    ((0, 1), (1, 0), TreeFault::PortUsed),
    ((0, 1), (1, 1), TreeFault::Loop),
    ((3, 0), (3, 1), TreeFault::Loop),
];

#[test]
fn refusals(rt: HostRuntime) {
    let devices = [DECK_2, DECK_2, DECK_1, DECK_2];
    for &(a, b, fault) in &REFUSED {
        let mut cabling = bus(&rt, &devices, &[((0, 0), (1, 0))]);
        refused(&rt, &mut cabling, a, b, fault);
    }
    let mut full = bus(&rt, &[DECK_1; 63], &[]);
    assert!(rt; full.add(facts(&rt, DECK_1)) == Err(TreeFault::TooMany));
}

const MESSAGES: [(TreeFault, &str); 4] = [
    (TreeFault::TooMany, "TooMany"),
    (TreeFault::NoPort, "NoPort"),
    (TreeFault::PortUsed, "PortUsed"),
    (TreeFault::Loop, "Loop"),
];

fn is_shown(alloc: Global, fault: TreeFault, text: &str) -> Result<bool, Fail> {
    Ok(format!(in alloc; "{fault}")?.as_str() == text)
}

#[test]
fn messages(rt: HostRuntime) -> Result<(), Fail> {
    for &(fault, text) in &MESSAGES {
        assert!(rt; is_shown(rt.alloc(), fault, text)?);
    }
    Ok(())
}
