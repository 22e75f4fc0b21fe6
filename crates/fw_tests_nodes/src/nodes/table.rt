//! The registers of each kind of device, and the offsets at which none stands.

ghost use Rattle.std.specs.Prelude.{IsTrue};
ghost use Rattle.fw_terms.specs.Devices.{has_link};

use super::requests::{Ask, answer, node_of};
use fw_terms::DeviceKind;
use std::process::Abort;

/// What a register allows.
#[derive(Clone, Copy)]
enum Allowed {
    Read,
    ReadSwap,
    Write,
}

use Allowed::{Read, ReadSwap, Write};

/// A register: its offset, its word, and what it allows.
type Row = (u16, u32, Allowed);

const DECK: [Row; 18] = [
    (0x008, 0xFFC1_0000, Read),
    (0x018, 0x0000_0000, Read),
    (0x01C, 0x1900_0000, Read),
    (0x200, 0x0200_1000, Read),
    (0x21C, 0x0000_003F, ReadSwap),
    (0x220, 0x0000_1333, ReadSwap),
    (0x224, 0xFFFF_FFFF, ReadSwap),
    (0x228, 0xFFFF_FFFF, ReadSwap),
    (0x404, 0x3133_3934, Read),
    (0x408, 0xE000_0000, Read),
    (0x40C, 0xA0B0_C000, Read),
    (0x410, 0x0000_0005, Read),
    (0x900, 0x3FFF_FF01, Read),
    (0x904, 0x803F_007A, ReadSwap),
    (0x980, 0x00FF_FF01, Read),
    (0x984, 0x803F_0000, ReadSwap),
    (0xB00, 0x0000_0000, Write),
    (0xD00, 0x0000_0000, Write),
];

const CAMCORDER: [Row; 14] = [
    (0x008, 0xFFC0_0000, Read),
    (0x018, 0x0000_0000, Read),
    (0x01C, 0x1900_0000, Read),
    (0x200, 0x0200_1000, Read),
    (0x404, 0x3133_3934, Read),
    (0x408, 0x6000_0000, Read),
    (0x40C, 0xA0B0_C000, Read),
    (0x410, 0x0000_0000, Read),
    (0x900, 0x7FFF_FF01, Read),
    (0x904, 0x803F_407A, ReadSwap),
    (0x980, 0x40FF_FF01, Read),
    (0x984, 0x803F_0000, ReadSwap),
    (0xB00, 0x0000_0000, Write),
    (0xD00, 0x0000_0000, Write),
];

const COMPUTER: [Row; 15] = [
    (0x008, 0xFFFE_0000, Read),
    (0x018, 0x0000_0000, Read),
    (0x01C, 0x1900_0000, Read),
    (0x200, 0x0200_1000, Read),
    (0x404, 0x3133_3934, Read),
    (0x408, 0xF000_0000, Read),
    (0x40C, 0xA0B0_C000, Read),
    (0x410, 0x0000_003E, Read),
    (0x900, 0xBFFF_FF00, Read),
    (0x980, 0x80FF_FF04, Read),
    (0x984, 0x803F_0000, ReadSwap),
    (0x988, 0x803F_0000, ReadSwap),
    (0x98C, 0x803F_0000, ReadSwap),
    (0x990, 0x803F_0000, ReadSwap),
    (0xD00, 0x0000_0000, Write),
];

const TYPE_ERROR: u8 = 6;

const ADDRESS_ERROR: u8 = 7;

/// A request, and the response code and quadlet of its response.
type Exchange = (Ask, (u8, Option<u32>));

/// A node answers these requests at an offset, one after the other.
fn answers(rt: &impl Abort, kind: DeviceKind, offset: u16, exchanges: &[Exchange])
    requires { IsTrue (has_link kind) }
{
    let mut node = node_of(kind);
    for &(ask, answered) in exchanges {
        assert!(rt;
            answer(rt, &mut node, ask, offset) == answered,
            "{offset:X}"
        );
    }
}

/// A register allows what its row says, and nothing else; a swap stores exactly if its argument is the word.
fn check_register(rt: &impl Abort, kind: DeviceKind, row: Row)
    requires { IsTrue (has_link kind) }
{
    let (offset, word, allowed) = row;
    let new = 0x8100_207A;
    let refused = (TYPE_ERROR, None);
    let shown = match allowed {
        Write => (TYPE_ERROR, Some(0)),
        Read | ReadSwap => (0, Some(word)),
    };
    let (swapped, after) = match allowed {
        ReadSwap => ((0, Some(word)), (0, Some(new))),
        Read | Write => (refused, shown),
    };
    let written = match allowed {
        Write => (0, None),
        Read | ReadSwap => refused,
    };
    let exchanges = [
        (Ask::Read, shown),
        (Ask::Swap(!word, new), swapped),
        (Ask::Read, shown),
        (Ask::Swap(word, new), swapped),
        (Ask::Read, after),
        (Ask::FetchAdd(1), refused),
        (Ask::SwapOctlets(word, new), refused),
        (Ask::ReadBlock, refused),
        (Ask::Write, written),
        (Ask::WriteBlock, written),
    ];
    answers(rt, kind, offset, &exchanges);
}

/// What is answered if no register stands.
const NO_REGISTER: [Exchange; 6] = [
    (Ask::Read, (ADDRESS_ERROR, Some(0))),
    (Ask::Swap(0, 0), (ADDRESS_ERROR, None)),
    (Ask::FetchAdd(0), (ADDRESS_ERROR, None)),
    (Ask::ReadBlock, (ADDRESS_ERROR, None)),
    (Ask::Write, (ADDRESS_ERROR, None)),
    (Ask::WriteBlock, (ADDRESS_ERROR, None)),
];

/// Each offset below 1000 hexadecimal is a register of the table, or none.
fn check_offsets(rt: &impl Abort, kind: DeviceKind, table: &[Row])
    requires { IsTrue (has_link kind) }
{
    for offset in 0..0x1000 {
        match table.iter().find(|row| row.0 == offset) {
            Some(row) => check_register(rt, kind, *row),
            None => answers(rt, kind, offset, &NO_REGISTER),
        }
    }
}

#[test]
fn each_kind_answers_by_its_table(rt: HostRuntime) {
    check_offsets(&rt, DeviceKind::Deck, &DECK);
    check_offsets(&rt, DeviceKind::Camcorder, &CAMCORDER);
    check_offsets(&rt, DeviceKind::Computer, &COMPUTER);
}
