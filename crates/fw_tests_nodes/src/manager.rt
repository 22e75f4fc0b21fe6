//! The manager's registers: reads, swaps that succeed and that do not, and what is refused.

use fw_csr::{Manager, REGISTER_SPACE, Reply, Request};
use fw_words::{Bytes, Data, Quadlet, put_quadlet};

/// What a row asks for at its offset.
#[derive(Clone, Copy)]
enum Ask {
    Read,
    ReadBlock,
    Write,
    WriteBlock,
    /// compare_swap of two quadlets.
    Swap(u32, u32),
    /// compare_swap of two eight-byte values.
    SwapOctlets,
    FetchAdd(u32),
}

fn request(offset: u16, ask: Ask) -> Request<'static> {
    let offset = REGISTER_SPACE + u64::from(offset);
    let mut bytes = Bytes::new();
    match ask {
        Ask::Read => return Request::Read { offset },
        Ask::ReadBlock => return Request::ReadBlock { offset, length: 4 },
        Ask::Write => return Request::Write { offset, value: 1 },
        Ask::WriteBlock => {
            return Request::WriteBlock {
                offset,
                bytes: Data::new(&[]),
            };
        }
        Ask::Swap(argument, new) => {
            bytes.append(&put_quadlet(Quadlet(argument)));
            bytes.append(&put_quadlet(Quadlet(new)));
        }
        Ask::SwapOctlets => bytes.append(&[0; 16]),
        Ask::FetchAdd(value) => bytes.append(&put_quadlet(Quadlet(value))),
    }
    let function = match ask {
        Ask::FetchAdd(_) => 3,
        _ => 2,
    };
    Request::Lock {
        offset,
        function,
        bytes,
    }
}

/// Offset and what is asked there; the response code and the word.
const ROWS: [(u16, Ask, u8, u32); 21] = [
    (0x21C, Ask::Read, 0, 0x0000_003F),
    (0x220, Ask::Read, 0, 0x0000_1333),
    (0x224, Ask::Read, 0, 0xFFFF_FFFF),
    (0x228, Ask::Read, 0, 0xFFFF_FFFF),
    (0x21C, Ask::Swap(0x3F, 0), 0, 0x0000_003F),
    (0x21C, Ask::Read, 0, 0x0000_0000),
    (0x220, Ask::Swap(4915, 2403), 0, 4915),
    (0x220, Ask::Swap(4915, 0), 0, 2403),
    (0x220, Ask::Read, 0, 2403),
    (0x228, Ask::Swap(0xFFFF_FFFF, 0xFFFF_FFFE), 0, 0xFFFF_FFFF),
    (0x224, Ask::Read, 0, 0xFFFF_FFFF),
    (0x220, Ask::FetchAdd(1), 6, 0),
    (0x224, Ask::SwapOctlets, 6, 0),
    (0x228, Ask::ReadBlock, 6, 0),
    (0x228, Ask::Write, 6, 0),
    (0x21C, Ask::WriteBlock, 6, 0),
    (0x218, Ask::Read, 7, 0),
    (0x222, Ask::Read, 7, 0),
    (0x230, Ask::Read, 7, 0),
    (0x22C, Ask::ReadBlock, 7, 0),
    (0x22C, Ask::Swap(0, 0), 7, 0),
];

#[test]
fn the_manager_answers(rt: HostRuntime) {
    let mut manager = Manager::new(false);
    for &(offset, ask, rcode, value) in &ROWS {
        let reply = manager.answer(&request(offset, ask));
        assert!(rt; reply == Reply { rcode, value }, "at {offset}");
    }
    assert!(rt; manager.registers() == [0, 2403, 0xFFFF_FFFF, 0xFFFF_FFFE]);
    manager.reset();
    assert!(rt; manager.registers() == [0x3F, 0x1333, 0xFFFF_FFFF, 0xFFFF_FFFF]);
}

// A swap takes channel 0, and a bus reset frees it; that of channel 31 stays 0.
#[test]
fn a_withheld_channel_is_free_after_no_reset(rt: HostRuntime) {
    let mut manager = Manager::new(true);
    for _ in 0..2 {
        assert!(rt; manager.registers() == [0x3F, 0x1333, 0xFFFF_FFFE, 0xFFFF_FFFF]);
        let taken = manager.answer(&request(0x224, Ask::Swap(0xFFFF_FFFE, 0x7FFF_FFFE)));
        assert!(rt; taken == Reply::complete(0xFFFF_FFFE));
        assert!(rt; manager.registers() == [0x3F, 0x1333, 0x7FFF_FFFE, 0xFFFF_FFFF]);
        manager.reset();
    }
}
