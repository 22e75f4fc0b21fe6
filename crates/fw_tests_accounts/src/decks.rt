//! A ledger of a log of two decks.

use crate::entries::{bytes_of, entry_of};
use fw_ledger::Ledger;
use fw_log::ReadBuffers;
use fw_terms::PlugAt;
use std::process::Abort;
use std::test::Fail;

/// The node IDs of the two decks.
pub const FIRST: u32 = 0xFFC0;

pub const SECOND: u32 = 0xFFC1;

/// The low quadlets of the addresses of BANDWIDTH_AVAILABLE, CHANNELS_AVAILABLE_HI, the oPCR and the iPCR of plug 0.
pub const BANDWIDTH: u32 = 0xF000_0220;

pub const CHANNELS: u32 = 0xF000_0224;

pub const OUTPUT: u32 = 0xF000_0904;

pub const INPUT: u32 = 0xF000_0984;

/// The reset of the first deck alone.
const ONE_DECK: [u32; 5] = [1, 0x0000_0001, 0x0001_0101, 0x807F_0842, 0x7F80_F7BD];

/// A reset of both decks that begins this epoch, if the second is root and manager.
fn two_decks(epoch: u32) -> [u32; 8] {
    [
        epoch,
        0x0101_0002,
        0x0001_0101,
        0x0101_0101,
        0x807F_0882,
        0x7F80_F77D,
        0x817F_08C0,
        0x7E80_F73F,
    ]
}

/// A quadlet compare_swap of node `from` at a register of node `to`.
#[derive(Clone, Copy)]
pub struct Swap {
    pub from: u32,
    pub to: u32,
    pub offset: u32,
    pub argument: u32,
    pub new: u32,
}

/// What is left of the bandwidth and of channels 0 to 31, the word of the first deck's output plug, and that of the second's
/// input plug.
pub type Words = (u32, u32, u32, u32);

/// Whether the ledger takes the entry of this kind with these quadlets.
pub fn take(
    rt: &(impl Abort + AllocGlobal),
    ledger: &mut Ledger,
    kind: u8,
    body: &[u32],
) -> Result<bool, Fail> {
    let log = bytes_of(rt, kind, body)?;
    let mut room = ReadBuffers::new(rt.alloc())?;
    Ok(ledger.take(&entry_of(rt, &log, &mut room))?)
}

/// The request and its complete response, which shows this old value. The request is taken; whether the response is.
pub fn is_taken(
    rt: &(impl Abort + AllocGlobal),
    ledger: &mut Ledger,
    s: Swap,
    old: u32,
) -> Result<bool, Fail> {
    let (from, to) = (s.from << 16, s.to << 16);
    let request = [
        to + 0x0190,
        from + 0xFFFF,
        s.offset,
        0x0008_0002,
        s.argument,
        s.new,
    ];
    assert!(rt; take(rt, ledger, 2, &request)?);
    take(rt, ledger, 2, &[from + 0x01B0, to, 0, 0x0004_0002, old])
}

/// A read of the first deck's output plug register by its own node, which addresses that plug.
pub fn address(
    rt: &(impl Abort + AllocGlobal),
    ledger: &mut Ledger,
    value: u32,
) -> Result<(), Fail> {
    assert!(rt; take(rt, ledger, 2, &[0xFFC0_0140, 0xFFC0_FFFF, OUTPUT])?);
    assert!(rt; take(rt, ledger, 2, &[0xFFC0_0160, 0xFFC0_0000, 0, value])?);
    Ok(())
}

pub fn second_over(rt: &(impl Abort + AllocGlobal), ledger: &mut Ledger) -> Result<bool, Fail> {
    take(rt, ledger, 4, &[0x01FF_0000])
}

/// The controller of a device dies.
pub fn dies(
    rt: &(impl Abort + AllocGlobal),
    ledger: &mut Ledger,
    device: u8,
) -> Result<bool, Fail> {
    take(rt, ledger, 4, &[0x0200_0000 + (u32::from(device) << 16)])
}

pub fn reset(rt: &(impl Abort + AllocGlobal), ledger: &mut Ledger, epoch: u32) -> Result<(), Fail> {
    assert!(rt; take(rt, ledger, 1, &two_decks(epoch))?);
    Ok(())
}

/// The ledger after the first deck's own reset, the one that joins the second, and the second after it.
pub fn joined(rt: &(impl Abort + AllocGlobal)) -> Result<Ledger, Fail> {
    let mut ledger = Ledger::new(rt.alloc())?;
    assert!(rt; take(rt, &mut ledger, 1, &ONE_DECK)?);
    reset(rt, &mut ledger, 2)?;
    assert!(rt; second_over(rt, &mut ledger)?);
    address(rt, &mut ledger, 0x803F_007A)?;
    Ok(ledger)
}

pub fn words(ledger: &Ledger) -> Option<Words> {
    let channels = (ledger.free_channels() >> 32) as u32;
    let output = ledger.out_word(PlugAt { device: 0, plug: 0 })?;
    let input = ledger.in_word(PlugAt { device: 1, plug: 0 })?;
    Some((ledger.remainder(), channels, output.0, input.0))
}
