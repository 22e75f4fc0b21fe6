//! Motions of a tape, the blocks that a play gives, and time codes.

ghost use Rattle.fw_tape.specs.Desks.{AnyBlock};

use fw_fcp::Frame;
use fw_tape::{Desk, Tape};
use fw_words::Bytes;
use std::process::Abort;

/// A control command to the tape subunit, and whether it was accepted.
fn control(tape: &mut Tape, opcode: u8, operand: u8) -> bool {
    let mut operands = Bytes::new();
    operands.push(operand);
    let command = Frame {
        code: 0,
        kind: 4,
        id: 0,
        opcode,
        operands,
    };
    let mut response = Frame::new();
    tape.command(&command, &mut response);
    response.code == 9
}

/// Passes cycles, as the bus does within its limits.
fn pass(tape: &mut Tape, cycles: u64) -> u64 {
    match tape.cassette() {
        Some(cassette) if cassette.passed < 1 << 40 && cycles < 1 << 40 => tape.pass(cycles),
        _ => 0,
    }
}

fn frame(tape: &Tape) -> u32 {
    match tape.cassette() {
        Some(cassette) => cassette.frame(),
        None => 0,
    }
}

/// Opcode and operand of a command, cycles after it, the blocks that are due in them, and the frame then. The numbers were
/// made by another implementation of the same rules.
type Step = (u8, u8, u64, u64, u32);

const STEPS_525: [Step; 14] = [
    (0xC3, 0x75, 16_000, 14_985, 59),
    (0xC3, 0x7D, 100, 0, 59),
    (0xC3, 0x75, 5_000, 4_682, 77),
    (0xC3, 0x75, 5_000, 4_683, 96),
    (0xC3, 0x65, 30_000, 0, 2_591_984),
    (0xC2, 0x75, 1_000_000_000, 0, 1_154_237),
    (0xC2, 0x7D, 9, 0, 1_154_237),
    (0xC4, 0x75, 10, 0, 2_591_999),
    (0xC3, 0x75, 4_000, 3_746, 13),
    (0xC4, 0x65, 5, 0, 0),
    (0xC3, 0x65, 3_000, 0, 2_591_989),
    (0xC3, 0x6D, 1, 0, 2_591_989),
    (0xC4, 0x60, 7, 0, 2_591_989),
    (0xC3, 0x75, 1_000_000_000, 936_563_436, 1_154_242),
];

const STEPS_625: [Step; 14] = [
    (0xC3, 0x75, 16_000, 15_000, 50),
    (0xC3, 0x7D, 100, 0, 50),
    (0xC3, 0x75, 5_000, 4_687, 65),
    (0xC3, 0x75, 5_000, 4_688, 81),
    (0xC3, 0x65, 30_000, 0, 2_159_988),
    (0xC2, 0x75, 1_000_000_000, 0, 964_988),
    (0xC2, 0x7D, 9, 0, 964_988),
    (0xC4, 0x75, 10, 0, 2_159_999),
    (0xC3, 0x75, 4_000, 3_750, 11),
    (0xC4, 0x65, 5, 0, 0),
    (0xC3, 0x65, 3_000, 0, 2_159_991),
    (0xC3, 0x6D, 1, 0, 2_159_991),
    (0xC4, 0x60, 7, 0, 2_159_991),
    (0xC3, 0x75, 1_000_000_000, 937_500_000, 964_991),
];

/// Whether a tape takes a step.
fn takes(tape: &mut Tape, step: &Step) -> bool {
    let (opcode, operand, cycles, blocks, at) = *step;
    control(tape, opcode, operand)
        && tape.state() == (opcode, operand)
        && pass(tape, cycles) == blocks
        && frame(tape) == at
}

/// Whether a tape comes out once, and leaves the transport as it is without one.
fn comes_out(tape: &mut Tape) -> bool {
    tape.eject() && !tape.eject() && tape.state() == (0xC4, 0x60) && !tape.fifty()
}

/// Moves a tape that comes in.
fn moves(rt: &impl Abort, fifty: bool, steps: &[Step]) {
    let mut tape = Tape::new();
    assert!(rt; !control(&mut tape, 0xC3, 0x75));
    tape.insert(7, fifty);
    for step in steps {
        assert!(rt; takes(&mut tape, step));
    }
    assert!(rt; tape.fifty() == fifty && comes_out(&mut tape));
}

#[test]
fn tapes_move(rt: HostRuntime) {
    moves(&rt, false, &STEPS_525);
    moves(&rt, true, &STEPS_625);
}

/// A block that says where it stands.
fn block_at(tape: u16, frame: u32, block: u16) -> [u8; 480] {
    let [a, b] = tape.to_be_bytes();
    let [c, d, e, f] = frame.to_be_bytes();
    let [g, h] = block.to_be_bytes();
    let mut bytes = [0; 480];
    for (at, byte) in [a, b, c, d, e, f, g, h].iter().enumerate() {
        if at < 8 {
            bytes[at] = *byte;
        }
    }
    bytes
}

/// The next cycle, mixed into a sum.
fn next<F: Fn(u16, u32, u16) -> [u8; 480], H: Fn(u32, u8) -> u8>(
    sum: u32,
    tape: &mut Tape,
    desk: &Desk<F, H>,
) -> u32
    requires { AnyBlock (F.pre desk.now.blocks) }
{
    let block = match tape.cassette() {
        Some(cassette) if cassette.passed < 1 << 40 => tape.cycle(desk),
        _ => None,
    };
    let mut sum = sum;
    if let Some(bytes) = block {
        for byte in &bytes[..8] {
            sum = sum.wrapping_mul(31).wrapping_add(u32::from(*byte));
        }
    }
    sum.wrapping_mul(31).wrapping_add(256)
}

/// A tape that plays.
fn playing(number: u16, fifty: bool) -> Tape {
    let mut tape = Tape::new();
    tape.insert(number, fifty);
    let _ = control(&mut tape, 0xC3, 0x75);
    tape
}

/// The sum of 6,006 cycles of a play, and the frame after them.
fn play<F: Fn(u16, u32, u16) -> [u8; 480], H: Fn(u32, u8) -> u8>(
    fifty: bool,
    desk: &Desk<F, H>,
) -> (u32, u32)
    requires { AnyBlock (F.pre desk.now.blocks) }
{
    let mut tape = playing(7, fifty);
    let mut sum = 0;
    for _ in 0..6006 {
        sum = next(sum, &mut tape, desk);
    }
    (sum, frame(&tape))
}

// The places of the blocks: the sums were made by another implementation of the same rules.
#[test]
fn a_play_gives_its_blocks_in_order(rt: HostRuntime) {
    let desk = Desk::new(
        |tape: u16, frame: u32, block: u16| block_at(tape, frame, block),
        |_: u32, byte: u8| byte,
    );
    assert!(rt; play(false, &desk) == (0x6F5E_66EF, 22));
    assert!(rt; play(true, &desk) == (0x1A1E_DE59, 18));
}

/// The response to the command for the time code of a tape that has played for 16,000 cycles.
fn time_code(fifty: bool) -> Frame {
    let mut tape = playing(0, fifty);
    let _ = pass(&mut tape, 16_000);
    let mut operands = Bytes::new();
    operands.append(&[0x71, 0xFF, 0xFF, 0xFF, 0xFF, 0x00]);
    let command = Frame {
        code: 1,
        kind: 4,
        id: 0,
        opcode: 0x51,
        operands,
    };
    let mut response = Frame::new();
    tape.command(&command, &mut response);
    response
}

/// Whether a response is stable, and has this time code.
fn has_code(response: &Frame, code: &[u8; 6]) -> bool {
    response.code == 0xC
        && response.opcode == 0x51
        && response.operands.as_slice() == code.as_slice()
}

// Frame 50 of 625 lines and 59 of 525 lines, as the time code shows them.
#[test]
fn time_codes(rt: HostRuntime) {
    assert!(rt; has_code(&time_code(true), &[0x71, 0x00, 0x02, 0x00, 0x00, 0x00]));
    assert!(rt; has_code(&time_code(false), &[0x71, 0x29, 0x01, 0x00, 0x00, 0x00]));
}
