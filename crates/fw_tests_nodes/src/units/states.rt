//! Every opcode in every state of the transport.

ghost use Rattle.std.specs.Prelude.{◌<◌};
ghost use Rattle.fw_tape.specs.Desks.{AnyVendorByte};

use super::commands::{OPERANDS, STATES};
use super::respond;
use fw_avc::Unit;
use fw_fcp::Frame;
use fw_tape::Desk;
use fw_words::{Bytes, Bytes512};

/// Mixes bytes, and an end after them, into a sum.
fn mixed(sum: u32, bytes: &[u8]) -> u32 {
    let mut sum = sum;
    for byte in bytes {
        sum = sum.wrapping_mul(31).wrapping_add(u32::from(*byte));
    }
    sum.wrapping_mul(31).wrapping_add(256)
}

fn mixed_frame(sum: u32, frame: Option<Frame>) -> u32 {
    match frame {
        Some(f) => mixed(
            mixed(sum, &[f.code, f.kind, f.id, f.opcode]),
            f.operands.as_slice(),
        ),
        None => mixed(sum, &[]),
    }
}

/// A unit in one of the states.
fn unit_in<F: Fn(u16, u32, u16) -> [u8; 480], H: Fn(u32, u8) -> u8>(
    state: usize,
    desk: &Desk<F, H>,
) -> Unit
    requires desk { AnyVendorByte (H.pre desk.now.vendor) }
    requires state { state < 13 }
{
    let mut unit = Unit::new(1, 1);
    if state >= 2 {
        unit.tape().insert(7, state % 2 == 0);
    }
    for command in STATES[state] {
        let _ = respond(&mut unit, command, desk);
    }
    unit
}

/// What a unit in a state answers to a frame, tells then, and shows after it.
fn outcome<F: Fn(u16, u32, u16) -> [u8; 480], H: Fn(u32, u8) -> u8>(
    sum: u32,
    state: usize,
    command: &[u8],
    desk: &Desk<F, H>,
) -> u32
    requires desk { AnyVendorByte (H.pre desk.now.vendor) }
    requires state { state < 13 }
{
    let mut unit = unit_in(state, desk);
    let sum = mixed_frame(sum, respond(&mut unit, command, desk));
    let mut notice = Frame::new();
    let sum = match unit.notice(&mut notice) {
        Some(node) => mixed_frame(mixed(sum, &[node]), Some(notice)),
        None => mixed(sum, &[]),
    };
    let sum = mixed_frame(sum, respond(&mut unit, &[0x01, 0xFF, 0xB2, 0x7F], desk));
    let sum = mixed_frame(sum, respond(&mut unit, &[0x01, 0x20, 0xD0, 0x7F], desk));
    let time = [0x01, 0x20, 0x51, 0x71, 0xFF, 0xFF, 0xFF, 0xFF];
    mixed_frame(sum, respond(&mut unit, &time, desk))
}

/// The outcomes of all opcodes with all of the operands, at the unit, its tape subunit and another address.
fn outcomes<F: Fn(u16, u32, u16) -> [u8; 480], H: Fn(u32, u8) -> u8>(
    state: usize,
    code: u8,
    desk: &Desk<F, H>,
) -> u32
    requires desk { AnyVendorByte (H.pre desk.now.vendor) }
    requires state { state < 13 }
{
    let mut sum = 0;
    for address in [0xFF, 0x20, 0x21] {
        for opcode in 0..=255 {
            for &operands in &OPERANDS {
                let mut command: Bytes512 = Bytes::new();
                command.append(&[code, address, opcode]);
                if operands.len() <= 16 {
                    command.append(operands);
                }
                sum = outcome(sum, state, command.as_slice(), desk);
            }
        }
    }
    sum
}

/// By state and command type. The sums were made by another implementation of the table.
const OUTCOMES: [[u32; 5]; 13] = [
    [
        0xA4B5_5CE6,
        0x10CA_D784,
        0xD066_A600,
        0x5D92_BD00,
        0xFC87_E568,
    ],
    [
        0x51FB_0DC6,
        0xB4BA_11E4,
        0x568F_F800,
        0xD66F_CF00,
        0x82B1_3768,
    ],
    [
        0x92B2_1319,
        0xB9A1_64A4,
        0x0805_0400,
        0x87E4_DB00,
        0x3426_4368,
    ],
    [
        0xAE00_9A8B,
        0xB19A_BF44,
        0x4295_E200,
        0x7FDE_35A0,
        0x6EB7_2168,
    ],
    [
        0x1A2B_4BAE,
        0xDE0A_FEA4,
        0x05B6_0800,
        0x3AB3_1DA0,
        0x31D7_4768,
    ],
    [
        0x64B1_57EE,
        0x9E82_D724,
        0x05A1_FC00,
        0x6CC6_4D80,
        0x31C3_3B68,
    ],
    [
        0x8B69_0D45,
        0x91AB_6824,
        0xFCF0_2C00,
        0x5FEE_DE80,
        0x2911_6B68,
    ],
    [
        0x3AD1_0D1E,
        0xB831_B524,
        0x1705_9C00,
        0x8675_2B80,
        0x4326_DB68,
    ],
    [
        0x6188_C275,
        0xAB5A_4624,
        0x0E53_CC00,
        0x799D_BC80,
        0x3A75_0B68,
    ],
    [
        0xF181_CA81,
        0xA519_CD04,
        0xDA11_B600,
        0x735D_4360,
        0x0632_F568,
    ],
    [
        0x1839_7FD8,
        0x9842_5E04,
        0xD15F_E600,
        0x6685_D460,
        0xFD81_2568,
    ],
    [
        0x34A6_3F28,
        0x10CA_D784,
        0xD066_A600,
        0x5D92_BD00,
        0xFC87_E568,
    ],
    [
        0xA78B_828B,
        0xB9A1_64A4,
        0x0805_0400,
        0xDB95_6B80,
        0x3426_4368,
    ],
];

#[test]
fn every_opcode_in_every_state(rt: HostRuntime) {
    let desk = Desk::new(|_: u16, _: u32, _: u16| [0; 480], |_: u32, byte: u8| !byte);
    for state in 0..13 {
        for code in 0..5 {
            assert!(rt;
                outcomes(state, code, &desk) == OUTCOMES[state][usize::from(code)],
                "state {state}, command type {code}"
            );
        }
    }
}
