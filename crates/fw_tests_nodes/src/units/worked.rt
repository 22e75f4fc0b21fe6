//! Worked responses and notices.

ghost use Rattle.fw_tape.specs.Desks.{AnyVendorByte};

use super::{frame_of, respond};
use fw_avc::Unit;
use fw_fcp::Frame;
use fw_tape::Desk;
use std::process::Abort;

/// What comes to a unit.
#[derive(Clone, Copy)]
enum Step {
    /// A command, and its response, in bytes.
    Answers(&'static [u8], &'static [u8]),
    /// It sends this notice.
    Tells(&'static [u8]),
    /// It has no notice.
    TellsNothing,
    /// A tape of 625 lines comes in.
    Insert,
    Reset,
}

use Step::{Answers, Insert, Reset, Tells, TellsNothing};

/// PLAY without a tape and with one, and what the transport tells of itself.
const PLAYS: [Step; 10] = [
    Answers(&[0x00, 0x20, 0xC3, 0x75], &[0x0A, 0x20, 0xC3, 0x75]),
    Answers(&[0x03, 0x20, 0xD0, 0x7F], &[0x0F, 0x20, 0xC4, 0x60]),
    TellsNothing,
    Insert,
    TellsNothing,
    Answers(&[0x00, 0x20, 0xC3, 0x75], &[0x09, 0x20, 0xC3, 0x75]),
    Tells(&[0x0D, 0x20, 0xC3, 0x75]),
    TellsNothing,
    Answers(&[0x01, 0x20, 0xD0, 0x7F], &[0x0C, 0x20, 0xC3, 0x75]),
    Answers(&[0x00, 0x20, 0xC3, 0x76], &[0x08, 0x20, 0xC3, 0x76]),
];

const ASKS_POWER: Step = Answers(&[0x03, 0xFF, 0xB2, 0x7F], &[0x0F, 0xFF, 0xB2, 0x70]);

const POWER_OFF: Step = Answers(&[0x00, 0xFF, 0xB2, 0x60], &[0x09, 0xFF, 0xB2, 0x60]);

/// UNIT INFO, power, a command whose zeros after its operands come back, a vendor's command, and requests of which four are kept.
const UNIT: [Step; 16] = [
    Answers(
        &[0x01, 0xFF, 0x30, 0xFF, 0xFF, 0xFF, 0xFF, 0xFF],
        &[0x0C, 0xFF, 0x30, 0x07, 0x20, 0xA0, 0xB0, 0xC0],
    ),
    ASKS_POWER,
    POWER_OFF,
    Tells(&[0x0D, 0xFF, 0xB2, 0x60]),
    Answers(&[0x00, 0x20, 0xC4, 0x60], &[0x0A, 0x20, 0xC4, 0x60]),
    Answers(
        &[0x01, 0xFF, 0xB2, 0x7F, 0x00, 0x00],
        &[0x0C, 0xFF, 0xB2, 0x60, 0x00, 0x00],
    ),
    Answers(
        &[0x00, 0xFF, 0x00, 0xA0, 0xB0, 0xC0, 0x01, 0xF0],
        &[0x09, 0xFF, 0x00, 0xA0, 0xB0, 0xC0, 0xFE, 0x0F],
    ),
    Answers(&[0x00, 0xFF, 0xB2, 0x70], &[0x09, 0xFF, 0xB2, 0x70]),
    ASKS_POWER,
    ASKS_POWER,
    ASKS_POWER,
    ASKS_POWER,
    Answers(&[0x03, 0xFF, 0xB2, 0x7F], &[0x0A, 0xFF, 0xB2, 0x7F]),
    Reset,
    POWER_OFF,
    TellsNothing,
];

/// The next notice is this one, in bytes, for node 1; or there is none.
fn tells(rt: &impl Abort, unit: &mut Unit, notice: Option<&[u8]>) {
    let mut told = Frame::new();
    let node = unit.notice(&mut told);
    let frame = match notice {
        Some(bytes) => frame_of(bytes),
        None => None,
    };
    match frame {
        Some(frame) => assert!(rt; (node, told) == (Some(1), frame)),
        None => assert!(rt; node == None),
    }
}

fn take<F: Fn(u16, u32, u16) -> [u8; 480], H: Fn(u32, u8) -> u8>(
    rt: &impl Abort,
    unit: &mut Unit,
    step: Step,
    desk: &Desk<F, H>,
)
    requires { AnyVendorByte (H.pre desk.now.vendor) }
{
    match step {
        Answers(command, response) => {
            let given = respond(unit, command, desk);
            assert!(rt; given == frame_of(response));
        }
        Tells(notice) => tells(rt, unit, Some(notice)),
        TellsNothing => tells(rt, unit, None),
        Insert => unit.tape().insert(7, true),
        Reset => unit.reset(),
    }
}

#[test]
fn units_answer_and_tell(rt: HostRuntime) {
    let desk = Desk::new(|_: u16, _: u32, _: u16| [0; 480], |_: u32, byte: u8| !byte);
    let procedures: [&[Step]; 2] = [&PLAYS, &UNIT];
    for steps in procedures {
        let mut unit = Unit::new(1, 1);
        for step in steps {
            take(&rt, &mut unit, *step, &desk);
        }
    }
}
