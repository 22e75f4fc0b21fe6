//! Words of plug control registers with their fields and units, and the registers of a device.

ghost use Rattle.std.specs.Prelude.{◌≡◌, length};

use fw_csr::{REGISTER_SPACE, Reply, Request};
use fw_plug::{InWord, OutWord, Plugs, units};
use fw_words::{Bytes, Quadlet, put_quadlet};

/// A word of an output plug; its broadcast bit, counter, channel, rate, overhead_ID and payload; its units.
type Word = (u32, bool, u8, u8, u8, u8, u16, u32);

const WORDS: [Word; 7] = [
    (0x803F_007A, false, 0, 63, 0, 0, 122, 2512),
    (0xC03F_007A, true, 0, 63, 0, 0, 122, 2512),
    (0x8200_207A, false, 2, 0, 0, 8, 122, 2256),
    (0xBF00_207A, false, 63, 0, 0, 8, 122, 2256),
    (0x813F_807A, false, 1, 63, 2, 0, 122, 1012),
    (0x8103_847A, false, 1, 3, 2, 1, 122, 532),
    (0x803F_0000, false, 0, 63, 0, 0, 0, 16_944),
];

/// Whether an output plug's word, which is online, has these fields and units.
fn is_so(row: Word) -> bool {
    let (word, broadcast, counter, channel, rate, overhead, payload, taken) = row;
    let out = OutWord(word);
    out.online()
        && out.broadcast() == broadcast
        && out.counter() == counter
        && out.channel() == channel
        && out.rate() == rate
        && out.overhead() == overhead
        && out.payload() == payload
        && units(out) == taken
}

#[test]
fn words_have_fields_and_units(rt: HostRuntime) {
    for &row in &WORDS {
        assert!(rt; is_so(row), "{:08X}", row.0);
    }
    let into = InWord(0xC23F_0000);
    assert!(rt; into.online() && into.broadcast());
    assert!(rt; (into.counter(), into.channel()) == (2, 63));
}

/// The reply to a read at an offset of register space.
fn read(plugs: &mut Plugs, offset: u16) -> Reply {
    let offset = REGISTER_SPACE + u64::from(offset);
    plugs.answer(&Request::Read { offset })
}

/// The reply to a quadlet compare_swap.
fn swap(plugs: &mut Plugs, offset: u16, argument: u32, new: u32) -> Reply
    ensures outputs { length plugs.new.outputs ≡ length plugs.old.outputs }
    ensures inputs { length plugs.new.inputs ≡ length plugs.old.inputs }
{
    let mut bytes = Bytes::new();
    bytes.append(&put_quadlet(Quadlet(argument)));
    bytes.append(&put_quadlet(Quadlet(new)));
    plugs.answer(&Request::Lock {
        offset: REGISTER_SPACE + u64::from(offset),
        function: 2,
        bytes,
    })
}

/// Offset, response code and word of a read, of 2 output plugs at 400 Mbit/s and 4 input plugs.
const READS: [(u16, u8, u32); 11] = [
    (0x900, 0, 0xBFFF_FF02),
    (0x904, 0, 0x803F_807A),
    (0x908, 0, 0x803F_807A),
    (0x906, 7, 0),
    (0x90C, 7, 0),
    (0x97C, 7, 0),
    (0x980, 0, 0x80FF_FF04),
    (0x984, 0, 0x803F_0000),
    (0x990, 0, 0x803F_0000),
    (0x994, 7, 0),
    (0x9FC, 7, 0),
];

/// Offset, argument and new value of a swap; its response code and old value.
const SWAPS: [(u16, u32, u32, u8, u32); 5] = [
    (0x908, 0x803F_807A, 0x8103_A07A, 0, 0x803F_807A),
    (0x908, 0x803F_807A, 0x803F_807A, 0, 0x8103_A07A),
    (0x990, 0x803F_0000, 0xC103_0000, 0, 0x803F_0000),
    (0x900, 0xBFFF_FF02, 0, 6, 0),
    (0x994, 0, 0, 7, 0),
];

#[test]
fn the_plugs_answer(rt: HostRuntime) {
    let mut plugs = Plugs::new(2, 4, 2);
    for &(offset, rcode, value) in &READS {
        assert!(rt;
            read(&mut plugs, offset) == Reply { rcode, value },
            "at {offset}"
        );
    }
    for &(offset, argument, new, rcode, value) in &SWAPS {
        let reply = swap(&mut plugs, offset, argument, new);
        assert!(rt; reply == Reply { rcode, value }, "at {offset}");
    }
}

/// What comes to the plugs.
#[derive(Clone, Copy)]
enum Event {
    Reset,
    SecondOver,
    /// The word of the output plug is swapped for this one.
    Output(u32),
    /// The same of the input plug.
    Input(u32),
}

fn happen(plugs: &mut Plugs, event: Event)
    requires outputs { length plugs.old.outputs ≡ 1 }
    requires inputs { length plugs.old.inputs ≡ 1 }
    ensures outputs { length plugs.new.outputs ≡ 1 }
    ensures inputs { length plugs.new.inputs ≡ 1 }
{
    let (offset, old, new) = match event {
        Event::Reset => return plugs.reset(),
        Event::SecondOver => return plugs.second_over(),
        Event::Output(new) => (0x904, plugs.out_word(0).0, new),
        Event::Input(new) => (0x984, plugs.in_word(0).0, new),
    };
    let _ = swap(plugs, offset, old, new);
}

/// What comes, whether the output plug then talks and the input plug hears, and the words of both.
const EVENTS: [(Event, bool, bool, u32, u32); 9] = [
    (Event::Reset, false, false, 0x803F_007A, 0x803F_0000),
    (
        Event::Output(0x8203_207A),
        true,
        false,
        0x8203_207A,
        0x803F_0000,
    ),
    (
        Event::Input(0xC103_0000),
        true,
        true,
        0x8203_207A,
        0xC103_0000,
    ),
    (Event::Reset, true, true, 0x8003_207A, 0x8003_0000),
    (Event::Reset, true, true, 0x8003_207A, 0x8003_0000),
    (
        Event::Output(0x8003_207A),
        true,
        true,
        0x8003_207A,
        0x8003_0000,
    ),
    (
        Event::Output(0x8103_207A),
        true,
        true,
        0x8103_207A,
        0x8003_0000,
    ),
    (
        Event::Output(0x8003_207A),
        false,
        true,
        0x8003_207A,
        0x8003_0000,
    ),
    (Event::SecondOver, false, false, 0x8003_207A, 0x8003_0000),
];

#[test]
fn plugs_linger_over_a_reset(rt: HostRuntime) {
    let mut plugs = Plugs::new(1, 1, 0);
    for &(event, talks, hears, output, input) in &EVENTS {
        happen(&mut plugs, event);
        assert!(rt; (plugs.talks(0), plugs.hears(0)) == (talks, hears));
        assert!(rt; (plugs.out_word(0).0, plugs.in_word(0).0) == (output, input));
    }
}
