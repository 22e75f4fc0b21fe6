//! Scripts of seeds, and the sink that grows. What the scripts hold was told by another implementation of the same rules, which
//! shares nothing with this one: how they begin, their lengths, the sums of their bytes, and the sums of their bytes by place.

use fw_outside::{GrowSink, Sink};
use fw_script_gen::gen_script;
use std::alloc::{AllocError, Global};
use std::test::Fail;

/// What is told of a script.
#[derive(Clone, Copy)]
struct Told {
    seed: u32,
    begin: &'static [u8],
    length: usize,
    sum: u64,
    by_place: u64,
}

const TOLD: [Told; 3] = [
    Told {
        seed: 0,
        begin: b"device d0 deck 3 400\ndevice d1 computer 3 400\ncable d0.1 d1.0\ndevice d2 camcorder 3 400\ncable d0.2 d2.0\n",
        length: 3777,
        sum: 272_938,
        by_place: 515_077_030,
    },
    Told {
        seed: 1,
        begin: b"device d0 deck 3 400\ndevice d1 camcorder 3 400\ncable d0.1 d1.0\ndevice d2 computer 3 400\ncable d0.2 d2.0\n",
        length: 3756,
        sum: 270_921,
        by_place: 509_717_342,
    },
    Told {
        seed: 4_294_967_295,
        begin: b"device d0 deck 3 400\ndevice d1 camcorder 3 400\ncable d0.1 d1.0\ndevice d2 computer 3 400\ncable d0.2 d2.0\n",
        length: 3786,
        sum: 274_465,
        by_place: 519_120_799,
    },
];

// The sum of bytes, and the sum of each times its place, from 1.
fn sums(bytes: &[u8]) -> (u64, u64) {
    let mut sum: u64 = 0;
    let mut by_place: u64 = 0;
    let mut place: u64 = 0;
    for byte in bytes {
        place = place.wrapping_add(1);
        sum = sum.wrapping_add(u64::from(*byte));
        by_place = by_place.wrapping_add(place.wrapping_mul(u64::from(*byte)));
    }
    (sum, by_place)
}

fn is_told(alloc: Global, told: Told) -> Result<bool, AllocError> {
    let script = gen_script(alloc, told.seed)?;
    Ok(
        script.starts_with(told.begin)
            && script.len() == told.length
            && sums(&script) == (told.sum, told.by_place),
    )
}

#[test]
fn scripts_of_seeds(rt: HostRuntime) -> Result<(), Fail> {
    for &told in &TOLD {
        assert!(rt; is_told(rt.alloc(), told)?, "{}", told.seed);
    }
    Ok(())
}

// Whether a piece is written, and the sink holds these bytes then.
fn holds(sink: &mut GrowSink, piece: &[u8], held: &[u8]) -> bool {
    sink.write(piece).is_ok() && sink.as_slice() == held
}

#[test]
fn a_sink_grows_and_is_emptied(rt: HostRuntime) {
    let mut sink = GrowSink::new(rt.alloc());
    assert!(rt; holds(&mut sink, &[1, 2], &[1, 2]));
    assert!(rt; holds(&mut sink, &[3], &[1, 2, 3]));
    sink.clear();
    assert!(rt; sink.as_slice().is_empty());
    assert!(rt; holds(&mut sink, &[4], &[4]));
}
