//! Sources and sinks, in memory and over std's readers and writers.

use fw_outside::{BufferedSink, Failed, MemSink, MemSource, Sink, Source, StdSink, StdSource};
use std::io::Write;
use std::test::Fail;

// Whether the second read of a source of the bytes 7, 8 and 9 fails, and the others give them, two at a time.
fn fails_at_its_second_call(source: &mut MemSource) -> bool {
    let mut into = [0; 2];
    read_through(source, &mut into) == Ok(2)
        && into == [7, 8]
        && read_through(source, &mut into) == Err(Failed)
        && read_through(source, &mut into) == Ok(1)
        && into[0] == 9
        && read_through(source, &mut into) == Ok(0)
}

#[test]
fn a_source_fails_at_its_second_call(rt: HostRuntime) -> Result<(), Fail> {
    let bytes = [7, 8, 9].to_vec(rt.alloc())?;
    let mut source = MemSource::new(bytes, [2].to_vec(rt.alloc())?);
    assert!(rt; fails_at_its_second_call(&mut source));
    Ok(())
}

// Pieces, and what becomes of them in a room of three bytes if the first call fails.
const FITTING: [([u8; 2], Result<(), Failed>); 3] = [
    ([1, 2], Err(Failed)),
    ([3, 4], Ok(())),
    ([5, 6], Err(Failed)),
];

#[test]
fn a_sink_takes_what_fits(rt: HostRuntime) -> Result<(), Fail> {
    let alloc = rt.alloc();
    let mut sink = MemSink::new(alloc, 3, [1].to_vec(alloc)?)?;
    for &(piece, result) in &FITTING {
        assert!(rt; write_through(&mut sink, &piece) == result);
    }
    assert!(rt; sink.as_slice() == [3, 4, 5].as_slice());
    Ok(())
}

// Whether a source of the bytes 1, 2 and 3 gives them, two at a time, and then its end, which is no fault.
fn gives_all<S: Source>(source: &mut S) -> bool {
    let mut into = [0; 2];
    read_through(source, &mut into) == Ok(2)
        && into == [1, 2]
        && read_through(source, &mut into) == Ok(1)
        && into[0] == 3
        && read_through(source, &mut into) == Ok(0)
}

#[test]
fn the_adapters_pass_bytes_on(rt: HostRuntime) -> Result<(), Fail> {
    assert!(rt; gives_all(&mut StdSource::new([1, 2, 3].as_slice())));
    let mut held = Vec::new(rt.alloc());
    let mut sink = StdSink::new(&mut held);
    assert!(rt; write_through(&mut sink, &[4, 5]).is_ok());
    assert!(rt; held.as_slice() == [4, 5].as_slice());
    Ok(())
}

#[test]
fn a_buffered_sink_passes_all_on_in_order(rt: HostRuntime) -> Result<(), Fail> {
    let mut held = Vec::new(rt.alloc());
    let mut sink = BufferedSink::new(&mut held);
    assert!(rt; are_written(&mut sink, &[1, 2], &[3; 70_000], &[4, 5]));
    assert!(rt; held.len() == 70_004);
    assert!(rt; held.starts_with(&[1, 2, 3]) && held.ends_with(&[3, 4, 5]));
    Ok(())
}

// The beginning of a row, after so many bytes that are kept back.
#[test]
fn the_prefix_of_a_row_is_passed_on_in_order(rt: HostRuntime) -> Result<(), Fail> {
    let alloc = rt.alloc();
    let mut row = [9; 48];
    row[19] = 5;
    for before in [0, 65_487, 65_488, 65_489, 65_516, 65_517, 65_536] {
        let kept = vec![in alloc; 1; before]?;
        let mut held = Vec::new(alloc);
        let mut sink = BufferedSink::new(&mut held);
        assert!(rt; are_written_around(&mut sink, &kept, &row), "{before}");
        assert!(rt; are_in_order(&held, before, &row), "{before}");
    }
    let mut sink = MemSink::new(alloc, 20, Vec::new(alloc))?;
    assert!(rt; write_prefix_through(&mut sink, &row).is_ok());
    assert!(rt; sink.as_slice() == &row[..20]);
    Ok(())
}

// Whether three pieces are written, one after the other, and passed on.
fn are_written<W: Write>(sink: &mut BufferedSink<W>, a: &[u8], b: &[u8], c: &[u8]) -> bool {
    write_through(sink, a).is_ok()
        && write_through(sink, b).is_ok()
        && write_through(sink, c).is_ok()
        && sink.flush().is_ok()
}

// Whether a piece, the beginning of a row and a byte 7 are written, one after the other, and passed on.
fn are_written_around<W: Write>(sink: &mut BufferedSink<W>, piece: &[u8], row: &[u8; 48]) -> bool {
    write_through(sink, piece).is_ok()
        && write_prefix_through(sink, row).is_ok()
        && write_through(sink, &[7]).is_ok()
        && sink.flush().is_ok()
}

// Whether the beginning of the row stands after so many bytes, and a byte 7 after it, which is the last.
fn are_in_order(held: &[u8], before: usize, row: &[u8; 48]) -> bool {
    match held.get(before..) {
        Some([prefix @ .., last]) => *last == 7 && prefix == &row[..20],
        _ => false,
    }
}

fn read_through<S: Source>(source: &mut S, into: &mut [u8; 2]) -> Result<usize, Failed> {
    source.read(into)
}

fn write_through<K: Sink>(sink: &mut K, piece: &[u8]) -> Result<(), Failed> {
    sink.write(piece)
}

fn write_prefix_through<K: Sink>(sink: &mut K, row: &[u8; 48]) -> Result<(), Failed> {
    sink.write_prefix(row, 20)
}
