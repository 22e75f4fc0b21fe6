//! The adapters over readers and writers that fail, take less than they are given, or count what they are asked.

use fw_outside::{BufferedSink, Failed, Sink, Source, StdSink, StdSource};
use std::alloc::Global;
use std::io;
use std::io::ErrorKind;

/// A reader that counts its calls. The first fails, and each later one gives a byte 7.
#[derive(Drop)]
struct FailsFirst {
    error: ErrorKind,
    calls: u32,
}

impl io::Read for FailsFirst {
    fn read(&mut self, buf: &mut [u8]) -> io::Result<usize> {
        self.calls = self.calls.saturating_add(1);
        if self.calls == 1 {
            return Err(io::Error::from(self.error));
        }
        if buf.is_empty() {
            return Ok(0);
        }
        buf[0] = 7;
        Ok(1)
    }
}

/// A writer that takes so many bytes a call at most, and counts its calls and its flushes. The call of this number fails.
#[derive(Drop)]
struct Writer {
    held: Vec<u8>,
    most: usize,
    failing: u32,
    calls: u32,
    flushes: u32,
}

impl Writer {
    fn new(alloc: Global, most: usize, failing: u32) -> Writer {
        Writer {
            held: Vec::new(alloc),
            most,
            failing,
            calls: 0,
            flushes: 0,
        }
    }

    // Whether it holds these bytes, by so many calls, and was flushed so often.
    fn has(&self, held: &[u8], calls: u32, flushes: u32) -> bool {
        self.held.as_slice() == held && self.calls == calls && self.flushes == flushes
    }
}

impl io::Write for Writer {
    fn write(&mut self, buf: &[u8]) -> io::Result<usize> {
        self.calls = self.calls.saturating_add(1);
        if self.calls == self.failing {
            return Err(io::Error::from(ErrorKind::BrokenPipe));
        }
        let count = buf.len().min(self.most);
        if self.held.extend_from_slice(&buf[..count]).is_err() {
            return Err(io::Error::from(ErrorKind::OutOfMemory));
        }
        Ok(count)
    }

    fn flush(&mut self) -> io::Result<()> {
        self.flushes = self.flushes.saturating_add(1);
        Ok(())
    }
}

// What one read of a source over this reader gives, into two bytes.
fn read_once(reader: &mut FailsFirst, into: &mut [u8; 2]) -> Result<usize, Failed> {
    StdSource::new(reader).read(into)
}

const ERRORS: [ErrorKind; 3] = [
    ErrorKind::Interrupted,
    ErrorKind::WouldBlock,
    ErrorKind::Other,
];

// Whether a reader that fails first is asked once, and once more for the byte after.
fn is_asked_once(error: ErrorKind) -> bool {
    let mut reader = FailsFirst { error, calls: 0 };
    let mut into = [0; 2];
    let first = read_once(&mut reader, &mut into);
    if first.is_ok() || into != [0, 0] || reader.calls != 1 {
        return false;
    }
    let second = read_once(&mut reader, &mut into);
    second == Ok(1) && into == [7, 0] && reader.calls == 2
}

// An error is one fault, also that of an interrupted call: the reader is not asked a second time.
#[test]
fn a_reader_that_fails_is_asked_once(rt: HostRuntime) {
    for &error in &ERRORS {
        assert!(rt; is_asked_once(error));
    }
}

// Whether each of the pieces is written.
fn are_written<K: Sink>(sink: &mut K, pieces: &[&[u8]]) -> bool {
    for piece in pieces {
        if sink.write(piece).is_err() {
            return false;
        }
    }
    true
}

// Whether each of the pieces is written through a buffer, and passed on at the end.
fn are_passed_on(writer: &mut Writer, pieces: &[&[u8]]) -> bool {
    let mut sink = BufferedSink::new(writer);
    are_written(&mut sink, pieces) && sink.flush().is_ok()
}

const PIECES: [&[u8]; 3] = [&[1, 2, 3], &[], &[4, 5]];

// A short write is no fault, and one that takes nothing is one.
#[test]
fn a_writer_may_take_less_than_it_is_given(rt: HostRuntime) {
    let mut writer = Writer::new(rt.alloc(), 1, 0);
    assert!(rt; are_written(&mut StdSink::new(&mut writer), &PIECES));
    assert!(rt; writer.has([1, 2, 3, 4, 5].as_slice(), 5, 0));
    assert!(rt; are_passed_on(&mut writer, &PIECES));
    assert!(rt; writer.has([1, 2, 3, 4, 5, 1, 2, 3, 4, 5].as_slice(), 10, 1));
    let mut writer = Writer::new(rt.alloc(), 0, 0);
    assert!(rt; !are_written(&mut StdSink::new(&mut writer), &PIECES));
    assert!(rt; writer.has(&[], 1, 0));
}

// A writer is flushed if its sink is, once, and by no write.
#[test]
fn a_flush_reaches_the_writer_once(rt: HostRuntime) {
    let mut writer = Writer::new(rt.alloc(), 100_000, 0);
    let mut sink = StdSink::new(&mut writer);
    assert!(rt; are_written(&mut sink, &[&[1]]) && sink.flush().is_ok());
    assert!(rt; writer.has(&[1], 1, 1));
    assert!(rt; are_passed_on(&mut writer, &[&[2; 70_000], &[3], &[4]]));
    assert!(rt; writer.calls == 3 && writer.flushes == 2 && writer.held.len() == 70_003);
}

// Whether sources of each prefix of a row give it with one read, and then their end.
fn are_fronts_read(row: &[u8; 600]) -> bool {
    let mut into = [0; 600];
    for count in 1..=600 {
        let mut source = StdSource::new(&row[..count]);
        if source.read(&mut into) != Ok(count) || source.read(&mut into) != Ok(0) {
            return false;
        }
    }
    true
}

// Whether each prefix of a row is written.
fn are_fronts_written<K: Sink>(sink: &mut K, row: &[u8; 600]) -> bool {
    for count in 0..=600 {
        if sink.write(&row[..count]).is_err() {
            return false;
        }
    }
    true
}

// No number of bytes is a fault by itself, and the end of what is read is none.
#[test]
fn no_length_is_a_fault(rt: HostRuntime) {
    let row = [5; 600];
    assert!(rt; are_fronts_read(&row));
    let mut writer = Writer::new(rt.alloc(), 600, 0);
    assert!(rt; are_fronts_written(&mut StdSink::new(&mut writer), &row));
    assert!(rt; writer.held.len() == 180_300);
    assert!(rt; are_fronts_written(&mut BufferedSink::new(&mut writer), &row));
}

/// A writer that takes all that it is given, and cannot pass it on.
#[derive(Drop)]
struct NeverFlushed;

impl io::Write for NeverFlushed {
    fn write(&mut self, buf: &[u8]) -> io::Result<usize> {
        Ok(buf.len())
    }

    fn flush(&mut self) -> io::Result<()> {
        Err(io::Error::from(ErrorKind::BrokenPipe))
    }
}

// A flush of the writer that fails is a fault of the sink's.
#[test]
fn a_flush_that_fails_is_a_fault(rt: HostRuntime) {
    let mut sink = StdSink::new(NeverFlushed);
    assert!(rt; sink.write(&[1]).is_ok() && sink.flush().is_err());
    let mut sink = BufferedSink::new(NeverFlushed);
    assert!(rt; sink.write(&[1]).is_ok() && sink.flush().is_err());
}

// Two pieces, and by a flush, or by a piece that does not fit after them, the first call and the second, which fails; then a piece and
// a flush.
fn fails_once(writer: &mut Writer, last: &[u8]) -> bool {
    let mut sink = BufferedSink::new(writer);
    if !are_written(&mut sink, &[&[1, 2], &[3, 4]]) {
        return false;
    }
    let second = if last.is_empty() {
        sink.flush()
    } else {
        sink.write(last)
    };
    second.is_err() && sink.write(&[6, 7, 8]).is_ok() && sink.flush().is_ok()
}

// What was kept back if the writer failed is lost, the part of it that was taken too: none of it is passed on again.
#[test]
fn what_was_kept_back_is_not_passed_on_twice(rt: HostRuntime) {
    for last in [&[].as_slice(), [5; 70_000].as_slice()] {
        let mut writer = Writer::new(rt.alloc(), 2, 2);
        assert!(rt; fails_once(&mut writer, last));
        assert!(rt; writer.has(&[1, 2, 6, 7, 8], 4, 1));
    }
}
