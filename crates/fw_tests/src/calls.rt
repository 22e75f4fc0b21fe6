//! Calls of the program over memory.

use fw_outside::{MemSink, MemSource, Source};
use fw_program::{NOTE_ROOM, program};
use std::alloc::{AllocError, Global};

/// What the output of a call has room for, in bytes.
const OUTPUT_ROOM: usize = 20_000;

/// How a call ended.
#[derive(Drop)]
pub(crate) struct Ended {
    pub(crate) status: u8,
    pub(crate) output: MemSink,
    pub(crate) notes: MemSink,
}

impl Ended {
    /// It ended with this status, this note and this output.
    pub(crate) fn is(&self, status: u8, note: &str, output: &[u8]) -> bool {
        self.status == status
            && self.notes.as_slice() == note.as_bytes()
            && self.output.as_slice() == output
    }
}

/// The numbers of the reads, of the writes to the sink, and of those to the notes that fail.
#[derive(Clone, Copy)]
pub(crate) struct Failing<'a> {
    pub(crate) reads: &'a [u32],
    pub(crate) writes: &'a [u32],
    pub(crate) notes: &'a [u32],
}

pub(crate) const NONE: Failing<'static> = Failing {
    reads: &[],
    writes: &[],
    notes: &[],
};

/// A call over a source that gives all that is asked for.
pub(crate) fn call(
    alloc: Global,
    words: &[&str],
    input: &[u8],
    failing: Failing<'_>,
) -> Result<Ended, AllocError> {
    let mut source = MemSource::new(input.to_vec(alloc)?, failing.reads.to_vec(alloc)?);
    call_over(alloc, words, &mut source, failing)
}

/// A call over a source.
pub(crate) fn call_over<S: Source>(
    alloc: Global,
    words: &[&str],
    source: &mut S,
    failing: Failing<'_>,
) -> Result<Ended, AllocError> {
    let mut list = Vec::new(alloc);
    for word in words {
        list.push(word.to_string(alloc)?)?;
    }
    let mut output = MemSink::new(alloc, OUTPUT_ROOM, failing.writes.to_vec(alloc)?)?;
    let mut notes = MemSink::new(alloc, NOTE_ROOM, failing.notes.to_vec(alloc)?)?;
    let status = program(alloc, &list, source, &mut output, &mut notes);
    Ok(Ended {
        status,
        output,
        notes,
    })
}

/// How many bytes a source still gives, up to 32,000.
pub(crate) fn read_on(source: &mut MemSource) -> usize {
    let mut piece = [0; 1000];
    let mut count: usize = 0;
    for _ in 0..32 {
        if let Ok(more) = source.read(&mut piece) {
            count = count.saturating_add(more);
        }
    }
    count
}

/// The first bytes, as many as there are up to a count.
pub(crate) fn prefix(bytes: &[u8], count: usize) -> &[u8] {
    &bytes[..count.min(bytes.len())]
}
