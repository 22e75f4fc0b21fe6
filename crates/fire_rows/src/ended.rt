//! How a call ended.

ghost use Rattle.std.specs.Prelude.{◌≡◌, IsTrue};

use crate::due::{Due, Written};
use crate::miss::Miss;
use fw_outside::MemSink;
use std::alloc::{AllocError, Global};

/// What a note has room for, in bytes.
const NOTE_ROOM: usize = 4096;

/// How a call ended: its status, what it wrote, and what it told.
#[derive(Drop)]
pub(crate) struct Ended {
    pub(crate) status: u8,
    pub(crate) output: MemSink,
    pub(crate) notes: MemSink,
}

/// The numbers of the writes to the output, and of those to the notes, that fail, the first being number 1.
#[derive(Clone, Copy)]
pub(crate) struct Failing<'a> {
    pub(crate) writes: &'a [u32],
    pub(crate) notes: &'a [u32],
}

impl Ended {
    /// A call that has written and told nothing, with room for so many bytes.
    pub(crate) fn new(
        alloc: Global,
        room: usize,
        failing: Failing<'_>,
    ) -> Result<Ended, AllocError> {
        Ok(Ended {
            status: 0,
            output: sink_of(alloc, room, failing.writes)?,
            notes: sink_of(alloc, NOTE_ROOM, failing.notes)?,
        })
    }

    /// Whether it ended so.
    fn is(&self, due: &Due<'_>) -> bool
        ensures { IsTrue result → self.now.status ≡ due.now.status }
    {
        self.status == due.status
            && is_told(self.notes.as_slice(), due.note)
            && due.output.is(self.output())
    }

    /// What it wrote.
    pub(crate) fn output(&self) -> &[u8]
        ensures { result.now ≡ self.now.output.held }
    {
        self.output.as_slice()
    }

    /// That it ended so, or how otherwise.
    pub(crate) fn check(&self, alloc: Global, due: &Due<'_>) -> Result<(), Miss> {
        if self.is(due) {
            return Ok(());
        }
        let expected = expected(alloc, due)?;
        let found = self.found(alloc, due.output)?;
        Err(Miss::otherwise(alloc, &expected, &found))
    }

    /// How it ended, with the first byte that is other than it is to be.
    fn found(&self, alloc: Global, due: Written<'_>) -> Result<String, AllocError> {
        let (status, length) = (self.status, self.output().len());
        let note = str::from_utf8(self.notes.as_slice()).unwrap_or("(no text)");
        let found = format!(in alloc; "status {status}, note {note:?}, {length} bytes")?;
        let Some((at, byte)) = due.first_other(self.output()) else {
            return Ok(found);
        };
        let here = self.output().get(at).copied().unwrap_or(0);
        format!(in alloc; "{found}, of which byte {at} is {here:02x} and not {byte:02x}")
    }
}

/// What is expected, as `found` says what is found.
fn expected(alloc: Global, due: &Due<'_>) -> Result<String, AllocError> {
    let (status, end) = (due.status, if due.note.is_empty() { "" } else { "\n" });
    let note = format!(in alloc; "{}{end}", due.note)?;
    let expected = format!(in alloc; "status {status}, note {note:?}")?;
    match due.output {
        Written::Whole(bytes) => format!(in alloc; "{expected}, {} bytes", bytes.len()),
        Written::Prefix(bytes) => format!(in alloc; "{expected}, a front of {} bytes", bytes.len()),
        Written::Any => Ok(expected),
    }
}

fn is_told(notes: &[u8], note: &str) -> bool {
    match notes {
        [] => note.is_empty(),
        [line @ .., b'\n'] => !note.is_empty() && line == note.as_bytes(),
        _ => false,
    }
}

/// A sink with room for so many bytes, of which these writes fail.
fn sink_of(alloc: Global, room: usize, failing: &[u32]) -> Result<MemSink, AllocError> {
    MemSink::new(alloc, room, failing.to_vec(alloc)?)
}
