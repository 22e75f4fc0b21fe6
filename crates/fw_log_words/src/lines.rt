//! `decode`: the line of each entry, as it ends.

ghost use Rattle.std.specs.Prelude.{◌≡◌, ◌++◌, OnOk};
ghost use Rattle.fw_log_entry.specs.declared.entry.Entry.{Entry};
ghost use Rattle.fw_log.specs.Passing.{HasBody};
ghost use Rattle.fw_log_text.specs.Line.{entry_line};
ghost use Rattle.fw_log_loop.specs.Endings.{ReadsLog};
ghost use Rattle.fw_log_reports.specs.Silences.{never_refused};
ghost use Rattle.fw_log_reports.specs.Texts.{nothing};
ghost use Rattle.fw_log_words.specs.Texts.{each_form};

use crate::LogRefusal;
use fw_cip::whole_iso;
use fw_log::{LogReader, PlainBody, ReadBuffers, Timed};
use fw_log_loop::{Closing, LogEnding, Reading, Stop, read_log};
use fw_log_text::{LineRoom, put_entry_from, put_iso_from, put_packet_from, put_reset_from};
use fw_outside::{Failed, Flush, Sink, Source};
use std::alloc::{AllocError, Global};

// The lines of entries.
#[derive(Drop)]
struct Lines {
    room: LineRoom,
}

// Appends the line of an entry of this cycle that has this body.
fn put_body(room: &mut LineRoom, cycle: u64, body: &PlainBody) -> Result<(), AllocError>
    requires { (e : Entry) × HasBody body.now e }
    ensures { (e : Entry) → HasBody body.now e → OnOk result (room.new ≡ room.old ++ entry_line (record { cycle = cycle; what = e })) }
{
    match body {
        PlainBody::Packet(bytes) => put_packet_from(room, cycle, bytes.as_slice()),
        PlainBody::Iso(bytes) => put_iso_from(room, cycle, &whole_iso(bytes.as_slice())),
        PlainBody::Reset(bytes) => put_reset_from(room, cycle, bytes.as_slice()),
    }
}

impl Reading for Lines {
    type Refusal = LogRefusal;

    ghost use Rattle.fw_log_reports.specs.Silences.{none_unrefused};
    ghost use Rattle.fw_log_words.specs.Texts.{each_alone};

    ghost form = { λ s. each_form entry_line };

    ghost rules = { never_refused nothing };

    ghost took = { λ s entries. Unit {0} };

    ghost gathered = { λ s. s.room };

    fn open<K: Sink>(&self, _sink: &mut K) -> Result<(), Failed> {
        Ok(())
    }

    fn take(&mut self, entry: &Timed, bytes: &[u8]) -> Result<Option<LogRefusal>, AllocError> {
        put_entry_from(&mut self.room, entry, bytes)?;
        Ok(None)
    }

    // The line of a packet or a bus reset of a usual form is made of its body.
    fn take_raw(
        &mut self,
        reader: &mut LogReader,
        room: &mut ReadBuffers,
        piece: &[u8],
    ) -> Result<Option<usize>, AllocError> {
        let Some(passed) = reader.pass_body(piece, room) else {
            return Ok(None);
        };
        put_body(&mut self.room, passed.cycle, &passed.body)?;
        Ok(Some(passed.used))
    }

    fn gathered(&self) -> &[u8] {
        self.room.as_slice()
    }

    fn clear(&mut self) {
        self.room.clear();
    }

    fn close(&self, alloc: Global) -> Result<Closing<LogRefusal>, AllocError> {
        Ok(Closing::Text(String::new(alloc)))
    }

    ghost each = { λ s. each_alone entry_line };

    ghost accepted = { λ s entries t. tt };

    ghost unrefused = { λ entries h. none_unrefused nothing entries };
}

/// Reads a log, and writes the line of each entry.
///
/// The lines of the entries that ended are written before more is read, so after a read fault or a fault of the log all lines
/// of the entries before it are there. A call takes at most 4,095 bytes after the byte that shows a fault of the log.
pub fn decode<S: Source, K: Flush>(
    alloc: Global,
    source: &mut S,
    sink: &mut K,
) -> LogEnding<LogRefusal>
    ensures { ReadsLog (each_form entry_line) (never_refused nothing) (record { left = S.left; faults = S.faults; old = source.old; new = source.new })
        (record { held = K.held; faults = K.faults; old = sink.old; new = sink.new }) result }
{
    match LineRoom::new(alloc) {
        Ok(room) => read_log(alloc, Lines { room }, source, sink),
        Err(_) => LogEnding::Stopped(Stop::NoMemory),
    }
}
