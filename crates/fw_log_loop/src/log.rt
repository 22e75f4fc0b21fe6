//! A log, from its first byte to its end.

ghost use Rattle.std.specs.Prelude.{ℕ, ◌≡◌, ◌<◌, ◌^◌, List, []};
ghost use Rattle.fw_outside.specs.Stops.{ReadCount, WriteCount};
ghost use Rattle.fw_log_entry.specs.declared.entry.Timed.{Timed as TimedEntry};
ghost use Rattle.fw_log.specs.History.{HasRead};
ghost use Rattle.fw_log.specs.Reader.{total};
ghost use Rattle.std.specs.Prelude.{Some};
ghost use Rattle.fw_log_loop.specs.Readings.{bare, IsBare};
ghost use Rattle.fw_log_loop.specs.Endings.{stop_of, end_of, ReadsLog};
ghost use Rattle.fw_log_loop.specs.Parts.{unread};
ghost use Rattle.fw_log_loop.specs.Pieces.{EndsLog, ReadsTo};
ghost use Rattle.fw_log_loop.specs.declared.ending.LogEnd.{LogEnd as AnEnd};

use crate::parts::read_parts;
use crate::piece::print;
use crate::{LogEnding, Reading};
use fw_log::{LogReader, ReadBuffers};
use fw_outside::{Flush, Sink, Source, Stop, ask};
use std::alloc::Global;

/// How many bytes of a log are read at most.
const LIMIT: usize = 268_435_456;

/// How many bytes are asked for at a time.
const PIECE: usize = 65_536;

// How a log ends whose input has ended.
fn end_log<O: Reading, K: Sink>(
    alloc: Global,
    reader: &LogReader,
    output: &O,
    sink: &mut K,
) -> LogEnding<O::Refusal>
    requires room { total reader.now < 2 ^ 64 }
    requires begun { (entries : List TimedEntry) × O.took output.now entries }
    ensures ends { (entries : List TimedEntry) → (bytes : List ℕ) → HasRead entries bytes reader.now → O.took output.now entries
        → EndsLog O.rules entries bytes reader.now (K.held sink.old) (K.held sink.new) result }
    ensures counts { WriteCount (K.faults sink.old) (K.faults sink.new) (stop_of result) }
{
    if let Err(fault) = reader.finish() {
        return LogEnding::NoLog(fault);
    }
    let Ok(closing) = output.close(alloc) else {
        return LogEnding::Stopped(Stop::NoMemory);
    };
    let text = match closing.into_bytes() {
        Ok(text) => text,
        Err(refusal) => return LogEnding::Refused(refusal),
    };
    match print(&text, sink) {
        Ok(()) => LogEnding::Done,
        Err(_) => LogEnding::Stopped(Stop::WriteFault),
    }
}

// Why a call stops that was given no more bytes. No limit is met where they are asked for.
fn unread(stop: Stop) -> Stop
    ensures { result ≡ unread stop }
{
    match stop {
        Stop::ReadFault | Stop::WriteFault | Stop::NoMemory => stop,
        Stop::TooLong => Stop::NoMemory,
    }
}

// Reads a log from its first byte on. The ending says of the entries, if they were all taken, that the output took them.
pub(crate) fn read_pieces<O: Reading, S: Source, K: Flush>(
    alloc: Global,
    reader: &mut LogReader,
    room: &mut ReadBuffers,
    output: &mut O,
    source: &mut S,
    sink: &mut K,
) -> LogEnding<O::Refusal>
    requires begins { HasRead [] [] reader.old }
    requires took { O.took output.old [] }
    requires empty { O.gathered output.old ≡ [] }
    ensures reads { ReadsTo (bare (O.form output.old)) O.rules (O.took output.new) (S.left source.old) (S.left source.new) (K.held sink.old) (K.held sink.new) result }
    ensures same { O.form output.new ≡ O.form output.old }
    ensures empty { (end : AnEnd) → end_of result ≡ Some end → O.gathered output.new ≡ [] }
    ensures read_count { ReadCount (S.faults source.old) (S.faults source.new) (stop_of result) }
    ensures write_count { WriteCount (K.faults sink.old) (K.faults sink.new) (stop_of result) }
{
    let Ok(mut piece) = Box::new(alloc, [0; PIECE]) else {
        return LogEnding::Stopped(Stop::NoMemory);
    };
    let mut left = LIMIT;
    loop {
        let count = match ask(source, sink, &mut *piece) {
            Ok(count) => count,
            Err(stop) => return LogEnding::Stopped(unread(stop)),
        };
        if count == 0 {
            return end_log(alloc, reader, output, sink);
        }
        let within = count.min(left);
        let bytes = &piece[..within];
        if let Err(ending) = read_parts(reader, room, output, LIMIT - left, bytes, sink) {
            return ending;
        }
        if within < count {
            return LogEnding::Stopped(Stop::TooLong);
        }
        left -= count;
    }
}

/// Reads a log to its end, and writes what a word makes of it that writes nothing before it reads and nothing after.
///
/// What the entries give that ended is written, and all that the sink keeps back is passed on, before more is read. A call takes at most
/// 65,535 bytes after the byte that shows a fault of the log, and 65,536 after an entry that is refused.
pub fn read_log<O: Reading, S: Source, K: Flush>(
    alloc: Global,
    mut output: O,
    source: &mut S,
    sink: &mut K,
) -> LogEnding<O::Refusal>
    requires bare { IsBare (O.form output) }
    requires took { O.took output [] }
    requires empty { O.gathered output ≡ [] }
    ensures { ReadsLog (O.form output) O.rules (record { left = S.left; faults = S.faults; old = source.old; new = source.new })
        (record { held = K.held; faults = K.faults; old = sink.old; new = sink.new }) result }
{
    let Ok(mut reader) = LogReader::new(alloc) else {
        return LogEnding::Stopped(Stop::NoMemory);
    };
    let Ok(mut room) = ReadBuffers::new(alloc) else {
        return LogEnding::Stopped(Stop::NoMemory);
    };
    read_pieces(alloc, &mut reader, &mut room, &mut output, source, sink)
}
