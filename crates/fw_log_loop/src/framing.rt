//! A log between a begin and an end that a word writes.

ghost use Rattle.std.specs.Prelude.{ℕ, ◌≡◌, ◌+◌, ◌<◌, ◌^◌, ◌++◌, List, [], length, OnOk, OnErr};
ghost use Rattle.fw_outside.specs.Outside.{Rose, Writes};
ghost use Rattle.fw_log_entry.specs.declared.entry.Timed.{Timed as TimedEntry};
ghost use Rattle.fw_log_loop.specs.Readings.{IsFramed};
ghost use Rattle.fw_log_loop.specs.Endings.{stop_of, ReadsLog};
ghost use Rattle.fw_log_loop.specs.Framings.{Concludes, ConcludeCount};

use crate::log::read_pieces;
use crate::piece::print;
use crate::{LogEnd, LogEnding, Reading};
use fw_log::{LogReader, ReadBuffers};
use fw_outside::{Failed, Flush, Sink, Source, Stop};
use std::alloc::{AllocError, Global};

/// What a word makes of a log that writes something before anything is read, and something at the end of what was read.
pub trait Framed: Reading {
    /// Writes what is due before anything is read.
    fn begin<K: Sink>(&self, sink: &mut K) -> Result<(), Failed>
        ensures text { Writes (K.held sink.old) (K.held sink.new) result (Self.form self.now).prefix }
        ensures stays { OnOk result (K.faults sink.new ≡ K.faults sink.old) }
        ensures failed { OnErr result (Rose (K.faults sink.old) (K.faults sink.new)) };

    /// Gathers what is due at the end of what was read, however that ends, unless a read or a write failed or memory ran out. An error
    /// says that memory ran out.
    fn end(&mut self, end: LogEnd) -> Result<(), AllocError>
        requires { Self.gathered self.old ≡ [] }
        ensures { (entries : List TimedEntry) → length entries + 1 < 2 ^ 64 → Self.took self.old entries
            → OnOk result ((text : List ℕ) → (Self.form self.old).closed entries end text ≡ text ++ Self.gathered self.new) };

    /// It writes nothing at the header, and nothing at a log's end but what it gathers there; and that goes on from what was written.
    ghost frame: { (s : Self) → IsFramed (Self.form s) Self.rules };
}

// Writes what is due at the end of what was read.
fn conclude<O: Framed, K: Sink>(output: &mut O, end: LogEnd, sink: &mut K) -> Result<(), Stop>
    requires { O.gathered output.old ≡ [] }
    ensures text { (entries : List TimedEntry) → length entries + 1 < 2 ^ 64 → O.took output.old entries
        → Concludes (O.form output.old) entries end (K.held sink.old) (K.held sink.new) result }
    ensures counts { ConcludeCount (K.faults sink.old) (K.faults sink.new) result }
{
    let Ok(()) = output.end(end) else {
        return Err(Stop::NoMemory);
    };
    let Ok(()) = print(output.gathered(), sink) else {
        return Err(Stop::WriteFault);
    };
    Ok(())
}

/// Reads a log to its end as `read_log` does, and writes what a word makes of it between what is due before anything is read and what
/// is due at the end of what was read: at a log's end, if the bytes are not a log, and if more than 268,435,456 of them come.
pub fn read_framed<O: Framed, S: Source, K: Flush>(
    alloc: Global,
    mut output: O,
    source: &mut S,
    sink: &mut K,
) -> LogEnding<O::Refusal>
    requires took { O.took output [] }
    requires empty { O.gathered output ≡ [] }
    ensures { ReadsLog (O.form output) O.rules (record { left = S.left; faults = S.faults; old = source.old; new = source.new })
        (record { held = K.held; faults = K.faults; old = sink.old; new = sink.new }) result }
{
    let Ok(mut reader) = LogReader::new(alloc) else {
        return LogEnding::Stopped(Stop::NoMemory);
    };
    let Ok(mut room) = ReadBuffers::new(alloc) else {
        return LogEnding::Stopped(Stop::NoMemory);
    };
    let Ok(()) = output.begin(sink) else {
        return LogEnding::Stopped(Stop::WriteFault);
    };
    let ending = read_pieces(alloc, &mut reader, &mut room, &mut output, source, sink);
    let Some(end) = LogEnd::of(&ending) else {
        return ending;
    };
    match conclude(&mut output, end, sink) {
        Ok(()) => ending,
        Err(stop) => LogEnding::Stopped(stop),
    }
}
