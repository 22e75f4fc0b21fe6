//! The word `trace`.

ghost use Rattle.std.specs.Prelude.{◌≡◌, [], None, Some, List, ℕ, IsFalse};
ghost use Rattle.fw_bus.specs.Buses.{StandsFor};
ghost use Rattle.fw_model_run.specs.State.{first_state};
ghost use Rattle.fw_script.specs.Reading.{unread};
ghost use Rattle.fw_tape.specs.Desks.{AnyBlock, AnyVendorByte};
ghost use Rattle.fw_script_words.specs.Counts.{ReadCount, WriteCount, WritesOn};
ghost use Rattle.fw_script_words.specs.Scripts.{IsValid, IsNoRefusal};
ghost use Rattle.fw_trace_lines.specs.Caused.{untold};
ghost use Rattle.fw_trace.specs.Traces.{Traces};
ghost use Rattle.fw_trace.specs.Tracing.{IsBeginning};

use crate::line::trace_next;
use crate::step::ending_of;
use crate::telling::{Teller, TellingSink};
use fw_bus::Bus;
use fw_log_entry::{Version, write_header};
use fw_outside::{Failed, Sink, Source, Stop};
use fw_script::ScriptReader;
use fw_script_words::RunEnding;
use fw_tape::Desk;
use std::alloc::Global;

// Reads what the log begins with, for which nothing is told. Answers how the run ends, or None if it goes on.
fn read_header<K: Sink>(telling: &mut TellingSink<K>) -> Option<RunEnding>
    requires lack { telling.old.teller.now.lack ≡ None }
    requires origin { telling.old.teller.now.origin.value ≡ record { text = []; telling = untold } }
    requires earlier { telling.old.teller.now.earlier.value.bytes ≡ [] }
    requires history { telling.old.teller.now.history.bytes ≡ [] }
    requires start { telling.old.teller.now.passed.start.value ≡ telling.old.inner.now }
    ensures begins { IsBeginning (K.held telling.old.inner.now) (K.held telling.new.inner.now) telling.new.teller.now.lack telling.new.teller.now.tracer
        telling.new.teller.now.history.bytes result }
    ensures reference { telling.new.inner.ghost_name ≡ telling.old.inner.ghost_name }
    ensures writes { WritesOn (K.faults telling.old.inner.now) (K.faults telling.new.inner.now) result }
{
    match write_header(Version::Two, telling) {
        Ok(()) => None,
        Err(Failed) => Some(ending_of(telling, RunEnding::Stopped(Stop::WriteFault))),
    }
}

// Reads a script and carries out its commands on a new bus, and tells its lines, each followed by what it caused.
fn trace_all<S: Source, K: Sink, F: Fn(u16, u32, u16) -> [u8; 480], H: Fn(u32, u8) -> u8>(
    reader: &mut ScriptReader,
    bus: &mut Bus,
    source: &mut S,
    telling: &mut TellingSink<K>,
    desk: &Desk<F, H>,
) -> RunEnding
    requires blocks { AnyBlock (F.pre desk.now.blocks) }
    requires desk { AnyVendorByte (H.pre desk.now.vendor) }
    requires unread { reader.old ≡ unread }
    requires first { StandsFor bus.old.machine first_state }
    requires fresh { IsFalse bus.old.spent }
    requires lack { telling.old.teller.now.lack ≡ None }
    requires origin { telling.old.teller.now.origin.value ≡ record { text = []; telling = untold } }
    requires earlier { telling.old.teller.now.earlier.value.bytes ≡ [] }
    requires history { telling.old.teller.now.history.bytes ≡ [] }
    requires start { telling.old.teller.now.passed.start.value ≡ telling.old.inner.now }
    ensures traces { Traces (record { blocks = F.post desk.now.blocks; vendor = H.post desk.now.vendor })
        (S.left source.old) (S.left source.new) (K.held telling.old.inner.now) (K.held telling.new.inner.now) result }
    ensures reference { telling.new.inner.ghost_name ≡ telling.old.inner.ghost_name }
    ensures read_count { ReadCount (S.faults source.old) (S.faults source.new) result }
    ensures write_count { WriteCount (K.faults telling.old.inner.now) (K.faults telling.new.inner.now) result }
{
    if let Some(ending) = read_header(telling) {
        return ending;
    }
    loop {
        if let Some(ending) = trace_next(reader, bus, source, telling, desk) {
            return ending;
        }
    }
}

/// Reads a script and carries out its commands on a new bus, as `run` does, and writes in place of the log the lines of the script, each
/// followed by what it caused. The text takes memory as it grows: if none is left, a prefix of it was written.
// Not in line: its bus would stand on the stack of every other word.
#[inline(never)]
pub fn trace<S: Source, K: Sink, F: Fn(u16, u32, u16) -> [u8; 480], H: Fn(u32, u8) -> u8>(
    alloc: Global,
    source: &mut S,
    sink: &mut K,
    desk: &Desk<F, H>,
) -> RunEnding
    requires blocks { AnyBlock (F.pre desk.now.blocks) }
    requires desk { AnyVendorByte (H.pre desk.now.vendor) }
    ensures traces { Traces (record { blocks = F.post desk.now.blocks; vendor = H.post desk.now.vendor })
        (S.left source.old) (S.left source.new) (K.held sink.old) (K.held sink.new) result }
    ensures complete { (script : List ℕ) → S.left source.old ≡ Some script → IsValid script → IsNoRefusal result }
    ensures read_count { ReadCount (S.faults source.old) (S.faults source.new) result }
    ensures write_count { WriteCount (K.faults sink.old) (K.faults sink.new) result }
{
    // Left where it is made, and not moved: that would take its place on the stack twice.
    let mut made = Bus::new(alloc);
    let Ok(bus) = &mut made else {
        return RunEnding::Stopped(Stop::NoMemory);
    };
    let Ok(mut reader) = ScriptReader::new(alloc) else {
        return RunEnding::Stopped(Stop::NoMemory);
    };
    let Ok(mut teller) = Teller::new(alloc, &*sink) else {
        return RunEnding::Stopped(Stop::NoMemory);
    };
    let mut telling = TellingSink::new(sink, &mut teller);
    trace_all(&mut reader, bus, source, &mut telling, desk)
}
