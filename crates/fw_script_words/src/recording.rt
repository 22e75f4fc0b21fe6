//! The word `dub`.

ghost use Rattle.std.specs.Prelude.{◌≡◌, List, ℕ, Some, IsFalse};
ghost use Rattle.fw_bus.specs.Buses.{StandsFor};
ghost use Rattle.fw_model_run.specs.State.{first_state};
ghost use Rattle.fw_tape.specs.Desks.{AnyBlock, AnyVendorByte};
ghost use Rattle.fw_script_words.specs.Counts.{ReadCount, WriteCount};
ghost use Rattle.fw_script_words.specs.Dubs.{Dubs, Recorded, WritesReel};
ghost use Rattle.fw_script_words.specs.Scripts.{IsValid, IsNoRefusal};

use crate::ending::RunEnding;
use crate::seed::in_memory;
use crate::step::carry_next;
use fw_bus::Bus;
use fw_dub::Reel;
use fw_outside::{Failed, Nowhere, Sink, Source, Stop};
use fw_script::ScriptReader;
use fw_tape::Desk;
use std::alloc::Global;

/// Reads a script and carries out its commands on a new bus, which then stands where the script leaves it. Its log is kept nowhere.
pub fn record_run<S: Source, F: Fn(u16, u32, u16) -> [u8; 480], H: Fn(u32, u8) -> u8>(
    alloc: Global,
    source: &mut S,
    bus: &mut Bus,
    desk: &Desk<F, H>,
) -> RunEnding
    requires blocks { AnyBlock (F.pre desk.now.blocks) }
    requires desk { AnyVendorByte (H.pre desk.now.vendor) }
    requires first { StandsFor bus.old.machine first_state }
    requires fresh { IsFalse bus.old.spent }
    ensures recorded { Recorded (record { blocks = F.post desk.now.blocks; vendor = H.post desk.now.vendor }) (S.left source.old) (S.left source.new) bus.new result }
    ensures read_count { ReadCount (S.faults source.old) (S.faults source.new) result }
{
    let Ok(mut reader) = ScriptReader::new(alloc) else {
        return RunEnding::Stopped(Stop::NoMemory);
    };
    loop {
        if let Some(ending) = carry_next(&mut reader, bus, source, &mut Nowhere, desk) {
            return in_memory(ending);
        }
    }
}

// Writes a reel.
fn write_reel<K: Sink>(reel: &Reel, sink: &mut K) -> RunEnding
    ensures bytes { WritesReel reel.now (K.held sink.old) (K.held sink.new) result }
    ensures write_count { WriteCount (K.faults sink.old) (K.faults sink.new) result }
{
    match reel.write(sink) {
        Ok(()) => RunEnding::Done,
        Err(Failed) => RunEnding::Stopped(Stop::WriteFault),
    }
}

/// Reads a script and carries out its commands on a new bus, as `run` does, and writes what the reel then has in place of the log. The log
/// is kept nowhere. Of a script that is not read to its end, or of which a line is refused,
/// nothing is written.
// Not in line: its bus would stand on the stack of every other word.
#[inline(never)]
pub fn dub<S: Source, K: Sink, F: Fn(u16, u32, u16) -> [u8; 480], H: Fn(u32, u8) -> u8>(
    alloc: Global,
    source: &mut S,
    sink: &mut K,
    desk: &Desk<F, H>,
) -> RunEnding
    requires blocks { AnyBlock (F.pre desk.now.blocks) }
    requires desk { AnyVendorByte (H.pre desk.now.vendor) }
    ensures dubs { Dubs (record { blocks = F.post desk.now.blocks; vendor = H.post desk.now.vendor })
        (S.left source.old) (S.left source.new) (K.held sink.old) (K.held sink.new) result }
    ensures complete { (script : List ℕ) → S.left source.old ≡ Some script → IsValid script → IsNoRefusal result }
    ensures read_count { ReadCount (S.faults source.old) (S.faults source.new) result }
    ensures write_count { WriteCount (K.faults sink.old) (K.faults sink.new) result }
{
    // Left where it is made, and not moved: that would take its place on the stack twice.
    let mut made = Bus::new(alloc);
    let Ok(bus) = &mut made else {
        return RunEnding::Stopped(Stop::NoMemory);
    };
    match record_run(alloc, source, bus, desk) {
        RunEnding::Done => write_reel(bus.reel(), sink),
        ending => ending,
    }
}
