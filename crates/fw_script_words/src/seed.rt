//! The word `gen`.

ghost use Rattle.std.specs.Prelude.{◌≡◌, ◌≤◌, [], List, length};
ghost use Rattle.fw_log_entry.specs.declared.entry.Timed.{Timed};
ghost use Rattle.fw_script_gen.specs.Gen.{script_of};
ghost use Rattle.fw_script_gen.specs.Summary.{Counts};
ghost use Rattle.fw_tape.specs.Desks.{AnyBlock, AnyVendorByte};
ghost use Rattle.fw_script_words.specs.Counts.{WriteCount};
ghost use Rattle.fw_script_words.specs.Scripts.{IsValid, IsNoRefusal};
ghost use Rattle.fw_script_words.specs.Sums.{in_memory, Counted, Summed, Sums};

use crate::ending::RunEnding;
use crate::step::carry_next;
use fw_bus::Bus;
use fw_outside::{Failed, GrowSink, ScriptSource, Sink, Stop};
use fw_script::ScriptReader;
use fw_script_gen::{Tally, gen_script};
use fw_tape::Desk;
use std::alloc::Global;

/// How a run ends whose log goes nowhere but to memory: a write there fails only if memory is refused.
pub fn in_memory(ending: RunEnding) -> RunEnding
    ensures { result ≡ in_memory ending }
{
    match ending {
        RunEnding::Stopped(Stop::WriteFault) => RunEnding::Stopped(Stop::NoMemory),
        _ => ending,
    }
}

// Runs a script in memory, and counts the entries of its log. The log is never kept: after each command what it wrote is
// counted, and the sink emptied. If a count passes 2^64 - 1, memory for it is lacking.
fn count_run<F: Fn(u16, u32, u16) -> [u8; 480], H: Fn(u32, u8) -> u8>(
    alloc: Global,
    script: Vec<u8>,
    tally: &mut Tally,
    desk: &Desk<F, H>,
) -> RunEnding
    requires blocks { AnyBlock (F.pre desk.now.blocks) }
    requires desk { AnyVendorByte (H.pre desk.now.vendor) }
    requires none { Counts [] tally.old }
    requires short { length script.items ≤ 1048576 }
    ensures { Counted (record { blocks = F.post desk.now.blocks; vendor = H.post desk.now.vendor }) script.items tally.new result }
{
    // Left where it is made, and not moved: that would take its place on the stack twice.
    let mut made = Bus::new(alloc);
    let Ok(bus) = &mut made else {
        return RunEnding::Stopped(Stop::NoMemory);
    };
    let Ok(mut reader) = ScriptReader::new(alloc) else {
        return RunEnding::Stopped(Stop::NoMemory);
    };
    let mut source = ScriptSource::new(script);
    let mut sink = GrowSink::new(alloc);
    loop {
        if let Some(ending) = carry_next(&mut reader, bus, &mut source, &mut sink, desk) {
            return in_memory(ending);
        }
        let Ok(()) = tally.take(sink.as_slice()) else {
            return RunEnding::Stopped(Stop::NoMemory);
        };
        sink.clear();
    }
}

// Writes the summary of what was counted.
fn write_summary<K: Sink>(alloc: Global, tally: &Tally, sink: &mut K) -> RunEnding
    ensures text { (log : List Timed) → Counts log tally.now → Summed log (K.held sink.old) (K.held sink.new) result }
    ensures counts { WriteCount (K.faults sink.old) (K.faults sink.new) result }
{
    let Ok(summary) = tally.summary(alloc) else {
        return RunEnding::Stopped(Stop::NoMemory);
    };
    match sink.write(summary.as_bytes()) {
        Ok(()) => RunEnding::Done,
        Err(Failed) => RunEnding::Stopped(Stop::WriteFault),
    }
}

/// Runs the script that a seed makes, and writes the summary of its log at the end. It reads nothing, and if a line of the
/// script is refused it writes nothing.
// Not in line: its bus would stand on the stack of every other word.
#[inline(never)]
pub fn run_seed<K: Sink, F: Fn(u16, u32, u16) -> [u8; 480], H: Fn(u32, u8) -> u8>(
    alloc: Global,
    seed: u32,
    sink: &mut K,
    desk: &Desk<F, H>,
) -> RunEnding
    requires blocks { AnyBlock (F.pre desk.now.blocks) }
    requires desk { AnyVendorByte (H.pre desk.now.vendor) }
    ensures sums { Sums (record { blocks = F.post desk.now.blocks; vendor = H.post desk.now.vendor }) seed (K.held sink.old) (K.held sink.new) result }
    ensures complete { IsValid (script_of seed) → IsNoRefusal result }
    ensures write_count { WriteCount (K.faults sink.old) (K.faults sink.new) result }
{
    let Ok(script) = gen_script(alloc, seed) else {
        return RunEnding::Stopped(Stop::NoMemory);
    };
    let mut tally = Tally::new();
    match count_run(alloc, script, &mut tally, desk) {
        RunEnding::Done => write_summary(alloc, &tally, sink),
        ending => ending,
    }
}
