ghost use Rattle.std.specs.Prelude.{◌≡◌, List, ℕ, Some};
ghost use Rattle.fw_tape.specs.Desks.{AnyBlock, AnyVendorByte};
ghost use Rattle.fw_script_words.specs.Ending.{Runs};
ghost use Rattle.fw_script_words.specs.Counts.{ReadCount, WriteCount};
ghost use Rattle.fw_script_words.specs.Scripts.{IsValid, IsNoRefusal};

use crate::ending::RunEnding;
use crate::step::carry_next;
use fw_bus::Bus;
use fw_log_entry::{Version, write_header};
use fw_outside::{Sink, Source, Stop};
use fw_script::ScriptReader;
use fw_tape::Desk;
use std::alloc::Global;

/// Reads a script of at most 1,048,576 bytes, carries out its commands on a new bus, each as it is read, and writes their log. The
/// blocks of tapes, and what a vendor makes of a byte of a command, come from the desk.
// Not in line: its bus would stand on the stack of every other word.
#[inline(never)]
pub fn run<S: Source, K: Sink, F: Fn(u16, u32, u16) -> [u8; 480], H: Fn(u32, u8) -> u8>(
    alloc: Global,
    source: &mut S,
    sink: &mut K,
    desk: &Desk<F, H>,
) -> RunEnding
    requires blocks { AnyBlock (F.pre desk.now.blocks) }
    requires desk { AnyVendorByte (H.pre desk.now.vendor) }
    ensures runs { Runs (record { blocks = F.post desk.now.blocks; vendor = H.post desk.now.vendor })
        (S.left source.old) (S.left source.new) (K.held sink.old) (K.held sink.new) result }
    ensures complete { (script : List ℕ) → S.left source.old ≡ Some script → IsValid script → IsNoRefusal result }
    ensures read_count { ReadCount (S.faults source.old) (S.faults source.new) result }
    ensures write_count { WriteCount (K.faults sink.old) (K.faults sink.new) result }
{
    // Left where it is made, and not moved: that would take its place on the stack twice.
    let mut made = Bus::new(alloc);
    let Ok(bus) = &mut made else {
        return RunEnding::Stopped(Stop::NoMemory);
    };
    let Ok(mut reader) = ScriptReader::new(alloc) else {
        return RunEnding::Stopped(Stop::NoMemory);
    };
    let Ok(()) = write_header(Version::Two, sink) else {
        return RunEnding::Stopped(Stop::WriteFault);
    };
    loop {
        if let Some(ending) = carry_next(&mut reader, bus, source, sink, desk) {
            return ending;
        }
    }
}
