//! The whole call: what the words say, the last flush, and the note of the ending.

ghost use Rattle.std.specs.Prelude.{◌≡◌};
ghost use Rattle.fw_tape.specs.Desks.{AnyBlock, AnyVendorByte};
ghost use Rattle.fw_tool.specs.Closing.{closed};
ghost use Rattle.fw_tool.specs.Serving.{Serves};

use crate::dispatch::dispatch_form;
use crate::ending::Ending;
use crate::notes::tell;
use fw_outside::{Failed, Flush, Sink, Source, Stop};
use fw_tape::Desk;
use std::alloc::Global;

/// How a call ends whose last flush answered this: a write fault that only the flush shows is told in the place of the ending.
fn closed(ending: Ending, flushed: Result<(), Failed>) -> Ending
    ensures { result ≡ closed ending flushed }
{
    match flushed {
        Ok(()) => ending,
        Err(Failed) => Ending::Stopped(Stop::WriteFault),
    }
}

/// Does what the words of the command line say, passes on what the sink keeps back, tells the ending, and answers the program's status: that
/// of the ending that is met first, or 6 if the last flush fails or the note is not written (`Ending` is the table).
///
/// The word `run` reads a script of at most 1,048,576 bytes, carries out its commands, and writes their log. Others carry them out alike, and
/// write in place of the log: `trace` the lines of the script, each followed by what it caused, `dub` the blocks that were recorded, 480 bytes
/// each, and `check` what the script has, or why its first refused line is refused. The blocks of tapes, and what a vendor makes of a byte of
/// a command, come from the desk. The words `gen NUMBER` run the script that the number makes, from 0 to 4,294,967,295, and write six lines
/// that count what its log holds.
///
/// `help` and `version`, with `--help`, `-h`, `--version` and `-V`, write what the program says of itself, and read nothing.
///
/// The word `explore`, with words after it, reads a script as `run` does, carries out its commands, and then all interleavings of what the words
/// name; it writes how these end, or nothing.
///
/// The other words read a log of at most 268,435,456 bytes, and write what `LogWord` says of each.
pub fn fire<S: Source, K: Flush, N: Sink, F: Fn(u16, u32, u16) -> [u8; 480], H: Fn(u32, u8) -> u8>(
    alloc: Global,
    words: &[String],
    source: &mut S,
    sink: &mut K,
    notes: &mut N,
    desk: &Desk<F, H>,
) -> u8
    requires blocks { AnyBlock (F.pre desk.now.blocks) }
    requires desk { AnyVendorByte (H.pre desk.now.vendor) }
    ensures { Serves (record { blocks = F.post desk.now.blocks; vendor = H.post desk.now.vendor }) words.now
        (record { left = S.left; faults = S.faults; old = source.old; new = source.new })
        (record { held = K.held; kept = K.kept; at_once = K.at_once; faults = K.faults; old = sink.old; new = sink.new })
        (record { held = N.held; faults = N.faults; old = notes.old; new = notes.new }) result }
{
    let ending = dispatch_form(alloc, words, source, sink, desk);
    let flushed = sink.pass_all();
    tell(closed(ending, flushed), notes)
}
