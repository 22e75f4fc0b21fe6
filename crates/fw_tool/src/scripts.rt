//! The words that run a script, as one call.

ghost use Rattle.std.specs.Prelude.{◌≡◌, List, ℕ, Some};
ghost use Rattle.fw_tape.specs.Desks.{AnyBlock, AnyVendorByte};
ghost use Rattle.fw_script_words.specs.Counts.{ReadCount, WriteCount};
ghost use Rattle.fw_script_words.specs.Scripts.{IsValid, IsNoRefusal};
ghost use Rattle.fw_tool.specs.Runs.{by_run};
ghost use Rattle.fw_tool.specs.Scripts.{RunsAs};

use crate::ending::Ending;
use fw_outside::{Sink, Source};
use fw_script_words::{RunEnding, check, dub, run};
use fw_tape::Desk;
use fw_trace::trace;
use std::alloc::Global;

/// A word that runs a script.
#[derive(Clone, Copy)]
pub enum ScriptWord {
    /// The log of its commands.
    Run,
    /// Its lines, each followed by what it caused.
    Trace,
    /// What the reel has after its last command.
    Dub,
    /// What the script has, or why its first refused line is refused.
    Check,
}

/// Runs a script as a word does.
pub(crate) fn run_as<S: Source, K: Sink, F: Fn(u16, u32, u16) -> [u8; 480], H: Fn(u32, u8) -> u8>(
    alloc: Global,
    word: ScriptWord,
    source: &mut S,
    sink: &mut K,
    desk: &Desk<F, H>,
) -> RunEnding
    requires blocks { AnyBlock (F.pre desk.now.blocks) }
    requires desk { AnyVendorByte (H.pre desk.now.vendor) }
    ensures runs { RunsAs (record { blocks = F.post desk.now.blocks; vendor = H.post desk.now.vendor }) word
        (S.left source.old) (S.left source.new) (K.held sink.old) (K.held sink.new) result }
    ensures complete { (script : List ℕ) → S.left source.old ≡ Some script → IsValid script → IsNoRefusal result }
    ensures read_count { ReadCount (S.faults source.old) (S.faults source.new) result }
    ensures write_count { WriteCount (K.faults sink.old) (K.faults sink.new) result }
{
    match word {
        ScriptWord::Run => run(alloc, source, sink, desk),
        ScriptWord::Trace => trace(alloc, source, sink, desk),
        ScriptWord::Dub => dub(alloc, source, sink, desk),
        ScriptWord::Check => check(alloc, source, sink, desk),
    }
}

/// How a call ends whose word has run a script to this ending.
pub(crate) fn ending_of_run(ending: RunEnding) -> Ending
    ensures { result ≡ by_run ending }
{
    match ending {
        RunEnding::Done => Ending::Done,
        RunEnding::Refused(refused) => Ending::Refused(refused),
        RunEnding::Stopped(stop) => Ending::Stopped(stop),
    }
}
