//! The word `explore`, as one call.

ghost use Rattle.std.specs.Prelude.{◌≡◌, List, ℕ};
ghost use Rattle.fw_outside.specs.Stops.{ReadCount, WriteCount};
ghost use Rattle.fw_tape.specs.Desks.{AnyBlock, AnyVendorByte};
ghost use Rattle.fw_tool.specs.Explorations.{by_exploration, by_words, ExploresAs};
ghost use Rattle.fw_tool.specs.Faults.{FirstFault};
ghost use Rattle.fw_tool.specs.Words.{IsExploration};

use crate::ending::{Ending, Unexplored};
use fw_explore::{ExploreEnding, MOST_PLACES, explore};
use fw_explore_movers::{WordsFault, read_words};
use fw_outside::{Sink, Source, Stop};
use fw_tape::Desk;
use std::alloc::Global;

// How a call ends whose words after `explore` name nothing to explore.
fn ending_of_words(fault: WordsFault) -> Ending
    ensures { result ≡ by_words fault }
{
    match fault {
        WordsFault::Usage => Ending::Usage,
        WordsFault::Refused(fault) => Ending::Unexplored(Unexplored::Word(fault)),
        WordsFault::NoMemory => Ending::Stopped(Stop::NoMemory),
    }
}

// How a call ends whose exploration ended so.
fn ending_of_exploration(ending: ExploreEnding) -> Ending
    ensures { result ≡ by_exploration ending }
{
    match ending {
        ExploreEnding::Done => Ending::Done,
        ExploreEnding::Refused(refused) => Ending::Refused(refused),
        ExploreEnding::Unknown(fault) => Ending::Unexplored(Unexplored::Word(fault)),
        ExploreEnding::TooLarge => Ending::Unexplored(Unexplored::TooLarge),
        ExploreEnding::Stopped(stop) => Ending::Stopped(stop),
    }
}

/// Explores the script that is read by the words after the first. If one of them is refused, or none is a mover, nothing is read.
// Not inlined: what it keeps on the stack is not taken by the other words.
#[inline(never)]
pub(crate) fn explore_as<
    S: Source,
    K: Sink,
    F: Fn(u16, u32, u16) -> [u8; 480],
    H: Fn(u32, u8) -> u8,
>(alloc: Global, words: &[String], source: &mut S, sink: &mut K, desk: &Desk<F, H>) -> Ending
    requires blocks { AnyBlock (F.pre desk.now.blocks) }
    requires desk { AnyVendorByte (H.pre desk.now.vendor) }
    ensures explores { (more : List (List ℕ)) → IsExploration words.now more
        → ExploresAs (record { blocks = F.post desk.now.blocks; vendor = H.post desk.now.vendor }) more (S.left source.old) (S.left source.new) (K.held sink.old) (K.held sink.new) result }
    ensures first { FirstFault (S.faults source.old) (S.faults source.new) (K.faults sink.old) (K.faults sink.new) result }
{
    let [_, more @ ..] = words else {
        return Ending::Usage;
    };
    match read_words(alloc, more) {
        Ok(explored) => ending_of_exploration(explore(
            alloc,
            &explored,
            MOST_PLACES,
            source,
            sink,
            desk,
        )),
        Err(fault) => ending_of_words(fault),
    }
}
