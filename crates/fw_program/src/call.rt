//! The program as one call: the top call with the program's own desk.

ghost use Rattle.std.specs.Prelude.{◌≡◌, ◌-◌};
ghost use Rattle.fw_tool.specs.Serving.{Serves};
ghost use Rattle.fw_program.specs.Blocks.{IsBlock, program_desk};

use crate::desk::{block_of, inverted};
use fw_outside::{Sink, Source};
use fw_tape::Desk;
use fw_tool::{Flush, fire};
use std::alloc::Global;

/// Does what the words say, passes on what the sink keeps back, tells the ending, and answers the status. Blocks of tapes and bytes of
/// vendors are those of the program's desk: its two formulas, and nothing else.
pub fn program<S: Source, K: Flush, N: Sink>(
    alloc: Global,
    words: &[String],
    source: &mut S,
    sink: &mut K,
    notes: &mut N,
) -> u8
    ensures { Serves program_desk words.now
        (record { left = S.left; faults = S.faults; old = source.old; new = source.new })
        (record { held = K.held; kept = K.kept; at_once = K.at_once; faults = K.faults; old = sink.old; new = sink.new })
        (record { held = N.held; faults = N.faults; old = notes.old; new = notes.new }) result }
{
    let desk = Desk::new(
        |tape: u16, frame: u32, block: u16| -> [u8; 480]
            ensures { IsBlock tape frame block result }
        { block_of(tape, frame, block) },
        |_company: u32, byte: u8| -> u8
            ensures { result ≡ 255 - byte }
        { inverted(byte) },
    );
    fire(alloc, words, source, sink, notes, &desk)
}
