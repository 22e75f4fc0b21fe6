//! The bytes of a read, part by part.

ghost use Rattle.std.specs.Prelude.{◌≡◌, ◌+◌, ◌-◌, ◌≤◌, ◌<◌, ◌^◌, ◌++◌, [], List, ℕ, length, IfErr, OnOk, None};
ghost use Rattle.std.specs.declared.option.Option.{Option as Maybe};
ghost use Rattle.fw_outside.specs.Outside.{Takes};
ghost use Rattle.fw_outside.specs.Stops.{WriteCount};
ghost use Rattle.fw_log.specs.Reader.{total};
ghost use Rattle.fw_log_loop.specs.Endings.{stop_of, piece_size};
ghost use Rattle.fw_log_loop.specs.Parts.{ReadsParts, EndsWithin};
ghost use Rattle.fw_log_loop.specs.Pieces.{IsUnderWay, DecodedTo};

use crate::piece::print_bytes;
use crate::{LogEnding, Reading};
use fw_log::{LogReader, ReadBuffers};
use fw_outside::Sink;

/// How many bytes are handed on at a time: what they give is written before the next are, so that the room for it stays small.
const PART: usize = 4096;

/// Reads the bytes of a read after so many others, and writes what they give.
pub(crate) fn read_parts<O: Reading, K: Sink>(
    reader: &mut LogReader,
    room: &mut ReadBuffers,
    output: &mut O,
    taken: usize,
    bytes: &[u8],
    sink: &mut K,
) -> Result<(), LogEnding<O::Refusal>>
    requires begun { IsUnderWay (O.took output.old) reader.old }
    requires taken { total reader.old ≡ taken }
    requires room { total reader.old + length bytes.now < 2 ^ 64 }
    requires empty { O.gathered output.old ≡ [] }
    ensures reads { (left now after held : Maybe (List ℕ)) (following : List ℕ) (more : ℕ)
        → DecodedTo (O.form output.old) (O.took output.old) left now held (K.held sink.old) reader.old more
        → Takes now after (bytes.now ++ following) → length bytes.now ≤ more → length bytes.now + length following ≤ piece_size
        → ReadsParts (O.form output.old) O.rules (O.took output.new) left after held (K.held sink.new) following reader.new (more - length bytes.now) result }
    ensures ends { IfErr result EndsWithin }
    ensures empty { OnOk result (O.gathered output.new ≡ []) }
    ensures same { O.form output.new ≡ O.form output.old }
    ensures drained { IfErr result (λ e. stop_of e ≡ None → O.gathered output.new ≡ []) }
    ensures stays { OnOk result (K.faults sink.new ≡ K.faults sink.old) }
    ensures counts { IfErr result (λ e. WriteCount (K.faults sink.old) (K.faults sink.new) (stop_of e)) }
{
    let mut rest = bytes;
    while !rest.is_empty() {
        let at = taken + (bytes.len() - rest.len());
        let (part, following) = rest.split_at(rest.len().min(PART));
        if let Err(ending) = print_bytes(reader, room, output, at, part, sink) {
            return Err(ending);
        }
        rest = following;
    }
    Ok(())
}
