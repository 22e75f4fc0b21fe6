//! A piece of a log.

ghost use Rattle.std.specs.Prelude.{◌≡◌, ◌+◌, ◌<◌, ◌^◌, [], List, ℕ, length, take, IfSome, IfOk, IfErr, OnOk, OnErr, None};
ghost use Rattle.fw_outside.specs.Outside.{Rose, Writes};
ghost use Rattle.fw_outside.specs.Stops.{WriteCount};
ghost use Rattle.fw_log_entry.specs.declared.entry.Timed.{Timed as TimedEntry};
ghost use Rattle.fw_log.specs.History.{HasRead};
ghost use Rattle.fw_log.specs.Reader.{total};
ghost use Rattle.fw_log_loop.specs.Endings.{stop_of};
ghost use Rattle.fw_log_loop.specs.Pieces.{IsUnderWay, TakesPiece, PrintsPiece, PrintsBytes};

use crate::{LogEnding, Reading};
use fw_log::{LogFed, LogReader, ReadBuffers};
use fw_outside::{Failed, Sink, Stop};
use std::alloc::AllocError;

// Takes each entry that ends in a piece, and answers how the call ends if it takes no more.
fn take_entries<O: Reading>(
    reader: &mut LogReader,
    room: &mut ReadBuffers,
    output: &mut O,
    piece: &[u8],
) -> Result<Option<LogEnding<O::Refusal>>, AllocError>
    requires fresh { reader.old.fault ≡ None }
    requires room { total reader.old + length piece.now < 2 ^ 64 }
    ensures text { (entries : List TimedEntry) → (bytes : List ℕ) → HasRead entries bytes reader.old → O.took output.old entries
        → TakesPiece (O.form output.old).text O.rules (O.took output.new) (O.gathered output.old) (O.gathered output.new) entries bytes piece.now reader.new result }
    ensures same { O.form output.new ≡ O.form output.old }
    ensures goes_on { IfOk result (λ ending. IfSome ending (λ e. stop_of e ≡ None)) }
{
    let mut rest = piece;
    while !rest.is_empty() {
        if let Some(used) = output.take_raw(reader, room, rest)? {
            rest = &rest[used..];
            continue;
        }
        if reader.keep_part(rest) {
            return Ok(None);
        }
        let LogFed { used, entry, body } = match reader.feed_apart(rest, room) {
            Ok(fed) => fed,
            Err(fault) => return Ok(Some(LogEnding::NoLog(fault))),
        };
        let Some(entry) = entry else {
            return Ok(None);
        };
        if let Some(refusal) = output.take(&entry, body.as_slice())? {
            return Ok(Some(LogEnding::Refused(refusal)));
        }
        rest = &rest[used..];
    }
    Ok(None)
}

/// Writes a text, if there is one.
pub(crate) fn print<K: Sink>(text: &[u8], sink: &mut K) -> Result<(), Failed>
    ensures text { Writes (K.held sink.old) (K.held sink.new) result text.now }
    ensures stays { OnOk result (K.faults sink.new ≡ K.faults sink.old) }
    ensures failed { OnErr result (Rose (K.faults sink.old) (K.faults sink.new)) }
{
    if text.is_empty() {
        return Ok(());
    }
    sink.write(text)
}

// Writes what was gathered.
fn flush<O: Reading, K: Sink>(output: &mut O, sink: &mut K) -> Result<(), Failed>
    ensures text { Writes (K.held sink.old) (K.held sink.new) result (O.gathered output.old) }
    ensures empty { OnOk result (O.gathered output.new ≡ []) }
    ensures same { O.form output.new ≡ O.form output.old }
    ensures took { (entries : List TimedEntry) → O.took output.old entries → O.took output.new entries }
    ensures stays { OnOk result (K.faults sink.new ≡ K.faults sink.old) }
    ensures failed { OnErr result (Rose (K.faults sink.old) (K.faults sink.new)) }
{
    print(output.gathered(), sink)?;
    output.clear();
    Ok(())
}

// Reads a piece of a log, and writes what its entries give.
fn print_piece<O: Reading, K: Sink>(
    reader: &mut LogReader,
    room: &mut ReadBuffers,
    output: &mut O,
    piece: &[u8],
    sink: &mut K,
) -> Result<(), LogEnding<O::Refusal>>
    requires fresh { reader.old.fault ≡ None }
    requires room { total reader.old + length piece.now < 2 ^ 64 }
    requires empty { O.gathered output.old ≡ [] }
    ensures text { (entries : List TimedEntry) → (bytes : List ℕ) → HasRead entries bytes reader.old → O.took output.old entries
        → PrintsPiece (O.form output.old).text O.rules (O.took output.new) (K.held sink.old) (K.held sink.new) entries bytes piece.now reader.new result }
    ensures empty { OnOk result (O.gathered output.new ≡ []) }
    ensures same { O.form output.new ≡ O.form output.old }
    ensures drained { IfErr result (λ e. stop_of e ≡ None → O.gathered output.new ≡ []) }
    ensures stays { OnOk result (K.faults sink.new ≡ K.faults sink.old) }
    ensures counts { IfErr result (λ e. WriteCount (K.faults sink.old) (K.faults sink.new) (stop_of e)) }
{
    let Ok(ending) = take_entries(reader, room, output, piece) else {
        return Err(LogEnding::Stopped(Stop::NoMemory));
    };
    let Ok(()) = flush(output, sink) else {
        return Err(LogEnding::Stopped(Stop::WriteFault));
    };
    match ending {
        Some(ending) => Err(ending),
        None => Ok(()),
    }
}

/// How many bytes the header of a log has.
const HEADER: usize = 16;

/// Reads bytes of a log after so many others, and writes what they give: what is due once the header is whole stands before what
/// the entries give.
pub(crate) fn print_bytes<O: Reading, K: Sink>(
    reader: &mut LogReader,
    room: &mut ReadBuffers,
    output: &mut O,
    taken: usize,
    bytes: &[u8],
    sink: &mut K,
) -> Result<(), LogEnding<O::Refusal>>
    requires begun { IsUnderWay (O.took output.old) reader.old }
    requires taken { total reader.old ≡ taken }
    requires room { total reader.old + length bytes.now < 2 ^ 64 }
    requires empty { O.gathered output.old ≡ [] }
    ensures text { (entries : List TimedEntry) → (before : List ℕ) → HasRead entries before reader.old → O.took output.old entries
        → PrintsBytes (O.form output.old) O.rules (O.took output.new) (K.held sink.old) (K.held sink.new) entries before bytes.now reader.new result }
    ensures empty { OnOk result (O.gathered output.new ≡ []) }
    ensures same { O.form output.new ≡ O.form output.old }
    ensures drained { IfErr result (λ e. stop_of e ≡ None → O.gathered output.new ≡ []) }
    ensures stays { OnOk result (K.faults sink.new ≡ K.faults sink.old) }
    ensures counts { IfErr result (λ e. WriteCount (K.faults sink.old) (K.faults sink.new) (stop_of e)) }
{
    if taken >= HEADER {
        return print_piece(reader, room, output, bytes, sink);
    }
    let rest = HEADER - taken;
    if bytes.len() < rest {
        return print_piece(reader, room, output, bytes, sink);
    }
    let (prefix, following) = bytes.split_at(rest);
    if let Err(ending) = print_piece(reader, room, output, prefix, sink) {
        return Err(ending);
    }
    let Ok(()) = output.open(sink) else {
        return Err(LogEnding::Stopped(Stop::WriteFault));
    };
    print_piece(reader, room, output, following, sink)
}
