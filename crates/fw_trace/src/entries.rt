//! The entries of a piece of a log.

ghost use Rattle.std.specs.Prelude.{◌≡◌, ◌+◌, ◌<◌, ◌≤◌, ◌^◌, ℕ, List, length, drop, IfOk, IfSome, IfNone, OnOk};
ghost use Rattle.fw_log_entry.specs.declared.entry.Timed.{Timed as ATimed};
ghost use Rattle.fw_log.specs.History.{HasRead};
ghost use Rattle.fw_log.specs.Passing.{CountsUp};
ghost use Rattle.fw_log.specs.Reader.{total};
ghost use Rattle.fw_trace.specs.Telling.{TakesKnown, TakesOne, TakesPiece};

use crate::bodies::put_body;
use crate::lack::Untold;
use fw_log::{LogReader, PlainEntry, ReadBuffers};
use fw_log_latest::LatestReset;
use fw_trace_lines::Tracer;

// Reads the entry that comes next, if it is a packet or a bus reset of a usual form, and adds its lines. Answers how many bytes that were,
// or none if another comes.
#[inline(always)]
fn take_known(
    tracer: &mut Tracer,
    latest: &mut LatestReset,
    reader: &mut LogReader,
    room: &mut ReadBuffers,
    piece: &[u8],
) -> Result<Option<usize>, Untold>
    requires { total reader.old + length piece.now < 2 ^ 64 }
    ensures takes { (entries : List ATimed) (bytes : List ℕ) → HasRead entries bytes reader.old
        → TakesKnown entries bytes piece.now tracer.old tracer.new reader.new result }
    ensures counts { IfOk result (λ o. IfSome o (CountsUp reader.old piece.now reader.new)) }
    ensures same { IfOk result (λ o. IfNone o ((tracer.new ≡ tracer.old) × (reader.new ≡ reader.old))) }
{
    let Some(PlainEntry { passed, body }) = reader.next_body(piece, room) else {
        return Ok(None);
    };
    let put = put_body(tracer, latest, passed.cycle, &body);
    let used = reader.go_past(piece, &passed);
    match put {
        Ok(()) => Ok(Some(used)),
        Err(_) => Err(Untold),
    }
}

// Reads a piece up to the end of one entry, or all of it if none ends in it, and adds that entry's lines. Answers how many bytes that
// were.
#[inline(never)]
fn take_other(
    tracer: &mut Tracer,
    reader: &mut LogReader,
    room: &mut ReadBuffers,
    piece: &[u8],
) -> Result<usize, Untold>
    requires { total reader.old + length piece.now < 2 ^ 64 }
    ensures takes { (entries : List ATimed) (bytes : List ℕ) → HasRead entries bytes reader.old
        → TakesOne entries bytes piece.now tracer.old tracer.new reader.new result }
    ensures counts { IfOk result (λ used. (total reader.new ≡ total reader.old + used) × (used ≤ length piece.now) × (0 < length piece.now → 0 < used)) }
{
    let Ok(fed) = reader.feed_apart(piece, room) else {
        return Err(Untold);
    };
    match &fed.entry {
        Some(entry) => match tracer.put(entry) {
            Ok(()) => Ok(fed.used),
            Err(_) => Err(Untold),
        },
        None => Ok(fed.used),
    }
}

// Reads a piece up to the end of one entry, or all of it if none ends in it, and adds that entry's lines. Answers how many bytes that
// were.
fn take_entry(
    tracer: &mut Tracer,
    latest: &mut LatestReset,
    reader: &mut LogReader,
    room: &mut ReadBuffers,
    piece: &[u8],
) -> Result<usize, Untold>
    requires { total reader.old + length piece.now < 2 ^ 64 }
    ensures takes { (entries : List ATimed) (bytes : List ℕ) → HasRead entries bytes reader.old
        → TakesOne entries bytes piece.now tracer.old tracer.new reader.new result }
    ensures counts { IfOk result (λ used. (total reader.new ≡ total reader.old + used) × (used ≤ length piece.now) × (0 < length piece.now → 0 < used)) }
{
    let known = take_known(tracer, latest, reader, room, piece)?;
    match known {
        Some(used) => Ok(used),
        None => take_other(tracer, reader, room, piece),
    }
}

// The bytes after so many.
fn rest_of(piece: &[u8], used: usize) -> &[u8]
    requires { used ≤ length piece.now }
    ensures { result.now ≡ drop used piece.now }
{
    &piece[used..]
}

// Reads a piece, and adds the lines of its entries.
pub(crate) fn take_entries(
    tracer: &mut Tracer,
    latest: &mut LatestReset,
    reader: &mut LogReader,
    room: &mut ReadBuffers,
    piece: &[u8],
) -> Result<(), Untold>
    requires { total reader.old + length piece.now < 2 ^ 64 }
    ensures takes { (entries : List ATimed) (bytes : List ℕ) → HasRead entries bytes reader.old
        → TakesPiece entries bytes piece.now tracer.old tracer.new reader.new result }
    ensures total { OnOk result (total reader.new ≡ total reader.old + length piece.now) }
{
    let mut rest = piece;
    while !rest.is_empty() {
        let used = take_entry(tracer, latest, reader, room, rest)?;
        rest = rest_of(rest, used);
    }
    Ok(())
}
