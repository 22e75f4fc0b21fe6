//! The lines of an entry, of the bytes of its body: no fault is looked for, since a reader has found none.

ghost use Rattle.std.specs.Prelude.{◌≡◌};
ghost use Rattle.fw_async.specs.Reader.{Spells, IsPacket};
ghost use Rattle.fw_async.specs.declared.packet.Packet.{Packet as APacket};
ghost use Rattle.fw_cip.specs.Iso.{Fits as IsoFits, IsSpelled, spelling as iso_spelling};
ghost use Rattle.fw_cip.specs.declared.packet.IsoPacket.{IsoPacket as AnIso};
ghost use Rattle.fw_log_entry.specs.Log.{ResetFits, body};
ghost use Rattle.fw_log_entry.specs.declared.entry.Entry.{Entry as AnEntry};
ghost use Rattle.fw_log_entry.specs.declared.entry.Entry.TheVariants.{Async, Iso, Reset};
ghost use Rattle.fw_log_entry.specs.declared.entry.ResetEntry.{ResetEntry as AReset};
ghost use Rattle.fw_log.specs.Passing.{HasBody};
ghost use Rattle.fw_trace.specs.Telling.{PutsEntry};

use fw_cip::whole_iso;
use fw_log::PlainBody;
use fw_log_entry::{BorrowedReset, Entry, Timed};
use fw_log_latest::LatestReset;
use fw_trace_lines::Tracer;
use std::alloc::AllocError;

// Adds the lines of a packet.
fn put_packet(tracer: &mut Tracer, cycle: u64, bytes: &[u8]) -> Result<(), AllocError>
    requires { IsPacket bytes.now }
    ensures { (p : APacket) → Spells p bytes.now → PutsEntry (record { cycle = cycle; what = Async p }) tracer.old tracer.new result }
{
    tracer.put_bytes(cycle, bytes)
}

// Adds the lines of an isochronous packet.
fn put_iso(tracer: &mut Tracer, cycle: u64, bytes: &[u8]) -> Result<(), AllocError>
    requires { IsSpelled bytes.now }
    ensures { (p : AnIso) → IsoFits p → iso_spelling p ≡ bytes.now → PutsEntry (record { cycle = cycle; what = Iso p }) tracer.old tracer.new result }
{
    tracer.put_iso(cycle, &whole_iso(bytes))
}

// Adds the lines of a bus reset. It is rare, and so not inlined.
#[inline(never)]
fn put_reset(
    tracer: &mut Tracer,
    latest: &mut LatestReset,
    cycle: u64,
    bytes: &[u8],
) -> Result<(), AllocError>
    requires { (r : AReset) × ResetFits r × (body (Reset r) ≡ bytes.now) }
    ensures { (r : AReset) → ResetFits r → body (Reset r) ≡ bytes.now → PutsEntry (record { cycle = cycle; what = Reset r }) tracer.old tracer.new result }
{
    latest.take(bytes)?;
    let what = Entry::Reset(BorrowedReset::new(latest.get()));
    tracer.put(&Timed { cycle, what })
}

/// Adds the lines of an entry of this cycle that has this body.
#[inline(always)]
pub(crate) fn put_body(
    tracer: &mut Tracer,
    latest: &mut LatestReset,
    cycle: u64,
    body: &PlainBody,
) -> Result<(), AllocError>
    requires { (e : AnEntry) × HasBody body.now e }
    ensures { (e : AnEntry) → HasBody body.now e → PutsEntry (record { cycle = cycle; what = e }) tracer.old tracer.new result }
{
    match body {
        PlainBody::Packet(bytes) => put_packet(tracer, cycle, bytes.as_slice()),
        PlainBody::Iso(bytes) => put_iso(tracer, cycle, bytes.as_slice()),
        PlainBody::Reset(bytes) => put_reset(tracer, latest, cycle, bytes.as_slice()),
    }
}
