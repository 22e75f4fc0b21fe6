//! `watch`: what a log shows of channels, bandwidth and plugs, as its entries end.

ghost use Rattle.std.specs.Prelude.{◌≡◌, ◌++◌, ◌∷◌, [], List, IfOk, OnOk, string_bytes};
ghost use Rattle.fw_log_entry.specs.declared.entry.Entry.{Entry as AnEntry};
ghost use Rattle.fw_log_entry.specs.declared.entry.Timed.{Timed as TimedEntry};
ghost use Rattle.fw_log.specs.Passing.{HasBody};
ghost use Rattle.fw_log_loop.specs.Endings.{ReadsLog};
ghost use Rattle.fw_watch.specs.Steps.{at_cycle};
ghost use Rattle.fw_watch.specs.Watched.{Watches, watched, watched_end};
ghost use Rattle.fw_log_reports.specs.Watching.{watched_form};
ghost use Rattle.fw_log_reports.specs.Silences.{never_refused};

use crate::LogRefusal;
use crate::whole_reset::no_reset;
use fw_cip::whole_iso;
use fw_log::{LogReader, PlainBody, ReadBuffers, Timed};
use fw_log_entry::ResetEntry;
use fw_log_latest::read_bus;
use fw_log_loop::{Closing, LogEnding, Reading, Stop, read_log};
use fw_outside::{Failed, Flush, Sink, Source};
use fw_watch::Watch;
use std::alloc::{AllocError, Global};

/// What the entries have shown.
#[derive(Drop)]
pub struct Watching {
    watch: Watch,
    // Room for what is looked at of a bus reset.
    reset: Box<ResetEntry>,
}

impl Watching {
    /// Of no entries. An error says that memory ran out.
    pub fn new(alloc: Global) -> Result<Watching, AllocError>
        ensures text { IfOk result (λ w. w.watch.told.text ≡ []) }
        ensures watches { IfOk result (λ w. Watches w.watch []) }
    {
        Ok(Watching {
            watch: Watch::new(alloc)?,
            reset: Box::new(alloc, no_reset())?,
        })
    }

    /// Takes the entry of this cycle that has this body, and appends its lines. An error says that memory ran out.
    #[inline(always)]
    pub fn put(&mut self, cycle: u64, body: &PlainBody) -> Result<(), AllocError>
        requires { (e : AnEntry) × HasBody body.now e }
        ensures lines { (e : AnEntry) → HasBody body.now e → (before : List TimedEntry) → Watches self.old.watch before
            → OnOk result (self.new.watch.told.text ≡ self.old.watch.told.text ++ watched before (at_cycle cycle e ∷ [])) }
        ensures following { (e : AnEntry) → HasBody body.now e → (before : List TimedEntry) → Watches self.old.watch before
            → OnOk result (Watches self.new.watch (before ++ at_cycle cycle e ∷ [])) }
    {
        match body {
            PlainBody::Packet(bytes) => self.watch.put_packet(cycle, bytes.as_slice()),
            PlainBody::Iso(bytes) => self.watch.put_iso(cycle, &whole_iso(bytes.as_slice())),
            PlainBody::Reset(bytes) => {
                read_bus(&mut self.reset, bytes.as_slice());
                self.watch.put_reset(cycle, &self.reset)
            }
        }
    }

    /// The last line: how much was judged of all entries. An error says that memory ran out.
    pub fn last_line(&self, alloc: Global) -> Result<String, AllocError>
        ensures { (entries : List TimedEntry) → Watches self.now.watch entries → IfOk result (λ s. string_bytes s ≡ watched_end entries) }
    {
        self.watch.end(alloc)
    }
}

impl Reading for Watching {
    type Refusal = LogRefusal;

    ghost use Rattle.fw_log_reports.specs.Silences.{none_unrefused};
    ghost use Rattle.fw_log_reports.specs.Watching.{watched_each};

    ghost form = { λ s. watched_form };

    ghost rules = { never_refused watched_end };

    ghost took = { λ s entries. Watches s.watch entries };

    ghost gathered = { λ s. s.watch.told.text };

    fn open<K: Sink>(&self, _sink: &mut K) -> Result<(), Failed> {
        Ok(())
    }

    fn take(&mut self, entry: &Timed, _bytes: &[u8]) -> Result<Option<LogRefusal>, AllocError> {
        self.watch.put(entry)?;
        Ok(None)
    }

    // No fault of a packet or a bus reset of a usual form is looked for twice.
    fn take_raw(
        &mut self,
        reader: &mut LogReader,
        room: &mut ReadBuffers,
        piece: &[u8],
    ) -> Result<Option<usize>, AllocError> {
        let Some(passed) = reader.pass_body(piece, room) else {
            return Ok(None);
        };
        self.put(passed.cycle, &passed.body)?;
        Ok(Some(passed.used))
    }

    fn gathered(&self) -> &[u8] {
        self.watch.as_slice()
    }

    fn clear(&mut self) {
        self.watch.clear();
    }

    fn close(&self, alloc: Global) -> Result<Closing<LogRefusal>, AllocError> {
        Ok(Closing::Text(self.last_line(alloc)?))
    }

    ghost each = { λ s. watched_each };

    ghost accepted = { λ s entries t. tt };

    ghost unrefused = { λ entries h. none_unrefused watched_end entries };
}

/// Reads a log, and writes what its entries show of channels, bandwidth and plugs, a line each; at the log's end it writes how much was
/// judged. It refuses no log that `decode` reads.
///
/// The lines of the entries that ended are written before more is read, as those of `decode` are.
pub fn watch<S: Source, K: Flush>(
    alloc: Global,
    source: &mut S,
    sink: &mut K,
) -> LogEnding<LogRefusal>
    ensures { ReadsLog watched_form (never_refused watched_end) (record { left = S.left; faults = S.faults; old = source.old; new = source.new })
        (record { held = K.held; faults = K.faults; old = sink.old; new = sink.new }) result }
{
    match Watching::new(alloc) {
        Ok(watching) => read_log(alloc, watching, source, sink),
        Err(_) => LogEnding::Stopped(Stop::NoMemory),
    }
}
