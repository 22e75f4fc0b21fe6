//! `holders`: who holds what, each time that it changes, and at the log's end.

ghost use Rattle.std.specs.Prelude.{◌≡◌, ◌+◌, ◌<◌, ◌^◌, ◌++◌, ◌∷◌, ℕ, [], List, length, take, None, IfNone, IfOk, IfSome, IsTrue, IsFalse};
ghost use Rattle.fw_log_entry.specs.Log.{Fits, ResetFits, body};
ghost use Rattle.fw_log_entry.specs.declared.entry.Entry.{Entry as AnEntry};
ghost use Rattle.fw_log_entry.specs.declared.entry.Entry.TheVariants.{Reset};
ghost use Rattle.fw_log_entry.specs.declared.entry.ResetEntry.{ResetEntry as AReset};
ghost use Rattle.fw_log_entry.specs.declared.entry.Timed.{Timed as TimedEntry};
ghost use Rattle.fw_log.specs.History.{HasRead};
ghost use Rattle.fw_log.specs.Passing.{CountsUp, HasBody};
ghost use Rattle.fw_log.specs.Reader.{total};
ghost use Rattle.fw_log_loop.specs.Endings.{ReadsLog};
ghost use Rattle.fw_log_loop.specs.Readings.{Passes, TakesEntry};
ghost use Rattle.fw_holders.specs.Told.{Holds, holders as lines, table_of};
ghost use Rattle.fw_log_reports.specs.Holdings.{holders_form, holders_rules, Takes, TakesText};
ghost use Rattle.fw_log_reports.specs.Verdicts.{RejectsUnsound};
ghost use Rattle.fw_log_text.specs.Resets.{IsResetBody};

use crate::passing::{is_passed_body, is_unjudged_body, may_pass};
use crate::whole_reset::no_reset;
use crate::{LogRefusal, Unsound};
use fw_audit::{Tally, is_unjudged};
use fw_holders::Holders;
use fw_log::{LogReader, PlainBody, ReadBuffers, Timed};
use fw_log_entry::codes::kind;
use fw_log_latest::read_bus;
use fw_log_loop::{Closing, LogEnding, Reading, Stop, read_log};
use fw_outside::{Failed, Flush, Sink, Source};
use std::alloc::{AllocError, Global};

/// Who holds what after the entries that were taken, and how many they are.
#[derive(Drop)]
pub struct Holding {
    holders: Holders,
    tally: Tally,
}

// The bus reset of this cycle whose body these bytes are is taken, if a short look finds that it has no fault. If it does not, nothing
// is changed. Not in line: it is long, and would slow the packets down.
#[inline(never)]
fn pass_reset(holders: &mut Holders, cycle: u64, bytes: &[u8]) -> Result<bool, AllocError>
    requires { IsResetBody bytes.now }
    ensures passed { (entries : List TimedEntry) (t : TimedEntry) (r : AReset) → t.cycle ≡ cycle → t.what ≡ Reset r → ResetFits r → body (Reset r) ≡ bytes.now
        → length entries + 1 < 2 ^ 64 → Holds entries holders.old → IfOk result (λ passed. IsTrue passed → Holds (entries ++ t ∷ []) holders.new × (holders.new.text ≡ holders.old.text ++ lines entries (t ∷ []))) }
    ensures kept { IfOk result (λ passed. IsFalse passed → holders.new ≡ holders.old) }
{
    let mut bus = no_reset();
    read_bus(&mut bus, bytes);
    holders.pass_reset(cycle, &bus)
}

// The same of the entry that has this body. One that no audit looks at has no line.
#[inline(always)]
fn pass(holders: &mut Holders, cycle: u64, body: &PlainBody) -> Result<bool, AllocError>
    requires { (e : AnEntry) × HasBody body.now e }
    ensures passed { (entries : List TimedEntry) (t : TimedEntry) → t.cycle ≡ cycle → HasBody body.now t.what
        → length entries + 1 < 2 ^ 64 → Holds entries holders.old → IfOk result (λ passed. IsTrue passed → Holds (entries ++ t ∷ []) holders.new × (holders.new.text ≡ holders.old.text ++ lines entries (t ∷ []))) }
    ensures kept { IfOk result (λ passed. IsFalse passed → holders.new ≡ holders.old) }
{
    if is_passed_body(body) {
        return Ok(true);
    }
    match body {
        PlainBody::Packet(bytes) => holders.pass_packet(cycle, bytes.as_slice()),
        PlainBody::Reset(bytes) => pass_reset(holders, cycle, bytes.as_slice()),
        PlainBody::Iso(_) => Ok(false),
    }
}

impl Holding {
    /// Of no entries. An error says that memory ran out.
    pub fn new(alloc: Global) -> Result<Holding, AllocError>
        ensures text { IfOk result (λ h. h.holders.text ≡ []) }
        ensures took { IfOk result (λ h. Takes h []) }
    {
        Ok(Holding {
            holders: Holders::new(alloc)?,
            tally: Tally::nothing(),
        })
    }

    /// Takes an entry more, and answers its fault, if any, as what the log is refused with.
    pub(crate) fn judge(&mut self, entry: &Timed) -> Result<Option<LogRefusal>, AllocError>
        requires { Fits entry.now.what }
        ensures { (entries : List TimedEntry) → length entries + 1 < 2 ^ 64 → Takes self.old entries
            → IfOk result (TakesEntry holders_form.text RejectsUnsound (Takes self.new) self.old.holders.text self.new.holders.text entries entry.now) }
    {
        let number = self.tally.entries;
        self.tally.take(is_unjudged(&entry.what));
        match self.holders.take(entry)? {
            Some(fault) => Ok(Some(LogRefusal::Audit(Unsound {
                entry: number,
                fault,
                unjudged: self.tally.unjudged,
            }))),
            None => Ok(None),
        }
    }

    /// Takes the entry of this cycle that has this body, if a short look finds that it has no fault. If it does not, nothing is
    /// changed.
    #[inline(always)]
    pub fn pass_body(&mut self, cycle: u64, body: &PlainBody) -> Result<bool, AllocError>
        requires { (e : AnEntry) × HasBody body.now e }
        ensures passed { (entries : List TimedEntry) (t : TimedEntry) → t.cycle ≡ cycle → HasBody body.now t.what
            → length entries + 1 < 2 ^ 64 → Takes self.old entries → IfOk result (λ passed. IsTrue passed → TakesText entries t self.old self.new) }
        ensures kept { IfOk result (λ passed. IsFalse passed → self.new ≡ self.old) }
    {
        if !pass(&mut self.holders, cycle, body)? {
            return Ok(false);
        }
        self.tally.take(is_unjudged_body(body));
        Ok(true)
    }

    /// The table of what is held after the entries. An error says that memory ran out.
    pub fn table(&self, alloc: Global) -> Result<Vec<u8>, AllocError>
        ensures { (entries : List TimedEntry) → Takes self.now entries → IfOk result (λ text. text.items ≡ table_of entries) }
    {
        self.holders.table(alloc, self.tally.unjudged)
    }

    // Takes the entry that ends in a piece if it is the outcome of a command, which no audit looks at and which has no line.
    fn take_outcome(
        &mut self,
        kind: Option<u8>,
        reader: &mut LogReader,
        room: &mut ReadBuffers,
        piece: &[u8],
    ) -> Option<usize>
        requires { total reader.old + length piece.now < 2 ^ 64 }
        ensures kept { IfNone result ((reader.new ≡ reader.old) × (self.new ≡ self.old)) }
        ensures fresh { IfSome result (λ n. reader.new.fault ≡ None) }
        ensures counts { IfSome result (CountsUp reader.old piece.now reader.new) }
        ensures history { (entries : List TimedEntry) → (bytes : List ℕ) → HasRead entries bytes reader.old → Takes self.old entries
            → IfSome result (λ n. Passes holders_form.text (Takes self.new) self.old.holders.text self.new.holders.text entries (bytes ++ take n piece.now) reader.new) }
    {
        if kind != Some(kind::OUTCOME) {
            return None;
        }
        let annotation = reader.pass_annotation(kind::OUTCOME, piece, room)?;
        self.tally.take(false);
        Some(annotation.used)
    }
}

impl Reading for Holding {
    type Refusal = LogRefusal;

    ghost use Rattle.fw_log_reports.specs.Holdings.{holders_each, takes_accepted, held_unrefused};

    ghost form = { λ v. holders_form };

    ghost rules = { holders_rules };

    ghost took = { λ v entries. Takes v entries };

    ghost gathered = { λ v. v.holders.text };

    fn open<K: Sink>(&self, _sink: &mut K) -> Result<(), Failed> {
        Ok(())
    }

    fn take(&mut self, entry: &Timed, _bytes: &[u8]) -> Result<Option<LogRefusal>, AllocError> {
        self.judge(entry)
    }

    // No fault of a packet of a usual form is looked for twice.
    fn take_raw(
        &mut self,
        reader: &mut LogReader,
        room: &mut ReadBuffers,
        piece: &[u8],
    ) -> Result<Option<usize>, AllocError> {
        let kind = reader.next_kind(piece);
        if !may_pass(kind) {
            return Ok(self.take_outcome(kind, reader, room, piece));
        }
        let Some(next) = reader.next_body(piece, room) else {
            return Ok(None);
        };
        if !self.pass_body(next.passed.cycle, &next.body)? {
            return Ok(None);
        }
        Ok(Some(reader.go_past(piece, &next.passed)))
    }

    fn gathered(&self) -> &[u8] {
        self.holders.as_slice()
    }

    fn clear(&mut self) {
        self.holders.clear();
    }

    fn close(&self, alloc: Global) -> Result<Closing<LogRefusal>, AllocError> {
        Ok(Closing::Bytes(self.table(alloc)?))
    }

    ghost each = { λ v. holders_each };

    ghost accepted = { λ v entries a. takes_accepted v entries a };

    ghost unrefused = { held_unrefused };
}

/// Reads a log, and writes a line each time that an allocation or a connection changes, with what is left and who holds what, and at
/// the log's end a table of all that is held. It refuses what `audit` refuses.
pub fn holders<S: Source, K: Flush>(
    alloc: Global,
    source: &mut S,
    sink: &mut K,
) -> LogEnding<LogRefusal>
    ensures { ReadsLog holders_form holders_rules (record { left = S.left; faults = S.faults; old = source.old; new = source.new })
        (record { held = K.held; faults = K.faults; old = sink.old; new = sink.new }) result }
{
    match Holding::new(alloc) {
        Ok(holding) => read_log(alloc, holding, source, sink),
        Err(_) => LogEnding::Stopped(Stop::NoMemory),
    }
}
