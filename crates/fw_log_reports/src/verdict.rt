//! `audit`: whether the registers of a log ran as a sound account.

ghost use Rattle.std.specs.Prelude.{◌≡◌, ◌+◌, ◌<◌, ◌^◌, ◌++◌, ◌∷◌, ℕ, [], List, length, take, None, IfNone, IfOk, IfSome, IsTrue, IsFalse};
ghost use Rattle.fw_log_entry.specs.Log.{Fits, ResetFits, body};
ghost use Rattle.fw_log_entry.specs.declared.entry.Entry.{Entry as AnEntry};
ghost use Rattle.fw_log_entry.specs.declared.entry.Entry.TheVariants.{Reset};
ghost use Rattle.fw_log_entry.specs.declared.entry.ResetEntry.{ResetEntry as AReset};
ghost use Rattle.fw_log_entry.specs.declared.entry.Timed.{Timed as TimedEntry};
ghost use Rattle.fw_log.specs.History.{HasRead};
ghost use Rattle.fw_log.specs.Passing.{CountsUp, HasBody};
ghost use Rattle.fw_log.specs.Reader.{total};
ghost use Rattle.fw_log_loop.specs.Endings.{ReadsLog};
ghost use Rattle.fw_log_loop.specs.Readings.{Passes};
ghost use Rattle.fw_audit.specs.Found.{Found};
ghost use Rattle.fw_log_reports.specs.Texts.{silent_form, sound_text};
ghost use Rattle.fw_log_reports.specs.Verdicts.{audit_rules, Audits, Judges};
ghost use Rattle.fw_log_text.specs.Resets.{IsResetBody};

use crate::passing::{is_passed_body, is_unjudged_body, may_pass};
use crate::whole_reset::no_reset;
use crate::{LogRefusal, Unsound};
use fw_audit::{Audit, Tally, is_unjudged, unjudged_text};
use fw_log::{LogReader, PlainBody, ReadBuffers, Timed};
use fw_log_entry::codes::kind;
use fw_log_latest::read_bus;
use fw_log_loop::{Closing, LogEnding, Reading, Stop, read_log};
use fw_log_names::{put_number, put_word};
use fw_outside::{Failed, Flush, Sink, Source};
use std::alloc::{AllocError, Global};

// An audit, and how many entries it took.
#[derive(Drop)]
struct Verdict {
    audit: Audit,
    tally: Tally,
}

// The text of a log in which no entry has a fault.
#[tactic(auto, unfolding(crate::specs::Texts::sound_text))]
fn sound_text(alloc: Global, tally: Tally) -> Result<Vec<u8>, AllocError>
    ensures { IfOk result (λ text. text.items ≡ sound_text tally.entries tally.unjudged) }
{
    let mut text = Vec::new(alloc);
    put_word(&mut text, "sound ")?;
    put_number(&mut text, tally.entries)?;
    text.extend_from_slice(unjudged_text(tally.unjudged).as_slice())?;
    put_word(&mut text, "\n")?;
    Ok(text)
}

// An audit takes the bus reset whose body these bytes are, if a short look finds that it has no fault. If it does not, nothing is
// changed. Not in line: it is long, and would slow the packets down.
#[inline(never)]
fn pass_reset(audit: &mut Audit, bytes: &[u8]) -> bool
    requires { IsResetBody bytes.now }
    ensures fresh { audit.new.fault ≡ audit.old.fault }
    ensures found { IsTrue result → (entries : List AnEntry) (r : AReset) → ResetFits r → body (Reset r) ≡ bytes.now → Found entries audit.old None
        → Found (entries ++ Reset r ∷ []) audit.new None }
    ensures kept { IsFalse result → audit.new ≡ audit.old }
{
    let mut bus = no_reset();
    read_bus(&mut bus, bytes);
    audit.pass_reset(bus.manager, bus.nodes.as_slice())
}

// The same of the entry that has this body. One that no audit looks at changes none.
#[inline(always)]
fn pass(audit: &mut Audit, body: &PlainBody) -> bool
    requires { (e : AnEntry) × HasBody body.now e }
    ensures fresh { audit.new.fault ≡ audit.old.fault }
    ensures found { IsTrue result → (entries : List AnEntry) (e : AnEntry) → HasBody body.now e → Found entries audit.old None → Found (entries ++ e ∷ []) audit.new None }
    ensures kept { IsFalse result → audit.new ≡ audit.old }
{
    if is_passed_body(body) {
        return true;
    }
    match body {
        PlainBody::Packet(bytes) => audit.pass_packet(bytes.as_slice()),
        PlainBody::Reset(bytes) => pass_reset(audit, bytes.as_slice()),
        PlainBody::Iso(_) => false,
    }
}

impl Verdict {
    // The verdict on no entries. All memory is taken here.
    fn new(alloc: Global) -> Result<Verdict, AllocError>
        ensures { IfOk result (λ v. Audits v []) }
    {
        Ok(Verdict {
            audit: Audit::new(alloc)?,
            tally: Tally::nothing(),
        })
    }

    // Takes an entry more, and answers its fault, if any, as what the log is refused with.
    fn judge(&mut self, entry: &Timed) -> Result<Option<LogRefusal>, AllocError>
        requires { Fits entry.now.what }
        ensures { (entries : List TimedEntry) → length entries + 1 < 2 ^ 64 → Audits self.old entries
            → IfOk result (λ refusal. Judges self.new (entries ++ entry.now ∷ []) refusal) }
    {
        let number = self.tally.entries;
        self.tally.take(is_unjudged(&entry.what));
        match self.audit.take(entry)? {
            Some(fault) => Ok(Some(LogRefusal::Audit(Unsound {
                entry: number,
                fault,
                unjudged: self.tally.unjudged,
            }))),
            None => Ok(None),
        }
    }

    // Takes the entry that has this body, if a short look finds that it has no fault. If it does not, nothing is changed.
    #[inline(always)]
    fn pass_body(&mut self, body: &PlainBody) -> bool
        requires { (e : AnEntry) × HasBody body.now e }
        ensures passed { IsTrue result → (entries : List TimedEntry) (t : TimedEntry) → HasBody body.now t.what
            → length entries + 1 < 2 ^ 64 → Audits self.old entries → Audits self.new (entries ++ t ∷ []) }
        ensures kept { IsFalse result → self.new ≡ self.old }
    {
        if !pass(&mut self.audit, body) {
            return false;
        }
        self.tally.take(is_unjudged_body(body));
        true
    }

    // Takes the entry that ends in a piece if it is the outcome of a command, which no audit looks at.
    fn take_outcome(
        &mut self,
        kind: Option<u8>,
        reader: &mut LogReader,
        room: &mut ReadBuffers,
        piece: &[u8],
    ) -> Option<usize>
        requires { total reader.old + length piece.now < 2 ^ 64 }
        ensures kept { IfNone result ((reader.new ≡ reader.old) × (self.new ≡ self.old)) }
        ensures fresh { IfSome result (λ n. reader.new.fault ≡ None) }
        ensures counts { IfSome result (CountsUp reader.old piece.now reader.new) }
        ensures history { (entries : List TimedEntry) → (bytes : List ℕ) → HasRead entries bytes reader.old → Audits self.old entries
            → IfSome result (λ n. Passes silent_form.text (Audits self.new) [] [] entries (bytes ++ take n piece.now) reader.new) }
    {
        if kind != Some(kind::OUTCOME) {
            return None;
        }
        let annotation = reader.pass_annotation(kind::OUTCOME, piece, room)?;
        self.tally.take(false);
        Some(annotation.used)
    }
}

impl Reading for Verdict {
    type Refusal = LogRefusal;

    ghost use Rattle.fw_log_reports.specs.Texts.{silent_each};
    ghost use Rattle.fw_log_reports.specs.Verdicts.{audits_accepted, sound_unrefused};

    ghost form = { λ v. silent_form };

    ghost rules = { audit_rules };

    ghost took = { λ v entries. Audits v entries };

    ghost gathered = { λ v. [] };

    fn open<K: Sink>(&self, _sink: &mut K) -> Result<(), Failed> {
        Ok(())
    }

    fn take(&mut self, entry: &Timed, _bytes: &[u8]) -> Result<Option<LogRefusal>, AllocError> {
        self.judge(entry)
    }

    // No fault of a packet of a usual form is looked for twice.
    fn take_raw(
        &mut self,
        reader: &mut LogReader,
        room: &mut ReadBuffers,
        piece: &[u8],
    ) -> Result<Option<usize>, AllocError> {
        let kind = reader.next_kind(piece);
        if !may_pass(kind) {
            return Ok(self.take_outcome(kind, reader, room, piece));
        }
        let Some(next) = reader.next_body(piece, room) else {
            return Ok(None);
        };
        if !self.pass_body(&next.body) {
            return Ok(None);
        }
        Ok(Some(reader.go_past(piece, &next.passed)))
    }

    fn gathered(&self) -> &[u8] {
        &[]
    }

    fn clear(&mut self) {}

    fn close(&self, alloc: Global) -> Result<Closing<LogRefusal>, AllocError> {
        Ok(Closing::Bytes(sound_text(alloc, self.tally)?))
    }

    ghost each = { λ v. silent_each };

    ghost accepted = { λ v entries a. audits_accepted v entries a };

    ghost unrefused = { sound_unrefused };
}

/// Reads a log, and writes how many entries it has if none of them has a fault. The first that has one ends the call as soon as
/// it was read; nothing is written then.
pub fn audit<S: Source, K: Flush>(
    alloc: Global,
    source: &mut S,
    sink: &mut K,
) -> LogEnding<LogRefusal>
    ensures { ReadsLog silent_form audit_rules (record { left = S.left; faults = S.faults; old = source.old; new = source.new })
        (record { held = K.held; faults = K.faults; old = sink.old; new = sink.new }) result }
{
    match Verdict::new(alloc) {
        Ok(verdict) => read_log(alloc, verdict, source, sink),
        Err(_) => LogEnding::Stopped(Stop::NoMemory),
    }
}
