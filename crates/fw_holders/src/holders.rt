//! Entries, taken one by one.

ghost use Rattle.std.specs.Prelude.{◌≡◌, ◌↔◌, ◌+◌, ◌<◌, ◌^◌, ◌++◌, ◌∷◌, [], List, length, IfOk, Some, None, is_some, true, IsTrue, IsFalse};
ghost use Rattle.fw_async.specs.Reader.{IsPacket, Spells};
ghost use Rattle.fw_async.specs.declared.packet.Packet.{Packet as APacket};
ghost use Rattle.fw_log_entry.specs.Log.{Fits, ResetFits};
ghost use Rattle.fw_log_entry.specs.declared.entry.Entry.TheVariants.{Async, Event, Reset};
ghost use Rattle.fw_log_entry.specs.declared.entry.ResetEntry.{ResetEntry as AReset};
ghost use Rattle.fw_log_entry.specs.declared.entry.EventEntry.{EventEntry as LogEvent};
ghost use Rattle.fw_log_entry.specs.declared.entry.Timed.{Timed as TimedEntry};
ghost use Rattle.fw_model_account.specs.Account.{Account};
ghost use Rattle.fw_model_account.specs.Fold.{entries_of};
ghost use Rattle.fw_model_audit.specs.Audited.{EndsFaulty};
ghost use Rattle.fw_model_audit.specs.declared.fault.AuditFault.{AuditFault as Fault};
ghost use Rattle.fw_ledger.specs.Resets.{HasNoNewOutput};
ghost use Rattle.fw_account_tables.specs.Stands.{StandsFor};
ghost use Rattle.fw_audit.specs.Found.{Judges};
ghost use Rattle.fw_audit.specs.Unjudged.{unjudged as not_judged};
ghost use Rattle.fw_log_latest.specs.Latest.{IsBusOf};
ghost use Rattle.fw_holders.specs.Deeds.{event_told};
ghost use Rattle.fw_holders.specs.Told.{Holds, Takes, holders, table_of};

use crate::judged::Judged;
use crate::lines::{is_told, put_answer, put_event, put_reset, put_rest};
use crate::table::put_table;
use fw_audit::{AuditFault, take_entry, take_packet};
use fw_holders_text::{HeldTexts, Line};
use fw_ledger::{Answer, Ledger};
use fw_log_entry::{Entry, EventEntry, ResetEntry, Timed};
use std::alloc::{AllocError, Global};
use std::marker::Model;

/// How many bytes of lines there is room for at first: more than 4,096 bytes of an ordinary log give.
const TEXT_ROOM: usize = 16_384;

/// The audit of the entries that were taken, how much of them was judged, and the lines that were appended.
#[derive(Drop)]
pub struct Holders {
    ledger: Ledger,
    judged: Judged,
    text: Vec<u8>,
    // Of the nodes of the latest bus reset.
    texts: HeldTexts,
    // Room for one line, of which nothing is kept.
    room: Line,
}

impl Model for Holders {
    ghost use Rattle.std.specs.Prelude.{◌≡◌};
    ghost use Rattle.fw_holders.specs.Told.{HolderState};

    ghost Value = { HolderState };

    ghost view = { λ h. record { text = h.text.items; tables = h.ledger; judged = h.judged } };

    ghost invariant = { λ h. h.texts ≡ h.ledger.nodes };
}

// The ledger takes an entry, and the texts go on to its nodes. Without a fault only a bus reset has others, and before the first there
// are none.
fn take_with_texts(
    ledger: &mut Ledger,
    texts: &mut HeldTexts,
    e: &Entry,
) -> Result<Option<Answer>, AuditFault>
    requires fits { Fits e.now }
    requires nodes { texts.old ≡ ledger.old.nodes }
    ensures nodes { texts.new ≡ ledger.new.nodes }
    ensures judged { (l : Account) → StandsFor ledger.old l → Judges ledger.new l e.now result }
{
    let stays = ledger.tables().started && !matches!(e, Entry::Reset(_));
    match take_entry(ledger, e) {
        Ok(answer) if stays => Ok(answer),
        taken => {
            texts.renew(ledger.tables().nodes.as_slice());
            taken
        },
    }
}

impl Holders {
    /// Of no entries. An error says that memory ran out.
    pub fn new(alloc: Global) -> Result<Holders, AllocError>
        ensures { IfOk result (λ h. (h.text ≡ []) × Holds [] h) }
    {
        Ok(Holders {
            ledger: Ledger::new(alloc)?,
            judged: Judged::nothing(),
            text: Vec::with_capacity(alloc, TEXT_ROOM)?,
            texts: HeldTexts::new(alloc)?,
            room: Line::new(),
        })
    }

    /// All lines that were appended, each with its line feed.
    pub fn as_slice(&self) -> &[u8]
        ensures { result.now ≡ self.now.text }
    {
        &self.text
    }

    /// Drops all lines, and keeps the memory.
    pub fn clear(&mut self)
        ensures { self.new ≡ record self.old { text = [] } }
    {
        self.text.clear();
    }

    // The text of an event that changes what is held stands before it is taken, since a death takes from the account what is told of it.
    fn take_event(
        &mut self,
        t: &Timed,
        event: &EventEntry,
    ) -> Result<Option<AuditFault>, AllocError>
        requires fits { Fits t.now.what }
        requires event { t.now.what ≡ Event event.now }
        requires told { (l : Account) → is_some (event_told l event.now) ≡ true }
        ensures { (l : Account) → StandsFor self.old.tables l → IfOk result (λ f. Takes l t.now self.old self.new f) }
    {
        let begins = self.text.len();
        self.texts.put_cycle(&mut self.text, t.cycle)?;
        let from = self.text.len();
        put_event(&mut self.text, self.ledger.tables(), event)?;
        let taken = take_with_texts(&mut self.ledger, &mut self.texts, &t.what);
        if let Err(fault) = taken {
            self.text.truncate(begins);
            return Ok(Some(fault));
        }
        put_rest(&mut self.text, from, self.ledger.tables(), &mut self.texts)?;
        Ok(None)
    }

    // An entry whose text is that of what it made.
    fn take_other(&mut self, t: &Timed) -> Result<Option<AuditFault>, AllocError>
        requires fits { Fits t.now.what }
        requires other { (l : Account) (e : LogEvent) → t.now.what ≡ Event e → event_told l e ≡ None }
        ensures { (l : Account) → StandsFor self.old.tables l → IfOk result (λ f. Takes l t.now self.old self.new f) }
    {
        let answer = match take_with_texts(&mut self.ledger, &mut self.texts, &t.what) {
            Ok(answer) => answer,
            Err(fault) => return Ok(Some(fault)),
        };
        self.judged.take(&t.what, answer);
        match (&t.what, answer) {
            (Entry::Reset(r), _) => put_reset(
                &mut self.text,
                t.cycle,
                self.ledger.tables(),
                &mut self.texts,
                r.get(),
            )?,
            (_, Some(answer)) => put_answer(
                &mut self.text,
                &mut self.room,
                t.cycle,
                &self.ledger,
                &mut self.texts,
                &answer,
            )?,
            _ => {},
        }
        Ok(None)
    }

    /// Takes an entry, and answers its fault, as an audit does; of an entry without one it appends the line, if it has one. An
    /// error says that memory ran out.
    pub fn take(&mut self, t: &Timed) -> Result<Option<AuditFault>, AllocError>
        requires fits { Fits t.now.what }
        ensures taken { (entries : List TimedEntry) → length entries + 1 < 2 ^ 64 → Holds entries self.old
            → IfOk result (λ f. f ≡ None → Holds (entries ++ t.now ∷ []) self.new × (self.new.text ≡ self.old.text ++ holders entries (t.now ∷ []))) }
        ensures found { (entries : List TimedEntry) (fault : Fault) → Holds entries self.old
            → IfOk result (λ f. f ≡ Some fault → EndsFaulty (entries_of (entries ++ t.now ∷ [])) fault × (self.new.text ≡ self.old.text)) }
    {
        match &t.what {
            Entry::Event(event) if is_told(event) => self.take_event(t, event),
            _ => self.take_other(t),
        }
    }

    /// Takes the packet of this cycle that these bytes are if a short look finds that it has no fault, as of nearly all, and answers
    /// whether it did; it appends the line, if it has one. If it did not nothing is changed, and `take` says what the packet is. An
    /// error says that memory ran out.
    #[inline(always)]
    pub fn pass_packet(&mut self, cycle: u64, bytes: &[u8]) -> Result<bool, AllocError>
        requires packet { IsPacket bytes.now }
        ensures passed { (entries : List TimedEntry) (t : TimedEntry) (p : APacket) → t.cycle ≡ cycle → t.what ≡ Async p → Spells p bytes.now → length entries + 1 < 2 ^ 64
            → Holds entries self.old
            → IfOk result (λ passed. IsTrue passed → Holds (entries ++ t ∷ []) self.new × (self.new.text ≡ self.old.text ++ holders entries (t ∷ []))) }
        ensures kept { IfOk result (λ passed. IsFalse passed → self.new ≡ self.old) }
    {
        // Before the first bus reset nobody can ask.
        if !self.ledger.tables().started {
            return Ok(false);
        }
        match take_packet(&mut self.ledger, bytes) {
            Some(Some(answer)) => {
                self.judged.take_answer(&answer);
                put_answer(
                    &mut self.text,
                    &mut self.room,
                    cycle,
                    &self.ledger,
                    &mut self.texts,
                    &answer,
                )?;
                Ok(true)
            }
            Some(None) => Ok(true),
            None => Ok(false),
        }
    }

    /// Takes the bus reset of this cycle of which this is what a line tells of it, if no device has more output plugs than before it,
    /// and answers whether it did; it appends the line. If it did not nothing is changed, and `take` takes the entry. An error says
    /// that memory ran out.
    pub fn pass_reset(&mut self, cycle: u64, bus: &ResetEntry) -> Result<bool, AllocError>
        requires bus { (r : AReset) × ResetFits r × IsBusOf r bus.now }
        ensures passed { (entries : List TimedEntry) (t : TimedEntry) (r : AReset) → t.cycle ≡ cycle → t.what ≡ Reset r → ResetFits r → IsBusOf r bus.now
            → length entries + 1 < 2 ^ 64 → Holds entries self.old
            → IfOk result (λ passed. IsTrue passed → Holds (entries ++ t ∷ []) self.new × (self.new.text ≡ self.old.text ++ holders entries (t ∷ []))) }
        ensures exactly { (l : Account) → StandsFor self.old.tables l → IfOk result (λ passed. IsTrue passed ↔ HasNoNewOutput l.latest bus.now.nodes) }
        ensures kept { IfOk result (λ passed. IsFalse passed → self.new ≡ self.old) }
    {
        if !self.ledger.take_bus(bus.manager, bus.nodes.as_slice()) {
            return Ok(false);
        }
        self.judged.take_reset();
        let tables = self.ledger.tables();
        self.texts.renew(tables.nodes.as_slice());
        put_reset(&mut self.text, cycle, tables, &mut self.texts, bus)?;
        Ok(true)
    }

    /// The table of what is held after the entries, of which no audit judges so many locks. An error says that memory ran out.
    pub fn table(&self, alloc: Global, unjudged: u64) -> Result<Vec<u8>, AllocError>
        ensures { (entries : List TimedEntry) → Holds entries self.now → unjudged ≡ not_judged entries → IfOk result (λ text. text.items ≡ table_of entries) }
    {
        let mut text = Vec::with_capacity(alloc, TEXT_ROOM)?;
        put_table(&mut text, self.ledger.tables(), &self.judged, unjudged)?;
        Ok(text)
    }
}
