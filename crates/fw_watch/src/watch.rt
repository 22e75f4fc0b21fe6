//! What a log shows of a bus, entry by entry.

ghost use Rattle.std.specs.Prelude.{◌≡◌, ◌++◌, ◌∷◌, [], List, IfOk, OnOk, string_bytes};
ghost use Rattle.fw_log_entry.specs.declared.entry.Timed.{Timed};
ghost use Rattle.fw_async.specs.Reader.{IsPacket, Spells};
ghost use Rattle.fw_async.specs.declared.packet.Packet.{Packet as AsyncPacket};
ghost use Rattle.fw_log_entry.specs.declared.entry.Entry.TheVariants.{Async, Iso, Reset as ResetOf};
ghost use Rattle.fw_log_entry.specs.declared.entry.ResetEntry.{ResetEntry as AReset};
ghost use Rattle.fw_log_latest.specs.Latest.{IsBusOf};
ghost use Rattle.fw_watch.specs.Steps.{at_cycle};
ghost use Rattle.fw_watch.specs.Watched.{Watches, watched, watched_end, resets_text, unseen_text, judged_text, last_text};

use crate::step::{follow_entry, step_iso, step_packet, step_reset};
use fw_cip::IsoPacket;
use fw_log_entry::{ResetEntry, Timed};
use fw_watch_known::{Counts, State};
use fw_watch_remarks::Journal;
use std::alloc::{AllocError, Global};
use std::marker::Model;

/// What a log has shown so far. Its memory is made once and kept: what is known of the bus has a fixed size, and the lines that are
/// not yet written are those of the entries since they were dropped last. Contracts see it as what was told and what is known.
#[derive(Drop)]
pub struct Watch {
    journal: Journal,
    state: Box<State>,
}

impl Model for Watch {
    ghost use Rattle.fw_watch.specs.Watched.{WatchState};

    ghost Value = { WatchState };

    ghost view = { λ w. record { told = w.journal; state = w.state.value } };
}

// Appends how many bus resets there were, and how many answers were judged.
#[tactic(auto, unfolding(crate::specs::Watched::resets_text))]
fn put_resets(text: &mut String, resets: u64, judged: u64) -> Result<(), AllocError>
    ensures { OnOk result (string_bytes text.new ≡ string_bytes text.old ++ resets_text resets judged) }
{
    write!(text, "resets {resets}, answers judged {judged}")
}

// Appends of how many nothing was known, and how many words changed unseen.
#[tactic(auto, unfolding(crate::specs::Watched::unseen_text))]
fn put_unseen(text: &mut String, not_known: u64, unseen: u64) -> Result<(), AllocError>
    ensures { OnOk result (string_bytes text.new ≡ string_bytes text.old ++ unseen_text not_known unseen) }
{
    write!(text, ", not known before {not_known}")?;
    write!(text, ", changed unseen {unseen}")
}

// Appends how many bus resets there were, and how much was judged.
#[tactic(auto, unfolding(crate::specs::Watched::judged_text))]
fn put_judged(text: &mut String, counts: &Counts) -> Result<(), AllocError>
    ensures { OnOk result (string_bytes text.new ≡ string_bytes text.old ++ judged_text counts.now) }
{
    put_resets(text, counts.resets, counts.judged)?;
    put_unseen(text, counts.not_known, counts.unseen)
}

// Appends how many isochronous packets and findings there were.
#[tactic(auto, unfolding(crate::specs::Watched::last_text))]
fn put_last(text: &mut String, packets: u64, findings: u64) -> Result<(), AllocError>
    ensures { OnOk result (string_bytes text.new ≡ string_bytes text.old ++ last_text packets findings) }
{
    write!(text, ", isochronous packets {packets}")?;
    write!(text, ", findings {findings}\n")
}

impl Watch {
    /// Nothing was shown. An error says that memory ran out.
    pub fn new(alloc: Global) -> Result<Watch, AllocError>
        ensures text { IfOk result (λ w. w.told.text ≡ []) }
        ensures watches { IfOk result (λ w. Watches w []) }
    {
        let state = State::new(alloc)?;
        Ok(Watch {
            journal: Journal::new(alloc)?,
            state: Box::new(alloc, state)?,
        })
    }

    /// The lines that are not yet written, each with its line feed.
    pub fn as_slice(&self) -> &[u8]
        ensures { result.now ≡ self.now.told.text }
    {
        self.journal.as_slice()
    }

    /// Drops the lines, and keeps what is known.
    pub fn clear(&mut self)
        ensures text { self.new.told.text ≡ [] }
        ensures watches { (entries : List Timed) → Watches self.old entries → Watches self.new entries }
    {
        self.journal.clear();
    }

    /// Takes the next entry of a log, and appends the lines that it gives. An error says that memory ran out, and comes for nothing
    /// else.
    pub fn put(&mut self, t: &Timed) -> Result<(), AllocError>
        ensures lines { (before : List Timed) → Watches self.old before → OnOk result (self.new.told.text ≡ self.old.told.text ++ watched before (t.now ∷ [])) }
        ensures following { (before : List Timed) → Watches self.old before → OnOk result (Watches self.new (before ++ t.now ∷ [])) }
    {
        follow_entry(&mut self.state, &mut self.journal, t)
    }

    /// As `put`, of an asynchronous packet, from its bytes.
    #[inline(always)]
    pub fn put_packet(&mut self, cycle: u64, bytes: &[u8]) -> Result<(), AllocError>
        requires { IsPacket bytes.now }
        ensures lines { (p : AsyncPacket) → Spells p bytes.now → (before : List Timed) → Watches self.old before
            → OnOk result (self.new.told.text ≡ self.old.told.text ++ watched before (at_cycle cycle (Async p) ∷ [])) }
        ensures following { (p : AsyncPacket) → Spells p bytes.now → (before : List Timed) → Watches self.old before
            → OnOk result (Watches self.new (before ++ at_cycle cycle (Async p) ∷ [])) }
    {
        step_packet(&mut self.state, &mut self.journal, cycle, bytes)
    }

    /// As `put`, of an isochronous packet.
    #[inline(always)]
    pub fn put_iso(&mut self, cycle: u64, p: &IsoPacket) -> Result<(), AllocError>
        ensures lines { (before : List Timed) → Watches self.old before
            → OnOk result (self.new.told.text ≡ self.old.told.text ++ watched before (at_cycle cycle (Iso p.now) ∷ [])) }
        ensures following { (before : List Timed) → Watches self.old before → OnOk result (Watches self.new (before ++ at_cycle cycle (Iso p.now) ∷ [])) }
    {
        step_iso(&mut self.state, &mut self.journal, cycle, p)
    }

    /// As `put`, of a bus reset, of which the epoch, the nodes and the resource manager alone are looked at.
    pub fn put_reset(&mut self, cycle: u64, r: &ResetEntry) -> Result<(), AllocError>
        ensures lines { (whole : AReset) → IsBusOf whole r.now → (before : List Timed) → Watches self.old before
            → OnOk result (self.new.told.text ≡ self.old.told.text ++ watched before (at_cycle cycle (ResetOf whole) ∷ [])) }
        ensures following { (whole : AReset) → IsBusOf whole r.now → (before : List Timed) → Watches self.old before
            → OnOk result (Watches self.new (before ++ at_cycle cycle (ResetOf whole) ∷ [])) }
    {
        step_reset(&mut self.state, &mut self.journal, cycle, r)
    }

    /// The last line: how much was judged of all entries.
    pub fn end(&self, alloc: Global) -> Result<String, AllocError>
        ensures { (entries : List Timed) → Watches self.now entries → IfOk result (λ s. string_bytes s ≡ watched_end entries) }
    {
        let mut text = String::new(alloc);
        put_judged(&mut text, &self.state.counts)?;
        put_last(
            &mut text,
            self.state.counts.packets,
            self.journal.findings(),
        )?;
        Ok(text)
    }
}
