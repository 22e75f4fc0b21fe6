//! Entries of which is told, from their bytes.

ghost use Rattle.std.specs.Prelude.{ℕ, ◌≡◌, ◌≤◌, ◌^◌, ◌*◌, length, IsTrue, ◌==◌, ◌||◌};
ghost use Rattle.fw_log_entry.specs.Log.{entry_bytes, TimedFits, quads, event_quads, outcome_quads, shown_quads, EventFits, OutcomeFits, ShownFits};
ghost use Rattle.fw_log_entry.specs.declared.version.Version.TheVariants.{Two};
ghost use Rattle.fw_log_entry.specs.declared.entry.Timed.{Timed};
ghost use Rattle.fw_explore_told.specs.Histories.{told_in, first_of};

use crate::past::ToldEntry;
use fw_log_entry::codes::kind;
use fw_log_entry::{EventEntry, OutcomeEntry, ShownEntry, has_tape};
use fw_words::quadlet_at;

/// How many bytes of an entry of version 2 stand before its body.
const HEAD: usize = 16;

// The event with this body.
fn event_in(body: &[u8]) -> EventEntry
    requires { 4 ≤ length body.now }
    ensures { (e : EventEntry) → EventFits e → quads (event_quads e) ≡ body.now → result ≡ e }
{
    let first = quadlet_at(body, 0);
    let code = first.field(0, 7) as u8;
    let device = first.field(8, 15) as u8;
    if !has_tape(code) || body.len() < 8 {
        return EventEntry {
            code,
            device,
            tape: 0,
            system: 0,
        };
    }
    let second = quadlet_at(body, 4);
    EventEntry {
        code,
        device,
        tape: second.field(0, 15) as u16,
        system: second.field(16, 31) as u16,
    }
}

// The outcome with this body.
fn outcome_in(body: &[u8]) -> OutcomeEntry
    requires { 8 ≤ length body.now }
    ensures { (o : OutcomeEntry) → OutcomeFits o → quads (outcome_quads o) ≡ body.now → result ≡ o }
{
    let first = quadlet_at(body, 0);
    OutcomeEntry {
        code: first.field(0, 7) as u8,
        device: first.field(8, 15) as u8,
        slot: first.field(16, 23) as u8,
        value: quadlet_at(body, 4).0,
    }
}

// The shown word with this body.
fn shown_in(body: &[u8]) -> ShownEntry
    requires { 8 ≤ length body.now }
    ensures { (s : ShownEntry) → ShownFits s → quads (shown_quads s) ≡ body.now → result ≡ s }
{
    let first = quadlet_at(body, 0);
    ShownEntry {
        device: first.field(0, 7) as u8,
        offset: first.field(16, 31) as u16,
        word: quadlet_at(body, 4).0,
    }
}

/// What is told of an entry, by its bytes.
#[inline(always)]
pub(crate) fn told_in(entry: &[u8]) -> Option<ToldEntry>
    requires { 16 ≤ length entry.now }
    ensures { (epoch : ℕ) (t : Timed) → TimedFits t → entry.now ≡ entry_bytes Two epoch t → result ≡ first_of (told_in t.what) }
{
    let body = &entry[HEAD..];
    match entry[0] {
        kind::EVENT if body.len() >= 4 => Some(ToldEntry::Event(event_in(body))),
        kind::OUTCOME if body.len() >= 8 => Some(ToldEntry::Outcome(outcome_in(body))),
        kind::SHOWN if body.len() >= 8 => Some(ToldEntry::Shown(shown_in(body))),
        _ => None,
    }
}
