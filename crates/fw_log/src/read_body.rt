//! The bodies of entries, from bytes.

ghost use Rattle.std.specs.Prelude.{ℕ, ◌≡◌, ◌≤◌, ◌<◌, ◌-◌, ◌*◌, ◌%◌, length};
ghost use Rattle.std.specs.Prelude.{IsTrue, IfSome, ◌==◌, ◌||◌, true};
ghost use Rattle.fw_log_entry.specs.declared.entry.EventEntry.{EventEntry};
ghost use Rattle.fw_log_entry.specs.declared.entry.OutcomeEntry.{OutcomeEntry};
ghost use Rattle.fw_log_entry.specs.declared.entry.ShownEntry.{ShownEntry};
ghost use Rattle.fw_log_entry.specs.Log.{quads, event_quads, outcome_quads, shown_quads, EventFits, OutcomeFits, ShownFits};
ghost use Rattle.fw_log_entry.specs.declared.codes.TheConstants.{LINES_525, LINES_625};
ghost use Rattle.fw_log.specs.Reading.{is_kind, is_length};
ghost use Rattle.fw_log.specs.Bodies.{PacketJudges, ResetJudges, BodyJudges};

use crate::read_reset::read_reset;
use crate::{BodyFault, Entry, EventEntry, OutcomeEntry, ResetEntry, ShownEntry};
use fw_async::{Fed, Packet, is_plain_packet, read_packet, whole_packet};
use fw_cip::read_iso;
use fw_log_entry::codes::{LINES_525, LINES_625, kind};
use fw_log_entry::{BorrowedReset, has_tape, may_bring, may_have};
use fw_words::quadlet_at;

pub(crate) fn outcome_of(body: &[u8]) -> Option<OutcomeEntry>
    requires { length body.now ≡ 8 }
    ensures found { IfSome result (λ o. OutcomeFits o × (quads (outcome_quads o) ≡ body.now)) }
    ensures only { (o : OutcomeEntry) → OutcomeFits o → quads (outcome_quads o) ≡ body.now → result ≡ Some o }
{
    let first = quadlet_at(body, 0);
    let code = first.field(0, 7) as u8;
    let value = quadlet_at(body, 4).0;
    if first.field(24, 31) != 0 || !may_bring(code, value) {
        return None;
    }
    Some(OutcomeEntry {
        code,
        device: first.field(8, 15) as u8,
        slot: first.field(16, 23) as u8,
        value,
    })
}

pub(crate) fn shown_of(body: &[u8]) -> Option<ShownEntry>
    requires { length body.now ≡ 8 }
    ensures found { IfSome result (λ o. ShownFits o × (quads (shown_quads o) ≡ body.now)) }
    ensures only { (o : ShownEntry) → ShownFits o → quads (shown_quads o) ≡ body.now → result ≡ Some o }
{
    let first = quadlet_at(body, 0);
    if first.field(8, 15) != 0 || first.field(16, 31) >= 0x1000 {
        return None;
    }
    Some(ShownEntry {
        device: first.field(0, 7) as u8,
        offset: first.field(16, 31) as u16,
        word: quadlet_at(body, 4).0,
    })
}

fn is_system(system: u16) -> bool
    ensures { result ≡ ((system == LINES_525) || (system == LINES_625)) }
{
    system == LINES_525 || system == LINES_625
}

pub(crate) fn event_of(body: &[u8]) -> Option<EventEntry>
    requires { IsTrue ((length body.now == 4) || (length body.now == 8)) }
    ensures found { IfSome result (λ o. EventFits o × (quads (event_quads o) ≡ body.now)) }
    ensures only { (o : EventEntry) → EventFits o → quads (event_quads o) ≡ body.now → result ≡ Some o }
{
    let first = quadlet_at(body, 0);
    let code = first.field(0, 7) as u8;
    let device = first.field(8, 15) as u8;
    if first.field(16, 31) != 0 || !may_have(code, device) {
        return None;
    }
    if !has_tape(code) {
        if body.len() != 4 {
            return None;
        }
        return Some(EventEntry {
            code,
            device,
            tape: 0,
            system: 0,
        });
    }
    if body.len() != 8 {
        return None;
    }
    let second = quadlet_at(body, 4);
    let system = second.field(16, 31) as u16;
    if !is_system(system) {
        return None;
    }
    Some(EventEntry {
        code,
        device,
        tape: second.field(0, 15) as u16,
        system,
    })
}

fn async_of<'a>(body: &'a [u8]) -> Result<Packet<'a>, BodyFault>
    requires some { 12 ≤ length body.now }
    requires whole { length body.now % 4 ≡ 0 }
    ensures { PacketJudges body.now result }
{
    if is_plain_packet(body) {
        return Ok(whole_packet(body));
    }
    match read_packet(body) {
        Ok(fed) => {
            let Fed { used, packet } = fed;
            match packet {
                Some(packet) => {
                    if used == body.len() {
                        Ok(packet)
                    } else {
                        Err(BodyFault::Fields)
                    }
                }
                None => Err(BodyFault::Fields),
            }
        }
        Err(fault) => Err(BodyFault::Packet(fault)),
    }
}

// Puts the reset that the body is into room that is kept for it.
fn reset_in<'a>(body: &[u8], room: &'a mut ResetEntry) -> Result<BorrowedReset<'a>, BodyFault>
    requires some { 20 ≤ length body.now }
    requires few { length body.now ≤ 2276 }
    ensures { ResetJudges body.now result }
{
    match read_reset(room, body) {
        Ok(()) => Ok(BorrowedReset::new(room)),
        Err(fault) => Err(fault),
    }
}

// The entry that the body is, or why it is none.
pub(crate) fn entry_of<'a>(
    kind: u8,
    body: &'a [u8],
    room: &'a mut ResetEntry,
) -> Result<Entry<'a>, BodyFault>
    requires kind { is_kind kind 0 ≡ true }
    requires size { (n : ℕ) × (length body.now ≡ 4 * n) × (is_length kind n ≡ true) }
    ensures { BodyJudges kind body.now result }
{
    match kind {
        kind::RESET => match reset_in(body, room) {
            Ok(reset) => Ok(Entry::Reset(reset)),
            Err(fault) => Err(fault),
        },
        kind::ASYNC => match async_of(body) {
            Ok(packet) => Ok(Entry::Async(packet)),
            Err(fault) => Err(fault),
        },
        kind::ISO => match read_iso(body) {
            Ok(packet) => Ok(Entry::Iso(packet)),
            Err(fault) => Err(BodyFault::Iso(fault)),
        },
        kind::EVENT => match event_of(body) {
            Some(event) => Ok(Entry::Event(event)),
            None => Err(BodyFault::Fields),
        },
        kind::OUTCOME => match outcome_of(body) {
            Some(outcome) => Ok(Entry::Outcome(outcome)),
            None => Err(BodyFault::Fields),
        },
        kind::SHOWN => match shown_of(body) {
            Some(shown) => Ok(Entry::Shown(shown)),
            None => Err(BodyFault::Fields),
        },
        _ => Ok(Entry::End),
    }
}
