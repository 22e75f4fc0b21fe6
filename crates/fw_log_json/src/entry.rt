//! The fields of an entry after its cycle.

ghost use Rattle.std.specs.Prelude.{◌≡◌, ◌++◌, OnOk};
ghost use Rattle.fw_log_json.specs.Objects.{device_of, inserted_fields, tape_fields, event_fields, outcome_fields, shown_fields, what_fields};

use crate::iso::put_iso;
use crate::packet::put_packet;
use crate::reset::put_reset;
use crate::values::{put_code, put_count, put_eight, put_number_or_null, put_twelve};
use fw_csr::REGISTER_SPACE;
use fw_log_entry::codes::NO_DEVICE;
use fw_log_entry::{Entry, EventEntry, OutcomeEntry, ShownEntry, has_tape};
use fw_log_names::{Pairs, event_name, outcome_name, system_name};
use std::alloc::AllocError;

// The device of an event, if it has one.
fn device_of(device: u8) -> Option<u8>
    ensures { result ≡ device_of device }
{
    if device == NO_DEVICE {
        None
    } else {
        Some(device)
    }
}

fn put_inserted(text: &mut Vec<u8>, e: &EventEntry) -> Result<(), AllocError>
    ensures { OnOk result (text.new.items ≡ text.old.items ++ inserted_fields e.now) }
{
    put_count(text, r#","tape":"#, u64::from(e.tape))?;
    let system = system_name(e.system);
    put_code(
        text,
        r#","system":"#,
        u64::from(e.system),
        r#","system_name":"#,
        system,
    )
}

fn put_tape(text: &mut Vec<u8>, e: &EventEntry) -> Result<(), AllocError>
    ensures { OnOk result (text.new.items ≡ text.old.items ++ tape_fields e.now) }
{
    if !has_tape(e.code) {
        return Ok(());
    }
    put_inserted(text, e)
}

fn put_event(text: &mut Vec<u8>, e: &EventEntry) -> Result<(), AllocError>
    ensures { OnOk result (text.new.items ≡ text.old.items ++ event_fields e.now) }
{
    put_code(
        text,
        r#","code":"#,
        u64::from(e.code),
        r#","code_name":"#,
        event_name(e.code),
    )?;
    put_number_or_null(text, r#","device":"#, device_of(e.device))?;
    put_tape(text, e)
}

fn put_outcome(text: &mut Vec<u8>, pairs: &Pairs, o: &OutcomeEntry) -> Result<(), AllocError>
    ensures { OnOk result (text.new.items ≡ text.old.items ++ outcome_fields o.now) }
{
    put_code(
        text,
        r#","code":"#,
        u64::from(o.code),
        r#","code_name":"#,
        outcome_name(o.code),
    )?;
    put_count(text, r#","device":"#, u64::from(o.device))?;
    put_count(text, r#","slot":"#, u64::from(o.slot))?;
    put_eight(text, pairs, r#","value":"#, o.value)
}

fn put_shown(text: &mut Vec<u8>, pairs: &Pairs, s: &ShownEntry) -> Result<(), AllocError>
    ensures { OnOk result (text.new.items ≡ text.old.items ++ shown_fields s.now) }
{
    put_count(text, r#","device":"#, u64::from(s.device))?;
    put_twelve(
        text,
        pairs,
        r#","offset":"#,
        REGISTER_SPACE + u64::from(s.offset),
    )?;
    put_eight(text, pairs, r#","word":"#, s.word)
}

// Appends what an entry records.
pub(crate) fn put_what(text: &mut Vec<u8>, pairs: &Pairs, what: &Entry) -> Result<(), AllocError>
    ensures { OnOk result (text.new.items ≡ text.old.items ++ what_fields what.now) }
{
    match what {
        Entry::Reset(reset) => put_reset(text, reset.get()),
        Entry::Async(packet) => put_packet(text, pairs, packet),
        Entry::Iso(packet) => put_iso(text, pairs, packet),
        Entry::Event(event) => put_event(text, event),
        Entry::Outcome(outcome) => put_outcome(text, pairs, outcome),
        Entry::Shown(shown) => put_shown(text, pairs, shown),
        Entry::End => Ok(()),
    }
}
