//! Bus resets, events, outcomes and shown words.

ghost use Rattle.std.specs.Prelude.{◌≡◌, ◌++◌, OnOk};
ghost use Rattle.fw_trace_lines.specs.Told.{manager_text, reset_text, event_device, event_text, missing_text, outcome_value, outcome_text, shown_text};

use crate::job::{TracedConnection, put_doing};
use fw_log_entry::codes::{NO_DEVICE, outcome};
use fw_log_entry::{EventEntry, OutcomeEntry, ResetEntry, ShownEntry};
use fw_log_explain::{put_saying, put_tape, put_value, shown_place};
use fw_log_names::{Pairs, event_name, event_saying, outcome_name, put_word};
use fw_log_registers::append_place;
use fw_trace_names::{Names, put_named_part, put_named_word, put_part};
use std::alloc::AllocError;

// Appends the resource manager that a bus reset has found.
#[tactic(auto, unfolding(crate::specs::Told::manager_text))]
fn put_manager(text: &mut Vec<u8>, names: &Names, manager: Option<u8>) -> Result<(), AllocError>
    ensures { OnOk result (text.new.items ≡ text.old.items ++ manager_text names.now manager) }
{
    match manager {
        Some(number) => {
            put_word(text, "; manager ")?;
            names.put_node(text, u32::from(number))
        }
        None => put_word(text, "; no manager"),
    }
}

// Appends a bus reset, with the names that it leaves.
#[tactic(auto, unfolding(crate::specs::Told::reset_text))]
pub(crate) fn put_reset(text: &mut Vec<u8>, names: &Names, r: &ResetEntry) -> Result<(), AllocError>
    ensures { OnOk result (text.new.items ≡ text.old.items ++ reset_text names.now r.now) }
{
    put_part(text, "bus reset ", u64::from(r.epoch))?;
    put_word(text, " by ")?;
    names.put_node(text, u32::from(r.initiator))?;
    put_word(text, ":")?;
    names.put_nodes(text)?;
    put_manager(text, names, r.manager)
}

// Appends the device of an event.
#[tactic(auto, unfolding(crate::specs::Told::event_device))]
fn put_event_device(text: &mut Vec<u8>, names: &Names, device: u8) -> Result<(), AllocError>
    ensures { OnOk result (text.new.items ≡ text.old.items ++ event_device names.now device) }
{
    if device == NO_DEVICE {
        return Ok(());
    }
    names.put_blank_device(text, device)
}

// Appends an event.
#[tactic(auto, unfolding(crate::specs::Told::event_text))]
pub(crate) fn put_event(text: &mut Vec<u8>, names: &Names, e: &EventEntry) -> Result<(), AllocError>
    ensures { OnOk result (text.new.items ≡ text.old.items ++ event_text names.now e.now) }
{
    put_named_part(
        text,
        "event ",
        event_name(e.code),
        "code",
        u64::from(e.code),
    )?;
    put_event_device(text, names, e.device)?;
    put_word(text, ": ")?;
    put_saying(text, event_saying(e.code))?;
    put_tape(text, e)
}

// Appends a missing device.
#[tactic(auto, unfolding(crate::specs::Told::missing_text))]
fn put_missing(text: &mut Vec<u8>, names: &Names, device: u32) -> Result<(), AllocError>
    ensures { OnOk result (text.new.items ≡ text.old.items ++ missing_text names.now device) }
{
    put_word(text, ", missing device ")?;
    names.put_device(text, device)
}

// Appends the value of an outcome.
#[tactic(auto, unfolding(crate::specs::Told::outcome_value))]
fn put_outcome_value(
    text: &mut Vec<u8>,
    pairs: &Pairs,
    names: &Names,
    code: u8,
    value: u32,
) -> Result<(), AllocError>
    ensures { OnOk result (text.new.items ≡ text.old.items ++ outcome_value names.now code value) }
{
    if code == outcome::ABSENT {
        put_missing(text, names, value)
    } else {
        put_value(text, pairs, code, value)
    }
}

// Appends an outcome of a job.
#[tactic(auto, unfolding(crate::specs::Told::outcome_text))]
pub(crate) fn put_outcome(
    text: &mut Vec<u8>,
    pairs: &Pairs,
    names: &Names,
    job: Option<TracedConnection>,
    o: &OutcomeEntry,
) -> Result<(), AllocError>
    ensures { OnOk result (text.new.items ≡ text.old.items ++ outcome_text names.now job o.now) }
{
    names.put_device(text, u32::from(o.device))?;
    put_doing(text, o.code, job)?;
    put_part(text, ", slot ", u64::from(o.slot))?;
    put_named_part(text, ": ", outcome_name(o.code), "code", u64::from(o.code))?;
    put_outcome_value(text, pairs, names, o.code, o.value)
}

// Appends a shown word.
#[tactic(auto, unfolding(crate::specs::Told::shown_text))]
pub(crate) fn put_shown(
    text: &mut Vec<u8>,
    pairs: &Pairs,
    names: &Names,
    s: &ShownEntry,
) -> Result<(), AllocError>
    ensures { OnOk result (text.new.items ≡ text.old.items ++ shown_text names.now s.now) }
{
    let place = shown_place(s);
    put_word(text, "shown ")?;
    names.put_device(text, u32::from(s.device))?;
    put_word(text, " ")?;
    append_place(text, place)?;
    put_named_word(text, pairs, names, place, s.word)
}
