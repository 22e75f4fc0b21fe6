//! Isochronous packets, events, outcomes and shown words in words.

ghost use Rattle.std.specs.Prelude.{◌≡◌, ◌++◌, OnOk, codes};
ghost use Rattle.std.specs.Option.{option_copied};
ghost use Rattle.fw_log_explain.specs.Lines.{format_text, block_word, stream_text, iso_text, device_text, saying_text, tape_text, event_text, rcode_text, value_text, ended_text, slot_text, outcome_text, shown_device, shown_place, shown_text};

use crate::lock::put_at;
use crate::parts::{put_named_part, put_part, put_word_part};
use crate::response::put_rcode;
use fw_cip::{CipHeader, IsoPacket};
use fw_csr::REGISTER_SPACE;
use fw_log_entry::codes::{NO_DEVICE, outcome};
use fw_log_entry::{EventEntry, OutcomeEntry, ShownEntry, has_tape};
use fw_log_names::{
    Pairs, event_name, event_saying, format_name, outcome_name, put_hex4, put_hex6, put_word,
    system_name,
};
use fw_log_registers::{RegisterPlace, append_register_word};
use std::alloc::AllocError;

// Appends the format of an isochronous packet with its time stamp, or FMT and FDF.
#[tactic(auto, unfolding(crate::specs::Lines::format_text))]
fn put_format(
    text: &mut Vec<u8>,
    pairs: &Pairs,
    name: Option<&str>,
    cip: &CipHeader,
) -> Result<(), AllocError>
    ensures { OnOk result (text.new.items ≡ text.old.items ++ format_text (option_copied name.entry) cip.now) }
{
    match name {
        Some(name) => {
            put_word(text, name)?;
            put_word(text, " SYT ")?;
            put_hex4(text, pairs, (cip.fdf % 0x1_0000) as u16)
        }
        None => {
            put_part(text, "FMT ", u64::from(cip.fmt))?;
            put_word(text, " FDF ")?;
            put_hex6(text, pairs, cip.fdf)
        }
    }
}

// Appends the stream that a packet is of: its channel, SID and DBC.
#[tactic(auto, unfolding(crate::specs::Lines::stream_text))]
fn put_stream(text: &mut Vec<u8>, p: &IsoPacket) -> Result<(), AllocError>
    ensures { OnOk result (text.new.items ≡ text.old.items ++ stream_text p.now) }
{
    put_part(text, "isochronous channel ", u64::from(p.channel))?;
    put_part(text, " SID ", u64::from(p.cip.sid))?;
    put_part(text, " DBC ", u64::from(p.cip.dbc))
}

// Appends whether a packet has a block.
#[tactic(auto, unfolding(crate::specs::Lines::block_word))]
fn put_presence(text: &mut Vec<u8>, has: bool) -> Result<(), AllocError>
    ensures { OnOk result (text.new.items ≡ text.old.items ++ block_word has) }
{
    put_word(text, if has { " block" } else { " empty" })
}

/// Appends an isochronous packet as a line tells it after its cycle. An error says that memory ran out, and comes for nothing else.
#[tactic(auto, unfolding(crate::specs::Lines::iso_text))]
pub fn put_iso(text: &mut Vec<u8>, pairs: &Pairs, p: &IsoPacket) -> Result<(), AllocError>
    ensures { OnOk result (text.new.items ≡ text.old.items ++ iso_text p.now) }
{
    put_stream(text, p)?;
    put_word(text, " ")?;
    put_format(text, pairs, format_name(&p.cip), &p.cip)?;
    put_presence(text, p.block.is_some())
}

#[tactic(auto, unfolding(crate::specs::Lines::device_text))]
fn put_device(text: &mut Vec<u8>, device: u8) -> Result<(), AllocError>
    ensures { OnOk result (text.new.items ≡ text.old.items ++ device_text device) }
{
    if device == NO_DEVICE {
        return Ok(());
    }
    put_part(text, " device ", u64::from(device))
}

/// Appends what an event says, if it says anything. An error says that memory ran out, and comes for nothing else.
#[tactic(auto, unfolding(crate::specs::Lines::saying_text))]
pub fn put_saying(text: &mut Vec<u8>, saying: Option<&str>) -> Result<(), AllocError>
    ensures { OnOk result (text.new.items ≡ text.old.items ++ saying_text (option_copied saying.entry)) }
{
    match saying {
        Some(saying) => put_word(text, saying),
        None => Ok(()),
    }
}

/// Appends the tape and the system that an event inserts, if it does. An error says that memory ran out, and comes for nothing else.
#[tactic(auto, unfolding(crate::specs::Lines::tape_text))]
pub fn put_tape(text: &mut Vec<u8>, e: &EventEntry) -> Result<(), AllocError>
    ensures { OnOk result (text.new.items ≡ text.old.items ++ tape_text e.now) }
{
    if !has_tape(e.code) {
        return Ok(());
    }
    put_part(text, " tape ", u64::from(e.tape))?;
    put_named_part(
        text,
        ", system ",
        system_name(e.system),
        "lines",
        u64::from(e.system),
    )
}

/// Appends an event as a line tells it after its cycle.
#[tactic(auto, unfolding(crate::specs::Lines::event_text))]
pub fn put_event(text: &mut Vec<u8>, e: &EventEntry) -> Result<(), AllocError>
    ensures { OnOk result (text.new.items ≡ text.old.items ++ event_text e.now) }
{
    put_named_part(
        text,
        "event ",
        event_name(e.code),
        "code",
        u64::from(e.code),
    )?;
    put_device(text, e.device)?;
    put_word(text, ": ")?;
    put_saying(text, event_saying(e.code))?;
    put_tape(text, e)
}

// Appends the response code that is an outcome's value.
#[tactic(auto, unfolding(crate::specs::Lines::rcode_text))]
fn put_answer(text: &mut Vec<u8>, value: u32) -> Result<(), AllocError>
    ensures { OnOk result (text.new.items ≡ text.old.items ++ (codes ", answer" ++ rcode_text value)) }
{
    put_word(text, ", answer")?;
    match u8::try_from(value) {
        Ok(rcode) => put_rcode(text, rcode),
        Err(_) => put_part(text, " rcode ", u64::from(value)),
    }
}

/// Appends the value of an outcome, by its code; nothing if that brings none. An error says that memory ran out, and comes for nothing else.
#[tactic(auto, unfolding(crate::specs::Lines::value_text))]
pub fn put_value(text: &mut Vec<u8>, pairs: &Pairs, code: u8, value: u32) -> Result<(), AllocError>
    ensures { OnOk result (text.new.items ≡ text.old.items ++ value_text code value) }
{
    let number = u64::from(value);
    match code {
        outcome::CONNECTED | outcome::RESTORED => put_part(text, ", channel ", number),
        outcome::NO_CHANNEL => put_word_part(text, pairs, ", CHANNELS_AVAILABLE", value),
        outcome::NO_UNITS => put_part(text, ", units left ", number),
        outcome::PLUG_FULL | outcome::INPUT_BUSY => {
            put_word_part(text, pairs, ", plug word", value)
        }
        outcome::NO_PLUG => put_answer(text, value),
        outcome::ABSENT => put_part(text, ", missing device ", number),
        outcome::RESET => put_part(text, ", epoch ", number),
        outcome::LATE => put_part(text, ", at cycle ", number),
        _ => Ok(()),
    }
}

// Appends the name of an outcome.
#[tactic(auto, unfolding(crate::specs::Lines::ended_text))]
fn put_ended(text: &mut Vec<u8>, code: u8) -> Result<(), AllocError>
    ensures { OnOk result (text.new.items ≡ text.old.items ++ ended_text code) }
{
    put_named_part(
        text,
        "outcome ",
        outcome_name(code),
        "code",
        u64::from(code),
    )
}

// Appends a device and a slot.
#[tactic(auto, unfolding(crate::specs::Lines::slot_text))]
fn put_slot(text: &mut Vec<u8>, device: u8, slot: u8) -> Result<(), AllocError>
    ensures { OnOk result (text.new.items ≡ text.old.items ++ slot_text device slot) }
{
    put_part(text, " device ", u64::from(device))?;
    put_part(text, " slot ", u64::from(slot))
}

/// Appends an outcome as a line tells it after its cycle.
#[tactic(auto, unfolding(crate::specs::Lines::outcome_text))]
pub fn put_outcome(text: &mut Vec<u8>, pairs: &Pairs, o: &OutcomeEntry) -> Result<(), AllocError>
    ensures { OnOk result (text.new.items ≡ text.old.items ++ outcome_text o.now) }
{
    put_ended(text, o.code)?;
    put_slot(text, o.device, o.slot)?;
    put_value(text, pairs, o.code, o.value)
}

// Appends the device that shows a word.
#[tactic(auto, unfolding(crate::specs::Lines::shown_device))]
fn put_shown_device(text: &mut Vec<u8>, device: u8) -> Result<(), AllocError>
    ensures { OnOk result (text.new.items ≡ text.old.items ++ shown_device device) }
{
    put_part(text, "shown device ", u64::from(device))
}

/// What stands where a word is shown.
pub fn shown_place(s: &ShownEntry) -> RegisterPlace
    ensures { result ≡ shown_place s.now }
{
    RegisterPlace::of(REGISTER_SPACE + u64::from(s.offset))
}

/// Appends a shown word as a line tells it after its cycle.
#[tactic(auto, unfolding(crate::specs::Lines::shown_text))]
pub fn put_shown(text: &mut Vec<u8>, s: &ShownEntry) -> Result<(), AllocError>
    ensures { OnOk result (text.new.items ≡ text.old.items ++ shown_text s.now) }
{
    let place = shown_place(s);
    put_shown_device(text, s.device)?;
    put_at(text, place)?;
    append_register_word(text, place, s.word)
}
