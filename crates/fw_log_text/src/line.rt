//! What the line of an entry says after its cycle.

ghost use Rattle.std.specs.Prelude.{◌≡◌, ◌++◌, OnOk, codes, decimal, IsTrue};
ghost use Rattle.std.specs.Option.{is_some, option_copied};
ghost use Rattle.fw_async.specs.Async as Packets;
ghost use Rattle.fw_cip.specs.Iso.{data_length};
ghost use Rattle.fw_log_entry.specs.Log.{Fits, EventFits, OutcomeFits, ShownFits, body};
ghost use Rattle.fw_log_text.specs.Line.{packet_text, iso_text, name_text, device_text, tape_text, event_text, outcome_text, shown_text, what_text};

use crate::names::packet_name;
use crate::quadlets::{put_count, put_offset, put_quadlet, put_quadlets, put_small, put_word};
use crate::resets::put_reset;
use crate::tables::Tables;
use crate::text_room::TextRoom;
use fw_async::Packet;
use fw_cip::IsoPacket;
use fw_log_entry::codes::NO_DEVICE;
use fw_log_entry::{Entry, EventEntry, OutcomeEntry, ShownEntry, has_tape};
use fw_log_names::{event_name, outcome_name};
use std::alloc::AllocError;

// The quadlets of a packet are those of its entry's body.
fn put_packet(
    text: &mut TextRoom,
    tables: &Tables,
    p: &Packet,
    bytes: &[u8],
) -> Result<(), AllocError>
    requires { bytes.now ≡ Packets.spelling p.now }
    ensures { OnOk result (text.new ≡ text.old ++ packet_text p.now) }
{
    put_word(text, "async ")?;
    put_word(text, packet_name(p))?;
    put_quadlets(text, &tables.pairs, bytes)
}

// Appends a space and a number.
fn put_part(text: &mut TextRoom, tables: &Tables, n: u64) -> Result<(), AllocError>
    ensures { OnOk result (text.new ≡ text.old ++ codes " " ++ decimal n) }
{
    put_count(text, &tables.numbers, " ", n)
}

// Appends the length of a packet after its isochronous header, between two spaces.
fn put_length(text: &mut TextRoom, p: &IsoPacket) -> Result<(), AllocError>
    ensures { OnOk result (text.new ≡ text.old ++ (codes " " ++ decimal (data_length p.now.block) ++ codes " ")) }
{
    match &p.block {
        Some(_) => put_word(text, " 488 "),
        None => put_word(text, " 8 "),
    }
}

pub(crate) fn put_iso(text: &mut TextRoom, tables: &Tables, p: &IsoPacket) -> Result<(), AllocError>
    ensures { OnOk result (text.new ≡ text.old ++ iso_text p.now) }
{
    put_word(text, "iso ")?;
    put_small(text, &tables.numbers, p.channel)?;
    put_length(text, p)?;
    put_small(text, &tables.numbers, p.cip.dbc)
}

// Appends the name that a table has.
fn put_name(text: &mut TextRoom, name: Option<&str>) -> Result<(), AllocError>
    requires { IsTrue (is_some (option_copied name)) }
    ensures { OnOk result (text.new ≡ text.old ++ name_text (option_copied name.entry)) }
{
    match name {
        Some(name) => put_word(text, name),
        None => unreachable!(),
    }
}

fn put_device(text: &mut TextRoom, tables: &Tables, device: u8) -> Result<(), AllocError>
    ensures { OnOk result (text.new ≡ text.old ++ device_text device) }
{
    if device == NO_DEVICE {
        return Ok(());
    }
    put_part(text, tables, u64::from(device))
}

fn put_tape(text: &mut TextRoom, tables: &Tables, e: &EventEntry) -> Result<(), AllocError>
    ensures { OnOk result (text.new ≡ text.old ++ tape_text e.now) }
{
    if !has_tape(e.code) {
        return Ok(());
    }
    put_part(text, tables, u64::from(e.tape))?;
    put_part(text, tables, u64::from(e.system))
}

fn put_event(text: &mut TextRoom, tables: &Tables, e: &EventEntry) -> Result<(), AllocError>
    requires { EventFits e.now }
    ensures { OnOk result (text.new ≡ text.old ++ event_text e.now) }
{
    put_word(text, "event ")?;
    put_name(text, event_name(e.code))?;
    put_device(text, tables, e.device)?;
    put_tape(text, tables, e)
}

fn put_outcome(text: &mut TextRoom, tables: &Tables, o: &OutcomeEntry) -> Result<(), AllocError>
    requires { OutcomeFits o.now }
    ensures { OnOk result (text.new ≡ text.old ++ outcome_text o.now) }
{
    put_word(text, "outcome ")?;
    put_name(text, outcome_name(o.code))?;
    put_part(text, tables, u64::from(o.device))?;
    put_part(text, tables, u64::from(o.slot))?;
    put_quadlet(text, &tables.pairs, o.value)
}

fn put_shown(text: &mut TextRoom, tables: &Tables, s: &ShownEntry) -> Result<(), AllocError>
    requires { ShownFits s.now }
    ensures { OnOk result (text.new ≡ text.old ++ shown_text s.now) }
{
    put_count(text, &tables.numbers, "shown ", u64::from(s.device))?;
    put_offset(text, &tables.pairs, s.offset)?;
    put_quadlet(text, &tables.pairs, s.word)
}

// Appends what is recorded; the bytes are the entry's body.
pub(crate) fn put_what(
    text: &mut TextRoom,
    tables: &Tables,
    what: &Entry,
    bytes: &[u8],
) -> Result<(), AllocError>
    requires fits { Fits what.now }
    requires bytes { bytes.now ≡ body what.now }
    ensures { OnOk result (text.new ≡ text.old ++ what_text what.now) }
{
    match what {
        Entry::Reset(reset) => put_reset(text, tables, reset.get(), bytes),
        Entry::Async(packet) => put_packet(text, tables, packet, bytes),
        Entry::Iso(packet) => put_iso(text, tables, packet),
        Entry::Event(event) => put_event(text, tables, event),
        Entry::Outcome(outcome) => put_outcome(text, tables, outcome),
        Entry::Shown(shown) => put_shown(text, tables, shown),
        Entry::End => put_word(text, "end"),
    }
}
