//! The entries of events, outcomes and shown words.

ghost use Rattle.std.specs.Prelude.{◌≡◌, ◌<◌, ◌^◌};
ghost use Rattle.fw_log_entry.specs.Log.{Fits};
ghost use Rattle.fw_model_run.specs.Entries as Entries;
ghost use Rattle.fw_model_run.specs.Entries.{coded};

use fw_cmp::Outcome;
use fw_log_entry::codes::{LINES_525, LINES_625, NO_DEVICE, event, outcome};
use fw_log_entry::{Entry, EventEntry, OutcomeEntry, ShownEntry};
use fw_tape::TapeSystem;

/// An event without a tape.
fn event_of(code: u8, device: u8) -> Entry<'static>
    ensures { result ≡ Entries.event_of code device }
{
    Entry::Event(EventEntry {
        code,
        device,
        tape: 0,
        system: 0,
    })
}

/// The second of the latest bus reset is over.
pub fn second_over() -> Entry<'static>
    ensures value { result ≡ Entries.second_over }
    ensures fits { Fits result }
{
    event_of(event::SECOND_OVER, NO_DEVICE)
}

/// After a `settle` a living controller has something to do, or waits for an answer.
pub fn unsettled() -> Entry<'static>
    ensures value { result ≡ Entries.unsettled }
    ensures fits { Fits result }
{
    event_of(event::UNSETTLED, NO_DEVICE)
}

/// The bus withholds channel 31.
pub fn withheld() -> Entry<'static>
    ensures value { result ≡ Entries.withheld }
    ensures fits { Fits result }
{
    event_of(event::WITHHELD, NO_DEVICE)
}

/// The controller of a device died.
pub fn died(device: u8) -> Entry<'static>
    requires { device < 63 }
    ensures value { result ≡ Entries.died device }
    ensures fits { Fits result }
{
    event_of(event::DIED, device)
}

/// The controller of a device started.
pub fn started(device: u8) -> Entry<'static>
    requires { device < 63 }
    ensures value { result ≡ Entries.started device }
    ensures fits { Fits result }
{
    event_of(event::STARTED, device)
}

/// The controller of a device has not heard the response to its request.
pub fn lost(device: u8) -> Entry<'static>
    requires { device < 63 }
    ensures value { result ≡ Entries.lost device }
    ensures fits { Fits result }
{
    event_of(event::LOST, device)
}

/// A tape was put into a deck or camcorder.
pub fn inserted(device: u8, tape: u16, system: TapeSystem) -> Entry<'static>
    requires { device < 63 }
    ensures value { result ≡ Entries.inserted device tape system }
    ensures fits { Fits result }
{
    Entry::Event(EventEntry {
        code: event::INSERTED,
        device,
        tape,
        system: lines_of(system),
    })
}

/// How many lines a picture of a television system has.
fn lines_of(system: TapeSystem) -> u16
    ensures { result ≡ Entries.lines_of system }
{
    match system {
        TapeSystem::Lines525 => LINES_525,
        TapeSystem::Lines625 => LINES_625,
    }
}

/// The tape was taken out of a deck or camcorder.
pub fn ejected(device: u8) -> Entry<'static>
    requires { device < 63 }
    ensures value { result ≡ Entries.ejected device }
    ensures fits { Fits result }
{
    event_of(event::EJECTED, device)
}

/// The candidate of a device is the bus manager.
pub fn elected(device: u8) -> Entry<'static>
    requires { device < 63 }
    ensures value { result ≡ Entries.elected device }
    ensures fits { Fits result }
{
    event_of(event::ELECTED, device)
}

/// The candidate of a device found another bus manager.
pub fn defeated(device: u8) -> Entry<'static>
    requires { device < 63 }
    ensures value { result ≡ Entries.defeated device }
    ensures fits { Fits result }
{
    event_of(event::DEFEATED, device)
}

/// The reel is empty, and has the recording of a deck from now on.
pub fn dubbing(device: u8) -> Entry<'static>
    requires { device < 63 }
    ensures value { result ≡ Entries.dubbing device }
    ensures fits { Fits result }
{
    event_of(event::DUBBING, device)
}

/// A register's word is shown.
pub fn shown_entry(device: u8, offset: u16, word: u32) -> Entry<'static>
    requires offset { offset < 2 ^ 12 }
    ensures value { result ≡ Entries.shown_entry device offset word }
    ensures fits { Fits result }
{
    Entry::Shown(ShownEntry {
        device,
        offset,
        word,
    })
}

/// How the job of a slot of a device's controller ended.
pub fn outcome_entry(device: u8, slot: u8, outcome: Outcome) -> Entry<'static>
    ensures { result ≡ Entries.outcome_entry device slot outcome }
{
    let (code, value) = coded(outcome);
    Entry::Outcome(OutcomeEntry {
        code,
        device,
        slot,
        value,
    })
}

/// The code and the value of an outcome; of a cycle the low 32 bits.
fn coded(outcome: Outcome) -> (u8, u32)
    ensures { result ≡ coded outcome }
{
    match outcome {
        Outcome::Connected(channel) => (outcome::CONNECTED, u32::from(channel)),
        Outcome::Broken => (outcome::BROKEN, 0),
        Outcome::Restored(channel) => (outcome::RESTORED, u32::from(channel)),
        Outcome::NoChannel(word) => (outcome::NO_CHANNEL, word),
        Outcome::NoUnits(remainder) => (outcome::NO_UNITS, remainder),
        Outcome::PlugFull(word) => (outcome::PLUG_FULL, word),
        Outcome::InputBusy(word) => (outcome::INPUT_BUSY, word),
        Outcome::NoPlug(rcode) => (outcome::NO_PLUG, u32::from(rcode)),
        Outcome::NoManager => (outcome::NO_MANAGER, 0),
        Outcome::Absent(device) => (outcome::ABSENT, u32::from(device)),
        Outcome::Reset(epoch) => (outcome::RESET, epoch),
        Outcome::Late(cycle) => (outcome::LATE, (cycle % (1 << 32)) as u32),
    }
}
