//! The tables of events and of outcomes, a row a code (own). Definitions look events and outcomes up in them too.

ghost use Rattle.std.specs.Prelude.{ℕ, ◌≡◌, ◌==◌, option_map};
ghost use Rattle.std.specs.List.{find};
ghost use Rattle.fw_log_entry.specs.declared.rows.EventForm.{EventForm};
ghost use Rattle.fw_log_entry.specs.declared.rows.OutcomeForm.{OutcomeForm};
ghost use Rattle.fw_log_entry.specs.Rows.{event_form, has_tape, may_have, outcome_form, may_bring};

use crate::codes::{NO_DEVICE, event, outcome};

/// What events of a code have beside it.
#[derive(Clone, Copy)]
pub enum EventForm {
    /// No device.
    OfBus,
    /// A device.
    OfDevice,
    /// A device, and the number and the system of a tape.
    OfTape,
}

/// The events of a log.
pub const EVENTS: [(u8, EventForm); 11] = [
    (event::SECOND_OVER, EventForm::OfBus),
    (event::DIED, EventForm::OfDevice),
    (event::STARTED, EventForm::OfDevice),
    (event::INSERTED, EventForm::OfTape),
    (event::EJECTED, EventForm::OfDevice),
    (event::UNSETTLED, EventForm::OfBus),
    (event::LOST, EventForm::OfDevice),
    (event::WITHHELD, EventForm::OfBus),
    (event::ELECTED, EventForm::OfDevice),
    (event::DEFEATED, EventForm::OfDevice),
    (event::DUBBING, EventForm::OfDevice),
];

/// What outcomes of a code bring.
#[derive(Clone, Copy)]
pub enum OutcomeForm {
    /// A value.
    Valued,
    /// No value.
    Bare,
}

/// The outcomes of a log.
pub const OUTCOMES: [(u8, OutcomeForm); 12] = [
    (outcome::CONNECTED, OutcomeForm::Valued),
    (outcome::BROKEN, OutcomeForm::Bare),
    (outcome::RESTORED, OutcomeForm::Valued),
    (outcome::NO_CHANNEL, OutcomeForm::Valued),
    (outcome::NO_UNITS, OutcomeForm::Valued),
    (outcome::PLUG_FULL, OutcomeForm::Valued),
    (outcome::INPUT_BUSY, OutcomeForm::Valued),
    (outcome::NO_PLUG, OutcomeForm::Valued),
    (outcome::NO_MANAGER, OutcomeForm::Bare),
    (outcome::ABSENT, OutcomeForm::Valued),
    (outcome::RESET, OutcomeForm::Valued),
    (outcome::LATE, OutcomeForm::Valued),
];

fn event_in(rows: &[(u8, EventForm)], code: u8) -> Option<EventForm>
    ensures { result ≡ option_map (λ (r : ℕ × EventForm). r.1) (find (λ (r : ℕ × EventForm). r.0 == code) rows.now) }
{
    rows.iter().find(|row| row.0 == code).map(|row| row.1)
}

/// What events of this code have, if a log may hold such.
pub fn event_form(code: u8) -> Option<EventForm>
    ensures { result ≡ event_form code }
{
    event_in(&EVENTS, code)
}

/// Events of this code have a tape.
pub fn has_tape(code: u8) -> bool
    ensures { result ≡ has_tape (event_form code) }
{
    match event_form(code) {
        Some(EventForm::OfTape) => true,
        Some(EventForm::OfBus | EventForm::OfDevice) => false,
        None => false,
    }
}

/// A log may hold an event of this code with this device.
pub fn may_have(code: u8, device: u8) -> bool
    ensures { result ≡ may_have (event_form code) device }
{
    match event_form(code) {
        Some(EventForm::OfBus) => device == NO_DEVICE,
        Some(EventForm::OfDevice | EventForm::OfTape) => true,
        None => false,
    }
}

fn outcome_in(rows: &[(u8, OutcomeForm)], code: u8) -> Option<OutcomeForm>
    ensures { result ≡ option_map (λ (r : ℕ × OutcomeForm). r.1) (find (λ (r : ℕ × OutcomeForm). r.0 == code) rows.now) }
{
    rows.iter().find(|row| row.0 == code).map(|row| row.1)
}

fn outcome_form(code: u8) -> Option<OutcomeForm>
    ensures { result ≡ outcome_form code }
{
    outcome_in(&OUTCOMES, code)
}

/// A log may hold an outcome of this code with this value.
pub fn may_bring(code: u8, value: u32) -> bool
    ensures { result ≡ may_bring (outcome_form code) value }
{
    match outcome_form(code) {
        Some(OutcomeForm::Valued) => true,
        Some(OutcomeForm::Bare) => value == 0,
        None => false,
    }
}
