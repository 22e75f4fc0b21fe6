//! What is told of, as text.

ghost use Rattle.std.specs.Prelude.{◌≡◌, ◌≤◌, ◌<◌, ◌==◌, ◌++◌, ◌∷◌, [], ℕ, false, OnOk, length};
ghost use Rattle.std.specs.List.{All};
ghost use Rattle.fw_log_explain.specs.Lines.{what_text};
ghost use Rattle.fw_explore_told.specs.Telling.{is_of_bid, is_of_candidate, is_of_controller, remark};
ghost use Rattle.fw_explore_told.specs.Sayings.{IsNotOf, entry_of, said_text, said_by, said_all, test_of, unmarked_by, unmarked_from};

use crate::past::ToldEntry;
use fw_explore_movers::{MOST_MOVERS, Mover, MoverKind};
use fw_log_entry::codes::{NO_DEVICE, event};
use fw_log_explain::{put_event, put_outcome, put_shown};
use fw_log_names::Pairs;
use std::alloc::AllocError;

/// Most lines of what is told of take fewer bytes.
const LINE_ROOM: usize = 64;

/// Of whom it is told.
#[derive(Clone, Copy)]
pub(crate) enum Whose {
    /// The controller of a device; of `NO_DEVICE`, the events that have no device.
    Controller(u8),
    /// The candidate of a device.
    Candidate(u8),
    /// Of no device: the words that were shown.
    Nobody,
}

// How a candidate contended.
fn is_of_bid(code: u8) -> bool
    ensures { result ≡ is_of_bid code }
{
    code == event::ELECTED || code == event::DEFEATED
}

impl Whose {
    // Whether it is told of them.
    fn has(self, told: &ToldEntry) -> bool
        ensures { result ≡ test_of self (entry_of told.now) }
    {
        match (self, told) {
            (Whose::Controller(device), ToldEntry::Event(e)) => !is_of_bid(e.code)
                && e.device == device,
            (Whose::Controller(device), ToldEntry::Outcome(o)) => o.device == device,
            (Whose::Candidate(device), ToldEntry::Event(e)) => is_of_bid(e.code)
                && e.device == device,
            (Whose::Nobody, ToldEntry::Shown(_)) => true,
            _ => false,
        }
    }
}

/// Appends a text as a line that a script skips. An error says that memory ran out.
pub fn put_remark(out: &mut Vec<u8>, prefix: &str, text: &[u8]) -> Result<(), AllocError>
    ensures { OnOk result (out.new.items ≡ out.old.items ++ remark (prefix.now ++ text.now)) }
{
    out.extend_from_slice(b"# ")?;
    out.extend_from_slice(prefix.as_bytes())?;
    out.extend_from_slice(text)?;
    out.extend_from_slice(b"\n")
}

// Appends what is told of, as a line has it after its cycle.
#[tactic(auto, unfolding(fw_log_explain::specs::Lines::what_text))]
fn put_what(text: &mut Vec<u8>, pairs: &Pairs, told: &ToldEntry) -> Result<(), AllocError>
    ensures { OnOk result (text.new.items ≡ text.old.items ++ what_text [] (entry_of told.now)) }
{
    match told {
        ToldEntry::Event(event) => put_event(text, event),
        ToldEntry::Outcome(outcome) => put_outcome(text, pairs, outcome),
        ToldEntry::Shown(shown) => put_shown(text, shown),
    }
}

// Appends the line of what is told of.
fn put_told(out: &mut Vec<u8>, pairs: &Pairs, told: &ToldEntry) -> Result<(), AllocError>
    ensures { OnOk result (out.new.items ≡ out.old.items ++ said_text told.now) }
{
    out.extend_from_slice(b"# ")?;
    put_what(out, pairs, told)?;
    out.extend_from_slice(b"\n")
}

// Appends its line, if it is told of them.
#[tactic(auto, using(crate::proofs::SayingLaws::one_told, crate::proofs::SayingLaws::none_told))]
fn put_if(
    out: &mut Vec<u8>,
    pairs: &Pairs,
    told: &ToldEntry,
    whose: Whose,
) -> Result<(), AllocError>
    ensures { OnOk result (out.new.items ≡ out.old.items ++ said_by (test_of whose) (told.now ∷ [])) }
{
    if whose.has(told) {
        return put_told(out, pairs, told);
    }
    Ok(())
}

// Appends the lines of what is told of them.
fn put_whose(
    out: &mut Vec<u8>,
    pairs: &Pairs,
    said: &[ToldEntry],
    whose: Whose,
) -> Result<(), AllocError>
    ensures { OnOk result (out.new.items ≡ out.old.items ++ said_by (test_of whose) said.now) }
{
    for told in said {
        put_if(out, pairs, told, whose)?;
    }
    Ok(())
}

// Appends the lines of what is told of a device: of its controller, then of its candidate.
fn put_device(
    out: &mut Vec<u8>,
    pairs: &Pairs,
    said: &[ToldEntry],
    device: u8,
) -> Result<(), AllocError>
    ensures { OnOk result (out.new.items ≡ out.old.items ++ (said_by (is_of_controller device) said.now ++ said_by (is_of_candidate device) said.now)) }
{
    put_whose(out, pairs, said, Whose::Controller(device))?;
    put_whose(out, pairs, said, Whose::Candidate(device))
}

// One more than a device's number, and 0 for what is no device.
fn after_device(device: u8) -> u8
    ensures few { result ≤ 63 }
    ensures others { (d : ℕ) → result ≤ d → d < 63 → (device == d) ≡ false }
{
    if device < 63 { device + 1 } else { 0 }
}

// One more than the number of the device of which it is told, and 0 if it is told of none.
fn after_told(told: &ToldEntry) -> u8
    ensures few { result ≤ 63 }
    ensures others { (d : ℕ) → result ≤ d → d < 63 → IsNotOf d told.now }
{
    match told {
        ToldEntry::Event(e) => after_device(e.device),
        ToldEntry::Outcome(o) => after_device(o.device),
        ToldEntry::Shown(_) => 0,
    }
}

// From this device on nothing is told of any.
fn end_of(said: &[ToldEntry]) -> u8
    ensures few { result ≤ 63 }
    ensures others { (d : ℕ) → result ≤ d → d < 63 → All (IsNotOf d) said.now }
{
    let mut end = 0;
    for told in said {
        let after = after_told(told);
        if end < after {
            end = after;
        }
    }
    end
}

/// Appends all that is told: by device, then without one, then what was shown. An error says that memory ran out.
pub fn put_said(out: &mut Vec<u8>, pairs: &Pairs, said: &[ToldEntry]) -> Result<(), AllocError>
    ensures { OnOk result (out.new.items ≡ out.old.items ++ said_all said.now) }
{
    out.reserve(said.len().saturating_mul(LINE_ROOM))?;
    for device in 0..end_of(said) {
        put_device(out, pairs, said, device)?;
    }
    put_whose(out, pairs, said, Whose::Controller(NO_DEVICE))?;
    put_whose(out, pairs, said, Whose::Nobody)
}

// Appends the line of a mover that is one, if it was not carried out.
fn put_unmarked(out: &mut Vec<u8>, mover: &Mover, done: bool) -> Result<(), AllocError>
    ensures { OnOk result (out.new.items ≡ out.old.items ++ unmarked_by done mover.now) }
{
    match mover.kind {
        MoverKind::HalfSteps => {}
        MoverKind::Once => {
            if !done {
                return put_remark(out, "not carried out: ", mover.line.as_slice());
            }
        }
    }
    Ok(())
}

/// Appends which movers that are lines were not carried out. An error says that memory ran out.
pub fn put_left(
    out: &mut Vec<u8>,
    movers: &[Mover],
    done: &[bool; MOST_MOVERS],
) -> Result<(), AllocError>
    requires { length movers.now ≤ 32 }
    ensures { OnOk result (out.new.items ≡ out.old.items ++ unmarked_from done.now 0 movers.now) }
{
    for at in 0..movers.len() {
        put_unmarked(out, &movers[at], done[at])?;
    }
    Ok(())
}
