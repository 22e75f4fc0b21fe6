//! What the schedules of a place have in common, beside the machine.

ghost use Rattle.std.specs.Prelude.{◌≡◌, ◌<◌, ◌++◌, ℕ, [], List, IfOk, IsFalse, IsTrue, OnOk, length, slice_set, true};
ghost use Rattle.std.specs.List.{All};
ghost use Rattle.fw_log_entry.specs.Log.{entries_bytes, TimedFits};
ghost use Rattle.fw_log_entry.specs.declared.version.Version.TheVariants.{Two};
ghost use Rattle.fw_log_entry.specs.declared.entry.Timed.{Timed as TimedEntry};
ghost use Rattle.fw_explore_told.specs.Histories.{first_history, told_entries, with_one};

use crate::entries::told_in;
use fw_explore_movers::MOST_MOVERS;
use fw_kept_parts::{Part, mixed};
use fw_log_entry::{EventEntry, OutcomeEntry, ShownEntry, entry_size};
use std::alloc::{AllocError, Global};
use std::marker::Model;

/// What is told of: an event, an outcome or a shown word.
#[derive(Clone, Copy)]
pub enum ToldEntry {
    Event(EventEntry),
    Outcome(OutcomeEntry),
    Shown(ShownEntry),
}

/// The lines that were carried out, by the places of their movers, and what is told of, in the order in which it was written.
#[derive(Drop)]
pub struct Past {
    done: [bool; MOST_MOVERS],
    said: Vec<ToldEntry>,
    // Numbers by which most pasts differ: of the lines, and of what is told of. They only make a past found sooner.
    done_mark: u32,
    said_mark: u64,
}

impl Model for Past {
    ghost use Rattle.std.specs.Prelude.{◌≡◌, length};
    ghost use Rattle.fw_explore_told.specs.Histories.{History};

    ghost Value = { History };

    ghost view = { λ p. record { done = p.done; said = p.said.items } };

    ghost invariant = { λ p. length p.done ≡ 32 };
}

impl Past {
    /// No line was carried out yet, and nothing is told of.
    pub fn new(alloc: Global) -> Past
        ensures { result ≡ first_history }
    {
        Past {
            done: [false; MOST_MOVERS],
            said: Vec::new(alloc),
            done_mark: 0,
            said_mark: 0,
        }
    }

    /// Which lines were carried out, by the places of their movers.
    pub fn done(&self) -> &[bool; MOST_MOVERS]
        ensures value { result.now ≡ self.now.done }
        ensures size { length self.now.done ≡ 32 }
    {
        &self.done
    }

    /// What is told of.
    pub fn said(&self) -> &[ToldEntry]
        ensures { result.now ≡ self.now.said }
    {
        self.said.as_slice()
    }

    /// A copy. An error says that memory ran out.
    pub fn copied(&self, alloc: Global) -> Result<Past, AllocError>
        ensures { IfOk result (λ p. p ≡ self.now) }
    {
        let mut said = Vec::new(alloc);
        said.extend_from_slice(self.said.as_slice())?;
        Ok(Past {
            done: self.done,
            said,
            done_mark: self.done_mark,
            said_mark: self.said_mark,
        })
    }

    /// The line of a mover was carried out.
    pub fn mark(&mut self, mover: usize)
        requires { mover < 32 }
        ensures { self.new ≡ record self.old { done = slice_set self.old.done mover true } }
    {
        self.done[mover] = true;
        self.done_mark |= 1 << mover;
    }

    /// Entries were written, of version 2, whatever the epoch before them. An error says that memory ran out.
    pub fn tell(&mut self, bytes: &[u8]) -> Result<(), AllocError>
        ensures said { (epoch : ℕ) (out : List TimedEntry) → All TimedFits out → bytes.now ≡ entries_bytes Two epoch out
            → OnOk result (self.new.said ≡ self.old.said ++ told_entries out) }
        ensures done { self.new.done ≡ self.old.done }
    {
        tell_in(&mut self.said, bytes)?;
        self.said_mark = said_mark(self.said.as_slice());
        Ok(())
    }
}

// Adds what is told of an entry, if anything is.
fn add(said: &mut Vec<ToldEntry>, told: Option<ToldEntry>) -> Result<(), AllocError>
    ensures { OnOk result (said.new.items ≡ with_one said.old.items told) }
{
    match told {
        Some(told) => said.push(told)?,
        None => {}
    }
    Ok(())
}

// Adds what is told of entries of version 2.
fn tell_in(said: &mut Vec<ToldEntry>, bytes: &[u8]) -> Result<(), AllocError>
    ensures { (epoch : ℕ) (out : List TimedEntry) → All TimedFits out → bytes.now ≡ entries_bytes Two epoch out
        → OnOk result (said.new.items ≡ said.old.items ++ told_entries out) }
{
    let mut rest = bytes;
    while let Some(size) = entry_size(rest) {
        let (entry, later) = rest.split_at(size);
        add(said, told_in(entry))?;
        rest = later;
    }
    Ok(())
}

/// Whether anything is told of entries of version 2, whatever the epoch before them.
pub fn tells(bytes: &[u8]) -> bool
    ensures { (epoch : ℕ) (out : List TimedEntry) → All TimedFits out → bytes.now ≡ entries_bytes Two epoch out → IsFalse result → told_entries out ≡ [] }
{
    let mut rest = bytes;
    while let Some(size) = entry_size(rest) {
        let (entry, later) = rest.split_at(size);
        if told_in(entry).is_some() {
            return true;
        }
        rest = later;
    }
    false
}

// Those that are found the same are the same.
fn same_done(done: &[bool], other: &[bool]) -> bool
    ensures { IsTrue result → done.now ≡ other.now }
{
    done == other
}

fn same_event(event: EventEntry, other: EventEntry) -> bool
    ensures { IsTrue result → event ≡ other }
{
    if event.code != other.code || event.device != other.device {
        return false;
    }
    event.tape == other.tape && event.system == other.system
}

fn same_outcome(outcome: OutcomeEntry, other: OutcomeEntry) -> bool
    ensures { IsTrue result → outcome ≡ other }
{
    if outcome.code != other.code || outcome.device != other.device {
        return false;
    }
    outcome.slot == other.slot && outcome.value == other.value
}

fn same_shown(shown: ShownEntry, other: ShownEntry) -> bool
    ensures { IsTrue result → shown ≡ other }
{
    shown.device == other.device && shown.offset == other.offset && shown.word == other.word
}

fn same_told(told: ToldEntry, other: ToldEntry) -> bool
    ensures { IsTrue result → told ≡ other }
{
    match (told, other) {
        (ToldEntry::Event(event), ToldEntry::Event(event2)) => same_event(event, event2),
        (ToldEntry::Outcome(outcome), ToldEntry::Outcome(outcome2)) => same_outcome(
            outcome, outcome2,
        ),
        (ToldEntry::Shown(shown), ToldEntry::Shown(shown2)) => same_shown(shown, shown2),
        _ => false,
    }
}

fn same_said(said: &[ToldEntry], other: &[ToldEntry]) -> bool
    ensures { IsTrue result → said.now ≡ other.now }
{
    if said.len() != other.len() {
        return false;
    }
    for n in 0..said.len() {
        if !same_told(said[n], other[n]) {
            return false;
        }
    }
    true
}

impl Part for Past {
    type Whole = Past;

    ghost IsOf = { λ kept past. kept ≡ past };

    fn of(alloc: Global, past: &Past) -> Result<Past, AllocError> {
        past.copied(alloc)
    }

    fn is_of(&self, past: &Past) -> bool {
        if self.done_mark != past.done_mark || self.said_mark != past.said_mark {
            return false;
        }
        if !same_done(&self.done, &past.done) {
            return false;
        }
        same_said(self.said.as_slice(), past.said.as_slice())
    }

    fn mark(past: &Past) -> u64 {
        mixed(past.said_mark, past.done_mark)
    }
}

// A number by which most lists of what is told of differ.
fn said_mark(said: &[ToldEntry]) -> u64 {
    let mut mark: u64 = 0;
    for told in said {
        mark = mixed(mark, told_mark(*told));
    }
    mark
}

// A number by which most of what is told of differs.
fn told_mark(told: ToldEntry) -> u32 {
    match told {
        ToldEntry::Event(e) => u32::from_le_bytes([1, e.code, e.device, 0]),
        ToldEntry::Outcome(o) => u32::from_le_bytes([2, o.code, o.device, o.slot]) ^ o.value,
        ToldEntry::Shown(s) => u32::from_le_bytes([3, s.device, 0, 0]) ^ s.word,
    }
}
