ghost use Rattle.std.specs.Prelude.{◌≡◌};
ghost use Rattle.fw_cmp.specs.Controllers.{Fits, first_state, IsStanding, break_waits, slot_at};
ghost use Rattle.fw_cmp_jobs.specs.Fits.{SlotFits};
ghost use Rattle.fw_cmp.specs.Starts.{OkWithin, start, started, break_started, break_fault, can_break};
ghost use Rattle.fw_cmp_jobs.specs.Slots.{IsMaking};
ghost use Rattle.fw_cmp_jobs.specs.declared.directory.Directory.{Directory as BusDirectory};
ghost use Rattle.fw_cmp.specs.Holdings.{CanGoOn};
ghost use Rattle.fw_cmp.specs.Resets.{after_hear, after_reset, after_lost_reset, after_second};

use crate::overtaking::{overtake, overtake_unheard};
use crate::work::ActiveJob;
use crate::{Current, Slot, StartFault, WaitingJob};
use arrayvec::ArrayVec;
use fw_cmp_jobs::slots;
use fw_csr::Reply;
use std::marker::Model;

/// The slots of a controller, at most eight waiting jobs, and the current one.
#[derive(Drop)]
pub(crate) struct Agenda {
    pub(crate) slots: [Slot; 32],
    pub(crate) waiting: ArrayVec<WaitingJob, 8>,
    pub(crate) current: ActiveJob,
    /// No slot is to be restored: each was looked at, and none was, since the latest bus reset.
    pub(crate) none_restores: bool,
}

impl Model for Agenda {
    ghost use Rattle.fw_cmp.specs.Controllers.{ControllerState, Fits};
    ghost use Rattle.fw_cmp_jobs.specs.Known.{NoneToRestore};

    ghost Value = { ControllerState };

    ghost view = { λ c. record { slots = c.slots; waiting = c.waiting.items; current = c.current } };

    ghost invariant = { λ c. Fits (record { slots = c.slots; waiting = c.waiting.items; current = c.current }) × NoneToRestore c.none_restores c.slots };
}

impl Agenda {
    /// Free slots and no jobs.
    pub fn new() -> Agenda
        ensures state { result ≡ first_state }
        ensures fits { Fits result }
        ensures goes_on { (d : BusDirectory) → CanGoOn d result }
    {
        Agenda {
            slots: [Slot::Free; 32],
            waiting: ArrayVec::new(),
            current: ActiveJob::new(Current::Nothing),
            none_restores: false,
        }
    }

    /// The slot that a new connection would take, the lowest free one, or why it would be refused: `TableFull` before
    /// `Busy`. Whose plug it is of is not asked here.
    pub fn check_start(&self) -> Result<u8, StartFault>
        ensures answer { result ≡ start self.now }
        ensures within { OkWithin result }
    {
        let Some(free) = slots::first_free(&self.slots) else {
            return Err(StartFault::TableFull);
        };
        if self.waiting.is_full() {
            return Err(StartFault::Busy);
        }
        Ok(free)
    }

    /// A new connection takes this slot, which `check_start` found, and waits.
    pub fn place(&mut self, slot: u8, held: Slot)
        requires found { start self.old ≡ Ok slot }
        requires held { SlotFits held }
        requires making { IsMaking held }
        ensures state { self.new ≡ started (Ok slot) held self.old }
        ensures fits { Fits self.new }
        ensures goes_on { (d : BusDirectory) → CanGoOn d self.old → CanGoOn d self.new }
    {
        self.slots[slot as usize] = held;
        self.waiting.push(WaitingJob {
            slot,
            breaks: false,
        });
    }

    /// A break of the connection in this slot, in which `check_break` found no fault, waits.
    pub fn place_break(&mut self, slot: u8)
        requires { break_fault self.old slot ≡ None }
        ensures state { self.new ≡ break_started self.old slot }
        ensures fits { Fits self.new }
        ensures goes_on { (d : BusDirectory) → CanGoOn d self.old → CanGoOn d self.new }
    {
        self.waiting.push(WaitingJob { slot, breaks: true });
    }

    /// Why a break of the connection in this slot would be refused. None if it would not.
    pub fn check_break(&self, slot: u8) -> Option<StartFault>
        ensures { result ≡ break_fault self.now slot }
    {
        if !self.can_break(slot) {
            Some(StartFault::NoSuchConnection)
        } else if self.waiting.is_full() {
            Some(StartFault::Busy)
        } else {
            None
        }
    }

    /// The slot's connection stands or is to be restored, and no break of it waits or is current.
    fn can_break(&self, slot: u8) -> bool
        ensures { result ≡ can_break self.now slot }
    {
        let Some(held) = self.slots.get(slot as usize) else {
            return false;
        };
        held.is_breakable() && !(self.break_waits(slot) || self.current.breaks(slot))
    }

    /// What a slot holds; one beyond the 32 is free.
    pub fn slot(&self, slot: u8) -> Slot
        ensures { result ≡ slot_at self.now slot }
    {
        match self.slots.get(slot as usize) {
            Some(held) => *held,
            None => Slot::Free,
        }
    }

    /// A break of the slot waits.
    pub(crate) fn break_waits(&self, slot: u8) -> bool
        ensures { result ≡ break_waits self.now slot }
    {
        self.waiting.iter().any(|t| t.breaks && t.slot == slot)
    }

    /// Hears the reply to the outstanding request.
    pub fn hear(&mut self, r: &Reply)
        requires { IsStanding self.old.current }
        ensures state { self.new ≡ after_hear self.old r.now }
        ensures fits { Fits self.new }
        ensures goes_on { (d : BusDirectory) → CanGoOn d self.old → CanGoOn d self.new }
    {
        self.current.hear(r);
    }

    /// A bus reset that begins this epoch.
    pub fn reset(&mut self, epoch: u32)
        ensures state { self.new ≡ after_reset epoch self.old }
        ensures fits { Fits self.new }
        ensures goes_on { (d : BusDirectory) → CanGoOn d self.new }
    {
        self.none_restores = false;
        let current = overtake(epoch, &mut self.slots, self.current.get());
        self.current = ActiveJob::new(current);
        slots::reset(&mut self.slots);
    }

    /// A bus reset that begins this epoch, if the response to the request was lost: no answer has decided the current job.
    pub fn reset_unheard(&mut self, epoch: u32)
        ensures state { self.new ≡ after_lost_reset epoch self.old }
        ensures fits { Fits self.new }
        ensures goes_on { (d : BusDirectory) → CanGoOn d self.new }
    {
        self.none_restores = false;
        let current = overtake_unheard(epoch, &mut self.slots, self.current.get());
        self.current = ActiveJob::new(current);
        slots::reset(&mut self.slots);
    }

    /// The reclaim second is over: so is the own second of each slot that is to be restored.
    pub fn second_over(&mut self)
        ensures state { self.new ≡ after_second self.old }
        ensures fits { Fits self.new }
        ensures goes_on { (d : BusDirectory) → CanGoOn d self.old → CanGoOn d self.new }
    {
        self.none_restores = false;
        slots::second_over(&mut self.slots);
    }
}
