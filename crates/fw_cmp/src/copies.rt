//! A controller as a value: a copy of it, and whether two are the same.

ghost use Rattle.std.specs.Prelude.{◌≡◌, ◌≤◌, ◌+◌, IfOk, IsTrue, take};

use crate::agenda::Agenda;
use crate::controller::Controller;
use crate::marks::{slot_mark, work_mark};
use crate::work::ActiveJob;
use crate::{Connection, Current, Job, Outcome, Slot, Stage, WaitingJob};
use fw_kept_parts::{Part, mixed};
use fw_terms::PlugAt;
use std::alloc::{AllocError, Global};

// Two that are found the same are the same.
fn same_plug(plug: PlugAt, other: PlugAt) -> bool
    ensures { IsTrue result → plug ≡ other }
{
    plug.device == other.device && plug.plug == other.plug
}

fn same_connection(connection: Connection, other: Connection) -> bool
    ensures { IsTrue result → connection ≡ other }
{
    match (connection, other) {
        (
            Connection::PlugToPlug { output, input },
            Connection::PlugToPlug {
                output: output2,
                input: input2,
            },
        ) => {
            if !same_plug(output, output2) {
                return false;
            }
            same_plug(input, input2)
        }
        (Connection::BroadcastOut { output }, Connection::BroadcastOut { output: output2 }) =>
            same_plug(output, output2),
        (Connection::BroadcastIn { input }, Connection::BroadcastIn { input: input2 }) => {
            same_plug(input, input2)
        }
        _ => false,
    }
}

fn same_slot(slot: Slot, other: Slot) -> bool
    ensures { IsTrue result → slot ≡ other }
{
    match (slot, other) {
        (Slot::Free, Slot::Free) => true,
        (Slot::Making(made, asked, overhead), Slot::Making(made2, asked2, overhead2)) => {
            asked == asked2 && overhead == overhead2 && same_connection(made, made2)
        }
        (Slot::Established(made, flow), Slot::Established(made2, flow2)) => {
            flow == flow2 && same_connection(made, made2)
        }
        (Slot::Restoring(made, flow, over), Slot::Restoring(made2, flow2, over2)) => {
            flow == flow2 && over == over2 && same_connection(made, made2)
        }
        (Slot::Gone(made), Slot::Gone(made2)) => same_connection(made, made2),
        _ => false,
    }
}

// Both are free, and so the same.
fn are_free(slot: Slot, other: Slot) -> bool
    ensures { IsTrue result → slot ≡ other }
{
    slot.is_free() & other.is_free()
}

// Whether four slots of each are free.
fn none_used(slots: &[Slot; 32], others: &[Slot; 32], from: usize) -> bool
    requires { from + 4 ≤ 32 }
    ensures { IsTrue result → take from slots.now ≡ take from others.now → take (from + 4) slots.now ≡ take (from + 4) others.now }
{
    let mut free = true;
    for n in from..from + 4 {
        free &= are_free(slots[n], others[n]);
    }
    free
}

fn are_same(slots: &[Slot; 32], others: &[Slot; 32], from: usize) -> bool
    requires { from + 4 ≤ 32 }
    ensures { IsTrue result → take from slots.now ≡ take from others.now → take (from + 4) slots.now ≡ take (from + 4) others.now }
{
    for n in from..from + 4 {
        if !same_slot(slots[n], others[n]) {
            return false;
        }
    }
    true
}

// Most slots are free: those are looked at four at a time.
fn same_slots(slots: &[Slot; 32], others: &[Slot; 32]) -> bool
    ensures { IsTrue result → slots.now ≡ others.now }
{
    for group in 0..8 {
        let from = 4 * group;
        if !none_used(slots, others, from) && !are_same(slots, others, from) {
            return false;
        }
    }
    true
}

fn same_tasks(tasks: &[WaitingJob], others: &[WaitingJob]) -> bool
    ensures { IsTrue result → tasks.now ≡ others.now }
{
    tasks == others
}

fn same_job(job: &Job, other: &Job) -> bool
    ensures { IsTrue result → job.now ≡ other.now }
{
    if job.slot != other.slot || job.overhead != other.overhead {
        return false;
    }
    if job.purpose != other.purpose || !same_connection(job.connection, other.connection) {
        return false;
    }
    job.asked == other.asked && job.units == other.units
}

fn same_stage(stage: &Stage, other: &Stage) -> bool
    ensures { IsTrue result → stage.now ≡ other.now }
{
    stage == other
}

fn same_outcome(outcome: Outcome, other: Outcome) -> bool
    ensures { IsTrue result → outcome ≡ other }
{
    outcome == other
}

pub(crate) fn same_work(current: &Current, other: &Current) -> bool
    ensures { IsTrue result → current.now ≡ other.now }
{
    match (current, other) {
        (Current::Nothing, Current::Nothing) => true,
        (Current::Asking(job, stage), Current::Asking(job2, stage2)) => {
            same_stage(stage, stage2) && same_job(job, job2)
        }
        (Current::Hearing(job, stage), Current::Hearing(job2, stage2)) => {
            same_stage(stage, stage2) && same_job(job, job2)
        }
        (Current::Overtaken(slot, outcome), Current::Overtaken(slot2, outcome2)) => {
            slot == slot2 && same_outcome(*outcome, *outcome2)
        }
        _ => false,
    }
}

impl Agenda {
    fn copy_from(&mut self, other: &Agenda)
        ensures { self.new ≡ other.now }
    {
        self.slots = other.slots;
        self.waiting.clear();
        let _ = self.waiting.try_extend_from_slice(other.waiting.as_slice());
        self.current = ActiveJob::new(other.current.get());
        self.none_restores = other.none_restores;
    }

    fn is_same(&self, other: &Agenda) -> bool
        ensures { IsTrue result → self.now ≡ other.now }
    {
        if !self.current.is_same(&other.current) {
            return false;
        }
        if !same_tasks(self.waiting.as_slice(), other.waiting.as_slice()) {
            return false;
        }
        same_slots(&self.slots, &other.slots)
    }
}

impl Controller {
    /// Becomes a copy of another.
    pub fn copy_from(&mut self, other: &Controller)
        ensures { self.new ≡ other.now }
    {
        self.agenda.copy_from(&other.agenda);
        self.asked_at = other.asked_at;
        self.lost = other.lost;
    }

    /// Two controllers that are found the same are the same.
    pub fn is_same(&self, other: &Controller) -> bool
        ensures { IsTrue result → self.now ≡ other.now }
    {
        if self.asked_at != other.asked_at || self.lost != other.lost {
            return false;
        }
        self.agenda.is_same(&other.agenda)
    }
}

impl Part for Controller {
    type Whole = Controller;

    ghost IsOf = { λ kept controller. kept ≡ controller };

    fn of(_alloc: Global, controller: &Controller) -> Result<Controller, AllocError> {
        let mut copy = Controller::new();
        copy.copy_from(controller);
        Ok(copy)
    }

    fn is_of(&self, controller: &Controller) -> bool {
        self.is_same(controller)
    }

    fn mark(controller: &Controller) -> u64 {
        let agenda = &controller.agenda;
        let waiting = agenda.waiting.len() as u64;
        let first = mixed(
            controller.asked_at.wrapping_add(waiting),
            slot_mark(agenda.slots[0]),
        );
        mixed(first, work_mark(agenda.current.get()))
    }
}
