//! What a bus reset makes of the current job, and of its slot.

ghost use Rattle.std.specs.Prelude.{◌≡◌, List, []};
ghost use Rattle.fw_cmp.specs.declared.current.WaitingJob.{WaitingJob as TaskRecord};
ghost use Rattle.fw_cmp.specs.Controllers.{ControllerState, CurrentFits};
ghost use Rattle.fw_cmp_jobs.specs.Fits.{JobFits};
ghost use Rattle.fw_cmp.specs.Resets.{current_reset, lost_reset, interrupted};

use crate::{Current, Job, Outcome, Purpose, Slot, Stage};

/// What a bus reset makes of the current job, and of its slot.
pub(crate) fn overtake(epoch: u32, slots: &mut [Slot; 32], current: Current) -> Current
    requires { CurrentFits (record { slots = slots.old; waiting = []; current = current }) current }
    ensures current { (ts : List TaskRecord) → result ≡ (current_reset epoch (record { slots = slots.old; waiting = ts; current = current }) current).current }
    ensures slots { (ts : List TaskRecord) → slots.new ≡ (current_reset epoch (record { slots = slots.old; waiting = ts; current = current }) current).slots }
{
    match current {
        Current::Asking(job, stage) | Current::Hearing(job, stage) => match stage {
            Stage::Made(flow) => {
                slots[job.slot as usize] = Slot::Restoring(job.connection, flow, false);
                Current::Overtaken(job.slot, job.made(flow))
            }
            Stage::Ended(_) => {
                if let Purpose::Break = job.purpose {
                    slots[job.slot as usize] = Slot::Gone(job.connection);
                }
                current
            }
            _ => interrupt(epoch, slots, job),
        },
        Current::Nothing | Current::Overtaken(..) => current,
    }
}

/// What a bus reset makes of the current job, and of its slot, if the response to its request was lost.
pub(crate) fn overtake_unheard(epoch: u32, slots: &mut [Slot; 32], current: Current) -> Current
    requires { CurrentFits (record { slots = slots.old; waiting = []; current = current }) current }
    ensures current { (ts : List TaskRecord) → result ≡ (lost_reset epoch (record { slots = slots.old; waiting = ts; current = current }) current).current }
    ensures slots { (ts : List TaskRecord) → slots.new ≡ (lost_reset epoch (record { slots = slots.old; waiting = ts; current = current }) current).slots }
{
    match current {
        Current::Asking(job, _) | Current::Hearing(job, _) => interrupt(epoch, slots, job),
        Current::Nothing | Current::Overtaken(..) => current,
    }
}

/// What a bus reset makes of a job that no answer has decided: a restoring begins again.
fn interrupt(epoch: u32, slots: &mut [Slot; 32], job: Job) -> Current
    requires { JobFits job }
    ensures current { (c : ControllerState) → result ≡ (interrupted epoch c job).current }
    ensures slots { (c : ControllerState) → c.slots ≡ slots.old → slots.new ≡ (interrupted epoch c job).slots }
{
    match job.purpose {
        Purpose::Restore => Current::Asking(job, Stage::Begin),
        Purpose::Make | Purpose::Break => {
            slots[job.slot as usize] = Slot::Free;
            Current::Overtaken(job.slot, Outcome::Reset(epoch))
        }
    }
}
