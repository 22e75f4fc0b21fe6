//! The order of jobs: connections to be restored, lowest slot first; then the first waiting break; then the first other waiting
//! job, if no reclaim second runs.

ghost use Rattle.std.specs.Prelude.{◌≡◌, ◌<◌, IfSome, length, slice_index_or, position, All};
ghost use Rattle.fw_cmp_jobs.specs.declared.connection.Slot.TheVariants.{Free};
ghost use Rattle.fw_cmp.specs.declared.current.Current.TheVariants.{Nothing};
ghost use Rattle.fw_cmp.specs.Controllers.{IsHeard};
ghost use Rattle.fw_cmp_jobs.specs.Known.{NoneToRestore};
ghost use Rattle.fw_cmp.specs.Jobs.{picked, can_pick, current_for, is_break};

use crate::{Current, Directory, Slot, Stage, WaitingJob};
use arrayvec::ArrayVec;
use fw_cmp_jobs::slots;

/// The place of the first waiting break.
fn first_break(waiting: &[WaitingJob]) -> Option<usize>
    ensures first { result ≡ position is_break waiting.now }
    ensures within { IfSome result (λ k. k < length waiting.now) }
{
    waiting.iter().position(|t| t.breaks)
}

/// The job for what a slot holds becomes the current one.
fn job_of(slots: &[Slot; 32], slot: u8) -> Current
    requires { slot < 32 }
    ensures current { result ≡ current_for slot (slice_index_or slots.now slot Free) }
    ensures heard { IsHeard result }
{
    match slots[slot as usize].job(slot) {
        Some(job) => Current::Asking(job, Stage::Begin),
        None => Current::Nothing,
    }
}

/// The next job, taken in the order of jobs: connections to be restored, lowest slot first; then the first waiting
/// break; then the first other waiting job, if no reclaim second runs.
pub(crate) fn pick(
    now: u64,
    directory: &Directory,
    slots: &[Slot; 32],
    none_restores: &mut bool,
    waiting: &mut ArrayVec<WaitingJob, 8>,
) -> Current
    requires none { NoneToRestore none_restores.old slots.now }
    requires slots { All (λ t. t.slot < 32) waiting.old.items }
    ensures current { result ≡ (picked now directory.now (record { slots = slots.now; waiting = waiting.old.items; current = Nothing })).current }
    ensures waiting { waiting.new.items ≡ (picked now directory.now (record { slots = slots.now; waiting = waiting.old.items; current = Nothing })).waiting }
    ensures heard { IsHeard result }
    ensures none { NoneToRestore none_restores.new slots.now }
{
    if let Some(slot) = slots::to_restore(slots, none_restores) {
        return job_of(slots, slot);
    }
    let place = match first_break(waiting) {
        Some(place) => place,
        None if waiting.is_empty() || now < directory.over_at => return Current::Nothing,
        None => 0,
    };
    let task = waiting.remove(place);
    job_of(slots, task.slot)
}

/// A job can be taken in this cycle.
pub(crate) fn can_pick(
    now: u64,
    directory: &Directory,
    slots: &[Slot; 32],
    none_restores: bool,
    waiting: &[WaitingJob],
) -> bool
    requires { NoneToRestore none_restores slots.now }
    ensures { result ≡ can_pick now directory.now slots.now waiting.now }
{
    slots::has_restoring(slots, none_restores)
        || first_break(waiting).is_some()
        || (!waiting.is_empty() && now >= directory.over_at)
}
