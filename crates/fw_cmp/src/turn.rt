//! A controller's turn: which job it is at, and whether it sends the next request, ends or has nothing to do.

ghost use Rattle.std.specs.Prelude.{◌≡◌, ◌<◌, ◌↔◌, ℕ, IsTrue, IsFalse, IfSome, All, []};
ghost use Rattle.fw_cmp.specs.Controllers.{Fits, CurrentFits, IsHeard, IsStanding};
ghost use Rattle.fw_cmp_jobs.specs.Slots.{is_restoring};
ghost use Rattle.fw_cmp_jobs.specs.Fits.{SlotFits};
ghost use Rattle.fw_cmp_jobs.specs.declared.directory.Directory.{Directory as BusDirectory};
ghost use Rattle.fw_cmp.specs.Holdings.{CanGoOn, CurrentReached};
ghost use Rattle.fw_cmp.specs.Causes.{IsAtRest, IsHeldBack};
ghost use Rattle.fw_cmp.specs.Outcomes.{EndsWithCause};
ghost use Rattle.fw_cmp_jobs.specs.Nodes.{HasNodeNumbers};
ghost use Rattle.fw_cmp.specs.Turns.{addressee_in, slot_after, ended, rests, answer_of, after_answer, next, after_next, is_busy};
ghost use Rattle.fw_cmp.specs.Jobs.{picked, resumed_current, going};
ghost use Rattle.fw_cmp.specs.declared.current.Current.TheVariants.{Asking, Nothing};

use crate::agenda::Agenda;
use crate::ask::send;
use crate::order::{can_pick, pick};
use crate::work::ActiveJob;
use crate::{Current, Directory, Job, Next, Slot, Stage};

/// The current job goes on from its stage: it begins if it has not, and ends if it restores too late.
fn resume(directory: &Directory, slots: &[Slot; 32], current: Current) -> Current
    requires slots { All SlotFits slots.now }
    requires heard { IsHeard current }
    requires current { CurrentFits (record { slots = slots.now; waiting = []; current = current }) current }
    ensures value { result ≡ resumed_current (record { slots = slots.now; waiting = []; current = current }) directory.now current }
    ensures fits { CurrentFits (record { slots = slots.now; waiting = []; current = current }) result }
    ensures heard { IsHeard result }
{
    match current {
        Current::Asking(job, stage) => {
            let slot = slots[job.slot as usize];
            Current::Asking(job, job.resumed(directory, slot, stage))
        }
        other => other,
    }
}

impl Agenda {
    /// What the controller does next in this cycle, if it hears. The directory is that of each call since the latest bus reset.
    pub fn next(&mut self, now: u64, directory: &Directory) -> Next
        requires heard { IsHeard self.old.current }
        requires nodes { HasNodeNumbers directory.now }
        requires reached { CanGoOn directory.now self.old }
        ensures answer { result ≡ next now directory.now self.old }
        ensures state { self.new ≡ after_next now directory.now self.old }
        ensures fits { Fits self.new }
        ensures goes_on { CanGoOn directory.now self.new }

        ensures idle { (result ≡ Next.Idle) ↔ IsAtRest self.old }
        ensures waiting { (until : ℕ) → (result ≡ Next.Waiting until) ↔ (IsHeldBack now directory.now self.old × (until ≡ directory.now.over_at)) }
        ensures ended { EndsWithCause now directory.now self.old result }
        ensures addressee { IfSome (addressee_in result) (λ to. to < 63) }
    {
        self.take(now, directory);
        self.go_on(directory);
        self.answer(now, directory)
    }

    /// Whether a request is outstanding, whose reply is still to be heard.
    pub fn has_request(&self) -> bool
        ensures standing { IsTrue result ↔ IsStanding self.now.current }
        ensures heard { IsFalse result ↔ IsHeard self.now.current }
    {
        self.current.stands()
    }

    /// Whether the controller has something to do: a request is outstanding, or `next` would be neither Idle nor Waiting.
    pub fn busy(&self, now: u64, directory: &Directory) -> bool
        ensures heard { IsHeard self.now.current → result ≡ is_busy (next now directory.now self.now) }
        ensures standing { IsStanding self.now.current → IsTrue result }
    {
        match self.current.get() {
            Current::Nothing => can_pick(
                now,
                directory,
                &self.slots,
                self.none_restores,
                &self.waiting,
            ),
            _ => true,
        }
    }

    /// A job is current, whose request does not stand.
    pub(crate) fn has_job(&self) -> bool
        requires heard { IsHeard self.now.current }
        ensures none { IsFalse result → self.now.current ≡ Nothing }
        ensures some { (now : ℕ) → (d : BusDirectory) → IsTrue result → picked now d self.now ≡ self.now }
        ensures fits { Fits self.now }
    {
        match self.current.unasked() {
            Current::Nothing => false,
            Current::Asking(..) | Current::Hearing(..) | Current::Overtaken(..) => true,
        }
    }

    /// The next job becomes current, if none is.
    fn take(&mut self, now: u64, directory: &Directory)
        requires heard { IsHeard self.old.current }
        ensures state { self.new ≡ picked now directory.now self.old }
        ensures before { Fits self.old }
        ensures fits { Fits self.new }
        ensures heard { IsHeard self.new.current }
    {
        if self.has_job() {
            return;
        }
        let current = pick(
            now,
            directory,
            &self.slots,
            &mut self.none_restores,
            &mut self.waiting,
        );
        self.current = ActiveJob::new(current);
    }

    /// The current job goes on from another stage than that at which it stands: it begins, or restores too late.
    pub(crate) fn turns(&self) -> bool
        requires heard { IsHeard self.now.current }
        ensures stays { (d : BusDirectory) → IsFalse result → going d self.now ≡ self.now }
        ensures fits { Fits self.now }
    {
        match self.current.unasked() {
            Current::Asking(job, stage) => job.moves_on(&self.slots[job.slot as usize], stage),
            Current::Nothing | Current::Hearing(..) | Current::Overtaken(..) => false,
        }
    }

    /// The current job goes on from its stage.
    fn go_on(&mut self, directory: &Directory)
        requires heard { IsHeard self.old.current }
        ensures state { self.new ≡ going directory.now self.old }
        ensures fits { Fits self.new }
        ensures heard { IsHeard self.new.current }
    {
        if !self.turns() {
            return;
        }
        let current = resume(directory, &self.slots, *self.current.unasked());
        self.current = ActiveJob::new(current);
    }

    /// The request of the current job, or its outcome.
    fn answer(&mut self, now: u64, directory: &Directory) -> Next
        requires heard { IsHeard self.old.current }
        requires nodes { HasNodeNumbers directory.now }
        requires reached { CurrentReached directory.now self.old.current }
        ensures answer { result ≡ answer_of now directory.now self.old }
        ensures state { self.new ≡ after_answer self.old }
        ensures fits { Fits self.new }
        ensures addressee { IfSome (addressee_in result) (λ to. to < 63) }
    {
        match self.current.unasked() {
            Current::Nothing => self.rest(directory),
            Current::Asking(job, stage) => match job.target(stage) {
                Some(target) => {
                    let next = send(directory, job, stage, target);
                    self.current.ask();
                    next
                }
                None => {
                    let (job, stage) = (*job, *stage);
                    self.end(job, stage);
                    Next::End {
                        slot: job.slot,
                        outcome: job.outcome(now, stage),
                    }
                }
            },
            Current::Hearing(..) => Next::Idle,
            Current::Overtaken(slot, outcome) => {
                let end = Next::End {
                    slot: *slot,
                    outcome: *outcome,
                };
                self.current = ActiveJob::new(Current::Nothing);
                end
            }
        }
    }

    /// No job can be had.
    fn rest(&self, directory: &Directory) -> Next
        ensures { result ≡ rests directory.now self.now.waiting }
    {
        if self.waiting.is_empty() {
            Next::Idle
        } else {
            Next::Waiting {
                until: directory.over_at,
            }
        }
    }

    /// The current job ends at a stage that makes no request.
    fn end(&mut self, job: Job, stage: Stage)
        requires current { self.old.current ≡ Asking job stage }
        ensures state { self.new ≡ ended self.old job stage }
        ensures fits { Fits self.new }
    {
        self.slots[job.slot as usize] = self.slot_after(job, stage);
        self.current = ActiveJob::new(Current::Nothing);
    }

    /// What becomes of the slot of a job that ends.
    fn slot_after(&self, job: Job, stage: Stage) -> Slot
        ensures value { result ≡ slot_after self.now job stage }
        ensures rests { IsFalse (is_restoring result) }
    {
        match stage {
            Stage::Made(flow) => Slot::Established(job.connection, flow),
            _ => {
                if job.restores() && self.break_waits(job.slot) {
                    Slot::Gone(job.connection)
                } else {
                    Slot::Free
                }
            }
        }
    }
}
