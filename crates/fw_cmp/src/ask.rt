//! The request that a controller makes next, found at once.

ghost use Rattle.std.specs.Prelude.{◌≡◌, ◌<◌, ℕ, IsSome, IfNone, IfSome};
ghost use Rattle.fw_cmp.specs.Controllers.{Fits, IsHeard};
ghost use Rattle.fw_cmp_jobs.specs.Fits.{JobFits, StageFits, TargetFits};
ghost use Rattle.fw_cmp.specs.Holdings.{CanGoOn, CurrentReached};
ghost use Rattle.fw_cmp_jobs.specs.Nodes.{HasNodeNumbers};
ghost use Rattle.fw_cmp_jobs.specs.Requests.{access_at, addressee_of, swap_of};
ghost use Rattle.fw_cmp.specs.Turns.{addressee_in, sending, answer_of, after_answer, next, after_next};

use crate::agenda::Agenda;
use crate::{Current, Directory, Job, Next, Stage, Target};
use fw_csr::QuadletAccess;

/// The request of a stage, and the number of the node of its register. The register is looked up before the swap is put together, so
/// that each kind of register is told apart once.
#[inline(always)]
fn request(directory: &Directory, job: &Job, stage: &Stage, target: Target) -> (u8, QuadletAccess)
    requires job { JobFits job.now }
    requires fits { StageFits job.now stage.now }
    requires target { TargetFits target }
    requires nodes { HasNodeNumbers directory.now }
    requires reached { IsSome (addressee_of directory.now target) }
    ensures value { Next.Send result.0 result.1 ≡ sending (addressee_of directory.now target) (access_at (swap_of job.now stage.now) target) }
    ensures addressee { result.0 < 63 }
{
    let addressee = directory.addressee(target);
    let offset = target.offset();
    match addressee {
        Some(to) => (to, QuadletAccess::new(offset, job.swap(stage))),
        None => unreachable!(),
    }
}

/// The request of a stage goes to the node of its register.
#[inline(always)]
pub(crate) fn send(directory: &Directory, job: &Job, stage: &Stage, target: Target) -> Next
    requires job { JobFits job.now }
    requires fits { StageFits job.now stage.now }
    requires target { TargetFits target }
    requires nodes { HasNodeNumbers directory.now }
    requires reached { IsSome (addressee_of directory.now target) }
    ensures value { result ≡ sending (addressee_of directory.now target) (access_at (swap_of job.now stage.now) target) }
    ensures addressee { IfSome (addressee_in result) (λ to. to < 63) }
{
    let (to, request) = request(directory, job, stage, target);
    Next::Send { to, request }
}

impl Agenda {
    /// The request that goes out, and its node's number, if the current job makes one at the stage at which it stands: what `next`
    /// would do, found at once. None tells nothing, and then nothing changes.
    #[inline(always)]
    pub fn ask(&mut self, directory: &Directory) -> Option<(u8, QuadletAccess)>
        requires heard { IsHeard self.old.current }
        requires nodes { HasNodeNumbers directory.now }
        requires reached { CanGoOn directory.now self.old }
        ensures sends { IfSome result (λ asked. (now : ℕ) → next now directory.now self.old ≡ Next.Send asked.0 asked.1) }
        ensures state { IfSome result (λ asked. (now : ℕ) → self.new ≡ after_next now directory.now self.old) }
        ensures none { IfNone result (self.new ≡ self.old) }
        ensures fits { Fits self.new }
        ensures addressee { IfSome result (λ asked. asked.0 < 63) }
    {
        if !self.has_job() || self.turns() {
            return None;
        }
        self.ask_now(directory)
    }

    /// As `ask`, if a job is current and stays at its stage.
    #[inline(always)]
    fn ask_now(&mut self, directory: &Directory) -> Option<(u8, QuadletAccess)>
        requires heard { IsHeard self.old.current }
        requires nodes { HasNodeNumbers directory.now }
        requires reached { CurrentReached directory.now self.old.current }
        ensures sends { IfSome result (λ asked. (now : ℕ) → answer_of now directory.now self.old ≡ Next.Send asked.0 asked.1) }
        ensures state { IfSome result (λ asked. self.new ≡ after_answer self.old) }
        ensures none { IfNone result (self.new ≡ self.old) }
        ensures fits { Fits self.new }
        ensures addressee { IfSome result (λ asked. asked.0 < 63) }
    {
        match self.current.unasked() {
            Current::Asking(job, stage) => {
                let target = job.target(stage)?;
                let asked = request(directory, job, stage, target);
                self.current.ask();
                Some(asked)
            }
            Current::Nothing | Current::Hearing(..) | Current::Overtaken(..) => None,
        }
    }
}
