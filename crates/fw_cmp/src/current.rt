ghost use Rattle.std.specs.Prelude.{◌≡◌};
ghost use Rattle.fw_cmp.specs.Controllers.{break_runs};
ghost use Rattle.fw_cmp.specs.Resets.{heard};
ghost use Rattle.fw_cmp.specs.Works.{CurrentRuns, IsAsking, asked};

use crate::{Job, Outcome, Stage};
use fw_csr::Reply;

/// A job that was asked for and waits: its slot, and whether it breaks the slot's connection or makes it.
#[derive(Clone, Copy, Default, PartialEq, Eq)]
pub struct WaitingJob {
    pub slot: u8,
    pub breaks: bool,
}

/// What a controller is at.
#[derive(Clone, Copy)]
pub enum Current {
    /// No job is current.
    Nothing,
    /// The job makes the request of this stage next, or ends.
    Asking(Job, Stage),
    /// The request of this stage is outstanding.
    Hearing(Job, Stage),
    /// A bus reset has taken the job off its slot; the outcome is still to be written.
    Overtaken(u8, Outcome),
}

impl Current {
    /// A break of the slot is current.
    pub(crate) fn breaks(&self, slot: u8) -> bool
        ensures { result ≡ break_runs self.now slot }
    {
        match self {
            Current::Asking(job, _) | Current::Hearing(job, _) => job.breaks(slot),
            Current::Nothing | Current::Overtaken(..) => false,
        }
    }

    /// The job goes on from the reply to the request of its stage.
    #[inline(always)]
    pub(crate) fn hear(&mut self, r: &Reply)
        requires asking { IsAsking self.old }
        requires runs { CurrentRuns self.old }
        ensures state { self.new ≡ heard (asked self.old) r.now }
        ensures runs { CurrentRuns self.new }
    {
        if let Current::Asking(job, stage) = self {
            job.hear(stage, r);
        }
    }
}
