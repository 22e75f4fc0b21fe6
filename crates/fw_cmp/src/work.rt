ghost use Rattle.std.specs.Prelude.{◌≡◌, ◌↔◌, IsTrue, IsFalse};
ghost use Rattle.fw_cmp.specs.Controllers.{IsHeard, IsStanding, break_runs};
ghost use Rattle.fw_cmp.specs.Resets.{heard};
ghost use Rattle.fw_cmp.specs.Works.{CurrentRuns, IsAsking, asked};

use crate::Current;
use crate::copies::same_work;
use fw_csr::Reply;
use std::marker::Model;

/// What a controller is at. A request that goes out changes a flag alone, and its answer the flag and the stage, so that the job
/// stays where it is kept.
#[derive(Drop)]
pub(crate) struct ActiveJob {
    /// What it is at, told as when no request is outstanding.
    current: Current,
    /// The request of the job's stage stands.
    stands: bool,
}

impl Model for ActiveJob {
    ghost use Rattle.fw_cmp.specs.declared.current.Current.{Current};
    ghost use Rattle.fw_cmp.specs.Works.{MayStand, shown};

    ghost Value = { Current };

    ghost view = { λ w. shown w.stands w.current };

    ghost invariant = { λ w. MayStand w.stands w.current };
}

impl ActiveJob {
    /// The controller is at this.
    pub fn new(current: Current) -> ActiveJob
        ensures { result ≡ current }
    {
        if let Current::Hearing(job, stage) = current {
            return ActiveJob {
                current: Current::Asking(job, stage),
                stands: true,
            };
        }
        ActiveJob {
            current,
            stands: false,
        }
    }

    /// What it is at.
    #[inline(always)]
    pub fn get(&self) -> Current
        ensures { result ≡ self.now }
    {
        if !self.stands {
            return self.current;
        }
        match self.current {
            Current::Asking(job, stage) => Current::Hearing(job, stage),
            other => other,
        }
    }

    /// Two that are found the same are the same.
    pub fn is_same(&self, other: &ActiveJob) -> bool
        ensures { IsTrue result → self.now ≡ other.now }
    {
        self.stands == other.stands && same_work(&self.current, &other.current)
    }

    /// Whether a request is outstanding.
    #[inline(always)]
    pub fn stands(&self) -> bool
        ensures standing { IsTrue result ↔ IsStanding self.now }
        ensures heard { IsFalse result ↔ IsHeard self.now }
    {
        self.stands
    }

    /// What it is at, if no request is outstanding.
    #[inline(always)]
    pub fn unasked(&self) -> &Current
        requires { IsHeard self.now }
        ensures { result.now ≡ self.now }
    {
        &self.current
    }

    /// A break of the slot is current.
    pub fn breaks(&self, slot: u8) -> bool
        ensures { result ≡ break_runs self.now slot }
    {
        self.current.breaks(slot)
    }

    /// The request of the job's stage goes out.
    #[inline(always)]
    pub fn ask(&mut self)
        requires { IsAsking self.old }
        ensures { self.new ≡ asked self.old }
    {
        self.stands = true;
    }

    /// Hears the reply to the outstanding request.
    #[inline(always)]
    pub fn hear(&mut self, r: &Reply)
        requires stands { IsStanding self.old }
        requires runs { CurrentRuns self.old }
        ensures state { self.new ≡ heard self.old r.now }
        ensures runs { CurrentRuns self.new }
    {
        self.current.hear(r);
        self.stands = false;
    }
}
