//! How a job begins, when a restoring comes too late, and how a job ends.

ghost use Rattle.std.specs.Prelude.{◌≡◌, ◌≢◌, IsFalse, IsTrue};
ghost use Rattle.fw_cmp_jobs.specs.Fits.{JobFits, StageFits, FlowFits, SlotFits};
ghost use Rattle.fw_cmp_jobs.specs.Jobs.{outcome_for, made_outcome, outcome_of};
ghost use Rattle.fw_cmp_jobs.specs.Jobs.{own_flow, begin_making, begin_leaving, begin_breaking, begin, is_undecided, is_over, is_late, resumed};
ghost use Rattle.fw_cmp_jobs.specs.Slots.{job_for};
ghost use Rattle.fw_cmp_jobs.specs.declared.directory.Directory.{Directory as BusDirectory};
ghost use Rattle.std.specs.Prelude.{Some};

use crate::input::channel_or;
use crate::{Connection, Directory, Ending, Flow, Job, Outcome, Purpose, Slot, Stage};

/// The first stage of a break of a connection that stands: it leaves its input plug first, then its output plug.
fn begin_leaving(connection: Connection, flow: Flow) -> Stage
    requires { FlowFits flow }
    ensures value { result ≡ begin_leaving connection flow }
{
    match connection {
        Connection::PlugToPlug { .. } | Connection::BroadcastIn { .. } => {
            Stage::ReadInputToLeave(flow.channel, flow.units)
        }
        Connection::BroadcastOut { .. } => {
            Stage::ReadOutputToLeave(Ending::Broken, flow.channel, flow.units)
        }
    }
}

/// The first stage of a break: one of a connection that is gone ends without a request.
fn begin_breaking(slot: Slot) -> Stage
    requires { SlotFits slot }
    ensures value { result ≡ begin_breaking slot }
{
    match slot {
        Slot::Established(connection, flow) => begin_leaving(connection, flow),
        _ => Stage::Ended(Ending::Broken),
    }
}

/// How a decision that was heard, or made at the beginning, is written in this cycle.
fn outcome_for(now: u64, ending: Ending) -> Outcome
    ensures { result ≡ outcome_for now ending }
{
    match ending {
        Ending::Broken => Outcome::Broken,
        Ending::NoChannel(word) => Outcome::NoChannel(word),
        Ending::NoUnits(left) => Outcome::NoUnits(left),
        Ending::PlugFull(word) => Outcome::PlugFull(word),
        Ending::InputBusy(word) => Outcome::InputBusy(word),
        Ending::NoPlug(rcode) => Outcome::NoPlug(rcode),
        Ending::NoManager => Outcome::NoManager,
        Ending::Absent(device) => Outcome::Absent(device),
        Ending::Late => Outcome::Late(now),
    }
}

impl Slot {
    /// The reclaim second is over that runs from the bus reset at which the slot was to be restored.
    fn is_over(self) -> bool
        ensures { result ≡ is_over self }
    {
        match self {
            Slot::Restoring(_, _, over) => over,
            _ => false,
        }
    }
}

impl Job {
    /// The flow of a broadcast-in connection before its plug's word is known.
    fn own_flow(&self) -> Flow
        requires { JobFits self.now }
        ensures value { result ≡ own_flow self.now }
        ensures fits { FlowFits result }
    {
        Flow {
            channel: channel_or(self.asked, 63),
            overhead: self.overhead,
            units: match self.units {
                None => 0,
                Some(units) => units,
            },
        }
    }

    /// The first stage of a job that makes its connection.
    fn begin_making(&self, directory: &Directory) -> Stage
        requires { JobFits self.now }
        ensures value { result ≡ begin_making directory.now self.now }
        ensures fits { StageFits self.now result }
    {
        if let Some(device) = directory.absent_of(self.connection) {
            return Stage::Ended(Ending::Absent(device));
        }
        if self.connection.is_listen() {
            return Stage::ReadInput(self.own_flow());
        }
        match directory.manager {
            None => Stage::Ended(Ending::NoManager),
            Some(_) => Stage::ReadOutput,
        }
    }

    /// The first stage of the job; `slot` is its slot.
    fn begin(&self, directory: &Directory, slot: Slot) -> Stage
        requires job { JobFits self.now }
        requires slot { SlotFits slot }
        requires of_slot { job_for self.now.slot slot ≡ Some self.now }
        ensures value { result ≡ begin directory.now slot self.now }
        ensures fits { StageFits self.now result }
    {
        match self.purpose {
            Purpose::Make | Purpose::Restore => self.begin_making(directory),
            Purpose::Break => begin_breaking(slot),
        }
    }

    /// The job holds no channel and has no connection at a plug, and no answer has decided its outcome.
    fn is_undecided(&self, stage: &Stage) -> bool
        ensures { result ≡ is_undecided self.now stage.now }
    {
        match stage {
            Stage::Begin
            | Stage::ReadOutput
            | Stage::ReadChannels(..)
            | Stage::SwapChannels(..)
            | Stage::OverlayOutput(_) => true,
            Stage::ReadInput(_) | Stage::ConnectInput(..) => self.connection.is_listen(),
            _ => false,
        }
    }

    /// The job restores a connection whose slot's own second is over, and has come to nothing yet.
    fn is_late(&self, slot: &Slot, stage: &Stage) -> bool
        ensures { result ≡ is_late slot.now self.now stage.now }
    {
        self.restores() && slot.is_over() && self.is_undecided(stage)
    }

    /// Whether the job goes on from another stage than this one: it begins, or is late; `slot` is its slot.
    pub fn moves_on(&self, slot: &Slot, stage: &Stage) -> bool
        ensures stays { (d : BusDirectory) → IsFalse result → resumed d slot.now self.now stage.now ≡ stage.now }
        ensures moves { (d : BusDirectory) → IsTrue result → resumed d slot.now self.now stage.now ≢ stage.now }
    {
        match stage {
            Stage::Begin => true,
            _ => self.is_late(slot, stage),
        }
    }

    /// The stage from which the job goes on; `slot` is its slot.
    pub fn resumed(&self, directory: &Directory, slot: Slot, stage: Stage) -> Stage
        requires job { JobFits self.now }
        requires slot { SlotFits slot }
        requires of_slot { job_for self.now.slot slot ≡ Some self.now }
        requires stage { StageFits self.now stage }
        ensures value { result ≡ resumed directory.now slot self.now stage }
        ensures fits { StageFits self.now result }
    {
        if self.is_late(&slot, &stage) {
            return Stage::Ended(Ending::Late);
        }
        match stage {
            Stage::Begin => self.begin(directory, slot),
            _ => stage,
        }
    }

    /// The outcome of a connection that was made.
    pub fn made(&self, flow: Flow) -> Outcome
        ensures { result ≡ made_outcome self.now flow }
    {
        if self.restores() {
            Outcome::Restored(flow.channel)
        } else {
            Outcome::Connected(flow.channel)
        }
    }

    /// The outcome of a stage that makes no request.
    pub fn outcome(&self, now: u64, stage: Stage) -> Outcome
        ensures { result ≡ outcome_of now self.now stage }
    {
        match stage {
            Stage::Made(flow) => self.made(flow),
            Stage::Ended(ending) => outcome_for(now, ending),
            _ => Outcome::Broken,
        }
    }
}
