//! Leaving plugs, and giving back units and channels.

ghost use Rattle.std.specs.Prelude.{◌≡◌, ◌<◌, IsTrue};
ghost use Rattle.fw_cmp_jobs.specs.declared.job.Job.{Job as JobRecord};
ghost use Rattle.fw_cmp_jobs.specs.Connections.{kind_of};
ghost use Rattle.fw_cmp_jobs.specs.Plugs.{shows_connection};
ghost use Rattle.fw_cmp_jobs.specs.Decisions.{goes_on, give_back, leave_output, input_left, decide_leave_in, decide_leave_out, output_left, decide_raise};
ghost use Rattle.fw_cmp_jobs.specs.Fits.{StageFits, HeldFits, HasOutput, HasInput, FlowFits};

use crate::words::remainder;
use crate::{Connection, Ending, Flow, HeldResources, Job, Stage, Then};
use fw_plug::{OutWord, one_less, shows_connection};

/// What follows if nothing is left to give back.
pub(crate) fn goes_on(next: Then) -> Stage
    ensures value { result ≡ goes_on next }
    ensures fits { (j : JobRecord) → HasOutput j.connection → StageFits j result }
{
    match next {
        Then::EndsAs(ending) => Stage::Ended(ending),
        Then::Again => Stage::ReadOutput,
    }
}

/// The first stage of giving back what is held, or what follows if nothing is.
pub(crate) fn give_back(held: Option<HeldResources>, next: Then) -> Stage
    requires { HeldFits held }
    ensures value { result ≡ give_back held next }
    ensures fits { (j : JobRecord) → HasOutput j.connection → StageFits j result }
{
    match held {
        None => goes_on(next),
        Some(h) => {
            if h.units == 0 {
                Stage::ReadChannelsToRelease(next, h.channel)
            } else {
                Stage::ReadBandwidthToRelease(next, h.channel, h.units)
            }
        }
    }
}

/// How a job ends so that has its connection at the output plug, if it has one.
pub(crate) fn leave_output(connection: Connection, ending: Ending, flow: Flow) -> Stage
    requires { FlowFits flow }
    ensures value { result ≡ leave_output connection ending flow }
    ensures fits { (j : JobRecord) → j.connection ≡ connection → StageFits j result }
{
    if connection.is_listen() {
        Stage::Ended(ending)
    } else {
        Stage::ReadOutputToLeave(ending, flow.channel, flow.units)
    }
}

/// What a word of BANDWIDTH_AVAILABLE means for units that are given back: they are added if the sum stays
/// within the 4915 of the bus.
pub(crate) fn decide_raise(next: Then, channel: u8, units: u32, word: u32) -> Stage
    requires { channel < 64 }
    ensures value { result ≡ decide_raise next channel units word }
    ensures fits { (j : JobRecord) → HasOutput j.connection → StageFits j result }
{
    if u64::from(units) + u64::from(remainder(word)) <= 4915 {
        Stage::RaiseBandwidth(next, channel, units, word)
    } else {
        Stage::ReadChannelsToRelease(next, channel)
    }
}

impl Job {
    /// What follows if a break has left the input plug.
    pub(crate) fn input_left(&self, channel: u8, units: u32) -> Stage
        requires { channel < 64 }
        ensures value { result ≡ input_left self.now channel units }
        ensures fits { StageFits self.now result }
    {
        if self.connection.is_listen() {
            Stage::Ended(Ending::Broken)
        } else {
            Stage::ReadOutputToLeave(Ending::Broken, channel, units)
        }
    }

    /// What a word of the input plug means for a break.
    pub(crate) fn decide_leave_input(&self, channel: u8, units: u32, word: u32) -> Stage
        requires input { HasInput self.now.connection }
        requires channel { channel < 64 }
        ensures value { result ≡ decide_leave_in self.now channel units word }
        ensures fits { StageFits self.now result }
    {
        if shows_connection(self.connection.kind(), word) {
            Stage::LeaveInput(channel, units, word)
        } else {
            self.input_left(channel, units)
        }
    }

    /// What a word of the output plug means for a job that leaves it.
    pub(crate) fn decide_leave_output(
        &self,
        ending: Ending,
        channel: u8,
        units: u32,
        word: u32,
    ) -> Stage
        requires output { HasOutput self.now.connection }
        requires channel { channel < 64 }
        ensures value { result ≡ decide_leave_out self.now ending channel units word }
        ensures fits { StageFits self.now result }
    {
        if shows_connection(self.connection.kind(), word) {
            Stage::LeaveOutput(ending, channel, units, word)
        } else {
            Stage::Ended(ending)
        }
    }

    /// What follows when a connection was taken off this word of the output plug.
    pub(crate) fn output_left(&self, ending: Ending, channel: u8, units: u32, word: u32) -> Stage
        requires output { HasOutput self.now.connection }
        requires channel { channel < 64 }
        requires shown { IsTrue (shows_connection (kind_of self.now.connection) word) }
        ensures value { result ≡ output_left self.now ending channel units word }
        ensures fits { StageFits self.now result }
    {
        if OutWord(one_less(self.connection.kind(), word)).is_connected() {
            Stage::Ended(ending)
        } else {
            Stage::ReadBandwidthToRelease(Then::EndsAs(ending), channel, units)
        }
    }
}
