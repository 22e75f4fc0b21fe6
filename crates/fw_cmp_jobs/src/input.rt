//! What a word of the input plug's register means for a job that makes a connection there.

ghost use Rattle.std.specs.Prelude.{◌≡◌, ◌<◌};
ghost use Rattle.fw_cmp_jobs.specs.Decisions.{channel_or, listen_flow, decide_listen, decide_point_to_point, decide_in};
ghost use Rattle.fw_cmp_jobs.specs.Connections.{is_listen, is_point_to_point};
ghost use Rattle.fw_cmp_jobs.specs.Fits.{JobFits, AskedFits, StageFits, FlowFits, HasInput};
ghost use Rattle.std.specs.Prelude.{IsTrue};

use crate::release::leave_output;
use crate::{Ending, Flow, Job, Stage};
use fw_plug::InWord;

/// The channel that is asked for, or another if none is.
pub(crate) fn channel_or(asked: Option<u8>, other: u8) -> u8
    requires asked { AskedFits asked }
    requires other { other < 64 }
    ensures value { result ≡ channel_or asked other }
    ensures few { result < 64 }
{
    match asked {
        None => other,
        Some(channel) => channel,
    }
}

impl Job {
    /// The flow of a broadcast-in connection at an input plug with this word.
    fn listen_flow(&self, flow: Flow, word: u32) -> Flow
        requires job { JobFits self.now }
        requires flow { FlowFits flow }
        ensures value { result ≡ listen_flow self.now flow word }
        ensures fits { FlowFits result }
    {
        let plug = InWord(word);
        let channel = if plug.is_connected() {
            plug.channel()
        } else {
            channel_or(self.asked, 63)
        };
        Flow { channel, ..flow }
    }

    /// What the word means for a broadcast-in connection.
    fn decide_listen(&self, flow: Flow, word: u32) -> Stage
        requires job { JobFits self.now }
        requires listen { IsTrue (is_listen self.now.connection) }
        requires flow { FlowFits flow }
        ensures value { result ≡ decide_listen self.now flow word }
        ensures fits { StageFits self.now result }
    {
        if InWord(word).broadcast() {
            Stage::Ended(Ending::InputBusy(word))
        } else {
            Stage::ConnectInput(self.listen_flow(flow, word), word)
        }
    }

    /// What the word means for a point-to-point connection.
    fn decide_point_to_point(&self, flow: Flow, word: u32) -> Stage
        requires kind { IsTrue (is_point_to_point self.now.connection) }
        requires flow { FlowFits flow }
        ensures value { result ≡ decide_point_to_point self.now flow word }
        ensures fits { StageFits self.now result }
    {
        let plug = InWord(word);
        if plug.is_connected() && plug.channel() != flow.channel {
            leave_output(self.connection, Ending::InputBusy(word), flow)
        } else if plug.counter() == 63 {
            leave_output(self.connection, Ending::PlugFull(word), flow)
        } else {
            Stage::ConnectInput(flow, word)
        }
    }

    /// What a word of the input plug means.
    pub(crate) fn decide_input(&self, flow: Flow, word: u32) -> Stage
        requires job { JobFits self.now }
        requires input { HasInput self.now.connection }
        requires flow { FlowFits flow }
        ensures value { result ≡ decide_in self.now flow word }
        ensures fits { StageFits self.now result }
    {
        if self.connection.is_listen() {
            self.decide_listen(flow, word)
        } else {
            self.decide_point_to_point(flow, word)
        }
    }
}
