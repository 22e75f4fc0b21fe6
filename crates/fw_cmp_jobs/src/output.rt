//! What a word of the output plug's register means for a job that makes a connection there.

ghost use Rattle.std.specs.Prelude.{◌≡◌, ◌<◌, IsFalse, IsTrue, None};
ghost use Rattle.fw_plug.specs.Words.{is_connected};
ghost use Rattle.fw_cmp_jobs.specs.Connections.{kind_of};
ghost use Rattle.fw_cmp_jobs.specs.Plugs.{is_full};
ghost use Rattle.fw_cmp_jobs.specs.Decisions.{restores, is_other, is_lost, decide_free, decide_connected, decide_out, first_flow, overlaid_flow, output_joined};
ghost use Rattle.fw_cmp_jobs.specs.Fits.{JobFits, StageFits, HeldFits, HasOutput, FlowFits};
ghost use Rattle.fw_cmp_jobs.specs.declared.stage.Stage.TheVariants.{OverlayOutput};

use crate::release::give_back;
use crate::words::half_of;
use crate::{Ending, Flow, HeldResources, Job, Purpose, Stage, Then};
use fw_plug::{OutWord, is_full, units};

/// Whether a channel is another than the one that is asked for.
fn is_other(asked: Option<u8>, channel: u8) -> bool
    ensures { result ≡ is_other asked channel }
{
    match asked {
        None => false,
        Some(own) => own != channel,
    }
}

/// The flow of a connection that is overlaid on a plug with this word.
pub(crate) fn overlaid_flow(word: u32) -> Flow
    ensures value { result ≡ overlaid_flow word }
    ensures fits { FlowFits result }
{
    let plug = OutWord(word);
    Flow {
        channel: plug.channel(),
        overhead: plug.overhead(),
        units: units(plug),
    }
}

impl Job {
    /// Whether the job makes a connection again that stood before a bus reset.
    pub fn restores(&self) -> bool
        ensures { result ≡ restores self.now }
    {
        match self.purpose {
            Purpose::Restore => true,
            Purpose::Make | Purpose::Break => false,
        }
    }

    /// Whether the plug of this word is connected on another channel than the one to be restored.
    fn is_lost(&self, word: u32) -> bool
        ensures { result ≡ is_lost self.now word }
    {
        self.restores() && is_other(self.asked, OutWord(word).channel())
    }

    /// What follows if the plug has no connection.
    fn decide_free(&self, held: Option<HeldResources>, word: u32) -> Stage
        requires job { JobFits self.now }
        requires output { HasOutput self.now.connection }
        requires held { HeldFits held }
        requires free { IsFalse (is_connected word) }
        ensures value { result ≡ decide_free self.now held word }
        ensures fits { StageFits self.now result }
    {
        match held {
            None => match self.asked {
                None => Stage::ReadChannels(0, word),
                Some(channel) => Stage::ReadChannels(half_of(channel), word),
            },
            Some(h) => Stage::ConnectOutput(h.channel, h.units, word),
        }
    }

    /// What follows if the plug has a connection.
    fn decide_connected(&self, held: Option<HeldResources>, word: u32) -> Stage
        requires output { HasOutput self.now.connection }
        requires held { HeldFits held }
        requires connected { IsTrue (is_connected word) }
        requires room { IsFalse (is_full (kind_of self.now.connection) word) }
        ensures value { result ≡ decide_connected self.now held word }
        ensures fits { StageFits self.now result }
    {
        let lost = self.is_lost(word);
        match held {
            None => {
                if lost {
                    Stage::Ended(Ending::Late)
                } else {
                    Stage::OverlayOutput(word)
                }
            }
            Some(_) => give_back(
                held,
                if lost {
                    Then::EndsAs(Ending::Late)
                } else {
                    Then::Again
                },
            ),
        }
    }

    /// What a word of the output plug means.
    #[inline(always)]
    pub(crate) fn decide_output(&self, held: Option<HeldResources>, word: u32) -> Stage
        requires job { JobFits self.now }
        requires output { HasOutput self.now.connection }
        requires held { HeldFits held }
        ensures value { result ≡ decide_out self.now held word }
        ensures fits { StageFits self.now result }
    {
        if is_full(self.connection.kind(), word) {
            give_back(held, Then::EndsAs(Ending::PlugFull(word)))
        } else if OutWord(word).is_connected() {
            self.decide_connected(held, word)
        } else {
            self.decide_free(held, word)
        }
    }

    /// Whether a word of the output plug means that a connection is added to those that the plug has.
    #[inline(always)]
    pub(crate) fn overlays(&self, word: u32) -> bool
        ensures value { IsTrue result → decide_out self.now None word ≡ OverlayOutput word }
        ensures connected { IsTrue result → IsTrue (is_connected word) }
        ensures room { IsTrue result → IsFalse (is_full (kind_of self.now.connection) word) }
    {
        !is_full(self.connection.kind(), word)
            && OutWord(word).is_connected()
            && !self.is_lost(word)
    }

    /// The flow of a first connection on this channel.
    pub(crate) fn first_flow(&self, channel: u8, units: u32) -> Flow
        requires job { JobFits self.now }
        requires channel { channel < 64 }
        ensures value { result ≡ first_flow self.now channel units }
        ensures fits { FlowFits result }
    {
        Flow {
            channel,
            overhead: self.overhead,
            units,
        }
    }

    /// What follows if the connection stands at the output plug.
    pub(crate) fn output_joined(&self, flow: Flow) -> Stage
        requires flow { FlowFits flow }
        ensures value { result ≡ output_joined self.now flow }
        ensures fits { StageFits self.now result }
    {
        if self.connection.is_point_to_point() {
            Stage::ReadInput(flow)
        } else {
            Stage::Made(flow)
        }
    }
}
