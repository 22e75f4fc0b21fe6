//! What the words of the isochronous resource manager's registers mean for a job that allocates a channel and units.

ghost use Rattle.std.specs.Prelude.{◌≡◌, ◌<◌, IsFalse};
ghost use Rattle.fw_plug.specs.Words.{is_connected};
ghost use Rattle.fw_cmp_jobs.specs.Decisions.{decide_channel, decide_units, needs};
ghost use Rattle.fw_cmp_jobs.specs.Fits.{JobFits, StageFits, HasOutput, IsHalf, AskedWithin};

use crate::words::{first_free, remainder};
use crate::{Ending, Job, Stage, Then};
use fw_plug::{OutWord, units_with};
use fw_words::Quadlet;

impl Job {
    /// What a word of the CHANNELS_AVAILABLE register from `base` on means; `plug` is the plug's word.
    #[inline(always)]
    pub(crate) fn decide_channel(&self, base: u8, plug: u32, word: u32) -> Stage
        requires output { HasOutput self.now.connection }
        requires base { IsHalf base }
        requires asked { AskedWithin self.now.asked base }
        requires free { IsFalse (is_connected plug) }
        ensures value { result ≡ decide_channel self.now self.now.asked base plug word }
        ensures fits { StageFits self.now result }
    {
        match self.asked {
            Some(channel) => {
                let i = channel - base;
                if Quadlet(word).field(i, i) == 1 {
                    Stage::SwapChannels(channel, word, plug)
                } else if self.restores() {
                    Stage::ReadOutput
                } else {
                    Stage::Ended(Ending::NoChannel(word))
                }
            }
            None => match first_free(word) {
                Some(i) => Stage::SwapChannels(base + i, word, plug),
                None => {
                    if base == 0 {
                        Stage::ReadChannels(32, plug)
                    } else {
                        Stage::Ended(Ending::NoChannel(word))
                    }
                }
            },
        }
    }

    /// The units that the job takes at an output plug with this word.
    fn units_needed(&self, plug: u32) -> u32
        requires { JobFits self.now }
        ensures { result ≡ needs self.now plug }
    {
        match self.units {
            None => units_with(self.overhead, OutWord(plug)),
            Some(units) => units,
        }
    }

    /// What a word of BANDWIDTH_AVAILABLE means; `plug` is the plug's word.
    pub(crate) fn decide_units(&self, channel: u8, plug: u32, word: u32) -> Stage
        requires job { JobFits self.now }
        requires output { HasOutput self.now.connection }
        requires channel { channel < 64 }
        requires free { IsFalse (is_connected plug) }
        ensures value { result ≡ decide_units self.now channel plug word }
        ensures fits { StageFits self.now result }
    {
        let needed = self.units_needed(plug);
        let left = remainder(word);
        if needed <= left {
            Stage::SwapBandwidth(channel, needed, word, plug)
        } else {
            Stage::ReadChannelsToRelease(Then::EndsAs(Ending::NoUnits(left)), channel)
        }
    }
}
