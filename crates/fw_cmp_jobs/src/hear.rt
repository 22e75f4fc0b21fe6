//! What follows the answer to a stage's request.

ghost use Rattle.std.specs.Prelude.{◌≡◌};
ghost use Rattle.fw_cmp_jobs.specs.Stages.{hear, refuse, hear_reply, IsTakingUnits, IsOverlaying, IsJoining, IsLeaving, IsReleasing};
ghost use Rattle.fw_cmp_jobs.specs.Fits.{JobFits, StageFits};
ghost use Rattle.fw_cmp_jobs.specs.declared.stage.Stage.TheVariants.{OverlayOutput};

use crate::output::overlaid_flow;
use crate::release::{decide_raise, goes_on, leave_output};
use crate::words::half_of;
use crate::{Ending, HeldResources, Job, Stage};
use fw_csr::Reply;

impl Job {
    /// The stage goes on to the one that follows an answer.
    // Inlined, as `heard`: each second half step hears, and the stage is then written in its place.
    #[inline(always)]
    pub fn hear(&self, stage: &mut Stage, r: &Reply)
        requires job { JobFits self.now }
        requires fits { StageFits self.now stage.old }
        ensures value { stage.new ≡ hear_reply self.now stage.old r.now }
        ensures fits { StageFits self.now stage.new }
    {
        if r.is_complete() {
            self.heard(stage, r.value);
        } else {
            *stage = self.refused(stage, r.rcode);
        }
    }

    /// The stage that follows an answer which is not complete.
    fn refused(&self, stage: &Stage, rcode: u8) -> Stage
        requires fits { StageFits self.now stage.now }
        ensures value { result ≡ refuse self.now stage.now rcode }
        ensures fits { StageFits self.now result }
    {
        match *stage {
            Stage::ReadInput(flow) => leave_output(self.connection, Ending::NoPlug(rcode), flow),
            _ => Stage::Ended(Ending::NoPlug(rcode)),
        }
    }

    /// The stage goes on to the one that follows a complete answer with this word. A swap has succeeded exactly if the word
    /// equals its argument.
    // Each arm writes its stage itself, so that none is copied, and rarer stages are told apart in functions of their own.
    #[inline(always)]
    fn heard(&self, stage: &mut Stage, word: u32)
        requires job { JobFits self.now }
        requires fits { StageFits self.now stage.old }
        ensures value { stage.new ≡ hear self.now stage.old word }
        ensures fits { StageFits self.now stage.new }
    {
        match *stage {
            Stage::ReadOutput => *stage = self.decide_output(None, word),
            Stage::ReadChannels(base, plug) => *stage = self.decide_channel(base, plug, word),
            Stage::SwapChannels(channel, arg, plug) => {
                if word == arg {
                    *stage = Stage::ReadBandwidth(channel, plug);
                } else {
                    *stage = self.decide_channel(half_of(channel), plug, word);
                }
            }
            Stage::ReadBandwidth(..) | Stage::SwapBandwidth(..) => self.heard_units(stage, word),
            Stage::OverlayOutput(_) => self.heard_overlay(stage, word),
            Stage::ConnectOutput(..) | Stage::ReadInput(_) | Stage::ConnectInput(..) => {
                self.heard_joining(stage, word)
            }
            Stage::ReadInputToLeave(..)
            | Stage::LeaveInput(..)
            | Stage::ReadOutputToLeave(..)
            | Stage::LeaveOutput(..) => self.heard_leaving(stage, word),
            Stage::ReadBandwidthToRelease(..)
            | Stage::RaiseBandwidth(..)
            | Stage::ReadChannelsToRelease(..)
            | Stage::RestoreChannel(..) => self.heard_releasing(stage, word),
            Stage::Begin | Stage::Made(_) | Stage::Ended(_) => {}
        }
    }

    /// As `heard`, of a stage that takes units; any other stage stays as it is.
    fn heard_units(&self, stage: &mut Stage, word: u32)
        requires job { JobFits self.now }
        requires fits { StageFits self.now stage.old }
        ensures value { IsTakingUnits stage.old → stage.new ≡ hear self.now stage.old word }
        ensures fits { StageFits self.now stage.new }
    {
        match *stage {
            Stage::ReadBandwidth(channel, plug) => {
                *stage = self.decide_units(channel, plug, word);
            }
            Stage::SwapBandwidth(channel, units, arg, plug) => {
                if word == arg {
                    *stage = Stage::ConnectOutput(channel, units, plug);
                } else {
                    *stage = self.decide_units(channel, plug, word);
                }
            }
            _ => {}
        }
    }

    /// As `heard`, of a stage that adds a connection to an output plug. Where several controllers do, the word has mostly changed and
    /// the next swap is made with it: then the word alone is written.
    fn heard_overlay(&self, stage: &mut Stage, word: u32)
        requires job { JobFits self.now }
        requires fits { StageFits self.now stage.old }
        ensures value { IsOverlaying stage.old → stage.new ≡ hear self.now stage.old word }
        ensures fits { StageFits self.now stage.new }
    {
        match stage {
            Stage::OverlayOutput(arg) => {
                if word != *arg && self.overlays(word) {
                    *arg = word;
                } else {
                    *stage = self.overlaid(*arg, word);
                }
            }
            _ => {}
        }
    }

    /// As `heard_overlay`, in each case.
    fn overlaid(&self, arg: u32, word: u32) -> Stage
        requires job { JobFits self.now }
        requires fits { StageFits self.now (OverlayOutput arg) }
        ensures value { result ≡ hear self.now (OverlayOutput arg) word }
        ensures fits { StageFits self.now result }
    {
        if word == arg {
            self.output_joined(overlaid_flow(arg))
        } else {
            self.decide_output(None, word)
        }
    }

    /// As `heard`, of a stage that joins plugs otherwise; any other stage stays as it is.
    fn heard_joining(&self, stage: &mut Stage, word: u32)
        requires job { JobFits self.now }
        requires fits { StageFits self.now stage.old }
        ensures value { IsJoining stage.old → stage.new ≡ hear self.now stage.old word }
        ensures fits { StageFits self.now stage.new }
    {
        match *stage {
            Stage::ConnectOutput(channel, units, arg) => {
                if word == arg {
                    *stage = self.output_joined(self.first_flow(channel, units));
                } else {
                    *stage = self.decide_output(Some(HeldResources { channel, units }), word);
                }
            }
            Stage::ReadInput(flow) => *stage = self.decide_input(flow, word),
            Stage::ConnectInput(flow, arg) => {
                if word == arg {
                    *stage = Stage::Made(flow);
                } else {
                    *stage = self.decide_input(flow, word);
                }
            }
            _ => {}
        }
    }

    /// As `heard`, of a stage that leaves plugs; any other stage stays as it is.
    fn heard_leaving(&self, stage: &mut Stage, word: u32)
        requires fits { StageFits self.now stage.old }
        ensures value { IsLeaving stage.old → stage.new ≡ hear self.now stage.old word }
        ensures fits { StageFits self.now stage.new }
    {
        match *stage {
            Stage::ReadInputToLeave(channel, units) => {
                *stage = self.decide_leave_input(channel, units, word);
            }
            Stage::LeaveInput(channel, units, arg) => {
                if word == arg {
                    *stage = self.input_left(channel, units);
                } else {
                    *stage = self.decide_leave_input(channel, units, word);
                }
            }
            Stage::ReadOutputToLeave(ending, channel, units) => {
                *stage = self.decide_leave_output(ending, channel, units, word);
            }
            Stage::LeaveOutput(ending, channel, units, arg) => {
                if word == arg {
                    *stage = self.output_left(ending, channel, units, arg);
                } else {
                    *stage = self.decide_leave_output(ending, channel, units, word);
                }
            }
            _ => {}
        }
    }

    /// As `heard`, of a stage that gives back units and the channel; any other stage stays as it is.
    fn heard_releasing(&self, stage: &mut Stage, word: u32)
        requires fits { StageFits self.now stage.old }
        ensures value { IsReleasing stage.old → stage.new ≡ hear self.now stage.old word }
        ensures fits { StageFits self.now stage.new }
    {
        match *stage {
            Stage::ReadBandwidthToRelease(next, channel, units) => {
                *stage = decide_raise(next, channel, units, word);
            }
            Stage::RaiseBandwidth(next, channel, units, arg) => {
                if word == arg {
                    *stage = Stage::ReadChannelsToRelease(next, channel);
                } else {
                    *stage = decide_raise(next, channel, units, word);
                }
            }
            Stage::ReadChannelsToRelease(next, channel) => {
                *stage = Stage::RestoreChannel(next, channel, word);
            }
            Stage::RestoreChannel(next, channel, arg) => {
                if word == arg {
                    *stage = goes_on(next);
                } else {
                    *stage = Stage::RestoreChannel(next, channel, word);
                }
            }
            _ => {}
        }
    }
}
