ghost use Rattle.std.specs.Prelude.{◌≡◌, ◌<◌};
ghost use Rattle.fw_cmp_jobs.specs.Requests.{offset_of, first_word, input_word, target_of, swap_of};
ghost use Rattle.fw_cmp_jobs.specs.Plugs.{is_full};
ghost use Rattle.fw_cmp_jobs.specs.Connections.{kind_of};
ghost use Rattle.fw_cmp_jobs.specs.Fits.{JobFits, StageFits, IsUnconnected};
ghost use Rattle.fw_plug.specs.Words.{is_connected};
ghost use Rattle.std.specs.Prelude.{IsFalse};

use crate::words::{half_of, with_bit, without_bit};
use crate::{Job, Stage};
use fw_csr::{BANDWIDTH_AVAILABLE, CHANNELS_AVAILABLE_HI, CHANNELS_AVAILABLE_LO};
use fw_plug::{IPCR, OPCR, OutWord, one_less, one_more, with_channel, with_overhead};
use fw_terms::PlugAt;
use fw_words::Swap;

/// A register that a job asks for: that of a plug, or one of the isochronous resource manager's.
#[derive(Clone, Copy)]
pub enum Target {
    OutputPlug(PlugAt),
    InputPlug(PlugAt),
    /// The CHANNELS_AVAILABLE register that begins with this channel, 0 or 32.
    Channels(u8),
    BandwidthAvailable,
}

/// What a stage asks of a register: a read, or a quadlet compare_swap. The contracts' word for a request; no code makes one.
#[derive(Clone, Copy)]
pub struct Access {
    pub target: Target,
    pub swap: Option<Swap>,
}

impl Target {
    /// The register's offset.
    pub fn offset(self) -> u64
        ensures { result ≡ offset_of self }
    {
        match self {
            Target::OutputPlug(p) => OPCR + 4 * u64::from(p.plug),
            Target::InputPlug(p) => IPCR + 4 * u64::from(p.plug),
            Target::Channels(0) => CHANNELS_AVAILABLE_HI,
            Target::Channels(_) => CHANNELS_AVAILABLE_LO,
            Target::BandwidthAvailable => BANDWIDTH_AVAILABLE,
        }
    }
}

impl Job {
    /// The register of a stage's request; None if it makes none.
    #[inline(always)]
    pub fn target(&self, stage: &Stage) -> Option<Target>
        ensures { result ≡ target_of self.now stage.now }
    {
        match *stage {
            Stage::ReadOutput
            | Stage::ConnectOutput(..)
            | Stage::OverlayOutput(_)
            | Stage::ReadOutputToLeave(..)
            | Stage::LeaveOutput(..) => self.connection.output().map(Target::OutputPlug),
            Stage::ReadInput(_)
            | Stage::ConnectInput(..)
            | Stage::ReadInputToLeave(..)
            | Stage::LeaveInput(..) => self.connection.input().map(Target::InputPlug),
            Stage::ReadChannels(base, _) => Some(Target::Channels(base)),
            Stage::SwapChannels(channel, ..)
            | Stage::ReadChannelsToRelease(_, channel)
            | Stage::RestoreChannel(_, channel, _) => Some(Target::Channels(half_of(channel))),
            Stage::ReadBandwidth(..)
            | Stage::SwapBandwidth(..)
            | Stage::ReadBandwidthToRelease(..)
            | Stage::RaiseBandwidth(..) => Some(Target::BandwidthAvailable),
            Stage::Begin | Stage::Made(_) | Stage::Ended(_) => None,
        }
    }

    /// The swap of a stage, if it makes one.
    #[inline(always)]
    pub fn swap(&self, stage: &Stage) -> Option<Swap>
        requires job { JobFits self.now }
        requires fits { StageFits self.now stage.now }
        ensures { result ≡ swap_of self.now stage.now }
    {
        let kind = self.connection.kind();
        let (argument, new) = match *stage {
            Stage::SwapChannels(channel, arg, _) => {
                (arg, without_bit(arg, channel - half_of(channel)))
            }
            Stage::SwapBandwidth(_, units, arg, _) => (arg, arg - units),
            Stage::ConnectOutput(channel, _, arg) => (arg, self.first_word(channel, arg)),
            Stage::OverlayOutput(arg) => (arg, one_more(kind, arg)),
            Stage::ConnectInput(flow, arg) => (arg, self.input_word(flow.channel, arg)),
            Stage::LeaveInput(_, _, arg) | Stage::LeaveOutput(_, _, _, arg) => {
                (arg, one_less(kind, arg))
            }
            Stage::RaiseBandwidth(_, _, units, arg) => (arg, arg + units),
            Stage::RestoreChannel(_, channel, arg) => {
                (arg, with_bit(arg, channel - half_of(channel)))
            }
            _ => return None,
        };
        Some(Swap { argument, new })
    }

    /// The word of the output plug with its first connection, on this channel and with the job's overhead_ID.
    fn first_word(&self, channel: u8, word: u32) -> u32
        requires job { JobFits self.now }
        requires channel { channel < 64 }
        requires free { IsUnconnected word }
        ensures { result ≡ first_word self.now channel word }
    {
        one_more(
            self.connection.kind(),
            with_overhead(with_channel(word, channel), self.overhead),
        )
    }

    /// The word of the input plug with one connection more; its first one sets the channel.
    fn input_word(&self, channel: u8, word: u32) -> u32
        requires channel { channel < 64 }
        requires room { IsFalse (is_full (kind_of self.now.connection) word) }
        ensures { result ≡ input_word self.now channel word }
    {
        let on_channel = if OutWord(word).is_connected() {
            word
        } else {
            with_channel(word, channel)
        };
        one_more(self.connection.kind(), on_channel)
    }
}
