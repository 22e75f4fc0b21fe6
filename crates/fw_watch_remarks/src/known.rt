//! What is known of a register.

ghost use Rattle.std.specs.Prelude.{◌≡◌, ◌<◌, IfSome};
ghost use Rattle.fw_watch_remarks.specs.Knowing.{bit_of, is_known_set, is_connected, channel_of, is_on, differing, nothing_known, all_known, after_reset, is_forgotten};

use fw_words::Quadlet;

/// The bits 1 to 7 of a plug control register: its broadcast connection and its point-to-point connection counter.
const COUNTERS: u32 = 0x7F00_0000;

/// The bits 10 to 15 of a plug control register: its channel.
const CHANNEL: u32 = 0x003F_0000;

/// What is known of a register: those bits of the word that are 1 in the mask.
#[derive(Clone, Copy)]
pub struct Known {
    /// The word; what it has in other bits than the mask's counts for nothing.
    pub word: u32,
    /// The bits that are known.
    pub mask: u32,
}

/// What is known of the resource manager's three registers.
#[derive(Clone, Copy)]
pub struct Managed {
    /// BANDWIDTH_AVAILABLE.
    pub bandwidth: Known,
    /// CHANNELS_AVAILABLE_HI.
    pub high: Known,
    /// CHANNELS_AVAILABLE_LO.
    pub low: Known,
}

/// A bit of a word, of which bit 0 is the most significant.
#[tactic(auto, unfolding(crate::specs::Knowing::bit_of))]
pub fn bit(word: u32, at: u8) -> bool
    requires { at < 32 }
    ensures { result ≡ bit_of word at }
{
    Quadlet(word).field(at, at) == 1
}

/// A plug with this word is connected.
pub fn is_connected(word: u32) -> bool
    ensures { result ≡ is_connected word }
{
    word & COUNTERS != 0
}

impl Known {
    /// Nothing is known.
    pub fn nothing() -> Known
        ensures { result ≡ nothing_known }
    {
        Known { word: 0, mask: 0 }
    }

    /// All of a word is known.
    pub fn all(word: u32) -> Known
        ensures { result ≡ all_known word }
    {
        Known {
            word,
            mask: u32::MAX,
        }
    }

    /// What a bus reset makes of a plug: it has no connections (IEC 61883-1, bus reset).
    pub fn of_reset_plug() -> Known
        ensures { result ≡ after_reset }
    {
        Known {
            word: 0,
            mask: COUNTERS,
        }
    }

    /// The bit is known, and is 1.
    pub fn is_set(self, at: u8) -> bool
        requires { at < 32 }
        ensures { result ≡ is_known_set self at }
    {
        bit(self.mask, at) && bit(self.word, at)
    }

    /// The channel of a plug that is known to be connected, if the channel is known.
    #[tactic(auto, unfolding(crate::specs::Knowing::channel_of))]
    pub fn channel(self) -> Option<u8>
        ensures value { result ≡ channel_of self }
        ensures within { IfSome result (λ k. k < 64) }
    {
        if self.word & self.mask & COUNTERS != 0 && self.mask & CHANNEL == CHANNEL {
            Some(Quadlet(self.word).field(10, 15) as u8)
        } else {
            None
        }
    }

    /// The plug is connected on this channel.
    #[tactic(auto, unfolding(crate::specs::Knowing::is_on))]
    pub fn is_on(&self, channel: u8) -> bool
        ensures { result ≡ is_on channel self.now }
    {
        match self.channel() {
            Some(k) => k == channel,
            None => false,
        }
    }

    /// The bits that are known, and differ from those of a word.
    pub fn differing(self, word: u32) -> u32
        ensures { result ≡ differing self word }
    {
        (self.word ^ word) & self.mask
    }

    /// A bit that was known is no longer, or is another one in what is known now.
    #[tactic(auto, unfolding(crate::specs::Knowing::is_forgotten))]
    pub fn is_forgotten(self, now: Known, at: u8) -> bool
        requires { at < 32 }
        ensures { result ≡ is_forgotten self now at }
    {
        bit(self.mask, at) && (!bit(now.mask, at) || bit(self.word, at) != bit(now.word, at))
    }
}

impl Managed {
    ghost use Rattle.fw_watch_remarks.specs.Knowing.{no_managed, reset_managed};

    /// Nothing is known of any.
    pub fn nothing() -> Managed
        ensures { result ≡ no_managed }
    {
        Managed {
            bandwidth: Known::nothing(),
            high: Known::nothing(),
            low: Known::nothing(),
        }
    }

    /// What a bus reset makes of them: all bandwidth is left and all channels are free, but for channel 31, which may be withheld, or
    /// taken by a manager at once.
    pub fn of_reset() -> Managed
        ensures { result ≡ reset_managed }
    {
        Managed {
            bandwidth: Known::all(4915),
            high: Known {
                word: u32::MAX,
                mask: 0xFFFF_FFFE,
            },
            low: Known::all(u32::MAX),
        }
    }
}
