//! Words of plugs with other settings, and those of plugs without connections.

ghost use Rattle.std.specs.Prelude.{◌≡◌, ◌<◌, false};
ghost use Rattle.fw_plug.specs.Words.{out_word, in_word};
ghost use Rattle.fw_plug.specs.Changes.{with_channel, with_overhead};

use crate::{InWord, OutWord};

/// The channel of a plug at first (IEC 61883-1, 7).
pub const FIRST_CHANNEL: u8 = 63;

/// A plug's word with another channel.
pub fn with_channel(word: u32, channel: u8) -> u32
    requires { channel < 64 }
    ensures { result ≡ with_channel word channel }
{
    word - (u32::from(InWord(word).channel()) << 16) + (u32::from(channel) << 16)
}

/// An output plug's word with another overhead_ID.
pub fn with_overhead(word: u32, overhead: u8) -> u32
    requires { overhead < 16 }
    ensures { result ≡ with_overhead word overhead }
{
    word - (u32::from(OutWord(word).overhead()) << 10) + (u32::from(overhead) << 10)
}

/// The word of an output plug that is on-line and not connected, with these settings and a payload of 122 quadlets (own).
pub fn unconnected_output(channel: u8, rate: u8, overhead: u8) -> u32
    requires channel { channel < 64 }
    requires rate { rate < 4 }
    requires overhead { overhead < 16 }
    ensures { result ≡ out_word (record { broadcast = false; counter = 0; settings = record { channel = channel; rate = rate; overhead = overhead } }) }
{
    0x8000_007A + (u32::from(channel) << 16) + (u32::from(rate) << 14) + (u32::from(overhead) << 10)
}

/// The word of an input plug that is on-line and not connected, on this channel.
pub fn unconnected_input(channel: u8) -> u32
    requires { channel < 64 }
    ensures { result ≡ in_word (record { broadcast = false; counter = 0; channel = channel }) }
{
    0x8000_0000 + (u32::from(channel) << 16)
}
