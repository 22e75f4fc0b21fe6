use crate::{Ending, Flow, Then};

/// Where a job stands: the request that it makes next, with the words that it has read and still needs.
#[derive(Clone, Copy, PartialEq, Eq)]
pub enum Stage {
    /// Has made no request yet, or none since a bus reset.
    Begin,
    /// Reads the output plug's register.
    ReadOutput,
    /// Reads the CHANNELS_AVAILABLE register that begins with this channel; the plug's word.
    ReadChannels(u8, u32),
    /// Clears the bit of this channel in a word of CHANNELS_AVAILABLE; the plug's word.
    SwapChannels(u8, u32, u32),
    /// Reads BANDWIDTH_AVAILABLE, with this channel allocated; the plug's word.
    ReadBandwidth(u8, u32),
    /// Takes these units off a word of BANDWIDTH_AVAILABLE; channel, units, that word, and the plug's word.
    SwapBandwidth(u8, u32, u32, u32),
    /// Makes the output plug's first connection on this channel with these units; the plug's word.
    ConnectOutput(u8, u32, u32),
    /// Adds a connection to an output plug that has one; the plug's word.
    OverlayOutput(u32),
    /// Reads the input plug's register, for a connection on this channel.
    ReadInput(Flow),
    /// Adds a connection to the input plug; the plug's word.
    ConnectInput(Flow, u32),
    /// Reads the input plug's register, to leave it; the connection's channel and units.
    ReadInputToLeave(u8, u32),
    /// Takes one connection off the input plug's word; the connection's channel and units before it.
    LeaveInput(u8, u32, u32),
    /// Reads the output plug's register, to leave it; the connection's channel and units.
    ReadOutputToLeave(Ending, u8, u32),
    /// Takes one connection off the output plug's word; the connection's channel and units before it.
    LeaveOutput(Ending, u8, u32, u32),
    /// Reads BANDWIDTH_AVAILABLE, to give back the units of this channel.
    ReadBandwidthToRelease(Then, u8, u32),
    /// Adds the units to a word of BANDWIDTH_AVAILABLE; channel, units, that word.
    RaiseBandwidth(Then, u8, u32, u32),
    /// Reads the CHANNELS_AVAILABLE register of this channel, to give it back.
    ReadChannelsToRelease(Then, u8),
    /// Sets the bit of this channel in a word of CHANNELS_AVAILABLE.
    RestoreChannel(Then, u8, u32),
    /// The connection is made; its outcome is still to be written.
    Made(Flow),
    /// The job ends so; its outcome is still to be written.
    Ended(Ending),
}
