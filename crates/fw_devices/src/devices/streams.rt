//! The streams of output plugs: which of them talk, and the blocks that the tapes of their devices give.

ghost use Rattle.std.specs.Prelude.{◌≡◌, ◌<◌, IfSome, is_some, length};
ghost use Rattle.fw_tape.specs.Blocks.{block_now};
ghost use Rattle.fw_tape.specs.Motion.{is_fifty};
ghost use Rattle.fw_node.specs.Streams.{talking_on};
ghost use Rattle.fw_devices.specs.Decks.{tape_of};
ghost use Rattle.fw_devices.specs.Network.{node_at};
ghost use Rattle.fw_devices.specs.Streams.{AreTalkers};

use super::Devices;
use crate::talkers::Talkers;
use fw_tape::BlockPlace;

impl Devices {
    /// The channel on which the output plug of a device talks: None exactly if it does not talk, or the device has none.
    pub fn talking_on(&self, device: u8) -> Option<u8>
        requires declared { device < length self.now.nodes }
        ensures value { result ≡ talking_on (node_at self.now.nodes device) }
        ensures range { IfSome result (λ channel. channel < 64) }
    {
        self.nodes[usize::from(device)].talking_on()
    }

    /// The device whose output plug talks on each channel, one of them if there are several. None exactly if no device has one.
    pub fn talkers(&self) -> Talkers
        ensures { AreTalkers (length self.now.nodes) self.now.nodes result }
    {
        let mut talkers = Talkers::new();
        for device in 0..self.count() {
            if let Some(channel) = self.talking_on(device) {
                talkers.enter(channel, device);
            }
        }
        talkers
    }

    /// Which block the tape of a device gives in the cycle that passed last: None exactly if none was due.
    pub fn block_now(&self, device: u8) -> Option<BlockPlace>
        requires declared { device < length self.now.nodes }
        ensures value { result ≡ block_now (tape_of (node_at self.now.nodes device)) }
        ensures range { IfSome result (λ place. (place.frame < 2592000) × (place.block < 300)) }
    {
        match self.nodes[usize::from(device)].tape_subunit() {
            Some(tape) => tape.block_now(),
            None => None,
        }
    }

    /// A tape is in the device.
    #[inline(always)]
    pub fn has_tape(&self, device: u8) -> bool
        requires declared { device < length self.now.nodes }
        ensures { result ≡ is_some (tape_of (node_at self.now.nodes device)) }
    {
        match self.nodes[usize::from(device)].tape_subunit() {
            Some(tape) => tape.cassette().is_some(),
            None => false,
        }
    }

    /// A tape of the 625-50 system is in the device.
    pub fn fifty(&self, device: u8) -> bool
        requires declared { device < length self.now.nodes }
        ensures { result ≡ is_fifty (tape_of (node_at self.now.nodes device)) }
    {
        match self.nodes[usize::from(device)].tape_subunit() {
            Some(tape) => tape.fifty(),
            None => false,
        }
    }
}
