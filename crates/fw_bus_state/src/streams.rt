//! What the output plugs send: how many data packets each has sent since it began to talk.

ghost use Rattle.std.specs.Prelude.{◌≡◌, ◌<◌, ◌≤◌, ℕ, IsTrue, length, map, replicate, slice_set};
ghost use Rattle.fw_cip.specs.Streams.{HasSent};
ghost use Rattle.fw_tape.specs.Motion.{MayPass};
ghost use Rattle.fw_devices.specs.Decks.{passed, tape_of};
ghost use Rattle.fw_devices.specs.Network.{node_at};
ghost use Rattle.fw_bus_state.specs.Streaming.{AreStillFrom, IsStill, count_at, counted_for, counted_on, looked_at};

use fw_cip::Talker;
use fw_devices::Devices;
use std::marker::Model;

/// How many data packets the output plug of each device has sent since it began to talk, modulo 256 (IEC 61883-1, data block
/// counter): 0 for a plug that does not talk. A device has one output plug at most.
#[derive(Clone, Copy)]
pub struct Streams {
    pub(crate) counts: [u8; 63],
}

impl Model for Streams {
    ghost use Rattle.std.specs.Prelude.{ℕ, List, length, ◌≡◌};

    ghost Value = { List ℕ };

    ghost view = { λ s. s.counts };

    ghost invariant = { λ s. length s.counts ≡ 63 };

    ghost inverse = { λ counts. record { counts = counts } };
}

// The count of a device after cycles, in which its tape moves.
#[inline(always)]
fn counted(count: u8, devices: &mut Devices, device: u8, cycles: u64) -> u8
    requires declared { device < length devices.old.nodes }
    requires tape { MayPass cycles (tape_of (node_at devices.old.nodes device)) }
    ensures count { result ≡ counted_for cycles (node_at devices.old.nodes device) count }
    ensures moved { devices.new ≡ record devices.old { nodes = slice_set devices.old.nodes device (passed cycles (node_at devices.old.nodes device)) } }
{
    let channel = devices.talking_on(device);
    let blocks = devices.pass(device, cycles);
    if channel.is_none() {
        return 0;
    }
    count.wrapping_add((blocks % 256) as u8)
}

impl Streams {
    /// No plug has sent anything.
    pub fn new() -> Streams
        ensures { result ≡ replicate 63 0 }
    {
        Streams { counts: [0; 63] }
    }

    /// Cycles go by: tapes that play, play in reverse or record move. A plug that talks counts the blocks that its tape gives in
    /// them, and one that does not talk begins anew.
    pub fn pass(&mut self, devices: &mut Devices, cycles: u64)
        requires { (d : ℕ) → d < length devices.old.nodes → MayPass cycles (tape_of (node_at devices.old.nodes d)) }
        ensures counts { self.new ≡ counted_on cycles devices.old.nodes self.old }
        ensures tapes { devices.new ≡ record devices.old { nodes = map (passed cycles) devices.old.nodes } }
    {
        let end = devices.count();
        self.pass_to(end, devices, cycles);
    }

    /// The same, if all devices from `end` on are still: those are not looked at. They stay so.
    pub fn pass_to(&mut self, end: u8, devices: &mut Devices, cycles: u64)
        requires tapes { (d : ℕ) → d < length devices.old.nodes → MayPass cycles (tape_of (node_at devices.old.nodes d)) }
        requires still { AreStillFrom end devices.old.nodes self.old }
        requires room { length devices.old.nodes ≤ 63 }
        ensures counts { self.new ≡ counted_on cycles devices.old.nodes self.old }
        ensures tapes { devices.new ≡ record devices.old { nodes = map (passed cycles) devices.old.nodes } }
        ensures still { AreStillFrom end devices.new.nodes self.new }
    {
        for device in 0..end {
            let count = self.counts[usize::from(device)];
            self.counts[usize::from(device)] = counted(count, devices, device, cycles);
        }
    }

    /// The device from which on all are still.
    pub fn end(&self, devices: &Devices) -> u8
        ensures { AreStillFrom result devices.now.nodes self.now }
    {
        let mut end = 0;
        for device in 0..devices.count() {
            if self.is_still(devices, device) {
                continue;
            }
            end = device + 1;
        }
        end
    }

    // Time changes nothing of a device.
    fn is_still(&self, devices: &Devices, device: u8) -> bool
        requires declared { device < length devices.now.nodes }
        requires few { device < 63 }
        ensures { IsTrue result → IsStill (node_at devices.now.nodes device) (count_at self.now device) }
    {
        if devices.talking_on(device).is_some() {
            return false;
        }
        if devices.has_tape(device) {
            return false;
        }
        self.counts[usize::from(device)] == 0
    }

    /// The plug of a device begins anew if it does not talk.
    pub fn restart_if_silent(&mut self, devices: &Devices, device: u8)
        requires declared { device < length devices.now.nodes }
        requires few { device < 63 }
        ensures { self.new ≡ looked_at device devices.now.nodes self.old }
    {
        // Mostly nothing is counted, and then nothing has to begin anew.
        if self.counts[usize::from(device)] != 0 && devices.talking_on(device).is_none() {
            self.counts[usize::from(device)] = 0;
        }
    }

    /// The talker that has sent so many blocks, on this channel.
    pub fn talker(&self, device: u8, channel: u8) -> Talker
        requires declared { device < 63 }
        ensures channel { result.channel ≡ channel }
        ensures count { HasSent (count_at self.now device) result }
    {
        let mut talker = Talker::new(channel);
        talker.skip(u64::from(self.counts[usize::from(device)]));
        talker
    }
}
