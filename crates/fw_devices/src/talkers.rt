//! Who talks, by channel.

ghost use Rattle.std.specs.Prelude.{◌≡◌, ◌≤◌, ◌<◌, ℕ, Some, None, replicate, slice_index_or, slice_set};

use std::marker::Model;

/// How many isochronous channels there are.
const CHANNELS: usize = 64;

/// The device whose output plug talks on each channel, if one does. Contracts see it as the list of these.
#[derive(Drop)]
pub struct Talkers {
    on: [Option<u8>; CHANNELS],
    /// From this channel on there is none.
    end: u8,
}

impl Model for Talkers {
    ghost use Rattle.std.specs.Prelude.{List, Option, ℕ, ◌≡◌, ◌≤◌, length};
    ghost use Rattle.fw_devices.specs.Streams.{AreSilentFrom};

    ghost Value = { List (Option ℕ) };

    ghost view = { λ t. t.on };

    ghost invariant = { λ t. (length t.on ≡ 64) × (t.end ≤ 64) × AreSilentFrom t.end t.on };
}

impl Talkers {
    /// Nobody talks.
    pub(crate) fn new() -> Talkers
        ensures { result ≡ replicate 64 None }
    {
        Talkers {
            on: [None; CHANNELS],
            end: 0,
        }
    }

    /// This device talks on this channel.
    pub(crate) fn enter(&mut self, channel: u8, device: u8)
        requires { channel < 64 }
        ensures { self.new ≡ slice_set self.old channel (Some device) }
    {
        self.on[usize::from(channel)] = Some(device);
        self.end = self.end.max(channel + 1);
    }

    /// Who talks on this channel.
    pub fn get(&self, channel: u8) -> Option<u8>
        requires { channel < 64 }
        ensures { result ≡ slice_index_or self.now channel None }
    {
        self.on[usize::from(channel)]
    }

    /// The channel from which on there is none.
    pub fn end(&self) -> u8
        ensures few { result ≤ 64 }
        ensures silent { (channel : ℕ) → result ≤ channel → slice_index_or self.now channel None ≡ None }
    {
        self.end
    }
}
