//! Swaps that were made: what is known then.

ghost use Rattle.std.specs.Prelude.{◌≡◌, ◌≤◌};
ghost use Rattle.fw_watch_known.specs.Swapped.{holder_of, with_holder, swapped};

use crate::channel::Due;
use crate::state::State;
use fw_watch_remarks::{At, Known, WatchedRegister};
use fw_watch_requests::node_of;

/// A swap that was made, and that changed something.
#[derive(Clone, Copy)]
pub struct Made {
    /// The cycle in which it was answered.
    pub cycle: u64,
    /// The node_ID of who asked for it.
    pub by: u16,
    /// The register.
    pub at: At,
    /// The word before it.
    pub old: u32,
    /// The word after it.
    pub new: u32,
}

// The node that holds what it takes, if it is one of the local bus.
fn holder_of(by: u16) -> Option<u8>
    ensures { result ≡ holder_of by }
{
    if by == 0xFFFF { None } else { node_of(by) }
}

impl State {
    // Who took channels of a half is to use them within a second.
    #[tactic(auto, unfolding(crate::specs::Swapped::with_holder))]
    fn set_dues(&mut self, m: &Made, first: u8)
        requires { first ≤ 32 }
        ensures { self.new ≡ with_holder (holder_of m.now.by) m.now first self.old }
    {
        if let Some(holder) = holder_of(m.by) {
            let due = Due {
                holder,
                since: m.cycle,
            };
            self.channels
                .set_dues(first, m.old, m.new, due, &self.plugs);
        }
    }

    /// A swap was made.
    #[tactic(auto, unfolding(crate::specs::Swapped::swapped))]
    pub fn swap(&mut self, m: &Made)
        ensures { self.new ≡ swapped self.old m.now }
    {
        self.put(m.at, Known::all(m.new));
        match m.at.register {
            WatchedRegister::Bandwidth => self.second.count(m.old, m.new),
            WatchedRegister::ChannelsHigh => self.set_dues(m, 0),
            WatchedRegister::ChannelsLow => self.set_dues(m, 32),
            WatchedRegister::Output(_) | WatchedRegister::Input(_) => {}
        }
    }
}
