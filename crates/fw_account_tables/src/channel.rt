//! Swaps of CHANNELS_AVAILABLE.

ghost use Rattle.std.specs.Prelude.{◌≡◌, ◌<◌, ◌+◌, ◌-◌, ◌^◌, ◌==◌, IfSome, Some};
ghost use Rattle.fw_model_account.specs.Account.{Account, is_withheld};
ghost use Rattle.fw_model_account.specs.Moves.{AllocateChannel, ReleaseChannel};
ghost use Rattle.fw_model_account.specs.Words.{ChannelsAvailable};
ghost use Rattle.fw_model_account.specs.Decode.{can, changed_bit, at_addressed, held_for, allowed, move_at};
ghost use Rattle.fw_account_tables.specs.Stands.{Stands, StandsFor, Follows};
ghost use Rattle.fw_account_tables.specs.Swaps.{IsHalf, half_of, with_half, moved_by};

use crate::held::{charge_at, holds_no_units, is_free};
use crate::tables::{Addressed, Charge, Tables};
use fw_terms::PlugAt;
use fw_words::Quadlet;

/// The channel that a bus may withhold.
const CHANNEL_31: u8 = 31;

// The first bit that changes.
fn changed_bit(argument: u32, new: u32) -> Option<u8>
    ensures first { result ≡ changed_bit argument new }
    ensures within { IfSome result (λ i. i < 32) }
{
    for i in 0..32 {
        if Quadlet(argument).field(i, i) != Quadlet(new).field(i, i) {
            return Some(i);
        }
    }
    None
}

/// One number is the other and so much more.
pub fn exceeds(more: u32, less: u32, by: u32) -> bool
    ensures { result ≡ (more == less + by) }
{
    less <= more && more - less == by
}

// The value of a bit, bit 0 being the most significant.
fn value_of(bit: u8) -> u32
    requires { bit < 32 }
    ensures { result ≡ 2 ^ (31 - bit) }
{
    1 << (31 - bit)
}

impl Tables {
    // The half of CHANNELS_AVAILABLE that begins with this channel.
    fn half(&self, base: u8) -> u32
        ensures { result ≡ half_of base self.now }
    {
        if base == 0 { self.high } else { self.low }
    }

    // Another word in that half.
    fn set_half(&mut self, base: u8, word: u32)
        ensures { self.new ≡ with_half base word self.old }
    {
        if base == 0 {
            self.high = word;
        } else {
            self.low = word;
        }
    }

    // The bus withholds the channel.
    fn is_withheld(&self, channel: u8) -> bool
        ensures { result ≡ is_withheld self.now.withheld channel }
    {
        self.withheld && channel == CHANNEL_31
    }

    // Controller `c` may allocate the channel for the plug that it last addressed.
    fn may_allocate(&self, c: u8, p: PlugAt, channel: u8) -> bool
        requires stands { Stands self.now }
        requires controller { c < 63 }
        requires channel { channel < 64 }
        ensures { (l : Account) → StandsFor self.now l → l.addressed c ≡ Some p → result ≡ can c p (AllocateChannel channel) l }
    {
        let place = usize::from(channel);
        is_free(charge_at(&self.charges, place))
            && !self.is_withheld(channel)
            && !self.holds(c)
            && self.may_reclaim_channel(place, p)
    }

    // Controller `c` clears the bit of a channel.
    fn allocate_channel(&mut self, c: u8, base: u8, bit: u8, new: u32) -> bool
        requires stands { Stands self.old }
        requires controller { c < 63 }
        requires half { IsHalf base }
        requires bit { bit < 32 }
        ensures { (l : Account) → StandsFor self.old l → Follows result self.old self.new (moved_by c (allowed l c (ChannelsAvailable base) (half_of base self.old) new (at_addressed (l.addressed c) (AllocateChannel (base + bit)))) l) }
    {
        let plug = match self.latest_addressed(c) {
            Addressed::Plug(plug) => plug,
            Addressed::Nowhere => return false,
        };
        if !self.may_allocate(c, plug, base + bit)
            || !exceeds(self.half(base), new, value_of(bit))
        {
            return false;
        }
        self.set_half(base, new);
        self.charges[usize::from(base + bit)] = Charge::Pending {
            controller: c,
            plug,
            units: 0,
        };
        true
    }

    // Controller `c` sets the bit of a channel.
    fn release_channel(&mut self, c: u8, base: u8, bit: u8, new: u32) -> bool
        requires stands { Stands self.old }
        requires controller { c < 63 }
        requires half { IsHalf base }
        requires bit { bit < 32 }
        ensures { (l : Account) → StandsFor self.old l → Follows result self.old self.new (moved_by c (allowed l c (ChannelsAvailable base) (half_of base self.old) new (at_addressed (held_for (l.allocations (base + bit))) (ReleaseChannel (base + bit)))) l) }
    {
        let channel = usize::from(base + bit);
        if !holds_no_units(charge_at(&self.charges, channel), c)
            || !exceeds(new, self.half(base), value_of(bit))
        {
            return false;
        }
        self.set_half(base, new);
        self.charges[channel] = Charge::Free;
        true
    }

    /// Controller `c` swaps the half of CHANNELS_AVAILABLE that begins with this channel. It is refused if that is no
    /// move.
    pub fn swap_channels(&mut self, c: u8, base: u8, argument: u32, new: u32) -> bool
        requires stands { Stands self.old }
        requires controller { c < 63 }
        requires half { IsHalf base }
        ensures { (l : Account) → StandsFor self.old l → Follows result self.old self.new (moved_by c (move_at l c (ChannelsAvailable base) argument new) l) }
    {
        if argument != self.half(base) {
            return false;
        }
        let bit = match changed_bit(argument, new) {
            Some(bit) => bit,
            None => return false,
        };
        if Quadlet(argument).field(bit, bit) == 1 {
            self.allocate_channel(c, base, bit, new)
        } else {
            self.release_channel(c, base, bit, new)
        }
    }
}
