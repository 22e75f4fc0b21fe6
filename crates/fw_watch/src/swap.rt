//! Swaps that were made: what they change.

ghost use Rattle.std.specs.Prelude.{◌≡◌, ◌<◌, ◌≤◌};
ghost use Rattle.fw_watch_remarks.specs.Knowing.{bit_of};
ghost use Rattle.fw_watch.specs.Swaps.{same_bits, moves_one, first_kept, is_move, next_count, changes_to, is_new, units_held};

use fw_watch_known::{Before, Second};
use fw_watch_remarks::{WatchedRegister, bit, is_connected};
use fw_words::Quadlet;

/// All units that a bus has (IEEE 1394-1995, BANDWIDTH_AVAILABLE).
pub(crate) const ALL_UNITS: u32 = 4915;

// Two words have the same bits from one to another.
fn same_bits(old: u32, new: u32, first: u8, last: u8) -> bool
    requires order { first ≤ last }
    requires range { last ≤ 31 }
    ensures { result ≡ same_bits old new first last }
{
    Quadlet(old).field(first, last) == Quadlet(new).field(first, last)
}

// One connection comes or goes: the counter changes by one, or else the broadcast bit changes.
#[tactic(auto, unfolding(crate::specs::Swaps::moves_one))]
fn moves_one(old: u32, new: u32) -> bool
    ensures { result ≡ moves_one old new }
{
    let before = Quadlet(old).field(2, 7);
    let after = Quadlet(new).field(2, 7);
    if same_bits(old, new, 1, 1) {
        before + 1 == after || after + 1 == before
    } else {
        before == after
    }
}

// The first bit after the counters that a move keeps: if the plug was or is not connected, it may have another channel, and an
// output plug another rate and overhead.
#[tactic(auto, unfolding(crate::specs::Swaps::first_kept))]
fn first_kept(register: WatchedRegister, old: u32, new: u32) -> u8
    ensures value { result ≡ first_kept register old new }
    ensures within { result ≤ 31 }
{
    if is_connected(old) && is_connected(new) {
        8
    } else if register.is_output() {
        22
    } else {
        16
    }
}

// The swap of a plug makes or breaks one connection, and changes nothing else.
#[tactic(auto, unfolding(crate::specs::Swaps::is_move))]
pub(crate) fn is_move(register: WatchedRegister, old: u32, new: u32) -> bool
    ensures { result ≡ is_move register old new }
{
    moves_one(old, new)
        && same_bits(old, new, 0, 0)
        && same_bits(old, new, first_kept(register, old, new), 31)
}

// A channel was known to be free before the second, by its bit of a half.
pub(crate) fn is_new(second: &Second, register: WatchedRegister, at: u8) -> bool
    requires { at < 32 }
    ensures { result ≡ is_new second.now.before register at }
{
    match (second.before, register) {
        (Before::Words(words), WatchedRegister::ChannelsHigh) => at != 31 && words.high.is_set(at),
        (Before::Words(words), WatchedRegister::ChannelsLow) => words.low.is_set(at),
        _ => false,
    }
}

// How many units were held before the second, if that is known.
pub(crate) fn units_held(second: &Second) -> Option<u32>
    ensures { result ≡ units_held second.now.before }
{
    match second.before {
        Before::Words(words) if words.bandwidth.mask != 0 => {
            Some(ALL_UNITS.saturating_sub(words.bandwidth.word))
        }
        _ => None,
    }
}

// How many bits differ with one more.
fn next_count(count: u8, old: u32, new: u32, at: u8) -> u8
    requires few { count < 32 }
    requires bit { at < 32 }
    ensures { result ≡ next_count count (bit_of old at) (bit_of new at) }
{
    match (bit(old, at), bit(new, at)) {
        (true, false) | (false, true) => count + 1,
        _ => count,
    }
}

// How many channels a swap changes.
pub(crate) fn changes(old: u32, new: u32) -> u8
    ensures { result ≡ changes_to 32 old new }
{
    let mut count = 0;
    for at in 0..32 {
        count = next_count(count, old, new, at);
    }
    count
}
