//! The lines of swaps that were made.

ghost use Rattle.std.specs.Prelude.{◌≡◌, ◌<◌, ◌≤◌, ◌∷◌, [], OnOk};
ghost use Rattle.fw_watch_remarks.specs.Remarks.{told, said};
ghost use Rattle.fw_watch_remarks.specs.declared.remark.Remark.TheVariants.{NotManager};
ghost use Rattle.fw_watch_known.specs.States.{manager_node};
ghost use Rattle.fw_watch.specs.Swaps.{many_remarks, new_units_remarks, units_remarks, taken_remarks, change_remarks, changes_remarks, channels_remarks, plug_remarks, swap_remarks};

use crate::swap::{ALL_UNITS, changes, is_move, is_new, units_held};
use fw_watch_known::{Made, State, only_change};
use fw_watch_remarks::{At, Journal, Remark, WatchedRegister, bit};
use std::alloc::AllocError;

// Tells a swap that leaves more units than there are.
#[tactic(auto, unfolding(crate::specs::Swaps::many_remarks))]
fn tell_many(journal: &mut Journal, m: &Made) -> Result<(), AllocError>
    ensures { OnOk result (journal.new ≡ told journal.old (many_remarks m.now)) }
{
    if m.new <= ALL_UNITS {
        return Ok(());
    }
    let remark = Remark::TooMany {
        by: m.by,
        left: m.new,
    };
    journal.say(m.cycle, remark)
}

// Tells a swap that takes more units in the second after a bus reset than were held before.
#[tactic(auto, unfolding(crate::specs::Swaps::new_units_remarks))]
fn tell_new_units(state: &State, journal: &mut Journal, m: &Made) -> Result<(), AllocError>
    ensures { OnOk result (journal.new ≡ told journal.old (new_units_remarks state.now m.now)) }
{
    let Some(held) = units_held(&state.second) else {
        return Ok(());
    };
    let mut second = state.second;
    second.count(m.old, m.new);
    if m.new >= m.old || second.units() <= u64::from(held) {
        return Ok(());
    }
    let remark = Remark::UnitsInSecond {
        by: m.by,
        epoch: state.epoch.unwrap_or(0),
        taken: second.units(),
        held,
    };
    journal.say(m.cycle, remark)
}

// Tells a swap of BANDWIDTH_AVAILABLE.
#[tactic(auto, using(crate::proofs::WatchLaws::told_more), unfolding(crate::specs::Swaps::units_remarks))]
fn tell_units(state: &State, journal: &mut Journal, m: &Made) -> Result<(), AllocError>
    ensures { OnOk result (journal.new ≡ told journal.old (units_remarks state.now m.now)) }
{
    let remark = Remark::Units {
        by: m.by,
        old: m.old,
        new: m.new,
    };
    journal.say(m.cycle, remark)?;
    tell_many(journal, m)?;
    tell_new_units(state, journal, m)
}

// Tells that a channel was taken, and whether it is new in the second after a bus reset.
#[tactic(auto, unfolding(crate::specs::Swaps::taken_remarks))]
fn tell_taken(
    state: &State,
    journal: &mut Journal,
    m: &Made,
    first: u8,
    at: u8,
) -> Result<(), AllocError>
    requires bit { at < 32 }
    requires half { first ≤ 32 }
    ensures { OnOk result (journal.new ≡ told journal.old (taken_remarks state.now m.now first at)) }
{
    let channel = first + at;
    journal.say(m.cycle, Remark::Takes { by: m.by, channel })?;
    if !is_new(&state.second, m.at.register, at) {
        return Ok(());
    }
    let remark = Remark::NewInSecond {
        by: m.by,
        channel,
        epoch: state.epoch.unwrap_or(0),
    };
    journal.say(m.cycle, remark)
}

// Tells what a swap does to the channel at a bit.
#[tactic(auto, unfolding(crate::specs::Swaps::change_remarks))]
fn tell_change(
    state: &State,
    journal: &mut Journal,
    m: &Made,
    first: u8,
    at: u8,
) -> Result<(), AllocError>
    requires bit { at < 32 }
    requires half { first ≤ 32 }
    ensures { OnOk result (journal.new ≡ told journal.old (change_remarks state.now m.now first at)) }
{
    match (bit(m.old, at), bit(m.new, at)) {
        (true, false) => tell_taken(state, journal, m, first, at),
        (false, true) => {
            let remark = Remark::Returns {
                by: m.by,
                channel: first + at,
            };
            journal.say(m.cycle, remark)
        }
        _ => Ok(()),
    }
}

// Tells what a swap does to the channels of a half, the first of which is `first`.
fn tell_changes(state: &State, journal: &mut Journal, m: &Made, first: u8) -> Result<(), AllocError>
    requires { first ≤ 32 }
    ensures { OnOk result (journal.new ≡ told journal.old (changes_remarks 32 state.now m.now first)) }
{
    for at in 0..32 {
        tell_change(state, journal, m, first, at)?;
    }
    Ok(())
}

// Tells a swap of half of CHANNELS_AVAILABLE, channel by channel.
#[tactic(auto, using(crate::proofs::WatchLaws::told_more), unfolding(crate::specs::Swaps::channels_remarks))]
fn tell_all_channels(
    state: &State,
    journal: &mut Journal,
    m: &Made,
    first: u8,
) -> Result<(), AllocError>
    requires { first ≤ 32 }
    ensures { OnOk result (journal.new ≡ told journal.old (channels_remarks state.now m.now first)) }
{
    tell_changes(state, journal, m, first)?;
    let count = changes(m.old, m.new);
    if count <= 1 {
        return Ok(());
    }
    journal.say(m.cycle, Remark::Several { by: m.by, count })
}

// Tells a swap of half of CHANNELS_AVAILABLE: most change one channel.
fn tell_channels(
    state: &State,
    journal: &mut Journal,
    m: &Made,
    first: u8,
) -> Result<(), AllocError>
    requires { first ≤ 32 }
    ensures { OnOk result (journal.new ≡ told journal.old (channels_remarks state.now m.now first)) }
{
    match only_change(m.old, m.new) {
        Some(at) => tell_change(state, journal, m, first, at),
        None => tell_all_channels(state, journal, m, first),
    }
}

// Tells a swap of a plug.
#[tactic(auto, unfolding(crate::specs::Swaps::plug_remarks))]
fn tell_plug(journal: &mut Journal, m: &Made) -> Result<(), AllocError>
    ensures { OnOk result (journal.new ≡ told journal.old (plug_remarks m.now)) }
{
    let Made {
        cycle,
        by,
        at,
        old,
        new,
    } = *m;
    journal.say(cycle, Remark::Plug { by, at, old, new })?;
    if is_move(at.register, old, new) {
        return Ok(());
    }
    journal.say(cycle, Remark::MoreThanMove { by, at, old, new })
}

/// Tells a swap that was made.
#[tactic(auto, unfolding(crate::specs::Swaps::swap_remarks))]
pub(crate) fn tell_swap(state: &State, journal: &mut Journal, m: &Made) -> Result<(), AllocError>
    ensures { OnOk result (journal.new ≡ told journal.old (swap_remarks state.now m.now)) }
{
    match m.at.register {
        WatchedRegister::Bandwidth => tell_units(state, journal, m),
        WatchedRegister::ChannelsHigh => tell_channels(state, journal, m, 0),
        WatchedRegister::ChannelsLow => tell_channels(state, journal, m, 32),
        WatchedRegister::Output(_) | WatchedRegister::Input(_) => tell_plug(journal, m),
    }
}

/// Tells a swap at a node that is not the resource manager.
#[inline(never)]
pub(crate) fn tell_not_manager(
    state: &State,
    journal: &mut Journal,
    cycle: u64,
    by: u16,
    at: At,
) -> Result<(), AllocError>
    ensures { OnOk result (journal.new ≡ told journal.old (said cycle (NotManager by at (manager_node state.now.manager)) ∷ [])) }
{
    let remark = Remark::NotManager {
        by,
        at,
        manager: state.manager.node(),
    };
    journal.say(cycle, remark)
}
