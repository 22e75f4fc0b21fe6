//! Channels that nobody has used in the second since they were taken.

ghost use Rattle.std.specs.Prelude.{◌≡◌, IfOk, OnOk, is_some};
ghost use Rattle.fw_watch_remarks.specs.Remarks.{told};
ghost use Rattle.fw_watch_known.specs.Channels.{late_to};
ghost use Rattle.fw_watch.specs.Holding.{late_remarks, after_late, held_remarks, after_held};

use fw_watch_known::State;
use fw_watch_remarks::{Journal, Remark};
use std::alloc::AllocError;

// Tells the channel that is late and was taken first, if one is, and answers whether one was.
fn tell_late(state: &mut State, journal: &mut Journal, cycle: u64) -> Result<bool, AllocError>
    ensures lines { IfOk result (λ more. journal.new ≡ told journal.old (late_remarks (late_to 64 state.old.channels cycle))) }
    ensures known { IfOk result (λ more. state.new ≡ after_late (late_to 64 state.old.channels cycle) state.old) }
    ensures more { IfOk result (λ more. more ≡ is_some (late_to 64 state.old.channels cycle)) }
{
    let Some(late) = state.channels.late(cycle) else {
        return Ok(false);
    };
    let remark = Remark::UnusedChannel {
        node: late.due.holder,
        channel: late.channel,
    };
    journal.say(late.due.since + 8000, remark)?;
    let row = state.channels.at(late.channel);
    state.channels.set(late.channel, row.undue());
    Ok(true)
}

// Tells the channels that are late, in the order in which they were taken.
#[inline(never)]
fn tell_held(state: &mut State, journal: &mut Journal, cycle: u64) -> Result<(), AllocError>
    ensures lines { OnOk result (journal.new ≡ told journal.old (held_remarks 64 cycle state.old)) }
    ensures known { OnOk result (state.new ≡ after_held 64 cycle state.old) }
{
    for _told in 0..64_u8 {
        let more = tell_late(state, journal, cycle)?;
        if !more {
            return Ok(());
        }
    }
    Ok(())
}

/// Tells the channels that are late, if one may be.
#[inline(always)]
pub(crate) fn tell_if_held(
    state: &mut State,
    journal: &mut Journal,
    cycle: u64,
) -> Result<(), AllocError>
    ensures lines { OnOk result (journal.new ≡ told journal.old (held_remarks 64 cycle state.old)) }
    ensures known { OnOk result (state.new ≡ after_held 64 cycle state.old) }
{
    if !state.channels.may_be_late(cycle) {
        return Ok(());
    }
    tell_held(state, journal, cycle)
}
