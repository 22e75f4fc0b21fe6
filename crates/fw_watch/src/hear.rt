//! The lines of isochronous packets.

ghost use Rattle.std.specs.Prelude.{◌≡◌, OnOk};
ghost use Rattle.fw_watch_remarks.specs.Remarks.{told};
ghost use Rattle.fw_watch_known.specs.Heard.{after_heard};
ghost use Rattle.fw_watch.specs.Hearing.{start_remarks, two_remarks, free_remarks, owners_remarks, wrong_remarks, heard_remarks};

use fw_watch_known::{Channel, Heard, Packet, State};
use fw_watch_remarks::{Journal, Remark};
use std::alloc::AllocError;

// Tells that a node began to send.
#[tactic(auto, unfolding(crate::specs::Hearing::start_remarks))]
fn tell_start(journal: &mut Journal, row: &Channel, p: &Packet) -> Result<(), AllocError>
    ensures { OnOk result (journal.new ≡ told journal.old (start_remarks row.now.sender p.now)) }
{
    if row.sender.is_some() {
        return Ok(());
    }
    let remark = Remark::Sends {
        node: p.sid,
        channel: p.channel,
    };
    journal.say(p.cycle, remark)
}

// Tells that a channel has two senders.
#[tactic(auto, unfolding(crate::specs::Hearing::two_remarks))]
fn tell_two(journal: &mut Journal, p: &Packet, first: Option<u8>) -> Result<(), AllocError>
    ensures { OnOk result (journal.new ≡ told journal.old (two_remarks first p.now)) }
{
    let Some(first) = first else {
        return Ok(());
    };
    let remark = Remark::TwoSenders {
        channel: p.channel,
        first,
        second: p.sid,
    };
    journal.say(p.cycle, remark)
}

// Tells that a channel is free.
#[tactic(auto, unfolding(crate::specs::Hearing::free_remarks))]
fn tell_free(journal: &mut Journal, p: &Packet, free: bool) -> Result<(), AllocError>
    ensures { OnOk result (journal.new ≡ told journal.old (free_remarks free p.now)) }
{
    if !free {
        return Ok(());
    }
    let remark = Remark::NotTaken {
        channel: p.channel,
        node: p.sid,
    };
    journal.say(p.cycle, remark)
}

// Tells that the plugs on a channel are of other nodes.
#[tactic(auto, unfolding(crate::specs::Hearing::owners_remarks))]
fn tell_owners(journal: &mut Journal, p: &Packet, owners: u64) -> Result<(), AllocError>
    ensures { OnOk result (journal.new ≡ told journal.old (owners_remarks owners p.now)) }
{
    if owners == 0 {
        return Ok(());
    }
    let remark = Remark::OtherPlug {
        channel: p.channel,
        node: p.sid,
        owners,
    };
    journal.say(p.cycle, remark)
}

// Tells what a packet shows.
#[tactic(auto, using(crate::proofs::WatchLaws::told_more), unfolding(crate::specs::Hearing::wrong_remarks))]
fn tell_heard(journal: &mut Journal, p: &Packet, heard: &Heard) -> Result<(), AllocError>
    ensures { OnOk result (journal.new ≡ told journal.old (wrong_remarks heard.now p.now)) }
{
    tell_two(journal, p, heard.first)?;
    tell_free(journal, p, heard.free)?;
    tell_owners(journal, p, heard.owners)
}

/// Tells what an isochronous packet shows.
#[tactic(auto, using(crate::proofs::WatchLaws::told_more), unfolding(crate::specs::Hearing::heard_remarks))]
pub(crate) fn tell_packet(
    state: &State,
    journal: &mut Journal,
    p: &Packet,
) -> Result<(), AllocError>
    ensures { OnOk result (journal.new ≡ told journal.old (heard_remarks state.now p.now)) }
{
    let row = state.channels.at(p.channel);
    tell_start(journal, &row, p)?;
    tell_heard(journal, p, &state.heard(p))
}

/// Takes an isochronous packet, and tells what it shows.
#[inline(always)]
pub(crate) fn take_iso(
    state: &mut State,
    journal: &mut Journal,
    p: &Packet,
) -> Result<(), AllocError>
    ensures lines { OnOk result (journal.new ≡ told journal.old (heard_remarks state.old p.now)) }
    ensures known { OnOk result (state.new ≡ after_heard state.old p.now) }
{
    if state.is_usual(p) {
        state.hear_usual(p);
        return Ok(());
    }
    tell_packet(state, journal, p)?;
    state.hear(p);
    Ok(())
}
