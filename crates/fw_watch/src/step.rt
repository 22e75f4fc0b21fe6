//! One entry: what it tells, and what is known after it.

ghost use Rattle.std.specs.Prelude.{◌≡◌, OnOk};
ghost use Rattle.fw_watch_remarks.specs.Remarks.{told};
ghost use Rattle.fw_watch_known.specs.States.{reset_state};
ghost use Rattle.fw_async.specs.Reader.{IsPacket, Spells};
ghost use Rattle.fw_async.specs.declared.packet.Packet.{Packet as AsyncPacket};
ghost use Rattle.fw_log_entry.specs.declared.entry.Entry.TheVariants.{Async, Iso, Reset as ResetOf};
ghost use Rattle.fw_log_entry.specs.declared.entry.ResetEntry.{ResetEntry as AReset};
ghost use Rattle.fw_watch.specs.Holding.{held_remarks};
ghost use Rattle.fw_log_latest.specs.Latest.{IsBusOf};
ghost use Rattle.fw_watch.specs.Steps.{at_cycle, ticked, reset_remarks, shown_at, shown_remarks, after_shown, after_event, what_remarks, after_what, remarks, after};

use crate::answer::{take_packet, take_packet_bytes};
use crate::hear::take_iso;
use crate::held::tell_if_held;
use crate::judge::tell_judged;
use fw_cip::IsoPacket;
use fw_csr::offset::REGISTER_SPACE;
use fw_log_entry::codes::event;
use fw_log_entry::{Entry, EventEntry, ResetEntry, ShownEntry, Timed};
use fw_watch_known::{Packet, State};
use fw_watch_remarks::{At, Journal, Remark, WatchedRegister};
use std::alloc::AllocError;

// Takes a bus reset.
#[tactic(auto, unfolding(crate::specs::Steps::reset_remarks))]
fn take_reset(
    state: &mut State,
    journal: &mut Journal,
    cycle: u64,
    r: &ResetEntry,
) -> Result<(), AllocError>
    ensures lines { OnOk result (journal.new ≡ told journal.old (reset_remarks cycle r.now)) }
    ensures known { OnOk result (state.new ≡ reset_state cycle r.now state.old) }
{
    let remark = Remark::Reset {
        epoch: r.epoch,
        nodes: r.nodes.as_slice().len() as u8,
        manager: r.manager,
    };
    journal.say(cycle, remark)?;
    state.reset(cycle, r);
    Ok(())
}

// Takes an event.
#[tactic(auto, unfolding(crate::specs::Steps::after_event))]
fn take_event(state: &mut State, e: &EventEntry)
    ensures { state.new ≡ after_event e.now state.old }
{
    match e.code {
        event::SECOND_OVER => state.second.end(),
        event::DIED => state.bury(e.device),
        _ => {}
    }
}

// The watched register that a word is shown of, if it is followed.
#[tactic(auto, unfolding(crate::specs::Steps::shown_at))]
fn shown_at(state: &State, s: &ShownEntry) -> Option<At>
    ensures { result ≡ shown_at state.now s.now }
{
    let node = state.node_of_device(s.device)?;
    let register = WatchedRegister::at(REGISTER_SPACE + u64::from(s.offset))?;
    if register.is_managed() && !state.manager.is(node) {
        None
    } else {
        Some(At { node, register })
    }
}

// Takes a shown word.
#[tactic(auto, unfolding(crate::specs::Steps::shown_remarks, crate::specs::Steps::after_shown))]
fn take_shown(
    state: &mut State,
    journal: &mut Journal,
    cycle: u64,
    s: &ShownEntry,
) -> Result<(), AllocError>
    ensures lines { OnOk result (journal.new ≡ told journal.old (shown_remarks cycle s.now state.old)) }
    ensures known { OnOk result (state.new ≡ after_shown s.now state.old) }
{
    let Some(at) = shown_at(state, s) else {
        return Ok(());
    };
    tell_judged(state, journal, cycle, at, s.word)?;
    state.judge(at, s.word);
    Ok(())
}

// Takes what an entry records.
#[tactic(auto, unfolding(crate::specs::Steps::what_remarks, crate::specs::Steps::after_what))]
fn take_what(
    state: &mut State,
    journal: &mut Journal,
    cycle: u64,
    what: &Entry,
) -> Result<(), AllocError>
    ensures lines { OnOk result (journal.new ≡ told journal.old (what_remarks cycle what.now state.old)) }
    ensures known { OnOk result (state.new ≡ after_what cycle what.now state.old) }
{
    match what {
        Entry::Reset(reset) => take_reset(state, journal, cycle, reset.get()),
        Entry::Async(packet) => take_packet(state, journal, cycle, packet),
        Entry::Iso(packet) => {
            let heard = Packet {
                cycle,
                channel: packet.channel,
                sid: packet.cip.sid,
            };
            take_iso(state, journal, &heard)
        }
        Entry::Event(event) => {
            take_event(state, event);
            Ok(())
        }
        Entry::Outcome(_) | Entry::End => Ok(()),
        Entry::Shown(shown) => take_shown(state, journal, cycle, shown),
    }
}

// The time is this cycle: tells the channels that are late.
#[inline(always)]
#[tactic(auto, unfolding(crate::specs::Steps::ticked))]
fn tick(state: &mut State, journal: &mut Journal, cycle: u64) -> Result<(), AllocError>
    ensures lines { OnOk result (journal.new ≡ told journal.old (held_remarks 64 cycle state.old)) }
    ensures known { OnOk result (state.new ≡ ticked cycle state.old) }
{
    tell_if_held(state, journal, cycle)?;
    state.second.tick(cycle);
    Ok(())
}

/// Takes an entry, and tells what it shows.
#[tactic(auto, using(crate::proofs::WatchLaws::told_more), unfolding(crate::specs::Steps::remarks, crate::specs::Steps::after, crate::specs::Steps::ticked))]
pub(crate) fn follow_entry(
    state: &mut State,
    journal: &mut Journal,
    t: &Timed,
) -> Result<(), AllocError>
    ensures lines { OnOk result (journal.new ≡ told journal.old (remarks state.old t.now)) }
    ensures known { OnOk result (state.new ≡ after state.old t.now) }
{
    tick(state, journal, t.cycle)?;
    take_what(state, journal, t.cycle, &t.what)
}

/// Takes an asynchronous packet by its bytes, and tells what it shows.
#[inline(never)]
pub(crate) fn step_packet(
    state: &mut State,
    journal: &mut Journal,
    cycle: u64,
    bytes: &[u8],
) -> Result<(), AllocError>
    requires { IsPacket bytes.now }
    ensures lines { (p : AsyncPacket) → Spells p bytes.now → OnOk result (journal.new ≡ told journal.old (remarks state.old (at_cycle cycle (Async p)))) }
    ensures known { (p : AsyncPacket) → Spells p bytes.now → OnOk result (state.new ≡ after state.old (at_cycle cycle (Async p))) }
{
    tick(state, journal, cycle)?;
    take_packet_bytes(state, journal, cycle, bytes)
}

/// Takes an isochronous packet, and tells what it shows.
#[inline(always)]
pub(crate) fn step_iso(
    state: &mut State,
    journal: &mut Journal,
    cycle: u64,
    p: &IsoPacket,
) -> Result<(), AllocError>
    ensures lines { OnOk result (journal.new ≡ told journal.old (remarks state.old (at_cycle cycle (Iso p.now)))) }
    ensures known { OnOk result (state.new ≡ after state.old (at_cycle cycle (Iso p.now))) }
{
    let heard = Packet {
        cycle,
        channel: p.channel,
        sid: p.cip.sid,
    };
    tick(state, journal, cycle)?;
    take_iso(state, journal, &heard)
}

/// Takes a bus reset, of which the epoch, the nodes and the resource manager are these, and tells what it shows.
pub(crate) fn step_reset(
    state: &mut State,
    journal: &mut Journal,
    cycle: u64,
    r: &ResetEntry,
) -> Result<(), AllocError>
    ensures lines { (whole : AReset) → IsBusOf whole r.now → OnOk result (journal.new ≡ told journal.old (remarks state.old (at_cycle cycle (ResetOf whole)))) }
    ensures known { (whole : AReset) → IsBusOf whole r.now → OnOk result (state.new ≡ after state.old (at_cycle cycle (ResetOf whole))) }
{
    tick(state, journal, cycle)?;
    take_reset(state, journal, cycle, r)
}
