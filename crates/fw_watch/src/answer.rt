//! Answers about watched registers.

ghost use Rattle.std.specs.Prelude.{◌≡◌, OnOk};
ghost use Rattle.fw_watch_remarks.specs.Remarks.{told};
ghost use Rattle.fw_async.specs.Reader.{IsPacket, Spells};
ghost use Rattle.fw_async.specs.declared.packet.Packet.{Packet as AsyncPacket};
ghost use Rattle.fw_watch_known.specs.States.{is_manager, manager_by};
ghost use Rattle.fw_watch.specs.Answering.{heed, not_manager_remarks, with_manager, followed_remarks, after_followed, answer_remarks, after_answer, packet_remarks, after_packet};

use crate::found::take_found;
use crate::tell_swap::tell_not_manager;
use fw_async::Packet;
use fw_watch_known::{Answer, Manager, State};
use fw_watch_remarks::{At, Journal, Known};
use std::alloc::AllocError;

/// What is to be done with an answer.
#[derive(Clone, Copy)]
pub enum Heed {
    /// Nothing: there is no such node.
    Ignore,
    /// It is of a node that is not the resource manager.
    Refuse,
    /// It is followed.
    Follow,
}

// A node is the resource manager, or may be, since nothing has said which node is.
#[inline(always)]
fn may_manage(manager: Manager, node: u8) -> bool
    ensures { result ≡ is_manager node (manager_by node manager) }
{
    match manager {
        Manager::Unknown => true,
        Manager::Node(number) => number == node,
        Manager::Absent => false,
    }
}

// What is to be done with an answer.
#[inline(always)]
#[tactic(auto, unfolding(crate::specs::Answering::heed))]
fn how_to_heed(state: &State, at: At) -> Heed
    ensures { result ≡ heed state.now at }
{
    if at.node >= state.count {
        Heed::Ignore
    } else if at.register.is_managed() && !may_manage(state.manager, at.node) {
        Heed::Refuse
    } else {
        Heed::Follow
    }
}

// Tells the swap that an answer of a node has made that is not the resource manager, if it has made one.
#[inline(always)]
#[tactic(auto, unfolding(crate::specs::Answering::not_manager_remarks))]
fn tell_refused(
    state: &State,
    journal: &mut Journal,
    cycle: u64,
    a: &Answer,
) -> Result<(), AllocError>
    ensures { OnOk result (journal.new ≡ told journal.old (not_manager_remarks state.now cycle a.now)) }
{
    match a.swap {
        Some(_) => tell_not_manager(state, journal, cycle, a.by, a.at),
        None => Ok(()),
    }
}

// The node of a register has answered as the resource manager, if the register is one of its.
#[inline(always)]
#[tactic(auto, unfolding(crate::specs::Answering::with_manager))]
fn note_manager(state: &mut State, at: At)
    ensures { state.new ≡ with_manager at state.old }
{
    if !at.register.is_managed() {
        return;
    }
    if let Manager::Unknown = state.manager {
        state.manager = Manager::Node(at.node);
    }
}

// Takes an answer that is followed.
#[inline(always)]
#[tactic(auto, unfolding(crate::specs::Answering::followed_remarks, crate::specs::Answering::after_followed))]
fn follow(
    state: &mut State,
    journal: &mut Journal,
    cycle: u64,
    a: &Answer,
) -> Result<(), AllocError>
    ensures lines { OnOk result (journal.new ≡ told journal.old (followed_remarks cycle a.now state.old)) }
    ensures known { OnOk result (state.new ≡ after_followed cycle a.now state.old) }
{
    note_manager(state, a.at);
    match a.found {
        Some(found) => take_found(state, journal, cycle, a, found),
        None => {
            state.put(a.at, Known::nothing());
            Ok(())
        }
    }
}

// Takes an answer.
#[inline(always)]
#[tactic(auto, unfolding(crate::specs::Answering::answer_remarks, crate::specs::Answering::after_answer))]
fn take_answer(
    state: &mut State,
    journal: &mut Journal,
    cycle: u64,
    a: &Answer,
) -> Result<(), AllocError>
    ensures lines { OnOk result (journal.new ≡ told journal.old (answer_remarks cycle a.now state.old)) }
    ensures known { OnOk result (state.new ≡ after_answer cycle a.now state.old) }
{
    match how_to_heed(state, a.at) {
        Heed::Ignore => Ok(()),
        Heed::Refuse => tell_refused(state, journal, cycle, a),
        Heed::Follow => follow(state, journal, cycle, a),
    }
}

/// Takes an asynchronous packet, and tells what it shows.
#[tactic(auto, unfolding(crate::specs::Answering::packet_remarks, crate::specs::Answering::after_packet))]
pub(crate) fn take_packet(
    state: &mut State,
    journal: &mut Journal,
    cycle: u64,
    p: &Packet,
) -> Result<(), AllocError>
    ensures lines { OnOk result (journal.new ≡ told journal.old (packet_remarks cycle p.now state.old)) }
    ensures known { OnOk result (state.new ≡ after_packet cycle p.now state.old) }
{
    match state.standing.take(p) {
        Some(a) => take_answer(state, journal, cycle, &a),
        None => Ok(()),
    }
}

/// The same from the bytes of a packet.
#[inline(always)]
pub(crate) fn take_packet_bytes(
    state: &mut State,
    journal: &mut Journal,
    cycle: u64,
    bytes: &[u8],
) -> Result<(), AllocError>
    requires { IsPacket bytes.now }
    ensures lines { (p : AsyncPacket) → Spells p bytes.now → OnOk result (journal.new ≡ told journal.old (packet_remarks cycle p state.old)) }
    ensures known { (p : AsyncPacket) → Spells p bytes.now → OnOk result (state.new ≡ after_packet cycle p state.old) }
{
    match state.standing.take_bytes(bytes) {
        Some(a) => take_answer(state, journal, cycle, &a),
        None => Ok(()),
    }
}
