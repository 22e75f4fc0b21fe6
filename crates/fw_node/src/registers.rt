//! Request packets to a node, carried out at its registers.

ghost use Rattle.std.specs.Prelude.{◌≡◌, ◌≤◌, ℕ, Some, None, IsSome, IsTrue};
ghost use Rattle.fw_async.specs.Async.{Fits};
ghost use Rattle.std.specs.Option.{option_map};
ghost use Rattle.fw_terms.specs.Devices.{has_link};
ghost use Rattle.fw_csr.specs.Manager.{words_after};
ghost use Rattle.fw_csr.specs.Requests.{offset_of};
ghost use Rattle.fw_csr.specs.Replies.{reply};
ghost use Rattle.fw_tape.specs.Desks.{AnyVendorByte};
ghost use Rattle.fw_node.specs.Packets.{request_in, requester, response_of};
ghost use Rattle.fw_node.specs.Fcp.{HasFollowed};
ghost use Rattle.fw_node.specs.Space.{answer_of, register_at, core_register_at, manager_register_at};
ghost use Rattle.fw_node.specs.State.{after_request, space_of};

use crate::Node;
use crate::request::{request_of, requester};
use crate::response::response;
use crate::words::{COMPANY, NAME_1394, SPLIT_TIMEOUT_LOW, capabilities, cycle_time, node_ids};
use fw_async::Packet;
use fw_csr::offset::{
    BUS_MANAGER_ID, BUS_NAME, BUS_OPTIONS, CHANNELS_AVAILABLE_LO, CYCLE_TIME, EUI_64_HI, EUI_64_LO,
    FCP_COMMAND, FCP_RESPONSE, LAST_PLUG_REGISTER, NODE_IDS, OMPR, SPLIT_TIMEOUT_HI,
    SPLIT_TIMEOUT_LO,
};
use fw_csr::{Manager, RegisterAccess, RegisterRequest, Reply, Request};
use fw_tape::Desk;

impl Node {
    /// Carries a request packet to this node out in cycle `now`, and gives the response packet. From a command frame that is
    /// written to FCP_COMMAND follows that the unit carries it out; its response is the next packet of `outgoing`, which
    /// must have given the response to each command before.
    #[inline(always)]
    pub fn answer<F: Fn(u16, u32, u16) -> [u8; 480], H: Fn(u32, u8) -> u8>(
        &mut self,
        now: u64,
        p: &Packet,
        desk: &Desk<F, H>,
    ) -> Packet<'static>
        requires desk { AnyVendorByte (H.pre desk.now.vendor) }
        requires request { IsSome (request_in p.now) }
        requires link { IsTrue (has_link self.old.kind) }
        requires reset { IsSome self.old.number }
        requires given { self.old.waiting ≡ None }
        ensures response { (number : ℕ) → self.old.number ≡ Some number → response_of (space_of number now self.old) p.now ≡ Some result }
        ensures node { HasFollowed (H.post desk.now.vendor) (requester p.now) (request_in p.now) (after_request (request_in p.now) self.old) self.new }
        ensures fits { Fits p.now → Fits result }
    {
        let response = self.answer_packet(now, p);
        self.follow(requester(p), &request_of(p), desk);
        response
    }

    /// Carries a request packet to this node out at its registers in cycle `now`, and gives the response packet. A write to
    /// FCP_COMMAND is answered, and nothing follows from it.
    #[inline(always)]
    pub fn answer_packet(&mut self, now: u64, p: &Packet) -> Packet<'static>
        requires request { IsSome (request_in p.now) }
        requires link { IsTrue (has_link self.old.kind) }
        requires reset { IsSome self.old.number }
        ensures response { (number : ℕ) → self.old.number ≡ Some number → response_of (space_of number now self.old) p.now ≡ Some result }
        ensures registers { self.new ≡ after_request (request_in p.now) self.old }
        ensures fits { Fits p.now → Fits result }
    {
        let number = match self.number {
            Some(number) => number,
            None => unreachable!(),
        };
        let reply = self.reply(number, now, &request_of(p));
        response(number, p, reply)
    }

    /// What a quadlet read of the register at an offset would be answered in cycle `now`.
    pub fn read(&self, now: u64, offset: u64) -> Reply
        requires { IsSome self.now.number }
        ensures { (number : ℕ) → self.now.number ≡ Some number → result ≡ (answer_of (space_of number now self.now) (Request.Read offset)).reply }
    {
        let number = match self.number {
            Some(number) => number,
            None => unreachable!(),
        };
        match self.register(number, now, offset) {
            Some(register) => Request::Read { offset }.reply_at(register),
            None => Reply::address_error(),
        }
    }

    /// The register at an offset, if there is one.
    fn register(&self, number: u8, now: u64, offset: u64) -> Option<RegisterAccess>
        requires { number ≤ 62 }
        ensures { result ≡ register_at (space_of number now self.now) offset }
    {
        match offset {
            BUS_MANAGER_ID..=CHANNELS_AVAILABLE_LO => self.manager.as_ref()?.register(offset),
            OMPR..=LAST_PLUG_REGISTER => self.plugs.register(offset),
            _ => self.core_register(number, now, offset),
        }
    }

    /// Carries a request out at the register that it is at, if there is one.
    #[inline(always)]
    pub(crate) fn reply<R: RegisterRequest>(&mut self, number: u8, now: u64, r: &R) -> Reply
        requires { number ≤ 62 }
        ensures reply { result ≡ reply (register_at (space_of number now self.old) (offset_of (R.request r.now))) (R.request r.now) }
        ensures registers { self.new ≡ after_request (Some (R.request r.now)) self.old }
        ensures code { result.rcode ≤ 7 }
    {
        let offset = r.offset();
        match offset {
            OMPR..=LAST_PLUG_REGISTER => self.plugs.answer(r),
            // Told apart for themselves, since most requests are at a plug.
            _ => match offset {
                BUS_MANAGER_ID..=CHANNELS_AVAILABLE_LO => manager_reply(&mut self.manager, r),
                _ => self.core_reply(number, now, offset, r),
            },
        }
    }

    /// The reply to a request at a register that each node has, which changes nothing.
    #[inline(always)]
    fn core_reply<R: RegisterRequest>(&self, number: u8, now: u64, offset: u64, r: &R) -> Reply
        requires { number ≤ 62 }
        ensures reply { result ≡ reply (core_register_at (space_of number now self.now) offset) (R.request r.now) }
        ensures code { result.rcode ≤ 7 }
    {
        match self.core_register(number, now, offset) {
            Some(register) => r.reply_at(register),
            None => Reply::address_error(),
        }
    }

    /// The register at an offset, of those that each node has.
    pub(crate) fn core_register(&self, number: u8, now: u64, offset: u64) -> Option<RegisterAccess>
        requires { number ≤ 62 }
        ensures { result ≡ core_register_at (space_of number now self.now) offset }
    {
        match offset {
            NODE_IDS => Some(RegisterAccess::ReadOnly(node_ids(number))),
            SPLIT_TIMEOUT_HI => Some(RegisterAccess::ReadOnly(0)),
            SPLIT_TIMEOUT_LO => Some(RegisterAccess::ReadOnly(SPLIT_TIMEOUT_LOW)),
            CYCLE_TIME => Some(RegisterAccess::ReadOnly(cycle_time(now))),
            BUS_NAME => Some(RegisterAccess::ReadOnly(NAME_1394)),
            BUS_OPTIONS => Some(RegisterAccess::ReadOnly(capabilities(self.kind))),
            EUI_64_HI => Some(RegisterAccess::ReadOnly(COMPANY)),
            EUI_64_LO => Some(RegisterAccess::ReadOnly(u32::from(self.device))),
            FCP_COMMAND if self.kind.has_unit() => Some(RegisterAccess::WriteOnly),
            FCP_RESPONSE => Some(RegisterAccess::WriteOnly),
            _ => None,
        }
    }
}

/// Carries a request out at the manager's registers, if the node is the manager.
#[inline(always)]
fn manager_reply<R: RegisterRequest>(manager: &mut Option<Manager>, r: &R) -> Reply
    ensures reply { result ≡ reply (manager_register_at manager.old (offset_of (R.request r.now))) (R.request r.now) }
    ensures words { manager.new ≡ option_map (λ m. words_after m (R.request r.now)) manager.old }
    ensures code { result.rcode ≤ 7 }
{
    match manager {
        Some(manager) => manager.answer(r),
        None => Reply::address_error(),
    }
}
