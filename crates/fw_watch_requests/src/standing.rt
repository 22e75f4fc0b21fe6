//! The requests at watched registers that stand.

ghost use Rattle.std.specs.Prelude.{◌≡◌, ◌==◌, ◌++◌, ◌∷◌, true, false, [], None, drop, if◌then◌else◌};
ghost use Rattle.fw_async.specs.Reader.{IsPacket, Spells};
ghost use Rattle.fw_async.specs.declared.packet.Packet.{Packet as AsyncPacket};
ghost use Rattle.fw_words.specs.Swaps.{swap_bytes};
ghost use Rattle.fw_words.specs.declared.swap.TheConstants.{COMPARE_SWAP};
ghost use Rattle.fw_watch_requests.specs.Standing.{asked, is_of, lock_of, latest, standing_following, without_answered, without_same, without_source, with_request, answered, read_answer, lock_answer, answer_of};

use crate::asked::{Answer, Asked, Asking};
use crate::taking::{
    ASKERS, asker_of, first_answered, make_room, take_answered, take_same, take_source,
};
use fw_async::{Head, Packet, whole_packet};
use fw_async_glance::{Glance, glance_at};
use fw_request_queue::Queue;
use fw_words::{COMPARE_SWAP, Quadlet, Swap, put_quadlet};
use std::marker::Model;

/// The requests at watched registers that no response has answered since the latest bus reset, the oldest first: at most 256, of
/// which the oldest makes room for a new one. Mostly the oldest is answered first, and none has the source of a new one: nothing is
/// looked for then.
#[derive(Drop)]
pub struct OutstandingRequests {
    queue: Queue<Asked>,
    // Whether an outstanding request may be of a node_ID that ends in these six bits.
    askers: [bool; ASKERS],
}

impl Model for OutstandingRequests {
    ghost use Rattle.std.specs.Prelude.{List};
    ghost use Rattle.fw_watch_requests.specs.declared.asked.Asked.{Asked};
    ghost use Rattle.fw_watch_requests.specs.Kept.{AreKept};

    ghost Value = { List Asked };

    ghost view = { λ s. s.queue };

    ghost invariant = { λ s. AreKept s.askers s.queue };
}

impl OutstandingRequests {
    /// None.
    pub fn new() -> OutstandingRequests
        ensures { result ≡ [] }
    {
        OutstandingRequests {
            queue: Queue::new(),
            askers: [false; ASKERS],
        }
    }

    /// A bus reset ends all.
    pub fn reset(&mut self)
        ensures { self.new ≡ [] }
    {
        self.queue.clear();
        self.askers = [false; ASKERS];
    }

    // A request that asks for no word of a watched register: it ends one of the same requester, node and label.
    #[inline(always)]
    fn end_same(&mut self, head: &Head)
        ensures { self.new ≡ without_same head.now self.old }
    {
        take_same(&mut self.queue, head, self.askers[asker_of(head)]);
    }

    // A request takes the place of one of the same requester, node and label.
    #[inline(always)]
    fn add_request(&mut self, head: &Head, new: Asked)
        requires { is_of head.now new ≡ true }
        ensures { self.new ≡ latest (without_same head.now self.old ++ new ∷ []) }
    {
        let asker = asker_of(head);
        take_same(&mut self.queue, head, self.askers[asker]);
        make_room(&mut self.queue);
        self.queue.push(new);
        self.askers[asker] = true;
    }

    // A request at an offset takes the place of one of the same requester, node and label.
    #[inline(always)]
    #[tactic(auto, unfolding(crate::specs::Standing::is_of))]
    fn ask(&mut self, head: &Head, offset: u64, asking: Asking)
        ensures { self.new ≡ with_request (asked head.now offset asking) (without_same head.now self.old) }
    {
        match Asked::new(head, offset, asking) {
            Some(new) => self.add_request(head, new),
            None => self.end_same(head),
        }
    }

    // The same of a quadlet compare_swap.
    #[inline(always)]
    fn ask_swap(&mut self, head: &Head, offset: u64, swap: Swap)
        ensures { self.new ≡ with_request (asked head.now offset (lock_of COMPARE_SWAP (swap_bytes swap))) (without_same head.now self.old) }
    {
        self.ask(head, offset, Asking::Swap(swap));
    }

    /// Those of a node whose controller died end.
    pub fn end_of(&mut self, source: u16)
        ensures { self.new ≡ without_source source self.old }
    {
        take_source(&mut self.queue, source);
    }

    // The first request stands no longer.
    #[inline(always)]
    fn take_first(&mut self)
        ensures { self.new ≡ drop 1 self.old }
    {
        self.queue.take_first();
        if self.queue.as_slice().is_empty() {
            self.askers = [false; ASKERS];
        }
    }

    // The request that a response answers, wherever it stands, which stands no longer.
    #[inline(never)]
    fn take_answered(&mut self, read: bool, head: Head) -> Option<Asked>
        ensures value { result ≡ answered read head self.old }
        ensures known { self.new ≡ without_answered read head self.old }
    {
        let asked = take_answered(&mut self.queue, read, &head);
        if self.queue.as_slice().is_empty() {
            self.askers = [false; ASKERS];
        }
        asked
    }

    // The answer that a response to a read is.
    #[inline(always)]
    fn take_read(&mut self, head: &Head, rcode: u8, value: u32) -> Option<Answer>
        ensures value { result ≡ if rcode == 0 then read_answer (answered true head.now self.old) value else None }
        ensures known { self.new ≡ without_answered true head.now self.old }
    {
        match first_answered(self.queue.as_slice(), true, head) {
            Some(first) => {
                self.take_first();
                first.read_answer(rcode, value)
            }
            None => match self.take_answered(true, *head) {
                Some(later) => later.read_answer(rcode, value),
                None => None,
            },
        }
    }

    // The answer that a response to a lock is.
    #[inline(always)]
    fn take_lock(&mut self, head: &Head, rcode: u8, function: u8, bytes: &[u8]) -> Option<Answer>
        ensures value { result ≡ if rcode == 0 then lock_answer (answered false head.now self.old) function bytes.now else None }
        ensures known { self.new ≡ without_answered false head.now self.old }
    {
        match first_answered(self.queue.as_slice(), false, head) {
            Some(first) => {
                self.take_first();
                first.lock_answer(rcode, function, bytes)
            }
            None => match self.take_answered(false, *head) {
                Some(later) => later.lock_answer(rcode, function, bytes),
                None => None,
            },
        }
    }

    /// Takes a packet: a request is outstanding from then on, and a response ends the one that it answers. The answer that the packet is,
    /// if it is a complete response to a request that was outstanding.
    #[tactic(auto, unfolding(crate::specs::Standing::standing_following, crate::specs::Standing::answer_of))]
    pub fn take(&mut self, p: &Packet) -> Option<Answer>
        ensures value { result ≡ answer_of self.old p.now }
        ensures known { self.new ≡ standing_following p.now self.old }
    {
        match p {
            Packet::WriteQuadlet { head, .. }
            | Packet::WriteBlock { head, .. }
            | Packet::ReadBlock { head, .. } => {
                self.end_same(head);
                None
            }
            Packet::ReadQuadlet { head, offset } => {
                self.ask(head, *offset, Asking::Read);
                None
            }
            Packet::Lock {
                head,
                offset,
                function,
                bytes,
            } => {
                self.ask(head, *offset, Asking::of_lock(*function, bytes.as_slice()));
                None
            }
            Packet::ReadQuadletReply { head, rcode, value } => {
                self.take_read(head, *rcode, *value)
            }
            Packet::LockReply {
                head,
                rcode,
                function,
                bytes,
            } => self.take_lock(head, *rcode, *function, bytes.as_slice()),
            Packet::WriteReply { .. } | Packet::ReadBlockReply { .. } | Packet::CycleStart { .. } =>
                None,
        }
    }

    // As `take`, from the bytes of a packet that may be of any form. It is no part of the loop over packets.
    #[inline(never)]
    fn take_other(&mut self, bytes: &[u8]) -> Option<Answer>
        requires { IsPacket bytes.now }
        ensures value { (p : AsyncPacket) → Spells p bytes.now → result ≡ answer_of self.old p }
        ensures known { (p : AsyncPacket) → Spells p bytes.now → self.new ≡ standing_following p self.old }
    {
        self.take(&whole_packet(bytes))
    }

    /// As `take`, from the bytes of the packet: of the usual forms no packet is made of them.
    #[inline(always)]
    pub fn take_bytes(&mut self, bytes: &[u8]) -> Option<Answer>
        requires { IsPacket bytes.now }
        ensures value { (p : AsyncPacket) → Spells p bytes.now → result ≡ answer_of self.old p }
        ensures known { (p : AsyncPacket) → Spells p bytes.now → self.new ≡ standing_following p self.old }
    {
        match glance_at(bytes) {
            Glance::Write { head, .. } => {
                self.end_same(&head);
                None
            }
            Glance::WritePair { head, .. } => {
                self.end_same(&head);
                None
            }
            Glance::Read { head, offset } => {
                self.ask(&head, offset, Asking::Read);
                None
            }
            Glance::Swap { head, offset, swap } => {
                self.ask_swap(&head, offset, swap);
                None
            }
            Glance::ReadReply { head, rcode, value } => self.take_read(&head, rcode, value),
            Glance::SwapReply { head, rcode, old } => {
                self.take_lock(&head, rcode, COMPARE_SWAP, &put_quadlet(Quadlet(old)))
            }
            Glance::WriteReply { .. } => None,
            Glance::CycleStart { .. } => None,
            Glance::Other => self.take_other(bytes),
        }
    }
}
