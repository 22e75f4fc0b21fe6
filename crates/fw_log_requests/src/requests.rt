//! The outstanding requests.

ghost use Rattle.std.specs.Prelude.{◌≡◌, ◌<◌, ◌≤◌, ◌%◌, ◌++◌, ◌∷◌, [], List, IfSome, IsTrue, length, true, false};
ghost use Rattle.fw_log_requests.specs.declared.asked.Asked.{Asked as AnAsked};
ghost use Rattle.std.specs.List.{position};
ghost use Rattle.fw_log_requests.specs.Requests.{answers, with_request, without_answered, without_same, latest, standing_following, standing_after, answered};
ghost use Rattle.fw_log_requests.specs.Standing.{AreApart, AreOthers};

use crate::asked::{Answer, Asked};
use fw_async::{Head, Packet};
use fw_log_entry::Entry;
use fw_request_queue::Queue;
use std::marker::Model;

/// How many requests are outstanding at most.
const MOST: usize = 256;

/// How many last numbers of nodes are told apart when a new request is looked for.
const ASKERS: usize = 64;

/// The requests that no response has answered since the latest bus reset, the oldest first: at most 256, of which the oldest makes
/// room for a new one. Mostly the oldest is answered first, and none has the source of a new one: nothing is looked for then.
#[derive(Drop)]
pub struct Requests {
    queue: Queue<Asked>,
    // Whether an outstanding request may be of a node_ID that ends in these six bits.
    askers: [bool; ASKERS],
}

impl Model for Requests {
    ghost use Rattle.std.specs.Prelude.{List};
    ghost use Rattle.fw_log_requests.specs.declared.asked.Asked.{Asked};
    ghost use Rattle.fw_log_requests.specs.Standing.{AreKept};

    ghost Value = { List Asked };

    ghost view = { λ r. r.queue };

    ghost invariant = { λ r. AreKept r.askers r.queue };
}

// The last six bits of the node_ID of who asked.
fn asker_of(q: &Asked) -> usize
    ensures { result ≡ q.now.source % 64 }
{
    usize::from(q.source) % ASKERS
}

impl Requests {
    /// None.
    pub fn new() -> Requests
        ensures { result ≡ [] }
    {
        Requests {
            queue: Queue::new(),
            askers: [false; ASKERS],
        }
    }

    /// None any more.
    pub fn clear(&mut self)
        ensures { self.new ≡ [] }
    {
        self.queue.clear();
        self.askers = [false; ASKERS];
    }

    /// The request that a response of this kind with this head answers, if one that stands is it.
    #[inline(always)]
    pub fn answered(&self, answer: Answer, head: &Head) -> Option<Asked>
        ensures { result ≡ answered answer head.now self.now }
    {
        asked_at(self.queue.as_slice(), answer, head)
    }

    /// Takes the request away that such a response answers.
    #[inline(always)]
    pub fn take_answered(&mut self, answer: Answer, head: &Head)
        ensures { self.new ≡ without_answered answer head.now self.old }
    {
        take_answered(&mut self.queue, answer, head);
        if self.queue.as_slice().is_empty() {
            self.askers = [false; ASKERS];
        }
    }

    /// Appends a request in place of one with its source, destination and label.
    #[inline(always)]
    pub fn ask(&mut self, new: Asked)
        ensures { self.new ≡ with_request new self.old }
    {
        let asker = asker_of(&new);
        take_same(&mut self.queue, &new, self.askers[asker]);
        make_room(&mut self.queue);
        self.queue.push(new);
        self.askers[asker] = true;
    }

    // Takes a packet.
    #[tactic(auto, unfolding(crate::specs::Requests::standing_following))]
    fn take_packet(&mut self, p: &Packet)
        ensures { self.new ≡ standing_following p.now self.old }
    {
        match p {
            Packet::WriteReply { head, .. } => self.take_answered(Answer::Write, head),
            Packet::ReadQuadletReply { head, .. } => {
                self.take_answered(Answer::ReadQuadlet, head)
            }
            Packet::ReadBlockReply { head, .. } => self.take_answered(Answer::ReadBlock, head),
            Packet::LockReply { head, .. } => self.take_answered(Answer::Lock, head),
            request => {
                if let Some(new) = Asked::by(request) {
                    self.ask(new);
                }
            }
        }
    }

    /// Takes an entry: a bus reset ends all, a request is outstanding from then on, and a response ends the one that it answers.
    pub fn take(&mut self, what: &Entry)
        ensures { self.new ≡ standing_after what.now self.old }
    {
        match what {
            Entry::Reset(_) => self.clear(),
            Entry::Async(p) => self.take_packet(p),
            _ => {}
        }
    }
}

// The place of the request that a response answers.
fn place_of(rows: &[Asked], answer: Answer, head: &Head) -> Option<usize>
    ensures value { result ≡ position (answers answer head.now) rows.now }
    ensures there { IfSome result (λ at. at < length rows.now) }
{
    rows.iter().position(|q| q.is_answered(answer, head))
}

// The request that a response answers.
#[tactic(auto, unfolding(crate::specs::Requests::answered))]
fn asked_at(rows: &[Asked], answer: Answer, head: &Head) -> Option<Asked>
    ensures { result ≡ answered answer head.now rows.now }
{
    match place_of(rows, answer, head) {
        Some(at) => Some(rows[at]),
        None => None,
    }
}

// Whether there is a first request, and a response answers it.
fn is_first_answered(rows: &[Asked], answer: Answer, head: &Head) -> bool
    ensures some { IsTrue result → 0 < length rows.now }
    ensures answered { IsTrue result → (q : AnAsked) → (rest : List AnAsked) → rows.now ≡ q ∷ rest → answers answer head.now q ≡ true }
{
    match rows.first() {
        Some(first) => first.is_answered(answer, head),
        None => false,
    }
}

// Keeps the requests that a response does not answer.
fn retain_others(queue: &mut Queue<Asked>, answer: Answer, head: &Head)
    ensures { queue.new ≡ without_answered answer head.now queue.old }
{
    queue.retain(|q| !q.is_answered(answer, head));
}

// Takes the request away that a response answers: mostly the first.
fn take_answered(queue: &mut Queue<Asked>, answer: Answer, head: &Head)
    requires { AreApart queue.old }
    ensures { queue.new ≡ without_answered answer head.now queue.old }
{
    if is_first_answered(queue.as_slice(), answer, head) {
        queue.take_first();
    } else {
        retain_others(queue, answer, head);
    }
}

// Keeps the requests that have another source, destination or label than a new one.
fn retain_apart(queue: &mut Queue<Asked>, new: &Asked)
    ensures { queue.new ≡ without_same new.now queue.old }
{
    queue.retain(|q| !new.is_same(q));
}

// Takes those away that have the source, destination and label of a new one, if one may be from its source.
fn take_same(queue: &mut Queue<Asked>, new: &Asked, may_be: bool)
    requires { may_be ≡ false → AreOthers new.now queue.old }
    ensures { queue.new ≡ without_same new.now queue.old }
{
    if may_be {
        retain_apart(queue, new);
    }
}

// The oldest request makes room for a new one, if as many stand as can.
fn make_room(queue: &mut Queue<Asked>)
    requires { length queue.old ≤ 256 }
    ensures room { length queue.new < 256 }
    ensures latest { (new : AnAsked) → queue.new ++ new ∷ [] ≡ latest (queue.old ++ new ∷ []) }
{
    if queue.as_slice().len() == MOST {
        queue.take_first();
    }
}
