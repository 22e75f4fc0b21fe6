//! The latest request of each node under each label.

ghost use Rattle.std.specs.Prelude.{◌≡◌, ◌<◌, [], None, Some, IsTrue, OnOk, IfSome, length};
ghost use Rattle.std.specs.List.{position};
ghost use Rattle.fw_log_requests.specs.Requests.{asked, asked_by};
ghost use Rattle.fw_trace_requests.specs.Requests.{is_from, AreApart, with_latest, requests_after, latest_asked};

use fw_async::{Head, Packet};
use fw_log_entry::Entry;
use fw_log_requests::{Answer, Asked};
use fw_words::Swap;
use std::alloc::{AllocError, Global};
use std::marker::Model;

/// How many requests it is kept of where they stand: those of 64 nodes under eight labels.
const PLACES: usize = 512;

/// The latest request of each node under each label, since the latest bus reset, and where some of them stand: most are asked for again.
/// Contracts see it as these requests, in the order in which their nodes and labels asked first.
#[derive(Drop)]
pub struct Requests {
    rows: Vec<Asked>,
    places: [u16; PLACES],
}

impl Model for Requests {
    ghost use Rattle.std.specs.Prelude.{◌≡◌, List, length};
    ghost use Rattle.fw_log_requests.specs.declared.asked.Asked.{Asked};
    ghost use Rattle.fw_trace_requests.specs.Requests.{AreApart};

    ghost Value = { List Asked };

    ghost view = { λ r. r.rows.items };

    ghost invariant = { λ r. AreApart r.rows.items × (length r.places ≡ 512) };
}

// Where it is kept in which place a request of a node under a label may stand: any would do.
#[inline(always)]
fn slot_of(source: u16, label: u8) -> usize
    ensures { result < 512 }
{
    (usize::from(source) % 64 + 64 * usize::from(label)) % PLACES
}

impl Requests {
    /// No request.
    pub fn new(alloc: Global) -> Requests
        ensures { result ≡ [] }
    {
        Requests {
            rows: Vec::new(alloc),
            places: [0; PLACES],
        }
    }

    // The place of the request of a node under a label.
    #[inline(always)]
    fn place(&self, source: u16, label: u8) -> Option<usize>
        ensures value { result ≡ position (is_from source label) self.now }
        ensures there { IfSome result (λ at. at < length self.now) }
    {
        let at = usize::from(self.places[slot_of(source, label)]);
        if has_at(&self.rows, at, source, label) {
            return Some(at);
        }
        place_from(&self.rows, source, label)
    }

    /// The latest request of the node that a response goes to, under its label; None if it has asked none since the latest bus reset.
    #[tactic(auto, unfolding(crate::specs::Requests::latest_asked))]
    pub fn latest(&self, head: &Head) -> Option<Asked>
        ensures { result ≡ latest_asked head.now self.now }
    {
        let at = self.place(head.destination, head.tl)?;
        Some(self.rows[at])
    }

    // Keeps where the request of a node under a label stands.
    #[inline(always)]
    fn remember(&mut self, source: u16, label: u8, at: usize)
        ensures { self.new ≡ self.old }
    {
        self.places[slot_of(source, label)] = (at % 65536) as u16;
    }

    // Puts a request in the place of the one before it of its node and label.
    #[inline(always)]
    fn replace(&mut self, at: usize, q: Asked)
        requires found { position (is_from q.source q.label) self.old ≡ Some at }
        requires there { at < length self.old }
        ensures { self.new ≡ with_latest q self.old }
    {
        self.rows[at] = q;
        self.remember(q.source, q.label, at);
    }

    // Appends a request of a node and label that has none.
    #[inline(never)]
    fn append(&mut self, q: Asked) -> Result<(), AllocError>
        requires { position (is_from q.source q.label) self.old ≡ None }
        ensures { OnOk result (self.new ≡ with_latest q self.old) }
    {
        let at = self.rows.len();
        self.rows.push(q)?;
        self.remember(q.source, q.label, at);
        Ok(())
    }

    /// Takes a request, in place of the one before it of its node and label. An error says that memory ran out, and comes for nothing else.
    pub fn ask(&mut self, q: Asked) -> Result<(), AllocError>
        ensures { OnOk result (self.new ≡ with_latest q self.old) }
    {
        match self.place(q.source, q.label) {
            Some(at) => {
                self.replace(at, q);
                Ok(())
            }
            None => self.append(q),
        }
    }

    /// Takes an entry: a bus reset ends all requests, and a packet that is a request is the latest from then on. An error says that memory ran out, and comes for nothing else.
    pub fn take(&mut self, what: &Entry) -> Result<(), AllocError>
        ensures { OnOk result (self.new ≡ requests_after what.now self.old) }
    {
        match what {
            Entry::Reset(_) => self.rows.clear(),
            Entry::Async(p) => {
                if let Some(q) = asked_by(p) {
                    self.ask(q)?;
                }
            }
            _ => {}
        }
        Ok(())
    }
}

// Whether the request in this place is that of a node under a label.
#[inline(always)]
fn has_at(rows: &[Asked], at: usize, source: u16, label: u8) -> bool
    requires { AreApart rows.now }
    ensures value { IsTrue result → position (is_from source label) rows.now ≡ Some at }
    ensures there { IsTrue result → at < length rows.now }
{
    if at >= rows.len() || rows[at].source != source {
        return false;
    }
    rows[at].label == label
}

// The place of the request of a node under a label, which is looked for.
#[inline(never)]
fn place_from(rows: &[Asked], source: u16, label: u8) -> Option<usize>
    ensures value { result ≡ position (is_from source label) rows.now }
    ensures there { IfSome result (λ at. at < length rows.now) }
{
    rows.iter()
        .position(|q| q.source == source && q.label == label)
}

/// What is kept of a request that a response of this kind answers: its offset has 48 bits, and its swap is that of a compare_swap of a quadlet.
#[inline(always)]
pub fn asked(head: &Head, answer: Answer, offset: u64, swap: Option<Swap>) -> Asked
    ensures { result ≡ asked head.now answer offset swap }
{
    Asked {
        source: head.source,
        destination: head.destination,
        label: head.tl,
        answer,
        offset,
        swap,
    }
}

/// What is kept of a packet, if it is a request; None of a response and of a cycle start.
#[tactic(auto, unfolding(fw_log_requests::specs::Requests::asked_by))]
pub fn asked_by(p: &Packet) -> Option<Asked>
    ensures { result ≡ asked_by p.now }
{
    match p {
        Packet::WriteQuadlet { head, offset, .. } | Packet::WriteBlock { head, offset, .. } => {
            Some(asked(head, Answer::Write, *offset, None))
        }
        Packet::ReadQuadlet { head, offset } => {
            Some(asked(head, Answer::ReadQuadlet, *offset, None))
        }
        Packet::ReadBlock { head, offset, .. } => {
            Some(asked(head, Answer::ReadBlock, *offset, None))
        }
        Packet::Lock {
            head,
            offset,
            function,
            bytes,
        } => {
            let swap = Swap::of_lock(*function, bytes.as_slice());
            Some(asked(head, Answer::Lock, *offset, swap))
        }
        _ => None,
    }
}
