//! Which packets are responses, what they say, and to which requests.

ghost use Rattle.std.specs.Prelude.{◌≡◌};
ghost use Rattle.fw_log_requests.specs.Requests.{answers, tcode_of};
ghost use Rattle.fw_trace_requests.specs.Replies.{quadlet_of, reply_of};

use fw_async::{Head, Packet};
use fw_log_requests::{Answer, Asked};
use fw_words::quadlet_at;

/// The response code of a response that is complete (IEEE 1394-1995, response codes).
pub(crate) const COMPLETE: u8 = 0;

/// What a response says that is told.
#[derive(Clone, Copy)]
pub struct Reply {
    /// Who sends it to whom, and under which label.
    pub head: Head,
    /// The kind of response that it is.
    pub kind: Answer,
    /// Its response code, 4 bits.
    pub rcode: u8,
    /// The quadlet that it brings: the one that was read, or that a swap found.
    pub word: Option<u32>,
}

// The quadlet of four bytes.
fn quadlet_of(bytes: &[u8]) -> Option<u32>
    ensures { result ≡ quadlet_of bytes.now }
{
    if bytes.len() == 4 {
        Some(quadlet_at(bytes, 0).0)
    } else {
        None
    }
}

impl Reply {
    /// What a packet says, if it is a response.
    #[tactic(auto, unfolding(crate::specs::Replies::reply_of))]
    pub fn of(p: &Packet) -> Option<Reply>
        ensures { result ≡ reply_of p.now }
    {
        match p {
            Packet::WriteReply { head, rcode } => Some(Reply {
                head: *head,
                kind: Answer::Write,
                rcode: *rcode,
                word: None,
            }),
            Packet::ReadQuadletReply { head, rcode, value } => Some(Reply {
                head: *head,
                kind: Answer::ReadQuadlet,
                rcode: *rcode,
                word: Some(*value),
            }),
            Packet::ReadBlockReply { head, rcode, .. } => Some(Reply {
                head: *head,
                kind: Answer::ReadBlock,
                rcode: *rcode,
                word: None,
            }),
            Packet::LockReply {
                head,
                rcode,
                bytes,
                ..
            } => Some(Reply {
                head: *head,
                kind: Answer::Lock,
                rcode: *rcode,
                word: quadlet_of(bytes.as_slice()),
            }),
            _ => None,
        }
    }
}

// The transaction code of a kind of response (IEEE 1394-1995, transaction codes).
fn tcode_of(kind: Answer) -> u8
    ensures { result ≡ tcode_of kind }
{
    match kind {
        Answer::Write => 2,
        Answer::ReadQuadlet => 6,
        Answer::ReadBlock => 7,
        Answer::Lock => 11,
    }
}

// A response of this kind with this head answers a request.
#[tactic(auto, unfolding(fw_log_requests::specs::Requests::answers))]
pub(crate) fn is_answered(q: &Asked, kind: Answer, head: &Head) -> bool
    ensures { result ≡ answers kind head.now q.now }
{
    q.source == head.destination
        && q.destination == head.source
        && q.label == head.tl
        && tcode_of(q.answer) == tcode_of(kind)
}
