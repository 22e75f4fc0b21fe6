//! What is kept of a request until it is answered.

ghost use Rattle.std.specs.Prelude.{◌≡◌};

use fw_async::{Head, Packet, Tcode};
use fw_words::Swap;

/// The kind of response that answers a request (IEEE 1394-1995, transaction codes).
#[derive(Clone, Copy)]
pub enum Answer {
    /// A write response.
    Write,
    /// A read response for a data quadlet.
    ReadQuadlet,
    /// A read response for a data block.
    ReadBlock,
    /// A lock response.
    Lock,
}

impl Answer {
    ghost use Rattle.fw_async_fields.specs.Tcode.{code_of};
    ghost use Rattle.fw_log_requests.specs.Requests.{tcode_of};

    // Its transaction code.
    fn tcode(self) -> Tcode
        ensures { code_of result ≡ tcode_of self }
    {
        match self {
            Answer::Write => Tcode::WriteReply,
            Answer::ReadQuadlet => Tcode::ReadQuadletReply,
            Answer::ReadBlock => Tcode::ReadBlockReply,
            Answer::Lock => Tcode::LockReply,
        }
    }
}

/// What is kept of a request until it is answered.
#[derive(Clone, Copy)]
pub struct Asked {
    /// The node_ID of who asked.
    pub source: u16,
    /// The node_ID of who was asked.
    pub destination: u16,
    /// The transaction label, 6 bits.
    pub label: u8,
    /// The kind of response that answers it.
    pub answer: Answer,
    /// The offset, 48 bits.
    pub offset: u64,
    /// The two words of a quadlet compare_swap; none of another request.
    pub swap: Option<Swap>,
}

/// What fills the free places of a list; it has no meaning of its own.
impl Default for Asked {
    fn default() -> Self {
        Asked {
            source: 0,
            destination: 0,
            label: 0,
            answer: Answer::Write,
            offset: 0,
            swap: None,
        }
    }
}

impl Asked {
    ghost use Rattle.fw_log_requests.specs.Requests.{asked, asked_by, answers, is_same};

    /// What is kept of a request that a response of this kind answers.
    #[inline(always)]
    pub fn new(head: &Head, answer: Answer, offset: u64, swap: Option<Swap>) -> Asked
        ensures { result ≡ asked head.now answer offset swap }
    {
        Asked {
            source: head.source,
            destination: head.destination,
            label: head.tl,
            answer,
            offset,
            swap,
        }
    }

    /// What is kept of a packet, if it is a request.
    #[tactic(auto, unfolding(crate::specs::Requests::asked_by))]
    pub fn by(p: &Packet) -> Option<Asked>
        ensures { result ≡ asked_by p.now }
    {
        match p {
            Packet::WriteQuadlet { head, offset, .. } | Packet::WriteBlock { head, offset, .. } => {
                Some(Asked::new(head, Answer::Write, *offset, None))
            }
            Packet::ReadQuadlet { head, offset } => {
                Some(Asked::new(head, Answer::ReadQuadlet, *offset, None))
            }
            Packet::ReadBlock { head, offset, .. } => {
                Some(Asked::new(head, Answer::ReadBlock, *offset, None))
            }
            Packet::Lock {
                head,
                offset,
                function,
                bytes,
            } => {
                let swap = Swap::of_lock(*function, bytes.as_slice());
                Some(Asked::new(head, Answer::Lock, *offset, swap))
            }
            _ => None,
        }
    }

    /// A response of this kind with this head answers it.
    #[tactic(auto, unfolding(crate::specs::Requests::answers))]
    pub fn is_answered(&self, answer: Answer, head: &Head) -> bool
        ensures { result ≡ answers answer head.now self.now }
    {
        self.source == head.destination
            && self.destination == head.source
            && self.label == head.tl
            && self.answer.tcode().code() == answer.tcode().code()
    }

    /// Another request has its source, destination and label.
    #[tactic(auto, unfolding(crate::specs::Requests::is_same))]
    pub fn is_same(&self, other: &Asked) -> bool
        ensures { result ≡ is_same self.now other.now }
    {
        self.source == other.source
            && self.destination == other.destination
            && self.label == other.label
    }
}
