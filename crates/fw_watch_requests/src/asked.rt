//! What is kept of a request at a watched register, and the answer that a response is to it.

ghost use Rattle.std.specs.Prelude.{◌≡◌, ◌+◌, ◌<◌, ◌==◌, Some, None, if◌then◌else◌};
ghost use Rattle.fw_watch_requests.specs.Standing.{lock_of, asked, is_read, answers, is_of, node_of, answer_by, old_word, made_by, read_answer, lock_answer};

use fw_async::Head;
use fw_watch_remarks::{At, WatchedRegister};
use fw_words::{COMPARE_SWAP, Swap, quadlet_at};

/// What a request asks of a register.
#[derive(Clone, Copy)]
pub enum Asking {
    /// Its word.
    Read,
    /// A quadlet compare_swap.
    Swap(Swap),
    /// Another lock.
    Lock,
}

/// A request at a watched register that no response has answered.
#[derive(Clone, Copy)]
pub struct Asked {
    /// The node_ID of who asked.
    pub source: u16,
    /// The node_ID of who was asked.
    pub destination: u16,
    /// The transaction label, 6 bits.
    pub label: u8,
    /// The register.
    pub register: WatchedRegister,
    /// What is asked.
    pub asking: Asking,
}

/// A complete answer of a node about a watched register.
#[derive(Clone, Copy)]
pub struct Answer {
    /// The register.
    pub at: At,
    /// The node_ID of who asked.
    pub by: u16,
    /// The word that it shows, if it shows one.
    pub found: Option<u32>,
    /// The swap, if it was made and changed something.
    pub swap: Option<Swap>,
}

/// What fills the free places of a list; it has no meaning of its own.
impl Default for Asked {
    fn default() -> Self {
        Asked {
            source: 0,
            destination: 0,
            label: 0,
            register: WatchedRegister::Bandwidth,
            asking: Asking::Read,
        }
    }
}

/// The number of the node with this node_ID, which is of the local bus.
#[inline(always)]
pub fn node_of(id: u16) -> Option<u8>
    ensures { result ≡ node_of id }
{
    if id >= 0xFFC0 {
        Some((id - 0xFFC0) as u8)
    } else {
        None
    }
}

impl Asking {
    // What a lock request asks.
    pub fn of_lock(function: u8, bytes: &[u8]) -> Asking
        ensures { result ≡ lock_of function bytes.now }
    {
        match Swap::of_lock(function, bytes) {
            Some(swap) => Asking::Swap(swap),
            None => Asking::Lock,
        }
    }

    // It asks for the register's word.
    #[inline(always)]
    fn is_read(self) -> bool
        ensures { result ≡ is_read self }
    {
        match self {
            Asking::Read => true,
            Asking::Swap(_) | Asking::Lock => false,
        }
    }

    // The word that a lock response shows.
    #[inline(always)]
    #[tactic(auto, unfolding(crate::specs::Standing::old_word))]
    pub fn old_word(self, function: u8, bytes: &[u8]) -> Option<u32>
        ensures { result ≡ old_word self function bytes.now }
    {
        match self {
            Asking::Swap(_) if function == COMPARE_SWAP && bytes.len() == 4 => {
                Some(quadlet_at(bytes, 0).0)
            }
            _ => None,
        }
    }

    // The swap, if it was made and changed something.
    #[inline(always)]
    #[tactic(auto, unfolding(crate::specs::Standing::made_by))]
    fn made(self, found: Option<u32>) -> Option<Swap>
        ensures { result ≡ made_by self found }
    {
        match (self, found) {
            (Asking::Swap(swap), Some(word))
                if word == swap.argument && swap.new != swap.argument => { Some(swap) }
            _ => None,
        }
    }
}

impl Asked {
    // What is kept of a request at an offset, if a watched register stands there.
    #[inline(always)]
    pub fn new(head: &Head, offset: u64, asking: Asking) -> Option<Asked>
        ensures { result ≡ asked head.now offset asking }
    {
        match WatchedRegister::at(offset) {
            Some(register) => Some(Asked {
                source: head.source,
                destination: head.destination,
                label: head.tl,
                register,
                asking,
            }),
            None => None,
        }
    }

    // A response to a read, or else to a lock, answers it.
    #[inline(always)]
    #[tactic(auto, unfolding(crate::specs::Standing::answers))]
    pub fn is_answered(&self, read: bool, head: &Head) -> bool
        ensures { result ≡ answers read head.now self.now }
    {
        self.source == head.destination
            && self.destination == head.source
            && self.label == head.tl
            && self.asking.is_read() == read
    }

    // It is of the same requester, node and label as a request.
    #[tactic(auto, unfolding(crate::specs::Standing::is_of))]
    pub fn is_of(&self, head: &Head) -> bool
        ensures { result ≡ is_of head.now self.now }
    {
        self.source == head.source && self.destination == head.destination && self.label == head.tl
    }

    // The answer that a response is, which shows this word.
    #[inline(always)]
    pub fn answer(&self, found: Option<u32>) -> Option<Answer>
        ensures { result ≡ answer_by self.now found }
    {
        match node_of(self.destination) {
            Some(node) => Some(Answer {
                at: At {
                    node,
                    register: self.register,
                },
                by: self.source,
                found,
                swap: self.asking.made(found),
            }),
            None => None,
        }
    }

    // The answer that a response to a read with this response code is.
    #[inline(always)]
    pub(crate) fn read_answer(&self, rcode: u8, value: u32) -> Option<Answer>
        ensures { result ≡ if rcode == 0 then read_answer (Some self.now) value else None }
    {
        if rcode == 0 {
            self.answer(Some(value))
        } else {
            None
        }
    }

    // The answer that a response to a lock with this response code is.
    #[inline(always)]
    pub(crate) fn lock_answer(&self, rcode: u8, function: u8, bytes: &[u8]) -> Option<Answer>
        ensures { result ≡ if rcode == 0 then lock_answer (Some self.now) function bytes.now else None }
    {
        if rcode == 0 {
            self.answer(self.asking.old_word(function, bytes))
        } else {
            None
        }
    }
}

/// The node_ID of the node of the local bus with this number.
pub fn node_id(node: u8) -> u16
    requires { node < 64 }
    ensures { result ≡ 0xFFC0 + node }
{
    0xFFC0 + u16::from(node)
}
