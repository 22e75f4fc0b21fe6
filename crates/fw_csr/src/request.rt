ghost use Rattle.std.specs.Prelude.{◌≡◌};
ghost use Rattle.fw_csr.specs.Replies.{reply_at};
ghost use Rattle.fw_csr.specs.Requests.{offset_of, swap_in};

use crate::{RegisterAccess, Reply};
use fw_words::{Bytes16, Data, Swap};

/// What is asked of a register, in whatever form it stands.
pub trait RegisterRequest {
    ghost use Rattle.fw_csr.specs.declared.request.Request.{Request};

    /// The request that it is.
    ghost request: { Self → Request };

    /// The offset that it is at.
    fn offset(&self) -> u64
        ensures { result ≡ offset_of (request self.now) };

    /// The quadlet compare_swap that it is. None for each other request, and for each other lock.
    fn swap(&self) -> Option<Swap>
        ensures { result ≡ swap_in (request self.now) };

    /// The reply to it at a register.
    fn reply_at(&self, register: RegisterAccess) -> Reply
        ensures { result ≡ reply_at register (request self.now) };
}

/// What a request packet asks of a node, at a 48-bit destination_offset (IEEE 1394-1995, asynchronous packets). The data
/// of a block lies elsewhere, as in the bytes of its packet.
#[derive(Drop)]
pub enum Request<'a> {
    /// A quadlet read.
    Read {
        offset: u64,
    },
    /// A block read of `length` bytes.
    ReadBlock {
        offset: u64,
        length: u16,
    },
    /// A quadlet write.
    Write {
        offset: u64,
        value: u32,
    },
    /// A block write.
    WriteBlock {
        offset: u64,
        bytes: Data<'a>,
    },
    /// A lock with this extended_tcode and these bytes.
    Lock {
        offset: u64,
        function: u8,
        bytes: Bytes16,
    },
}

impl<'a> RegisterRequest for Request<'a> {
    ghost request = { λ r. r };

    fn offset(&self) -> u64 {
        match self {
            Request::Read { offset }
            | Request::ReadBlock { offset, .. }
            | Request::Write { offset, .. }
            | Request::WriteBlock { offset, .. }
            | Request::Lock { offset, .. } => *offset,
        }
    }

    fn swap(&self) -> Option<Swap> {
        match self {
            Request::Lock {
                function,
                bytes,
                ..
            } => Swap::of_lock(*function, bytes.as_slice()),
            _ => None,
        }
    }

    fn reply_at(&self, register: RegisterAccess) -> Reply {
        match (register, self) {
            (
                RegisterAccess::ReadOnly(word) | RegisterAccess::ReadSwap(word),
                Request::Read { .. },
            ) => { Reply::complete(word) }
            (RegisterAccess::ReadSwap(word), Request::Lock { .. }) if self.swap().is_some() => {
                Reply::complete(word)
            }
            (RegisterAccess::WriteOnly, Request::Write { .. } | Request::WriteBlock { .. }) => {
                Reply::complete(0)
            }
            _ => Reply::type_error(),
        }
    }
}
