ghost use Rattle.std.specs.Prelude.{◌≡◌};
ghost use Rattle.fw_csr.specs.Requests.{request_at};

use crate::{RegisterAccess, RegisterRequest, Reply};
use fw_words::Swap;
use std::marker::Model;

/// A read, or a compare_swap, of the quadlet at an offset. It stands for the request that it is, and is short if a
/// `Request` is as long as its longest kind.
#[derive(Drop)]
pub struct QuadletAccess {
    offset: u64,
    /// None in a read.
    swap: Option<Swap>,
}

impl Model for QuadletAccess {
    ghost use Rattle.fw_csr.specs.Requests.{request_at};
    ghost use Rattle.fw_csr.specs.declared.request.Request.{Request};

    ghost Value = { Request };

    ghost view = { λ a. request_at a.offset a.swap };
}

impl QuadletAccess {
    /// The read of the quadlet at an offset, or its compare_swap if there is one.
    pub fn new(offset: u64, swap: Option<Swap>) -> QuadletAccess
        ensures { result ≡ request_at offset swap }
    {
        QuadletAccess { offset, swap }
    }

    /// Its offset, and the compare_swap; None in a read.
    pub fn parts(&self) -> (u64, Option<Swap>)
        ensures { self.now ≡ request_at result.0 result.1 }
    {
        (self.offset, self.swap)
    }
}

/// No bytes are put together for it.
impl RegisterRequest for QuadletAccess {
    ghost request = { λ a. a };

    fn offset(&self) -> u64 {
        self.offset
    }

    // By way of its parts: of a value that is read of a field it is not known that it is a quadlet.
    #[tactic(auto, using(crate::proofs::SwapLaws::same_swap))]
    fn swap(&self) -> Option<Swap> {
        let swap = self.parts().1?;
        Some(swap)
    }

    #[tactic(auto, using(crate::proofs::SwapLaws::same_swap))]
    fn reply_at(&self, register: RegisterAccess) -> Reply {
        match (register, self.swap) {
            (RegisterAccess::ReadOnly(word) | RegisterAccess::ReadSwap(word), None) =>
                Reply::complete(word),
            (RegisterAccess::ReadSwap(word), Some(_)) => Reply::complete(word),
            _ => Reply::type_error(),
        }
    }
}
