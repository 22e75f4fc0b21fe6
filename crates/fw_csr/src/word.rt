ghost use Rattle.std.specs.Prelude.{◌≡◌, ◌≢◌};
ghost use Rattle.fw_csr.specs.declared.register.RegisterAccess.TheVariants.{ReadSwap};
ghost use Rattle.fw_csr.specs.Replies.{reply_at, word_after};

use crate::{RegisterAccess, RegisterRequest, Reply};
use std::marker::Model;

/// A register that can be read, and changed by a quadlet compare_swap alone (IEEE 1394-1995, compare_swap).
#[derive(Clone, Copy, PartialEq, Eq)]
pub struct Word {
    value: u32,
}

impl Model for Word {
    ghost use Rattle.std.specs.Prelude.{ℕ};

    ghost Value = { ℕ };

    ghost view = { λ w. w.value };

    ghost inverse = { λ n. record { value = n } };
}

impl Default for Word {
    fn default() -> Self
        ensures { result ≡ 0 }
    {
        Word { value: 0 }
    }
}

impl Word {
    /// A register with this value.
    pub fn new(value: u32) -> Word
        ensures { result ≡ value }
    {
        Word { value }
    }

    /// The register's value.
    pub fn get(&self) -> u32
        ensures { result ≡ self.now }
    {
        self.value
    }

    /// A compare_swap: answers the old value, and stores `new` exactly if the old value equals `arg`.
    pub fn lock(&mut self, arg: u32, new: u32) -> u32
        ensures old { result ≡ self.old }
        ensures stored { self.old ≡ arg → self.new ≡ new }
        ensures kept { self.old ≢ arg → self.new ≡ self.old }
    {
        let old = self.value;
        if old == arg {
            self.value = new;
        }
        old
    }

    /// Carries a request at this register out.
    #[tactic(auto, using(crate::proofs::SwapLaws::swap_replied))]
    pub fn answer<R: RegisterRequest>(&mut self, r: &R) -> Reply
        ensures reply { result ≡ reply_at (ReadSwap self.old) (R.request r.now) }
        ensures word { self.new ≡ word_after self.old (R.request r.now) }
    {
        match r.swap() {
            Some(swap) => Reply::complete(self.lock(swap.argument, swap.new)),
            None => r.reply_at(RegisterAccess::ReadSwap(self.value)),
        }
    }
}
