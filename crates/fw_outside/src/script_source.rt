ghost use Rattle.std.specs.Prelude.{ℕ, ◌≡◌, ◌<◌, length, min, Some, IsOk, IfOk, OnOk};
ghost use Rattle.std.specs.Io.{ReadsAtMost};
ghost use Rattle.fw_outside.specs.Outside.{HasCause, Reads};

use crate::{Failed, Source, copy_prefix};
use std::marker::Model;

/// A source over bytes in memory, of which no read fails.
#[derive(Drop)]
pub struct ScriptSource {
    bytes: Vec<u8>,
    at: usize,
}

impl Model for ScriptSource {
    ghost use Rattle.std.specs.Prelude.{List, ℕ, ◌≤◌, drop, vec_len};

    ghost Value = { List ℕ };

    ghost view = { λ s. drop s.at s.bytes.items };

    ghost invariant = { λ s. s.at ≤ vec_len s.bytes };
}

impl ScriptSource {
    /// A source of these bytes.
    pub fn new(bytes: Vec<u8>) -> ScriptSource
        ensures { result ≡ bytes.items }
    {
        ScriptSource { bytes, at: 0 }
    }
}

impl Source for ScriptSource {
    ghost left = { λ s. Some s };

    ghost faults = { λ s. 0 };

    fn read(&mut self, into: &mut [u8]) -> Result<usize, Failed>
        requires { 0 < length into.old }
        ensures fits { ReadsAtMost result into.new }
        ensures bytes { Reads (Some self.old) (Some self.new) result into.new }
        ensures cause { HasCause 0 0 result }
        ensures same { OnOk result (◌≡◌ {A = ℕ} 0 0) }
        ensures succeeds { IsOk result }
        ensures count { IfOk result (λ n. n ≡ min (length into.old) (length self.old)) }
    {
        let count = copy_prefix(&self.bytes[self.at..], into);
        self.at += count;
        Ok(count)
    }
}
