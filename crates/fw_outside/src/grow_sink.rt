ghost use Rattle.std.specs.Prelude.{◌≡◌, ◌≤◌, ◌+◌, [], length, take, Some, IsOk, OnOk, OnErr};
ghost use Rattle.fw_outside.specs.Outside.{HasCause, Writes, counted};

use crate::{Failed, Sink};
use std::alloc::Global;
use std::marker::Model;

/// A sink that tells its bytes, and takes memory as they grow. A write fails only if it needs memory and that is refused.
#[derive(Drop)]
pub struct GrowSink {
    bytes: Vec<u8>,
    faults: u64,
}

impl Model for GrowSink {
    ghost use Rattle.std.specs.Prelude.{vec_capacity};
    ghost use Rattle.fw_outside.specs.Memory.{Kept};

    ghost Value = { Kept };

    ghost view = { λ s. record { held = s.bytes.items; room = vec_capacity s.bytes; faults = s.faults } };
}

impl GrowSink {
    ghost use Rattle.fw_outside.specs.Memory.{Kept};

    /// An empty sink, which has taken no memory yet.
    pub fn new(alloc: Global) -> GrowSink
        ensures held { result.held ≡ [] }
        ensures faults { result.faults ≡ 0 }
    {
        GrowSink {
            bytes: Vec::new(alloc),
            faults: 0,
        }
    }

    /// All that it holds.
    pub fn as_slice(&self) -> &[u8]
        ensures { result.now ≡ self.now.held }
    {
        &self.bytes
    }

    /// Empties it. What memory it has it keeps, for the writes that follow.
    pub fn clear(&mut self)
        ensures held { self.new.held ≡ [] }
        ensures room { self.new.room ≡ self.old.room }
        ensures faults { self.new.faults ≡ self.old.faults }
    {
        self.bytes.clear();
    }
}

impl Sink for GrowSink {
    ghost held = { λ s. Some s.held };

    ghost faults = { λ s. s.faults };

    fn write(&mut self, piece: &[u8]) -> Result<(), Failed>
        ensures bytes { Writes (Some self.old.held) (Some self.new.held) result piece.now }
        ensures cause { HasCause self.old.faults self.new.faults result }
        ensures fits { length self.old.held + length piece.now ≤ self.old.room → IsOk result }
        ensures room { self.old.room ≤ self.new.room }
        ensures same { OnOk result (self.new.faults ≡ self.old.faults) }
        ensures unchanged { OnErr result (self.new.held ≡ self.old.held) }
        ensures risen { OnErr result (self.new.faults ≡ counted self.old.faults) }
    {
        if self.bytes.extend_from_slice(piece).is_err() {
            self.faults = self.faults.saturating_add(1);
            return Err(Failed);
        }
        Ok(())
    }

    #[inline(always)]
    fn write_prefix(&mut self, row: &[u8; 48], count: usize) -> Result<(), Failed>
        requires { count ≤ 48 }
        ensures bytes { Writes (Some self.old.held) (Some self.new.held) result (take count row.now) }
        ensures cause { HasCause self.old.faults self.new.faults result }
        ensures fits { length self.old.held + length (take count row.now) ≤ self.old.room → IsOk result }
        ensures room { self.old.room ≤ self.new.room }
        ensures same { OnOk result (self.new.faults ≡ self.old.faults) }
        ensures unchanged { OnErr result (self.new.held ≡ self.old.held) }
        ensures risen { OnErr result (self.new.faults ≡ counted self.old.faults) }
    {
        self.write(&row[..count])
    }
}
