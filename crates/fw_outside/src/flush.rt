ghost use Rattle.std.specs.Prelude.{◌≡◌, List, ℕ, Bool, true, false, [], take, IsTrue, IsOk, OnOk, OnErr};
ghost use Rattle.fw_outside.specs.Outside.{Rose};

use crate::{BufferedSink, Failed, GrowSink, MemSink, Nowhere, Sink};
use std::io::Write;

/// A sink that may keep bytes back.
pub trait Flush: Sink {
    /// The bytes that it keeps back.
    ghost kept: { Self → List ℕ };

    /// Whether it passes each piece on as it is written, so that a last flush has nothing to do.
    ghost at_once: { Self → Bool };

    /// Passes on what is kept back.
    fn pass_all(&mut self) -> Result<(), Failed>
        ensures held { Self.held self.new ≡ Self.held self.old }
        ensures empty { OnOk result (kept self.new ≡ []) }
        ensures same { OnOk result (Self.faults self.new ≡ Self.faults self.old) }
        ensures risen { OnErr result (Rose (Self.faults self.old) (Self.faults self.new)) }
        ensures at_once { IsTrue (at_once self.old) → (self.new ≡ self.old) × IsOk result };
}

impl<W: Write> Flush for BufferedSink<W> {
    ghost kept = { λ s. take s.length s.bytes };

    ghost at_once = { λ _. false };

    fn pass_all(&mut self) -> Result<(), Failed> {
        self.flush()
    }
}

impl Flush for MemSink {
    ghost kept = { λ _. [] };

    ghost at_once = { λ _. true };

    fn pass_all(&mut self) -> Result<(), Failed> {
        Ok(())
    }
}

impl Flush for GrowSink {
    ghost kept = { λ _. [] };

    ghost at_once = { λ _. true };

    fn pass_all(&mut self) -> Result<(), Failed> {
        Ok(())
    }
}

impl Flush for Nowhere {
    ghost kept = { λ _. [] };

    ghost at_once = { λ _. true };

    fn pass_all(&mut self) -> Result<(), Failed> {
        Ok(())
    }
}
