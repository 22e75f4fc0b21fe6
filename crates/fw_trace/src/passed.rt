//! What a sink was given since a command began.

ghost use Rattle.std.specs.Prelude.{◌≡◌, ◌++◌, [], true, false, OnOk, OnErr};
ghost use Rattle.fw_trace.specs.Passed.{WasPassed};

use fw_outside::{Failed, Sink};
use fw_outside_history::{History, Piece};
use std::snapshot::Snapshot;

/// What a sink was given, until it failed. `start` is the sink as it was when a command began, and `given` are the bytes that it was given
/// since; both stand in contracts alone.
#[derive(Drop)]
pub(crate) struct Passed<K: Sink> {
    failed: bool,
    start: Snapshot<K>,
    given: History,
}

impl<K: Sink> Passed<K> {
    // Nothing was written.
    #[tactic(auto, using(crate::proofs::PassedLaws::passes_nothing))]
    pub(crate) fn new(inner: &K) -> Passed<K>
        ensures start { result.start.value ≡ inner.now }
        ensures given { result.given.bytes ≡ [] }
        ensures failed { result.failed ≡ false }
        ensures passed { WasPassed result.failed (K.held result.start.value) (K.held inner.now) (K.faults result.start.value) (K.faults inner.now) result.given.bytes }
    {
        Passed {
            failed: false,
            start: Snapshot::of(inner),
            given: History::new(),
        }
    }

    // Writes a piece.
    #[tactic(auto, using(crate::proofs::PassedLaws::passes_more, crate::proofs::PassedLaws::passes_prefix))]
    pub(crate) fn write(&mut self, inner: &mut K, piece: &[u8]) -> Result<(), Failed>
        requires failed { self.old.failed ≡ false }
        requires passed { WasPassed self.old.failed (K.held self.old.start.value) (K.held inner.old) (K.faults self.old.start.value) (K.faults inner.old) self.old.given.bytes }
        ensures start { self.new.start.value ≡ self.old.start.value }
        ensures given { self.new.given.bytes ≡ self.old.given.bytes ++ piece.now }
        ensures written { OnOk result (self.new.failed ≡ false) }
        ensures failed { OnErr result (self.new.failed ≡ true) }
        ensures passed { WasPassed self.new.failed (K.held self.new.start.value) (K.held inner.new) (K.faults self.new.start.value) (K.faults inner.new) self.new.given.bytes }
    {
        self.given = self.given.and(&Piece(piece));
        match inner.write(piece) {
            Ok(()) => Ok(()),
            Err(Failed) => {
                self.failed = true;
                Err(Failed)
            }
        }
    }
}
