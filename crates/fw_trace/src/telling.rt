//! A sink that tells the entries of a log in place of its bytes.

ghost use Rattle.std.specs.Prelude.{◌≡◌, ◌++◌, ◌<◌, [], None, Some, ℕ, List, OnOk, OnErr, true, false, length};
ghost use Rattle.std.specs.Coded.{→_prop, Coded-set, coded_ℕ};
ghost use Rattle.fw_outside.specs.Outside.{HasCause, Writes};
ghost use Rattle.fw_log.specs.Reader.{total};
ghost use Rattle.fw_trace_lines.specs.Commands.{Traced};
ghost use Rattle.fw_trace.specs.Passed.{WasPassed};
ghost use Rattle.fw_trace.specs.Telling.{Tells, TellsBy, fails_by, faults_by};

use crate::entries::take_entries;
use crate::lack::Lack;
use crate::passed::Passed;
use fw_log::{LogReader, ReadBuffers};
use fw_log_latest::LatestReset;
use fw_outside::{Failed, Sink};
use fw_outside_history::{History, Piece};
use fw_trace_lines::Tracer;
use std::snapshot::Snapshot;

mod sink;
mod steps;

pub(crate) use sink::TellingSink;

/// How many bytes of text are much.
const MUCH: usize = 4096;

/// What is told to a sink, and what of the log it was told for. What it was when a command began, and what it was given since, stands in
/// contracts alone.
#[derive(Drop)]
pub(crate) struct Teller<K: Sink> {
    passed: Passed<K>,
    tracer: Tracer,
    latest: LatestReset,
    reader: LogReader,
    room: ReadBuffers,
    count: u64,
    lack: Option<Lack>,
    origin: Snapshot<Tracer>,
    earlier: Snapshot<History>,
    history: History,
    ghost failed: { passed.failed ≡ fails_by lack },
    ghost counted: { lack ≡ None → total reader ≡ count } by { →_prop (Coded-set coded_ℕ (total reader) count) },
    ghost tells: { ∥ TellsBy lack origin.value tracer reader count earlier.value.bytes history.bytes passed.given.bytes ∥₁ },
}

// Passes on what is to be told.
fn pass_on<K: Sink>(
    passed: &mut Passed<K>,
    inner: &mut K,
    tracer: &mut Tracer,
) -> Result<(), Failed>
    requires failed { passed.old.failed ≡ false }
    requires passed { WasPassed passed.old.failed (K.held passed.old.start.value) (K.held inner.old) (K.faults passed.old.start.value) (K.faults inner.old) passed.old.given.bytes }
    ensures start { passed.new.start.value ≡ passed.old.start.value }
    ensures given { passed.new.given.bytes ≡ passed.old.given.bytes ++ tracer.old.text }
    ensures tracer { tracer.new ≡ record tracer.old { text = [] } }
    ensures written { OnOk result (passed.new.failed ≡ false) }
    ensures stopped { OnErr result (passed.new.failed ≡ true) }
    ensures passed { WasPassed passed.new.failed (K.held passed.new.start.value) (K.held inner.new) (K.faults passed.new.start.value) (K.faults inner.new) passed.new.given.bytes }
{
    if tracer.as_slice().is_empty() {
        return Ok(());
    }
    let result = passed.write(inner, tracer.as_slice());
    tracer.clear();
    result
}

// Passes on what is to be told, if it is much: little is passed on with what comes next, at the end of a command at the latest.
fn pass_much<K: Sink>(
    passed: &mut Passed<K>,
    inner: &mut K,
    tracer: &mut Tracer,
) -> Result<(), Failed>
    requires failed { passed.old.failed ≡ false }
    requires passed { WasPassed passed.old.failed (K.held passed.old.start.value) (K.held inner.old) (K.faults passed.old.start.value) (K.faults inner.old) passed.old.given.bytes }
    ensures start { passed.new.start.value ≡ passed.old.start.value }
    ensures given { passed.new.given.bytes ++ tracer.new.text ≡ passed.old.given.bytes ++ tracer.old.text }
    ensures telling { tracer.new.telling ≡ tracer.old.telling }
    ensures written { OnOk result (passed.new.failed ≡ false) }
    ensures stopped { OnErr result (passed.new.failed ≡ true) }
    ensures passed { WasPassed passed.new.failed (K.held passed.new.start.value) (K.held inner.new) (K.faults passed.new.start.value) (K.faults inner.new) passed.new.given.bytes }
{
    if tracer.as_slice().len() < MUCH {
        return Ok(());
    }
    pass_on(passed, inner, tracer)
}

// Reads a piece, and passes on what is told of its entries. Answers what lacks, if anything.
fn tell<K: Sink>(
    passed: &mut Passed<K>,
    inner: &mut K,
    tracer: &mut Tracer,
    latest: &mut LatestReset,
    reader: &mut LogReader,
    room: &mut ReadBuffers,
    count: &mut u64,
    piece: &[u8],
) -> Option<Lack>
    requires failed { passed.old.failed ≡ false }
    requires passed { WasPassed passed.old.failed (K.held passed.old.start.value) (K.held inner.old) (K.faults passed.old.start.value) (K.faults inner.old) passed.old.given.bytes }
    requires counted { total reader.old ≡ count.old }
    ensures start { passed.new.start.value ≡ passed.old.start.value }
    ensures failed { passed.new.failed ≡ fails_by result }
    ensures passed { WasPassed passed.new.failed (K.held passed.new.start.value) (K.held inner.new) (K.faults passed.new.start.value) (K.faults inner.new) passed.new.given.bytes }
    ensures counted { result ≡ None → total reader.new ≡ count.new }
    ensures tells { (origin : Traced) (earlier bytes : List ℕ) → 0 < length piece.now → Tells origin tracer.old reader.old count.old earlier bytes passed.old.given.bytes
        → TellsBy result origin tracer.new reader.new count.new earlier (bytes ++ piece.now) passed.new.given.bytes }
{
    let Some(more) = count.checked_add(piece.len() as u64) else {
        return Some(Lack::Memory);
    };
    *count = more;
    let Ok(()) = take_entries(tracer, latest, reader, room, piece) else {
        return Some(Lack::Memory);
    };
    match pass_much(passed, inner, tracer) {
        Ok(()) => None,
        Err(Failed) => Some(Lack::Sink),
    }
}

impl<K: Sink> Teller<K> {
    // Reads a piece of the log, and tells its entries.
    fn write(&mut self, inner: &mut K, piece: &[u8]) -> Result<(), Failed>
        requires passed { WasPassed self.old.passed.failed (K.held self.old.passed.start.value) (K.held inner.old) (K.faults self.old.passed.start.value) (K.faults inner.old)
            self.old.passed.given.bytes }
        ensures passed { WasPassed self.new.passed.failed (K.held self.new.passed.start.value) (K.held inner.new) (K.faults self.new.passed.start.value) (K.faults inner.new)
            self.new.passed.given.bytes }
        ensures start { self.new.passed.start.value ≡ self.old.passed.start.value }
        ensures origin { self.new.origin.value ≡ self.old.origin.value }
        ensures earlier { self.new.earlier.value.bytes ≡ self.old.earlier.value.bytes }
        ensures bytes { Writes (Some self.old.history.bytes) (Some self.new.history.bytes) result piece.now }
        ensures cause { HasCause (faults_by self.old.lack) (faults_by self.new.lack) result }
        ensures same { OnOk result (faults_by self.new.lack ≡ faults_by self.old.lack) }
    {
        if piece.is_empty() {
            return Ok(());
        }
        if self.lack.is_some() {
            return Err(Failed);
        }
        self.lack = tell(
            &mut self.passed,
            inner,
            &mut self.tracer,
            &mut self.latest,
            &mut self.reader,
            &mut self.room,
            &mut self.count,
            piece,
        );
        self.history = self.history.and(&Piece(piece));
        match self.lack {
            None => Ok(()),
            Some(_) => Err(Failed),
        }
    }
}
