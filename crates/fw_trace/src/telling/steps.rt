//! What is told before a command and after it.

ghost use Rattle.std.specs.Prelude.{◌≡◌, ◌++◌, [], None, false, OnOk, IfOk};
ghost use Rattle.fw_trace_lines.specs.Caused.{untold};
ghost use Rattle.fw_trace_names.specs.CausedLines.{caused_text};
ghost use Rattle.fw_trace_lines.specs.Commands.{begun, ended, last_lines};
ghost use Rattle.fw_trace_lines.specs.Lines.{line_text};
ghost use Rattle.fw_trace.specs.Passed.{PassesBy, WasPassed};

use super::{Teller, pass_on};
use crate::lack::Lack;
use crate::passed::Passed;
use fw_log::{LogReader, ReadBuffers};
use fw_log_latest::LatestReset;
use fw_outside::{Failed, Sink};
use fw_outside_history::History;
use fw_script_command::Command;
use fw_trace_lines::Tracer;
use std::alloc::{AllocError, Global};
use std::snapshot::Snapshot;

// Adds a line, and takes its command, which is about to be carried out.
fn put_begun(
    tracer: &mut Tracer,
    number: u32,
    line: &[u8],
    command: &Command,
) -> Result<(), AllocError>
    ensures text { OnOk result (tracer.new.text ≡ tracer.old.text ++ line_text number line.now) }
    ensures kept { OnOk result (tracer.new.telling ≡ begun command.now tracer.old.telling) }
{
    tracer.put_line(number, line)?;
    tracer.begin(command)
}

// What is to be told stands at its beginning.
fn mark<K: Sink>(
    passed: &mut Passed<K>,
    inner: &K,
    origin: &mut Snapshot<Tracer>,
    earlier: &mut Snapshot<History>,
    tracer: &Tracer,
    history: &History,
)
    ensures start { passed.new.start.value ≡ inner.now }
    ensures given { passed.new.given.bytes ≡ [] }
    ensures failed { passed.new.failed ≡ false }
    ensures passed { WasPassed passed.new.failed (K.held passed.new.start.value) (K.held inner.now) (K.faults passed.new.start.value) (K.faults inner.now) passed.new.given.bytes }
    ensures origin { origin.new.value ≡ tracer.now }
    ensures earlier { earlier.new.value.bytes ≡ history.now.bytes }
{
    *passed = Passed::new(inner);
    *origin = Snapshot::of(tracer);
    *earlier = Snapshot::of(history);
}

impl<K: Sink> Teller<K> {
    // Nothing is told yet.
    pub(crate) fn new(alloc: Global, inner: &K) -> Result<Teller<K>, AllocError>
        ensures passed { IfOk result (λ s. WasPassed s.passed.failed (K.held s.passed.start.value) (K.held inner.now) (K.faults s.passed.start.value) (K.faults inner.now) s.passed.given.bytes) }
        ensures start { IfOk result (λ s. s.passed.start.value ≡ inner.now) }
        ensures origin { IfOk result (λ s. s.origin.value ≡ record { text = []; telling = untold }) }
        ensures earlier { IfOk result (λ s. s.earlier.value.bytes ≡ []) }
        ensures history { IfOk result (λ s. s.history.bytes ≡ []) }
        ensures lack { IfOk result (λ s. s.lack ≡ None) }
    {
        let tracer = Tracer::new(alloc);
        let latest = LatestReset::new(alloc)?;
        let reader = LogReader::new(alloc)?;
        let room = ReadBuffers::new(alloc)?;
        let origin = Snapshot::of(&tracer);
        let history = History::new();
        let earlier = Snapshot::of(&history);
        Ok(Teller {
            passed: Passed::new(inner),
            tracer,
            latest,
            reader,
            room,
            count: 0,
            lack: None,
            origin,
            earlier,
            history,
        })
    }

    /// Why nothing more is told, if so.
    pub(crate) fn lack(&self) -> Option<Lack>
        ensures { result ≡ self.now.lack }
    {
        self.lack
    }

    // Tells what is to be told.
    fn tell_on(&mut self, inner: &mut K) -> Result<(), Lack>
        requires lack { self.old.lack ≡ None }
        ensures history { self.new.history.bytes ≡ self.old.history.bytes }
        ensures passed { WasPassed self.new.passed.failed (K.held self.new.passed.start.value) (K.held inner.new) (K.faults self.new.passed.start.value) (K.faults inner.new)
            self.new.passed.given.bytes }
        ensures passes { PassesBy result (K.held inner.old) (K.held inner.new) (K.faults inner.old) (K.faults inner.new) self.old.tracer.text }
        ensures tracer { OnOk result (self.new.tracer ≡ record self.old.tracer { text = [] }) }
        ensures lack { OnOk result (self.new.lack ≡ None) }
    {
        mark(
            &mut self.passed,
            &*inner,
            &mut self.origin,
            &mut self.earlier,
            &self.tracer,
            &self.history,
        );
        let Ok(()) = pass_on(&mut self.passed, inner, &mut self.tracer) else {
            self.lack = Some(Lack::Sink);
            return Err(Lack::Sink);
        };
        self.passed = Passed::new(&*inner);
        self.origin = Snapshot::of(&self.tracer);
        Ok(())
    }

    // Tells a line that says nothing by itself, with what is to be told before it.
    pub(crate) fn tell_line(&mut self, inner: &mut K, number: u32, line: &[u8]) -> Result<(), Lack>
        requires lack { self.old.lack ≡ None }
        ensures history { self.new.history.bytes ≡ self.old.history.bytes }
        ensures passed { WasPassed self.new.passed.failed (K.held self.new.passed.start.value) (K.held inner.new) (K.faults self.new.passed.start.value) (K.faults inner.new)
            self.new.passed.given.bytes }
        ensures passes { PassesBy result (K.held inner.old) (K.held inner.new) (K.faults inner.old) (K.faults inner.new) (self.old.tracer.text ++ line_text number line.now) }
        ensures tracer { OnOk result (self.new.tracer ≡ record self.old.tracer { text = [] }) }
        ensures lack { OnOk result (self.new.lack ≡ None) }
    {
        let added = self.tracer.put_line(number, line);
        mark(
            &mut self.passed,
            &*inner,
            &mut self.origin,
            &mut self.earlier,
            &self.tracer,
            &self.history,
        );
        let Ok(()) = added else {
            return Err(Lack::Memory);
        };
        self.tell_on(inner)
    }

    // Takes a command and its line, before it is carried out: the line is told with what it causes.
    pub(crate) fn begin(
        &mut self,
        inner: &K,
        number: u32,
        line: &[u8],
        command: &Command,
    ) -> Result<(), AllocError>
        requires lack { self.old.lack ≡ None }
        ensures passed { WasPassed self.new.passed.failed (K.held self.new.passed.start.value) (K.held inner.now) (K.faults self.new.passed.start.value) (K.faults inner.now)
            self.new.passed.given.bytes }
        ensures start { self.new.passed.start.value ≡ inner.now }
        ensures text { OnOk result (self.new.origin.value.text ≡ self.old.tracer.text ++ line_text number line.now) }
        ensures kept { OnOk result (self.new.origin.value.telling ≡ begun command.now self.old.tracer.telling) }
        ensures history { self.new.history.bytes ≡ self.old.history.bytes }
        ensures earlier { self.new.earlier.value.bytes ≡ self.old.history.bytes }
        ensures lack { self.new.lack ≡ None }
    {
        let added = put_begun(&mut self.tracer, number, line, command);
        mark(
            &mut self.passed,
            inner,
            &mut self.origin,
            &mut self.earlier,
            &self.tracer,
            &self.history,
        );
        added
    }

    // Takes what comes next without a line that is told with it.
    pub(crate) fn begin_alone(&mut self, inner: &K)
        requires lack { self.old.lack ≡ None }
        ensures passed { WasPassed self.new.passed.failed (K.held self.new.passed.start.value) (K.held inner.now) (K.faults self.new.passed.start.value) (K.faults inner.now)
            self.new.passed.given.bytes }
        ensures start { self.new.passed.start.value ≡ inner.now }
        ensures origin { self.new.origin.value ≡ self.old.tracer }
        ensures history { self.new.history.bytes ≡ self.old.history.bytes }
        ensures earlier { self.new.earlier.value.bytes ≡ self.old.history.bytes }
        ensures lack { self.new.lack ≡ None }
    {
        mark(
            &mut self.passed,
            inner,
            &mut self.origin,
            &mut self.earlier,
            &self.tracer,
            &self.history,
        );
    }

    // Tells the last lines of a command that was carried out, with what is to be told before them.
    pub(crate) fn end(
        &mut self,
        inner: &mut K,
        command: &Command,
        place: Option<(u8, u8)>,
    ) -> Result<(), Lack>
        requires lack { self.old.lack ≡ None }
        ensures history { self.new.history.bytes ≡ self.old.history.bytes }
        ensures passed { WasPassed self.new.passed.failed (K.held self.new.passed.start.value) (K.held inner.new) (K.faults self.new.passed.start.value) (K.faults inner.new)
            self.new.passed.given.bytes }
        ensures passes { PassesBy result (K.held inner.old) (K.held inner.new) (K.faults inner.old) (K.faults inner.new) (self.old.tracer.text ++ caused_text (last_lines self.old.tracer.telling)) }
        ensures text { OnOk result (self.new.tracer.text ≡ []) }
        ensures kept { OnOk result (self.new.tracer.telling ≡ ended command.now place self.old.tracer.telling) }
        ensures lack { OnOk result (self.new.lack ≡ None) }
    {
        let added = self.tracer.end(command, place);
        mark(
            &mut self.passed,
            &*inner,
            &mut self.origin,
            &mut self.earlier,
            &self.tracer,
            &self.history,
        );
        let Ok(()) = added else {
            return Err(Lack::Memory);
        };
        self.tell_on(inner)
    }
}
