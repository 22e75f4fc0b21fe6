//! A sink, and what is told to it.

ghost use Rattle.std.specs.Prelude.{◌≡◌, ◌++◌, [], None, Some, OnOk};
ghost use Rattle.fw_trace_names.specs.CausedLines.{caused_text};
ghost use Rattle.fw_trace_lines.specs.Commands.{begun, ended, last_lines};
ghost use Rattle.fw_trace_lines.specs.Lines.{line_text};
ghost use Rattle.fw_trace.specs.Framing.{framed};
ghost use Rattle.fw_trace.specs.Passed.{PassesBy, WasPassed, was_passed-prop};
ghost use Rattle.fw_trace.specs.Telling.{faults_by};

use super::Teller;
use crate::lack::Lack;
use fw_outside::{Failed, Sink};
use fw_script_command::Command;
use std::alloc::AllocError;

/// A sink that reads what it is given as a log, and writes to another what is told of its entries.
#[derive(Drop)]
pub(crate) struct TellingSink<'a, 'b, K: Sink> {
    inner: &'a mut K,
    teller: &'b mut Teller<K>,
    ghost passed: { WasPassed teller.now.passed.failed (K.held teller.now.passed.start.value) (K.held inner.now) (K.faults teller.now.passed.start.value) (K.faults inner.now) teller.now.passed.given.bytes } by { was_passed-prop teller.now.passed.failed (K.held teller.now.passed.start.value) (K.held inner.now) (K.faults teller.now.passed.start.value) (K.faults inner.now)
        teller.now.passed.given.bytes },
}

impl<'a, 'b, K: Sink> TellingSink<'a, 'b, K> {
    // A sink that tells what it is given to `inner`.
    pub(crate) fn new(inner: &'a mut K, teller: &'b mut Teller<K>) -> TellingSink<'a, 'b, K>
        requires passed { WasPassed teller.old.passed.failed (K.held teller.old.passed.start.value) (K.held inner.old) (K.faults teller.old.passed.start.value) (K.faults inner.old)
            teller.old.passed.given.bytes }
        ensures reference { result.inner.ghost_name ≡ inner.entry.ghost_name }
        ensures inner { result.inner.now ≡ inner.old }
        ensures teller { result.teller.now ≡ teller.old }
    {
        TellingSink { inner, teller }
    }

    /// Why nothing more is told, if so.
    pub(crate) fn lack(&self) -> Option<Lack>
        ensures { result ≡ self.now.teller.now.lack }
    {
        self.teller.lack()
    }

    // Tells a line that says nothing by itself, with what is to be told before it.
    pub(crate) fn tell_line(&mut self, number: u32, line: &[u8]) -> Result<(), Lack>
        requires lack { self.old.teller.now.lack ≡ None }
        ensures reference { self.new.inner.ghost_name ≡ self.old.inner.ghost_name }
        ensures history { self.new.teller.now.history.bytes ≡ self.old.teller.now.history.bytes }
        ensures passes { PassesBy result (K.held self.old.inner.now) (K.held self.new.inner.now) (K.faults self.old.inner.now) (K.faults self.new.inner.now)
            (self.old.teller.now.tracer.text ++ line_text number line.now) }
        ensures tracer { OnOk result (self.new.teller.now.tracer ≡ record self.old.teller.now.tracer { text = [] }) }
        ensures lack { OnOk result (self.new.teller.now.lack ≡ None) }
    {
        self.teller.tell_line(self.inner, number, line)
    }

    // Takes a command and its line, before it is carried out: the line is told with what it causes.
    pub(crate) fn begin(
        &mut self,
        number: u32,
        line: &[u8],
        command: &Command,
    ) -> Result<(), AllocError>
        requires lack { self.old.teller.now.lack ≡ None }
        ensures reference { self.new.inner.ghost_name ≡ self.old.inner.ghost_name }
        ensures inner { self.new.inner.now ≡ self.old.inner.now }
        ensures start { self.new.teller.now.passed.start.value ≡ self.old.inner.now }
        ensures text { OnOk result (self.new.teller.now.origin.value.text ≡ self.old.teller.now.tracer.text ++ line_text number line.now) }
        ensures kept { OnOk result (self.new.teller.now.origin.value.telling ≡ begun command.now self.old.teller.now.tracer.telling) }
        ensures history { self.new.teller.now.history.bytes ≡ self.old.teller.now.history.bytes }
        ensures earlier { self.new.teller.now.earlier.value.bytes ≡ self.old.teller.now.history.bytes }
        ensures lack { self.new.teller.now.lack ≡ None }
    {
        self.teller.begin(&*self.inner, number, line, command)
    }

    // Takes what comes next without a line that is told with it.
    pub(crate) fn begin_alone(&mut self)
        requires lack { self.old.teller.now.lack ≡ None }
        ensures reference { self.new.inner.ghost_name ≡ self.old.inner.ghost_name }
        ensures inner { self.new.inner.now ≡ self.old.inner.now }
        ensures start { self.new.teller.now.passed.start.value ≡ self.old.inner.now }
        ensures origin { self.new.teller.now.origin.value ≡ self.old.teller.now.tracer }
        ensures history { self.new.teller.now.history.bytes ≡ self.old.teller.now.history.bytes }
        ensures earlier { self.new.teller.now.earlier.value.bytes ≡ self.old.teller.now.history.bytes }
        ensures lack { self.new.teller.now.lack ≡ None }
    {
        self.teller.begin_alone(&*self.inner);
    }

    // Tells the last lines of a command that was carried out, with what is to be told before them.
    pub(crate) fn end(&mut self, command: &Command, place: Option<(u8, u8)>) -> Result<(), Lack>
        requires lack { self.old.teller.now.lack ≡ None }
        ensures reference { self.new.inner.ghost_name ≡ self.old.inner.ghost_name }
        ensures history { self.new.teller.now.history.bytes ≡ self.old.teller.now.history.bytes }
        ensures passes { PassesBy result (K.held self.old.inner.now) (K.held self.new.inner.now) (K.faults self.old.inner.now) (K.faults self.new.inner.now)
            (self.old.teller.now.tracer.text ++ caused_text (last_lines self.old.teller.now.tracer.telling)) }
        ensures text { OnOk result (self.new.teller.now.tracer.text ≡ []) }
        ensures kept { OnOk result (self.new.teller.now.tracer.telling ≡ ended command.now place self.old.teller.now.tracer.telling) }
        ensures lack { OnOk result (self.new.teller.now.lack ≡ None) }
    {
        self.teller.end(self.inner, command, place)
    }
}

impl<'a, 'b, K: Sink> Sink for TellingSink<'a, 'b, K> {
    ghost held = { λ s. Some (framed (
      s.inner.ghost_name,
      (
        K.held s.teller.now.passed.start.value,
        (
          K.faults s.teller.now.passed.start.value,
          (
            s.teller.now.origin.value,
            s.teller.now.earlier.value.bytes,
          ),
        ),
      ),
    ) s.teller.now.history.bytes) };

    ghost faults = { λ s. faults_by s.teller.now.lack };

    fn write(&mut self, piece: &[u8]) -> Result<(), Failed> {
        self.teller.write(self.inner, piece)
    }
}
