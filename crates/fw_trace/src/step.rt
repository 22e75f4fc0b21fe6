//! The step of the word `trace`: a command is carried out, and what it caused is told.

ghost use Rattle.std.specs.Prelude.{◌≡◌, None, Some, Ok, IsFalse, IfNone, IfSome, List, ℕ};
ghost use Rattle.std.specs.declared.option.Option.{Option as Maybe};
ghost use Rattle.std.specs.Option.{is_some};
ghost use Rattle.fw_bus.specs.Buses.{StandsFor, IsCommand};
ghost use Rattle.fw_script_command.specs.declared.command.Command.{Command as Line};
ghost use Rattle.fw_log_entry.specs.declared.entry.Timed.{Timed as TimedEntry};
ghost use Rattle.fw_model_run.specs.Actions.{Action};
ghost use Rattle.fw_model_run.specs.Rules.{Decides};
ghost use Rattle.fw_model_run.specs.Runs.{Run};
ghost use Rattle.fw_model_run.specs.State.{State};
ghost use Rattle.fw_order.specs.declared.order.Order.{Order as AnOrder};
ghost use Rattle.fw_tape.specs.Desks.{AnyBlock, AnyVendorByte};
ghost use Rattle.fw_script_words.specs.Counts.{ReadsOn, WritesOn};
ghost use Rattle.fw_script_words.specs.Going.{Going, IsUnderWay, StepsOn};
ghost use Rattle.fw_trace_lines.specs.Jobs.{connection_of};
ghost use Rattle.fw_trace.specs.Parts.{place_of};
ghost use Rattle.fw_trace.specs.Traces.{stopped_by, ending_by};
ghost use Rattle.fw_trace.specs.Tracing.{Begun, HoldsCommand, TracesOn};

use crate::lack::Lack;
use crate::telling::TellingSink;
use fw_bus::{Bus, Order};
use fw_outside::{Sink, Source, Stop};
use fw_script::ScriptReader;
use fw_script_command::Command;
use fw_script_words::{RunEnding, carry_known, carry_next};
use fw_tape::Desk;

// How a call ends that lacks this.
pub(crate) fn stopped(lack: Lack) -> RunEnding
    ensures { result ≡ stopped_by lack }
{
    match lack {
        Lack::Memory => RunEnding::Stopped(Stop::NoMemory),
        Lack::Sink => RunEnding::Stopped(Stop::WriteFault),
    }
}

// How a call ends whose run ends so: if a write failed, by what the sink lacks.
pub(crate) fn ending_of<K: Sink>(telling: &TellingSink<K>, ending: RunEnding) -> RunEnding
    ensures { result ≡ ending_by telling.now.teller.now.lack ending }
{
    match (ending, telling.lack()) {
        (RunEnding::Stopped(Stop::WriteFault), Some(lack)) => stopped(lack),
        (RunEnding::Stopped(Stop::WriteFault), None) => RunEnding::Stopped(Stop::NoMemory),
        (other, _) => other,
    }
}

// The command asks for a connection.
fn connects(command: &Command) -> bool
    ensures { result ≡ is_some (connection_of command.now) }
{
    matches!(
        command,
        Command::Connect(..) | Command::Broadcast(..) | Command::Listen(..)
    )
}

// The controller whose connection a command asks for, and the slot that it takes.
pub(crate) fn place_of(bus: &Bus, command: &Command) -> Option<(u8, u8)>
    requires spent { IsFalse bus.now.spent }
    requires command { IsCommand command.now }
    ensures { (commands : List Line) (actions : List Action) (log : List TimedEntry) (s : State) (o : AnOrder) → Run commands actions log s → StandsFor bus.now.machine s
        → Decides s command.now (Ok o) → result ≡ place_of o }
{
    // Of most commands no rule is looked at twice.
    if !connects(command) {
        return None;
    }
    match bus.order_of(command) {
        Ok(Order::Connect(device, _, slot)) => Some((device, slot)),
        _ => None,
    }
}

// Carries out the command of the line that is held, if it was looked at, or else the next one, or ends the run.
fn carry_on<S: Source, K: Sink, F: Fn(u16, u32, u16) -> [u8; 480], H: Fn(u32, u8) -> u8>(
    line: Option<(usize, usize)>,
    command: &Command,
    reader: &mut ScriptReader,
    bus: &mut Bus,
    source: &mut S,
    sink: &mut K,
    desk: &Desk<F, H>,
) -> Option<RunEnding>
    requires blocks { AnyBlock (F.pre desk.now.blocks) }
    requires desk { AnyVendorByte (H.pre desk.now.vendor) }
    requires under_way { IsUnderWay (record { blocks = F.post desk.now.blocks; vendor = H.post desk.now.vendor }) (S.left source.old) reader.old bus.old }
    requires line { IfSome line (λ l. HoldsCommand reader.old l command.now) }
    ensures goes { (left held after : Maybe (List ℕ))
        → (g : Going (record { blocks = F.post desk.now.blocks; vendor = H.post desk.now.vendor }) left (S.left source.old) held after reader.old bus.old)
        → StepsOn g (S.left source.new) (K.held sink.old) (K.held sink.new) reader.new bus.new result }
    ensures reads { ReadsOn (S.faults source.old) (S.faults source.new) result }
    ensures writes { WritesOn (K.faults sink.old) (K.faults sink.new) result }
{
    match line {
        Some(line) => carry_known(line, command, reader, bus, sink, desk),
        None => carry_next(reader, bus, source, sink, desk),
    }
}

// Carries out the next command, which is this one, on a line of this length and size, if it has one, or ends the run; and tells what the
// command caused. Its line was taken.
pub(crate) fn carry<S: Source, K: Sink, F: Fn(u16, u32, u16) -> [u8; 480], H: Fn(u32, u8) -> u8>(
    line: Option<(usize, usize)>,
    command: &Command,
    place: Option<(u8, u8)>,
    reader: &mut ScriptReader,
    bus: &mut Bus,
    source: &mut S,
    telling: &mut TellingSink<K>,
    desk: &Desk<F, H>,
) -> Option<RunEnding>
    requires blocks { AnyBlock (F.pre desk.now.blocks) }
    requires desk { AnyVendorByte (H.pre desk.now.vendor) }
    requires under_way { IsUnderWay (record { blocks = F.post desk.now.blocks; vendor = H.post desk.now.vendor }) (S.left source.old) reader.old bus.old }
    requires line { IfSome line (λ l. HoldsCommand reader.old l command.now) }
    requires lack { telling.old.teller.now.lack ≡ None }
    requires waits { telling.old.teller.now.history.bytes ≡ telling.old.teller.now.earlier.value.bytes }
    ensures goes { (left held text : Maybe (List ℕ))
        → Begun (record { blocks = F.post desk.now.blocks; vendor = H.post desk.now.vendor }) left (S.left source.old) held (K.held telling.old.teller.now.passed.start.value)
        reader.old bus.old telling.old.teller.now.origin.value telling.old.teller.now.earlier.value.bytes text command.now place
        → TracesOn (record { blocks = F.post desk.now.blocks; vendor = H.post desk.now.vendor }) left (S.left source.new) held (K.held telling.new.inner.now)
        reader.old reader.new bus.new telling.new.teller.now.tracer telling.new.teller.now.history.bytes result }
    ensures reference { telling.new.inner.ghost_name ≡ telling.old.inner.ghost_name }
    ensures lack { IfNone result (telling.new.teller.now.lack ≡ None) }
    ensures reads { ReadsOn (S.faults source.old) (S.faults source.new) result }
    ensures writes { WritesOn (K.faults telling.old.teller.now.passed.start.value) (K.faults telling.new.inner.now) result }
{
    if let Some(ending) = carry_on(line, command, reader, bus, source, telling, desk) {
        return Some(ending_of(telling, ending));
    }
    match telling.end(command, place) {
        Ok(()) => None,
        Err(lack) => Some(stopped(lack)),
    }
}
