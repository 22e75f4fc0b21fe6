//! The lines of a script, one after another.

ghost use Rattle.std.specs.Prelude.{◌≡◌, ◌⊎◌, None, IfNone};
ghost use Rattle.fw_script.specs.Reader.{HoldsLine};
ghost use Rattle.fw_script.specs.declared.stage.ReaderStage.TheVariants.{Done as AtEnd};
ghost use Rattle.fw_tape.specs.Desks.{AnyBlock, AnyVendorByte};
ghost use Rattle.fw_script_words.specs.Counts.{ReadsOn, WritesOn};
ghost use Rattle.fw_trace.specs.Tracing.{HoldsCommand, HoldsNoCommand, IsTracing, TracesFrom};

use crate::step::{carry, place_of, stopped};
use crate::telling::TellingSink;
use fw_bus::Bus;
use fw_outside::{Sink, Source, Stop};
use fw_script::{Said, ScriptReader};
use fw_script_command::Command;
use fw_script_words::RunEnding;
use fw_tape::Desk;

// Carries out the end, or ends the run: no command stands next.
fn carry_alone<S: Source, K: Sink, F: Fn(u16, u32, u16) -> [u8; 480], H: Fn(u32, u8) -> u8>(
    reader: &mut ScriptReader,
    bus: &mut Bus,
    source: &mut S,
    telling: &mut TellingSink<K>,
    desk: &Desk<F, H>,
) -> Option<RunEnding>
    requires blocks { AnyBlock (F.pre desk.now.blocks) }
    requires desk { AnyVendorByte (H.pre desk.now.vendor) }
    requires tracing { IsTracing (record { blocks = F.post desk.now.blocks; vendor = H.post desk.now.vendor })
        (S.left source.old) (K.held telling.old.inner.now) reader.old bus.old telling.old.teller.now.tracer telling.old.teller.now.history.bytes }
    requires none { (reader.old.stage ≡ AtEnd) ⊎ HoldsNoCommand reader.old }
    requires lack { telling.old.teller.now.lack ≡ None }
    ensures goes { TracesFrom (record { blocks = F.post desk.now.blocks; vendor = H.post desk.now.vendor }) (S.left source.old) (S.left source.new)
        (K.held telling.old.inner.now) (K.held telling.new.inner.now) reader.old reader.new bus.old bus.new telling.old.teller.now.tracer telling.new.teller.now.tracer
        telling.old.teller.now.history.bytes telling.new.teller.now.history.bytes result }
    ensures reference { telling.new.inner.ghost_name ≡ telling.old.inner.ghost_name }
    ensures lack { IfNone result (telling.new.teller.now.lack ≡ None) }
    ensures reads { ReadsOn (S.faults source.old) (S.faults source.new) result }
    ensures writes { WritesOn (K.faults telling.old.inner.now) (K.faults telling.new.inner.now) result }
{
    telling.begin_alone();
    carry(
        None,
        &Command::End,
        None,
        reader,
        bus,
        source,
        telling,
        desk,
    )
}

// Carries out the command of the next line, which is held and has this length and size, and tells the line with what it causes.
fn carry_line<S: Source, K: Sink, F: Fn(u16, u32, u16) -> [u8; 480], H: Fn(u32, u8) -> u8>(
    line: (usize, usize),
    command: &Command,
    reader: &mut ScriptReader,
    bus: &mut Bus,
    source: &mut S,
    telling: &mut TellingSink<K>,
    desk: &Desk<F, H>,
) -> Option<RunEnding>
    requires blocks { AnyBlock (F.pre desk.now.blocks) }
    requires desk { AnyVendorByte (H.pre desk.now.vendor) }
    requires tracing { IsTracing (record { blocks = F.post desk.now.blocks; vendor = H.post desk.now.vendor })
        (S.left source.old) (K.held telling.old.inner.now) reader.old bus.old telling.old.teller.now.tracer telling.old.teller.now.history.bytes }
    requires holds { HoldsCommand reader.old line command.now }
    requires lack { telling.old.teller.now.lack ≡ None }
    ensures goes { TracesFrom (record { blocks = F.post desk.now.blocks; vendor = H.post desk.now.vendor }) (S.left source.old) (S.left source.new)
        (K.held telling.old.inner.now) (K.held telling.new.inner.now) reader.old reader.new bus.old bus.new telling.old.teller.now.tracer telling.new.teller.now.tracer
        telling.old.teller.now.history.bytes telling.new.teller.now.history.bytes result }
    ensures reference { telling.new.inner.ghost_name ≡ telling.old.inner.ghost_name }
    ensures lack { IfNone result (telling.new.teller.now.lack ≡ None) }
    ensures reads { ReadsOn (S.faults source.old) (S.faults source.new) result }
    ensures writes { WritesOn (K.faults telling.old.inner.now) (K.faults telling.new.inner.now) result }
{
    let number = reader.line() + 1;
    let Ok(()) = telling.begin(number, reader.held_text(line.0), command) else {
        return Some(RunEnding::Stopped(Stop::NoMemory));
    };
    let place = place_of(bus, command);
    carry(
        Some(line),
        command,
        place,
        reader,
        bus,
        source,
        telling,
        desk,
    )
}

// Reads the next line, which is held, and tells it if it says nothing by itself, or carries out its command. Answers how the run ends, or
// None if it goes on.
fn trace_line<S: Source, K: Sink, F: Fn(u16, u32, u16) -> [u8; 480], H: Fn(u32, u8) -> u8>(
    line: (usize, usize),
    reader: &mut ScriptReader,
    bus: &mut Bus,
    source: &mut S,
    telling: &mut TellingSink<K>,
    desk: &Desk<F, H>,
) -> Option<RunEnding>
    requires blocks { AnyBlock (F.pre desk.now.blocks) }
    requires desk { AnyVendorByte (H.pre desk.now.vendor) }
    requires tracing { IsTracing (record { blocks = F.post desk.now.blocks; vendor = H.post desk.now.vendor })
        (S.left source.old) (K.held telling.old.inner.now) reader.old bus.old telling.old.teller.now.tracer telling.old.teller.now.history.bytes }
    requires holds { HoldsLine reader.old line.0 line.1 }
    requires lack { telling.old.teller.now.lack ≡ None }
    ensures goes { TracesFrom (record { blocks = F.post desk.now.blocks; vendor = H.post desk.now.vendor }) (S.left source.old) (S.left source.new)
        (K.held telling.old.inner.now) (K.held telling.new.inner.now) reader.old reader.new bus.old bus.new telling.old.teller.now.tracer telling.new.teller.now.tracer
        telling.old.teller.now.history.bytes telling.new.teller.now.history.bytes result }
    ensures reference { telling.new.inner.ghost_name ≡ telling.old.inner.ghost_name }
    ensures lack { IfNone result (telling.new.teller.now.lack ≡ None) }
    ensures reads { ReadsOn (S.faults source.old) (S.faults source.new) result }
    ensures writes { WritesOn (K.faults telling.old.inner.now) (K.faults telling.new.inner.now) result }
{
    let (length, size) = line;
    let mut command = Command::End;
    match reader.read_line(length, size, &mut command) {
        Said::Nothing => match telling.tell_line(reader.line(), reader.text()) {
            Ok(()) => None,
            Err(lack) => Some(stopped(lack)),
        },
        Said::Command => carry_line(line, &command, reader, bus, source, telling, desk),
        Said::Refused => carry_alone(reader, bus, source, telling, desk),
    }
}

// Reads the next line and tells it, with what it causes, or ends the run. Answers how it ends, or None if it goes on.
pub(crate) fn trace_next<
    S: Source,
    K: Sink,
    F: Fn(u16, u32, u16) -> [u8; 480],
    H: Fn(u32, u8) -> u8,
>(
    reader: &mut ScriptReader,
    bus: &mut Bus,
    source: &mut S,
    telling: &mut TellingSink<K>,
    desk: &Desk<F, H>,
) -> Option<RunEnding>
    requires blocks { AnyBlock (F.pre desk.now.blocks) }
    requires desk { AnyVendorByte (H.pre desk.now.vendor) }
    requires tracing { IsTracing (record { blocks = F.post desk.now.blocks; vendor = H.post desk.now.vendor })
        (S.left source.old) (K.held telling.old.inner.now) reader.old bus.old telling.old.teller.now.tracer telling.old.teller.now.history.bytes }
    requires lack { telling.old.teller.now.lack ≡ None }
    ensures goes { TracesFrom (record { blocks = F.post desk.now.blocks; vendor = H.post desk.now.vendor }) (S.left source.old) (S.left source.new)
        (K.held telling.old.inner.now) (K.held telling.new.inner.now) reader.old reader.new bus.old bus.new telling.old.teller.now.tracer telling.new.teller.now.tracer
        telling.old.teller.now.history.bytes telling.new.teller.now.history.bytes result }
    ensures reference { telling.new.inner.ghost_name ≡ telling.old.inner.ghost_name }
    ensures lack { IfNone result (telling.new.teller.now.lack ≡ None) }
    ensures reads { ReadsOn (S.faults source.old) (S.faults source.new) result }
    ensures writes { WritesOn (K.faults telling.old.inner.now) (K.faults telling.new.inner.now) result }
{
    match reader.find_line(source) {
        Err(_) => Some(RunEnding::Stopped(Stop::ReadFault)),
        Ok(Some(line)) => trace_line(line, reader, bus, source, telling, desk),
        Ok(None) => carry_alone(reader, bus, source, telling, desk),
    }
}
