//! The step that all words share which run a script.

ghost use Rattle.std.specs.Prelude.{◌≡◌, List, ℕ, IsFalse, Ok, Some, take};
ghost use Rattle.std.specs.declared.option.Option.{Option as Maybe};
ghost use Rattle.fw_tape.specs.Desks.{AnyBlock, AnyVendorByte};
ghost use Rattle.fw_bus.specs.Buses.{IsCommand};
ghost use Rattle.fw_script.specs.Passing.{IsCommandNext};
ghost use Rattle.fw_script.specs.Reader.{HoldsLine};
ghost use Rattle.fw_script.specs.Reading.{Advances, HoldsAnswer, IsHeld, Reading};
ghost use Rattle.fw_script_words.specs.Ending.{ending_by};
ghost use Rattle.fw_script_words.specs.Counts.{ReadsOn, WritesOn};
ghost use Rattle.fw_script_words.specs.Going.{Going, IsUnderWay, StepsOn};

use crate::ending::{Refusal, Refused, RunEnding};
use fw_bus::{Bus, BusFault};
use fw_outside::{Sink, Source, Stop};
use fw_script::{ScriptFault, ScriptReader};
use fw_script_command::Command;
use fw_tape::Desk;

fn refused(line: u32, why: Refusal) -> RunEnding
    ensures { result ≡ RunEnding.Refused (record { line = line; why = why }) }
{
    RunEnding::Refused(Refused { line, why })
}

// How a run ends whose script has this fault at this line.
fn ending_of(fault: ScriptFault, line: u32) -> RunEnding
    ensures { result ≡ ending_by fault line }
{
    match fault {
        ScriptFault::BadLine => refused(line, Refusal::BadLine),
        ScriptFault::LineTooLong => refused(line, Refusal::LineTooLong),
        ScriptFault::NoEnd => refused(line, Refusal::NoEnd),
        ScriptFault::ReadFault => RunEnding::Stopped(Stop::ReadFault),
        ScriptFault::TooLong => RunEnding::Stopped(Stop::TooLong),
    }
}

// Carries out a command whose line was read last, and answers how the run ends, or None if it goes on.
#[inline(always)]
fn carry_read<K: Sink, F: Fn(u16, u32, u16) -> [u8; 480], H: Fn(u32, u8) -> u8>(
    command: &Command,
    reader: &ScriptReader,
    bus: &mut Bus,
    sink: &mut K,
    desk: &Desk<F, H>,
) -> Option<RunEnding>
    requires blocks { AnyBlock (F.pre desk.now.blocks) }
    requires desk { AnyVendorByte (H.pre desk.now.vendor) }
    requires fresh { IsFalse bus.old.spent }
    requires command { IsCommand command.now }
    ensures goes { (left before now held after : Maybe (List ℕ)) (old : Reading)
        → (g : Going (record { blocks = F.post desk.now.blocks; vendor = H.post desk.now.vendor }) left before held after old bus.old)
        → Advances old reader.now before now (Ok (Some command.now)) → IsHeld (Ok (Some command.now)) reader.now
        → StepsOn g now (K.held sink.old) (K.held sink.new) reader.now bus.new result }
    ensures reads { (faults : ℕ) → ReadsOn faults faults result }
    ensures writes { WritesOn (K.faults sink.old) (K.faults sink.new) result }
{
    match bus.apply(command, sink, desk) {
        Ok(()) => None,
        Err(BusFault::Refused(rule)) => Some(refused(reader.line(), Refusal::Rule(rule))),
        Err(BusFault::WriteFault) => Some(RunEnding::Stopped(Stop::WriteFault)),
    }
}

/// Reads the next command of a script, and carries it out; the blocks of tapes, and what a vendor makes of a byte, come from the desk.
/// It answers how the run ends, or None if it goes on. If a line is refused the reader has its text and its number, and unless a write failed
/// the bus stands for what was carried out before.
///
/// The reader may stand further on than after the last command: a caller may look at lines, and pass over those that say nothing.
///
/// A caller may keep elsewhere what the sink was given, or nowhere: the clause speaks of any place that grows by the bytes that were written.
pub fn carry_next<S: Source, K: Sink, F: Fn(u16, u32, u16) -> [u8; 480], H: Fn(u32, u8) -> u8>(
    reader: &mut ScriptReader,
    bus: &mut Bus,
    source: &mut S,
    sink: &mut K,
    desk: &Desk<F, H>,
) -> Option<RunEnding>
    requires blocks { AnyBlock (F.pre desk.now.blocks) }
    requires desk { AnyVendorByte (H.pre desk.now.vendor) }
    requires under_way { IsUnderWay (record { blocks = F.post desk.now.blocks; vendor = H.post desk.now.vendor }) (S.left source.old) reader.old bus.old }
    ensures goes { (left held after : Maybe (List ℕ))
        → (g : Going (record { blocks = F.post desk.now.blocks; vendor = H.post desk.now.vendor }) left (S.left source.old) held after reader.old bus.old)
        → StepsOn g (S.left source.new) (K.held sink.old) (K.held sink.new) reader.new bus.new result }
    ensures asks { HoldsAnswer reader.old → source.new ≡ source.old }
    ensures reads { ReadsOn (S.faults source.old) (S.faults source.new) result }
    ensures writes { WritesOn (K.faults sink.old) (K.faults sink.new) result }
{
    let mut command = Command::End;
    match reader.read_command(source, &mut command) {
        Ok(true) => carry_read(&command, reader, bus, sink, desk),
        Ok(false) => Some(RunEnding::Done),
        Err(fault) => Some(ending_of(fault, reader.line())),
    }
}

/// As `carry_next`, of a command that a caller has looked at: it is that of the next line, which is held, with its length and how many bytes
/// it takes. The line is not looked at again.
pub fn carry_known<K: Sink, F: Fn(u16, u32, u16) -> [u8; 480], H: Fn(u32, u8) -> u8>(
    line: (usize, usize),
    command: &Command,
    reader: &mut ScriptReader,
    bus: &mut Bus,
    sink: &mut K,
    desk: &Desk<F, H>,
) -> Option<RunEnding>
    requires blocks { AnyBlock (F.pre desk.now.blocks) }
    requires desk { AnyVendorByte (H.pre desk.now.vendor) }
    requires under_way { (now : Maybe (List ℕ)) × IsUnderWay (record { blocks = F.post desk.now.blocks; vendor = H.post desk.now.vendor }) now reader.old bus.old }
    requires line { HoldsLine reader.old line.0 line.1 }
    requires next { IsCommandNext reader.old reader.old (take line.0 reader.old.rest) command.now }
    ensures goes { (left now held after : Maybe (List ℕ))
        → (g : Going (record { blocks = F.post desk.now.blocks; vendor = H.post desk.now.vendor }) left now held after reader.old bus.old)
        → StepsOn g now (K.held sink.old) (K.held sink.new) reader.new bus.new result }
    ensures reads { (faults : ℕ) → ReadsOn faults faults result }
    ensures writes { WritesOn (K.faults sink.old) (K.faults sink.new) result }
{
    let (length, size) = line;
    reader.pass_command(length, size);
    carry_read(command, reader, bus, sink, desk)
}
