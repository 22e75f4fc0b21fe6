//! The word `check`.

ghost use Rattle.std.specs.Prelude.{◌≡◌, ◌≢◌, ◌++◌, List, ℕ, Some, IsFalse, OnOk};
ghost use Rattle.fw_outside.specs.declared.stop.Stop.{Stop as Early};
ghost use Rattle.fw_tape.specs.Desks.{AnyBlock, AnyVendorByte};
ghost use Rattle.fw_script.specs.Reading.{unread};
ghost use Rattle.fw_model_run.specs.State.{State, first_state};
ghost use Rattle.fw_bus_state.specs.Stands.{IsReady, StandsFor};
ghost use Rattle.fw_script_words.specs.Checks.{Checks, counts_of};
ghost use Rattle.fw_script_words.specs.Counts.{ReadCount, WriteCount};
ghost use Rattle.fw_script_words.specs.Scripts.{IsValid, IsNoRefusal};
ghost use Rattle.fw_script_words.specs.Telling.{IsChecked, IsOfCause, IsTold, IsWhy, TellsText};

use crate::ending::{Refusal, Refused, RunEnding};
use crate::seed::in_memory;
use crate::step::carry_next;
use fw_bus::{Bus, RuleFault};
use fw_check::{Counts, put_formless, put_good, put_long_line, put_no_end, put_rule};
use fw_check_causes::cause;
use fw_outside::{Failed, Nowhere, Sink, Source, Stop};
use fw_script::ScriptReader;
use fw_script_command::{Command, command_of};
use fw_tape::Desk;
use std::alloc::{AllocError, Global};

// What a script has come to: how it ended, and how many commands were carried out.
#[derive(Clone, Copy)]
struct Checked {
    ending: RunEnding,
    commands: u32,
}

// Reads a script and carries out its commands on a new bus. Its log is kept nowhere.
fn check_run<S: Source, F: Fn(u16, u32, u16) -> [u8; 480], H: Fn(u32, u8) -> u8>(
    reader: &mut ScriptReader,
    bus: &mut Bus,
    source: &mut S,
    desk: &Desk<F, H>,
) -> Checked
    requires blocks { AnyBlock (F.pre desk.now.blocks) }
    requires desk { AnyVendorByte (H.pre desk.now.vendor) }
    requires unread { reader.old ≡ unread }
    requires first { StandsFor bus.old.machine first_state }
    requires fresh { IsFalse bus.old.spent }
    ensures checked { IsChecked (record { blocks = F.post desk.now.blocks; vendor = H.post desk.now.vendor }) (S.left source.old) (S.left source.new) reader.new bus.new result.commands result.ending }
    ensures read_count { ReadCount (S.faults source.old) (S.faults source.new) result.ending }
{
    let mut commands = 0;
    loop {
        if let Some(ending) = carry_next(reader, bus, source, &mut Nowhere, desk) {
            return Checked {
                ending: in_memory(ending),
                commands,
            };
        }
        commands += 1;
    }
}

// What a script has of which no line is refused.
fn counts_of(bus: &Bus, commands: u32) -> Counts
    ensures { (s : State) → StandsFor bus.now.machine s → result ≡ counts_of commands s }
{
    let machine = bus.machine();
    Counts {
        commands,
        devices: machine.devices.count(),
        resets: machine.resets,
        half_steps: machine.half_steps,
        written: machine.written,
        cycle: machine.cycle,
    }
}

// Appends what stands against the command of the line that was read last.
fn put_cause(
    text: &mut Vec<u8>,
    bus: &Bus,
    reader: &ScriptReader,
    line: u32,
    rule: RuleFault,
) -> Result<(), AllocError>
    requires ready { IsReady bus.now.machine }
    ensures told { (told : List ℕ) → IsOfCause bus.now reader.now rule line told → OnOk result (text.new.items ≡ text.old.items ++ told) }
{
    let mut command = Command::End;
    let Some(()) = command_of(reader.text(), &mut command) else {
        return Ok(());
    };
    match cause(bus.machine(), &command, rule) {
        Some(why) => put_rule(text, line, reader.text(), &why),
        None => Ok(()),
    }
}

// Appends why a line is refused.
fn put_refusal(
    alloc: Global,
    text: &mut Vec<u8>,
    bus: &Bus,
    reader: &ScriptReader,
    refused: Refused,
) -> Result<(), AllocError>
    requires ready { IsReady bus.now.machine }
    ensures told { (told : List ℕ) → IsWhy refused.why refused.line reader.now bus.now told → OnOk result (text.new.items ≡ text.old.items ++ told) }
{
    match refused.why {
        Refusal::BadLine => {
            put_formless(alloc, text, refused.line, reader.text(), reader.end_line())
        }
        Refusal::LineTooLong => put_long_line(text, refused.line, reader.text()),
        Refusal::NoEnd => put_no_end(text, refused.line),
        Refusal::Rule(rule) => put_cause(text, bus, reader, refused.line, rule),
    }
}

// Appends what is told of a script.
fn put_told(
    alloc: Global,
    text: &mut Vec<u8>,
    bus: &Bus,
    reader: &ScriptReader,
    checked: &Checked,
) -> Result<(), AllocError>
    requires ready { IsReady bus.now.machine }
    ensures told { (told : List ℕ) → IsTold checked.now.ending checked.now.commands reader.now bus.now told → OnOk result (text.new.items ≡ text.old.items ++ told) }
{
    match checked.ending {
        RunEnding::Done => put_good(text, &counts_of(bus, checked.commands)),
        RunEnding::Refused(refused) => put_refusal(alloc, text, bus, reader, refused),
        RunEnding::Stopped(_) => Ok(()),
    }
}

// Writes what is told of a script, of which no line is left or one is refused.
fn tell<K: Sink>(text: &[u8], ending: RunEnding, sink: &mut K) -> RunEnding
    requires { (stop : Early) → ending ≢ RunEnding.Stopped stop }
    ensures told { TellsText text.now (K.held sink.old) (K.held sink.new) ending result }
    ensures write_count { WriteCount (K.faults sink.old) (K.faults sink.new) result }
{
    match sink.write(text) {
        Ok(()) => ending,
        Err(Failed) => RunEnding::Stopped(Stop::WriteFault),
    }
}

/// Reads a script and carries out its commands on a new bus, as `run` does, and writes in place of the log what the script has, or why its
/// first refused line is refused. The log is kept nowhere. Of a script that is not read to its end, with no line refused, nothing is written.
// Not in line: its bus would stand on the stack of every other word.
#[inline(never)]
pub fn check<S: Source, K: Sink, F: Fn(u16, u32, u16) -> [u8; 480], H: Fn(u32, u8) -> u8>(
    alloc: Global,
    source: &mut S,
    sink: &mut K,
    desk: &Desk<F, H>,
) -> RunEnding
    requires blocks { AnyBlock (F.pre desk.now.blocks) }
    requires desk { AnyVendorByte (H.pre desk.now.vendor) }
    ensures checks { Checks (record { blocks = F.post desk.now.blocks; vendor = H.post desk.now.vendor })
        (S.left source.old) (S.left source.new) (K.held sink.old) (K.held sink.new) result }
    ensures complete { (script : List ℕ) → S.left source.old ≡ Some script → IsValid script → IsNoRefusal result }
    ensures read_count { ReadCount (S.faults source.old) (S.faults source.new) result }
    ensures write_count { WriteCount (K.faults sink.old) (K.faults sink.new) result }
{
    // Left where it is made, and not moved: that would take its place on the stack twice.
    let mut made = Bus::new(alloc);
    let Ok(bus) = &mut made else {
        return RunEnding::Stopped(Stop::NoMemory);
    };
    let Ok(mut reader) = ScriptReader::new(alloc) else {
        return RunEnding::Stopped(Stop::NoMemory);
    };
    let checked = check_run(&mut reader, bus, source, desk);
    if let RunEnding::Stopped(stop) = checked.ending {
        return RunEnding::Stopped(stop);
    }
    let mut text = Vec::new(alloc);
    let Ok(()) = put_told(alloc, &mut text, bus, &reader, &checked) else {
        return RunEnding::Stopped(Stop::NoMemory);
    };
    tell(&text, checked.ending, sink)
}
