//! The word `explore`.

ghost use Rattle.std.specs.Prelude.{◌≡◌, ◌∷◌, [], ℕ, List, IfOk, IsFalse, MatchResult};
ghost use Rattle.fw_script_command.specs.declared.command.Command.{Command as Line};
ghost use Rattle.fw_log_entry.specs.declared.entry.Timed.{Timed};
ghost use Rattle.fw_bus.specs.Buses.{StandsFor};
ghost use Rattle.fw_model_run.specs.State.{State};
ghost use Rattle.fw_tape.specs.Desks.{AnyBlock, AnyVendorByte};
ghost use Rattle.fw_explore_movers.specs.Explored.{AreInOrder};
ghost use Rattle.fw_explore_meaning.specs.Moves.{RunsTo};
ghost use Rattle.fw_explore_meaning.specs.Steps.{IsExplored};
ghost use Rattle.fw_explore.specs.Outcome.{Fails, HasExplored, IsTextOf, IsUntouched, Tells, stop_of};
ghost use Rattle.fw_outside.specs.Stops.{ReadCount, WriteCount};

use crate::begin::begin;
use crate::fault::ExploreEnding;
use crate::unknown::first_unknown;
use fw_bus::Bus;
use fw_bus_places::Places;
use fw_bus_state::Machine;
use fw_explore_endings::text_of;
use fw_explore_movers::Explored;
use fw_kept_parts::Full;
use fw_outside::{Failed, Sink, Source, Stop};
use fw_script_command::Name;
use fw_script_words::{RunEnding, record_run};
use fw_tape::Desk;
use std::alloc::{AllocError, Global};

/// The most places of an exploration.
pub const MOST_PLACES: usize = 4_194_304;

// The names of all devices, in the order in which they are declared.
fn device_names(alloc: Global, machine: &Machine) -> Result<Vec<Name>, AllocError>
    ensures { IfOk result (λ v. v.items ≡ machine.now.devices.names) }
{
    let mut names = Vec::new(alloc);
    for device in 0..machine.devices.count() {
        names.push(*machine.devices.name(device))?;
    }
    Ok(names)
}

// The text of what was found after the bus.
fn explore_from<F: Fn(u16, u32, u16) -> [u8; 480], H: Fn(u32, u8) -> u8>(
    alloc: Global,
    explored: &Explored,
    most: usize,
    bus: Bus,
    desk: &Desk<F, H>,
) -> Result<Vec<u8>, Full>
    requires blocks { AnyBlock (F.pre desk.now.blocks) }
    requires desk { AnyVendorByte (H.pre desk.now.vendor) }
    requires explored { IsExplored explored.now }
    requires fresh { IsFalse bus.spent }
    ensures { (script : List Line) (log : List Timed) (state : State) → RunsTo (record { blocks = F.post desk.now.blocks; vendor = H.post desk.now.vendor }) script log state → StandsFor bus.machine state
        → IfOk result (λ t. IsTextOf (record { blocks = F.post desk.now.blocks; vendor = H.post desk.now.vendor }) script explored.now state t.items) }
{
    let names = device_names(alloc, bus.machine())?;
    let places = Places::new(alloc)?;
    let mut explorer = begin(alloc, most, places, bus)?;
    explorer.go(explored, desk)?;
    Ok(text_of(alloc, explored, names.as_slice(), &explorer.rows)?)
}

// Reads the script and carries it out; its log is kept nowhere. Then all interleavings.
fn text_after<S: Source, F: Fn(u16, u32, u16) -> [u8; 480], H: Fn(u32, u8) -> u8>(
    alloc: Global,
    explored: &Explored,
    most: usize,
    source: &mut S,
    desk: &Desk<F, H>,
) -> Result<Vec<u8>, ExploreEnding>
    requires blocks { AnyBlock (F.pre desk.now.blocks) }
    requires desk { AnyVendorByte (H.pre desk.now.vendor) }
    requires explored { IsExplored explored.now }
    requires order { AreInOrder explored.now }
    ensures told { MatchResult result
        (λ t. HasExplored (record { blocks = F.post desk.now.blocks; vendor = H.post desk.now.vendor }) explored.now (S.left source.old) (S.left source.new) t.items)
        (Fails (record { blocks = F.post desk.now.blocks; vendor = H.post desk.now.vendor }) explored.now (S.left source.old) (S.left source.new)) }
    ensures read_count { MatchResult result (λ t. S.faults source.new ≡ S.faults source.old) (λ ending. ReadCount (S.faults source.old) (S.faults source.new) (stop_of ending)) }
{
    let Ok(mut bus) = Bus::new(alloc) else {
        return Err(ExploreEnding::Stopped(Stop::NoMemory));
    };
    match record_run(alloc, source, &mut bus, desk) {
        RunEnding::Done => {}
        RunEnding::Refused(refused) => return Err(ExploreEnding::Refused(refused)),
        RunEnding::Stopped(stop) => return Err(ExploreEnding::Stopped(stop)),
    }
    match first_unknown(explored, bus.machine()) {
        Some(fault) => return Err(ExploreEnding::Unknown(fault)),
        None => {}
    }
    match explore_from(alloc, explored, most, bus, desk) {
        Ok(text) => Ok(text),
        Err(Full::TooLarge) => Err(ExploreEnding::TooLarge),
        Err(Full::NoMemory) => Err(ExploreEnding::Stopped(Stop::NoMemory)),
    }
}

/// Reads a script and carries it out, goes through all interleavings of what the words name after it, and writes how they end. Unless it is
/// `Done`, or `Stopped` by a write that failed, nothing was written.
pub fn explore<S: Source, K: Sink, F: Fn(u16, u32, u16) -> [u8; 480], H: Fn(u32, u8) -> u8>(
    alloc: Global,
    explored: &Explored,
    most: usize,
    source: &mut S,
    sink: &mut K,
    desk: &Desk<F, H>,
) -> ExploreEnding
    requires blocks { AnyBlock (F.pre desk.now.blocks) }
    requires desk { AnyVendorByte (H.pre desk.now.vendor) }
    requires explored { IsExplored explored.now }
    requires order { AreInOrder explored.now }
    ensures tells { Tells (record { blocks = F.post desk.now.blocks; vendor = H.post desk.now.vendor }) explored.now (S.left source.old) (S.left source.new) (K.held sink.old) (K.held sink.new) result }
    ensures untouched { IsUntouched sink.old sink.new result }
    ensures read_count { ReadCount (S.faults source.old) (S.faults source.new) (stop_of result) }
    ensures write_count { WriteCount (K.faults sink.old) (K.faults sink.new) (stop_of result) }
{
    let text = match text_after(alloc, explored, most, source, desk) {
        Ok(text) => text,
        Err(ending) => return ending,
    };
    match sink.write(text.as_slice()) {
        Ok(()) => ExploreEnding::Done,
        Err(Failed) => ExploreEnding::Stopped(Stop::WriteFault),
    }
}
