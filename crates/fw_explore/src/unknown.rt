//! The words that name devices.

ghost use Rattle.std.specs.Prelude.{◌≡◌, MatchOption};
ghost use Rattle.fw_bus.specs.Buses.{StandsFor};
ghost use Rattle.fw_model_run.specs.State.{State};
ghost use Rattle.fw_explore_movers.specs.Explored.{AreInOrder};
ghost use Rattle.fw_explore.specs.Outcome.{AllKnown, IsFirstUnknown, is_device, names_known};

use fw_bus_state::Machine;
use fw_explore_endings::names_of;
use fw_explore_movers::{Explored, WordFault, WordWhy};
use fw_script_command::{Command, Name};

// Whether a name, if there is one, is that of a device.
fn is_device(machine: &Machine, name: &Option<Name>) -> bool
    ensures { result ≡ is_device machine.now.devices.names name.now }
{
    match name {
        Some(name) => machine.devices.find(name).is_some(),
        None => true,
    }
}

// Whether all devices that a command names are declared.
fn is_known(machine: &Machine, command: &Command) -> bool
    ensures { result ≡ names_known machine.now.devices.names command.now }
{
    names_of(command)
        .iter()
        .all(|name| is_device(machine, name))
}

/// The first word that names a device which is not declared. Words come in the order of their numbers: the movers, and then the lines.
pub(crate) fn first_unknown(explored: &Explored, machine: &Machine) -> Option<WordFault>
    ensures { (s : State) → StandsFor machine.now s → AreInOrder explored.now
        → MatchOption result (AllKnown explored.now s) (IsFirstUnknown explored.now s) }
{
    for mover in &explored.movers {
        if !is_known(machine, &mover.command) {
            return Some(WordFault {
                word: mover.word,
                why: WordWhy::UnknownName,
            });
        }
    }
    for line in &explored.following {
        if !is_known(machine, &line.command) {
            return Some(WordFault {
                word: line.word,
                why: WordWhy::UnknownName,
            });
        }
    }
    None
}
