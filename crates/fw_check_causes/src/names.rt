//! Names and kinds of devices.

ghost use Rattle.std.specs.Prelude.{◌≡◌, ◌≤◌, length, Some};
ghost use Rattle.fw_model_run.specs.Good.{IsGood};
ghost use Rattle.fw_model_run.specs.State.{State};
ghost use Rattle.fw_bus_state.specs.Stands.{IsReady, StandsFor};
ghost use Rattle.fw_check_causes.specs.Causes.{name_at, of_named, first_unknown, name_taken, no_deck};
ghost use Rattle.std.specs.Option.{option_map};
ghost use Rattle.fw_check.specs.declared.why.Why.TheVariants.{TooLate};
ghost use Rattle.fw_devices.specs.Network.{kind_at};
ghost use Rattle.fw_model_run.specs.Named.{names_of, deck_of};

use fw_bus_state::Machine;
use fw_check::Why;
use fw_script_command::{Command, Name};
use fw_terms::DeviceKind;

/// The name of a device.
pub(crate) fn name_at(machine: &Machine, device: u8) -> Option<Name>
    ensures { (s : State) → IsGood s → StandsFor machine.now s → result ≡ name_at s device }
{
    if device < machine.devices.count() {
        Some(*machine.devices.name(device))
    } else {
        None
    }
}

/// The kind of a named device.
pub(crate) fn kind_of(machine: &Machine, name: &Name) -> Option<DeviceKind>
    requires { IsReady machine.now }
    ensures { (s : State) → IsGood s → StandsFor machine.now s → result ≡ of_named s name.now (λ d. Some (kind_at s.declared.kinds d)) }
{
    match machine.devices.find(name) {
        Some(device) => Some(machine.devices.kind(device)),
        None => None,
    }
}

// The first of the names that no device has. The words are numbered from 2 on.
fn first_unknown(machine: &Machine, names: &[Name]) -> Option<Why>
    requires { length names.now ≤ 3 }
    ensures { (s : State) → IsGood s → StandsFor machine.now s → result ≡ first_unknown s 2 names.now }
{
    let mut number = 2;
    for name in names {
        if machine.devices.find(name).is_none() {
            return Some(Why::UnknownName(number, *name));
        }
        number += 1;
    }
    None
}

/// The first name of a command that no device has.
pub(crate) fn unknown_name(machine: &Machine, command: &Command) -> Option<Why>
    ensures { (s : State) → IsGood s → StandsFor machine.now s → result ≡ first_unknown s 2 (names_of command.now) }
{
    match command {
        Command::Cable((a, _), (b, _)) => first_unknown(machine, &[*a, *b]),
        Command::Connect(name, (output, _), (input, _), ..) => {
            first_unknown(machine, &[*name, *output, *input])
        }
        Command::Broadcast(name, (plug, _), _) | Command::Listen(name, (plug, _)) => {
            first_unknown(machine, &[*name, *plug])
        }
        Command::Command(name, other, _)
        | Command::Read(name, other, _)
        | Command::Swap(name, other, ..) => first_unknown(machine, &[*name, *other]),
        Command::Reset(name)
        | Command::Break(name, _)
        | Command::Step(name, _)
        | Command::Die(name, _)
        | Command::Lose(name)
        | Command::Start(name)
        | Command::Insert(name, ..)
        | Command::Eject(name)
        | Command::Show(Some(name), _)
        | Command::Candidate(name)
        | Command::Contend(name, _)
        | Command::Dub(name) => first_unknown(machine, &[*name]),
        Command::Withhold
        | Command::Device(..)
        | Command::Settle(_)
        | Command::Wait(_)
        | Command::Cycles(_)
        | Command::Show(None, _)
        | Command::End => None,
    }
}

/// The kind of the device that has the name of a new one.
pub(crate) fn name_taken(machine: &Machine, command: &Command) -> Option<Why>
    requires { IsReady machine.now }
    ensures { (s : State) → IsGood s → StandsFor machine.now s → result ≡ name_taken s command.now }
{
    match command {
        Command::Device(name, ..) => kind_of(machine, name).map(Why::NameTaken),
        _ => None,
    }
}

/// The kind of a device that is to have a tape.
pub(crate) fn no_deck(machine: &Machine, command: &Command) -> Option<Why>
    requires { IsReady machine.now }
    ensures { (s : State) → IsGood s → StandsFor machine.now s → result ≡ no_deck s (deck_of command.now) }
{
    match command {
        Command::Insert(name, ..) | Command::Eject(name) | Command::Dub(name) => {
            Some(Why::NoDeck(*name, kind_of(machine, name)?))
        }
        _ => None,
    }
}

/// The first device.
pub(crate) fn too_late(machine: &Machine) -> Option<Why>
    ensures { (s : State) → IsGood s → StandsFor machine.now s → result ≡ option_map TooLate (name_at s 0) }
{
    name_at(machine, 0).map(Why::TooLate)
}
