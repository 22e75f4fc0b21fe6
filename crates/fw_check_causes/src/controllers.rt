//! What stands against a command at controllers and nodes.

ghost use Rattle.std.specs.Prelude.{◌≡◌, ◌<◌, length, Some};
ghost use Rattle.fw_model_run.specs.Good.{IsGood};
ghost use Rattle.fw_model_run.specs.State.{State};
ghost use Rattle.fw_bus_state.specs.Stands.{IsReady, StandsFor};
ghost use Rattle.fw_check_causes.specs.Causes.{dead, no_controller, not_controller, no_node, off, off_bus, nothing_stands, slot_state, no_such_connection, not_capable, not_candidate};
ghost use Rattle.fw_model_run.specs.Named.{controller_of};
ghost use Rattle.std.specs.Option.{option_map};
ghost use Rattle.fw_check.specs.declared.why.Why.TheVariants.{NotController, OffBus};

use crate::names::{kind_of, name_at};
use fw_bus_state::Machine;
use fw_check::{NoController, NoNode, SlotState, Why};
use fw_cmp::Slot;
use fw_script_command::{Command, Name};

/// The device whose controller a command needs.
pub(crate) fn controller_of(command: &Command) -> Option<Name>
    ensures { result ≡ controller_of command.now }
{
    match command {
        Command::Connect(name, ..)
        | Command::Broadcast(name, ..)
        | Command::Listen(name, _)
        | Command::Break(name, _)
        | Command::Step(name, _)
        | Command::Die(name, _)
        | Command::Lose(name)
        | Command::Command(name, ..)
        | Command::Read(name, ..)
        | Command::Swap(name, ..)
        | Command::Candidate(name)
        | Command::Contend(name, _) => Some(*name),
        _ => None,
    }
}

// Why this device has no living controller.
fn no_controller(machine: &Machine, name: Name, device: u8) -> Option<NoController>
    requires ready { IsReady machine.now }
    requires declared { device < length machine.now.devices.names }
    ensures { (s : State) → IsGood s → StandsFor machine.now s → result ≡ no_controller s name device }
{
    if !machine.devices.kind(device).has_link() {
        return Some(NoController::Relay(name));
    }
    if machine.is_on(device) {
        return Some(NoController::Died(name));
    }
    match name_at(machine, 0) {
        Some(bus) => Some(NoController::Off(name, bus)),
        None => None,
    }
}

// Why the device of a name has no living controller.
fn dead(machine: &Machine, name: Name) -> Option<Why>
    requires { IsReady machine.now }
    ensures { (s : State) → IsGood s → StandsFor machine.now s → result ≡ dead s (Some name) }
{
    match machine.devices.find(&name) {
        Some(device) => why_dead(machine, name, device),
        None => None,
    }
}

// Why this device has none.
fn why_dead(machine: &Machine, name: Name, device: u8) -> Option<Why>
    requires ready { IsReady machine.now }
    requires declared { device < length machine.now.devices.names }
    ensures { (s : State) → IsGood s → StandsFor machine.now s → result ≡ option_map NotController (no_controller s name device) }
{
    no_controller(machine, name, device).map(Why::NotController)
}

/// Why the device that is to act has no living controller.
pub(crate) fn not_controller(machine: &Machine, command: &Command) -> Option<Why>
    requires { IsReady machine.now }
    ensures { (s : State) → IsGood s → StandsFor machine.now s → result ≡ not_controller s command.now }
{
    if let Command::Start(name) = command {
        return dead(machine, *name);
    }
    match controller_of(command) {
        Some(name) => dead(machine, name),
        None => None,
    }
}

// Why no node answers for this device.
fn no_node(machine: &Machine, name: Name, device: u8) -> Option<NoNode>
    ensures { (s : State) → IsGood s → StandsFor machine.now s → result ≡ no_node s name device }
{
    if machine.is_on(device) {
        return Some(NoNode::Relay(name));
    }
    match name_at(machine, 0) {
        Some(bus) => Some(NoNode::Off(name, bus)),
        None => None,
    }
}

// Why no node answers for the device of a word.
fn off(machine: &Machine, number: u8, name: Name) -> Option<Why>
    ensures { (s : State) → IsGood s → StandsFor machine.now s → result ≡ off s number name }
{
    match machine.devices.find(&name) {
        Some(device) => why_off(machine, number, name, device),
        None => None,
    }
}

// Why no node answers for this device.
fn why_off(machine: &Machine, number: u8, name: Name, device: u8) -> Option<Why>
    ensures { (s : State) → IsGood s → StandsFor machine.now s → result ≡ option_map (λ why. OffBus number why) (no_node s name device) }
{
    no_node(machine, name, device).map(|why| Why::OffBus(number, why))
}

/// Why no node answers for the device that is to be on the bus.
pub(crate) fn off_bus(machine: &Machine, command: &Command) -> Option<Why>
    ensures { (s : State) → IsGood s → StandsFor machine.now s → result ≡ off_bus s command.now }
{
    match command {
        Command::Reset(name) | Command::Dub(name) | Command::Show(Some(name), _) => {
            off(machine, 2, *name)
        }
        Command::Command(_, name, _) | Command::Read(_, name, _) | Command::Swap(_, name, ..) => {
            off(machine, 3, *name)
        }
        _ => None,
    }
}

/// Whether the controller whose response is to be lost has lost one.
pub(crate) fn nothing_stands(machine: &Machine, command: &Command) -> Option<Why>
    requires { IsReady machine.now }
    ensures { (s : State) → IsGood s → StandsFor machine.now s → result ≡ nothing_stands s command.now }
{
    match command {
        Command::Lose(name) => {
            let device = machine.devices.find(name)?;
            let lost = machine.controllers.get(device).is_deaf();
            Some(Why::NothingStands(*name, lost))
        }
        _ => None,
    }
}

// Why the connection of a slot cannot be broken.
fn slot_state(held: Slot, waits: bool) -> SlotState
    ensures { result ≡ slot_state held waits }
{
    match held {
        Slot::Free => SlotState::Free,
        Slot::Making(..) => SlotState::Making,
        Slot::Established(..) | Slot::Restoring(..) | Slot::Gone(_) => {
            if waits {
                SlotState::BreakWaits
            } else {
                SlotState::Breaking
            }
        }
    }
}

/// Why the connection of the slot cannot be broken.
pub(crate) fn no_such_connection(machine: &Machine, command: &Command) -> Option<Why>
    requires { IsReady machine.now }
    ensures { (s : State) → IsGood s → StandsFor machine.now s → result ≡ no_such_connection s command.now }
{
    match command {
        Command::Break(name, slot) => {
            let device = machine.devices.find(name)?;
            let controller = machine.controllers.get(device);
            let state = slot_state(controller.slot(*slot), controller.break_waits(*slot));
            Some(Why::NoSuchConnection(*slot, state))
        }
        _ => None,
    }
}

/// The kind of a device that is to be a candidate.
pub(crate) fn not_capable(machine: &Machine, command: &Command) -> Option<Why>
    requires { IsReady machine.now }
    ensures { (s : State) → IsGood s → StandsFor machine.now s → result ≡ not_capable s command.now }
{
    match command {
        Command::Candidate(name) => Some(Why::NotCapable(*name, kind_of(machine, name)?)),
        _ => None,
    }
}

/// Whether the device that is no candidate can be made one.
pub(crate) fn not_candidate(machine: &Machine, command: &Command) -> Option<Why>
    requires { IsReady machine.now }
    ensures { (s : State) → IsGood s → StandsFor machine.now s → result ≡ not_candidate s command.now }
{
    match command {
        Command::Contend(name, _) => {
            let capable = kind_of(machine, name)?.is_capable();
            Some(Why::NotCandidate(*name, capable))
        }
        _ => None,
    }
}
