//! Devices and cables that come, and the bus resets that they begin.

ghost use Rattle.std.specs.Prelude.{◌≡◌, ◌≤◌, ◌<◌, ◌+◌, ◌&&◌, ◌^◌, [], ◌∷◌, nat_le, IsTrue, IsFalse, length};
ghost use Rattle.fw_order.specs.declared.limits.TheConstants.{MOST_RESETS};
ghost use Rattle.fw_model_run.specs.Actions.{AddDevice, AddCable, ResetBus};
ghost use Rattle.fw_model_run.specs.Carrying.{Carries};
ghost use Rattle.fw_order.specs.declared.order.Order.TheVariants.{Withhold};
ghost use Rattle.fw_bus_engine.specs.Performing.{Performs, Performed};
ghost use Rattle.fw_bus_state.specs.Giving.{sides_of};
ghost use Rattle.fw_bus_state.specs.Orders.{CanJoin, joins_in};
ghost use Rattle.fw_bus_engine.specs.Resetting.{BeginsReset, GivesReset, directory_in};
ghost use Rattle.fw_bus_state.specs.Stands.{IsReady};
ghost use Rattle.fw_log_entry.specs.Log.{ResetFits};
ghost use Rattle.fw_tree.specs.Cables.{IsOnBus};
ghost use Rattle.fw_devices.specs.Network.{is_node};

use fw_bus_state::entries::withheld;
use fw_bus_state::{Machine, WriteBuffers, emit};
use fw_cmp::Directory;
use fw_csr::CYCLES_PER_SECOND;
use fw_log_entry::Entry;
use fw_outside::{Failed, Sink};
use fw_script_command::Name;
use fw_terms::DeviceKind;
use fw_tree::End;

/// What controllers are told at a bus reset of this cycle: the nodes that have a link, the manager, and when the second is over,
/// if the bus reset begins one.
fn directory_now(machine: &Machine) -> Directory
    requires { machine.now.cycle ≤ 2 ^ 52 }
    ensures { result ≡ directory_in machine.now.devices machine.now.reclaiming machine.now.cycle }
{
    let mut node = [None; 63];
    for device in 0..machine.devices.count() {
        if machine.is_linked(device) {
            node[usize::from(device)] = machine.devices.number(device);
        }
    }
    Directory {
        node,
        manager: machine.devices.latest().get().manager,
        over_at: if machine.reclaiming {
            machine.cycle + CYCLES_PER_SECOND
        } else {
            machine.cycle
        },
    }
}

/// A bus reset (IEEE 1394-1995, bus reset): the nodes are numbered anew, controllers hear of it, and the second begins, but
/// for the first one, before which nothing can have been connected (own).
fn begin_reset(machine: &mut Machine, initiator: u8)
    requires declared { initiator < length machine.old.devices.nodes }
    requires on { IsOnBus machine.old.devices.topology.cables initiator }
    requires few { machine.old.devices.epoch < MOST_RESETS }
    requires cycle { machine.old.cycle ≤ 2 ^ 52 }
    ensures begins { BeginsReset machine.old machine.new initiator }
    ensures fits { ResetFits machine.new.devices.latest }
{
    machine.reclaiming = machine.devices.node(0).is_some();
    machine.devices.reset(initiator);
    machine.directory = directory_now(machine);
    machine.controllers.reset(machine.devices.epoch());
    machine.wire.clear();
    machine.bids.clear();
}

/// A bus reset, whose entry is written.
pub(crate) fn give_reset<K: Sink>(
    machine: &mut Machine,
    initiator: u8,
    room: &mut WriteBuffers,
    sink: &mut K,
) -> Result<(), Failed>
    requires declared { initiator < length machine.old.devices.nodes }
    requires on { IsOnBus machine.old.devices.topology.cables initiator }
    requires few { machine.old.devices.epoch < MOST_RESETS }
    requires cycle { machine.old.cycle ≤ 2 ^ 52 }
    ensures { GivesReset machine.old machine.new initiator (sides_of K.held K.faults sink.old sink.new) result }
{
    begin_reset(machine, initiator);
    emit(machine, Entry::Reset(machine.devices.latest()), room, sink)
}

/// A bus reset that a device on the bus begins.
pub(crate) fn reset<K: Sink>(
    machine: &mut Machine,
    device: u8,
    room: &mut WriteBuffers,
    sink: &mut K,
) -> Result<(), Failed>
    requires ready { IsReady machine.old }
    requires on { IsTrue (is_node machine.old.devices.nodes device) }
    requires few { machine.old.resets < MOST_RESETS }
    ensures does { Performed (Performs (ResetBus device ∷ [])) machine.old machine.new (sides_of K.held K.faults sink.old sink.new) result }
{
    machine.resets += 1;
    give_reset(machine, device, room, sink)
}

/// The bus withholds channel 31. If it does so already, nothing is written.
pub(crate) fn withhold<K: Sink>(
    machine: &mut Machine,
    room: &mut WriteBuffers,
    sink: &mut K,
) -> Result<(), Failed>
    requires ready { IsReady machine.old }
    requires first { machine.old.devices.names ≡ [] }
    ensures does { Performed (λ s. Carries s Withhold) machine.old machine.new (sides_of K.held K.faults sink.old sink.new) result }
{
    if machine.devices.withholds() {
        return Ok(());
    }
    machine.devices.withhold();
    emit(machine, withheld(), room, sink)
}

/// A device more. The first begins the first bus reset; each other is off.
pub(crate) fn declare<K: Sink>(
    machine: &mut Machine,
    name: &Name,
    kind: DeviceKind,
    ports: u8,
    speed: u8,
    room: &mut WriteBuffers,
    sink: &mut K,
) -> Result<(), Failed>
    requires ready { IsReady machine.old }
    requires room { length machine.old.devices.names < 63 }
    requires some { 1 ≤ ports }
    requires most { ports ≤ 27 }
    requires speed { speed ≤ 2 }
    ensures does { Performed (Performs (AddDevice name.now kind ports speed ∷ [])) machine.old machine.new (sides_of K.held K.faults sink.old sink.new) result }
{
    let is_first = machine.devices.count() == 0;
    machine.devices.add(name, kind, ports, speed);
    machine.controllers.add();
    machine.candidates.add();
    if is_first {
        machine.resets = 1;
        give_reset(machine, 0, room, sink)
    } else {
        Ok(())
    }
}

/// A cable more. If it joins a device that is off to the bus, the end that was on the bus begins a bus reset (own).
pub(crate) fn join<K: Sink>(
    machine: &mut Machine,
    a: End,
    b: End,
    room: &mut WriteBuffers,
    sink: &mut K,
) -> Result<(), Failed>
    requires ready { IsReady machine.old }
    requires free { CanJoin machine.old.devices.topology a b }
    requires few { IsFalse (joins_in machine.old a b && nat_le MOST_RESETS machine.old.resets) }
    ensures does { Performed (Performs (AddCable a b ∷ [])) machine.old machine.new (sides_of K.held K.faults sink.old sink.new) result }
{
    let first_is_on = machine.is_on(a.device);
    let second_is_on = machine.is_on(b.device);
    machine.devices.join(a, b);
    match (first_is_on, second_is_on) {
        (true, false) => {
            machine.resets += 1;
            give_reset(machine, a.device, room, sink)
        }
        (false, true) => {
            machine.resets += 1;
            give_reset(machine, b.device, room, sink)
        }
        _ => Ok(()),
    }
}
