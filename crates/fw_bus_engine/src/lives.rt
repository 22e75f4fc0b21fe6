//! What commands ask of controllers: connections, breaks, their deaths and starts.

ghost use Rattle.std.specs.Prelude.{◌≡◌, ◌<◌, [], ◌∷◌, None, Ok, IsTrue, true};
ghost use Rattle.fw_cmp.specs.Losses.{Awaits};
ghost use Rattle.fw_cmp_jobs.specs.Fits.{SlotFits};
ghost use Rattle.fw_cmp.specs.Starts.{break_fault};
ghost use Rattle.fw_order.specs.declared.limits.TheConstants.{MOST_RESETS};
ghost use Rattle.fw_model_run.specs.Actions.{CarryOut, Die as Dies, StartConnection, StartBreak};
ghost use Rattle.fw_model_run.specs.Afterwards.{slot_of, start_of};
ghost use Rattle.fw_model_run.specs.Carrying.{Carries};
ghost use Rattle.fw_order.specs.declared.order.Order.TheVariants.{Die, Lose, Start};
ghost use Rattle.fw_bus_engine.specs.Performing.{Performs, Performed};
ghost use Rattle.fw_bus_state.specs.Giving.{sides_of};
ghost use Rattle.fw_bus_state.specs.Stands.{IsReady, is_linked_in, is_living_in};
ghost use Rattle.fw_bus_state.specs.Tables.{states_of};

use crate::half::lose_response;
use crate::requester::hear;
use fw_bus_state::entries::{died, lost, started};
use fw_bus_state::{Controllers, Machine, WriteBuffers, emit};
use fw_order::Wanted;
use fw_outside::{Failed, Sink};

/// A new connection of a device's controller takes the slot that was found for it. Nothing is written.
pub(crate) fn connect<K: Sink>(
    machine: &mut Machine,
    device: u8,
    wanted: &Wanted,
    slot: u8,
    sink: &mut K,
) -> Result<(), Failed>
    requires ready { IsReady machine.old }
    requires living { IsTrue (is_living_in machine.old device) }
    requires held { SlotFits (slot_of wanted.now) }
    requires found { start_of device wanted.now (states_of machine.old.controllers device).state ≡ Ok slot }
    ensures does { Performed (Performs (StartConnection device wanted.now ∷ [])) machine.old machine.new (sides_of K.held K.faults sink.old sink.new) result }
{
    machine.controllers.connect(device, wanted, slot);
    Ok(())
}

/// A break of the connection in a slot of a device's controller, which does not refuse it. Nothing is written.
pub(crate) fn break_connection<K: Sink>(
    machine: &mut Machine,
    device: u8,
    slot: u8,
    sink: &mut K,
) -> Result<(), Failed>
    requires ready { IsReady machine.old }
    requires living { IsTrue (is_living_in machine.old device) }
    requires accepted { break_fault (states_of machine.old.controllers device).state slot ≡ None }
    ensures does { Performed (Performs (StartBreak device slot ∷ [])) machine.old machine.new (sides_of K.held K.faults sink.old sink.new) result }
{
    machine.controllers.break_connection(device, slot);
    Ok(())
}

/// The outstanding request of a device's controller is carried out.
fn carry_request<K: Sink>(
    machine: &mut Machine,
    device: u8,
    room: &mut WriteBuffers,
    sink: &mut K,
) -> Result<(), Failed>
    requires ready { IsReady machine.old }
    requires living { IsTrue (is_living_in machine.old device) }
    requires standing { Awaits (states_of machine.old.controllers device) }
    ensures does { Performed (Performs (CarryOut device ∷ [])) machine.old machine.new (sides_of K.held K.faults sink.old sink.new) result }
    ensures living { IsTrue (is_living_in machine.new device) }
{
    hear::<Controllers, K>(machine, device, room, sink)
}

/// The outstanding request of a device's controller is carried out, and the controller does not hear the response.
pub(crate) fn lose<K: Sink>(
    machine: &mut Machine,
    device: u8,
    room: &mut WriteBuffers,
    sink: &mut K,
) -> Result<(), Failed>
    requires ready { IsReady machine.old }
    requires living { IsTrue (is_living_in machine.old device) }
    requires standing { Awaits (states_of machine.old.controllers device) }
    requires few { machine.old.resets < MOST_RESETS }
    ensures does { Performed (λ s. Carries s (Lose device)) machine.old machine.new (sides_of K.held K.faults sink.old sink.new) result }
{
    lose_response(machine, device, room, sink)?;
    emit(machine, lost(device), room, sink)
}

/// A device's controller stops.
fn stop<K: Sink>(
    machine: &mut Machine,
    device: u8,
    room: &mut WriteBuffers,
    sink: &mut K,
) -> Result<(), Failed>
    requires ready { IsReady machine.old }
    requires living { IsTrue (is_living_in machine.old device) }
    ensures { Performed (Performs (Dies device ∷ [])) machine.old machine.new (sides_of K.held K.faults sink.old sink.new) result }
{
    machine.controllers.die(device);
    let own = machine.number(device);
    machine.wire.remove(own);
    machine.bids.remove(own);
    machine.candidates.leave(device);
    emit(machine, died(device), room, sink)
}

/// The outstanding request of a device's controller is carried out, and then the controller stops.
fn stop_late<K: Sink>(
    machine: &mut Machine,
    device: u8,
    room: &mut WriteBuffers,
    sink: &mut K,
) -> Result<(), Failed>
    requires ready { IsReady machine.old }
    requires living { IsTrue (is_living_in machine.old device) }
    requires standing { Awaits (states_of machine.old.controllers device) }
    ensures { Performed (λ s. Carries s (Die device true)) machine.old machine.new (sides_of K.held K.faults sink.old sink.new) result }
{
    carry_request(machine, device, room, sink)?;
    stop(machine, device, room, sink)
}

/// A device's controller dies; with `late` the outstanding request is carried out before.
pub(crate) fn die<K: Sink>(
    machine: &mut Machine,
    device: u8,
    late: bool,
    room: &mut WriteBuffers,
    sink: &mut K,
) -> Result<(), Failed>
    requires ready { IsReady machine.old }
    requires living { IsTrue (is_living_in machine.old device) }
    ensures does { Performed (λ s. Carries s (Die device late)) machine.old machine.new (sides_of K.held K.faults sink.old sink.new) result }
{
    if late && machine.controllers.get(device).has_request() {
        stop_late(machine, device, room, sink)
    } else {
        stop(machine, device, room, sink)
    }
}

/// A device's controller starts. A living one goes on, and nothing is written.
pub(crate) fn start<K: Sink>(
    machine: &mut Machine,
    device: u8,
    room: &mut WriteBuffers,
    sink: &mut K,
) -> Result<(), Failed>
    requires ready { IsReady machine.old }
    requires linked { IsTrue (is_linked_in machine.old.devices device) }
    ensures does { Performed (λ s. Carries s (Start device)) machine.old machine.new (sides_of K.held K.faults sink.old sink.new) result }
{
    if !machine.controllers.is_dead(device) {
        return Ok(());
    }
    machine.controllers.start(device);
    emit(machine, started(device), room, sink)
}
