//! Half steps, and what is written after the rounds of a `settle`.

ghost use Rattle.std.specs.Prelude.{◌≡◌, ◌≢◌, ◌≤◌, ◌<◌, ◌+◌, ℕ, [], ◌∷◌, IsTrue, IsFalse, OnOk};
ghost use Rattle.fw_order.specs.declared.limits.TheConstants.{MOST_HALF_STEPS};
ghost use Rattle.fw_model_run.specs.Actions.{HalfStep};
ghost use Rattle.fw_model_run.specs.Carrying.{times};
ghost use Rattle.fw_bus_engine.specs.Leaving.{LeavesHalf, WhereNothing};
ghost use Rattle.fw_bus_engine.specs.Performing.{Performs, Performed, TellsUnsettled};
ghost use Rattle.fw_bus_state.specs.Giving.{sides_of};
ghost use Rattle.fw_bus_state.specs.Halves.{counted_in};
ghost use Rattle.fw_bus_state.specs.Stands.{IsReady, is_living_in};
ghost use Rattle.fw_bus_state.specs.Tables.{states_of};

use crate::requester::turn;
use crate::reset::give_reset;
use fw_bus_state::entries::unsettled;
use fw_bus_state::{Controllers, Machine, WriteBuffers, emit};
use fw_cmp::Next;
use fw_outside::{Failed, Sink};

/// One half step of a device's controller, which lives: it writes at most one entry. Of the controllers it changes that one alone, unless
/// it begins a bus reset, and if it writes nothing it is only counted.
#[inline(always)]
pub fn half_step<K: Sink>(
    machine: &mut Machine,
    device: u8,
    room: &mut WriteBuffers,
    sink: &mut K,
) -> Result<(), Failed>
    requires ready { IsReady machine.old }
    requires living { IsTrue (is_living_in machine.old device) }
    requires few { machine.old.half_steps < MOST_HALF_STEPS }
    ensures does { Performed (Performs (HalfStep device ∷ [])) machine.old machine.new (sides_of K.held K.faults sink.old sink.new) result }
    ensures living { (d : ℕ) → is_living_in machine.new d ≡ is_living_in machine.old d }
    ensures names { machine.new.devices.names ≡ machine.old.devices.names }
    ensures count { machine.new.half_steps ≡ machine.old.half_steps + 1 }
    ensures half { machine.new.devices.epoch ≡ machine.old.devices.epoch → LeavesHalf machine.old machine.new device }
    ensures silent { OnOk result (WhereNothing (K.held sink.old) (K.held sink.new) (machine.new ≡ counted_in machine.old)) }
{
    if machine.controllers.is_calm(device) {
        machine.half_steps += 1;
        return Ok(());
    }
    if machine.controllers.get(device).is_deaf() {
        return deaf_step(machine, device, room, sink);
    }
    // Counted in each arm, so that the next half step follows at once where the sink took the entry.
    match turn::<Controllers, K>(machine, device, room, sink) {
        Ok(()) => {
            machine.half_steps += 1;
            Ok(())
        }
        Err(failed) => {
            machine.half_steps += 1;
            Err(failed)
        }
    }
}

/// One half step of a device's controller that has lost a response: it waits, or forces a bus reset.
fn deaf_step<K: Sink>(
    machine: &mut Machine,
    device: u8,
    room: &mut WriteBuffers,
    sink: &mut K,
) -> Result<(), Failed>
    requires ready { IsReady machine.old }
    requires living { IsTrue (is_living_in machine.old device) }
    requires deaf { IsTrue (states_of machine.old.controllers device).lost }
    requires few { machine.old.half_steps < MOST_HALF_STEPS }
    ensures does { Performed (Performs (HalfStep device ∷ [])) machine.old machine.new (sides_of K.held K.faults sink.old sink.new) result }
    ensures living { (d : ℕ) → is_living_in machine.new d ≡ is_living_in machine.old d }
    ensures names { machine.new.devices.names ≡ machine.old.devices.names }
    ensures count { machine.new.half_steps ≡ machine.old.half_steps + 1 }
    ensures half { machine.new.devices.epoch ≡ machine.old.devices.epoch → LeavesHalf machine.old machine.new device }
    ensures silent { OnOk result (WhereNothing (K.held sink.old) (K.held sink.new) (machine.new ≡ counted_in machine.old)) }
{
    machine.half_steps += 1;
    if is_force(
        &machine
            .controllers
            .next(device, machine.cycle, &machine.directory),
    ) {
        give_reset(machine, device, room, sink)
    } else {
        Ok(())
    }
}

/// Half steps of a device's controller.
pub(crate) fn steps<K: Sink>(
    machine: &mut Machine,
    device: u8,
    count: u32,
    room: &mut WriteBuffers,
    sink: &mut K,
) -> Result<(), Failed>
    requires ready { IsReady machine.old }
    requires living { IsTrue (is_living_in machine.old device) }
    requires few { machine.old.half_steps + count ≤ MOST_HALF_STEPS }
    ensures does { Performed (Performs (times count (HalfStep device))) machine.old machine.new (sides_of K.held K.faults sink.old sink.new) result }
{
    for i in 0..count {
        half_step(machine, device, room, sink)?;
    }
    Ok(())
}

/// If a living controller has something to do, or waits for an answer, that is written.
pub(crate) fn tell_unsettled<K: Sink>(
    machine: &mut Machine,
    room: &mut WriteBuffers,
    sink: &mut K,
) -> Result<(), Failed>
    requires ready { IsReady machine.old }
    ensures does { Performed TellsUnsettled machine.old machine.new (sides_of K.held K.faults sink.old sink.new) result }
{
    if machine.is_unsettled() {
        emit(machine, unsettled(), room, sink)
    } else {
        Ok(())
    }
}

/// Whether the controller forces a bus reset.
fn is_force(next: &Next) -> bool
    ensures forces { IsTrue result → next.now ≡ Next.Force }
    ensures waits { IsFalse result → next.now ≢ Next.Force }
{
    match next {
        Next::Force => true,
        _ => false,
    }
}
