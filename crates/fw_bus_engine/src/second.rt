//! Time, and the end of the second after a bus reset.

ghost use Rattle.std.specs.Prelude.{◌≡◌, ◌≤◌, ◌+◌, ◌-◌, ◌^◌, IsTrue, [], ◌∷◌};
ghost use Rattle.fw_model_run.specs.Actions.{EndSecond};
ghost use Rattle.fw_model_run.specs.Carrying.{Carries};
ghost use Rattle.fw_order.specs.declared.order.Order.TheVariants.{Wait};
ghost use Rattle.fw_bus_engine.specs.Performing.{Performs, Performed};
ghost use Rattle.fw_bus_engine.specs.Resetting.{RestsAfterSecond, passed_in};
ghost use Rattle.fw_bus_state.specs.Giving.{sides_of};
ghost use Rattle.fw_bus_state.specs.Stands.{IsReady};
ghost use Rattle.fw_bus_state.specs.Streaming.{AreStillFrom, counted_on};

use fw_bus_state::entries::second_over;
use fw_bus_state::{Machine, WriteBuffers, emit};
use fw_outside::{Failed, Sink};

/// Cycles go by, in which nothing happens but that tapes move, and that each plug that talks counts the blocks that its tape gives.
pub(crate) fn pass(machine: &mut Machine, cycles: u64)
    requires ready { IsReady machine.old }
    requires few { machine.old.cycle + cycles ≤ 2 ^ 52 }
    ensures { machine.new ≡ record machine.old { devices = passed_in cycles machine.old.devices; cycle = machine.old.cycle + cycles; streams = counted_on cycles machine.old.devices.nodes machine.old.streams } }
{
    machine.streams.pass(&mut machine.devices, cycles);
    machine.cycle += cycles;
}

/// One cycle goes by as in `pass`, if all devices from `end` on are still. They stay so.
pub(crate) fn pass_one(machine: &mut Machine, end: u8)
    requires ready { IsReady machine.old }
    requires few { machine.old.cycle + 1 ≤ 2 ^ 52 }
    requires still { AreStillFrom end machine.old.devices.nodes machine.old.streams }
    ensures passed { machine.new ≡ record machine.old { devices = passed_in 1 machine.old.devices; cycle = machine.old.cycle + 1; streams = counted_on 1 machine.old.devices.nodes machine.old.streams } }
    ensures still { AreStillFrom end machine.new.devices.nodes machine.new.streams }
{
    machine.streams.pass_to(end, &mut machine.devices, 1);
    machine.cycle += 1;
}

/// One cycle goes by, and the second of the latest bus reset is over.
pub(crate) fn pass_second(machine: &mut Machine)
    requires ready { IsReady machine.old }
    requires few { machine.old.cycle + 1 ≤ 2 ^ 52 }
    ensures { RestsAfterSecond machine.old machine.new }
{
    machine.devices.second_over();
    machine.streams.pass(&mut machine.devices, 1);
    machine.cycle += 1;
    machine.reclaiming = false;
    machine.controllers.second_over();
}

/// The same, and it is written.
fn end_second<K: Sink>(
    machine: &mut Machine,
    room: &mut WriteBuffers,
    sink: &mut K,
) -> Result<(), Failed>
    requires ready { IsReady machine.old }
    requires runs { IsTrue machine.old.reclaiming }
    requires now { machine.old.cycle + 1 ≡ machine.old.directory.over_at }
    requires few { machine.old.cycle + 1 ≤ 2 ^ 52 }
    ensures does { Performed (Performs (EndSecond ∷ [])) machine.old machine.new (sides_of K.held K.faults sink.old sink.new) result }
    ensures rests { RestsAfterSecond machine.old machine.new }
{
    pass_second(machine);
    emit(machine, second_over(), room, sink)
}

/// Cycles go by unwritten. If the second of the latest bus reset is over on the way, that is written at its own cycle.
pub(crate) fn wait<K: Sink>(
    machine: &mut Machine,
    cycles: u32,
    room: &mut WriteBuffers,
    sink: &mut K,
) -> Result<(), Failed>
    requires ready { IsReady machine.old }
    requires few { machine.old.cycle + cycles ≤ 2 ^ 52 }
    ensures does { Performed (λ s. Carries s (Wait cycles)) machine.old machine.new (sides_of K.held K.faults sink.old sink.new) result }
{
    let last = machine.cycle + u64::from(cycles);
    if machine.reclaiming && machine.directory.over_at <= last {
        wait_over(machine, last, room, sink)
    } else {
        pass(machine, u64::from(cycles));
        Ok(())
    }
}

/// Cycles go by, and the second is over on the way.
fn wait_over<K: Sink>(
    machine: &mut Machine,
    last: u64,
    room: &mut WriteBuffers,
    sink: &mut K,
) -> Result<(), Failed>
    requires ready { IsReady machine.old }
    requires runs { IsTrue machine.old.reclaiming }
    requires over { machine.old.directory.over_at ≤ last }
    requires few { last ≤ 2 ^ 52 }
    ensures does { Performed (λ s. Carries s (Wait (last - machine.old.cycle))) machine.old machine.new (sides_of K.held K.faults sink.old sink.new) result }
{
    pass(machine, machine.directory.over_at - 1 - machine.cycle);
    end_second(machine, room, sink)?;
    pass(machine, last - machine.cycle);
    Ok(())
}
