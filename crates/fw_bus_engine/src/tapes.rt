//! Tapes that go into decks and out of them.

ghost use Rattle.std.specs.Prelude.{◌<◌, IsTrue, length};
ghost use Rattle.fw_model_run.specs.Carrying.{Carries};
ghost use Rattle.fw_order.specs.declared.order.Order.TheVariants.{Insert, Eject};
ghost use Rattle.fw_bus_engine.specs.Performing.{Performed};
ghost use Rattle.fw_bus_state.specs.Giving.{sides_of};
ghost use Rattle.fw_bus_state.specs.Orders.{has_deck_in};
ghost use Rattle.fw_bus_state.specs.Stands.{IsReady};

use crate::frames::send_frames;
use fw_bus_state::entries::{ejected, inserted};
use fw_bus_state::{Machine, WriteBuffers, emit};
use fw_outside::{Failed, Sink};
use fw_tape::TapeSystem;

/// A tape goes into a deck or camcorder, and replaces one that is there. Then it tells those who asked to be told.
pub(crate) fn insert<K: Sink>(
    machine: &mut Machine,
    device: u8,
    tape: u16,
    system: TapeSystem,
    room: &mut WriteBuffers,
    sink: &mut K,
) -> Result<(), Failed>
    requires ready { IsReady machine.old }
    requires declared { device < length machine.old.devices.nodes }
    requires deck { IsTrue (has_deck_in machine.old.devices device) }
    ensures does { Performed (λ s. Carries s (Insert device tape system)) machine.old machine.new (sides_of K.held K.faults sink.old sink.new) result }
{
    machine.devices.insert(device, tape, system);
    emit(machine, inserted(device, tape, system), room, sink)?;
    send_frames(machine, device, room, sink)
}

/// The tape goes out of a deck or camcorder, which then tells those who asked to be told. Without a tape nothing is done.
pub(crate) fn eject<K: Sink>(
    machine: &mut Machine,
    device: u8,
    room: &mut WriteBuffers,
    sink: &mut K,
) -> Result<(), Failed>
    requires ready { IsReady machine.old }
    requires declared { device < length machine.old.devices.nodes }
    requires deck { IsTrue (has_deck_in machine.old.devices device) }
    ensures does { Performed (λ s. Carries s (Eject device)) machine.old machine.new (sides_of K.held K.faults sink.old sink.new) result }
{
    if !machine.devices.eject(device) {
        return Ok(());
    }
    emit(machine, ejected(device), room, sink)?;
    send_frames(machine, device, room, sink)
}
