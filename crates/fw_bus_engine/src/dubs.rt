//! The reel is tied to a deck (own).

ghost use Rattle.std.specs.Prelude.{◌<◌, [], ◌∷◌, length, IsTrue};
ghost use Rattle.fw_devices.specs.Network.{is_node};
ghost use Rattle.fw_model_run.specs.Actions.{TieReel};
ghost use Rattle.fw_bus_engine.specs.Performing.{Performs, Performed};
ghost use Rattle.fw_bus_state.specs.Giving.{sides_of};
ghost use Rattle.fw_bus_state.specs.Orders.{has_deck_in};
ghost use Rattle.fw_bus_state.specs.Stands.{IsReady};

use fw_bus_state::entries::dubbing;
use fw_bus_state::{Machine, WriteBuffers, emit};
use fw_outside::{Failed, Sink};

/// The reel is emptied, and tied to this deck.
pub(crate) fn dub<K: Sink>(
    machine: &mut Machine,
    device: u8,
    room: &mut WriteBuffers,
    sink: &mut K,
) -> Result<(), Failed>
    requires ready { IsReady machine.old }
    requires declared { device < length machine.old.devices.nodes }
    requires deck { IsTrue (has_deck_in machine.old.devices device) }
    requires on { IsTrue (is_node machine.old.devices.nodes device) }
    ensures does { Performed (Performs (TieReel device ∷ [])) machine.old machine.new (sides_of K.held K.faults sink.old sink.new) result }
{
    machine.reel.clear();
    machine.tied = Some(device);
    emit(machine, dubbing(device), room, sink)
}
