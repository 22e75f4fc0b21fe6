//! What controllers do in half steps, and the loss of a response.

ghost use Rattle.std.specs.Prelude.{◌≡◌, ◌<◌, ◌≤◌, [], ◌∷◌, IsTrue, IsFalse, Some};
ghost use Rattle.fw_devices.specs.Network.{node_at};
ghost use Rattle.fw_cmp.specs.Losses.{Awaits};
ghost use Rattle.fw_order.specs.declared.limits.TheConstants.{MOST_RESETS};
ghost use Rattle.fw_model_run.specs.Actions.{Lose};
ghost use Rattle.fw_bus_engine.specs.Performing.{Performs, Performed};
ghost use Rattle.fw_bus_engine.specs.Requesting.{TurnsController, WritesTurn};
ghost use Rattle.fw_bus_engine.specs.Serving.{Serves};
ghost use Rattle.fw_bus_state.specs.Giving.{sides_of};
ghost use Rattle.fw_bus_state.specs.Stands.{IsReady, is_living_in};
ghost use Rattle.fw_bus_state.specs.Tables.{Listens, states_of};

use crate::exchange::{send, serve};
use crate::requester::Requester;
use fw_async::PacketRoom;
use fw_bus_state::entries::outcome_entry;
use fw_bus_state::{Controllers, Machine, WriteBuffers, emit, emit_packet};
use fw_cmp::Next;
use fw_csr::Reply;
use fw_outside::{Failed, Sink};
use fw_terms::Label;

impl Requester for Controllers {
    ghost May = { λ m d. IsTrue (is_living_in m d) × IsFalse (states_of m.controllers d).lost };

    ghost Awaits = { λ m d. IsTrue (is_living_in m d) × Awaits (states_of m.controllers d) };

    ghost Rests = { λ m d. IsTrue (is_living_in m d) × Listens (states_of m.controllers d) };

    ghost Turns = { TurnsController };

    #[inline(always)]
    fn has_request(machine: &Machine, device: u8) -> bool {
        machine.controllers.get(device).has_request()
    }

    #[inline(always)]
    fn hear(machine: &mut Machine, device: u8, packet: &mut PacketRoom) {
        let reply = serve_request(machine, device, packet);
        machine.controllers.hear(device, &reply);
    }

    #[inline(always)]
    fn ask<K: Sink>(
        machine: &mut Machine,
        device: u8,
        room: &mut WriteBuffers,
        sink: &mut K,
    ) -> Result<(), Failed> {
        let own = own_number(machine, device);
        match machine
            .controllers
            .ask(device, machine.cycle, &machine.directory)
        {
            Some((to, request)) => {
                send(
                    own,
                    to,
                    Label::Procedure,
                    &request,
                    &mut machine.wire,
                    &mut room.packet,
                );
                emit_packet(machine, &mut room.packet, sink)
            }
            None => ask_other(machine, device, room, sink),
        }
    }
}

/// As `ask`, if the request is not found at once, or none goes out.
// Not inlined: most half steps send, and a round is faster with their registers alone.
#[inline(never)]
fn ask_other<K: Sink>(
    machine: &mut Machine,
    device: u8,
    room: &mut WriteBuffers,
    sink: &mut K,
) -> Result<(), Failed>
    requires ready { IsReady machine.old }
    requires living { IsTrue (is_living_in machine.old device) }
    requires heard { Listens (states_of machine.old.controllers device) }
    ensures { WritesTurn TurnsController machine.old machine.new device (sides_of K.held K.faults sink.old sink.new) result }
{
    match machine
        .controllers
        .next(device, machine.cycle, &machine.directory)
    {
        Next::Send { to, request } => {
            let own = machine.number(device);
            send(
                own,
                to,
                Label::Procedure,
                &request,
                &mut machine.wire,
                &mut room.packet,
            );
            emit_packet(machine, &mut room.packet, sink)
        }
        Next::End { slot, outcome } => emit(
            machine,
            outcome_entry(device, slot, outcome),
            room,
            sink,
        ),
        Next::Idle | Next::Waiting { .. } | Next::Deaf { .. } | Next::Force => Ok(()),
    }
}

/// A request is outstanding: it is carried out, and the response is written. The controller does not hear it, which counts as a bus
/// reset.
pub(crate) fn lose_response<K: Sink>(
    machine: &mut Machine,
    device: u8,
    room: &mut WriteBuffers,
    sink: &mut K,
) -> Result<(), Failed>
    requires ready { IsReady machine.old }
    requires living { IsTrue (is_living_in machine.old device) }
    requires standing { Awaits (states_of machine.old.controllers device) }
    requires few { machine.old.resets < MOST_RESETS }
    ensures does { Performed (Performs (Lose device ∷ [])) machine.old machine.new (sides_of K.held K.faults sink.old sink.new) result }
    ensures deaf { IsTrue (states_of machine.new.controllers device).lost }
{
    let _unheard = serve_request(machine, device, &mut room.packet);
    machine.controllers.lose(device);
    machine.resets += 1;
    emit_packet(machine, &mut room.packet, sink)
}

/// A request is outstanding: the node that it went to carries it out. The reply in the response, whose bytes are in the room then.
#[inline(always)]
fn serve_request(machine: &mut Machine, device: u8, packet: &mut PacketRoom) -> Reply
    requires ready { IsReady machine.old }
    requires living { IsTrue (is_living_in machine.old device) }
    requires standing { Awaits (states_of machine.old.controllers device) }
    ensures { Serves machine.old machine.new device packet.new result }
{
    let own = own_number(machine, device);
    let (target, reply) = serve(
        &mut machine.devices,
        machine.cycle,
        own,
        &mut machine.wire,
        packet,
    );
    machine.streams.restart_if_silent(&machine.devices, target);
    reply
}

/// The node number of a device whose controller lives.
// The directory has it at hand; the device's node is looked up.
#[inline(always)]
fn own_number(machine: &Machine, device: u8) -> u8
    requires ready { IsReady machine.now }
    requires living { IsTrue (is_living_in machine.now device) }
    ensures value { (node_at machine.now.devices.nodes device).number ≡ Some result }
    ensures range { result ≤ 62 }
{
    match machine.directory.node_of(device) {
        Some(number) => number,
        None => unreachable!(),
    }
}
