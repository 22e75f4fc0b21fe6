//! One half step of a requester: its request is carried out and it hears the response, or it says what it does next.

ghost use Rattle.std.specs.Prelude.{Some, IsTrue, IsFalse};
ghost use Rattle.fw_async.specs.Reader.{Spells};
ghost use Rattle.fw_async.specs.declared.packet.Packet.{Packet as AsyncPacket};
ghost use Rattle.fw_log_entry.specs.declared.entry.Entry.TheVariants.{Async};
ghost use Rattle.fw_bus_state.specs.Giving.{sides_of};
ghost use Rattle.fw_bus_state.specs.Stands.{IsReady};
ghost use Rattle.fw_bus_engine.specs.Requesting.{Holds, Turn, WritesTurn};

use fw_async::PacketRoom;
use fw_bus_state::{Machine, WriteBuffers, emit_packet};
use fw_outside::{Failed, Sink};

/// Who makes requests, half step by half step: the controllers of devices, or their candidates for the bus manager.
pub(crate) trait Requester {
    /// The requester of a device may take a half step.
    ghost May: { Holds };

    /// A request of it is outstanding.
    ghost Awaits: { Holds };

    /// None is outstanding, and it may say what it does next.
    ghost Rests: { Holds };

    /// Its half step leads from the one machine to the other, before it is counted, and this is to be written of it.
    ghost Turns: { Turn };

    /// Whether a request of it is outstanding.
    fn has_request(machine: &Machine, device: u8) -> bool
        requires ready { IsReady machine.now }
        requires may { May machine.now device }
        ensures awaits { IsTrue result → Awaits machine.now device }
        ensures rests { IsFalse result → Rests machine.now device };

    /// The node that its request went to carries it out, and it hears the reply. The response is in the room then.
    fn hear(machine: &mut Machine, device: u8, packet: &mut PacketRoom)
        requires ready { IsReady machine.old }
        requires awaits { Awaits machine.old device }
        ensures { (p : AsyncPacket) × Spells p packet.new × Turns machine.old machine.new device (Some (Async p)) };

    /// What it does next is written. A request that goes out is on the wire then.
    fn ask<K: Sink>(
        machine: &mut Machine,
        device: u8,
        room: &mut WriteBuffers,
        sink: &mut K,
    ) -> Result<(), Failed>
        requires ready { IsReady machine.old }
        requires rests { Rests machine.old device }
        ensures { WritesTurn Turns machine.old machine.new device (sides_of K.held K.faults sink.old sink.new) result };
}

/// One half step: it writes at most one entry.
#[inline(always)]
pub(crate) fn turn<R: Requester, K: Sink>(
    machine: &mut Machine,
    device: u8,
    room: &mut WriteBuffers,
    sink: &mut K,
) -> Result<(), Failed>
    requires ready { IsReady machine.old }
    requires may { R.May machine.old device }
    ensures { WritesTurn R.Turns machine.old machine.new device (sides_of K.held K.faults sink.old sink.new) result }
{
    if R::has_request(machine, device) {
        hear::<R, K>(machine, device, room, sink)
    } else {
        R::ask(machine, device, room, sink)
    }
}

/// A request is outstanding: it is carried out, and the response is written.
#[inline(always)]
pub(crate) fn hear<R: Requester, K: Sink>(
    machine: &mut Machine,
    device: u8,
    room: &mut WriteBuffers,
    sink: &mut K,
) -> Result<(), Failed>
    requires ready { IsReady machine.old }
    requires awaits { R.Awaits machine.old device }
    ensures { WritesTurn R.Turns machine.old machine.new device (sides_of K.held K.faults sink.old sink.new) result }
{
    R::hear(machine, device, &mut room.packet);
    emit_packet(machine, &mut room.packet, sink)
}
