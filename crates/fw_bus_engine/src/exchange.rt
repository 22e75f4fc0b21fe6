//! What goes from node to node and back: an outstanding request on a wire until its node carries it out, and a request that is
//! answered at once.

ghost use Rattle.std.specs.Prelude.{◌≡◌, ◌≤◌, ◌++◌, ◌%◌, [], ◌∷◌, ℕ, None};
ghost use Rattle.fw_async.specs.Async.{Fits, spelling};
ghost use Rattle.fw_async.specs.Reader.{Spells};
ghost use Rattle.fw_async.specs.Wire.{bytes_from};
ghost use Rattle.fw_async.specs.declared.packet.Packet.{Packet as AsyncPacket};
ghost use Rattle.fw_log_entry.specs.declared.entry.Entry.TheVariants.{Async};
ghost use Rattle.fw_node.specs.Packets.{packet_of, request_head};
ghost use Rattle.fw_bus_engine.specs.Exchanging.{GivesBoth, IsCarriedOut, IsOutstanding};
ghost use Rattle.fw_bus_state.specs.Giving.{sides_of};

use fw_async::{Packet, PacketRoom, Wire, destination_at, number_of};
use fw_bus_state::{Machine, give_async};
use fw_csr::{QuadletAccess, Reply};
use fw_devices::Devices;
use fw_node::put_request;
use fw_outside::{Failed, Sink};
use fw_terms::Label;

/// A request goes out: its packet is put into the room, and a copy of it on the wire.
#[inline(always)]
pub(crate) fn send(
    from: u8,
    to: u8,
    label: Label,
    request: &QuadletAccess,
    wire: &mut Wire,
    packet: &mut PacketRoom,
)
    requires from { from ≤ 62 }
    requires to { to ≤ 62 }
    requires fits { Fits (packet_of (request_head from to label) request.now) }
    requires free { bytes_from from wire.old ≡ None }
    ensures packet { Spells (packet_of (request_head from to label) request.now) packet.new }
    ensures wire { wire.new ≡ wire.old ++ (from, spelling (packet_of (request_head from to label) request.now)) ∷ [] }
{
    put_request(from, to, label, request, packet);
    wire.put_bytes(from, packet);
}

/// The request of node `from` that is on the wire: the node that it goes to reads its bytes off the wire and carries it out. The
/// device of that node, and the reply in the response, whose bytes are in the room then.
#[inline(always)]
pub(crate) fn serve(
    devices: &mut Devices,
    cycle: u64,
    from: u8,
    wire: &mut Wire,
    packet: &mut PacketRoom,
) -> (u8, Reply)
    requires from { from ≤ 62 }
    requires outstanding { (device : ℕ) × (p : AsyncPacket) × IsOutstanding devices.old wire.old from device p }
    ensures { (device : ℕ) (p : AsyncPacket) → IsOutstanding devices.old wire.old from device p
        → IsCarriedOut devices.old devices.new wire.old wire.new cycle from device p packet.new result }
{
    let Some(bytes) = wire.get(from) else {
        unreachable!();
    };
    let Some(target) = devices.device_at(number_of(destination_at(bytes))) else {
        unreachable!();
    };
    let reply = devices.serve(target, cycle, bytes, packet);
    wire.remove(from);
    (target, reply)
}

/// Writes a request that was answered at once, and after it the response.
#[inline(always)]
pub(crate) fn exchange<K: Sink>(
    machine: &Machine,
    request: &Packet,
    response: &Packet,
    packet: &mut PacketRoom,
    sink: &mut K,
) -> Result<(), Failed>
    requires request { Fits request.now }
    requires response { Fits response.now }
    ensures { GivesBoth machine.now (Async request.now) (Async response.now) (sides_of K.held K.faults sink.old sink.new) result }
{
    give_async(machine, request, packet, sink)?;
    give_async(machine, response, packet, sink)
}
