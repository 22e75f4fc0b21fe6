//! Frames between nodes (IEC 61883-1, 9): commands of the script, and all that decks send.

ghost use Rattle.std.specs.Prelude.{◌≡◌, ◌≤◌, ◌<◌, ℕ, Some, IsSome, IfOk, IsTrue, length};
ghost use Rattle.fw_async.specs.Async.{Fits};
ghost use Rattle.fw_csr.specs.declared.offset.TheConstants.{FCP_COMMAND};
ghost use Rattle.fw_devices.specs.Entries.{node_device};
ghost use Rattle.fw_devices.specs.Network.{is_node, node_at};
ghost use Rattle.fw_node.specs.Packets.{request_in, RequestFits};
ghost use Rattle.fw_model_run.specs.Carrying.{SendsAll};
ghost use Rattle.fw_model_run.specs.Frames.{write_request};
ghost use Rattle.fw_order.specs.declared.order.Order.TheVariants.{Command};
ghost use Rattle.fw_tape.specs.Desks.{AnyVendorByte};
ghost use Rattle.fw_bus_engine.specs.Performing.{Performed};
ghost use Rattle.fw_bus_engine.specs.Framing.{CarriesWithDesk, Commands, SendsNext, IsQuiet, IsWrite, IsFrameTo, frames_of};
ghost use Rattle.fw_bus_state.specs.Giving.{sides_of};
ghost use Rattle.fw_bus_state.specs.Stands.{IsReady, is_linked_in, is_living_in};

use crate::exchange::exchange;
use fw_async::{Packet, number_of};
use fw_bus_state::{Machine, WriteBuffers};
use fw_csr::Request;
use fw_csr::offset::FCP_COMMAND;
use fw_node::request_packet;
use fw_outside::{Failed, Sink};
use fw_tape::Desk;
use fw_terms::Label;
use fw_words::{Bytes512, Data, are_bytes, quadlet_at};

/// What writes bytes to FCP_COMMAND: four by a quadlet write, all else by a block write.
fn command_request(bytes: &[u8]) -> Request<'_>
    requires few { length bytes.now ≤ 512 }
    ensures value { result ≡ write_request FCP_COMMAND bytes.now }
    ensures fits { RequestFits result }
{
    are_bytes(bytes);
    if bytes.len() == 4 {
        return Request::Write {
            offset: FCP_COMMAND,
            value: quadlet_at(bytes, 0).0,
        };
    }
    Request::WriteBlock {
        offset: FCP_COMMAND,
        bytes: Data::new(bytes),
    }
}

/// The number of the node that a frame goes to.
fn destination(frame: &Packet) -> u8
    requires frame { (n : ℕ) × IsFrameTo frame.now n }
    ensures { (n : ℕ) → IsFrameTo frame.now n → result ≡ n }
{
    match frame {
        Packet::WriteQuadlet { head, .. } | Packet::WriteBlock { head, .. } => {
            number_of(head.destination)
        }
        _ => unreachable!(),
    }
}

/// The packet by which a device writes bytes to FCP_COMMAND of another.
fn command_packet<'a>(machine: &Machine, from: u8, to: u8, bytes: &'a [u8]) -> Packet<'a>
    requires from { IsTrue (is_node machine.now.devices.nodes from) }
    requires to { IsTrue (is_node machine.now.devices.nodes to) }
    requires few { length bytes.now ≤ 512 }
    ensures value { IsWrite machine.now.devices.nodes from to FCP_COMMAND bytes.now result }
    ensures fits { Fits result }
    ensures request { IsSome (request_in result) }
{
    let from = machine.number(from);
    let to = machine.number(to);
    request_packet(from, to, Label::Script, &command_request(bytes))
}

/// A device writes bytes to FCP_COMMAND of another, which answers the write. If they are a command to its unit, the unit
/// carries it out, and its response then waits.
fn write_command<K: Sink, F: Fn(u16, u32, u16) -> [u8; 480], H: Fn(u32, u8) -> u8>(
    machine: &mut Machine,
    from: u8,
    to: u8,
    bytes: &Data,
    desk: &Desk<F, H>,
    room: &mut WriteBuffers,
    sink: &mut K,
) -> Result<(), Failed>
    requires ready { IsReady machine.old }
    requires desk { AnyVendorByte (H.pre desk.now.vendor) }
    requires from { IsTrue (is_living_in machine.old from) }
    requires to { IsTrue (is_linked_in machine.old.devices to) }
    requires quiet { IsQuiet machine.old.devices }
    requires few { length bytes.now ≤ 512 }
    ensures does { Performed (Commands (record { blocks = F.post desk.now.blocks; vendor = H.post desk.now.vendor }) from to bytes.now)
        machine.old machine.new (sides_of K.held K.faults sink.old sink.new) result }
    ensures size { length machine.new.devices.nodes ≡ length machine.old.devices.nodes }
{
    let request = command_packet(machine, from, to, bytes.as_slice());
    let response = machine
        .devices
        .answer_frame(to, machine.cycle, &request, desk);
    exchange(machine, &request, &response, &mut room.packet, sink)
}

/// Carries a command out whole: it is written, and then the device sends what it has to send, the response first.
pub(crate) fn command<K: Sink, F: Fn(u16, u32, u16) -> [u8; 480], H: Fn(u32, u8) -> u8>(
    machine: &mut Machine,
    from: u8,
    to: u8,
    bytes: &Data,
    desk: &Desk<F, H>,
    room: &mut WriteBuffers,
    sink: &mut K,
) -> Result<(), Failed>
    requires ready { IsReady machine.old }
    requires desk { AnyVendorByte (H.pre desk.now.vendor) }
    requires from { IsTrue (is_living_in machine.old from) }
    requires to { IsTrue (is_linked_in machine.old.devices to) }
    requires quiet { IsQuiet machine.old.devices }
    requires few { length bytes.now ≤ 512 }
    ensures does { Performed (CarriesWithDesk (record { blocks = F.post desk.now.blocks; vendor = H.post desk.now.vendor }) (Command from to bytes.now))
        machine.old machine.new (sides_of K.held K.faults sink.old sink.new) result }
{
    write_command(machine, from, to, bytes, desk, room, sink)?;
    send_frames(machine, to, room, sink)
}

/// The device of the node that a frame goes to.
fn addressee(machine: &Machine, frame: &Packet) -> u8
    requires frame { (n : ℕ) × IsFrameTo frame.now n × IsSome (node_device machine.now.devices.latest.nodes n) }
    ensures { (n : ℕ) → IsFrameTo frame.now n → node_device machine.now.devices.latest.nodes n ≡ Some result }
{
    match machine.devices.device_at(destination(frame)) {
        Some(device) => device,
        None => unreachable!(),
    }
}

/// A device sends its next frame, and its node answers the write; nothing follows from a response or a notice. Answers
/// whether there was one.
fn send_frame<K: Sink>(
    machine: &mut Machine,
    device: u8,
    bytes: &mut Bytes512,
    room: &mut WriteBuffers,
    sink: &mut K,
) -> Result<bool, Failed>
    requires ready { IsReady machine.old }
    requires declared { device < length machine.old.devices.nodes }
    ensures does { Performed (SendsNext device result) machine.old machine.new (sides_of K.held K.faults sink.old sink.new) result }
    ensures size { length machine.new.devices.nodes ≡ length machine.old.devices.nodes }
    ensures fewer { IfOk result (λ sent. IsTrue sent
        → frames_of (node_at machine.new.devices.nodes device) < frames_of (node_at machine.old.devices.nodes device)) }
{
    let Some(frame) = machine.devices.outgoing(device, bytes) else {
        return Ok(false);
    };
    let to = addressee(machine, &frame);
    let response = machine.devices.answer(to, machine.cycle, &frame);
    exchange(machine, &frame, &response, &mut room.packet, sink)?;
    Ok(true)
}

/// A device sends all frames that it has, one after another.
pub(crate) fn send_frames<K: Sink>(
    machine: &mut Machine,
    device: u8,
    room: &mut WriteBuffers,
    sink: &mut K,
) -> Result<(), Failed>
    requires ready { IsReady machine.old }
    requires declared { device < length machine.old.devices.nodes }
    ensures does { Performed (SendsAll device) machine.old machine.new (sides_of K.held K.faults sink.old sink.new) result }
{
    let mut bytes = Bytes512::new();
    while send_frame(machine, device, &mut bytes, room, sink)? {}
    Ok(())
}
