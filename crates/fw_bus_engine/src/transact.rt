//! Transactions of the script, and registers that are shown.

ghost use Rattle.std.specs.Prelude.{◌≡◌, ◌<◌, ◌^◌, [], ◌∷◌, Some, IsSome, IsTrue, IsFalse};
ghost use Rattle.fw_model_run.specs.Actions.{Ask, Answer, AccessFits, ShowWord};
ghost use Rattle.fw_model_run.specs.Spaces.{access_request};
ghost use Rattle.fw_async.specs.Async.{Fits};
ghost use Rattle.fw_node.specs.Packets.{request_in, RequestFits};
ghost use Rattle.fw_devices.specs.Network.{is_node};
ghost use Rattle.fw_bus_engine.specs.Performing.{Performs, Performed};
ghost use Rattle.fw_bus_state.specs.Giving.{sides_of};
ghost use Rattle.fw_bus_state.specs.Orders.{is_guarded_by};
ghost use Rattle.fw_bus_engine.specs.Transacting.{IsRequest};
ghost use Rattle.fw_bus_state.specs.Stands.{IsReady, is_linked_in, is_living_in, read_in};

use crate::exchange::exchange;
use fw_async::Packet;
use fw_bus_state::entries::shown_entry;
use fw_bus_state::{Machine, WriteBuffers, emit};
use fw_csr::{REGISTER_SPACE, Request};
use fw_node::request_packet;
use fw_order::{Access, Transaction};
use fw_outside::{Failed, Sink};
use fw_terms::Label;
use fw_words::{Bytes16, COMPARE_SWAP, Quadlet, put_quadlet};

/// What an access asks of a node.
fn request_of(access: Access) -> Request<'static>
    requires { AccessFits access }
    ensures value { result ≡ access_request access }
    ensures fits { RequestFits result }
{
    match access {
        Access::Read(offset) => Request::Read {
            offset: REGISTER_SPACE + u64::from(offset),
        },
        Access::Swap(offset, swap) => {
            let mut bytes = Bytes16::new();
            bytes.append(&put_quadlet(Quadlet(swap.argument)));
            bytes.append(&put_quadlet(Quadlet(swap.new)));
            Request::Lock {
                offset: REGISTER_SPACE + u64::from(offset),
                function: COMPARE_SWAP,
                bytes,
            }
        }
    }
}

/// The request packet of a transaction.
fn transaction_packet(machine: &Machine, transaction: Transaction) -> Packet<'static>
    requires from { IsTrue (is_node machine.now.devices.nodes transaction.from) }
    requires to { IsTrue (is_node machine.now.devices.nodes transaction.to) }
    requires access { AccessFits transaction.access }
    ensures value { IsRequest machine.now.devices.nodes transaction result }
    ensures fits { Fits result }
    ensures request { IsSome (request_in result) }
{
    let from = machine.number(transaction.from);
    let to = machine.number(transaction.to);
    request_packet(from, to, Label::Script, &request_of(transaction.access))
}

/// Carries a transaction out whole: the request, and the response of the node that it is sent to.
pub(crate) fn transact<K: Sink>(
    machine: &mut Machine,
    transaction: Transaction,
    room: &mut WriteBuffers,
    sink: &mut K,
) -> Result<(), Failed>
    requires ready { IsReady machine.old }
    requires from { IsTrue (is_living_in machine.old transaction.from) }
    requires to { IsTrue (is_linked_in machine.old.devices transaction.to) }
    requires free { IsFalse (is_guarded_by machine.old.candidates.begun transaction.access) }
    requires access { AccessFits transaction.access }
    ensures does { Performed (Performs (Ask transaction ∷ Answer ∷ [])) machine.old machine.new (sides_of K.held K.faults sink.old sink.new) result }
{
    let request = transaction_packet(machine, transaction);
    let response = machine
        .devices
        .answer(transaction.to, machine.cycle, &request);
    exchange(machine, &request, &response, &mut room.packet, sink)
}

/// Shows the word of a register.
pub(crate) fn show<K: Sink>(
    machine: &mut Machine,
    device: u8,
    offset: u16,
    room: &mut WriteBuffers,
    sink: &mut K,
) -> Result<(), Failed>
    requires ready { IsReady machine.old }
    requires linked { IsTrue (is_linked_in machine.old.devices device) }
    requires offset { offset < 2 ^ 12 }
    requires complete { (read_in machine.old device offset).rcode ≡ 0 }
    ensures does { Performed (Performs (ShowWord device offset ∷ [])) machine.old machine.new (sides_of K.held K.faults sink.old sink.new) result }
{
    let reply = machine.read(device, offset);
    let entry = shown_entry(device, offset, reply.value);
    emit(machine, entry, room, sink)
}
