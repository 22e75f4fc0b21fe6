ghost use Rattle.fw_tape.specs.Desks.{AnyBlock, AnyVendorByte};
ghost use Rattle.fw_model_run.specs.Carrying.{Carries};
ghost use Rattle.fw_bus_engine.specs.Framing.{PerformedWithDesk, IsQuiet};
ghost use Rattle.fw_bus_state.specs.Giving.{sides_of};
ghost use Rattle.fw_bus_state.specs.Orders.{MayCarry};
ghost use Rattle.fw_bus_state.specs.Stands.{IsReady};

use crate::bids::{become_candidate, contend};
use crate::cycles::cycles;
use crate::dubs::dub;
use crate::frames::command;
use crate::lives::{break_connection, connect, die, lose, start};
use crate::reset::{declare, join, reset, withhold};
use crate::rounds::settle;
use crate::second::wait;
use crate::steps::steps;
use crate::tapes::{eject, insert};
use crate::transact::{show, transact};
use fw_bus_state::{Machine, WriteBuffers, emit};
use fw_log_entry::Entry;
use fw_order::Order;
use fw_outside::{Failed, Sink};
use fw_tape::Desk;

/// Carries an order out, and writes what happens.
// Not inlined: with it, the step that reads a command and carries it out is too large to be inlined in its loop, and there
// copies the command once more.
#[inline(never)]
pub fn carry_out<K: Sink, F: Fn(u16, u32, u16) -> [u8; 480], H: Fn(u32, u8) -> u8>(
    machine: &mut Machine,
    order: &Order,
    desk: &Desk<F, H>,
    room: &mut WriteBuffers,
    sink: &mut K,
) -> Result<(), Failed>
    requires ready { IsReady machine.old }
    requires may { MayCarry machine.old order.now }
    requires quiet { IsQuiet machine.old.devices }
    requires blocks { AnyBlock (F.pre desk.now.blocks) }
    requires desk { AnyVendorByte (H.pre desk.now.vendor) }
    ensures does { PerformedWithDesk (record { blocks = F.post desk.now.blocks; vendor = H.post desk.now.vendor }) (λ s. Carries s order.now)
        machine.old machine.new (sides_of K.held K.faults sink.old sink.new) result }
{
    match order {
        Order::Withhold => withhold(machine, room, sink),
        Order::Declare(name, kind, ports, speed) => {
            declare(machine, name, *kind, *ports, *speed, room, sink)
        }
        Order::Cable(a, b) => join(machine, *a, *b, room, sink),
        Order::Reset(device) => reset(machine, *device, room, sink),
        Order::Connect(device, wanted, slot) => connect(machine, *device, wanted, *slot, sink),
        Order::Break(device, slot) => break_connection(machine, *device, *slot, sink),
        Order::Step(device, count) => steps(machine, *device, *count, room, sink),
        Order::Settle(rounds) => settle(machine, *rounds, room, sink),
        Order::Wait(cycles) => wait(machine, *cycles, room, sink),
        Order::Cycles(count) => cycles(machine, *count, desk, room, sink),
        Order::Die(device, late) => die(machine, *device, *late, room, sink),
        Order::Lose(device) => lose(machine, *device, room, sink),
        Order::Start(device) => start(machine, *device, room, sink),
        Order::Transact(transaction) => transact(machine, *transaction, room, sink),
        Order::Command(from, to, bytes) => { command(machine, *from, *to, bytes, desk, room, sink) }
        Order::Insert(device, tape, system) => {
            insert(machine, *device, *tape, *system, room, sink)
        }
        Order::Eject(device) => eject(machine, *device, room, sink),
        Order::Show(device, offset) => show(machine, *device, *offset, room, sink),
        Order::Candidate(device) => become_candidate(machine, *device, sink),
        Order::Contend(device, count) => contend(machine, *device, *count, room, sink),
        Order::Dub(device) => dub(machine, *device, room, sink),
        Order::End => emit(machine, Entry::End, room, sink),
    }
}
