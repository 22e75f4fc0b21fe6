//! The rules by which commands are refused.

ghost use Rattle.std.specs.Prelude.{◌≡◌, ◌≤◌, ◌<◌, ◌^◌, nat_le, None, Some, IfOk, IfErr, length};
ghost use Rattle.fw_order.specs.declared.rule.RuleFault.TheVariants.{UnknownName};
ghost use Rattle.fw_script_command.specs.declared.command.Command.TheVariants as Commands;
ghost use Rattle.fw_devices.specs.Network.{device_named};
ghost use Rattle.fw_bus_rules.specs.Decisions.{Decided, IsCommand};
ghost use Rattle.fw_bus_state.specs.Orders.{MayCarry};
ghost use Rattle.fw_bus_state.specs.Stands.{IsReady};

use crate::candidates::{decide_candidate, decide_contend};
use crate::connections::{
    decide_break, decide_broadcast, decide_connect, decide_death, decide_listen, decide_loss,
    decide_start,
};
use crate::decks::{decide_command, decide_dub, decide_eject, decide_insert};
use crate::transactions::{decide_show, decide_transaction};
use fw_bus_state::Machine;
use fw_devices::MOST_DEVICES;
use fw_order::{Access, MOST_HALF_STEPS, MOST_RESETS, MOST_WRITTEN_CYCLES, Order, RuleFault};
use fw_script_command::{Command, Name};
use fw_terms::DeviceKind;
use fw_tree::{End, TreeFault};
use fw_words::Swap;

/// The greatest cycle number.
const LAST_CYCLE: u64 = 1 << 52;

/// The device of a name.
pub(crate) fn known(machine: &Machine, name: &Name) -> Result<u8, RuleFault>
    ensures device { IfOk result (λ d. device_named machine.now.devices.names name.now ≡ Some d) }
    ensures declared { IfOk result (λ d. d < length machine.now.devices.names) }
    ensures unknown { IfErr result (λ f. (f ≡ UnknownName) × (device_named machine.now.devices.names name.now ≡ None)) }
{
    machine.devices.find(name).ok_or(RuleFault::UnknownName)
}

fn decide_withhold(machine: &Machine) -> Result<Order<'static>, RuleFault>
    ensures decided { Decided machine.now Commands.Withhold result }
    ensures may { IfOk result (MayCarry machine.now) }
{
    let is_first = machine.devices.count() == 0;
    if is_first {
        Ok(Order::Withhold)
    } else {
        Err(RuleFault::TooLate)
    }
}

fn decide_device(
    machine: &Machine,
    name: &Name,
    kind: u8,
    ports: u8,
    speed: u8,
) -> Result<Order<'static>, RuleFault>
    requires kind { kind ≤ 3 }
    requires some { 1 ≤ ports }
    requires most { ports ≤ 27 }
    requires speed { speed ≤ 2 }
    ensures decided { Decided machine.now (Commands.Device name.now kind ports speed) result }
    ensures may { IfOk result (MayCarry machine.now) }
{
    if machine.devices.find(name).is_some() {
        return Err(RuleFault::NameTaken);
    }
    if usize::from(machine.devices.count()) >= MOST_DEVICES {
        return Err(RuleFault::TooMany);
    }
    Ok(Order::Declare(*name, DeviceKind::with_code(kind), ports, speed))
}

fn decide_cable(
    machine: &Machine,
    a: &(Name, u8),
    b: &(Name, u8),
) -> Result<Order<'static>, RuleFault>
    ensures decided { Decided machine.now (Commands.Cable a.now b.now) result }
    ensures may { IfOk result (MayCarry machine.now) }
{
    let first = End {
        device: known(machine, &a.0)?,
        port: a.1,
    };
    let second = End {
        device: known(machine, &b.0)?,
        port: b.1,
    };
    match machine.devices.check_cable(first, second) {
        Err(TreeFault::NoPort) => Err(RuleFault::NoPort),
        Err(TreeFault::PortUsed) => Err(RuleFault::PortUsed),
        Err(TreeFault::Loop) => Err(RuleFault::Loop),
        Err(TreeFault::TooMany) => unreachable!(),
        Ok(()) => {
            let begins_reset = machine.is_on(first.device) != machine.is_on(second.device);
            if begins_reset && has_most_resets(machine) {
                Err(RuleFault::Limit)
            } else {
                Ok(Order::Cable(first, second))
            }
        }
    }
}

/// No further bus reset may come, and no further response be lost.
pub(crate) fn has_most_resets(machine: &Machine) -> bool
    ensures { result ≡ nat_le MOST_RESETS machine.now.resets }
{
    machine.resets >= MOST_RESETS
}

fn decide_reset(machine: &Machine, name: &Name) -> Result<Order<'static>, RuleFault>
    ensures decided { Decided machine.now (Commands.Reset name.now) result }
    ensures may { IfOk result (MayCarry machine.now) }
{
    let device = known(machine, name)?;
    if !machine.is_on(device) {
        return Err(RuleFault::OffBus);
    }
    if has_most_resets(machine) {
        return Err(RuleFault::Limit);
    }
    Ok(Order::Reset(device))
}

fn decide_step(machine: &Machine, name: &Name, count: u32) -> Result<Order<'static>, RuleFault>
    requires few { count ≤ 10000 }
    ensures decided { Decided machine.now (Commands.Step name.now count) result }
    ensures may { IfOk result (MayCarry machine.now) }
{
    let device = known(machine, name)?;
    if !machine.is_living(device) {
        return Err(RuleFault::NotController);
    }
    if u64::from(machine.half_steps) + u64::from(count) > MOST_HALF_STEPS {
        return Err(RuleFault::Limit);
    }
    Ok(Order::Step(device, count))
}

fn decide_settle(machine: &Machine, rounds: u32) -> Result<Order<'static>, RuleFault>
    requires few { rounds ≤ 200000 }
    ensures decided { Decided machine.now (Commands.Settle rounds) result }
    ensures may { IfOk result (MayCarry machine.now) }
{
    let given = u64::from(machine.half_steps);
    let rounds_given = u64::from(rounds);
    // Mostly there is room even if each device lives, and then those that live are not counted.
    if given + rounds_given * u64::from(machine.devices.count()) <= MOST_HALF_STEPS {
        return Ok(Order::Settle(rounds));
    }
    if given + rounds_given * u64::from(machine.living()) > MOST_HALF_STEPS {
        return Err(RuleFault::Limit);
    }
    Ok(Order::Settle(rounds))
}

fn decide_wait(machine: &Machine, cycles: u32) -> Result<Order<'static>, RuleFault>
    requires { machine.now.cycle ≤ 2 ^ 52 }
    ensures decided { Decided machine.now (Commands.Wait cycles) result }
    ensures may { IfOk result (MayCarry machine.now) }
{
    if machine.cycle + u64::from(cycles) > LAST_CYCLE {
        return Err(RuleFault::Limit);
    }
    Ok(Order::Wait(cycles))
}

fn decide_cycles(machine: &Machine, count: u32) -> Result<Order<'static>, RuleFault>
    requires ready { IsReady machine.now }
    requires few { count ≤ 8000 }
    ensures decided { Decided machine.now (Commands.Cycles count) result }
    ensures may { IfOk result (MayCarry machine.now) }
{
    if machine.cycle + u64::from(count) > LAST_CYCLE {
        return Err(RuleFault::Limit);
    }
    if machine.devices.count() > 0 && machine.written + count > MOST_WRITTEN_CYCLES {
        return Err(RuleFault::Limit);
    }
    Ok(Order::Cycles(count))
}

/// What a command orders, or the first rule that it breaks.
pub fn decide<'a>(machine: &Machine, c: &'a Command) -> Result<Order<'a>, RuleFault>
    requires ready { IsReady machine.now }
    requires command { IsCommand c.now }
    ensures decided { Decided machine.now c.now result }
    ensures may { IfOk result (MayCarry machine.now) }
{
    match c {
        Command::Withhold => decide_withhold(machine),
        Command::Device(name, kind, ports, speed) => {
            decide_device(machine, name, *kind, *ports, *speed)
        }
        Command::Cable(a, b) => decide_cable(machine, a, b),
        Command::Reset(name) => decide_reset(machine, name),
        Command::Connect(name, output, input, channel, overhead) => {
            decide_connect(machine, name, output, input, *channel, *overhead)
        }
        Command::Broadcast(name, output, overhead) => {
            decide_broadcast(machine, name, output, *overhead)
        }
        Command::Listen(name, input) => decide_listen(machine, name, input),
        Command::Break(name, slot) => decide_break(machine, name, *slot),
        Command::Step(name, count) => decide_step(machine, name, *count),
        Command::Settle(rounds) => decide_settle(machine, *rounds),
        Command::Wait(cycles) => decide_wait(machine, *cycles),
        Command::Cycles(count) => decide_cycles(machine, *count),
        Command::Die(name, late) => decide_death(machine, name, *late),
        Command::Lose(name) => decide_loss(machine, name),
        Command::Start(name) => decide_start(machine, name),
        Command::Read(from, to, offset) => {
            decide_transaction(machine, from, to, Access::Read(*offset))
        }
        Command::Swap(from, to, offset, argument, new) => {
            let swap = Swap {
                argument: *argument,
                new: *new,
            };
            decide_transaction(machine, from, to, Access::Swap(*offset, swap))
        }
        Command::Command(from, to, frame) => decide_command(machine, from, to, frame),
        Command::Insert(name, tape, lines) => decide_insert(machine, name, *tape, *lines),
        Command::Eject(name) => decide_eject(machine, name),
        Command::Show(name, offset) => decide_show(machine, name, *offset),
        Command::Candidate(name) => decide_candidate(machine, name),
        Command::Contend(name, count) => decide_contend(machine, name, *count),
        Command::Dub(name) => decide_dub(machine, name),
        Command::End => Ok(Order::End),
    }
}
