//! The rules of what controllers are asked for.

ghost use Rattle.std.specs.Prelude.{◌≡◌, ◌<◌, None, Some, IfOk, IfErr, length};
ghost use Rattle.fw_cmp_jobs.specs.Fits.{AskedFits, SlotFits};
ghost use Rattle.fw_model_run.specs.Afterwards.{slot_of};
ghost use Rattle.fw_order.specs.declared.rule.RuleFault.TheVariants.{UnknownName};
ghost use Rattle.fw_script_command.specs.declared.command.Command.TheVariants as Commands;
ghost use Rattle.fw_devices.specs.Network.{device_named};
ghost use Rattle.fw_bus_rules.specs.Decisions.{Decided, ConnectionDecided, rule_of};
ghost use Rattle.fw_bus_state.specs.Orders.{MayCarry};
ghost use Rattle.fw_bus_state.specs.Stands.{IsReady};

use crate::commands::{has_most_resets, known};
use fw_bus_state::Machine;
use fw_cmp::StartFault;
use fw_order::{Order, RuleFault, Wanted};
use fw_script_command::Name;
use fw_terms::PlugAt;

/// The rule by which a controller refuses a job.
fn rule_of(fault: StartFault) -> RuleFault
    ensures { result ≡ rule_of fault }
{
    match fault {
        StartFault::TableFull => RuleFault::TableFull,
        StartFault::Busy => RuleFault::Busy,
        StartFault::NoSuchConnection => RuleFault::NoSuchConnection,
        StartFault::NotOwnPlug => RuleFault::NotOwnPlug,
    }
}

/// A plug of a named device.
fn plug(machine: &Machine, plug: &(Name, u8)) -> Result<PlugAt, RuleFault>
    ensures device { IfOk result (λ p. (device_named machine.now.devices.names plug.now.0 ≡ Some p.device) × (p.plug ≡ plug.now.1)) }
    ensures declared { IfOk result (λ p. p.device < length machine.now.devices.names) }
    ensures unknown { IfErr result (λ f. (f ≡ UnknownName) × (device_named machine.now.devices.names plug.now.0 ≡ None)) }
{
    Ok(PlugAt {
        device: known(machine, &plug.0)?,
        plug: plug.1,
    })
}

/// A new connection of a device's controller.
fn decide_connection(
    machine: &Machine,
    device: u8,
    wanted: Wanted,
) -> Result<Order<'static>, RuleFault>
    requires ready { IsReady machine.now }
    requires slot { SlotFits (slot_of wanted) }
    ensures decided { ConnectionDecided machine.now device wanted result }
    ensures may { IfOk result (MayCarry machine.now) }
{
    if !machine.is_living(device) {
        return Err(RuleFault::NotController);
    }
    match machine.controllers.check(device, &wanted) {
        Ok(slot) => Ok(Order::Connect(device, wanted, slot)),
        Err(fault) => Err(rule_of(fault)),
    }
}

pub(crate) fn decide_connect(
    machine: &Machine,
    name: &Name,
    output: &(Name, u8),
    input: &(Name, u8),
    channel: Option<u8>,
    overhead: u8,
) -> Result<Order<'static>, RuleFault>
    requires ready { IsReady machine.now }
    requires output { output.now.1 < 31 }
    requires input { input.now.1 < 31 }
    requires channel { AskedFits channel }
    requires overhead { overhead < 16 }
    ensures decided { Decided machine.now (Commands.Connect name.now output.now input.now channel overhead) result }
    ensures may { IfOk result (MayCarry machine.now) }
{
    let device = known(machine, name)?;
    let output = plug(machine, output)?;
    let input = plug(machine, input)?;
    decide_connection(
        machine,
        device,
        Wanted::PlugToPlug(output, input, channel, overhead),
    )
}

pub(crate) fn decide_broadcast(
    machine: &Machine,
    name: &Name,
    output: &(Name, u8),
    overhead: u8,
) -> Result<Order<'static>, RuleFault>
    requires ready { IsReady machine.now }
    requires output { output.now.1 < 31 }
    requires overhead { overhead < 16 }
    ensures decided { Decided machine.now (Commands.Broadcast name.now output.now overhead) result }
    ensures may { IfOk result (MayCarry machine.now) }
{
    let device = known(machine, name)?;
    let output = plug(machine, output)?;
    decide_connection(machine, device, Wanted::BroadcastOut(output, overhead))
}

pub(crate) fn decide_listen(
    machine: &Machine,
    name: &Name,
    input: &(Name, u8),
) -> Result<Order<'static>, RuleFault>
    requires ready { IsReady machine.now }
    requires input { input.now.1 < 31 }
    ensures decided { Decided machine.now (Commands.Listen name.now input.now) result }
    ensures may { IfOk result (MayCarry machine.now) }
{
    let device = known(machine, name)?;
    let input = plug(machine, input)?;
    decide_connection(machine, device, Wanted::BroadcastIn(input))
}

pub(crate) fn decide_break(
    machine: &Machine,
    name: &Name,
    slot: u8,
) -> Result<Order<'static>, RuleFault>
    requires ready { IsReady machine.now }
    ensures decided { Decided machine.now (Commands.Break name.now slot) result }
    ensures may { IfOk result (MayCarry machine.now) }
{
    let device = known(machine, name)?;
    if !machine.is_living(device) {
        return Err(RuleFault::NotController);
    }
    match machine.controllers.get(device).check_break(slot) {
        None => Ok(Order::Break(device, slot)),
        Some(fault) => Err(rule_of(fault)),
    }
}

pub(crate) fn decide_death(
    machine: &Machine,
    name: &Name,
    late: bool,
) -> Result<Order<'static>, RuleFault>
    ensures decided { Decided machine.now (Commands.Die name.now late) result }
    ensures may { IfOk result (MayCarry machine.now) }
{
    let device = known(machine, name)?;
    if !machine.is_living(device) {
        return Err(RuleFault::NotController);
    }
    Ok(Order::Die(device, late))
}

pub(crate) fn decide_loss(machine: &Machine, name: &Name) -> Result<Order<'static>, RuleFault>
    requires ready { IsReady machine.now }
    ensures decided { Decided machine.now (Commands.Lose name.now) result }
    ensures may { IfOk result (MayCarry machine.now) }
{
    let device = known(machine, name)?;
    if !machine.is_living(device) {
        return Err(RuleFault::NotController);
    }
    if !machine.controllers.get(device).has_request() {
        return Err(RuleFault::NothingStands);
    }
    if has_most_resets(machine) {
        return Err(RuleFault::Limit);
    }
    Ok(Order::Lose(device))
}

pub(crate) fn decide_start(machine: &Machine, name: &Name) -> Result<Order<'static>, RuleFault>
    ensures decided { Decided machine.now (Commands.Start name.now) result }
    ensures may { IfOk result (MayCarry machine.now) }
{
    let device = known(machine, name)?;
    if !machine.is_linked(device) {
        return Err(RuleFault::NotController);
    }
    Ok(Order::Start(device))
}
