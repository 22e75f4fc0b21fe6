//! The rules of candidates for the bus manager.

ghost use Rattle.std.specs.Prelude.{◌≡◌, ◌≤◌, IfOk};
ghost use Rattle.fw_script_command.specs.declared.command.Command.TheVariants as Commands;
ghost use Rattle.fw_bus_rules.specs.Decisions.{Decided};
ghost use Rattle.fw_bus_state.specs.Orders.{MayCarry};

use crate::commands::known;
use fw_bus_state::Machine;
use fw_order::{MOST_HALF_STEPS, Order, RuleFault};
use fw_script_command::Name;

pub(crate) fn decide_candidate(machine: &Machine, name: &Name) -> Result<Order<'static>, RuleFault>
    ensures decided { Decided machine.now (Commands.Candidate name.now) result }
    ensures may { IfOk result (MayCarry machine.now) }
{
    let device = known(machine, name)?;
    if !machine.is_living(device) {
        return Err(RuleFault::NotController);
    }
    if !machine.devices.kind(device).is_capable() {
        return Err(RuleFault::NotCapable);
    }
    Ok(Order::Candidate(device))
}

pub(crate) fn decide_contend(
    machine: &Machine,
    name: &Name,
    count: u32,
) -> Result<Order<'static>, RuleFault>
    requires few { count ≤ 10000 }
    ensures decided { Decided machine.now (Commands.Contend name.now count) result }
    ensures may { IfOk result (MayCarry machine.now) }
{
    let device = known(machine, name)?;
    if !machine.is_living(device) {
        return Err(RuleFault::NotController);
    }
    if !machine.candidates.is_candidate(device) {
        return Err(RuleFault::NotCandidate);
    }
    if u64::from(machine.half_steps) + u64::from(count) > MOST_HALF_STEPS {
        return Err(RuleFault::Limit);
    }
    Ok(Order::Contend(device, count))
}
