//! The rules of transactions of the script, and of registers that are shown.

ghost use Rattle.std.specs.Prelude.{◌≡◌, ◌<◌, ◌^◌, IfOk};
ghost use Rattle.fw_model_run.specs.Actions.{AccessFits};
ghost use Rattle.fw_model_run.specs.Named.{is_guarded_at};
ghost use Rattle.fw_script_command.specs.declared.command.Command.TheVariants as Commands;
ghost use Rattle.fw_bus_rules.specs.Decisions.{Decided, command_of};
ghost use Rattle.fw_bus_state.specs.Orders.{MayCarry, is_guarded_by};
ghost use Rattle.fw_bus_state.specs.Stands.{IsReady};

use crate::commands::known;
use fw_bus_state::Machine;
use fw_csr::low_offset::{
    BANDWIDTH_AVAILABLE, BUS_MANAGER_ID, CHANNELS_AVAILABLE_HI, CHANNELS_AVAILABLE_LO, IPCR,
    LAST_IPCR, LAST_OPCR, OPCR,
};
use fw_order::{Access, Order, RuleFault, Transaction};
use fw_script_command::Name;

#[inline(always)]
pub(crate) fn decide_transaction(
    machine: &Machine,
    from: &Name,
    to: &Name,
    access: Access,
) -> Result<Order<'static>, RuleFault>
    requires { AccessFits access }
    ensures decided { Decided machine.now (command_of from.now to.now access) result }
    ensures may { IfOk result (MayCarry machine.now) }
{
    let from = known(machine, from)?;
    let to = known(machine, to)?;
    if !machine.is_living(from) {
        return Err(RuleFault::NotController);
    }
    if !machine.is_linked(to) {
        return Err(RuleFault::OffBus);
    }
    if guards(machine, access) {
        return Err(RuleFault::Guarded);
    }
    Ok(Order::Transact(Transaction { from, to, access }))
}

/// Only controllers' procedures swap at the registers of channels and units, and of plugs (own). From the first candidate on only
/// candidates swap BUS_MANAGER_ID (own).
fn guards(machine: &Machine, access: Access) -> bool
    ensures { result ≡ is_guarded_by machine.now.candidates.begun access }
{
    match access {
        Access::Read(_) => false,
        Access::Swap(offset, ..) => {
            is_guarded(offset) || machine.candidates.begun() && u64::from(offset) == BUS_MANAGER_ID
        }
    }
}

/// The device whose register is shown; the resource manager if no name stands.
pub(crate) fn decide_show(
    machine: &Machine,
    name: &Option<Name>,
    offset: u16,
) -> Result<Order<'static>, RuleFault>
    requires ready { IsReady machine.now }
    requires offset { offset < 2 ^ 12 }
    ensures decided { Decided machine.now (Commands.Show name.now offset) result }
    ensures may { IfOk result (MayCarry machine.now) }
{
    let device = match name {
        None => machine.devices.manager().ok_or(RuleFault::NoRegister)?,
        Some(name) => known(machine, name)?,
    };
    if !machine.is_linked(device) {
        return Err(RuleFault::OffBus);
    }
    if !machine.read(device, offset).is_complete() {
        return Err(RuleFault::NoRegister);
    }
    Ok(Order::Show(device, offset))
}

/// The registers of channels and units, and of plugs.
fn is_guarded(offset: u16) -> bool
    ensures { result ≡ is_guarded_at offset }
{
    matches!(
        u64::from(offset),
        BANDWIDTH_AVAILABLE
            | CHANNELS_AVAILABLE_HI
            | CHANNELS_AVAILABLE_LO
            | OPCR..=LAST_OPCR
            | IPCR..=LAST_IPCR
    )
}
