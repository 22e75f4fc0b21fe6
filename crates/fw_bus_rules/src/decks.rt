//! The rules of commands to decks, and of their tapes.

ghost use Rattle.std.specs.Prelude.{◌≡◌, IfOk};
ghost use Rattle.fw_model_run.specs.Rules as Rules;
ghost use Rattle.fw_script_command.specs.declared.command.Command.TheVariants as Commands;
ghost use Rattle.fw_bus_rules.specs.Decisions.{Decided, DeckDecided};
ghost use Rattle.fw_bus_state.specs.Orders.{MayCarry};
ghost use Rattle.fw_bus_state.specs.Stands.{IsReady};

use crate::commands::known;
use fw_bus_state::Machine;
use fw_order::{Order, RuleFault};
use fw_script_command::Name;
use fw_tape::TapeSystem;
use fw_words::{Bytes, Data};

pub(crate) fn decide_command<'a>(
    machine: &Machine,
    from: &Name,
    to: &Name,
    frame: &'a Bytes<110>,
) -> Result<Order<'a>, RuleFault>
    ensures decided { Decided machine.now (Commands.Command from.now to.now frame.now) result }
    ensures may { IfOk result (MayCarry machine.now) }
{
    let from = known(machine, from)?;
    let to = known(machine, to)?;
    if !machine.is_living(from) {
        return Err(RuleFault::NotController);
    }
    if !machine.is_linked(to) {
        return Err(RuleFault::OffBus);
    }
    Ok(Order::Command(from, to, Data::new(frame.as_slice())))
}

/// The deck or camcorder of a name.
fn deck(machine: &Machine, name: &Name) -> Result<u8, RuleFault>
    requires { IsReady machine.now }
    ensures { DeckDecided machine.now name.now result }
{
    let device = known(machine, name)?;
    if !machine.devices.kind(device).has_unit() {
        return Err(RuleFault::NoDeck);
    }
    Ok(device)
}

pub(crate) fn decide_insert(
    machine: &Machine,
    name: &Name,
    tape: u16,
    lines: u16,
) -> Result<Order<'static>, RuleFault>
    requires { IsReady machine.now }
    ensures decided { Decided machine.now (Commands.Insert name.now tape lines) result }
    ensures may { IfOk result (MayCarry machine.now) }
{
    let device = deck(machine, name)?;
    Ok(Order::Insert(device, tape, system_with(lines)))
}

pub(crate) fn decide_eject(machine: &Machine, name: &Name) -> Result<Order<'static>, RuleFault>
    requires { IsReady machine.now }
    ensures decided { Decided machine.now (Commands.Eject name.now) result }
    ensures may { IfOk result (MayCarry machine.now) }
{
    let device = deck(machine, name)?;
    Ok(Order::Eject(device))
}

pub(crate) fn decide_dub(machine: &Machine, name: &Name) -> Result<Order<'static>, RuleFault>
    requires { IsReady machine.now }
    ensures decided { Decided machine.now (Commands.Dub name.now) result }
    ensures may { IfOk result (MayCarry machine.now) }
{
    let device = deck(machine, name)?;
    if !machine.is_on(device) {
        return Err(RuleFault::OffBus);
    }
    Ok(Order::Dub(device))
}

/// The system whose pictures have so many lines, 525 or 625.
fn system_with(lines: u16) -> TapeSystem
    ensures { result ≡ Rules.system_with lines }
{
    if lines == 525 {
        TapeSystem::Lines525
    } else {
        TapeSystem::Lines625
    }
}
