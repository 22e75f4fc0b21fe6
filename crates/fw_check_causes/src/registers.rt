//! What stands against a command at registers and limits.

ghost use Rattle.std.specs.Prelude.{◌≡◌, ◌<◌, ◌^◌, ◌+◌, ◌&&◌, nat_lt, length, Some};
ghost use Rattle.fw_model_run.specs.Good.{IsGood};
ghost use Rattle.fw_model_run.specs.State.{State};
ghost use Rattle.fw_bus_state.specs.Stands.{StandsFor};
ghost use Rattle.fw_check_causes.specs.Causes.{guarded, is_written, not_shown, passed};
ghost use Rattle.fw_script_command.specs.declared.command.Command.TheVariants as Commands;
ghost use Rattle.fw_check.specs.declared.why.Why.TheVariants.{Limit, NoRegister};
ghost use Rattle.fw_check.specs.declared.why.LimitOf.TheVariants.{BusResets, Cycles, HalfSteps};
ghost use Rattle.fw_bus_rules.specs.Decisions.{IsCommand};

use crate::names::name_at;
use fw_bus_state::Machine;
use fw_check::{LimitOf, Why};
use fw_csr::ResponseCode;
use fw_order::MOST_WRITTEN_CYCLES;
use fw_script_command::{Command, Name};

/// The register that only procedures, or candidates, swap.
pub(crate) fn guarded(command: &Command) -> Option<Why>
    ensures { result ≡ guarded command.now }
{
    match command {
        Command::Swap(_, _, offset, ..) => Some(Why::Guarded(*offset)),
        _ => None,
    }
}

// The register of a device is written alone.
fn is_written(machine: &Machine, device: u8, offset: u16) -> bool
    requires { offset < 2 ^ 12 }
    ensures { (s : State) → IsGood s → StandsFor machine.now s → result ≡ is_written s device offset }
{
    if !machine.is_linked(device) {
        return false;
    }
    machine.read(device, offset).rcode == ResponseCode::TypeError as u8
}

// A register of a device that has none to be read there.
fn no_register_of(machine: &Machine, device: u8, name: Name, offset: u16) -> Why
    requires { offset < 2 ^ 12 }
    ensures { (s : State) → IsGood s → StandsFor machine.now s → result ≡ NoRegister name offset (is_written s device offset) }
{
    Why::NoRegister(name, offset, is_written(machine, device, offset))
}

/// The register that is to be shown is none; the resource manager's if no name stands.
pub(crate) fn no_register(machine: &Machine, command: &Command) -> Option<Why>
    requires { IsCommand command.now }
    ensures { (s : State) → IsGood s → StandsFor machine.now s → result ≡ not_shown s command.now }
{
    match command {
        Command::Show(Some(name), offset) => {
            let device = machine.devices.find(name)?;
            Some(no_register_of(machine, device, *name, *offset))
        }
        Command::Show(None, offset) => match machine.devices.manager() {
            Some(device) => {
                let name = name_at(machine, device)?;
                Some(no_register_of(machine, device, name, *offset))
            }
            None => Some(Why::NoManager),
        },
        _ => None,
    }
}

// There is a device, and the cycles that were written, and these, are more than may be.
fn passes(machine: &Machine, count: u32) -> bool
    ensures { (s : State) → StandsFor machine.now s → result ≡ (nat_lt 0 (length s.declared.names) && nat_lt MOST_WRITTEN_CYCLES (s.written + count)) }
{
    if machine.devices.count() == 0 {
        return false;
    }
    u64::from(machine.written) + u64::from(count) > u64::from(MOST_WRITTEN_CYCLES)
}

// Cycles that are to be written: the first limit that they would pass.
fn cycles(machine: &Machine, count: u32) -> Why
    ensures { (s : State) → StandsFor machine.now s → Some result ≡ passed s (Commands.Cycles count) }
{
    if passes(machine, count) {
        Why::Limit(
            LimitOf::WrittenCycles,
            u64::from(machine.written),
            u64::from(count),
        )
    } else {
        waiting(machine, count)
    }
}

// A bus reset more.
fn reset(machine: &Machine) -> Why
    ensures { (s : State) → StandsFor machine.now s → result ≡ Limit BusResets s.resets 1 }
{
    Why::Limit(LimitOf::BusResets, u64::from(machine.resets), 1)
}

// So many half steps more.
fn half_steps(machine: &Machine, here: u64) -> Why
    ensures { (s : State) → StandsFor machine.now s → result ≡ Limit HalfSteps s.half_steps here }
{
    Why::Limit(LimitOf::HalfSteps, u64::from(machine.half_steps), here)
}

// Cycles that go by unwritten.
fn waiting(machine: &Machine, count: u32) -> Why
    ensures { (s : State) → StandsFor machine.now s → result ≡ Limit Cycles s.clock.cycle count }
{
    Why::Limit(LimitOf::Cycles, machine.cycle, u64::from(count))
}

/// The first limit that a command would pass.
pub(crate) fn limit(machine: &Machine, command: &Command) -> Option<Why>
    ensures { (s : State) → IsGood s → StandsFor machine.now s → result ≡ passed s command.now }
{
    match command {
        Command::Cable(..) | Command::Reset(_) | Command::Lose(_) => Some(reset(machine)),
        Command::Step(_, count) | Command::Contend(_, count) => {
            Some(half_steps(machine, u64::from(*count)))
        }
        Command::Settle(rounds) => {
            let here = u64::from(*rounds) * u64::from(machine.living());
            Some(half_steps(machine, here))
        }
        Command::Wait(cycles) => Some(waiting(machine, *cycles)),
        Command::Cycles(count) => Some(cycles(machine, *count)),
        _ => None,
    }
}
