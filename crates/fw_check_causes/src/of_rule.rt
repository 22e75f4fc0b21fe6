ghost use Rattle.std.specs.Prelude.{◌≡◌, IfSome};
ghost use Rattle.fw_model_run.specs.Good.{IsGood};
ghost use Rattle.fw_model_run.specs.State.{State};
ghost use Rattle.fw_bus_state.specs.Stands.{IsReady, StandsFor};
ghost use Rattle.fw_bus_rules.specs.Decisions.{IsCommand};
ghost use Rattle.fw_check.specs.Whys.{HasToldWord};
ghost use Rattle.fw_check_causes.specs.Causes.{IsOfCables, cause};

use crate::cables::{loop_of, no_port, port_used};
use crate::controllers::{
    controller_of, no_such_connection, not_candidate, not_capable, not_controller, nothing_stands,
    off_bus,
};
use crate::names::{name_taken, no_deck, too_late, unknown_name};
use crate::registers::{guarded, limit, no_register};
use fw_bus_state::Machine;
use fw_check::Why;
use fw_order::RuleFault;
use fw_script_command::Command;

// What stands against a cable, by the rule that it breaks.
fn cable(machine: &Machine, command: &Command, rule: RuleFault) -> Option<Why>
    requires { IsOfCables rule }
    ensures { (s : State) → IsGood s → StandsFor machine.now s → result ≡ cause s command.now rule }
{
    let Command::Cable(a, b) = command else {
        return None;
    };
    match rule {
        RuleFault::NoPort => no_port(machine, a, b),
        RuleFault::PortUsed => port_used(machine, a, b),
        _ => loop_of(machine, &a.0, &b.0),
    }
}

/// What stands against a command that breaks this rule, the first that it breaks.
pub fn cause(machine: &Machine, command: &Command, rule: RuleFault) -> Option<Why>
    requires ready { IsReady machine.now }
    requires command { IsCommand command.now }
    ensures why { (s : State) → IsGood s → StandsFor machine.now s → result ≡ cause s command.now rule }
    ensures word { IfSome result HasToldWord }
{
    found(machine, command, rule)
}

// It, by the rule.
fn found(machine: &Machine, command: &Command, rule: RuleFault) -> Option<Why>
    requires ready { IsReady machine.now }
    requires command { IsCommand command.now }
    ensures { (s : State) → IsGood s → StandsFor machine.now s → result ≡ cause s command.now rule }
{
    match rule {
        RuleFault::UnknownName => unknown_name(machine, command),
        RuleFault::NameTaken => name_taken(machine, command),
        RuleFault::TooMany => Some(Why::TooMany),
        RuleFault::NoDeck => no_deck(machine, command),
        RuleFault::NoPort | RuleFault::PortUsed | RuleFault::Loop => cable(machine, command, rule),
        RuleFault::NotController => not_controller(machine, command),
        RuleFault::NothingStands => nothing_stands(machine, command),
        RuleFault::OffBus => off_bus(machine, command),
        RuleFault::NotOwnPlug => controller_of(command).map(Why::NotOwnPlug),
        RuleFault::NoSuchConnection => no_such_connection(machine, command),
        RuleFault::TableFull => controller_of(command).map(Why::TableFull),
        RuleFault::Busy => controller_of(command).map(Why::Busy),
        RuleFault::NotCapable => not_capable(machine, command),
        RuleFault::NotCandidate => not_candidate(machine, command),
        RuleFault::Guarded => guarded(command),
        RuleFault::NoRegister => no_register(machine, command),
        RuleFault::Limit => limit(machine, command),
        RuleFault::TooLate => too_late(machine),
    }
}
