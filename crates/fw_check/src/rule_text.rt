//! What is told of a command that breaks a rule of the bus.

ghost use Rattle.std.specs.Prelude.{◌≡◌, ◌++◌, codes, OnOk};
ghost use Rattle.fw_check.specs.Whys.{HasToldWord, controller_says, device_says, register_says, rule_name, told_word, why_text};
ghost use Rattle.fw_terms.specs.Devices.{name_of};

use crate::limit_text::put_limit;
use crate::reasons::{
    put_between, put_candidate, put_guarded, put_name, put_named, put_no_controller, put_no_node,
    put_no_register, put_nothing, put_ports, put_slot,
};
use crate::shown::{put, put_named_word, word_at};
use crate::why::Why;
use fw_log_names::{put_number, put_word};
use fw_script_command::Name;
use fw_terms::DeviceKind;
use std::alloc::AllocError;

/// The name of the rule.
pub(crate) fn rule_name(why: &Why) -> &'static str
    ensures { result.now ≡ rule_name why.now }
{
    match why {
        Why::UnknownName(..) => "UnknownName",
        Why::NameTaken(_) => "NameTaken",
        Why::TooMany => "TooMany",
        Why::NoDeck(..) => "NoDeck",
        Why::NoPort(..) => "NoPort",
        Why::OnePort | Why::PortUsed(..) => "PortUsed",
        Why::OneDevice(_) | Why::Loop(..) => "Loop",
        Why::NotController(_) => "NotController",
        Why::NothingStands(..) => "NothingStands",
        Why::OffBus(..) => "OffBus",
        Why::NotOwnPlug(_) => "NotOwnPlug",
        Why::NoSuchConnection(..) => "NoSuchConnection",
        Why::TableFull(_) => "TableFull",
        Why::Busy(_) => "Busy",
        Why::NotCapable(..) => "NotCapable",
        Why::NotCandidate(..) => "NotCandidate",
        Why::Guarded(_) => "Guarded",
        Why::NoManager | Why::NoRegister(..) => "NoRegister",
        Why::Limit(..) => "Limit",
        Why::TooLate(_) => "TooLate",
    }
}

/// The word of the line that is told, by its number.
fn told_word(why: &Why) -> Option<u8>
    ensures { result ≡ told_word why.now }
{
    match why {
        Why::UnknownName(number, _)
        | Why::NoPort(number, ..)
        | Why::PortUsed(number, ..)
        | Why::OffBus(number, _) => Some(*number),
        Why::NameTaken(_)
        | Why::NoDeck(..)
        | Why::NotController(_)
        | Why::NothingStands(..)
        | Why::NotCapable(..)
        | Why::NotCandidate(..)
        | Why::NoManager => Some(2),
        Why::NotOwnPlug(_) | Why::NoSuchConnection(..) | Why::NoRegister(..) => Some(3),
        Why::Guarded(_) => Some(4),
        Why::TooMany
        | Why::OnePort
        | Why::OneDevice(_)
        | Why::Loop(..)
        | Why::TableFull(_)
        | Why::Busy(_)
        | Why::Limit(..)
        | Why::TooLate(_) => None,
    }
}

// A device of a kind, and what only other kinds have.
fn put_kind(
    text: &mut Vec<u8>,
    name: &Name,
    kind: DeviceKind,
    others: &str,
) -> Result<(), AllocError>
    ensures { OnOk result (text.new.items ≡ text.old.items ++ (name.now ++ codes " is a " ++ name_of kind ++ others.now)) }
{
    put_named(text, name, " is a ")?;
    put_word(text, kind.name())?;
    put_word(text, others)
}

// What stands against a command at devices and cables.
fn put_of_devices(text: &mut Vec<u8>, line: &[u8], why: &Why) -> Result<(), AllocError>
    ensures { OnOk result (text.new.items ≡ text.old.items ++ device_says line.now why.now) }
{
    match why {
        Why::UnknownName(_, name) => put_between(text, "no device ", name, " is declared before"),
        Why::NameTaken(kind) => {
            put_word(text, "a device has this name, a ")?;
            put_word(text, kind.name())
        }
        Why::TooMany => put_word(text, "a bus has 63 devices, and 63 are declared before"),
        Why::NoDeck(name, kind) => {
            put_kind(text, name, *kind, "; only decks and camcorders have a tape")
        }
        Why::NoPort(_, name, ports) => put_ports(text, name, *ports),
        Why::OnePort => {
            put_word(text, "both ends are ")?;
            put(text, word_at(line, 2))
        }
        Why::PortUsed(_, name, port) => {
            put_between(text, "a cable joins it to ", name, ".")?;
            put_number(text, u64::from(*port))
        }
        Why::OneDevice(name) => {
            put_word(text, "both ends are at ")?;
            put_name(text, name)
        }
        Why::Loop(name, other) => {
            put_between(text, "cables lead from ", name, " to ")?;
            put_named(text, other, " already")
        }
        _ => Ok(()),
    }
}

// What stands against a command at controllers and their connections.
fn put_of_controllers(text: &mut Vec<u8>, why: &Why) -> Result<(), AllocError>
    ensures { OnOk result (text.new.items ≡ text.old.items ++ controller_says why.now) }
{
    match why {
        Why::NotController(why) => put_no_controller(text, why),
        Why::NothingStands(name, lost) => put_nothing(text, name, *lost),
        Why::OffBus(_, why) => put_no_node(text, why),
        Why::NotOwnPlug(name) => put_named(
            text,
            name,
            " has broadcast connections at its own plugs alone",
        ),
        Why::NoSuchConnection(slot, state) => put_slot(text, *slot, *state),
        Why::TableFull(name) => put_between(text, "all 32 slots of ", name, " are in use"),
        Why::Busy(name) => put_between(text, "eight jobs of ", name, " wait"),
        Why::NotCapable(name, kind) => {
            put_kind(text, name, *kind, "; only computers can be candidates")
        }
        Why::NotCandidate(name, capable) => put_candidate(text, name, *capable),
        _ => Ok(()),
    }
}

// What stands against a command at registers, limits and the first device.
fn put_of_registers(text: &mut Vec<u8>, why: &Why) -> Result<(), AllocError>
    ensures { OnOk result (text.new.items ≡ text.old.items ++ register_says why.now) }
{
    match why {
        Why::Guarded(offset) => put_guarded(text, *offset),
        Why::NoManager => put_word(text, "no node is resource manager"),
        Why::NoRegister(name, offset, written) => put_no_register(text, name, *offset, *written),
        Why::Limit(limit, before, here) => put_limit(text, *limit, *before, *here),
        Why::TooLate(name) => {
            put_word(text, "a device is declared before: ")?;
            put_name(text, name)
        }
        _ => Ok(()),
    }
}

/// Appends what is told of a command, with the words of its line. An error says that memory ran out, and comes for nothing else.
pub(crate) fn put_why(text: &mut Vec<u8>, line: &[u8], why: &Why) -> Result<(), AllocError>
    requires { HasToldWord why.now }
    ensures { OnOk result (text.new.items ≡ text.old.items ++ why_text line.now why.now) }
{
    if let Some(number) = told_word(why) {
        put_named_word(text, line, number)?;
        put_word(text, ": ")?;
    }
    put_of_devices(text, line, why)?;
    put_of_controllers(text, why)?;
    put_of_registers(text, why)
}
