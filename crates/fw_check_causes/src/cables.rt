//! What stands against a cable.

ghost use Rattle.std.specs.Prelude.{◌≡◌, unwrap_or, false};
ghost use Rattle.fw_model_run.specs.Good.{IsGood};
ghost use Rattle.fw_model_run.specs.State.{State};
ghost use Rattle.fw_bus_state.specs.Stands.{IsReady, StandsFor};
ghost use Rattle.fw_check_causes.specs.Causes.{end_of, port_lack, lacks_port, no_port, joined, far_end, cable_at, are_one, port_used, loop, loop_with};

use crate::names::name_at;
use fw_bus_state::Machine;
use fw_check::Why;
use fw_script_command::Name;
use fw_tree::End;

// A port of a named device.
fn end_of(machine: &Machine, end: &(Name, u8)) -> Option<End>
    ensures { (s : State) → IsGood s → StandsFor machine.now s → result ≡ end_of s end.now }
{
    match machine.devices.find(&end.0) {
        Some(device) => Some(End {
            device,
            port: end.1,
        }),
        None => None,
    }
}

// The device of the end of a word lacks its port.
fn lack(machine: &Machine, number: u8, end: &(Name, u8)) -> Option<Why>
    ensures { (s : State) → IsGood s → StandsFor machine.now s → result ≡ port_lack s number end.now }
{
    match machine.devices.find(&end.0) {
        Some(device) => Some(Why::NoPort(number, end.0, machine.devices.ports(device))),
        None => None,
    }
}

// Whether it does.
fn lacks_port(machine: &Machine, end: &(Name, u8)) -> bool
    ensures { (s : State) → IsGood s → StandsFor machine.now s → result ≡ unwrap_or (lacks_port s end.now) false }
{
    match end_of(machine, end) {
        Some(end) => machine.devices.ports(end.device) <= end.port,
        None => false,
    }
}

/// The first end whose device lacks the port.
pub(crate) fn no_port(machine: &Machine, a: &(Name, u8), b: &(Name, u8)) -> Option<Why>
    ensures { (s : State) → IsGood s → StandsFor machine.now s → result ≡ no_port s a.now b.now }
{
    if lacks_port(machine, a) {
        lack(machine, 2, a)
    } else {
        lack(machine, 3, b)
    }
}

// A port at the other end of the cable of a word.
fn joined(machine: &Machine, number: u8, peer: End) -> Option<Why>
    ensures { (s : State) → IsGood s → StandsFor machine.now s → result ≡ joined s number peer }
{
    match name_at(machine, peer.device) {
        Some(name) => Some(Why::PortUsed(number, name, peer.port)),
        None => None,
    }
}

// The other end of the cable at a port.
fn far_end(machine: &Machine, number: u8, end: End) -> Option<Why>
    ensures { (s : State) → IsGood s → StandsFor machine.now s → result ≡ far_end s number end }
{
    match machine.devices.peer(end) {
        Some(peer) => joined(machine, number, peer),
        None => None,
    }
}

// The other end of the cable at the port of a word.
fn cable_at(machine: &Machine, number: u8, end: &(Name, u8)) -> Option<Why>
    ensures { (s : State) → IsGood s → StandsFor machine.now s → result ≡ cable_at s number end.now }
{
    match end_of(machine, end) {
        Some(end) => far_end(machine, number, end),
        None => None,
    }
}

// Both ends are one port.
fn are_one(machine: &Machine, a: &(Name, u8), b: &(Name, u8)) -> bool
    ensures { (s : State) → IsGood s → StandsFor machine.now s → result ≡ are_one (end_of s a.now) (end_of s b.now) }
{
    match (machine.devices.find(&a.0), machine.devices.find(&b.0)) {
        (Some(device), Some(other)) => device == other && a.1 == b.1,
        _ => false,
    }
}

/// Both ends are one port, or the first that has a cable.
pub(crate) fn port_used(machine: &Machine, a: &(Name, u8), b: &(Name, u8)) -> Option<Why>
    ensures { (s : State) → IsGood s → StandsFor machine.now s → result ≡ port_used s a.now b.now }
{
    if are_one(machine, a, b) {
        return Some(Why::OnePort);
    }
    match cable_at(machine, 2, a) {
        Some(why) => Some(why),
        None => cable_at(machine, 3, b),
    }
}

/// Both ends are of one device, or of two that are joined.
pub(crate) fn loop_of(machine: &Machine, a: &Name, b: &Name) -> Option<Why>
    ensures { (s : State) → IsGood s → StandsFor machine.now s → result ≡ loop s a.now b.now }
{
    match machine.devices.find(a) {
        Some(device) => loop_with(machine, device, a, b),
        None => None,
    }
}

// The one device is this one.
fn loop_with(machine: &Machine, device: u8, a: &Name, b: &Name) -> Option<Why>
    ensures { (s : State) → IsGood s → StandsFor machine.now s → result ≡ loop_with s device a.now b.now }
{
    match machine.devices.find(b) {
        Some(other) if other == device => Some(Why::OneDevice(*a)),
        Some(_) => Some(Why::Loop(*a, *b)),
        None => None,
    }
}
