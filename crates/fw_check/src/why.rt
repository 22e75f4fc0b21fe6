//! What stands against a command, by the rule of the bus that it breaks.

use fw_script_command::Name;
use fw_terms::DeviceKind;

/// What stands against a command: a variant or two for each rule.
#[derive(Clone, Copy)]
pub enum Why {
    /// UnknownName: the word with this number names a device that is not declared.
    UnknownName(u8, Name),
    /// NameTaken: a device of this kind has the name.
    NameTaken(DeviceKind),
    /// TooMany.
    TooMany,
    /// NoDeck: the device, and its kind.
    NoDeck(Name, DeviceKind),
    /// NoPort: the word with this number has a port that its device lacks, and that device's count of ports.
    NoPort(u8, Name, u8),
    /// PortUsed: both ends are one port.
    OnePort,
    /// PortUsed: at the port of the word with this number is a cable, whose other end is this port of this device.
    PortUsed(u8, Name, u8),
    /// Loop: both ends are at this device.
    OneDevice(Name),
    /// Loop: cables lead from the one device to the other.
    Loop(Name, Name),
    /// NotController.
    NotController(NoController),
    /// NothingStands: the device, and whether its controller has lost a response.
    NothingStands(Name, bool),
    /// OffBus: the word with this number names the device.
    OffBus(u8, NoNode),
    /// NotOwnPlug: the device that is asked.
    NotOwnPlug(Name),
    /// NoSuchConnection: the slot.
    NoSuchConnection(u8, SlotState),
    /// TableFull: the device.
    TableFull(Name),
    /// Busy: the device.
    Busy(Name),
    /// NotCapable: the device, and its kind.
    NotCapable(Name, DeviceKind),
    /// NotCandidate: the device, and whether it can be made one.
    NotCandidate(Name, bool),
    /// Guarded: the offset.
    Guarded(u16),
    /// NoRegister: no node is resource manager.
    NoManager,
    /// NoRegister: the device, the offset, and whether a register stands there that is written alone.
    NoRegister(Name, u16, bool),
    /// Limit: the limit, what counts before the line, and what it would add.
    Limit(LimitOf, u64, u64),
    /// TooLate: the first device.
    TooLate(Name),
}

/// Why a device has no living controller.
#[derive(Clone, Copy)]
pub enum NoController {
    /// It is a relay.
    Relay(Name),
    /// It is off the bus of the second device, the first that was declared.
    Off(Name, Name),
    /// Its controller died.
    Died(Name),
}

/// Why no node answers for a device.
#[derive(Clone, Copy)]
pub enum NoNode {
    /// It is off the bus of the second device, the first that was declared.
    Off(Name, Name),
    /// It is a relay.
    Relay(Name),
}

/// Why the connection of a slot cannot be broken.
#[derive(Clone, Copy)]
pub enum SlotState {
    Free,
    /// Its connection is being made, up to the outcome.
    Making,
    /// A break of it waits, be the connection gone meanwhile or not.
    BreakWaits,
    /// It is being broken.
    Breaking,
}

/// A limit of scripts.
#[derive(Clone, Copy)]
pub enum LimitOf {
    WrittenCycles,
    BusResets,
    HalfSteps,
    Cycles,
}
