//! Parts of what is told of a command that breaks a rule of the bus. An error says that memory ran out, and comes for nothing else.

ghost use Rattle.std.specs.Prelude.{◌≡◌, ◌++◌, OnOk};
ghost use Rattle.fw_check.specs.Whys.{candidate_text, guarded_text, no_controller_text, no_node_text, no_register_text, nothing_text, off_text, ports_text, register_at, slot_text};

use crate::shown::{put, put_numbered};
use crate::why::{NoController, NoNode, SlotState};
use fw_csr::REGISTER_SPACE;
use fw_csr::low_offset::{
    BANDWIDTH_AVAILABLE, BUS_MANAGER_ID, CHANNELS_AVAILABLE_HI, CHANNELS_AVAILABLE_LO, IPCR,
};
use fw_log_names::{put_number, put_word};
use fw_log_registers::{RegisterPlace, append_place};
use fw_script_command::Name;
use std::alloc::AllocError;

/// Appends a name.
pub(crate) fn put_name(text: &mut Vec<u8>, name: &Name) -> Result<(), AllocError>
    ensures { OnOk result (text.new.items ≡ text.old.items ++ name.now) }
{
    put(text, name.as_slice())
}

/// Appends a name between two texts.
pub(crate) fn put_between(
    text: &mut Vec<u8>,
    before: &str,
    name: &Name,
    after: &str,
) -> Result<(), AllocError>
    ensures { OnOk result (text.new.items ≡ text.old.items ++ (before.now ++ name.now ++ after.now)) }
{
    put_word(text, before)?;
    put_name(text, name)?;
    put_word(text, after)
}

/// Appends a name, and what follows.
pub(crate) fn put_named(text: &mut Vec<u8>, name: &Name, after: &str) -> Result<(), AllocError>
    ensures { OnOk result (text.new.items ≡ text.old.items ++ (name.now ++ after.now)) }
{
    put_name(text, name)?;
    put_word(text, after)
}

/// Appends the ports of a device that has so many.
pub(crate) fn put_ports(text: &mut Vec<u8>, name: &Name, ports: u8) -> Result<(), AllocError>
    ensures { OnOk result (text.new.items ≡ text.old.items ++ ports_text name.now ports) }
{
    if ports == 1 {
        return put_named(text, name, " has port 0 alone");
    }
    put_named(text, name, " has ports 0 to ")?;
    put_number(text, u64::from(ports.saturating_sub(1)))
}

// A device that is off.
fn put_off(text: &mut Vec<u8>, name: &Name, bus: &Name) -> Result<(), AllocError>
    ensures { OnOk result (text.new.items ≡ text.old.items ++ off_text name.now bus.now) }
{
    put_named(text, name, " is off: no cable joins it to the bus of ")?;
    put_name(text, bus)
}

/// Appends why a device has no living controller.
pub(crate) fn put_no_controller(text: &mut Vec<u8>, why: &NoController) -> Result<(), AllocError>
    ensures { OnOk result (text.new.items ≡ text.old.items ++ no_controller_text why.now) }
{
    match why {
        NoController::Relay(name) => put_named(text, name, " is a relay, without a controller"),
        NoController::Off(name, bus) => put_off(text, name, bus),
        NoController::Died(name) => put_between(
            text,
            "the controller of ",
            name,
            " died, and was not started since",
        ),
    }
}

/// Appends why no node answers for a device.
pub(crate) fn put_no_node(text: &mut Vec<u8>, why: &NoNode) -> Result<(), AllocError>
    ensures { OnOk result (text.new.items ≡ text.old.items ++ no_node_text why.now) }
{
    match why {
        NoNode::Off(name, bus) => put_off(text, name, bus),
        NoNode::Relay(name) => put_named(text, name, " is a relay, which has no registers"),
    }
}

/// Appends that no request of a controller is outstanding, or that the response was lost.
pub(crate) fn put_nothing(text: &mut Vec<u8>, name: &Name, lost: bool) -> Result<(), AllocError>
    ensures { OnOk result (text.new.items ≡ text.old.items ++ nothing_text name.now lost) }
{
    if lost {
        put_between(
            text,
            "the response to the request of ",
            name,
            " was lost already",
        )
    } else {
        put_between(text, "no request of ", name, " stands")
    }
}

/// Appends why the connection of a slot cannot be broken.
pub(crate) fn put_slot(text: &mut Vec<u8>, slot: u8, state: SlotState) -> Result<(), AllocError>
    ensures { OnOk result (text.new.items ≡ text.old.items ++ slot_text slot state) }
{
    let slot = u64::from(slot);
    match state {
        SlotState::Free => put_numbered(text, "slot ", slot, " is free"),
        SlotState::Making => {
            put_numbered(text, "the connection of slot ", slot, " is being made")
        }
        SlotState::BreakWaits => put_numbered(text, "a break of slot ", slot, " waits"),
        SlotState::Breaking => {
            put_numbered(text, "the connection of slot ", slot, " is being broken")
        }
    }
}

/// Appends that a device is no candidate, and what makes it one if it can be.
pub(crate) fn put_candidate(
    text: &mut Vec<u8>,
    name: &Name,
    capable: bool,
) -> Result<(), AllocError>
    ensures { OnOk result (text.new.items ≡ text.old.items ++ candidate_text name.now capable) }
{
    if !capable {
        return put_named(text, name, " is no candidate");
    }
    put_named(text, name, " is no candidate; `candidate ")?;
    put_named(text, name, "` makes it one")
}

// The register at an offset from FFFF F000 0000.
fn put_register(text: &mut Vec<u8>, offset: u16) -> Result<(), AllocError>
    ensures { OnOk result (text.new.items ≡ text.old.items ++ register_at offset) }
{
    match RegisterPlace::of(REGISTER_SPACE + u64::from(offset)) {
        RegisterPlace::Named(register, index) => {
            append_place(text, RegisterPlace::Named(register, index))
        }
        RegisterPlace::Unnamed(_) => put_word(text, "register at this offset"),
    }
}

/// Appends who swaps at a register that scripts do not.
pub(crate) fn put_guarded(text: &mut Vec<u8>, offset: u16) -> Result<(), AllocError>
    ensures { OnOk result (text.new.items ≡ text.old.items ++ guarded_text offset) }
{
    let low = u64::from(offset);
    if low == BUS_MANAGER_ID {
        return put_word(
            text,
            "BUS_MANAGER_ID is for candidates, and one is declared before",
        );
    }
    if matches!(
        low,
        BANDWIDTH_AVAILABLE | CHANNELS_AVAILABLE_HI | CHANNELS_AVAILABLE_LO
    ) {
        put_register(text, offset)?;
        return put_word(text, " is for the procedures of controllers");
    }
    put_word(
        text,
        if low < IPCR {
            "904 to 97C, the plug registers, are for the procedures of controllers"
        } else {
            "984 to 9FC, the plug registers, are for the procedures of controllers"
        },
    )
}

/// Appends that a device has no register to be read at an offset.
pub(crate) fn put_no_register(
    text: &mut Vec<u8>,
    name: &Name,
    offset: u16,
    written: bool,
) -> Result<(), AllocError>
    ensures { OnOk result (text.new.items ≡ text.old.items ++ no_register_text name.now offset written) }
{
    if written {
        put_register(text, offset)?;
        put_between(text, " of ", name, " is written, and not read")
    } else {
        put_named(text, name, " has no ")?;
        put_register(text, offset)
    }
}
