//! The registers that are watched.

ghost use Rattle.std.specs.Prelude.{◌≡◌, ◌<◌, ◌++◌, OnOk};
ghost use Rattle.fw_watch_remarks.specs.Registers.{register_at, plug_at, plug_number, is_managed, is_output, place_of, at_text};

use crate::nodes::put_plug_of_node;
use fw_csr::offset::{
    BANDWIDTH_AVAILABLE, CHANNELS_AVAILABLE_HI, CHANNELS_AVAILABLE_LO, IPCR, OPCR,
};
use fw_log_names::{put_number, put_word};
use fw_log_registers::{NamedRegister as Named, RegisterPlace, append_place};
use std::alloc::AllocError;

/// A register that is watched: the resource manager's three, and the plug control registers of each node.
#[derive(Clone, Copy)]
pub enum WatchedRegister {
    /// BANDWIDTH_AVAILABLE.
    Bandwidth,
    /// CHANNELS_AVAILABLE_HI, of the channels 0 to 31.
    ChannelsHigh,
    /// CHANNELS_AVAILABLE_LO, of the channels 32 to 63.
    ChannelsLow,
    /// An oPCR, by its number.
    Output(u8),
    /// An iPCR, by its number.
    Input(u8),
}

/// A watched register of a node.
#[derive(Clone, Copy)]
pub struct At {
    /// The node's number.
    pub node: u8,
    /// Which of its registers.
    pub register: WatchedRegister,
}

// The number of the plug whose register stands at an offset, if the first of the 31 stands at another.
#[tactic(auto, unfolding(crate::specs::Registers::plug_number))]
fn plug_number(first: u64, offset: u64) -> Option<u8>
    requires { first < 281474976710656 }
    ensures { result ≡ plug_number first offset }
{
    if first <= offset && offset < first + 124 && (offset - first) % 4 == 0 {
        Some(((offset - first) / 4) as u8)
    } else {
        None
    }
}

// The plug whose register stands at an offset.
fn plug_at(offset: u64) -> Option<WatchedRegister>
    ensures { result ≡ plug_at offset }
{
    if let Some(number) = plug_number(OPCR, offset) {
        return Some(WatchedRegister::Output(number));
    }
    match plug_number(IPCR, offset) {
        Some(number) => Some(WatchedRegister::Input(number)),
        None => None,
    }
}

impl WatchedRegister {
    /// The watched register that stands at an offset of 48 bits, if one does.
    #[tactic(auto, unfolding(crate::specs::Registers::register_at))]
    pub fn at(offset: u64) -> Option<WatchedRegister>
        ensures { result ≡ register_at offset }
    {
        match offset {
            BANDWIDTH_AVAILABLE => Some(WatchedRegister::Bandwidth),
            CHANNELS_AVAILABLE_HI => Some(WatchedRegister::ChannelsHigh),
            CHANNELS_AVAILABLE_LO => Some(WatchedRegister::ChannelsLow),
            _ => plug_at(offset),
        }
    }

    /// It is one of the resource manager's three.
    pub fn is_managed(self) -> bool
        ensures { result ≡ is_managed self }
    {
        match self {
            WatchedRegister::Bandwidth
            | WatchedRegister::ChannelsHigh
            | WatchedRegister::ChannelsLow => true,
            WatchedRegister::Output(_) | WatchedRegister::Input(_) => false,
        }
    }

    /// It is an oPCR.
    pub fn is_output(self) -> bool
        ensures { result ≡ is_output self }
    {
        match self {
            WatchedRegister::Output(_) => true,
            _ => false,
        }
    }

    // Its name.
    fn place(self) -> RegisterPlace
        ensures { result ≡ place_of self }
    {
        match self {
            WatchedRegister::Bandwidth => RegisterPlace::Named(Named::BandwidthAvailable, 0),
            WatchedRegister::ChannelsHigh => RegisterPlace::Named(Named::ChannelsAvailableHi, 0),
            WatchedRegister::ChannelsLow => RegisterPlace::Named(Named::ChannelsAvailableLo, 0),
            WatchedRegister::Output(number) => RegisterPlace::Named(
                Named::OutputPlug,
                u16::from(number),
            ),
            WatchedRegister::Input(number) => RegisterPlace::Named(
                Named::InputPlug,
                u16::from(number),
            ),
        }
    }
}

// Appends any register by its name and its node.
#[tactic(auto, unfolding(crate::specs::Registers::at_text))]
fn put_any(text: &mut Vec<u8>, at: At) -> Result<(), AllocError>
    ensures { OnOk result (text.new.items ≡ text.old.items ++ at_text at) }
{
    append_place(text, at.register.place())?;
    put_word(text, " of node ")?;
    put_number(text, u64::from(at.node))
}

// Appends a register by its name and its node.
pub fn put_at(text: &mut Vec<u8>, at: At) -> Result<(), AllocError>
    ensures { OnOk result (text.new.items ≡ text.old.items ++ at_text at) }
{
    match at.register {
        WatchedRegister::Output(number) if number < 10 => put_plug_of_node(
            text, b'o', number, at.node,
        ),
        WatchedRegister::Input(number) if number < 10 => put_plug_of_node(
            text, b'i', number, at.node,
        ),
        _ => put_any(text, at),
    }
}
