//! What is held with a channel, and its text.

ghost use Rattle.std.specs.Prelude.{◌≡◌, ◌++◌, OnOk};
ghost use Rattle.fw_holders_text.specs.Holdings.{device_of, how_text, units_text, holding_text};

use crate::bus_nodes::BusNodes;
use fw_log_names::{put_number, put_word};
use fw_terms::PlugAt;
use std::alloc::AllocError;

/// How many channels there are.
pub const CHANNELS: usize = 64;

/// How a channel is held.
#[derive(Clone, Copy)]
pub enum How {
    /// A controller has it that has not connected the plug yet, or no longer.
    Pending(u8),
    /// The connections of the plug have it.
    Connected,
    /// A controller left it that died since.
    Orphaned,
    /// Nobody else can have it in the reclaim second, in which its plug goes on talking.
    Continues,
    /// Nobody else can have it in the reclaim second, in which its plug is silent or gone.
    Reclaimable,
}

/// What is held with a channel.
#[derive(Clone, Copy)]
pub struct Holding {
    pub how: How,
    /// The output plug that it is held for.
    pub plug: PlugAt,
    /// Bandwidth allocation units; 0 if none are held yet, or no longer.
    pub units: u32,
}

impl Holding {
    /// The device that has it: its controller, or else that of its plug.
    pub fn device(&self) -> u8
        ensures { result ≡ device_of self.now }
    {
        match self.how {
            How::Pending(controller) => controller,
            _ => self.plug.device,
        }
    }
}

// Appends how a channel is held, if its plug is not connected.
#[tactic(auto, unfolding(crate::specs::Holdings::how_text))]
fn put_how(text: &mut Vec<u8>, how: How) -> Result<(), AllocError>
    ensures { OnOk result (text.new.items ≡ text.old.items ++ how_text how) }
{
    match how {
        How::Pending(_) => put_word(text, " pending"),
        How::Connected => Ok(()),
        How::Orphaned => put_word(text, " orphaned"),
        How::Continues => put_word(text, " continues"),
        How::Reclaimable => put_word(text, " reclaimable"),
    }
}

// Appends the units that are held with a channel, if there are any.
#[tactic(auto, unfolding(crate::specs::Holdings::units_text))]
fn put_units(text: &mut Vec<u8>, units: u32) -> Result<(), AllocError>
    ensures { OnOk result (text.new.items ≡ text.old.items ++ units_text units) }
{
    if units == 0 {
        return Ok(());
    }
    put_word(text, " ")?;
    put_number(text, u64::from(units))
}

/// Appends a channel that is held.
#[tactic(auto, unfolding(crate::specs::Holdings::holding_text))]
pub(crate) fn put_holding(
    text: &mut Vec<u8>,
    nodes: &BusNodes,
    channel: usize,
    held: Holding,
) -> Result<(), AllocError>
    ensures { OnOk result (text.new.items ≡ text.old.items ++ holding_text nodes.now channel held) }
{
    put_number(text, channel as u64)?;
    put_word(text, ":")?;
    nodes.put_who(text, held.device())?;
    put_units(text, held.units)?;
    put_how(text, held.how)
}
