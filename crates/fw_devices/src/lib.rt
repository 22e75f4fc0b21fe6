//! The devices of a bus by name: their cabling, the node that each is, and the entries of bus resets.
#![tactic(auto)]

mod bus;
mod devices;
mod frame;
mod laws;
mod names;
mod talkers;

pub use devices::Devices;
pub use frame::Frame;
pub use laws::{cables_extend_the_bus, reset_entries_show_the_bus};
pub use talkers::Talkers;

/// How many devices a bus may have: all may be nodes at once.
pub const MOST_DEVICES: usize = fw_async::MOST_NODES;
