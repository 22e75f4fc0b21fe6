//! Terms that several crates share: the kinds of devices, plugs by device and number, the kinds of connections, the transaction
//! labels, and in specs/ tables by number and by plug, with their sums and searches.
#![tactic(auto)]

mod device;
mod label;
mod plug;

pub use device::DeviceKind;
pub use label::Label;
pub use plug::{ConnectionKind, PlugAt};
