//! The cables of one IEEE 1394 bus: which devices are on it, which is root, which number each node has, and the
//! self-ID packets that say so.
//!
//! Tree identification and self-identification follow IEEE 1394-1995; the tie between two devices that leave
//! towards each other is the project's own rule. Nothing on what is connected is kept between calls, no memory is
//! taken, and the one recursion is at most 63 calls deep, since each device leaves in a later round than its children.
#![tactic(auto)]

use thiserror::Error;

mod cabling;
mod copies;
mod facts;
mod laws;
mod numbering;
mod numbers;
mod ports;
mod root;
mod rounds;
mod self_ids;
mod walk;

pub use cabling::Cabling;
pub use facts::{End, PhyFacts};
pub use laws::{another_initiator_changes_one_bit, rounds_end_with_one_root};
pub use numbering::{Numbering, devices_of, number_of};

/// Why a device or a cable is refused, in the order of the tests.
#[derive(Clone, Copy, Debug, PartialEq, Eq, Error)]
pub enum TreeFault {
    /// 63 devices are there already.
    #[error("TooMany")]
    TooMany,
    /// A device has no such port, or there is no such device.
    #[error("NoPort")]
    NoPort,
    /// A port has a cable already, or both ends are one port.
    #[error("PortUsed")]
    PortUsed,
    /// A walk of cables leads from the one device to the other already, or they are one.
    #[error("Loop")]
    Loop,
}
