//! PHY packets of IEEE 1394-1995: self-ID packets, PHY configuration and link-on packets, as bytes and back.
//!
//! Each packet is one quadlet, followed by its logical inverse. Reserved bits are written as 0, and a quadlet
//! with a reserved bit set is no packet.
#![tactic(auto)]

mod copies;
mod first_bits;
mod packet;
mod read;
mod self_ids;
mod write;

pub use first_bits::begins_self_id;
pub use packet::{PhyPacket, SelfId, SelfIdMore};
pub use read::read_phy;
pub use self_ids::SelfIds;
pub use write::write_phy;

/// Why eight bytes are no PHY packet, in the order of the tests.
#[derive(Clone, Copy, PartialEq, Eq)]
pub enum PhyFault {
    /// Fewer than eight bytes are there.
    Short,
    /// The second quadlet is not the logical inverse of the first.
    NotInverse,
    /// The first quadlet is no packet: some packet's quadlet begins with the bits before this one, and none with
    /// this one too. Bit 0 is the most significant.
    Reserved(u8),
}
