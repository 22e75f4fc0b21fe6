//! The fields of asynchronous packets, as they stand in their bytes: node IDs, transaction codes, addresses, and how long the data
//! is; the first fault that they show, and how many bytes their packet takes. No packet is made here.
#![tactic(auto)]

mod address;
mod data;
mod faults;
mod node_ids;
mod sizes;
mod tcode;

pub use address::{offset_at, rcode_at};
pub use data::{block_at, data_at, function_at, length_at, padding_of};
pub use faults::{least_length, tcode_at};
pub use node_ids::{MOST_NODES, local_number, node_id, node_ids_are_numbers, number_of};
pub use tcode::Tcode;

/// Why bytes are no packet. The variants that one quadlet can show are tested in this order, and each comes as
/// soon as the quadlet that shows it has been read; `BadPadding` as soon as its byte has.
#[derive(Clone, Copy, PartialEq, Eq)]
pub enum PacketFault {
    /// The transaction code in quadlet 0 is none of `Packet`.
    UnknownTcode,
    /// A reserved bit is 1; the first such, counted from the packet's bit 0. A lock's extended_tcode outside 1 to
    /// 7 is bit 112.
    Reserved(u32),
    /// The data_length of a block is above 512.
    TooLong(u16),
    /// A padding byte is not 0; its place in the packet, from 0.
    BadPadding(u32),
    /// The data_length of a lock request is none of its function, or that of a lock response is not 0, 4 or 8.
    BadLength(u16),
}
