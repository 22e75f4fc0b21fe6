//! Asynchronous packets of IEEE 1394, written as bytes and read from bytes that come in any pieces.
//!
//! What the fields of a packet are, and which faults they show, is in fw_async_fields; those names of it that a user of packets
//! needs are here too.
//!
//! Quadlet 0 is destination_ID 16, tl 6, rt 2, tcode 4, pri 4. Quadlet 1 is source_ID 16, then in a request the
//! high 16 bits of destination_offset, in a response rcode 4 and 12 zeros. Quadlet 2 is the low 32 bits of the
//! offset, or zeros in a response. Quadlet 3 and the data after it depend on the transaction code
//! (IEEE 1394-1995, clause 6.2). The CRCs are left out: a packet stands as the link layer hands it over.
//! That a block has at most 512 bytes of data is this project's choice, as is the size of a vendor-dependent lock.
#![tactic(auto)]

mod cycle_start;
mod header;
mod letters;
mod lock;
mod packet;
mod pieces;
mod plain;
mod quadlets;
mod read;
mod reader;
mod room;
mod senders;
mod wire;
mod write;
mod writer;

pub use fw_async_fields::{
    MOST_NODES, PacketFault, Tcode, local_number, node_id, node_ids_are_numbers, number_of,
};
pub use letters::Letters;
pub use packet::{Head, Packet};
pub use pieces::PacketReader;
pub use plain::is_plain_packet;
pub use quadlets::{QuadletRequest, quadlet_request_at};
pub use reader::{Fed, destination_at, read_packet, whole_packet};
pub use room::PacketRoom;
pub use wire::Wire;
pub use writer::{packet_length, write_packet, write_packet_at};
