//! Isochronous packets of IEC 61883-1 with SD-DVCR blocks, as bytes and back, and the two ends of a stream of them.
//!
//! The isochronous header is data_length 16, tag 2 = 01, channel 6, tcode 4 = A, sy 4 (IEEE 1394-1995, isochronous data
//! block). Two CIP quadlets follow: 00, SID 6, DBS 8, FN 2, QPC 3, SPH 1, two reserved bits, DBC 8; and 10, FMT 6, FDF 24
//! (IEC 61883-1, two-quadlet CIP header). After them stands a block of 480 bytes, or nothing. The CRCs are left out.
#![tactic(auto)]

mod block;
mod laws;
mod listener;
mod packet;
mod read;
mod talker;
mod write;

pub use block::Block;
pub use laws::a_stream_is_heard_without_gaps;
pub use listener::{Heard, Listener};
pub use packet::{CipHeader, IsoPacket};
pub use read::{read_iso, whole_iso};
pub use talker::Talker;
pub use write::{heads_of, iso_length, write_iso};

/// Why bytes are no isochronous packet, in the order of the tests.
#[derive(Clone, Copy, PartialEq, Eq)]
pub enum IsoFault {
    /// Fewer than twelve bytes are there.
    Short,
    /// The tag is not 1, the tcode is not A, or the CIP quadlets do not begin with 00 and 10.
    NotCip,
    /// A reserved bit of the CIP header is 1; the first such, counted from the packet's bit 0.
    Reserved(u8),
    /// data_length, which is neither 8 nor 488, or not four less than the bytes that are there.
    BadSize(u16),
}
