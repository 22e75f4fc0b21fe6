use crate::Block;

/// A CIP header (IEC 61883-1).
#[derive(Clone, Copy, PartialEq, Eq)]
pub struct CipHeader {
    /// SID, the node number of the sender, 6 bits.
    pub sid: u8,
    /// DBS, the size of a data block in quadlets.
    pub dbs: u8,
    /// FN, into how many data blocks a source packet is cut, 2 bits.
    pub fraction: u8,
    /// QPC, how many quadlets are added to a source packet, 3 bits.
    pub qpc: u8,
    /// SPH: source packets have headers of their own.
    pub sph: bool,
    /// DBC, the count of the packet's first data block.
    pub dbc: u8,
    /// FMT, the format of the blocks, 6 bits.
    pub fmt: u8,
    /// FDF, 24 bits, the last 16 of them SYT.
    pub fdf: u32,
}

/// An isochronous packet with a CIP header, with a block of data or without one. The block lies elsewhere, so that a
/// packet is a few words, whatever it carries.
#[derive(Drop)]
pub struct IsoPacket<'a> {
    /// The isochronous channel, 6 bits.
    pub channel: u8,
    /// sy, 4 bits.
    pub sy: u8,
    /// The CIP header.
    pub cip: CipHeader,
    /// The block, if the packet has one.
    pub block: Option<Block<'a>>,
}
