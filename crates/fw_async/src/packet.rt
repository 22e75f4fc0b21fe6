use fw_words::{Bytes8, Bytes16, Data};

/// What each packet begins with.
#[derive(Clone, Copy)]
pub struct Head {
    /// destination_ID: bus and node, 16 bits.
    pub destination: u16,
    /// The transaction label, 6 bits.
    pub tl: u8,
    /// The retry code, 2 bits.
    pub rt: u8,
    /// The priority, 4 bits.
    pub pri: u8,
    /// source_ID: bus and node, 16 bits.
    pub source: u16,
}

/// A packet. An `offset` is a destination_offset of 48 bits, an `rcode` a response code of 4 bits. The `bytes` of
/// a lock are its argument (if it has one) and then its data value; those of a lock response the old value. The
/// data of a block lies elsewhere, so that a packet is a few words, whatever it carries.
#[derive(Drop)]
pub enum Packet<'a> {
    /// Write request for data quadlet, tcode 0.
    WriteQuadlet {
        head: Head,
        offset: u64,
        value: u32,
    },
    /// Write request for data block, tcode 1.
    WriteBlock {
        head: Head,
        offset: u64,
        bytes: Data<'a>,
    },
    /// Write response, tcode 2.
    WriteReply {
        head: Head,
        rcode: u8,
    },
    /// Read request for data quadlet, tcode 4.
    ReadQuadlet {
        head: Head,
        offset: u64,
    },
    /// Read request for data block, tcode 5: `length` is at most 512.
    ReadBlock {
        head: Head,
        offset: u64,
        length: u16,
    },
    /// Read response for data quadlet, tcode 6.
    ReadQuadletReply {
        head: Head,
        rcode: u8,
        value: u32,
    },
    /// Read response for data block, tcode 7.
    ReadBlockReply {
        head: Head,
        rcode: u8,
        bytes: Data<'a>,
    },
    /// Cycle start, tcode 8: `time` is CYCLE_TIME.
    CycleStart {
        head: Head,
        offset: u64,
        time: u32,
    },
    /// Lock request, tcode 9: `function` is the extended_tcode, 1 to 7.
    Lock {
        head: Head,
        offset: u64,
        function: u8,
        bytes: Bytes16,
    },
    /// Lock response, tcode B: 0, 4 or 8 bytes of old value.
    LockReply {
        head: Head,
        rcode: u8,
        function: u8,
        bytes: Bytes8,
    },
}
