//! A reader of logs: entries from bytes that come in any pieces, exactly if there are some. What it makes of them and how a log is
//! written stands in fw_log_entry; those names of it that a user of logs needs are here too.
#![tactic(auto)]

mod annotation;
mod apart;
mod ending;
mod extent;
mod first;
mod first_look;
mod held;
pub mod laws;
mod log_position;
mod passing;
mod plain;
mod plain_reset;
mod read;
mod read_body;
mod read_head;
mod read_reset;
mod right_body;
mod room;
mod version;

pub use annotation::PassedAnnotation;
pub use first_look::{Passed, PlainEntry};
use fw_async::PacketFault;
use fw_cip::IsoFault;
pub use fw_log_entry::{
    Entry, EventEntry, NodeList, NodeRow, OutcomeEntry, ResetEntry, ShownEntry, Timed, Version,
    write_entry, write_header,
};
use fw_phy::PhyFault;
pub use passing::PassedBody;
pub use plain::PlainBody;
pub use read::{LogFed, LogReader};
pub use read_reset::{count_of, read_fields};
pub use room::ReadBuffers;

/// Why the bytes of a body are no body of an entry of the kind that is in its head.
#[derive(Clone, Copy, PartialEq, Eq)]
pub enum BodyFault {
    /// The first eight bytes after the nodes of a reset entry that are no PHY packet, or four that are left over.
    Phy(PhyFault),
    /// The bytes of an asynchronous entry go on to no packet.
    Packet(PacketFault),
    /// The body of an isochronous entry is no packet.
    Iso(IsoFault),
    /// The body is not as it must be, and no lower fault holds.
    Fields,
}

/// Why bytes are no log, in the order of the tests of each part, but for the last, which comes after `BadLength`.
#[derive(Clone, Copy, PartialEq, Eq)]
pub enum LogWhy {
    /// A byte follows the end entry; the place is that byte's.
    AfterEnd,
    /// A quadlet of the header is not as it must be, the second neither 1 nor 2; the place is that quadlet's.
    BadHeader,
    /// The kind is not 1 to 7, or the byte after it is not 0; the place is the entry's.
    BadKind,
    /// The body has a length that its kind never has; the place is the length's.
    BadLength,
    /// The cycle is less than that of the entry before; the place is the cycle's.
    TimeBack,
    /// The body is no body of an entry of its kind; the place is the body's.
    BadBody(BodyFault),
    /// The input ended inside the header or an entry; the place is the input's length.
    Cut,
    /// The input ended after the header or an entry that is not the end; the place is the input's length.
    NoEnd,
    /// In version 2 the epoch in the head of an entry that is no bus reset is not that of the latest bus reset, or 0 if there is
    /// none: the epoch that stands there; the place is the epoch's. It is tested before the cycle.
    BadEpoch(u32),
}

/// Why bytes are no log, and the place of the first byte of what is refused, counted from 0.
#[derive(Clone, Copy, PartialEq, Eq)]
pub struct LogFault {
    /// The place of the byte.
    pub place: u64,
    /// What is refused.
    pub why: LogWhy,
}
