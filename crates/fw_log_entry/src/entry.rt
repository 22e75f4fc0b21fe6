ghost use Rattle.std.specs.Prelude.{◌≡◌};
ghost use Rattle.fw_log_entry.specs.Log.{epoch_after};

use crate::NodeList;
use fw_async::Packet;
use fw_cip::IsoPacket;
use fw_phy::SelfIds;
use std::marker::Model;

/// A bus reset, and the bus as it is then (own).
#[derive(Drop)]
pub struct ResetEntry {
    /// The number of the reset, from 1.
    pub epoch: u32,
    /// The node that is root.
    pub root: u8,
    /// The node that is isochronous resource manager, if any.
    pub manager: Option<u8>,
    /// The node that began the reset.
    pub initiator: u8,
    /// The nodes from number 0 on, 1 to 63.
    pub nodes: NodeList,
    /// The self-ID packets of all nodes, in order.
    pub ids: SelfIds,
}

/// A reset that lies elsewhere, since its lists are long.
#[derive(Drop)]
pub struct BorrowedReset<'a> {
    entry: &'a ResetEntry,
}

impl<'a> Model for BorrowedReset<'a> {
    ghost use Rattle.fw_log_entry.specs.declared.entry.ResetEntry.{ResetEntry};

    ghost Value = { ResetEntry };

    ghost view = { λ r. r.entry.now };
}

impl<'a> BorrowedReset<'a> {
    /// This reset.
    pub fn new(entry: &'a ResetEntry) -> BorrowedReset<'a>
        ensures { result ≡ entry.now }
    {
        BorrowedReset { entry }
    }

    /// The reset.
    pub fn get(&self) -> &'a ResetEntry
        ensures { result.now ≡ self.now }
    {
        self.entry
    }
}

/// Something that happened on the bus without a packet (own).
#[derive(Clone, Copy)]
pub struct EventEntry {
    /// One of `codes::event`; the table `EVENTS` has what else the event has by it.
    pub code: u8,
    /// The number of the device, 255 if the event has none.
    pub device: u8,
    /// The number of the inserted tape; 0 if the event has none.
    pub tape: u16,
    /// The lines of the inserted tape's system, 525 or 625; 0 if the event has no tape.
    pub system: u16,
}

/// How a procedure of a controller ended (own).
#[derive(Clone, Copy)]
pub struct OutcomeEntry {
    /// One of `codes::outcome`.
    pub code: u8,
    /// The number of the controller's device.
    pub device: u8,
    /// The slot of the procedure's connection.
    pub slot: u8,
    /// The outcome's value; 0 if it brings none, by the table `OUTCOMES`.
    pub value: u32,
}

/// A word of a register, shown on demand (own).
#[derive(Clone, Copy)]
pub struct ShownEntry {
    /// The number of the device.
    pub device: u8,
    /// The register's offset in the initial units space, below hexadecimal 1000.
    pub offset: u16,
    /// What it held.
    pub word: u32,
}

/// What a log records. What is long lies elsewhere, so that an entry is a few words.
#[derive(Drop)]
pub enum Entry<'a> {
    /// Kind 1.
    Reset(BorrowedReset<'a>),
    /// Kind 2: an asynchronous packet.
    Async(Packet<'a>),
    /// Kind 3: an isochronous packet.
    Iso(IsoPacket<'a>),
    /// Kind 4.
    Event(EventEntry),
    /// Kind 5.
    Outcome(OutcomeEntry),
    /// Kind 6.
    Shown(ShownEntry),
    /// Kind 7: the end of the log.
    End,
}

/// An entry, and its cycle.
#[derive(Drop)]
pub struct Timed<'a> {
    /// Isochronous cycles of 125 microseconds since the log began.
    pub cycle: u64,
    /// What is recorded.
    pub what: Entry<'a>,
}

/// The epoch of the latest bus reset up to and including an entry, if this is that of the latest before it, or 0 if there is
/// none.
pub fn epoch_after(epoch: u32, what: &Entry) -> u32
    ensures value { result ≡ epoch_after epoch what.now }
    ensures latest { result ≡ epoch_after result what.now }
{
    match what {
        Entry::Reset(r) => r.get().epoch,
        _ => epoch,
    }
}
