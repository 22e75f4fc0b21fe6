//! The codes of a log: each number stands beside its name, here alone (own).

/// The kinds of entries.
pub mod kind {
    /// A bus reset, and the bus as it is then.
    pub const RESET: u8 = 1;
    /// An asynchronous packet.
    pub const ASYNC: u8 = 2;
    /// An isochronous packet.
    pub const ISO: u8 = 3;
    /// Something that happened without a packet.
    pub const EVENT: u8 = 4;
    /// How a controller's procedure ended.
    pub const OUTCOME: u8 = 5;
    /// A word of a register, shown on demand.
    pub const SHOWN: u8 = 6;
    /// The end of the log.
    pub const END: u8 = 7;
}

/// The codes of events.
pub mod event {
    /// The second in which reservations are reclaimed after a bus reset is over; it has no device.
    pub const SECOND_OVER: u8 = 1;
    /// A controller died.
    pub const DIED: u8 = 2;
    /// A controller started.
    pub const STARTED: u8 = 3;
    /// A tape was inserted; the event has the tape's number and system.
    pub const INSERTED: u8 = 4;
    /// A tape was ejected.
    pub const EJECTED: u8 = 5;
    /// The bus did not come to rest in the time that was given; it has no device.
    pub const UNSETTLED: u8 = 6;
    /// The response to a controller's request was lost: the controller did not hear it.
    pub const LOST: u8 = 7;
    /// Channel 31 is withheld from the bus, so that it is never free; the event has no device.
    pub const WITHHELD: u8 = 8;
    /// A candidate became the bus manager.
    pub const ELECTED: u8 = 9;
    /// A candidate found another bus manager in office.
    pub const DEFEATED: u8 = 10;
    /// The reel was tied to a deck, which records on it what it hears.
    pub const DUBBING: u8 = 11;
}

/// The codes of outcomes, each with what its value is.
pub mod outcome {
    /// A connection was made: its channel.
    pub const CONNECTED: u8 = 1;
    /// A connection was broken: no value.
    pub const BROKEN: u8 = 2;
    /// A connection was restored after a bus reset: its channel.
    pub const RESTORED: u8 = 3;
    /// No channel is free: what CHANNELS_AVAILABLE held.
    pub const NO_CHANNEL: u8 = 4;
    /// Too few bandwidth units are left: how many.
    pub const NO_UNITS: u8 = 5;
    /// The output plug has no room for a connection more: its word.
    pub const PLUG_FULL: u8 = 6;
    /// The input plug is connected already: its word.
    pub const INPUT_BUSY: u8 = 7;
    /// An answer was not complete, as when the device has no such plug: its response code.
    pub const NO_PLUG: u8 = 8;
    /// The bus has no isochronous resource manager: no value.
    pub const NO_MANAGER: u8 = 9;
    /// A device is not on the bus: its number.
    pub const ABSENT: u8 = 10;
    /// A bus reset ended the procedure: its epoch.
    pub const RESET: u8 = 11;
    /// The procedure came too late: the cycle's low 32 bits.
    pub const LATE: u8 = 12;
}

/// What each log begins with: 1394, in ASCII.
pub const LOG_MAGIC: u32 = 0x3133_3934;

/// The device of an event that has none.
pub const NO_DEVICE: u8 = 255;

/// What stands in place of the manager's number if a bus reset has found no manager.
pub const NO_NODE: u8 = 255;

/// How many lines a picture of the 525 line system has: what an inserted tape's system is.
pub const LINES_525: u16 = 525;

/// How many lines a picture of the 625 line system has.
pub const LINES_625: u16 = 625;
