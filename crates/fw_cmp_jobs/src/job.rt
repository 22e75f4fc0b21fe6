ghost use Rattle.std.specs.Prelude.{◌≡◌};
ghost use Rattle.fw_cmp_jobs.specs.Slots.{is_break_at};

use crate::Connection;

/// What a job is to do with the connection of its slot.
#[derive(Clone, Copy, PartialEq, Eq)]
pub enum Purpose {
    /// Makes a new connection.
    Make,
    /// Makes the connection again that stood before a bus reset.
    Restore,
    /// Breaks the connection.
    Break,
}

/// The current job of a controller.
#[derive(Clone, Copy)]
pub struct Job {
    /// The slot of its connection, 0 to 31.
    pub slot: u8,
    pub connection: Connection,
    pub purpose: Purpose,
    /// The channel that is asked for, 0 to 63; None for the lowest free one. A restoring asks for its slot's.
    pub asked: Option<u8>,
    /// The overhead_ID that a first connection sets, 0 to 15. A restoring sets its slot's.
    pub overhead: u8,
    /// The units that a restoring takes, those of its slot. A new connection has None: it takes what the word of its
    /// output plug shows.
    pub units: Option<u32>,
}

/// How the answers that a job heard, or the directory as it began, have decided that it ends without a connection.
#[derive(Clone, Copy, PartialEq, Eq)]
pub enum Ending {
    /// The last resource was given back.
    Broken,
    /// The asked channel was taken, or no channel was free; the word of the register that showed it.
    NoChannel(u32),
    /// The remainder was less than the units of the plug; the remainder.
    NoUnits(u32),
    /// The counter of a plug stood at 63, or the broadcast bit of its output plug was set; the plug's word.
    PlugFull(u32),
    /// The input plug was connected on another channel, or its broadcast bit was set for a broadcast-in connection; its
    /// word.
    InputBusy(u32),
    /// An answer was not complete; its response code.
    NoPlug(u8),
    /// There is no isochronous resource manager.
    NoManager,
    /// This device is not on the bus.
    Absent(u8),
    /// The output plug was connected on another channel than the one to be restored, or the slot's second is over.
    Late,
}

/// What follows when all that was taken has been given back.
#[derive(Clone, Copy, PartialEq, Eq)]
pub enum Then {
    EndsAs(Ending),
    Again,
}

/// The channel that a job has allocated, and the units, 0 if it has none yet.
#[derive(Clone, Copy)]
pub struct HeldResources {
    pub channel: u8,
    pub units: u32,
}

impl Job {
    /// The job breaks the connection of this slot.
    pub fn breaks(&self, slot: u8) -> bool
        ensures { result ≡ is_break_at self.now slot }
    {
        match self.purpose {
            Purpose::Make | Purpose::Restore => false,
            Purpose::Break => self.slot == slot,
        }
    }
}
