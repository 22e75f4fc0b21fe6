/// How a job ends.
#[derive(Clone, Copy, PartialEq, Eq)]
pub enum Outcome {
    /// The connection stands on this channel.
    Connected(u8),
    /// The last resource was given back, or the connection was gone already.
    Broken,
    /// The connection stands again, on this channel.
    Restored(u8),
    /// The asked channel was taken, or no channel was free; the word of the register that showed it.
    NoChannel(u32),
    /// The remainder was less than the units of the plug; the remainder.
    NoUnits(u32),
    /// The counter of a plug stood at 63, or the broadcast bit of its output plug was set; the plug's word.
    PlugFull(u32),
    /// The input plug was connected on another channel, or its broadcast bit was set for a broadcast-in connection; its
    /// word.
    InputBusy(u32),
    /// An answer was not complete; its response code.
    NoPlug(u8),
    /// There is no isochronous resource manager.
    NoManager,
    /// This device is not on the bus.
    Absent(u8),
    /// A bus reset began this epoch during the job.
    Reset(u32),
    /// A restoring came too late: in this cycle.
    Late(u64),
}
