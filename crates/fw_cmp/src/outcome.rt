use fw_cmp_jobs::Outcome;
use fw_csr::QuadletAccess;

/// What a controller does next.
#[derive(Drop)]
pub enum Next {
    /// Its request goes to the node with this number.
    Send { to: u8, request: QuadletAccess },
    /// The job of this slot ends so.
    End { slot: u8, outcome: Outcome },
    /// It has nothing to do.
    Idle,
    /// A new connection is not begun before this cycle, at which the reclaim second is over.
    Waiting { until: u64 },
    /// The response to its request was lost: it does nothing before this cycle.
    Deaf { until: u64 },
    /// The response to its request was lost, and the split timeout is over: it forces a bus reset.
    Force,
}

/// Why a job is refused.
#[derive(Clone, Copy, PartialEq, Eq)]
pub enum StartFault {
    /// All 32 slots are in use.
    TableFull,
    /// Eight jobs wait.
    Busy,
    /// The slot's connection does not stand and is not to be restored, or a break of it waits or is current.
    NoSuchConnection,
    /// The plug of a broadcast connection is another device's.
    NotOwnPlug,
}
