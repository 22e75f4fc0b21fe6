//! What is told of a log: what happened, what changed unseen, and findings.

ghost use Rattle.std.specs.Prelude.{◌≡◌};
ghost use Rattle.fw_watch_remarks.specs.Remarks.{is_finding};

use crate::known::Known;
use crate::register::At;

/// What one line tells. `by` is the node_ID of who asked for a swap.
#[derive(Clone, Copy)]
pub enum Remark {
    /// A bus reset.
    Reset {
        epoch: u32,
        nodes: u8,
        manager: Option<u8>,
    },
    /// The units left became others.
    Units {
        by: u16,
        old: u32,
        new: u32,
    },
    /// A channel was taken.
    Takes {
        by: u16,
        channel: u8,
    },
    /// A channel was given back.
    Returns {
        by: u16,
        channel: u8,
    },
    /// A plug's word became another.
    Plug {
        by: u16,
        at: At,
        old: u32,
        new: u32,
    },
    /// A register was found to hold another word than was known.
    Unseen {
        at: At,
        known: Known,
        found: u32,
    },
    /// A node began to send on a channel.
    Sends {
        node: u8,
        channel: u8,
    },
    /// Finding: a channel was taken a second ago, and nobody has used it.
    UnusedChannel {
        node: u8,
        channel: u8,
    },
    /// Finding: a resource manager's register was swapped at a node that is not the resource manager.
    NotManager {
        by: u16,
        at: At,
        manager: Option<u8>,
    },
    /// Finding: more units are left than there are.
    TooMany {
        by: u16,
        left: u32,
    },
    /// Finding: more units are taken in the second after a bus reset than were held before it.
    UnitsInSecond {
        by: u16,
        epoch: u32,
        taken: u64,
        held: u32,
    },
    /// Finding: a channel is taken in the second after a bus reset that was free before it.
    NewInSecond {
        by: u16,
        channel: u8,
        epoch: u32,
    },
    /// Finding: a swap changes more than one channel.
    Several {
        by: u16,
        count: u8,
    },
    /// Finding: a swap of a plug changes more than a connection.
    MoreThanMove {
        by: u16,
        at: At,
        old: u32,
        new: u32,
    },
    /// Finding: a channel has two senders.
    TwoSenders {
        channel: u8,
        first: u8,
        second: u8,
    },
    /// Finding: a node sends on a channel that is free.
    NotTaken {
        channel: u8,
        node: u8,
    },
    /// Finding: a node sends on a channel on which other nodes, a bit each, have output plugs.
    OtherPlug {
        channel: u8,
        node: u8,
        owners: u64,
    },
}

impl Remark {
    /// It is a finding.
    pub fn is_finding(&self) -> bool
        ensures { result ≡ is_finding self.now }
    {
        match self {
            Remark::Reset { .. }
            | Remark::Units { .. }
            | Remark::Takes { .. }
            | Remark::Returns { .. }
            | Remark::Plug { .. }
            | Remark::Unseen { .. }
            | Remark::Sends { .. } => false,
            Remark::UnusedChannel { .. }
            | Remark::NotManager { .. }
            | Remark::TooMany { .. }
            | Remark::UnitsInSecond { .. }
            | Remark::NewInSecond { .. }
            | Remark::Several { .. }
            | Remark::MoreThanMove { .. }
            | Remark::TwoSenders { .. }
            | Remark::NotTaken { .. }
            | Remark::OtherPlug { .. } => true,
        }
    }
}
