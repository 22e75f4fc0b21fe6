ghost use Rattle.std.specs.Prelude.{◌≡◌};
ghost use Rattle.fw_cmp_jobs.specs.Connections.{kind_of, output_of, input_of, is_listen, is_point_to_point};
ghost use Rattle.fw_cmp_jobs.specs.Slots.{broadcast_slot, connect_slot, listen_slot};

use fw_terms::{ConnectionKind, PlugAt};

/// The channel of a first broadcast connection (IEC 61883-1, broadcast channel base).
const BROADCAST_CHANNEL: u8 = 63;

/// A connection that a controller makes, by the plugs that it joins (IEC 61883-1, connection management).
#[derive(Clone, Copy)]
pub enum Connection {
    /// A point-to-point connection of an output plug to an input plug.
    PlugToPlug { output: PlugAt, input: PlugAt },
    /// A broadcast-out connection of an output plug.
    BroadcastOut { output: PlugAt },
    /// A broadcast-in connection of an input plug.
    BroadcastIn { input: PlugAt },
}

impl Connection {
    /// How it stands in the registers of its plugs.
    pub fn kind(self) -> ConnectionKind
        ensures { result ≡ kind_of self }
    {
        match self {
            Connection::PlugToPlug { .. } => ConnectionKind::PointToPoint,
            Connection::BroadcastOut { .. } | Connection::BroadcastIn { .. } => {
                ConnectionKind::Broadcast
            }
        }
    }

    /// Its output plug, if it has one.
    pub fn output(self) -> Option<PlugAt>
        ensures { result ≡ output_of self }
    {
        match self {
            Connection::PlugToPlug { output, .. } | Connection::BroadcastOut { output } => {
                Some(output)
            }
            Connection::BroadcastIn { .. } => None,
        }
    }

    /// Its input plug, if it has one.
    pub fn input(self) -> Option<PlugAt>
        ensures { result ≡ input_of self }
    {
        match self {
            Connection::PlugToPlug { input, .. } | Connection::BroadcastIn { input } => Some(input),
            Connection::BroadcastOut { .. } => None,
        }
    }

    /// It is a broadcast-in connection, which takes no channel and no units.
    pub fn is_listen(self) -> bool
        ensures { result ≡ is_listen self }
    {
        matches!(self, Connection::BroadcastIn { .. })
    }

    /// It joins an output plug to an input plug.
    pub fn is_point_to_point(self) -> bool
        ensures { result ≡ is_point_to_point self }
    {
        matches!(self, Connection::PlugToPlug { .. })
    }
}

/// The channel that a connection has, with the overhead_ID and the units of its output plug. Those of a broadcast-in
/// connection are 0.
#[derive(Clone, Copy, PartialEq, Eq)]
pub struct Flow {
    pub channel: u8,
    pub overhead: u8,
    pub units: u32,
}

/// One of the 32 places of a controller for a connection.
#[derive(Clone, Copy)]
pub enum Slot {
    Free,
    /// A new connection is being made, or waits for it: the channel that is asked for, 0 to 63, or None for the
    /// lowest free one, and the overhead_ID that a first connection sets.
    Making(Connection, Option<u8>, u8),
    /// The connection stands.
    Established(Connection, Flow),
    /// The connection stood at a bus reset and is to be restored. The flag tells that the reclaim second which runs
    /// from that reset is over.
    Restoring(Connection, Flow, bool),
    /// The connection is gone, and a break of it has still to end.
    Gone(Connection),
}

impl Slot {
    /// What holds a new point-to-point connection, on this channel or on the lowest free one.
    pub fn connect(output: PlugAt, input: PlugAt, channel: Option<u8>, overhead: u8) -> Slot
        ensures { result ≡ connect_slot output input channel overhead }
    {
        Slot::Making(Connection::PlugToPlug { output, input }, channel, overhead)
    }

    /// What holds a new broadcast-out connection.
    pub fn broadcast(output: PlugAt, overhead: u8) -> Slot
        ensures { result ≡ broadcast_slot output overhead }
    {
        let connection = Connection::BroadcastOut { output };
        Slot::Making(connection, Some(BROADCAST_CHANNEL), overhead)
    }

    /// What holds a new broadcast-in connection.
    pub fn listen(input: PlugAt) -> Slot
        ensures { result ≡ listen_slot input }
    {
        let connection = Connection::BroadcastIn { input };
        Slot::Making(connection, Some(BROADCAST_CHANNEL), 0)
    }
}
