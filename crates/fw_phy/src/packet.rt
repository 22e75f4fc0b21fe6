ghost use Rattle.std.specs.Prelude.{◌≡◌};

/// A self-ID packet zero, the first of a node.
#[derive(Clone, Copy, PartialEq, Eq)]
pub struct SelfId {
    /// The node's number, 6 bits.
    pub phy: u8,
    /// L: the node's link is active.
    pub link: bool,
    /// gap_cnt, 6 bits.
    pub gap: u8,
    /// sp, 2 bits: 0, 1, 2 for 100, 200, 400 Mbit/s.
    pub speed: u8,
    /// del, 2 bits.
    pub delay: u8,
    /// c: the node may become the isochronous resource manager.
    pub contender: bool,
    /// pwr, 3 bits.
    pub power: u8,
    /// Ports 0, 1 and 2, 2 bits each: 3 child, 2 parent, 1 not connected, 0 not present.
    pub ports: [u8; 3],
    /// i: the node began the bus reset.
    pub initiator: bool,
    /// m: another packet of this node follows.
    pub more: bool,
}

/// An extended self-ID packet, a further one of a node.
#[derive(Clone, Copy, PartialEq, Eq)]
pub struct SelfIdMore {
    /// The node's number, 6 bits.
    pub phy: u8,
    /// n, at most 2: the packet holds the ports from `3 + 8 * number` on.
    pub number: u8,
    /// Eight ports, 2 bits each, with the codes of packet zero.
    pub ports: [u8; 8],
    /// m: another packet of this node follows.
    pub more: bool,
}

/// A PHY packet (IEEE 1394-1995, PHY packets).
#[derive(Clone, Copy, PartialEq, Eq)]
pub enum PhyPacket {
    /// A self-ID packet zero.
    SelfId(SelfId),
    /// An extended self-ID packet.
    SelfIdMore(SelfIdMore),
    /// A PHY configuration packet.
    Config {
        /// root_ID, 6 bits.
        root: u8,
        /// R: the named node is to become root.
        force_root: bool,
        /// T: all nodes take the gap count.
        set_gap: bool,
        /// gap_cnt, 6 bits.
        gap: u8,
    },
    /// A link-on packet.
    LinkOn {
        /// The addressed node's number, 6 bits.
        phy: u8,
    },
}

/// What fills the free places of a list; it has no meaning of its own.
impl Default for PhyPacket {
    fn default() -> Self
        ensures { result ≡ PhyPacket.LinkOn 0 }
    {
        PhyPacket::LinkOn { phy: 0 }
    }
}
