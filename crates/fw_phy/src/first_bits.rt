//! The first bits of self-ID packets, by which each is known.

ghost use Rattle.std.specs.Prelude.{◌≡◌, ◌<◌, ◌≤◌};
ghost use Rattle.fw_phy.specs.SelfIds.{begins_self_id};

use fw_words::Quadlet;

/// Bits 0 to 8 of packet zero of node 0: the kind 10, the node's number, and a 0.
const ZERO: u32 = 0b10_000000_0;

/// Bits 0 to 13 of the first further packet of node 0: the kind 10, the node's number, a 1, the packet's own number, and two zeros.
const MORE: u32 = 0b10_000000_1_000_00;

/// Whether the quadlet begins as the self-ID packet of this node does that comes after `met` others of it.
pub fn begins_self_id(q: Quadlet, node: u32, met: u32) -> bool
    requires node { node < 64 }
    requires met { met ≤ 3 }
    ensures { result ≡ begins_self_id q.0 node met }
{
    if met == 0 {
        q.field(0, 8) == ZERO + (node << 1)
    } else {
        q.field(0, 13) == MORE + (node << 6) + ((met - 1) << 2) && q.field(30, 30) == 0
    }
}
