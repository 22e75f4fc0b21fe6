//! Self-ID packets as a value: a copy of them, and whether two lists are the same.

ghost use Rattle.std.specs.Prelude.{◌≡◌, IsTrue};

use crate::packet::PhyPacket;
use crate::self_ids::SelfIds;

// Two that are found the same are the same.
fn same_packet(packet: PhyPacket, other: PhyPacket) -> bool
    ensures { IsTrue result → packet ≡ other }
{
    packet == other
}

fn same_packets(packets: &[PhyPacket], others: &[PhyPacket]) -> bool
    ensures { IsTrue result → packets.now ≡ others.now }
{
    if packets.len() != others.len() {
        return false;
    }
    for n in 0..packets.len() {
        if !same_packet(packets[n], others[n]) {
            return false;
        }
    }
    true
}

impl SelfIds {
    /// Becomes a copy of others.
    pub fn copy_from(&mut self, other: &SelfIds)
        ensures { self.new ≡ other.now }
    {
        self.clear();
        let _ = self.packets.try_extend_from_slice(other.packets.as_slice());
    }

    /// Those that are found the same are the same.
    pub fn is_same(&self, other: &SelfIds) -> bool
        ensures { IsTrue result → self.now ≡ other.now }
    {
        same_packets(self.packets.as_slice(), other.packets.as_slice())
    }
}
