ghost use Rattle.std.specs.Prelude.{◌≡◌, ◌<◌, ◌≤◌, ◌++◌, [], ◌∷◌, length, map};
ghost use Rattle.fw_phy.specs.Phy.{begun_by};

use crate::PhyPacket;
use arrayvec::ArrayVec;
use std::marker::Model;

/// At most 252 PHY packets, in order: room for the self-ID packets of 63 nodes.
#[derive(Drop)]
pub struct SelfIds {
    pub(crate) packets: ArrayVec<PhyPacket, 252>,
}

impl Model for SelfIds {
    ghost use Rattle.std.specs.Prelude.{List};
    ghost use Rattle.fw_phy.specs.declared.packet.PhyPacket.{PhyPacket};

    ghost Value = { List PhyPacket };

    ghost view = { λ s. s.packets.items };

    ghost inverse = { λ xs. record { packets = record { items = xs } } };
}

// Notes in a packet which node began the bus reset.
fn note_initiator(packet: &mut PhyPacket, phy: u8)
    ensures { packet.new ≡ begun_by phy packet.old }
{
    if let PhyPacket::SelfId(zero) = packet {
        zero.initiator = zero.phy == phy;
    }
}

impl SelfIds {
    /// No packets.
    pub fn new() -> Self
        ensures { result ≡ [] }
    {
        SelfIds {
            packets: ArrayVec::new(),
        }
    }

    /// Takes all packets away. The work grows with the packets that were held, and not with the room.
    pub fn clear(&mut self)
        ensures { self.new ≡ [] }
    {
        self.packets.clear();
    }

    /// Appends a packet.
    pub fn push(&mut self, p: PhyPacket)
        requires { length self.old < 252 }
        ensures { self.new ≡ self.old ++ p ∷ [] }
    {
        self.packets.push(p);
    }

    /// All packets.
    pub fn as_slice(&self) -> &[PhyPacket]
        ensures value { result.now ≡ self.now }
        ensures fits { length self.now ≤ 252 }
    {
        self.packets.as_slice()
    }

    /// Sets the initiator's bit in the packets zero of this node, and clears it in those of all others.
    pub fn set_initiator(&mut self, phy: u8)
        ensures { self.new ≡ map (begun_by phy) self.old }
    {
        let packets = self.packets.as_mut_slice();
        for packet in packets.iter_mut() {
            note_initiator(packet, phy);
        }
    }
}
