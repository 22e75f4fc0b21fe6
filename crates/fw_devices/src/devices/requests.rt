//! Requests at the nodes that devices are.

ghost use Rattle.std.specs.Prelude.{◌≡◌, ◌<◌, ℕ, Some, IsSome, IsTrue, length, map, slice_set};
ghost use Rattle.fw_async.specs.Async.{Fits};
ghost use Rattle.fw_async.specs.Reader.{Spells};
ghost use Rattle.fw_async.specs.declared.packet.Packet.{Packet as RequestPacket};
ghost use Rattle.fw_terms.specs.Devices.{has_link};
ghost use Rattle.fw_csr.specs.declared.request.Request.TheVariants.{Read};
ghost use Rattle.fw_node.specs.Packets.{IsRequest, IsServed, request_in, response_of};
ghost use Rattle.fw_node.specs.Space.{answer_of};
ghost use Rattle.fw_node.specs.State.{after_request, after_second, space_of};
ghost use Rattle.fw_devices.specs.Network.{node_at};

use super::Devices;
use arrayvec::ArrayVec;
use fw_async::{Packet, PacketRoom};
use fw_csr::Reply;
use fw_node::Node;

// The second is over for each of the nodes.
fn end_second(nodes: &mut [Node])
    ensures { nodes.new ≡ map after_second nodes.old }
{
    for node in nodes.iter_mut() {
        node.second_over();
    }
}

impl Devices {
    /// Carries a request packet to the node of a device out at its registers in cycle `now`, and gives the response packet
    /// (`fw_node::Node::carry_out`). Nothing follows from a frame: those go by `answer_frame`.
    // Inlined at its calls, if the response is then put in its place: else it is copied there.
    #[inline(always)]
    pub fn answer(&mut self, device: u8, now: u64, packet: &Packet) -> Packet<'static>
        requires request { IsSome (request_in packet.now) }
        requires declared { device < length self.old.nodes }
        requires number { IsSome (node_at self.old.nodes device).number }
        requires link { IsTrue (has_link (node_at self.old.nodes device).kind) }
        ensures response { (number : ℕ) → (node_at self.old.nodes device).number ≡ Some number → response_of (space_of number now (node_at self.old.nodes device)) packet.now ≡ Some result }
        ensures registers { self.new ≡ record self.old { nodes = slice_set self.old.nodes device (after_request (request_in packet.now) (node_at self.old.nodes device)) } }
        ensures fits { Fits packet.now → Fits result }
    {
        self.nodes[usize::from(device)].answer_packet(now, packet)
    }

    /// Carries the request packet that these bytes are to the node of a device out in cycle `now`, puts the response's bytes in place
    /// of what `out` held, and answers the reply that it carries (`fw_node::Node::serve`).
    #[inline(always)]
    pub fn serve(&mut self, device: u8, now: u64, bytes: &[u8], out: &mut PacketRoom) -> Reply
        requires request { IsRequest bytes.now }
        requires declared { device < length self.old.nodes }
        requires number { IsSome (node_at self.old.nodes device).number }
        requires link { IsTrue (has_link (node_at self.old.nodes device).kind) }
        ensures response { (p : RequestPacket) → Spells p bytes.now → (number : ℕ) → (node_at self.old.nodes device).number ≡ Some number
            → IsServed (space_of number now (node_at self.old.nodes device)) p out.new result }
        ensures registers { (p : RequestPacket) → Spells p bytes.now → self.new ≡ record self.old { nodes = slice_set self.old.nodes device (after_request (request_in p) (node_at self.old.nodes device)) } }
    {
        self.nodes[usize::from(device)].serve(now, bytes, out)
    }

    /// What a quadlet read of the register at an offset of a device's node would be answered in cycle `now`.
    pub fn read(&self, device: u8, now: u64, offset: u64) -> Reply
        requires declared { device < length self.now.nodes }
        requires number { IsSome (node_at self.now.nodes device).number }
        ensures { (number : ℕ) → (node_at self.now.nodes device).number ≡ Some number → result ≡ (answer_of (space_of number now (node_at self.now.nodes device)) (Read offset)).reply }
    {
        self.nodes[usize::from(device)].read(now, offset)
    }

    /// The second after a bus reset is over, for each node: no plug lingers. No register changes.
    pub fn second_over(&mut self)
        ensures { self.new ≡ record self.old { nodes = map after_second self.old.nodes } }
    {
        end_second(&mut self.nodes);
    }
}
