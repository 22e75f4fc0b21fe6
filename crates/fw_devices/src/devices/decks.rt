//! Frames to the units that nodes have and from them, and their tapes.

ghost use Rattle.std.specs.Prelude.{◌≡◌, ◌<◌, ℕ, Some, None, IsSome, IsTrue, IfSome, is_some, length, slice_set};
ghost use Rattle.std.specs.Option.{option_map};
ghost use Rattle.fw_async.specs.Async.{Fits};
ghost use Rattle.fw_terms.specs.Devices.{has_link};
ghost use Rattle.fw_tape.specs.Blocks.{blocks_among};
ghost use Rattle.fw_tape.specs.Desks.{AnyVendorByte};
ghost use Rattle.fw_tape.specs.Motion.{inserted, MayPass};
ghost use Rattle.fw_node.specs.Fcp.{HasFollowed, frame_packet, next_frame, after_frame, number_of};
ghost use Rattle.fw_node.specs.Packets.{request_in, requester, response_of};
ghost use Rattle.fw_node.specs.State.{after_request, space_of};
ghost use Rattle.fw_devices.specs.Decks.{tape_of, with_tape, passed};
ghost use Rattle.fw_devices.specs.Network.{node_at};

use super::Devices;
use fw_async::Packet;
use fw_node::Node;
use fw_tape::{Desk, TapeSystem};
use fw_words::Bytes512;

// A tape goes into the unit of a node, if it has one.
fn insert(node: &mut Node, tape: u16, system: TapeSystem)
    ensures { node.new ≡ with_tape (Some (inserted tape system)) node.old }
{
    if let Some(unit) = node.unit() {
        unit.tape().put(tape, system);
    }
}

// The tape goes out of the unit of a node. Answers whether one was in.
fn eject(node: &mut Node) -> bool
    ensures was_in { result ≡ is_some (tape_of node.old) }
    ensures out { node.new ≡ with_tape None node.old }
{
    match node.unit() {
        Some(unit) => unit.tape().eject(),
        None => false,
    }
}

// Cycles go by for the tape of a node, if it has one. Answers how many blocks it gives in them.
#[inline(always)]
fn pass(node: &mut Node, cycles: u64) -> u64
    requires { MayPass cycles (tape_of node.old) }
    ensures blocks { result ≡ blocks_among (tape_of node.old) cycles }
    ensures moved { node.new ≡ passed cycles node.old }
{
    match node.unit() {
        Some(unit) => unit.tape().pass(cycles),
        None => 0,
    }
}

impl Devices {
    /// As `answer`, and a command frame that the packet writes to FCP_COMMAND of a deck or camcorder is carried out by its
    /// unit. Its response is the next packet of `outgoing`, which must have given the response to each command before.
    #[inline(always)]
    pub fn answer_frame<F: Fn(u16, u32, u16) -> [u8; 480], H: Fn(u32, u8) -> u8>(
        &mut self,
        device: u8,
        now: u64,
        packet: &Packet,
        desk: &Desk<F, H>,
    ) -> Packet<'static>
        requires desk { AnyVendorByte (H.pre desk.now.vendor) }
        requires request { IsSome (request_in packet.now) }
        requires declared { device < length self.old.nodes }
        requires number { IsSome (node_at self.old.nodes device).number }
        requires link { IsTrue (has_link (node_at self.old.nodes device).kind) }
        requires given { (node_at self.old.nodes device).waiting ≡ None }
        ensures response { (number : ℕ) → (node_at self.old.nodes device).number ≡ Some number → response_of (space_of number now (node_at self.old.nodes device)) packet.now ≡ Some result }
        ensures node { HasFollowed (H.post desk.now.vendor) (requester packet.now) (request_in packet.now) (after_request (request_in packet.now) (node_at self.old.nodes device)) (node_at self.new.nodes device) }
        ensures others { self.new ≡ record self.old { nodes = slice_set self.old.nodes device (node_at self.new.nodes device) } }
        ensures fits { Fits packet.now → Fits result }
    {
        self.nodes[usize::from(device)].answer(now, packet, desk)
    }

    /// The packet that the node of a device sends next (`fw_node::Node::outgoing`): the response to the latest command, if it
    /// waits, and then the notices of changes. The bytes of a frame of a block lie in `room`.
    #[inline(always)]
    pub fn outgoing<'a>(&mut self, device: u8, room: &'a mut Bytes512) -> Option<Packet<'a>>
        requires declared { device < length self.old.nodes }
        ensures packet { result ≡ option_map (frame_packet (number_of (node_at self.old.nodes device).number)) (next_frame (node_at self.old.nodes device)) }
        ensures node { self.new ≡ record self.old { nodes = slice_set self.old.nodes device (after_frame (node_at self.old.nodes device)) } }
        ensures fits { IfSome result Fits }
    {
        self.nodes[usize::from(device)].outgoing(room)
    }

    /// A tape with this number goes into a deck or camcorder, stopped at frame 0. It replaces one that is there. Another device
    /// stays as it is.
    pub fn insert(&mut self, device: u8, tape: u16, system: TapeSystem)
        requires declared { device < length self.old.nodes }
        ensures { self.new ≡ record self.old { nodes = slice_set self.old.nodes device (with_tape (Some (inserted tape system)) (node_at self.old.nodes device)) } }
    {
        insert(&mut self.nodes[usize::from(device)], tape, system);
    }

    /// Takes the tape out of a deck or camcorder. Answers whether one was in; if none was, nothing changes.
    pub fn eject(&mut self, device: u8) -> bool
        requires declared { device < length self.old.nodes }
        ensures was_in { result ≡ is_some (tape_of (node_at self.old.nodes device)) }
        ensures out { self.new ≡ record self.old { nodes = slice_set self.old.nodes device (with_tape None (node_at self.old.nodes device)) } }
    {
        eject(&mut self.nodes[usize::from(device)])
    }

    /// Cycles go by for the tape of a device, which moves if it plays, plays in reverse or records. Answers how many blocks it
    /// gives in them.
    #[inline(always)]
    pub fn pass(&mut self, device: u8, cycles: u64) -> u64
        requires declared { device < length self.old.nodes }
        requires tape { MayPass cycles (tape_of (node_at self.old.nodes device)) }
        ensures blocks { result ≡ blocks_among (tape_of (node_at self.old.nodes device)) cycles }
        ensures moved { self.new ≡ record self.old { nodes = slice_set self.old.nodes device (passed cycles (node_at self.old.nodes device)) } }
    {
        pass(&mut self.nodes[usize::from(device)], cycles)
    }
}
